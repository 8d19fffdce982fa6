ghost use Rattle.std.specs.Prelude.{◌≡◌, ◌↔◌, ◌+◌, ◌*◌, ◌<◌, ◌≤◌, List, ℕ, length, map, Ok, Err, IfOk, IsOkAnd, MatchResult, Result};
ghost use Rattle.tcp_wire.specs.declared.fault.DecodeError.{DecodeError};
ghost use Rattle.tcp_numbers.specs.Checksum.{DiffersInOnePlace};
ghost use Rattle.tcp_wire.specs.Wire.{Content, IsWire, header_len, max_len, max_text_len, data_offset, option_area};
ghost use Rattle.tcp_wire.specs.Fault.{FirstFault};
ghost use Rattle.tcp_wire.specs.Decoded.{decode_answer, content_at, layout_of, options_of, IsReadable};
ghost use Rattle.tcp_wire.specs.View.{content, raw_content, BodiesLie};

use crate::fault::DecodeError;
use crate::header::Header;
use crate::option_reading::check_options;
use crate::raw::RawSegment;
use crate::segment::{HEADER_LEN, MAX_LEN, MAX_OPTIONS, Segment};
use byteorder::{BigEndian, ByteOrder};
use tcp_numbers::{Addr, Flags, Seq, checks};

/// The fields of the fixed header, and the bytes after it up to `offset` and from there on.
#[inline(always)]
fn fields_of(bytes: &[u8], offset: usize) -> RawSegment<'_>
    requires header { header_len ≤ offset }
    requires inside { offset ≤ length bytes.now }
    requires most { length bytes.now ≤ max_len }
    requires offset { offset ≡ 4 * data_offset bytes.now }
    requires reads { IsReadable (option_area bytes.now) }
    ensures value { raw_content result ≡ content_at bytes.now (options_of (option_area bytes.now)).0 (options_of (option_area bytes.now)).1 }
    ensures area { result.area.now ≡ option_area bytes.now }
    ensures place { result.text.ref_ptr ≡ (bytes.entry.ref_ptr.0, bytes.entry.ref_ptr.1 + offset) }
    ensures area_place { result.area.ref_ptr ≡ (bytes.entry.ref_ptr.0, bytes.entry.ref_ptr.1 + header_len) }
{
    RawSegment {
        header: Header {
            src_port: BigEndian::read_u16(bytes),
            dst_port: BigEndian::read_u16(&bytes[2..]),
            seq: Seq(BigEndian::read_u32(&bytes[4..])),
            ack: Seq(BigEndian::read_u32(&bytes[8..])),
            reserved: bytes[12] % 16,
            flags: Flags(bytes[13]),
            window: BigEndian::read_u16(&bytes[14..]),
            urgent: BigEndian::read_u16(&bytes[18..]),
        },
        area: &bytes[HEADER_LEN..offset],
        text: &bytes[offset..],
    }
}

/// The content of the bytes, whose length and checksum are right.
#[inline(always)]
#[tactic(auto, using(crate::proofs::Reading::no_options, crate::proofs::Reading::readable), unfolding(crate::specs::Decoded::layout_of))]
pub(crate) fn lay_out(bytes: &[u8]) -> Result<RawSegment<'_>, DecodeError>
    requires least { header_len ≤ length bytes.now }
    requires most { length bytes.now ≤ max_len }
    ensures value { MatchResult result (λ s. layout_of bytes.now ≡ Ok (raw_content s)) (λ e. layout_of bytes.now ≡ Err e) }
    ensures place { IfOk result (λ s. s.text.ref_ptr ≡ (bytes.entry.ref_ptr.0, bytes.entry.ref_ptr.1 + 4 * data_offset bytes.now)) }
    ensures area_place { IfOk result (λ s. s.area.ref_ptr ≡ (bytes.entry.ref_ptr.0, bytes.entry.ref_ptr.1 + header_len)) }
{
    let offset = 4 * usize::from(bytes[12] / 16);
    if offset < HEADER_LEN || bytes.len() < offset {
        return Err(DecodeError::BadOffset);
    }
    // Most segments have no options to look at.
    if offset > HEADER_LEN {
        check_options(&bytes[HEADER_LEN..offset], HEADER_LEN, MAX_OPTIONS)?;
    }
    Ok(fields_of(bytes, offset))
}

/// The content of the bytes, or the first of their faults.
#[inline(always)]
#[tactic(auto, unfolding(crate::specs::Decoded::decode_answer))]
fn read_raw(src: Addr, dst: Addr, bytes: &[u8]) -> Result<RawSegment<'_>, DecodeError>
    ensures computed { MatchResult result (λ s. decode_answer src.0 dst.0 bytes.now ≡ Ok (raw_content s)) (λ e. decode_answer src.0 dst.0 bytes.now ≡ Err e) }
    ensures place { IfOk result (λ s. s.text.ref_ptr ≡ (bytes.entry.ref_ptr.0, bytes.entry.ref_ptr.1 + 4 * data_offset bytes.now)) }
    ensures area_place { IfOk result (λ s. s.area.ref_ptr ≡ (bytes.entry.ref_ptr.0, bytes.entry.ref_ptr.1 + header_len)) }
{
    if bytes.len() < HEADER_LEN {
        return Err(DecodeError::TooShort);
    }
    if bytes.len() > MAX_LEN {
        return Err(DecodeError::TooLong);
    }
    if !checks(src, dst, bytes) {
        return Err(DecodeError::BadChecksum);
    }
    lay_out(bytes)
}

/// The content of the bytes with the options listed, or the first of their faults.
#[inline(always)]
fn read_segment(src: Addr, dst: Addr, bytes: &[u8]) -> Result<Segment<'_>, DecodeError>
    ensures computed { MatchResult result (λ s. decode_answer src.0 dst.0 bytes.now ≡ Ok (content s)) (λ e. decode_answer src.0 dst.0 bytes.now ≡ Err e) }
    ensures place { IfOk result (λ s. s.text.ref_ptr ≡ (bytes.entry.ref_ptr.0, bytes.entry.ref_ptr.1 + 4 * data_offset bytes.now)) }
    ensures bodies { IfOk result (λ s. BodiesLie (bytes.entry.ref_ptr.0, bytes.entry.ref_ptr.1 + header_len) s.options.items) }
{
    match read_raw(src, dst, bytes) {
        Ok(raw) => Ok(raw.segment()),
        Err(fault) => Err(fault),
    }
}

impl<'a> RawSegment<'a> {
    /// Reads a segment that came from `src` to `dst` as [`decode`] does, and leaves its options where they are (RFC
    /// 9293, 3.1).
    #[inline(always)]
    pub fn parse(src: Addr, dst: Addr, bytes: &'a [u8]) -> Result<RawSegment<'a>, DecodeError>
        // Ok exactly on the grammar, with the segment's content.
        ensures value { (v : Content) → (IsOkAnd result (λ s. raw_content s ≡ v)) ↔ IsWire src.0 dst.0 v bytes.now }
        // Each refusal exactly where it is the first fault.
        ensures fault { (e : DecodeError) → (result ≡ Err e) ↔ FirstFault src.0 dst.0 bytes.now e }
        // A segment with one changed byte is refused for its checksum.
        ensures replaced { (v : Content) (sent : List ℕ) → IsWire src.0 dst.0 v sent → DiffersInOnePlace sent bytes.now → result ≡ Err DecodeError.BadChecksum }
        ensures computed { MatchResult result (λ s. decode_answer src.0 dst.0 bytes.now ≡ Ok (raw_content s)) (λ e. decode_answer src.0 dst.0 bytes.now ≡ Err e) }
        ensures short { IfOk result (λ s. length s.text.now ≤ max_text_len) }
        ensures place { IfOk result (λ s. s.text.ref_ptr ≡ (bytes.entry.ref_ptr.0, bytes.entry.ref_ptr.1 + 4 * data_offset bytes.now)) }
        ensures area_place { IfOk result (λ s. s.area.ref_ptr ≡ (bytes.entry.ref_ptr.0, bytes.entry.ref_ptr.1 + header_len)) }
    {
        read_raw(src, dst, bytes)
    }
}

/// Reads a segment that came from `src` to `dst`, or finds the first fault (RFC 9293, 3.1). Text and the bodies of
/// `Unknown` options are slices of the input.
#[inline(always)]
pub fn decode(src: Addr, dst: Addr, bytes: &[u8]) -> Result<Segment<'_>, DecodeError>
    // Ok exactly on the grammar, with the segment's content.
    ensures value { (v : Content) → (IsOkAnd result (λ s. content s ≡ v)) ↔ IsWire src.0 dst.0 v bytes.now }
    // Each refusal exactly where it is the first fault.
    ensures fault { (e : DecodeError) → (result ≡ Err e) ↔ FirstFault src.0 dst.0 bytes.now e }
    ensures place { IfOk result (λ s. s.text.ref_ptr ≡ (bytes.entry.ref_ptr.0, bytes.entry.ref_ptr.1 + 4 * data_offset bytes.now)) }
    ensures short { IfOk result (λ s. length s.text.now ≤ max_text_len) }
    ensures bodies { IfOk result (λ s. BodiesLie (bytes.entry.ref_ptr.0, bytes.entry.ref_ptr.1 + header_len) s.options.items) }
    // A segment with one changed byte is refused for its checksum.
    ensures replaced { (v : Content) (sent : List ℕ) → IsWire src.0 dst.0 v sent → DiffersInOnePlace sent bytes.now → result ≡ Err DecodeError.BadChecksum }
    ensures computed { MatchResult result (λ s. decode_answer src.0 dst.0 bytes.now ≡ Ok (content s)) (λ e. decode_answer src.0 dst.0 bytes.now ≡ Err e) }
{
    read_segment(src, dst, bytes)
}
