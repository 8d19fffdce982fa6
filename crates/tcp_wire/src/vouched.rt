//! A segment whose checksum a device has checked.
ghost use Rattle.std.specs.Prelude.{◌≡◌, ◌↔◌, ◌+◌, ◌*◌, ◌≤◌, length, Ok, Err, IfOk, IsOkAnd, MatchResult};
ghost use Rattle.tcp_wire.specs.declared.fault.DecodeError.{DecodeError};
ghost use Rattle.tcp_wire.specs.Wire.{Content, IsWire, data_offset, header_len, max_text_len};
ghost use Rattle.tcp_wire.specs.Fault.{FirstFault};
ghost use Rattle.tcp_wire.specs.Decoded.{decode_answer};
ghost use Rattle.tcp_wire.specs.View.{raw_content};
ghost use Rattle.tcp_wire.specs.Vouched.{with_right_sum};

use crate::decoding::lay_out;
use crate::fault::DecodeError;
use crate::raw::RawSegment;
use crate::segment::{HEADER_LEN, MAX_LEN};
use tcp_numbers::Addr;

impl<'a> RawSegment<'a> {
    /// Reads a segment whose checksum a device has found right (RFC 9293, 3.1), and doesn't sum it. Whatever the bytes
    /// are, the answer is that of [`parse`](RawSegment::parse) for the same bytes with the checksum field that is right
    /// for them. So it is never `BadChecksum`, and it isn't promised that a changed byte is refused.
    #[inline(always)]
    pub fn parse_vouched(
        src: Addr,
        dst: Addr,
        bytes: &'a [u8],
    ) -> Result<RawSegment<'a>, DecodeError>
        ensures value { (v : Content) → (IsOkAnd result (λ s. raw_content s ≡ v)) ↔ IsWire src.0 dst.0 v (with_right_sum src.0 dst.0 bytes.now) }
        ensures fault { (e : DecodeError) → (result ≡ Err e) ↔ FirstFault src.0 dst.0 (with_right_sum src.0 dst.0 bytes.now) e }
        ensures computed { let read = decode_answer src.0 dst.0 (with_right_sum src.0 dst.0 bytes.now) in MatchResult result (λ s. read ≡ Ok (raw_content s)) (λ e. read ≡ Err e) }
        ensures short { IfOk result (λ s. length s.text.now ≤ max_text_len) }
        ensures place { IfOk result (λ s. s.text.ref_ptr ≡ (bytes.entry.ref_ptr.0, bytes.entry.ref_ptr.1 + 4 * data_offset bytes.now)) }
        ensures area_place { IfOk result (λ s. s.area.ref_ptr ≡ (bytes.entry.ref_ptr.0, bytes.entry.ref_ptr.1 + header_len)) }
    {
        read_vouched(src, dst, bytes)
    }
}

/// The content of the bytes apart from their checksum field, or the first of their faults.
#[inline(always)]
fn read_vouched(src: Addr, dst: Addr, bytes: &[u8]) -> Result<RawSegment<'_>, DecodeError>
    ensures computed { let read = decode_answer src.0 dst.0 (with_right_sum src.0 dst.0 bytes.now) in MatchResult result (λ s. read ≡ Ok (raw_content s)) (λ e. read ≡ Err e) }
    ensures place { IfOk result (λ s. s.text.ref_ptr ≡ (bytes.entry.ref_ptr.0, bytes.entry.ref_ptr.1 + 4 * data_offset bytes.now)) }
    ensures area_place { IfOk result (λ s. s.area.ref_ptr ≡ (bytes.entry.ref_ptr.0, bytes.entry.ref_ptr.1 + header_len)) }
{
    if bytes.len() < HEADER_LEN {
        return Err(DecodeError::TooShort);
    }
    if bytes.len() > MAX_LEN {
        return Err(DecodeError::TooLong);
    }
    lay_out(bytes)
}
