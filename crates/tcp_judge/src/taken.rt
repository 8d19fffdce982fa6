//! What came, as an end may take it.
ghost use Rattle.std.specs.Prelude.{◌≡◌, ◌*◌, ◌≤◌, Option, IfSome, length, drop, option_map};
ghost use Rattle.tcp_wire.specs.Decoded.{content_at};
ghost use Rattle.tcp_wire.specs.View.{content_of, raw_content};
ghost use Rattle.tcp_wire.specs.Wire.{header_len, max_len, max_text_len, data_offset};
ghost use Rattle.tcp_judge.specs.Taken.{any_offer, taken_of};

use byteorder::{BigEndian, ByteOrder};
use tcp_wire::{Addr, DecodeError, Flags, Header, RawSegment, Seq};

/// What a SYN may offer, as bytes: the greatest window scale, SACK-permitted and TCP Fast Open.
const OFFER: [u8; 7] = [3, 3, 14, 4, 2, 34, 2];

/// The header of bytes whose options can't be read.
fn header_of(bytes: &[u8]) -> Header
    requires { header_len ≤ length bytes.now }
    ensures { content_of result any_offer 0 (drop (4 * data_offset bytes.now) bytes.now) ≡ content_at bytes.now any_offer 0 }
{
    Header {
        src_port: BigEndian::read_u16(bytes),
        dst_port: BigEndian::read_u16(&bytes[2..]),
        seq: Seq(BigEndian::read_u32(&bytes[4..])),
        ack: Seq(BigEndian::read_u32(&bytes[8..])),
        reserved: bytes[12] % 16,
        flags: Flags(bytes[13]),
        window: BigEndian::read_u16(&bytes[14..]),
        urgent: BigEndian::read_u16(&bytes[18..]),
    }
}

/// The text of bytes whose options can't be read.
fn text_of(bytes: &[u8]) -> &[u8]
    requires least { header_len ≤ length bytes.now }
    requires inside { 4 * data_offset bytes.now ≤ length bytes.now }
    ensures { result.now ≡ drop (4 * data_offset bytes.now) bytes.now }
{
    let offset = 4 * usize::from(bytes[12] / 16);
    &bytes[offset..]
}

/// The header and the text of bytes whose options can't be read, with what a SYN may offer in their place.
fn read_around(bytes: &[u8]) -> RawSegment<'_>
    requires least { header_len ≤ length bytes.now }
    requires inside { 4 * data_offset bytes.now ≤ length bytes.now }
    requires short { length bytes.now ≤ max_len }
    requires behind { 5 ≤ data_offset bytes.now }
    ensures { raw_content result ≡ content_at bytes.now any_offer 0 }
{
    RawSegment {
        header: header_of(bytes),
        area: &OFFER,
        text: text_of(bytes),
    }
}

/// What came from `src` to `dst`, as far as an end may take it: an end may pass over options that can't be read (RFC
/// 9293, 3.1).
pub(crate) fn read_taken(src: Addr, dst: Addr, bytes: &[u8]) -> Option<RawSegment<'_>>
    ensures taken { option_map raw_content result ≡ taken_of src.0 dst.0 bytes.now }
    ensures short { IfSome result (λ segment. length segment.text.now ≤ max_text_len) }
{
    match RawSegment::parse(src, dst, bytes) {
        Ok(segment) => Some(segment),
        Err(DecodeError::BadOption { .. }) => Some(read_around(bytes)),
        Err(DecodeError::BadPadding { .. }) => Some(read_around(bytes)),
        Err(_) => None,
    }
}
