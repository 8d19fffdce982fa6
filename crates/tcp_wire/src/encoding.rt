ghost use Rattle.std.specs.Prelude.{◌≡◌, ◌⊎◌, ◌+◌, ◌/◌, ◌++◌, ◌≤◌, ℕ, List, [], length, map, drop};
ghost use Rattle.tcp_wire.specs.Options.{AreSpellable};
ghost use Rattle.tcp_wire.specs.Wire.{IsWire, IsValid, HasOtherZero, header_len, area_bytes, number_bytes, control_bytes, wire_length, encoded_bytes, segment_bytes};
ghost use Rattle.tcp_wire.specs.View.{content, content_of, option_content, text_offset, around};

use crate::header::{Header, text_offset};
use crate::option::TcpOption;
use crate::option_writing::write_options;
use crate::segment::{HEADER_LEN, Segment};
use byteorder::{BigEndian, ByteOrder};
use tcp_numbers::{Addr, checksum};

/// Writes ports, sequence number and acknowledgement number.
fn write_numbers(header: &Header, out: &mut [u8])
    requires { 12 ≤ length out.old }
    ensures { out.new ≡ number_bytes (content_of header.now [] 0 []) ++ drop 12 out.old }
{
    BigEndian::write_u16(out, header.src_port);
    BigEndian::write_u16(&mut out[2..], header.dst_port);
    BigEndian::write_u32(&mut out[4..], header.seq.0);
    BigEndian::write_u32(&mut out[8..], header.ack.0);
}

/// Writes Data Offset, control bits, window, a checksum field of zero, and the urgent pointer.
fn write_controls(header: &Header, offset: u8, out: &mut [u8])
    requires reserved { header.now.reserved ≤ 15 }
    requires low { offset ≤ 15 }
    requires room { 8 ≤ length out.old }
    ensures { out.new ≡ control_bytes (content_of header.now [] 0 []) offset 0 ++ drop 8 out.old }
{
    out[0] = 16 * offset + header.reserved;
    out[1] = header.flags.0;
    BigEndian::write_u16(&mut out[2..], header.window);
    BigEndian::write_u16(&mut out[4..], 0);
    BigEndian::write_u16(&mut out[6..], header.urgent);
}

/// Writes the fixed header with this Data Offset, in words, and a checksum field of zero.
fn write_header(header: &Header, offset: u8, out: &mut [u8])
    requires reserved { header.now.reserved ≤ 15 }
    requires low { offset ≤ 15 }
    requires room { header_len ≤ length out.old }
    ensures { out.new ≡ number_bytes (content_of header.now [] 0 []) ++ (control_bytes (content_of header.now [] 0 []) offset 0 ++ drop header_len out.old) }
{
    write_numbers(header, out);
    write_controls(header, offset, &mut out[12..]);
}

/// Writes options and padding, and returns their length.
fn write_area(options: &[TcpOption<'_>], pad: u8, out: &mut [u8]) -> usize
    requires spellable { AreSpellable (map option_content options.now) }
    requires room { length (area_bytes (map option_content options.now) pad) ≤ length out.old }
    ensures len { result ≡ length (area_bytes (map option_content options.now) pad) }
    ensures written { out.new ≡ area_bytes (map option_content options.now) pad ++ drop (length (area_bytes (map option_content options.now) pad)) out.old }
{
    let spelled = write_options(options, out);
    let len = spelled + usize::from(pad);
    out[spelled..len].fill(0);
    len
}

/// Writes all but the text, with a checksum field of zero, and returns the length of the whole.
pub(crate) fn write_unsummed(
    header: &Header,
    options: &[TcpOption<'_>],
    pad: u8,
    text_len: usize,
    out: &mut [u8],
) -> usize
    requires valid { IsValid (around header.now options.now pad text_len out.old) }
    requires room { text_offset (map option_content options.now) pad + text_len ≤ length out.old }
    ensures len { result ≡ wire_length (around header.now options.now pad text_len out.old) }
    ensures written { out.new ≡ segment_bytes (around header.now options.now pad text_len out.old) 0 ++ drop (wire_length (around header.now options.now pad text_len out.old)) out.old }
{
    let offset = HEADER_LEN + write_area(options, pad, &mut out[HEADER_LEN..]);
    write_header(header, (offset / 4) as u8, out);
    offset + text_len
}

/// Writes header, options, padding and checksum around the text of a segment, which is in `out` already, from byte
/// `text_offset` on (RFC 9293, 3.1). Returns the length of the whole segment in bytes. The rest of `out` is unchanged.
#[inline(always)]
pub fn write_around(
    header: &Header,
    options: &[TcpOption<'_>],
    pad: u8,
    text_len: usize,
    src: Addr,
    dst: Addr,
    out: &mut [u8],
) -> usize
    requires valid { IsValid (around header.now options.now pad text_len out.old) }
    requires room { text_offset (map option_content options.now) pad + text_len ≤ length out.old }
    ensures len { result ≡ wire_length (around header.now options.now pad text_len out.old) }
    ensures written { out.new ≡ encoded_bytes src.0 dst.0 (around header.now options.now pad text_len out.old) ++ drop (wire_length (around header.now options.now pad text_len out.old)) out.old }
    ensures wire { IsWire src.0 dst.0 (around header.now options.now pad text_len out.old) (encoded_bytes src.0 dst.0 (around header.now options.now pad text_len out.old)) }
    // Any other bytes for this segment differ in the checksum alone, 0000 against ffff.
    ensures only { (other : List ℕ) → IsWire src.0 dst.0 (around header.now options.now pad text_len out.old) other → (other ≡ encoded_bytes src.0 dst.0 (around header.now options.now pad text_len out.old)) ⊎ HasOtherZero (encoded_bytes src.0 dst.0 (around header.now options.now pad text_len out.old)) other }
{
    let len = write_unsummed(header, options, pad, text_len, out);
    let field = checksum(src, dst, &out[..len]);
    BigEndian::write_u16(&mut out[16..], field);
    len
}

/// Writes the segment from byte 0 of `out` on, as it goes from `src` to `dst`, and returns its length in bytes (RFC
/// 9293, 3.1). The rest of `out` is unchanged.
pub fn encode(segment: &Segment<'_>, src: Addr, dst: Addr, out: &mut [u8]) -> usize
    requires valid { IsValid (content segment.now) }
    requires room { wire_length (content segment.now) ≤ length out.old }
    ensures len { result ≡ wire_length (content segment.now) }
    ensures written { out.new ≡ encoded_bytes src.0 dst.0 (content segment.now) ++ drop (wire_length (content segment.now)) out.old }
    ensures wire { IsWire src.0 dst.0 (content segment.now) (encoded_bytes src.0 dst.0 (content segment.now)) }
    // Any other bytes for this segment differ in the checksum alone, 0000 against ffff.
    ensures only { (other : List ℕ) → IsWire src.0 dst.0 (content segment.now) other → (other ≡ encoded_bytes src.0 dst.0 (content segment.now)) ⊎ HasOtherZero (encoded_bytes src.0 dst.0 (content segment.now)) other }
{
    let options = segment.options.as_slice();
    let at = text_offset(options, segment.pad);
    let len = segment.text.len();
    out[at..at + len].copy_from_slice(segment.text);
    write_around(&segment.header, options, segment.pad, len, src, dst, out)
}
