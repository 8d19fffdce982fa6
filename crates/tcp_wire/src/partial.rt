//! Writes a segment for a device that computes its checksum.
ghost use Rattle.std.specs.Prelude.{◌≡◌, ◌+◌, ◌++◌, ◌≤◌, length, map, take, drop};
ghost use Rattle.tcp_wire.specs.Wire.{IsValid, encoded_bytes, wire_length};
ghost use Rattle.tcp_wire.specs.View.{around, option_content, text_offset};
ghost use Rattle.tcp_wire.specs.Partial.{completed, with_partial_sum};

use crate::encoding::write_unsummed;
use crate::header::Header;
use crate::option::TcpOption;
use byteorder::{BigEndian, ByteOrder};
use tcp_numbers::{Addr, partial_checksum};

/// Writes as [`write_around`](crate::write_around) does, for a device that computes the checksum. The checksum field
/// has the ones' complement sum of the pseudo-header alone (RFC 9293, 3.1; RFC 1071, 2), and the text isn't summed.
/// Once the device has completed the field, the bytes are those of `write_around`.
#[inline(always)]
pub fn write_around_partial(
    header: &Header,
    options: &[TcpOption<'_>],
    pad: u8,
    text_len: usize,
    src: Addr,
    dst: Addr,
    out: &mut [u8],
) -> usize
    requires valid { IsValid (around header.now options.now pad text_len out.old) }
    requires room { text_offset (map option_content options.now) pad + text_len ≤ length out.old }
    ensures len { result ≡ wire_length (around header.now options.now pad text_len out.old) }
    ensures written { out.new ≡ with_partial_sum src.0 dst.0 (encoded_bytes src.0 dst.0 (around header.now options.now pad text_len out.old)) ++ drop (wire_length (around header.now options.now pad text_len out.old)) out.old }
    ensures completes { completed (take result out.new) ≡ encoded_bytes src.0 dst.0 (around header.now options.now pad text_len out.old) }
{
    let len = write_unsummed(header, options, pad, text_len, out);
    let field = partial_checksum(src, dst, len);
    BigEndian::write_u16(&mut out[16..], field);
    len
}
