//! Writes a segment in front of text that lies elsewhere, in two parts.
ghost use Rattle.std.specs.Prelude.{◌≡◌, ◌≤◌, ◌++◌, length, map, take, drop};
ghost use Rattle.tcp_wire.specs.Wire.{IsValid, encoded_bytes};
ghost use Rattle.tcp_wire.specs.View.{content_of, option_content, text_offset};

use crate::encoding::write_unsummed;
use crate::header::Header;
use crate::option::TcpOption;
use byteorder::{BigEndian, ByteOrder};
use tcp_numbers::{Addr, checksum_in_parts};

/// Writes header, options, padding and checksum of a segment whose text is `first` and then `second` (RFC 9293, 3.1).
/// Returns their length in bytes, after which the text would follow. The rest of `out` is unchanged.
#[inline(always)]
pub fn write_front(
    header: &Header,
    options: &[TcpOption<'_>],
    pad: u8,
    first: &[u8],
    second: &[u8],
    src: Addr,
    dst: Addr,
    out: &mut [u8],
) -> usize
    requires valid { IsValid (content_of header.now (map option_content options.now) pad (first.now ++ second.now)) }
    requires room { text_offset (map option_content options.now) pad ≤ length out.old }
    ensures len { result ≡ text_offset (map option_content options.now) pad }
    ensures written { take result out.new ++ (first.now ++ second.now) ≡ encoded_bytes src.0 dst.0 (content_of header.now (map option_content options.now) pad (first.now ++ second.now)) }
    ensures rest { drop result out.new ≡ drop result out.old }
{
    let len = write_unsummed(header, options, pad, 0, out);
    let field = checksum_in_parts(src, dst, &out[..len], first, second);
    BigEndian::write_u16(&mut out[16..], field);
    len
}
