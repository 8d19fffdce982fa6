ghost use Rattle.std.specs.Prelude.{◌≡◌, ◌≤◌, length, map};
ghost use Rattle.tcp_wire.specs.Options.{AreSpellable};
ghost use Rattle.tcp_wire.specs.Wire.{max_area_len};
ghost use Rattle.tcp_wire.specs.View.{option_content, text_offset};

use crate::option::TcpOption;
use crate::segment::{HEADER_LEN, area_len};
use tcp_numbers::{Flags, Seq};

/// The fields of the fixed header (RFC 9293, 3.1), without the Data Offset and the checksum.
#[derive(Clone, Copy, Debug, PartialEq, Eq)]
pub struct Header {
    /// The port that it comes from.
    pub src_port: u16,
    /// The port that it goes to.
    pub dst_port: u16,
    /// The sequence number of the first byte of text, or of the SYN.
    pub seq: Seq,
    /// The next number that the sender of the segment expects, where ACK is set.
    pub ack: Seq,
    /// The low four bits after the Data Offset, 0 to 15.
    pub reserved: u8,
    /// The control bits.
    pub flags: Flags,
    /// The window field, as it is in the segment.
    pub window: u16,
    /// The urgent pointer, carried and not used.
    pub urgent: u16,
}

/// The Data Offset (RFC 9293, 3.1) in bytes, where the text of a segment with these options and this padding begins. It
/// is after the fixed header, the options, at most 40 of which each can be written, and the zeros.
pub fn text_offset(options: &[TcpOption<'_>], pad: u8) -> usize
    requires few { length options.now ≤ max_area_len }
    requires spellable { AreSpellable (map option_content options.now) }
    ensures { result ≡ text_offset (map option_content options.now) pad }
{
    match area_len(options, pad) {
        None => 0,
        Some(area) => HEADER_LEN + area,
    }
}
