ghost use Rattle.std.specs.Prelude.{◌≡◌, ◌↔◌, ◌+◌, ◌^◌, ◌<◌, ◌≤◌, length, map, IsTrue, IsSome, IfSome};
ghost use Rattle.tcp_numbers.specs.Checksum.{AreBytes};
ghost use Rattle.tcp_wire.specs.Wire.{IsValid, max_area_len, max_len, wire_length};
ghost use Rattle.tcp_wire.specs.Options.{AreSpellable, spellings};
ghost use Rattle.tcp_wire.specs.View.{content, option_content};

use crate::header::Header;
use crate::option::TcpOption;
use arrayvec::ArrayVec;

/// The length in bytes of the fixed header (RFC 9293, 3.1).
pub const HEADER_LEN: usize = 20;
/// The most options of a segment: one for each byte of their area.
pub(crate) const MAX_OPTIONS: usize = 40;
/// The length in bytes of the longest segment: what an IPv4 packet carries after its own header.
pub(crate) const MAX_LEN: usize = 65515;

/// A segment (RFC 9293, 3.1), without its checksum.
#[derive(Clone, Debug, PartialEq, Eq, Drop)]
pub struct Segment<'a> {
    /// The fields of the fixed header.
    pub header: Header,
    /// The options in their order, without the end of their list (kind 0).
    pub options: ArrayVec<TcpOption<'a>, 40>,
    /// The count of zero bytes after the options, from the end of their list (kind 0) on.
    pub pad: u8,
    /// The data that it carries.
    pub text: &'a [u8],
}

/// The length in bytes of these options and this padding, where each option can be written.
pub(crate) fn area_len(options: &[TcpOption<'_>], pad: u8) -> Option<usize>
    requires { length options.now ≤ max_area_len }
    ensures some { IsSome result ↔ AreSpellable (map option_content options.now) }
    ensures len { IfSome result (λ n. n ≡ length (spellings (map option_content options.now)) + pad) }
    ensures small { IfSome result (λ n. n < 2 ^ 11) }
{
    let mut len = usize::from(pad);
    for option in options {
        len += option.spelled_len()?;
    }
    Some(len)
}

/// Whether a text and `before` bytes before it are no longer than the longest segment.
fn fits_after(before: usize, text: &[u8]) -> bool
    requires { before ≤ 60 }
    ensures exact { IsTrue result ↔ (before + length text.now ≤ max_len) }
    ensures bytes { AreBytes text.now }
{
    text.len() <= MAX_LEN - before
}

impl Segment<'_> {
    /// Whether the segment can be written. `reserved` is at most 15. Each option has a spelling: a `Sack` has 1 to 4
    /// blocks, and an `Unknown` has a kind of at least 2, a body of at most 38 bytes, and not the length of a known
    /// kind. Options and padding are a multiple of 4 bytes, and at most 40. The whole is at most 65515 bytes.
    pub fn is_valid(&self) -> bool
        ensures { IsTrue result ↔ IsValid (content self.now) }
    {
        let header = self.header;
        if header.reserved > 15 {
            return false;
        }
        let Some(area) = area_len(self.options.as_slice(), self.pad) else {
            return false;
        };
        if area % 4 != 0 || area > 40 {
            return false;
        }
        fits_after(HEADER_LEN + area, self.text)
    }

    /// The length of the whole in bytes, where the segment is valid, else 0.
    pub fn wire_len(&self) -> usize
        ensures valid { IsValid (content self.now) → result ≡ wire_length (content self.now) }
        ensures invalid { ¬ IsValid (content self.now) → result ≡ 0 }
    {
        if !self.is_valid() {
            return 0;
        }
        match area_len(self.options.as_slice(), self.pad) {
            None => 0,
            Some(area) => HEADER_LEN + area + self.text.len(),
        }
    }
}
