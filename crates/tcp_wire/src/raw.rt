ghost use Rattle.std.specs.Prelude.{◌≡◌, ◌≤◌, length};
ghost use Rattle.tcp_wire.specs.Wire.{max_area_len, max_text_len};
ghost use Rattle.tcp_wire.specs.Decoded.{IsReadable};

use crate::header::Header;
use crate::option::TcpOption;
use crate::option_reading::{padding_len, read_options};
use crate::options_left::OptionsLeft;
use crate::segment::Segment;
use arrayvec::ArrayVec;

/// A segment as it arrived (RFC 9293, 3.1): its header by value, its options and its text as slices of what arrived. It
/// has no room for a list of options, as `Segment` has, so it is cheap to make and to lend.
#[derive(Clone, Copy, Debug)]
pub struct RawSegment<'a> {
    /// The fields of the fixed header.
    pub header: Header,
    /// The bytes of the options and of the zeros after them.
    pub area: &'a [u8],
    /// The data that it carries.
    pub text: &'a [u8],
    pub ghost area_fits: { length area.now ≤ max_area_len },
    pub ghost area_reads: { IsReadable area.now },
    pub ghost text_fits: { length text.now ≤ max_text_len },
}

impl<'a> RawSegment<'a> {
    ghost use Rattle.std.specs.Prelude.{◌↔◌, false, [], map};
    ghost use Rattle.tcp_wire.specs.Decoded.{options_of};
    ghost use Rattle.tcp_wire.specs.View.{option_content, content, raw_content, BodiesLie};

    /// Whether there are bytes between the fixed header and the text; where there are none, there are no options.
    #[inline(always)]
    pub fn has_area(&self) -> bool
        ensures area { (result ≡ false) ↔ (self.now.area.now ≡ []) }
        ensures none { result ≡ false → (raw_content self.now).options ≡ [] }
    {
        !self.area.is_empty()
    }

    /// The options in their order.
    pub fn options(&self) -> ArrayVec<TcpOption<'a>, 40>
        ensures items { map option_content result.items ≡ (raw_content self.now).options }
        ensures bodies { BodiesLie self.now.area.ref_ptr result.items }
    {
        read_options(self.area).0
    }

    /// The options one by one, without a list.
    pub fn options_left(&self) -> OptionsLeft<'a>
        ensures { result ≡ (raw_content self.now).options }
    {
        OptionsLeft::of(self.area)
    }

    /// How many bytes of padding come after the options, from the end-of-option-list byte on, which counts as one of them
    /// (RFC 9293, 3.1): 0 to 40, all zero. It is counted in place, without a list of the options.
    pub fn pad(&self) -> u8
        ensures { result ≡ (raw_content self.now).pad }
    {
        padding_len(self.area)
    }

    /// The segment with its options listed.
    #[inline(always)]
    #[tactic(auto, using(crate::proofs::Reading::no_options))]
    pub fn segment(&self) -> Segment<'a>
        ensures same { content result ≡ raw_content self.now }
        ensures text { result.text.ref_ptr ≡ self.now.text.ref_ptr }
        ensures bodies { BodiesLie self.now.area.ref_ptr result.options.items }
    {
        // Most segments have no options: no list is moved for them.
        if !self.has_area() {
            return self.with_options(ArrayVec::new(), 0);
        }
        let (options, pad) = read_options(self.area);
        self.with_options(options, pad)
    }

    /// The segment with these options and `pad` zeros after them.
    #[inline(always)]
    fn with_options(&self, options: ArrayVec<TcpOption<'a>, 40>, pad: u8) -> Segment<'a>
        requires options { map option_content options.items ≡ (options_of self.now.area.now).0 }
        requires pad { pad ≡ (options_of self.now.area.now).1 }
        ensures same { content result ≡ raw_content self.now }
        ensures text { result.text.ref_ptr ≡ self.now.text.ref_ptr }
        ensures options { result.options.items ≡ options.entry.items }
    {
        Segment {
            header: self.header,
            options,
            pad,
            text: self.text,
        }
    }
}
