//! Segments (RFC 9293, 3.1): all fields, or a summary.
ghost use Rattle.std.specs.Prelude.{◌≡◌, ℕ, ◌++◌, List, [], OnOk, string_bytes, map, codes, decimal, length};
ghost use Rattle.tcp_wire.specs.Options.{OptionContent};
ghost use Rattle.tcp_wire.specs.View.{content, content_of, raw_content, option_content, block};
ghost use Rattle.kit_text.specs.Texts.{blocks_text, bytes_text};
ghost use Rattle.kit_text.specs.Segments.{numbers_text, control_text, rest_text, fields_text, first_blocks, summary_text};

use crate::bytes::push_bytes;
use crate::control_bits::push_flags;
use crate::options::{push_blocks, push_options, push_options_left};
use crate::room::{ROOM, push_from, put, put_number};
use std::alloc::{AllocError, Allocator};
use tcp_wire::{Header, OptionsLeft, RawSegment, Segment, Seq, TcpOption};

/// Ports and numbers.
#[tactic(auto, unfolding(crate::specs::Segments::numbers_text))]
fn push_numbers<A: Allocator>(text: &mut String<A>, header: &Header) -> Result<(), AllocError>
    ensures { OnOk result (string_bytes text.new ≡ string_bytes text.old ++ numbers_text (content_of header.now [] 0 [])) }
{
    let (seq, ack) = (header.seq.0, header.ack.0);
    let mut room = [0u8; ROOM];
    let at = put_number(&mut room, ROOM, u64::from(ack));
    let at = put(&mut room, at, " ack ");
    let at = put_number(&mut room, at, u64::from(seq));
    let at = put(&mut room, at, " seq ");
    let at = put_number(&mut room, at, u64::from(header.dst_port));
    let at = put(&mut room, at, " > ");
    let at = put_number(&mut room, at, u64::from(header.src_port));
    push_from(text, &room, at)
}

/// The reserved bits, up to the control bits.
fn push_reserved<A: Allocator>(text: &mut String<A>, reserved: u8) -> Result<(), AllocError>
    ensures { OnOk result (string_bytes text.new ≡ string_bytes text.old ++ (codes " reserved " ++ (decimal reserved ++ codes " flags "))) }
{
    let mut room = [0u8; ROOM];
    let at = put(&mut room, ROOM, " flags ");
    let at = put_number(&mut room, at, u64::from(reserved));
    let at = put(&mut room, at, " reserved ");
    push_from(text, &room, at)
}

/// Window and urgent pointer.
fn push_window<A: Allocator>(
    text: &mut String<A>,
    window: u16,
    urgent: u16,
) -> Result<(), AllocError>
    ensures { OnOk result (string_bytes text.new ≡ string_bytes text.old ++ (codes " window " ++ (decimal window ++ (codes " urgent " ++ decimal urgent)))) }
{
    let mut room = [0u8; ROOM];
    let at = put_number(&mut room, ROOM, u64::from(urgent));
    let at = put(&mut room, at, " urgent ");
    let at = put_number(&mut room, at, u64::from(window));
    let at = put(&mut room, at, " window ");
    push_from(text, &room, at)
}

/// The other fields of the fixed header.
#[tactic(auto, unfolding(crate::specs::Segments::control_text))]
fn push_control<A: Allocator>(text: &mut String<A>, header: &Header) -> Result<(), AllocError>
    ensures { OnOk result (string_bytes text.new ≡ string_bytes text.old ++ control_text (content_of header.now [] 0 [])) }
{
    push_reserved(text, header.reserved)?;
    push_flags(text, header.flags)?;
    push_window(text, header.window, header.urgent)
}

/// The fields of the fixed header, which are the same whatever comes after it.
#[tactic(auto, unfolding(crate::specs::Segments::numbers_text, crate::specs::Segments::control_text))]
fn push_header<A: Allocator>(text: &mut String<A>, header: &Header) -> Result<(), AllocError>
    ensures { (options : List OptionContent) (pad : ℕ) (body : List ℕ) → OnOk result (string_bytes text.new ≡ string_bytes text.old ++ (numbers_text (content_of header.now options pad body) ++ control_text (content_of header.now options pad body))) }
{
    push_numbers(text, header)?;
    push_control(text, header)
}

/// How many zero bytes fill the header, up to the text.
fn push_pad<A: Allocator>(text: &mut String<A>, pad: u8) -> Result<(), AllocError>
    ensures { OnOk result (string_bytes text.new ≡ string_bytes text.old ++ (codes " pad " ++ (decimal pad ++ codes " text "))) }
{
    let mut room = [0u8; ROOM];
    let at = put(&mut room, ROOM, " text ");
    let at = put_number(&mut room, at, u64::from(pad));
    let at = put(&mut room, at, " pad ");
    push_from(text, &room, at)
}

/// The zeros that fill the header, and the text.
fn push_end<A: Allocator + Copy>(
    alloc: A,
    text: &mut String<A>,
    pad: u8,
    bytes: &[u8],
) -> Result<(), AllocError>
    ensures { OnOk result (string_bytes text.new ≡ string_bytes text.old ++ (codes " pad " ++ (decimal pad ++ (codes " text " ++ bytes_text bytes.now)))) }
{
    push_pad(text, pad)?;
    push_bytes(alloc, text, bytes)
}

/// What comes after the fixed header.
#[tactic(auto, unfolding(crate::specs::Segments::rest_text))]
fn push_rest<A: Allocator + Copy>(
    alloc: A,
    text: &mut String<A>,
    segment: &Segment<'_>,
) -> Result<(), AllocError>
    ensures { OnOk result (string_bytes text.new ≡ string_bytes text.old ++ rest_text (content segment.now)) }
{
    text.push_str(" options ")?;
    push_options(alloc, text, segment.options.as_slice())?;
    push_end(alloc, text, segment.pad, segment.text)
}

/// The same of a segment whose options stay where they came.
#[tactic(auto, unfolding(crate::specs::Segments::rest_text))]
fn push_raw_rest<A: Allocator + Copy>(
    alloc: A,
    text: &mut String<A>,
    segment: &RawSegment<'_>,
) -> Result<(), AllocError>
    ensures { OnOk result (string_bytes text.new ≡ string_bytes text.old ++ rest_text (raw_content segment.now)) }
{
    text.push_str(" options ")?;
    push_options_left(alloc, text, segment.options_left())?;
    push_end(alloc, text, segment.pad(), segment.text)
}

/// Appends all fields of a segment but its checksum (RFC 9293, 3.1).
pub fn push_fields<A: Allocator + Copy>(
    alloc: A,
    text: &mut String<A>,
    segment: &Segment<'_>,
) -> Result<(), AllocError>
    ensures { OnOk result (string_bytes text.new ≡ string_bytes text.old ++ fields_text (content segment.now)) }
{
    push_header(text, &segment.header)?;
    push_rest(alloc, text, segment)
}

/// Appends the same of a segment whose options stay where they came: few have any, and a list of them has room for forty
/// to be filled and moved.
pub(crate) fn push_raw_fields<A: Allocator + Copy>(
    alloc: A,
    text: &mut String<A>,
    segment: &RawSegment<'_>,
) -> Result<(), AllocError>
    ensures { OnOk result (string_bytes text.new ≡ string_bytes text.old ++ fields_text (raw_content segment.now)) }
{
    push_header(text, &segment.header)?;
    push_raw_rest(alloc, text, segment)
}

/// The blocks that the first option with blocks reports (RFC 2018, 3).
fn first_blocks<'a>(options: &'a [TcpOption<'_>]) -> &'a [(Seq, Seq)]
    ensures { map block result.now ≡ first_blocks (map option_content options.now) }
{
    for option in options {
        if let TcpOption::Sack(blocks) = option {
            return blocks.as_slice();
        }
    }
    &[]
}

/// Numbers, window and the text's length.
fn push_counts<A: Allocator>(
    text: &mut String<A>,
    header: &Header,
    text_len: usize,
) -> Result<(), AllocError>
    ensures { OnOk result (string_bytes text.new ≡ string_bytes text.old ++ (codes " seq " ++ (decimal header.now.seq.0 ++ (codes " ack " ++ (decimal header.now.ack.0 ++ (codes " window " ++ (decimal header.now.window ++ (codes " text " ++ (decimal text_len ++ codes " sack "))))))))) }
{
    let mut room = [0u8; ROOM];
    let at = put(&mut room, ROOM, " sack ");
    let at = put_number(&mut room, at, text_len as u64);
    let at = put(&mut room, at, " text ");
    let at = put_number(&mut room, at, u64::from(header.window));
    let at = put(&mut room, at, " window ");
    let at = put_number(&mut room, at, u64::from(header.ack.0));
    let at = put(&mut room, at, " ack ");
    let at = put_number(&mut room, at, u64::from(header.seq.0));
    let at = put(&mut room, at, " seq ");
    push_from(text, &room, at)
}

/// Appends a segment's flags, numbers and window, its text's length and the blocks of its first SACK option (RFC 9293, 3.1;
/// RFC 2018, 3): `flags ACK seq 1 ack 2 window 3 text 4 sack -`. `Err` is want of memory.
#[tactic(auto, unfolding(crate::specs::Segments::summary_text))]
pub fn push_summary<A: Allocator>(
    text: &mut String<A>,
    segment: &Segment<'_>,
) -> Result<(), AllocError>
    ensures { OnOk result (string_bytes text.new ≡ string_bytes text.old ++ summary_text (content segment.now)) }
{
    text.push_str("flags ")?;
    push_flags(text, segment.header.flags)?;
    push_counts(text, &segment.header, segment.text.len())?;
    push_blocks(text, first_blocks(segment.options.as_slice()))
}

/// Appends the blocks that the first option with blocks reports (RFC 2018, 3).
fn push_first_blocks<A: Allocator>(
    text: &mut String<A>,
    options: OptionsLeft<'_>,
) -> Result<(), AllocError>
    ensures { OnOk result (string_bytes text.new ≡ string_bytes text.old ++ blocks_text (first_blocks options.entry)) }
{
    let mut left = options;
    while let Some(option) = left.next() {
        if let TcpOption::Sack(blocks) = option {
            return push_blocks(text, blocks.as_slice());
        }
    }
    push_blocks(text, &[])
}

/// Appends what [`push_summary`] does, of a segment whose options stay where they came. Few segments have any, so no list
/// is made of them.
#[tactic(auto, unfolding(crate::specs::Segments::summary_text))]
pub fn push_raw_summary<A: Allocator>(
    text: &mut String<A>,
    segment: &RawSegment<'_>,
) -> Result<(), AllocError>
    ensures { OnOk result (string_bytes text.new ≡ string_bytes text.old ++ summary_text (raw_content segment.now)) }
{
    text.push_str("flags ")?;
    push_flags(text, segment.header.flags)?;
    push_counts(text, &segment.header, segment.text.len())?;
    push_first_blocks(text, segment.options_left())
}
