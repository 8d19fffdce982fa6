//! The listing of segments.
ghost use Rattle.std.specs.Prelude.{◌≡◌, ◌+◌, ◌++◌, ◌^◌, ◌<◌, ◌≤◌, length, IfOk, OnOk, string_bytes};
ghost use Rattle.kit_text.specs.Segments.{is_malformed};
ghost use Rattle.kit_commands.specs.Listing.{packet_content, meaning_of, segment_line, segments_of, first_bad_line, answer_unless, listing_of_segments, total_line, listing_content, listing_of};

use crate::packet::{Packet, read_packet};
use kit_text::{LineError, Lines, push_meaning};
use std::alloc::{AllocError, Allocator, Global};

/// Whether no segment was malformed; or the first bad line, where the listing ends.
type Answer = Result<bool, usize>;

/// A listing, and how it ends.
#[derive(Debug, Drop)]
pub struct Listing<A: Allocator = Global> {
    /// A line for each segment, and then the total, unless a line is bad.
    pub text: String<A>,
    /// Whether no segment was malformed; or the first bad line, where the listing ends.
    pub answer: Result<bool, usize>,
}

/// Appends a segment's line, and returns whether it is malformed.
#[tactic(auto, unfolding(crate::specs::Listing::segment_line))]
fn push_segment<A: Allocator + Copy>(
    alloc: A,
    text: &mut String<A>,
    number: usize,
    packet: &Packet<A>,
) -> Result<bool, AllocError>
    ensures text { OnOk result (string_bytes text.new ≡ string_bytes text.old ++ segment_line (number, meaning_of (packet_content packet.now))) }
    ensures malformed { IfOk result (λ bad. bad ≡ is_malformed (meaning_of (packet_content packet.now))) }
{
    write!(text, "{number} ")?;
    let is_malformed = push_meaning(alloc, text, packet.src, packet.dst, &packet.bytes)?;
    text.push_str("\n")?;
    Ok(is_malformed)
}

/// Appends the total.
#[tactic(auto, unfolding(crate::specs::Listing::total_line))]
fn push_total<A: Allocator>(
    text: &mut String<A>,
    segments: usize,
    malformed: usize,
) -> Result<(), AllocError>
    ensures { OnOk result (string_bytes text.new ≡ string_bytes text.old ++ total_line segments malformed) }
{
    write!(text, "total {segments} malformed {malformed}\n")
}

/// Appends the listing of lines.
#[tactic(auto, using(crate::proofs::SegmentCounts::length_segments_of), unfolding(crate::specs::Listing::segments_of, crate::specs::Listing::first_bad_line))]
fn push_lines<A: Allocator + Copy>(
    alloc: A,
    text: &mut String<A>,
    lines: Lines<'_>,
) -> Result<Answer, AllocError>
    requires { length lines < 2 ^ 64 }
    ensures text { OnOk result (string_bytes text.new ≡ string_bytes text.old ++ (listing_of_segments (segments_of lines.entry) (first_bad_line lines.entry)).text) }
    ensures answer { IfOk result (λ answer. answer ≡ answer_unless (first_bad_line lines.entry) (segments_of lines.entry)) }
{
    let mut segments = 0usize;
    let mut malformed = 0usize;
    for (number, line) in lines {
        let packet = match read_packet(alloc, line) {
            Ok(packet) => packet,
            Err(LineError::BadForm) => return Ok(Err(number)),
            Err(LineError::NoMemory) => return Err(AllocError),
        };
        segments += 1;
        if push_segment(alloc, text, number, &packet)? {
            malformed += 1;
        }
    }
    push_total(text, segments, malformed)?;
    Ok(Ok(malformed == 0))
}

/// The listing of a text of any bytes: a line for each segment up to the first bad line, and the total where no line is
/// bad.
#[tactic(auto, unfolding(crate::specs::Listing::listing_of))]
pub fn list_segments<A: Allocator + Copy>(alloc: A, text: &[u8]) -> Result<Listing<A>, AllocError>
    ensures { IfOk result (λ listing. listing_content listing ≡ listing_of text.now) }
{
    let mut listing = String::new(alloc);
    let answer = match Lines::new(text) {
        Ok(lines) => push_lines(alloc, &mut listing, lines)?,
        Err(line) => Err(line),
    };
    Ok(Listing {
        text: listing,
        answer,
    })
}
