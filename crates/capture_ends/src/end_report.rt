//! What a report says of an end.
use crate::judged_end::{Broken, JudgedEnd, Note, counts};
use crate::notes::KINDS;
use crate::paint::Paint;
use kit_judge::push_rule;
use std::alloc::{AllocError, Allocator};
use tcp_judge::Finding;
use tcp_wire::Seq;

/// How far a number is ahead of an initial one, or below 0 where that is nearer: a stream of more than 2^31 bytes is told
/// from a number before the initial one by nothing but its length.
fn ahead_of(number: Seq, initial: Seq, text: u64) -> i64 {
    let ahead = i64::from(number.minus(initial));
    if ahead < 1 << 31 || text >= 1 << 31 {
        return ahead;
    }
    ahead - (1 << 32)
}

/// The number by which a finding shows the rule broken, counted from the initial number of the stream that it is of.
pub(crate) fn relative_number<A: Allocator>(
    finding: Finding,
    own: &JudgedEnd<A>,
    peer: &JudgedEnd<A>,
) -> Option<i64> {
    match finding {
        Finding::BeforeFirst(number) => Some(ahead_of(number, own.initial?, 0)),
        Finding::OtherByte(number)
        | Finding::BeforeAck(number)
        | Finding::AfterReset(number)
        | Finding::Gap(number)
        | Finding::BehindNext(number)
        | Finding::BeyondWindow(number)
        | Finding::StrayReset(number) => Some(ahead_of(number, own.initial?, own.text)),
        Finding::AckBeyond(number)
        | Finding::AckBack(number, _)
        | Finding::BlockBeyond(number, _) => Some(ahead_of(number, peer.initial?, peer.text)),
        _ => None,
    }
}

pub(crate) fn push_seconds<A: Allocator>(
    text: &mut String<A>,
    nanoseconds: u64,
) -> Result<(), AllocError> {
    let seconds = nanoseconds / 1_000_000_000;
    let micros = nanoseconds % 1_000_000_000 / 1000;
    write!(text, "{seconds}.{micros:06} s")
}

fn push_broken<A: Allocator>(
    text: &mut String<A>,
    broken: &Broken,
    begin: u64,
    relative: Option<i64>,
    paint: Paint,
) -> Result<(), AllocError> {
    let number = broken.packet.number;
    let red = paint.red();
    write!(text, "      {red}packet {number}, ")?;
    push_seconds(text, broken.packet.time.saturating_sub(begin))?;
    text.push_str(": ")?;
    push_rule(text, broken.finding)?;
    if let Some(relative) = relative {
        write!(text, " [relative number {relative}]")?;
    }
    if broken.count > 1 {
        let more = broken.count - 1;
        write!(text, ", and {more} more like it")?;
    }
    text.push_str(paint.plain())?;
    text.push_str("\n")
}

/// Appends a note: what is counted, and the section of the RFC that has it.
fn push_note<A: Allocator>(
    text: &mut String<A>,
    words: &str,
    note: Note,
    section: &str,
    paint: Paint,
) -> Result<(), AllocError> {
    let Note { count, first } = note;
    let yellow = paint.yellow();
    let plain = paint.plain();
    write!(
        text,
        "      {yellow}note: {words}: {count}, the first in packet {first} (RFC {section}){plain}\n"
    )
}

/// Appends what was found at an end.
pub(crate) fn push_found<A: Allocator>(
    text: &mut String<A>,
    end: &JudgedEnd<A>,
    peer: &JudgedEnd<A>,
    begin: u64,
    is_complete: bool,
    paint: Paint,
) -> Result<usize, AllocError> {
    let mut findings = 0usize;
    for broken in end.broken.iter() {
        if counts(broken.finding, is_complete) {
            findings = findings.saturating_add(broken.count);
            let relative = relative_number(broken.finding, end, peer);
            push_broken(text, broken, begin, relative, paint)?;
        }
    }
    if !is_complete && end.damaged.count > 0 {
        push_note(text, "wrong checksums", end.damaged, "9293, 3.1", paint)?;
    }
    Ok(findings)
}

/// Appends what was counted of an end, and its round trips.
pub(crate) fn push_notes<A: Allocator>(
    text: &mut String<A>,
    end: &JudgedEnd<A>,
    is_complete: bool,
    paint: Paint,
) -> Result<(), AllocError> {
    let notes = &end.flow.notes;
    for kind in KINDS {
        let note = notes.of(kind);
        if note.count > 0 && (is_complete || !kind.wants_all()) {
            push_note(text, kind.words(), note, kind.section(), paint)?;
        }
    }
    let trips = notes.trips;
    let count = trips.count;
    if count == 0 {
        return Ok(());
    }
    write!(text, "      round trips: {count}, least ")?;
    push_seconds(text, trips.least)?;
    text.push_str(", mean ")?;
    push_seconds(text, trips.mean())?;
    text.push_str(", greatest ")?;
    push_seconds(text, trips.greatest)?;
    text.push_str("\n")
}

/// Appends what is said of an end.
pub(crate) fn push_end<A: Allocator>(
    text: &mut String<A>,
    end: &JudgedEnd<A>,
    findings: usize,
    is_complete: bool,
    paint: Paint,
) -> Result<(), AllocError> {
    let side = end.side;
    if end.segments == 0 {
        return write!(text, "   {side}: sent nothing, nothing judged\n");
    }
    let tried = if is_complete {
        "all rules"
    } else {
        "form and positions alone"
    };
    let segments = end.segments;
    let bytes = end.text;
    let plain = paint.plain();
    if findings == 0 {
        let green = paint.green();
        write!(text, "   {side}: {green}clean{plain} ({tried})")?;
    } else {
        let red = paint.red();
        write!(text, "   {side}: {red}findings {findings}{plain} ({tried})")?;
    }
    write!(text, ", {segments} segments, {bytes} bytes of text\n")
}
