//! A capture's report as JSON, a line for each finding, each note, each end and the capture.
use crate::capture::Capture;
use crate::end_report::relative_number;
use crate::judged_end::{Broken, JudgedEnd, Note, counts};
use crate::notes::KINDS;
use crate::telling::Verdict;
use kit_judge::push_rule;
use std::alloc::{AllocError, Allocator};
use tcp_judge::Finding;

/// A rule's name.
fn name_of(finding: Finding) -> &'static str {
    match finding {
        Finding::Unreadable(_) => "Unreadable",
        Finding::SynOption => "SynOption",
        Finding::GreatShift => "GreatShift",
        Finding::NoAck => "NoAck",
        Finding::OtherInitial(_, _) => "OtherInitial",
        Finding::BeforeFirst(_) => "BeforeFirst",
        Finding::OtherByte(_) => "OtherByte",
        Finding::BeyondFin(_, _) => "BeyondFin",
        Finding::BeforeAck(_) => "BeforeAck",
        Finding::AfterReset(_) => "AfterReset",
        Finding::Gap(_) => "Gap",
        Finding::BehindNext(_) => "BehindNext",
        Finding::BeyondWindow(_) => "BeyondWindow",
        Finding::StrayReset(_) => "StrayReset",
        Finding::AckBeyond(_) => "AckBeyond",
        Finding::AckBack(_, _) => "AckBack",
        Finding::Unoffered => "Unoffered",
        Finding::Unpermitted => "Unpermitted",
        Finding::BlockBeyond(_, _) => "BlockBeyond",
    }
}

/// Appends a time as seconds, with six digits behind the point: the most that a reader of JSON keeps of one from 1970 on.
fn push_time<A: Allocator>(text: &mut String<A>, nanoseconds: u64) -> Result<(), AllocError> {
    let seconds = nanoseconds / 1_000_000_000;
    let micros = nanoseconds % 1_000_000_000 / 1000;
    write!(text, "{seconds}.{micros:06}")
}

/// Appends what each line of an end begins with.
fn push_start<A: Allocator>(
    text: &mut String<A>,
    kind: &str,
    connection: usize,
    end: &JudgedEnd<A>,
    peer: &JudgedEnd<A>,
) -> Result<(), AllocError> {
    let side = end.side;
    let other = peer.side;
    write!(
        text,
        "{{\"kind\":\"{kind}\",\"connection\":{connection},\"end\":\"{side}\",\"peer\":\"{other}\""
    )
}

/// Appends the first packet that breaks a rule. What a rule says has no character that JSON escapes.
fn push_finding<A: Allocator>(
    text: &mut String<A>,
    broken: &Broken,
    relative: Option<i64>,
) -> Result<(), AllocError> {
    let packet = broken.packet.number;
    let rule = name_of(broken.finding);
    let count = broken.count;
    write!(text, ",\"packet\":{packet},\"time\":")?;
    push_time(text, broken.packet.time)?;
    write!(text, ",\"rule\":\"{rule}\",\"count\":{count}")?;
    if let Some(relative) = relative {
        write!(text, ",\"relative\":{relative}")?;
    }
    text.push_str(",\"text\":\"")?;
    push_rule(text, broken.finding)?;
    text.push_str("\"}\n")
}

/// Appends what was found at an end, and how many packets break a rule.
pub(crate) fn push_findings<A: Allocator>(
    text: &mut String<A>,
    connection: usize,
    end: &JudgedEnd<A>,
    peer: &JudgedEnd<A>,
    is_complete: bool,
) -> Result<usize, AllocError> {
    let mut findings = 0usize;
    for broken in end.broken.iter() {
        if counts(broken.finding, is_complete) {
            findings = findings.saturating_add(broken.count);
            push_start(text, "finding", connection, end, peer)?;
            push_finding(text, broken, relative_number(broken.finding, end, peer))?;
        }
    }
    Ok(findings)
}

/// Appends what was counted of an end, and its round trips.
pub(crate) fn push_notes<A: Allocator>(
    text: &mut String<A>,
    connection: usize,
    end: &JudgedEnd<A>,
    peer: &JudgedEnd<A>,
    is_complete: bool,
) -> Result<(), AllocError> {
    let notes = &end.flow.notes;
    for kind in KINDS {
        let Note { count, first } = notes.of(kind);
        let name = kind.name();
        if count > 0 && (is_complete || !kind.wants_all()) {
            push_start(text, "note", connection, end, peer)?;
            write!(
                text,
                ",\"name\":\"{name}\",\"count\":{count},\"first\":{first}}}\n"
            )?;
        }
    }
    let trips = notes.trips;
    let count = trips.count;
    if count == 0 {
        return Ok(());
    }
    push_start(text, "round_trips", connection, end, peer)?;
    write!(text, ",\"count\":{count},\"least\":")?;
    push_time(text, trips.least)?;
    text.push_str(",\"mean\":")?;
    push_time(text, trips.mean())?;
    text.push_str(",\"greatest\":")?;
    push_time(text, trips.greatest)?;
    text.push_str("}\n")
}

/// What is said of an end: that nothing was judged, that it breaks a rule, or that it breaks none.
fn verdict_of<A: Allocator>(end: &JudgedEnd<A>, findings: usize) -> &'static str {
    if end.segments == 0 {
        return "nothing";
    }
    if findings > 0 { "found" } else { "clean" }
}

/// Appends an end.
pub(crate) fn push_end<A: Allocator>(
    text: &mut String<A>,
    connection: usize,
    end: &JudgedEnd<A>,
    peer: &JudgedEnd<A>,
    findings: usize,
    is_complete: bool,
) -> Result<(), AllocError> {
    let verdict = verdict_of(end, findings);
    let segments = end.segments;
    let bytes = end.text;
    let damaged = if is_complete { 0 } else { end.damaged.count };
    push_start(text, "end", connection, end, peer)?;
    write!(
        text,
        ",\"verdict\":\"{verdict}\",\"findings\":{findings},\"all_rules\":{is_complete}"
    )?;
    write!(
        text,
        ",\"segments\":{segments},\"bytes\":{bytes},\"wrong_checksums\":{damaged}}}\n"
    )
}

/// Appends the whole capture.
pub(crate) fn push_capture<A: Allocator>(
    text: &mut String<A>,
    capture: &Capture<A>,
    verdict: Verdict,
) -> Result<(), AllocError> {
    let packets = capture.packets;
    let connections = capture.connections.list.len();
    let is_cut = capture.is_cut;
    let is_lossy = capture.is_lossy;
    let left_out = capture.connections.left_out;
    let others = left_out.others;
    let fragments = left_out.fragments;
    let cut = left_out.cut;
    let strays = left_out.strays;
    let ends = verdict.ends;
    let findings = verdict.findings;
    let complete = verdict.complete;
    write!(
        text,
        "{{\"kind\":\"capture\",\"packets\":{packets},\"connections\":{connections},\"is_cut\":{is_cut},\"is_lossy\":{is_lossy}"
    )?;
    write!(
        text,
        ",\"others\":{others},\"fragments\":{fragments},\"cut_short\":{cut},\"strays\":{strays}"
    )?;
    write!(
        text,
        ",\"ends\":{ends},\"all_rules\":{complete},\"findings\":{findings}}}\n"
    )
}
