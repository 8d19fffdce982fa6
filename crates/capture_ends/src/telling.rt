//! A capture's report.
use crate::capture::Capture;
use crate::connections::{Connection, Connections, LeftOut};
use crate::end_report::{push_end, push_found, push_notes, push_seconds};
use crate::json;
use crate::judged_end::JudgedEnd;
use crate::paint::Paint;
use crate::side::Host;
use std::alloc::{AllocError, Allocator};

/// What was tried, and what was found.
#[derive(Clone, Copy, Default)]
pub struct Verdict {
    /// Ends that sent something.
    pub ends: usize,
    /// Those of them at which all rules were tried.
    pub complete: usize,
    /// Those at the place of the capture between whose addresses segments are left out.
    pub gaps: usize,
    /// Those that break a rule.
    pub broken: usize,
    pub findings: usize,
}

/// Why no end has all rules tried on it, if the capture as a whole is the reason.
fn lack_of<A: Allocator>(capture: &Capture<A>, at: Option<Host>) -> Option<&'static str> {
    if at.is_none() {
        return Some("--at ADDRESS names the end where the capture was taken");
    }
    if capture.is_cut {
        return Some("the capture's last record is cut short or damaged");
    }
    if capture.is_lossy {
        return Some(
            "packets were dropped when the capture was taken, or are in obsolete packet blocks",
        );
    }
    if capture.connections.goes_back {
        return Some("segments aren't in the order of their times");
    }
    None
}

/// Why some ends at the place of the capture don't.
fn gap_of(verdict: Verdict) -> Option<&'static str> {
    if verdict.gaps > 0 {
        return Some("packets are cut short, or are fragments");
    }
    None
}

/// Where an end is in the report, and what is known of the capture there.
#[derive(Clone, Copy)]
struct Place {
    /// The number of its connection, and the time of that's first packet.
    connection: usize,
    begin: u64,
    /// Whether the capture was taken at the end, and each segment between the two is there whole.
    is_here: bool,
    is_whole: bool,
    is_json: bool,
    paint: Paint,
}

/// Appends an end with its findings, and returns how many packets break a rule.
fn push_judged<A: Allocator + Copy>(
    alloc: A,
    text: &mut String<A>,
    end: &JudgedEnd<A>,
    peer: &JudgedEnd<A>,
    place: Place,
    is_complete: bool,
) -> Result<usize, AllocError> {
    let connection = place.connection;
    if place.is_json {
        let findings = json::push_findings(text, connection, end, peer, is_complete)?;
        json::push_notes(text, connection, end, peer, is_complete)?;
        json::push_end(text, connection, end, peer, findings, is_complete)?;
        return Ok(findings);
    }
    let mut lines = String::new(alloc);
    let findings = push_found(&mut lines, end, peer, place.begin, is_complete, place.paint)?;
    push_end(text, end, findings, is_complete, place.paint)?;
    text.push_str(&lines)?;
    push_notes(text, end, is_complete, place.paint)?;
    Ok(findings)
}

/// Appends an end, and adds it to the verdict.
fn tell_end<A: Allocator + Copy>(
    alloc: A,
    text: &mut String<A>,
    verdict: &mut Verdict,
    end: &JudgedEnd<A>,
    peer: &JudgedEnd<A>,
    place: Place,
) -> Result<(), AllocError> {
    let is_complete = place.is_here && place.is_whole && !end.lacks_beginning;
    let findings = push_judged(alloc, text, end, peer, place, is_complete)?;
    if end.segments == 0 {
        return Ok(());
    }
    verdict.ends = verdict.ends.saturating_add(1);
    verdict.findings = verdict.findings.saturating_add(findings);
    if place.is_here && !place.is_whole {
        verdict.gaps = verdict.gaps.saturating_add(1);
    }
    if is_complete {
        verdict.complete = verdict.complete.saturating_add(1);
    }
    if findings > 0 {
        verdict.broken = verdict.broken.saturating_add(1);
    }
    Ok(())
}

fn push_connection<A: Allocator>(
    text: &mut String<A>,
    number: usize,
    connection: &Connection<A>,
) -> Result<(), AllocError> {
    let first = connection.first.side;
    let second = connection.second.side;
    let begin = connection.begin.number;
    let end = connection.end.number;
    write!(
        text,
        "\n{number}  {first} > {second}, packets {begin} to {end}, "
    )?;
    let time = connection.end.time.saturating_sub(connection.begin.time);
    push_seconds(text, time)?;
    text.push_str("\n")
}

fn push_left_out<A: Allocator>(text: &mut String<A>, left_out: LeftOut) -> Result<(), AllocError> {
    let LeftOut {
        others,
        fragments,
        cut,
        strays,
    } = left_out;
    if others > 0 {
        write!(text, "left out: packets without TCP: {others}\n")?;
    }
    if fragments > 0 {
        write!(text, "left out: fragments: {fragments}\n")?;
    }
    if cut > 0 {
        write!(text, "left out: segments that are cut short: {cut}\n")?;
    }
    if strays > 0 {
        write!(
            text,
            "left out: segments of no connection with a wrong checksum: {strays}\n"
        )?;
    }
    Ok(())
}

/// Appends what the findings mean, and what wasn't tried.
fn push_verdict<A: Allocator>(
    text: &mut String<A>,
    verdict: Verdict,
    lack: Option<&str>,
) -> Result<(), AllocError> {
    let Verdict {
        ends,
        complete,
        broken,
        findings,
        ..
    } = verdict;
    write!(text, "\nends judged {ends}, findings {findings}\n")?;
    if ends == 0 {
        return text.push_str("Nothing was judged.\n");
    }
    if broken > 0 {
        write!(
            text,
            "{broken} of {ends} ends sent what TCP forbids, whatever the network did to it.\n"
        )?;
    } else {
        text.push_str("No end sent what the rules that were tried forbid.\n")?;
    }
    if complete == ends {
        return Ok(());
    }
    write!(
        text,
        "Acknowledgements and blocks were judged at {complete} of {ends} ends"
    )?;
    if let Some(lack) = lack {
        write!(text, ": {lack}")?;
    }
    text.push_str(".\n")
}

/// Appends both ends of a connection.
fn tell_connection<A: Allocator + Copy>(
    alloc: A,
    text: &mut String<A>,
    verdict: &mut Verdict,
    connection: &Connection<A>,
    at: Option<Host>,
    place: Place,
) -> Result<(), AllocError> {
    let first = &connection.first;
    let second = &connection.second;
    let mut one = place;
    one.is_here = at == Some(first.side.host);
    tell_end(alloc, text, verdict, first, second, one)?;
    let mut other = place;
    other.is_here = at == Some(second.side.host);
    tell_end(alloc, text, verdict, second, first, other)
}

/// Appends each connection.
fn tell_connections<A: Allocator + Copy>(
    alloc: A,
    text: &mut String<A>,
    connections: &Connections<A>,
    at: Option<Host>,
    is_json: bool,
    paint: Paint,
) -> Result<Verdict, AllocError> {
    let mut verdict = Verdict::default();
    let mut number = 0usize;
    for connection in connections.list.iter() {
        number = number.saturating_add(1);
        if !is_json {
            push_connection(text, number, connection)?;
        }
        let one = connection.first.side.host;
        let other = connection.second.side.host;
        let place = Place {
            connection: number,
            begin: connection.begin.time,
            is_here: false,
            is_whole: connections.is_whole(one, other),
            is_json,
            paint,
        };
        tell_connection(alloc, text, &mut verdict, connection, at, place)?;
    }
    Ok(verdict)
}

/// Appends what the capture has, and what is left out of the judgement.
fn push_head<A: Allocator>(text: &mut String<A>, capture: &Capture<A>) -> Result<(), AllocError> {
    let packets = capture.packets;
    let count = capture.connections.list.len();
    write!(text, "packets {packets}, connections {count}\n")?;
    push_left_out(text, capture.connections.left_out)?;
    if capture.is_cut {
        write!(
            text,
            "the capture ends in a record that is cut short or damaged, behind packet {packets}\n"
        )?;
    }
    if capture.is_lossy {
        text.push_str(
            "packets are missing: dropped when the capture was taken, or in obsolete packet blocks, which aren't read\n",
        )?;
    }
    if count > 0 {
        return Ok(());
    }
    text.push_str("no segment of TCP over IPv4 or IPv6")?;
    if let Some(link) = capture.link {
        write!(text, " (link type {link})")?;
    }
    text.push_str("\n")
}

/// The report of a capture, taken at this address, and its verdict; as JSON, a line each, where that is wanted.
pub fn report<A: Allocator + Copy>(
    alloc: A,
    capture: &Capture<A>,
    at: Option<Host>,
    is_json: bool,
    paint: Paint,
) -> Result<(String<A>, Verdict), AllocError> {
    let mut text = String::new(alloc);
    if !is_json {
        push_head(&mut text, capture)?;
    }
    let lack = lack_of(capture, at);
    let place = if lack.is_none() { at } else { None };
    let verdict = tell_connections(
        alloc,
        &mut text,
        &capture.connections,
        place,
        is_json,
        paint,
    )?;
    if is_json {
        json::push_capture(&mut text, capture, verdict)?;
        return Ok((text, verdict));
    }
    let lack = if lack.is_none() {
        gap_of(verdict)
    } else {
        lack
    };
    push_verdict(&mut text, verdict, lack)?;
    Ok((text, verdict))
}
