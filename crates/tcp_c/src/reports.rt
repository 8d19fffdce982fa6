//! What is reported to C of bytes that arrived, and of a segment that was written.
ghost use Rattle.std.specs.Prelude.{◌≡◌, length, option_map, unwrap_or};
ghost use Rattle.tcp_conn.specs.Arrival.{after_arrival, arrival_answer};
ghost use Rattle.tcp_conn.specs.declared.emit.transmit.TheConstants.{EMIT_ROOM};
ghost use Rattle.tcp_c.specs.Answers.{answer_of, arrival_number, due_number};
ghost use Rattle.tcp_c.specs.Reports.{arrive_report_of, brought_number, kind_number, kind_told, next_transmit_of, no_arrive_report, no_transmit, rule_number, rule_told, transmit_of};
ghost use Rattle.tcp_c.specs.Segments.{after_emission_within, emission_number, nowhere, written_buffer};
ghost use Rattle.tcp_c.specs.Status.{flag};

use crate::answers::{DONE, LITTLE_ROOM, NO_END, NOTHING_DUE, arrival_number};
use crate::handle::Handle;
use crate::records::{CAddr, CArriveReport, CTransmit};
use tcp_conn::{Brought, EMIT_ROOM, Judgement, Kind, Taken, Transmit};
use tcp_wire::Addr;

/// The number of a rule, in the order of the tests.
fn rule_number(rule: Judgement) -> u32
    ensures { result ≡ rule_number rule }
{
    match rule {
        Judgement::Foreign => 1,
        Judgement::ResetIgnored => 2,
        Judgement::Stray => 3,
        Judgement::AckOfListen => 4,
        Judgement::OpensNothing => 5,
        Judgement::PeerOpens => 6,
        Judgement::AckOfNoSyn => 7,
        Judgement::PeerRefuses => 8,
        Judgement::PeerAccepts => 9,
        Judgement::Unacceptable => 10,
        Judgement::PeerResets => 11,
        Judgement::ResetElsewhere => 12,
        Judgement::SynInWindow => 13,
        Judgement::NoAck => 14,
        Judgement::AcksUnsent => 15,
        Judgement::HandshakeRefused => 16,
        Judgement::HandshakeRefusedShut => 17,
        Judgement::Taken => 18,
        Judgement::TakenShut => 19,
    }
}

/// The number of the rule that applied, 0 where none did.
fn rule_told(rule: Option<Judgement>) -> u32
    ensures { result ≡ rule_told rule }
{
    match rule {
        Some(rule) => rule_number(rule),
        None => 0,
    }
}

/// The number of what a segment brought.
fn brought_number(brought: Brought) -> u32
    ensures { result ≡ brought_number brought }
{
    match brought {
        Brought::Nothing => 0,
        Brought::InOrder => 1,
        Brought::Held => 2,
        Brought::NotKept => 3,
    }
}

/// The number of the kind of a segment.
pub(crate) fn kind_number(kind: Kind) -> u32
    ensures { result ≡ kind_number kind }
{
    match kind {
        Kind::Reset => 1,
        Kind::Syn => 2,
        Kind::NewText => 3,
        Kind::TextAgain => 4,
        Kind::Fin => 5,
        Kind::FinAgain => 6,
        Kind::Acknowledgement => 7,
    }
}

/// A report of no bytes: all zero.
pub(crate) fn no_arrive_report() -> CArriveReport
    ensures { result ≡ no_arrive_report }
{
    CArriveReport {
        at_once: 0,
        rule: 0,
        acked: 0,
        brought: 0,
        is_duplicate: 0,
        window_taken: 0,
    }
}

/// A report of no segment: all zero.
fn no_transmit() -> CTransmit
    ensures { result ≡ no_transmit }
{
    CTransmit {
        to: CAddr { byte: [0; 4] },
        kind: 0,
        length: 0,
        position: 0,
        count: 0,
    }
}

/// The record of a segment.
fn record_of(sent: Transmit) -> CTransmit
    ensures to { result.to.byte ≡ sent.to.0 }
    ensures kind { result.kind ≡ kind_number sent.kind }
    ensures len { result.length ≡ sent.len }
    ensures position { result.position ≡ sent.position }
    ensures count { result.count ≡ sent.count }
{
    let Addr(byte) = sent.to;
    CTransmit {
        to: CAddr { byte },
        kind: kind_number(sent.kind),
        length: sent.len,
        position: sent.position,
        count: sent.count,
    }
}

/// The one way out of a call that reports the segment that is due: what it is, and nothing where none is.
fn report_due(due: Option<Transmit>) -> (u32, CTransmit)
    ensures answer { result.0 ≡ due_number (option_map (λ sent. sent.len) due) }
    ensures to { result.1.to.byte ≡ unwrap_or (option_map (λ sent. sent.to.0) due) nowhere }
    ensures kind { result.1.kind ≡ kind_told (option_map (λ sent. sent.kind) due) }
    ensures len { result.1.length ≡ unwrap_or (option_map (λ sent. sent.len) due) 0 }
    ensures position { result.1.position ≡ unwrap_or (option_map (λ sent. sent.position) due) 0 }
    ensures count { result.1.count ≡ unwrap_or (option_map (λ sent. sent.count) due) 0 }
{
    match due {
        Some(sent) => (DONE, record_of(sent)),
        None => (NOTHING_DUE, no_transmit()),
    }
}

/// What is reported of bytes that arrived.
pub(crate) fn report_arrival(found: Taken) -> CArriveReport
    ensures at_once { result.at_once ≡ flag found.at_once }
    ensures rule { result.rule ≡ rule_told found.rule }
    ensures acked { result.acked ≡ found.acked }
    ensures brought { result.brought ≡ brought_number found.brought }
    ensures is_duplicate { result.is_duplicate ≡ flag found.is_duplicate }
    ensures window_taken { result.window_taken ≡ flag found.window_taken }
{
    CArriveReport {
        at_once: u32::from(found.at_once),
        rule: rule_told(found.rule),
        acked: found.acked,
        brought: brought_number(found.brought),
        is_duplicate: u32::from(found.is_duplicate),
        window_taken: u32::from(found.window_taken),
    }
}

/// Takes bytes as `tcp_c_arrive` does, with a report: whether the segment has to be answered at once (RFC 5681, 4.2),
/// the rule that applied, and the text that was acknowledged. It also has what the segment brought, whether it is a
/// duplicate acknowledgement (RFC 5681, 2), and whether its window was taken.
#[unsafe(no_mangle)]
pub extern "C" fn tcp_c_arrive_with_report(
    handle: &mut Handle,
    src: &CAddr,
    dst: &CAddr,
    bytes: &[u8],
    report: &mut CArriveReport,
) -> u32
    ensures answer { result ≡ answer_of (λ s. arrival_number (arrival_answer s src.now.byte dst.now.byte bytes.now)) handle.old.held.end }
    ensures report { report.new ≡ arrive_report_of src.now.byte dst.now.byte bytes.now handle.old.held.end }
    ensures state { handle.new.held.end ≡ option_map (λ s. after_arrival s src.now.byte dst.now.byte bytes.now) handle.old.held.end }
{
    let Some(mut end) = handle.take() else {
        *report = no_arrive_report();
        return NO_END;
    };
    let found = end.take(Addr(src.byte), Addr(dst.byte), bytes);
    handle.put(end);
    *report = report_arrival(found);
    arrival_number(found.arrival)
}

/// Emits as `tcp_c_emit` does, and reports what the segment is, the position where it begins, and the length of its
/// text.
#[unsafe(no_mangle)]
pub extern "C" fn tcp_c_transmit(
    handle: &mut Handle,
    out: &mut [u8],
    transmit: &mut CTransmit,
) -> u32
    ensures answer { result ≡ answer_of (emission_number EMIT_ROOM (length out.old)) handle.old.held.end }
    ensures bytes { out.new ≡ written_buffer EMIT_ROOM out.old handle.old.held.end }
    ensures transmit { transmit.new ≡ transmit_of EMIT_ROOM (length out.old) handle.old.held.end }
    ensures state { handle.new.held.end ≡ option_map (after_emission_within EMIT_ROOM (length out.old)) handle.old.held.end }
{
    *transmit = no_transmit();
    let Some(mut end) = handle.take() else {
        return NO_END;
    };
    if out.len() < EMIT_ROOM {
        handle.put(end);
        return LITTLE_ROOM;
    }
    let sent = end.transmit(out);
    handle.put(end);
    let (answer, found) = report_due(sent);
    *transmit = found;
    answer
}

/// What `tcp_c_transmit` would report now. 53, and all zero, where no segment is due.
#[unsafe(no_mangle)]
pub extern "C" fn tcp_c_next(handle: &mut Handle, transmit: &mut CTransmit) -> u32
    ensures answer { result ≡ answer_of (emission_number 0 0) handle.old.held.end }
    ensures transmit { transmit.new ≡ next_transmit_of handle.old.held.end }
    ensures state { handle.new.held.end ≡ handle.old.held.end }
{
    *transmit = no_transmit();
    let Some(end) = handle.take() else {
        return NO_END;
    };
    let next = end.next_transmit();
    handle.put(end);
    let (answer, found) = report_due(next);
    *transmit = found;
    answer
}
