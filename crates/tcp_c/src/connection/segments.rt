//! Segments that come in and go out, each at its time.
ghost use Rattle.std.specs.Prelude.{◌≡◌, false, length, option_map, true};
ghost use Rattle.tcp_conn.specs.Timers.{after_resend, after_resend_first};
ghost use Rattle.tcp_c.specs.Answers.{answer_of};
ghost use Rattle.tcp_c.specs.ConnectionTrains.{after_train, train_number, train_reported, train_written};
ghost use Rattle.tcp_c.specs.Connections.{arrival_told, arrived_by, emission_told, emitted_within, end_of, no_segment, report_told, segment_reported, segment_told, sent_number, taken_by, taken_report, used, written_within};
ghost use Rattle.tcp_c.specs.Pacing.{resend_number, stretch_number};

use crate::answers::{
    DONE, EMIT_FIRST, LITTLE_ROOM, NO_END, NO_RULE, NOTHING_DUE, WITHHELD, arrival_number,
};
use crate::connection::driven_handle::DrivenHandle;
use crate::records::{CAddr, CArriveReport, CConnectionSegment, CTrain};
use crate::reports::{no_arrive_report, report_arrival};
use crate::trains::{no_train, record_of};
use tcp_conn::EMIT_ROOM;
use tcp_driver::{Sent, Taken};

/// What is reported of an arrival: its answer and its report.
pub(crate) fn arrival_told(taken: Taken<tcp_conn::Taken>) -> (u32, CArriveReport)
    ensures answer { result.0 ≡ arrival_told taken }
    ensures report { result.1 ≡ taken_report taken }
{
    match taken {
        Taken::EmitFirst => (EMIT_FIRST, no_arrive_report()),
        Taken::Withheld => (WITHHELD, no_arrive_report()),
        Taken::Done(_, found) => (arrival_number(found.arrival), report_arrival(found)),
    }
}

/// Takes bytes that came from `src` to `dst` at `now`, with the report of
/// [`tcp_c_arrive_with_report`](crate::tcp_c_arrive_with_report), and answers as that does (RFC 9293, 3.10.7). What the guard of
/// the rules keeps out counts as unacceptable (RFC 5961, 5.2). 58 where a timer has expired and what was due then has to go out
/// first, and 59 for a reset that counts as lost (RFC 1337, 3): then nothing changes, and the report is all zero.
#[unsafe(no_mangle)]
pub extern "C" fn tcp_c_connection_arrive(
    handle: &mut DrivenHandle,
    now: u64,
    src: &CAddr,
    dst: &CAddr,
    bytes: &[u8],
    report: &mut CArriveReport,
) -> u32
    ensures answer { result ≡ answer_of (λ d. arrival_told (taken_by false d src.now.byte dst.now.byte bytes.now)) handle.old.held.end }
    ensures report { report.new ≡ report_told false src.now.byte dst.now.byte bytes.now handle.old.held.end }
    ensures state { handle.new.held.end ≡ option_map (arrived_by false now src.now.byte dst.now.byte bytes.now) handle.old.held.end }
{
    let Some(mut driven) = handle.take() else {
        *report = no_arrive_report();
        return NO_END;
    };
    let (answer, found) = arrival_told(driven.connection.arrive(now, src.byte, dst.byte, bytes));
    handle.put(driven);
    *report = found;
    answer
}

/// Takes bytes whose checksum a device has found right as [`tcp_c_connection_arrive`] does, and doesn't sum them (RFC 9293, 3.1). The
/// answer is never 3.
#[unsafe(no_mangle)]
pub extern "C" fn tcp_c_connection_arrive_vouched(
    handle: &mut DrivenHandle,
    now: u64,
    src: &CAddr,
    dst: &CAddr,
    bytes: &[u8],
    report: &mut CArriveReport,
) -> u32
    ensures answer { result ≡ answer_of (λ d. arrival_told (taken_by true d src.now.byte dst.now.byte bytes.now)) handle.old.held.end }
    ensures report { report.new ≡ report_told true src.now.byte dst.now.byte bytes.now handle.old.held.end }
    ensures state { handle.new.held.end ≡ option_map (arrived_by true now src.now.byte dst.now.byte bytes.now) handle.old.held.end }
{
    let Some(mut driven) = handle.take() else {
        *report = no_arrive_report();
        return NO_END;
    };
    let (answer, found) = arrival_told(
        driven
            .connection
            .arrive_vouched(now, src.byte, dst.byte, bytes),
    );
    handle.put(driven);
    *report = found;
    answer
}

/// A report of no segment: all zero.
pub(crate) fn no_segment() -> CConnectionSegment
    ensures { result ≡ no_segment }
{
    CConnectionSegment {
        to: CAddr { byte: [0; 4] },
        length: 0,
        position: 0,
        count: 0,
    }
}

/// What is reported of an emission: the answer, and the segment that was written, if one was.
pub(crate) fn emission_told(sent: Option<Sent>) -> (u32, CConnectionSegment)
    ensures answer { result.0 ≡ emission_told sent }
    ensures segment { result.1 ≡ segment_told sent }
{
    match sent {
        Some(sent) => {
            let byte = sent.to;
            let segment = CConnectionSegment {
                to: CAddr { byte },
                length: sent.len,
                position: sent.start,
                count: sent.count,
            };
            (DONE, segment)
        }
        None => (NOTHING_DUE, no_segment()),
    }
}

/// Writes the segment that is due at `now` into the front of `out`, and reports where it goes, its length, and the numbers
/// that it takes (RFC 9293, 3.7, 3.8 and 3.10). What ends more than `window` numbers past SND.UNA waits, unless nothing
/// before it is in flight (RFC 5681, 3.1): then a pending acknowledgement goes out alone, as it does before anything that is
/// sent again. 33 where `out` has less than [`EMIT_ROOM`] bytes: then nothing changes. 53 where none goes out.
#[unsafe(no_mangle)]
pub extern "C" fn tcp_c_connection_emit(
    handle: &mut DrivenHandle,
    now: u64,
    window: u64,
    out: &mut [u8],
    segment: &mut CConnectionSegment,
) -> u32
    ensures answer { result ≡ answer_of (sent_number now window (length out.old)) handle.old.held.end }
    ensures bytes { out.new ≡ written_within now window out.old handle.old.held.end }
    ensures segment { segment.new ≡ segment_reported now window (length out.old) handle.old.held.end }
    ensures state { handle.new.held.end ≡ option_map (emitted_within now window (length out.old)) handle.old.held.end }
{
    *segment = no_segment();
    let Some(mut driven) = handle.take() else {
        return NO_END;
    };
    if out.len() < EMIT_ROOM {
        handle.put(driven);
        return LITTLE_ROOM;
    }
    let sent = driven.connection.emit(now, window, out);
    handle.put(driven);
    let (answer, found) = emission_told(sent);
    *segment = found;
    answer
}

/// Writes the segments that may go out at `now` as one, for a device that cuts them and computes their checksums, as
/// [`tcp_c_emit_train`](crate::tcp_c_emit_train) does: as many of new text as end within `window`, at most `most`, that `out` has room
/// for; anything else goes alone, as [`tcp_c_connection_emit`](crate::tcp_c_connection_emit) has it, with the sum of the
/// pseudo-header in its checksum field. The connection is as after as many calls of that, each at `now`. 33 where `out` has less than
/// [`EMIT_ROOM`] bytes: then nothing changes. 53 where none goes out.
#[unsafe(no_mangle)]
pub extern "C" fn tcp_c_connection_emit_train(
    handle: &mut DrivenHandle,
    now: u64,
    window: u64,
    out: &mut [u8],
    most: usize,
    train: &mut CTrain,
) -> u32
    ensures answer { result ≡ answer_of (train_number now window most (length out.old)) handle.old.held.end }
    ensures bytes { out.new ≡ train_written now window most out.old handle.old.held.end }
    ensures train { train.new ≡ train_reported now window most (length out.old) handle.old.held.end }
    ensures state { handle.new.held.end ≡ option_map (after_train now window most (length out.old)) handle.old.held.end }
{
    *train = no_train();
    let Some(mut driven) = handle.take() else {
        return NO_END;
    };
    if out.len() < EMIT_ROOM {
        handle.put(driven);
        return LITTLE_ROOM;
    }
    let sent = driven.connection.emit_train(now, window, out, most);
    handle.put(driven);
    let Some(sent) = sent else {
        return NOTHING_DUE;
    };
    *train = record_of(sent);
    DONE
}

/// Of what is in flight, as much as one segment carries must be sent again at once, as of
/// [`tcp_c_resend_first`](crate::tcp_c_resend_first) (RFC 5681, 3.2; RFC 6675, 5): for a sender that finds losses by itself. 54
/// where nothing is in flight.
#[unsafe(no_mangle)]
pub extern "C" fn tcp_c_connection_resend_first(handle: &mut DrivenHandle, now: u64) -> u32
    ensures answer { result ≡ answer_of (λ d. resend_number (end_of d)) handle.old.held.end }
    ensures state { handle.new.held.end ≡ option_map (λ d. used d now (after_resend_first (end_of d))) handle.old.held.end }
{
    let Some(mut driven) = handle.take() else {
        return NO_END;
    };
    let again = driven.connection.repairing.resend_first(now);
    handle.put(driven);
    if again { DONE } else { NO_RULE }
}

/// Of what is in flight, what lies from the position `from` on and before `to` must be sent again at once, as of
/// [`tcp_c_resend`](crate::tcp_c_resend) (RFC 6675, 5; RFC 8985, 6.2): for a sender that finds losses by itself. 54 where nothing in
/// flight lies there.
#[unsafe(no_mangle)]
pub extern "C" fn tcp_c_connection_resend(
    handle: &mut DrivenHandle,
    now: u64,
    from: u64,
    to: u64,
) -> u32
    ensures answer { result ≡ answer_of (λ d. stretch_number from to (end_of d)) handle.old.held.end }
    ensures state { handle.new.held.end ≡ option_map (λ d. used d now (after_resend (end_of d) from to)) handle.old.held.end }
{
    let Some(mut driven) = handle.take() else {
        return NO_END;
    };
    let again = driven.connection.repairing.resend(now, from, to);
    handle.put(driven);
    if again { DONE } else { NO_RULE }
}
