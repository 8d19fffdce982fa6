//! The calls of a TIME-WAIT record (RFC 9293, 3.3.2): a value that C keeps.
ghost use Rattle.std.specs.Prelude.{◌≡◌, ◌≢◌, None, length};
ghost use Rattle.tcp_conn.specs.Arrival.{arrival_answer, after_arrival};
ghost use Rattle.tcp_conn.specs.Calls.{abort_answer, after_abort};
ghost use Rattle.tcp_conn.specs.declared.time_wait.record.TheConstants.{TIME_WAIT_LEN};
ghost use Rattle.tcp_c.specs.Answers.{done, answer_of, arrival_number, call_number, number_written};
ghost use Rattle.tcp_c.specs.Calls.{timer_of, timer_number, after_any_timer};
ghost use Rattle.tcp_c.specs.CTimeWaits.{no_record, time_wait_after, time_wait_answer, time_wait_kept, time_wait_number, time_wait_stands_for, time_wait_reported};
ghost use Rattle.tcp_c.specs.Segments.{after_emission_within, emission_number, written_buffer, written_destination, written_length};
ghost use Rattle.tcp_c.specs.Status.{ending_number, length_due, phase_number};

use crate::answers::{
    DONE, LITTLE_ROOM, NO_END, NO_RULE, NO_TIME_WAIT, NO_TIMER, NOT_TIME_WAIT, arrival_number,
    call_number,
};
use crate::c_time_wait::{no_record, record_of, time_wait_of};
use crate::emission::report_sent;
use crate::handle::Handle;
use crate::records::{CAddr, CTimeWait};
use crate::status::{ending_number, phase_number};
use crate::timing::timer_of;
use tcp_conn::TIME_WAIT_LEN;
use tcp_wire::Addr;

/// Reports the TIME-WAIT record that can take the end's place: it answers and emits as the end would (RFC 9293,
/// 3.10.7.4). 57, and all zero, in any phase but TIME-WAIT, and while bytes are unread. The end is unchanged.
#[unsafe(no_mangle)]
pub extern "C" fn tcp_c_time_wait(handle: &mut Handle, time_wait: &mut CTimeWait) -> u32
    ensures answer { result ≡ answer_of time_wait_number handle.old.held.end }
    ensures time_wait { time_wait_kept time_wait.new ≡ time_wait_reported handle.old.held.end }
    ensures none { result ≢ done → time_wait.new ≡ no_record }
    ensures state { handle.new.held.end ≡ handle.old.held.end }
{
    *time_wait = no_record();
    let Some(end) = handle.take() else {
        return NO_END;
    };
    let found = end.time_wait();
    handle.put(end);
    let Some(found) = found else {
        return NOT_TIME_WAIT;
    };
    *time_wait = record_of(&found);
    DONE
}

/// Takes bytes that came from `src` to `dst`, whatever they are, as the end would (RFC 9293, 3.10.7). Answers as
/// `tcp_c_arrive` does, or 39 where the fields are those of no record.
#[unsafe(no_mangle)]
pub extern "C" fn tcp_c_time_wait_arrive(
    time_wait: &mut CTimeWait,
    src: &CAddr,
    dst: &CAddr,
    bytes: &[u8],
) -> u32
    ensures answer { result ≡ time_wait_answer (λ s. arrival_number (arrival_answer s src.now.byte dst.now.byte bytes.now)) (time_wait_stands_for time_wait.old) }
    ensures state { time_wait_kept time_wait.new ≡ time_wait_after (λ s. after_arrival s src.now.byte dst.now.byte bytes.now) time_wait.old }
    ensures refused { time_wait_kept time_wait.old ≡ None → time_wait.new ≡ time_wait.old }
{
    let Some(mut kept) = time_wait_of(time_wait) else {
        return NO_TIME_WAIT;
    };
    let answer = kept.arrive(Addr(src.byte), Addr(dst.byte), bytes);
    *time_wait = record_of(&kept);
    arrival_number(answer)
}

/// A timer has expired, by the numbers of `tcp_c_timer` (RFC 9293, 3.10.8). The TIME-WAIT timeout, 2, ends the
/// connection in order. 54 where its rule doesn't apply, 34 at any other number, 39 where the fields are those of no
/// record.
#[unsafe(no_mangle)]
pub extern "C" fn tcp_c_time_wait_timer(time_wait: &mut CTimeWait, timer: u32) -> u32
    ensures answer { result ≡ time_wait_answer (timer_number (timer_of timer)) (time_wait_stands_for time_wait.old) }
    ensures state { time_wait_kept time_wait.new ≡ time_wait_after (after_any_timer (timer_of timer)) time_wait.old }
    ensures refused { time_wait_kept time_wait.old ≡ None → time_wait.new ≡ time_wait.old }
{
    let Some(mut kept) = time_wait_of(time_wait) else {
        return NO_TIME_WAIT;
    };
    let answer = match timer_of(timer) {
        Some(timer) => { if kept.timer(timer) { DONE } else { NO_RULE } }
        None => NO_TIMER,
    };
    *time_wait = record_of(&kept);
    answer
}

/// Writes the segment that is due into the front of `out`, and reports where it goes and its length (RFC 9293,
/// 3.10.7.4). 33 where `out` has less than [`TIME_WAIT_LEN`] bytes, 53 where none is due, 39 where the fields are those
/// of no record: then nothing changes.
#[unsafe(no_mangle)]
pub extern "C" fn tcp_c_time_wait_emit(
    time_wait: &mut CTimeWait,
    out: &mut [u8],
    to: &mut CAddr,
    count: &mut usize,
) -> u32
    ensures answer { result ≡ time_wait_answer (emission_number TIME_WAIT_LEN (length out.old)) (time_wait_stands_for time_wait.old) }
    ensures bytes { out.new ≡ written_buffer TIME_WAIT_LEN out.old (time_wait_stands_for time_wait.old) }
    ensures destination { to.new.byte ≡ written_destination TIME_WAIT_LEN (length out.old) (time_wait_stands_for time_wait.old) }
    ensures count { count.new ≡ number_written (written_length TIME_WAIT_LEN (length out.old)) (time_wait_stands_for time_wait.old) }
    ensures state { time_wait_kept time_wait.new ≡ time_wait_after (after_emission_within TIME_WAIT_LEN (length out.old)) time_wait.old }
    ensures refused { time_wait_kept time_wait.old ≡ None → time_wait.new ≡ time_wait.old }
{
    to.byte = [0; 4];
    *count = 0;
    let Some(mut kept) = time_wait_of(time_wait) else {
        return NO_TIME_WAIT;
    };
    if out.len() < TIME_WAIT_LEN {
        return LITTLE_ROOM;
    }
    let sent = kept.emit(out);
    *time_wait = record_of(&kept);
    report_sent(sent, to, count)
}

/// Reports the length of the segment that `tcp_c_time_wait_emit` would write now, [`TIME_WAIT_LEN`], or 0 where none is
/// due. 39 where the fields are those of no record.
#[unsafe(no_mangle)]
pub extern "C" fn tcp_c_time_wait_pending(time_wait: &CTimeWait, due: &mut u32) -> u32
    ensures answer { result ≡ time_wait_answer (λ _. done) (time_wait_stands_for time_wait.now) }
    ensures due { due.new ≡ number_written length_due (time_wait_stands_for time_wait.now) }
{
    *due = 0;
    let Some(kept) = time_wait_of(time_wait) else {
        return NO_TIME_WAIT;
    };
    if let Some(len) = kept.pending() {
        *due = len as u32;
    }
    DONE
}

/// Aborts the connection; no reset is sent in TIME-WAIT (RFC 9293, 3.10.5). 14 where it has ended, 39 where the fields
/// are those of no record.
#[unsafe(no_mangle)]
pub extern "C" fn tcp_c_time_wait_abort(time_wait: &mut CTimeWait) -> u32
    ensures answer { result ≡ time_wait_answer (λ s. call_number (abort_answer s)) (time_wait_stands_for time_wait.old) }
    ensures state { time_wait_kept time_wait.new ≡ time_wait_after after_abort time_wait.old }
    ensures refused { time_wait_kept time_wait.old ≡ None → time_wait.new ≡ time_wait.old }
{
    let Some(mut kept) = time_wait_of(time_wait) else {
        return NO_TIME_WAIT;
    };
    let answer = kept.abort();
    *time_wait = record_of(&kept);
    call_number(answer)
}

/// Reports the phase, 10 in TIME-WAIT and 0 once the connection has ended, and the ending by the numbers of
/// [`crate::CStatus`]. 39, and zeros, where the fields are those of no record.
#[unsafe(no_mangle)]
pub extern "C" fn tcp_c_time_wait_status(
    time_wait: &CTimeWait,
    phase: &mut u32,
    ending: &mut u32,
) -> u32
    ensures answer { result ≡ time_wait_answer (λ _. done) (time_wait_stands_for time_wait.now) }
    ensures phase { phase.new ≡ number_written (λ s. phase_number s.phase) (time_wait_stands_for time_wait.now) }
    ensures ending { ending.new ≡ number_written (λ s. ending_number s.ending) (time_wait_stands_for time_wait.now) }
{
    (*phase, *ending) = (0, 0);
    let Some(kept) = time_wait_of(time_wait) else {
        return NO_TIME_WAIT;
    };
    *phase = phase_number(kept.phase());
    *ending = u32::from(ending_number(kept.ending()));
    DONE
}
