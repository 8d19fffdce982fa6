//! What the log of the lines up to now reports of the last one.
use crate::answers::{push_call, push_state};
use kit_report::{push_arrival, push_receive, push_segment, push_send};
use kit_text::{LineError, push_bytes};
use std::alloc::{AllocError, Global};
use tcp_conn::{CallError, Endpoint, Received};
use tcp_replay::{Outcome, SoloLog};
use tcp_wire::Addr;

/// Appends which timers would apply.
pub(crate) fn push_timers(text: &mut String, end: &Endpoint) -> Result<(), LineError> {
    let (retransmit, reorder, time_wait) = end.timers();
    write!(text, "{retransmit} {reorder} {time_wait}")?;
    push_state(text, end)?;
    Ok(())
}

/// The bytes that a `receive` with this answer delivered: the last ones of all that were delivered.
fn handed_over(delivered: &[u8], answer: Result<Received, CallError>) -> &[u8] {
    let count = match answer {
        Ok(Received::Bytes(count)) => count,
        _ => 0,
    };
    &delivered[delivered.len().saturating_sub(count)..]
}

/// Appends where a segment goes, and its content or its bytes.
fn push_emitted(
    alloc: Global,
    text: &mut String,
    src: Addr,
    emitted: &(Addr, Vec<u8>),
    as_bytes: bool,
) -> Result<(), AllocError> {
    let (dst, bytes) = emitted;
    let [a, b, c, d] = dst.0;
    write!(text, "{a}.{b}.{c}.{d} ")?;
    if as_bytes {
        push_bytes(alloc, text, bytes)
    } else {
        push_segment(text, src, *dst, bytes)
    }
}

/// Appends the last segment that was emitted.
fn push_last_emitted(
    alloc: Global,
    text: &mut String,
    log: &SoloLog,
    as_bytes: bool,
) -> Result<(), LineError> {
    let src = log.endpoint.config().addr;
    let emitted = log.emitted.last().ok_or(LineError::BadForm)?;
    push_emitted(alloc, text, src, emitted, as_bytes)?;
    Ok(())
}

fn push_outcome(
    alloc: Global,
    text: &mut String,
    log: &SoloLog,
    as_bytes: bool,
) -> Result<(), LineError> {
    let outcome = *log.outcomes.last().ok_or(LineError::BadForm)?;
    match outcome {
        Outcome::Call(answer) => push_call(text, answer)?,
        Outcome::Sent(answer) => push_send(text, answer)?,
        Outcome::Got(answer) => {
            push_receive(alloc, text, answer, handed_over(&log.delivered, answer))?;
        }
        Outcome::Timer(applies) => write!(text, "{applies}")?,
        Outcome::Emitted(None) => text.push_str("none")?,
        Outcome::Emitted(Some(_)) => push_last_emitted(alloc, text, log, as_bytes)?,
        Outcome::Arrived(arrival) => push_arrival(text, arrival)?,
    }
    Ok(())
}

/// Appends the outcome of the last event, and the state of the end after it. A segment is printed by its bytes where
/// these are requested.
pub(crate) fn push_last(
    alloc: Global,
    text: &mut String,
    log: &SoloLog,
    as_bytes: bool,
) -> Result<(), LineError> {
    push_outcome(alloc, text, log, as_bytes)?;
    push_state(text, &log.endpoint)?;
    Ok(())
}
