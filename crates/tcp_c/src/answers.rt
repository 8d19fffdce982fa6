//! The answers of the calls: one table for all of them. A refusal of the end has its own number.
ghost use Rattle.std.specs.Prelude.{◌≡◌};
ghost use Rattle.tcp_c.specs.Answers.{call_number, received_number, arrival_number};

use tcp_conn::{Arrival, CallError, Received};

/// The call did its task.
pub const DONE: u32 = 0;

/// The number of runs is above [`MAX_RUNS`](tcp_sendq::MAX_RUNS).
pub const BAD_RUNS: u32 = 28;

/// No timeout can be made from the rules.
pub const BAD_RULES: u32 = 29;

/// The handle has no end.
pub const NO_END: u32 = 31;

/// The handle has an end already.
pub const IN_USE: u32 = 32;

/// There is less room than a segment may take.
pub const LITTLE_ROOM: u32 = 33;

/// No timer has this number.
pub const NO_TIMER: u32 = 34;

/// The fields are those of no TIME-WAIT record.
pub const NO_TIME_WAIT: u32 = 39;

/// No byte is unread, and more may come.
pub const NOTHING_UNREAD: u32 = 51;

/// The peer closed, and all its bytes were delivered (RFC 9293, 3.10.3).
pub const END_OF_STREAM: u32 = 52;

/// No segment is due.
pub const NOTHING_DUE: u32 = 53;

/// The timer's rule doesn't apply (RFC 9293, 3.10.8).
pub const NO_RULE: u32 = 54;

/// The segment was dropped (RFC 9293, 3.10.7).
pub const SEGMENT_DROPPED: u32 = 55;

/// The segment is for another end, or from another peer (RFC 9293, 3.10.7).
pub const SEGMENT_NOT_MINE: u32 = 56;

/// The end isn't in TIME-WAIT, or has bytes unread.
pub const NOT_TIME_WAIT: u32 = 57;

/// A timer has expired, and what is due then goes out first.
pub const EMIT_FIRST: u32 = 58;

/// The segment is a reset that counts as lost (RFC 1337, 3).
pub const WITHHELD: u32 = 59;

/// A host has somebody under these values already.
pub const TAKEN: u32 = 60;

/// The end, or the listener, of this name is gone.
pub const GONE: u32 = 61;

/// The listener has as many ends in its backlog as it may.
pub const BACKLOG_FULL: u32 = 62;

/// Nobody waits, or is due.
pub const NOBODY: u32 = 63;

/// The answer of a user call, without the value that it reports.
pub(crate) fn call_number<T: Drop>(answer: Result<T, CallError>) -> u32
    ensures { result ≡ call_number answer }
{
    match answer {
        Ok(_) => DONE,
        Err(error) => u32::from(error.number()),
    }
}

/// The answer of `receive`, which distinguishes why nothing was delivered.
pub(crate) fn received_number(answer: Result<Received, CallError>) -> u32
    ensures { result ≡ received_number answer }
{
    match answer {
        Ok(Received::Bytes(_)) => DONE,
        Ok(Received::Nothing) => NOTHING_UNREAD,
        Ok(Received::EndOfStream) => END_OF_STREAM,
        Err(error) => u32::from(error.number()),
    }
}

/// What became of bytes that arrived. (By a sum: three constants would be a table in memory, of which the library has
/// none.)
pub(crate) fn arrival_number(arrival: Arrival) -> u32
    ensures { result ≡ arrival_number arrival }
{
    if let Arrival::Malformed(fault) = arrival {
        return u32::from(fault.number());
    }
    let is_dropped = !matches!(arrival, Arrival::Processed);
    let is_foreign = matches!(arrival, Arrival::NotMine);
    SEGMENT_DROPPED * u32::from(is_dropped) + u32::from(is_foreign)
}
