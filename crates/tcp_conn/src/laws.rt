//! Laws of every end, apart from how it is computed. These functions do nothing when they run: each carries the law
//! that it ensures.
ghost use Rattle.tcp_conn.specs.AtOnce.{UrgentIsDue};
ghost use Rattle.tcp_conn.specs.Endpoint.{AlwaysHolds};
ghost use Rattle.tcp_conn.specs.PhaseTable.{PhaseTable};
ghost use Rattle.tcp_conn.specs.TimeWait.{TimeWaitIsTheEnd};
ghost use Rattle.tcp_conn.specs.Stray.{AnswersAsClosed};

use crate::endpoint::Endpoint;
use std::alloc::Allocator;

/// What `close`, `abort` and the timers return in each state of a connection, and the state that follows (RFC 9293,
/// 3.10.4, 3.10.5 and 3.10.8).
pub fn phase_table()
    ensures { PhaseTable }
{}

/// A segment for no end is answered by the bytes that an end in CLOSED emits (RFC 9293, 3.10.7.1).
pub fn strays_answered_as_in_closed()
    ensures { AnswersAsClosed }
{}

/// After an arrival that has to be answered at once a segment is due (RFC 5681, 4.2).
pub fn what_is_urgent_is_due()
    ensures { UrgentIsDue }
{}

/// An end in TIME-WAIT and the TIME-WAIT record in its place ([`crate::TimeWait`]) can't be distinguished: the same
/// answers, bytes and phases, whatever arrives, expires, is emitted or aborted, and however often (RFC 9293, 3.10.7.4).
pub fn time_wait_is_the_end()
    ensures { TimeWaitIsTheEnd }
{}

/// The invariant of every end, whatever was done to it (RFC 9293, 3.3.1). What it has queued, unread and out of order
/// keeps to its capacities, SND.UNA is at most SND.NXT, RCV.NXT is a number of 32 bits, and the count of what came in
/// order is one of 64 bits.
pub fn what_always_holds<A: Allocator>(endpoint: &Endpoint<A>)
    ensures { AlwaysHolds endpoint.now }
{
    // So that the proof knows the invariants of an end and of its halves.
    let _ = &endpoint.config;
    let _ = &endpoint.sender.snd_una;
    let _ = &endpoint.receiver.rcv_nxt;
    let _ = endpoint.receiver.inbox.unread();
}
