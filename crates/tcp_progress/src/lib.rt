//! Laws of the progress of two ends (RFC 9293, 3.8), whatever was lost, delayed, repeated, reordered or damaged before:
//!
//! - `no_world_is_stuck`: while both are live, or are opening the connection, some list of reads, timers, emissions and
//!   deliveries exists after which all that was accepted is delivered and acknowledged. `a_handshake_can_be_finished`
//!   gives how few events open the connection.
//! - `who_is_served_gets_through`: a caller's plain loop does so in a known number of turns, whatever the network does
//!   meanwhile. Beside it `turns_can_be_had`, `each_burst_ends` and `what_is_left_never_grows`; and
//!   `who_is_served_opens`, of ends that are opening the connection.
//! - `half_turns_get_through`: so do two hosts with clocks of their own, which send one segment after a timeout. Beside
//!   it `halves_can_be_had`.
//! - `goes_on_among_strangers`: all of these hold where others send bytes to both ends.
//! - `every_world_is_steady` and `nothing_is_taken_before_it_is_sent`: invariants of two ends.
//!
//! Below them are laws of one end: what a segment brings (`what_is_next_is_taken`, `what_is_acknowledged_is_released`),
//! and what is sent whatever came before it (`what_is_pending_is_sent`, `what_is_in_flight_goes_out_again`,
//! `what_is_unsent_goes_out`, `who_is_spoken_to_answers`; RFC 9293, 3.8.1, 3.8.6.1 and 3.10.7.4). These functions do
//! nothing when they run: each carries the law that it ensures. A law of two ends has a clause `usual`, of ends with the
//! default number of runs, and a clause `with_runs`, of ends with any number.
#![tactic(auto)]

ghost use Rattle.tcp_progress.specs.Progress.{AckedIsReleased, PendingIsSent, TakesWhatIsNext};

mod fair;
mod opening;
mod sending;
mod sent;
mod settled;
mod strangers;

pub use fair::{
    each_burst_ends, half_turns_get_through, halves_can_be_had, turns_can_be_had,
    what_is_left_never_grows, who_is_served_gets_through,
};
pub use opening::{a_handshake_can_be_finished, who_is_served_opens};
pub use sending::{
    what_is_in_flight_goes_out_again, what_is_unsent_goes_out, who_is_spoken_to_answers,
};
pub use sent::nothing_is_taken_before_it_is_sent;
pub use settled::{every_world_is_steady, no_world_is_stuck};
use std::alloc::Allocator;
pub use strangers::{
    a_blind_injection_is_calm, goes_on_among_strangers, guarded_ends_are_safe_and_go_on,
    steady_among_strangers, what_lives_passes_a_guard,
};
use tcp_conn::Endpoint;
use tcp_conn::laws::what_always_holds;

/// A segment that is next is taken whole by every end in which text is taken, whatever runs it keeps out of order (RFC
/// 9293, 3.10.7.4, seventh). The segment begins at or before RCV.NXT and ends after it within the receive window, and
/// carries a plain acknowledgement of what was sent. RCV.NXT moves on to its end at least. What was unread stays, with
/// what came in order after it; and an acknowledgement is pending.
pub fn what_is_next_is_taken<A: Allocator>(endpoint: &Endpoint<A>)
    ensures { TakesWhatIsNext endpoint.now }
{
    what_always_holds(endpoint);
}

/// An acceptable segment that acknowledges something new, and nothing that wasn't sent, moves SND.UNA to just there,
/// and the text before it leaves the queue (RFC 9293, 3.10.7.4, fifth). This holds whatever else the segment brings or
/// is marked; and also for one that comes at a zero window.
pub fn what_is_acknowledged_is_released()
    ensures { AckedIsReleased }
{}

/// An end with a pending acknowledgement, and no pending reset or SYN, has a segment due that acknowledges RCV.NXT,
/// whether it carries text, FIN or neither: `emit` writes it (RFC 9293, 3.10.7.4, seventh).
pub fn what_is_pending_is_sent()
    ensures { PendingIsSent }
{}
