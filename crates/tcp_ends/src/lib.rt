//! Laws of two ends with their times ([`End`](tcp_end::End)), whatever is called of them, and at whatever times (RFC 9293,
//! 3.3.1, 3.4 and 3.10).
//!
//! - [`calls_are_events`]: each list of calls of the two is a list of events of a [`World`](tcp_replay::World) of the ends
//!   inside; what a driver withholds, or refuses while a burst is on, counts as lost.
//! - [`two_ends_are_safe`]: so each user receives a prefix of what the other one sent, and
//!   [`two_ends_among_strangers_are_safe`]. [`two_guarded_ends_are_safe`] among strangers who may send far more.
//! - [`two_ends_get_through_by_halves`]: and two hosts that call in time get through. Where both emit until nothing is
//!   left, [`two_ends_get_through_by_quiet_halves`] asks less of them. That their calls make half turns they know by
//!   [`rests_unmoved`], [`nothing_found_is_quiet`], [`what_expired_goes_out`], [`what_is_pending_goes_at_next`] and
//!   [`emitting_all_emits_what_is_pending`]; and that a half can begin by [`a_half_can_begin`].
//!
//! Each holds of ends with the default number of runs, and with any other number for each of the two; and of ends without a
//! guard, or with one that reaches as far as segments live (`LetsLive`): with that of `Limits::standard()` where they live for
//! 2^21 positions.
//!
//! These functions do nothing when they run: each carries the law that it ensures. The calls ([`arrive`], [`emit`] and so
//! on) are an end's own: each has in its contract that a member of a pair is after it what the definitions of the laws say.
#![tactic(auto)]

ghost use Rattle.tcp_ends.specs.Among.{TwoEndsAmongStrangersAreSafe, TwoEndsAmongStrangersAreSafeWithRuns};
ghost use Rattle.tcp_ends.specs.Guarded.{IncidentsHappenToGuarded, TwoGuardedEndsAreSafe};
ghost use Rattle.tcp_ends.specs.Halves.{TwoEndsGetThroughByHalves, TwoEndsGetThroughByHalvesWithRuns};
ghost use Rattle.tcp_ends.specs.Laws.{CallsAreEvents, GuardedCallsAreEvents, TwoEndsAreSafe, TwoEndsAreSafeWithRuns};
ghost use Rattle.tcp_ends.specs.Quiet.{EachHalfCanBegin, EmittingAllEmitsPending, ExpiredGoesOut, PendingGoesAtNext, TwoEndsGetThroughByQuietHalves, TwoEndsGetThroughByQuietHalvesWithRuns};
ghost use Rattle.tcp_ends.specs.Rests.{EachOpens, EachOpensWithRuns, NothingFoundIsQuiet, RestsUnmoved};

mod calls;

pub use calls::{
    abort, acknowledge, arrive, close, emit, receive, resend, resend_first, send, set_patience,
    set_user_timeout, timeout,
};
use std::alloc::Allocator;

/// Each list of calls of two ends with their times is a list of events of the two ends inside: without guards from whatever
/// they are, and with guards from where they were opened, since what lives passes these.
pub fn calls_are_events<A: Allocator>()
    ensures unguarded { CallsAreEvents A }
    ensures guarded { GuardedCallsAreEvents A }
{}

/// What is delivered to each user is a prefix of what the other one sent, after every list of calls of two ends that
/// `connect` or `listen` opened, at any times, over a network that loses, repeats, reorders and damages one byte of a
/// segment. The blocks that they report are true, too, and damage is found.
pub fn two_ends_are_safe<A: Allocator>()
    ensures usual { TwoEndsAreSafe A }
    ensures with_runs { TwoEndsAreSafeWithRuns A }
{}

/// The same among strangers (RFC 5961, 1): any bytes arrive at either end, from and to any addresses, at any time, that
/// aren't let in where they come, unless the driver refuses or withholds them.
pub fn two_ends_among_strangers_are_safe<A: Allocator>()
    ensures usual { TwoEndsAmongStrangersAreSafe A }
    ensures with_runs { TwoEndsAmongStrangersAreSafeWithRuns A }
{}

/// With guards of one reach (RFC 5961, 5.2) strangers may send whatever a guard keeps out, too, which is far more than isn't
/// let in without one: `few_acks_pass` and `few_numbers_pass_at_a_shut_window` of `tcp_strangers` count it. What happens to
/// the two, whatever they are, happens in a world of two guarded ends; and two that were opened are as safe as without
/// strangers, however far the guards reach, where segments live for 2^21 positions or longer.
pub fn two_guarded_ends_are_safe<A: Allocator>()
    ensures happen { IncidentsHappenToGuarded A }
    ensures safe { TwoGuardedEndsAreSafe A }
{}

/// Calls that make as many pairs of half turns as something is left, and two, deliver all and have it acknowledged, unless
/// an end is reset: from wherever any calls brought two ends that were opened (RFC 9293, 3.8).
pub fn two_ends_get_through_by_halves<A: Allocator>()
    ensures usual { TwoEndsGetThroughByHalves A }
    ensures with_runs { TwoEndsGetThroughByHalvesWithRuns A }
{}

/// The same of callers that emit until nothing is left before each `timeout`, and again where an acknowledgement is
/// pending and no SYN. Nothing is asked of their windows, nor of where an answer begins: the driver's rules give both.
pub fn two_ends_get_through_by_quiet_halves<A: Allocator>()
    ensures usual { TwoEndsGetThroughByQuietHalves A }
    ensures with_runs { TwoEndsGetThroughByQuietHalvesWithRuns A }
{}

/// Behind an expiry of the retransmission timer the window holds nothing back, where no reset waits and no
/// acknowledgement is pending: what goes out first begins at SND.UNA at most (RFC 9293, 3.8.1).
pub fn what_expired_goes_out<A: Allocator>()
    ensures { ExpiredGoesOut A }
{}

/// A pending acknowledgement goes out at SND.NXT, alone or with what is new, whatever the window, where neither a reset
/// nor a SYN goes first (RFC 9293, 3.8.6.3).
pub fn what_is_pending_goes_at_next<A: Allocator>()
    ensures { PendingGoesAtNext A }
{}

/// Whoever emits until nothing is left, while an acknowledgement is pending and no SYN, emits once while it still is
/// and neither a reset nor a SYN goes first.
pub fn emitting_all_emits_what_is_pending<A: Allocator>()
    ensures { EmittingAllEmitsPending A }
{}

/// A half turn can begin at each end whose timers run as it wants them (`IsTimely`, which every driver keeps), outside a
/// burst and while no user timeout runs: the retransmission timer needn't run, or a call of `timeout` at its deadline
/// has it expire. The deadline lies before the last time, 2^62 microseconds.
pub fn a_half_can_begin<A: Allocator>()
    ensures { EachHalfCanBegin A }
{}

/// An expiry of a retransmission timer that doesn't run would change nothing: so a side at rest has its half turn by an
/// emission alone.
pub fn rests_unmoved()
    ensures { RestsUnmoved }
{}

/// Each opening of a new end opens it, so that what the laws ask of a beginning can always be had.
pub fn each_opens<A: Allocator>()
    ensures usual { EachOpens A }
    ensures with_runs { EachOpensWithRuns A }
{}

/// After an emission that finds nothing to send neither a reset waits, nor a SYN, nor an acknowledgement, whatever the
/// window.
pub fn nothing_found_is_quiet<A: Allocator>()
    ensures { NothingFoundIsQuiet A }
{}
