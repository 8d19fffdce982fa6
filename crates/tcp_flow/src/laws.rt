//! What follows of a flow, whatever its end and its window are and whatever is called. These functions do nothing when they
//! run: each carries the law that it ensures.
ghost use Rattle.tcp_congestion.specs.AnyWindow.{any_control};
ghost use Rattle.tcp_congestion.specs.Control.{cubic_control, reno_control};
ghost use Rattle.tcp_flow.specs.Calls.{FlowIsDriven};
ghost use Rattle.tcp_flow.specs.FlightOfEnds.{EachOpensSized, EndCountsFlight, EndStaysInWindow};
ghost use Rattle.tcp_flow.specs.InFlight.{LetsOutTwoMore};
ghost use Rattle.tcp_flow.specs.Pipe.{PipeStaysInThreshold, RecoveryKeepsPipe};

use crate::paced::Paced;
use std::alloc::Allocator;
use tcp_congestion::Congestion;
use tcp_end::Wired;

/// Whatever is called, the driver in a flow is as after a call of its own, and behind an arrival perhaps its `resend_first` or its
/// `resend`, so that every law of a driver holds of it ([`tcp_driver::laws`]).
pub fn flow_is_driven<C: Paced, W: Congestion>()
    ensures { FlowIsDriven C.machine C.smss_of W.control }
{
    tcp_driver::laws::a_train_is_emissions::<C>();
}

/// Of an end of a connection only what it emits makes what is in flight greater, and not beyond where that ends, and an arrival that
/// it answers by a SYN; and what takes no number begins at SND.NXT at most (RFC 9293, 3.3.1 and 3.10). Each call of its user, each
/// expiry and each resend sends nothing by itself.
pub fn an_end_counts_its_flight<A: Allocator>()
    ensures { EndCountsFlight A }
{}

/// Whatever is called, and however often, no more is in flight than was before, or than some segment has let out since then, which
/// went out within cwnd and two segments from SND.UNA on, and no further than its caller's window (RFC 5681, 3.1; RFC 3042, 2); where
/// losses are found by time, in congestion avoidance, while none is found, within cwnd and what blocks reported then (RFC 6675, 5,
/// step 3); or as a probe, while nothing before it was in flight (RFC 9293, 3.8.6.1). An arrival adds its answer's SYN at most.
///
/// The user's calls have to send nothing by themselves, as [`an_end_counts_its_flight`] says of each; the end's Config has to be
/// good, as [`each_opens_sized`] has it; and the window has to have room for two segments more than cwnd at most, as
/// [`each_window_lets_out_two_more`] says of each.
pub fn in_flight_stays_in_window<A: Allocator, W: Congestion>()
    ensures { LetsOutTwoMore W.control → EndStaysInWindow A W.control }
{
    flow_is_driven::<Wired<A>, W>();
}

/// Each window has room for two segments more than cwnd at most, where nothing is in flight (RFC 3042, 2).
pub fn each_window_lets_out_two_more()
    ensures reno { LetsOutTwoMore reno_control }
    ensures cubic { LetsOutTwoMore cubic_control }
    ensures any { LetsOutTwoMore any_control }
{}

/// In recovery a window lets out no more from SND.UNA on, behind each arrival that says something of what is in flight, than ssthresh
/// and what blocks report, which has left the network (RFC 6675, 4 and 5), however many duplicates say the same: a peer whose blocks
/// tell nothing new has nothing let out. It is said where blocks report something; where they don't it is RFC 6582's.
pub fn pipe_stays_in_threshold<C: Paced, W: Congestion>()
    ensures { RecoveryKeepsPipe W.control → PipeStaysInThreshold C.machine C.smss_of W.control }
{}

/// Each window keeps the pipe so (RFC 6675, 4 and 5).
pub fn each_window_keeps_the_pipe()
    ensures reno { RecoveryKeepsPipe reno_control }
    ensures cubic { RecoveryKeepsPipe cubic_control }
    ensures any { RecoveryKeepsPipe any_control }
{}

/// Each end of a good Config that `connect` or `listen` opens has room for text in a full segment.
pub fn each_opens_sized<A: Allocator>()
    ensures { EachOpensSized A }
{}
