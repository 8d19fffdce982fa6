//! What a flow may have in the network: what is in flight except what blocks report, which has left it if the peer is right (RFC 6675, 4:
//! pipe, with nothing taken for lost, and each number once, also where it is sent again). All that is in flight is bounded too
//! (`in_flight_stays_in_window` of `tcp_flow`); but where losses are found by time as much goes out beside cwnd as blocks report, and
//! what is in the network has a bound without that.
//!
//! - [`network_stays_in_window`]: whatever is called, that is no more than cwnd and two segments as they were when something went out, or
//!   than was in flight when reports were forgotten.
//! - [`an_end_counts_its_network`] and [`each_opens_placed`]: what it takes of an end, and that each end has it.
//!
//! These functions do nothing when they run: each carries the law that it ensures.
#![tactic(auto)]

ghost use Rattle.tcp_flow.specs.InFlight.{LetsOutTwoMore};
ghost use Rattle.tcp_network.specs.NetworkOfEnds.{EachOpensPlaced, EndCountsNetwork, EndNetworkStaysInWindow};

use std::alloc::Allocator;
use tcp_congestion::Congestion;
use tcp_end::Wired;

/// Of an end of a connection only what it emits puts anything into the network, and not beyond where that ends, less what blocks report
/// (RFC 6675, 4). An arrival puts nothing there: of what it acknowledges no more was reported than it takes off what is in flight. Nor
/// does a call of the end's user, what has to be sent again, or the expiry of a timer, but that of retransmission forgets what blocks
/// reported (RFC 2018, 5), so that all that is in flight counts again.
pub fn an_end_counts_its_network<A: Allocator>()
    ensures { EndCountsNetwork A }
{
    tcp_flow::laws::an_end_counts_its_flight::<A>();
}

/// Whatever is called, and however often, no more is in the network than was before, or than some segment has let be there since then:
/// cwnd and two segments, as they were then, and no more than its caller's window (RFC 5681, 3.1; RFC 3042, 2; RFC 6675, 4 and 5); or as
/// a probe what it takes itself, while nothing before it was in flight (RFC 9293, 3.8.6.1). What was in flight when the retransmission
/// timer expired, or when `Flow::retransmit` was called, counts as let in then, where blocks had reported some of it. Where there is no
/// window the caller's alone bounds it. In recovery cwnd has in it what blocks report, and `pipe_stays_in_threshold` of `tcp_flow` says
/// more.
///
/// The user's calls have to put nothing there by themselves, and at most forget what blocks reported, as [`an_end_counts_its_network`]
/// says of each; the end has to be placed, as [`each_opens_placed`] has it; and the window has to have room for two segments more than
/// cwnd at most, as `each_window_lets_out_two_more` of `tcp_flow` says of each.
pub fn network_stays_in_window<A: Allocator, W: Congestion>()
    ensures { LetsOutTwoMore W.control → EndNetworkStaysInWindow A W.control }
{
    an_end_counts_its_network::<A>();
    tcp_flow::laws::flow_is_driven::<Wired<A>, W>();
}

/// Each end of a good Config that `connect` or `listen` opens is placed: a full segment has room for text, and nothing is queued or was
/// sent but perhaps the SYN.
pub fn each_opens_placed<A: Allocator>()
    ensures { EachOpensPlaced A }
{
    tcp_flow::laws::each_opens_sized::<A>();
}
