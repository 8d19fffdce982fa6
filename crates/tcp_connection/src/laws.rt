//! What follows of a connection, whatever its end and its window are and whatever is called. These functions do nothing when they
//! run: each carries the law that it ensures.
ghost use Rattle.tcp_connection.specs.Calls.{ConnectionIsFlow, NoAcknowledgementIsLate};

use crate::deferring::Deferring;
use tcp_congestion::Congestion;

/// Whatever is called, the flow in a connection is as after calls of its own: none where what is due is held back, one, or two
/// where an answer is discarded, a read has opened the window, or the SYN goes out again behind the peer's. So every law of a
/// flow holds of it ([`tcp_flow::laws`]), and of its driver ([`tcp_driver::laws`]).
pub fn connection_is_flow<C: Deferring, W: Congestion>()
    ensures { ConnectionIsFlow C.machine C.insight C.smss_of W.control }
{}

/// Where an acknowledgement waits since text came, `poll_at` is at most the delay after the first of that text, and an emission
/// from then on isn't held back (RFC 9293, 3.8.6.3).
pub fn no_acknowledgement_is_late<C: Deferring, W: Congestion>()
    ensures { NoAcknowledgementIsLate C.machine C.insight W.control }
{}
