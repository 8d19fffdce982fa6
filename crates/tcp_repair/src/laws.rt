//! What follows of a connection with a recovery, whatever its end and its window are and whatever is called. These functions do
//! nothing when they run: each carries the law that it ensures.
ghost use Rattle.tcp_repair.specs.Calls.{RepairingIsConnection};
ghost use Rattle.tcp_repair.specs.History.{LossesAreOverdue};

use crate::recovery::Recovery;
use crate::reporting::Reporting;
use tcp_congestion::Congestion;

/// Whatever is called, the connection inside is as after calls of its own: those that were called, before an emission also one that
/// sends again what is lost; where a loss was found one that tells the congestion window, and before it, where a round trip was
/// measured, one that tells that. So every law of a connection holds of it ([`tcp_connection::laws`]), of its flow
/// ([`tcp_flow::laws`]) and of its driver ([`tcp_driver::laws`]).
pub fn repairing_is_connection<C: Reporting, W: Congestion>()
    ensures { RepairingIsConnection C.machine C.insight C.smss_of C.train_answer C.start_of C.numbers_of W.control C.reports }
{}

/// Whatever was called, the rack of a recovery is as after events in order: time doesn't go back in them, and new text is sent in
/// order. So of what it finds lost each number that is outstanding was sent last RACK.rtt and the reordering window ago at least, and
/// something was delivered that was sent later, by time, then by position (RFC 8985, 6.2, step 5).
pub fn losses_are_overdue(recovery: &Recovery)
    ensures { LossesAreOverdue recovery.now }
{
    tcp_recovery::laws::losses_are_overdue();
    recovery.is_truthful();
}
