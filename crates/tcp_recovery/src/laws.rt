//! What follows of what is in flight, however it is kept. These functions do nothing when they run: each carries the
//! law that it ensures.
ghost use Rattle.tcp_recovery.specs.Laws.{DeadlinesAreLosses, JitterIsNoLoss, JoiningIsNoLoss, LossesAreOverdue, OneProbeATail, ProbesAreMeasured, StretchesCover};

/// Each number that is outstanding, sent and not reported as received since, is in one stretch, whose times lie around
/// when it was sent last; and there are 64 stretches at most, whatever is called (RFC 8985, 5.2).
pub fn stretches_cover()
    ensures { StretchesCover }
{}

/// Where time doesn't go back and new text is sent in order: each outstanding number of what is found lost was sent
/// last RACK.rtt and the reordering window ago at least, and something was delivered that was sent later, by time, then
/// by position (RFC 8985, 6.2, step 5).
pub fn losses_are_overdue()
    ensures { LossesAreOverdue }
{}

/// Where time doesn't go back and new text is sent in order, and no number takes longer to be reported, from when it
/// was sent last, than another by the reordering window or more: nothing that is outstanding is found lost, whatever
/// the order in which they come (RFC 8985, 6.2, step 5).
pub fn jitter_is_no_loss()
    ensures { JitterIsNoLoss }
{}

/// Two stretches that were joined aren't found lost before each of them would have been (RFC 8985, 6.2, step 5).
pub fn joining_is_no_loss()
    ensures { JoiningIsNoLoss }
{}

/// The deadline is when the next one is lost, at every time below 2^64 - 1: before it none is, from then on one is, and
/// without one none ever is, so that nobody waits for longer, or looks before (RFC 8985, 6.2, step 5).
pub fn deadlines_are_losses()
    ensures { DeadlinesAreLosses }
{}

/// While a probe isn't acknowledged, and no recovery begins, no other one is sent (RFC 8985, 7.3).
pub fn one_probe_a_tail()
    ensures { OneProbeATail }
{}

/// No probe is sent before a round trip was measured since the last one, or at all where none was sent (RFC 8985, 7.3).
pub fn probes_are_measured()
    ensures { ProbesAreMeasured }
{}
