//! What follows of a driver, whatever its end is and whatever is called. These functions do nothing when they run: each
//! carries the law that it ensures.
ghost use Rattle.tcp_driver.specs.Calls.{BurstIsWhole, TimeoutComesInTime};
ghost use Rattle.tcp_driver.specs.Trains.{TrainIsEmissions};

use crate::machine::Core;

/// Between an expiry and the emission that finds nothing to send, the end has done nothing but expire, emit, and what its
/// user asked: no arrival is taken, and no other timer expires.
pub fn burst_is_whole<C: Core>()
    ensures { BurstIsWhole C.machine }
{}

/// While something waits for an acknowledgement, nothing new is acknowledged and no shut window opens, the retransmission
/// timer has a deadline, which one call may move at most, the emission with which what begins at SND.UNA goes out again. The
/// first `timeout` outside a burst that isn't before it is its expiry, or the user timeout's. So who makes no call later than
/// `late` after the time that `poll_at` gave, and goes on calling `timeout`, has it expire at most the greatest timeout and
/// `late` after it was started, or twice both where it was started anew.
pub fn timeout_comes_in_time<C: Core>()
    ensures { TimeoutComesInTime C.machine }
{}

/// Segments that go out as one ([`Driver::emit_train`](crate::Driver::emit_train)) are as many calls of
/// [`Driver::emit`](crate::Driver::emit), one after another at the same time: so what holds of each list of calls holds
/// where some of them are trains.
pub fn a_train_is_emissions<C: Core>()
    ensures { TrainIsEmissions C.machine }
{}
