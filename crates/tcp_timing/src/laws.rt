//! What follows of timeouts and measurements, however they are computed. These functions do nothing when they run: each
//! carries the law that it ensures.
ghost use Rattle.tcp_timing.specs.Bounds.{DoublesEachTime, RoundsDown, TimeoutFollowsTrips};
ghost use Rattle.tcp_timing.specs.Karn.{KarnsRule};

/// SRTT and RTTVAR, in whole microseconds, are less than one below what RFC 6298, 2.2 and 2.3, make of what was
/// measured and of the SRTT and RTTVAR before.
pub fn rounds_down()
    ensures { RoundsDown }
{}

/// Where all round trips lie between two times, so does SRTT; and the timeout that is computed from them is no shorter
/// than the lower one and the clock's granularity, and no longer than the upper one and four times the greater of its half
/// and their distance (RFC 6298, 2.2 to 2.5), whatever happened before.
pub fn timeout_follows_trips()
    ensures { TimeoutFollowsTrips }
{}

/// The timeout is doubled each time that the timer expires, up to the greatest (RFC 6298, 5.5).
pub fn doubles_each_time()
    ensures { DoublesEachTime }
{}

/// A round trip that is measured is that of a segment which was sent once, from then until it is first acknowledged,
/// whatever else is sent and acknowledged (Karn's algorithm: RFC 6298, 3).
pub fn karns_rule()
    ensures { KarnsRule }
{}
