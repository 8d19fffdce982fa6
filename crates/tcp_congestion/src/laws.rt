//! What follows of windows, delays and limits, however they are computed. These functions do nothing when they run: each
//! carries the law that it ensures.
ghost use Rattle.tcp_congestion.specs.DelayedAck.{NoAcknowledgementIsLate};
ghost use Rattle.tcp_congestion.specs.SwsAvoidance.{NoSillySegment, NothingWaitsLonger};
ghost use Rattle.tcp_congestion.specs.Limiter.{FewAnswers, OneInAnInterval};
ghost use Rattle.tcp_congestion.specs.HyStart.{CssIsShort, HyStartGrowthIsLimited, JitterIsNoDelay};
ghost use Rattle.tcp_congestion.specs.CubicGrowth.{CubicGrowsByHalf, CubicGrowthIsAcknowledged, CubicIsFriendly, CubicLossShrinks, CubicOneLossAWindow};
ghost use Rattle.tcp_congestion.specs.Growth.{AvoidanceIsSlow, FlightStaysInWindow, GrowthIsAcknowledged, LossShrinks, OneLossAWindow, ResendsStayInWindow};

/// In congestion avoidance the window grows by at most a segment for each window that is acknowledged (RFC 5681, 3.1).
pub fn avoidance_is_slow()
    ensures { AvoidanceIsSlow }
{}

/// The window never grows by more than what is acknowledged, or reported by blocks and acknowledged later, so that slow start at most doubles it in a round trip (RFC
/// 5681, 3.1).
pub fn growth_is_acknowledged()
    ensures { GrowthIsAcknowledged }
{}

/// A loss shrinks the window to half of what was in flight and three segments, and to half once it is repaired, once for
/// all that was in flight; a timeout shrinks it to one segment (RFC 5681, 3.1 and 3.2; RFC 6582, 3.2).
pub fn loss_shrinks()
    ensures { LossShrinks }
{}

/// A loss that blocks or a probe found shrinks the window, and nothing more that is found until all is acknowledged that was
/// in flight then (RFC 5681, 4.3).
pub fn one_loss_a_window()
    ensures { OneLossAWindow }
{}

/// CUBIC's window grows in congestion avoidance by half of what is acknowledged at most, and a byte, so that in a round trip it
/// becomes at most one and a half of what it was, or of what Reno's would be (RFC 9438, 4.2 and 4.3).
pub fn cubic_grows_by_half()
    ensures { CubicGrowsByHalf }
{}

/// In slow start, too, it grows by what is acknowledged at most, and a byte (RFC 9438, 4.10).
pub fn cubic_growth_is_acknowledged()
    ensures { CubicGrowthIsAcknowledged }
{}

/// Where CUBIC's curve is below what Reno's window would be, CUBIC's isn't below that (RFC 9438, 4.3).
pub fn cubic_is_friendly()
    ensures { CubicIsFriendly }
{}

/// A loss shrinks CUBIC's window to 0.7 of what was in flight, or two segments, and three segments, and to 0.7 once it is
/// repaired, once for all that was in flight; a timeout shrinks it to one segment (RFC 9438, 4.6 and 4.8).
pub fn cubic_loss_shrinks()
    ensures { CubicLossShrinks }
{}

/// Of all that is in flight one loss shrinks CUBIC's window: what is found behind it changes neither ssthresh nor W_max until all
/// is acknowledged that was in flight then (RFC 5681, 4.3).
pub fn cubic_one_loss_a_window()
    ensures { CubicOneLossAWindow }
{}

/// In slow start the window grows by what is acknowledged at most, and by eight segments (RFC 9406, 4.2).
pub fn hy_start_growth_is_limited()
    ensures { HyStartGrowthIsLimited }
{}

/// Round trips that lie within 4 ms never end slow start, nor slow it (RFC 9406, 4.2 and 4.3).
pub fn jitter_is_no_delay()
    ensures { JitterIsNoDelay }
{}

/// Conservative Slow Start lasts for five rounds at most (RFC 9406, 4.2).
pub fn css_is_short()
    ensures { CssIsShort }
{}

/// Who sends again when it may has no more than a window of it and a segment in flight; right after a timeout that is one
/// segment, if it is a full one (RFC 5681, 3.1).
pub fn resends_stay_in_window()
    ensures { ResendsStayInWindow }
{}

/// Who sends what has room has at most a window and two segments in flight, or what was in flight before (RFC 5681, 3.1;
/// RFC 3042, 2).
pub fn flight_stays_in_window()
    ensures { FlightStaysInWindow }
{}

/// Answers lie an interval apart, whenever one is asked (RFC 5961, 7).
pub fn one_in_an_interval()
    ensures { OneInAnInterval }
{}

/// In any span of time there are as many answers as it has intervals, and one, at most (RFC 5961, 7).
pub fn few_answers()
    ensures { FewAnswers }
{}

/// Whatever comes, an acknowledgement is due behind a second full segment, behind one that can't wait, and 500 ms after the
/// first text that isn't acknowledged (RFC 5681, 4.2; RFC 9293, 3.8.6.3).
pub fn no_acknowledgement_is_late()
    ensures { NoAcknowledgementIsLate }
{}

/// A segment that isn't full has all that is queued, or is half of the greatest window, and with the Nagle algorithm nothing
/// is in flight then; or the override timeout has passed (RFC 9293, 3.8.6.2.1 and 3.7.4).
pub fn no_silly_segment()
    ensures { NoSillySegment }
{}

/// Data that the window has room for wait for less than the override timeout (RFC 9293, 3.8.6.2.1).
pub fn nothing_waits_longer()
    ensures { NothingWaitsLonger }
{}
