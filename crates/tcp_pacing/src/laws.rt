//! What follows of pacing, however it is computed. These functions do nothing when they run: each carries the law that it ensures.
ghost use Rattle.tcp_pacing.specs.Spread.{AWindowGoesInARoundTrip, HeldTextGoes, NoFasterThanTheRate, OffNeverWaits};

/// While it is off nothing waits, whatever is called, and there is no time to wait for.
pub fn off_never_waits()
    ensures { OffNeverWaits }
{}

/// What goes out in any span of time is at most what the greatest rate lets out in it, and two portions, where time doesn't go
/// back and no more goes out than is allowed (RFC 9002, 7.7). Times are below 2^63.
pub fn no_faster_than_the_rate()
    ensures { NoFasterThanTheRate }
{}

/// The rate of each portion is a window in a round trip at least, so that pacing leaves no window unused (RFC 9002, 7.7).
pub fn a_window_goes_in_a_round_trip()
    ensures { AWindowGoesInARoundTrip }
{}

/// What waits goes on: at the time that there is to wait for two segments may go out, and it is two round trips or a
/// millisecond behind the last portion at most.
pub fn held_text_goes()
    ensures { HeldTextGoes }
{}
