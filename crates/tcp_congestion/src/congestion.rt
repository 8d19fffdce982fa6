ghost use Rattle.std.specs.Prelude.{◌≡◌, ◌≤◌, ◌<◌, ◌+◌, ◌*◌, max};
ghost use Rattle.tcp_congestion.specs.Sizes.{max_segment, max_window};

use crate::cubic::Cubic;
use crate::reno::Reno;

/// A congestion window, whichever rule it grows by. [`Reno`] says what each call stands for; times are counts of
/// microseconds. What holds of any window beside its own rule is said here: it is a segment at least, and who sends what has
/// room has no more in flight than the window and two segments, or than before (RFC 5681, 3.1; RFC 3042, 2).
pub trait Congestion {
    ghost use Rattle.tcp_congestion.specs.Control.{Control};

    /// What it does, as functions of its state.
    ghost control: { Control Self };

    /// Whether it is a window at all. Where it isn't nothing has to be told to it, and nothing waits for it.
    fn limits(&self) -> bool
        ensures { result ≡ control.limits self.now };

    /// SMSS, in bytes: of a full segment.
    fn smss(&self) -> u64
        ensures { result ≡ control.smss self.now };

    /// The congestion window: at least one segment.
    fn cwnd(&self) -> u64
        ensures value { result ≡ control.cwnd self.now }
        ensures least { control.smss self.now ≤ result }
        ensures positive { 0 < result }
        ensures most { result ≤ max_window };

    /// The slow start threshold.
    fn ssthresh(&self) -> u64
        ensures { result ≡ control.ssthresh self.now };

    /// Whether a loss was found that isn't repaired yet.
    fn is_recovering(&self) -> bool
        ensures { result ≡ control.is_recovering self.now };

    /// How many bytes may be sent beside the `flight` bytes that aren't acknowledged.
    fn room(&self, flight: u64) -> u64
        ensures value { result ≡ control.room self.now flight }
        ensures within { result + flight ≤ max flight (control.cwnd self.now + 2 * control.smss self.now) };

    /// SND.UNA has moved on to `snd_una`, by `acked` bytes that weren't told before, and `flight` bytes are in flight; `rtt` is the
    /// smoothed round trip. Returns whether the first segment has to be sent again.
    fn acknowledged(&mut self, acked: u64, snd_una: u64, flight: u64, now: u64, rtt: u64) -> bool
        ensures again { result ≡ control.is_partial self.old snd_una }
        ensures after { self.new ≡ control.acknowledged self.old acked snd_una flight now rtt };

    /// Blocks report `count` bytes more of what is in flight, and SND.UNA stays: they were delivered (RFC 6937, 2), so that the window
    /// grows as where so much is acknowledged, unless a recovery goes on. What is acknowledged later is less by so much.
    fn delivered(&mut self, count: u64, flight: u64, now: u64, rtt: u64)
        ensures { self.new ≡ control.delivered self.old count flight now rtt };

    /// A duplicate acknowledgement has come, where no blocks are exchanged. Returns whether the first segment has to be sent
    /// again.
    fn duplicate(&mut self, snd_una: u64, flight: u64, snd_nxt: u64) -> bool
        ensures again { result ≡ control.begins_recovery self.old snd_una }
        ensures after { self.new ≡ control.duplicated self.old snd_una flight snd_nxt };

    /// A duplicate acknowledgement with a new block has come.
    fn reported(&mut self)
        ensures { self.new ≡ control.reported self.old };

    /// Whether a loss would be the first of a window of data: all before the last one is acknowledged (RFC 5681, 4.3).
    fn is_new_loss(&self, snd_una: u64) -> bool
        ensures { result ≡ control.is_new_loss self.now snd_una };

    /// Blocks or a probe have found a loss. Returns whether it shrinks the window.
    fn lost(&mut self, snd_una: u64, flight: u64, snd_nxt: u64) -> bool
        ensures shrinks { result ≡ control.is_new_loss self.old snd_una }
        ensures after { self.new ≡ control.lost self.old snd_una flight snd_nxt };

    /// Losses are found by time in the recovery that goes on, if one does (RFC 8985): no partial acknowledgement has the first segment
    /// sent again in it.
    fn finds_by_time(&mut self)
        ensures { self.new ≡ control.found_by_time self.old };

    /// Blocks report `reported` bytes of what is in flight: in a recovery as many as ssthresh are under way beside them (RFC 6675, 4
    /// and 5).
    fn keep_pipe(&mut self, reported: u64)
        ensures { self.new ≡ control.with_pipe self.old reported };

    /// What was sent again since the last loss was lost again: the window shrinks once more (RFC 5681, 4.3).
    fn lost_again(&mut self)
        ensures { self.new ≡ control.lost_again self.old };

    /// The retransmission timer has expired, which didn't probe a shut window.
    fn timed_out(&mut self, flight: u64, snd_nxt: u64)
        ensures { self.new ≡ control.timed_out self.old flight snd_nxt };

    /// Whether a segment of what a loss concerns may be sent again now.
    fn may_resend(&self) -> bool
        ensures { result ≡ control.may_resend self.now };

    /// A segment with `count` bytes was sent again.
    fn resent(&mut self, count: u64)
        ensures { self.new ≡ control.resent self.old count };

    /// Behind an acknowledgement of all before `snd_una`, up to the position `snd_nxt` of what was sent, a round trip of `trip`
    /// microseconds is measured: where these become longer, the first slow start ends before anything is lost (RFC 9406).
    fn measured(&mut self, trip: u64, snd_una: u64, snd_nxt: u64)
        ensures { self.new ≡ control.measured self.old trip snd_una snd_nxt };

    /// Both SYNs have agreed on full segments of `smss` bytes, and no text was sent yet.
    fn agreed(&mut self, smss: u64)
        requires least { 0 < smss }
        requires most { smss ≤ max_segment }
        ensures { self.new ≡ control.agreed self.old smss };

    /// The handshake is over, and its SYN was lost.
    fn syn_was_resent(&mut self)
        ensures { self.new ≡ control.syn_resent self.old };

    /// Data are sent again after nothing was sent for longer than the timeout.
    fn was_idle(&mut self)
        ensures after { self.new ≡ control.idle self.old }
        ensures limits { control.limits self.new ≡ control.limits self.old };
}

impl Congestion for Reno {
    ghost use Rattle.tcp_congestion.specs.Control.{reno_control};

    ghost control = { reno_control };

    fn limits(&self) -> bool {
        true
    }

    fn smss(&self) -> u64 {
        Reno::smss(self)
    }

    fn cwnd(&self) -> u64 {
        Reno::cwnd(self)
    }

    fn ssthresh(&self) -> u64 {
        Reno::ssthresh(self)
    }

    fn is_recovering(&self) -> bool {
        Reno::is_recovering(self)
    }

    fn room(&self, flight: u64) -> u64 {
        Reno::room(self, flight)
    }

    fn acknowledged(
        &mut self,
        acked: u64,
        snd_una: u64,
        flight: u64,
        _now: u64,
        _rtt: u64,
    ) -> bool {
        Reno::acknowledged(self, acked, snd_una, flight)
    }

    fn delivered(&mut self, count: u64, flight: u64, _now: u64, _rtt: u64) {
        Reno::delivered(self, count, flight);
    }

    fn duplicate(&mut self, snd_una: u64, flight: u64, snd_nxt: u64) -> bool {
        Reno::duplicate(self, snd_una, flight, snd_nxt)
    }

    fn reported(&mut self) {
        Reno::reported(self);
    }

    fn is_new_loss(&self, snd_una: u64) -> bool {
        Reno::is_new_loss(self, snd_una)
    }

    fn lost(&mut self, snd_una: u64, flight: u64, snd_nxt: u64) -> bool {
        Reno::lost(self, snd_una, flight, snd_nxt)
    }

    fn finds_by_time(&mut self) {
        Reno::finds_by_time(self);
    }

    fn keep_pipe(&mut self, reported: u64) {
        Reno::keep_pipe(self, reported);
    }

    fn lost_again(&mut self) {
        Reno::lost_again(self);
    }

    fn timed_out(&mut self, flight: u64, snd_nxt: u64) {
        Reno::timed_out(self, flight, snd_nxt);
    }

    fn may_resend(&self) -> bool {
        Reno::may_resend(self)
    }

    fn resent(&mut self, count: u64) {
        Reno::resent(self, count);
    }

    fn measured(&mut self, trip: u64, snd_una: u64, snd_nxt: u64) {
        Reno::measured(self, trip, snd_una, snd_nxt);
    }

    fn agreed(&mut self, smss: u64) {
        Reno::agreed(self, smss);
    }

    fn syn_was_resent(&mut self) {
        Reno::syn_was_resent(self);
    }

    fn was_idle(&mut self) {
        Reno::was_idle(self);
    }
}

impl Congestion for Cubic {
    ghost use Rattle.tcp_congestion.specs.Control.{cubic_control};

    ghost control = { cubic_control };

    fn limits(&self) -> bool {
        true
    }

    fn smss(&self) -> u64 {
        Cubic::smss(self)
    }

    fn cwnd(&self) -> u64 {
        Cubic::cwnd(self)
    }

    fn ssthresh(&self) -> u64 {
        Cubic::ssthresh(self)
    }

    fn is_recovering(&self) -> bool {
        Cubic::is_recovering(self)
    }

    fn room(&self, flight: u64) -> u64 {
        Cubic::room(self, flight)
    }

    fn acknowledged(&mut self, acked: u64, snd_una: u64, flight: u64, now: u64, rtt: u64) -> bool {
        Cubic::acknowledged(self, acked, snd_una, flight, now, rtt)
    }

    fn delivered(&mut self, count: u64, flight: u64, now: u64, rtt: u64) {
        Cubic::delivered(self, count, flight, now, rtt);
    }

    fn duplicate(&mut self, snd_una: u64, flight: u64, snd_nxt: u64) -> bool {
        Cubic::duplicate(self, snd_una, flight, snd_nxt)
    }

    fn reported(&mut self) {
        Cubic::reported(self);
    }

    fn is_new_loss(&self, snd_una: u64) -> bool {
        Cubic::is_new_loss(self, snd_una)
    }

    fn lost(&mut self, snd_una: u64, flight: u64, snd_nxt: u64) -> bool {
        Cubic::lost(self, snd_una, flight, snd_nxt)
    }

    fn finds_by_time(&mut self) {
        Cubic::finds_by_time(self);
    }

    fn keep_pipe(&mut self, reported: u64) {
        Cubic::keep_pipe(self, reported);
    }

    fn lost_again(&mut self) {
        Cubic::lost_again(self);
    }

    fn timed_out(&mut self, flight: u64, snd_nxt: u64) {
        Cubic::timed_out(self, flight, snd_nxt);
    }

    fn may_resend(&self) -> bool {
        Cubic::may_resend(self)
    }

    fn resent(&mut self, count: u64) {
        Cubic::resent(self, count);
    }

    fn measured(&mut self, trip: u64, snd_una: u64, snd_nxt: u64) {
        Cubic::measured(self, trip, snd_una, snd_nxt);
    }

    fn agreed(&mut self, smss: u64) {
        Cubic::agreed(self, smss);
    }

    fn syn_was_resent(&mut self) {
        Cubic::syn_was_resent(self);
    }

    fn was_idle(&mut self) {
        Cubic::was_idle(self);
    }
}
