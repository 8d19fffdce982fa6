ghost use Rattle.std.specs.Prelude.{◌≡◌, ◌≤◌, ◌<◌, ◌+◌, ◌*◌, ◌/◌, ◌^◌, min};

use crate::reno::{MAX_WINDOW, Reno};
use crate::root::{cubed, cubic_root, scaled};
use std::marker::Model;

/// The parts of a byte in which W_est is kept, and what the window grows by.
const PARTS: u64 = 1 << 23;

/// No time counts for more milliseconds.
const LONGEST: u64 = 2_000_000;

/// No distance between windows counts for more segments.
const FARTHEST: u64 = 1 << 31;

/// The congestion window of one connection by CUBIC (RFC 9438), with the slow start, the recovery and the calls of
/// [`Reno`]. It grows with the time since the last loss, and not with each round trip. Sizes are bytes, times are counts of
/// microseconds, and positions count from the SYN, which is at 0 (RFC 9293, 3.4).
#[derive(Clone, Copy, Debug, PartialEq, Eq)]
pub struct Cubic {
    window: Reno,
    w_max: u64,
    cwnd_prior: u64,
    is_begun: bool,
    k: u64,
    w_est: u64,
    rest: u64,
    t: u64,
    counted: u64,
}

impl Model for Cubic {
    ghost use Rattle.tcp_congestion.specs.Cubic.{CubicWindow, IsCubic};

    ghost Value = { CubicWindow };

    ghost view = { λ c. record {
      window = c.window;
      w_max = c.w_max;
      cwnd_prior = c.cwnd_prior;
      is_begun = c.is_begun;
      k = c.k;
      w_est = c.w_est;
      rest = c.rest;
      t = c.t;
      counted = c.counted;
    } };

    ghost invariant = { λ c. IsCubic (record {
      window = c.window;
      w_max = c.w_max;
      cwnd_prior = c.cwnd_prior;
      is_begun = c.is_begun;
      k = c.k;
      w_est = c.w_est;
      rest = c.rest;
      t = c.t;
      counted = c.counted;
    }) };

    ghost inverse = { λ v. record {
      window = v.window;
      w_max = v.w_max;
      cwnd_prior = v.cwnd_prior;
      is_begun = v.is_begun;
      k = v.k;
      w_est = v.w_est;
      rest = v.rest;
      t = v.t;
      counted = v.counted;
    } };
}

impl Cubic {
    ghost use Rattle.tcp_congestion.specs.Cubic.{after_acknowledgement, after_delivery, after_duplicate, after_idle_time, after_loss, after_report_of, after_second_loss, after_timeout, new_cubic};
    ghost use Rattle.tcp_congestion.specs.Reno.{after_agreement, after_finding, after_measurement, after_resent, after_syn_resent, begins_recovery, is_new_loss, is_partial, may_resend, room_of, with_pipe};
    ghost use Rattle.tcp_congestion.specs.Sizes.{max_limit, max_segment, max_window};

    /// The window of a connection that begins, as [`Reno::with_limit`] has it: of full segments of `smss` bytes, of which an
    /// acknowledgement counts for `limit` at most until a loss is found.
    pub fn with_limit(smss: u64, limit: u64) -> Cubic
        requires least { 0 < smss }
        requires most { smss ≤ max_segment }
        requires counts { 0 < limit }
        requires limited { limit ≤ max_limit }
        ensures { result ≡ new_cubic smss limit }
    {
        Cubic {
            window: Reno::with_limit(smss, limit),
            w_max: 0,
            cwnd_prior: 0,
            is_begun: false,
            k: 0,
            w_est: 0,
            rest: 0,
            t: 0,
            counted: 0,
        }
    }

    /// The congestion window: at least one segment.
    #[must_use]
    pub fn cwnd(&self) -> u64
        ensures value { result ≡ self.now.window.cwnd }
        ensures least { self.now.window.smss ≤ result }
        ensures positive { 0 < result }
        ensures most { result ≤ max_window }
    {
        self.window.cwnd()
    }

    /// The slow start threshold: at least two segments. Up to it the window grows by slow start.
    #[must_use]
    pub fn ssthresh(&self) -> u64
        ensures value { result ≡ self.now.window.ssthresh }
        ensures least { 2 * self.now.window.smss ≤ result }
    {
        self.window.ssthresh()
    }

    /// Whether a loss was found that isn't repaired yet (RFC 6582, 3.2).
    #[must_use]
    pub fn is_recovering(&self) -> bool
        ensures { result ≡ self.now.window.is_recovering }
    {
        self.window.is_recovering()
    }

    /// Whether a loss would be the first of a window of data (RFC 5681, 4.3).
    pub(crate) fn is_new_loss(&self, snd_una: u64) -> bool
        ensures { result ≡ is_new_loss self.now.window snd_una }
    {
        self.window.is_new_loss(snd_una)
    }

    /// How many bytes may be sent beside the `flight` bytes that aren't acknowledged.
    #[must_use]
    pub fn room(&self, flight: u64) -> u64
        ensures { result ≡ room_of self.now.window flight }
    {
        self.window.room(flight)
    }

    /// SND.UNA has moved on at this time: all before `snd_una` is acknowledged, `acked` bytes of it by what has just come,
    /// and `flight` bytes aren't; `rtt` is the smoothed round trip, or 0 where none was measured. Returns whether the first
    /// segment has to be sent again, because this is a partial acknowledgement (RFC 6582, 3.2, 3).
    #[must_use]
    pub fn acknowledged(
        &mut self,
        acked: u64,
        snd_una: u64,
        flight: u64,
        now: u64,
        rtt: u64,
    ) -> bool
        ensures again { result ≡ is_partial self.old.window snd_una }
        ensures after { self.new ≡ after_acknowledgement self.old acked snd_una flight now rtt }
    {
        let again = self.window.is_partial(snd_una);
        self.window.progress(acked);
        if self.window.is_recovering() {
            self.window.recover(acked, snd_una, flight);
        } else {
            self.grow(acked, flight, now, rtt);
        }
        again
    }

    /// Blocks report `count` bytes more of what is in flight at this time, and SND.UNA stays, as for [`Reno::delivered`].
    pub fn delivered(&mut self, count: u64, flight: u64, now: u64, rtt: u64)
        ensures { self.new ≡ after_delivery self.old count flight now rtt }
    {
        if !self.window.is_recovering() {
            self.grow(count, flight.saturating_sub(count), now, rtt);
        }
    }

    /// A duplicate acknowledgement has come (RFC 5681, 2), as for [`Reno::duplicate`]. Returns whether the first segment has
    /// to be sent again, because this is the third one and begins fast recovery.
    #[must_use]
    pub fn duplicate(&mut self, snd_una: u64, flight: u64, snd_nxt: u64) -> bool
        ensures again { result ≡ begins_recovery self.old.window snd_una }
        ensures after { self.new ≡ after_duplicate self.old snd_una flight snd_nxt }
    {
        if self.window.begins_recovery(snd_una) {
            self.reduce(flight);
            self.window.begin_recovery(3, snd_nxt);
            return true;
        }
        self.window.reported();
        false
    }

    /// A duplicate acknowledgement with a new block has come, where blocks say what is lost: [`Reno::reported`].
    pub fn reported(&mut self)
        ensures { self.new ≡ after_report_of self.old }
    {
        self.window.reported();
    }

    /// Blocks or a probe have found a loss, while `flight` bytes were in flight, from the position `snd_una` up to `snd_nxt`.
    /// Returns whether it shrinks the window, which one loss does for all that is in flight (RFC 5681, 4.3).
    pub fn lost(&mut self, snd_una: u64, flight: u64, snd_nxt: u64) -> bool
        ensures shrinks { result ≡ is_new_loss self.old.window snd_una }
        ensures after { self.new ≡ after_loss self.old snd_una flight snd_nxt }
    {
        if !self.window.is_new_loss(snd_una) {
            return false;
        }
        let left = self.window.duplicates();
        self.reduce(flight);
        self.window.begin_recovery(left, snd_nxt);
        true
    }

    /// Losses are found by time in the recovery that goes on: [`Reno::finds_by_time`].
    pub fn finds_by_time(&mut self)
        ensures { self.new ≡ record self.old { window = after_finding self.old.window } }
    {
        self.window.finds_by_time();
    }

    /// Blocks report `reported` bytes of what is in flight: [`Reno::keep_pipe`].
    pub fn keep_pipe(&mut self, reported: u64)
        ensures { self.new ≡ record self.old { window = with_pipe self.old.window reported } }
    {
        self.window.keep_pipe(reported);
    }

    /// What was sent again since the last loss was lost again: the window shrinks once more, as for [`Reno::lost_again`] (RFC 5681,
    /// 4.3).
    pub fn lost_again(&mut self)
        ensures { self.new ≡ after_second_loss self.old }
    {
        let least = self.window.base() * 7 / 10;
        self.window.lower(least);
        self.is_begun = false;
    }

    /// The retransmission timer has expired while `flight` bytes were in flight, up to the position `snd_nxt` (RFC 9438, 4.8).
    /// For a timer that probes a shut window it isn't called.
    pub fn timed_out(&mut self, flight: u64, snd_nxt: u64)
        ensures { self.new ≡ after_timeout self.old flight snd_nxt }
    {
        if !self.window.is_timed_out() {
            let before = self.window.ssthresh();
            self.reduce(flight);
            self.window.no_higher(before);
            self.w_max = 0;
        }
        self.window.restart(snd_nxt);
    }

    /// Whether what a loss concerns may be sent again now, a segment of it (RFC 5681, 3.1).
    #[must_use]
    pub fn may_resend(&self) -> bool
        ensures { result ≡ may_resend self.now.window }
    {
        self.window.may_resend()
    }

    /// A segment with `count` bytes was sent again.
    pub fn resent(&mut self, count: u64)
        ensures { self.new ≡ record self.old { window = after_resent self.old.window count } }
    {
        self.window.resent(count);
    }

    /// Behind an acknowledgement of all before `snd_una` a round trip of `trip` microseconds is measured: [`Reno::measured`] (RFC 9438,
    /// 4.10; RFC 9406).
    pub fn measured(&mut self, trip: u64, snd_una: u64, snd_nxt: u64)
        ensures { self.new ≡ record self.old { window = after_measurement self.old.window trip snd_una snd_nxt } }
    {
        self.window.measured(trip, snd_una, snd_nxt);
    }

    /// The handshake is over, and its SYN was lost (RFC 5681, 3.1), as for [`Reno::syn_was_resent`].
    pub fn syn_was_resent(&mut self)
        ensures { self.new ≡ record self.old { window = after_syn_resent self.old.window } }
    {
        self.window.syn_was_resent();
    }

    /// Both SYNs have agreed on full segments of `smss` bytes, as for [`Reno::agreed`].
    pub fn agreed(&mut self, smss: u64)
        requires least { 0 < smss }
        requires most { smss ≤ max_segment }
        ensures { self.new ≡ record self.old { window = after_agreement self.old.window smss } }
    {
        self.window.agreed(smss);
    }

    /// Data are sent again after nothing was sent for longer than the timeout (RFC 5681, 4.1; RFC 9438, 5.8).
    pub fn was_idle(&mut self)
        ensures { self.new ≡ after_idle_time self.old }
    {
        self.window.was_idle();
        self.is_begun = false;
    }
}

// What the calls are made of.
impl Cubic {
    /// SMSS.
    pub(crate) fn smss(&self) -> u64
        ensures { result ≡ self.now.window.smss }
    {
        self.window.smss()
    }

    ghost use Rattle.tcp_congestion.specs.Cubic.{after_growth, approached, avoided, befriended, est_rate, estimated, in_stage, is_friendly, reduced, target_of, timed, w_cubic};
    ghost use Rattle.tcp_congestion.specs.Sizes.{latest, max_threshold, max_window};

    /// Slow start or congestion avoidance, where half of the window was in use (RFC 9438, 4.10 and 5.8).
    fn grow(&mut self, acked: u64, flight: u64, now: u64, rtt: u64)
        ensures { self.new ≡ after_growth self.old acked flight now rtt }
    {
        if !self.window.is_used(acked, flight) {
            self.counted = now;
            return;
        }
        if self.window.cwnd() <= self.window.ssthresh() {
            self.window.slow_start(acked);
            return;
        }
        self.begin_stage(now);
        self.count(now);
        self.estimate(acked);
        self.avoid(acked, rtt);
    }

    /// A stage of congestion avoidance begins, where none goes on (RFC 9438, 4.2, 4.3 and 4.8).
    fn begin_stage(&mut self, now: u64)
        ensures { self.new ≡ in_stage self.old now }
    {
        if self.is_begun {
            return;
        }
        let cwnd = self.window.cwnd();
        self.k = k_of(self.window.smss(), self.w_max.saturating_sub(cwnd));
        self.w_max = self.w_max.max(cwnd);
        self.is_begun = true;
        self.w_est = cwnd * PARTS;
        self.rest = 0;
        self.t = 0;
        self.counted = now;
    }

    /// The time since the last acknowledgement counts.
    fn count(&mut self, now: u64)
        ensures { self.new ≡ timed self.old now }
    {
        let most = LONGEST * 1000;
        self.t = most.min(self.t + now.saturating_sub(self.counted).min(most));
        self.counted = now;
    }

    /// W_est grows (RFC 9438, 4.3).
    fn estimate(&mut self, acked: u64)
        ensures { self.new ≡ estimated self.old acked }
    {
        let cwnd = self.window.cwnd();
        let grown = self.est_rate() * acked.min(cwnd);
        self.w_est = (MAX_WINDOW * PARTS).min(self.w_est.saturating_add(grown));
    }

    /// By how much W_est grows for each byte that is acknowledged, in parts (RFC 9438, 4.3).
    fn est_rate(&self) -> u64
        ensures { result ≡ est_rate self.now }
    {
        let cwnd = self.window.cwnd();
        let smss = self.window.smss();
        if self.cwnd_prior * PARTS <= self.w_est {
            smss * PARTS / cwnd
        } else {
            9 * smss * PARTS / (17 * cwnd)
        }
    }

    /// Congestion avoidance (RFC 9438, 4.3 to 4.5).
    fn avoid(&mut self, acked: u64, rtt: u64)
        ensures { self.new ≡ avoided self.old acked rtt }
    {
        if self.is_friendly() {
            self.befriend();
        } else {
            let later = self.later(rtt);
            self.approach(acked, later);
        }
    }

    /// Whether W_cubic is below W_est (RFC 9438, 4.3).
    fn is_friendly(&self) -> bool
        ensures { result ≡ is_friendly self.now }
    {
        self.w_cubic(self.t) < self.w_est / PARTS
    }

    /// The window is W_est, where that is more (RFC 9438, 4.3).
    fn befriend(&mut self)
        ensures { self.new ≡ befriended self.old }
    {
        let cwnd = self.w_est / PARTS;
        if self.window.cwnd() < cwnd {
            self.window.set_cwnd(cwnd);
            self.rest = self.w_est % PARTS;
        }
    }

    /// A round trip later.
    fn later(&self, rtt: u64) -> u64
        ensures { result ≡ min latest (self.now.t + rtt) }
    {
        self.t.saturating_add(rtt)
    }

    /// The window grows towards the target (RFC 9438, 4.4 and 4.5).
    fn approach(&mut self, acked: u64, time: u64)
        ensures { self.new ≡ approached self.old acked time }
    {
        let cwnd = self.window.cwnd();
        let target = self.target(time);
        let all = self.rest + (target - cwnd) * PARTS / cwnd * acked.min(cwnd);
        self.window.set_cwnd(MAX_WINDOW.min(cwnd + all / PARTS));
        self.rest = all % PARTS;
    }

    /// The target, between the window and one and a half of it (RFC 9438, 4.2).
    fn target(&self, time: u64) -> u64
        ensures value { result ≡ target_of self.now time }
        ensures least { self.now.window.cwnd ≤ result }
        ensures most { result ≤ self.now.window.cwnd + self.now.window.cwnd / 2 }
    {
        let cwnd = self.window.cwnd();
        self.w_cubic(time).max(cwnd).min(cwnd + cwnd / 2)
    }

    /// W_cubic, so many microseconds into the stage (RFC 9438, 4.2).
    fn w_cubic(&self, time: u64) -> u64
        ensures { result ≡ w_cubic self.now time }
    {
        let smss = self.window.smss();
        let after = rise(smss, (time / 1000).saturating_sub(self.k));
        let before = rise(smss, self.k.saturating_sub(time / 1000));
        (self.w_max + after).saturating_sub(before)
    }

    /// ssthresh, W_max and cwnd_prior after a loss (RFC 9438, 4.6 and 4.7).
    fn reduce(&mut self, flight: u64)
        ensures after { self.new ≡ reduced self.old flight }
        ensures low { self.new.window.ssthresh ≤ max_threshold }
    {
        let cwnd = self.window.cwnd();
        let least = 2 * self.window.smss();
        self.window
            .set_ssthresh((flight.min(cwnd) * 7 / 10).max(least));
        self.w_max = if cwnd < self.w_max {
            cwnd * 17 / 20
        } else {
            cwnd
        };
        self.cwnd_prior = cwnd;
        self.is_begun = false;
    }
}

ghost use Rattle.tcp_congestion.specs.Cubic.{farthest, k_of, longest, rise};
ghost use Rattle.tcp_congestion.specs.Sizes.{max_segment, max_window};

/// C * d^3, of `d` milliseconds (RFC 9438, 4.2).
fn rise(smss: u64, d: u64) -> u64
    requires { smss ≤ max_segment }
    ensures value { result ≡ rise smss d }
    ensures most { result ≤ 2 ^ 50 }
{
    scaled(cubed(d.min(LONGEST)), smss, 2_500_000_000)
}

/// K, in milliseconds, for so many bytes from the window up to W_max (RFC 9438, 4.2).
fn k_of(smss: u64, apart: u64) -> u64
    requires least { 0 < smss }
    requires most { smss ≤ max_segment }
    ensures value { result ≡ k_of smss apart }
    ensures bound { result ≤ longest }
{
    cubic_root(scaled(apart.min(FARTHEST * smss), 2_500_000_000, smss))
}
