ghost use Rattle.std.specs.Prelude.{◌≡◌, ◌≤◌};

use crate::reno::MAX_LIMIT;
use std::marker::Model;

/// No round trip was measured.
const INFINITY: u32 = u32::MAX;

/// MIN_RTT_THRESH and MAX_RTT_THRESH (RFC 9406, 4.3), in microseconds: 4 ms and 16 ms.
const MIN_RTT_THRESH: u32 = 4_000;

const MAX_RTT_THRESH: u32 = 16_000;

/// MIN_RTT_DIVISOR, N_RTT_SAMPLE, CSS_GROWTH_DIVISOR and CSS_ROUNDS (RFC 9406, 4.3).
const MIN_RTT_DIVISOR: u32 = 8;

const N_RTT_SAMPLE: u8 = 8;

const CSS_GROWTH_DIVISOR: u64 = 4;

const CSS_ROUNDS: u8 = 5;

/// HyStart++ (RFC 9406, 4): by how much the window grows in slow start, and when that ends since round trips become
/// longer. Standard slow start goes over into Conservative Slow Start (CSS) first, which goes back where it was spurious.
/// Sizes are bytes, times are counts of microseconds, and positions count from the SYN, which is at 0 (RFC 9293, 3.4).
#[derive(Clone, Copy, Debug, PartialEq, Eq)]
pub struct HyStart {
    window_end: u64,
    last: u32,
    current: u32,
    /// cssBaselineMinRtt, while CSS goes on.
    baseline: u32,
    samples: u8,
    /// The round of CSS that goes on, or 0.
    round: u8,
}

impl Model for HyStart {
    ghost use Rattle.tcp_congestion.specs.HyStart.{SlowStart, IsSlowStart};

    ghost Value = { SlowStart };

    ghost view = { λ h. record {
      window_end = h.window_end;
      last_round_min_rtt = h.last;
      current_round_min_rtt = h.current;
      css_baseline_min_rtt = h.baseline;
      rtt_sample_count = h.samples;
      css_round = h.round;
    } };

    ghost invariant = { λ h. IsSlowStart (record {
      window_end = h.window_end;
      last_round_min_rtt = h.last;
      current_round_min_rtt = h.current;
      css_baseline_min_rtt = h.baseline;
      rtt_sample_count = h.samples;
      css_round = h.round;
    }) };

    ghost inverse = { λ s. record {
      window_end = s.window_end;
      last = s.last_round_min_rtt;
      current = s.current_round_min_rtt;
      baseline = s.css_baseline_min_rtt;
      samples = s.rtt_sample_count;
      round = s.css_round;
    } };
}

impl HyStart {
    ghost use Rattle.tcp_congestion.specs.HyStart.{after_trip, growth_of, is_complete, is_conservative, is_measured, new_start};
    ghost use Rattle.tcp_congestion.specs.Sizes.{max_limit, max_segment};

    /// Slow start begins, and no round trip was measured.
    pub fn new() -> HyStart
        ensures { result ≡ new_start }
    {
        HyStart {
            window_end: 0,
            last: INFINITY,
            current: INFINITY,
            baseline: INFINITY,
            samples: 0,
            round: 0,
        }
    }

    /// Whether a round trip was measured since slow start began.
    #[must_use]
    pub fn is_measured(&self) -> bool
        ensures { result ≡ is_measured self.now }
    {
        self.current < INFINITY
    }

    /// Whether CSS goes on.
    #[must_use]
    pub fn is_conservative(&self) -> bool
        ensures { result ≡ is_conservative self.now }
    {
        self.round > 0
    }

    /// In slow start an acknowledgement of all before the position `una` measured a round trip of `trip` microseconds,
    /// of which more than 2^32 - 2 don't count, while SND.NXT is `nxt`. Returns whether slow start is over, since the last
    /// round of CSS is complete: then ssthresh is to become cwnd, and this begins anew.
    #[must_use]
    pub fn measured(&mut self, trip: u64, una: u64, nxt: u64) -> bool
        ensures over { result ≡ is_complete self.old una }
        ensures after { self.new ≡ after_trip self.old trip una nxt }
    {
        if self.window_end <= una {
            if self.round == CSS_ROUNDS {
                *self = HyStart::new();
                return true;
            }
            self.begin_round(nxt);
        }
        self.sample(trip);
        self.check();
        false
    }

    /// By how much the window grows in slow start with `acked` bytes that are acknowledged, in segments of `smss` bytes:
    /// by eight of these at most, or by `limit` where no round trip was measured, and in CSS by a quarter of that.
    #[must_use]
    pub fn growth(&self, acked: u64, smss: u64, limit: u64) -> u64
        requires most { smss ≤ max_segment }
        requires limited { limit ≤ max_limit }
        ensures { result ≡ growth_of self.now acked smss limit }
    {
        let most = if self.is_measured() { MAX_LIMIT } else { limit };
        let counted = acked.min(most * smss);
        if self.is_conservative() {
            counted / CSS_GROWTH_DIVISOR
        } else {
            counted
        }
    }

    ghost use Rattle.tcp_congestion.specs.HyStart.{begun, checked, css_rounds, enters_css, is_longer, resumes, sampled};
    ghost use Rattle.std.specs.Prelude.{◌<◌};

    /// A round begins, which isn't one behind the last of CSS.
    fn begin_round(&mut self, nxt: u64)
        requires { self.old.css_round < css_rounds }
        ensures { self.new ≡ begun self.old nxt }
    {
        self.window_end = nxt;
        self.last = self.current;
        self.current = INFINITY;
        self.samples = 0;
        if self.round > 0 {
            self.round += 1;
        }
    }

    /// A round trip counts in its round.
    fn sample(&mut self, trip: u64)
        ensures { self.new ≡ sampled self.old trip }
    {
        let counted = trip.min(u64::from(INFINITY - 1)) as u32;
        self.current = self.current.min(counted);
        self.samples = N_RTT_SAMPLE.min(self.samples + 1);
    }

    /// CSS begins, or was spurious.
    fn check(&mut self)
        ensures { self.new ≡ checked self.old }
    {
        if self.samples < N_RTT_SAMPLE {
            return;
        }
        if self.round == 0 {
            if self.is_longer() {
                self.baseline = self.current;
                self.round = 1;
            }
        } else if self.current < self.baseline {
            self.baseline = INFINITY;
            self.round = 0;
        }
    }

    /// Whether the delay increases.
    fn is_longer(&self) -> bool
        ensures { result ≡ is_longer self.now }
    {
        let threshold = (self.last / MIN_RTT_DIVISOR)
            .min(MAX_RTT_THRESH)
            .max(MIN_RTT_THRESH);
        self.last < INFINITY && threshold <= self.current.saturating_sub(self.last)
    }
}
