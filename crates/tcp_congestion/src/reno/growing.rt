//! How Reno's window grows, and by how much a loss lowers its threshold.
ghost use Rattle.std.specs.Prelude.{◌≡◌, ◌≤◌, ◌*◌};

use crate::reno::{MAX_WINDOW, Reno};

impl Reno {
    ghost use Rattle.tcp_congestion.specs.Reno.{after_growth, after_measurement, halved, limited, no_higher, slow_started, started_by};
    ghost use Rattle.tcp_congestion.specs.Sizes.{max_threshold};

    /// Behind an acknowledgement of all before `snd_una`, up to the position `snd_nxt` of what was sent, a round trip of `trip`
    /// microseconds is measured: in the first slow start this is HyStart++'s (RFC 9406, 4.2 and 4.3). Where round trips become longer
    /// the window grows by a quarter of it, and after five rounds of that slow start is over, before anything is lost.
    pub fn measured(&mut self, trip: u64, snd_una: u64, snd_nxt: u64)
        ensures { self.new ≡ after_measurement self.old trip snd_una snd_nxt }
    {
        if self.is_recovering || self.ssthresh != MAX_WINDOW {
            return;
        }
        if self.start.measured(trip, snd_una, snd_nxt) {
            self.ssthresh = self.cwnd.max(2 * self.smss());
        }
    }

    /// By how much slow start grows (RFC 9406, 4.2; RFC 3465, 2.2 and 2.3).
    fn started_by(&self, acked: u64) -> u64
        ensures { result ≡ started_by self.now acked }
    {
        if self.ssthresh == MAX_WINDOW {
            self.start.growth(acked, self.smss(), u64::from(self.limit))
        } else {
            acked.min(self.smss())
        }
    }

    /// Slow start (RFC 5681, 3.1, equation 2; RFC 9406, 4.2).
    pub(crate) fn slow_start(&mut self, acked: u64)
        ensures { self.new ≡ slow_started self.old acked }
    {
        let growth = self.started_by(acked);
        self.cwnd = MAX_WINDOW.min(self.cwnd.saturating_add(growth));
    }

    /// What the first two duplicates let out beyond the window (RFC 3042, 2).
    pub(crate) fn limited(&self) -> u64
        ensures { result ≡ limited self.now }
    {
        if self.is_recovering {
            0
        } else {
            self.duplicates().min(2) * self.smss()
        }
    }

    /// Slow start or congestion avoidance (RFC 5681, 3.1), where half of the window was in use (RFC 7661, 4.3).
    pub(crate) fn grow(&mut self, acked: u64, flight: u64)
        ensures { self.new ≡ after_growth self.old acked flight }
    {
        if !self.is_used(acked, flight) {
            return;
        }
        if self.cwnd < self.ssthresh {
            self.slow_start(acked);
            return;
        }
        self.bytes_acked += acked.min(self.cwnd);
        if self.cwnd <= self.bytes_acked {
            self.bytes_acked -= self.cwnd;
            self.cwnd = MAX_WINDOW.min(self.cwnd + self.smss());
        }
    }

    /// ssthresh = max(FlightSize / 2, 2 * SMSS) (RFC 5681, 3.1, equation 4).
    pub(crate) fn halve(&mut self, flight: u64)
        ensures after { self.new ≡ halved self.old flight }
        ensures low { self.new.ssthresh ≤ max_threshold }
    {
        self.ssthresh = (flight.min(self.cwnd) / 2).max(2 * self.smss());
    }

    /// The timer has expired: the threshold is no higher than `before` where a recovery goes on, in which a loss has lowered it.
    pub(crate) fn no_higher(&mut self, before: u64)
        requires { 2 * self.old.smss ≤ before }
        ensures { self.new ≡ record self.old { ssthresh = no_higher (record self.old { ssthresh = before }) self.old.ssthresh } }
    {
        if self.is_recovering {
            self.ssthresh = self.ssthresh.min(before);
        }
    }
}
