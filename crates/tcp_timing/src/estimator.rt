ghost use Rattle.std.specs.Prelude.{◌≡◌, ◌≤◌};

use crate::round_trip::RoundTrip;
use crate::rules::{LONGEST, Rules};
use std::marker::Model;

/// The retransmission timeout of one connection, RTO (RFC 6298, 2 and 5), in microseconds.
#[derive(Clone, Copy, Debug, PartialEq, Eq)]
pub struct Estimator {
    rules: Rules,
    trip: Option<RoundTrip>,
    rto: u64,
}

impl Model for Estimator {
    ghost use Rattle.tcp_timing.specs.Estimate.{Estimate, IsBounded, IsShort};

    ghost Value = { Estimate };

    ghost view = { λ e. record { rules = e.rules; trip = e.trip; rto = e.rto } };

    ghost invariant = { λ e. IsBounded (record { rules = e.rules; trip = e.trip; rto = e.rto }) × IsShort e.trip };

    ghost inverse = { λ e. record { rules = e.rules; trip = e.trip; rto = e.rto } };
}

impl Estimator {
    ghost use Rattle.tcp_timing.specs.Estimate.{after_back_off, after_sample, after_syn_resent, new_estimate, timeout, without_back_off};
    ghost use Rattle.tcp_timing.specs.Rules.{IsSound, longest};

    /// Nothing was measured yet (RFC 6298, 2.1). [`Rules::are_sound`] tests what it requires.
    pub fn new(rules: Rules) -> Estimator
        requires { IsSound rules }
        ensures { result ≡ new_estimate rules }
    {
        Estimator {
            rules,
            trip: None,
            rto: rules.bounded(rules.first),
        }
    }

    /// RTO: when a segment has been out for so long without an acknowledgement, it is sent again. It is always within the
    /// bounds (RFC 6298, 2.4 and 2.5).
    #[must_use]
    pub fn rto(&self) -> u64
        ensures value { result ≡ self.now.rto }
        ensures least { self.now.rules.least ≤ result }
        ensures most { result ≤ self.now.rules.greatest }
    {
        self.rto
    }

    /// SRTT and RTTVAR, once a round trip was measured.
    #[must_use]
    pub fn trip(&self) -> Option<RoundTrip>
        ensures { result ≡ self.now.trip }
    {
        self.trip
    }

    /// G, the granularity of the clock (RFC 6298, 2): no time below it can be told from none.
    #[must_use]
    pub fn granularity(&self) -> u64
        ensures { result ≡ self.now.rules.granularity }
    {
        self.rules.granularity
    }

    /// The timeout that a round trip gives (RFC 6298, 2.2 and 2.3).
    fn timeout(&self, trip: RoundTrip) -> u64
        requires srtt { trip.srtt ≤ longest }
        requires rttvar { trip.rttvar ≤ longest }
        ensures value { result ≡ timeout self.now.rules trip }
        ensures least { self.now.rules.least ≤ result }
        ensures most { result ≤ self.now.rules.greatest }
    {
        self.rules
            .bounded(trip.srtt + self.rules.granularity.max(4 * trip.rttvar))
    }

    /// A segment that was sent once was acknowledged after `rtt` (RFC 6298, 2.2 and 2.3). The timeout is computed anew, so
    /// that it isn't backed off any more. A time above [`LONGEST`] counts as that.
    pub fn sample(&mut self, rtt: u64)
        ensures { self.new ≡ after_sample self.old rtt }
    {
        let rtt = LONGEST.min(rtt);
        let trip = match self.trip {
            None => RoundTrip::first(rtt),
            Some(trip) => trip.next(rtt),
        };
        self.trip = Some(trip);
        self.rto = self.timeout(trip);
    }

    /// The retransmission timer has expired (RFC 6298, 5.5): the next timeout is twice as long.
    pub fn back_off(&mut self)
        ensures { self.new ≡ after_back_off self.old }
    {
        self.rto = self.rules.greatest.min(2 * self.rto);
    }

    /// The peer's window opens after it was shut: what has expired since were probes (RFC 9293, 3.8.6.1), and not the loss of
    /// what was sent. The timeout is what was measured last, if anything was, and isn't backed off any more.
    pub fn forget_back_off(&mut self)
        ensures { self.new ≡ without_back_off self.old }
    {
        if let Some(trip) = self.trip {
            self.rto = self.timeout(trip);
        }
    }

    /// The handshake is over, and its SYN was sent again because the timer had expired (RFC 6298, 5.7). Call it before any
    /// data is sent, and before `sample`.
    pub fn syn_was_resent(&mut self)
        ensures { self.new ≡ after_syn_resent self.old }
    {
        if self.rules.first < self.rules.after_syn {
            self.rto = self.rules.bounded(self.rules.after_syn);
        }
    }
}
