ghost use Rattle.std.specs.Prelude.{◌≡◌, ◌≤◌, ◌<◌, ◌^◌, IfSome, is_some};
ghost use Rattle.tcp_driver.specs.Deadlines.{last};
ghost use Rattle.tcp_repair.specs.History.{IsTruthful};
ghost use Rattle.tcp_repair.specs.Recovery.{is_loss, may_probe};

use crate::seen::Seen;
use crate::timed::Timed;
use crate::trips::{LeastTrip, LongestTrip};
use std::marker::Model;
use tcp_driver::Timer;
use tcp_flow::Loss;
use tcp_recovery::{Probe, Rack};

/// Loss recovery by time (RACK-TLP: RFC 8985): what is in flight and when it was sent, the tail loss probe, and what is being
/// repaired. It has some 2.8 KB, which a [`Repairing`](crate::Repairing) has in a box.
#[derive(Debug, Drop)]
pub struct Recovery {
    /// What is in flight, and the time of the last call.
    pub(crate) timed: Timed,
    pub(crate) probe: Probe,
    pub(crate) trips: LeastTrip,
    pub(crate) longest: LongestTrip,
    /// SND.NXT when a loss was found that isn't repaired yet.
    pub(crate) recover: Option<u64>,
    /// When the congestion window was told of a loss last.
    pub(crate) shrunk: u64,
}

impl Model for Recovery {
    ghost use Rattle.tcp_repair.specs.Recovery.{Repair};

    ghost Value = { Repair };

    ghost view = { λ r. record { rack = r.timed.rack; probe = r.probe; trips = r.trips; longest = r.longest; recover = r.recover; shrunk = r.shrunk; clock = r.timed.clock } };
}

/// Whether a probe may wait (RFC 8985, 7.2).
fn may_probe(seen: Seen) -> bool
    ensures { result ≡ may_probe seen }
{
    0 < seen.wnd && seen.una < seen.nxt
}

/// Whether this is a timer at which what is in flight goes out again.
fn is_loss(timer: Option<Timer>) -> bool
    ensures { result ≡ is_loss timer }
{
    matches!(timer, Some(Timer::Retransmit | Timer::Reorder))
}

impl Recovery {
    ghost use Rattle.tcp_repair.specs.Recovery.{after_expiry, at_time, begun, clock_at, is_looking, is_second, loss_at, lost_at, min_rtt_of, new_repair, recovering, reordering_of, sent_between, started, timed_out, window_of, with_probe, with_probe_stopped};

    /// Nothing was sent yet.
    pub fn new() -> Recovery
        ensures { result ≡ new_repair }
    {
        Recovery {
            timed: Timed::new(),
            probe: Probe::new(),
            trips: LeastTrip::new(),
            longest: LongestTrip::new(),
            recover: None,
            shrunk: 0,
        }
    }

    /// What is in flight and when it was sent (RFC 8985, 5.2 and 5.3).
    #[must_use]
    pub fn rack(&self) -> &Rack
        ensures { result.now ≡ self.now.rack }
    {
        self.timed.rack()
    }

    /// The tail loss probe (RFC 8985, 7).
    #[must_use]
    pub fn probe(&self) -> Probe
        ensures { result ≡ self.now.probe }
    {
        self.probe
    }

    /// The least round trip of late (RFC 8985, 6.2, step 1).
    #[must_use]
    pub fn trips(&self) -> LeastTrip
        ensures { result ≡ self.now.trips }
    {
        self.trips
    }

    /// The longest round trip of late.
    #[must_use]
    pub fn longest(&self) -> LongestTrip
        ensures { result ≡ self.now.longest }
    {
        self.longest
    }

    /// Whether a loss is being repaired: SND.NXT when it was found, as a position.
    #[must_use]
    pub fn recover(&self) -> Option<u64>
        ensures { result ≡ self.now.recover }
    {
        self.recover
    }

    /// It takes over an end at a time: all before SND.NXT is left to the timers.
    #[tactic(auto, unfolding(crate::specs::Recovery::begun))]
    pub(crate) fn begin(&mut self, seen: Seen, now: u64)
        ensures { self.new ≡ begun seen now }
    {
        *self = Recovery::new();
        self.pass(now);
        self.timed.sent(0, seen.nxt, 0);
        self.timed.settled(0, seen.nxt);
    }

    /// The time of a call.
    pub(crate) fn pass(&mut self, now: u64)
        ensures state { self.new ≡ at_time self.old now }
        ensures reached { now ≤ last → now ≤ self.new.clock }
        ensures most { self.new.clock ≤ last }
    {
        self.timed.pass(now);
    }

    /// RACK.min_RTT as numbers are told with it.
    pub(crate) fn min_rtt(&self) -> u64
        ensures { result ≡ min_rtt_of self.now }
    {
        self.trips.least().unwrap_or(0)
    }

    /// Something was sent or acknowledged: a probe waits from now on, where one may.
    pub(crate) fn start_probe(&mut self, seen: Seen)
        requires { IfSome seen.srtt (λ time. time ≤ 2 ^ 40) }
        ensures { self.new ≡ with_probe self.old seen }
    {
        if !may_probe(seen) {
            self.probe.stop();
            return;
        }
        let behind_one = seen.nxt.saturating_sub(seen.una).saturating_sub(seen.smss);
        let is_one = behind_one < seen.smss;
        self.probe
            .start(self.timed.clock(), seen.srtt, is_one, seen.rto_at);
    }

    /// No probe waits any more, where none may.
    pub(crate) fn stop_probe(&mut self, seen: Seen)
        ensures { self.new ≡ with_probe_stopped self.old seen }
    {
        if !may_probe(seen) {
            self.probe.stop();
        }
    }

    /// Whether what is lost from a position on was sent again since the congestion window was told of the last loss.
    fn is_second(&self, from: u64) -> bool
        ensures { result ≡ is_second self.now from }
    {
        match self.timed.rack().resent_at(from) {
            Some(last) => self.shrunk <= last,
            None => false,
        }
    }

    /// What the congestion window is told of what is lost from a position on.
    pub(crate) fn loss_at(&self, from: u64) -> Loss
        ensures { result ≡ loss_at self.now from }
    {
        if self.is_second(from) {
            Loss::Again
        } else {
            Loss::Found
        }
    }

    /// What is lost from a position on begins to be repaired, or goes on to be, while SND.NXT is this.
    pub(crate) fn recovers(&mut self, from: u64, nxt: u64)
        ensures { self.new ≡ recovering self.old from nxt }
    {
        if self.recover.is_none() || self.is_second(from) {
            self.shrunk = self.timed.clock();
        }
        self.probe = Probe {
            at: self.probe.at,
            end_seq: None,
            is_retrans: false,
            is_measured: self.probe.is_measured,
        };
        self.recover = Some(self.recover.unwrap_or(nxt));
    }

    /// A timer has expired, if one has.
    #[tactic(auto, unfolding(crate::specs::Recovery::after_expiry))]
    pub(crate) fn expired(&mut self, seen: Seen, timer: Option<Timer>)
        ensures { self.new ≡ after_expiry self.old seen timer }
    {
        if is_loss(timer) && seen.una < seen.nxt {
            self.probe.sent(seen.nxt, false);
            self.recover = Some(seen.nxt);
            self.shrunk = self.timed.clock();
        }
    }

    /// RACK.reo_wnd (RFC 8985, 6.2, step 4), of which a loss is never certain.
    fn reordering(&self, seen: Seen) -> u64
        ensures { result ≡ reordering_of self.now seen }
    {
        let rtt = self.timed.rack().delivered().rtt;
        self.timed.rack().reo_wnd(
            seen.srtt.unwrap_or(rtt),
            self.trips.least().unwrap_or(rtt),
            false,
        )
    }

    /// The window for reordering, which is longer where round trips have just become shorter.
    pub(crate) fn window(&self, seen: Seen) -> u64
        ensures { result ≡ window_of self.now seen }
    {
        let rtt = self.timed.rack().delivered().rtt;
        let reordering = self.reordering(seen);
        let drained = self.longest.trip.saturating_sub(rtt);
        reordering
            .saturating_add(reordering.min(drained))
            .max(1_u64.saturating_sub(rtt))
    }

    /// Whether what is lost is looked for.
    pub(crate) fn is_looking(&self, seen: Seen) -> bool
        ensures { result ≡ is_looking self.now seen }
    {
        seen.has_gap || self.recover.is_some()
    }

    /// The first stretch that is lost now, if it is looked for.
    pub(crate) fn lost(&self, seen: Seen) -> Option<(u64, u64)>
        ensures { result ≡ lost_at self.now seen self.now.clock }
    {
        if !self.is_looking(seen) {
            return None;
        }
        self.timed
            .rack()
            .lost(self.window(seen), self.timed.clock())
    }

    /// The rack was told the truth, in order. This function does nothing when it runs.
    pub(crate) fn is_truthful(&self)
        ensures { IsTruthful (record { rack = self.now.rack; clock = self.now.clock }) }
    {
        self.timed.is_truthful();
    }
}
