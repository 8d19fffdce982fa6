//! A rack whose clock never goes back.
ghost use Rattle.std.specs.Prelude.{◌≡◌, ◌<◌, ◌≤◌, max, min};
ghost use Rattle.tcp_driver.specs.Deadlines.{last};
ghost use Rattle.tcp_recovery.specs.Rack.{after_received, after_recovered, after_settled, new_flight};
ghost use Rattle.tcp_repair.specs.Recovery.{sent_between};

use std::marker::Model;
use tcp_driver::LAST;
use tcp_recovery::Rack;

/// What is in flight, and the time of the last call. What the rack is told is in order, whatever is called: no time goes back, and new
/// text begins where what was sent before ends.
#[derive(Debug, Drop)]
pub(crate) struct Timed {
    rack: Rack,
    clock: u64,
}

impl Model for Timed {
    ghost use Rattle.tcp_repair.specs.History.{Clocked, IsTruthful};

    ghost Value = { Clocked };

    ghost view = { λ t. record { rack = t.rack; clock = t.clock } };

    ghost invariant = { λ t. IsTruthful (record { rack = t.rack; clock = t.clock }) };
}

impl Timed {
    ghost use Rattle.tcp_repair.specs.History.{IsTruthful};

    /// Nothing was sent yet, and it is the first time there is: 0 stands for one that isn't known.
    pub(crate) fn new() -> Timed
        ensures { result ≡ record { rack = new_flight; clock = 1 } }
    {
        Timed {
            rack: Rack::new(),
            clock: 1,
        }
    }

    /// The time of a call: it never goes back, and stands still at the last one.
    pub(crate) fn pass(&mut self, now: u64)
        ensures state { self.new ≡ record self.old { clock = max self.old.clock (min last now) } }
        ensures most { self.new.clock ≤ last }
    {
        self.clock = self.clock.max(LAST.min(now));
    }

    /// The time of the last call.
    pub(crate) fn clock(&self) -> u64
        ensures value { result ≡ self.now.clock }
        ensures known { 0 < result }
        ensures most { result ≤ last }
    {
        self.clock
    }

    /// What is in flight.
    pub(crate) fn rack(&self) -> &Rack
        ensures { result.now ≡ self.now.rack }
    {
        &self.rack
    }

    /// Numbers were sent now, from `start` on and before `end`; and those between what was sent before and them, of which nothing was
    /// said.
    pub(crate) fn sent(&mut self, start: u64, end: u64, min_rtt: u64)
        ensures { self.new ≡ record self.old { rack = sent_between self.old.rack start end self.old.clock min_rtt } }
    {
        let start = self.rack.next().min(start);
        self.rack
            .sent(start, end.saturating_sub(start), self.clock, min_rtt);
    }

    /// Numbers were reported as received now, from `start` on and before `end`.
    pub(crate) fn received(&mut self, start: u64, end: u64, min_rtt: u64)
        ensures { self.new ≡ record self.old { rack = after_received self.old.rack start end self.old.clock min_rtt } }
    {
        self.rack.received(start, end, self.clock, min_rtt);
    }

    /// The numbers from `start` on and before `end` had come before.
    pub(crate) fn settled(&mut self, start: u64, end: u64)
        ensures { self.new ≡ record self.old { rack = after_settled self.old.rack start end } }
    {
        self.rack.settled(start, end);
    }

    /// A recovery is over.
    pub(crate) fn recovered(&mut self)
        ensures { self.new ≡ record self.old { rack = after_recovered self.old.rack } }
    {
        self.rack.recovered();
    }

    /// It was told the truth. This function does nothing when it runs.
    pub(crate) fn is_truthful(&self)
        ensures { IsTruthful self.now }
    {
        let _ = &self.clock;
    }
}
