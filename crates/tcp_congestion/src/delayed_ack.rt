ghost use Rattle.std.specs.Prelude.{◌≡◌, ◌≤◌, ◌<◌};

use std::marker::Model;

/// How long an acknowledgement waits where nothing else is chosen, in microseconds: 40 ms, as Linux has it.
pub const DELAY: u64 = 40_000;

/// An acknowledgement waits for less, in microseconds: 500 ms (RFC 9293, 3.8.6.3).
pub const MAX_DELAY: u64 = 500_000;

/// When what came is acknowledged: behind a second full segment, or after a delay (RFC 9293, 3.8.6.3; RFC 5681, 4.2). Sizes
/// are bytes, and times are counts of microseconds.
#[derive(Clone, Copy, Debug, PartialEq, Eq)]
pub struct DelayedAck {
    rmss: u64,
    delay: u64,
    unacked: u64,
    since: Option<u64>,
    is_urgent: bool,
}

impl Model for DelayedAck {
    ghost use Rattle.tcp_congestion.specs.DelayedAck.{Waiting, IsWaiting};

    ghost Value = { Waiting };

    ghost view = { λ d. record { rmss = d.rmss; delay = d.delay; unacked = d.unacked; since = d.since; is_urgent = d.is_urgent } };

    ghost invariant = { λ d. IsWaiting (record { rmss = d.rmss; delay = d.delay; unacked = d.unacked; since = d.since; is_urgent = d.is_urgent }) };

    ghost inverse = { λ w. record { rmss = w.rmss; delay = w.delay; unacked = w.unacked; since = w.since; is_urgent = w.is_urgent } };
}

impl DelayedAck {
    ghost use Rattle.tcp_congestion.specs.DelayedAck.{after_arrival, deadline_of, is_due, max_delay, new_waiting, nothing_unacked};
    ghost use Rattle.tcp_congestion.specs.Sizes.{max_segment};

    /// Nothing waits. A full segment has `rmss` bytes of text, without those that its options take; with a `delay` of 0 no
    /// acknowledgement waits for a second one.
    pub fn new(rmss: u64, delay: u64) -> DelayedAck
        requires least { 0 < rmss }
        requires most { rmss ≤ max_segment }
        requires delay { delay < max_delay }
        ensures { result ≡ new_waiting rmss delay }
    {
        DelayedAck {
            rmss,
            delay,
            unacked: 0,
            since: None,
            is_urgent: false,
        }
    }

    /// A segment came with `count` bytes of new text, and was taken. `at_once` says that its acknowledgement can't wait: it
    /// came out of order, or filled all or part of a gap, or has a FIN (RFC 5681, 4.2), as `is_urgent` of an end reports.
    pub fn arrived(&mut self, count: u64, at_once: bool, now: u64)
        ensures { self.new ≡ after_arrival self.old count at_once now }
    {
        let two = 2 * self.rmss;
        self.unacked = two.min(self.unacked + count.min(two));
        if count > 0 && self.since.is_none() {
            self.since = Some(now);
        }
        if at_once {
            self.is_urgent = true;
        }
    }

    /// A segment with an acknowledgement of all that came was sent.
    pub fn acknowledged(&mut self)
        ensures { self.new ≡ nothing_unacked self.old }
    {
        self.unacked = 0;
        self.since = None;
        self.is_urgent = false;
    }

    /// When an acknowledgement has to be sent: 0 where it has to be now, `None` where nothing waits for one.
    #[must_use]
    pub fn deadline(&self) -> Option<u64>
        ensures { result ≡ deadline_of self.now }
    {
        if self.is_urgent || 2 * self.rmss <= self.unacked {
            return Some(0);
        }
        match self.since {
            Some(first) => Some(first.saturating_add(self.delay)),
            None => None,
        }
    }

    /// Whether an acknowledgement has to be sent now.
    #[must_use]
    pub fn is_due(&self, now: u64) -> bool
        ensures { result ≡ is_due self.now now }
    {
        match self.deadline() {
            Some(at) => at <= now,
            None => false,
        }
    }
}
