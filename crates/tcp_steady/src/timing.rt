//! Time passes.
ghost use Rattle.std.specs.Prelude.{◌≡◌};
ghost use Rattle.tcp_driver.specs.Deadlines.{earlier};
ghost use Rattle.tcp_steady.specs.Steady.{action_of, after_asking, after_tick, after_timer, asking_deadline, expired, may_ask_of, next_call, timer_by, timer_told};

use crate::steady::Steady;
use std::alloc::Allocator;
use tcp_congestion::Congestion;
use tcp_driver::Timer;
use tcp_keep_alive::{KeepAliveAction, may_ask};

/// The earlier of two times, where there are two.
fn earlier(one: Option<u64>, other: Option<u64>) -> Option<u64>
    ensures { result ≡ earlier one other }
{
    match (one, other) {
        (None, other) => other,
        (Some(one), None) => Some(one),
        (Some(one), Some(other)) => Some(one.min(other)),
    }
}

impl<W: Congestion + Drop, B: Allocator, A: Allocator> Steady<W, B, A> {
    /// When `timeout` has to be called, and `emit` behind it, if nothing else happens before.
    #[must_use]
    #[inline(always)]
    pub fn poll_at(&self) -> Option<u64>
        ensures { result ≡ next_call self.now }
    {
        let next = earlier(self.asking_deadline(), self.repairing.poll_at());
        earlier(self.pacer.poll_at(), next)
    }

    /// When the peer is asked, or given up, if nothing is heard of it before.
    #[inline(always)]
    fn asking_deadline(&self) -> Option<u64>
        ensures { result ≡ asking_deadline self.now }
    {
        if self.keep_alive.rules().is_none() {
            return None;
        }
        self.keep_alive.poll_at(self.may_ask())
    }

    /// Whether the peer may be asked.
    pub(crate) fn may_ask(&self) -> bool
        ensures { result ≡ may_ask_of self.now }
    {
        may_ask(self.end())
    }

    /// It is `now`: the timer that has expired, if one has, as for the connection; behind [`Timer::User`] it is aborted, also where
    /// the peer was given up that left its keep-alives unanswered (RFC 9293, 3.8.4 and 3.10.5).
    #[inline(always)]
    pub fn timeout(&mut self, now: u64) -> Option<Timer>
        ensures expired { result ≡ expired W.control self.old now }
        ensures state { self.new ≡ after_tick W.control self.old now }
    {
        let timer = self.repairing.timeout(now);
        self.ask_behind(timer, now)
    }

    /// It is `now`: as [`timeout`](Self::timeout), and when it has to be called next, as [`poll_at`](Self::poll_at) behind it.
    #[inline(always)]
    pub fn tick(&mut self, now: u64) -> (Option<Timer>, Option<u64>)
        ensures expired { result.0 ≡ expired W.control self.old now }
        ensures next { result.1 ≡ next_call self.new }
        ensures state { self.new ≡ after_tick W.control self.old now }
    {
        let timer = self.timeout(now);
        (timer, self.poll_at())
    }

    /// Behind a timer of the connection's, or none: where none has expired the peer may have to be given up.
    #[inline(always)]
    fn ask_behind(&mut self, timer: Option<Timer>, now: u64) -> Option<Timer>
        ensures expired { result ≡ timer_told timer self.old now }
        ensures state { self.new ≡ after_timer timer self.old now }
    {
        if timer.is_some() || self.keep_alive.rules().is_none() {
            return timer;
        }
        self.give_up(now)
    }

    /// The peer is given up, where its time has come. It is asked by an emission.
    #[inline(never)]
    fn give_up(&mut self, now: u64) -> Option<Timer>
        ensures expired { result ≡ timer_by (action_of self.old now) }
        ensures state { self.new ≡ after_asking self.old now }
    {
        let may_ask = self.may_ask();
        let mut asked = self.keep_alive;
        match asked.timeout(now, may_ask) {
            KeepAliveAction::Nothing | KeepAliveAction::Asks => None,
            KeepAliveAction::GivesUp => {
                let _ = self.repairing.abort(now);
                Some(Timer::User)
            }
        }
    }
}
