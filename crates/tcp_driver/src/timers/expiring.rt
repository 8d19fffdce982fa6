//! When a timer expires next, and which has.
ghost use Rattle.std.specs.Prelude.{None, false, true, ◌≡◌};

use crate::conditions::{later_by, limit_of};
use crate::deadlines::{earlier, no_later};
use crate::machine::Timer;
use crate::timers::Timers;

impl Timers {
    ghost use Rattle.tcp_driver.specs.Times.{expiring, expiry, next_expiry, user_deadline};

    /// When the end is given up.
    #[cold]
    #[inline(never)]
    fn user_deadline(&self) -> Option<u64>
        ensures { result ≡ user_deadline self.now }
    {
        let unanswered = if self.is_suspect() {
            later_by(self.since, limit_of(&self.limits, self.una))
        } else {
            None
        };
        earlier(unanswered, later_by(self.left, self.limits.fin_wait_2))
    }

    /// When a timer expires next.
    #[inline(always)]
    pub fn next_expiry(&self) -> Option<u64>
        ensures { result ≡ next_expiry self.now }
    {
        let soonest = self.deadlines.soonest();
        // Mostly nothing waits for the user.
        if !self.is_suspect() && self.left.is_none() {
            return soonest;
        }
        earlier(self.user_deadline(), soonest)
    }

    /// Whether a timer may have expired, where the next one expires at `next`. None does in a burst, and mostly none has.
    #[inline(always)]
    #[tactic(auto, using(crate::proofs::Expiring::none_expires))]
    pub fn may_expire(&self, next: Option<u64>, now: u64) -> bool
        requires { next ≡ next_expiry self.now }
        ensures none { result ≡ false → expiry self.now now ≡ None }
        ensures outside { result ≡ true → self.now.bursting ≡ false }
    {
        !self.bursting && no_later(next, now)
    }

    /// The timer that has expired, if one has.
    #[inline(always)]
    pub fn expiry(&self, now: u64) -> Option<Timer>
        ensures { result ≡ expiry self.now now }
    {
        if self.may_expire(self.next_expiry(), now) {
            self.first_expired(now)
        } else {
            None
        }
    }

    /// The first of the timers that have expired outside a burst.
    #[cold]
    #[inline(never)]
    fn first_expired(&self, now: u64) -> Option<Timer>
        ensures { result ≡ expiring self.now now }
    {
        if no_later(self.user_deadline(), now) {
            Some(Timer::User)
        } else if no_later(self.deadlines.retransmit, now) {
            Some(Timer::Retransmit)
        } else if no_later(self.deadlines.reorder, now) {
            Some(Timer::Reorder)
        } else if no_later(self.deadlines.time_wait, now) {
            Some(Timer::TimeWait)
        } else {
            None
        }
    }
}
