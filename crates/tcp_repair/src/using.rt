//! Time passes, and the user calls.
ghost use Rattle.std.specs.Prelude.{◌≡◌, length};

use crate::repairing::Repairing;
use crate::reporting::Reporting;
use crate::seen::Seen;
use crate::trips::earlier;
use std::alloc::Allocator;
use tcp_congestion::Congestion;
use tcp_connection::Policy;
use tcp_driver::Timer;
use tcp_flow::Loss;

impl<C: Reporting + Drop, W: Congestion + Drop, A: Allocator> Repairing<C, W, A> {
    ghost use Rattle.tcp_driver.specs.Driver.{at};
    ghost use Rattle.tcp_driver.specs.Times.{expiry, is_suspect};
    ghost use Rattle.tcp_connection.specs.Connection.{core_of};
    ghost use Rattle.tcp_connection.specs.Using.{after_acknowledging, after_call, after_reading, choosing, losing, measuring, with_policy, with_user_limit};
    ghost use Rattle.tcp_repair.specs.Repairing.{after_own, after_tick, expired_by, next_call, recovery_deadline};

    /// When `timeout` has to be called, and `emit` behind it, if nothing else happens before.
    #[must_use]
    #[inline(always)]
    pub fn poll_at(&self) -> Option<u64>
        ensures { result ≡ next_call C.machine C.smss_of C.reports self.now }
    {
        let next = self.connection.poll_at();
        if self.recovery.is_none() {
            return next;
        }
        earlier(self.recovery_deadline(), next)
    }

    /// When the recovery has something to send again, if something waits for an acknowledgement.
    #[inline(never)]
    fn recovery_deadline(&self) -> Option<u64>
        ensures { result ≡ recovery_deadline C.machine C.smss_of C.reports self.now.connecting self.now.recovery }
    {
        let Some(recovery) = &self.recovery else {
            return None;
        };
        if !self.connection.flow().driver().core().wants().retransmit {
            return None;
        }
        recovery.deadline(Seen::of(&self.connection))
    }

    /// It is `now`: the timer that has expired, if one has, as for the connection.
    #[inline(always)]
    pub fn timeout(&mut self, now: u64) -> Option<Timer>
        ensures expired { result ≡ expiry self.old.connecting.flowing.driving.times (at self.old.connecting.flowing.driving now) }
        ensures state { self.new ≡ after_tick C.machine C.smss_of W.control C.reports self.old now }
    {
        let timer = self.connection.timeout(now);
        if self.recovery.is_some() {
            self.expired(timer, now);
        }
        timer
    }

    /// It is `now`: as [`timeout`](Self::timeout), and when it has to be called next, as [`poll_at`](Self::poll_at) behind it.
    #[inline(always)]
    pub fn tick(&mut self, now: u64) -> (Option<Timer>, Option<u64>)
        ensures expired { result.0 ≡ expiry self.old.connecting.flowing.driving.times (at self.old.connecting.flowing.driving now) }
        ensures next { result.1 ≡ next_call C.machine C.smss_of C.reports self.new }
        ensures state { self.new ≡ after_tick C.machine C.smss_of W.control C.reports self.old now }
    {
        let (timer, next) = self.connection.tick(now);
        if self.recovery.is_none() {
            return (timer, next);
        }
        self.expired(timer, now);
        (timer, earlier(self.recovery_deadline(), next))
    }

    /// The recovery is told of a timer that has expired, or of the time alone.
    #[inline(never)]
    fn expired(&mut self, timer: Option<Timer>, now: u64)
        ensures { self.new ≡ record self.old { recovery = expired_by C.machine C.smss_of C.reports self.old.connecting self.old.recovery timer now } }
    {
        if let Some(recovery) = &mut self.recovery {
            recovery.pass(now);
            recovery.expired(Seen::of(&self.connection), timer);
        }
    }

    /// Whether the path to the peer may be dead, as for the connection (RFC 9293, 3.8.3).
    #[must_use]
    pub fn is_suspect(&self) -> bool
        ensures { result ≡ is_suspect self.now.connecting.flowing.driving.times }
    {
        self.connection.is_suspect()
    }

    /// Sets the user timeout, as for the connection (RFC 9293, 3.8.3).
    pub fn set_user_timeout(&mut self, limit: Option<u64>)
        ensures { self.new ≡ after_own self.old (with_user_limit self.old.connecting limit) }
    {
        self.connection.set_user_timeout(limit);
    }

    /// Chooses another window for an end that has sent no text yet.
    pub fn set_window(&mut self, window: W)
        ensures { self.new ≡ after_own self.old (choosing C.smss_of W.control self.old.connecting window) }
    {
        self.connection.set_window(window);
    }

    /// Chooses another policy, as for the connection.
    pub fn set_policy(&mut self, policy: Policy)
        ensures { self.new ≡ after_own self.old (with_policy C.machine C.insight C.smss_of self.old.connecting policy) }
    {
        self.connection.set_policy(policy);
    }

    /// Of what is in flight the first segment goes out again at once, as for the connection (RFC 5681, 3.2): whether anything is in
    /// flight.
    pub fn resend_first(&mut self, now: u64) -> bool
        ensures answer { result ≡ C.machine.can_resend (core_of self.old.connecting) }
        ensures state { self.new ≡ after_own self.old (after_call C.machine self.old.connecting now (C.machine.first_resent (core_of self.old.connecting))) }
    {
        self.connection.resend_first(now)
    }

    /// Of what is in flight what lies from the position `from` on and before `to` goes out again at once, as for the connection (RFC
    /// 6675, 5; RFC 8985, 6.2): whether anything in flight lies there.
    pub fn resend(&mut self, now: u64, from: u64, to: u64) -> bool
        ensures answer { result ≡ C.machine.resends (core_of self.old.connecting) from to }
        ensures state { self.new ≡ after_own self.old (after_call C.machine self.old.connecting now (C.machine.resent (core_of self.old.connecting) from to)) }
    {
        self.connection.resend(now, from, to)
    }

    /// A caller that finds losses by itself has found this, and the congestion window is told (RFC 5681, 4.3).
    pub fn lose(&mut self, loss: Loss)
        ensures { self.new ≡ after_own self.old (losing C.machine W.control self.old.connecting loss) }
    {
        self.connection.lose(loss);
    }

    /// Behind what came a caller that finds losses by itself has measured a round trip of `trip` microseconds, and the congestion window
    /// is told (RFC 9406, 4.2). A recovery by time tells its own.
    pub fn measured(&mut self, trip: u64)
        ensures { self.new ≡ after_own self.old (measuring C.machine W.control self.old.connecting trip) }
    {
        self.connection.measured(trip);
    }

    /// The user has text to send (RFC 9293, 3.10.2).
    pub fn send(&mut self, now: u64, text: &[u8]) -> C::Sending
        ensures answer { result ≡ C.send_answer (core_of self.old.connecting) text.now }
        ensures state { self.new ≡ after_own self.old (after_call C.machine self.old.connecting now (C.machine.sent (core_of self.old.connecting) text.now)) }
    {
        self.connection.send(now, text)
    }

    /// The user reads, as for the connection (RFC 9293, 3.10.3).
    pub fn receive(&mut self, now: u64, out: &mut [u8]) -> C::Receiving
        ensures answer { result ≡ C.receive_answer (core_of self.old.connecting) (length out.old) }
        ensures read { out.new ≡ C.machine.read (core_of self.old.connecting) out.old }
        ensures state { self.new ≡ after_own self.old (after_reading C.machine C.insight self.old.connecting now (length out.old)) }
    {
        self.connection.receive(now, out)
    }

    /// The user has read the first bytes where they lie, at most so many, as [`receive`](Self::receive) (RFC 9293, 3.10.3).
    pub fn consume(&mut self, now: u64, count: usize) -> C::Consuming
        ensures answer { result ≡ C.consume_answer (core_of self.old.connecting) count }
        ensures state { self.new ≡ after_own self.old (after_reading C.machine C.insight self.old.connecting now count) }
    {
        self.connection.consume(now, count)
    }

    /// The user has read, and wants the window that is open now to be advertised: it waits for nothing (RFC 9293, 3.8.6.2.2).
    pub fn acknowledge(&mut self, now: u64)
        ensures { self.new ≡ after_own self.old (after_acknowledging C.machine self.old.connecting now) }
    {
        self.connection.acknowledge(now);
    }

    /// The user has no more to send (RFC 9293, 3.10.4).
    pub fn close(&mut self, now: u64) -> C::Closing
        ensures answer { result ≡ C.close_answer (core_of self.old.connecting) }
        ensures state { self.new ≡ after_own self.old (after_call C.machine self.old.connecting now (C.machine.closed (core_of self.old.connecting))) }
    {
        self.connection.close(now)
    }

    /// The user gives the connection up (RFC 9293, 3.10.5).
    pub fn abort(&mut self, now: u64) -> C::Aborting
        ensures answer { result ≡ C.abort_answer (core_of self.old.connecting) }
        ensures state { self.new ≡ after_own self.old (after_call C.machine self.old.connecting now (C.machine.aborted (core_of self.old.connecting))) }
    {
        self.connection.abort(now)
    }
}
