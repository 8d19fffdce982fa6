//! Time passes, and the user calls.
ghost use Rattle.std.specs.Prelude.{◌≡◌, length, true};
ghost use Rattle.tcp_connection.specs.Policy.{holds_any};

use crate::connection::{Connection, edge_of};
use crate::deferring::Deferring;
use tcp_congestion::Congestion;
use tcp_driver::Timer;
use tcp_flow::Loss;

impl<C: Deferring + Drop, W: Congestion + Drop> Connection<C, W> {
    ghost use Rattle.tcp_driver.specs.Driver.{at};
    ghost use Rattle.tcp_driver.specs.Times.{expiry, is_suspect};
    ghost use Rattle.tcp_connection.specs.Connection.{core_of};
    ghost use Rattle.tcp_connection.specs.Deadlines.{next_call};
    ghost use Rattle.tcp_connection.specs.Using.{after_acknowledging, after_call, after_reading, after_tick, choosing, losing, measuring, is_update, opened, updated_if, urged, with_patience, with_user_limit};
    ghost use Rattle.tcp_connection.specs.Windows.{has_grown, is_scarce};

    /// It is `now`: the timer that has expired, if one has, as for the flow.
    #[inline(always)]
    pub fn timeout(&mut self, now: u64) -> Option<Timer>
        ensures expired { result ≡ expiry self.old.flowing.driving.times (at self.old.flowing.driving now) }
        ensures state { self.new ≡ after_tick C.machine W.control self.old now }
    {
        self.flow.timeout(now)
    }

    /// It is `now`: as [`timeout`](Self::timeout), and when it has to be called next, as [`poll_at`](Self::poll_at) behind it.
    #[inline(always)]
    pub fn tick(&mut self, now: u64) -> (Option<Timer>, Option<u64>)
        ensures expired { result.0 ≡ expiry self.old.flowing.driving.times (at self.old.flowing.driving now) }
        ensures next { result.1 ≡ next_call C.machine self.new }
        ensures state { self.new ≡ after_tick C.machine W.control self.old now }
    {
        let (timer, next) = self.flow.tick(now);
        if !self.is_deferring {
            return (timer, next);
        }
        (timer, self.poll_at())
    }

    /// Whether the path to the peer may be dead, as for the flow (RFC 9293, 3.8.3).
    #[must_use]
    pub fn is_suspect(&self) -> bool
        ensures { result ≡ is_suspect self.now.flowing.driving.times }
    {
        self.flow.is_suspect()
    }

    /// Sets the user timeout, as for the flow (RFC 9293, 3.8.3).
    pub fn set_user_timeout(&mut self, limit: Option<u64>)
        ensures { self.new ≡ with_user_limit self.old limit }
    {
        self.flow.set_user_timeout(limit);
    }

    /// Sets whether what the peer's blocks pass over is given a whole timeout before it counts as lost, as for the flow
    /// (RFC 8985).
    pub fn set_patience(&mut self, is_patient: bool)
        ensures { self.new ≡ with_patience self.old is_patient }
    {
        self.flow.set_patience(is_patient);
    }

    /// Chooses another window for an end that has sent no text yet.
    pub fn set_window(&mut self, window: W)
        ensures { self.new ≡ choosing C.smss_of W.control self.old window }
    {
        self.flow.set_window(window);
    }

    /// Of what is in flight the first segment goes out again at once, as for the flow (RFC 5681, 3.2): whether anything is in
    /// flight.
    pub fn resend_first(&mut self, now: u64) -> bool
        ensures answer { result ≡ C.machine.can_resend (core_of self.old) }
        ensures state { self.new ≡ after_call C.machine self.old now (C.machine.first_resent (core_of self.old)) }
    {
        self.flow.resend_first(now)
    }

    /// Of what is in flight what lies from the position `from` on and before `to` goes out again at once, as for the flow (RFC 6675, 5;
    /// RFC 8985, 6.2): whether anything in flight lies there.
    pub fn resend(&mut self, now: u64, from: u64, to: u64) -> bool
        ensures answer { result ≡ C.machine.resends (core_of self.old) from to }
        ensures state { self.new ≡ after_call C.machine self.old now (C.machine.resent (core_of self.old) from to) }
    {
        self.flow.resend(now, from, to)
    }

    /// A caller that finds losses by itself has found this, and the congestion window is told (RFC 5681, 4.3).
    pub fn lose(&mut self, loss: Loss)
        ensures { self.new ≡ losing C.machine W.control self.old loss }
    {
        self.flow.lose(loss);
    }

    /// Behind what came a caller that finds losses by itself has measured a round trip of `trip` microseconds, and the congestion window
    /// is told (RFC 9406, 4.2).
    pub fn measured(&mut self, trip: u64)
        ensures { self.new ≡ measuring C.machine W.control self.old trip }
    {
        self.flow.measured(trip);
    }

    /// The user has text to send (RFC 9293, 3.10.2).
    pub fn send(&mut self, now: u64, text: &[u8]) -> C::Sending
        ensures answer { result ≡ C.send_answer (core_of self.old) text.now }
        ensures state { self.new ≡ after_call C.machine self.old now (C.machine.sent (core_of self.old) text.now) }
    {
        self.flow.send(now, text)
    }

    /// The user reads (RFC 9293, 3.10.3). A window that has grown enough, of which the peer has little left, is advertised with
    /// the next emission (3.8.6.2.2).
    pub fn receive(&mut self, now: u64, out: &mut [u8]) -> C::Receiving
        ensures answer { result ≡ C.receive_answer (core_of self.old) (length out.old) }
        ensures read { out.new ≡ C.machine.read (core_of self.old) out.old }
        ensures state { self.new ≡ after_reading C.machine C.insight self.old now (length out.old) }
    {
        if !self.is_deferring {
            return self.flow.receive(now, out);
        }
        let edge = edge_of(self.flow.driver().core());
        let answer = self.flow.receive(now, out);
        self.open(edge);
        self.update(now);
        answer
    }

    /// The user has read the first bytes where they lie, at most so many, as [`receive`](Self::receive) (RFC 9293, 3.10.3).
    pub fn consume(&mut self, now: u64, count: usize) -> C::Consuming
        ensures answer { result ≡ C.consume_answer (core_of self.old) count }
        ensures state { self.new ≡ after_reading C.machine C.insight self.old now count }
    {
        if !self.is_deferring {
            return self.flow.consume(now, count);
        }
        let edge = edge_of(self.flow.driver().core());
        let answer = self.flow.consume(now, count);
        self.open(edge);
        self.update(now);
        answer
    }

    /// The user has read, and wants the window that is open now to be advertised: it waits for nothing (RFC 9293, 3.8.6.2.2).
    pub fn acknowledge(&mut self, now: u64)
        ensures { self.new ≡ after_acknowledging C.machine self.old now }
    {
        self.flow.acknowledge(now);
        if self.is_deferring {
            self.urge(now);
        }
    }

    /// The user has no more to send (RFC 9293, 3.10.4).
    pub fn close(&mut self, now: u64) -> C::Closing
        ensures answer { result ≡ C.close_answer (core_of self.old) }
        ensures state { self.new ≡ after_call C.machine self.old now (C.machine.closed (core_of self.old)) }
    {
        self.flow.close(now)
    }

    /// The user gives the connection up (RFC 9293, 3.10.5).
    pub fn abort(&mut self, now: u64) -> C::Aborting
        ensures answer { result ≡ C.abort_answer (core_of self.old) }
        ensures state { self.new ≡ after_call C.machine self.old now (C.machine.aborted (core_of self.old)) }
    {
        self.flow.abort(now)
    }

    /// An acknowledgement is asked for.
    fn urge(&mut self, now: u64)
        requires { holds_any self.old.policy ≡ true }
        ensures { self.new ≡ urged self.old now }
    {
        self.ack.arrived(0, true, now);
        self.is_bare = false;
    }

    /// The user has read, before which the window's right edge was this.
    fn open(&mut self, edge: u64)
        ensures { self.new ≡ opened C.insight self.old edge }
    {
        if edge_of(self.flow.driver().core()) != edge {
            self.is_bare = false;
        }
    }

    /// The window is advertised, if it is worth it.
    fn update(&mut self, now: u64)
        requires { holds_any self.old.policy ≡ true }
        ensures { self.new ≡ updated_if C.machine C.insight self.old now }
    {
        if self.is_update() {
            self.flow.acknowledge(now);
            self.urge(now);
        }
    }

    /// Whether the window is worth advertising.
    fn is_update(&self) -> bool
        ensures { result ≡ is_update C.insight self.now }
    {
        self.policy.override_timeout.is_some() && self.has_grown() && self.is_scarce()
    }

    /// Whether the window has grown by a full segment, or half of the receive buffer.
    pub(crate) fn has_grown(&self) -> bool
        ensures { result ≡ has_grown C.insight self.now }
    {
        let core = self.flow.driver().core();
        let worth = self.smss.min(core.capacity() / 2).max(1);
        worth <= edge_of(core).saturating_sub(self.edge)
    }

    /// Whether the peer has less than half of the receive buffer left.
    fn is_scarce(&self) -> bool
        ensures { result ≡ is_scarce C.insight self.now }
    {
        let core = self.flow.driver().core();
        let left = self.edge.saturating_sub(core.rcv_nxt());
        left < core.capacity() - core.capacity() / 2
    }
}
