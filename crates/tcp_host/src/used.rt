//! What a host asks of an end for its user.
ghost use Rattle.std.specs.Prelude.{◌≡◌, length, ℕ, List};

use crate::timed::Timed;
use tcp_congestion::Congestion;
use tcp_connection::{Connection, Deferring};
use tcp_driver::{Core, Driver};

/// An end with its times that has a user (RFC 9293, 3.10).
pub trait Used: Timed {
    /// What `send` answers.
    type Sending;
    /// What `receive` answers.
    type Receiving;
    /// What `consume` answers.
    type Consuming;
    /// What `close` answers.
    type Closing;
    /// What `abort` answers.
    type Aborting;

    ghost use Rattle.tcp_host.specs.Behaviour.{Usage};

    /// What its user does to it, as functions of its state.
    ghost usage: { Usage Self };

    ghost send_answer: { Self → List ℕ → Self.Sending };

    ghost receive_answer: { Self → ℕ → Self.Receiving };

    ghost consume_answer: { Self → ℕ → Self.Consuming };

    ghost close_answer: { Self → Self.Closing };

    ghost abort_answer: { Self → Self.Aborting };

    /// The user has text to send (RFC 9293, 3.10.2).
    fn send(&mut self, now: u64, text: &[u8]) -> Self::Sending
        ensures answer { result ≡ send_answer self.old text.now }
        ensures state { self.new ≡ usage.sent self.old now text.now };

    /// The user reads (RFC 9293, 3.10.3).
    fn receive(&mut self, now: u64, out: &mut [u8]) -> Self::Receiving
        ensures answer { result ≡ receive_answer self.old (length out.old) }
        ensures read { out.new ≡ usage.read self.old out.old }
        ensures state { self.new ≡ usage.received self.old now (length out.old) };

    /// The user has read the first bytes where they lie, at most so many (RFC 9293, 3.10.3).
    fn consume(&mut self, now: u64, count: usize) -> Self::Consuming
        ensures answer { result ≡ consume_answer self.old count }
        ensures state { self.new ≡ usage.received self.old now count };

    /// The user wants the window that is open now to be advertised (RFC 9293, 3.8.6.2.2).
    fn acknowledge(&mut self, now: u64)
        ensures { self.new ≡ usage.acknowledged self.old now };

    /// The user has no more to send (RFC 9293, 3.10.4).
    fn close(&mut self, now: u64) -> Self::Closing
        ensures answer { result ≡ close_answer self.old }
        ensures state { self.new ≡ usage.closed self.old now };

    /// The user gives the connection up (RFC 9293, 3.10.5).
    fn abort(&mut self, now: u64) -> Self::Aborting
        ensures answer { result ≡ abort_answer self.old }
        ensures state { self.new ≡ usage.aborted self.old now };
}

impl<C: Core + Drop> Used for Driver<C> {
    ghost use Rattle.tcp_host.specs.Behaviour.{use_of_driver};

    type Sending = C::Sending;

    type Receiving = C::Receiving;

    type Consuming = C::Consuming;

    type Closing = C::Closing;

    type Aborting = C::Aborting;

    ghost usage = { use_of_driver C.machine };

    ghost send_answer = { λ d text. C.send_answer d.core text };

    ghost receive_answer = { λ d room. C.receive_answer d.core room };

    ghost consume_answer = { λ d count. C.consume_answer d.core count };

    ghost close_answer = { λ d. C.close_answer d.core };

    ghost abort_answer = { λ d. C.abort_answer d.core };

    fn send(&mut self, now: u64, text: &[u8]) -> C::Sending {
        Driver::send(self, now, text)
    }

    fn receive(&mut self, now: u64, out: &mut [u8]) -> C::Receiving {
        Driver::receive(self, now, out)
    }

    fn consume(&mut self, now: u64, count: usize) -> C::Consuming {
        Driver::consume(self, now, count)
    }

    fn acknowledge(&mut self, now: u64) {
        Driver::acknowledge(self, now);
    }

    fn close(&mut self, now: u64) -> C::Closing {
        Driver::close(self, now)
    }

    fn abort(&mut self, now: u64) -> C::Aborting {
        Driver::abort(self, now)
    }
}

impl<C: Deferring + Drop, W: Congestion + Drop> Used for Connection<C, W> {
    ghost use Rattle.tcp_connection.specs.Connection.{core_of};
    ghost use Rattle.tcp_host.specs.Behaviour.{use_of_connection};

    type Sending = C::Sending;

    type Receiving = C::Receiving;

    type Consuming = C::Consuming;

    type Closing = C::Closing;

    type Aborting = C::Aborting;

    ghost usage = { use_of_connection C.machine C.insight };

    ghost send_answer = { λ k text. C.send_answer (core_of k) text };

    ghost receive_answer = { λ k room. C.receive_answer (core_of k) room };

    ghost consume_answer = { λ k count. C.consume_answer (core_of k) count };

    ghost close_answer = { λ k. C.close_answer (core_of k) };

    ghost abort_answer = { λ k. C.abort_answer (core_of k) };

    fn send(&mut self, now: u64, text: &[u8]) -> C::Sending {
        Connection::send(self, now, text)
    }

    fn receive(&mut self, now: u64, out: &mut [u8]) -> C::Receiving {
        Connection::receive(self, now, out)
    }

    fn consume(&mut self, now: u64, count: usize) -> C::Consuming {
        Connection::consume(self, now, count)
    }

    fn acknowledge(&mut self, now: u64) {
        Connection::acknowledge(self, now);
    }

    fn close(&mut self, now: u64) -> C::Closing {
        Connection::close(self, now)
    }

    fn abort(&mut self, now: u64) -> C::Aborting {
        Connection::abort(self, now)
    }
}
