//! What a host asks of an end.
ghost use Rattle.std.specs.Prelude.{◌≡◌, ◌≤◌, Bool, IfSome, IsNone, false, length, ℕ, List};

use tcp_congestion::Congestion;
use tcp_connection::{Connection, Deferring};
use tcp_driver::{Core, Driver, Sent, Taken, Timer};

/// An end with its times: a [`Driver`], or a [`Connection`], which may find losses by time
/// ([`Repairing`](tcp_repair::Repairing)). Times are microseconds, as a driver has them.
pub trait Timed {
    /// What `arrive` answers.
    type Arriving;

    ghost use Rattle.tcp_host.specs.Behaviour.{Behaviour};

    /// What it does, as functions of its state.
    ghost behaviour: { Behaviour Self };

    ghost arrival_answer: { Self → List ℕ → List ℕ → List ℕ → Bool → Self.Arriving };

    /// Whether a burst is on: a timer has expired, and not all that was due then has gone out.
    fn is_bursting(&self) -> bool
        ensures { result ≡ behaviour.bursting self.now };

    /// Whether its handshake is over: its SYN is acknowledged (RFC 9293, 3.5).
    fn is_open(&self) -> bool
        ensures { result ≡ behaviour.established self.now };

    /// When `timeout` has to be called, and `emit` behind it, if nothing else happens before.
    fn poll_at(&self) -> Option<u64>
        ensures { result ≡ behaviour.next_call self.now };

    /// A segment has come at a time, from the IPv4 address `src` to `dst`. Where it is vouched for a device has found its
    /// checksum right, so that it needn't be summed (RFC 9293, 3.1).
    fn arrive(
        &mut self,
        now: u64,
        src: [u8; 4],
        dst: [u8; 4],
        bytes: &[u8],
        is_vouched: bool,
    ) -> Self::Arriving
        ensures answer { result ≡ arrival_answer self.old src dst bytes.now is_vouched }
        ensures state { self.new ≡ behaviour.arrived self.old now src dst bytes.now is_vouched };

    /// Writes the segment that is due, if one may go out within `window`, in numbers from SND.UNA. Where none may no
    /// burst is on any more.
    fn emit(&mut self, now: u64, window: u64, out: &mut [u8]) -> Option<Sent>
        requires { behaviour.room ≤ length out.old }
        ensures sent { result ≡ behaviour.emission self.old now window }
        ensures most { IfSome result (λ sent. sent.len ≤ behaviour.room) }
        ensures written { out.new ≡ behaviour.written self.old now window out.old }
        ensures state { self.new ≡ behaviour.emitted self.old now window }
        ensures rests { IsNone result → behaviour.bursting self.new ≡ false };

    /// It is `now`: the timer that has expired, if one has.
    fn timeout(&mut self, now: u64) -> Option<Timer>
        ensures expired { result ≡ behaviour.expiry self.old now }
        ensures state { self.new ≡ behaviour.told self.old now };
}

impl<C: Core + Drop> Timed for Driver<C> {
    ghost use Rattle.tcp_driver.specs.Driver.{arrival_answer, way_of};
    ghost use Rattle.tcp_host.specs.Behaviour.{of_driver};

    type Arriving = Taken<C::Arriving>;

    ghost behaviour = { of_driver C.machine };

    ghost arrival_answer = { λ d src dst bytes vouched. arrival_answer C.machine C.arrival_answer d src dst bytes (way_of d vouched) };

    fn is_bursting(&self) -> bool {
        Driver::is_bursting(self)
    }

    fn is_open(&self) -> bool {
        0 < self.core().una()
    }

    fn poll_at(&self) -> Option<u64> {
        Driver::poll_at(self)
    }

    fn arrive(
        &mut self,
        now: u64,
        src: [u8; 4],
        dst: [u8; 4],
        bytes: &[u8],
        is_vouched: bool,
    ) -> Taken<C::Arriving> {
        if is_vouched {
            return Driver::arrive_vouched(self, now, src, dst, bytes);
        }
        Driver::arrive(self, now, src, dst, bytes)
    }

    #[tactic(auto, using(crate::proofs::Resting::driver_rests))]
    fn emit(&mut self, now: u64, window: u64, out: &mut [u8]) -> Option<Sent> {
        Driver::emit(self, now, window, out)
    }

    fn timeout(&mut self, now: u64) -> Option<Timer> {
        Driver::timeout(self, now)
    }
}

impl<C: Deferring + Drop, W: Congestion + Drop> Timed for Connection<C, W> {
    ghost use Rattle.tcp_driver.specs.Driver.{arrival_answer, way_of};
    ghost use Rattle.tcp_host.specs.Behaviour.{of_connection};

    type Arriving = Taken<C::Arriving>;

    ghost behaviour = { of_connection C.machine C.insight C.smss_of W.control };

    ghost arrival_answer = { λ k src dst bytes vouched. arrival_answer C.machine C.arrival_answer k.flowing.driving src dst bytes (way_of k.flowing.driving vouched) };

    fn is_bursting(&self) -> bool {
        self.flow().driver().is_bursting()
    }

    fn is_open(&self) -> bool {
        0 < self.flow().driver().core().una()
    }

    fn poll_at(&self) -> Option<u64> {
        Connection::poll_at(self)
    }

    fn arrive(
        &mut self,
        now: u64,
        src: [u8; 4],
        dst: [u8; 4],
        bytes: &[u8],
        is_vouched: bool,
    ) -> Taken<C::Arriving> {
        if is_vouched {
            return Connection::arrive_vouched(self, now, src, dst, bytes);
        }
        Connection::arrive(self, now, src, dst, bytes)
    }

    #[tactic(auto, using(crate::proofs::Resting::connection_rests))]
    fn emit(&mut self, now: u64, window: u64, out: &mut [u8]) -> Option<Sent> {
        Connection::emit(self, now, window, out)
    }

    fn timeout(&mut self, now: u64) -> Option<Timer> {
        Connection::timeout(self, now)
    }
}
