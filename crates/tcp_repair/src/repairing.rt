ghost use Rattle.std.specs.Prelude.{◌≡◌};

use crate::recovery::Recovery;
use crate::reporting::Reporting;
use crate::seen::Seen;
use std::alloc::{Allocator, Global};
use std::marker::Model;
use tcp_congestion::Congestion;
use tcp_connection::{Connection, Policy};
use tcp_driver::Taken;
use tcp_flow::Flow;

/// One end with its times, its congestion window and its policy, that also finds by time what is lost, where it has a
/// [`Recovery`] (RFC 8985). Without one each call is the connection's.
#[derive(Drop)]
pub struct Repairing<C: Reporting + Drop, W: Congestion + Drop, A: Allocator = Global> {
    pub(crate) connection: Connection<C, W>,
    pub(crate) recovery: Option<Box<Recovery, A>>,
}

impl<C: Reporting + Drop, W: Congestion + Drop, A: Allocator> Model for Repairing<C, W, A> {
    ghost use Rattle.std.specs.Prelude.{option_map};
    ghost use Rattle.tcp_repair.specs.Repairing.{Repaired};

    ghost Value = { Repaired C W };

    ghost view = { λ r. record { connecting = r.connection; recovery = option_map (λ b. b.value) r.recovery } };
}

impl<C: Reporting + Drop, W: Congestion + Drop, A: Allocator> Repairing<C, W, A> {
    ghost use Rattle.std.specs.Prelude.{false, true, is_some, option_map};
    ghost use Rattle.tcp_driver.specs.Driver.{arrival_answer, way_of};
    ghost use Rattle.tcp_repair.specs.Repairing.{after_arriving, after_own, plain, with_recovery};

    /// A connection without a recovery.
    pub fn new(connection: Connection<C, W>) -> Repairing<C, W, A>
        ensures { result ≡ plain connection }
    {
        Repairing {
            connection,
            recovery: None,
        }
    }

    /// From `now` on, in microseconds, what is lost is found by time, with what this recovery has room for: it begins anew, and all
    /// that is in flight is left to the timers, since it isn't known when it was sent. No memory is taken. What the peer's blocks pass
    /// over is given a whole timeout beside that (`Limits::is_patient` of tcp_driver).
    pub fn set_recovery(&mut self, recovery: Box<Recovery, A>, now: u64)
        ensures { self.new ≡ with_recovery C.machine C.smss_of C.reports self.old now }
    {
        self.connection.set_patience(true);
        let seen = Seen::of(&self.connection);
        let mut recovery = recovery;
        recovery.begin(seen, now);
        self.recovery = Some(recovery);
    }

    /// Whether what is lost is found by time.
    #[must_use]
    pub fn has_recovery(&self) -> bool
        ensures { result ≡ is_some self.now.recovery }
    {
        self.recovery.is_some()
    }

    /// The recovery, if it has one.
    #[must_use]
    pub fn recovery(&self) -> Option<&Recovery>
        ensures { option_map (λ r. r.now) result ≡ self.now.recovery }
    {
        match &self.recovery {
            Some(recovery) => Some(&**recovery),
            None => None,
        }
    }

    /// The connection: its flow and its policy.
    #[must_use]
    pub fn connection(&self) -> &Connection<C, W>
        ensures { result.now ≡ self.now.connecting }
    {
        &self.connection
    }

    /// The flow: its driver, its window, and what it says of both.
    #[must_use]
    pub fn flow(&self) -> &Flow<C, W>
        ensures { result.now ≡ self.now.connecting.flowing }
    {
        self.connection.flow()
    }

    /// What waits, and how long.
    #[must_use]
    pub fn policy(&self) -> Policy
        ensures { result ≡ self.now.connecting.policy }
    {
        self.connection.policy()
    }

    /// A segment has come at a time, from the IPv4 address `src` to `dst`, as for the connection.
    #[inline(always)]
    pub fn arrive(
        &mut self,
        now: u64,
        src: [u8; 4],
        dst: [u8; 4],
        bytes: &[u8],
    ) -> Taken<C::Arriving>
        ensures answer { result ≡ arrival_answer C.machine C.arrival_answer self.old.connecting.flowing.driving src dst bytes.now (way_of self.old.connecting.flowing.driving false) }
        ensures state { self.new ≡ after_arriving C.machine C.insight C.smss_of W.control C.reports self.old now src dst bytes.now false }
    {
        if self.recovery.is_none() {
            return self.connection.arrive(now, src, dst, bytes);
        }
        self.arrive_repairing(now, src, dst, bytes)
    }

    /// The same, with a recovery.
    #[inline(never)]
    fn arrive_repairing(
        &mut self,
        now: u64,
        src: [u8; 4],
        dst: [u8; 4],
        bytes: &[u8],
    ) -> Taken<C::Arriving>
        ensures answer { result ≡ arrival_answer C.machine C.arrival_answer self.old.connecting.flowing.driving src dst bytes.now (way_of self.old.connecting.flowing.driving false) }
        ensures state { self.new ≡ after_arriving C.machine C.insight C.smss_of W.control C.reports self.old now src dst bytes.now false }
    {
        let before = self.before();
        let taken = self.connection.arrive(now, src, dst, bytes);
        self.hear_of(before, &taken, now);
        taken
    }

    /// The same of a segment whose checksum a device has found right: it isn't summed (RFC 9293, 3.1).
    #[inline(always)]
    pub fn arrive_vouched(
        &mut self,
        now: u64,
        src: [u8; 4],
        dst: [u8; 4],
        bytes: &[u8],
    ) -> Taken<C::Arriving>
        ensures answer { result ≡ arrival_answer C.machine C.arrival_answer self.old.connecting.flowing.driving src dst bytes.now (way_of self.old.connecting.flowing.driving true) }
        ensures state { self.new ≡ after_arriving C.machine C.insight C.smss_of W.control C.reports self.old now src dst bytes.now true }
    {
        if self.recovery.is_none() {
            return self.connection.arrive_vouched(now, src, dst, bytes);
        }
        self.arrive_vouched_repairing(now, src, dst, bytes)
    }

    /// The same, with a recovery.
    #[inline(never)]
    fn arrive_vouched_repairing(
        &mut self,
        now: u64,
        src: [u8; 4],
        dst: [u8; 4],
        bytes: &[u8],
    ) -> Taken<C::Arriving>
        ensures answer { result ≡ arrival_answer C.machine C.arrival_answer self.old.connecting.flowing.driving src dst bytes.now (way_of self.old.connecting.flowing.driving true) }
        ensures state { self.new ≡ after_arriving C.machine C.insight C.smss_of W.control C.reports self.old now src dst bytes.now true }
    {
        let before = self.before();
        let taken = self.connection.arrive_vouched(now, src, dst, bytes);
        self.hear_of(before, &taken, now);
        taken
    }
}
