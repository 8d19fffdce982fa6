ghost use Rattle.std.specs.Prelude.{◌≡◌, ◌≤◌, ◌+◌, IfSome, length};
ghost use Rattle.tcp_driver.specs.Driver.{is_reset};

use crate::limits::Limits;
use crate::machine::{Core, Report, Sent, Timer, Way};
use crate::timers::Timers;
use std::marker::Model;
use tcp_timing::{Estimator, Rules};

/// What became of an arrival.
#[derive(Clone, Copy, Debug, PartialEq, Eq)]
pub enum Taken<T> {
    /// The end has taken it: what the driver is told of it, and the end's own answer.
    Done(Report, T),
    /// A timer has expired, and what is due then has to go out first: nothing has changed. Emit, and pass it again.
    EmitFirst,
    /// It is a reset that counts as lost: nothing has changed.
    Withheld,
}

/// One end with its times (RFC 6298, 5; RFC 9293, 3.8.3 and 3.10.8). There is a deadline exactly while the end wants its
/// timer to run.
#[derive(Drop)]
pub struct Driver<C: Core + Drop> {
    core: C,
    timers: Timers,
}

impl<C: Core + Drop> Model for Driver<C> {
    ghost use Rattle.tcp_driver.specs.Driver.{Driving, IsTimely};

    ghost Value = { Driving C };

    ghost view = { λ d. record { core = d.core; times = d.timers } };

    ghost invariant = { λ d. IsTimely C.machine (record { core = d.core; times = d.timers }) };
}

impl<C: Core + Drop> Driver<C> {
    ghost use Rattle.std.specs.Prelude.{Some, false, is_some, true};
    ghost use Rattle.tcp_driver.specs.declared.machine.Timer.TheVariants.{Retransmit};
    ghost use Rattle.tcp_driver.specs.Deadlines.{last};
    ghost use Rattle.tcp_driver.specs.Driver.{after_arrival, after_emission, after_patience, after_time, after_user, after_user_timeout, arrival_answer, at, new_driving, sent_of, way_of, written_of};
    ghost use Rattle.tcp_driver.specs.Rows.{after_emissions, emissions_of};
    ghost use Rattle.tcp_driver.specs.Times.{expiry, is_suspect, longest_wait, next_expiry, wants_any};
    ghost use Rattle.tcp_timing.specs.Rules.{IsSound};

    /// An end that was opened already (`connect`, `listen`): its timers run from now on.
    pub fn new(core: C, rules: Rules, limits: Limits, now: u64) -> Driver<C>
        requires { IsSound rules }
        ensures { result ≡ new_driving C.machine core rules limits now }
    {
        let now = crate::deadlines::LAST.min(now);
        let una = core.una();
        let mut timers = Timers::new(rules, limits, una, now);
        timers.follow(core.wants(), una, now);
        Driver { core, timers }
    }

    /// When `timeout` has to be called, if nothing else happens before: there is such a time exactly while some timer has
    /// to run, and it is at most the greatest timeout after the last call, or in TIME-WAIT and FIN-WAIT-2 as long as these
    /// may last.
    #[must_use]
    pub fn poll_at(&self) -> Option<u64>
        ensures value { result ≡ next_expiry self.now.times }
        ensures owed { is_some result ≡ wants_any (C.machine.wants self.now.core) self.now.times.limits }
        ensures soon { IfSome result (λ time. time ≤ self.now.times.clock + longest_wait self.now.times) }
    {
        self.timers.next_expiry()
    }

    /// A segment has come at a time, from the IPv4 address `src` to `dst`. In a burst it isn't taken, and some resets count
    /// as lost. It comes past the guard of the limits.
    #[inline(always)]
    pub fn arrive(
        &mut self,
        now: u64,
        src: [u8; 4],
        dst: [u8; 4],
        bytes: &[u8],
    ) -> Taken<C::Arriving>
        ensures answer { result ≡ arrival_answer C.machine C.arrival_answer self.old src dst bytes.now (way_of self.old false) }
        ensures state { self.new ≡ after_arrival C.machine self.old (at self.old now) src dst bytes.now (way_of self.old false) }
    {
        self.take(now, src, dst, bytes, false)
    }

    /// The same of a segment whose checksum a device has found right: it isn't summed (RFC 9293, 3.1).
    #[inline(always)]
    pub fn arrive_vouched(
        &mut self,
        now: u64,
        src: [u8; 4],
        dst: [u8; 4],
        bytes: &[u8],
    ) -> Taken<C::Arriving>
        ensures answer { result ≡ arrival_answer C.machine C.arrival_answer self.old src dst bytes.now (way_of self.old true) }
        ensures state { self.new ≡ after_arrival C.machine self.old (at self.old now) src dst bytes.now (way_of self.old true) }
    {
        self.take(now, src, dst, bytes, true)
    }

    /// A segment has come, summed or vouched for. It is compiled into both calls, each of which knows which.
    #[inline(always)]
    fn take(
        &mut self,
        now: u64,
        src: [u8; 4],
        dst: [u8; 4],
        bytes: &[u8],
        is_vouched: bool,
    ) -> Taken<C::Arriving>
        ensures answer { result ≡ arrival_answer C.machine C.arrival_answer self.old src dst bytes.now (way_of self.old is_vouched) }
        ensures state { self.new ≡ after_arrival C.machine self.old (at self.old now) src dst bytes.now (way_of self.old is_vouched) }
    {
        if self.timers.is_bursting() {
            return Taken::EmitFirst;
        }
        if self.core.ignores_resets() && is_reset(bytes) {
            return Taken::Withheld;
        }
        let now = self.timers.time_at(now);
        let way = Way {
            is_vouched,
            guard: self.timers.guard(),
        };
        let (report, answer) = self.core.arrive(src, dst, bytes, way);
        let una = self.core.una();
        self.timers.take(una, report, now);
        self.timers.follow(self.core.wants(), una, now);
        Taken::Done(report, answer)
    }

    /// Writes the segment that is due, if one is. What ends more than `window` numbers past SND.UNA waits, unless nothing
    /// before it is in flight (RFC 5681, 3.1); `u64::MAX` holds nothing back. A pending acknowledgement goes alone where
    /// what is due waits, and before anything goes out again: so it goes out at SND.NXT, where no peer finds it old. A
    /// burst is over once nothing goes out.
    pub fn emit(&mut self, now: u64, window: u64, out: &mut [u8]) -> Option<Sent>
        requires { C.machine.room ≤ length out.old }
        ensures sent { result ≡ sent_of C.machine self.old.core window }
        ensures most { IfSome result (λ sent. sent.len ≤ C.machine.room) }
        ensures written { out.new ≡ written_of C.machine self.old.core window out.old }
        ensures state { self.new ≡ after_emission C.machine self.old (at self.old now) window }
    {
        let now = self.timers.time_at(now);
        let Some(sent) = self.core.transmit_within(window, out) else {
            // Nothing has changed, and the timers run as the end wants them.
            self.timers.rest(now);
            return None;
        };
        self.timers.emitted(sent, now);
        self.timers.follow(self.core.wants(), self.core.una(), now);
        Some(sent)
    }

    /// Writes as one, for a device that cuts and sums them, the segments that may go out within `window` as [`emit`](Self::emit)
    /// has it, at most `most`: as many calls of it. A `most` of 1 is one segment for a device that sums. A burst is over once
    /// nothing goes out.
    #[tactic(auto, using(crate::proofs::Rows::row_is_emissions), unfolding(crate::specs::Rows::after_emissions, crate::specs::Rows::core_after_many))]
    pub fn emit_train(
        &mut self,
        now: u64,
        window: u64,
        out: &mut [u8],
        most: usize,
    ) -> Option<C::Train>
        requires { C.machine.room ≤ length out.old }
        ensures train { result ≡ C.train_answer self.old.core window most (length out.old) }
        ensures written { out.new ≡ C.machine.written_row self.old.core window most out.old }
        ensures state { self.new ≡ after_emissions C.machine (emissions_of (C.machine.row self.old.core window most (length out.old))) self.old (at self.old now) window }
    {
        let now = self.timers.time_at(now);
        let Some((row, train)) = self.core.transmit_train(window, out, most) else {
            // Nothing has changed, and the timers run as the end wants them.
            self.timers.rest(now);
            return None;
        };
        self.timers
            .emitted_as_one(row, self.core.wants(), self.core.una(), now);
        Some(train)
    }

    /// It is `now`: the timer that has expired, if one has. Then a burst begins: until an `emit` finds nothing that may go
    /// out, no segment is taken and no other timer expires. After the user timeout the connection is aborted.
    #[inline(always)]
    pub fn timeout(&mut self, now: u64) -> Option<Timer>
        ensures expired { result ≡ expiry self.old.times (at self.old now) }
        ensures state { self.new ≡ after_time C.machine self.old (at self.old now) }
    {
        let now = self.timers.time_at(now);
        let Some(timer) = self.timers.expiry(now) else {
            self.timers.pass(now);
            return None;
        };
        self.expire(timer, now);
        Some(timer)
    }

    /// It is `now`: as [`timeout`](Self::timeout), and when it has to be called next, as [`poll_at`](Self::poll_at) behind it.
    #[inline(always)]
    pub fn tick(&mut self, now: u64) -> (Option<Timer>, Option<u64>)
        ensures expired { result.0 ≡ expiry self.old.times (at self.old now) }
        ensures next { result.1 ≡ next_expiry self.new.times }
        ensures state { self.new ≡ after_time C.machine self.old (at self.old now) }
    {
        let now = self.timers.time_at(now);
        let next = self.timers.next_expiry();
        // Mostly none has expired.
        if !self.timers.may_expire(next, now) {
            self.timers.pass(now);
            return (None, next);
        }
        let expired = self.expire_next(now);
        (expired, self.timers.next_expiry())
    }

    /// The timer that has expired at `now`, if one has, begins a burst.
    #[cold]
    #[inline(never)]
    fn expire_next(&mut self, now: u64) -> Option<Timer>
        requires early { now ≤ last }
        requires later { self.old.times.clock ≤ now }
        ensures expired { result ≡ expiry self.old.times now }
        ensures state { self.new ≡ after_time C.machine self.old now }
    {
        let Some(timer) = self.timers.expiry(now) else {
            self.timers.pass(now);
            return None;
        };
        self.expire(timer, now);
        Some(timer)
    }

    /// The timer that has expired at `now` begins a burst.
    #[cold]
    #[inline(never)]
    fn expire(&mut self, timer: Timer, now: u64)
        requires expired { expiry self.old.times now ≡ Some timer }
        requires early { now ≤ last }
        requires later { self.old.times.clock ≤ now }
        ensures { self.new ≡ after_time C.machine self.old now }
    {
        self.core.expire(timer);
        self.timers.expire(timer);
        self.timers.follow(self.core.wants(), self.core.una(), now);
    }

    /// Whether the retransmission timer has expired so often without an answer that the path to the peer may be dead, of
    /// which the user is told (RFC 9293, 3.8.3).
    #[must_use]
    pub fn is_suspect(&self) -> bool
        ensures { result ≡ is_suspect self.now.times }
    {
        self.timers.is_suspect()
    }

    /// Whether a burst is on: a timer has expired, and not all that was due then has gone out.
    #[must_use]
    pub fn is_bursting(&self) -> bool
        ensures { result ≡ self.now.times.bursting }
    {
        self.timers.is_bursting()
    }

    /// Sets the user timeout: how long, in microseconds, what was sent may be without an answer before the connection is
    /// aborted (RFC 9293, 3.8.3); the time that has passed already counts. `None` is forever. A SYN has a limit of its own,
    /// [`Limits::handshake`].
    pub fn set_user_timeout(&mut self, limit: Option<u64>)
        ensures { self.new ≡ after_user_timeout self.old limit }
    {
        self.timers.set_user_timeout(limit);
    }

    /// Sets whether what the peer's blocks pass over is given a whole timeout before it counts as lost, for a caller that finds
    /// losses by time from now on (RFC 8985): [`Limits::is_patient`]. The deadline of a gap that was reported before stays, and
    /// gaps are given what they were until something new is acknowledged.
    pub fn set_patience(&mut self, is_patient: bool)
        ensures { self.new ≡ after_patience self.old is_patient }
    {
        self.timers.set_patience(is_patient);
    }

    /// The end.
    #[must_use]
    pub fn core(&self) -> &C
        ensures { result.now ≡ self.now.core }
    {
        &self.core
    }

    /// The retransmission timeout and the round trip.
    #[must_use]
    pub fn estimator(&self) -> &Estimator
        ensures { result.now ≡ self.now.times.estimate }
    {
        self.timers.estimator()
    }

    /// How many numbers are in flight.
    #[must_use]
    pub fn flight(&self) -> u64
        ensures { result ≡ C.machine.flight self.now.core }
    {
        self.core.flight()
    }

    /// Of what is in flight the first segment goes out again at once (RFC 5681, 3.2): whether anything is in flight.
    pub fn resend_first(&mut self, now: u64) -> bool
        ensures answer { result ≡ C.machine.can_resend self.old.core }
        ensures state { self.new ≡ after_user C.machine self.old (at self.old now) (C.machine.first_resent self.old.core) }
    {
        let now = self.timers.time_at(now);
        let answer = self.core.resend_first();
        self.timers.follow(self.core.wants(), self.core.una(), now);
        answer
    }

    /// Of what is in flight what lies from the position `from` on and before `to` goes out again at once, and nothing else of it
    /// (RFC 6675, 5; RFC 8985, 6.2), for a caller that knows which stretch is lost: whether anything in flight lies there. A
    /// position counts from the SYN, which is at 0, as those of [`Sent`] do.
    pub fn resend(&mut self, now: u64, from: u64, to: u64) -> bool
        ensures answer { result ≡ C.machine.resends self.old.core from to }
        ensures state { self.new ≡ after_user C.machine self.old (at self.old now) (C.machine.resent self.old.core from to) }
    {
        let now = self.timers.time_at(now);
        let answer = self.core.resend(from, to);
        self.timers.follow(self.core.wants(), self.core.una(), now);
        answer
    }

    /// What the retransmission timer sends again goes out again at once, and it hasn't expired, so that nothing is backed off or
    /// counted (RFC 9293, 3.8.1): a SYN that isn't acknowledged, or else all that is in flight, or a probe of a shut window.
    pub fn retransmit(&mut self, now: u64)
        ensures { self.new ≡ after_user C.machine self.old (at self.old now) (C.machine.expired self.old.core Retransmit) }
    {
        let now = self.timers.time_at(now);
        self.core.expire(Timer::Retransmit);
        self.timers.follow(self.core.wants(), self.core.una(), now);
    }

    /// The user has text to send (RFC 9293, 3.10.2).
    pub fn send(&mut self, now: u64, text: &[u8]) -> C::Sending
        ensures answer { result ≡ C.send_answer self.old.core text.now }
        ensures state { self.new ≡ after_user C.machine self.old (at self.old now) (C.machine.sent self.old.core text.now) }
    {
        let now = self.timers.time_at(now);
        let answer = self.core.send(text);
        self.timers.follow(self.core.wants(), self.core.una(), now);
        answer
    }

    /// The user reads (RFC 9293, 3.10.3).
    pub fn receive(&mut self, now: u64, out: &mut [u8]) -> C::Receiving
        ensures answer { result ≡ C.receive_answer self.old.core (length out.old) }
        ensures read { out.new ≡ C.machine.read self.old.core out.old }
        ensures state { self.new ≡ after_user C.machine self.old (at self.old now) (C.machine.received self.old.core (length out.old)) }
    {
        let now = self.timers.time_at(now);
        let answer = self.core.receive(out);
        self.timers.follow(self.core.wants(), self.core.una(), now);
        answer
    }

    /// The user has read the first bytes where they lie, at most so many: they are gone, as after `receive` (RFC 9293, 3.10.3).
    pub fn consume(&mut self, now: u64, count: usize) -> C::Consuming
        ensures answer { result ≡ C.consume_answer self.old.core count }
        ensures state { self.new ≡ after_user C.machine self.old (at self.old now) (C.machine.received self.old.core count) }
    {
        let now = self.timers.time_at(now);
        let answer = self.core.consume(count);
        self.timers.follow(self.core.wants(), self.core.una(), now);
        answer
    }

    /// The user has read, and wants the window that is open now to be advertised (RFC 9293, 3.8.6.2.2): an acknowledgement
    /// is due, where the peer may still send.
    pub fn acknowledge(&mut self, now: u64)
        ensures { self.new ≡ after_user C.machine self.old (at self.old now) (C.machine.acknowledged self.old.core) }
    {
        let now = self.timers.time_at(now);
        self.core.acknowledge();
        self.timers.follow(self.core.wants(), self.core.una(), now);
    }

    /// The user has no more to send (RFC 9293, 3.10.4).
    pub fn close(&mut self, now: u64) -> C::Closing
        ensures answer { result ≡ C.close_answer self.old.core }
        ensures state { self.new ≡ after_user C.machine self.old (at self.old now) (C.machine.closed self.old.core) }
    {
        let now = self.timers.time_at(now);
        let answer = self.core.close();
        self.timers.follow(self.core.wants(), self.core.una(), now);
        answer
    }

    /// The user gives the connection up (RFC 9293, 3.10.5).
    pub fn abort(&mut self, now: u64) -> C::Aborting
        ensures answer { result ≡ C.abort_answer self.old.core }
        ensures state { self.new ≡ after_user C.machine self.old (at self.old now) (C.machine.aborted self.old.core) }
    {
        let now = self.timers.time_at(now);
        let answer = self.core.abort();
        self.timers.follow(self.core.wants(), self.core.una(), now);
        answer
    }
}

/// RST among the flags of a segment (RFC 9293, 3.1).
const RST: u8 = 4;

/// Whether a segment has the bit RST.
fn is_reset(bytes: &[u8]) -> bool
    ensures { result ≡ is_reset bytes.now }
{
    match bytes.get(13) {
        Some(flags) => *flags & RST != 0,
        None => false,
    }
}
