ghost use Rattle.std.specs.Prelude.{◌≡◌, ◌≤◌, ◌<◌, ◌+◌, ◌*◌, ◌^◌, IfSome, length};

use crate::paced::Paced;
use std::marker::Model;
use tcp_congestion::Congestion;
use tcp_driver::{Driver, Sent, Taken, Timer};

/// One end with its times (RFC 6298, 5) under a congestion window (RFC 5681, 3; RFC 9438). What is in flight is bounded by
/// that window, and what comes, expires and rests is told to it.
#[derive(Drop)]
pub struct Flow<C: Paced + Drop, W: Congestion + Drop> {
    pub(crate) driver: Driver<C>,
    pub(crate) window: W,
    // These four lie in one word, so that a connection's block has kept its size.
    pub(crate) is_shut: bool,
    /// Losses are found by time.
    pub(crate) is_patient: bool,
    /// Partial acknowledgements in a row that covered no more than was sent again, of which two count.
    pub(crate) drops: u8,
    /// Duplicates behind all that was sent again, of which three count.
    pub(crate) repeats: u8,
    sent_at: u64,
}

impl<C: Paced + Drop, W: Congestion + Drop> Model for Flow<C, W> {
    ghost use Rattle.tcp_flow.specs.Flow.{Flowing};

    ghost Value = { Flowing C W };

    ghost view = { λ f. record { driving = f.driver; window = f.window; shut = f.is_shut; sent_at = f.sent_at; drops = f.drops; repeats = f.repeats; patient = f.is_patient } };
}

impl<C: Paced + Drop, W: Congestion + Drop> Flow<C, W> {
    ghost use Rattle.std.specs.Prelude.{false, true};
    ghost use Rattle.tcp_driver.specs.declared.machine.Timer.TheVariants.{Retransmit};
    ghost use Rattle.tcp_driver.specs.Driver.{arrival_answer, at, sent_of, way_of, written_of};
    ghost use Rattle.tcp_driver.specs.Times.{expiry, next_expiry};
    ghost use Rattle.tcp_driver.specs.Times.{is_suspect};
    ghost use Rattle.tcp_flow.specs.Flow.{after_patience_of, after_segment, after_timeout, after_use, after_user_limit, allowed, emitted, emitted_as_one, new_flowing, rested, with_window};

    /// A driver that was just made, and a window.
    pub fn new(driver: Driver<C>, window: W, now: u64) -> Flow<C, W>
        ensures { result ≡ new_flowing driver window now }
    {
        Flow {
            driver,
            window,
            is_shut: false,
            is_patient: false,
            drops: 0,
            repeats: 0,
            sent_at: now,
        }
    }

    /// When `timeout` has to be called, if nothing else happens before.
    #[must_use]
    pub fn poll_at(&self) -> Option<u64>
        ensures { result ≡ next_expiry self.now.driving.times }
    {
        self.driver.poll_at()
    }

    /// Chooses another window for an end that has sent no text yet.
    pub fn set_window(&mut self, window: W)
        ensures { self.new ≡ with_window C.smss_of W.control self.old window }
    {
        self.window = window;
        self.is_shut = false;
        if self.window.limits() {
            self.settle();
        }
    }

    /// A segment has come at a time, from the IPv4 address `src` to `dst`, as for the driver.
    pub fn arrive(
        &mut self,
        now: u64,
        src: [u8; 4],
        dst: [u8; 4],
        bytes: &[u8],
    ) -> Taken<C::Arriving>
        ensures answer { result ≡ arrival_answer C.machine C.arrival_answer self.old.driving src dst bytes.now (way_of self.old.driving false) }
        ensures state { self.new ≡ after_segment C.machine C.smss_of W.control self.old now src dst bytes.now false }
    {
        if self.window.limits() {
            return self.arrive_limited(now, src, dst, bytes);
        }
        self.driver.arrive(now, src, dst, bytes)
    }

    /// The same, with a window that is told of it or without one.
    #[inline(never)]
    fn arrive_limited(
        &mut self,
        now: u64,
        src: [u8; 4],
        dst: [u8; 4],
        bytes: &[u8],
    ) -> Taken<C::Arriving>
        ensures answer { result ≡ arrival_answer C.machine C.arrival_answer self.old.driving src dst bytes.now (way_of self.old.driving false) }
        ensures state { self.new ≡ after_segment C.machine C.smss_of W.control self.old now src dst bytes.now false }
    {
        let una = self.driver.core().una();
        let reported = self.reported_before();
        let taken = self.driver.arrive(now, src, dst, bytes);
        if self.window.limits() {
            if let Taken::Done(report, _) = &taken {
                let report = *report;
                self.told(una, reported, report, now);
            }
        }
        taken
    }

    /// The same of a segment whose checksum a device has found right: it isn't summed (RFC 9293, 3.1).
    pub fn arrive_vouched(
        &mut self,
        now: u64,
        src: [u8; 4],
        dst: [u8; 4],
        bytes: &[u8],
    ) -> Taken<C::Arriving>
        ensures answer { result ≡ arrival_answer C.machine C.arrival_answer self.old.driving src dst bytes.now (way_of self.old.driving true) }
        ensures state { self.new ≡ after_segment C.machine C.smss_of W.control self.old now src dst bytes.now true }
    {
        if self.window.limits() {
            return self.arrive_vouched_limited(now, src, dst, bytes);
        }
        self.driver.arrive_vouched(now, src, dst, bytes)
    }

    /// The same, with a window that is told of it or without one.
    #[inline(never)]
    fn arrive_vouched_limited(
        &mut self,
        now: u64,
        src: [u8; 4],
        dst: [u8; 4],
        bytes: &[u8],
    ) -> Taken<C::Arriving>
        ensures answer { result ≡ arrival_answer C.machine C.arrival_answer self.old.driving src dst bytes.now (way_of self.old.driving true) }
        ensures state { self.new ≡ after_segment C.machine C.smss_of W.control self.old now src dst bytes.now true }
    {
        let una = self.driver.core().una();
        let reported = self.reported_before();
        let taken = self.driver.arrive_vouched(now, src, dst, bytes);
        if self.window.limits() {
            if let Taken::Done(report, _) = &taken {
                let report = *report;
                self.told(una, reported, report, now);
            }
        }
        taken
    }

    ghost use Rattle.tcp_flow.specs.Flow.{StaysInOwn, StaysInWindow, is_idle, left_of, lost_by, most_of, nxt_of};

    /// SND.NXT.
    pub(crate) fn nxt(&self) -> u64
        ensures { result ≡ nxt_of C.machine self.now }
    {
        self.driver
            .core()
            .una()
            .saturating_add(self.driver.flight())
    }

    /// Writes the segment that is due, if one is, within the caller's window, the congestion window and what that lets out beyond
    /// itself, as for the driver. Where nothing was in flight, and no text was sent for longer than the timeout, the congestion
    /// window is told first.
    pub fn emit(&mut self, now: u64, window: u64, out: &mut [u8]) -> Option<Sent>
        requires { C.machine.room ≤ length out.old }
        ensures sent { result ≡ sent_of C.machine self.old.driving.core (allowed C.machine W.control (rested C.machine W.control self.old now) window) }
        ensures most { IfSome result (λ sent. sent.len ≤ C.machine.room) }
        ensures written { out.new ≡ written_of C.machine self.old.driving.core (allowed C.machine W.control (rested C.machine W.control self.old now) window) out.old }
        ensures stays { StaysInWindow C.machine W.control (rested C.machine W.control self.old now) window result }
        ensures stays_own { StaysInOwn C.machine W.control (rested C.machine W.control self.old now) window result }
        ensures state { self.new ≡ emitted C.machine W.control (rested C.machine W.control self.old now) now window }
    {
        let window = self.reach(now, window);
        let sent = self.driver.emit(now, window, out);
        if self.window.limits() {
            if let Some(sent) = &sent {
                if sent.count > 0 {
                    self.sent_at = now;
                }
            }
        }
        sent
    }

    /// Writes as one, for a device that cuts and sums them, the segments that may go out within the lesser of both windows, at
    /// most `most`: as many emissions of the driver.
    pub fn emit_train(
        &mut self,
        now: u64,
        window: u64,
        out: &mut [u8],
        most: usize,
    ) -> Option<C::Train>
        requires { C.machine.room ≤ length out.old }
        ensures train { result ≡ C.train_answer self.old.driving.core (allowed C.machine W.control (rested C.machine W.control self.old now) window) most (length out.old) }
        ensures written { out.new ≡ C.machine.written_row self.old.driving.core (allowed C.machine W.control (rested C.machine W.control self.old now) window) most out.old }
        ensures state { self.new ≡ emitted_as_one C.machine W.control (rested C.machine W.control self.old now) now window most (length out.old) }
    {
        let window = self.reach(now, window);
        let train = self.driver.emit_train(now, window, out, most);
        if self.window.limits() {
            if let Some(train) = &train {
                if C::numbers(train) > 0 {
                    self.sent_at = now;
                }
            }
        }
        train
    }

    /// How far what goes out may reach past SND.UNA, behind an idle time of which the window is told.
    #[inline(always)]
    fn reach(&mut self, now: u64, window: u64) -> u64
        ensures value { result ≡ allowed C.machine W.control (rested C.machine W.control self.old now) window }
        ensures own { result ≤ window }
        ensures most { W.control.limits self.new.window ≡ true → result ≤ most_of C.machine W.control self.new }
        ensures driving { self.new.driving ≡ self.old.driving }
        ensures rested { self.new ≡ rested C.machine W.control self.old now }
    {
        if !self.window.limits() {
            return window;
        }
        self.rest(now);
        self.let_out(window)
    }

    /// How far past SND.UNA what goes out may reach, within the caller's window: as far as the congestion window has it, if it is one.
    #[inline(always)]
    #[must_use]
    pub fn allowed(&self, window: u64) -> u64
        ensures value { result ≡ allowed C.machine W.control self.now window }
        ensures own { result ≤ window }
        ensures most { W.control.limits self.now.window ≡ true → result ≤ most_of C.machine W.control self.now }
    {
        if !self.window.limits() {
            return window;
        }
        self.let_out(window)
    }

    /// The same, under a window that is one.
    #[inline(never)]
    #[tactic(auto, unfolding(crate::specs::Flow::let_out_of, crate::specs::Flow::most_of))]
    fn let_out(&self, window: u64) -> u64
        requires { W.control.limits self.now.window ≡ true }
        ensures value { result ≡ allowed C.machine W.control self.now window }
        ensures own { result ≤ window }
        ensures most { result ≤ most_of C.machine W.control self.now }
    {
        let left = self.left();
        if left > 0 {
            return window.min(self.window.cwnd().saturating_add(left));
        }
        window.min(self.window.room(0))
    }

    /// What has left the network by what blocks report, where losses are found by time, in congestion avoidance, before one is found
    /// (RFC 6675, 5, step 3).
    fn left(&self) -> u64
        ensures { result ≡ left_of C.machine W.control self.now }
    {
        if self.is_patient
            && self.window.ssthresh() <= self.window.cwnd()
            && self.window.is_new_loss(self.driver.core().una())
        {
            self.driver.core().reported()
        } else {
            0
        }
    }

    /// The window is told of an idle time.
    #[inline(never)]
    fn rest(&mut self, now: u64)
        requires { W.control.limits self.old.window ≡ true }
        ensures driving { self.new.driving ≡ self.old.driving }
        ensures rested { self.new ≡ rested C.machine W.control self.old now }
        ensures limits { W.control.limits self.new.window ≡ true }
    {
        if self.is_idle(now) {
            self.window.was_idle();
        }
    }

    /// Whether nothing is in flight, and no text was sent for longer than the timeout (RFC 5681, 4.1).
    fn is_idle(&self, now: u64) -> bool
        ensures { result ≡ is_idle C.machine self.now now }
    {
        self.driver.flight() == 0
            && self.driver.estimator().rto() < now.saturating_sub(self.sent_at)
    }

    /// It is `now`: the timer that has expired, if one has, as for the driver. A loss is told to the window.
    #[inline(always)]
    pub fn timeout(&mut self, now: u64) -> Option<Timer>
        ensures expired { result ≡ expiry self.old.driving.times (at self.old.driving now) }
        ensures state { self.new ≡ after_timeout C.machine W.control self.old now }
    {
        if !self.window.limits() {
            return self.driver.timeout(now);
        }
        self.timeout_limited(now)
    }

    /// It is `now`: as [`timeout`](Self::timeout), and when it has to be called next, as [`poll_at`](Self::poll_at) behind it.
    #[inline(always)]
    pub fn tick(&mut self, now: u64) -> (Option<Timer>, Option<u64>)
        ensures expired { result.0 ≡ expiry self.old.driving.times (at self.old.driving now) }
        ensures next { result.1 ≡ next_expiry self.new.driving.times }
        ensures state { self.new ≡ after_timeout C.machine W.control self.old now }
    {
        if !self.window.limits() {
            return self.driver.tick(now);
        }
        let timer = self.timeout_limited(now);
        (timer, self.driver.poll_at())
    }

    /// The timer that has expired, under a window that is one.
    #[inline(never)]
    fn timeout_limited(&mut self, now: u64) -> Option<Timer>
        requires { W.control.limits self.old.window ≡ true }
        ensures expired { result ≡ expiry self.old.driving.times (at self.old.driving now) }
        ensures state { self.new ≡ after_timeout C.machine W.control self.old now }
    {
        let una = self.driver.core().una();
        let flight = self.driver.flight();
        let nxt = self.nxt();
        let timer = self.driver.timeout(now);
        match timer {
            Some(Timer::Retransmit) => {
                if una == 0 {
                    self.window.syn_was_resent();
                } else if !self.is_shut {
                    self.window.timed_out(flight, nxt);
                }
            }
            Some(Timer::Reorder) => {
                let _ = self.window.lost(una, flight, nxt);
            }
            _ => {}
        }
        timer
    }

    /// Whether the path to the peer may be dead, as for the driver (RFC 9293, 3.8.3).
    #[must_use]
    pub fn is_suspect(&self) -> bool
        ensures { result ≡ is_suspect self.now.driving.times }
    {
        self.driver.is_suspect()
    }

    /// Sets the user timeout, as for the driver (RFC 9293, 3.8.3).
    pub fn set_user_timeout(&mut self, limit: Option<u64>)
        ensures { self.new ≡ after_user_limit self.old limit }
    {
        self.driver.set_user_timeout(limit);
    }

    /// Sets whether what the peer's blocks pass over is given a whole timeout before it counts as lost, as for the driver
    /// (RFC 8985).
    pub fn set_patience(&mut self, is_patient: bool)
        ensures { self.new ≡ after_patience_of self.old is_patient }
    {
        self.driver.set_patience(is_patient);
        self.is_patient = is_patient;
    }

    /// Of what is in flight the first segment goes out again at once, for a caller that finds losses by itself (RFC 5681, 3.2):
    /// whether anything is in flight. The window isn't told.
    pub fn resend_first(&mut self, now: u64) -> bool
        ensures answer { result ≡ C.machine.can_resend self.old.driving.core }
        ensures state { self.new ≡ after_use C.machine self.old now (C.machine.first_resent self.old.driving.core) }
    {
        self.driver.resend_first(now)
    }

    /// Of what is in flight what lies from the position `from` on and before `to` goes out again at once, as for the driver, for a
    /// caller that knows which stretch is lost (RFC 6675, 5; RFC 8985, 6.2). The window isn't told.
    pub fn resend(&mut self, now: u64, from: u64, to: u64) -> bool
        ensures answer { result ≡ C.machine.resends self.old.driving.core from to }
        ensures state { self.new ≡ after_use C.machine self.old now (C.machine.resent self.old.driving.core from to) }
    {
        self.driver.resend(now, from, to)
    }

    /// What the retransmission timer sends again goes out again at once, as for the driver: a SYN that isn't acknowledged, say, for
    /// who knows that it was lost. The window isn't told.
    pub fn retransmit(&mut self, now: u64)
        ensures { self.new ≡ after_use C.machine self.old now (C.machine.expired self.old.driving.core Retransmit) }
    {
        self.driver.retransmit(now);
    }

    /// The driver: its end, its estimator, and what it says of both.
    #[must_use]
    pub fn driver(&self) -> &Driver<C>
        ensures { result.now ≡ self.now.driving }
    {
        &self.driver
    }

    /// The congestion window.
    #[must_use]
    pub fn window(&self) -> &W
        ensures { result.now ≡ self.now.window }
    {
        &self.window
    }

    /// The user has text to send (RFC 9293, 3.10.2).
    pub fn send(&mut self, now: u64, text: &[u8]) -> C::Sending
        ensures answer { result ≡ C.send_answer self.old.driving.core text.now }
        ensures state { self.new ≡ after_use C.machine self.old now (C.machine.sent self.old.driving.core text.now) }
    {
        self.driver.send(now, text)
    }

    /// The user reads (RFC 9293, 3.10.3).
    pub fn receive(&mut self, now: u64, out: &mut [u8]) -> C::Receiving
        ensures answer { result ≡ C.receive_answer self.old.driving.core (length out.old) }
        ensures read { out.new ≡ C.machine.read self.old.driving.core out.old }
        ensures state { self.new ≡ after_use C.machine self.old now (C.machine.received self.old.driving.core (length out.old)) }
    {
        self.driver.receive(now, out)
    }

    /// The user has read the first bytes where they lie, at most so many (RFC 9293, 3.10.3).
    pub fn consume(&mut self, now: u64, count: usize) -> C::Consuming
        ensures answer { result ≡ C.consume_answer self.old.driving.core count }
        ensures state { self.new ≡ after_use C.machine self.old now (C.machine.received self.old.driving.core count) }
    {
        self.driver.consume(now, count)
    }

    /// The user has read, and wants the window that is open now to be advertised (RFC 9293, 3.8.6.2.2).
    pub fn acknowledge(&mut self, now: u64)
        ensures { self.new ≡ after_use C.machine self.old now (C.machine.acknowledged self.old.driving.core) }
    {
        self.driver.acknowledge(now);
    }

    /// The user has no more to send (RFC 9293, 3.10.4).
    pub fn close(&mut self, now: u64) -> C::Closing
        ensures answer { result ≡ C.close_answer self.old.driving.core }
        ensures state { self.new ≡ after_use C.machine self.old now (C.machine.closed self.old.driving.core) }
    {
        self.driver.close(now)
    }

    /// The user gives the connection up (RFC 9293, 3.10.5).
    pub fn abort(&mut self, now: u64) -> C::Aborting
        ensures answer { result ≡ C.abort_answer self.old.driving.core }
        ensures state { self.new ≡ after_use C.machine self.old now (C.machine.aborted self.old.driving.core) }
    {
        self.driver.abort(now)
    }
}
