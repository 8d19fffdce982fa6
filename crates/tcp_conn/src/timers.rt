ghost use Rattle.std.specs.Prelude.{◌≡◌};
ghost use Rattle.tcp_conn.specs.State.{IsWithin};
ghost use Rattle.tcp_conn.specs.Timers.{after_reorder, after_resend, after_resend_first, after_retransmit, after_time_wait, after_timer, needs_probe, resends_between, sends_again, timer_answer, timers_wanted};
ghost use Rattle.tcp_conn.specs.declared.phase.Timer.TheVariants.{Reorder, Retransmit, TimeWait};

use crate::endpoint::Endpoint;
use crate::phase::Timer;
use crate::phases::{is_handshake, is_time_wait, sends_text};
use std::alloc::Allocator;

/// The timers of an end (RFC 9293, 3.10.8), and whether each has to run.
#[derive(Clone, Copy, Debug, PartialEq, Eq)]
pub struct Timers {
    /// The retransmission timer (RFC 9293, 3.8.1), which is the timer of zero-window probes, too (3.8.6.1).
    pub retransmit: bool,
    /// The reordering timer: when it expires, what lies before the last byte that was selectively acknowledged is taken
    /// for lost (RFC 2018, 5).
    pub reorder: bool,
    /// The TIME-WAIT timer.
    pub time_wait: bool,
}

impl<A: Allocator> Endpoint<A> {
    /// A timer has expired (RFC 9293, 3.10.8): whether its rule applies. Where it doesn't, nothing changes.
    pub fn timer(&mut self, timer: Timer) -> bool
        ensures answer { result ≡ timer_answer self.old timer }
        ensures state { self.new ≡ after_timer self.old timer }
        ensures within { IsWithin self.new }
    {
        let applies = match timer {
            Timer::Retransmit => self.retransmit(),
            Timer::Reorder => self.reorder(),
            Timer::TimeWait => self.leave_time_wait(),
        };
        // So that the proof knows the invariant of an end.
        let _ = &self.config;
        applies
    }

    /// Which timers have to run (RFC 9293, 3.10.8): those for which `timer` would return true now.
    #[must_use]
    pub fn timers_wanted(&self) -> Timers
        ensures { result ≡ timers_wanted self.now }
    {
        Timers {
            retransmit: is_handshake(self.phase) || self.sends_again() || self.needs_probe(),
            reorder: sends_text(self.phase) && self.sender.queue.last_mark_end().is_some(),
            time_wait: is_time_wait(self.phase),
        }
    }

    /// What `timers_wanted` returns, for Retransmit, Reorder and TimeWait.
    #[must_use]
    pub fn timers(&self) -> (bool, bool, bool)
        ensures { result ≡ (timer_answer self.now Retransmit, timer_answer self.now Reorder, timer_answer self.now TimeWait) }
    {
        let wanted = self.timers_wanted();
        (wanted.retransmit, wanted.reorder, wanted.time_wait)
    }

    /// Whether something in flight has to be sent again at the retransmission timeout.
    fn sends_again(&self) -> bool
        ensures { result ≡ sends_again self.now }
    {
        sends_text(self.phase) && self.sender.snd_una < self.sender.snd_nxt
    }

    /// Whether a probe has to be granted at the retransmission timeout.
    fn needs_probe(&self) -> bool
        ensures { result ≡ needs_probe self.now }
    {
        // Mostly the window is open.
        self.sender.snd_wnd == 0 && sends_text(self.phase) && self.sender.is_probe_needed()
    }

    /// The retransmission timeout (RFC 9293, 3.8.1 and 3.8.6.1).
    #[tactic(auto, unfolding(crate::specs::Timers::after_retransmit))]
    fn retransmit(&mut self) -> bool
        ensures answer { result ≡ timer_answer self.old Retransmit }
        ensures state { self.new ≡ after_retransmit self.old }
    {
        let handshake = is_handshake(self.phase);
        let again = self.sends_again();
        let probe = self.needs_probe();
        if again {
            self.sender.resend_all();
        }
        self.pending.syn = self.pending.syn || handshake;
        self.pending.probe = self.pending.probe || probe;
        handshake || again || probe
    }

    /// Fast retransmit: of what is in flight, the first segment's data goes out again before new data, as after three
    /// duplicate acknowledgements or an acknowledgement of a part of what is in flight (RFC 5681, 3.2; RFC 6582, 3.2).
    /// Returns whether anything is in flight; where nothing is, nothing changes.
    #[tactic(auto, unfolding(crate::specs::Timers::after_resend_first))]
    pub fn resend_first(&mut self) -> bool
        ensures answer { result ≡ sends_again self.old }
        ensures state { self.new ≡ after_resend_first self.old }
        ensures within { IsWithin self.new }
    {
        let again = self.sends_again();
        if again {
            let limit = self.text_limit();
            self.sender.resend_first(limit);
        }
        // So that the proof knows what always holds of an end.
        let _ = &self.config;
        again
    }

    /// One stretch of the stream is lost: of what is in flight, the text and the FIN from the position `from` on and
    /// before `to` go out again before new data, but for what the peer has reported, as many segments as that takes
    /// (RFC 6675, 5; RFC 8985, 6.2). As `resend_first` it takes the place of what was to be sent again until then.
    /// Positions count from the SYN, which is at 0. Returns whether anything in flight lies between them; where nothing
    /// does, nothing changes.
    #[tactic(auto, unfolding(crate::specs::Timers::after_resend))]
    pub fn resend(&mut self, from: u64, to: u64) -> bool
        ensures answer { result ≡ resends_between self.old from to }
        ensures state { self.new ≡ after_resend self.old from to }
        ensures within { IsWithin self.new }
    {
        let start = self.sender.snd_una.max(from);
        let again = sends_text(self.phase) && start < self.sender.snd_nxt.min(to);
        if again {
            self.sender.resend(from, to);
        }
        // So that the proof knows what always holds of an end.
        let _ = &self.config;
        again
    }

    /// The reordering timeout: what lies before the end of the last mark is taken for lost (RFC 2018, 5).
    #[tactic(auto, unfolding(crate::specs::Timers::after_reorder))]
    fn reorder(&mut self) -> bool
        ensures answer { result ≡ timer_answer self.old Reorder }
        ensures state { self.new ≡ after_reorder self.old }
    {
        if !sends_text(self.phase) {
            return false;
        }
        let Some(end) = self.sender.queue.last_mark_end() else {
            return false;
        };
        self.sender.resend_gaps(end);
        true
    }

    /// The TIME-WAIT timeout (RFC 9293, 3.10.8).
    #[tactic(auto, unfolding(crate::specs::Timers::after_time_wait))]
    fn leave_time_wait(&mut self) -> bool
        ensures answer { result ≡ timer_answer self.old TimeWait }
        ensures state { self.new ≡ after_time_wait self.old }
    {
        if !is_time_wait(self.phase) {
            return false;
        }
        self.end_in_order();
        true
    }
}
