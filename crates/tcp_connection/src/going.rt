//! What is due goes out, or waits.
ghost use Rattle.std.specs.Prelude.{◌≡◌, ◌≤◌, IfSome, IsNone, false, length, option_map, true};
ghost use Rattle.tcp_driver.specs.Deadlines.{earlier};
ghost use Rattle.tcp_connection.specs.Going.{is_held, is_new_text, is_to_come, is_zero};

use crate::connection::{Connection, edge_of};
use crate::deferring::{Deferring, Kind, Next};
use tcp_congestion::Congestion;
use tcp_driver::{Sent, holds};

/// The earlier of two times.
fn earlier(one: Option<u64>, other: Option<u64>) -> Option<u64>
    ensures { result ≡ earlier one other }
{
    match (one, other) {
        (Some(one), Some(other)) => Some(one.min(other)),
        (None, time) | (time, None) => time,
    }
}

/// Whether there is a time, and it is to come.
fn is_to_come(time: Option<u64>, now: u64) -> bool
    ensures { result ≡ is_to_come time now }
{
    match time {
        Some(time) => now < time,
        None => false,
    }
}

/// Of which kind what is due is.
pub(crate) fn kind_in(next: Option<Next>) -> Option<Kind>
    ensures { result ≡ option_map (λ next. next.kind) next }
{
    match next {
        Some(next) => Some(next.kind),
        None => None,
    }
}

/// The segment that is due.
pub(crate) fn sent_in(next: Option<Next>) -> Option<Sent>
    ensures { result ≡ option_map (λ next. next.sent) next }
{
    match next {
        Some(next) => Some(next.sent),
        None => None,
    }
}

/// Whether what is due is held back, where new text waits or not, an acknowledgement is pending or not, and waits or not.
fn is_held(kind: Option<Kind>, text: bool, pending: bool, ack: bool) -> bool
    ensures { result ≡ is_held kind text pending ack }
{
    match kind {
        Some(Kind::Acknowledgement) => ack,
        Some(Kind::NewText) => text && (!pending || ack),
        Some(Kind::Other) | None => false,
    }
}

/// Whether what is due is new text.
fn is_new_text(kind: Option<Kind>) -> bool
    ensures { result ≡ is_new_text kind }
{
    matches!(kind, Some(Kind::NewText))
}

/// Whether what has gone out takes no numbers.
fn is_zero(count: Option<u64>) -> bool
    ensures { result ≡ is_zero count }
{
    match count {
        Some(count) => count == 0,
        None => false,
    }
}

/// How many numbers a segment takes.
fn count_in(sent: &Option<Sent>) -> Option<u64>
    ensures { result ≡ option_map (λ sent. sent.count) sent.now }
{
    match sent {
        Some(sent) => Some(sent.count),
        None => None,
    }
}

impl<C: Deferring + Drop, W: Congestion + Drop> Connection<C, W> {
    ghost use Rattle.tcp_connection.specs.Connection.{core_of};
    ghost use Rattle.tcp_connection.specs.Deadlines.{RestsAfter, TextRestsAfter, next_call, own_deadline};
    ghost use Rattle.tcp_connection.specs.Going.{after_emit, after_going, asked, asked_by, flow_after, flow_sent, flow_written, holds_back, is_asked, is_discarded, is_past, is_small, keeps, limiter_after, may_answer, noted, sent_by_emit, sent_going, text_waits_by, written_by_emit, written_going};
    ghost use Rattle.tcp_connection.specs.Policy.{holds_any};

    /// When `timeout` has to be called, and `emit` behind it, if nothing else happens before.
    #[must_use]
    pub fn poll_at(&self) -> Option<u64>
        ensures { result ≡ next_call C.machine self.now }
    {
        let next = self.flow.poll_at();
        if !self.is_deferring {
            return next;
        }
        earlier(self.own_deadline(), next)
    }

    /// When what waits has to go out.
    #[inline(never)]
    fn own_deadline(&self) -> Option<u64>
        requires { holds_any self.now.policy ≡ true }
        ensures { result ≡ own_deadline C.machine self.now }
    {
        let ack = if self.flow.driver().core().is_pending() {
            self.ack.deadline()
        } else {
            None
        };
        earlier(ack, self.text.deadline())
    }

    /// Writes the segment that is due, if one is, and it doesn't wait, as for the flow. Nothing waits in a burst. Else an
    /// acknowledgement waits for a second full segment and no longer than its delay (RFC 9293, 3.8.6.3), new text for a segment
    /// that is worth it and no longer than the override timeout (3.8.6.2.1), unless an acknowledgement goes out that takes it
    /// along. An acknowledgement that isn't granted is written and discarded, and what is due behind it goes out.
    pub fn emit(&mut self, now: u64, window: u64, out: &mut [u8]) -> Option<Sent>
        requires { C.machine.room ≤ length out.old }
        ensures sent { result ≡ sent_by_emit C.machine C.insight W.control self.old now window }
        ensures most { IfSome result (λ sent. sent.len ≤ C.machine.room) }
        ensures written { out.new ≡ written_by_emit C.machine C.insight W.control self.old now window out.old }
        ensures state { self.new ≡ after_emit C.machine C.insight W.control self.old now window }
        ensures rests { IsNone result → RestsAfter C.machine self.new now }
    {
        if !self.is_deferring {
            return self.emit_alone(now, window, out);
        }
        self.emit_deferring(now, window, out)
    }

    /// The same, where something may wait.
    #[inline(never)]
    fn emit_deferring(&mut self, now: u64, window: u64, out: &mut [u8]) -> Option<Sent>
        requires any { holds_any self.old.policy ≡ true }
        requires room { C.machine.room ≤ length out.old }
        ensures sent { result ≡ sent_by_emit C.machine C.insight W.control self.old now window }
        ensures most { IfSome result (λ sent. sent.len ≤ C.machine.room) }
        ensures written { out.new ≡ written_by_emit C.machine C.insight W.control self.old now window out.old }
        ensures state { self.new ≡ after_emit C.machine C.insight W.control self.old now window }
        ensures rests { IsNone result → RestsAfter C.machine self.new now }
    {
        if self.hold_back(now, window) {
            return None;
        }
        self.go(now, window, out)
    }

    /// Whether what is due is held back. Text is asked for.
    pub(crate) fn hold_back(&mut self, now: u64, window: u64) -> bool
        ensures held { result ≡ holds_back C.machine C.insight W.control self.old window now }
        ensures state { self.new ≡ asked C.machine C.insight W.control self.old window now }
        ensures text { TextRestsAfter self.new now }
        ensures rests { result ≡ true → RestsAfter C.machine self.new now }
    {
        let next = self.flow.driver().core().next();
        let past = self.is_past(sent_in(next), window);
        let text = self.text_waits(kind_in(next), past, now);
        self.keeps(kind_in(next), past || text, now)
    }

    /// Whether what is due, of this kind, is held back, where new text waits or not.
    #[tactic(auto, using(crate::proofs::Resting::kept_rests))]
    fn keeps(&self, kind: Option<Kind>, text: bool, now: u64) -> bool
        requires { TextRestsAfter self.now now }
        ensures held { result ≡ keeps C.machine C.insight self.now kind text now }
        ensures rests { result ≡ true → RestsAfter C.machine self.now now }
    {
        let pending = self.flow.driver().core().is_pending();
        let ack = is_to_come(self.ack.deadline(), now) || self.is_small();
        !self.flow.driver().is_bursting() && is_held(kind, text, pending, ack)
    }

    /// Whether an acknowledgement that nothing asks for advertises a window that isn't worth it.
    fn is_small(&self) -> bool
        ensures { result ≡ is_small C.insight self.now }
    {
        self.policy.override_timeout.is_some() && self.ack.deadline().is_none() && !self.has_grown()
    }

    /// Whether new text waits for the congestion window, where this is due.
    pub(crate) fn is_past(&self, due: Option<Sent>, window: u64) -> bool
        requires { due ≡ C.machine.due (core_of self.now) }
        ensures { result ≡ is_past C.machine W.control self.now window }
    {
        let core = self.flow.driver().core();
        let allowed = self.flow.allowed(window);
        holds(due, core.una(), core.flight(), false, allowed)
    }

    /// Whether new text waits for a segment that is worth it, where what is due is of this kind, and waits for the congestion
    /// window or not.
    #[tactic(auto, using(crate::proofs::Resting::text_rests))]
    fn text_waits(&mut self, kind: Option<Kind>, past: bool, now: u64) -> bool
        requires kind { kind ≡ C.insight.kind (core_of self.old) }
        ensures waits { result ≡ text_waits_by C.machine C.insight self.old past now }
        ensures state { self.new ≡ asked_by C.machine C.insight self.old past now }
        ensures text { TextRestsAfter self.new now }
    {
        let core = self.flow.driver().core();
        let queued = if self.is_asked(kind, past) {
            core.unsent()
        } else {
            0
        };
        let flight = core.flight();
        let usable = core.snd_wnd().saturating_sub(flight);
        let length = self.text.next_segment(queued, usable, flight, now);
        0 < queued.min(usable) && length == 0
    }

    /// Whether text is asked for.
    pub(crate) fn is_asked(&self, kind: Option<Kind>, past: bool) -> bool
        requires { kind ≡ C.insight.kind (core_of self.now) }
        ensures { result ≡ is_asked C.insight self.now past }
    {
        self.policy.override_timeout.is_some()
            && !self.flow.driver().is_bursting()
            && is_new_text(kind)
            && !past
    }

    /// What doesn't wait goes out.
    fn go(&mut self, now: u64, window: u64, out: &mut [u8]) -> Option<Sent>
        requires room { C.machine.room ≤ length out.old }
        requires text { TextRestsAfter self.old now }
        ensures sent { result ≡ sent_going C.machine W.control self.old now window }
        ensures most { IfSome result (λ sent. sent.len ≤ C.machine.room) }
        ensures written { out.new ≡ written_going C.machine W.control self.old now window out.old }
        ensures state { self.new ≡ after_going C.machine C.insight W.control self.old now window }
        ensures rests { IsNone result → RestsAfter C.machine self.new now }
    {
        let answers = self.may_answer();
        let sent = self.emit_alone(now, window, out);
        if self.discards(answers, count_in(&sent), now) {
            let sent = self.emit_alone(now, window, out);
            self.note(sent.is_some(), now);
            return sent;
        }
        self.note(sent.is_some(), now);
        sent
    }

    /// The flow emits.
    #[inline(always)]
    #[tactic(auto, unfolding(crate::specs::Going::flow_sent, crate::specs::Going::flow_written, crate::specs::Going::flow_after))]
    fn emit_alone(&mut self, now: u64, window: u64, out: &mut [u8]) -> Option<Sent>
        requires { C.machine.room ≤ length out.old }
        ensures sent { result ≡ flow_sent C.machine W.control self.old.flowing now window }
        ensures most { IfSome result (λ sent. sent.len ≤ C.machine.room) }
        ensures written { out.new ≡ flow_written C.machine W.control self.old.flowing now window out.old }
        ensures state { self.new ≡ record self.old { flowing = flow_after C.machine W.control self.old.flowing now window } }
    {
        self.flow.emit(now, window, out)
    }

    /// Whether an acknowledgement that goes alone only answers what brings nothing.
    pub(crate) fn may_answer(&self) -> bool
        ensures { result ≡ may_answer C.machine self.now }
    {
        // Mostly none does.
        self.is_bare && !self.flow.driver().is_bursting() && self.flow.driver().core().is_pending()
    }

    /// Whether what has gone out, and takes so many numbers, is discarded.
    pub(crate) fn discards(&mut self, answers: bool, count: Option<u64>, now: u64) -> bool
        ensures value { result ≡ is_discarded answers count self.old.limiter now }
        ensures state { self.new ≡ record self.old { limiter = limiter_after answers count self.old.limiter now } }
    {
        answers && is_zero(count) && !self.limiter.grant(now)
    }

    /// The flow has emitted, and something went out or nothing. A reset acknowledges nothing.
    #[tactic(auto, using(crate::proofs::Resting::gone_rests))]
    pub(crate) fn note(&mut self, went: bool, now: u64)
        requires { TextRestsAfter self.old now }
        ensures state { self.new ≡ noted C.machine C.insight self.old self.old.flowing self.old.limiter went }
        ensures rests { went ≡ false → RestsAfter C.machine self.new now }
    {
        if went && self.flow.driver().core().is_pending() {
            return;
        }
        self.ack.acknowledged();
        self.is_bare = false;
        if went {
            self.edge = edge_of(self.flow.driver().core());
        }
    }
}
