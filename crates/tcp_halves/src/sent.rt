//! What the half that sends emits next (RFC 9293, 3.7, 3.8 and 3.10), and the half after it.
ghost use Rattle.std.specs.Prelude.{◌≡◌, ◌<◌, ◌≤◌, ◌+◌, ◌^◌, IfSome, length, max, ℕ};
ghost use Rattle.std.specs.declared.ops.Range.{Range};
ghost use Rattle.tcp_wire.specs.Checksum.{AreBytes};
ghost use Rattle.tcp_wire.specs.Wire.{max_text_len};
ghost use Rattle.tcp_halves.specs.Config.{stream_limit};
ghost use Rattle.tcp_halves.specs.Sent.{IsSendable, count_of, end_of, fin_of, flags_of, is_fin, new_text_of, pushes, resend_of, resent_fin, resent_text, sending_after, sending_due, start_of, text_of};

use crate::sender::Sender;
use std::alloc::Allocator;
use tcp_wire::Flags;

/// What the half that sends emits. Text is given by the position of its first byte and its length in bytes.
#[derive(Clone, Copy, Debug, PartialEq, Eq)]
pub enum Sent {
    /// Text that is retransmitted (RFC 9293, 3.8.1).
    Resend(u64, usize),
    /// Text that is sent for the first time (RFC 9293, 3.7).
    NewText(u64, usize),
    /// This end's FIN for the first time, at this position (RFC 9293, 3.6).
    Fin(u64),
    /// This end's FIN, retransmitted.
    ResentFin(u64),
}

impl Sent {
    /// The length of its text in bytes; 0 where it has none.
    pub fn count(self) -> usize
        ensures { result ≡ count_of self }
    {
        match self {
            Sent::Resend(_, count) | Sent::NewText(_, count) => count,
            Sent::Fin(_) | Sent::ResentFin(_) => 0,
        }
    }

    /// The position where it begins.
    pub fn start(self) -> u64
        ensures { result ≡ start_of self }
    {
        match self {
            Sent::Resend(start, _) | Sent::NewText(start, _) => start,
            Sent::Fin(start) | Sent::ResentFin(start) => start,
        }
    }

    /// The position after it.
    pub fn end(self) -> u64
        requires { end_of self ≤ 2 + stream_limit }
        ensures { result ≡ end_of self }
    {
        match self {
            Sent::Resend(start, count) | Sent::NewText(start, count) => start + count as u64,
            Sent::Fin(start) | Sent::ResentFin(start) => start + 1,
        }
    }

    /// Whether it is this end's FIN.
    fn is_fin(self) -> bool
        ensures { result ≡ is_fin self }
    {
        matches!(self, Sent::Fin(_) | Sent::ResentFin(_))
    }
}

impl<A: Allocator> Sender<A> {
    /// What is due, if anything: text or FIN again, new text, this end's FIN, the first that applies. Text has at most
    /// `limit` bytes. `probe` says that a probe was granted, `closing` that the user has closed.
    pub fn due(&self, limit: u16, probe: bool, closing: bool) -> Option<Sent>
        ensures value { result ≡ sending_due self.now limit probe closing }
        ensures sendable { IfSome result (IsSendable self.now limit) }
    {
        if let Some(due) = self.resend_due(limit) {
            return Some(due);
        }
        if let Some(due) = self.new_text_due(limit, probe) {
            return Some(due);
        }
        self.fin_due(closing)
    }

    /// What has to be sent again, if anything: text of at most `limit` bytes, or this end's FIN (RFC 9293, 3.8.1; RFC
    /// 2018, 5).
    #[tactic(auto, unfolding(crate::specs::Sent::resend_of))]
    fn resend_due(&self, limit: u16) -> Option<Sent>
        ensures value { result ≡ resend_of self.now limit self.now.resend }
        ensures sendable { IfSome result (IsSendable self.now limit) }
    {
        let range = self.resend.as_ref()?;
        let start = range.start.max(self.snd_una);
        match self.queue.next_unmarked(self.place_of(start) as usize) {
            Some((from, to)) => self.resent_text(limit, range.end, from, to),
            None => self.resent_fin(start, range.end),
        }
    }

    /// The text of a run of unmarked bytes, as far as the position `end` and the limit allow.
    fn resent_text(&self, limit: u16, end: u64, from: usize, to: usize) -> Option<Sent>
        requires ordered { from < to }
        requires inside { to ≤ length self.now.queue.bytes }
        ensures value { result ≡ resent_text self.now limit end (from, to) }
        ensures sendable { IfSome result (IsSendable self.now limit) }
    {
        let position = 1 + self.released + from as u64;
        if position >= end {
            return None;
        }
        let count = u64::from(limit).min(((to - from) as u64).min(end - position));
        Some(Sent::Resend(position, count as usize))
    }

    /// This end's FIN, where its position is from `start` on and before `end`.
    fn resent_fin(&self, start: u64, end: u64) -> Option<Sent>
        ensures value { (range : Range ℕ) → max range.start self.now.snd_una ≡ start → range.end ≡ end → result ≡ resent_fin self.now range }
        ensures sendable { (limit : ℕ) → IfSome result (IsSendable self.now limit) }
    {
        // So that the proof knows the invariant of a sender.
        let _ = &self.snd_una;
        let fin = self.end_of_text();
        if fin < end && start <= fin {
            Some(Sent::ResentFin(fin))
        } else {
            None
        }
    }

    /// The text that can be sent for the first time, if any: at most `limit` bytes, and no more than the peer's window
    /// allows. At a zero window it is one byte, if a probe was granted (RFC 9293, 3.8.6 and 3.8.6.1).
    #[tactic(auto, unfolding(crate::specs::Sent::new_text_of))]
    fn new_text_due(&self, limit: u16, probe: bool) -> Option<Sent>
        ensures value { result ≡ new_text_of self.now limit probe }
        ensures sendable { IfSome result (IsSendable self.now limit) }
    {
        let usable = (self.snd_una + u64::from(self.snd_wnd)).saturating_sub(self.snd_nxt);
        let allowed = if usable == 0 {
            u64::from(probe)
        } else {
            usable
        };
        let count = u64::from(limit).min(self.count_unsent().min(allowed));
        if count == 0 {
            return None;
        }
        Some(Sent::NewText(self.snd_nxt, count as usize))
    }

    /// This end's FIN, once all text was sent (RFC 9293, 3.10.4).
    fn fin_due(&self, closing: bool) -> Option<Sent>
        ensures value { result ≡ fin_of self.now closing }
        ensures sendable { (limit : ℕ) → IfSome result (IsSendable self.now limit) }
    {
        if closing && self.snd_nxt == self.end_of_text() {
            Some(Sent::Fin(self.snd_nxt))
        } else {
            None
        }
    }

    /// Whether its text ends with the last byte of the queue.
    fn pushes(&self, sent: Sent) -> bool
        requires { IsSendable self.now max_text_len sent }
        ensures { result ≡ pushes self.now sent }
    {
        let count = sent.count();
        if count == 0 {
            return false;
        }
        self.place_of(sent.start()) + count as u64 == self.queue.len() as u64
    }

    /// The control bits of its segment: ACK, PSH where the text ends with the last byte of the queue, FIN.
    pub fn flags(&self, sent: Sent) -> Flags
        requires { IsSendable self.now max_text_len sent }
        ensures value { result.0 ≡ flags_of self.now sent }
        ensures fits { result.0 < 2 ^ 8 }
    {
        let push = if self.pushes(sent) {
            Flags::ACK.union(Flags::PSH)
        } else {
            Flags::ACK
        };
        if sent.is_fin() {
            push.union(Flags::FIN)
        } else {
            push
        }
    }

    /// Copies the text of what is due into `out`, which has exactly its length.
    pub fn copy(&self, sent: Sent, out: &mut [u8])
        requires sendable { IsSendable self.now max_text_len sent }
        requires len { length out.old ≡ count_of sent }
        ensures text { out.new ≡ text_of self.now sent }
        ensures bytes { AreBytes out.new }
    {
        if !out.is_empty() {
            let place = self.place_of(sent.start());
            self.queue.copy(place as usize, out);
        }
    }

    /// What was due was emitted: SND.NXT is at least the position after it, and what was sent again is taken off the
    /// range.
    pub fn mark_sent(&mut self, sent: Sent)
        requires { IsSendable self.old max_text_len sent }
        ensures state { self.new ≡ sending_after self.old sent }
        ensures capacity { self.new.queue.capacity ≡ self.old.queue.capacity }
        ensures queued { length self.new.queue.bytes ≤ self.new.queue.capacity }
    {
        let end = sent.end();
        self.snd_nxt = self.snd_nxt.max(end);
        if matches!(sent, Sent::Resend(..) | Sent::ResentFin(_)) {
            if let Some(range) = &mut self.resend {
                range.start = end;
            }
        }
    }
}
