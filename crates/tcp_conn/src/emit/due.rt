//! What an end emits next (RFC 9293, 3.7, 3.8 and 3.10).
ghost use Rattle.std.specs.Prelude.{◌≡◌, ◌≤◌, ◌+◌, IfSome};
ghost use Rattle.tcp_wire.specs.Wire.{max_text_len};
ghost use Rattle.tcp_halves.specs.Config.{max_mss, stream_limit};
ghost use Rattle.tcp_conn.specs.Due.{IsSendable, ack_alone, count_of, due_of, end_of, start_of, text_due, text_limit};

use crate::endpoint::Endpoint;
use crate::phases::sends_text;
use std::alloc::Allocator;
use tcp_halves::Sent;

/// What an end emits next.
#[derive(Clone, Copy, Debug, PartialEq, Eq)]
pub enum Due {
    /// The reset that waits (RFC 9293, 3.5.2).
    Reset,
    /// This end's SYN, with an acknowledgement once the peer's SYN was taken (RFC 9293, 3.5).
    Syn,
    /// What the half that sends emits: text or this end's FIN (RFC 9293, 3.6 to 3.8).
    Text(Sent),
    /// An acknowledgement without text (RFC 9293, 3.8.6.3).
    Acknowledgement,
}

impl Due {
    /// The length of its text in bytes; 0 where it has none.
    pub(crate) fn count(self) -> usize
        ensures { result ≡ count_of self }
    {
        match self {
            Due::Text(sent) => sent.count(),
            Due::Reset | Due::Syn | Due::Acknowledgement => 0,
        }
    }
}

impl<A: Allocator> Endpoint<A> {
    /// What `emit` would write now: a waiting reset, this end's SYN, text or FIN, an acknowledgement, the first that
    /// applies.
    #[inline(always)]
    #[tactic(auto, unfolding(crate::specs::Due::due_of))]
    pub(crate) fn due(&self) -> Option<Due>
        ensures value { result ≡ due_of self.now }
        ensures sendable { IfSome result (IsSendable self.now.sending max_mss) }
    {
        if self.pending.reset.is_some() {
            return Some(Due::Reset);
        }
        if self.pending.syn {
            return Some(Due::Syn);
        }
        if let Some(due) = self.text_due() {
            return Some(due);
        }
        if self.pending.ack {
            // So that the proof knows the invariant of a sender.
            let _ = &self.sender.snd_nxt;
            Some(Due::Acknowledgement)
        } else {
            None
        }
    }

    /// The acknowledgement that is pending, where no reset or SYN comes before it.
    #[tactic(auto, unfolding(crate::specs::Due::ack_alone))]
    pub(crate) fn ack_alone(&self) -> Option<Due>
        ensures value { result ≡ ack_alone self.now }
        ensures sendable { IfSome result (IsSendable self.now.sending max_mss) }
    {
        if self.pending.reset.is_some() || self.pending.syn || !self.pending.ack {
            return None;
        }
        // So that the proof knows what always holds of a sender.
        let _ = &self.sender.snd_nxt;
        Some(Due::Acknowledgement)
    }

    /// What is due of the half that sends, in the phases that send text.
    #[inline(always)]
    fn text_due(&self) -> Option<Due>
        ensures value { result ≡ text_due self.now }
        ensures sendable { IfSome result (IsSendable self.now.sending max_mss) }
    {
        if !sends_text(self.phase) {
            return None;
        }
        let sent = self
            .sender
            .due(self.text_limit(), self.pending.probe, self.closing)?;
        Some(Due::Text(sent))
    }

    /// The position where it begins: SND.NXT for an acknowledgement, 0 for a SYN and a reset.
    pub(crate) fn start_of(&self, due: Due) -> u64
        ensures { result ≡ start_of self.now.sending due }
    {
        match due {
            Due::Text(sent) => sent.start(),
            Due::Acknowledgement => self.sender.snd_nxt,
            Due::Reset | Due::Syn => 0,
        }
    }

    /// The position after it: SYN, text and FIN take sequence numbers (RFC 9293, 3.4).
    pub(crate) fn end_of(&self, due: Due) -> u64
        requires { IsSendable self.now.sending max_text_len due }
        ensures value { result ≡ end_of self.now.sending due }
        ensures most { result ≤ 2 + stream_limit }
    {
        // So that the proof knows the invariant of a sender.
        let _ = &self.sender.snd_nxt;
        match due {
            Due::Reset => 0,
            Due::Syn => 1,
            Due::Text(sent) => sent.end(),
            Due::Acknowledgement => self.sender.snd_nxt,
        }
    }

    /// The text limit in bytes: the smaller of the peer's and this end's maximum segment size, less the options (RFC
    /// 9293, 3.7.1).
    pub(crate) fn text_limit(&self) -> u16
        ensures value { result ≡ text_limit self.now }
        ensures most { result ≤ max_mss }
    {
        self.mss_in_use().saturating_sub(self.report_len())
    }
}
