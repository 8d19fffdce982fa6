//! Segments go out within a window of the caller's (RFC 5681, 3.1).
ghost use Rattle.std.specs.Prelude.{◌≡◌, ◌≤◌, ◌+◌, IfSome, length};
ghost use Rattle.tcp_wire.specs.Wire.{max_text_len};
ghost use Rattle.tcp_halves.specs.Config.{max_mss, stream_limit};
ghost use Rattle.tcp_conn.specs.Due.{IsSendable};
ghost use Rattle.tcp_conn.specs.State.{IsWithin};
ghost use Rattle.tcp_conn.specs.Within.{after_within, buffer_within, due_within, transmit_within, waits};

use crate::emit::due::Due;
use crate::emit::transmit::{EMIT_ROOM, Transmit};
use crate::emit::write::Sum;
use crate::endpoint::Endpoint;
use std::alloc::Allocator;

impl<A: Allocator> Endpoint<A> {
    /// Whether what is due waits: for room in the window, or for the acknowledgement that is pending.
    #[inline(always)]
    fn waits(&self, due: Due, window: u64) -> bool
        requires { IsSendable self.now.sending max_text_len due }
        ensures { result ≡ waits self.now window due }
    {
        let una = self.sender.snd_una;
        let start = self.start_of(due);
        let before = start.saturating_sub(una);
        let count = self.end_of(due).saturating_sub(start);
        let flight = self.sender.snd_nxt.saturating_sub(una);
        // Mostly it is new, and no acknowledgement is looked for.
        (una < start && window.saturating_sub(before) < count)
            || (before < flight && self.ack_alone().is_some())
    }

    /// What may go out within the window.
    #[inline(always)]
    #[tactic(auto, using(crate::proofs::Segments::sendable_as_text), unfolding(crate::specs::Within::due_within))]
    pub(crate) fn due_within(&self, window: u64) -> Option<Due>
        ensures value { result ≡ due_within self.now window }
        ensures sendable { IfSome result (IsSendable self.now.sending max_mss) }
    {
        let due = self.due()?;
        if self.waits(due, window) {
            self.ack_alone()
        } else {
            Some(due)
        }
    }

    /// Emits as [`transmit`](Self::transmit) does what may go out within a window, in bytes from SND.UNA, as congestion
    /// control sets it (RFC 5681, 3.1). What ends past it waits, unless it begins at SND.UNA; `u64::MAX` holds nothing
    /// back. A pending acknowledgement goes out alone where what is due waits, and before anything that goes out again:
    /// so it is at SND.NXT, where no peer finds it old (RFC 9293, 3.10.7.4). `None`, and nothing changes, where nothing
    /// may go out.
    #[must_use]
    #[tactic(auto, using(crate::proofs::Segments::segment_short), unfolding(crate::specs::Within::transmit_within, crate::specs::Within::buffer_within, crate::specs::Within::after_within, crate::specs::Writing::written_of))]
    pub fn transmit_within(&mut self, window: u64, out: &mut [u8]) -> Option<Transmit>
        requires { EMIT_ROOM ≤ length out.old }
        ensures report { result ≡ transmit_within self.old window }
        ensures most { IfSome result (λ sent. sent.len ≤ EMIT_ROOM) }
        ensures ends { IfSome result (λ sent. sent.end ≤ 2 + stream_limit) }
        ensures bytes { out.new ≡ buffer_within self.old window out.old }
        ensures state { self.new ≡ after_within self.old window }
        ensures within { IsWithin self.new }
    {
        // So that the proof knows what always holds of an end.
        let _ = &self.config;
        let due = self.due_within(window)?;
        self.alone_fits(due, out.len());
        let sent = self.send_out(due, Sum::Whole, out);
        // So that the proof knows what always holds of an end.
        let _ = &self.config;
        Some(sent)
    }
}
