//! Segments go out (RFC 9293, 3.7, 3.8 and 3.10): what is due is written, reported, and counted as sent.
ghost use Rattle.std.specs.Prelude.{◌≡◌, ◌≤◌, ◌+◌, ◌++◌, IfSome, length, take, drop, option_map};
ghost use Rattle.tcp_wire.specs.Partial.{completed};
ghost use Rattle.tcp_wire.specs.Wire.{header_len, max_text_len, wire_length};
ghost use Rattle.tcp_halves.specs.Config.{max_mss, stream_limit};
ghost use Rattle.tcp_conn.specs.declared.emit.write.Sum.TheVariants.{Partial};
ghost use Rattle.tcp_conn.specs.Due.{IsSendable, count_of, end_of, start_of};
ghost use Rattle.tcp_conn.specs.Emission.{ack_alone_destination, ack_alone_length, after_ack_alone, after_emission, buffer_after, buffer_after_ack_alone, destination, emitted_bytes, pending_length, state_after};
ghost use Rattle.tcp_conn.specs.Forms.{plain_segment, segment_of};
ghost use Rattle.tcp_conn.specs.Partial.{partial_after};
ghost use Rattle.tcp_conn.specs.State.{IsWithin};
ghost use Rattle.tcp_conn.specs.Transmission.{count_due, kind_due, kind_of, position_due, transmit_ack_alone, transmit_due, transmit_of};
ghost use Rattle.tcp_conn.specs.Writing.{IsWritable, bytes_of, destination_of, written_of};

use crate::emit::due::Due;
use crate::emit::write::Sum;
use crate::endpoint::Endpoint;
use std::alloc::Allocator;
use tcp_halves::Sent;
use tcp_wire::{Addr, HEADER_LEN};

/// The room that `emit` requires, in bytes: more than the longest segment that an end writes.
pub const EMIT_ROOM: usize = 1520;

/// The kind of a segment that an end emits.
#[derive(Clone, Copy, Debug, PartialEq, Eq)]
pub enum Kind {
    /// A reset (RFC 9293, 3.5.2).
    Reset,
    /// This end's SYN, for the first time or again, with an acknowledgement once the peer's was taken (RFC 9293, 3.5).
    Syn,
    /// Text that is sent for the first time, also the byte of a zero-window probe (RFC 9293, 3.8.6.1).
    NewText,
    /// Text that is retransmitted (RFC 9293, 3.8.1).
    TextAgain,
    /// This end's FIN for the first time (RFC 9293, 3.6).
    Fin,
    /// This end's FIN, retransmitted (RFC 9293, 3.8.1).
    FinAgain,
    /// An acknowledgement without text (RFC 9293, 3.8.6.3).
    Acknowledgement,
}

/// A segment that was emitted, or would be.
#[derive(Clone, Copy, Debug, PartialEq, Eq)]
pub struct Transmit {
    /// The address that it goes to.
    pub to: Addr,
    /// Its length in bytes, with its header.
    pub len: usize,
    /// What it is.
    pub kind: Kind,
    /// Where it begins, as a position of this end's direction: the SYN is at 0, byte i of the stream at 1 + i, the FIN
    /// after the last byte, an acknowledgement at SND.NXT. It is 0 for a reset.
    pub position: u64,
    /// The position after it: SYN, text and FIN take sequence numbers (RFC 9293, 3.4). It is 0 for a reset.
    pub end: u64,
    /// The length of its text in bytes.
    pub count: usize,
}

/// The kind of what is due.
fn kind_of(due: Due) -> Kind
    ensures { result ≡ kind_of due }
{
    match due {
        Due::Reset => Kind::Reset,
        Due::Syn => Kind::Syn,
        Due::Text(Sent::NewText(..)) => Kind::NewText,
        Due::Text(Sent::Resend(..)) => Kind::TextAgain,
        Due::Text(Sent::Fin(_)) => Kind::Fin,
        Due::Text(Sent::ResentFin(_)) => Kind::FinAgain,
        Due::Acknowledgement => Kind::Acknowledgement,
    }
}

impl<A: Allocator> Endpoint<A> {
    /// The length in bytes of a segment that may have text.
    #[tactic(auto, using(crate::proofs::Segments::plain_segment_due))]
    fn length_of_plain(&self, due: Due) -> usize
        requires { IsSendable self.now.sending max_mss due }
        ensures value { result ≡ wire_length (plain_segment self.now due) }
        ensures most { result ≤ EMIT_ROOM }
    {
        HEADER_LEN + usize::from(self.report_len()) + due.count()
    }

    /// The length in bytes of the segment that is due.
    #[tactic(auto, using(crate::proofs::Segments::length_syn_segment), unfolding(crate::specs::Forms::segment_of))]
    fn length_of(&self, due: Due) -> usize
        requires sendable { IsSendable self.now.sending max_mss due }
        ensures value { result ≡ wire_length (segment_of self.now due) }
        ensures least { header_len ≤ result }
        ensures most { result ≤ EMIT_ROOM }
    {
        match due {
            Due::Reset if self.pending.reset.is_some() => HEADER_LEN,
            Due::Syn => {
                let scale = if self.shift_offered().is_some() { 4 } else { 0 };
                let sack = if self.is_sack_offered() { 4 } else { 0 };
                HEADER_LEN + 4 + scale + sack
            }
            Due::Reset | Due::Text(_) | Due::Acknowledgement => self.length_of_plain(due),
        }
    }

    /// The length in bytes of the segment that `emit` would write now; `None` where none is due.
    #[must_use]
    #[tactic(auto, unfolding(crate::specs::Emission::pending_length))]
    pub fn pending(&self) -> Option<usize>
        ensures value { result ≡ pending_length self.now }
        ensures least { IfSome result (λ len. header_len ≤ len) }
        ensures most { IfSome result (λ len. len ≤ EMIT_ROOM) }
    {
        let due = self.due()?;
        Some(self.length_of(due))
    }

    /// The length in bytes of the segment that `emit_acknowledgement` would write now, if one is pending.
    #[must_use]
    #[tactic(auto, unfolding(crate::specs::Emission::ack_alone_length))]
    pub fn pending_acknowledgement(&self) -> Option<usize>
        ensures value { result ≡ ack_alone_length self.now }
        ensures least { IfSome result (λ len. header_len ≤ len) }
        ensures most { IfSome result (λ len. len ≤ EMIT_ROOM) }
    {
        let due = self.ack_alone()?;
        Some(self.length_of(due))
    }

    /// What is reported of a segment of this length.
    #[inline(always)]
    fn transmit_of(&self, due: Due, len: usize) -> Transmit
        requires sendable { IsSendable self.now.sending max_text_len due }
        ensures to { result.to ≡ (destination_of self.now due).addr }
        ensures len { result.len ≡ len }
        ensures kind { result.kind ≡ kind_of due }
        ensures position { result.position ≡ start_of self.now.sending due }
        ensures end { result.end ≡ end_of self.now.sending due }
        ensures ends { result.end ≤ 2 + stream_limit }
        ensures count { result.count ≡ count_of due }
    {
        Transmit {
            to: self.destination(due),
            len,
            kind: kind_of(due),
            position: self.start_of(due),
            end: self.end_of(due),
            count: due.count(),
        }
    }

    /// What was due was emitted.
    #[inline(always)]
    #[tactic(auto, using(crate::proofs::Segments::nxt_of_reset, crate::proofs::Segments::nxt_of_acknowledgement))]
    fn mark_sent(&mut self, due: Due)
        requires { IsSendable self.old.sending max_text_len due }
        ensures { self.new ≡ state_after self.old due }
    {
        match due {
            Due::Reset => self.pending.reset = None,
            Due::Syn => {
                self.sender.mark_syn_sent();
                self.pending.syn = false;
                self.pending.ack = self.pending.ack && !self.receiver.opened;
            }
            Due::Text(sent) => {
                self.sender.mark_sent(sent);
                self.pending.ack = false;
                if matches!(sent, Sent::NewText(..)) {
                    self.pending.probe = false;
                }
            }
            Due::Acknowledgement => self.pending.ack = false,
        }
    }

    /// What is due alone can be written where there is room for the longest segment. It does nothing when it runs:
    /// callers learn the fact.
    pub(crate) fn alone_fits(&self, due: Due, room: usize)
        requires sendable { IsSendable self.now.sending max_mss due }
        requires room { EMIT_ROOM ≤ room }
        ensures { IsWritable self.now due room }
    {}

    /// Writes what is due at the start of `out`, reports it, and counts it as sent.
    #[inline(always)]
    pub(crate) fn send_out(&mut self, due: Due, sum: Sum, out: &mut [u8]) -> Transmit
        requires { IsWritable self.old due (length out.old) }
        ensures report { result ≡ transmit_of self.old due }
        ensures ends { result.end ≤ 2 + stream_limit }
        ensures bytes { out.new ≡ written_of sum self.old due ++ drop (wire_length (segment_of self.old due)) out.old }
        ensures completes { sum ≡ Partial → completed (take result.len out.new) ≡ bytes_of self.old due }
        ensures state { self.new ≡ state_after self.old due }
    {
        let len = self.write(due, sum, out);
        let sent = self.transmit_of(due, len);
        self.mark_sent(due);
        sent
    }

    /// Writes the segment that is due at the start of `out`, which has room for [`EMIT_ROOM`] bytes. Returns where it
    /// goes and its length, at most that (RFC 9293, 3.7, 3.8 and 3.10). `None`, and nothing changes, exactly where none
    /// is due.
    #[must_use]
    pub fn emit(&mut self, out: &mut [u8]) -> Option<(Addr, usize)>
        requires { EMIT_ROOM ≤ length out.old }
        ensures destination { option_map (λ sent. sent.0.0) result ≡ destination self.old }
        ensures len { option_map (λ sent. sent.1) result ≡ pending_length self.old }
        ensures most { IfSome result (λ sent. sent.1 ≤ EMIT_ROOM) }
        ensures bytes { out.new ≡ buffer_after self.old out.old }
        ensures state { self.new ≡ after_emission self.old }
        ensures within { IsWithin self.new }
    {
        let sent = self.transmit(out)?;
        Some((sent.to, sent.len))
    }

    /// Emits as [`emit`](Self::emit) does, and reports what the segment is, the positions where it begins and ends, and
    /// the length of its text.
    #[must_use]
    #[inline(always)]
    #[tactic(auto, using(crate::proofs::Segments::segment_short), unfolding(crate::specs::Emission::pending_length, crate::specs::Emission::destination, crate::specs::Emission::buffer_after, crate::specs::Emission::after_emission, crate::specs::Transmission::kind_due, crate::specs::Transmission::position_due, crate::specs::Transmission::count_due, crate::specs::Transmission::transmit_due, crate::specs::Writing::written_of))]
    pub fn transmit(&mut self, out: &mut [u8]) -> Option<Transmit>
        requires { EMIT_ROOM ≤ length out.old }
        ensures report { result ≡ transmit_due self.old }
        ensures destination { option_map (λ sent. sent.to.0) result ≡ destination self.old }
        ensures len { option_map (λ sent. sent.len) result ≡ pending_length self.old }
        ensures most { IfSome result (λ sent. sent.len ≤ EMIT_ROOM) }
        ensures kind { option_map (λ sent. sent.kind) result ≡ kind_due self.old }
        ensures position { option_map (λ sent. sent.position) result ≡ position_due self.old }
        ensures count { option_map (λ sent. sent.count) result ≡ count_due self.old }
        ensures ends { IfSome result (λ sent. sent.end ≤ 2 + stream_limit) }
        ensures bytes { out.new ≡ buffer_after self.old out.old }
        ensures state { self.new ≡ after_emission self.old }
        ensures within { IsWithin self.new }
    {
        // So that the proof knows what always holds of an end.
        let _ = &self.config;
        let due = self.due()?;
        self.alone_fits(due, out.len());
        let sent = self.send_out(due, Sum::Whole, out);
        // So that the proof knows what always holds of an end.
        let _ = &self.config;
        Some(sent)
    }

    /// What `transmit` would report now; nothing is written, and nothing changes. `None` where nothing is due.
    #[must_use]
    #[tactic(auto, using(crate::proofs::Segments::sendable_as_text), unfolding(crate::specs::Emission::pending_length, crate::specs::Emission::destination, crate::specs::Transmission::kind_due, crate::specs::Transmission::position_due, crate::specs::Transmission::count_due, crate::specs::Transmission::transmit_due))]
    pub fn next_transmit(&self) -> Option<Transmit>
        ensures report { result ≡ transmit_due self.now }
        ensures destination { option_map (λ next. next.to.0) result ≡ destination self.now }
        ensures len { option_map (λ next. next.len) result ≡ pending_length self.now }
        ensures most { IfSome result (λ next. next.len ≤ EMIT_ROOM) }
        ensures kind { option_map (λ next. next.kind) result ≡ kind_due self.now }
        ensures position { option_map (λ next. next.position) result ≡ position_due self.now }
        ensures count { option_map (λ next. next.count) result ≡ count_due self.now }
        ensures ends { IfSome result (λ next. next.end ≤ 2 + stream_limit) }
    {
        let due = self.due()?;
        let len = self.length_of(due);
        Some(self.transmit_of(due, len))
    }

    /// Writes an acknowledgement without data at the start of `out`, which has room for [`EMIT_ROOM`] bytes, though data
    /// or the FIN is due, as where data that must be sent again has to wait (RFC 9293, 3.8.6.3). It is reported as
    /// [`transmit`](Self::transmit) reports what it emits. `None`, and nothing changes, exactly where no acknowledgement
    /// is pending or a reset or SYN comes before it.
    #[must_use]
    #[tactic(auto, using(crate::proofs::Segments::segment_short), unfolding(crate::specs::Emission::ack_alone_length, crate::specs::Emission::ack_alone_destination, crate::specs::Emission::buffer_after_ack_alone, crate::specs::Emission::after_ack_alone, crate::specs::Transmission::transmit_ack_alone, crate::specs::Writing::written_of))]
    pub fn emit_acknowledgement(&mut self, out: &mut [u8]) -> Option<Transmit>
        requires { EMIT_ROOM ≤ length out.old }
        ensures report { result ≡ transmit_ack_alone self.old }
        ensures destination { option_map (λ sent. sent.to.0) result ≡ ack_alone_destination self.old }
        ensures len { option_map (λ sent. sent.len) result ≡ ack_alone_length self.old }
        ensures most { IfSome result (λ sent. sent.len ≤ EMIT_ROOM) }
        ensures ends { IfSome result (λ sent. sent.end ≤ 2 + stream_limit) }
        ensures bytes { out.new ≡ buffer_after_ack_alone self.old out.old }
        ensures state { self.new ≡ after_ack_alone self.old }
        ensures within { IsWithin self.new }
    {
        // So that the proof knows what always holds of an end.
        let _ = &self.config;
        let due = self.ack_alone()?;
        self.alone_fits(due, out.len());
        let sent = self.send_out(due, Sum::Whole, out);
        // So that the proof knows what always holds of an end.
        let _ = &self.config;
        Some(sent)
    }

    /// Emits as [`emit`](Endpoint::emit) does, for a device that computes the checksum. The checksum field has the
    /// ones' complement sum of the pseudo-header alone (RFC 9293, 3.1; RFC 1071, 2), and no text is summed. The device
    /// sums all that was written, and puts the complement of the ones' complement sum into the field: then the bytes
    /// are those of `emit`.
    #[must_use]
    #[tactic(auto, using(crate::proofs::Segments::segment_short), unfolding(crate::specs::Emission::pending_length, crate::specs::Emission::destination, crate::specs::Emission::emitted_bytes, crate::specs::Emission::after_emission, crate::specs::Partial::partial_of, crate::specs::Partial::partial_after, crate::specs::Writing::written_of))]
    pub fn emit_partial(&mut self, out: &mut [u8]) -> Option<(Addr, usize)>
        requires { EMIT_ROOM ≤ length out.old }
        ensures destination { option_map (λ sent. sent.0.0) result ≡ destination self.old }
        ensures len { option_map (λ sent. sent.1) result ≡ pending_length self.old }
        ensures most { IfSome result (λ sent. sent.1 ≤ EMIT_ROOM) }
        ensures bytes { out.new ≡ partial_after self.old out.old }
        // What the device makes of it is what `emit` writes.
        ensures completes { option_map (λ sent. completed (take sent.1 out.new)) result ≡ emitted_bytes self.old }
        ensures state { self.new ≡ after_emission self.old }
        ensures within { IsWithin self.new }
    {
        // So that the proof knows the invariant of an end.
        let _ = &self.config;
        let due = self.due()?;
        self.alone_fits(due, out.len());
        let sent = self.send_out(due, Sum::Partial, out);
        // So that the proof knows the invariant of an end.
        let _ = &self.config;
        Some((sent.to, sent.len))
    }

    /// Counts the segment that is due as sent: the end is as after an [`emit`](Endpoint::emit). Call it right after the
    /// segment of [`parts`](Endpoint::parts) was sent: a call, an arrival or a timer in between may make another
    /// segment due, which then counts as sent. Nothing changes where none is due.
    #[tactic(auto, using(crate::proofs::Segments::sendable_as_text), unfolding(crate::specs::Emission::after_emission))]
    pub fn sent(&mut self)
        ensures state { self.new ≡ after_emission self.old }
        ensures within { IsWithin self.new }
    {
        // So that the proof knows the invariant of an end.
        let _ = &self.config;
        if let Some(due) = self.due() {
            self.mark_sent(due);
        }
        // So that the proof knows the invariant of an end.
        let _ = &self.config;
    }
}
