//! Segments of new text as one, for a device that cuts them and computes their checksums (segmentation offload).
ghost use Rattle.std.specs.Prelude.{◌≡◌, ◌<◌, ◌≤◌, ◌+◌, ◌-◌, Some, ℕ, length, option_map, IfSome};
ghost use Rattle.tcp_sendq.specs.SendQueue.{max_capacity};
ghost use Rattle.tcp_halves.specs.Config.{max_mss, stream_limit};
ghost use Rattle.tcp_halves.specs.declared.sent.Sent.TheVariants.{NewText};
ghost use Rattle.tcp_conn.specs.declared.emit.due.Due.TheVariants.{Text};
ghost use Rattle.tcp_conn.specs.Due.{IsSendable, due_of};
ghost use Rattle.tcp_conn.specs.Emission.{destination, state_after};
ghost use Rattle.tcp_conn.specs.State.{IsWithin};
ghost use Rattle.tcp_conn.specs.Train.{IsTogether, after_emissions, as_one, count_together, emissions, text_allowed, text_as_one, train_after, train_count, train_end, train_length, train_segments, train_text, train_with};
ghost use Rattle.tcp_conn.specs.TrainWithin.{train_of};
ghost use Rattle.tcp_conn.specs.Transmission.{count_due, kind_due, position_due};
ghost use Rattle.tcp_conn.specs.Writing.{IsWritable};

use crate::emit::due::Due;
use crate::emit::transmit::{EMIT_ROOM, Transmit};
use crate::emit::write::Sum;
use crate::endpoint::Endpoint;
use std::alloc::Allocator;
use tcp_halves::Sent;

/// The greatest length of a train in bytes: that of a segment in an IPv4 packet.
pub const TRAIN_ROOM: usize = 65_515;

/// Segments that were emitted as one.
#[derive(Clone, Copy, Debug, PartialEq, Eq)]
pub struct Train {
    /// What it is as one segment: where it goes and begins, its kind, its length in bytes with its header, and the
    /// length of all its text.
    pub whole: Transmit,
    /// The length of the header in bytes with options, which is that of each segment.
    pub header: usize,
    /// The length of the text of each segment but the last, which has the rest, in bytes.
    pub each: usize,
    /// How many segments it is.
    pub segments: usize,
}

impl<A: Allocator> Endpoint<A> {
    /// How much new text the queue and the peer's window allow, in bytes.
    pub(crate) fn text_allowed(&self) -> usize
        ensures value { result ≡ text_allowed self.now.sending }
        ensures most { result ≤ max_capacity }
    {
        let sender = &self.sender;
        if sender.snd_nxt <= sender.released {
            return 0;
        }
        let unsent = sender.queue.len() - sender.count_below(sender.snd_nxt);
        let usable = (sender.snd_una + u64::from(sender.snd_wnd)).saturating_sub(sender.snd_nxt);
        usable.min(unsent as u64) as usize
    }

    /// How many segments go out as one.
    #[tactic(auto, using(crate::proofs::Trains::new_text_not_empty, crate::proofs::Together::together, crate::proofs::Segments::offset_of_report))]
    pub(crate) fn count_together(&self, due: Due, most: usize, room: usize) -> usize
        requires due { (start each : ℕ) → due ≡ Text (NewText start each) → due_of self.now ≡ Some due }
        requires sendable { IsSendable self.now.sending max_mss due }
        requires room { EMIT_ROOM ≤ room }
        ensures value { result ≡ count_together self.now most room due }
        ensures some { 0 < result }
        ensures together { (start each : ℕ) → due ≡ Text (NewText start each) → 1 < result → IsTogether self.now start each result room }
    {
        let Due::Text(Sent::NewText(_, each)) = due else {
            return 1;
        };
        let with_room = (room.min(TRAIN_ROOM) - self.text_start()) / each;
        let for_text = (self.text_allowed() + (each - 1)) / each;
        usize::max(1, most.min(with_room.min(for_text)))
    }

    /// The length in bytes of the text of so many segments as one.
    fn text_as_one(&self, start: u64, each: usize, segments: usize, room: usize) -> usize
        requires room { EMIT_ROOM ≤ room }
        requires together { IsTogether self.now start each segments room }
        ensures value { result ≡ text_as_one self.now.sending segments each }
        ensures writable { IsWritable self.now (Text (NewText start result)) room }
    {
        // So that the proof knows the invariant of a sender.
        let _ = &self.sender.snd_nxt;
        each.max((segments * each).min(self.text_allowed()))
    }

    /// What is due as one segment with the text of so many.
    pub(crate) fn as_one(&self, due: Due, segments: usize, room: usize) -> Due
        requires sendable { IsSendable self.now.sending max_mss due }
        requires some { 0 < segments }
        requires room { EMIT_ROOM ≤ room }
        requires together { (start each : ℕ) → due ≡ Text (NewText start each) → 1 < segments → IsTogether self.now start each segments room }
        ensures value { result ≡ as_one self.now segments due }
        ensures writable { IsWritable self.now result room }
    {
        self.alone_fits(due, room);
        if segments == 1 {
            return due;
        }
        match due {
            Due::Text(sent) => match sent {
                Sent::NewText(start, each) => {
                    let count = self.text_as_one(start, each, segments, room);
                    Due::Text(Sent::NewText(start, count))
                }
                Sent::Resend(..) | Sent::Fin(_) | Sent::ResentFin(_) => due,
            },
            Due::Reset | Due::Syn | Due::Acknowledgement => due,
        }
    }

    /// What may go out goes out, as one with the text of as many segments as go together, at most `most`.
    #[inline(always)]
    #[tactic(auto, unfolding(crate::specs::Writing::written_of, crate::specs::Writing::bytes_of))]
    pub(crate) fn send_together(&mut self, due: Due, most: usize, out: &mut [u8]) -> Train
        requires due { (start each : ℕ) → due ≡ Text (NewText start each) → due_of self.old ≡ Some due }
        requires sendable { IsSendable self.old.sending max_mss due }
        requires room { EMIT_ROOM ≤ length out.old }
        ensures train { result ≡ train_of self.old (count_together self.old most (length out.old) due) due }
        ensures ends { result.whole.end ≤ 2 + stream_limit }
        ensures some { 0 < result.segments }
        ensures bytes { out.new ≡ train_with self.old (count_together self.old most (length out.old) due) (Some due) out.old }
        ensures state { self.new ≡ state_after self.old (as_one self.old (count_together self.old most (length out.old) due) due) }
    {
        let segments = self.count_together(due, most, out.len());
        let one = self.as_one(due, segments, out.len());
        let whole = self.send_out(one, Sum::Partial, out);
        Train {
            whole,
            header: whole.len.saturating_sub(whole.count),
            each: due.count(),
            segments,
        }
    }

    /// Emits the segments that are due as one, for a device that cuts them and computes their checksums: as many of new
    /// text as the peer's window allows, at most `most`, that `out` has room for; anything else goes alone. All but the
    /// last have as much text as the first. The bytes are one segment with all the text, as
    /// [`emit_partial`](Endpoint::emit_partial) writes it, and what the device makes of it are the segments that as many
    /// calls of [`emit`](Endpoint::emit) would have written, whose state the end then has. `out` has room for
    /// [`EMIT_ROOM`] bytes, and no more than [`TRAIN_ROOM`] are used. `None`, and nothing changes, exactly where none is
    /// due.
    #[must_use]
    #[tactic(auto, using(crate::proofs::Trains::train_is_cut, crate::proofs::Trains::after_train, crate::proofs::Trains::kind_as_one, crate::proofs::Trains::start_as_one, crate::proofs::Trains::destination_as_one, crate::proofs::Together::none_emitted), unfolding(crate::specs::Emission::destination, crate::specs::Transmission::kind_due, crate::specs::Transmission::position_due, crate::specs::Transmission::count_due, crate::specs::Train::train_count, crate::specs::Train::train_length, crate::specs::Train::train_text, crate::specs::Train::train_end, crate::specs::Train::train_after, crate::specs::Writing::written_of, crate::specs::Writing::bytes_of))]
    pub fn emit_train(&mut self, out: &mut [u8], most: usize) -> Option<Train>
        requires { EMIT_ROOM ≤ length out.old }
        ensures destination { option_map (λ train. train.whole.to.0) result ≡ destination self.old }
        ensures kind { option_map (λ train. train.whole.kind) result ≡ kind_due self.old }
        ensures position { option_map (λ train. train.whole.position) result ≡ position_due self.old }
        ensures end { option_map (λ train. train.whole.end) result ≡ train_end self.old (train_count self.old most (length out.old)) }
        ensures each { option_map (λ train. train.each) result ≡ count_due self.old }
        ensures segments { IfSome result (λ train. train.segments ≡ train_count self.old most (length out.old)) }
        ensures len { option_map (λ train. train.whole.len) result ≡ train_length self.old (train_count self.old most (length out.old)) }
        ensures text { option_map (λ train. train.whole.count) result ≡ train_text self.old (train_count self.old most (length out.old)) }
        ensures header { IfSome result (λ train. train.header ≡ train.whole.len - train.whole.count) }
        ensures bytes { out.new ≡ train_after self.old (train_count self.old most (length out.old)) out.old }
        // What the device makes of it is what so many emissions write.
        ensures cut { train_segments self.old (train_count self.old most (length out.old)) ≡ emissions (train_count self.old most (length out.old)) self.old }
        ensures state { self.new ≡ after_emissions (train_count self.old most (length out.old)) self.old }
        ensures within { IsWithin self.new }
    {
        // So that the proof knows the invariant of an end.
        let _ = &self.config;
        let due = self.due()?;
        let train = self.send_together(due, most, out);
        // So that the proof knows the invariant of an end.
        let _ = &self.config;
        Some(train)
    }
}
