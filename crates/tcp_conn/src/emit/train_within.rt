//! Segments of new text as one, within a window of the caller's (RFC 5681, 3.1).
ghost use Rattle.std.specs.Prelude.{◌≡◌, ◌<◌, ◌≤◌, ◌+◌, ◌-◌, ◌*◌, IfSome, Some, length, ℕ};
ghost use Rattle.tcp_halves.specs.Config.{stream_limit};
ghost use Rattle.tcp_halves.specs.declared.sent.Sent.TheVariants.{NewText};
ghost use Rattle.tcp_conn.specs.declared.emit.due.Due.TheVariants.{Text};
ghost use Rattle.tcp_conn.specs.Due.{due_of};
ghost use Rattle.tcp_conn.specs.State.{IsWithin};
ghost use Rattle.tcp_conn.specs.TrainWithin.{AreInTurn, after_emissions_within, count_within, emissions_within, most_within, train_buffer_within, train_segments_within, train_within};

use crate::emit::due::Due;
use crate::emit::train::Train;
use crate::emit::transmit::EMIT_ROOM;
use crate::endpoint::Endpoint;
use std::alloc::Allocator;
use tcp_halves::Sent;

impl<A: Allocator> Endpoint<A> {
    /// How many may go out as one at most, where `most` may without a window.
    #[tactic(auto, using(crate::proofs::Trains::new_text_not_empty))]
    fn most_within(&self, due: Due, window: u64, most: usize) -> usize
        requires due { (start each : ℕ) → due ≡ Text (NewText start each) → due_of self.now ≡ Some due }
        ensures { result ≡ most_within self.now.sending window most due }
    {
        let Due::Text(Sent::NewText(_, each)) = due else {
            return most;
        };
        let flight = self.sender.snd_nxt.saturating_sub(self.sender.snd_una);
        let left = window.saturating_sub(flight);
        if self.text_allowed() as u64 <= left {
            return most;
        }
        most.min(left as usize / each)
    }

    /// Emits as [`emit_train`](Self::emit_train) does, for a device that cuts and computes checksums, what may go out within
    /// a window, in bytes from SND.UNA, as [`transmit_within`](Self::transmit_within) has it: as many segments of new text
    /// as end within it, and a pending acknowledgement alone where what is due waits. With a `most` of 1 it is one segment
    /// for a device that sums. What the device makes of it are the segments that as many calls of `transmit_within` would
    /// have written, whose state the end then has. `None`, and nothing changes, where nothing may go out.
    #[must_use]
    #[tactic(auto, using(crate::proofs::TrainsWithin::new_text_is_due, crate::proofs::TrainsWithin::train_is_cut_within, crate::proofs::TrainsWithin::after_train_within, crate::proofs::TrainsWithin::none_emitted_within, crate::proofs::TrainsWithin::train_is_in_turn, crate::proofs::TrainsWithin::train_is_whole), unfolding(crate::specs::TrainWithin::count_within, crate::specs::TrainWithin::train_within, crate::specs::TrainWithin::train_buffer_within))]
    pub fn train_within(&mut self, window: u64, out: &mut [u8], most: usize) -> Option<Train>
        requires { EMIT_ROOM ≤ length out.old }
        ensures train { result ≡ train_within self.old window most (length out.old) }
        ensures bytes { out.new ≡ train_buffer_within self.old window most out.old }
        // What the device makes of it is what so many emissions write.
        ensures cut { train_segments_within self.old window most (length out.old) ≡ emissions_within (count_within self.old window most (length out.old)) window self.old }
        ensures whole { IfSome result (λ train. train.whole.position + (train.segments - 1) * train.each ≤ train.whole.end) }
        ensures ends { IfSome result (λ train. train.whole.end ≤ 2 + stream_limit) }
        ensures some { IfSome result (λ train. 0 < train.segments) }
        ensures turns { IfSome result (λ train. AreInTurn (train.segments - 1) self.old window train.each train.whole.position train.whole.end) }
        ensures state { self.new ≡ after_emissions_within (count_within self.old window most (length out.old)) window self.old }
        ensures within { IsWithin self.new }
    {
        // So that the proof knows what always holds of an end.
        let _ = &self.config;
        let _ = &self.sender.snd_nxt;
        let due = self.due_within(window)?;
        let most = self.most_within(due, window, most);
        let train = self.send_together(due, most, out);
        // So that the proof knows what always holds of an end.
        let _ = &self.config;
        Some(train)
    }
}
