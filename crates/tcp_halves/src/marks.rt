//! Marks (RFC 2018, 5): what the blocks that the peer reports change in the half that sends.
ghost use Rattle.std.specs.Prelude.{◌≡◌, ◌≤◌, length, map};
ghost use Rattle.tcp_wire.specs.Position.{position_of};
ghost use Rattle.tcp_wire.specs.View.{block};
ghost use Rattle.tcp_halves.specs.Marks.{after_block, after_blocks, reported_blocks};

use crate::sender::Sender;
use std::alloc::Allocator;
use tcp_wire::{OptionsLeft, Seq, TcpOption};

impl<A: Allocator> Sender<A> {
    /// The position that a number is read as: the nearest to SND.UNA (RFC 9293, 3.4).
    fn position_of(&self, iss: Seq, number: Seq) -> u64
        ensures { result ≡ position_of iss.0 self.now.snd_una number.0 }
    {
        number.position(iss, self.snd_una)
    }

    /// Marks the text of a block of what is in flight (RFC 2018, 5), never the FIN.
    #[tactic(auto, unfolding(crate::specs::Marks::after_block, tcp_sendq::specs::SendQueue::after_mark))]
    fn mark(&mut self, left: u64, right: u64)
        ensures state { self.new ≡ after_block self.old left right }
        ensures snd_una { self.new.snd_una ≡ self.old.snd_una }
        ensures capacity { self.new.queue.capacity ≡ self.old.queue.capacity }
        ensures queued { length self.new.queue.bytes ≤ self.new.queue.capacity }
    {
        let from = self.place_of(left);
        let to = self.count_below(right);
        let of_flight = self.snd_una < left && left < right && right <= self.snd_nxt;
        if of_flight && from < to as u64 {
            self.queue.mark(from as usize, to);
        }
    }

    /// Marks the text of each block in turn, its edges read near SND.UNA.
    fn mark_blocks(&mut self, iss: Seq, blocks: &[(Seq, Seq)])
        ensures state { self.new ≡ after_blocks iss.0 self.old (map block blocks.now) }
        ensures capacity { self.new.queue.capacity ≡ self.old.queue.capacity }
        ensures queued { length self.new.queue.bytes ≤ self.new.queue.capacity }
    {
        match blocks {
            [] => {
                // So that the proof knows the invariant of a sender.
                let _ = &self.snd_una;
            }
            [first, rest @ ..] => {
                let left = self.position_of(iss, first.0);
                let right = self.position_of(iss, first.1);
                self.mark(left, right);
                self.mark_blocks(iss, rest);
            }
        }
    }

    /// Marks the text of the blocks of all options (RFC 2018, 5). `iss` is ISS.
    pub fn mark_reported(&mut self, iss: Seq, options: OptionsLeft<'_>)
        ensures state { self.new ≡ after_blocks iss.0 self.old (reported_blocks options.entry) }
        ensures capacity { self.new.queue.capacity ≡ self.old.queue.capacity }
        ensures queued { length self.new.queue.bytes ≤ self.new.queue.capacity }
    {
        // So that the proof knows the invariant of a sender.
        let _ = &self.snd_una;
        let mut left = options;
        while let Some(option) = left.next() {
            if let TcpOption::Sack(blocks) = option {
                self.mark_blocks(iss, blocks.as_slice());
            }
        }
    }
}
