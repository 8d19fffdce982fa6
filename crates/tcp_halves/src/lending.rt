//! What both halves lend of their buffers, and how bytes are consumed without a copy.
ghost use Rattle.std.specs.Prelude.{◌≡◌, ◌+◌, ◌<◌, ◌++◌, length, min};
ghost use Rattle.tcp_wire.specs.Checksum.{AreBytes};
ghost use Rattle.tcp_wire.specs.Wire.{max_text_len};
ghost use Rattle.tcp_halves.specs.Sent.{IsSendable, count_of, text_of};
ghost use Rattle.tcp_halves.specs.Receiver.{after_delivering};

use crate::receiver::Receiver;
use crate::sender::Sender;
use crate::sent::Sent;
use std::alloc::Allocator;

impl<A: Allocator> Receiver<A> {
    /// Removes the first unread bytes, at most `most` of them, and returns how many.
    #[tactic(auto, using(crate::proofs::Placing::whole_read, crate::proofs::Placing::capacity_read))]
    pub fn consume(&mut self, most: usize) -> usize
        ensures count { result ≡ min most (length self.old.inbox.unread) }
        ensures state { self.new ≡ after_delivering self.old most }
        ensures capacity { self.new.inbox.capacity ≡ self.old.inbox.capacity }
        ensures whole { length self.new.inbox.unread + length self.new.inbox.held ≡ self.new.inbox.capacity }
    {
        self.inbox.consume(most)
    }
}

/// Two slices hold bytes, also one after the other. It does nothing when it runs: callers learn the fact.
fn are_bytes(first: &[u8], second: &[u8])
    ensures { AreBytes (first.now ++ second.now) }
{
    let _first = first.len();
    let _second = second.len();
}

impl<A: Allocator> Sender<A> {
    /// The text of what is due, where it lies in the queue, in two parts. The first is empty only where there is no
    /// text.
    pub fn text(&self, sent: Sent) -> (&[u8], &[u8])
        requires sendable { IsSendable self.now max_text_len sent }
        ensures text { result.0.now ++ result.1.now ≡ text_of self.now sent }
        ensures bytes { AreBytes (result.0.now ++ result.1.now) }
        ensures first { 0 < count_of sent → 0 < length result.0.now }
    {
        let count = sent.count();
        if count == 0 {
            return (&[], &[]);
        }
        let place = self.place_of(sent.start());
        let (first, second) = self.queue.lend(place as usize, count);
        are_bytes(first, second);
        (first, second)
    }
}
