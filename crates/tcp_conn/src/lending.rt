//! What an end lends of its buffers, so that bytes aren't copied twice.
ghost use Rattle.std.specs.Prelude.{◌≡◌, ◌<◌, ◌++◌, length, None, Some, IfOk, MatchResult};
ghost use Rattle.tcp_conn.specs.Calls.{after_receive, receive_refusal};
ghost use Rattle.tcp_conn.specs.Lending.{consume_answer};
ghost use Rattle.tcp_conn.specs.State.{IsWithin};

use crate::endpoint::Endpoint;
use crate::outcome::CallError;
use crate::phases::takes_text;
use std::alloc::Allocator;

/// The unread bytes where they lie: all of `front`, then all of `back` (RFC 9293, 3.10.3).
#[derive(Clone, Copy, Debug)]
pub struct Lent<'a> {
    /// The first unread bytes; empty only where none is unread.
    pub front: &'a [u8],
    /// The unread bytes after those.
    pub back: &'a [u8],
    /// Whether the peer has closed, so that no bytes follow. Where nothing is unread, `receive` answers `EndOfStream`
    /// if this is true, else `Nothing`.
    pub ends: bool,
}

impl<A: Allocator> Endpoint<A> {
    /// Lends all unread bytes, in two parts, for a user who reads them where they lie (RFC 9293, 3.10.3). Nothing
    /// changes: what was read is removed by [`consume`](Endpoint::consume). Refused as [`receive`](Endpoint::receive)
    /// is.
    pub fn peek(&self) -> Result<Lent<'_>, CallError>
        ensures refusal { MatchResult result (λ lent. receive_refusal self.now ≡ None) (λ e. receive_refusal self.now ≡ Some e) }
        ensures bytes { IfOk result (λ lent. lent.front.now ++ lent.back.now ≡ self.now.receiving.inbox.unread) }
        ensures front { IfOk result (λ lent. 0 < length self.now.receiving.inbox.unread → 0 < length lent.front.now) }
        ensures ends { IfOk result (λ lent. lent.ends ≡ self.now.receiving.finished) }
    {
        if let Some(refusal) = self.receive_refusal() {
            return Err(refusal);
        }
        let (front, back) = self.receiver.inbox.peek();
        Ok(Lent {
            front,
            back,
            ends: self.receiver.finished,
        })
    }

    /// Removes the first unread bytes, at most `count` of them, and returns how many. The end is then as after a
    /// [`receive`](Endpoint::receive) into a buffer of `count` bytes, with its window and its pending acknowledgement
    /// (RFC 9293, 3.8.6.2 and 3.10.3). Refused as `receive` is. 0 where nothing is unread, whether or not more may
    /// come: [`peek`](Endpoint::peek) reports which.
    #[tactic(auto, unfolding(crate::specs::Calls::after_receive))]
    pub fn consume(&mut self, count: usize) -> Result<usize, CallError>
        ensures answer { result ≡ consume_answer self.old count }
        ensures state { self.new ≡ after_receive self.old count }
        ensures within { IsWithin self.new }
    {
        // So that the proof knows the invariant of an end.
        let _ = &self.config;
        if let Some(refusal) = self.receive_refusal() {
            return Err(refusal);
        }
        let was_shut = self.advertised_window() == 0;
        let taken = self.receiver.consume(count);
        let opens = takes_text(self.phase) && was_shut && self.advertised_window() > 0;
        self.pending.ack = self.pending.ack || opens;
        Ok(taken)
    }
}
