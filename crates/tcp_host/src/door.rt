//! A listener and its backlog.
ghost use Rattle.std.specs.Prelude.{◌≡◌, ◌<◌, [], ◌∷◌, false, IfOk, IfErr, IfSome, MatchOption};
ghost use Rattle.tcp_host.specs.Door.{admitted, announced, forgotten, is_full, new_door};

use std::alloc::{AllocFailed, Allocator};
use std::collections::VecDeque;
use std::marker::Model;
use tcp_table::Id;

/// What its user keeps of a listener, with the ends that it has opened and that its user hasn't accepted: how many of
/// them are in their handshake, and the others in the order in which theirs was over (RFC 4987, 3.2).
#[derive(Drop)]
pub struct Door<L, A: Allocator> {
    kept: L,
    limit: usize,
    half_open: usize,
    ready: VecDeque<Id, A>,
}

impl<L, A: Allocator> Model for Door<L, A> {
    ghost use Rattle.std.specs.Prelude.{◌+◌, ◌<◌, ◌≤◌, All, length};
    ghost use Rattle.std.specs.VecDeque.{deque_capacity};
    ghost use Rattle.tcp_host.specs.Door.{Door};

    ghost Value = { Door L };

    ghost view = { λ d. record { kept = d.kept; limit = d.limit; half_open = d.half_open; ready = d.ready.items } };

    ghost invariant = { λ d. (d.half_open + length d.ready.items ≤ d.limit) × (d.limit ≤ deque_capacity d.ready) × All (λ id. 0 < id.number) d.ready.items };
}

impl<L, A: Allocator> Door<L, A> {
    /// A listener that may have opened so many ends. Where there is no memory what its user keeps comes back.
    pub(crate) fn new_in(alloc: A, kept: L, limit: usize) -> Result<Self, AllocFailed<L>>
        ensures door { IfOk result (λ door. door ≡ new_door kept limit) }
        ensures value_returned { IfErr result (λ failed. failed.value ≡ kept) }
    {
        match VecDeque::with_capacity(alloc, limit) {
            Ok(ready) => Ok(Door {
                kept,
                limit,
                half_open: 0,
                ready,
            }),
            Err(_) => Err(AllocFailed { value: kept }),
        }
    }

    /// What its user keeps of it.
    #[must_use]
    pub fn kept(&self) -> &L
        ensures { result.now ≡ self.now.kept }
    {
        &self.kept
    }

    /// What its user keeps comes back.
    pub(crate) fn leave(self) -> L
        ensures { result ≡ self.kept }
    {
        self.kept
    }

    /// Whether it may open none before one is accepted.
    #[must_use]
    pub fn is_full(&self) -> bool
        ensures { result ≡ is_full self.now }
    {
        self.limit <= self.half_open + self.ready.len()
    }

    /// It has opened an end.
    pub(crate) fn admit(&mut self)
        requires { is_full self.old ≡ false }
        ensures { self.new ≡ admitted self.old }
    {
        self.half_open += 1;
    }

    /// The handshake of an end that it has opened is over.
    pub(crate) fn announce(&mut self, id: Id)
        requires { 0 < id.number }
        ensures { self.new ≡ announced self.old id }
    {
        if self.half_open == 0 {
            return;
        }
        self.half_open -= 1;
        self.ready.push_back_reserved(id);
    }

    /// An end that it has opened is gone before its handshake was over.
    pub(crate) fn forget(&mut self)
        ensures { self.new ≡ forgotten self.old }
    {
        self.half_open = self.half_open.saturating_sub(1);
    }

    /// The end whose handshake was over first: it isn't its own any more.
    pub(crate) fn accept(&mut self) -> Option<Id>
        ensures above { IfSome result (λ id. 0 < id.number) }
        ensures first { MatchOption result ((self.old.ready ≡ []) × (self.new ≡ self.old)) (λ id. (self.old.ready ≡ id ∷ self.new.ready) × (self.new ≡ record self.old { ready = self.new.ready })) }
    {
        self.ready.pop_front()
    }
}
