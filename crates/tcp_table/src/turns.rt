//! Who waits for a turn.
ghost use Rattle.std.specs.Prelude.{◌≡◌, ◌<◌, ◌≤◌, [], ◌∷◌, OnOk, OnErr, IfSome, MatchOption, IsTrue, ◌↔◌, max, slice_get};
ghost use Rattle.tcp_table.specs.Turns.{after_adding, waits};

use std::alloc::{AllocError, Allocator, Global};
use std::collections::VecDeque;
use std::marker::Model;

/// The ids that wait for a turn, in the order in which they came, each once. An id is a small number, as a place in a
/// list is, and needs room before it is added: only making room allocates, and walks over all. Every other call takes
/// the same few steps, whoever waits.
#[derive(Debug, Drop)]
pub struct Turns<A: Allocator = Global> {
    /// Those that wait, with room for all.
    queue: VecDeque<usize, A>,
    /// Whether each id waits, at its place.
    notes: Vec<bool, A>,
}

impl<A: Allocator> Model for Turns<A> {
    ghost use Rattle.std.specs.VecDeque.{deque_capacity};
    ghost use Rattle.std.specs.Prelude.{length};
    ghost use Rattle.tcp_table.specs.Turns.{IsQueue, Turns};

    ghost Value = { Turns };

    ghost view = { λ t. record { queue = t.queue.items; room = length t.notes.items } };

    ghost invariant = { λ t. IsQueue t.notes.items t.queue.items (deque_capacity t.queue) };
}

impl Turns {
    /// None waits, and there is room for none.
    #[must_use]
    pub fn new(alloc: Global) -> Self
        ensures none { result.queue ≡ [] }
        ensures room { result.room ≡ 0 }
    {
        Self::new_in(alloc)
    }
}

impl<A: Allocator + Copy> Turns<A> {
    /// None waits, and there is room for none. What it will hold is in memory of `alloc`.
    #[must_use]
    pub fn new_in(alloc: A) -> Self
        ensures none { result.queue ≡ [] }
        ensures room { result.room ≡ 0 }
    {
        Turns {
            queue: VecDeque::new(alloc),
            notes: Vec::new(alloc),
        }
    }

    /// How many ids there is room for, from 0 on.
    #[must_use]
    pub fn room(&self) -> usize
        ensures { result ≡ self.now.room }
    {
        // There is a note of each id.
        self.notes.len()
    }

    /// Makes room for so many ids, from 0 on. Where there is no memory nothing changes.
    pub fn reserve(&mut self, room: usize) -> Result<(), AllocError>
        ensures room { OnOk result (self.new ≡ record self.old { room = max room self.old.room }) }
        ensures err { OnErr result (self.new ≡ self.old) }
    {
        if room <= self.notes.len() {
            return Ok(());
        }
        self.queue.reserve(room.saturating_sub(self.queue.len()))?;
        self.notes.resize(room, false)?;
        Ok(())
    }

    /// Whether an id waits.
    #[must_use]
    pub fn waits(&self, id: usize) -> bool
        ensures { result ≡ waits self.now.queue id }
    {
        match self.notes.get(id) {
            Some(waits) => *waits,
            None => false,
        }
    }

    /// Whether none waits.
    #[must_use]
    pub fn is_empty(&self) -> bool
        ensures { IsTrue result ↔ (self.now.queue ≡ []) }
    {
        self.queue.is_empty()
    }

    /// The id that has waited for the longest time, and has the next turn. `None` where none waits.
    #[must_use]
    pub fn first(&self) -> Option<usize>
        ensures { result ≡ slice_get self.now.queue 0 }
    {
        self.queue.front().copied()
    }

    /// An id waits from now on, behind all that do: where it waits already it keeps its place.
    pub fn add(&mut self, id: usize)
        requires { id < self.old.room }
        ensures { self.new ≡ record self.old { queue = after_adding self.old.queue id } }
    {
        if self.notes[id] {
            return;
        }
        self.notes[id] = true;
        self.queue.push_back_reserved(id);
    }

    /// The id that has waited for the longest time: it waits no more.
    pub fn next(&mut self) -> Option<usize>
        ensures first { MatchOption result ((self.old.queue ≡ []) × (self.new.queue ≡ [])) (λ id. self.old.queue ≡ id ∷ self.new.queue) }
        ensures room { self.new.room ≡ self.old.room }
        ensures within { IfSome result (λ id. id < self.old.room) }
    {
        let id = self.queue.pop_front()?;
        self.notes[id] = false;
        Some(id)
    }
}
