//! The send queue (RFC 9293, 3.3.1).
ghost use Rattle.std.specs.Prelude.{vec_capacity, ◌≡◌, ℕ, ◌+◌, ◌<◌, ◌≤◌, ◌++◌, ◌↔◌, ◌⊎◌, length, take, drop, IsTrue, IsFalse, IsNone, IfSome, IfOk};
ghost use Rattle.tcp_sendq.specs.SendQueue.{Queue, IsQueue, IsMarked, empty_queue, room, count_taken, after_offer, after_release, marks_with, runs_begun, max_capacity, can_mark, after_mark, without_marks, empty_with_runs, greatest_runs, next_unmarked, IsNextUnmarked, AllMarkedFrom, last_mark_end, IsLastMarkEnd, NoneMarkedFrom, count_marked};
ghost use Rattle.tcp_sendq.specs.Marks.{queue_of, lowered, IsKept, IsBased};

use crate::error::QueueError;
use crate::marks::Marks;
use crate::ring;
use circular_buffer::HeapCircularBuffer;
use std::alloc::{Allocator, Global};
use std::marker::Model;

/// How many runs of marked bytes there can be where no number is given.
pub const DEFAULT_RUNS: usize = 16;

/// The greatest number of runs of marked bytes that a queue can be made for.
pub const MAX_RUNS: usize = 4_096;

/// The greatest capacity of a queue, in bytes.
pub const MAX_CAPACITY: usize = 1_048_576;

/// The greatest base of the marks' places.
const MAX_BASE: u32 = 2_147_483_648;

/// The bytes that were accepted and not yet released, oldest first, of which some are marked: the peer has reported
/// them as received (RFC 2018, 5). Offsets count from the oldest byte, which is at 0.
#[derive(Debug, Drop)]
pub struct SendQueue<A: Allocator = Global> {
    /// A ring, whose capacity is the queue's: from 1 to [`MAX_CAPACITY`].
    bytes: HeapCircularBuffer<u8, A>,
    /// The greatest number of runs of marked bytes, from 1 to [`MAX_RUNS`].
    most_runs: u32,
    /// The place of the oldest byte, at most [`MAX_BASE`]: those of the marks count on from it, so that a release moves none.
    base: u32,
    /// The runs of marked bytes by their places, with room for all.
    marks: Marks<A>,
}

impl<A: Allocator> Model for SendQueue<A> {
    ghost Value = { Queue };

    ghost view = { λ q. queue_of q.most_runs q.bytes.capacity q.bytes.items (lowered q.base q.marks.table.items) };

    ghost invariant = { λ q. IsKept q.most_runs q.bytes.capacity q.bytes.items (lowered q.base q.marks.table.items) × (q.most_runs ≤ vec_capacity q.marks.table) × IsBased q.base q.marks.table.items };
}

impl SendQueue {
    /// An empty queue of `capacity` bytes, of which at most [`DEFAULT_RUNS`] runs can be marked. It allocates now, and no
    /// later call does. An error where the capacity is out of range, or there is no memory.
    pub fn new(alloc: Global, capacity: usize) -> Result<Self, QueueError>
        ensures empty { IfOk result (λ q. q ≡ empty_queue capacity) }
        ensures sound { IfOk result IsQueue }
        ensures bad_capacity { (result ≡ Err QueueError.BadCapacity) ↔ ((capacity < 1) ⊎ (max_capacity < capacity)) }
    {
        Self::new_in(alloc, capacity)
    }

    /// One as of [`new`](SendQueue::new) of which at most `runs` runs can be marked, from 1 to [`MAX_RUNS`].
    pub fn with_runs(alloc: Global, capacity: usize, runs: usize) -> Result<Self, QueueError>
        requires least { 1 ≤ runs }
        requires most { runs ≤ greatest_runs }
        ensures empty { IfOk result (λ q. q ≡ empty_with_runs capacity runs) }
        ensures sound { IfOk result IsQueue }
        ensures bad_capacity { (result ≡ Err QueueError.BadCapacity) ↔ ((capacity < 1) ⊎ (max_capacity < capacity)) }
    {
        Self::with_runs_in(alloc, capacity, runs)
    }
}

impl<A: Allocator + Copy> SendQueue<A> {
    /// An empty queue of `capacity` bytes, in memory of `alloc`. It allocates now, and no later call does. An error
    /// where the capacity is out of range, or there is no memory.
    pub fn new_in(alloc: A, capacity: usize) -> Result<Self, QueueError>
        ensures empty { IfOk result (λ q. q ≡ empty_queue capacity) }
        ensures sound { IfOk result IsQueue }
        ensures bad_capacity { (result ≡ Err QueueError.BadCapacity) ↔ ((capacity < 1) ⊎ (max_capacity < capacity)) }
    {
        Self::with_runs_in(alloc, capacity, DEFAULT_RUNS)
    }

    /// One as of [`with_runs`](SendQueue::with_runs), in memory of `alloc`.
    pub fn with_runs_in(alloc: A, capacity: usize, runs: usize) -> Result<Self, QueueError>
        requires least { 1 ≤ runs }
        requires most { runs ≤ greatest_runs }
        ensures empty { IfOk result (λ q. q ≡ empty_with_runs capacity runs) }
        ensures sound { IfOk result IsQueue }
        ensures bad_capacity { (result ≡ Err QueueError.BadCapacity) ↔ ((capacity < 1) ⊎ (max_capacity < capacity)) }
    {
        Self::with_runs_of(alloc, alloc, capacity, runs)
    }
}

impl<A: Allocator> SendQueue<A> {
    /// One as of [`with_runs`](SendQueue::with_runs), whose bytes and whose table of marks have an allocator each.
    pub fn with_runs_of(
        bytes: A,
        table: A,
        capacity: usize,
        runs: usize,
    ) -> Result<Self, QueueError>
        requires least { 1 ≤ runs }
        requires most { runs ≤ greatest_runs }
        ensures empty { IfOk result (λ q. q ≡ empty_with_runs capacity runs) }
        ensures sound { IfOk result IsQueue }
        ensures bad_capacity { (result ≡ Err QueueError.BadCapacity) ↔ ((capacity < 1) ⊎ (max_capacity < capacity)) }
    {
        if capacity < 1 || capacity > MAX_CAPACITY {
            return Err(QueueError::BadCapacity);
        }
        let Ok(bytes) = HeapCircularBuffer::with_capacity(bytes, capacity) else {
            return Err(QueueError::NoMemory);
        };
        let Ok(marks) = Marks::new_in(table, runs) else {
            return Err(QueueError::NoMemory);
        };
        Ok(SendQueue {
            bytes,
            most_runs: runs as u32,
            base: 0,
            marks,
        })
    }
}

impl<A: Allocator> SendQueue<A> {
    /// How many bytes are queued.
    pub fn len(&self) -> usize
        ensures value { result ≡ length self.now.bytes }
        ensures sound { IsQueue self.now }
    {
        self.bytes.len()
    }

    /// Whether no byte is queued.
    pub fn is_empty(&self) -> bool
        ensures value { IsTrue result ↔ (length self.now.bytes ≡ 0) }
        ensures sound { IsQueue self.now }
    {
        self.bytes.is_empty()
    }

    /// The most bytes that can be queued at a time.
    pub fn capacity(&self) -> usize
        ensures value { result ≡ self.now.capacity }
        ensures sound { IsQueue self.now }
    {
        self.bytes.capacity()
    }

    /// How many more bytes the queue accepts.
    pub fn room(&self) -> usize
        ensures value { result ≡ room self.now }
        ensures sound { IsQueue self.now }
    {
        self.bytes.capacity() - self.bytes.len()
    }

    /// Appends the longest prefix of `text` that fits, unmarked, and returns its length.
    pub fn offer(&mut self, text: &[u8]) -> usize
        ensures count { result ≡ count_taken self.old text.now }
        ensures state { self.new ≡ after_offer self.old text.now }
        ensures sound { IsQueue self.new }
    {
        self.bytes.fill_from_slice(text)
    }

    /// Removes the oldest `n` bytes and their marks (RFC 9293, 3.10.7.4).
    pub fn release(&mut self, n: usize)
        requires { n ≤ length self.old.bytes }
        ensures state { self.new ≡ after_release self.old n }
        ensures sound { IsQueue self.new }
    {
        let rest = self.bytes.len() - n;
        self.bytes.truncate_front(rest);
        let base = self.base + n as u32;
        if base > MAX_BASE || self.marks.is_empty() {
            self.marks.release(base);
            self.base = 0;
            return;
        }
        self.marks.cut(base);
        self.base = base;
    }

    /// Fills `out` with the bytes from the offset `at` on.
    pub fn copy(&self, at: usize, out: &mut [u8])
        requires { at + length out.old ≤ length self.now.bytes }
        ensures { out.new ≡ take (length out.old) (drop at self.now.bytes) }
    {
        let (front, back) = self.bytes.as_slices();
        ring::copy_from(front, back, at, out);
    }

    /// The `count` bytes from the offset `at` on where they lie, in two parts. The first is empty only where `count` is
    /// 0.
    pub fn lend(&self, at: usize, count: usize) -> (&[u8], &[u8])
        requires { at + count ≤ length self.now.bytes }
        ensures bytes { result.0.now ++ result.1.now ≡ take count (drop at self.now.bytes) }
        ensures first { 0 < count → 0 < length result.0.now }
    {
        let (front, back) = self.bytes.as_slices();
        ring::lend_from(front, back, at, count)
    }

    /// Marks the bytes from the offset `from` on and before `to` (RFC 2018, 5). Where that would make a run more than the
    /// greatest number it returns false, and nothing changes.
    pub fn mark(&mut self, from: usize, to: usize) -> bool
        requires ordered { from < to }
        requires within { to ≤ length self.old.bytes }
        ensures value { result ≡ can_mark self.old from to }
        ensures state { self.new ≡ after_mark self.old from to }
        ensures refused { IsFalse result → self.new ≡ self.old }
        ensures runs { IsTrue result ↔ (runs_begun (marks_with from to self.old.marks) ≤ self.old.most_runs) }
        ensures places { IsTrue result → (place : ℕ) → IsMarked self.new place ↔ (IsMarked self.old place ⊎ ((from ≤ place) × (place < to))) }
        ensures sound { IsQueue self.new }
    {
        let (start, end) = (self.base + from as u32, self.base + to as u32);
        self.marks.mark(start, end, self.most_runs as usize)
    }

    /// Removes every mark (RFC 2018, 5).
    pub fn forget_marks(&mut self)
        ensures state { self.new ≡ without_marks self.old }
        ensures sound { IsQueue self.new }
    {
        self.marks.clear();
        self.base = 0;
    }

    /// The offset of the first unmarked byte from `at` on, and the end of its run of unmarked bytes; `None` where every
    /// byte from `at` on is marked.
    pub fn next_unmarked(&self, at: usize) -> Option<(usize, usize)>
        ensures value { result ≡ next_unmarked self.now at }
        ensures first { IfSome result (IsNextUnmarked self.now at) }
        ensures none { IsNone result ↔ AllMarkedFrom self.now at }
        ensures sound { IsQueue self.now }
    {
        let len = self.bytes.len();
        if at >= len {
            return None;
        }
        let base = self.base as usize;
        let from = self.marks.first_unmarked(base + at) - base;
        if from >= len {
            return None;
        }
        let to = self.marks.next_start(base + from).unwrap_or(base + len) - base;
        Some((from, to))
    }

    /// The offset after the last marked byte; `None` where no byte is marked.
    pub fn last_mark_end(&self) -> Option<usize>
        ensures value { result ≡ last_mark_end self.now }
        ensures last { IfSome result (IsLastMarkEnd self.now) }
        ensures none { IsNone result ↔ NoneMarkedFrom self.now 0 }
        ensures sound { IsQueue self.now }
    {
        let end = self.marks.last_end()?;
        Some(end.saturating_sub(self.base as usize))
    }

    /// How many bytes are marked (RFC 2018, 5).
    pub fn marked(&self) -> usize
        ensures value { result ≡ count_marked self.now.marks }
        ensures within { result ≤ length self.now.bytes }
        ensures sound { IsQueue self.now }
    {
        self.marks.count_from(self.base as usize)
    }
}
