ghost use Rattle.std.specs.Prelude.{vec_capacity, ◌≡◌, ◌≢◌, ◌↔◌, ◌⊎◌, ◌<◌, ◌≤◌, ◌+◌, ◌++◌, ◌≤ℤ◌, ◌<ℤ◌, ℕ, suc, ℤ, pos, negsuc, min, length, take, drop, OnErr, IfOk, None, if◌then◌else◌, nat_le, []};
ghost use Rattle.tcp_reasm.specs.Reassembly.{max_capacity, IsInbox, Inbox, empty_inbox, empty_with_runs, greatest_runs, window, piece, after_place, place_answer, after_read, without_held, blocks, runs, max_blocks, max_text_len, with_overlay, bytes_in_order, answer_for};
ghost use Rattle.tcp_reasm.specs.Laws.{cell_at, KeepsBytes, TakesPiece, LeavesOthers, EndsAtMissing};
ghost use Rattle.tcp_reasm.specs.Rows.{newest, IsTable};
ghost use Rattle.tcp_reasm.specs.Store.{inbox_of, runs_in, IsKept, overlay_at, has_too_many};

use crate::lay::lay;
use crate::piece::piece_of;
use crate::ring::Ring;
use crate::table::{Run, Table};
use crate::{Placed, ReasmError};
use arrayvec::ArrayVec;
use std::alloc::{Allocator, Global};
use std::marker::Model;

/// The greatest capacity, in bytes.
pub const MAX_CAPACITY: usize = 1_048_576;

/// How many runs are kept out of order where no number is given.
pub const DEFAULT_RUNS: usize = 16;

/// The greatest number of runs that can be kept out of order.
pub const MAX_RUNS: usize = 4_096;

/// The greatest number of blocks that are reported at once (RFC 2018, 3).
const MAX_BLOCKS: usize = 4;

/// A peer's text: the bytes that came in order and wait for the user, and those that came out of order and are kept
/// until the bytes before them come (RFC 9293, 3.10.7.4). Only making it allocates: one block of the capacity, which isn't
/// touched before bytes come, and one for the table of the runs that are kept out of order, 16 bytes each and 16 more. The
/// first is a ring, in which a byte is written once, at its offset, and isn't moved when it comes in order. No call costs
/// more where more runs are kept but for a search by halves, and for two bytes to be moved of each run behind one that
/// comes or goes.
#[derive(Debug, Drop)]
pub struct Reassembly<A: Allocator = Global> {
    /// As many bytes as are unread or inside the window, from 1 to [`MAX_CAPACITY`]: the unread bytes are first, and
    /// the window's after them.
    ring: Ring<A>,
    /// How many bytes came in order and aren't read yet.
    unread: u32,
    /// The greatest number of runs that are kept out of order, from 1 to [`MAX_RUNS`].
    most_runs: u32,
    /// The runs that are kept out of order, the newest first. No two of them touch. It has room for all.
    table: Table<A>,
}

impl<A: Allocator> Model for Reassembly<A> {
    ghost Value = { Inbox };

    ghost view = { λ r. inbox_of r.most_runs r.ring.bytes r.unread (newest r.table.base r.table.len r.table.rows.items) };

    ghost invariant = { λ r. IsKept r.most_runs r.ring.bytes r.unread (runs_in (newest r.table.base r.table.len r.table.rows.items)) × (r.unread ≤ r.ring.ready) × (suc r.most_runs ≤ vec_capacity r.table.rows) × IsTable r.table.base r.table.len r.table.rows.items };
}

impl Reassembly {
    /// An empty reassembly of `capacity` bytes, on the global allocator, that keeps at most [`DEFAULT_RUNS`] runs out of
    /// order. An error where the capacity is out of range, or there is no memory.
    pub fn new(alloc: Global, capacity: usize) -> Result<Self, ReasmError>
        ensures ok { IfOk result (λ q. q ≡ empty_inbox capacity) }
        ensures sound { IfOk result IsInbox }
        ensures bad { (result ≡ Err ReasmError.BadCapacity) ↔ ((capacity < 1) ⊎ (max_capacity < capacity)) }
    {
        Self::new_in(alloc, capacity)
    }

    /// One as of [`new`](Reassembly::new) that keeps at most `runs` runs out of order, from 1 to [`MAX_RUNS`].
    pub fn with_runs(alloc: Global, capacity: usize, runs: usize) -> Result<Self, ReasmError>
        requires least { 1 ≤ runs }
        requires most { runs ≤ greatest_runs }
        ensures ok { IfOk result (λ q. q ≡ empty_with_runs capacity runs) }
        ensures sound { IfOk result IsInbox }
        ensures bad { (result ≡ Err ReasmError.BadCapacity) ↔ ((capacity < 1) ⊎ (max_capacity < capacity)) }
    {
        Self::with_runs_in(alloc, capacity, runs)
    }
}

impl<A: Allocator + Copy> Reassembly<A> {
    /// An empty reassembly of `capacity` bytes, in memory of `alloc`. An error where the capacity is out of range, or
    /// there is no memory.
    pub fn new_in(alloc: A, capacity: usize) -> Result<Self, ReasmError>
        ensures ok { IfOk result (λ q. q ≡ empty_inbox capacity) }
        ensures sound { IfOk result IsInbox }
        ensures bad { (result ≡ Err ReasmError.BadCapacity) ↔ ((capacity < 1) ⊎ (max_capacity < capacity)) }
    {
        Self::with_runs_in(alloc, capacity, DEFAULT_RUNS)
    }

    /// One as of [`with_runs`](Reassembly::with_runs), in memory of `alloc`.
    pub fn with_runs_in(alloc: A, capacity: usize, runs: usize) -> Result<Self, ReasmError>
        requires least { 1 ≤ runs }
        requires most { runs ≤ greatest_runs }
        ensures ok { IfOk result (λ q. q ≡ empty_with_runs capacity runs) }
        ensures sound { IfOk result IsInbox }
        ensures bad { (result ≡ Err ReasmError.BadCapacity) ↔ ((capacity < 1) ⊎ (max_capacity < capacity)) }
    {
        Self::with_runs_of(alloc, alloc, capacity, runs)
    }
}

impl<A: Allocator> Reassembly<A> {
    /// One as of [`with_runs`](Reassembly::with_runs), whose bytes and whose table of runs have an allocator each.
    pub fn with_runs_of(
        bytes: A,
        table: A,
        capacity: usize,
        runs: usize,
    ) -> Result<Self, ReasmError>
        requires least { 1 ≤ runs }
        requires most { runs ≤ greatest_runs }
        ensures ok { IfOk result (λ q. q ≡ empty_with_runs capacity runs) }
        ensures sound { IfOk result IsInbox }
        ensures bad { (result ≡ Err ReasmError.BadCapacity) ↔ ((capacity < 1) ⊎ (max_capacity < capacity)) }
    {
        if capacity < 1 || capacity > MAX_CAPACITY {
            return Err(ReasmError::BadCapacity);
        }
        let Ok(ring) = Ring::new_in(bytes, capacity) else {
            return Err(ReasmError::NoMemory);
        };
        let Ok(table) = Table::new_in(table, runs) else {
            return Err(ReasmError::NoMemory);
        };
        Ok(Reassembly {
            ring,
            unread: 0,
            most_runs: runs as u32,
            table,
        })
    }
}

impl<A: Allocator> Reassembly<A> {
    /// The most bytes that are unread or kept out of order.
    pub fn capacity(&self) -> usize
        ensures value { result ≡ self.now.capacity }
        ensures sound { IsInbox self.now }
        ensures some { 0 < result }
        ensures most { result ≤ max_capacity }
    {
        self.ring.len()
    }

    /// How many bytes came in order and wait to be read.
    pub fn unread(&self) -> usize
        ensures value { result ≡ length self.now.unread }
        ensures sound { IsInbox self.now }
        ensures within { result ≤ self.now.capacity }
        ensures most { self.now.capacity ≤ max_capacity }
    {
        self.unread as usize
    }

    /// The receive window in bytes: how many after the unread ones are accepted (RFC 9293, 3.3.1).
    pub fn window(&self) -> u32
        ensures value { result ≡ window self.now }
        ensures sound { IsInbox self.now }
        ensures unread { result + length self.now.unread ≡ self.now.capacity }
        ensures places { length self.now.held ≡ result }
        ensures most { self.now.capacity ≤ max_capacity }
    {
        (self.ring.len() - self.unread as usize) as u32
    }

    /// Takes a text whose first byte is at `offset` from RCV.NXT, and reports what became of it (RFC 9293, 3.10.7.4).
    /// What is before RCV.NXT or beyond the window is cut off; a byte that is kept already stays.
    pub fn place(&mut self, offset: i64, text: &[u8]) -> Placed
        requires from { negsuc 2147483647 ≤ℤ offset }
        requires below { offset <ℤ pos 2147483648 }
        requires short { length text.now ≤ max_text_len }
        ensures after { self.new ≡ after_place self.old offset text.now }
        ensures answer { result ≡ place_answer self.old offset text.now }
        ensures sound { IsInbox self.new }
        ensures not_kept { result ≡ Placed.NotKept → self.new ≡ self.old }
        ensures held { result ≡ Placed.Held → self.new.unread ≡ self.old.unread }
        ensures some { (n : ℕ) → result ≡ Placed.Advanced n → 0 < n }
        ensures grown { (n : ℕ) → result ≡ Placed.Advanced n → length self.new.unread ≡ length self.old.unread + n }
        ensures front { take (length self.old.unread) self.new.unread ≡ self.old.unread }
        // Byte by byte, counted from the first unread one.
        ensures kept { KeepsBytes self.old self.new }
        ensures taken { result ≢ Placed.NotKept → TakesPiece self.old self.new (piece offset text.now) }
        ensures others { LeavesOthers self.old self.new (piece offset text.now) }
        ensures missing { EndsAtMissing self.new }
    {
        let (start, text) = piece_of(offset, text);
        let window = self.ring.len() - self.unread as usize;
        if text.is_empty() || window <= start {
            return Placed::NotKept;
        }
        let text = &text[..(window - start).min(text.len())];
        self.keep(start, text)
    }

    /// Takes a text inside the window, in order or out of order.
    fn keep(&mut self, start: usize, text: &[u8]) -> Placed
        requires some { 0 < length text.now }
        requires within { start + length text.now + length self.old.unread ≤ self.old.capacity }
        requires most { self.old.capacity ≤ max_capacity }
        ensures after { let over = overlay_at self.old start text.now in
            self.new ≡ (if has_too_many self.old.most_runs start over then self.old else with_overlay self.old over) }
        ensures answer { let over = overlay_at self.old start text.now in
            result ≡ (if has_too_many self.old.most_runs start over then Placed.NotKept else answer_for (length (bytes_in_order over))) }
        ensures sound { IsInbox self.new }
    {
        if start == 0 {
            Placed::Advanced(self.advance(text))
        } else if self.hold(start, text) {
            Placed::Held
        } else {
            Placed::NotKept
        }
    }

    /// Takes a text that begins at RCV.NXT, and returns how many bytes came in order with it.
    fn advance(&mut self, text: &[u8]) -> usize
        requires some { 0 < length text.now }
        requires within { length text.now + length self.old.unread ≤ self.old.capacity }
        requires most { self.old.capacity ≤ max_capacity }
        ensures after { let over = overlay_at self.old 0 text.now in
            (self.new ≡ with_overlay self.old over) × (result ≡ length (bytes_in_order over)) × (0 < result) }
        ensures sound { IsInbox self.new }
    {
        let piece = Run {
            from: 0,
            to: text.len() as u32,
        };
        let past = self.table.touched_first(piece);
        let count = self.table.union_of(0, past, piece).to;
        let unread = self.unread as usize;
        lay(&mut self.ring, unread, &self.table, 0, 0, text);
        self.ring.reach(unread + count as usize);
        self.table.advance(past, piece, count);
        self.unread += count;
        count as usize
    }

    /// Keeps a text that begins after RCV.NXT. What would make a run more than the greatest number isn't kept: that is
    /// tested before a byte is written.
    fn hold(&mut self, start: usize, text: &[u8]) -> bool
        requires gap { 0 < start }
        requires some { 0 < length text.now }
        requires within { start + length text.now + length self.old.unread ≤ self.old.capacity }
        requires most { self.old.capacity ≤ max_capacity }
        ensures kept { result ≡ nat_le (length (runs (overlay_at self.old start text.now))) self.old.most_runs }
        ensures after { self.new ≡ (if result then with_overlay self.old (overlay_at self.old start text.now) else self.old) }
        ensures none { bytes_in_order (overlay_at self.old start text.now) ≡ [] }
        ensures sound { IsInbox self.new }
    {
        let piece = Run {
            from: start as u32,
            to: (start + text.len()) as u32,
        };
        let (first, past) = self.table.touched(piece);
        if self.table.len() - (past - first) >= self.most_runs as usize {
            return false;
        }
        let unread = self.unread as usize;
        lay(&mut self.ring, unread, &self.table, first, start, text);
        self.table.put(first, past, piece);
        true
    }

    /// Copies the first unread bytes, as many as there are and as `out` has room for, to its start, and returns their
    /// count (RFC 9293, 3.10.3).
    pub fn read(&mut self, out: &mut [u8]) -> usize
        ensures count { result ≡ min (length out.old) (length self.old.unread) }
        ensures bytes { out.new ≡ take result self.old.unread ++ drop result out.old }
        ensures sound { IsInbox self.new }
        ensures after { self.new ≡ after_read self.old (length out.old) }
    {
        let count = out.len().min(self.unread as usize);
        self.ring.copy(&mut out[..count]);
        self.consume(out.len())
    }

    /// The unread bytes where they lie, in two parts: first the front, then the back. The front is empty only where
    /// none is unread.
    pub fn peek(&self) -> (&[u8], &[u8])
        ensures bytes { result.0.now ++ result.1.now ≡ self.now.unread }
        ensures front { 0 < length self.now.unread → 0 < length result.0.now }
    {
        self.ring.lend(self.unread as usize)
    }

    /// Removes the first unread bytes, at most `most` of them, and returns their count.
    #[inline(always)]
    pub fn consume(&mut self, most: usize) -> usize
        ensures count { result ≡ min most (length self.old.unread) }
        ensures sound { IsInbox self.new }
        ensures after { self.new ≡ after_read self.old most }
    {
        let count = most.min(self.unread as usize);
        self.unread -= count as u32;
        // Where nothing is left the next byte goes to the start of the block: for a user who keeps up, little of the
        // block is touched, however much comes.
        if self.unread == 0 && self.table.is_empty() {
            self.ring.rewind();
            return count;
        }
        self.ring.advance(count);
        count
    }

    /// The runs that are kept out of order, the most recent first and at most four (RFC 2018, 4). Each has the offset
    /// of its first byte and that after its last, counted from RCV.NXT.
    pub fn blocks(&self) -> ArrayVec<(u32, u32), 4>
        ensures value { result.items ≡ blocks self.now }
        ensures sound { IsInbox self.now }

        // No more runs are kept than its number, and none begins at RCV.NXT.
        ensures few { length (runs self.now.held) ≤ self.now.most_runs }
        ensures missing { cell_at self.now.held 0 ≡ None }
    {
        self.table.edges()
    }

    /// How many blocks there are: the runs that are kept out of order, at most four (RFC 2018, 4).
    pub fn block_count(&self) -> usize
        ensures value { result ≡ length (blocks self.now) }
        ensures few { result ≤ max_blocks }
    {
        MAX_BLOCKS.min(self.table.len())
    }

    /// How many runs are kept out of order.
    pub fn held_runs(&self) -> usize
        ensures { result ≡ length (runs self.now.held) }
    {
        self.table.len()
    }

    /// Discards what is unread or kept out of order, and leaves the whole window, as a reset and an abort do (RFC 9293,
    /// 3.10.5 and 3.10.7.4).
    pub fn clear(&mut self)
        ensures state { self.new ≡ empty_with_runs self.old.capacity self.old.most_runs }
        ensures sound { IsInbox self.new }
    {
        self.unread = 0;
        self.clear_held();
    }

    /// Discards what is kept out of order. Unread bytes stay.
    pub fn clear_held(&mut self)
        ensures state { self.new ≡ without_held self.old }
        ensures sound { IsInbox self.new }
    {
        self.table.clear();
    }
}
