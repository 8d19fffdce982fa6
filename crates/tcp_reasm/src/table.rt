//! The runs that are kept out of order: a table of intervals that don't touch, by place and by recency.
ghost use Rattle.std.specs.Prelude.{◌≡◌, ◌<◌, ◌≤◌, ◌+◌, ◌-◌, ◌∷◌, ◌++◌, [], ℕ, suc, length, map, min, take, drop, slice_set, vec_capacity, IfOk, IsTrue, ◌↔◌};
ghost use Rattle.tcp_reasm.specs.Reassembly.{Run as Interval, max_blocks, max_capacity};
ghost use Rattle.tcp_reasm.specs.Store.{run_of, runs_in, rest_of, union_of as whole_of, moved, held_to as held_up_to, gap_to as gap_up_to};
ghost use Rattle.tcp_reasm.specs.Rows.{olders, newers, orders, span, spans, at, without, minus, loop_of, run_in, runs_at, run_at as run_with, newest, placed, count, Rising, IsTable, AreTouched, greatest_base};

use crate::rows::{Row, free, grow, order_in, order_out, settle, to_front};
use arrayvec::ArrayVec;
use std::alloc::{AllocError, Allocator, Global};

/// The greatest base.
const MAX_BASE: u32 = 2_147_483_648;

/// The greatest number of blocks that are reported at once (RFC 2018, 3).
const MAX_BLOCKS: usize = 4;

/// An interval of offsets, counted from RCV.NXT.
#[derive(Clone, Copy, Debug, Default)]
pub(crate) struct Run {
    /// The offset of its first byte.
    pub(crate) from: u32,
    /// The offset after its last byte.
    pub(crate) to: u32,
}

/// The runs that are kept out of order. No two of them touch.
#[derive(Debug, Drop)]
pub(crate) struct Table<A: Allocator = Global> {
    /// Row 0 is where the ring begins and ends. The first `len` of those after it in the ring are of runs, the newest
    /// first; the others are free.
    rows: Vec<Row, A>,
    /// How many runs there are.
    len: u32,
    /// The place of RCV.NXT, from which offsets count: so what comes in order moves no run.
    base: u32,
}

impl<A: Allocator> Table<A> {
    /// No run. There is room for `most`.
    pub(crate) fn new_in(alloc: A, most: usize) -> Result<Self, AllocError>
        requires { most ≤ 4096 }
        ensures table { IfOk result (λ t. IsTable t.base t.len t.rows.items) }
        ensures none { IfOk result (λ t. newest t.base t.len t.rows.items ≡ []) }
        ensures room { IfOk result (λ t. suc most ≤ vec_capacity t.rows) }
    {
        let mut rows = Vec::with_capacity(alloc, most + 1)?;
        let _ = rows.push(Row::default());
        Ok(Table {
            rows,
            len: 0,
            base: 0,
        })
    }

    /// How many runs there are.
    pub(crate) fn len(&self) -> usize
        requires { IsTable self.now.base self.now.len self.now.rows.items }
        ensures value { result ≡ length (newest self.now.base self.now.len self.now.rows.items) }
        ensures places { result ≡ length (placed self.now.base self.now.len self.now.rows.items) }
        ensures field { result ≡ self.now.len }
        ensures most { result < length self.now.rows.items }
    {
        self.len as usize
    }

    /// Whether there is none.
    pub(crate) fn is_empty(&self) -> bool
        requires { IsTable self.now.base self.now.len self.now.rows.items }
        ensures { IsTrue result ↔ (length (newest self.now.base self.now.len self.now.rows.items) ≡ 0) }
    {
        self.len == 0
    }

    /// Removes every run.
    pub(crate) fn clear(&mut self)
        requires { IsTable self.old.base self.old.len self.old.rows.items }
        ensures table { IsTable self.new.base self.new.len self.new.rows.items }
        ensures none { newest self.new.base self.new.len self.new.rows.items ≡ [] }
        ensures room { vec_capacity self.old.rows ≤ vec_capacity self.new.rows }
    {
        self.len = 0;
        self.base = 0;
    }

    /// The run of a row.
    #[inline(always)]
    fn run_of(&self, id: usize) -> Run
        requires { id < length self.now.rows.items }
        ensures { result ≡ run_in self.now.base (spans self.now.rows.items) id }
    {
        let row = self.rows[id];
        Run {
            from: row.from.saturating_sub(self.base),
            to: row.to.saturating_sub(self.base),
        }
    }

    /// The row of the run that is this far from the left.
    #[inline(always)]
    fn row_at(&self, index: usize) -> usize
        requires table { IsTable self.now.base self.now.len self.now.rows.items }
        requires within { index < self.now.len }
        ensures value { result ≡ at (orders self.now.rows.items) index }
        ensures below { result < length self.now.rows.items }
    {
        self.rows[index].order as usize
    }

    /// The run that is this far from the left.
    #[inline(always)]
    fn run_at(&self, index: usize) -> Run
        requires table { IsTable self.now.base self.now.len self.now.rows.items }
        requires within { index < self.now.len }
        ensures { result ≡ run_with (placed self.now.base self.now.len self.now.rows.items) index }
    {
        self.run_of(self.row_at(index))
    }

    /// How many runs end before an offset.
    fn count_before(&self, place: u32) -> usize
        requires { IsTable self.now.base self.now.len self.now.rows.items }
        ensures within { result ≤ self.now.len }
        ensures before { (k : ℕ) → k < result → (run_with (placed self.now.base self.now.len self.now.rows.items) k).to < place }
        ensures behind { (k : ℕ) → result ≤ k → k < self.now.len → place ≤ (run_with (placed self.now.base self.now.len self.now.rows.items) k).to }
    {
        let (mut low, mut high) = (0, self.len as usize);
        while low < high {
            let middle = low + (high - low) / 2;
            if self.run_at(middle).to < place {
                low = middle + 1;
            } else {
                high = middle;
            }
        }
        low
    }

    /// How many runs begin at an offset or before it, looked for from the index `first` on.
    fn count_to(&self, first: usize, place: u32) -> usize
        requires table { IsTable self.now.base self.now.len self.now.rows.items }
        requires within { first ≤ self.now.len }
        ensures least { first ≤ result }
        ensures within { result ≤ self.now.len }
        ensures before { (k : ℕ) → first ≤ k → k < result → (run_with (placed self.now.base self.now.len self.now.rows.items) k).from ≤ place }
        ensures behind { (k : ℕ) → result ≤ k → k < self.now.len → place < (run_with (placed self.now.base self.now.len self.now.rows.items) k).from }
    {
        let mut past = first;
        while past < self.len as usize {
            if self.run_at(past).from > place {
                return past;
            }
            past += 1;
        }
        past
    }

    /// The runs that a piece overlaps or touches: the index of the first by place, and that after the last.
    pub(crate) fn touched(&self, piece: Run) -> (usize, usize)
        requires { IsTable self.now.base self.now.len self.now.rows.items }
        ensures { AreTouched (placed self.now.base self.now.len self.now.rows.items) piece result.0 result.1 }
    {
        let first = self.count_before(piece.from);
        (first, self.count_to(first, piece.to))
    }

    /// Those that a piece touches that begins at offset 0, from the left: how many they are.
    pub(crate) fn touched_first(&self, piece: Run) -> usize
        requires table { IsTable self.now.base self.now.len self.now.rows.items }
        requires first { piece.from ≡ 0 }
        ensures { AreTouched (placed self.now.base self.now.len self.now.rows.items) piece 0 result }
    {
        self.count_to(0, piece.to)
    }

    /// A piece and the runs that touch it, as one run.
    pub(crate) fn union_of(&self, first: usize, past: usize, piece: Run) -> Run
        requires table { IsTable self.now.base self.now.len self.now.rows.items }
        requires touched { AreTouched (placed self.now.base self.now.len self.now.rows.items) piece first past }
        requires some { piece.from < piece.to }
        ensures union { run_of result ≡ whole_of (run_of piece) (run_of piece) (runs_in (newest self.now.base self.now.len self.now.rows.items)) }
        ensures some { result.from < result.to }
        ensures above { 0 < piece.from → 0 < result.from }
        ensures least { result.from ≤ piece.from }
        ensures most { piece.to ≤ result.to }
        ensures before { (k : ℕ) → k < first → (run_with (placed self.now.base self.now.len self.now.rows.items) k).to < result.from }
        ensures behind { (k : ℕ) → past ≤ k → k < self.now.len → result.to < (run_with (placed self.now.base self.now.len self.now.rows.items) k).from }
    {
        if first >= past {
            return piece;
        }
        Run {
            from: piece.from.min(self.run_at(first).from),
            to: piece.to.max(self.run_at(past - 1).to),
        }
    }

    /// Where the run that an offset is in ends, or the offset itself where no byte is kept, at most `end`. The runs before
    /// `index` end at or before the offset, and the one there at or behind it. Also returns the index of the run after that.
    pub(crate) fn held_past(&self, index: usize, next: usize, end: usize) -> (usize, usize)
        requires table { IsTable self.now.base self.now.len self.now.rows.items }
        requires some { next < end }
        requires before { (k : ℕ) → k < index → (run_with (placed self.now.base self.now.len self.now.rows.items) k).to ≤ next }
        requires here { index < self.now.len → next ≤ (run_with (placed self.now.base self.now.len self.now.rows.items) index).to }
        ensures value { result.0 ≡ min (held_up_to (runs_in (newest self.now.base self.now.len self.now.rows.items)) next) end }
        ensures least { next ≤ result.0 }
        ensures most { result.0 ≤ end }
        ensures before { result.0 < end → (k : ℕ) → k < result.1 → (run_with (placed self.now.base self.now.len self.now.rows.items) k).to ≤ result.0 }
        ensures behind { (k : ℕ) → result.1 ≤ k → k < self.now.len → result.0 < (run_with (placed self.now.base self.now.len self.now.rows.items) k).from }
    {
        if index >= self.len as usize {
            return (next, index);
        }
        let run = self.run_at(index);
        if run.from as usize <= next {
            (end.min(run.to as usize), index + 1)
        } else {
            (next, index)
        }
    }

    /// How far no byte is kept from an offset on, up to an end. The runs before `index` end at or before the offset, and the
    /// others begin behind it.
    pub(crate) fn free_to(&self, index: usize, from: usize, end: usize) -> usize
        requires table { IsTable self.now.base self.now.len self.now.rows.items }
        requires ordered { from ≤ end }
        requires before { from < end → (k : ℕ) → k < index → (run_with (placed self.now.base self.now.len self.now.rows.items) k).to ≤ from }
        requires behind { (k : ℕ) → index ≤ k → k < self.now.len → from < (run_with (placed self.now.base self.now.len self.now.rows.items) k).from }
        ensures value { result ≡ gap_up_to (runs_in (newest self.now.base self.now.len self.now.rows.items)) from end }
        ensures least { from ≤ result }
        ensures most { result ≤ end }
        ensures before { result < end → (k : ℕ) → k < index → (run_with (placed self.now.base self.now.len self.now.rows.items) k).to ≤ result }
        ensures here { result < end → index < self.now.len → result ≤ (run_with (placed self.now.base self.now.len self.now.rows.items) index).to }
    {
        if index >= self.len as usize {
            return end;
        }
        end.min(self.run_at(index).from as usize)
    }

    /// Removes the runs from the index `first` on and before `past`.
    fn remove(&mut self, first: usize, past: usize)
        requires table { IsTable self.old.base self.old.len self.old.rows.items }
        requires ordered { first ≤ past }
        requires within { past ≤ self.old.len }
        ensures table { IsTable self.new.base self.new.len self.new.rows.items }
        ensures base { self.new.base ≡ self.old.base }
        ensures len { self.new.len ≡ self.old.len - (past - first) }
        ensures room { vec_capacity self.old.rows ≤ vec_capacity self.new.rows }
        ensures spans { spans self.new.rows.items ≡ spans self.old.rows.items }
        ensures places { let ids = take self.old.len (orders self.old.rows.items) in
            take self.new.len (orders self.new.rows.items) ≡ take first ids ++ drop past ids }
        ensures recent { let ids = take self.old.len (orders self.old.rows.items) in
            take self.new.len (loop_of self.new.rows.items) ≡ minus (take (past - first) (drop first ids)) (take self.old.len (loop_of self.old.rows.items)) }
    {
        if first == past {
            return;
        }
        free(&mut self.rows, first, past);
        order_out(&mut self.rows, first, past, self.len as usize);
        self.len -= (past - first) as u32;
    }

    /// Writes the run of a row.
    #[inline(always)]
    fn write(&mut self, id: usize, run: Run)
        requires within { id < length self.old.rows.items }
        requires low { self.old.base ≤ greatest_base }
        requires first { run.from ≤ max_capacity }
        requires last { run.to ≤ max_capacity }
        ensures base { self.new.base ≡ self.old.base }
        ensures len { self.new.len ≡ self.old.len }
        ensures room { vec_capacity self.old.rows ≤ vec_capacity self.new.rows }
        ensures rows { length self.new.rows.items ≡ length self.old.rows.items }
        ensures spans { spans self.new.rows.items ≡ slice_set (spans self.old.rows.items) id (span (self.old.base + run.from) (self.old.base + run.to)) }
        ensures olders { olders self.new.rows.items ≡ olders self.old.rows.items }
        ensures newers { newers self.new.rows.items ≡ newers self.old.rows.items }
        ensures orders { orders self.new.rows.items ≡ orders self.old.rows.items }
    {
        let row = self.rows[id];
        self.rows[id] = Row {
            from: self.base + run.from,
            to: self.base + run.to,
            ..row
        };
    }

    /// A row of the ring that no run has: the last, or another one.
    fn spare(&mut self) -> usize
        requires table { IsTable self.old.base self.old.len self.old.rows.items }
        requires room { suc self.old.len < vec_capacity self.old.rows }
        requires few { self.old.len < 4096 }
        ensures table { IsTable self.new.base self.new.len self.new.rows.items }
        ensures base { self.new.base ≡ self.old.base }
        ensures len { self.new.len ≡ self.old.len }
        ensures newest { newest self.new.base self.new.len self.new.rows.items ≡ newest self.old.base self.old.len self.old.rows.items }
        ensures placed { placed self.new.base self.new.len self.new.rows.items ≡ placed self.old.base self.old.len self.old.rows.items }
        ensures more { suc self.new.len < length self.new.rows.items }
        ensures room { vec_capacity self.old.rows ≤ vec_capacity self.new.rows }
        ensures row { 0 < count result (loop_of self.new.rows.items) }
        ensures none { count result (take self.new.len (loop_of self.new.rows.items)) ≡ 0 }
    {
        if self.len as usize + 1 == self.rows.len() {
            grow(&mut self.rows);
            self.rows.len() - 1
        } else {
            self.rows[0].newer as usize
        }
    }

    /// Makes another run, the newest, at an index of the order.
    fn insert(&mut self, index: usize, run: Run)
        requires table { IsTable self.old.base self.old.len self.old.rows.items }
        requires within { index ≤ self.old.len }
        requires room { suc self.old.len < vec_capacity self.old.rows }
        requires few { self.old.len < 4096 }
        requires first { run.from ≤ max_capacity }
        requires last { run.to ≤ max_capacity }
        requires rising { let runs = placed self.old.base self.old.len self.old.rows.items in
            Rising 0 (take index runs ++ run ∷ drop index runs) }
        ensures table { IsTable self.new.base self.new.len self.new.rows.items }
        ensures runs { newest self.new.base self.new.len self.new.rows.items ≡ run ∷ newest self.old.base self.old.len self.old.rows.items }
        ensures room { vec_capacity self.old.rows ≤ vec_capacity self.new.rows }
    {
        let id = self.spare();
        self.write(id, run);
        to_front(&mut self.rows, id);
        order_in(&mut self.rows, index, self.len as usize, id);
        self.len += 1;
    }

    /// Makes the run at an index of the order another, and the newest.
    fn renew(&mut self, index: usize, run: Run)
        requires table { IsTable self.old.base self.old.len self.old.rows.items }
        requires within { index < self.old.len }
        requires first { run.from ≤ max_capacity }
        requires last { run.to ≤ max_capacity }
        requires rising { let runs = placed self.old.base self.old.len self.old.rows.items in
            Rising 0 (take index runs ++ run ∷ drop (suc index) runs) }
        ensures table { IsTable self.new.base self.new.len self.new.rows.items }
        ensures runs { let recent = take self.old.len (loop_of self.old.rows.items) in
            newest self.new.base self.new.len self.new.rows.items ≡ run ∷ runs_at self.old.base (spans self.old.rows.items) (without (at (orders self.old.rows.items) index) recent) }
        ensures room { vec_capacity self.old.rows ≤ vec_capacity self.new.rows }
    {
        let id = self.row_at(index);
        self.write(id, run);
        to_front(&mut self.rows, id);
    }

    /// Joins a piece with the runs that touch it, to the newest run.
    pub(crate) fn put(&mut self, first: usize, past: usize, piece: Run)
        requires table { IsTable self.old.base self.old.len self.old.rows.items }
        requires touched { AreTouched (placed self.old.base self.old.len self.old.rows.items) piece first past }
        requires some { 0 < piece.from }
        requires ordered { piece.from < piece.to }
        requires within { (whole_of (run_of piece) (run_of piece) (runs_in (newest self.old.base self.old.len self.old.rows.items))).to ≤ max_capacity }
        requires room { suc (self.old.len - (past - first)) < vec_capacity self.old.rows }
        requires few { self.old.len - (past - first) < 4096 }
        ensures table { IsTable self.new.base self.new.len self.new.rows.items }
        ensures runs { let runs = runs_in (newest self.old.base self.old.len self.old.rows.items) in
            runs_in (newest self.new.base self.new.len self.new.rows.items) ≡ whole_of (run_of piece) (run_of piece) runs ∷ rest_of (run_of piece) runs }
        ensures room { vec_capacity self.old.rows ≤ vec_capacity self.new.rows }
    {
        let union = self.union_of(first, past, piece);
        if first >= past {
            self.insert(first, union);
            return;
        }
        self.remove(first + 1, past);
        self.renew(first, union);
    }

    /// Removes the first runs, as many as `past`, those that a piece touches that begins at offset 0, and as many offsets
    /// before the others as come in order with it.
    pub(crate) fn advance(&mut self, past: usize, piece: Run, count: u32)
        requires table { IsTable self.old.base self.old.len self.old.rows.items }
        requires touched { AreTouched (placed self.old.base self.old.len self.old.rows.items) piece 0 past }
        requires some { piece.from < piece.to }
        requires count { count ≡ (whole_of (run_of piece) (run_of piece) (runs_in (newest self.old.base self.old.len self.old.rows.items))).to }
        requires within { count ≤ max_capacity }
        ensures table { IsTable self.new.base self.new.len self.new.rows.items }
        ensures runs { runs_in (newest self.new.base self.new.len self.new.rows.items) ≡ map (moved count) (rest_of (run_of piece) (runs_in (newest self.old.base self.old.len self.old.rows.items))) }
        ensures few { self.new.len ≤ self.old.len }
        ensures room { vec_capacity self.old.rows ≤ vec_capacity self.new.rows }
    {
        self.remove(0, past);
        self.move_on(count);
    }

    /// Counts from an offset on, before which no run is.
    fn move_on(&mut self, count: u32)
        requires table { IsTable self.old.base self.old.len self.old.rows.items }
        requires within { count ≤ max_capacity }
        requires rising { Rising count (placed self.old.base self.old.len self.old.rows.items) }
        ensures table { IsTable self.new.base self.new.len self.new.rows.items }
        ensures runs { runs_in (newest self.new.base self.new.len self.new.rows.items) ≡ map (moved count) (runs_in (newest self.old.base self.old.len self.old.rows.items)) }
        ensures len { self.new.len ≡ self.old.len }
        ensures room { vec_capacity self.old.rows ≤ vec_capacity self.new.rows }
    {
        if self.len == 0 {
            self.base = 0;
            return;
        }
        let base = self.base + count;
        if base > MAX_BASE {
            settle(&mut self.rows, base);
            self.base = 0;
        } else {
            self.base = base;
        }
    }

    /// The newest runs, at most four: each as the offset of its first byte and that after its last.
    pub(crate) fn edges(&self) -> ArrayVec<(u32, u32), 4>
        requires { IsTable self.now.base self.now.len self.now.rows.items }
        ensures { result.items ≡ map (λ (run : Interval). (run.from, run.to)) (runs_in (take (min max_blocks self.now.len) (newest self.now.base self.now.len self.now.rows.items))) }
    {
        let mut edges = ArrayVec::new();
        let count = MAX_BLOCKS.min(self.len as usize);
        let mut id = 0;
        while edges.len() < count {
            id = self.rows[id].older as usize;
            let run = self.run_of(id);
            edges.push((run.from, run.to));
        }
        edges
    }
}
