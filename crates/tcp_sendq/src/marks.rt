//! The marked bytes of a queue, as a table of intervals.
ghost use Rattle.std.specs.Prelude.{◌<◌, ◌↔◌, IsTrue, IfOk, vec_capacity, ◌≡◌, ◌≤◌, [], ◌∷◌, ◌++◌, take, drop, length, nat_le, if◌then◌else◌};
ghost use Rattle.tcp_sendq.specs.Marks.{interval, moved_down, joined, count_before, count_to, count_ended, first_uncovered, next_start, last_end, lowered, total, AreInOrder};
ghost use Rattle.tcp_sendq.specs.SendQueue.{max_capacity};

use std::alloc::{AllocError, Allocator, Global};

/// A run of marked bytes.
#[derive(Clone, Copy, Debug, Default)]
struct Interval {
    /// The offset of its first byte.
    start: u32,
    /// The offset after its last byte.
    end: u32,
}

/// The marked bytes of a queue.
#[derive(Debug, Drop)]
pub(crate) struct Marks<A: Allocator = Global> {
    /// The runs in order, none of them empty; between any two is a byte that isn't marked. It has room for all.
    table: Vec<Interval, A>,
}

impl<A: Allocator> Marks<A> {
    /// No byte is marked. There is room for `runs` runs.
    pub(crate) fn new_in(alloc: A, runs: usize) -> Result<Self, AllocError>
        ensures items { IfOk result (λ marks. marks.table.items ≡ []) }
        ensures room { IfOk result (λ marks. runs ≤ vec_capacity marks.table) }
    {
        let table = Vec::with_capacity(alloc, runs)?;
        Ok(Marks { table })
    }

    /// Removes every mark.
    pub(crate) fn clear(&mut self)
        ensures items { self.new.table.items ≡ [] }
        ensures room { vec_capacity self.old.table ≤ vec_capacity self.new.table }
    {
        self.table.clear();
    }

    /// Removes the first `n` bytes, so that the others move down.
    pub(crate) fn release(&mut self, n: u32)
        ensures items { self.new.table.items ≡ moved_down n self.old.table.items }
        ensures room { vec_capacity self.old.table ≤ vec_capacity self.new.table }
    {
        self.table.retain_mut(|run| {
            run.start = run.start.saturating_sub(n);
            run.end = run.end.saturating_sub(n);
            run.end > 0
        });
    }

    /// Whether no byte is marked.
    pub(crate) fn is_empty(&self) -> bool
        ensures { IsTrue result ↔ (length self.now.table.items ≡ 0) }
    {
        self.table.is_empty()
    }

    /// Removes the runs that end at the offset `place` or before it. What follows them moves no further.
    pub(crate) fn cut(&mut self, place: u32)
        requires { AreInOrder self.old.table.items }
        ensures items { self.new.table.items ≡ drop (count_ended place self.old.table.items) self.old.table.items }
        ensures room { vec_capacity self.old.table ≤ vec_capacity self.new.table }
    {
        let ended = self.count_ended(place);
        self.remove_range(0, ended);
    }

    /// Removes the runs from the index `from` on and before `to`. Those behind them move once.
    fn remove_range(&mut self, from: usize, to: usize)
        requires ordered { from ≤ to }
        requires within { to ≤ length self.old.table.items }
        ensures items { self.new.table.items ≡ take from self.old.table.items ++ drop to self.old.table.items }
        ensures room { vec_capacity self.old.table ≤ vec_capacity self.new.table }
    {
        if from == to {
            return;
        }
        // Mostly it is one, and `remove` moves whole blocks.
        if to - from == 1 {
            let _ = self.table.remove(from);
            return;
        }
        let len = self.table.len() - (to - from);
        self.table.copy_within(to.., from);
        self.table.truncate(len);
    }

    /// How many runs end at the offset `place` or before it.
    fn count_ended(&self, place: u32) -> usize
        requires { AreInOrder self.now.table.items }
        ensures value { result ≡ count_ended place self.now.table.items }
        ensures within { result ≤ length self.now.table.items }
    {
        self.table
            .as_slice()
            .partition_point(|run| run.end <= place)
    }

    /// Marks the bytes from the offset `from` on and before `to`, unless that makes more than `most` runs: then it returns
    /// false, and nothing changes.
    pub(crate) fn mark(&mut self, from: u32, to: u32, most: usize) -> bool
        requires ordered { from < to }
        requires in_order { AreInOrder self.old.table.items }
        requires room { most ≤ vec_capacity self.old.table }
        requires few { length self.old.table.items ≤ most }
        ensures room { vec_capacity self.old.table ≤ vec_capacity self.new.table }
        ensures value { result ≡ nat_le (length (joined (interval from to) self.old.table.items)) most }
        ensures state { self.new.table.items ≡ (if result then joined (interval from to) self.old.table.items else self.old.table.items) }
    {
        let place = self.count_before(from);
        let past = self.count_to(to);
        if place < past {
            self.join(from, to, place, past);
            return true;
        }
        if self.table.len() >= most {
            return false;
        }
        let run = Interval {
            start: from,
            end: to,
        };
        let _ = self.table.insert(place, run);
        true
    }

    /// Joins the bytes from the offset `from` on and before `to` with the runs from the index `place` on and before `past`,
    /// those that they overlap or touch, into one run. Those behind move once.
    fn join(&mut self, from: u32, to: u32, place: usize, past: usize)
        requires ordered { from < to }
        requires in_order { AreInOrder self.old.table.items }
        requires first { place ≡ count_before from self.old.table.items }
        requires behind { past ≡ count_to to self.old.table.items }
        requires some { place < past }
        requires within { past ≤ length self.old.table.items }
        ensures items { self.new.table.items ≡ joined (interval from to) self.old.table.items }
        ensures shorter { length self.new.table.items ≤ length self.old.table.items }
        ensures room { vec_capacity self.old.table ≤ vec_capacity self.new.table }
    {
        let run = Interval {
            start: from.min(self.table[place].start),
            end: to.max(self.table[past - 1].end),
        };
        self.replace(place, past, run);
    }

    /// Puts `run` in the place of those from the index `place` on and before `past`.
    fn replace(&mut self, place: usize, past: usize, run: Interval)
        requires some { place < past }
        requires within { past ≤ length self.old.table.items }
        ensures items { self.new.table.items ≡ take place self.old.table.items ++ run ∷ drop past self.old.table.items }
        ensures room { vec_capacity self.old.table ≤ vec_capacity self.new.table }
    {
        self.table[place] = run;
        self.remove_range(place + 1, past);
    }

    /// How many runs end before the offset `from`.
    fn count_before(&self, from: u32) -> usize
        requires { AreInOrder self.now.table.items }
        ensures value { result ≡ count_before from self.now.table.items }
        ensures within { result ≤ length self.now.table.items }
    {
        self.table.as_slice().partition_point(|run| run.end < from)
    }

    /// How many runs begin at or before the offset `to`.
    fn count_to(&self, to: u32) -> usize
        requires { AreInOrder self.now.table.items }
        ensures value { result ≡ count_to to self.now.table.items }
        ensures within { result ≤ length self.now.table.items }
    {
        self.table.as_slice().partition_point(|run| run.start <= to)
    }

    /// The first offset from `at` on that isn't marked.
    pub(crate) fn first_unmarked(&self, at: usize) -> usize
        requires { AreInOrder self.now.table.items }
        ensures { result ≡ first_uncovered at self.now.table.items }
    {
        let runs = self.table.as_slice();
        let place = runs.partition_point(|run| run.end as usize <= at);
        let Some(run) = runs.get(place) else {
            return at;
        };
        if run.start as usize <= at {
            run.end as usize
        } else {
            at
        }
    }

    /// Where the first run after the offset `from` begins.
    pub(crate) fn next_start(&self, from: usize) -> Option<usize>
        requires { AreInOrder self.now.table.items }
        ensures { result ≡ next_start from self.now.table.items }
    {
        let runs = self.table.as_slice();
        let place = runs.partition_point(|run| run.start as usize <= from);
        let run = runs.get(place)?;
        Some(run.start as usize)
    }

    /// The offset after the last marked byte.
    pub(crate) fn last_end(&self) -> Option<usize>
        ensures { result ≡ last_end self.now.table.items }
    {
        self.table.last().map(|run| run.end as usize)
    }

    /// How many bytes from the offset `base` on are marked.
    pub(crate) fn count_from(&self, base: usize) -> usize
        requires { total (lowered base self.now.table.items) ≤ max_capacity }
        ensures { result ≡ total (lowered base self.now.table.items) }
    {
        let mut count = 0;
        for run in self.table.as_slice() {
            let start = (run.start as usize).saturating_sub(base);
            let end = (run.end as usize).saturating_sub(base);
            count += end.saturating_sub(start);
        }
        count
    }
}
