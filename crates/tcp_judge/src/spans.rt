//! What came, as numbers: in order of arrival, and as runs.
ghost use Rattle.std.specs.Prelude.{◌≡◌, ℕ, All, List, ◌<◌, ◌++◌, ◌∷◌, [], ◌≤◌, ◌^◌, OnOk, OnErr, true, false, nat_le, length, take};
ghost use Rattle.std.specs.Vec.{vec_len};
ghost use Rattle.tcp_wire.specs.Position.{distance};
ghost use Rattle.tcp_judge.specs.Heard.{has_come, goes_on, without_passed};
ghost use Rattle.tcp_numbers.specs.declared.seq.Seq.{Seq};
ghost use Rattle.tcp_judge.specs.Run.{IsRun, number_before};

use crate::lookup::{find_from, is_from, is_passed};
use crate::run_list::{add_spans, count_among, cut};
use std::alloc::{AllocError, Allocator};
use std::fmt;
use std::marker::Model;
use tcp_wire::Seq;

/// So few spans are looked through as fast as runs of them.
const FEW: usize = 8;

/// The number of each segment that came, and how many numbers it takes, in order of arrival.
#[derive(Drop)]
pub(crate) struct Spans<A: Allocator> {
    list: Vec<(Seq, u32), A>,
    /// The acknowledgement whose spans were forgotten last.
    acked_number: Seq,
    /// So many spans, from the first on, aren't before that.
    clean: usize,
    /// Numbers ahead of it that came, joined to runs. What isn't in one of these is looked up in the list.
    runs: Vec<(Seq, u32), A>,
    /// The same of numbers behind it, which are 2^31 and more ahead.
    older: Vec<(Seq, u32), A>,
    /// So many spans, from the first on, are in the runs.
    added: usize,
}

impl<A: Allocator> Model for Spans<A> {
    ghost use Rattle.std.specs.Prelude.{◌≡◌, ℕ, ◌≤◌, ◌^◌, All, List, length, take};
    ghost use Rattle.tcp_numbers.specs.declared.seq.Seq.{Seq};
    ghost use Rattle.tcp_wire.specs.Position.{number};
    ghost use Rattle.tcp_judge.specs.Heard.{without_passed};
    ghost use Rattle.tcp_judge.specs.Run.{IsRun};

    ghost Value = { List (Seq × ℕ) };

    ghost view = { λ s. s.list.items };

    ghost invariant = { λ s. (s.clean ≤ length s.list.items) × (without_passed s.acked_number.0 (take s.clean s.list.items) ≡ take s.clean s.list.items) × All (IsRun s.acked_number.0 s.list.items) s.runs.items × All (IsRun (number s.acked_number.0 (2 ^ 31)) s.list.items) s.older.items };
}

impl<A: Allocator> fmt::Debug for Spans<A> {
    fn fmt<W: fmt::Write>(&self, f: &mut fmt::Formatter<W>) -> fmt::Result {
        fmt::Debug::fmt(&self.list, f)
    }
}

/// Whether one of the runs isn't all before an acknowledgement. It decides what is looked up how, and no answer.
fn any_stays(runs: &[(Seq, u32)], acked_number: Seq) -> bool {
    for run in runs {
        if !is_passed(acked_number, *run) {
            return true;
        }
    }
    false
}

/// Forgets all runs, where they have to be joined anew.
fn clear_if<A: Allocator>(anew: bool, runs: &mut Vec<(Seq, u32), A>)
    ensures { (last : ℕ) (spans : List (Seq × ℕ)) → All (IsRun last spans) runs.old.items → All (IsRun last spans) runs.new.items }
{
    if anew {
        runs.clear();
    }
}

/// Forgets the spans before an acknowledgement, of which none is among the first `clean`.
fn remove_passed<A: Allocator>(spans: &mut Vec<(Seq, u32), A>, clean: usize, acked_number: Seq)
    requires inside { clean ≤ vec_len spans.old }
    requires none { without_passed acked_number.0 (take clean spans.old.items) ≡ take clean spans.old.items }
    ensures { spans.new.items ≡ without_passed acked_number.0 spans.old.items }
{
    let mut kept = clean;
    for i in clean..spans.len() {
        let span = spans[i];
        if !is_passed(acked_number, span) {
            spans[kept] = span;
            kept += 1;
        }
    }
    spans.truncate(kept);
}

impl<A: Allocator + Copy> Spans<A> {
    /// Nothing came.
    pub(crate) fn new(alloc: A) -> Self
        ensures { result ≡ [] }
    {
        Spans {
            list: Vec::new(alloc),
            acked_number: Seq(0),
            clean: 0,
            runs: Vec::new(alloc),
            older: Vec::new(alloc),
            added: 0,
        }
    }

    /// Adds a segment that came.
    pub(crate) fn push(&mut self, first: Seq, count: u32) -> Result<(), AllocError>
        ensures kept { OnOk result (self.new ≡ self.old ++ (first, count) ∷ []) }
        ensures err { OnErr result (self.new ≡ self.old) }
    {
        self.list.reserve(1)?;
        self.list.push_reserved((first, count));
        Ok(())
    }

    /// Adds what came since the last time to the runs, where that pays. What is added to one of the two alone is looked up
    /// in the list.
    pub(crate) fn note(&mut self)
        ensures { self.new ≡ self.old }
    {
        if self.list.len() <= FEW {
            return;
        }
        let at = add_spans(
            &mut self.runs,
            self.acked_number,
            self.list.as_slice(),
            self.added,
        );
        add_spans(
            &mut self.older,
            self.acked_number.plus(1 << 31),
            self.list.as_slice(),
            self.added,
        );
        self.added = at;
    }

    /// How many numbers up to this one are in a run.
    fn count_in_run(&self, wanted: Seq) -> u32
        ensures { (j : ℕ) → j < result → has_come self.now (number_before wanted.0 j) ≡ true }
    {
        if is_from(self.acked_number, wanted) {
            return count_among(&self.runs, self.acked_number, wanted);
        }
        count_among(&self.older, self.acked_number.plus(1 << 31), wanted)
    }

    /// How many numbers up to this one came with it, as far as they are in one run or one span, which is looked for from
    /// index `at` on first, and the index to go on from. They are 0 where it didn't come.
    fn find(&self, at: usize, wanted: Seq) -> (usize, u32)
        requires { at ≤ length self.now }
        ensures came { (j : ℕ) → j < result.1 → has_come self.now (number_before wanted.0 j) ≡ true }
        ensures none { result.1 ≡ 0 → has_come self.now wanted.0 ≡ false }
        ensures inside { result.0 ≤ length self.now }
    {
        let count = self.count_in_run(wanted);
        if count > 0 {
            return (at, count);
        }
        find_from(self.list.as_slice(), at, wanted)
    }

    /// How many numbers right before `acked_number` came without a gap. No more than `most` are looked for.
    pub(crate) fn count_before(&self, acked_number: Seq, most: u32) -> u32
        ensures { (from : ℕ) → from < 2 ^ 32 → distance from acked_number.0 ≤ most → goes_on self.now from acked_number.0 ≡ nat_le (distance from acked_number.0) result }
    {
        let mut at = 0;
        let mut count = 0;
        while count < most {
            let (place, more) = self.find(at, acked_number.plus(u32::MAX - count));
            if more == 0 {
                return count;
            }
            at = place;
            count = count.saturating_add(more);
        }
        count
    }

    /// Whether each number from this one up to `acked_number` came.
    pub(crate) fn goes_on(&self, from: Seq, acked_number: Seq) -> bool
        ensures { result ≡ goes_on self.now from.0 acked_number.0 }
    {
        let count = acked_number.minus(from);
        count <= self.count_before(acked_number, count)
    }

    /// Forgets the spans before an acknowledgement.
    pub(crate) fn forget(&mut self, acked_number: Seq)
        ensures { self.new ≡ without_passed acked_number.0 self.old }
    {
        let is_same = acked_number.0 == self.acked_number.0;
        let clean = if is_same { self.clean } else { 0 };
        // What was behind the last acknowledgement may be ahead of this one, as behind a SYN: all is joined to runs anew.
        let is_turned = !is_same && any_stays(self.older.as_slice(), acked_number);
        let waiting = self.list.len().saturating_sub(self.added);
        remove_passed(&mut self.list, clean, acked_number);
        clear_if(is_turned, &mut self.runs);
        cut(&mut self.runs, self.acked_number, acked_number);
        self.older.clear();
        self.acked_number = acked_number;
        self.clean = self.list.len();
        self.added = if is_turned {
            0
        } else {
            self.clean.saturating_sub(waiting)
        };
    }
}
