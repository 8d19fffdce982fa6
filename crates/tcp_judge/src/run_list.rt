//! Runs of numbers that came, in the order of their distance from an acknowledgement.
ghost use Rattle.std.specs.Prelude.{◌≡◌, ℕ, ◌+◌, ◌<◌, ◌≤◌, ◌^◌, All, List, true, length};
ghost use Rattle.std.specs.Vec.{vec_len, vec_capacity};
ghost use Rattle.tcp_numbers.specs.declared.seq.Seq.{Seq};
ghost use Rattle.tcp_wire.specs.Position.{distance};
ghost use Rattle.tcp_judge.specs.Heard.{covers, has_come};
ghost use Rattle.tcp_judge.specs.Run.{IsRun, number_before};

use crate::lookup::count_in;
use std::alloc::Allocator;
use tcp_wire::Seq;

/// So few spans are put among the runs one by one.
const FEW: usize = 16;

/// The part of a span, or of a run, that is less than 2^31 ahead of an acknowledgement.
fn ahead_of(acked_number: Seq, span: (Seq, u32)) -> (Seq, u32)
    ensures near { distance acked_number.0 result.0.0 + result.1 ≤ 2 ^ 31 }
    ensures part { (n : ℕ) → covers n result ≡ true → covers n span ≡ true }
{
    let ahead = span.0.minus(acked_number);
    if ahead < 1 << 31 {
        return (span.0, span.1.min((1 << 31) - ahead));
    }
    let behind = acked_number.minus(span.0);
    (acked_number, span.1.saturating_sub(behind).min(1 << 31))
}

/// How many of the runs begin at this number or before it.
fn count_up_to(runs: &[(Seq, u32)], acked_number: Seq, number: Seq) -> usize
    ensures { result ≤ length runs.now }
{
    let ahead = number.minus(acked_number);
    let mut low = 0;
    let mut high = runs.len();
    while low < high {
        let middle = low + (high - low) / 2;
        if runs[middle].0.minus(acked_number) <= ahead {
            low = middle + 1;
        } else {
            high = middle;
        }
    }
    low
}

/// How many numbers up to this one are in the run that has it, or 0.
pub(crate) fn count_among<A: Allocator>(
    runs: &Vec<(Seq, u32), A>,
    acked_number: Seq,
    wanted: Seq,
) -> u32
    ensures { (last : ℕ) (spans : List (Seq × ℕ)) → All (IsRun last spans) runs.now.items → (j : ℕ) → j < result → has_come spans (number_before wanted.0 j) ≡ true }
{
    let place = count_up_to(runs.as_slice(), acked_number, wanted);
    if place == 0 {
        return 0;
    }
    count_in(wanted, runs[place - 1])
}

/// Whether the second run begins among the numbers of the first, or right behind them.
fn touches(one: (Seq, u32), other: (Seq, u32)) -> bool
    ensures { result ≡ true → distance one.0.0 other.0.0 ≤ one.1 }
{
    other.0.minus(one.0) <= one.1
}

/// The two as one.
fn joined(one: (Seq, u32), other: (Seq, u32)) -> (Seq, u32)
    requires { distance one.0.0 other.0.0 ≤ one.1 }
    ensures { (last : ℕ) (spans : List (Seq × ℕ)) → IsRun last spans one → IsRun last spans other → IsRun last spans result }
{
    let between = other.0.minus(one.0);
    (one.0, one.1.max(between.saturating_add(other.1)))
}

/// Removes the runs from one index up to another.
fn remove_between<A: Allocator>(runs: &mut Vec<(Seq, u32), A>, from: usize, to: usize)
    requires from { from ≤ to }
    requires to { to ≤ vec_len runs.old }
    ensures { (last : ℕ) (spans : List (Seq × ℕ)) → All (IsRun last spans) runs.old.items → All (IsRun last spans) runs.new.items }
{
    let mut at = from;
    for i in to..runs.len() {
        runs[at] = runs[i];
        at += 1;
    }
    runs.truncate(at);
}

/// Puts `run` in the place of the runs from one index up to another.
fn put_between<A: Allocator>(runs: &mut Vec<(Seq, u32), A>, from: usize, to: usize, run: (Seq, u32))
    requires from { from ≤ to }
    requires to { to ≤ vec_len runs.old }
    ensures { (last : ℕ) (spans : List (Seq × ℕ)) → IsRun last spans run → All (IsRun last spans) runs.old.items → All (IsRun last spans) runs.new.items }
{
    if from == to {
        let _ = runs.insert(from, run);
        return;
    }
    runs[from] = run;
    if to - from > 1 {
        remove_between(runs, from + 1, to);
    }
}

/// Adds a run, joined with those that it touches.
fn put<A: Allocator>(runs: &mut Vec<(Seq, u32), A>, acked_number: Seq, run: (Seq, u32))
    ensures { (last : ℕ) (spans : List (Seq × ℕ)) → IsRun last spans run → All (IsRun last spans) runs.old.items → All (IsRun last spans) runs.new.items }
{
    let at = count_up_to(runs, acked_number, run.0);
    let mut from = at;
    let mut whole = run;
    if at > 0 && touches(runs[at - 1], run) {
        from = at - 1;
        whole = joined(runs[at - 1], run);
    }
    let mut to = at;
    while to < runs.len() && touches(whole, runs[to]) {
        whole = joined(whole, runs[to]);
        to += 1;
    }
    put_between(runs, from, to, whole);
}

/// Adds spans from an index on, each at its place among the runs, and returns the index of the first that isn't added.
/// Where there is no memory none is added.
fn put_spans<A: Allocator>(
    runs: &mut Vec<(Seq, u32), A>,
    acked_number: Seq,
    spans: &[(Seq, u32)],
    first: usize,
) -> usize
    ensures { All (IsRun acked_number.0 spans.now) runs.old.items → All (IsRun acked_number.0 spans.now) runs.new.items }
{
    let mut at = first;
    while at < spans.len() && runs.reserve(1).is_ok() {
        let run = ahead_of(acked_number, spans[at]);
        if run.1 > 0 {
            put(runs, acked_number, run);
        }
        at += 1;
    }
    at
}

/// The same, each behind the last run.
fn append_spans<A: Allocator>(
    runs: &mut Vec<(Seq, u32), A>,
    acked_number: Seq,
    spans: &[(Seq, u32)],
    first: usize,
) -> usize
    ensures { All (IsRun acked_number.0 spans.now) runs.old.items → All (IsRun acked_number.0 spans.now) runs.new.items }
{
    let mut at = first;
    while at < spans.len() && runs.reserve(1).is_ok() {
        let run = ahead_of(acked_number, spans[at]);
        if run.1 > 0 {
            runs.push_reserved(run);
        }
        at += 1;
    }
    at
}

/// Joins the run at an index with the last of the first `kept`, where it touches that, or else puts it behind them, and
/// returns how many these are then.
fn join_at<A: Allocator>(runs: &mut Vec<(Seq, u32), A>, kept: usize, i: usize) -> usize
    requires before { kept ≤ i }
    requires inside { i < vec_len runs.old }
    ensures kept { result ≤ kept + 1 }
    ensures len { vec_len runs.new ≡ vec_len runs.old }
    ensures runs { (last : ℕ) (spans : List (Seq × ℕ)) → All (IsRun last spans) runs.old.items → All (IsRun last spans) runs.new.items }
{
    let run = runs[i];
    if kept > 0 {
        let before = runs[kept - 1];
        if touches(before, run) {
            runs[kept - 1] = joined(before, run);
            return kept;
        }
    }
    runs[kept] = run;
    kept + 1
}

/// Joins each run with the one before it, where it touches that.
fn join_all<A: Allocator>(runs: &mut Vec<(Seq, u32), A>)
    ensures { (last : ℕ) (spans : List (Seq × ℕ)) → All (IsRun last spans) runs.old.items → All (IsRun last spans) runs.new.items }
{
    let mut kept = 0;
    for i in 0..runs.len() {
        kept = join_at(runs, kept, i);
    }
    runs.truncate(kept);
}

/// Puts the runs into their order again, and joins them.
fn order<A: Allocator>(runs: &mut Vec<(Seq, u32), A>, acked_number: Seq)
    ensures { (last : ℕ) (spans : List (Seq × ℕ)) → All (IsRun last spans) runs.old.items → All (IsRun last spans) runs.new.items }
{
    runs.sort_unstable_by_key(|run: &(Seq, u32)| -> u32 { run.0.minus(acked_number) });
    join_all(runs);
}

/// Adds the spans from an index on, and returns the index of the first that isn't added. A few are put among the runs one
/// by one, which moves the runs behind each. Where there are more all runs are put in order at once, so that many that
/// came in an order of a stranger's choice cost no move for each pair of them.
pub(crate) fn add_spans<A: Allocator>(
    runs: &mut Vec<(Seq, u32), A>,
    acked_number: Seq,
    spans: &[(Seq, u32)],
    first: usize,
) -> usize
    ensures { All (IsRun acked_number.0 spans.now) runs.old.items → All (IsRun acked_number.0 spans.now) runs.new.items }
{
    if spans.len().saturating_sub(first) <= FEW {
        return put_spans(runs, acked_number, spans, first);
    }
    let at = append_spans(runs, acked_number, spans, first);
    order(runs, acked_number);
    at
}

/// Leaves of each run what is ahead of another acknowledgement.
pub(crate) fn cut<A: Allocator>(runs: &mut Vec<(Seq, u32), A>, last: Seq, acked_number: Seq)
    ensures { (spans : List (Seq × ℕ)) → All (IsRun last.0 spans) runs.old.items → All (IsRun acked_number.0 spans) runs.new.items }
{
    if last.0 == acked_number.0 {
        return;
    }
    let mut kept = 0;
    for i in 0..runs.len() {
        let run = ahead_of(acked_number, runs[i]);
        if run.1 > 0 {
            runs[kept] = run;
            kept += 1;
        }
    }
    runs.truncate(kept);
}
