//! Lists of stretches in order.
ghost use Rattle.std.specs.Prelude.{ℕ, ◌≡◌, ◌+◌, ◌<◌, ◌≤◌, ◌++◌, ◌∷◌, [], suc, length};
ghost use Rattle.arrayvec.specs.ArrayVec.{array_vec_len};
ghost use Rattle.tcp_recovery.specs.Stretches.{AreInOrder, appended, are_first, before, behind, cut_out, distance, first_of, fitted, least_distance, resent_of, with_joined, without};

use crate::stretch::Stretch;
use arrayvec::ArrayVec;

/// How many stretches are kept.
pub const MAX_STRETCHES: usize = 64;

/// Cutting one out makes two more.
pub(crate) const ROOM: usize = 66;

/// Appends what of the stretches is before a position.
fn push_before(out: &mut ArrayVec<Stretch, ROOM>, all: &[Stretch], at: u64)
    requires { array_vec_len out.old + length (before at all.now) ≤ 66 }
    ensures { out.new.items ≡ out.old.items ++ before at all.now }
{
    for s in all {
        if s.start < at {
            out.push(s.before(at));
        }
    }
}

/// Appends what of the stretches is from a position on.
fn push_behind(out: &mut ArrayVec<Stretch, ROOM>, all: &[Stretch], at: u64)
    requires { array_vec_len out.old + length (behind at all.now) ≤ 66 }
    ensures { out.new.items ≡ out.old.items ++ behind at all.now }
{
    for s in all {
        if at < s.end {
            out.push(s.behind(at));
        }
    }
}

/// Cuts out what goes out again, as a stretch of its own. Its list is off the stack before the next one is made.
#[inline(never)]
fn cut_out(all: &mut ArrayVec<Stretch, ROOM>, start: u64, end: u64, now: u64)
    requires { length (before start all.old.items) + length (behind end all.old.items) ≤ 65 }
    ensures { all.new.items ≡ cut_out start end now all.old.items }
{
    let mut out = ArrayVec::new();
    push_before(&mut out, all.as_slice(), start);
    out.push(Stretch::segment(start, end, now, true));
    push_behind(&mut out, all.as_slice(), end);
    *all = out;
}

/// New text.
fn append(out: &mut ArrayVec<Stretch, ROOM>, start: u64, end: u64, now: u64, span: u64)
    requires { array_vec_len out.old ≤ 64 }
    ensures { out.new.items ≡ appended start end now span out.old.items }
{
    if let Some(s) = out.pop() {
        if s.extends(start, now, span) {
            out.push(s.followed_by(end, now));
            return;
        }
        out.push(s);
        out.push(Stretch::segment(start, end, now, false));
        return;
    }
    out.push(Stretch::segment(start, end, now, false));
}

/// The least distance of two neighbours.
fn least_of(first: &Stretch, later: &[Stretch], most: u64) -> u64
    ensures { result ≡ least_distance most (first.now ∷ later.now) }
{
    let mut least = most;
    let mut before = *first;
    for s in later {
        least = least.min(before.distance(s));
        before = *s;
    }
    least
}

/// The first two whose distance is so little as one, into a list that is empty.
fn join_at(first: &Stretch, later: &[Stretch], least: u64, out: &mut ArrayVec<Stretch, ROOM>)
    requires few { length later.now < 66 }
    requires empty { out.old.items ≡ [] }
    ensures { out.new.items ≡ with_joined least (first.now ∷ later.now) }
{
    let mut before = *first;
    let mut is_joined = false;
    for s in later {
        if !is_joined && before.distance(s) <= least {
            before = before.joined(*s);
            is_joined = true;
        } else {
            out.push(before);
            before = *s;
        }
    }
    out.push(before);
}

/// Joins the two nearest in time where there are too many.
fn fit(all: &mut ArrayVec<Stretch, ROOM>)
    requires { array_vec_len all.old ≤ 66 }
    ensures { all.new.items ≡ fitted all.old.items }
{
    if all.len() <= MAX_STRETCHES {
        return;
    }
    let mut thinned = ArrayVec::new();
    match all.as_slice() {
        [first, second, ..] => {
            let later = &all.as_slice()[1..];
            let least = least_of(second, &later[1..], first.distance(second));
            join_at(first, later, least, &mut thinned);
        }
        _ => return,
    }
    *all = thinned;
}

/// New text, behind all that is in flight.
pub(crate) fn place_new(
    all: &mut ArrayVec<Stretch, ROOM>,
    start: u64,
    end: u64,
    now: u64,
    span: u64,
)
    requires { array_vec_len all.old ≤ 64 }
    ensures { all.new.items ≡ fitted (appended start end now span all.old.items) }
{
    append(all, start, end, now, span);
    fit(all);
}

/// What goes out again.
pub(crate) fn place_again(all: &mut ArrayVec<Stretch, ROOM>, start: u64, end: u64, now: u64)
    requires { length (before start all.old.items) + length (behind end all.old.items) ≤ 65 }
    ensures { all.new.items ≡ fitted (fitted (cut_out start end now all.old.items)) }
{
    cut_out(all, start, end, now);
    fit(all);
    fit(all);
}

/// Removes the numbers from `start` on and before `end`. Mostly they are the first of the first stretch, and no other
/// one is touched.
pub(crate) fn remove(all: &mut ArrayVec<Stretch, ROOM>, start: u64, end: u64)
    requires order { (to : ℕ) × AreInOrder 0 to all.old.items }
    requires some { start < end }
    requires few { array_vec_len all.old ≤ 64 }
    ensures { all.new.items ≡ fitted (without start end all.old.items) }
{
    if !are_first(all.as_slice(), start, end) {
        rebuild(all, start, end);
        return;
    }
    if let Some(first) = all.get_mut(0) {
        *first = first.behind(end);
    }
}

/// Whether the numbers from `start` on and before `end` are the first of the first stretch, and it has more.
fn are_first(all: &[Stretch], start: u64, end: u64) -> bool
    ensures { result ≡ are_first start end all.now }
{
    match all {
        [first, ..] => start <= first.start && end < first.end,
        _ => false,
    }
}

/// The same, as a list made anew.
fn rebuild(all: &mut ArrayVec<Stretch, ROOM>, start: u64, end: u64)
    requires { length (before start all.old.items) + length (behind end all.old.items) ≤ 65 }
    ensures { all.new.items ≡ fitted (without start end all.old.items) }
{
    take_out(all, start, end);
    fit(all);
}

/// Takes numbers out. Its list is off the stack before the next one is made.
#[inline(never)]
fn take_out(all: &mut ArrayVec<Stretch, ROOM>, start: u64, end: u64)
    requires { length (before start all.old.items) + length (behind end all.old.items) ≤ 65 }
    ensures items { all.new.items ≡ without start end all.old.items }
    ensures few { array_vec_len all.new ≤ 65 }
{
    let mut out = ArrayVec::new();
    push_before(&mut out, all.as_slice(), start);
    push_behind(&mut out, all.as_slice(), end);
    *all = out;
}

/// The first numbers from a position on.
pub(crate) fn first_behind(all: &[Stretch], at: u64) -> Option<(u64, u64)>
    ensures { result ≡ first_of (behind at all.now) }
{
    for s in all {
        if at < s.end {
            return Some((s.start.max(at), s.end));
        }
    }
    None
}

/// When the first numbers from a position on were sent last, if they were sent again.
pub(crate) fn resent_behind(all: &[Stretch], at: u64) -> Option<u64>
    ensures { result ≡ resent_of (behind at all.now) }
{
    for s in all {
        if at < s.end {
            return if s.is_again { Some(s.last) } else { None };
        }
    }
    None
}
