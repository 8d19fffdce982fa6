//! The rows of the runs that are kept out of order: a ring of all of them by recency, and beside it an order by place.
ghost use Rattle.std.specs.Prelude.{◌≡◌, ◌<◌, ◌≤◌, ◌+◌, ◌-◌, ◌∷◌, ◌++◌, [], ℕ, suc, length, map, take, drop, vec_capacity, slice_set};
ghost use Rattle.tcp_reasm.specs.Rows.{olders, newers, orders, spans, at, count, without, freed, loop_of, lowered, most_rows, IsRing};

use std::alloc::Allocator;

/// A run, the rows beside it in the ring, and, apart from both, an entry of the order by place.
#[derive(Clone, Copy, Debug, Default)]
pub(crate) struct Row {
    /// The place of the run's first byte.
    pub(crate) from: u32,
    /// The place after its last byte.
    pub(crate) to: u32,
    /// The row before this one in the ring, of which newer data came.
    pub(crate) newer: u16,
    /// The row after it.
    pub(crate) older: u16,
    /// Of the row with the index `i`: which row is the `i`th by place.
    pub(crate) order: u16,
}

/// Makes one row follow another in the ring.
#[inline(always)]
fn link(rows: &mut [Row], newer: usize, older: usize)
    requires first { newer < length rows.old }
    requires second { older < length rows.old }
    requires few { length rows.old ≤ most_rows }
    ensures len { length rows.new ≡ length rows.old }
    ensures olders { olders rows.new ≡ slice_set (olders rows.old) newer older }
    ensures newers { newers rows.new ≡ slice_set (newers rows.old) older newer }
    ensures orders { orders rows.new ≡ orders rows.old }
    ensures spans { spans rows.new ≡ spans rows.old }
{
    rows[newer].older = older as u16;
    rows[older].newer = newer as u16;
}

/// Moves a row of the ring before all others.
pub(crate) fn to_front(rows: &mut [Row], id: usize)
    requires ring { IsRing rows.old }
    requires few { length rows.old ≤ most_rows }
    requires row { 0 < count id (loop_of rows.old) }
    ensures ring { IsRing rows.new }
    ensures len { length rows.new ≡ length rows.old }
    ensures after { loop_of rows.new ≡ id ∷ without id (loop_of rows.old) }
    ensures orders { orders rows.new ≡ orders rows.old }
    ensures spans { spans rows.new ≡ spans rows.old }
{
    let row = rows[id];
    link(rows, row.newer as usize, row.older as usize);
    let next = rows[0].older as usize;
    link(rows, 0, id);
    link(rows, id, next);
}

/// Moves a row of the ring behind all others.
pub(crate) fn to_back(rows: &mut [Row], id: usize)
    requires ring { IsRing rows.old }
    requires few { length rows.old ≤ most_rows }
    requires row { 0 < count id (loop_of rows.old) }
    ensures ring { IsRing rows.new }
    ensures len { length rows.new ≡ length rows.old }
    ensures after { loop_of rows.new ≡ without id (loop_of rows.old) ++ id ∷ [] }
    ensures orders { orders rows.new ≡ orders rows.old }
    ensures spans { spans rows.new ≡ spans rows.old }
{
    let row = rows[id];
    link(rows, row.newer as usize, row.older as usize);
    let last = rows[0].newer as usize;
    link(rows, last, id);
    link(rows, id, 0);
}

/// Moves the rows of the order from the index `first` on and before `past` behind all others.
pub(crate) fn free(rows: &mut [Row], first: usize, past: usize)
    requires ring { IsRing rows.old }
    requires few { length rows.old ≤ most_rows }
    requires ordered { first ≤ past }
    requires within { past ≤ length rows.old }
    requires each { (x : ℕ) → count x (take (past - first) (drop first (orders rows.old))) ≤ count x (loop_of rows.old) }
    ensures ring { IsRing rows.new }
    ensures len { length rows.new ≡ length rows.old }
    ensures after { loop_of rows.new ≡ freed (take (past - first) (drop first (orders rows.old))) (loop_of rows.old) }
    ensures orders { orders rows.new ≡ orders rows.old }
    ensures spans { spans rows.new ≡ spans rows.old }
{
    let mut next = first;
    while next < past {
        let id = rows[next].order as usize;
        to_back(rows, id);
        next += 1;
    }
}

/// Puts another row behind all others.
pub(crate) fn grow<A: Allocator>(rows: &mut Vec<Row, A>)
    requires ring { IsRing rows.old.items }
    requires few { length rows.old.items < most_rows }
    requires room { length rows.old.items < vec_capacity rows.old }
    ensures room { vec_capacity rows.old ≤ vec_capacity rows.new }
    ensures ring { IsRing rows.new.items }
    ensures len { length rows.new.items ≡ suc (length rows.old.items) }
    ensures after { loop_of rows.new.items ≡ loop_of rows.old.items ++ length rows.old.items ∷ [] }
    ensures orders { orders rows.new.items ≡ orders rows.old.items ++ 0 ∷ [] }
    ensures spans { take (length rows.old.items) (spans rows.new.items) ≡ spans rows.old.items }
{
    let id = rows.len();
    let last = rows[0].newer as usize;
    let _ = rows.push(Row::default());
    link(rows, last, id);
    link(rows, id, 0);
}

/// Puts a row into the order of `len` rows at an index: those from there on move up by one.
pub(crate) fn order_in(rows: &mut [Row], index: usize, len: usize, id: usize)
    requires few { length rows.old ≤ most_rows }
    requires room { len < length rows.old }
    requires within { index ≤ len }
    requires row { id < length rows.old }
    ensures len { length rows.new ≡ length rows.old }
    ensures orders { take (suc len) (orders rows.new) ≡ take index (orders rows.old) ++ id ∷ take (len - index) (drop index (orders rows.old)) }
    ensures olders { olders rows.new ≡ olders rows.old }
    ensures newers { newers rows.new ≡ newers rows.old }
    ensures spans { spans rows.new ≡ spans rows.old }
{
    let mut moved = id as u16;
    let mut next = index;
    while next <= len {
        let row = rows[next].order;
        rows[next].order = moved;
        moved = row;
        next += 1;
    }
}

/// Takes those at the indexes from `first` on and before `past` out of the order of `len` rows.
pub(crate) fn order_out(rows: &mut [Row], first: usize, past: usize, len: usize)
    requires ordered { first < past }
    requires within { past ≤ len }
    requires room { len ≤ length rows.old }
    ensures len { length rows.new ≡ length rows.old }
    ensures orders { take (first + (len - past)) (orders rows.new) ≡ take first (orders rows.old) ++ take (len - past) (drop past (orders rows.old)) }
    ensures olders { olders rows.new ≡ olders rows.old }
    ensures newers { newers rows.new ≡ newers rows.old }
    ensures spans { spans rows.new ≡ spans rows.old }
{
    let mut next = past;
    while next < len {
        rows[first + (next - past)].order = rows[next].order;
        next += 1;
    }
}

/// Counts the places of all rows from a base on.
#[cold]
#[inline(never)]
pub(crate) fn settle(rows: &mut [Row], base: u32)
    ensures len { length rows.new ≡ length rows.old }
    ensures spans { spans rows.new ≡ map (lowered base) (spans rows.old) }
    ensures olders { olders rows.new ≡ olders rows.old }
    ensures newers { newers rows.new ≡ newers rows.old }
    ensures orders { orders rows.new ≡ orders rows.old }
{
    let mut next = 0;
    while next < rows.len() {
        let row = rows[next];
        rows[next] = Row {
            from: row.from.saturating_sub(base),
            to: row.to.saturating_sub(base),
            ..row
        };
        next += 1;
    }
}
