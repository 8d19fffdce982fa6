//! When each of many ids is due, and the first of all.
ghost use Rattle.std.specs.Prelude.{◌≡◌, ◌+◌, ◌-◌, ◌*◌, ◌/◌, ◌<◌, ◌≤◌, ℕ, [], ◌++◌, Some, None, IfSome, IfNone, OnOk, OnErr, drop, length, replicate, slice_set};
ghost use Rattle.tcp_table.specs.Deadlines.{IsFirst, IsTree, IsTreeBut, NoneIsDue, Times, due_at, earlier};

use std::alloc::{AllocError, Allocator, Global};
use std::marker::Model;

/// The time at which each id is due, if it is. An id is a small number, as a place in a list is, and needs room before
/// it is set: only making room allocates, and walks over all. Setting a time, and finding or taking the first, takes
/// steps by the logarithm of the room.
#[derive(Debug, Drop)]
pub struct Deadlines<A: Allocator = Global> {
    /// How many ids there is room for.
    count: usize,
    /// A tree in a list: each place from 1 to `count` has the earlier of the times at twice its place and the one
    /// after; the times of the ids are from `count` on.
    tree: Vec<Option<u64>, A>,
}

impl<A: Allocator> Model for Deadlines<A> {
    ghost Value = { Times };

    ghost view = { λ d. drop d.count d.tree.items };

    ghost invariant = { λ d. IsTree d.tree.items d.count };
}

impl Deadlines {
    /// There is room for no id.
    #[must_use]
    pub fn new(alloc: Global) -> Self
        ensures { result ≡ [] }
    {
        Self::new_in(alloc)
    }
}

impl<A: Allocator + Copy> Deadlines<A> {
    /// There is room for no id. What it will hold is in memory of `alloc`.
    #[must_use]
    pub fn new_in(alloc: A) -> Self
        ensures { result ≡ [] }
    {
        Deadlines {
            count: 0,
            tree: Vec::new(alloc),
        }
    }

    /// How many ids there is room for, from 0 on.
    #[must_use]
    pub fn room(&self) -> usize
        ensures { result ≡ length self.now }
    {
        // The tree has a leaf for each id, and as many places above them.
        self.count
    }

    /// Makes room for so many ids, from 0 on: those that are new aren't due. Where there is no memory nothing changes.
    pub fn reserve(&mut self, room: usize) -> Result<(), AllocError>
        ensures room { OnOk result (self.new ≡ self.old ++ replicate (room - length self.old) None) }
        ensures err { OnErr result (self.new ≡ self.old) }
    {
        let count = self.count;
        if room <= count {
            return Ok(());
        }
        let Some(size) = room.checked_mul(2) else {
            return Err(AllocError);
        };
        let mut tree = Vec::with_capacity(*self.tree.allocator(), size)?;
        tree.resize(room, None)?;
        tree.extend_from_slice(&self.tree[count..])?;
        tree.resize(size, None)?;
        build(&mut tree, room);
        self.count = room;
        self.tree = tree;
        Ok(())
    }

    /// The time at which an id is due.
    #[must_use]
    pub fn get(&self, id: usize) -> Option<u64>
        ensures { result ≡ due_at self.now id }
    {
        if id < self.count {
            self.tree[self.count + id]
        } else {
            None
        }
    }

    /// The id that is due first, behind its time: of several that are due at the same time, any of them.
    #[must_use]
    pub fn first(&self) -> Option<(u64, usize)>
        ensures first { IfSome result (λ first. IsFirst self.now first.0 first.1) }
        ensures none { IfNone result (NoneIsDue self.now) }
    {
        if self.count == 0 {
            return None;
        }
        let time = self.tree[1]?;
        Some((time, first_leaf(&self.tree, self.count) - self.count))
    }

    /// An id is due at this time from now on, or not at all.
    pub fn set(&mut self, id: usize, time: Option<u64>)
        requires { id < length self.old }
        ensures { self.new ≡ slice_set self.old id time }
    {
        let leaf = self.count + id;
        if self.tree[leaf] == time {
            return;
        }
        self.tree[leaf] = time;
        raise(&mut self.tree, self.count, leaf);
    }

    /// The id that is due first, as `first` has it, if its time isn't after `now`: it isn't due any more.
    pub fn take_due(&mut self, now: u64) -> Option<(u64, usize)>
        ensures first { IfSome result (λ due. IsFirst self.old due.0 due.1) }
        ensures has_come { IfSome result (λ due. due.0 ≤ now) }
        ensures cleared { IfSome result (λ due. self.new ≡ slice_set self.old due.1 None) }
        ensures later { IfNone result ((id : ℕ) → IfSome (due_at self.old id) (λ time. now < time)) }
        ensures none { IfNone result (self.new ≡ self.old) }
    {
        let (time, id) = self.first()?;
        if now < time {
            return None;
        }
        self.set(id, None);
        Some((time, id))
    }
}

/// The earlier of two times, where there are any.
#[must_use]
pub fn earlier(one: Option<u64>, other: Option<u64>) -> Option<u64>
    ensures { result ≡ earlier one other }
{
    match (one, other) {
        (Some(one), Some(other)) => Some(one.min(other)),
        (None, time) | (time, None) => time,
    }
}

/// Makes a tree over the leaves.
fn build(tree: &mut [Option<u64>], count: usize)
    requires { length tree.old ≡ 2 * count }
    ensures leaves { drop count tree.new ≡ drop count tree.old }
    ensures tree { IsTree tree.new count }
{
    let mut at = count;
    while at > 1 {
        at -= 1;
        tree[at] = earlier(tree[2 * at], tree[2 * at + 1]);
    }
}

/// Makes it a tree again above a leaf that has changed. Above a place that keeps its time nothing changes.
fn raise(tree: &mut [Option<u64>], count: usize, leaf: usize)
    requires size { length tree.old ≡ 2 * count }
    requires within { leaf < 2 * count }
    requires tree { IsTreeBut tree.old count (leaf / 2) }
    ensures leaves { drop count tree.new ≡ drop count tree.old }
    ensures tree { IsTree tree.new count }
{
    let mut at = leaf / 2;
    while at > 0 {
        let time = earlier(tree[2 * at], tree[2 * at + 1]);
        if tree[at] == time {
            return;
        }
        tree[at] = time;
        at /= 2;
    }
}

/// The first leaf that has the time of the root.
fn first_leaf(tree: &[Option<u64>], count: usize) -> usize
    requires some { 1 ≤ count }
    requires tree { IsTree tree.now count }
    ensures leaf { count ≤ result }
    ensures within { result < 2 * count }
    ensures root { due_at tree.now result ≡ due_at tree.now 1 }
{
    let mut at = 1;
    while at < count {
        let left = 2 * at;
        at = if tree[left] == tree[at] {
            left
        } else {
            left + 1
        };
    }
    at
}
