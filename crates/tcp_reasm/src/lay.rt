ghost use Rattle.std.specs.Prelude.{◌≡◌, ◌+◌, ◌<◌, ◌≤◌, ℕ, length, take, drop};
ghost use Rattle.tcp_reasm.specs.Reassembly.{max_capacity, stamp_of_run};
ghost use Rattle.tcp_reasm.specs.Rows.{newest, placed, run_at, IsTable};
ghost use Rattle.tcp_reasm.specs.Store.{ranked, runs_in, laid};

use crate::ring::Ring;
use crate::table::Table;
use std::alloc::Allocator;

/// Lays a text over the window of a ring, from the offset `place` on, where the runs before the index `first` end at or
/// before it, and the one there at or behind it. Only the gaps between the runs are written, so a byte that is kept
/// already stays.
#[inline(always)]
pub(crate) fn lay<A: Allocator>(
    ring: &mut Ring<A>,
    unread: usize,
    table: &Table<A>,
    first: usize,
    place: usize,
    text: &[u8],
)
    requires table { IsTable table.now.base table.now.len table.now.rows.items }
    requires before { (k : ℕ) → k < first → (run_at (placed table.now.base table.now.len table.now.rows.items) k).to ≤ place }
    requires here { first < table.now.len → place ≤ (run_at (placed table.now.base table.now.len table.now.rows.items) first).to }
    requires fits { unread + (place + length text.now) ≤ length ring.old.bytes }
    requires most { length ring.old.bytes ≤ max_capacity }
    ensures len { length ring.new.bytes ≡ length ring.old.bytes }
    ensures ready { ring.old.ready ≤ ring.new.ready }
    ensures unread { take unread ring.new.bytes ≡ take unread ring.old.bytes }
    ensures window { drop unread ring.new.bytes
        ≡ laid (stamp_of_run (ranked (runs_in (newest table.now.base table.now.len table.now.rows.items)))) 0 place text.now (drop unread ring.old.bytes) }
{
    // Mostly nothing is kept out of order.
    if table.is_empty() {
        ring.write(unread + place, text);
    } else {
        lay_between(ring, unread, table, first, place, text);
    }
}

/// Does so from one run to the next.
#[inline(never)]
fn lay_between<A: Allocator>(
    ring: &mut Ring<A>,
    unread: usize,
    table: &Table<A>,
    first: usize,
    place: usize,
    text: &[u8],
)
    requires table { IsTable table.now.base table.now.len table.now.rows.items }
    requires before { (k : ℕ) → k < first → (run_at (placed table.now.base table.now.len table.now.rows.items) k).to ≤ place }
    requires here { first < table.now.len → place ≤ (run_at (placed table.now.base table.now.len table.now.rows.items) first).to }
    requires fits { unread + (place + length text.now) ≤ length ring.old.bytes }
    requires most { length ring.old.bytes ≤ max_capacity }
    ensures len { length ring.new.bytes ≡ length ring.old.bytes }
    ensures ready { ring.old.ready ≤ ring.new.ready }
    ensures unread { take unread ring.new.bytes ≡ take unread ring.old.bytes }
    ensures window { drop unread ring.new.bytes
        ≡ laid (stamp_of_run (ranked (runs_in (newest table.now.base table.now.len table.now.rows.items)))) 0 place text.now (drop unread ring.old.bytes) }
{
    let end = place + text.len();
    let mut next = place;
    let mut index = first;
    while next < end {
        let (from, past) = table.held_past(index, next, end);
        let to = table.free_to(past, from, end);
        ring.write(unread + from, &text[from - place..to - place]);
        next = to;
        index = past;
    }
}
