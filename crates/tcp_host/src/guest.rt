//! An end in a host.
ghost use Rattle.std.specs.Prelude.{◌≡◌, ◌<◌, false, length, slice_set};
ghost use Rattle.tcp_host.specs.Hosting.{due_of};
ghost use Rattle.tcp_table.specs.Turns.{after_adding};

use crate::timed::Timed;
use std::alloc::Allocator;
use tcp_table::{Deadlines, Id, Turns};

/// An end, and what its host keeps of it.
#[derive(Drop)]
pub struct Guest<T> {
    /// The end.
    pub end: T,
    /// Whether its deadline has come, and nothing was called of it since: it waits for its turn, and has no deadline.
    pub is_woken: bool,
    /// The listener for which it was opened, if one was.
    pub origin: Option<Id>,
}

/// When an end has to be told the time: in a burst not at all, since all that is due has to go out first, and no more
/// once it was told.
pub(crate) fn due<T: Timed>(guest: &Guest<T>) -> Option<u64>
    ensures { result ≡ due_of T.behaviour guest.now }
{
    if guest.is_woken || guest.end.is_bursting() {
        return None;
    }
    guest.end.poll_at()
}

/// Something was called of the end in a slot: its deadline is set, and it waits for a turn.
pub(crate) fn follow<T: Timed, A: Allocator + Copy>(
    guest: &mut Guest<T>,
    slot: usize,
    deadlines: &mut Deadlines<A>,
    turns: &mut Turns<A>,
)
    requires timed { slot < length deadlines.old }
    requires roomy { slot < turns.old.room }
    ensures unwoken { guest.new ≡ record guest.old { is_woken = false } }
    ensures deadline { deadlines.new ≡ slice_set deadlines.old slot (due_of T.behaviour guest.new) }
    ensures turn { turns.new ≡ record turns.old { queue = after_adding turns.old.queue slot } }
{
    guest.is_woken = false;
    deadlines.set(slot, due(guest));
    turns.add(slot);
}
