//! What the user of an end chooses.
ghost use Rattle.std.specs.Prelude.{◌≡◌, IfSome, IfNone, is_some};
ghost use Rattle.tcp_table.specs.Turns.{after_adding};

use crate::guest::follow;
use crate::host::Host;
use crate::roll::Roll;
use crate::tuned::Tuned;
use std::alloc::Allocator;
use tcp_table::Id;

impl<T: Tuned + Drop, A: Allocator + Copy> Roll<T, A> {
    ghost use Rattle.std.specs.Option.{IsSomeAnd};
    ghost use Rattle.tcp_host.specs.Hosting.{after_call};
    ghost use Rattle.tcp_table.specs.Table.{slot_of, value_at, with_value};

    /// The user of an end chooses. `None` where the end is gone.
    pub(crate) fn choose(&mut self, now: u64, id: Id, choice: &T::Choice) -> Option<T::Choosing>
        ensures answer { IfSome result (λ answer. IsSomeAnd (value_at self.old.ends id.slot) (λ guest. answer ≡ T.choice_answer guest.end choice.now)) }
        ensures state { IfSome result (λ answer. IsSomeAnd (value_at self.old.ends id.slot) (λ guest. self.new.ends ≡ with_value self.old.ends id.slot (after_call guest (T.chosen guest.end now choice.now)))) }
        ensures turn { IfSome result (λ answer. self.new.waiting ≡ after_adding self.old.waiting id.slot) }
        ensures found { is_some result ≡ is_some (slot_of self.old.ends id) }
        ensures none { IfNone result (self.new ≡ self.old) }
    {
        if self.ends.slot_of(id).is_none() {
            return None;
        }
        let guest = self.ends.get_mut(id.slot)?;
        let answer = guest.end.choose(now, choice);
        follow(guest, id.slot, &mut self.deadlines, &mut self.turns);
        Some(answer)
    }
}

impl<T: Tuned + Drop, L: Drop, A: Allocator + Copy> Host<T, L, A> {
    ghost use Rattle.std.specs.Option.{IsSomeAnd};
    ghost use Rattle.tcp_host.specs.Hosting.{IsElsewhere, after_call};
    ghost use Rattle.tcp_table.specs.Table.{slot_of, value_at, with_value};

    /// The user of an end chooses something of it, as its policy. `None` where the end is gone.
    pub fn choose(&mut self, now: u64, id: Id, choice: &T::Choice) -> Option<T::Choosing>
        ensures answer { IfSome result (λ answer. IsSomeAnd (value_at self.old.ends id.slot) (λ guest. answer ≡ T.choice_answer guest.end choice.now)) }
        ensures state { IfSome result (λ answer. IsSomeAnd (value_at self.old.ends id.slot) (λ guest. self.new.ends ≡ with_value self.old.ends id.slot (after_call guest (T.chosen guest.end now choice.now)))) }
        ensures turn { IfSome result (λ answer. self.new.waiting ≡ after_adding self.old.waiting id.slot) }
        ensures others { IsElsewhere self.old self.new }
        ensures found { is_some result ≡ is_some (slot_of self.old.ends id) }
        ensures none { IfNone result (self.new ≡ self.old) }
    {
        self.ends.choose(now, id, choice)
    }
}
