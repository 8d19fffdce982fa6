//! What an end writes by its handle, whosever turn it is.
ghost use Rattle.std.specs.Prelude.{◌≡◌, ◌≤◌, IfSome, IfNone, is_some, length};
ghost use Rattle.tcp_table.specs.Turns.{after_adding};

use crate::guest::follow;
use crate::host::Host;
use crate::roll::Roll;
use crate::timed::Timed;
use crate::trained::Trained;
use std::alloc::Allocator;
use tcp_driver::Sent;
use tcp_table::Id;

impl<T: Timed + Drop, A: Allocator + Copy> Roll<T, A> {
    ghost use Rattle.std.specs.Option.{IsSomeAnd};
    ghost use Rattle.tcp_host.specs.Hosting.{after_call};
    ghost use Rattle.tcp_table.specs.Table.{slot_of, value_at, with_value};

    /// An end emits. `None` where it is gone.
    pub(crate) fn emit_by_id(
        &mut self,
        now: u64,
        id: Id,
        window: u64,
        out: &mut [u8],
    ) -> Option<Option<Sent>>
        requires { T.behaviour.room ≤ length out.old }
        ensures sent { IfSome result (λ sent. IsSomeAnd (value_at self.old.ends id.slot) (λ guest. sent ≡ T.behaviour.emission guest.end now window)) }
        ensures most { IfSome result (λ sent. IfSome sent (λ sent. sent.len ≤ T.behaviour.room)) }
        ensures written { IfSome result (λ sent. IsSomeAnd (value_at self.old.ends id.slot) (λ guest. out.new ≡ T.behaviour.written guest.end now window out.old)) }
        ensures unwritten { IfNone result (out.new ≡ out.old) }
        ensures state { IfSome result (λ sent. IsSomeAnd (value_at self.old.ends id.slot) (λ guest. self.new.ends ≡ with_value self.old.ends id.slot (after_call guest (T.behaviour.emitted guest.end now window)))) }
        ensures turn { IfSome result (λ sent. self.new.waiting ≡ after_adding self.old.waiting id.slot) }
        ensures found { is_some result ≡ is_some (slot_of self.old.ends id) }
        ensures none { IfNone result (self.new ≡ self.old) }
    {
        if self.ends.slot_of(id).is_none() {
            return None;
        }
        let guest = self.ends.get_mut(id.slot)?;
        let sent = guest.end.emit(now, window, out);
        follow(guest, id.slot, &mut self.deadlines, &mut self.turns);
        Some(sent)
    }
}

impl<T: Trained + Drop, A: Allocator + Copy> Roll<T, A> {
    ghost use Rattle.std.specs.Option.{IsSomeAnd};
    ghost use Rattle.tcp_host.specs.Hosting.{after_call};
    ghost use Rattle.tcp_table.specs.Table.{slot_of, value_at, with_value};

    /// An end emits segments as one. `None` where it is gone.
    pub(crate) fn emit_train(
        &mut self,
        now: u64,
        id: Id,
        window: u64,
        out: &mut [u8],
        most: usize,
    ) -> Option<Option<T::Train>>
        requires { T.behaviour.room ≤ length out.old }
        ensures train { IfSome result (λ train. IsSomeAnd (value_at self.old.ends id.slot) (λ guest. train ≡ T.train_answer guest.end now window most (length out.old))) }
        ensures written { IfSome result (λ train. IsSomeAnd (value_at self.old.ends id.slot) (λ guest. out.new ≡ T.train_written guest.end now window most out.old)) }
        ensures unwritten { IfNone result (out.new ≡ out.old) }
        ensures state { IfSome result (λ train. IsSomeAnd (value_at self.old.ends id.slot) (λ guest. self.new.ends ≡ with_value self.old.ends id.slot (after_call guest (T.after_train guest.end now window most (length out.old))))) }
        ensures turn { IfSome result (λ train. self.new.waiting ≡ after_adding self.old.waiting id.slot) }
        ensures found { is_some result ≡ is_some (slot_of self.old.ends id) }
        ensures none { IfNone result (self.new ≡ self.old) }
    {
        if self.ends.slot_of(id).is_none() {
            return None;
        }
        let guest = self.ends.get_mut(id.slot)?;
        let train = guest.end.emit_train(now, window, out, most);
        follow(guest, id.slot, &mut self.deadlines, &mut self.turns);
        Some(train)
    }
}

impl<T: Timed + Drop, L: Drop, A: Allocator + Copy> Host<T, L, A> {
    ghost use Rattle.std.specs.Option.{IsSomeAnd};
    ghost use Rattle.tcp_host.specs.Hosting.{IsElsewhere, after_call};
    ghost use Rattle.tcp_table.specs.Table.{slot_of, value_at, with_value};

    /// An end writes the segment that is due, if one may go out within `window`, as [`Timed::emit`] has it: `Some(None)`
    /// where none may. It needs no turn for this, and keeps the one that it waits for, or waits for one. `None` where the
    /// end is gone.
    pub fn emit_by_id(
        &mut self,
        now: u64,
        id: Id,
        window: u64,
        out: &mut [u8],
    ) -> Option<Option<Sent>>
        requires { T.behaviour.room ≤ length out.old }
        ensures sent { IfSome result (λ sent. IsSomeAnd (value_at self.old.ends id.slot) (λ guest. sent ≡ T.behaviour.emission guest.end now window)) }
        ensures most { IfSome result (λ sent. IfSome sent (λ sent. sent.len ≤ T.behaviour.room)) }
        ensures written { IfSome result (λ sent. IsSomeAnd (value_at self.old.ends id.slot) (λ guest. out.new ≡ T.behaviour.written guest.end now window out.old)) }
        ensures unwritten { IfNone result (out.new ≡ out.old) }
        ensures state { IfSome result (λ sent. IsSomeAnd (value_at self.old.ends id.slot) (λ guest. self.new.ends ≡ with_value self.old.ends id.slot (after_call guest (T.behaviour.emitted guest.end now window)))) }
        ensures turn { IfSome result (λ sent. self.new.waiting ≡ after_adding self.old.waiting id.slot) }
        ensures others { IsElsewhere self.old self.new }
        ensures found { is_some result ≡ is_some (slot_of self.old.ends id) }
        ensures none { IfNone result (self.new ≡ self.old) }
    {
        self.ends.emit_by_id(now, id, window, out)
    }
}

impl<T: Trained + Drop, L: Drop, A: Allocator + Copy> Host<T, L, A> {
    ghost use Rattle.std.specs.Option.{IsSomeAnd};
    ghost use Rattle.tcp_host.specs.Hosting.{IsElsewhere, after_call};
    ghost use Rattle.tcp_table.specs.Table.{slot_of, value_at, with_value};

    /// An end writes as one, for a device that cuts and sums them, the segments that may go out within `window`, as
    /// [`Trained::emit_train`] has it, at most `most`: `Some(None)` where none may. Its turn is as behind
    /// [`emit_by_id`](Self::emit_by_id). `None` where the end is gone.
    pub fn emit_train(
        &mut self,
        now: u64,
        id: Id,
        window: u64,
        out: &mut [u8],
        most: usize,
    ) -> Option<Option<T::Train>>
        requires { T.behaviour.room ≤ length out.old }
        ensures train { IfSome result (λ train. IsSomeAnd (value_at self.old.ends id.slot) (λ guest. train ≡ T.train_answer guest.end now window most (length out.old))) }
        ensures written { IfSome result (λ train. IsSomeAnd (value_at self.old.ends id.slot) (λ guest. out.new ≡ T.train_written guest.end now window most out.old)) }
        ensures unwritten { IfNone result (out.new ≡ out.old) }
        ensures state { IfSome result (λ train. IsSomeAnd (value_at self.old.ends id.slot) (λ guest. self.new.ends ≡ with_value self.old.ends id.slot (after_call guest (T.after_train guest.end now window most (length out.old))))) }
        ensures turn { IfSome result (λ train. self.new.waiting ≡ after_adding self.old.waiting id.slot) }
        ensures others { IsElsewhere self.old self.new }
        ensures found { is_some result ≡ is_some (slot_of self.old.ends id) }
        ensures none { IfNone result (self.new ≡ self.old) }
    {
        self.ends.emit_train(now, id, window, out, most)
    }
}
