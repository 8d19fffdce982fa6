//! The backlog of a listener: the ends that it has opened, and that its user hasn't accepted (RFC 4987, 3.2).
ghost use Rattle.std.specs.Prelude.{◌≡◌, ◌+◌, ◌<◌, ◌≤◌, ℕ, Some, None, [], ◌∷◌, IfOk, IfErr, IfSome, IfNone, OnOk, OnErr, MatchOption, false, true, is_some};
ghost use Rattle.tcp_host.specs.Door.{announced, is_full};
ghost use Rattle.tcp_host.specs.Hosting.{admitted_at, announced_at, forgotten_at, listeners_after};
ghost use Rattle.std.specs.Option.{IsSomeAnd};
ghost use Rattle.tcp_table.specs.Table.{value_at};
ghost use Rattle.tcp_table.specs.Turns.{after_adding};

use crate::door::Door;
use crate::host::Host;
use crate::pair::{Pair, Socket};
use crate::timed::Timed;
use std::alloc::Allocator;
use tcp_table::{Id, Table};

/// Why an end isn't admitted: it comes back.
#[derive(Debug, Drop)]
pub enum NotAdmitted<T> {
    /// The listener of this handle is gone.
    Gone(T),
    /// It has as many ends in its backlog as it may.
    Full(T),
    /// A TIME-WAIT record has its pair: that answers the segment (RFC 9293, 3.10.7.4).
    HasRecord(T),
    /// There is no memory.
    NoMemory(T),
}

impl<T: Timed + Drop, L: Drop, A: Allocator + Copy> Host<T, L, A> {
    ghost use Rattle.tcp_host.specs.Hosting.{EndsRest, IsRefused, RecordsStand, new_guest, open_at, origin_at};
    ghost use Rattle.tcp_table.specs.Table.{Changes, LacksKey, held_at, id_at, slot_of};

    /// Puts an end that was opened for a listener under a pair that has none, as [`open`](Self::open): it is in the
    /// listener's backlog until its user accepts it. Where it can't it comes back, and no other end changes, nor any
    /// listener.
    pub fn admit(&mut self, origin: Id, pair: Pair, end: T) -> Result<Id, NotAdmitted<T>>
        requires { LacksKey ⟦<Pair as Ord>⟧.cmp self.old.ends pair }
        ensures opened { IfOk result (λ id. Changes self.old.ends self.new.ends id.slot (Some (record { key = pair; number = id.number; value = new_guest end (Some origin) }))) }
        ensures was_free { IfOk result (λ id. held_at self.old.ends id.slot ≡ None) }
        ensures number { IfOk result (λ id. id.number ≡ self.old.ends.next) }
        ensures above { IfOk result (λ id. 0 < id.number) }
        ensures next { OnOk result (self.new.ends.next ≡ self.old.ends.next + 1) }
        ensures turn { IfOk result (λ id. self.new.waiting ≡ after_adding self.old.waiting id.slot) }
        ensures admitted { IfOk result (λ id. self.new.listeners ≡ admitted_at self.old.listeners (T.behaviour.established end) origin id) }
        ensures there { OnOk result (is_some (slot_of self.old.listeners origin) ≡ true) }
        ensures room { OnOk result (IsSomeAnd (value_at self.old.listeners origin.slot) (λ door. is_full door ≡ false)) }
        ensures others { RecordsStand self.old self.new }
        ensures err { OnErr result ((slot : ℕ) → held_at self.new.ends slot ≡ held_at self.old.ends slot) }
        ensures err_next { OnErr result (self.old.ends.next ≤ self.new.ends.next) }
        ensures err_waiting { OnErr result (self.new.waiting ≡ self.old.waiting) }
        ensures err_listeners { OnErr result (self.new.listeners ≡ self.old.listeners) }
        ensures no_record { OnOk result (LacksKey ⟦<Pair as Ord>⟧.cmp self.old.records pair) }
        ensures reason { IfErr result (λ refused. IsRefused ⟦<Pair as Ord>⟧.cmp self.old origin pair end refused) }
    {
        let Some(listener) = self.listeners.slot_of(origin) else {
            return Err(NotAdmitted::Gone(end));
        };
        if self.is_full(listener) {
            return Err(NotAdmitted::Full(end));
        }
        if let Some(_record) = self.records.find(&pair) {
            return Err(NotAdmitted::HasRecord(end));
        }
        let is_open = end.is_open();
        let id = match self.ends.open(pair, end, Some(origin)) {
            Ok(id) => id,
            Err(refused) => return Err(NotAdmitted::NoMemory(refused.value)),
        };
        admit_at(&mut self.listeners, is_open, origin, id);
        Ok(id)
    }

    /// The user of a listener accepts the end whose handshake was over first: its handle. `None` where there is none,
    /// or the listener is gone. One that was removed meanwhile is given, too: its handle finds nothing.
    pub fn accept(&mut self, listener: Id) -> Option<Id>
        ensures first { IfSome result (λ id. IsSomeAnd (value_at self.old.listeners listener.slot) (λ door. IsSomeAnd (value_at self.new.listeners listener.slot) (λ after. door ≡ record after { ready = id ∷ after.ready }))) }
        ensures others { (slot : ℕ) → (slot ≡ listener.slot → ⊥) → held_at self.new.listeners slot ≡ held_at self.old.listeners slot }
        ensures above { IfSome result (λ id. 0 < id.number) }
        ensures there { IfSome result (λ id. is_some (slot_of self.old.listeners listener) ≡ true) }
        ensures none { IfNone result ((self.new ≡ self.old) × (is_some (slot_of self.old.listeners listener) ≡ true → IsSomeAnd (value_at self.old.listeners listener.slot) (λ door. door.ready ≡ []))) }
        ensures ends { EndsRest self.old self.new }
        ensures records { RecordsStand self.old self.new }
    {
        if self.listeners.slot_of(listener).is_none() {
            return None;
        }
        let door = self.listeners.get_mut(listener.slot)?;
        door.accept()
    }

    /// Whether the listener in a slot may open no more ends before one is accepted.
    pub(crate) fn is_full(&self, slot: usize) -> bool
        ensures { MatchOption (value_at self.now.listeners slot) (result ≡ false) (λ door. result ≡ is_full door) }
    {
        match self.listeners.held(slot) {
            Some(held) => held.value.is_full(),
            None => false,
        }
    }

    /// Something has come for the end in a slot: if its handshake is over, and wasn't before, it is announced.
    pub(crate) fn announce(&mut self, slot: usize, was_open: bool)
        ensures listeners { self.new.listeners ≡ listeners_after self.old.listeners was_open (open_at T.behaviour self.old.ends slot) (origin_at self.old.ends slot) (id_at self.old.ends slot) }
        ensures ends { EndsRest self.old self.new }
        ensures records { RecordsStand self.old self.new }
    {
        if was_open || !self.ends.is_open(slot) {
            return;
        }
        announce_at(
            &mut self.listeners,
            self.ends.origin(slot),
            self.ends.id(slot),
        );
    }
}

/// An end has come for a listener, whose handshake is over already or isn't.
fn admit_at<L, A: Allocator + Copy>(
    listeners: &mut Table<Socket, Door<L, A>, A>,
    is_open: bool,
    origin: Id,
    id: Id,
)
    requires room { IsSomeAnd (value_at listeners.old origin.slot) (λ door. is_full door ≡ false) }
    requires above { 0 < id.number }
    ensures { listeners.new ≡ admitted_at listeners.old is_open origin id }
{
    if listeners.slot_of(origin).is_none() {
        return;
    }
    let Some(door) = listeners.get_mut(origin.slot) else {
        return;
    };
    door.admit();
    if is_open {
        door.announce(id);
    }
}

/// The handshake of an end is over: the listener that has opened it is told.
fn announce_at<L, A: Allocator + Copy>(
    listeners: &mut Table<Socket, Door<L, A>, A>,
    origin: Option<Id>,
    id: Option<Id>,
)
    requires { IfSome id (λ id. 0 < id.number) }
    ensures { listeners.new ≡ announced_at listeners.old origin id }
{
    let (Some(origin), Some(id)) = (origin, id) else {
        return;
    };
    if listeners.slot_of(origin).is_none() {
        return;
    }
    if let Some(door) = listeners.get_mut(origin.slot) {
        door.announce(id);
    }
}

/// An end is gone: the listener that has opened it is told, if its handshake wasn't over.
pub(crate) fn forget_at<L, A: Allocator + Copy>(
    listeners: &mut Table<Socket, Door<L, A>, A>,
    was_open: bool,
    origin: Option<Id>,
)
    ensures { listeners.new ≡ forgotten_at listeners.old was_open origin }
{
    let Some(origin) = origin else {
        return;
    };
    if was_open || listeners.slot_of(origin).is_none() {
        return;
    }
    if let Some(door) = listeners.get_mut(origin.slot) {
        door.forget();
    }
}
