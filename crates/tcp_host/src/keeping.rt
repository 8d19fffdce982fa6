//! Ends and listeners come and go.
ghost use Rattle.std.specs.Prelude.{◌≡◌, ◌≤◌, ◌<◌, ◌+◌, ℕ, Some, None, IfSome, IfNone, IfOk, IfErr, OnOk, OnErr, is_some, length, option_copied};
ghost use Rattle.tcp_table.specs.Turns.{after_adding};

use crate::backlog::forget_at;
use crate::door::Door;
use crate::host::Host;
use crate::pair::{Pair, Socket};
use crate::record::Record;
use crate::timed::Timed;
use std::alloc::{AllocFailed, Allocator};
use tcp_table::Id;

/// Why an end isn't opened: it comes back.
#[derive(Debug, Drop)]
pub enum NotOpened<T> {
    /// A TIME-WAIT record has its pair: the connection exists already (RFC 9293, 3.10.1).
    HasRecord(T),
    /// There is no memory.
    NoMemory(T),
}

impl<T: Timed + Drop, L: Drop, A: Allocator + Copy> Host<T, L, A> {
    ghost use Rattle.tcp_host.specs.Hosting.{EndsRest, IsElsewhere, IsUnopened, RecordsStand, end_at, forgotten_at, kept_at, new_guest, origin_at};
    ghost use Rattle.tcp_host.specs.Door.{new_door};
    ghost use Rattle.tcp_table.specs.Table.{Changes, HasKey, IsAsBefore, IsDistinct, LacksKey, held_at, id_at, slot_of};

    /// Somebody listens at a socket that nobody listens at, and may have opened so many ends that its user hasn't
    /// accepted (RFC 9293, 3.10.1; RFC 4987, 3.2): the listener's handle, which no other one has or had. Where there is
    /// no memory it comes back, and nothing changes.
    pub fn listen(
        &mut self,
        socket: Socket,
        listener: L,
        backlog: usize,
    ) -> Result<Id, AllocFailed<L>>
        requires { LacksKey ⟦<Socket as Ord>⟧.cmp self.old.listeners socket }
        ensures listens { IfOk result (λ id. Changes self.old.listeners self.new.listeners id.slot (Some (record { key = socket; number = id.number; value = new_door listener backlog }))) }
        ensures was_free { IfOk result (λ id. held_at self.old.listeners id.slot ≡ None) }
        ensures number { IfOk result (λ id. id.number ≡ self.old.listeners.next) }
        ensures above { IfOk result (λ id. 0 < id.number) }
        ensures next { OnOk result (self.new.listeners.next ≡ self.old.listeners.next + 1) }
        ensures ends { EndsRest self.old self.new }
        ensures others { RecordsStand self.old self.new }
        ensures err { OnErr result (IsAsBefore self.old.listeners self.new.listeners) }
        ensures value_returned { IfErr result (λ failed. failed.value ≡ listener) }
    {
        let door = match Door::new_in(self.alloc, listener, backlog) {
            Ok(door) => door,
            Err(refused) => return Err(refused),
        };
        match self.listeners.insert(socket, door) {
            Ok(id) => Ok(id),
            Err(refused) => Err(AllocFailed {
                value: refused.value.leave(),
            }),
        }
    }

    /// Nobody listens any more where this handle's listener did: what its user kept of it comes back. `None` where it
    /// is gone. The ends that it has opened stay, and are announced to nobody.
    pub fn unlisten(&mut self, id: Id) -> Option<L>
        ensures listener { IfSome result (λ listener. kept_at self.old.listeners id.slot ≡ Some listener) }
        ensures removed { IfSome result (λ listener. Changes self.old.listeners self.new.listeners id.slot None) }
        ensures next { self.new.listeners.next ≡ self.old.listeners.next }
        ensures ends { EndsRest self.old self.new }
        ensures others { RecordsStand self.old self.new }
        ensures found { is_some result ≡ is_some (slot_of self.old.listeners id) }
        ensures none { IfNone result (self.new ≡ self.old) }
    {
        if self.listeners.slot_of(id).is_none() {
            return None;
        }
        let door = self.listeners.remove(id.slot)?;
        Some(door.leave())
    }

    /// The end of a handle goes from its slot: it is given back. `None` where it is gone. Where its handshake wasn't
    /// over the listener that has opened it may open another one.
    pub fn remove(&mut self, id: Id) -> Option<T>
        ensures end { IfSome result (λ end. end_at self.old.ends id.slot ≡ Some end) }
        ensures removed { IfSome result (λ end. Changes self.old.ends self.new.ends id.slot None) }
        ensures next { self.new.ends.next ≡ self.old.ends.next }
        ensures waiting { self.new.waiting ≡ self.old.waiting }
        ensures listeners { IfSome result (λ end. self.new.listeners ≡ forgotten_at self.old.listeners (T.behaviour.established end) (origin_at self.old.ends id.slot)) }
        ensures others { RecordsStand self.old self.new }
        ensures found { is_some result ≡ is_some (slot_of self.old.ends id) }
        ensures none { IfNone result (self.new ≡ self.old) }
    {
        let slot = self.ends.slot_of(id)?;
        let origin = self.ends.origin(slot);
        let end = self.ends.remove(slot)?;
        forget_at(&mut self.listeners, end.is_open(), origin);
        Some(end)
    }

    /// Puts an end that was opened already under a pair that has none: it waits for a turn. Its handle, which no other
    /// one has or had. Where a TIME-WAIT record has the pair the connection exists already (RFC 9293, 3.10.1): there, and
    /// where there is no memory, the end comes back, and no other changes.
    pub fn open(&mut self, pair: Pair, end: T) -> Result<Id, NotOpened<T>>
        requires { LacksKey ⟦<Pair as Ord>⟧.cmp self.old.ends pair }
        ensures opened { IfOk result (λ id. Changes self.old.ends self.new.ends id.slot (Some (record { key = pair; number = id.number; value = new_guest end None }))) }
        ensures was_free { IfOk result (λ id. held_at self.old.ends id.slot ≡ None) }
        ensures number { IfOk result (λ id. id.number ≡ self.old.ends.next) }
        ensures above { IfOk result (λ id. 0 < id.number) }
        ensures next { OnOk result (self.new.ends.next ≡ self.old.ends.next + 1) }
        ensures turn { IfOk result (λ id. self.new.waiting ≡ after_adding self.old.waiting id.slot) }
        ensures others { IsElsewhere self.old self.new }
        ensures err { OnErr result ((slot : ℕ) → held_at self.new.ends slot ≡ held_at self.old.ends slot) }
        ensures err_next { OnErr result (self.old.ends.next ≤ self.new.ends.next) }
        ensures err_waiting { OnErr result (self.new.waiting ≡ self.old.waiting) }
        ensures no_record { OnOk result (LacksKey ⟦<Pair as Ord>⟧.cmp self.old.records pair) }
        ensures reason { IfErr result (λ refused. IsUnopened ⟦<Pair as Ord>⟧.cmp self.old pair end refused) }
    {
        if let Some(_record) = self.records.find(&pair) {
            return Err(NotOpened::HasRecord(end));
        }
        match self.ends.open(pair, end, None) {
            Ok(id) => Ok(id),
            Err(refused) => Err(NotOpened::NoMemory(refused.value)),
        }
    }

    /// The end in a slot, to be looked at alone.
    #[must_use]
    pub fn end(&self, slot: usize) -> Option<&T>
        ensures { option_copied result ≡ end_at self.now.ends slot }
    {
        self.ends.end(slot)
    }

    /// What the user of the listener in a slot keeps of it.
    #[must_use]
    pub fn listener(&self, slot: usize) -> Option<&L>
        ensures { option_copied result ≡ kept_at self.now.listeners slot }
    {
        match self.listeners.held(slot) {
            Some(listener) => Some(listener.value.kept()),
            None => None,
        }
    }

    /// The handle of the end in a slot.
    #[must_use]
    pub fn id(&self, slot: usize) -> Option<Id>
        ensures handle { result ≡ id_at self.now.ends slot }
        ensures below { IfSome result (λ id. id.number < self.now.ends.next) }
        ensures above { IfSome result (λ id. 0 < id.number) }
    {
        self.ends.id(slot)
    }

    /// The handle of the listener in a slot.
    #[must_use]
    pub fn listener_id(&self, slot: usize) -> Option<Id>
        ensures handle { result ≡ id_at self.now.listeners slot }
        ensures below { IfSome result (λ id. id.number < self.now.listeners.next) }
        ensures above { IfSome result (λ id. 0 < id.number) }
    {
        self.listeners.id(slot)
    }

    /// The slot of the end of a pair.
    #[must_use]
    pub fn find(&self, pair: &Pair) -> Option<usize>
        ensures found { IfSome result (HasKey ⟦<Pair as Ord>⟧.cmp self.now.ends pair.now) }
        ensures none { IfNone result (LacksKey ⟦<Pair as Ord>⟧.cmp self.now.ends pair.now) }
        ensures distinct { IsDistinct ⟦<Pair as Ord>⟧.cmp self.now.ends }
    {
        self.ends.find(pair)
    }

    /// The slot of the record of a pair.
    #[must_use]
    pub fn find_record(&self, pair: &Pair) -> Option<usize>
        ensures found { IfSome result (HasKey ⟦<Pair as Ord>⟧.cmp self.now.records pair.now) }
        ensures none { IfNone result (LacksKey ⟦<Pair as Ord>⟧.cmp self.now.records pair.now) }
        ensures distinct { IsDistinct ⟦<Pair as Ord>⟧.cmp self.now.records }
    {
        self.records.find(pair)
    }

    /// The record in a slot, to be looked at alone.
    #[must_use]
    pub fn record(&self, slot: usize) -> Option<&Record>
        ensures { option_copied result ≡ end_at self.now.records slot }
    {
        self.records.end(slot)
    }

    /// The slot of the listener at a socket.
    #[must_use]
    pub fn find_listener(&self, socket: &Socket) -> Option<usize>
        ensures found { IfSome result (HasKey ⟦<Socket as Ord>⟧.cmp self.now.listeners socket.now) }
        ensures none { IfNone result (LacksKey ⟦<Socket as Ord>⟧.cmp self.now.listeners socket.now) }
    {
        self.listeners.find(socket)
    }
}
