//! Ends of one kind, each under its pair of sockets.
ghost use Rattle.std.specs.Prelude.{◌≡◌, ◌≤◌, ◌<◌, ◌+◌, ℕ, [], ◌∷◌, Some, None, IfSome, IfNone, IfOk, IfErr, OnOk, OnErr, MatchOption, drop, is_some, if◌then◌else◌, length, min, option_copied, option_map, slice_get};
ghost use Rattle.tcp_table.specs.Deadlines.{due_at};
ghost use Rattle.tcp_table.specs.Turns.{after_adding};

use crate::guest::{Guest, due, follow};
use crate::pair::Pair;
use crate::timed::Timed;
use std::alloc::{AllocError, AllocFailed, Allocator};
use std::marker::Model;
use tcp_driver::{LAST, Sent, Timer};
use tcp_table::{Deadlines, Id, Table, Turns};

/// Ends, with the deadline of each, and who waits for a turn. What a call does to an end, its deadline and its turn is
/// here alone, whatever the ends are.
#[derive(Drop)]
pub(crate) struct Roll<T: Timed + Drop, A: Allocator> {
    pub(crate) ends: Table<Pair, Guest<T>, A>,
    /// The deadline of the end in each slot.
    pub(crate) deadlines: Deadlines<A>,
    /// The slots whose ends may have something to send.
    pub(crate) turns: Turns<A>,
}

impl<T: Timed + Drop, A: Allocator> Model for Roll<T, A> {
    ghost use Rattle.tcp_host.specs.Hosting.{EachWaits, IsTimed, Rolled};

    ghost Value = { Rolled T };

    ghost view = { λ r. record { ends = r.ends; waiting = r.turns.queue } };

    ghost invariant = { λ r. IsTimed T.behaviour r.ends r.deadlines r.turns.room × EachWaits T.behaviour r.ends r.turns.queue };
}

impl<T: Timed + Drop, A: Allocator + Copy> Roll<T, A> {
    ghost use Rattle.std.specs.Option.{IsSomeAnd};
    ghost use Rattle.tcp_driver.specs.Deadlines.{last};
    ghost use Rattle.tcp_host.specs.Hosting.{EachWaits, IsFirst, IsLeast, after_call, deadline_at, end_at, new_guest, open_at, origin_at, woken};
    ghost use Rattle.tcp_table.specs.Table.{Changes, HasKey, IsDistinct, LacksKey, held_at, id_at, slot_of, value_at, with_value};

    /// No end. What it will hold is in memory of `alloc`.
    pub(crate) fn new_in(alloc: A) -> Self
        ensures ends { result.ends.slots ≡ [] }
        ensures waiting { result.waiting ≡ [] }
        ensures first { result.ends.next ≡ 1 }
    {
        Roll {
            ends: Table::new_in(alloc),
            deadlines: Deadlines::new_in(alloc),
            turns: Turns::new_in(alloc),
        }
    }

    /// The end whose deadline is the least, behind that.
    pub(crate) fn first(&self) -> Option<(u64, usize)>
        ensures first { IfSome result (λ first. IsFirst T.behaviour self.now.ends first.0 first.1) }
        ensures none { IfNone result ((slot : ℕ) → deadline_at T.behaviour self.now.ends slot ≡ None) }
    {
        self.deadlines.first()
    }

    /// The least deadline.
    pub(crate) fn poll_at(&self) -> Option<u64>
        ensures least { IfSome result (IsLeast T.behaviour self.now.ends) }
        ensures of_an_end { IfSome result (λ time. (slot : ℕ) × (deadline_at T.behaviour self.now.ends slot ≡ Some time)) }
        ensures none { IfNone result ((slot : ℕ) → deadline_at T.behaviour self.now.ends slot ≡ None) }
    {
        match self.deadlines.first() {
            Some((time, _)) => Some(time),
            None => None,
        }
    }

    /// A segment has come for the end in a slot, if it has one. A device has vouched for it, or not.
    pub(crate) fn arrive(
        &mut self,
        slot: usize,
        now: u64,
        src: [u8; 4],
        dst: [u8; 4],
        bytes: &[u8],
        is_vouched: bool,
    ) -> Option<T::Arriving>
        ensures answer { IfSome result (λ answer. IsSomeAnd (value_at self.old.ends slot) (λ guest. answer ≡ T.arrival_answer guest.end src dst bytes.now is_vouched)) }
        ensures state { IfSome result (λ answer. IsSomeAnd (value_at self.old.ends slot) (λ guest. self.new.ends ≡ with_value self.old.ends slot (after_call guest (T.behaviour.arrived guest.end now src dst bytes.now is_vouched)))) }
        ensures turn { IfSome result (λ answer. self.new.waiting ≡ after_adding self.old.waiting slot) }
        ensures found { is_some result ≡ is_some (value_at self.old.ends slot) }
        ensures none { IfNone result (self.new ≡ self.old) }
    {
        let guest = self.ends.get_mut(slot)?;
        let answer = guest.end.arrive(now, src, dst, bytes, is_vouched);
        follow(guest, slot, &mut self.deadlines, &mut self.turns);
        Some(answer)
    }

    /// The slot whose turn is next.
    pub(crate) fn next_turn(&self) -> Option<usize>
        ensures next { result ≡ slice_get self.now.waiting 0 }
        ensures each_waits { EachWaits T.behaviour self.now.ends self.now.waiting }
    {
        self.turns.first()
    }

    /// Whose turn it is has its turn: the slot, and what its end writes.
    pub(crate) fn emit(
        &mut self,
        now: u64,
        window: u64,
        out: &mut [u8],
    ) -> Option<(usize, Option<Sent>)>
        requires { T.behaviour.room ≤ length out.old }
        ensures first { IfSome result (λ turn. self.old.waiting ≡ turn.0 ∷ drop 1 self.old.waiting) }
        ensures sent { IfSome result (λ turn. MatchOption (value_at self.old.ends turn.0) (turn.1 ≡ None) (λ guest. turn.1 ≡ T.behaviour.emission guest.end now window)) }
        ensures most { IfSome result (λ turn. IfSome turn.1 (λ sent. sent.len ≤ T.behaviour.room)) }
        ensures written { IfSome result (λ turn. MatchOption (value_at self.old.ends turn.0) (out.new ≡ out.old) (λ guest. out.new ≡ T.behaviour.written guest.end now window out.old)) }
        ensures state { IfSome result (λ turn. MatchOption (value_at self.old.ends turn.0) (self.new.ends ≡ self.old.ends) (λ guest. self.new.ends ≡ with_value self.old.ends turn.0 (after_call guest (T.behaviour.emitted guest.end now window)))) }
        ensures behind { IfSome result (λ turn. self.new.waiting ≡ (if is_some turn.1 then after_adding (drop 1 self.old.waiting) turn.0 else drop 1 self.old.waiting)) }
        ensures none { IfNone result ((self.old.waiting ≡ []) × (self.new ≡ self.old) × (out.new ≡ out.old)) }
    {
        let slot = self.turns.next()?;
        let Some(guest) = self.ends.get_mut(slot) else {
            return Some((slot, None));
        };
        let sent = guest.end.emit(now, window, out);
        guest.is_woken = false;
        self.deadlines.set(slot, due(guest));
        if sent.is_none() {
            return Some((slot, None));
        }
        self.turns.add(slot);
        Some((slot, sent))
    }

    /// It is `now`: the end whose deadline is the least is told, if that has come.
    pub(crate) fn timeout(&mut self, now: u64) -> Option<(usize, Option<Timer>)>
        ensures due { IfSome result (λ told. IsSomeAnd (deadline_at T.behaviour self.old.ends told.0) (λ time. (time ≤ min last now) × IsLeast T.behaviour self.old.ends time)) }
        ensures expired { IfSome result (λ told. IsSomeAnd (value_at self.old.ends told.0) (λ guest. told.1 ≡ T.behaviour.expiry guest.end now)) }
        ensures state { IfSome result (λ told. IsSomeAnd (value_at self.old.ends told.0) (λ guest. self.new.ends ≡ with_value self.old.ends told.0 (woken guest (T.behaviour.told guest.end now)))) }
        ensures due_no_more { IfSome result (λ told. deadline_at T.behaviour self.new.ends told.0 ≡ None) }
        ensures turn { IfSome result (λ told. self.new.waiting ≡ after_adding self.old.waiting told.0) }
        ensures later { IfNone result ((slot : ℕ) → IfSome (deadline_at T.behaviour self.old.ends slot) (λ time. min last now < time)) }
        ensures none { IfNone result (self.new ≡ self.old) }
    {
        let (time, slot) = self.deadlines.first()?;
        if LAST.min(now) < time {
            return None;
        }
        let guest = self.ends.get_mut(slot)?;
        let timer = guest.end.timeout(now);
        guest.is_woken = true;
        self.deadlines.set(slot, None);
        self.turns.add(slot);
        Some((slot, timer))
    }

    /// It is `now`: the end whose deadline is the least goes, if that has come: its slot.
    pub(crate) fn take_due(&mut self, now: u64) -> Option<usize>
        ensures due { IfSome result (λ slot. IsSomeAnd (deadline_at T.behaviour self.old.ends slot) (λ time. (time ≤ min last now) × IsLeast T.behaviour self.old.ends time)) }
        ensures removed { IfSome result (λ slot. Changes self.old.ends self.new.ends slot None) }
        ensures due_no_more { IfSome result (λ slot. deadline_at T.behaviour self.new.ends slot ≡ None) }
        ensures waiting { self.new.waiting ≡ self.old.waiting }
        ensures later { IfNone result ((slot : ℕ) → IfSome (deadline_at T.behaviour self.old.ends slot) (λ time. min last now < time)) }
        ensures none { IfNone result (self.new ≡ self.old) }
    {
        let (time, slot) = self.first()?;
        if time > LAST.min(now) {
            return None;
        }
        self.remove(slot)?;
        Some(slot)
    }

    /// Puts an end under a pair that has none: it waits for a turn. Its handle, which no other one has or had. Where
    /// there is no memory the end comes back, and no other changes.
    pub(crate) fn open(
        &mut self,
        pair: Pair,
        end: T,
        origin: Option<Id>,
    ) -> Result<Id, AllocFailed<T>>
        requires { LacksKey ⟦<Pair as Ord>⟧.cmp self.old.ends pair }
        ensures opened { IfOk result (λ id. Changes self.old.ends self.new.ends id.slot (Some (record { key = pair; number = id.number; value = new_guest end origin }))) }
        ensures was_free { IfOk result (λ id. held_at self.old.ends id.slot ≡ None) }
        ensures number { IfOk result (λ id. id.number ≡ self.old.ends.next) }
        ensures above { IfOk result (λ id. 0 < id.number) }
        ensures next { OnOk result (self.new.ends.next ≡ self.old.ends.next + 1) }
        ensures turn { IfOk result (λ id. self.new.waiting ≡ after_adding self.old.waiting id.slot) }
        ensures err { OnErr result ((slot : ℕ) → held_at self.new.ends slot ≡ held_at self.old.ends slot) }
        ensures err_next { OnErr result (self.old.ends.next ≤ self.new.ends.next) }
        ensures err_waiting { OnErr result (self.new.waiting ≡ self.old.waiting) }
        ensures value_returned { IfErr result (λ failed. failed.value ≡ end) }
    {
        let guest = Guest {
            end,
            is_woken: false,
            origin,
        };
        let deadline = due(&guest);
        let id = match self.ends.insert(pair, guest) {
            Ok(id) => id,
            Err(refused) => return Err(given_back(refused)),
        };
        if make_room(&mut self.deadlines, &mut self.turns, id.slot).is_err() {
            return match self.ends.remove(id.slot) {
                Some(guest) => Err(AllocFailed { value: guest.end }),
                None => unreachable!(),
            };
        }
        self.deadlines.set(id.slot, deadline);
        self.turns.add(id.slot);
        Ok(id)
    }

    /// The end goes from a slot: it is given back.
    pub(crate) fn remove(&mut self, slot: usize) -> Option<T>
        ensures end { result ≡ end_at self.old.ends slot }
        ensures removed { IfSome result (λ end. Changes self.old.ends self.new.ends slot None) }
        ensures next { self.new.ends.next ≡ self.old.ends.next }
        ensures waiting { self.new.waiting ≡ self.old.waiting }
        ensures none { IfNone result (self.new ≡ self.old) }
    {
        if self.ends.held(slot).is_none() {
            return None;
        }
        let guest = self.ends.remove(slot)?;
        self.deadlines.set(slot, None);
        Some(guest.end)
    }

    /// The slot of the end of a pair.
    pub(crate) fn find(&self, pair: &Pair) -> Option<usize>
        ensures found { IfSome result (HasKey ⟦<Pair as Ord>⟧.cmp self.now.ends pair.now) }
        ensures none { IfNone result (LacksKey ⟦<Pair as Ord>⟧.cmp self.now.ends pair.now) }
        ensures distinct { IsDistinct ⟦<Pair as Ord>⟧.cmp self.now.ends }
    {
        self.ends.find(pair)
    }

    /// The slot of a handle's end, while that is there.
    pub(crate) fn slot_of(&self, id: Id) -> Option<usize>
        ensures { result ≡ slot_of self.now.ends id }
    {
        self.ends.slot_of(id)
    }

    /// The end in a slot.
    pub(crate) fn end(&self, slot: usize) -> Option<&T>
        ensures { option_copied result ≡ end_at self.now.ends slot }
    {
        match self.ends.held(slot) {
            Some(held) => Some(&held.value.end),
            None => None,
        }
    }

    /// Whether the handshake of the end in a slot is over.
    pub(crate) fn is_open(&self, slot: usize) -> bool
        ensures { result ≡ open_at T.behaviour self.now.ends slot }
    {
        match self.ends.held(slot) {
            Some(held) => held.value.end.is_open(),
            None => false,
        }
    }

    /// The listener for which the end in a slot was opened.
    pub(crate) fn origin(&self, slot: usize) -> Option<Id>
        ensures { result ≡ origin_at self.now.ends slot }
    {
        match self.ends.held(slot) {
            Some(held) => held.value.origin,
            None => None,
        }
    }

    /// The pair of the end in a slot.
    pub(crate) fn pair(&self, slot: usize) -> Option<Pair>
        ensures { result ≡ option_map (λ held. held.key) (held_at self.now.ends slot) }
    {
        match self.ends.held(slot) {
            Some(held) => Some(held.key),
            None => None,
        }
    }

    /// The handle of the end in a slot.
    pub(crate) fn id(&self, slot: usize) -> Option<Id>
        ensures handle { result ≡ id_at self.now.ends slot }
        ensures below { IfSome result (λ id. id.number < self.now.ends.next) }
        ensures above { IfSome result (λ id. 0 < id.number) }
    {
        self.ends.id(slot)
    }
}

/// The end comes back that there was no memory for.
fn given_back<T>(refused: AllocFailed<Guest<T>>) -> AllocFailed<T>
    ensures { result.value ≡ refused.value.end }
{
    AllocFailed {
        value: refused.value.end,
    }
}

/// Makes room for the deadline and the turn of the end in a slot: at least twice what there was, so that on the whole
/// it costs each slot a few steps.
fn make_room<A: Allocator + Copy>(
    deadlines: &mut Deadlines<A>,
    turns: &mut Turns<A>,
    slot: usize,
) -> Result<(), AllocError>
    ensures timed { OnOk result (slot < length deadlines.new) }
    ensures roomy { OnOk result (slot < turns.new.room) }
    ensures longer { length deadlines.old ≤ length deadlines.new }
    ensures roomier { turns.old.room ≤ turns.new.room }
    ensures due { (id : ℕ) → due_at deadlines.new id ≡ due_at deadlines.old id }
    ensures queue { turns.new.queue ≡ turns.old.queue }
{
    let Some(least) = slot.checked_add(1) else {
        return Err(AllocError);
    };
    if deadlines.room() < least {
        deadlines.reserve(least.max(deadlines.room().saturating_mul(2)))?;
    }
    if turns.room() < least {
        turns.reserve(least.max(turns.room().saturating_mul(2)))?;
    }
    Ok(())
}
