//! Values under keys.
ghost use Rattle.std.specs.Prelude.{◌≡◌, ◌+◌, ◌<◌, [], Some, None, IfSome, IfNone, IfOk, IfErr, OnOk, OnErr, option_copied};

use crate::held::{Held, Id};
use slab::Slab;
use std::alloc::{AllocFailed, Allocator, Global};
use std::collections::BTreeMap;
use std::marker::Model;

/// Values, each under a key, in slots that are numbered from 0 on: a slot that was left is taken again. A key is found
/// by steps that go by the logarithm of how many there are, whoever chose the keys; a slot by one step.
#[derive(Debug, Drop)]
pub struct Table<K: Ord + Copy, T, A: Allocator = Global> {
    /// What each slot has.
    slots: Slab<Held<K, T>, A>,
    /// The slot of each key.
    places: BTreeMap<K, usize, A>,
    /// The number of the next value.
    next: u64,
}

impl<K: Ord + Copy, T, A: Allocator> Model for Table<K, T, A> {
    ghost use Rattle.tcp_table.specs.Table.{IsInPlace, Table};

    ghost Value = { Table K T };

    ghost view = { λ t. record { slots = t.slots.slots; next = t.next } };

    ghost invariant = { λ t. IsInPlace K.cmp (record { slots = t.slots.slots; next = t.next }) t.places };
}

impl<K: Ord + Copy, T, A: Allocator + Copy> Table<K, T, A> {
    ghost use Rattle.std.specs.Borrow.{LendsIf, sem};
    ghost use Rattle.std.specs.Option.{option_copied_mut};
    ghost use Rattle.tcp_table.specs.Table.{AreAboveZero, AreBelow, Changes, HasKey, IsAsBefore, IsDistinct, LacksKey, held_at, id_at, slot_of, value_at, with_value};
    ghost use Rattle.tcp_table.specs.contracts.table.Table.{the_row};

    /// No value. What it will hold is in memory of `alloc`.
    #[must_use]
    pub fn new_in(alloc: A) -> Self
        ensures empty { result.slots ≡ [] }
        ensures first { result.next ≡ 1 }
    {
        Table {
            slots: Slab::new(alloc),
            places: BTreeMap::new(alloc),
            next: 1,
        }
    }

    /// The slot of the value under a key.
    #[must_use]
    pub fn find(&self, key: &K) -> Option<usize>
        ensures found { IfSome result (HasKey K.cmp self.now key.now) }
        ensures none { IfNone result (LacksKey K.cmp self.now key.now) }
        ensures distinct { IsDistinct K.cmp self.now }
    {
        match self.places.get(key) {
            Some(slot) => Some(*slot),
            None => None,
        }
    }

    /// The slot of a handle's value, while that is there. Of a handle whose number is 0 there is none.
    #[must_use]
    pub fn slot_of(&self, id: Id) -> Option<usize>
        ensures slot { result ≡ slot_of self.now id }
        ensures zero { id.number ≡ 0 → result ≡ None }
    {
        match self.slots.get(id.slot) {
            Some(held) if held.number == id.number => Some(id.slot),
            _ => None,
        }
    }

    /// What a slot has: the value with its key and its number.
    #[must_use]
    pub fn held(&self, slot: usize) -> Option<&Held<K, T>>
        ensures held { option_copied result ≡ held_at self.now slot }
        ensures below { AreBelow self.now }
        ensures above { AreAboveZero self.now }
    {
        self.slots.get(slot)
    }

    /// The handle of the value in a slot.
    #[must_use]
    pub fn id(&self, slot: usize) -> Option<Id>
        ensures handle { result ≡ id_at self.now slot }
        ensures below { AreBelow self.now }
        ensures above { AreAboveZero self.now }
    {
        match self.slots.get(slot) {
            Some(held) => Some(Id {
                slot,
                number: held.number,
            }),
            None => None,
        }
    }

    /// The value of a slot, for writing.
    pub fn get_mut(&mut self, slot: usize) -> Option<&mut T>
        ensures* writes_back { sem 𝓛 (LendsIf (the_row K.row T.row A.row (record { cmp = K.cmp }) (record { eq = K.eq }) (record { partial_cmp = K.partial_cmp }) A.Allocator) T.row self.entry result (with_value self.old slot) self.old) }
        ensures value { option_copied_mut result ≡ value_at self.old slot }
    {
        match self.slots.get_mut(slot) {
            Some(held) => Some(&mut held.value),
            None => None,
        }
    }

    /// Puts a value under a key that has none, and gives its handle: no handle that was given before is equal, and none
    /// has the number 0. Where there is no memory the value comes back, and nothing changes; so it does behind 2^64 - 2
    /// values.
    pub fn insert(&mut self, key: K, value: T) -> Result<Id, AllocFailed<T>>
        requires { LacksKey K.cmp self.old key }
        ensures changes { IfOk result (λ id. Changes self.old self.new id.slot (Some (record { key = key; number = id.number; value = value }))) }
        ensures was_free { IfOk result (λ id. held_at self.old id.slot ≡ None) }
        ensures number { IfOk result (λ id. id.number ≡ self.old.next) }
        ensures above { IfOk result (λ id. 0 < id.number) }
        ensures next { OnOk result (self.new.next ≡ self.old.next + 1) }
        ensures value_returned { IfErr result (λ failed. failed.value ≡ value) }
        ensures err { OnErr result (IsAsBefore self.old self.new) }
    {
        let number = self.next;
        if number == u64::MAX || self.slots.reserve(1).is_err() {
            return Err(AllocFailed { value });
        }
        let slot = self.slots.vacant_key();
        let Ok(_) = self.places.insert(key, slot) else {
            return Err(AllocFailed { value });
        };
        self.next = number + 1;
        let slot = self.slots.insert_reserved(Held { key, number, value });
        Ok(Id { slot, number })
    }

    /// Takes the value out of a slot: the slot and the key are free.
    pub fn remove(&mut self, slot: usize) -> Option<T>
        ensures value { result ≡ value_at self.old slot }
        ensures changes { Changes self.old self.new slot None }
        ensures next { self.new.next ≡ self.old.next }
    {
        let held = self.slots.try_remove(slot)?;
        self.places.remove(&held.key);
        Some(held.value)
    }
}
