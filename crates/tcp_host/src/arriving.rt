//! Segments that come (RFC 9293, 3.3.1 and 3.10.7).
ghost use Rattle.std.specs.Prelude.{◌≡◌, ℕ, None, false, if◌then◌else◌, true};
ghost use Rattle.tcp_table.specs.Turns.{after_adding};

use crate::arrived::Arrived;
use crate::host::Host;
use crate::pair::{Pair, Socket, pair_of};
use crate::timed::Timed;
use std::alloc::Allocator;

impl<T: Timed + Drop, L: Drop, A: Allocator + Copy> Host<T, L, A> {
    ghost use Rattle.std.specs.Option.{IsSomeAnd};
    ghost use Rattle.tcp_host.specs.Door.{is_full};
    ghost use Rattle.tcp_host.specs.Hosting.{EndsRest, IsFor, IsForNone, IsHeard, IsOpenedBy, IsUnheard, Stands, after_call, listeners_after};
    ghost use Rattle.tcp_host.specs.Pair.{pair_of};
    ghost use Rattle.tcp_host.specs.Record.{answer_of_record, record_after};
    ghost use Rattle.tcp_table.specs.Table.{held_at, id_at, value_at, with_value};

    /// A segment has come at a time, from the IPv4 address `src` to `dst`: the end of its four values takes it, or
    /// where there is none the record of these, and no other end or record changes, nor any listener.
    pub fn arrive(
        &mut self,
        now: u64,
        src: [u8; 4],
        dst: [u8; 4],
        bytes: &[u8],
    ) -> Arrived<T::Arriving>
        ensures taken { (slot : ℕ) → IsFor ⟦<Pair as Ord>⟧.cmp self.old.ends src dst bytes.now slot → IsSomeAnd (value_at self.old.ends slot) (λ guest. result ≡ Arrived.Taken slot (T.arrival_answer guest.end src dst bytes.now false)) }
        ensures state { (slot : ℕ) → IsFor ⟦<Pair as Ord>⟧.cmp self.old.ends src dst bytes.now slot → IsSomeAnd (value_at self.old.ends slot) (λ guest. self.new.ends ≡ with_value self.old.ends slot (after_call guest (T.behaviour.arrived guest.end now src dst bytes.now false))) }
        ensures turn { (slot : ℕ) → IsFor ⟦<Pair as Ord>⟧.cmp self.old.ends src dst bytes.now slot → self.new.waiting ≡ after_adding self.old.waiting slot }
        ensures announces { (slot : ℕ) → IsFor ⟦<Pair as Ord>⟧.cmp self.old.ends src dst bytes.now slot → IsSomeAnd (value_at self.old.ends slot) (λ guest. self.new.listeners ≡ listeners_after self.old.listeners (T.behaviour.established guest.end) (T.behaviour.established (T.behaviour.arrived guest.end now src dst bytes.now false)) guest.origin (id_at self.old.ends slot)) }
        ensures records_rest { (slot : ℕ) → IsFor ⟦<Pair as Ord>⟧.cmp self.old.ends src dst bytes.now slot → (self.new.records ≡ self.old.records) × (self.new.answering ≡ self.old.answering) }
        ensures others { (slot : ℕ) → (IsFor ⟦<Pair as Ord>⟧.cmp self.old.ends src dst bytes.now slot → ⊥) → held_at self.new.ends slot ≡ held_at self.old.ends slot }
        ensures late { (slot : ℕ) → IsForNone ⟦<Pair as Ord>⟧.cmp self.old.ends src dst bytes.now → IsFor ⟦<Pair as Ord>⟧.cmp self.old.records src dst bytes.now slot → IsSomeAnd (value_at self.old.records slot) (λ guest. result ≡ Arrived.Late slot (answer_of_record guest.end src dst bytes.now)) }
        ensures record { (slot : ℕ) → IsForNone ⟦<Pair as Ord>⟧.cmp self.old.ends src dst bytes.now → IsFor ⟦<Pair as Ord>⟧.cmp self.old.records src dst bytes.now slot → IsSomeAnd (value_at self.old.records slot) (λ guest. self.new.records ≡ with_value self.old.records slot (after_call guest (record_after guest.end now src dst bytes.now))) }
        ensures answer { (slot : ℕ) → IsForNone ⟦<Pair as Ord>⟧.cmp self.old.ends src dst bytes.now → IsFor ⟦<Pair as Ord>⟧.cmp self.old.records src dst bytes.now slot → self.new.answering ≡ after_adding self.old.answering slot }
        ensures ends_rest { IsForNone ⟦<Pair as Ord>⟧.cmp self.old.ends src dst bytes.now → EndsRest self.old self.new }
        ensures other_records { (slot : ℕ) → (IsFor ⟦<Pair as Ord>⟧.cmp self.old.records src dst bytes.now slot → ⊥) → held_at self.new.records slot ≡ held_at self.old.records slot }
        ensures listeners { IsForNone ⟦<Pair as Ord>⟧.cmp self.old.ends src dst bytes.now → self.new.listeners ≡ self.old.listeners }
        ensures other_listeners { (slot : ℕ) → (IsOpenedBy ⟦<Pair as Ord>⟧.cmp self.old src dst bytes.now slot → ⊥) → held_at self.new.listeners slot ≡ held_at self.old.listeners slot }
        ensures stands { Stands self.old self.new }
        ensures none { IsForNone ⟦<Pair as Ord>⟧.cmp self.old.ends src dst bytes.now → IsForNone ⟦<Pair as Ord>⟧.cmp self.old.records src dst bytes.now → self.new ≡ self.old }
        ensures listening { (slot : ℕ) → IsForNone ⟦<Pair as Ord>⟧.cmp self.old.ends src dst bytes.now → IsForNone ⟦<Pair as Ord>⟧.cmp self.old.records src dst bytes.now → IsHeard ⟦<Socket as Ord>⟧.cmp self.old.listeners src dst bytes.now slot → IsSomeAnd (value_at self.old.listeners slot) (λ door. result ≡ (if is_full door then Arrived.Full slot else Arrived.Listening slot)) }
        ensures stray { IsForNone ⟦<Pair as Ord>⟧.cmp self.old.ends src dst bytes.now → IsForNone ⟦<Pair as Ord>⟧.cmp self.old.records src dst bytes.now → IsUnheard ⟦<Socket as Ord>⟧.cmp self.old.listeners src dst bytes.now → result ≡ Arrived.Stray }
        ensures short { pair_of src dst bytes.now ≡ None → result ≡ Arrived.Short }
    {
        self.take(now, src, dst, bytes, false)
    }

    /// The same of a segment whose checksum a device has found right: its end doesn't sum it (RFC 9293, 3.1). A record
    /// does, and so does [`stray`](Self::stray).
    pub fn arrive_vouched(
        &mut self,
        now: u64,
        src: [u8; 4],
        dst: [u8; 4],
        bytes: &[u8],
    ) -> Arrived<T::Arriving>
        ensures taken { (slot : ℕ) → IsFor ⟦<Pair as Ord>⟧.cmp self.old.ends src dst bytes.now slot → IsSomeAnd (value_at self.old.ends slot) (λ guest. result ≡ Arrived.Taken slot (T.arrival_answer guest.end src dst bytes.now true)) }
        ensures state { (slot : ℕ) → IsFor ⟦<Pair as Ord>⟧.cmp self.old.ends src dst bytes.now slot → IsSomeAnd (value_at self.old.ends slot) (λ guest. self.new.ends ≡ with_value self.old.ends slot (after_call guest (T.behaviour.arrived guest.end now src dst bytes.now true))) }
        ensures turn { (slot : ℕ) → IsFor ⟦<Pair as Ord>⟧.cmp self.old.ends src dst bytes.now slot → self.new.waiting ≡ after_adding self.old.waiting slot }
        ensures announces { (slot : ℕ) → IsFor ⟦<Pair as Ord>⟧.cmp self.old.ends src dst bytes.now slot → IsSomeAnd (value_at self.old.ends slot) (λ guest. self.new.listeners ≡ listeners_after self.old.listeners (T.behaviour.established guest.end) (T.behaviour.established (T.behaviour.arrived guest.end now src dst bytes.now true)) guest.origin (id_at self.old.ends slot)) }
        ensures records_rest { (slot : ℕ) → IsFor ⟦<Pair as Ord>⟧.cmp self.old.ends src dst bytes.now slot → (self.new.records ≡ self.old.records) × (self.new.answering ≡ self.old.answering) }
        ensures others { (slot : ℕ) → (IsFor ⟦<Pair as Ord>⟧.cmp self.old.ends src dst bytes.now slot → ⊥) → held_at self.new.ends slot ≡ held_at self.old.ends slot }
        ensures late { (slot : ℕ) → IsForNone ⟦<Pair as Ord>⟧.cmp self.old.ends src dst bytes.now → IsFor ⟦<Pair as Ord>⟧.cmp self.old.records src dst bytes.now slot → IsSomeAnd (value_at self.old.records slot) (λ guest. result ≡ Arrived.Late slot (answer_of_record guest.end src dst bytes.now)) }
        ensures record { (slot : ℕ) → IsForNone ⟦<Pair as Ord>⟧.cmp self.old.ends src dst bytes.now → IsFor ⟦<Pair as Ord>⟧.cmp self.old.records src dst bytes.now slot → IsSomeAnd (value_at self.old.records slot) (λ guest. self.new.records ≡ with_value self.old.records slot (after_call guest (record_after guest.end now src dst bytes.now))) }
        ensures answer { (slot : ℕ) → IsForNone ⟦<Pair as Ord>⟧.cmp self.old.ends src dst bytes.now → IsFor ⟦<Pair as Ord>⟧.cmp self.old.records src dst bytes.now slot → self.new.answering ≡ after_adding self.old.answering slot }
        ensures ends_rest { IsForNone ⟦<Pair as Ord>⟧.cmp self.old.ends src dst bytes.now → EndsRest self.old self.new }
        ensures other_records { (slot : ℕ) → (IsFor ⟦<Pair as Ord>⟧.cmp self.old.records src dst bytes.now slot → ⊥) → held_at self.new.records slot ≡ held_at self.old.records slot }
        ensures listeners { IsForNone ⟦<Pair as Ord>⟧.cmp self.old.ends src dst bytes.now → self.new.listeners ≡ self.old.listeners }
        ensures other_listeners { (slot : ℕ) → (IsOpenedBy ⟦<Pair as Ord>⟧.cmp self.old src dst bytes.now slot → ⊥) → held_at self.new.listeners slot ≡ held_at self.old.listeners slot }
        ensures stands { Stands self.old self.new }
        ensures none { IsForNone ⟦<Pair as Ord>⟧.cmp self.old.ends src dst bytes.now → IsForNone ⟦<Pair as Ord>⟧.cmp self.old.records src dst bytes.now → self.new ≡ self.old }
        ensures listening { (slot : ℕ) → IsForNone ⟦<Pair as Ord>⟧.cmp self.old.ends src dst bytes.now → IsForNone ⟦<Pair as Ord>⟧.cmp self.old.records src dst bytes.now → IsHeard ⟦<Socket as Ord>⟧.cmp self.old.listeners src dst bytes.now slot → IsSomeAnd (value_at self.old.listeners slot) (λ door. result ≡ (if is_full door then Arrived.Full slot else Arrived.Listening slot)) }
        ensures stray { IsForNone ⟦<Pair as Ord>⟧.cmp self.old.ends src dst bytes.now → IsForNone ⟦<Pair as Ord>⟧.cmp self.old.records src dst bytes.now → IsUnheard ⟦<Socket as Ord>⟧.cmp self.old.listeners src dst bytes.now → result ≡ Arrived.Stray }
        ensures short { pair_of src dst bytes.now ≡ None → result ≡ Arrived.Short }
    {
        self.take(now, src, dst, bytes, true)
    }

    /// A segment has come, summed or vouched for: the one way in of both calls.
    fn take(
        &mut self,
        now: u64,
        src: [u8; 4],
        dst: [u8; 4],
        bytes: &[u8],
        is_vouched: bool,
    ) -> Arrived<T::Arriving>
        ensures taken { (slot : ℕ) → IsFor ⟦<Pair as Ord>⟧.cmp self.old.ends src dst bytes.now slot → IsSomeAnd (value_at self.old.ends slot) (λ guest. result ≡ Arrived.Taken slot (T.arrival_answer guest.end src dst bytes.now is_vouched)) }
        ensures state { (slot : ℕ) → IsFor ⟦<Pair as Ord>⟧.cmp self.old.ends src dst bytes.now slot → IsSomeAnd (value_at self.old.ends slot) (λ guest. self.new.ends ≡ with_value self.old.ends slot (after_call guest (T.behaviour.arrived guest.end now src dst bytes.now is_vouched))) }
        ensures turn { (slot : ℕ) → IsFor ⟦<Pair as Ord>⟧.cmp self.old.ends src dst bytes.now slot → self.new.waiting ≡ after_adding self.old.waiting slot }
        ensures announces { (slot : ℕ) → IsFor ⟦<Pair as Ord>⟧.cmp self.old.ends src dst bytes.now slot → IsSomeAnd (value_at self.old.ends slot) (λ guest. self.new.listeners ≡ listeners_after self.old.listeners (T.behaviour.established guest.end) (T.behaviour.established (T.behaviour.arrived guest.end now src dst bytes.now is_vouched)) guest.origin (id_at self.old.ends slot)) }
        ensures records_rest { (slot : ℕ) → IsFor ⟦<Pair as Ord>⟧.cmp self.old.ends src dst bytes.now slot → (self.new.records ≡ self.old.records) × (self.new.answering ≡ self.old.answering) }
        ensures others { (slot : ℕ) → (IsFor ⟦<Pair as Ord>⟧.cmp self.old.ends src dst bytes.now slot → ⊥) → held_at self.new.ends slot ≡ held_at self.old.ends slot }
        ensures late { (slot : ℕ) → IsForNone ⟦<Pair as Ord>⟧.cmp self.old.ends src dst bytes.now → IsFor ⟦<Pair as Ord>⟧.cmp self.old.records src dst bytes.now slot → IsSomeAnd (value_at self.old.records slot) (λ guest. result ≡ Arrived.Late slot (answer_of_record guest.end src dst bytes.now)) }
        ensures record { (slot : ℕ) → IsForNone ⟦<Pair as Ord>⟧.cmp self.old.ends src dst bytes.now → IsFor ⟦<Pair as Ord>⟧.cmp self.old.records src dst bytes.now slot → IsSomeAnd (value_at self.old.records slot) (λ guest. self.new.records ≡ with_value self.old.records slot (after_call guest (record_after guest.end now src dst bytes.now))) }
        ensures answer { (slot : ℕ) → IsForNone ⟦<Pair as Ord>⟧.cmp self.old.ends src dst bytes.now → IsFor ⟦<Pair as Ord>⟧.cmp self.old.records src dst bytes.now slot → self.new.answering ≡ after_adding self.old.answering slot }
        ensures ends_rest { IsForNone ⟦<Pair as Ord>⟧.cmp self.old.ends src dst bytes.now → EndsRest self.old self.new }
        ensures other_records { (slot : ℕ) → (IsFor ⟦<Pair as Ord>⟧.cmp self.old.records src dst bytes.now slot → ⊥) → held_at self.new.records slot ≡ held_at self.old.records slot }
        ensures listeners { IsForNone ⟦<Pair as Ord>⟧.cmp self.old.ends src dst bytes.now → self.new.listeners ≡ self.old.listeners }
        ensures other_listeners { (slot : ℕ) → (IsOpenedBy ⟦<Pair as Ord>⟧.cmp self.old src dst bytes.now slot → ⊥) → held_at self.new.listeners slot ≡ held_at self.old.listeners slot }
        ensures stands { Stands self.old self.new }
        ensures none { IsForNone ⟦<Pair as Ord>⟧.cmp self.old.ends src dst bytes.now → IsForNone ⟦<Pair as Ord>⟧.cmp self.old.records src dst bytes.now → self.new ≡ self.old }
        ensures listening { (slot : ℕ) → IsForNone ⟦<Pair as Ord>⟧.cmp self.old.ends src dst bytes.now → IsForNone ⟦<Pair as Ord>⟧.cmp self.old.records src dst bytes.now → IsHeard ⟦<Socket as Ord>⟧.cmp self.old.listeners src dst bytes.now slot → IsSomeAnd (value_at self.old.listeners slot) (λ door. result ≡ (if is_full door then Arrived.Full slot else Arrived.Listening slot)) }
        ensures stray { IsForNone ⟦<Pair as Ord>⟧.cmp self.old.ends src dst bytes.now → IsForNone ⟦<Pair as Ord>⟧.cmp self.old.records src dst bytes.now → IsUnheard ⟦<Socket as Ord>⟧.cmp self.old.listeners src dst bytes.now → result ≡ Arrived.Stray }
        ensures short { pair_of src dst bytes.now ≡ None → result ≡ Arrived.Short }
    {
        let Some(pair) = pair_of(src, dst, bytes) else {
            return Arrived::Short;
        };
        if let Some(slot) = self.ends.find(&pair) {
            let was_open = self.ends.is_open(slot);
            let Some(taken) = self.ends.arrive(slot, now, src, dst, bytes, is_vouched) else {
                return Arrived::Stray;
            };
            self.announce(slot, was_open);
            return Arrived::Taken(slot, taken);
        }
        if let Some(slot) = self.records.find(&pair) {
            let Some(answer) = self.records.arrive(slot, now, src, dst, bytes, is_vouched) else {
                return Arrived::Stray;
            };
            return Arrived::Late(slot, answer);
        }
        let Some(listener) = self.listeners.find(&pair.local) else {
            return Arrived::Stray;
        };
        if self.is_full(listener) {
            return Arrived::Full(listener);
        }
        Arrived::Listening(listener)
    }
}
