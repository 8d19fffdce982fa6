//! Many ends under one object.
ghost use Rattle.std.specs.Prelude.{◌≡◌, ◌≤◌, ◌<◌, ℕ, [], ◌∷◌, None, Some, IfSome, IfNone, MatchOption, drop, is_some, if◌then◌else◌, length, max, min, slice_get};
ghost use Rattle.tcp_table.specs.Turns.{after_adding};

use crate::arrived::Arrived;
use crate::door::Door;
use crate::pair::{Pair, Socket, pair_of};
use crate::place::Place;
use crate::record::Record;
use crate::roll::Roll;
use crate::timed::Timed;
use std::alloc::{Allocator, Global};
use std::marker::Model;
use tcp_congestion::Limiter;
use tcp_conn::TIME_WAIT_LEN;
use tcp_driver::{Sent, Timer};
use tcp_table::{Table, earlier};

/// Ends that are open, each under its pair of sockets, TIME-WAIT records of ends that are gone, under theirs, and
/// listeners, each with what its user keeps of it (RFC 9293, 3.3.1, 3.3.2 and 3.10.7.2). A segment takes steps by the
/// logarithm of how many there are, whoever sent it, and so does each timer that expires. Times are microseconds, as a
/// [`tcp_driver::Driver`] has them.
///
/// An end and a listener have a slot, which is taken again once they are gone, and a handle ([`tcp_table::Id`]), which
/// is never given again, and whose number is never 0: what a caller keeps is the handle.
#[derive(Drop)]
pub struct Host<T: Timed + Drop, L: Drop, A: Allocator = Global> {
    pub(crate) ends: Roll<T, A>,
    pub(crate) records: Roll<Record, A>,
    pub(crate) listeners: Table<Socket, Door<L, A>, A>,
    /// When a stray is answered.
    pub(crate) strays: Limiter,
    /// How long TIME-WAIT lasts where the peer's FIN comes again for a record.
    pub(crate) span: u64,
    /// What it holds is in memory of this.
    pub(crate) alloc: A,
}

impl<T: Timed + Drop, L: Drop, A: Allocator> Model for Host<T, L, A> {
    ghost use Rattle.tcp_host.specs.Hosting.{Hosting};

    ghost Value = { Hosting T L };

    ghost view = { λ h. record { ends = h.ends.ends; waiting = h.ends.waiting; listeners = h.listeners; records = h.records.ends; answering = h.records.waiting; strays = h.strays; span = h.span } };
}

/// One stray is answered in so many microseconds.
const STRAY_INTERVAL: u64 = 10_000;

/// Two maximum segment lifetimes (RFC 9293, 3.4.2).
const TIME_WAIT: u64 = 240_000_000;

impl<T: Timed + Drop, L: Drop, A: Allocator + Copy> Host<T, L, A> {
    ghost use Rattle.std.specs.Option.{IsSomeAnd};
    ghost use Rattle.tcp_congestion.specs.Limiter.{new_limiter};
    ghost use Rattle.tcp_driver.specs.Deadlines.{last};
    ghost use Rattle.tcp_host.specs.Pair.{pair_of};
    ghost use Rattle.tcp_host.specs.Record.{answer_of_record, of_record, record_after};
    ghost use Rattle.tcp_host.specs.Hosting.{ByPlace, EachWaits, EndsRest, IsElsewhere, IsFor, IsForNone, IsHeard, IsLeast, IsOfOne, IsOpenedBy, IsUnheard, Stands, after_call, deadline_at, listeners_after, woken};
    ghost use Rattle.tcp_host.specs.Door.{is_full};
    ghost use Rattle.tcp_table.specs.Table.{Changes, held_at, id_at, value_at, with_value};

    /// No end, no record and no listener. What it will hold is in memory of `alloc`.
    #[must_use]
    pub fn new_in(alloc: A) -> Self
        ensures ends { result.ends.slots ≡ [] }
        ensures listeners { result.listeners.slots ≡ [] }
        ensures waiting { result.waiting ≡ [] }
        ensures records { result.records.slots ≡ [] }
        ensures answering { result.answering ≡ [] }
        ensures first_end { result.ends.next ≡ 1 }
        ensures first_listener { result.listeners.next ≡ 1 }
        ensures strays { result.strays ≡ new_limiter STRAY_INTERVAL }
        ensures span { result.span ≡ TIME_WAIT }
    {
        Host {
            ends: Roll::new_in(alloc),
            records: Roll::new_in(alloc),
            listeners: Table::new_in(alloc),
            strays: Limiter::new(STRAY_INTERVAL),
            span: TIME_WAIT,
            alloc,
        }
    }

    /// The least deadline of all ends and records: when [`timeout`](Self::timeout) has to be called, if nothing else
    /// happens before. An end in a burst has none: it waits for a turn, and its timers for what that emits; nor has one
    /// that `timeout` has told, until something is called of it, as its turn is.
    #[must_use]
    pub fn poll_at(&self) -> Option<u64>
        ensures least { IfSome result (IsLeast T.behaviour self.now.ends) }
        ensures least_record { IfSome result (IsLeast of_record self.now.records) }
        ensures of_one { IfSome result (IsOfOne T.behaviour self.now) }
        ensures none { IfNone result ((slot : ℕ) → deadline_at T.behaviour self.now.ends slot ≡ None) }
        ensures no_record { IfNone result ((slot : ℕ) → deadline_at of_record self.now.records slot ≡ None) }
    {
        earlier(self.ends.poll_at(), self.records.poll_at())
    }

    /// The slot of the end whose turn is next: whoever bounds what an end may send by a window looks at that end first.
    /// `None` where no end waits: then no end is in a burst, or was told the time and hasn't emitted.
    #[must_use]
    pub fn next_turn(&self) -> Option<usize>
        ensures next { result ≡ slice_get self.now.waiting 0 }
        ensures each_waits { EachWaits T.behaviour self.now.ends self.now.waiting }
    {
        self.ends.next_turn()
    }

    /// Whose turn it is has its turn: where it is, and the segment that is written, if one may go out. Records answer
    /// first; then each end has its turn, within `window` as [`Timed::emit`] has it: [`next_turn`](Self::next_turn)
    /// tells its slot before. Where a segment went out its end or record waits behind all others for its next turn.
    /// `None` where nobody waits.
    pub fn emit(&mut self, now: u64, window: u64, out: &mut [u8]) -> Option<(Place, Option<Sent>)>
        requires { max TIME_WAIT_LEN T.behaviour.room ≤ length out.old }
        ensures first { IfSome result (λ turn. ByPlace turn.0 (λ slot. (self.old.answering ≡ []) × (self.old.waiting ≡ slot ∷ drop 1 self.old.waiting)) (λ slot. self.old.answering ≡ slot ∷ drop 1 self.old.answering)) }
        ensures sent { IfSome result (λ turn. ByPlace turn.0 (λ slot. MatchOption (value_at self.old.ends slot) (turn.1 ≡ None) (λ guest. turn.1 ≡ T.behaviour.emission guest.end now window)) (λ slot. MatchOption (value_at self.old.records slot) (turn.1 ≡ None) (λ guest. turn.1 ≡ of_record.emission guest.end now window))) }
        ensures most { IfSome result (λ turn. IfSome turn.1 (λ sent. sent.len ≤ max TIME_WAIT_LEN T.behaviour.room)) }
        ensures written { IfSome result (λ turn. ByPlace turn.0 (λ slot. MatchOption (value_at self.old.ends slot) (out.new ≡ out.old) (λ guest. out.new ≡ T.behaviour.written guest.end now window out.old)) (λ slot. MatchOption (value_at self.old.records slot) (out.new ≡ out.old) (λ guest. out.new ≡ of_record.written guest.end now window out.old))) }
        ensures state { IfSome result (λ turn. ByPlace turn.0 (λ slot. MatchOption (value_at self.old.ends slot) (self.new.ends ≡ self.old.ends) (λ guest. self.new.ends ≡ with_value self.old.ends slot (after_call guest (T.behaviour.emitted guest.end now window)))) (λ slot. MatchOption (value_at self.old.records slot) (self.new.records ≡ self.old.records) (λ guest. self.new.records ≡ with_value self.old.records slot (after_call guest (of_record.emitted guest.end now window))))) }
        ensures behind { IfSome result (λ turn. ByPlace turn.0 (λ slot. self.new.waiting ≡ (if is_some turn.1 then after_adding (drop 1 self.old.waiting) slot else drop 1 self.old.waiting)) (λ slot. self.new.answering ≡ (if is_some turn.1 then after_adding (drop 1 self.old.answering) slot else drop 1 self.old.answering))) }
        ensures listeners { self.new.listeners ≡ self.old.listeners }
        ensures others { IfSome result (λ turn. ByPlace turn.0 (λ slot. IsElsewhere self.old self.new) (λ slot. EndsRest self.old self.new × Stands self.old self.new)) }
        ensures none { IfNone result ((self.old.waiting ≡ []) × (self.old.answering ≡ []) × (self.new ≡ self.old) × (out.new ≡ out.old)) }
    {
        if let Some((slot, sent)) = self.records.emit(now, window, out) {
            return Some((Place::Record(slot), sent));
        }
        let (slot, sent) = self.ends.emit(now, window, out)?;
        Some((Place::End(slot), sent))
    }

    /// It is `now`: a record whose TIME-WAIT is over goes; else the end whose deadline is the least is told, if that
    /// has come. Its place, and the timer that has expired, if one has: an end is told, too, that has something to emit
    /// which was held back. It waits for a turn, and has no deadline until something is called of it. Call this again
    /// until it is `None`, which it is once all that was due has been told, and emit until nobody waits. Behind the
    /// last time ([`tcp_driver::LAST`]) it is that time for good, so that what is due later never expires.
    pub fn timeout(&mut self, now: u64) -> Option<(Place, Option<Timer>)>
        ensures due { IfSome result (λ told. ByPlace told.0 (λ slot. IsSomeAnd (deadline_at T.behaviour self.old.ends slot) (λ time. (time ≤ min last now) × IsLeast T.behaviour self.old.ends time)) (λ slot. IsSomeAnd (deadline_at of_record self.old.records slot) (λ time. (time ≤ min last now) × IsLeast of_record self.old.records time))) }
        ensures expired { IfSome result (λ told. ByPlace told.0 (λ slot. IsSomeAnd (value_at self.old.ends slot) (λ guest. told.1 ≡ T.behaviour.expiry guest.end now)) (λ slot. told.1 ≡ Some Timer.TimeWait)) }
        ensures state { IfSome result (λ told. ByPlace told.0 (λ slot. IsSomeAnd (value_at self.old.ends slot) (λ guest. self.new.ends ≡ with_value self.old.ends slot (woken guest (T.behaviour.told guest.end now)))) (λ slot. Changes self.old.records self.new.records slot None)) }
        ensures due_no_more { IfSome result (λ told. ByPlace told.0 (λ slot. deadline_at T.behaviour self.new.ends slot ≡ None) (λ slot. deadline_at of_record self.new.records slot ≡ None)) }
        ensures turn { IfSome result (λ told. ByPlace told.0 (λ slot. self.new.waiting ≡ after_adding self.old.waiting slot) (λ slot. self.new.answering ≡ self.old.answering)) }
        ensures listeners { self.new.listeners ≡ self.old.listeners }
        ensures others { IfSome result (λ told. ByPlace told.0 (λ slot. IsElsewhere self.old self.new) (λ slot. EndsRest self.old self.new × Stands self.old self.new)) }
        ensures later { IfNone result ((slot : ℕ) → IfSome (deadline_at T.behaviour self.old.ends slot) (λ time. min last now < time)) }
        ensures later_records { IfNone result ((slot : ℕ) → IfSome (deadline_at of_record self.old.records slot) (λ time. min last now < time)) }
        ensures none { IfNone result (self.new ≡ self.old) }
    {
        if let Some(slot) = self.records.take_due(now) {
            return Some((Place::Record(slot), Some(Timer::TimeWait)));
        }
        let (slot, timer) = self.ends.timeout(now)?;
        Some((Place::End(slot), timer))
    }
}
