//! An end in TIME-WAIT gives its place to a record (RFC 9293, 3.3.2).
ghost use Rattle.std.specs.Prelude.{◌≡◌, ◌≤◌, ℕ, None, Some, IfOk, IfErr, OnErr, OnOk, MatchOption, is_some};
ghost use Rattle.tcp_host.specs.Record.{left_by};
ghost use Rattle.tcp_table.specs.Turns.{after_adding};

use crate::backlog::forget_at;
use crate::host::Host;
use crate::pair::Pair;
use crate::record::Record;
use crate::timed::Timed;
use std::alloc::Allocator;
use tcp_congestion::Congestion;
use tcp_conn::TimeWait;
use tcp_connection::Connection;
use tcp_driver::Driver;
use tcp_end::Wired;
use tcp_table::Id;

/// An end that leaves a record in TIME-WAIT.
pub trait Retiring: Timed {
    ghost use Rattle.std.specs.Prelude.{Option, ℕ};
    ghost use Rattle.tcp_conn.specs.TimeWait.{TimeWaitRecord};

    /// What takes its place, if it is in TIME-WAIT and nothing is left of it to read or to send.
    ghost time_wait: { Self → Option TimeWaitRecord };

    /// When a timer of it expires next.
    ghost until: { Self → Option ℕ };

    /// What takes its place, if it is in TIME-WAIT and nothing is left of it to read or to send.
    fn time_wait(&self) -> Option<TimeWait>
        ensures { result ≡ time_wait self.now };

    /// When a timer of it expires next: in TIME-WAIT, with nothing left to send, that is when TIME-WAIT is over.
    fn until(&self) -> Option<u64>
        ensures { result ≡ until self.now };
}

impl<A: Allocator> Retiring for Driver<Wired<A>> {
    ghost use Rattle.std.specs.Prelude.{Some, None, if◌then◌else◌};
    ghost use Rattle.tcp_conn.specs.TimeWait.{has_time_wait, time_wait_of};
    ghost use Rattle.tcp_driver.specs.Times.{next_expiry};

    ghost time_wait = { λ d. if has_time_wait d.core.end then Some (time_wait_of d.core.end) else None };

    ghost until = { λ d. next_expiry d.times };

    fn time_wait(&self) -> Option<TimeWait> {
        self.core().end.time_wait()
    }

    fn until(&self) -> Option<u64> {
        Driver::poll_at(self)
    }
}

impl<A: Allocator, W: Congestion + Drop> Retiring for Connection<Wired<A>, W> {
    ghost use Rattle.std.specs.Prelude.{Some, None, if◌then◌else◌};
    ghost use Rattle.tcp_conn.specs.TimeWait.{has_time_wait, time_wait_of};
    ghost use Rattle.tcp_connection.specs.Connection.{core_of};
    ghost use Rattle.tcp_driver.specs.Times.{next_expiry};

    ghost time_wait = { λ k. if has_time_wait (core_of k).end then Some (time_wait_of (core_of k).end) else None };

    ghost until = { λ k. next_expiry k.flowing.driving.times };

    fn time_wait(&self) -> Option<TimeWait> {
        self.flow().driver().core().end.time_wait()
    }

    fn until(&self) -> Option<u64> {
        self.flow().driver().poll_at()
    }
}

/// Why an end doesn't retire. Nothing has changed.
#[derive(Clone, Copy, Debug, PartialEq, Eq)]
pub enum NotRetired {
    /// The end of this handle is gone.
    Gone,
    /// It isn't in TIME-WAIT, or something is left of it to read or to send.
    IsActive,
    /// A record has its pair already, of an end before it.
    HasRecord,
    /// There is no memory for the record.
    NoMemory,
}

impl<T: Retiring + Drop, L: Drop, A: Allocator + Copy> Host<T, L, A> {
    ghost use Rattle.std.specs.Option.{IsSomeAnd};
    ghost use Rattle.tcp_host.specs.Hosting.{IsReason, Stands, end_at, forgotten_at, new_guest, origin_at};
    ghost use Rattle.tcp_table.specs.Table.{Changes, held_at, slot_of};

    /// An end in TIME-WAIT gives its place to a record, which answers late segments for it until TIME-WAIT is over: the
    /// end is given back, and its handle finds nothing any more. What it has to answer yet the record does.
    pub fn retire(&mut self, id: Id) -> Result<T, NotRetired>
        ensures end { IfOk result (λ end. end_at self.old.ends id.slot ≡ Some end) }
        ensures removed { IfOk result (λ end. Changes self.old.ends self.new.ends id.slot None) }
        ensures record { IfOk result (λ end. IsSomeAnd (held_at self.old.ends id.slot) (λ was. IsSomeAnd (left_by (T.time_wait end) (T.until end) self.old.span) (λ kept. (slot : ℕ) × (number : ℕ) × (held_at self.old.records slot ≡ None) × Changes self.old.records self.new.records slot (Some (record { key = was.key; number = number; value = new_guest kept None })) × (self.new.answering ≡ after_adding self.old.answering slot)))) }
        ensures waiting { self.new.waiting ≡ self.old.waiting }
        ensures others { Stands self.old self.new }
        ensures listeners { IfOk result (λ end. self.new.listeners ≡ forgotten_at self.old.listeners (T.behaviour.established end) (origin_at self.old.ends id.slot)) }
        ensures next { self.new.ends.next ≡ self.old.ends.next }
        ensures ends_rest { OnErr result (self.new.ends ≡ self.old.ends) }
        ensures listeners_rest { OnErr result (self.new.listeners ≡ self.old.listeners) }
        ensures records_rest { OnErr result ((slot : ℕ) → held_at self.new.records slot ≡ held_at self.old.records slot) }
        ensures answering_rest { OnErr result (self.new.answering ≡ self.old.answering) }
        ensures reason { IfErr result (λ reason. IsReason ⟦<Pair as Ord>⟧.cmp T.time_wait T.until self.old id reason) }
    {
        let Some(slot) = self.ends.slot_of(id) else {
            return Err(NotRetired::Gone);
        };
        let (Some(end), Some(pair)) = (self.ends.end(slot), self.ends.pair(slot)) else {
            return Err(NotRetired::Gone);
        };
        let Some(record) = left_by(end, self.span) else {
            return Err(NotRetired::IsActive);
        };
        if let Some(_record) = self.records.find(&pair) {
            return Err(NotRetired::HasRecord);
        }
        if self.records.open(pair, record, None).is_err() {
            return Err(NotRetired::NoMemory);
        }
        let origin = self.ends.origin(slot);
        let Some(end) = self.ends.remove(slot) else {
            return Err(NotRetired::Gone);
        };
        forget_at(&mut self.listeners, end.is_open(), origin);
        Ok(end)
    }

    /// TIME-WAIT lasts so long from now on where the peer's FIN comes again for the record of an end that retires.
    pub fn set_time_wait(&mut self, span: u64)
        ensures { self.new ≡ record self.old { span = span } }
    {
        self.span = span;
    }
}

/// The record that an end leaves.
fn left_by<T: Retiring>(end: &T, span: u64) -> Option<Record>
    ensures { result ≡ left_by (T.time_wait end.now) (T.until end.now) span }
{
    match (end.time_wait(), end.until()) {
        (Some(time_wait), Some(until)) => Some(Record {
            time_wait,
            until,
            span,
        }),
        _ => None,
    }
}
