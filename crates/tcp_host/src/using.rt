//! The calls of an end's user.
ghost use Rattle.std.specs.Prelude.{◌≡◌, IfSome, IfNone, false, true, is_some, length};
ghost use Rattle.tcp_table.specs.Turns.{after_adding};

use crate::host::Host;
use crate::used::Used;
use std::alloc::Allocator;
use tcp_table::Id;

impl<T: Used + Drop, L: Drop, A: Allocator + Copy> Host<T, L, A> {
    ghost use Rattle.std.specs.Option.{IsSomeAnd};
    ghost use Rattle.tcp_host.specs.Hosting.{IsElsewhere, after_call};
    ghost use Rattle.tcp_table.specs.Table.{slot_of, value_at, with_value};

    /// The user of an end has text to send (RFC 9293, 3.10.2). `None` where the end is gone.
    pub fn send(&mut self, now: u64, id: Id, text: &[u8]) -> Option<T::Sending>
        ensures answer { IfSome result (λ answer. IsSomeAnd (value_at self.old.ends id.slot) (λ guest. answer ≡ T.send_answer guest.end text.now)) }
        ensures state { IfSome result (λ answer. IsSomeAnd (value_at self.old.ends id.slot) (λ guest. self.new.ends ≡ with_value self.old.ends id.slot (after_call guest (T.usage.sent guest.end now text.now)))) }
        ensures turn { IfSome result (λ answer. self.new.waiting ≡ after_adding self.old.waiting id.slot) }
        ensures others { IsElsewhere self.old self.new }
        ensures found { is_some result ≡ is_some (slot_of self.old.ends id) }
        ensures none { IfNone result (self.new ≡ self.old) }
    {
        self.ends.send(now, id, text)
    }

    /// The user of an end reads (RFC 9293, 3.10.3). `None` where the end is gone.
    pub fn receive(&mut self, now: u64, id: Id, out: &mut [u8]) -> Option<T::Receiving>
        ensures answer { IfSome result (λ answer. IsSomeAnd (value_at self.old.ends id.slot) (λ guest. answer ≡ T.receive_answer guest.end (length out.old))) }
        ensures read { IfSome result (λ answer. IsSomeAnd (value_at self.old.ends id.slot) (λ guest. out.new ≡ T.usage.read guest.end out.old)) }
        ensures unread { IfNone result (out.new ≡ out.old) }
        ensures state { IfSome result (λ answer. IsSomeAnd (value_at self.old.ends id.slot) (λ guest. self.new.ends ≡ with_value self.old.ends id.slot (after_call guest (T.usage.received guest.end now (length out.old))))) }
        ensures turn { IfSome result (λ answer. self.new.waiting ≡ after_adding self.old.waiting id.slot) }
        ensures others { IsElsewhere self.old self.new }
        ensures found { is_some result ≡ is_some (slot_of self.old.ends id) }
        ensures none { IfNone result (self.new ≡ self.old) }
    {
        self.ends.receive(now, id, out)
    }

    /// The user of an end has read the first bytes where they lie, at most so many: they are gone, as after `receive`
    /// (RFC 9293, 3.10.3). `None` where the end is gone.
    pub fn consume(&mut self, now: u64, id: Id, count: usize) -> Option<T::Consuming>
        ensures answer { IfSome result (λ answer. IsSomeAnd (value_at self.old.ends id.slot) (λ guest. answer ≡ T.consume_answer guest.end count)) }
        ensures state { IfSome result (λ answer. IsSomeAnd (value_at self.old.ends id.slot) (λ guest. self.new.ends ≡ with_value self.old.ends id.slot (after_call guest (T.usage.received guest.end now count)))) }
        ensures turn { IfSome result (λ answer. self.new.waiting ≡ after_adding self.old.waiting id.slot) }
        ensures others { IsElsewhere self.old self.new }
        ensures found { is_some result ≡ is_some (slot_of self.old.ends id) }
        ensures none { IfNone result (self.new ≡ self.old) }
    {
        self.ends.consume(now, id, count)
    }

    /// The user of an end has read, and wants the window that is open now to be advertised (RFC 9293, 3.8.6.2.2):
    /// whether the end is there.
    pub fn acknowledge(&mut self, now: u64, id: Id) -> bool
        ensures found { result ≡ is_some (slot_of self.old.ends id) }
        ensures state { result ≡ true → IsSomeAnd (value_at self.old.ends id.slot) (λ guest. self.new.ends ≡ with_value self.old.ends id.slot (after_call guest (T.usage.acknowledged guest.end now))) }
        ensures turn { result ≡ true → self.new.waiting ≡ after_adding self.old.waiting id.slot }
        ensures others { IsElsewhere self.old self.new }
        ensures none { result ≡ false → self.new ≡ self.old }
    {
        self.ends.acknowledge(now, id)
    }

    /// The user of an end has no more to send (RFC 9293, 3.10.4). `None` where the end is gone.
    pub fn close(&mut self, now: u64, id: Id) -> Option<T::Closing>
        ensures answer { IfSome result (λ answer. IsSomeAnd (value_at self.old.ends id.slot) (λ guest. answer ≡ T.close_answer guest.end)) }
        ensures state { IfSome result (λ answer. IsSomeAnd (value_at self.old.ends id.slot) (λ guest. self.new.ends ≡ with_value self.old.ends id.slot (after_call guest (T.usage.closed guest.end now)))) }
        ensures turn { IfSome result (λ answer. self.new.waiting ≡ after_adding self.old.waiting id.slot) }
        ensures others { IsElsewhere self.old self.new }
        ensures found { is_some result ≡ is_some (slot_of self.old.ends id) }
        ensures none { IfNone result (self.new ≡ self.old) }
    {
        self.ends.close(now, id)
    }

    /// The user of an end gives the connection up (RFC 9293, 3.10.5). `None` where the end is gone.
    pub fn abort(&mut self, now: u64, id: Id) -> Option<T::Aborting>
        ensures answer { IfSome result (λ answer. IsSomeAnd (value_at self.old.ends id.slot) (λ guest. answer ≡ T.abort_answer guest.end)) }
        ensures state { IfSome result (λ answer. IsSomeAnd (value_at self.old.ends id.slot) (λ guest. self.new.ends ≡ with_value self.old.ends id.slot (after_call guest (T.usage.aborted guest.end now)))) }
        ensures turn { IfSome result (λ answer. self.new.waiting ≡ after_adding self.old.waiting id.slot) }
        ensures others { IsElsewhere self.old self.new }
        ensures found { is_some result ≡ is_some (slot_of self.old.ends id) }
        ensures none { IfNone result (self.new ≡ self.old) }
    {
        self.ends.abort(now, id)
    }
}
