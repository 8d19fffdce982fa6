//! What goes out, by itself or as one.
ghost use Rattle.std.specs.Prelude.{◌≡◌, ◌≤◌, IfSome, IsNone, length};
ghost use Rattle.tcp_conn.specs.declared.emit.transmit.TheConstants.{EMIT_ROOM};
ghost use Rattle.tcp_keep_alive.specs.Asking.{buffer_after, keep_alive_due, partial_due};
ghost use Rattle.tcp_keep_alive.specs.KeepAlive.{after_action};
ghost use Rattle.tcp_repair.specs.Repairing.{RestsAfter};
ghost use Rattle.tcp_end.specs.Wired.{machine};
ghost use Rattle.tcp_repair.specs.Wired.{reports};
ghost use Rattle.tcp_steady.specs.Steady.{action_of, after_emit, after_train, agreed, emitted_first, end_of, first_of, if_asks, keep_alive_sent, keep_alive_train, may_ask_of, repaired_after_emit, repaired_after_train, sent_by_emit, sent_first, train_by_emit, train_first, train_written_first, written_by, written_by_emit, written_by_train, written_first};

use crate::pacing::flight_of;
use crate::steady::Steady;
use std::alloc::Allocator;
use tcp_congestion::Congestion;
use tcp_conn::{Endpoint, Kind, Train, Transmit};
use tcp_driver::Sent;
use tcp_keep_alive::{KeepAliveAction, write_keep_alive, write_keep_alive_partial};

/// Writes the keep-alive of an end, where its peer may be asked.
#[inline(never)]
fn emit_keep_alive<B: Allocator>(end: &Endpoint<B>, out: &mut [u8]) -> Option<Sent>
    requires { EMIT_ROOM ≤ length out.old }
    ensures sent { result ≡ keep_alive_sent end.now }
    ensures written { out.new ≡ buffer_after (keep_alive_due end.now) out.old }
{
    let peer = end.peer()?;
    let len = write_keep_alive(end, out)?;
    let to = peer.addr.0;
    Some(Sent {
        to,
        len,
        start: end.snd_nxt().saturating_sub(1),
        count: 0,
    })
}

/// The same as one segment for a device that cuts and sums them.
#[inline(never)]
fn emit_keep_alive_train<B: Allocator>(end: &Endpoint<B>, out: &mut [u8]) -> Option<Train>
    requires { EMIT_ROOM ≤ length out.old }
    ensures train { result ≡ keep_alive_train end.now }
    ensures written { out.new ≡ buffer_after (partial_due end.now) out.old }
{
    let peer = end.peer()?;
    let len = write_keep_alive_partial(end, out)?;
    let position = end.snd_nxt().saturating_sub(1);
    let to = peer.addr;
    let whole = Transmit {
        to,
        len,
        kind: Kind::Acknowledgement,
        position,
        end: position,
        count: 0,
    };
    Some(Train {
        whole,
        header: len,
        each: 0,
        segments: 1,
    })
}

impl<W: Congestion + Drop, B: Allocator, A: Allocator> Steady<W, B, A> {
    /// Writes the segment that is due, if one is, and it doesn't wait, as for the connection; where none is, the keep-alive whose time
    /// has come (RFC 9293, 3.8.4). New text waits for its portion (RFC 9002, 7.7).
    #[inline(always)]
    pub fn emit(&mut self, now: u64, window: u64, out: &mut [u8]) -> Option<Sent>
        requires { EMIT_ROOM ≤ length out.old }
        ensures sent { result ≡ sent_by_emit W.control self.old now window }
        ensures most { IfSome result (λ sent. sent.len ≤ EMIT_ROOM) }
        ensures written { out.new ≡ written_by_emit W.control self.old now window out.old }
        ensures state { self.new ≡ after_emit W.control self.old now window }
        ensures rests { IsNone result → RestsAfter machine agreed reports self.new.repairing now }
    {
        if !self.pacer.is_on() && self.keep_alive.rules().is_none() {
            return self.repairing.emit(now, window, out);
        }
        self.emit_steadied(now, window, out)
    }

    /// The same, paced or with keep-alives.
    #[inline(never)]
    fn emit_steadied(&mut self, now: u64, window: u64, out: &mut [u8]) -> Option<Sent>
        requires { EMIT_ROOM ≤ length out.old }
        ensures sent { result ≡ sent_by_emit W.control self.old now window }
        ensures most { IfSome result (λ sent. sent.len ≤ EMIT_ROOM) }
        ensures written { out.new ≡ written_by_emit W.control self.old now window out.old }
        ensures state { self.new ≡ after_emit W.control self.old now window }
        ensures rests { IsNone result → RestsAfter machine agreed reports self.new.repairing now }
    {
        match self.emit_first(now, window, out) {
            Some(sent) => Some(sent),
            None => self.emit_last(now, out),
        }
    }

    /// The connection's own segment.
    #[inline(always)]
    fn emit_first(&mut self, now: u64, window: u64, out: &mut [u8]) -> Option<Sent>
        requires { EMIT_ROOM ≤ length out.old }
        ensures sent { result ≡ sent_first W.control self.old now window }
        ensures most { IfSome result (λ sent. sent.len ≤ EMIT_ROOM) }
        ensures length { length out.new ≡ length out.old }
        ensures written { out.new ≡ written_first W.control self.old now window out.old }
        ensures state { self.new ≡ emitted_first W.control self.old now window (sent_first W.control self.old now window) (repaired_after_emit W.control self.old now window) }
        ensures rests { IsNone result → RestsAfter machine agreed reports self.new.repairing now }
    {
        let flight = flight_of(self.end());
        let paced = self.before_emission(now, window);
        let sent = self.repairing.emit(now, paced, out);
        self.behind_emission(sent.is_some(), flight, window);
        sent
    }

    /// The keep-alive, if its time has come.
    fn emit_last(&mut self, now: u64, out: &mut [u8]) -> Option<Sent>
        requires { EMIT_ROOM ≤ length out.old }
        ensures sent { result ≡ if_asks (action_of self.old now) (keep_alive_sent (end_of self.old)) }
        ensures most { IfSome result (λ sent. sent.len ≤ EMIT_ROOM) }
        ensures written { out.new ≡ written_by (action_of self.old now) (keep_alive_due (end_of self.old)) out.old }
        ensures state { self.new ≡ record self.old { keep_alive = after_action self.old.keep_alive now (may_ask_of self.old) } }
    {
        if self.keep_alive.rules().is_none() {
            return None;
        }
        let may_ask = self.may_ask();
        match self.keep_alive.timeout(now, may_ask) {
            KeepAliveAction::Asks => emit_keep_alive(self.end(), out),
            KeepAliveAction::Nothing | KeepAliveAction::GivesUp => None,
        }
    }

    /// Writes as one, for a device that cuts and sums them, the segments that may go out, as [`emit`](Self::emit) has it, at
    /// most `most`, as for the connection.
    #[inline(always)]
    pub fn emit_train(
        &mut self,
        now: u64,
        window: u64,
        out: &mut [u8],
        most: usize,
    ) -> Option<Train>
        requires { EMIT_ROOM ≤ length out.old }
        ensures train { result ≡ train_by_emit W.control self.old now window most (length out.old) }
        ensures written { out.new ≡ written_by_train W.control self.old now window most out.old }
        ensures state { self.new ≡ after_train W.control self.old now window most (length out.old) }
        ensures rests { IsNone result → RestsAfter machine agreed reports self.new.repairing now }
    {
        match self.train_first(now, window, out, most) {
            Some(train) => Some(train),
            None => self.train_last(now, out),
        }
    }

    /// The connection's own segments.
    #[inline(always)]
    fn train_first(&mut self, now: u64, window: u64, out: &mut [u8], most: usize) -> Option<Train>
        requires { EMIT_ROOM ≤ length out.old }
        ensures train { result ≡ train_first W.control self.old now window most (length out.old) }
        ensures length { length out.new ≡ length out.old }
        ensures written { out.new ≡ train_written_first W.control self.old now window most out.old }
        ensures state { self.new ≡ emitted_first W.control self.old now window (train_first W.control self.old now window most (length out.old)) (repaired_after_train W.control self.old now window most (length out.old)) }
        ensures rests { IsNone result → RestsAfter machine agreed reports self.new.repairing now }
    {
        let flight = flight_of(self.end());
        let paced = self.before_emission(now, window);
        let train = self.repairing.emit_train(now, paced, out, most);
        self.behind_emission(train.is_some(), flight, window);
        train
    }

    /// The keep-alive as one, if its time has come.
    fn train_last(&mut self, now: u64, out: &mut [u8]) -> Option<Train>
        requires { EMIT_ROOM ≤ length out.old }
        ensures train { result ≡ if_asks (action_of self.old now) (keep_alive_train (end_of self.old)) }
        ensures written { out.new ≡ written_by (action_of self.old now) (partial_due (end_of self.old)) out.old }
        ensures state { self.new ≡ record self.old { keep_alive = after_action self.old.keep_alive now (may_ask_of self.old) } }
    {
        if self.keep_alive.rules().is_none() {
            return None;
        }
        let may_ask = self.may_ask();
        match self.keep_alive.timeout(now, may_ask) {
            KeepAliveAction::Asks => emit_keep_alive_train(self.end(), out),
            KeepAliveAction::Nothing | KeepAliveAction::GivesUp => None,
        }
    }
}
