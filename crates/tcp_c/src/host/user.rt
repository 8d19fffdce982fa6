//! The calls of the user of a connection in a host (RFC 9293, 3.10.2 to 3.10.6), each at its time, and by its name.
ghost use Rattle.std.specs.Prelude.{◌≡◌, ◌+◌, ◌<◌, ◌++◌, drop, length, option_map};
ghost use Rattle.tcp_conn.specs.Calls.{abort_answer, close_answer, receive_answer, send_answer};
ghost use Rattle.tcp_conn.specs.Lending.{consume_answer};
ghost use Rattle.tcp_conn.specs.Status.{peer_of};
ghost use Rattle.tcp_c.specs.Answers.{answer_of, call_number, done, number_written, received_number};
ghost use Rattle.tcp_c.specs.Calls.{handed_bytes, received_count, taken_count};
ghost use Rattle.tcp_c.specs.Hosts.{after_use, asked, asked_of, guest_of, id_of, number_by, number_of, state_by, state_of};
ghost use Rattle.tcp_c.specs.Lent.{IsNullIfEmpty, peek_ends, peek_length, peek_number};
ghost use Rattle.tcp_c.specs.Lodgers.{lodger_end, use_of_lodger};
ghost use Rattle.tcp_c.specs.Status.{peer_address, peer_number, port_told, status_of};

use crate::answers::{DONE, GONE, NO_END, call_number, received_number};
use crate::host::host_handle::HostHandle;
use crate::host::ids::id_of;
use crate::host::lodging::Lodging;
use crate::lending::{lent_of, nothing_lent};
use crate::records::{CAddr, CHostId, CLent, CStatus};
use crate::status::{no_status, report_peer, status_of};
use crate::user::{received_count, taken_count};
use tcp_conn::{CallError, Peer, Received};
use tcp_table::Id;

impl Lodging {
    /// The user of an end sends.
    fn send(&mut self, now: u64, id: Id, text: &[u8]) -> Option<Result<usize, CallError>>
        ensures answer { result ≡ option_map (λ guest. send_answer (lodger_end guest.end) text.now) (guest_of self.old.host id) }
        ensures state { self.new ≡ after_use id (λ g. use_of_lodger.sent g now text.now) self.old }
    {
        self.host.send(now, id, text)
    }

    /// The user of an end reads.
    fn receive(&mut self, now: u64, id: Id, out: &mut [u8]) -> Option<Result<Received, CallError>>
        ensures answer { result ≡ option_map (λ guest. receive_answer (lodger_end guest.end) (length out.old)) (guest_of self.old.host id) }
        ensures bytes { let bytes = handed_bytes (length out.old) (state_by (guest_of self.old.host id)) in out.new ≡ bytes ++ drop (length bytes) out.old }
        ensures state { self.new ≡ after_use id (λ g. use_of_lodger.received g now (length out.old)) self.old }
    {
        self.host.receive(now, id, out)
    }

    /// What an end lends of what its user hasn't read, and the answer.
    fn peek(&self, id: Id) -> (u32, CLent)
        ensures answer { result.0 ≡ asked (λ g. peek_number (lodger_end g)) (guest_of self.now.host id) }
        ensures lengths { result.1.first_length + result.1.second_length ≡ number_by (λ g. peek_length (lodger_end g)) (guest_of self.now.host id) }
        ensures first { 0 < number_by (λ g. peek_length (lodger_end g)) (guest_of self.now.host id) → 0 < result.1.first_length }
        ensures first_null { IsNullIfEmpty result.1.first result.1.first_length }
        ensures second_null { IsNullIfEmpty result.1.second result.1.second_length }
        ensures ends { result.1.ends ≡ number_by (λ g. peek_ends (lodger_end g)) (guest_of self.now.host id) }
    {
        match self.lodger(id) {
            Some(lodger) => lent_of(lodger.driven.connection.end()),
            None => (GONE, nothing_lent()),
        }
    }

    /// The user of an end has read the first bytes where they lie.
    fn consume(&mut self, now: u64, id: Id, count: usize) -> Option<Result<usize, CallError>>
        ensures answer { result ≡ option_map (λ guest. consume_answer (lodger_end guest.end) count) (guest_of self.old.host id) }
        ensures state { self.new ≡ after_use id (λ g. use_of_lodger.received g now count) self.old }
    {
        self.host.consume(now, id, count)
    }

    /// The user of an end has its window advertised.
    fn acknowledge(&mut self, now: u64, id: Id) -> Option<()>
        ensures answer { result ≡ option_map (λ guest. tt) (guest_of self.old.host id) }
        ensures state { self.new ≡ after_use id (λ g. use_of_lodger.acknowledged g now) self.old }
    {
        if self.host.acknowledge(now, id) {
            Some(())
        } else {
            None
        }
    }

    /// The user of an end has no more to send.
    fn close(&mut self, now: u64, id: Id) -> Option<Result<(), CallError>>
        ensures answer { result ≡ option_map (λ guest. close_answer (lodger_end guest.end)) (guest_of self.old.host id) }
        ensures state { self.new ≡ after_use id (λ g. use_of_lodger.closed g now) self.old }
    {
        self.host.close(now, id)
    }

    /// The user of an end gives it up.
    fn abort(&mut self, now: u64, id: Id) -> Option<Result<(), CallError>>
        ensures answer { result ≡ option_map (λ guest. abort_answer (lodger_end guest.end)) (guest_of self.old.host id) }
        ensures state { self.new ≡ after_use id (λ g. use_of_lodger.aborted g now) self.old }
    {
        self.host.abort(now, id)
    }

    /// What is reported of an end.
    fn status(&self, id: Id) -> Option<CStatus>
        ensures { result ≡ option_map (λ guest. status_of (Some (lodger_end guest.end))) (guest_of self.now.host id) }
    {
        let lodger = self.lodger(id)?;
        Some(status_of(lodger.driven.connection.end()))
    }

    /// The peer of an end, if it is known.
    fn peer(&self, id: Id) -> Option<Option<Peer>>
        ensures { result ≡ option_map (λ guest. peer_of (lodger_end guest.end)) (guest_of self.now.host id) }
    {
        let lodger = self.lodger(id)?;
        Some(lodger.driven.connection.end().peer())
    }
}

/// Accepts text as [`tcp_c_connection_send`](crate::tcp_c_connection_send) does (RFC 9293, 3.10.2). 61 where the end is
/// gone.
#[unsafe(no_mangle)]
pub extern "C" fn tcp_c_host_send(
    handle: &mut HostHandle,
    now: u64,
    id: &CHostId,
    text: &[u8],
    taken: &mut usize,
) -> u32
    ensures answer { result ≡ answer_of (asked_of (id_of id.now) (λ g. call_number (send_answer (lodger_end g) text.now))) handle.old.held.host }
    ensures taken { taken.new ≡ number_written (number_of (id_of id.now) (λ g. taken_count (send_answer (lodger_end g) text.now))) handle.old.held.host }
    ensures state { handle.new.held.host ≡ option_map (after_use (id_of id.now) (λ g. use_of_lodger.sent g now text.now)) handle.old.held.host }
{
    *taken = 0;
    let Some(mut lodging) = handle.take() else {
        return NO_END;
    };
    let answer = lodging.send(now, id_of(id), text);
    handle.put(lodging);
    let Some(answer) = answer else {
        return GONE;
    };
    *taken = taken_count(&answer);
    call_number(answer)
}

/// Delivers unread bytes as [`tcp_c_connection_receive`](crate::tcp_c_connection_receive) does (RFC 9293, 3.10.3). 61
/// where the end is gone.
#[unsafe(no_mangle)]
pub extern "C" fn tcp_c_host_receive(
    handle: &mut HostHandle,
    now: u64,
    id: &CHostId,
    out: &mut [u8],
    count: &mut usize,
) -> u32
    ensures answer { result ≡ answer_of (asked_of (id_of id.now) (λ g. received_number (receive_answer (lodger_end g) (length out.old)))) handle.old.held.host }
    ensures count { count.new ≡ number_written (number_of (id_of id.now) (λ g. received_count (receive_answer (lodger_end g) (length out.old)))) handle.old.held.host }
    ensures bytes { let bytes = handed_bytes (length out.old) (state_of (id_of id.now) handle.old.held.host) in out.new ≡ bytes ++ drop (length bytes) out.old }
    ensures state { handle.new.held.host ≡ option_map (after_use (id_of id.now) (λ g. use_of_lodger.received g now (length out.old))) handle.old.held.host }
{
    *count = 0;
    let Some(mut lodging) = handle.take() else {
        return NO_END;
    };
    let answer = lodging.receive(now, id_of(id), out);
    handle.put(lodging);
    let Some(answer) = answer else {
        return GONE;
    };
    *count = received_count(&answer);
    received_number(answer)
}

/// Lends the unread bytes as [`tcp_c_connection_peek`](crate::tcp_c_connection_peek) does (RFC 9293, 3.10.3), until the
/// next call that changes the host. 61 where the end is gone.
#[unsafe(no_mangle)]
pub extern "C" fn tcp_c_host_peek(handle: &mut HostHandle, id: &CHostId, lent: &mut CLent) -> u32
    ensures answer { result ≡ answer_of (asked_of (id_of id.now) (λ g. peek_number (lodger_end g))) handle.old.held.host }
    ensures lengths { lent.new.first_length + lent.new.second_length ≡ number_written (number_of (id_of id.now) (λ g. peek_length (lodger_end g))) handle.old.held.host }
    ensures first { 0 < number_written (number_of (id_of id.now) (λ g. peek_length (lodger_end g))) handle.old.held.host → 0 < lent.new.first_length }
    ensures first_null { IsNullIfEmpty lent.new.first lent.new.first_length }
    ensures second_null { IsNullIfEmpty lent.new.second lent.new.second_length }
    ensures ends { lent.new.ends ≡ number_written (number_of (id_of id.now) (λ g. peek_ends (lodger_end g))) handle.old.held.host }
    ensures state { handle.new.held.host ≡ handle.old.held.host }
{
    let Some(lodging) = handle.take() else {
        *lent = nothing_lent();
        return NO_END;
    };
    let (answer, found) = lodging.peek(id_of(id));
    handle.put(lodging);
    *lent = found;
    answer
}

/// Removes the first unread bytes, at most `count`, as [`tcp_c_connection_consume`](crate::tcp_c_connection_consume) does
/// (RFC 9293, 3.10.3). 61 where the end is gone.
#[unsafe(no_mangle)]
pub extern "C" fn tcp_c_host_consume(
    handle: &mut HostHandle,
    now: u64,
    id: &CHostId,
    count: usize,
    taken: &mut usize,
) -> u32
    ensures answer { result ≡ answer_of (asked_of (id_of id.now) (λ g. call_number (consume_answer (lodger_end g) count))) handle.old.held.host }
    ensures taken { taken.new ≡ number_written (number_of (id_of id.now) (λ g. taken_count (consume_answer (lodger_end g) count))) handle.old.held.host }
    ensures state { handle.new.held.host ≡ option_map (after_use (id_of id.now) (λ g. use_of_lodger.received g now count)) handle.old.held.host }
{
    *taken = 0;
    let Some(mut lodging) = handle.take() else {
        return NO_END;
    };
    let answer = lodging.consume(now, id_of(id), count);
    handle.put(lodging);
    let Some(answer) = answer else {
        return GONE;
    };
    *taken = taken_count(&answer);
    call_number(answer)
}

/// Makes an acknowledgement pending, which advertises the window as it is now (RFC 9293, 3.8.6.2.2). 61 where the end is
/// gone.
#[unsafe(no_mangle)]
pub extern "C" fn tcp_c_host_acknowledge(handle: &mut HostHandle, now: u64, id: &CHostId) -> u32
    ensures answer { result ≡ answer_of (asked_of (id_of id.now) (λ g. done)) handle.old.held.host }
    ensures state { handle.new.held.host ≡ option_map (after_use (id_of id.now) (λ g. use_of_lodger.acknowledged g now)) handle.old.held.host }
{
    let Some(mut lodging) = handle.take() else {
        return NO_END;
    };
    let answer = lodging.acknowledge(now, id_of(id));
    handle.put(lodging);
    let Some(()) = answer else {
        return GONE;
    };
    DONE
}

/// The user has no more to send, as of [`tcp_c_connection_close`](crate::tcp_c_connection_close) (RFC 9293, 3.10.4). 61
/// where the end is gone.
#[unsafe(no_mangle)]
pub extern "C" fn tcp_c_host_close(handle: &mut HostHandle, now: u64, id: &CHostId) -> u32
    ensures answer { result ≡ answer_of (asked_of (id_of id.now) (λ g. call_number (close_answer (lodger_end g)))) handle.old.held.host }
    ensures state { handle.new.held.host ≡ option_map (after_use (id_of id.now) (λ g. use_of_lodger.closed g now)) handle.old.held.host }
{
    let Some(mut lodging) = handle.take() else {
        return NO_END;
    };
    let answer = lodging.close(now, id_of(id));
    handle.put(lodging);
    let Some(answer) = answer else {
        return GONE;
    };
    call_number(answer)
}

/// Aborts the connection, as [`tcp_c_connection_abort`](crate::tcp_c_connection_abort) does (RFC 9293, 3.10.5). 61 where
/// the end is gone.
#[unsafe(no_mangle)]
pub extern "C" fn tcp_c_host_abort(handle: &mut HostHandle, now: u64, id: &CHostId) -> u32
    ensures answer { result ≡ answer_of (asked_of (id_of id.now) (λ g. call_number (abort_answer (lodger_end g)))) handle.old.held.host }
    ensures state { handle.new.held.host ≡ option_map (after_use (id_of id.now) (λ g. use_of_lodger.aborted g now)) handle.old.held.host }
{
    let Some(mut lodging) = handle.take() else {
        return NO_END;
    };
    let answer = lodging.abort(now, id_of(id));
    handle.put(lodging);
    let Some(answer) = answer else {
        return GONE;
    };
    call_number(answer)
}

/// What is reported of an end, as of [`tcp_c_status`](crate::tcp_c_status) (RFC 9293, 3.10.6). 61 where it is gone.
#[unsafe(no_mangle)]
pub extern "C" fn tcp_c_host_status(
    handle: &mut HostHandle,
    id: &CHostId,
    status: &mut CStatus,
) -> u32
    ensures answer { result ≡ answer_of (asked_of (id_of id.now) (λ g. done)) handle.old.held.host }
    ensures status { status.new ≡ status_of (state_of (id_of id.now) handle.old.held.host) }
    ensures state { handle.new.held.host ≡ handle.old.held.host }
{
    *status = no_status();
    let Some(lodging) = handle.take() else {
        return NO_END;
    };
    let found = lodging.status(id_of(id));
    handle.put(lodging);
    let Some(found) = found else {
        return GONE;
    };
    *status = found;
    DONE
}

/// Reports the peer's address and port, as of [`tcp_c_peer`](crate::tcp_c_peer) (RFC 9293, 3.10.6). 61 where the end is
/// gone, 16, and zeros, before its peer is known.
#[unsafe(no_mangle)]
pub extern "C" fn tcp_c_host_peer(
    handle: &mut HostHandle,
    id: &CHostId,
    addr: &mut CAddr,
    port: &mut u16,
) -> u32
    ensures answer { result ≡ answer_of (asked_of (id_of id.now) (λ g. peer_number (lodger_end g))) handle.old.held.host }
    ensures addr { addr.new.byte ≡ peer_address (state_of (id_of id.now) handle.old.held.host) }
    ensures port { port.new ≡ number_written (number_of (id_of id.now) (λ g. port_told (peer_of (lodger_end g)))) handle.old.held.host }
    ensures state { handle.new.held.host ≡ handle.old.held.host }
{
    addr.byte = [0; 4];
    *port = 0;
    let Some(lodging) = handle.take() else {
        return NO_END;
    };
    let found = lodging.peer(id_of(id));
    handle.put(lodging);
    let Some(peer) = found else {
        return GONE;
    };
    report_peer(peer, addr, port)
}
