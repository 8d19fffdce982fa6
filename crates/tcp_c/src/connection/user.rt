//! The calls of the user of a connection (RFC 9293, 3.10.2 to 3.10.6), each at its time.
ghost use Rattle.std.specs.Prelude.{◌≡◌, ◌+◌, ◌<◌, ◌++◌, length, drop, option_map};
ghost use Rattle.tcp_conn.specs.Calls.{abort_answer, after_abort, after_close, after_send, close_answer, receive_answer, send_answer};
ghost use Rattle.tcp_conn.specs.Lending.{consume_answer};
ghost use Rattle.tcp_conn.specs.Status.{peer_of};
ghost use Rattle.tcp_c.specs.Answers.{done, answer_of, number_written, call_number, received_number};
ghost use Rattle.tcp_c.specs.Calls.{taken_count, received_count, handed_bytes};
ghost use Rattle.tcp_c.specs.Connections.{acknowledged, end_of, read, used};
ghost use Rattle.tcp_c.specs.Lent.{IsNullIfEmpty, peek_ends, peek_length, peek_number};
ghost use Rattle.tcp_c.specs.Status.{peer_address, peer_number, port_told, status_of};

use crate::answers::{DONE, NO_END, call_number, received_number};
use crate::connection::driven_handle::DrivenHandle;
use crate::lending::{lent_of, nothing_lent};
use crate::records::{CAddr, CLent, CStatus};
use crate::status::{no_status, report_peer, status_of};
use crate::user::{received_count, taken_count};

/// Accepts text as [`tcp_c_send`](crate::tcp_c_send) does (RFC 9293, 3.10.2).
#[unsafe(no_mangle)]
pub extern "C" fn tcp_c_connection_send(
    handle: &mut DrivenHandle,
    now: u64,
    text: &[u8],
    taken: &mut usize,
) -> u32
    ensures answer { result ≡ answer_of (λ d. call_number (send_answer (end_of d) text.now)) handle.old.held.end }
    ensures taken { taken.new ≡ number_written (λ d. taken_count (send_answer (end_of d) text.now)) handle.old.held.end }
    ensures state { handle.new.held.end ≡ option_map (λ d. used d now (after_send (end_of d) text.now)) handle.old.held.end }
{
    *taken = 0;
    let Some(mut driven) = handle.take() else {
        return NO_END;
    };
    let answer = driven.connection.repairing.send(now, text);
    handle.put(driven);
    *taken = taken_count(&answer);
    call_number(answer)
}

/// Delivers unread bytes as [`tcp_c_receive`](crate::tcp_c_receive) does (RFC 9293, 3.10.3).
#[unsafe(no_mangle)]
pub extern "C" fn tcp_c_connection_receive(
    handle: &mut DrivenHandle,
    now: u64,
    out: &mut [u8],
    count: &mut usize,
) -> u32
    ensures answer { result ≡ answer_of (λ d. received_number (receive_answer (end_of d) (length out.old))) handle.old.held.end }
    ensures count { count.new ≡ number_written (λ d. received_count (receive_answer (end_of d) (length out.old))) handle.old.held.end }
    ensures bytes { let bytes = handed_bytes (length out.old) (option_map end_of handle.old.held.end) in out.new ≡ bytes ++ drop (length bytes) out.old }
    ensures state { handle.new.held.end ≡ option_map (λ d. read d now (length out.old)) handle.old.held.end }
{
    *count = 0;
    let Some(mut driven) = handle.take() else {
        return NO_END;
    };
    let answer = driven.connection.repairing.receive(now, out);
    handle.put(driven);
    *count = received_count(&answer);
    received_number(answer)
}

/// Lends the unread bytes as [`tcp_c_peek`](crate::tcp_c_peek) does (RFC 9293, 3.10.3).
#[unsafe(no_mangle)]
pub extern "C" fn tcp_c_connection_peek(handle: &mut DrivenHandle, lent: &mut CLent) -> u32
    ensures answer { result ≡ answer_of (λ d. peek_number (end_of d)) handle.old.held.end }
    ensures lengths { lent.new.first_length + lent.new.second_length ≡ number_written (λ d. peek_length (end_of d)) handle.old.held.end }
    ensures first { 0 < number_written (λ d. peek_length (end_of d)) handle.old.held.end → 0 < lent.new.first_length }
    ensures first_null { IsNullIfEmpty lent.new.first lent.new.first_length }
    ensures second_null { IsNullIfEmpty lent.new.second lent.new.second_length }
    ensures ends { lent.new.ends ≡ number_written (λ d. peek_ends (end_of d)) handle.old.held.end }
    ensures state { handle.new.held.end ≡ handle.old.held.end }
{
    let Some(driven) = handle.take() else {
        *lent = nothing_lent();
        return NO_END;
    };
    let (answer, found) = lent_of(driven.connection.end());
    handle.put(driven);
    *lent = found;
    answer
}

/// Removes the first unread bytes, at most `count`, as [`tcp_c_consume`](crate::tcp_c_consume) does (RFC 9293, 3.10.3).
#[unsafe(no_mangle)]
pub extern "C" fn tcp_c_connection_consume(
    handle: &mut DrivenHandle,
    now: u64,
    count: usize,
    taken: &mut usize,
) -> u32
    ensures answer { result ≡ answer_of (λ d. call_number (consume_answer (end_of d) count)) handle.old.held.end }
    ensures taken { taken.new ≡ number_written (λ d. taken_count (consume_answer (end_of d) count)) handle.old.held.end }
    ensures state { handle.new.held.end ≡ option_map (λ d. read d now count) handle.old.held.end }
{
    *taken = 0;
    let Some(mut driven) = handle.take() else {
        return NO_END;
    };
    let answer = driven.connection.repairing.consume(now, count);
    handle.put(driven);
    *taken = taken_count(&answer);
    call_number(answer)
}

/// Makes an acknowledgement pending, which advertises the window as it is now (RFC 9293, 3.8.6.2.2).
#[unsafe(no_mangle)]
pub extern "C" fn tcp_c_connection_acknowledge(handle: &mut DrivenHandle, now: u64) -> u32
    ensures answer { result ≡ answer_of (λ _. done) handle.old.held.end }
    ensures state { handle.new.held.end ≡ option_map (λ d. acknowledged d now) handle.old.held.end }
{
    let Some(mut driven) = handle.take() else {
        return NO_END;
    };
    driven.connection.repairing.acknowledge(now);
    handle.put(driven);
    DONE
}

/// The user has no more to send, as of [`tcp_c_close`](crate::tcp_c_close) (RFC 9293, 3.10.4).
#[unsafe(no_mangle)]
pub extern "C" fn tcp_c_connection_close(handle: &mut DrivenHandle, now: u64) -> u32
    ensures answer { result ≡ answer_of (λ d. call_number (close_answer (end_of d))) handle.old.held.end }
    ensures state { handle.new.held.end ≡ option_map (λ d. used d now (after_close (end_of d))) handle.old.held.end }
{
    let Some(mut driven) = handle.take() else {
        return NO_END;
    };
    let answer = driven.connection.repairing.close(now);
    handle.put(driven);
    call_number(answer)
}

/// Aborts the connection, as [`tcp_c_abort`](crate::tcp_c_abort) does (RFC 9293, 3.10.5).
#[unsafe(no_mangle)]
pub extern "C" fn tcp_c_connection_abort(handle: &mut DrivenHandle, now: u64) -> u32
    ensures answer { result ≡ answer_of (λ d. call_number (abort_answer (end_of d))) handle.old.held.end }
    ensures state { handle.new.held.end ≡ option_map (λ d. used d now (after_abort (end_of d))) handle.old.held.end }
{
    let Some(mut driven) = handle.take() else {
        return NO_END;
    };
    let answer = driven.connection.repairing.abort(now);
    handle.put(driven);
    call_number(answer)
}

/// What is reported of the end, as of [`tcp_c_status`](crate::tcp_c_status) (RFC 9293, 3.10.6).
#[unsafe(no_mangle)]
pub extern "C" fn tcp_c_connection_status(handle: &mut DrivenHandle, status: &mut CStatus) -> u32
    ensures answer { result ≡ answer_of (λ _. done) handle.old.held.end }
    ensures status { status.new ≡ status_of (option_map end_of handle.old.held.end) }
    ensures state { handle.new.held.end ≡ handle.old.held.end }
{
    let Some(driven) = handle.take() else {
        *status = no_status();
        return NO_END;
    };
    *status = status_of(driven.connection.end());
    handle.put(driven);
    DONE
}

/// Reports the peer's address and port, as [`tcp_c_peer`](crate::tcp_c_peer) does (RFC 9293, 3.10.6). 16, and zeros, before it is known.
#[unsafe(no_mangle)]
pub extern "C" fn tcp_c_connection_peer(
    handle: &mut DrivenHandle,
    addr: &mut CAddr,
    port: &mut u16,
) -> u32
    ensures answer { result ≡ answer_of (λ d. peer_number (end_of d)) handle.old.held.end }
    ensures addr { addr.new.byte ≡ peer_address (option_map end_of handle.old.held.end) }
    ensures port { port.new ≡ number_written (λ d. port_told (peer_of (end_of d))) handle.old.held.end }
    ensures state { handle.new.held.end ≡ handle.old.held.end }
{
    let Some(driven) = handle.take() else {
        addr.byte = [0; 4];
        *port = 0;
        return NO_END;
    };
    let peer = driven.connection.end().peer();
    handle.put(driven);
    report_peer(peer, addr, port)
}
