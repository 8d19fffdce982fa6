//! The calls of the user (RFC 9293, 3.10.1 to 3.10.5).
ghost use Rattle.std.specs.Prelude.{◌≡◌, ◌++◌, length, drop, option_map};
ghost use Rattle.tcp_conn.specs.Calls.{opening_answer, after_connect, after_listen, send_answer, after_send, receive_answer, after_receive, close_answer, after_close, abort_answer, after_abort, after_acknowledge};
ghost use Rattle.tcp_c.specs.Answers.{done, answer_of, number_written, call_number, received_number};
ghost use Rattle.tcp_c.specs.Calls.{taken_count, received_count, handed_bytes};

use crate::answers::{DONE, NO_END, call_number, received_number};
use crate::handle::Handle;
use crate::records::CAddr;
use tcp_conn::{CallError, Received};
use tcp_wire::Addr;

/// Opens a connection to this address and port (RFC 9293, 3.10.1). 14 where one has ended, else 12 in any phase but
/// CLOSED.
#[unsafe(no_mangle)]
pub extern "C" fn tcp_c_connect(handle: &mut Handle, addr: &CAddr, port: u16) -> u32
    ensures answer { result ≡ answer_of (λ s. call_number (opening_answer s)) handle.old.held.end }
    ensures state { handle.new.held.end ≡ option_map (λ s. after_connect s (record { addr = record { 0 = addr.now.byte }; port = port })) handle.old.held.end }
{
    let Some(mut end) = handle.take() else {
        return NO_END;
    };
    let answer = end.connect(Addr(addr.byte), port);
    handle.put(end);
    call_number(answer)
}

/// Waits for a peer (RFC 9293, 3.10.1). Refused as `tcp_c_connect` is.
#[unsafe(no_mangle)]
pub extern "C" fn tcp_c_listen(handle: &mut Handle) -> u32
    ensures answer { result ≡ answer_of (λ s. call_number (opening_answer s)) handle.old.held.end }
    ensures state { handle.new.held.end ≡ option_map after_listen handle.old.held.end }
{
    let Some(mut end) = handle.take() else {
        return NO_END;
    };
    let answer = end.listen();
    handle.put(end);
    call_number(answer)
}

/// How many bytes `send` accepted, or `consume` removed.
pub(crate) fn taken_count(answer: &Result<usize, CallError>) -> usize
    ensures { result ≡ taken_count answer.now }
{
    match answer {
        Ok(count) => *count,
        Err(_) => 0,
    }
}

/// Accepts the longest prefix of `text` that fits the send capacity and the limit of the direction, and reports its
/// length, 0 where the call is refused (RFC 9293, 3.10.2). 14 or 11 where there is no connection, 16 in LISTEN, 13
/// after a `tcp_c_close`, 15 where the direction has accepted all that its limit allows.
#[unsafe(no_mangle)]
pub extern "C" fn tcp_c_send(handle: &mut Handle, text: &[u8], taken: &mut usize) -> u32
    ensures answer { result ≡ answer_of (λ s. call_number (send_answer s text.now)) handle.old.held.end }
    ensures taken { taken.new ≡ number_written (λ s. taken_count (send_answer s text.now)) handle.old.held.end }
    ensures state { handle.new.held.end ≡ option_map (λ s. after_send s text.now) handle.old.held.end }
{
    *taken = 0;
    let Some(mut end) = handle.take() else {
        return NO_END;
    };
    let answer = end.send(text);
    handle.put(end);
    *taken = taken_count(&answer);
    call_number(answer)
}

/// How many bytes `receive` delivered.
pub(crate) fn received_count(answer: &Result<Received, CallError>) -> usize
    ensures { result ≡ received_count answer.now }
{
    match answer {
        Ok(Received::Bytes(count)) => *count,
        _ => 0,
    }
}

/// Delivers the longest prefix of the unread bytes that fits `out`, and reports its length; the rest of `out` is
/// unchanged (RFC 9293, 3.10.3). 51 where no byte is unread, 52 after all bytes of a peer that closed. 14 after a reset
/// or an abort, 11 where nothing was opened.
#[unsafe(no_mangle)]
pub extern "C" fn tcp_c_receive(handle: &mut Handle, out: &mut [u8], count: &mut usize) -> u32
    ensures answer { result ≡ answer_of (λ s. received_number (receive_answer s (length out.old))) handle.old.held.end }
    ensures count { count.new ≡ number_written (λ s. received_count (receive_answer s (length out.old))) handle.old.held.end }
    ensures bytes { let bytes = handed_bytes (length out.old) handle.old.held.end in out.new ≡ bytes ++ drop (length bytes) out.old }
    ensures state { handle.new.held.end ≡ option_map (λ s. after_receive s (length out.old)) handle.old.held.end }
{
    *count = 0;
    let Some(mut end) = handle.take() else {
        return NO_END;
    };
    let answer = end.receive(out);
    handle.put(end);
    *count = received_count(&answer);
    received_number(answer)
}

/// Makes an acknowledgement pending, which advertises the window as it is now, in ESTABLISHED, FIN-WAIT-1 and
/// FIN-WAIT-2. In any other phase nothing changes (RFC 9293, 3.8.6.2.2).
#[unsafe(no_mangle)]
pub extern "C" fn tcp_c_acknowledge(handle: &mut Handle) -> u32
    ensures answer { result ≡ answer_of (λ _. done) handle.old.held.end }
    ensures state { handle.new.held.end ≡ option_map after_acknowledge handle.old.held.end }
{
    let Some(mut end) = handle.take() else {
        return NO_END;
    };
    end.acknowledge();
    handle.put(end);
    DONE
}

/// The user has no more to send (RFC 9293, 3.10.4). 14 or 11 where there is no connection, 13 after an earlier
/// `tcp_c_close`.
#[unsafe(no_mangle)]
pub extern "C" fn tcp_c_close(handle: &mut Handle) -> u32
    ensures answer { result ≡ answer_of (λ s. call_number (close_answer s)) handle.old.held.end }
    ensures state { handle.new.held.end ≡ option_map after_close handle.old.held.end }
{
    let Some(mut end) = handle.take() else {
        return NO_END;
    };
    let answer = end.close();
    handle.put(end);
    call_number(answer)
}

/// Aborts the connection, with a reset to a peer that may know of it (RFC 9293, 3.10.5). 14 or 11 where there is no
/// connection.
#[unsafe(no_mangle)]
pub extern "C" fn tcp_c_abort(handle: &mut Handle) -> u32
    ensures answer { result ≡ answer_of (λ s. call_number (abort_answer s)) handle.old.held.end }
    ensures state { handle.new.held.end ≡ option_map after_abort handle.old.held.end }
{
    let Some(mut end) = handle.take() else {
        return NO_END;
    };
    let answer = end.abort();
    handle.put(end);
    call_number(answer)
}
