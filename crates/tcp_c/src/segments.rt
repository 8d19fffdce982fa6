//! Segments that come in, and the reset that answers one for which there is no end.
ghost use Rattle.std.specs.Prelude.{◌≡◌, length, option_map};
ghost use Rattle.tcp_conn.specs.Arrival.{arrival_answer, after_arrival};
ghost use Rattle.tcp_conn.specs.AtOnce.{answers_at_once};
ghost use Rattle.tcp_conn.specs.Stray.{stray_reset};
ghost use Rattle.tcp_c.specs.Answers.{answer_of, number_written, arrival_number};
ghost use Rattle.tcp_c.specs.Segments.{stray_number, stray_buffer, stray_length};
ghost use Rattle.tcp_c.specs.Status.{flag};

use crate::answers::{DONE, LITTLE_ROOM, NO_END, NOTHING_DUE, arrival_number};
use crate::handle::Handle;
use crate::records::CAddr;
use tcp_conn::{RESET_LEN, stray_reset};
use tcp_wire::Addr;

/// Takes bytes that came from `src` to `dst`, whatever they are (RFC 9293, 3.10.7). 1 to 6 where they are no segment,
/// 56 where the segment isn't of this connection, 55 where it was dropped.
#[unsafe(no_mangle)]
pub extern "C" fn tcp_c_arrive(handle: &mut Handle, src: &CAddr, dst: &CAddr, bytes: &[u8]) -> u32
    ensures answer { result ≡ answer_of (λ s. arrival_number (arrival_answer s src.now.byte dst.now.byte bytes.now)) handle.old.held.end }
    ensures state { handle.new.held.end ≡ option_map (λ s. after_arrival s src.now.byte dst.now.byte bytes.now) handle.old.held.end }
{
    let Some(mut end) = handle.take() else {
        return NO_END;
    };
    let answer = end.arrive(Addr(src.byte), Addr(dst.byte), bytes);
    handle.put(end);
    arrival_number(answer)
}

/// Takes bytes as `tcp_c_arrive` does, and reports whether the segment has to be answered at once, 1, or may wait for
/// the next, 0 (RFC 5681, 4.2).
#[unsafe(no_mangle)]
pub extern "C" fn tcp_c_arrive_with_at_once(
    handle: &mut Handle,
    src: &CAddr,
    dst: &CAddr,
    bytes: &[u8],
    at_once: &mut u32,
) -> u32
    ensures answer { result ≡ answer_of (λ s. arrival_number (arrival_answer s src.now.byte dst.now.byte bytes.now)) handle.old.held.end }
    ensures at_once { at_once.new ≡ number_written (λ s. flag (answers_at_once s src.now.byte dst.now.byte bytes.now)) handle.old.held.end }
    ensures state { handle.new.held.end ≡ option_map (λ s. after_arrival s src.now.byte dst.now.byte bytes.now) handle.old.held.end }
{
    *at_once = 0;
    let Some(mut end) = handle.take() else {
        return NO_END;
    };
    let taken = end.take(Addr(src.byte), Addr(dst.byte), bytes);
    handle.put(end);
    *at_once = u32::from(taken.at_once);
    arrival_number(taken.arrival)
}

/// Writes the reset that answers bytes from `src` to `dst`, where there is no end, into the front of `out`, and reports
/// its length (RFC 9293, 3.10.7.1). 33 where `out` has less than [`RESET_LEN`] bytes, 53 where the bytes are no
/// segment, or a reset: then `out` is unchanged.
#[unsafe(no_mangle)]
pub extern "C" fn tcp_c_stray_reset(
    src: &CAddr,
    dst: &CAddr,
    bytes: &[u8],
    out: &mut [u8],
    count: &mut usize,
) -> u32
    ensures answer { result ≡ stray_number (length out.old) (stray_reset src.now.byte dst.now.byte bytes.now) }
    ensures bytes { out.new ≡ stray_buffer out.old (stray_reset src.now.byte dst.now.byte bytes.now) }
    ensures count { count.new ≡ stray_length (length out.old) (stray_reset src.now.byte dst.now.byte bytes.now) }
{
    *count = 0;
    if out.len() < RESET_LEN {
        return LITTLE_ROOM;
    }
    let Some(len) = stray_reset(Addr(src.byte), Addr(dst.byte), bytes, out) else {
        return NOTHING_DUE;
    };
    *count = len;
    DONE
}
