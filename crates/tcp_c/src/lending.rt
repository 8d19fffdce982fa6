//! The unread bytes, lent where they lie and then consumed (RFC 9293, 3.10.3).
ghost use Rattle.std.specs.Prelude.{◌≡◌, ◌+◌, ◌<◌, length, option_map};
ghost use Rattle.tcp_conn.specs.Calls.{after_receive};
ghost use Rattle.tcp_conn.specs.Lending.{consume_answer};
ghost use Rattle.tcp_c.specs.Answers.{answer_of, call_number, number_written};
ghost use Rattle.tcp_c.specs.Calls.{taken_count};
ghost use Rattle.tcp_c.specs.Lent.{IsNullIfEmpty, address_of, peek_ends, peek_length, peek_number};
ghost use Rattle.tcp_c.specs.Status.{flag};

use crate::answers::{DONE, END_OF_STREAM, NO_END, NOTHING_UNREAD, call_number};
use crate::handle::Handle;
use crate::records::CLent;
use crate::user::taken_count;
use region_heap::Region;
use std::ptr::{from_ref, null};
use tcp_conn::{Endpoint, Lent};

/// Where the first of these bytes lies; null where there is none.
pub(crate) fn start_of(bytes: &[u8]) -> *const u8
    ensures { result ≡ address_of bytes.entry }
{
    if bytes.is_empty() {
        return null();
    }
    from_ref(&bytes[0])
}

/// No bytes.
pub(crate) fn nothing_lent() -> CLent
    ensures first_length { result.first_length ≡ 0 }
    ensures second_length { result.second_length ≡ 0 }
    ensures first_null { IsNullIfEmpty result.first result.first_length }
    ensures second_null { IsNullIfEmpty result.second result.second_length }
    ensures ends { result.ends ≡ 0 }
{
    CLent {
        first: null(),
        first_length: 0,
        second: null(),
        second_length: 0,
        ends: 0,
    }
}

/// What is reported to C of bytes that are lent: where each part lies, and its length.
fn told_of(lent: &Lent<'_>) -> CLent
    ensures first { result.first ≡ address_of lent.now.front }
    ensures first_length { result.first_length ≡ length lent.now.front.now }
    ensures second { result.second ≡ address_of lent.now.back }
    ensures second_length { result.second_length ≡ length lent.now.back.now }
    ensures ends { result.ends ≡ flag lent.now.ends }
{
    CLent {
        first: start_of(lent.front),
        first_length: lent.front.len(),
        second: start_of(lent.back),
        second_length: lent.back.len(),
        ends: u32::from(lent.ends),
    }
}

/// What an end lends, and the answer.
pub(crate) fn lent_of(end: &Endpoint<Region>) -> (u32, CLent)
    ensures answer { result.0 ≡ peek_number end.now }
    ensures lengths { result.1.first_length + result.1.second_length ≡ peek_length end.now }
    ensures first { 0 < peek_length end.now → 0 < result.1.first_length }
    ensures first_null { IsNullIfEmpty result.1.first result.1.first_length }
    ensures second_null { IsNullIfEmpty result.1.second result.1.second_length }
    ensures ends { result.1.ends ≡ peek_ends end.now }
{
    let lent = match end.peek() {
        Ok(lent) => lent,
        Err(error) => return (u32::from(error.number()), nothing_lent()),
    };
    if end.unread() == 0 {
        let answer = if lent.ends {
            END_OF_STREAM
        } else {
            NOTHING_UNREAD
        };
        return (answer, nothing_lent());
    }
    (DONE, told_of(&lent))
}

/// Lends all unread bytes where they lie, in two parts (RFC 9293, 3.10.3). The first is empty only where none is
/// unread; a part is at null exactly where it is empty. It reports whether the peer has closed, so that none follows them. Nothing changes; `tcp_c_consume` removes
/// what was read. Answers as `tcp_c_receive` does. The bytes may be read until the next call that changes the end.
#[unsafe(no_mangle)]
pub extern "C" fn tcp_c_peek(handle: &mut Handle, lent: &mut CLent) -> u32
    ensures answer { result ≡ answer_of peek_number handle.old.held.end }
    ensures lengths { lent.new.first_length + lent.new.second_length ≡ number_written peek_length handle.old.held.end }
    ensures first { 0 < number_written peek_length handle.old.held.end → 0 < lent.new.first_length }
    ensures first_null { IsNullIfEmpty lent.new.first lent.new.first_length }
    ensures second_null { IsNullIfEmpty lent.new.second lent.new.second_length }
    ensures ends { lent.new.ends ≡ number_written peek_ends handle.old.held.end }
    ensures state { handle.new.held.end ≡ handle.old.held.end }
{
    let Some(end) = handle.take() else {
        *lent = nothing_lent();
        return NO_END;
    };
    let (answer, found) = lent_of(&end);
    handle.put(end);
    *lent = found;
    answer
}

/// Removes the first unread bytes, at most `count`, and reports how many. The end is then as after a `tcp_c_receive`
/// into `count` bytes (RFC 9293, 3.8.6.2 and 3.10.3). Refused as that is. 0 where nothing is unread, whether or not
/// more may come.
#[unsafe(no_mangle)]
pub extern "C" fn tcp_c_consume(handle: &mut Handle, count: usize, taken: &mut usize) -> u32
    ensures answer { result ≡ answer_of (λ s. call_number (consume_answer s count)) handle.old.held.end }
    ensures taken { taken.new ≡ number_written (λ s. taken_count (consume_answer s count)) handle.old.held.end }
    ensures state { handle.new.held.end ≡ option_map (λ s. after_receive s count) handle.old.held.end }
{
    *taken = 0;
    let Some(mut end) = handle.take() else {
        return NO_END;
    };
    let answer = end.consume(count);
    handle.put(end);
    *taken = taken_count(&answer);
    call_number(answer)
}
