//! A segment in parts: its header is written, and its text is lent where it lies in the queue.
ghost use Rattle.std.specs.Prelude.{◌≡◌, ◌≤◌, ◌+◌, length, take, drop, unwrap_or, option_map};
ghost use Rattle.tcp_conn.specs.Emission.{after_emission, destination};
ghost use Rattle.tcp_conn.specs.declared.emit.write.TheConstants.{HEADER_ROOM};
ghost use Rattle.tcp_c.specs.Answers.{done, answer_of, number_written};
ghost use Rattle.tcp_c.specs.Lent.{IsNullIfEmpty, address_of, due_bytes, first_due, parts_length, parts_number};
ghost use Rattle.tcp_c.specs.Segments.{nowhere, written_destination};

use crate::answers::{DONE, LITTLE_ROOM, NO_END, NOTHING_DUE};
use crate::handle::Handle;
use crate::lending::start_of;
use crate::records::{CAddr, CParts};
use region_heap::Region;
use std::ptr::null;
use tcp_conn::{Endpoint, HEADER_ROOM, Parts};
use tcp_wire::Addr;

/// No segment.
fn no_parts() -> CParts
    ensures to { result.to.byte ≡ nowhere }
    ensures header { result.header ≡ 0 }
    ensures first_length { result.first_length ≡ 0 }
    ensures second_length { result.second_length ≡ 0 }
    ensures first_null { IsNullIfEmpty result.first result.first_length }
    ensures second_null { IsNullIfEmpty result.second result.second_length }
{
    CParts {
        to: CAddr { byte: [0; 4] },
        header: 0,
        first: null(),
        first_length: 0,
        second: null(),
        second_length: 0,
    }
}

/// What is reported to C of a segment in parts: where it goes, the length of its header, and where each part of its text
/// lies.
fn told_of(parts: &Parts<'_>) -> CParts
    requires { parts.now.header ≤ HEADER_ROOM }
    ensures to { result.to.byte ≡ parts.now.to.0 }
    ensures header { result.header ≡ parts.now.header }
    ensures first { result.first ≡ address_of parts.now.first }
    ensures first_length { result.first_length ≡ length parts.now.first.now }
    ensures second { result.second ≡ address_of parts.now.second }
    ensures second_length { result.second_length ≡ length parts.now.second.now }
{
    let Addr(byte) = parts.to;
    CParts {
        to: CAddr { byte },
        header: parts.header as u32,
        first: start_of(parts.first),
        first_length: parts.first.len(),
        second: start_of(parts.second),
        second_length: parts.second.len(),
    }
}

/// The parts of the segment that is due, and the answer, where there is room.
fn parts_of(end: &Endpoint<Region>, header: &mut [u8]) -> (u32, CParts)
    requires { HEADER_ROOM ≤ length header.old }
    ensures answer { result.0 ≡ parts_number HEADER_ROOM (length header.old) end.now }
    ensures to { result.1.to.byte ≡ unwrap_or (destination end.now) nowhere }
    ensures lengths { result.1.header + (result.1.first_length + result.1.second_length) ≡ length (due_bytes end.now) }
    ensures written { take result.1.header header.new ≡ take result.1.header (due_bytes end.now) }
    ensures first_null { IsNullIfEmpty result.1.first result.1.first_length }
    ensures second_null { IsNullIfEmpty result.1.second result.1.second_length }
    ensures rest { drop result.1.header header.new ≡ drop result.1.header header.old }
{
    let Some(parts) = end.parts(header) else {
        return (NOTHING_DUE, no_parts());
    };
    (DONE, told_of(&parts))
}

/// Writes the header of the segment that is due into the front of `header`, lends its text where it lies, in two parts,
/// and reports where it goes. Header, first and second part are together what `tcp_c_emit` would write. 33 where
/// `header` has less than [`HEADER_ROOM`] bytes, 53 where none is due. Nothing changes in the end: once the segment was
/// sent, call `tcp_c_sent`. The text may be read until the next call that changes the end.
#[unsafe(no_mangle)]
pub extern "C" fn tcp_c_parts(handle: &mut Handle, header: &mut [u8], parts: &mut CParts) -> u32
    ensures answer { result ≡ answer_of (parts_number HEADER_ROOM (length header.old)) handle.old.held.end }
    ensures destination { parts.new.to.byte ≡ written_destination HEADER_ROOM (length header.old) handle.old.held.end }
    ensures lengths { parts.new.header + (parts.new.first_length + parts.new.second_length) ≡ number_written (parts_length HEADER_ROOM (length header.old)) handle.old.held.end }
    ensures written { take parts.new.header header.new ≡ first_due parts.new.header handle.old.held.end }
    ensures first_null { IsNullIfEmpty parts.new.first parts.new.first_length }
    ensures second_null { IsNullIfEmpty parts.new.second parts.new.second_length }
    ensures rest { drop parts.new.header header.new ≡ drop parts.new.header header.old }
    ensures state { handle.new.held.end ≡ handle.old.held.end }
{
    let Some(end) = handle.take() else {
        *parts = no_parts();
        return NO_END;
    };
    if header.len() < HEADER_ROOM {
        handle.put(end);
        *parts = no_parts();
        return LITTLE_ROOM;
    }
    let (answer, found) = parts_of(&end, header);
    handle.put(end);
    *parts = found;
    answer
}

/// Counts the segment that is due as sent: the end is as after a `tcp_c_emit` (RFC 9293, 3.8). Call it right after the
/// segment of `tcp_c_parts` was sent. Nothing changes where none is due.
#[unsafe(no_mangle)]
pub extern "C" fn tcp_c_sent(handle: &mut Handle) -> u32
    ensures answer { result ≡ answer_of (λ _. done) handle.old.held.end }
    ensures state { handle.new.held.end ≡ option_map after_emission handle.old.held.end }
{
    let Some(mut end) = handle.take() else {
        return NO_END;
    };
    end.sent();
    handle.put(end);
    DONE
}
