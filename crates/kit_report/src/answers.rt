//! The answer of a call, and what became of bytes.
ghost use Rattle.std.specs.Prelude.{◌≡◌, ◌++◌, OnOk, string_bytes};
ghost use Rattle.tcp_wire.specs.Decoded.{decode_answer};
ghost use Rattle.kit_report.specs.Answers.{refused_text, send_text, receive_text, segment_text, arrival_text};

use kit_text::{push_bytes, push_fault, push_raw_summary, push_word_number};
use std::alloc::{AllocError, Allocator};
use tcp_conn::{Arrival, CallError, Received};
use tcp_wire::{Addr, RawSegment};

/// Appends a refusal, with its number.
pub fn push_refused<A: Allocator>(text: &mut String<A>, number: u8) -> Result<(), AllocError>
    ensures { OnOk result (string_bytes text.new ≡ string_bytes text.old ++ refused_text number) }
{
    write!(text, "refused {number}")
}

/// Appends how many bytes were accepted, or the refusal.
pub fn push_send<A: Allocator>(
    text: &mut String<A>,
    answer: Result<usize, CallError>,
) -> Result<(), AllocError>
    ensures { OnOk result (string_bytes text.new ≡ string_bytes text.old ++ send_text answer) }
{
    match answer {
        Ok(count) => push_word_number(text, "took ", count as u64),
        Err(error) => push_refused(text, error.number()),
    }
}

/// Appends the bytes that were delivered, if any, or the refusal.
pub fn push_receive<A: Allocator + Copy>(
    alloc: A,
    text: &mut String<A>,
    answer: Result<Received, CallError>,
    bytes: &[u8],
) -> Result<(), AllocError>
    ensures { OnOk result (string_bytes text.new ≡ string_bytes text.old ++ receive_text answer bytes.now) }
{
    match answer {
        Ok(Received::Bytes(_)) => {
            text.push_str("bytes ")?;
            push_bytes(alloc, text, bytes)
        }
        Ok(Received::Nothing) => text.push_str("nothing"),
        Ok(Received::EndOfStream) => text.push_str("end"),
        Err(error) => push_refused(text, error.number()),
    }
}

/// Appends a summary of the bytes of a segment.
pub fn push_segment<A: Allocator>(
    text: &mut String<A>,
    src: Addr,
    dst: Addr,
    bytes: &[u8],
) -> Result<(), AllocError>
    ensures { OnOk result (string_bytes text.new ≡ string_bytes text.old ++ segment_text (decode_answer src.0 dst.0 bytes.now)) }
{
    match RawSegment::parse(src, dst, bytes) {
        Ok(segment) => push_raw_summary(text, &segment),
        Err(fault) => push_fault(text, fault),
    }
}

/// Appends what became of bytes that arrived.
pub fn push_arrival<A: Allocator>(text: &mut String<A>, arrival: Arrival) -> Result<(), AllocError>
    ensures { OnOk result (string_bytes text.new ≡ string_bytes text.old ++ arrival_text arrival) }
{
    match arrival {
        Arrival::Malformed(fault) => push_fault(text, fault),
        Arrival::NotMine => text.push_str("not-mine"),
        Arrival::Dropped => text.push_str("dropped"),
        Arrival::Processed => text.push_str("processed"),
    }
}
