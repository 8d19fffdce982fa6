//! The meaning of the bytes of a segment.
ghost use Rattle.std.specs.Prelude.{◌≡◌, ◌++◌, IfOk, OnOk, string_bytes};
ghost use Rattle.tcp_wire.specs.Decoded.{decode_answer};
ghost use Rattle.kit_text.specs.Segments.{meaning_text, is_malformed};

use crate::faults::push_named_fault;
use crate::segments::push_raw_fields;
use std::alloc::{AllocError, Allocator};
use tcp_wire::{Addr, RawSegment};

/// Appends the meaning of the bytes of a segment between two addresses: all its fields, or why they are none. Returns
/// whether they are malformed.
pub fn push_meaning<A: Allocator + Copy>(
    alloc: A,
    text: &mut String<A>,
    src: Addr,
    dst: Addr,
    bytes: &[u8],
) -> Result<bool, AllocError>
    ensures text { OnOk result (string_bytes text.new ≡ string_bytes text.old ++ meaning_text (decode_answer src.0 dst.0 bytes.now)) }
    ensures malformed { IfOk result (λ bad. bad ≡ is_malformed (decode_answer src.0 dst.0 bytes.now)) }
{
    match RawSegment::parse(src, dst, bytes) {
        Ok(segment) => {
            push_raw_fields(alloc, text, &segment)?;
            Ok(false)
        }
        Err(fault) => {
            push_named_fault(text, fault)?;
            Ok(true)
        }
    }
}
