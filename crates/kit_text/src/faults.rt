//! Faults of bytes that are no segment.
ghost use Rattle.std.specs.Prelude.{◌≡◌, ◌++◌, OnOk, string_bytes};
ghost use Rattle.kit_text.specs.Segments.{fault_text, fault_name, named_fault_text};

use std::alloc::{AllocError, Allocator};
use tcp_wire::DecodeError;

/// Appends a fault by its number.
pub fn push_fault<A: Allocator>(text: &mut String<A>, fault: DecodeError) -> Result<(), AllocError>
    ensures { OnOk result (string_bytes text.new ≡ string_bytes text.old ++ fault_text fault) }
{
    let number = fault.number();
    write!(text, "malformed {number}")
}

/// A fault's name, with its offset where it has one.
fn push_name<A: Allocator>(text: &mut String<A>, fault: DecodeError) -> Result<(), AllocError>
    ensures { OnOk result (string_bytes text.new ≡ string_bytes text.old ++ fault_name fault) }
{
    match fault {
        DecodeError::TooShort => text.push_str("TooShort"),
        DecodeError::TooLong => text.push_str("TooLong"),
        DecodeError::BadChecksum => text.push_str("BadChecksum"),
        DecodeError::BadOffset => text.push_str("BadOffset"),
        DecodeError::BadOption { at } => write!(text, "BadOption at {at}"),
        DecodeError::BadPadding { at } => write!(text, "BadPadding at {at}"),
    }
}

/// Appends a fault by its number and its name, with its offset where it has one.
#[tactic(auto, unfolding(crate::specs::Segments::named_fault_text))]
pub fn push_named_fault<A: Allocator>(
    text: &mut String<A>,
    fault: DecodeError,
) -> Result<(), AllocError>
    ensures { OnOk result (string_bytes text.new ≡ string_bytes text.old ++ named_fault_text fault) }
{
    push_fault(text, fault)?;
    text.push_str(" ")?;
    push_name(text, fault)
}
