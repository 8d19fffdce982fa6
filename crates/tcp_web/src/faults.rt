//! The lines of faults.
ghost use Rattle.std.specs.Prelude.{◌≡◌, ◌++◌, IfOk, OnOk, string_bytes};
ghost use Rattle.tcp_web.specs.Answers.{config_fault_text, fault_text};

use kit_commands::ToolError;
use std::alloc::{AllocError, Allocator};
use tcp_replay::Side;

/// Appends the line of a fault of an end's Config.
fn push_config_fault<A: Allocator>(
    text: &mut String<A>,
    side: Side,
    number: u8,
) -> Result<(), AllocError>
    ensures { OnOk result (string_bytes text.new ≡ string_bytes text.old ++ config_fault_text side number) }
{
    write!(text, "tcpkit: config {side} {number}\n")
}

/// Appends the line of a fault, as the program writes it.
fn push_fault<A: Allocator>(text: &mut String<A>, error: ToolError) -> Result<(), AllocError>
    ensures { OnOk result (string_bytes text.new ≡ string_bytes text.old ++ fault_text error) }
{
    match error {
        ToolError::BadLine { line } => write!(text, "tcpkit: 41 line {line}\n"),
        ToolError::Config(side, fault) => push_config_fault(text, side, fault.number()),
        ToolError::NoMemory => text.push_str("tcpkit: 42\n"),
        ToolError::ReadFault => text.push_str("tcpkit: 43\n"),
        ToolError::WriteFault => text.push_str("tcpkit: 44\n"),
    }
}

/// The line of a fault.
pub(crate) fn fault_line<A: Allocator>(alloc: A, error: ToolError) -> Result<String<A>, AllocError>
    ensures { IfOk result (λ text. string_bytes text ≡ fault_text error) }
{
    let mut text = String::new(alloc);
    push_fault(&mut text, error)?;
    Ok(text)
}
