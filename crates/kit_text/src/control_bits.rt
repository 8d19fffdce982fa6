//! Control bits by their names.
ghost use Rattle.std.specs.Prelude.{◌≡◌, ◌++◌, OnOk, IfSome, string_bytes};
ghost use Rattle.tcp_wire.specs.Texts.{flags_text};

use std::alloc::{AllocError, Allocator};
use tcp_wire::Flags;

/// The names of control bits that most segments have.
#[tactic(auto, unfolding(tcp_numbers::specs::Texts::flags_text))]
fn common_names(flags: Flags) -> Option<&'static str>
    ensures { IfSome result (λ names. names.now ≡ flags_text flags.0) }
{
    match flags.0 {
        0x10 => Some("ACK"),
        0x18 => Some("ACK,PSH"),
        0x02 => Some("SYN"),
        0x12 => Some("ACK,SYN"),
        0x11 => Some("ACK,FIN"),
        0x14 => Some("ACK,RST"),
        _ => None,
    }
}

/// Appends the names of the control bits that are set.
pub(crate) fn push_flags<A: Allocator>(text: &mut String<A>, flags: Flags) -> Result<(), AllocError>
    ensures { OnOk result (string_bytes text.new ≡ string_bytes text.old ++ flags_text flags.0) }
{
    match common_names(flags) {
        Some(names) => text.push_str(names),
        None => write!(text, "{flags}"),
    }
}
