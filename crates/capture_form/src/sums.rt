//! Checksums of segments over IPv6 (RFC 8200, 8.1).
ghost use Rattle.capture_form.specs.PseudoHeaders.{StandsIn};

use tcp_numbers::{Addr, word_sum};

/// An address of IPv4 that stands in for one of IPv6 wherever a checksum is computed: with two of these a segment's
/// checksum is right where it is right over IPv6, as [`crate::laws`] has it.
#[tactic(auto, using(crate::proofs::PseudoHeaders::stands))]
pub fn stand_in(addr: [u8; 16]) -> Addr
    ensures { StandsIn addr result.0 }
{
    let sum = word_sum(&addr) % 65535;
    Addr([0, 0, (sum / 256) as u8, (sum % 256) as u8])
}
