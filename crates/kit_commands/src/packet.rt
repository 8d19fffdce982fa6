//! One line of a list: `SOURCE DESTINATION BYTES`.
ghost use Rattle.std.specs.Prelude.{◌≡◌};
ghost use Rattle.kit_text.specs.Words.{Reads};
ghost use Rattle.kit_commands.specs.Listing.{packet_content, packet_of};

use kit_text::{LineError, SPACE, cut, read_addr, read_bytes};
use std::alloc::{Allocator, Global};
use tcp_wire::Addr;

/// Bytes that came from one address to another.
#[derive(Debug, Drop)]
pub(crate) struct Packet<A: Allocator = Global> {
    pub(crate) src: Addr,
    pub(crate) dst: Addr,
    pub(crate) bytes: Vec<u8, A>,
}

/// The packet of a line.
#[tactic(auto, unfolding(crate::specs::Listing::packet_of))]
pub(crate) fn read_packet<A: Allocator + Copy>(
    alloc: A,
    line: &[u8],
) -> Result<Packet<A>, LineError>
    ensures { Reads packet_content result (packet_of line.now) }
{
    let (src, rest) = cut(SPACE, line);
    let (dst, rest) = cut(SPACE, rest.ok_or(LineError::BadForm)?);
    let (bytes, rest) = cut(SPACE, rest.ok_or(LineError::BadForm)?);
    if rest.is_some() {
        return Err(LineError::BadForm);
    }
    let src = read_addr(src).ok_or(LineError::BadForm)?;
    let dst = read_addr(dst).ok_or(LineError::BadForm)?;
    let bytes = read_bytes(alloc, bytes)?;
    Ok(Packet { src, dst, bytes })
}
