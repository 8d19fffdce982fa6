//! One line of a log: `came SOURCE DESTINATION BYTES` or `went SOURCE DESTINATION BYTES`.
ghost use Rattle.std.specs.Prelude.{◌≡◌};
ghost use Rattle.kit_text.specs.Words.{Reads};
ghost use Rattle.kit_judge.specs.Logs.{way_of, packet_content, passage_of};

use kit_text::{LineError, SPACE, cut, read_addr, read_bytes};
use std::alloc::{Allocator, Global};
use tcp_wire::Addr;

const CAME: &[u8] = b"came";

const WENT: &[u8] = b"went";

/// Which way bytes went, seen from the end that is judged.
#[derive(Clone, Copy, Debug, PartialEq, Eq)]
pub(crate) enum Way {
    /// They came to the end, whoever sent them.
    Came,
    /// The end sent them.
    Went,
}

/// Bytes that came or went from one address to another.
#[derive(Debug, Drop)]
pub(crate) struct Packet<A: Allocator = Global> {
    pub(crate) way: Way,
    pub(crate) src: Addr,
    pub(crate) dst: Addr,
    pub(crate) bytes: Vec<u8, A>,
}

/// The way of a word.
fn read_way(word: &[u8]) -> Option<Way>
    ensures { result ≡ way_of word.now }
{
    if word == CAME {
        Some(Way::Came)
    } else if word == WENT {
        Some(Way::Went)
    } else {
        None
    }
}

/// The packet of a line.
#[tactic(auto, unfolding(crate::specs::Logs::passage_of))]
pub(crate) fn read_packet<A: Allocator + Copy>(
    alloc: A,
    line: &[u8],
) -> Result<Packet<A>, LineError>
    ensures { Reads packet_content result (passage_of line.now) }
{
    let (word, rest) = cut(SPACE, line);
    let (src, rest) = cut(SPACE, rest.ok_or(LineError::BadForm)?);
    let (dst, rest) = cut(SPACE, rest.ok_or(LineError::BadForm)?);
    let (bytes, rest) = cut(SPACE, rest.ok_or(LineError::BadForm)?);
    if rest.is_some() {
        return Err(LineError::BadForm);
    }
    let way = read_way(word).ok_or(LineError::BadForm)?;
    let src = read_addr(src).ok_or(LineError::BadForm)?;
    let dst = read_addr(dst).ok_or(LineError::BadForm)?;
    let bytes = read_bytes(alloc, bytes)?;
    Ok(Packet {
        way,
        src,
        dst,
        bytes,
    })
}
