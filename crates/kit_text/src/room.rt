//! Short texts: they are written in room on the stack, from their end to their front, and appended at once.
ghost use Rattle.std.specs.Prelude.{◌≡◌, ◌++◌, ◌+◌, ◌≤◌, length, drop, decimal, OnOk, string_bytes};
ghost use Rattle.std.specs.Str.{IsUtf8};

use std::alloc::{AllocError, Allocator};

/// The length in bytes of the room. A number takes 20 at most.
pub(crate) const ROOM: usize = 128;

/// Writes a piece so that it ends at `end`, and returns where it starts.
#[inline(always)]
pub(crate) fn put(room: &mut [u8; 128], end: usize, piece: &str) -> usize
    requires fits { length piece.now ≤ end }
    requires within { end ≤ 128 }
    ensures start { result + length piece.now ≡ end }
    ensures written { drop result room.new ≡ piece.now ++ drop end room.old }
    ensures utf8 { IsUtf8 (drop end room.old) → IsUtf8 (drop result room.new) }
{
    let start = end - piece.len();
    room[start..end].copy_from_slice(piece.as_bytes());
    start
}

/// Writes a number in decimal so that it ends at `end`, and returns where it starts.
#[inline(always)]
pub(crate) fn put_number(room: &mut [u8; 128], end: usize, n: u64) -> usize
    requires fits { 20 ≤ end }
    requires within { end ≤ 128 }
    ensures start { end ≤ result + 20 }
    ensures before { result ≤ end }
    ensures written { drop result room.new ≡ decimal n ++ drop end room.old }
    ensures utf8 { IsUtf8 (drop end room.old) → IsUtf8 (drop result room.new) }
{
    itoa::write_digits(n, room, end)
}

/// Appends what stands in the room from `start` on.
pub(crate) fn push_from<A: Allocator>(
    text: &mut String<A>,
    room: &[u8; 128],
    start: usize,
) -> Result<(), AllocError>
    requires within { start ≤ 128 }
    requires utf8 { IsUtf8 (drop start room.now) }
    ensures { OnOk result (string_bytes text.new ≡ string_bytes text.old ++ drop start room.now) }
{
    text.push_str(unsafe { std::str::from_utf8_unchecked(&room[start..]) })
}
