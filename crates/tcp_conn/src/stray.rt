//! A segment that comes to an address and a port of no end (RFC 9293, 3.10.7.1).
ghost use Rattle.std.specs.Prelude.{◌≡◌, ◌≤◌, length, option_map};
ghost use Rattle.tcp_conn.specs.Stray.{stray_reset, with_front};

use crate::arrive::effect::reset_of_stray;
use crate::emit::segment::reset_from;
use crate::emit::write::write_bare;
use tcp_wire::{Addr, RawSegment};

/// The length of a reset in bytes.
pub const RESET_LEN: usize = 20;

/// Writes the reset that answers bytes from `src` to `dst`, where no end has that address and port, at the start of
/// `out`. Returns its length, [`RESET_LEN`]; it goes from `dst` to `src` (RFC 9293, 3.10.7.1). `None`, and `out` is
/// unchanged, where the bytes are no segment, or a reset.
#[must_use]
#[tactic(auto, unfolding(crate::specs::Stray::stray_reset))]
pub fn stray_reset(src: Addr, dst: Addr, bytes: &[u8], out: &mut [u8]) -> Option<usize>
    requires { RESET_LEN ≤ length out.old }
    ensures len { result ≡ option_map (λ _. RESET_LEN) (stray_reset src.0 dst.0 bytes.now) }
    ensures bytes { out.new ≡ with_front (stray_reset src.0 dst.0 bytes.now) out.old }
{
    let Ok(segment) = RawSegment::parse(src, dst, bytes) else {
        return None;
    };
    if segment.header.flags.is_rst() {
        return None;
    }
    let answer = reset_from(segment.header.dst_port, reset_of_stray(src, &segment));
    Some(write_bare(&answer, dst, src, out))
}
