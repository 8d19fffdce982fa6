//! The segment that asks a peer whether it is there (RFC 9293, 3.8.4).
ghost use Rattle.std.specs.Prelude.{◌≡◌, ◌≤◌, ◌/◌, ◌^◌, [], length, option_map};
ghost use Rattle.tcp_wire.specs.View.{content_of};
ghost use Rattle.tcp_wire.specs.Wire.{IsValid};
ghost use Rattle.tcp_conn.specs.Endpoint.{AlwaysHolds};
ghost use Rattle.tcp_keep_alive.specs.Asking.{buffer_after, keep_alive_due, keep_alive_from, may_ask, partial_due, window_field_of};

use std::alloc::Allocator;
use tcp_conn::laws::what_always_holds;
use tcp_conn::{Endpoint, Peer, Phase};
use tcp_wire::{Flags, Header, write_around, write_around_partial};

/// The length of a keep-alive in bytes: it has neither options nor text.
pub const KEEP_ALIVE_LEN: usize = 20;

/// The greatest window field (RFC 9293, 3.1).
const MAX_WINDOW: usize = 65_535;

/// Whether the peer may be asked if it is there: in ESTABLISHED and CLOSE-WAIT, where all that was sent is acknowledged and
/// nothing waits to be sent. Else what is sent asks it already (RFC 9293, 3.8.4).
#[must_use]
pub fn may_ask<A: Allocator>(end: &Endpoint<A>) -> bool
    ensures { result ≡ may_ask end.now }
{
    matches!(end.phase(), Phase::Established | Phase::CloseWait)
        && end.peer().is_some()
        && end.negotiated().is_some()
        && end.snd_una() == end.snd_nxt()
        && end.queued() == 0
}

/// A window as a field has it with this shift (RFC 7323, 2.3).
#[tactic(auto, using(crate::proofs::Shifts::shifted_out))]
fn shifted(window: usize, shift: u8) -> usize
    ensures { result ≡ window / 2 ^ shift }
{
    if shift < 64 { window >> shift } else { 0 }
}

/// The window field of what the end emits (RFC 9293, 3.1).
fn window_field<A: Allocator>(end: &Endpoint<A>, shift: u8) -> u16
    ensures { result ≡ window_field_of end.now shift }
{
    // So that the proof knows that what is unread fits.
    what_always_holds(end);
    let window = end.config().recv_capacity - end.unread();
    shifted(window, shift).min(MAX_WINDOW) as u16
}

/// The header of the keep-alive, with this peer and this shift of the windows that the end advertises.
fn header<A: Allocator>(end: &Endpoint<A>, peer: Peer, shift: u8) -> Header
    ensures value { content_of result [] 0 [] ≡ keep_alive_from end.now peer shift }
    ensures valid { IsValid (content_of result [] 0 []) }
{
    let config = end.config();
    let before = end.snd_nxt().saturating_sub(1);
    Header {
        src_port: config.port,
        dst_port: peer.port,
        seq: config.isn.plus((before % (1 << 32)) as u32),
        ack: end.rcv_nxt(),
        reserved: 0,
        flags: Flags::ACK,
        window: window_field(end, shift),
        urgent: 0,
    }
}

/// Writes the keep-alive of the end at the start of `out`: `<SEQ=SND.NXT-1><ACK=RCV.NXT><CTL=ACK>` with the end's window,
/// and neither options nor text (RFC 9293, 3.8.4). Returns its length, [`KEEP_ALIVE_LEN`]; it goes to the end's peer. `None`,
/// and `out` is unchanged, where the peer may not be asked ([`may_ask`]).
#[must_use]
pub fn write_keep_alive<A: Allocator>(end: &Endpoint<A>, out: &mut [u8]) -> Option<usize>
    requires { KEEP_ALIVE_LEN ≤ length out.old }
    ensures len { result ≡ option_map (λ _. KEEP_ALIVE_LEN) (keep_alive_due end.now) }
    ensures bytes { out.new ≡ buffer_after (keep_alive_due end.now) out.old }
{
    let (Some(peer), Some(agreed)) = (end.peer(), end.negotiated()) else {
        return None;
    };
    if !may_ask(end) {
        return None;
    }
    let header = header(end, peer, agreed.own_shift);
    Some(write_around(&header, &[], 0, 0, end.config().addr, peer.addr, out))
}

/// Writes it as [`write_keep_alive`] does for a device that computes the checksum: the field has the ones' complement sum of the
/// pseudo-header alone (RFC 9293, 3.1; RFC 1071, 2).
#[must_use]
pub fn write_keep_alive_partial<A: Allocator>(end: &Endpoint<A>, out: &mut [u8]) -> Option<usize>
    requires { KEEP_ALIVE_LEN ≤ length out.old }
    ensures len { result ≡ option_map (λ _. KEEP_ALIVE_LEN) (partial_due end.now) }
    ensures bytes { out.new ≡ buffer_after (partial_due end.now) out.old }
{
    let (Some(peer), Some(agreed), true) = (end.peer(), end.negotiated(), may_ask(end)) else {
        return None;
    };
    let header = header(end, peer, agreed.own_shift);
    Some(write_around_partial(&header, &[], 0, 0, end.config().addr, peer.addr, out))
}
