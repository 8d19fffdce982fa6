//! A segment that was emitted, and its lifetime.
ghost use Rattle.std.specs.Prelude.{◌≡◌, ◌≤◌, ◌+◌, length, nat_le};
ghost use Rattle.tcp_replay.specs.World.{flags_in, is_expired, seq_in};

use byteorder::{BigEndian, ByteOrder};
use std::alloc::{Allocator, Global};
use std::marker::Model;
use tcp_conn::Endpoint;
use tcp_wire::{Flags, Seq};

/// A segment that was emitted, and its positions then (RFC 9293, 3.4).
#[derive(Debug, Drop)]
pub(crate) struct SentSegment<A: Allocator = Global> {
    pub(crate) bytes: Vec<u8, A>,
    /// The position of its sequence number, in the direction of the end that emitted it.
    pub(crate) position: u64,
    /// The next position of the other direction that this end expected.
    pub(crate) wanted: u64,
}

impl<A: Allocator> Model for SentSegment<A> {
    ghost use Rattle.tcp_replay.specs.World.{SentSegment};

    ghost Value = { SentSegment };

    ghost view = { λ g. record { bytes = g.bytes.items; position = g.position; wanted = g.wanted } };
}

/// The sequence number of a segment (RFC 9293, 3.1).
pub(crate) fn seq_in(bytes: &[u8]) -> Seq
    requires { 8 ≤ length bytes.now }
    ensures { result.0 ≡ seq_in bytes.now }
{
    Seq(BigEndian::read_u32(&bytes[4..]))
}

/// The control bits of a segment (RFC 9293, 3.1), none where it is too short to have any.
fn flags_in(bytes: &[u8]) -> Flags
    ensures { result.0 ≡ flags_in bytes.now }
{
    if bytes.len() <= 13 {
        return Flags(0);
    }
    Flags(bytes[13])
}

/// Whether a position lies `life` or more behind the one that is next.
fn is_passed(position: u64, life: u32, next: u64) -> bool
    ensures { result ≡ nat_le (position + life) next }
{
    let life = u64::from(life);
    life <= next && position <= next - life
}

impl<A: Allocator> SentSegment<A> {
    /// Whether its lifetime is over at an end where it would arrive. Its position lies `life` or more behind the next
    /// that is expected there, or its acknowledgement that far behind SND.UNA (RFC 9293, 3.4). A reset has no lifetime.
    pub(crate) fn is_expired(&self, life: u32, to: &Endpoint<A>) -> bool
        ensures { result ≡ is_expired life to.now self.now }
    {
        let flags = flags_in(&self.bytes);
        let late = is_passed(self.position, life, to.rcv_position());
        let acks_late = flags.is_ack() && is_passed(self.wanted, life, to.snd_una());
        !flags.is_rst() && (late || acks_late)
    }
}
