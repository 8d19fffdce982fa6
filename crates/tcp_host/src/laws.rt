//! What follows of pairs of sockets, and of hosts. Each of these functions carries the law that it ensures.
ghost use Rattle.std.specs.Prelude.{◌≡◌, ◌↔◌, IfNone, IfSome};
ghost use Rattle.std.specs.declared.cmp.Ordering.TheVariants.{Equal};
ghost use Rattle.tcp_host.specs.Hosting.{IsNext, IsOnes, NoneIsNext, ToldDriversExpire};

use crate::arrived::Arrived;
use crate::host::Host;
use crate::pair::{Pair, Socket};
use crate::timed::Timed;
use std::alloc::Allocator;
use tcp_driver::Core;

/// Two pairs are found in one place where they are one pair alone.
pub fn pairs_are_told_apart(one: Pair, other: Pair)
    ensures { (⟦<Pair as Ord>⟧.cmp one other ≡ Equal) ↔ (one ≡ other) }
{}

/// The same of sockets.
pub fn sockets_are_told_apart(one: Socket, other: Socket)
    ensures { (⟦<Socket as Ord>⟧.cmp one other ≡ Equal) ↔ (one ≡ other) }
{}

/// Of a driver that [`Host::timeout`] tells the time a timer expires: it has a deadline for no other reason.
pub fn told_drivers_expire<C: Core>()
    ensures { ToldDriversExpire C.machine }
{}

/// Each arrival changes at most the end of its four values, or where there is none the record of these, and the listener
/// that has opened that end. Nothing else changes, and no reset is written: [`Host::stray`] writes one, for nobody's
/// segment.
pub fn an_arrival_is_ones<T: Timed + Drop, L: Drop, A: Allocator + Copy>(
    host: &mut Host<T, L, A>,
    now: u64,
    src: [u8; 4],
    dst: [u8; 4],
    bytes: &[u8],
) -> Arrived<T::Arriving>
    ensures { IsOnes ⟦<Pair as Ord>⟧.cmp host.old host.new src dst bytes.now }
{
    host.arrive(now, src, dst, bytes)
}

/// Whatever was called of a host, the next time that it asks for is the least deadline of all.
pub fn the_next_time_is_the_least<T: Timed + Drop, L: Drop, A: Allocator + Copy>(
    host: &Host<T, L, A>,
) -> Option<u64>
    ensures some { IfSome result (IsNext T.behaviour host.now) }
    ensures none { IfNone result (NoneIsNext T.behaviour host.now) }
{
    host.poll_at()
}
