//! Two ends at hosts, among strangers (RFC 5961, 1; RFC 9293, 3.3.1). A [`Host`] hands an end what has the four values of its connection,
//! and nothing else, so that nothing is asked of the addresses that strangers use, from LISTEN on.
//!
//! - [`an_arrival_is_handed_on`], [`a_vouched_arrival_is_handed_on`]: what comes to a host does to the end of its four values what that
//!   end's own `arrive` does, and nothing to any other. Of a driver [`an_arrival_is_an_incident`] says that this is what the laws below
//!   have an injection do, and [`what_is_vouched_is_summed`] what of one that a device has vouched for.
//! - [`every_run_at_hosts_is_safe`]: so two ends are safe, whatever strangers send to their hosts, unless it has the connection's four
//!   values and is let in. Of ends with their times [`two_ends_at_hosts_are_safe`] says so, and [`two_guarded_ends_at_hosts_are_safe`]
//!   of those with a guard, to whom strangers may send far more.
//!
//! An end that is by itself may answer a third address in LISTEN and CLOSED, which its law excludes (`to_peer` of `IsBlind` in
//! `tcp_replay`).
#![tactic(auto)]

ghost use Rattle.std.specs.Prelude.{false, true};
ghost use Rattle.tcp_hosted.specs.Coming.{HandsOn};
ghost use Rattle.tcp_hosted.specs.Ends.{ComesAsIncident, TwoEndsAtHostsAreSafe, TwoGuardedEndsAtHostsAreSafe, VouchedIsSummed};
ghost use Rattle.tcp_hosted.specs.Worlds.{EveryRunAtHostsIsSafe};

use std::alloc::Allocator;
use tcp_end::End;
use tcp_host::{Arrived, Host, Pair, Timed};

/// A segment that comes to a host is handed to the end of its four values, and changes no other end, which each stay under theirs.
pub fn an_arrival_is_handed_on<T: Timed + Drop, L: Drop, A: Allocator + Copy>(
    host: &mut Host<T, L, A>,
    now: u64,
    src: [u8; 4],
    dst: [u8; 4],
    bytes: &[u8],
) -> Arrived<T::Arriving>
    ensures { HandsOn T.behaviour ⟦<Pair as Ord>⟧.cmp host.old host.new now src dst bytes.now false }
{
    host.arrive(now, src, dst, bytes)
}

/// The same of a segment whose checksum a device has found right.
pub fn a_vouched_arrival_is_handed_on<T: Timed + Drop, L: Drop, A: Allocator + Copy>(
    host: &mut Host<T, L, A>,
    now: u64,
    src: [u8; 4],
    dst: [u8; 4],
    bytes: &[u8],
) -> Arrived<T::Arriving>
    ensures { HandsOn T.behaviour ⟦<Pair as Ord>⟧.cmp host.old host.new now src dst bytes.now true }
{
    host.arrive_vouched(now, src, dst, bytes)
}

/// What comes to a host of two drivers' is an incident of the two, where the end of one stands there under the four values of both.
pub fn an_arrival_is_an_incident<A: Allocator, L: Drop, B: Allocator + Copy>(
    host: &mut Host<End<A>, L, B>,
    now: u64,
    src: [u8; 4],
    dst: [u8; 4],
    bytes: &[u8],
) -> Arrived<<End<A> as Timed>::Arriving>
    ensures { ComesAsIncident ⟦<Pair as Ord>⟧.cmp host.old host.new now src dst bytes.now }
{
    an_arrival_is_handed_on(host, now, src, dst, bytes)
}

/// What a device has vouched for does to a driver at its host what the segment does that is summed, with the right checksum in it. So what
/// the laws below ask of a segment, that it isn't let in, is asked of that one.
pub fn what_is_vouched_is_summed<A: Allocator>()
    ensures { VouchedIsSummed A }
{}

/// The headline at hosts: over every list of what happens, where any bytes come to either end's host, from and to any address, at any
/// time, of which those with the connection's four values aren't let in.
pub fn every_run_at_hosts_is_safe()
    ensures { EveryRunAtHostsIsSafe }
{}

/// The same of two ends with their times that `connect` or `listen` opened, whatever is called of them, without guards, or with guards
/// that reach as far as segments live: what is handed to them isn't let in, unless the driver refuses or withholds it.
pub fn two_ends_at_hosts_are_safe<A: Allocator>()
    ensures { TwoEndsAtHostsAreSafe A }
{}

/// The same with guards of one reach (RFC 5961, 5.2), however far they reach, where segments live for 2^21 positions or longer: what is
/// handed to them isn't let in past the guard.
pub fn two_guarded_ends_at_hosts_are_safe<A: Allocator>()
    ensures { TwoGuardedEndsAtHostsAreSafe A }
{}
