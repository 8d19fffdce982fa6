//! The calls of an end, each with what it makes of a member of a pair: so the definitions of the laws are what the calls do.
ghost use Rattle.std.specs.Prelude.{◌≡◌, ◌≤◌, false, length};
ghost use Rattle.tcp_driver.specs.Calls.{Arrives, after_call};
ghost use Rattle.tcp_driver.specs.Driver.{arrival_answer, at, sent_of, way_of, written_of};
ghost use Rattle.tcp_driver.specs.Times.{expiry};
ghost use Rattle.tcp_conn.specs.Calls.{abort_answer, close_answer, receive_answer, send_answer};
ghost use Rattle.tcp_conn.specs.Timers.{resends_between, sends_again};
ghost use Rattle.tcp_end.specs.Wired.{intake_of, machine, read_into, taken_of};
ghost use Rattle.tcp_ends.specs.Calls.{cut_out, sent_after};
ghost use Rattle.tcp_ends.specs.Pair.{member_after_abort, member_after_acknowledge, member_after_close, member_after_emission, member_after_patience, member_after_receive, member_after_resend, member_after_resend_first, member_after_send, member_after_time, member_after_user_timeout, new_member};

use std::alloc::Allocator;
use tcp_conn::{CallError, Received};
use tcp_driver::{Sent, Taken, Timer};
use tcp_end::End;

/// A segment has come from the IPv4 address `src` to `dst` ([`End::arrive`](tcp_driver::Driver::arrive)).
pub fn arrive<A: Allocator>(
    end: &mut End<A>,
    now: u64,
    src: [u8; 4],
    dst: [u8; 4],
    bytes: &[u8],
) -> Taken<tcp_conn::Taken>
    ensures answer { result ≡ arrival_answer machine (λ w src dst bytes way. taken_of (intake_of way) w.end src dst bytes) end.old src dst bytes.now (way_of end.old false) }
    ensures state { end.new ≡ after_call machine end.old (Arrives now src dst bytes.now false) }
{
    end.arrive(now, src, dst, bytes)
}

/// Writes the segment that may go out, if one may ([`End::emit`](tcp_driver::Driver::emit)): what was sent is what the
/// buffer then begins with, as long as is reported.
#[tactic(auto, unfolding(crate::specs::Pair::member_after_emission))]
pub fn emit<A: Allocator>(end: &mut End<A>, now: u64, window: u64, out: &mut [u8]) -> Option<Sent>
    requires { 1520 ≤ length out.old }
    ensures answer { result ≡ sent_of machine end.old.core window }
    ensures written { out.new ≡ written_of machine end.old.core window out.old }
    ensures state { end.new ≡ (member_after_emission (new_member end.old) now window out.old).driving }
    ensures sent { sent_after end.old result out.new ≡ (member_after_emission (new_member end.old) now window out.old).sent }
{
    end.emit(now, window, out)
}

/// It is `now` ([`End::timeout`](tcp_driver::Driver::timeout)).
pub fn timeout<A: Allocator>(end: &mut End<A>, now: u64) -> Option<Timer>
    ensures expired { result ≡ expiry end.old.times (at end.old now) }
    ensures state { end.new ≡ (member_after_time (new_member end.old) now).driving }
{
    end.timeout(now)
}

/// The user has text to send (RFC 9293, 3.10.2).
pub fn send<A: Allocator>(end: &mut End<A>, now: u64, text: &[u8]) -> Result<usize, CallError>
    ensures answer { result ≡ send_answer end.old.core.end text.now }
    ensures state { end.new ≡ (member_after_send (new_member end.old) now text.now).driving }
{
    end.send(now, text)
}

/// The user reads (RFC 9293, 3.10.3): what is delivered is what the buffer then begins with, as much as is answered.
pub fn receive<A: Allocator>(
    end: &mut End<A>,
    now: u64,
    out: &mut [u8],
) -> Result<Received, CallError>
    ensures answer { result ≡ receive_answer end.old.core.end (length out.old) }
    ensures written { out.new ≡ read_into end.old.core.end out.old }
    ensures state { end.new ≡ (member_after_receive (new_member end.old) now out.old).driving }
    ensures read { cut_out result out.new ≡ (member_after_receive (new_member end.old) now out.old).delivered }
{
    end.receive(now, out)
}

/// The user wants the window that is open now to be advertised (RFC 9293, 3.8.6.2.2).
pub fn acknowledge<A: Allocator>(end: &mut End<A>, now: u64)
    ensures { end.new ≡ (member_after_acknowledge (new_member end.old) now).driving }
{
    end.acknowledge(now);
}

/// The user has no more to send (RFC 9293, 3.10.4).
pub fn close<A: Allocator>(end: &mut End<A>, now: u64) -> Result<(), CallError>
    ensures answer { result ≡ close_answer end.old.core.end }
    ensures state { end.new ≡ (member_after_close (new_member end.old) now).driving }
{
    end.close(now)
}

/// The user gives the connection up (RFC 9293, 3.10.5).
pub fn abort<A: Allocator>(end: &mut End<A>, now: u64) -> Result<(), CallError>
    ensures answer { result ≡ abort_answer end.old.core.end }
    ensures state { end.new ≡ (member_after_abort (new_member end.old) now).driving }
{
    end.abort(now)
}

/// Of what is in flight the first segment goes out again (RFC 5681, 3.2): whether anything is in flight.
pub fn resend_first<A: Allocator>(end: &mut End<A>, now: u64) -> bool
    ensures answer { result ≡ sends_again end.old.core.end }
    ensures state { end.new ≡ (member_after_resend_first (new_member end.old) now).driving }
{
    end.resend_first(now)
}

/// Of what is in flight what lies between two positions goes out again (RFC 6675, 5; RFC 8985, 6.2): whether anything does.
pub fn resend<A: Allocator>(end: &mut End<A>, now: u64, from: u64, to: u64) -> bool
    ensures answer { result ≡ resends_between end.old.core.end from to }
    ensures state { end.new ≡ (member_after_resend (new_member end.old) now from to).driving }
{
    end.resend(now, from, to)
}

/// Sets the user timeout, in microseconds (RFC 9293, 3.8.3).
pub fn set_user_timeout<A: Allocator>(end: &mut End<A>, limit: Option<u64>)
    ensures { end.new ≡ (member_after_user_timeout (new_member end.old) limit).driving }
{
    end.set_user_timeout(limit);
}

/// Sets whether what the peer's blocks pass over is given a whole timeout before it counts as lost (RFC 8985).
pub fn set_patience<A: Allocator>(end: &mut End<A>, is_patient: bool)
    ensures { end.new ≡ (member_after_patience (new_member end.old) is_patient).driving }
{
    end.set_patience(is_patient);
}
