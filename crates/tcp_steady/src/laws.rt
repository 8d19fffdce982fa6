//! What follows of a connection whose silent peer is asked and whose new text is paced, whatever its window is and whatever is called.
//! These functions do nothing when they run: each carries the law that it ensures.
ghost use Rattle.tcp_steady.specs.Calls.{AsksOnlyTheSilent, AsksOnlyTheSilentAsOne, GivesUpOnlyTheDead, OffIsConnection, OffStaysOff, SteadyIsRepairing};

use std::alloc::Allocator;
use tcp_congestion::Congestion;

/// Whatever is called, the connection inside is as after calls of its own: those that were called, an emission within the window that
/// the pacer leaves of the caller's; where the peer is given up one that aborts it; and none where keep-alives or pacing are chosen. So
/// every law of a connection with a recovery holds of it ([`tcp_repair::laws`]), and with these of a connection
/// ([`tcp_connection::laws`]), of its flow and of its driver.
pub fn steady_is_repairing<W: Congestion, B: Allocator, A: Allocator>()
    ensures { SteadyIsRepairing B A W.control }
{}

/// Without keep-alives, and unpaced, it is the connection inside: what an arrival and an emission, alone or as one, answer, what is
/// written, when it has to be called, and which timer expires. Whatever is called that turns on neither, it stays so, and the
/// connection is as after the same calls.
pub fn off_is_connection<W: Congestion, B: Allocator, A: Allocator>()
    ensures each { OffIsConnection B A W.control }
    ensures stays { OffStaysOff B A W.control }
{}

/// Whatever was called since keep-alives were turned on, but what turns them on or off again, a peer is given up only behind as many
/// unanswered ones as the rules say, two or more, each with an interval for its answer (RFC 9293, 3.8.4).
pub fn gives_up_only_the_dead<W: Congestion, B: Allocator, A: Allocator>()
    ensures { GivesUpOnlyTheDead B A W.control }
{
    tcp_keep_alive::laws::gives_up_only_the_dead();
}

/// Whatever was called since keep-alives were turned on, but what turns them on or off again, only a peer is asked that may be, and of
/// which nothing was heard for the idle time, nor for an interval behind each keep-alive that is unanswered (RFC 9293, 3.8.4).
pub fn asks_only_the_silent<W: Congestion, B: Allocator, A: Allocator>()
    ensures alone { AsksOnlyTheSilent B A W.control }
    ensures as_one { AsksOnlyTheSilentAsOne B A W.control }
{
    tcp_keep_alive::laws::asks_only_the_silent();
}
