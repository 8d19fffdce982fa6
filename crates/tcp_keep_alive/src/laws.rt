//! What follows of keep-alives, however they are computed. These functions do nothing when they run: each carries the law
//! that it ensures.
ghost use Rattle.tcp_keep_alive.specs.Answered.{KeepAliveIsAcknowledge, OldIsAnswered};
ghost use Rattle.tcp_keep_alive.specs.Silence.{AsksOnlyTheSilent, GivesUpOnlyTheDead, OffNeverAsks, TheDeadAreGivenUp};

/// Without rules no peer is asked or given up, whatever happens, and there is no time to wait for.
pub fn off_never_asks()
    ensures { OffNeverAsks }
{}

/// Only a peer is asked that may be, and of which nothing was heard for the idle time, nor for an interval behind each
/// keep-alive that is unanswered (RFC 9293, 3.8.4).
pub fn asks_only_the_silent()
    ensures { AsksOnlyTheSilent }
{}

/// A peer is given up only behind as many unanswered keep-alives as the rules say, two or more, each with an interval for
/// its answer: no single keep-alive that goes unanswered gives up a connection (RFC 9293, 3.8.4).
pub fn gives_up_only_the_dead()
    ensures { GivesUpOnlyTheDead }
{}

/// A peer of which nothing is heard any more is asked as often as the rules say, first behind the idle time, then behind
/// each interval, and it is given up an interval behind the last, where a caller keeps the times that there are to wait
/// for and the peer may be asked at each. These times are up to 2^64 - 1.
pub fn the_dead_are_given_up()
    ensures { TheDeadAreGivenUp }
{}

/// What only acknowledges, and lies before RCV.NXT, changes nothing of an end whose window is open but that an
/// acknowledgement is pending, as the call `acknowledge` makes it (RFC 9293, 3.10.7.4, first).
pub fn old_is_answered()
    ensures { OldIsAnswered }
{}

/// A keep-alive changes nothing else of the end that it comes to, however late it comes: an end asks only where all that it
/// sent is acknowledged, so that its keep-alive lies before RCV.NXT. Less than 2^31 positions may have been sent meanwhile
/// (RFC 9293, 3.4).
pub fn keep_alive_is_acknowledge()
    ensures { KeepAliveIsAcknowledge }
{}
