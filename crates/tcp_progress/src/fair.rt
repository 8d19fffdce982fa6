//! Who is served often enough gets through (RFC 9293, 3.8), whatever the network does meanwhile.
ghost use Rattle.tcp_progress.specs.Half.{HalfTurnsGetThrough, HalvesCanBeHad};
ghost use Rattle.tcp_progress.specs.Fair.{EachBurstEnds, TurnsCanBeHad, WhatIsLeftNeverGrows, WhoIsServedGetsThrough};
ghost use Rattle.tcp_progress.specs.WithRuns.{EachBurstEndsWithRuns, HalfTurnsGetThroughWithRuns, HalvesCanBeHadWithRuns, TurnsCanBeHadWithRuns, WhatIsLeftNeverGrowsWithRuns, WhoIsServedGetsThroughWithRuns};

/// Who is served gets through, from any world that two ends can come to, while both are live. Take calm events that
/// contain as many turns of a caller's loop as what is left, and one more. After them all that was accepted is
/// delivered, both ways, and acknowledged, unless an end is reset. Once TIME-WAIT expires at both ends, both have ended
/// in order where both users closed. Calm is whatever clock, network and users who only read do; but in TIME-WAIT that
/// timer waits until the end. Segments live for 2^21 positions or longer.
///
/// In a turn both users read all. One side's retransmission timeout expires and it emits at once until nothing is due,
/// and then the other's. All that both sent arrives, while no timer expires, and both answer until nothing is due; and
/// what they answered arrives.
pub fn who_is_served_gets_through()
    ensures usual { WhoIsServedGetsThrough }
    ensures with_runs { WhoIsServedGetsThroughWithRuns }
{}

/// There are turns, any number of them, from any world that two ends can come to in which no end was reset or aborted.
/// Some list of calm events contains that many turns, and no end is reset or aborted in it. So the claim that who is
/// served gets through isn't empty.
pub fn turns_can_be_had()
    ensures usual { TurnsCanBeHad }
    ensures with_runs { TurnsCanBeHadWithRuns }
{}

/// Each burst ends: from any world that two ends can come to, a side that emits again and again, with no arrival
/// between, has nothing due after some number of emissions.
pub fn each_burst_ends()
    ensures usual { EachBurstEnds }
    ensures with_runs { EachBurstEndsWithRuns }
{}

/// What is left never grows: from any world that two ends can come to, over calm events, what was accepted and isn't
/// taken yet, and what isn't acknowledged yet, decreases or stays the same. Nothing more is accepted, and no user
/// closes. A FIN counts as one byte.
pub fn what_is_left_never_grows()
    ensures usual { WhatIsLeftNeverGrows }
    ensures with_runs { WhatIsLeftNeverGrowsWithRuns }
{}

/// Half turns get through, from any world that two ends can come to, while both are live, and one user didn't close or
/// one end has room for two bytes. Take whatever is calm and contains as many pairs of half turns as what is left, and
/// two more. After it all that was accepted is delivered, both ways, and acknowledged, unless an end is reset.
///
/// In a half turn of a side its retransmission timeout expires, and at once it emits one segment, or nothing. This
/// segment arrives; and where an acknowledgement is then pending at the other, one goes out at SND.NXT, alone or on new
/// text, and arrives. Between these anything calm may happen, the other side's half too: its timers and this side's,
/// segments sent again or not, old and damaged ones, and what strangers send who aren't on the path between the two (RFC
/// 5961, 1). So this is what two hosts do that have clocks of their own and send one segment after each timeout (RFC
/// 5681, 3.1). Where both have room for one byte, both may have sent a byte and a FIN beyond the other's window, and a
/// first segment never is the FIN: then they need not get through. What is left, as at `who_is_served_gets_through`.
pub fn half_turns_get_through()
    ensures usual { HalfTurnsGetThrough }
    ensures with_runs { HalfTurnsGetThroughWithRuns }
{}

/// There are half turns, any number of pairs of them, from any world in which both are live, and no end is reset or
/// aborted in them. So the claim that they get through isn't empty.
pub fn halves_can_be_had()
    ensures usual { HalvesCanBeHad }
    ensures with_runs { HalvesCanBeHadWithRuns }
{}
