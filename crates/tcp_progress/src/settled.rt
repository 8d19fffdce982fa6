//! Two ends can always progress (RFC 9293, 3.8), and the invariants of the two.
ghost use Rattle.tcp_progress.specs.Settled.{NoWorldIsStuck};
ghost use Rattle.tcp_progress.specs.Steady.{EveryWorldIsSteady};
ghost use Rattle.tcp_progress.specs.WithRuns.{EveryWorldIsSteadyWithRuns, NoWorldIsStuckWithRuns};

/// Every world is steady, after every list of events, from any two Configs, where segments live for 2^21 positions or
/// longer:
/// - the text that an end has sent ends, at most, its peer's receive capacity after the peer's RCV.NXT;
/// - the window that an end advertises fits its room, as its peer reads it (RFC 7323, 2.3);
/// - what has to be sent again was sent, and nothing is taken before it is sent;
/// - what is unread and the window make up the receive capacity, and the MSS in use is at least 64;
/// - each state says what it should of this end's FIN and the peer's (RFC 9293, 3.3.2), and the peer's port is known;
/// - once the peer has the FIN of an end in LAST-ACK, all that the peer sent is acknowledged to it.
pub fn every_world_is_steady()
    ensures usual { EveryWorldIsSteady }
    ensures with_runs { EveryWorldIsSteadyWithRuns }
{}

/// No world is stuck, however segments were lost, delayed, repeated, reordered or damaged, and whatever the users
/// called (RFC 9293, 3.8). While both ends are live there is a way on: some finite list of reads, timers, emissions and
/// deliveries, none of which is refused. It delivers every byte that was accepted and has it acknowledged. It delivers
/// the end of the stream where the other user closed, whose FIN is acknowledged. Where both users closed, both ends
/// then have ended in order; and no end was reset meanwhile. There is such a way, too, while one end is in SYN-SENT and
/// the other in LISTEN or SYN-RECEIVED; and once an end has ended in order, where the FIN of the other, which was
/// neither reset nor aborted, is acknowledged to it. Segments live for 2^21 positions or longer.
pub fn no_world_is_stuck()
    ensures usual { NoWorldIsStuck }
    ensures with_runs { NoWorldIsStuckWithRuns }
{}
