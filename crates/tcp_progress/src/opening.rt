//! A connection can be opened once one end has sent its SYN and the other listens (RFC 9293, 3.5).
ghost use Rattle.tcp_progress.specs.Handshake.{HandshakesCanBeFinished, WhoIsServedOpens};
ghost use Rattle.tcp_progress.specs.WithRuns.{HandshakesCanBeFinishedWithRuns, WhoIsServedOpensWithRuns};

/// A handshake can be finished, however segments were lost, delayed, repeated, reordered or damaged, and whatever the
/// users called (RFC 9293, 3.5). One end is in SYN-SENT and the other in LISTEN or SYN-RECEIVED. Then there is a list
/// of at most eight retransmission timeouts, emissions and deliveries, none of which is refused. After it each end has
/// the other's SYN, and neither has ended. No user calls anything meanwhile. Segments live for 2^21 positions or
/// longer. Left out are two ends that are both in SYN-SENT, where a SYN without ACK is dropped, or both in LISTEN. So
/// is an end that was never opened, or has ended.
pub fn a_handshake_can_be_finished()
    ensures usual { HandshakesCanBeFinished }
    ensures with_runs { HandshakesCanBeFinishedWithRuns }
{}

/// Who is served while the connection is opened gets through, too (RFC 9293, 3.5 and 3.8). One end is in SYN-SENT and
/// the other in LISTEN or SYN-RECEIVED. Take calm events that contain as many turns of a caller's loop as what is left,
/// and three more. They open the connection, so that each end has the other's SYN, deliver all that was accepted, both
/// ways, and have it acknowledged, unless an end is reset. Once TIME-WAIT expires at both ends, both have ended in
/// order where both users closed. At most two of the turns open the connection. Calm events and turns are described at
/// `who_is_served_gets_through`. Segments live for 2^21 positions or longer.
pub fn who_is_served_opens()
    ensures usual { WhoIsServedOpens }
    ensures with_runs { WhoIsServedOpensWithRuns }
{}
