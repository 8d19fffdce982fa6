//! What one end has sent and the other has taken (RFC 9293, 3.3.1), whatever happened.
ghost use Rattle.tcp_progress.specs.Sent.{NothingIsTakenBeforeItIsSent};
ghost use Rattle.tcp_progress.specs.WithRuns.{NothingIsTakenBeforeItIsSentWithRuns};

/// Nothing is taken before it is sent, after every list of events (RFC 9293, 3.3.1 and 3.4). Once an end has its peer's
/// SYN, its RCV.NXT is at most the peer's SND.NXT, both as positions. Each byte that it keeps out of order is below the
/// peer's SND.NXT. Each segment that an end emitted, unless it is a reset, ends at its SND.NXT at most, its SYN and FIN
/// counted.
pub fn nothing_is_taken_before_it_is_sent()
    ensures usual { NothingIsTakenBeforeItIsSent }
    ensures with_runs { NothingIsTakenBeforeItIsSentWithRuns }
{}
