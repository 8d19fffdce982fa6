//! What an end certainly sends (RFC 9293, 3.8.1, 3.8.6.1 and 3.10.7.4, first), whatever came before it.
ghost use Rattle.tcp_progress.specs.Answered.{SpokenToAnswers};
ghost use Rattle.tcp_progress.specs.Resent.{FlightGoesOutAgain, UnsentGoesOut};

/// After the Retransmit timer everything that is in flight is sent again, whatever the peer has reported as received
/// (RFC 9293, 3.8.1). Take any position from SND.UNA on and below SND.NXT with a queued byte or the FIN. After some
/// emissions a segment is sent that begins at or before it and ends after it. None of these emissions moves SND.UNA or
/// SND.NXT, or takes a byte from the queue. The end is in a phase in which text is sent, has no reset or SYN pending,
/// and its text limit is at least 1.
pub fn what_is_in_flight_goes_out_again()
    ensures { FlightGoesOutAgain }
{}

/// Where nothing is in flight, and text waits or the FIN after a close, the Retransmit timer makes the next emission
/// cover SND.NXT and move it on. The window that the peer advertised doesn't matter: a byte of text is also sent at a
/// zero window (RFC 9293, 3.8.6.1). SND.UNA and the queued bytes stay what they are. The end is in a phase in which
/// text is sent, has no reset or SYN pending, and its text limit is at least 1. What has to be sent again ends at most
/// at SND.NXT.
pub fn what_is_unsent_goes_out()
    ensures { UnsentGoesOut }
{}

/// Who is spoken to answers (RFC 9293, 3.10.7.4, first). Take the Retransmit timer, some emissions, and then any
/// segment of the peer that isn't acceptable, as an old SYN. What is emitted next is at SND.NXT and acknowledges
/// RCV.NXT. None of these emissions moves SND.UNA or SND.NXT, or takes a byte from the queue. The segment is no reset,
/// and isn't taken for its acknowledgement at a zero window. The end is in ESTABLISHED or a later state, has no reset
/// or SYN pending, and its text limit is at least 1. What has to be sent again ends at most at SND.NXT.
pub fn who_is_spoken_to_answers()
    ensures { SpokenToAnswers }
{}
