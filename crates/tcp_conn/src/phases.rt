//! What the states of a connection have in common (RFC 9293, 3.3.2), and how it ended.
ghost use Rattle.std.specs.Prelude.{◌≡◌};
ghost use Rattle.tcp_conn.specs.Phase.{discards, has_peer, is_closed, is_ended, is_handshake, is_listening, is_syn_received, is_time_wait, phase_after_fin, resets_on_abort, sends_text, takes_text};

use crate::phase::{Ending, Phase};

/// Whether there is no connection.
pub(crate) fn is_closed(phase: Phase) -> bool
    ensures { result ≡ is_closed phase }
{
    matches!(phase, Phase::Closed)
}

/// Whether it waits for a peer.
pub(crate) fn is_listening(phase: Phase) -> bool
    ensures { result ≡ is_listening phase }
{
    matches!(phase, Phase::Listen)
}

/// Whether the peer is known.
pub(crate) fn has_peer(phase: Phase) -> bool
    ensures { result ≡ has_peer phase }
{
    !is_closed(phase) && !is_listening(phase)
}

/// Whether this end's SYN, which answers the peer's, waits for its acknowledgement.
pub(crate) fn is_syn_received(phase: Phase) -> bool
    ensures { result ≡ is_syn_received phase }
{
    matches!(phase, Phase::SynReceived)
}

/// Whether both ends closed, and late segments may still come.
pub(crate) fn is_time_wait(phase: Phase) -> bool
    ensures { result ≡ is_time_wait phase }
{
    matches!(phase, Phase::TimeWait)
}

/// Whether this end's SYN waits for its acknowledgement.
pub(crate) fn is_handshake(phase: Phase) -> bool
    ensures { result ≡ is_handshake phase }
{
    matches!(phase, Phase::SynSent | Phase::SynReceived)
}

/// Whether the peer's text and FIN are taken.
pub(crate) fn takes_text(phase: Phase) -> bool
    ensures { result ≡ takes_text phase }
{
    matches!(
        phase,
        Phase::Established | Phase::FinWait1 | Phase::FinWait2
    )
}

/// Whether an abort sends the peer a reset (RFC 9293, 3.10.5).
pub(crate) fn resets_on_abort(phase: Phase) -> bool
    ensures { result ≡ resets_on_abort phase }
{
    matches!(
        phase,
        Phase::SynReceived
            | Phase::Established
            | Phase::FinWait1
            | Phase::FinWait2
            | Phase::CloseWait
    )
}

/// The phase after the peer's FIN (RFC 9293, 3.10.7.4, eighth).
pub(crate) fn phase_after_fin(phase: Phase) -> Phase
    ensures { result ≡ phase_after_fin phase }
{
    match phase {
        Phase::Established => Phase::CloseWait,
        Phase::FinWait1 => Phase::Closing,
        Phase::FinWait2 => Phase::TimeWait,
        _ => phase,
    }
}

/// Whether text and FIN can be sent.
pub(crate) fn sends_text(phase: Phase) -> bool
    ensures { result ≡ sends_text phase }
{
    matches!(
        phase,
        Phase::Established | Phase::FinWait1 | Phase::CloseWait | Phase::Closing | Phase::LastAck
    )
}

/// Whether the connection has ended.
pub(crate) fn is_ended(ending: Ending) -> bool
    ensures { result ≡ is_ended ending }
{
    !matches!(ending, Ending::NotEnded)
}

/// Whether what was queued, unread or kept out of order was discarded.
pub(crate) fn discards(ending: Ending) -> bool
    ensures { result ≡ discards ending }
{
    matches!(ending, Ending::Reset | Ending::Aborted)
}
