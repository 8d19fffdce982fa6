//! An end of a connection with a policy.
ghost use Rattle.std.specs.Prelude.{◌≡◌, ◌≤◌};
ghost use Rattle.tcp_halves.specs.Config.{max_shift};
ghost use Rattle.tcp_conn.specs.declared.emit.transmit.Transmit.{Transmit};
ghost use Rattle.tcp_end.specs.Wired.{sent_by};
ghost use Rattle.tcp_connection.specs.Wired.{kind_of, shift_of};

use crate::deferring::{Deferring, Kind, Next};
use std::alloc::Allocator;
use tcp_conn::{MAX_SHIFT, Negotiated, Phase, Train, Transmit};
use tcp_driver::Sent;
use tcp_end::Wired;

impl<A: Allocator> Deferring for Wired<A> {
    ghost use Rattle.tcp_connection.specs.Wired.{insight};

    ghost insight = { insight };

    fn next(&self) -> Option<Next> {
        let next = self.end.next_transmit()?;
        Some(Next {
            kind: kind_of(next.kind),
            sent: sent_by(next),
        })
    }

    #[tactic(auto, using(crate::proofs::Pending::pending_is))]
    fn is_pending(&self) -> bool {
        self.end.pending_acknowledgement().is_some()
    }

    fn rcv_nxt(&self) -> u64 {
        self.end.rcv_position()
    }

    fn snd_wnd(&self) -> u64 {
        let (_, snd_wnd) = self.end.windows();
        u64::from(snd_wnd)
    }

    fn unsent(&self) -> u64 {
        self.end.queued().saturating_sub(self.end.in_flight()) as u64
    }

    fn window(&self) -> u64 {
        let (rcv_wnd, _) = self.end.windows();
        let shift = shift_of(self.end.negotiated());
        u64::from((rcv_wnd >> shift).min(MAX_FIELD)) << shift
    }

    fn capacity(&self) -> u64 {
        self.end.config().recv_capacity as u64
    }

    fn is_synchronized(&self) -> bool {
        !matches!(
            self.end.phase(),
            Phase::Closed | Phase::Listen | Phase::SynSent | Phase::SynReceived
        )
    }

    fn peer_syn(&self) -> Option<u32> {
        if matches!(self.end.phase(), Phase::SynReceived) {
            Some(self.end.rcv_nxt().plus(u32::MAX).0)
        } else {
            None
        }
    }

    fn discard(_train: Train) {}
}

/// The greatest window field (RFC 9293, 3.1).
const MAX_FIELD: u32 = 65_535;

/// The shift of the windows that an end advertises.
fn shift_of(agreed: Option<Negotiated>) -> u8
    ensures value { result ≡ shift_of agreed }
    ensures most { result ≤ max_shift }
{
    match agreed {
        Some(agreed) => agreed.own_shift.min(MAX_SHIFT),
        None => 0,
    }
}

/// The kind of what is due.
fn kind_of(kind: tcp_conn::Kind) -> Kind
    ensures { result ≡ kind_of kind }
{
    match kind {
        tcp_conn::Kind::Acknowledgement => Kind::Acknowledgement,
        tcp_conn::Kind::NewText => Kind::NewText,
        _ => Kind::Other,
    }
}

/// What a driver is told of a segment.
fn sent_by(sent: Transmit) -> Sent
    ensures { result ≡ sent_by sent }
{
    let to = sent.to.0;
    Sent {
        to,
        len: sent.len,
        start: sent.position,
        count: sent.end.saturating_sub(sent.position),
    }
}
