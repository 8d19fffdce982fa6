//! What an end reports of itself (RFC 9293, 3.10.6): its peer, what the two SYNs agreed on, and what it keeps for its
//! peer.
ghost use Rattle.std.specs.Prelude.{◌≡◌, ◌≤◌};
ghost use Rattle.tcp_halves.specs.Config.{max_mss};
ghost use Rattle.tcp_conn.specs.Due.{mss_in_use};
ghost use Rattle.tcp_conn.specs.Status.{in_flight_of, negotiated_of, peer_of, queued_of, room_of};

use crate::endpoint::Endpoint;
use std::alloc::Allocator;
use tcp_halves::Peer;

/// What the two SYNs agreed on, as it is in use (RFC 9293, 3.7.1; RFC 7323, 2.2 and 2.3; RFC 2018, 2).
#[derive(Clone, Copy, Debug, PartialEq, Eq, Hash)]
pub struct Negotiated {
    /// The most text bytes of a segment that this end emits, from 64 to 1460: the smaller of both maximum segment sizes
    /// (RFC 9293, 3.7.1). Options reduce it.
    pub mss: u16,
    /// Whether windows are scaled.
    pub scaling: bool,
    /// The shift of the windows that this end advertises, at most 14; 0 without scaling.
    pub own_shift: u8,
    /// The shift of the windows that the peer advertises, at most 14; 0 without scaling.
    pub peer_shift: u8,
    /// Whether selective acknowledgement is in use.
    pub sack: bool,
}

impl<A: Allocator> Endpoint<A> {
    /// The peer's address and port: from `connect` on, or from the SYN that came in LISTEN on, also after the
    /// connection has ended. `None` before (RFC 9293, 3.10.6, foreign socket).
    #[must_use]
    pub fn peer(&self) -> Option<Peer>
        ensures { result ≡ peer_of self.now }
    {
        if self.sender.snd_nxt == 0 {
            return None;
        }
        Some(self.peer)
    }

    /// The MSS in use in bytes: the smaller of the peer's and this end's maximum segment size (RFC 9293, 3.7.1).
    pub(crate) fn mss_in_use(&self) -> u16
        ensures value { result ≡ mss_in_use self.now }
        ensures most { result ≤ max_mss }
    {
        self.config.mss.min(self.link.peer_mss)
    }

    /// What the two SYNs agreed on, as it is in use; `None` until the peer's SYN was taken.
    #[must_use]
    pub fn negotiated(&self) -> Option<Negotiated>
        ensures { result ≡ negotiated_of self.now }
    {
        if !self.receiver.opened {
            return None;
        }
        Some(Negotiated {
            mss: self.mss_in_use(),
            scaling: self.link.scaling,
            own_shift: self.own_shift(),
            peer_shift: self.link.peer_shift,
            sack: self.link.sack,
        })
    }

    /// How many bytes of a long text `send` would accept now: as many as the send queue has room for, and at most what
    /// the direction may still carry.
    #[must_use]
    pub fn room(&self) -> usize
        ensures { result ≡ room_of self.now }
    {
        self.sender.room(self.config.limit)
    }

    /// The count of bytes that `send` accepted and no acknowledgement has released.
    #[must_use]
    pub fn queued(&self) -> usize
        ensures { result ≡ queued_of self.now }
    {
        self.sender.queue.len()
    }

    /// The count of text bytes that were sent and aren't acknowledged, those between SND.UNA and SND.NXT; at most
    /// [`queued`](Self::queued) (RFC 9293, 3.3.1). SYN and FIN aren't counted.
    #[must_use]
    pub fn in_flight(&self) -> usize
        ensures { result ≡ in_flight_of self.now }
    {
        self.sender.count_below(self.sender.snd_nxt)
    }
}
