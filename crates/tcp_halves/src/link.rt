use tcp_wire::{Addr, Seq};

/// The other end of a connection (RFC 9293, 3.10.6, foreign socket).
#[derive(Clone, Copy, Debug, PartialEq, Eq, Hash)]
pub struct Peer {
    /// Its address.
    pub addr: Addr,
    /// Its port.
    pub port: u16,
}

/// What the two SYNs agreed on (RFC 9293, 3.7.1; RFC 7323, 2.2; RFC 2018, 2).
#[derive(Clone, Copy, Debug, PartialEq, Eq)]
pub struct Link {
    /// The most text bytes of a segment that the peer accepts, at least 64.
    pub peer_mss: u16,
    /// Whether both SYNs offered to scale windows.
    pub scaling: bool,
    /// The shift of the windows that the peer advertises, at most 14; 0 without scaling.
    pub peer_shift: u8,
    /// Whether both SYNs permitted selective acknowledgement.
    pub sack: bool,
}

/// A reset that waits to be emitted (RFC 9293, 3.10.7.1).
#[derive(Clone, Copy, Debug, PartialEq, Eq)]
pub struct WaitingReset {
    /// Whom it goes to.
    pub to: Peer,
    /// Its sequence number.
    pub seq: Seq,
    /// What it acknowledges, if anything.
    pub ack: Option<Seq>,
}
