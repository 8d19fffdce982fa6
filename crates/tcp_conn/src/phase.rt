/// The states of a connection (RFC 9293, 3.3.2).
#[derive(Clone, Copy, Debug, PartialEq, Eq, Hash)]
pub enum Phase {
    /// CLOSED: no connection.
    Closed,
    /// LISTEN: waits for a peer's SYN.
    Listen,
    /// SYN-SENT: this end's SYN is sent, and the peer's is awaited.
    SynSent,
    /// SYN-RECEIVED: both SYNs are sent, and the acknowledgement of this end's is awaited.
    SynReceived,
    /// ESTABLISHED: text goes both ways.
    Established,
    /// FIN-WAIT-1: this end has closed, and its FIN isn't acknowledged.
    FinWait1,
    /// FIN-WAIT-2: this end has closed, and its FIN is acknowledged.
    FinWait2,
    /// CLOSE-WAIT: the peer has closed.
    CloseWait,
    /// CLOSING: both ends have closed, and this end's FIN isn't acknowledged.
    Closing,
    /// LAST-ACK: the peer has closed first, then this end, whose FIN isn't acknowledged.
    LastAck,
    /// TIME-WAIT: both ends have closed, and this end's FIN is acknowledged; late segments may still come.
    TimeWait,
}

/// How a connection ended, if it did (RFC 9293, 3.10.4, 3.10.5 and 3.10.7).
#[derive(Clone, Copy, Debug, PartialEq, Eq, Hash)]
pub enum Ending {
    /// It hasn't ended.
    NotEnded,
    /// Both ends closed, and this end's FIN was acknowledged.
    Orderly,
    /// The peer reset it.
    Reset,
    /// The user aborted it.
    Aborted,
}

/// The timers of one end. The caller keeps the times, and reports when one expires.
#[derive(Clone, Copy, Debug, PartialEq, Eq, Hash)]
pub enum Timer {
    /// The retransmission timeout (RFC 9293, 3.8.1).
    Retransmit,
    /// The reordering timeout: after it, bytes before a reported block are taken for lost (RFC 2018, 5).
    Reorder,
    /// The TIME-WAIT timeout (RFC 9293, 3.10.8).
    TimeWait,
}
