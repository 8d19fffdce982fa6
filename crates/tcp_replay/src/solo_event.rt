use tcp_conn::Timer;
use tcp_wire::Addr;

/// An event of one end (RFC 9293, 3.10).
#[derive(Debug, Drop)]
pub enum SoloEvent {
    /// The user opens a connection to this address and port (RFC 9293, 3.10.1).
    Connect(Addr, u16),
    /// The user waits for a peer (RFC 9293, 3.10.1).
    Listen,
    /// The user sends these bytes (RFC 9293, 3.10.2).
    Send(Vec<u8>),
    /// The user receives at most this many bytes (RFC 9293, 3.10.3).
    Receive(usize),
    /// The user has no more to send (RFC 9293, 3.10.4).
    Close,
    /// The user aborts the connection (RFC 9293, 3.10.5).
    Abort,
    /// The user makes an acknowledgement pending, which advertises the window (RFC 9293, 3.8.6.2.2).
    Acknowledge,
    /// A timer expires (RFC 9293, 3.10.8).
    Timer(Timer),
    /// The end emits the segment that is due, if there is one.
    Emit,
    /// The end emits the acknowledgement that is pending, if one is, whatever else is due.
    EmitAcknowledgement,
    /// The end sends the first segment in flight again, and nothing else of what is in flight.
    ResendFirst,
    /// The end sends what is in flight from the first of these positions on and before the second again, and nothing
    /// else of what is in flight. Positions count from the SYN, which is at 0.
    Resend(u64, u64),
    /// Bytes arrive, whoever sent them: source, destination and bytes (RFC 9293, 3.10.7).
    Arrive(Addr, Addr, Vec<u8>),
}
