//! What one end has pending (RFC 9293, 3.8.6 and 3.10.7).
use tcp_halves::WaitingReset;

/// What one end has pending: it has to be sent.
#[derive(Clone, Copy, Debug, PartialEq, Eq)]
pub struct Pending {
    /// A SYN, or in SYN-RECEIVED a SYN with its acknowledgement.
    pub syn: bool,
    /// An acknowledgement.
    pub ack: bool,
    /// One byte of new text past a zero window, a probe (RFC 9293, 3.8.6.1).
    pub probe: bool,
    /// A reset (RFC 9293, 3.5.2). At most one waits.
    pub reset: Option<WaitingReset>,
}
