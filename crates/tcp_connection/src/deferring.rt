//! What a connection asks of an end beside what a flow does.
ghost use Rattle.std.specs.Prelude.{◌≡◌, is_some, option_map};

use tcp_driver::Sent;
use tcp_flow::Paced;

/// Of which kind what is due is.
#[derive(Clone, Copy, Debug, PartialEq, Eq)]
pub enum Kind {
    /// An acknowledgement without text (RFC 9293, 3.8.6.3).
    Acknowledgement,
    /// Text that is sent for the first time, also the byte of a zero-window probe (RFC 9293, 3.8.6.1).
    NewText,
    /// What never waits: text again, SYN, FIN, a reset.
    Other,
}

/// What is due.
#[derive(Clone, Copy, Debug, PartialEq, Eq)]
pub struct Next {
    /// Of which kind it is.
    pub kind: Kind,
    /// The segment.
    pub sent: Sent,
}

/// An end that a connection knows enough of to let what is due wait.
pub trait Deferring: Paced {
    ghost use Rattle.tcp_connection.specs.Insight.{Insight};

    /// What is known of it, as functions of its state.
    ghost insight: { Insight Self };

    /// What is due, if anything is.
    fn next(&self) -> Option<Next>
        ensures kind { option_map (λ next. next.kind) result ≡ insight.kind self.now }
        ensures sent { option_map (λ next. next.sent) result ≡ Self.machine.due self.now };

    /// Whether an acknowledgement is pending that may go alone.
    fn is_pending(&self) -> bool
        ensures { result ≡ is_some (Self.machine.alone self.now) };

    /// RCV.NXT, as a position of the peer's direction.
    fn rcv_nxt(&self) -> u64
        ensures { result ≡ insight.rcv_nxt self.now };

    /// SND.WND, in bytes.
    fn snd_wnd(&self) -> u64
        ensures { result ≡ insight.snd_wnd self.now };

    /// How many bytes of text are queued and weren't sent yet: D (RFC 9293, 3.8.6.2.1).
    fn unsent(&self) -> u64
        ensures { result ≡ insight.unsent self.now };

    /// The window that a segment advertises now, in bytes, as the peer reads it (RFC 9293, 3.1; RFC 7323, 2.3).
    fn window(&self) -> u64
        ensures { result ≡ insight.window self.now };

    /// The receive buffer, in bytes: RCV.BUFF (RFC 9293, 3.8.6.2.2).
    fn capacity(&self) -> u64
        ensures { result ≡ insight.capacity self.now };

    /// Whether it is in a synchronized state: none of CLOSED, LISTEN, SYN-SENT and SYN-RECEIVED (RFC 9293, 3.5.2).
    fn is_synchronized(&self) -> bool
        ensures { result ≡ insight.is_synchronized self.now };

    /// In SYN-RECEIVED alone, the number of the peer's SYN, which is the one before RCV.NXT (RFC 9293, 3.4).
    fn peer_syn(&self) -> Option<u32>
        ensures { result ≡ insight.peer_syn self.now };

    /// What was written as one isn't sent.
    fn discard(train: Self::Train);
}
