ghost use Rattle.std.specs.Prelude.{◌≡◌, ◌≤◌, ◌+◌, length};
ghost use Rattle.tcp_halves.specs.Config.{stream_limit};
ghost use Rattle.tcp_halves.specs.Receiver.{rcv_position};

use crate::pending::Pending;
use crate::phase::{Ending, Phase};
use std::alloc::{Allocator, Global};
use std::marker::Model;
use tcp_halves::{Config, Link, Peer, Receiver, Sender};
use tcp_wire::Seq;

/// One end of a TCP connection (RFC 9293, 3.3). No call of it allocates memory once it is made.
#[derive(Debug, Drop)]
pub struct Endpoint<A: Allocator = Global> {
    /// What it was made from.
    pub(crate) config: Config,
    pub(crate) phase: Phase,
    pub(crate) ending: Ending,
    /// Whether a `close` was accepted.
    pub(crate) closing: bool,
    /// The other end, from `connect` or the peer's SYN on.
    pub(crate) peer: Peer,
    /// What the SYNs agreed on, once the peer's was taken.
    pub(crate) link: Link,
    pub(crate) sender: Sender<A>,
    pub(crate) receiver: Receiver<A>,
    /// What is pending.
    pub(crate) pending: Pending,
}

impl<A: Allocator> Model for Endpoint<A> {
    ghost use Rattle.tcp_conn.specs.State.{State};

    ghost Value = { State };

    ghost use Rattle.tcp_conn.specs.Endpoint.{IsEndpoint};

    ghost view = { λ e. record { config = e.config; phase = e.phase; ending = e.ending; closing = e.closing; peer = e.peer; link = e.link; sending = e.sender; receiving = e.receiver; pending = e.pending } };

    ghost invariant = { λ e. IsEndpoint e.config e.link e.sender.queue e.receiver.inbox };
}

impl<A: Allocator> Endpoint<A> {
    /// The state of the connection (RFC 9293, 3.3.2).
    #[must_use]
    pub fn phase(&self) -> Phase
        ensures { result ≡ self.now.phase }
    {
        self.phase
    }

    /// How the connection ended, if it did.
    #[must_use]
    pub fn ending(&self) -> Ending
        ensures { result ≡ self.now.ending }
    {
        self.ending
    }

    /// The [`Config`] that it was made from.
    #[must_use]
    pub fn config(&self) -> Config
        ensures { result ≡ self.now.config }
    {
        self.config
    }

    /// The count of bytes that came in order and wait for the user.
    #[must_use]
    pub fn unread(&self) -> usize
        ensures { result ≡ length self.now.receiving.inbox.unread }
    {
        self.receiver.inbox.unread()
    }

    /// SND.UNA (RFC 9293, 3.3.1) as a position of this end's direction: the oldest that isn't acknowledged. The SYN is
    /// at 0, byte i of the stream at 1 + i, the FIN after the last byte. 0 where no SYN was sent.
    #[must_use]
    pub fn snd_una(&self) -> u64
        ensures value { result ≡ self.now.sending.snd_una }
        ensures most { result ≤ 2 + stream_limit }
    {
        self.sender.snd_una
    }

    /// SND.NXT (RFC 9293, 3.3.1) as a position of this end's direction: the next to be sent for the first time. 0 where
    /// no SYN was sent.
    #[must_use]
    pub fn snd_nxt(&self) -> u64
        ensures value { result ≡ self.now.sending.snd_nxt }
        ensures most { result ≤ 2 + stream_limit }
    {
        self.sender.snd_nxt
    }

    /// RCV.NXT (RFC 9293, 3.3.1): the next number that this end expects of its peer; 0 where no SYN of the peer was
    /// taken.
    #[must_use]
    pub fn rcv_nxt(&self) -> Seq
        ensures { result.0 ≡ self.now.receiving.rcv_nxt }
    {
        self.receiver.rcv_nxt
    }

    /// RCV.NXT (RFC 9293, 3.3.1) as a position of the peer's direction: 1 and the bytes that came in order, and 1 more
    /// once the peer's FIN was taken. It stays at 2^64 - 1 once it has reached that.
    #[must_use]
    pub fn rcv_position(&self) -> u64
        ensures { result ≡ rcv_position self.now.receiving }
    {
        self.receiver
            .ordered
            .saturating_add(1)
            .saturating_add(u64::from(self.receiver.finished))
    }

    /// Whether a `close` was accepted (RFC 9293, 3.10.4).
    #[must_use]
    pub fn is_closing(&self) -> bool
        ensures { result ≡ self.now.closing }
    {
        self.closing
    }

    /// Whether the peer's FIN was taken (RFC 9293, 3.10.7.4, eighth).
    #[must_use]
    pub fn is_finished(&self) -> bool
        ensures { result ≡ self.now.receiving.finished }
    {
        self.receiver.finished
    }

    /// The count of text bytes that acknowledgements have released.
    #[must_use]
    pub fn released(&self) -> u64
        ensures { result ≡ self.now.sending.released }
    {
        self.sender.released
    }

    /// The count of text bytes that came in order, also after the connection has ended. It stays at 2^64 - 1 once it
    /// has reached that.
    #[must_use]
    pub fn ordered(&self) -> u64
        ensures { result ≡ self.now.receiving.ordered }
    {
        self.receiver.ordered
    }
}
