ghost use Rattle.std.specs.Prelude.{◌≡◌, ◌++◌, drop, length};
ghost use Rattle.tcp_conn.specs.Calls.{abort_answer, after_abort, after_acknowledge, after_close, after_closing, after_connect, after_listen, after_receive, after_send, close_answer, close_refusal, open_refusal, opening_answer, opening_refusal, receive_answer, receive_refusal, received_bytes, send_answer, send_refusal, with_abort};
ghost use Rattle.tcp_conn.specs.State.{IsWithin};

use crate::endpoint::Endpoint;
use crate::outcome::{CallError, Received};
use crate::phase::{Ending, Phase};
use crate::phases::{discards, is_closed, is_ended, is_listening, resets_on_abort, takes_text};
use std::alloc::Allocator;
use tcp_halves::{Peer, WaitingReset};
use tcp_wire::Addr;

impl<A: Allocator> Endpoint<A> {
    /// Opens a connection to this address and port: SYN-SENT (RFC 9293, 3.10.1). `Ended` where one has ended, else
    /// `AlreadyOpen` in any phase but CLOSED.
    #[tactic(auto, unfolding(crate::specs::Calls::after_connect))]
    pub fn connect(&mut self, addr: Addr, port: u16) -> Result<(), CallError>
        ensures answer { result ≡ opening_answer self.old }
        ensures state { self.new ≡ after_connect self.old (record { addr = addr; port = port }) }
        ensures within { IsWithin self.new }
    {
        // So that the proof knows the invariant of an end.
        let _ = &self.config;
        if let Some(refusal) = self.opening_refusal() {
            return Err(refusal);
        }
        self.phase = Phase::SynSent;
        self.peer = Peer { addr, port };
        self.sender.send_syn();
        self.pending.syn = true;
        Ok(())
    }

    /// Waits for a peer: LISTEN (RFC 9293, 3.10.1). Refused as `connect` is.
    #[tactic(auto, unfolding(crate::specs::Calls::after_listen))]
    pub fn listen(&mut self) -> Result<(), CallError>
        ensures answer { result ≡ opening_answer self.old }
        ensures state { self.new ≡ after_listen self.old }
        ensures within { IsWithin self.new }
    {
        // So that the proof knows the invariant of an end.
        let _ = &self.config;
        if let Some(refusal) = self.opening_refusal() {
            return Err(refusal);
        }
        self.phase = Phase::Listen;
        Ok(())
    }

    /// Why an opening is refused.
    fn opening_refusal(&self) -> Option<CallError>
        ensures { result ≡ opening_refusal self.now }
    {
        if is_ended(self.ending) {
            return Some(CallError::Ended(self.ending));
        }
        if !is_closed(self.phase) {
            return Some(CallError::AlreadyOpen);
        }
        None
    }

    /// Why a call on a connection is refused.
    fn open_refusal(&self) -> Option<CallError>
        ensures { result ≡ open_refusal self.now }
    {
        if is_ended(self.ending) {
            return Some(CallError::Ended(self.ending));
        }
        if is_closed(self.phase) {
            return Some(CallError::NotOpen);
        }
        None
    }

    /// Accepts the longest prefix of `text` that fits the send queue and the limit of the direction, and returns its
    /// length; before ESTABLISHED the bytes wait (RFC 9293, 3.10.2). `Ended` or `NotOpen` where there is no connection,
    /// `NotConnected` in LISTEN, `Closing` after a `close`. `StreamFull` where the direction has accepted as many bytes
    /// as the limit of the [`Config`](crate::Config) allows and `text` isn't empty.
    #[tactic(auto, unfolding(crate::specs::Calls::after_send))]
    pub fn send(&mut self, text: &[u8]) -> Result<usize, CallError>
        ensures answer { result ≡ send_answer self.old text.now }
        ensures state { self.new ≡ after_send self.old text.now }
        ensures within { IsWithin self.new }
    {
        // So that the proof knows the invariant of an end.
        let _ = &self.config;
        if let Some(refusal) = self.send_refusal(text) {
            return Err(refusal);
        }
        Ok(self.sender.send(self.config.limit, text))
    }

    /// Why `send` is refused.
    fn send_refusal(&self, text: &[u8]) -> Option<CallError>
        ensures { result ≡ send_refusal self.now text.now }
    {
        if let Some(refusal) = self.open_refusal() {
            return Some(refusal);
        }
        if is_listening(self.phase) {
            return Some(CallError::NotConnected);
        }
        if self.closing {
            return Some(CallError::Closing);
        }
        if !text.is_empty() && self.config.limit <= self.sender.accepted_count() {
            return Some(CallError::StreamFull);
        }
        None
    }

    /// Delivers the longest prefix of the unread bytes that fits `out`, at its start; the rest of `out` is unchanged
    /// (RFC 9293, 3.10.3). Where none is unread: `EndOfStream` if the peer has closed, as often as asked, else
    /// `Nothing`. `Ended` after a reset or an abort, `NotOpen` where nothing was opened.
    #[tactic(auto, unfolding(crate::specs::Calls::after_receive))]
    pub fn receive(&mut self, out: &mut [u8]) -> Result<Received, CallError>
        ensures answer { result ≡ receive_answer self.old (length out.old) }
        ensures bytes { let bytes = received_bytes self.old (length out.old) in out.new ≡ bytes ++ drop (length bytes) out.old }
        ensures state { self.new ≡ after_receive self.old (length out.old) }
        ensures within { IsWithin self.new }
    {
        // So that the proof knows the invariant of an end.
        let _ = &self.config;
        if let Some(refusal) = self.receive_refusal() {
            return Err(refusal);
        }
        let nothing = self.receiver.inbox.unread() == 0;
        let was_shut = self.advertised_window() == 0;
        let count = self.receiver.read(out);
        let opens = takes_text(self.phase) && was_shut && self.advertised_window() > 0;
        self.pending.ack = self.pending.ack || opens;
        if !nothing {
            return Ok(Received::Bytes(count));
        }
        if self.receiver.finished {
            Ok(Received::EndOfStream)
        } else {
            Ok(Received::Nothing)
        }
    }

    /// Why `receive` is refused.
    pub(crate) fn receive_refusal(&self) -> Option<CallError>
        ensures { result ≡ receive_refusal self.now }
    {
        if discards(self.ending) {
            return Some(CallError::Ended(self.ending));
        }
        if is_closed(self.phase) && !is_ended(self.ending) {
            return Some(CallError::NotOpen);
        }
        None
    }

    /// Makes an acknowledgement pending, which advertises the window as it is now. It is for a user who has read, and
    /// decides that the window has grown by enough (RFC 9293, 3.8.6.2.2). This is in ESTABLISHED, FIN-WAIT-1 and
    /// FIN-WAIT-2, where the peer's text is taken; in any other phase nothing changes.
    #[tactic(auto, unfolding(crate::specs::Calls::after_acknowledge))]
    pub fn acknowledge(&mut self)
        ensures state { self.new ≡ after_acknowledge self.old }
        ensures within { IsWithin self.new }
    {
        // So that the proof knows the invariant of an end.
        let _ = &self.config;
        self.pending.ack = self.pending.ack || takes_text(self.phase);
    }

    /// The user has no more to send (RFC 9293, 3.10.4). In LISTEN and SYN-SENT the connection ends as aborted; in
    /// SYN-RECEIVED the close waits. `Ended` or `NotOpen` where there is no connection, `Closing` after an earlier
    /// `close`.
    #[tactic(auto, unfolding(crate::specs::Calls::after_close))]
    pub fn close(&mut self) -> Result<(), CallError>
        ensures answer { result ≡ close_answer self.old }
        ensures state { self.new ≡ after_close self.old }
        ensures within { IsWithin self.new }
    {
        // So that the proof knows the invariant of an end.
        let _ = &self.config;
        if let Some(refusal) = self.close_refusal() {
            return Err(refusal);
        }
        self.take_close();
        Ok(())
    }

    /// Why `close` is refused.
    fn close_refusal(&self) -> Option<CallError>
        ensures { result ≡ close_refusal self.now }
    {
        if let Some(refusal) = self.open_refusal() {
            return Some(refusal);
        }
        if self.closing {
            return Some(CallError::Closing);
        }
        None
    }

    /// Closes in the phase that the end is in.
    fn take_close(&mut self)
        ensures { self.new ≡ after_closing self.old }
    {
        self.closing = true;
        match self.phase {
            Phase::Listen | Phase::SynSent => self.end_by(Ending::Aborted),
            Phase::Established => self.phase = Phase::FinWait1,
            Phase::CloseWait => self.phase = Phase::LastAck,
            _ => {}
        }
    }

    /// Aborts the connection, with a reset to a peer that may know of it (RFC 9293, 3.10.5). `Ended` or `NotOpen` where
    /// there is no connection.
    #[tactic(auto, unfolding(crate::specs::Calls::after_abort))]
    pub fn abort(&mut self) -> Result<(), CallError>
        ensures answer { result ≡ abort_answer self.old }
        ensures state { self.new ≡ after_abort self.old }
        ensures within { IsWithin self.new }
    {
        // So that the proof knows the invariant of an end.
        let _ = &self.config;
        if let Some(refusal) = self.open_refusal() {
            return Err(refusal);
        }
        self.take_abort();
        Ok(())
    }

    /// Aborts in the phase that the end is in.
    fn take_abort(&mut self)
        ensures { self.new ≡ with_abort self.old }
    {
        if resets_on_abort(self.phase) {
            self.pending.reset = Some(WaitingReset {
                to: self.peer,
                seq: self.number_of(self.sender.snd_nxt),
                ack: None,
            });
        }
        self.end_by(Ending::Aborted);
    }
}
