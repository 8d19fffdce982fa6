ghost use Rattle.std.specs.Prelude.{◌≡◌, Some};
ghost use Rattle.tcp_conn.specs.Outcome.{call_error_number, call_error_text};

use crate::Ending;
use std::error::Error;
use std::fmt;
use tcp_wire::DecodeError;

/// Why a user call is refused (RFC 9293, 3.10.1 to 3.10.5). After a refusal the end is as it was.
#[derive(Clone, Copy, Debug, PartialEq, Eq)]
pub enum CallError {
    /// The end is CLOSED and was never opened.
    NotOpen,
    /// The end was opened already (RFC 9293, 3.10.1).
    AlreadyOpen,
    /// A `close` was accepted already (RFC 9293, 3.10.2 and 3.10.4).
    Closing,
    /// The connection has ended, in this way.
    Ended(Ending),
    /// The direction has accepted as many bytes as its limit allows.
    StreamFull,
    /// No peer is known yet: the end is in LISTEN.
    NotConnected,
}

impl CallError {
    /// The number under which the refusal is reported.
    pub fn number(self) -> u8
        ensures { result ≡ call_error_number self }
    {
        match self {
            CallError::NotOpen => 11,
            CallError::AlreadyOpen => 12,
            CallError::Closing => 13,
            CallError::Ended(_) => 14,
            CallError::StreamFull => 15,
            CallError::NotConnected => 16,
        }
    }
}

impl fmt::Display for CallError {
    ghost output = { λ e. Some (call_error_text e) };

    fn fmt<W: fmt::Write>(&self, f: &mut fmt::Formatter<W>) -> fmt::Result {
        f.write_str(match self {
            CallError::NotOpen => "the end was never opened",
            CallError::AlreadyOpen => "the end is open already",
            CallError::Closing => "the end is closing",
            CallError::Ended(_) => "the connection has ended",
            CallError::StreamFull => "the direction has carried all that it may",
            CallError::NotConnected => "no peer is known yet",
        })
    }
}

impl Error for CallError {}

/// What `receive` delivered (RFC 9293, 3.10.3).
#[derive(Clone, Copy, Debug, PartialEq, Eq)]
pub enum Received {
    /// So many bytes, at the start of the caller's buffer.
    Bytes(usize),
    /// No byte is unread, and more may come.
    Nothing,
    /// The peer closed, and all its bytes were delivered.
    EndOfStream,
}

/// What became of bytes that arrived (RFC 9293, 3.10.7).
#[derive(Clone, Copy, Debug, PartialEq, Eq)]
pub enum Arrival {
    /// The bytes are no segment. Nothing changed.
    Malformed(DecodeError),
    /// The segment is for another end, or from another peer. Nothing changed.
    NotMine,
    /// The segment was dropped; an answer may be pending.
    Dropped,
    /// The segment was taken.
    Processed,
}
