//! Why a send queue can't be made.
ghost use Rattle.std.specs.Prelude.{◌≡◌, Some};
ghost use Rattle.tcp_sendq.specs.Refusals.{queue_error_number, queue_error_text};

use std::error::Error;
use std::fmt;

/// Why [`SendQueue::new`](crate::SendQueue::new) made no queue.
#[derive(Clone, Copy, Debug, PartialEq, Eq)]
pub enum QueueError {
    /// The capacity isn't from 1 to [`MAX_CAPACITY`](crate::MAX_CAPACITY).
    BadCapacity,
    /// There is no memory for the capacity.
    NoMemory,
}

impl QueueError {
    /// The number under which the refusal is reported, 21 or 22.
    pub fn number(self) -> u8
        ensures { result ≡ queue_error_number self }
    {
        match self {
            QueueError::BadCapacity => 21,
            QueueError::NoMemory => 22,
        }
    }
}

impl fmt::Display for QueueError {
    ghost output = { λ e. Some (queue_error_text e) };

    fn fmt<W: fmt::Write>(&self, f: &mut fmt::Formatter<W>) -> fmt::Result {
        f.write_str(match self {
            QueueError::BadCapacity => "the capacity is not from 1 to 1048576 bytes",
            QueueError::NoMemory => "no memory for the capacity",
        })
    }
}

impl Error for QueueError {}
