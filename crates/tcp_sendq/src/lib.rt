//! The bytes that one end of a TCP connection still keeps for its peer: those that were sent or wait to be sent, until
//! an acknowledgement releases them (RFC 9293, 3.3.1). It also has which of them the peer has reported as received by
//! selective acknowledgement (RFC 2018, 4 and 5).
//!
//! [`SendQueue`] is a list of at most [`MAX_CAPACITY`] bytes, of which some are marked, in no more runs than its number,
//! [`DEFAULT_RUNS`] where none is given. Only making one allocates, and only that can fail ([`QueueError`]). It knows
//! offsets from the front, not sequence numbers, and not what was sent: that is `tcp_halves`'.
#![tactic(auto)]

mod error;
mod marks;
mod queue;
mod ring;

pub use error::QueueError;
pub use queue::{DEFAULT_RUNS, MAX_CAPACITY, MAX_RUNS, SendQueue};
