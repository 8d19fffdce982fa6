//! Keep-alives (RFC 9293, 3.8.4): a peer of which nothing was heard for long is asked whether it is there, and one that never
//! answers is given up. They are off unless a user asks for them.
//!
//! - [`KeepAlive`]: when the peer of an end is asked, and when it is given up. A plain value without a clock or a socket: a
//!   time is a count of microseconds that the caller passes. [`KeepAliveRules`] say how long it waits, and how often it asks.
//! - [`may_ask`] says whether the peer of an [`Endpoint`](tcp_conn::Endpoint) may be asked, and [`write_keep_alive`] writes
//!   the segment that asks it, or [`write_keep_alive_partial`] for a device that sums it. The end stays as it is.
//! - [`laws`]: what follows of both, whatever happens: when a peer is asked and when it isn't, and what a keep-alive changes
//!   at the peer. At an open window that is what the peer's own call `acknowledge` changes.
#![tactic(auto)]

mod asking;
mod keep_alive;
pub mod laws;
mod rules;

pub use asking::{KEEP_ALIVE_LEN, may_ask, write_keep_alive, write_keep_alive_partial};
pub use keep_alive::{KeepAlive, KeepAliveAction};
pub use rules::{KeepAliveRules, LEAST_TIME, LEAST_UNANSWERED};
