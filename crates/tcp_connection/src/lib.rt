//! One end with its times, under a congestion window, that also decides when an acknowledgement and a small segment go out, so
//! that its caller has none of this to write.
//!
//! - [`Connection`]: a [`Flow`](tcp_flow::Flow) whose acknowledgements wait for a second full segment (RFC 9293, 3.8.6.3),
//!   whose text waits for a segment that is worth it (3.8.6.2.1 and 3.7.4), that advertises a window once it has grown
//!   (3.8.6.2.2), that doesn't answer everything (RFC 5961, 7), and that answers the peer's SYN again by the SYN,ACK again.
//! - [`Policy`]: which of these it does, and how long.
//! - [`Deferring`]: what it asks of an end for that.
//! - [`laws`]: what follows, whatever the end and the window are and whatever is called.
//!
//! The caller's loop is that of a [`tcp_driver`]: it waits for a segment or for [`Connection::poll_at`], passes what has come,
//! makes its own calls, emits until the answer is `None`, and calls `timeout`, behind which it emits again.
#![tactic(auto)]

mod connection;
mod deferring;
mod going;
mod hearing;
pub mod laws;
mod policy;
mod segment;
mod trains;
mod using;
mod wired;

pub use connection::Connection;
pub use deferring::{Deferring, Kind, Next};
pub use policy::Policy;
