//! The two halves of an end of a TCP connection (RFC 9293, 3.3.1), and what both depend on.
//!
//! - [`Sender`]: SND.UNA, SND.NXT, SND.WND, the queue, and what has to be sent again; [`Sent`] is what it emits.
//! - [`Receiver`]: RCV.NXT, what came in order and out of order, and the peer's FIN.
//! - [`Config`] is what an end is made from, [`Link`] what both SYNs agreed on, [`Peer`] the other end.
//!
//! The end itself, with its phases, calls, arrivals and emissions, is in `tcp_conn`.
#![tactic(auto)]

mod acceptable;
mod config;
mod lending;
mod link;
mod marks;
mod options;
mod receiver;
mod sender;
mod sent;

pub use acceptable::is_acceptable;
pub use config::{Config, ConfigError, DEFAULT_LIMIT, MAX_LIMIT, MAX_MSS, MAX_SHIFT, MIN_MSS};
pub use link::{Link, Peer, WaitingReset};
pub use options::{DEFAULT_MSS, link_of};
pub use receiver::Receiver;
pub use sender::Sender;
pub use sent::Sent;
