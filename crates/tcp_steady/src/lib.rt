//! One end with its times, its congestion window, its policy and its loss recovery, whose silent peer is asked whether it is there
//! (RFC 9293, 3.8.4), and whose new text goes out spread over a round trip (RFC 9002, 7.7), so that its caller has none of this to
//! write.
//!
//! - [`Steady`]: a [`Repairing`](tcp_repair::Repairing), its [`KeepAlive`](tcp_keep_alive::KeepAlive) and its
//!   [`Pacer`](tcp_pacing::Pacer). Both are off unless a user asks for them: then each call is the connection's.
//! - [`laws`]: what follows, whatever the window is and whatever is called.
//!
//! The caller's loop is that of a connection. What isn't here is called of the connection inside, `steady.repairing`: what its user
//! sends and reads, and what is chosen of it.
#![tactic(auto)]

mod emitting;
mod hosted;
pub mod laws;
mod pacing;
mod steady;
mod timing;

pub use steady::Steady;
