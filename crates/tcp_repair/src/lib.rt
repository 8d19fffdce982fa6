//! One end with its times, its congestion window and its policy, that also finds by time what is lost (RACK-TLP: RFC 8985), so that
//! its caller has none of this to write.
//!
//! - [`Repairing`]: a [`Connection`](tcp_connection::Connection), with or without a recovery. Without one each call is the
//!   connection's.
//! - [`Recovery`]: what was sent when, what of it is lost, and when a probe goes out; [`LeastTrip`] and [`LongestTrip`] are
//!   the least and the longest round trip of late.
//! - [`Reporting`]: what it asks of an end for that.
//! - [`laws`]: what follows, whatever the end and the window are and whatever is called.
//!
//! The caller's loop is that of a connection. With a recovery a lost segment goes out again about a round trip and a quarter after
//! it was sent, once something that was sent later has come, which needs blocks, on which both SYNs have to agree (RFC 2018, 2);
//! and where the last of what was sent is lost, it goes out again after two round trips. Without blocks the first two segments
//! do then, once until the first is acknowledged.
#![tactic(auto)]

mod arriving;
mod deadlines;
mod emitting;
mod going;
mod hearing;
pub mod laws;
mod recovery;
mod repairing;
mod reporting;
mod seen;
mod timed;
mod trips;
mod using;
mod wired;

pub use recovery::Recovery;
pub use repairing::Repairing;
pub use reporting::Reporting;
pub use trips::{LeastTrip, LongestTrip};
