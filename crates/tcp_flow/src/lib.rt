//! One end with its times, under a congestion window: a caller writes no line of either.
//!
//! - [`Flow`]: a [`Driver`](tcp_driver::Driver) whose window for what goes out is a [`Congestion`](tcp_congestion::Congestion),
//!   and which tells that what comes, what expires and what rests.
//! - [`Loss`]: what it is told by a caller that finds losses by itself.
//! - [`Paced`]: what it asks of an end for that.
#![tactic(auto)]

mod flow;
pub mod laws;
mod loss;
mod paced;
mod telling;
mod wired;

pub use flow::Flow;
pub use loss::Loss;
pub use paced::Paced;
