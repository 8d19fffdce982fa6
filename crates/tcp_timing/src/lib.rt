//! When a segment has to be sent again (RFC 6298): the retransmission timeout, and the round trips from which it is made.
//! Plain values without a clock: a time is a count of microseconds that the caller passes.
//!
//! - [`Estimator`]: SRTT, RTTVAR and RTO (RFC 6298, 2), and how the timeout is backed off (5.5 to 5.7).
//! - [`Watch`]: measures round trips, one at a time, of segments that were sent once (Karn's algorithm: RFC 6298, 3).
//! - [`laws`]: what follows of them, however they are computed.
#![tactic(auto)]

mod estimator;
pub mod laws;
mod round_trip;
mod rules;
mod watch;

pub use estimator::Estimator;
pub use round_trip::RoundTrip;
pub use rules::{LONGEST, Rules};
pub use watch::{Timed, Watch};
