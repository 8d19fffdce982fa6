//! How much may be in flight, and when data and acknowledgements go out. Plain values without a clock or a socket: a time
//! is a count of microseconds that the caller passes.
//!
//! - [`Reno`]: the congestion window (RFC 5681, with NewReno's recovery of RFC 6582 and the limited transmit of RFC 3042).
//! - [`Cubic`]: the congestion window of CUBIC (RFC 9438), with the same slow start and recovery.
//! - [`Congestion`]: what both can do.
//! - [`AnyWindow`]: none of them, or either, chosen as a connection runs.
//! - [`HyStart`]: how the first slow start of both grows, and ends where round trips become longer (RFC 9406), once these are measured.
//! - [`DelayedAck`]: when what came is acknowledged (RFC 9293, 3.8.6.3; RFC 5681, 4.2).
//! - [`Limiter`]: one answer in an interval (RFC 5961, 7).
//! - [`SwsAvoidance`]: when data are sent, without silly windows, and with the Nagle algorithm (RFC 9293, 3.8.6.2.1, 3.7.4).
//! - [`laws`]: what follows of them, however they are computed.
#![tactic(auto)]

mod any_window;
mod congestion;
mod cubic;
mod delayed_ack;
mod hystart;
pub mod laws;
mod limiter;
mod reno;
mod root;
mod sws_avoidance;

pub use any_window::AnyWindow;
pub use congestion::Congestion;
pub use cubic::Cubic;
pub use delayed_ack::{DELAY, DelayedAck, MAX_DELAY};
pub use hystart::HyStart;
pub use limiter::Limiter;
pub use reno::{MAX_LIMIT, MAX_SEGMENT, MAX_WINDOW, Reno};
pub use sws_avoidance::{OVERRIDE, SwsAvoidance};
