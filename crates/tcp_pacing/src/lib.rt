//! Pacing (RFC 9002, 7.7): what a congestion window allows of new text goes out spread over a round trip, not in one burst. A
//! plain value without a clock or a socket: a time is a count of microseconds that the caller passes.
//!
//! - [`Pacer`]: how much new text may go out now, and when more may.
//! - [`Pace`]: the window and the round trip from which it follows how fast.
//! - [`laws`]: what follows of both, whatever is called: no more goes out than the rate allows and two portions, and what waits
//!   goes on.
#![tactic(auto)]

pub mod laws;
mod pace;
mod pacer;

pub use pace::{INITIAL_WINDOW, MAX_SEGMENT, MAX_SRTT, MAX_WINDOW, PERIOD, Pace};
pub use pacer::Pacer;
