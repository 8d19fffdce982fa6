//! Reassembly of a peer's text (RFC 9293, 3.10.7.4): bytes that came out of order are kept until those before them
//! come, and are reported to the peer as blocks (RFC 2018, 4).
//!
//! [`Reassembly`] is what came in order and wasn't read, and what came out of order within the window. `place` reports
//! by [`Placed`] what a piece brought, `peek` lends what is unread. Only making one allocates, and only that can fail
//! ([`ReasmError`]). How many runs are kept out of order is its number, [`DEFAULT_RUNS`] where none is given. [`laws`]: runs
//! are maximal, and blocks are the newest first. It counts offsets from RCV.NXT, and knows no sequence number.
#![tactic(auto)]

pub use error::ReasmError;
pub use placed::Placed;
pub use reassembly::{DEFAULT_RUNS, MAX_CAPACITY, MAX_RUNS, Reassembly};

mod error;
pub mod laws;
mod lay;
mod piece;
mod placed;
mod reassembly;
mod ring;
mod rows;
mod table;
