//! One end of a TCP connection with its timers: an [`Endpoint`](tcp_conn::Endpoint) under a
//! [`Driver`](tcp_driver::Driver). Bytes and times go in, segments and the time of the next call come out.
//!
//! - [`connect`] and [`listen`] open an end and start its timers; [`End`] is what they make, a driver, whose calls are
//!   all that a program needs: `arrive`, `emit`, `timeout`, `poll_at`, `send`, `receive`, `close`, `abort`.
//! - [`Wired`] is how the driver sees an end. `end.core().end` has what an end reports of itself.
//!
//! Left out: congestion control. `emit` takes the window that the caller's has.
#![tactic(auto)]

mod wired;

pub use wired::{End, Wired, connect, listen};
