//! Both ends of each TCP connection of a capture, judged, and the report.
//!
//! [`open_capture`] reads which form a capture has, pcap or pcapng, and [`judge_capture`] reads it to its end, by a window;
//! a [`Watcher`] is told how far. [`report`] tells what was found, in words or as JSON.
#![tactic(auto)]

mod capture;
mod connections;
mod end_report;
mod error;
mod flow;
mod json;
mod judged_end;
mod notes;
mod paint;
mod side;
mod telling;
mod told;
mod watch;

pub use capture::{Capture, CaptureForm, Watcher, judge_capture, open_capture};
pub use error::CaptureError;
pub use paint::Paint;
pub use side::Host;
pub use telling::{Verdict, report};
