//! The report of a script: the outcome of each event between two new ends, and the states of both at the end and after
//! each event.
//!
//! [`make_report`] writes the program's [`Report`], [`make_steps`] the states of both ends after each event,
//! [`show_segment`] the meaning of one emitted segment, [`list_sent`] the bytes of all, [`show_rule`] the rule that
//! applies to an arrival, and [`show_numbers`] the sequence numbers and timers of both ends after an event. Each is a
//! function of the script, and fails only where there is no memory or for a Config ([`ReportError`]). `push_..` write
//! the answers of one end in words.
#![tactic(auto)]

mod answers;
mod ends;
mod error;
mod events;
mod names;
mod outcomes;
mod report;
mod rules;
mod sent;
mod shown;
mod states;
mod steps;
mod turns;

pub use answers::{push_arrival, push_receive, push_refused, push_segment, push_send};
pub use ends::show_numbers;
pub use error::ReportError;
pub use report::{Report, make_report};
pub use rules::show_rule;
pub use sent::list_sent;
pub use shown::show_segment;
pub use steps::make_steps;
