//! A log of one end of a TCP connection judged, and the judgement in words.
//!
//! A line of a log is `came SOURCE DESTINATION HEX` or `went SOURCE DESTINATION HEX`: bytes that came to the end, and
//! bytes that it sent. [`judge_text`] judges a whole log, and reports in [`Report`] each segment that was sent and
//! breaks a rule of `tcp_judge`, or the first of each rule ([`Shown`]). Where the log isn't complete no rule is tried of
//! order or against what came, which a line of the report says, and a wrong checksum is a note. A log in which the end
//! sent nothing is never clean. [`LogError`] has each way in which there is no report.
#![tactic(auto)]

mod error;
mod finding;
mod judging;
mod packet;
mod report;

pub use error::LogError;
pub use finding::{is_damage, push_rule, rule_of, wants_whole_log};
pub use report::{Report, Shown, judge_text};
