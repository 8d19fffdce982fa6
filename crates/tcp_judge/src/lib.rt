//! A judge of one end of a TCP connection, which is proved to accuse no correct one. It compares what an end sent with
//! the rules of form, of positions, of the order of text, of acknowledgements and of blocks (RFC 9293, 3.1 to 3.6 and
//! 3.10; RFC 7323, 2; RFC 2018, 2 to 4).
//!
//! - [`Judge`] takes what came and was sent in the order of the end, and returns a [`Finding`] for a segment that
//!   breaks a rule.
//! - [`judge_log`] goes over a whole log of [`Passage`]s, and returns the first.
//! - [`no_correct_end_is_accused`], [`no_short_stream_is_accused`] and [`no_acknowledgement_is_accused`] are the
//!   theorems, over every list of events of an end of `tcp_conn`.
//!
//! What is acknowledged is forgotten. What came is kept until then, also where the end refused it, so that the state isn't
//! bounded by what is in flight.
//!
//! Left out: windows that shrink, which block comes first, and when anything happens.
#![tactic(auto)]

mod answers;
mod edge;
mod finding;
mod form;
mod headline;
mod heard;
mod judge;
mod judging;
mod lookup;
mod passage;
mod positions;
mod reports;
mod run_list;
mod spans;
mod stream;
mod taken;

pub use finding::Finding;
pub use headline::{
    no_acknowledgement_is_accused, no_correct_end_is_accused, no_short_stream_is_accused,
};
pub use judge::Judge;
pub use judging::judge_log;
pub use passage::Passage;
