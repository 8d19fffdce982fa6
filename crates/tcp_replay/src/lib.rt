//! Two ends of one TCP connection and every segment that either emitted, as one value: events go in, and after every
//! list of them a prefix of what one user sent was delivered to the other.
//!
//! - [`World`] takes an [`Event`] by `step`, which returns an [`Outcome`] or a [`StepError`], and lists of them by
//!   `run`. Whatever was emitted can be delivered, also late, again, or with one byte changed.
//! - [`solo`] runs one end alone through [`SoloEvent`]s, arrivals of any bytes among them, and returns a [`SoloLog`].
//! - [`every_run_is_safe`] and [`one_end_is_true`] are the theorems, over every list of events;
//!   [`every_run_among_strangers_is_safe`] is the first of them while others send what they like to both ends.
//!
//! Left out: when anything happens. Laws of what certainly progresses are in `tcp_progress`.
#![tactic(auto)]

mod event;
mod growth;
mod headline;
mod outcome;
mod party;
mod segment;
mod solo_event;
mod solo_log;
mod world;

pub use event::{Event, Side};
pub use headline::{every_run_among_strangers_is_safe, every_run_is_safe, one_end_is_true};
pub use outcome::{Outcome, SoloError, StepError, WorldError};
pub use solo_event::SoloEvent;
pub use solo_log::{SoloLog, solo, solo_in, solo_with_runs, solo_with_runs_in};
pub use world::{MAX_LIFE, World};
