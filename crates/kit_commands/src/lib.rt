//! The program's commands, over any input and output: they list the segments of a list, or replay a script, and write
//! the result.
//!
//! [`show`] and [`replay`] read their input to its end, write a whole listing or report, and flush. [`list_segments`]
//! and [`report_of`] make the listing and the report of a text alone. [`ToolError`] has each way in which they end
//! otherwise. The program's words are left to `kit_words`.
#![tactic(auto)]

mod errors;
mod listing;
mod packet;
mod replay_script;
mod show_list;

pub use errors::ToolError;
pub use listing::{Listing, list_segments};
pub use replay_script::{replay, report_of};
pub use show_list::show;
