//! What the program `tcpkit` is requested to do and how it exits: its words, read by clap, and its exit status.
#![tactic(auto)]

mod command_line;
mod status;

pub use command_line::{Job, WordsError, read_words};
pub use status::exit_status;
