//! The text forms of scripts, lists and reports: lines, words, numbers, addresses and bytes are read; bytes, blocks,
//! options, segments and faults are written.
//!
//! [`Lines`] goes over a text's lines, `read_..` read a word or return a [`LineError`], and `push_..` append to one
//! `String`. The meaning of a line as a whole is left to the crates above: scripts (`kit_script`), reports
//! (`kit_report`) and listings (`kit_commands`).
#![tactic(auto)]

mod addresses;
mod bytes;
mod control_bits;
mod cutting;
mod faults;
mod hexadecimal;
mod line;
mod lines;
mod meaning;
mod numbers;
mod options;
mod room;
mod segments;

pub use addresses::read_addr;
pub use bytes::{push_bytes, read_bytes};
pub use cutting::{SPACE, cut};
pub use faults::{push_fault, push_named_fault};
pub use line::LineError;
pub use lines::Lines;
pub use meaning::push_meaning;
pub use numbers::{push_number_word, push_word_number, read_number};
pub use options::{push_blocks, push_options};
pub use segments::{push_fields, push_raw_summary, push_summary};
