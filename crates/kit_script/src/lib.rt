//! Scripts of events at the two ends of one connection, read from their texts.
//!
//! [`read_script`] returns a [`Script`] of either version, with its ends' Configs and its events, each with its
//! [`Turn`]s; or the first bad line, a [`ScriptError`]. It runs nothing: `kit_report` does.
#![tactic(auto)]

mod error;
mod events;
mod line;
mod names;
mod script;
mod settings;
mod statement;

pub use error::ScriptError;
pub use names::{Kind, kind_name, kind_of, read_timer};
pub use script::{Script, Turn, read_script, read_script_bytes};
pub use settings::read_shift;
