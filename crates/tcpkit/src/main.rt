//! `tcpkit decode FILE` reports the content of the segments of a list, and which are malformed. `tcpkit replay FILE`
//! replays a script of losses, repeats, reorderings and damage between the two ends of one TCP connection, and reports
//! the outcome of each event.
#![tactic(auto)]

mod program;

pub use kit_commands::{ToolError, replay, show};
pub use kit_io::{Counted, Input, Output};
pub use kit_script::{Script, ScriptError, Turn, read_script};
pub use kit_words::{Job, WordsError, read_words};
use std::process::ExitCode;
pub use tcp_conn::{
    Arrival, CallError, Config, ConfigError, Ending, Endpoint, Phase, Received, Timer,
};
pub use tcp_replay::{Event, Outcome, Side, StepError, World, WorldError};

fn main(rt: HostRuntime) -> ExitCode {
    ExitCode::from(program::run(&rt))
}
