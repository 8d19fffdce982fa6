//! Why `show` or `replay` stops.
ghost use Rattle.std.specs.Prelude.{◌≡◌};
ghost use Rattle.kit_commands.specs.declared.errors.ToolError.TheVariants as tool;
ghost use Rattle.kit_commands.specs.Errors.{error_of_read, error_of_script, error_of_report};

use kit_io::{ReadError, WriteFault};
use kit_report::ReportError;
use kit_script::ScriptError;
use std::alloc::AllocError;
use tcp_conn::ConfigError;
use tcp_replay::Side;
use thiserror::Error;

/// Why `show` or `replay` ends without its whole report. The `Display` text is what the program writes after
/// `tcpkit: `.
#[derive(Clone, Copy, Debug, PartialEq, Eq, Error)]
pub enum ToolError {
    /// The first line of no form, counted from 1. Before any other it is the first with a byte above 7f.
    #[error("41 line {line}")]
    BadLine { line: usize },
    /// There is no memory.
    #[error("42")]
    NoMemory,
    /// The input couldn't be opened or read.
    #[error("43")]
    ReadFault,
    /// The output couldn't be written or flushed, or a write returned 0.
    #[error("44")]
    WriteFault,
    /// The end of this side can't be made of its Config; never because there is no memory.
    #[error("config {0} {number}", number = .1.number())]
    Config(Side, ConfigError),
}

impl From<AllocError> for ToolError {
    ghost from_gives = { λ _ e. e ≡ tool.NoMemory };

    fn from(_: AllocError) -> ToolError {
        ToolError::NoMemory
    }
}

impl From<ReadError> for ToolError {
    ghost from_gives = { λ error e. e ≡ error_of_read error };

    fn from(error: ReadError) -> ToolError {
        match error {
            ReadError::Fault => ToolError::ReadFault,
            ReadError::NoMemory => ToolError::NoMemory,
        }
    }
}

impl From<WriteFault> for ToolError {
    ghost from_gives = { λ _ e. e ≡ tool.WriteFault };

    fn from(_: WriteFault) -> ToolError {
        ToolError::WriteFault
    }
}

impl From<ScriptError> for ToolError {
    ghost from_gives = { λ error e. e ≡ error_of_script error };

    fn from(error: ScriptError) -> ToolError {
        match error {
            ScriptError::BadLine { line } => ToolError::BadLine { line },
            ScriptError::NoMemory => ToolError::NoMemory,
        }
    }
}

impl From<ReportError> for ToolError {
    ghost from_gives = { λ error e. e ≡ error_of_report error };

    fn from(error: ReportError) -> ToolError {
        match error {
            ReportError::Config(side, fault) => ToolError::Config(side, fault),
            ReportError::NoMemory => ToolError::NoMemory,
        }
    }
}
