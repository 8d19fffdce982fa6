//! Why a log has no report.
ghost use Rattle.std.specs.Prelude.{◌≡◌};
ghost use Rattle.kit_judge.specs.declared.error.LogError.TheVariants as logs;

use std::alloc::AllocError;
use thiserror::Error;

/// Why a log has no report. The `Display` text is what the program writes after `tcpjudge: `.
#[derive(Clone, Copy, Debug, PartialEq, Eq, Error)]
pub enum LogError {
    /// The first line of no form, counted from 1. Before any other it is the first with a byte above 7f.
    #[error("41 line {line}")]
    BadLine { line: usize },
    /// There is no memory for it.
    #[error("42")]
    NoMemory,
}

impl From<AllocError> for LogError {
    ghost from_gives = { λ _ e. e ≡ logs.NoMemory };

    fn from(_: AllocError) -> LogError {
        LogError::NoMemory
    }
}
