use thiserror::Error;

/// Why a script is refused. The `Display` text is what the program writes after `tcpkit: `.
#[derive(Clone, Copy, Debug, PartialEq, Eq, Error)]
pub enum ScriptError {
    /// The first line of no form, counted from 1. Before any other it is the first with a byte above 7f.
    #[error("41 line {line}")]
    BadLine { line: usize },
    /// There is no memory for it.
    #[error("42")]
    NoMemory,
}
