//! Why the program ends without its whole report.
use capture_ends::CaptureError;
use kit_io::{ReadError, WriteFault};
use kit_judge::LogError;
use std::alloc::AllocError;
use thiserror::Error;

/// The `Display` text is what the program writes after `tcpjudge: `. Up to 44 the numbers are those of `tcpkit`.
#[derive(Clone, Copy, Debug, PartialEq, Eq, Error)]
pub(crate) enum Fault {
    /// The words request no job.
    #[error("40")]
    BadWords,
    /// The first line of no form, counted from 1. Before any other it is the first with a byte above 7f.
    #[error("41 line {line}")]
    BadLine { line: usize },
    /// There is no memory.
    #[error("42")]
    NoMemory,
    /// The input couldn't be opened or read.
    #[error("43")]
    ReadFault,
    /// The output couldn't be written or flushed, or a write returned 0.
    #[error("44")]
    WriteFault,
    /// The log has no segment that the end sent, so that nothing was judged.
    #[error("45 no segment that the end sent")]
    NothingSent,
    /// The capture has no segment that could be judged.
    #[error("45 no segment of TCP over IPv4 or IPv6 that is whole")]
    NothingJudged,
    /// The capture ends in a record that is cut short, or damaged: what is before it was judged.
    #[error("46 the capture is cut short or damaged")]
    CutCapture,
    /// Whether a capture is complete isn't the caller's word.
    #[error("48 --complete is of logs; of a capture --at names the end where it was taken")]
    CompleteCapture,
}

impl From<ReadError> for Fault {
    fn from(error: ReadError) -> Fault {
        match error {
            ReadError::Fault => Fault::ReadFault,
            ReadError::NoMemory => Fault::NoMemory,
        }
    }
}

impl From<CaptureError> for Fault {
    fn from(error: CaptureError) -> Fault {
        match error {
            CaptureError::ReadFault => Fault::ReadFault,
            CaptureError::NoMemory => Fault::NoMemory,
        }
    }
}

impl From<AllocError> for Fault {
    fn from(_: AllocError) -> Fault {
        Fault::NoMemory
    }
}

impl From<WriteFault> for Fault {
    fn from(_: WriteFault) -> Fault {
        Fault::WriteFault
    }
}

impl From<LogError> for Fault {
    fn from(error: LogError) -> Fault {
        match error {
            LogError::BadLine { line } => Fault::BadLine { line },
            LogError::NoMemory => Fault::NoMemory,
        }
    }
}
