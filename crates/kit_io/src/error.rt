//! Why not all bytes were read or written.
use thiserror::Error;

/// Why an input isn't read to its end.
#[derive(Clone, Copy, Debug, PartialEq, Eq, Error)]
pub enum ReadError {
    /// A read failed.
    #[error("the input can't be read")]
    Fault,
    /// There is no memory for what was read.
    #[error("no memory for what was read")]
    NoMemory,
}

/// A write or the flush failed, or a write returned 0 for bytes that aren't empty.
#[derive(Clone, Copy, Debug, PartialEq, Eq, Error)]
#[error("the output can't be written")]
pub struct WriteFault;
