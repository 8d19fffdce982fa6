//! Why a capture isn't judged to its end.
use kit_io::ReadError;
use std::alloc::AllocError;
use thiserror::Error;

/// Why a capture isn't judged to its end.
#[derive(Clone, Copy, Debug, PartialEq, Eq, Error)]
pub enum CaptureError {
    /// A read failed.
    #[error("the capture can't be read")]
    ReadFault,
    /// There is no memory for it.
    #[error("no memory for the capture")]
    NoMemory,
}

impl From<ReadError> for CaptureError {
    fn from(error: ReadError) -> CaptureError {
        match error {
            ReadError::Fault => CaptureError::ReadFault,
            ReadError::NoMemory => CaptureError::NoMemory,
        }
    }
}

impl From<AllocError> for CaptureError {
    fn from(_: AllocError) -> CaptureError {
        CaptureError::NoMemory
    }
}
