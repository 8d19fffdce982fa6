ghost use Rattle.std.specs.Prelude.{◌≡◌, Some};
ghost use Rattle.tcp_reasm.specs.Refusals.{reasm_error_number, reasm_error_text};

use std::error::Error;
use std::fmt;

/// Why a reassembly can't be made.
#[derive(Clone, Copy, Debug, PartialEq, Eq)]
pub enum ReasmError {
    /// The capacity isn't from 1 to 1,048,576 bytes.
    BadCapacity,
    /// There is no memory for the capacity.
    NoMemory,
}

impl ReasmError {
    /// The number under which the refusal is reported, 21 or 22.
    pub fn number(self) -> u8
        ensures { result ≡ reasm_error_number self }
    {
        match self {
            ReasmError::BadCapacity => 21,
            ReasmError::NoMemory => 22,
        }
    }
}

impl fmt::Display for ReasmError {
    ghost output = { λ e. Some (reasm_error_text e) };

    fn fmt<W: fmt::Write>(&self, f: &mut fmt::Formatter<W>) -> fmt::Result {
        f.write_str(match self {
            ReasmError::BadCapacity => "the capacity is not from 1 to 1048576 bytes",
            ReasmError::NoMemory => "no memory for the capacity",
        })
    }
}

impl Error for ReasmError {}
