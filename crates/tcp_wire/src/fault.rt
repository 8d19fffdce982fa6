ghost use Rattle.std.specs.Prelude.{◌≡◌, Some};
ghost use Rattle.tcp_wire.specs.Refusals.{decode_error_number, decode_error_text};

use std::error::Error;
use std::fmt;

/// Why bytes are no segment: the first fault that applies, in the order of the numbers (RFC 9293, 3.1).
#[derive(Clone, Copy, Debug, PartialEq, Eq)]
pub enum DecodeError {
    /// There are fewer than 20 bytes.
    TooShort,
    /// There are more than 65515 bytes.
    TooLong,
    /// The sum of pseudo-header and segment is no multiple of 65535 (RFC 9293, 3.1).
    BadChecksum,
    /// The data offset is below 5 words, or beyond the end of the segment.
    BadOffset,
    /// No option begins with the byte at this offset from the segment's first byte.
    BadOption { at: usize },
    /// The byte at this offset from the segment's first byte, after the end of the options, isn't zero.
    BadPadding { at: usize },
}

impl DecodeError {
    /// The number of the fault, from 1 to 6.
    pub fn number(self) -> u8
        ensures { result ≡ decode_error_number self }
    {
        match self {
            DecodeError::TooShort => 1,
            DecodeError::TooLong => 2,
            DecodeError::BadChecksum => 3,
            DecodeError::BadOffset => 4,
            DecodeError::BadOption { .. } => 5,
            DecodeError::BadPadding { .. } => 6,
        }
    }
}

impl fmt::Display for DecodeError {
    ghost output = { λ e. Some (decode_error_text e) };

    fn fmt<W: fmt::Write>(&self, f: &mut fmt::Formatter<W>) -> fmt::Result {
        match *self {
            DecodeError::TooShort => f.write_str("a segment has at least 20 bytes"),
            DecodeError::TooLong => f.write_str("a segment has at most 65515 bytes"),
            DecodeError::BadChecksum => f.write_str("the checksum is wrong"),
            DecodeError::BadOffset => f.write_str("the data offset is wrong"),
            DecodeError::BadOption { at } => write!(f, "no option begins at byte {at}"),
            DecodeError::BadPadding { at } => write!(f, "the padding at byte {at} is not zero"),
        }
    }
}

impl Error for DecodeError {}
