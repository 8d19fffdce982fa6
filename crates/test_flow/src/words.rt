//! The words of a line.
use kit_text::{LineError, SPACE, cut, read_number};

/// The greatest number of a line.
const MAX_NUMBER: u64 = u64::MAX;

/// The first number of some words, and the words after it.
pub(crate) fn first_number(words: &[u8]) -> Result<(u64, &[u8]), LineError> {
    let (first, rest) = cut(SPACE, words);
    match read_number(first, MAX_NUMBER) {
        Some(number) => Ok((number, rest.unwrap_or(b""))),
        None => Err(LineError::BadForm),
    }
}

/// A time, or `-` for none.
pub(crate) fn first_limit(words: &[u8]) -> Result<(Option<u64>, &[u8]), LineError> {
    match cut(SPACE, words) {
        (b"-", rest) => Ok((None, rest.unwrap_or(b""))),
        _ => {
            let (number, rest) = first_number(words)?;
            Ok((Some(number), rest))
        }
    }
}

/// The first number of some words, where it is a byte.
pub(crate) fn first_byte(words: &[u8]) -> Result<(u8, &[u8]), LineError> {
    let (number, rest) = first_number(words)?;
    match u8::try_from(number) {
        Ok(byte) => Ok((byte, rest)),
        Err(_) => Err(LineError::BadForm),
    }
}
