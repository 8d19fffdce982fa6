//! The words of a line.
ghost use Rattle.std.specs.Prelude.{◌≤◌, ◌^◌, IfOk};

use kit_text::{LineError, SPACE, cut, read_number};

/// The greatest number of a line.
const MAX_NUMBER: u64 = 1 << 62;

pub(crate) fn number(word: &[u8]) -> Result<u64, LineError>
    ensures { IfOk result (λ n. n ≤ 2 ^ 62) }
{
    match read_number(word, MAX_NUMBER) {
        Some(number) => Ok(number),
        None => Err(LineError::BadForm),
    }
}

/// The first number of some words, and the words after it.
pub(crate) fn first_number(words: &[u8]) -> Result<(u64, &[u8]), LineError>
    ensures { IfOk result (λ pair. pair.0 ≤ 2 ^ 62) }
{
    let (first, rest) = cut(SPACE, words);
    let first = number(first)?;
    Ok((first, rest.unwrap_or(b"")))
}
