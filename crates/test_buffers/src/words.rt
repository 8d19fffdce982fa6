//! The words of a line.
ghost use Rattle.std.specs.Prelude.{◌≤◌, IfOk};

use kit_text::{LineError, SPACE, cut, read_number};

/// The greatest number of a line.
const MAX_NUMBER: u64 = 4_294_967_295;

pub(crate) fn number(word: &[u8]) -> Result<usize, LineError>
    ensures { IfOk result (λ n. n ≤ 4294967295) }
{
    match read_number(word, MAX_NUMBER) {
        Some(number) => Ok(number as usize),
        None => Err(LineError::BadForm),
    }
}

/// The capacity of a line, and the number of runs, where there is a second word.
pub(crate) fn capacity_and_runs(words: &[u8]) -> Result<(usize, Option<usize>), LineError> {
    let (capacity, runs) = cut(SPACE, words);
    let capacity = number(capacity)?;
    match runs {
        Some(runs) => Ok((capacity, Some(number(runs)?))),
        None => Ok((capacity, None)),
    }
}

pub(crate) fn two_numbers(words: &[u8]) -> Result<(usize, usize), LineError>
    ensures { IfOk result (λ pair. (pair.0 ≤ 4294967295) × (pair.1 ≤ 4294967295)) }
{
    let (first, rest) = cut(SPACE, words);
    let first = number(first)?;
    let second = number(rest.ok_or(LineError::BadForm)?)?;
    Ok((first, second))
}
