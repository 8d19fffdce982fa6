//! Bytes in hexadecimal; `-` is no bytes.
ghost use Rattle.std.specs.Prelude.{◌≡◌, ◌++◌, OnOk, string_bytes};
ghost use Rattle.kit_text.specs.Words.{bytes_of, Reads};
ghost use Rattle.kit_text.specs.Texts.{bytes_text};

use crate::hexadecimal::{decode_digits, push_digits};
use crate::line::LineError;
use std::alloc::{AllocError, Allocator};

const NO_BYTES: &[u8] = b"-";

/// The bytes of a word in hexadecimal digits of either case, two for each byte; `-` has none.
pub fn read_bytes<A: Allocator + Copy>(alloc: A, word: &[u8]) -> Result<Vec<u8, A>, LineError>
    ensures { Reads (λ bytes. bytes.items) result (bytes_of word.now) }
{
    if word == NO_BYTES {
        return Ok(Vec::new(alloc));
    }
    if word.is_empty() || word.len() % 2 != 0 {
        return Err(LineError::BadForm);
    }
    let mut bytes = vec![in alloc; 0u8; word.len() / 2]?;
    if !decode_digits(word, bytes.as_mut_slice()) {
        return Err(LineError::BadForm);
    }
    Ok(bytes)
}

/// Appends bytes in lower case hexadecimal, or `-` for none.
pub fn push_bytes<A: Allocator + Copy>(
    alloc: A,
    text: &mut String<A>,
    bytes: &[u8],
) -> Result<(), AllocError>
    ensures { OnOk result (string_bytes text.new ≡ string_bytes text.old ++ bytes_text bytes.now) }
{
    if bytes.is_empty() {
        return text.push_str("-");
    }
    // The digits go into the text itself, so that no memory is asked for on the way.
    let _ = alloc;
    push_digits(text, bytes)
}
