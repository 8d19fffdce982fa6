//! Words and numbers of lines, as bytes.
use std::alloc::AllocError;

/// Appends a number in decimal digits.
pub(crate) fn push_number(text: &mut Vec<u8>, number: u64) -> Result<(), AllocError> {
    let mut digits = [b'0'; 20];
    let mut rest = number;
    for place in 0..20 {
        let at = 19 - place;
        digits[at] = b'0' + (rest % 10) as u8;
        rest /= 10;
        if rest == 0 {
            return text.extend_from_slice(&digits[at..]);
        }
    }
    Ok(())
}

/// Appends words.
pub(crate) fn push_words(text: &mut Vec<u8>, words: &[u8]) -> Result<(), AllocError> {
    text.extend_from_slice(words)
}

/// Appends bytes in hexadecimal, 64 at once.
pub(crate) fn push_hex(text: &mut Vec<u8>, bytes: &[u8]) -> Result<(), AllocError> {
    let mut digits = [0; 128];
    for k in 0..bytes.len() / 64 + 1 {
        let from = 64 * k;
        let part = &bytes[from..bytes.len().min(from + 64)];
        let written = &mut digits[..2 * part.len()];
        if hex::encode_to_slice(part, written).is_err() {
            return Ok(());
        }
        text.extend_from_slice(written)?;
    }
    Ok(())
}
