//! Numbers in text.
ghost use Rattle.std.specs.Prelude.{◌≡◌, ◌≤◌, ◌+◌, ◌++◌, ◌-◌, ◌*◌, ◌^◌, IfSome, IfNone, OnOk, decimal, length, string_bytes};
ghost use Rattle.kit_text.specs.Words.{has_leading_zero, number_of};

use crate::room::{ROOM, push_from, put, put_number};
use std::alloc::{AllocError, Allocator};

fn has_leading_zero(word: &[u8]) -> bool
    ensures { result ≡ has_leading_zero word.now }
{
    word.len() > 1 && word[0] == b'0'
}

/// The number with one more digit, where it fits.
fn with_digit(value: u64, digit: u8) -> Option<u64>
    requires { 48 ≤ digit }
    ensures fits { IfSome result (λ n. n ≡ 10 * value + (digit - 48)) }
    ensures above { IfNone result (2 ^ 64 ≤ 10 * value + (digit - 48)) }
{
    value.checked_mul(10)?.checked_add(u64::from(digit - b'0'))
}

/// The number of a word in decimal digits, without sign and without leading zeros, where it is at most `most`.
pub fn read_number(word: &[u8], most: u64) -> Option<u64>
    ensures value { result ≡ number_of most word.now }
    ensures most { IfSome result (λ n. n ≤ most) }
{
    if word.is_empty() || has_leading_zero(word) {
        return None;
    }
    let mut value = 0u64;
    for digit in word {
        if !digit.is_ascii_digit() {
            return None;
        }
        value = with_digit(value, *digit)?;
    }
    if value > most {
        return None;
    }
    Some(value)
}

/// Appends a word of at most 32 bytes, and then a number in decimal digits without leading zeros, in one append. `Err` is
/// want of memory.
pub fn push_word_number<A: Allocator>(
    text: &mut String<A>,
    word: &str,
    number: u64,
) -> Result<(), AllocError>
    requires { length word.now ≤ 32 }
    ensures { OnOk result (string_bytes text.new ≡ string_bytes text.old ++ (word.now ++ decimal number)) }
{
    let mut room = [0u8; ROOM];
    let at = put_number(&mut room, ROOM, number);
    let at = put(&mut room, at, word);
    push_from(text, &room, at)
}

/// Appends a number in decimal digits without leading zeros, and then a word of at most 32 bytes, in one append. `Err` is
/// want of memory.
pub fn push_number_word<A: Allocator>(
    text: &mut String<A>,
    number: u64,
    word: &str,
) -> Result<(), AllocError>
    requires { length word.now ≤ 32 }
    ensures { OnOk result (string_bytes text.new ≡ string_bytes text.old ++ (decimal number ++ word.now)) }
{
    let mut room = [0u8; ROOM];
    let at = put(&mut room, ROOM, word);
    let at = put_number(&mut room, at, number);
    push_from(text, &room, at)
}
