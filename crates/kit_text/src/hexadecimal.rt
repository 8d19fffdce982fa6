//! Hexadecimal digits over lanes: 32 at a time are read as 16 bytes, and 16 bytes written as 32.
ghost use Rattle.std.specs.Prelude.{◌≡◌, ◌++◌, ◌+◌, ◌*◌, ◌≤◌, ℕ, List, length, take, drop, map, nat_lt, IsTrue, if◌then◌else◌, Some, None};
ghost use Rattle.std.specs.List.{list_all};
ghost use Rattle.std.specs.Result.{result_ok};
ghost use Rattle.std.specs.Prelude.{OnOk, string_bytes};
ghost use Rattle.hex.specs.Hex.{decode_of, decode_pairs, encode_lower};
ghost use Rattle.kit_text.specs.HexLanes.{lane_of, joined_pairs, digit_of, with_front};

use std::alloc::{AllocError, Allocator};
use std::simd::prelude::*;

/// How many bytes are made of a load of digits.
const LOAD: usize = 16;

/// How many bytes are written at a time, by way of room on the stack.
const BLOCK: usize = 64;

/// The value of each digit, and 16 or more for any other byte.
#[inline(always)]
fn values(digits: u8x32) -> u8x32
    ensures { result ≡ map lane_of digits }
{
    let numeral = digits - u8x32::splat(b'0');
    let letter = (digits | u8x32::splat(0x20)) - u8x32::splat(b'a');
    numeral.simd_lt(u8x32::splat(10)).select(
        numeral,
        letter.simd_min(u8x32::splat(245)) + u8x32::splat(10),
    )
}

/// Whether each value is that of a digit.
#[inline(always)]
fn are_digits(values: u8x32) -> bool
    ensures { result ≡ list_all (λ v. nat_lt v 16) values }
{
    values.simd_ge(u8x32::splat(16)).to_bitmask() == 0
}

/// Each two values as one byte. A lane is read with its lowest byte first, so that its low byte is the high digit.
#[inline(always)]
fn join(values: u8x32) -> u8x16
    ensures { result ≡ joined_pairs values }
{
    let pairs = u16x16::from_le_bytes(values);
    let joined = (pairs << u16x16::splat(4)) + (pairs >> u16x16::splat(8));
    (joined & u16x16::splat(0xff)).cast::<u8>()
}

/// Decodes 32 digits as 16 bytes, if all are digits.
#[inline(always)]
fn decode_load(digits: &[u8], bytes: &mut [u8]) -> bool
    requires digits { 32 ≤ length digits.now }
    requires room { 16 ≤ length bytes.old }
    ensures len { length bytes.new ≡ length bytes.old }
    ensures read { IsTrue result → (i : ℕ) → (rest : List ℕ) → decode_pairs i (take 32 digits.now ++ rest) ≡ with_front (take 16 bytes.new) (decode_pairs (i + 32) rest) }
{
    let values = values(u8x32::from_slice(digits));
    if !are_digits(values) {
        return false;
    }
    join(values).copy_to_slice(bytes);
    true
}

/// Decodes digits, two for each byte of `bytes`. Returns whether all are digits.
pub(crate) fn decode_digits(digits: &[u8], bytes: &mut [u8]) -> bool
    requires { length digits.now ≡ 2 * length bytes.old }
    ensures { result_ok (decode_of digits.now) ≡ (if result then Some bytes.new else None) }
{
    let mut i = 0;
    while bytes.len() - i >= LOAD && decode_load(&digits[2 * i..], &mut bytes[i..]) {
        i += LOAD;
    }
    hex::decode_to_slice(&digits[2 * i..], &mut bytes[i..]).is_ok()
}

/// The lower case digit of each value below 16.
#[inline(always)]
fn lower_digits(values: u8x16) -> u8x16
    ensures { result ≡ map digit_of values }
{
    values
        + values
            .simd_gt(u8x16::splat(9))
            .select(u8x16::splat(b'a' - 10), u8x16::splat(b'0'))
}

/// Writes 16 bytes as 32 digits.
#[inline(always)]
fn encode_load(bytes: &[u8], digits: &mut [u8])
    requires bytes { 16 ≤ length bytes.now }
    requires room { 32 ≤ length digits.old }
    ensures len { length digits.new ≡ length digits.old }
    ensures written { take 32 digits.new ≡ encode_lower (take 16 bytes.now) }
{
    let load = u8x16::from_slice(bytes);
    let high = lower_digits(load >> u8x16::splat(4));
    let low = lower_digits(load & u8x16::splat(0x0f));
    let pairs: u8x32 = high.shuffle(
        low,
        [
            0, 16, 1, 17, 2, 18, 3, 19, 4, 20, 5, 21, 6, 22, 7, 23, 8, 24, 9, 25, 10, 26, 11, 27,
            12, 28, 13, 29, 14, 30, 15, 31,
        ],
    );
    pairs.copy_to_slice(digits);
}

/// Writes bytes in lower case digits, two for each.
fn encode_digits(bytes: &[u8], digits: &mut [u8])
    requires { length digits.old ≡ 2 * length bytes.now }
    ensures { digits.new ≡ encode_lower bytes.now }
{
    let mut i = 0;
    while bytes.len() - i >= LOAD {
        encode_load(&bytes[i..], &mut digits[2 * i..]);
        i += LOAD;
    }
    let _ = hex::encode_to_slice(&bytes[i..], &mut digits[2 * i..]);
}

/// Appends at most 64 bytes in lower case digits.
fn push_block<A: Allocator>(text: &mut String<A>, bytes: &[u8]) -> Result<(), AllocError>
    requires { length bytes.now ≤ 64 }
    ensures { OnOk result (string_bytes text.new ≡ string_bytes text.old ++ encode_lower bytes.now) }
{
    let mut room = [0u8; 2 * BLOCK];
    let digits = &mut room[..2 * bytes.len()];
    encode_digits(bytes, digits);
    text.push_str(unsafe { std::str::from_utf8_unchecked(digits) })
}

/// Appends bytes in lower case digits.
pub(crate) fn push_digits<A: Allocator>(
    text: &mut String<A>,
    bytes: &[u8],
) -> Result<(), AllocError>
    ensures { OnOk result (string_bytes text.new ≡ string_bytes text.old ++ encode_lower bytes.now) }
{
    let Some(len) = bytes.len().checked_mul(2) else {
        return Err(AllocError);
    };
    text.reserve(len)?;
    let mut rest = bytes;
    while rest.len() > BLOCK {
        let (block, behind) = rest.split_at(BLOCK);
        push_block(text, block)?;
        rest = behind;
    }
    push_block(text, rest)
}
