//! Sums of words over lanes, a word in each lane of 16 bits: 32 bytes at a time of a long input, 16 of a short one.
ghost use Rattle.std.specs.Prelude.{◌≡◌, ◌+◌, ◌≤◌, ◌<◌, ℕ, length, take};
ghost use Rattle.tcp_numbers.specs.Checksum.{word_sum};
ghost use Rattle.tcp_numbers.specs.Lanes.{held, AtMost};

use std::simd::prelude::*;

/// The length in bytes of a load over sixteen lanes, and below that over eight.
const LOAD: usize = 32;

const SHORT_LOAD: usize = 16;

/// The most bytes that sixteen lanes can sum: 256 loads of at most 255 in each half of a word.
const BLOCK: usize = 8192;

/// Adds 32 bytes. A lane is read with its lowest byte first, so that its low byte is the high half of a word. The sums
/// of the lanes wrap; the sums of the low halves don't, and 256 times those taken from the lanes leave the sums of the
/// high ones.
#[inline(always)]
fn add_load(mixed: u16x16, lows: u16x16, bytes: &[u8]) -> (u16x16, u16x16)
    requires room { 32 ≤ length bytes.now }
    requires most { AtMost 65280 mixed lows }
    ensures sum { held result.0 result.1 ≡ held mixed lows + word_sum (take 32 bytes.now) }
    ensures most { (n : ℕ) → AtMost n mixed lows → AtMost (n + 255) result.0 result.1 }
{
    let lanes = u16x16::from_le_bytes(u8x32::from_slice(bytes));
    (mixed + lanes, lows + (lanes >> u16x16::splat(8)))
}

/// Adds 16 bytes to eight lanes, as `add_load` adds 32 to sixteen.
#[inline(always)]
fn add_short_load(mixed: u16x8, lows: u16x8, bytes: &[u8]) -> (u16x8, u16x8)
    requires room { 16 ≤ length bytes.now }
    requires most { AtMost 65280 mixed lows }
    ensures sum { held result.0 result.1 ≡ held mixed lows + word_sum (take 16 bytes.now) }
    ensures most { (n : ℕ) → AtMost n mixed lows → AtMost (n + 255) result.0 result.1 }
{
    let lanes = u16x8::from_le_bytes(u8x16::from_slice(bytes));
    (mixed + lanes, lows + (lanes >> u16x8::splat(8)))
}

/// The sum of the words in sixteen lanes.
#[inline(always)]
fn weigh(mixed: u16x16, lows: u16x16) -> u32
    ensures { result ≡ held mixed lows }
{
    let highs = mixed - (lows << u16x16::splat(8));
    let words = highs.cast::<u32>() * u32x16::splat(256) + lows.cast::<u32>();
    words.reduce_sum()
}

/// The sum of the words in eight lanes.
#[inline(always)]
fn weigh_short(mixed: u16x8, lows: u16x8) -> u32
    ensures { result ≡ held mixed lows }
{
    let highs = mixed - (lows << u16x8::splat(8));
    let words = highs.cast::<u32>() * u32x8::splat(256) + lows.cast::<u32>();
    words.reduce_sum()
}

/// The sum of the words of as many whole loads as there are in a short input, and the bytes after them.
#[inline(always)]
pub(crate) fn short_lane_sum(bytes: &[u8]) -> (u32, &[u8])
    requires { length bytes.now < 4096 }
    ensures sum { result.0 + word_sum result.1.now ≡ word_sum bytes.now }
    ensures short { length result.1.now < 16 }
{
    let mut mixed = u16x8::splat(0);
    let mut lows = u16x8::splat(0);
    let mut rest = bytes;
    while rest.len() >= SHORT_LOAD {
        (mixed, lows) = add_short_load(mixed, lows, rest);
        rest = &rest[SHORT_LOAD..];
    }
    (weigh_short(mixed, lows), rest)
}

/// The sum of the words of as many whole loads as there are and the lanes can sum, and the bytes after them.
#[inline(always)]
pub(crate) fn lane_sum(bytes: &[u8]) -> (u32, &[u8])
    requires { 32 ≤ length bytes.now }
    ensures sum { result.0 + word_sum result.1.now ≡ word_sum bytes.now }
    ensures fewer { length result.1.now < length bytes.now }
{
    let whole = bytes.len().min(BLOCK) / LOAD * LOAD;
    let mut mixed = u16x16::splat(0);
    let mut lows = u16x16::splat(0);
    let mut front = &bytes[..whole];
    while front.len() >= LOAD {
        (mixed, lows) = add_load(mixed, lows, front);
        front = &front[LOAD..];
    }
    (weigh(mixed, lows), &bytes[whole..])
}
