//! Numbers and bytes that look random, made from a seed.
ghost use Rattle.std.specs.Prelude.{◌≡◌, ◌<◌, ◌≤◌, ◌+◌, ℕ, length};

use std::alloc::{AllocError, Global};

/// A row of numbers that a seed determines, by splitmix64 (Steele, Lea and Flood, 2014).
#[derive(Drop)]
pub(crate) struct Random {
    state: u64,
}

impl Random {
    /// The row of a seed and of the number of a job.
    pub(crate) fn new(seed: u32, job: u32) -> Random {
        Random {
            state: (u64::from(job) << 32) | u64::from(seed),
        }
    }

    /// The next number.
    pub(crate) fn number(&mut self) -> u64 {
        self.state = self.state.wrapping_add(0x9e37_79b9_7f4a_7c15);
        let mixed = (self.state ^ (self.state >> 30)).wrapping_mul(0xbf58_476d_1ce4_e5b9);
        let mixed = (mixed ^ (mixed >> 27)).wrapping_mul(0x94d0_49bb_1331_11eb);
        mixed ^ (mixed >> 31)
    }

    /// The next number, below `end`.
    pub(crate) fn below(&mut self, end: u32) -> u32
        requires { 0 < end }
        ensures { result < end }
    {
        (self.number() >> 32) as u32 % end
    }

    /// The next number, from `least` on and below `end`.
    pub(crate) fn between(&mut self, least: usize, end: usize) -> usize {
        if end <= least {
            return least;
        }
        let count = (end - least).min(1 << 31) as u32;
        least.saturating_add(self.below(count) as usize)
    }

    /// Whether something happens that happens so many times out of 1,000.
    pub(crate) fn happens(&mut self, times: u32) -> bool {
        self.below(1000) < times
    }
}

/// Bytes of which users send pieces, and their hexadecimal digits.
#[derive(Drop)]
pub(crate) struct Pool {
    bytes: Vec<u8>,
    digits: Vec<u8>,
}

/// How many bytes there are.
pub(crate) const POOL: usize = 1 << 16;

const DIGITS: &[u8; 16] = b"0123456789abcdef";

impl Pool {
    /// The bytes of a seed.
    pub(crate) fn new(alloc: Global, random: &mut Random) -> Result<Pool, AllocError> {
        let mut bytes = Vec::with_capacity(alloc, POOL)?;
        let mut digits = Vec::with_capacity(alloc, 2 * POOL)?;
        for _ in 0..POOL {
            let byte = (random.number() >> 56) as u8;
            bytes.push(byte)?;
            digits.push(DIGITS[usize::from(byte / 16)])?;
            digits.push(DIGITS[usize::from(byte % 16)])?;
        }
        Ok(Pool { bytes, digits })
    }

    /// The piece of `len` bytes from `at` on; none where it doesn't lie within.
    pub(crate) fn piece(&self, at: usize, len: usize) -> &[u8] {
        within(&self.bytes, at, len)
    }

    /// The digits of that piece.
    pub(crate) fn digits(&self, at: usize, len: usize) -> &[u8] {
        within(&self.digits, at.saturating_mul(2), len.saturating_mul(2))
    }
}

/// The `len` bytes from `at` on; none where there are fewer.
pub(crate) fn within(bytes: &[u8], at: usize, len: usize) -> &[u8] {
    if at > bytes.len() || len > bytes.len() - at {
        return &[];
    }
    &bytes[at..at + len]
}
