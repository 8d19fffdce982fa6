//! A number that depends on all results of a job, and on their order.
ghost use Rattle.std.specs.Prelude.{◌≤◌, ◌+◌, length};

use byteorder::{ByteOrder, LittleEndian};

/// The digest of what was added up to now.
#[derive(Drop)]
pub(crate) struct Digest {
    value: u64,
}

/// An odd number with many bits.
const FACTOR: u64 = 0x9e37_79b9_7f4a_7c15;

/// A value with one more number.
fn with(value: u64, number: u64) -> u64 {
    (value ^ number).wrapping_mul(FACTOR).rotate_left(29)
}

/// How many bytes are added at once.
const BLOCK: usize = 32;

impl Digest {
    /// Nothing was added.
    pub(crate) fn new() -> Digest {
        Digest { value: 1 }
    }

    pub(crate) fn value(&self) -> u64 {
        self.value
    }

    pub(crate) fn add(&mut self, number: u64) {
        self.value = with(self.value, number);
    }

    /// Adds bytes, and how many there are. Four sums run side by side, so that this takes little time beside what made
    /// the bytes.
    pub(crate) fn add_bytes(&mut self, bytes: &[u8]) {
        let (mut a, mut b, mut c, mut d) = (1, 2, 3, 4);
        let blocks = bytes.len() / BLOCK;
        for k in 0..blocks {
            let rest = &bytes[BLOCK * k..];
            a = with(a, LittleEndian::read_u64(rest));
            b = with(b, LittleEndian::read_u64(&rest[8..]));
            c = with(c, LittleEndian::read_u64(&rest[16..]));
            d = with(d, LittleEndian::read_u64(&rest[24..]));
        }
        self.add(a);
        self.add(b);
        self.add(c);
        self.add(d);
        for byte in &bytes[BLOCK * blocks..] {
            self.add(u64::from(*byte));
        }
        self.add(bytes.len() as u64);
    }
}
