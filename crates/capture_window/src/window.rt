ghost use Rattle.std.specs.Prelude.{◌≡◌, ◌≤◌, ◌<◌, ◌^◌, ◌++◌, [], None, OnOk, drop, length};

use kit_io::ReadError;
use std::alloc::{Allocator, Global};
use std::marker::Model;

/// What was read of an input and isn't taken yet. A clause sees it as these bytes.
#[derive(Debug, Drop)]
pub struct Window<A: Allocator = Global> {
    bytes: Vec<u8, A>,
    /// How many of them are taken.
    at: usize,
}

impl<A: Allocator> Model for Window<A> {
    ghost use Rattle.std.specs.Prelude.{ℕ, ◌≤◌, List, length, drop};

    ghost Value = { List ℕ };

    ghost view = { λ w. drop w.at w.bytes.items };

    ghost invariant = { λ w. w.at ≤ length w.bytes.items };
}

/// Lets the first `count` bytes go.
fn drop_front<A: Allocator>(bytes: &mut Vec<u8, A>, count: usize)
    requires { count ≤ length bytes.old.items }
    ensures { bytes.new.items ≡ drop count bytes.old.items }
{
    bytes.drain(..count);
}

impl<A: Allocator> Window<A> {
    /// Nothing was read.
    pub fn new(alloc: A) -> Self
        ensures { result ≡ [] }
    {
        Window {
            bytes: Vec::new(alloc),
            at: 0,
        }
    }

    /// What isn't taken yet.
    pub fn bytes(&self) -> &[u8]
        ensures { result.now ≡ self.now }
    {
        &self.bytes[self.at..]
    }

    /// Moves what isn't taken to the front.
    fn compact(&mut self)
        ensures { self.new ≡ self.old }
    {
        if self.at > 0 {
            drop_front(&mut self.bytes, self.at);
            self.at = 0;
        }
    }

    /// Adds bytes at the end. Where no more is left than was taken it is moved to the front first, so that in all no more
    /// bytes are moved than are read.
    pub(crate) fn push(&mut self, chunk: &[u8]) -> Result<(), ReadError>
        ensures kept { OnOk result (self.new ≡ self.old ++ chunk.now) }
        ensures room { OnOk result (length self.new < 2 ^ 63) }
    {
        if self.at >= self.bytes.len() - self.at {
            self.compact();
        }
        if self.bytes.extend_from_slice(chunk).is_err() {
            return Err(ReadError::NoMemory);
        }
        Ok(())
    }

    /// Takes the first `count` bytes.
    pub fn pass(&mut self, count: usize)
        requires { count ≤ length self.old }
        ensures { self.new ≡ drop count self.old }
    {
        self.at += count;
    }
}
