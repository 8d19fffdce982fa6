//! A piece of memory whose size is known.
ghost use Rattle.std.specs.Prelude.{◌≡◌, ℕ, ◌<◌, ◌%◌, ◌^◌, IfSome};
ghost use Rattle.region_heap.specs.Memory.{bytes_at};

use region_heap::UNIT;
use std::alloc::Allocator;
use std::marker::Model;

/// Uninitialized bytes, aligned to [`UNIT`], owned.
#[derive(Drop)]
pub(crate) struct Bytes {
    pub(crate) at: *mut u8,
    /// How many there are.
    pub ghost size: { ℕ },
}

impl Model for Bytes {
    ghost also_owns = { λ b. bytes_at b.at b.size };
}

impl Bytes {
    /// So many bytes of an allocator, which are never given back to it.
    pub(crate) fn of<A: Allocator>(alloc: &A, size: usize) -> Option<Bytes>
        requires { (size % 16 ≡ 0) × (size < 2 ^ 63) }
        ensures { IfSome result (λ b. b.size ≡ size) }
    {
        match alloc.allocate(size, UNIT) {
            Ok(at) => Some(Bytes { at }),
            Err(_) => None,
        }
    }
}

/// Bytes with their number.
#[derive(Drop)]
pub(crate) struct Piece {
    /// The bytes.
    pub(crate) bytes: Bytes,
    /// How many there are: a multiple of [`UNIT`].
    pub(crate) size: usize,
    pub ghost whole: { bytes.size ≡ size },
}
