//! Memory, owned as bytes.
ghost use Rattle.std.specs.Prelude.{◌≡◌, ℕ, ◌-◌, ◌≤◌, ◌<◌, ◌^◌, ◌%◌, IfSome};
ghost use types.Logic.{sem};
ghost use Rattle.region_heap.specs.Memory.{bytes_at};

use std::alloc::Allocator;
use std::marker::Model;

/// The unit of allocation in bytes, and its alignment.
pub const UNIT: usize = 16;

/// Uninitialized bytes, aligned to [`UNIT`].
#[repr(C)]
#[derive(Drop)]
pub struct Memory {
    pub(crate) at: *mut u8,
    /// How many bytes there are.
    pub ghost size: { ℕ },
}

impl Model for Memory {
    ghost also_owns = { λ m. bytes_at m.at m.size };
}

// It owns the bytes that it points to, and they are uninitialized.
unsafe impl Send for Memory {}

impl Memory {
    /// `size` bytes of an allocator, which are never freed.
    pub(crate) fn leaked<A: Allocator>(alloc: &A, size: usize) -> Option<Memory>
        requires { (size % 16 ≡ 0) × (size < 2 ^ 63) }
        ensures { IfSome result (λ m. m.size ≡ size) }
    {
        match alloc.allocate(size, UNIT) {
            Ok(at) => Some(Memory { at }),
            Err(_) => None,
        }
    }

    /// The first `front` bytes, and those after them.
    pub(crate) fn cut(self, front: usize) -> (Memory, Memory)
        requires { (front % 16 ≡ 0) × (front ≤ self.size) }
        ensures { (result.0.size ≡ front) × (result.1.size ≡ self.size - front) }
    {
        let Memory { at } = self;
        let rest = unsafe { at.add(front) };
        (Memory { at }, Memory { at: rest })
    }
}
