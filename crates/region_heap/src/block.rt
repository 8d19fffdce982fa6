//! A block of memory whose size is known.
ghost use Rattle.std.specs.Prelude.{◌≡◌, ◌+◌, ◌-◌, ◌≤◌, ◌<◌, ◌^◌, ◌%◌, min, IfOk};
ghost use Rattle.region_heap.specs.Memory.{rounded};

use crate::memory::{Memory, UNIT};
use std::alloc::{AllocError, Allocator};

/// Memory of a known size in bytes. C passes it as a pointer and a length.
#[repr(C)]
#[derive(Drop)]
pub struct Block {
    /// Where its bytes are.
    pub memory: Memory,
    /// Its size in bytes: a multiple of [`UNIT`].
    pub size: usize,
    pub ghost whole: { (memory.size ≡ size) × (size % 16 ≡ 0) },
}

impl Block {
    /// A block of an allocator, its size rounded up to a multiple of [`UNIT`]. It is never freed: this is for a program
    /// that keeps its blocks as long as it runs. An error where there is no memory.
    pub fn leaked<A: Allocator>(alloc: &A, size: usize) -> Result<Block, AllocError>
        ensures { IfOk result (λ b. b.size ≡ rounded size) }
    {
        if size > isize::MAX as usize - UNIT {
            return Err(AllocError);
        }
        let size = size.next_multiple_of(UNIT);
        match Memory::leaked(alloc, size) {
            Some(memory) => Ok(Block { memory, size }),
            None => Err(AllocError),
        }
    }

    /// The front of the block and the rest of it. The front has `size` bytes rounded up to a multiple of [`UNIT`], or
    /// all where the block has no more.
    pub fn split(self, size: usize) -> (Block, Block)
        ensures front { result.0.size ≡ min (rounded size) self.size }
        ensures rest { result.1.size ≡ self.size - result.0.size }
    {
        let Block { memory, size: all } = self;
        let size = if size <= all {
            size.next_multiple_of(UNIT)
        } else {
            all
        };
        let (front, rest) = memory.cut(size);
        (
            Block {
                memory: front,
                size,
            },
            Block {
                memory: rest,
                size: all - size,
            },
        )
    }
}
