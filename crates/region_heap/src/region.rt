//! The allocator over a block.
ghost use Rattle.std.specs.Prelude.{◌≡◌, ◌^◌, ◌<◌, ◌≤◌, IfSome};
ghost use base.Fml.{ftrue};
ghost use Rattle.region_heap.specs.Memory.{rounded};

use crate::block::Block;
use crate::memory::{Memory, UNIT};
use std::alloc::{AllocError, Allocator};
use std::cell::Cell;

/// Allocates from the front of a block, each piece rounded up to a multiple of [`UNIT`]. What is freed isn't allocated
/// again.
#[derive(Drop)]
pub struct Region {
    free: Cell<Option<Block>>,
}

impl Region {
    /// A region of this block.
    pub fn new(block: Block) -> Region {
        Region {
            free: Cell::new(Some(block)),
        }
    }

    /// A piece from the front, if there is enough and `align` isn't greater than [`UNIT`].
    fn take(&self, size: usize, align: usize) -> Option<Memory>
        ensures { IfSome result (λ m. (m.size ≡ rounded size) × (size < 2 ^ 63) × (align ≤ 16)) }
    {
        let block = self.free.replace(None)?;
        if align > UNIT || size > block.size || size > isize::MAX as usize {
            self.free.set(Some(block));
            return None;
        }
        let (front, rest) = block.split(size);
        self.free.set(Some(rest));
        let Block { memory, size: _ } = front;
        Some(memory)
    }
}

unsafe impl Allocator for Region {
    ghost dealloc_token = { λ _ _ _. ftrue };

    fn allocate(&self, size: usize, align: usize) -> Result<*mut u8, AllocError> {
        match self.take(size, align) {
            Some(memory) => {
                let Memory { at } = memory;
                Ok(at)
            }
            None => Err(AllocError),
        }
    }

    unsafe fn deallocate(&self, _ptr: *mut u8, _size: usize, _align: usize) {}
}
