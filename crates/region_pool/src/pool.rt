//! The allocator over a block that takes back what is freed.
ghost use Rattle.std.specs.Prelude.{◌≡◌, ◌<◌, ◌≤◌, ◌^◌, IfSome};
ghost use Rattle.region_heap.specs.Memory.{rounded};
ghost use Rattle.region_pool.specs.Pieces.{piece_token};

use crate::piece::{Bytes, Piece};
use crate::store::Store;
use region_heap::{Block, Region, UNIT};
use std::alloc::{AllocError, Allocator};
use std::cell::Cell;
use std::mem::size_of;

/// The greatest size of a piece.
const GREATEST: usize = (1 << 62) - 1;

/// Allocates from a block, each piece rounded up to a multiple of [`UNIT`]. What is freed is handed out again where a
/// piece of that size is asked for. It is for one thread at a time, and is shared by a reference.
#[derive(Drop)]
pub struct Pool {
    /// It is there whenever none of the functions below runs.
    store: Cell<Option<Box<Store, Region>>>,
}

impl Pool {
    /// A pool over a block, in which it lies, too: it isn't given back. `None` where the block is too small for it.
    #[must_use]
    pub fn leaked(block: Block) -> Option<&'static Pool> {
        let (own, rest) = block.split(size_of::<Pool>());
        let (place, rest) = rest.split(size_of::<Store>());
        let store = Box::new(Region::new(place), Store::new(rest)?).ok()?;
        let pool = Pool {
            store: Cell::new(Some(store)),
        };
        let pool = Box::new(Region::new(own), pool).ok()?;
        Some(&*Box::leak(pool))
    }

    /// Bytes that are enough, if there are so many and `align` isn't greater than [`UNIT`].
    fn take(&self, size: usize, align: usize) -> Option<Bytes>
        ensures { IfSome result (λ b. (b.size ≡ rounded size) × (size < 2 ^ 62) × (align ≤ 16)) }
    {
        if align > UNIT || size > GREATEST {
            return None;
        }
        let mut store = self.store.replace(None)?;
        let bytes = store.take(size.next_multiple_of(UNIT));
        self.store.set(Some(store));
        bytes
    }

    /// The bytes of what had this size aren't in use any more.
    fn give(&self, bytes: Bytes, size: usize)
        requires { (bytes.size ≡ rounded size) × (size < 2 ^ 62) }
    {
        let Some(mut store) = self.store.replace(None) else {
            return;
        };
        let size = size.next_multiple_of(UNIT);
        store.give(Piece { bytes, size });
        self.store.set(Some(store));
    }
}

unsafe impl Allocator for Pool {
    ghost dealloc_token = { λ _. piece_token };

    fn allocate(&self, size: usize, align: usize) -> Result<*mut u8, AllocError> {
        match self.take(size, align) {
            Some(bytes) => {
                let Bytes { at } = bytes;
                Ok(at)
            }
            None => Err(AllocError),
        }
    }

    unsafe fn deallocate(&self, ptr: *mut u8, size: usize, _align: usize) {
        self.give(Bytes { at: ptr }, size);
    }
}
