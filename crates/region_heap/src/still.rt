//! The allocator of what needs no more memory.
ghost use base.Fml.{ftrue};

use std::alloc::{AllocError, Allocator};

/// An allocator that has no memory, for what was made in a region: it ignores what is freed, as the region does.
#[repr(C)]
#[derive(Clone, Copy, Drop)]
pub struct Still {}

unsafe impl Allocator for Still {
    ghost dealloc_token = { λ _ _ _. ftrue };

    fn allocate(&self, _size: usize, _align: usize) -> Result<*mut u8, AllocError> {
        Err(AllocError)
    }

    unsafe fn deallocate(&self, _ptr: *mut u8, _size: usize, _align: usize) {}
}
