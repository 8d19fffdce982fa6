//! An allocator over memory that its user passes to it: it requests none from anybody.
//!
//! A [`Block`] is the memory. A [`Region`] allocates from its front, and frees nothing: the user has the memory again
//! when all that was made in it is gone. [`Still`] is the allocator of what was made in a region and needs no more: it
//! has no memory, and its size is zero.
#![tactic(auto)]

mod block;
mod memory;
mod region;
mod still;

pub use block::Block;
pub use memory::{Memory, UNIT};
pub use region::Region;
pub use still::Still;
