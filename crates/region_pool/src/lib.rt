//! An allocator over memory that its user passes to it, which hands out again what is freed: pieces of a size go back to
//! the pieces of that size. It is for tables that grow and shrink as long as a program runs; a
//! [`Region`](region_heap::Region) is for what stays.
#![tactic(auto)]

mod piece;
mod pool;
mod store;

pub use pool::Pool;
