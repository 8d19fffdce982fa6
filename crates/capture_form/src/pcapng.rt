//! Captures in the pcapng form (draft-ietf-opsawg-pcapng): sections, each of interfaces and of the packets that were seen
//! at them.
//!
//! - [`read`] lists the frames of a capture that lies in memory, and tells whether packets are missing and where reading
//!   ends.
//! - [`Section`] takes one block after another, for what reads a capture in parts.
//! - Read are section headers, interface descriptions, enhanced and simple packets, and interface statistics. Blocks of
//!   other types are passed over. Packets are missing where a block tells of drops, or is an obsolete packet block.
//! - A block is damaged, and ends reading, where it has more than 16,777,216 bytes, where the two lengths in it differ,
//!   where it is of another version than 1, where its packet's interface isn't described, or where it describes an
//!   interface behind 4,096 others of its section or one of which a second has 2^64 units or more.
mod block;
mod interface;
pub mod laws;
mod options;
mod reading;
mod section;

pub use block::is_section;
pub use interface::Interface;
pub use reading::{Reading, read};
pub use section::{Section, Step};
