//! The numbers of TCP (RFC 9293, 3.1 and 3.4), below the segments that carry them.
//!
//! - [`Seq`]: a sequence number, with the arithmetic and the order modulo 2^32; `position` gives the position in a
//!   stream.
//! - [`Addr`] and [`Flags`]: an IPv4 address, and the eight control bits with their names.
//! - [`word_sum`], [`checksum`] and [`checks`]: the sum of the words over lanes, and the field that makes a segment
//!   check. [`checksum_in_parts`] is for a segment in parts, [`partial_checksum`] for a device that computes the
//!   checksum.
//! - [`laws`]: the position near another is the only one with its number; offsets depend on numbers alone.
//!
//! It knows no form of a segment: that is `tcp_wire`'s, which exports all of this again.
#![tactic(auto)]

mod addr;
mod flags;
mod lanes;
pub mod laws;
mod parts;
mod seq;
mod sums;

pub use addr::Addr;
pub use flags::Flags;
pub use parts::{checksum_in_parts, partial_checksum};
pub use seq::Seq;
pub use sums::{checks, checksum, word_sum};
