//! TCP segments over IPv4 as bytes (RFC 9293, 3.1): read by their grammar, and written.
//!
//! - [`decode`] reads bytes as a [`Segment`], or returns the first fault, a [`DecodeError`]; [`encode`] writes one.
//! - [`RawSegment`] is a segment whose options stay where they came, for callers that need no list; [`OptionsLeft`]
//!   goes over them, as [`TcpOption`]s. `parse_vouched` reads one whose checksum a device has checked.
//! - [`Header`] is the fixed header's fields. [`write_around`] writes a segment around text that is at its offset
//!   already, [`write_around_partial`] does so for a device that computes the checksum, and [`write_front`] in front of
//!   text elsewhere.
//! - [`Seq`], [`Addr`], [`Flags`], the sums and [`laws`] are `tcp_numbers`'.
//!
//! It keeps no state and allocates nothing. Left out: IP's own header, options' meaning, and what a connection does
//! with a segment.
#![tactic(auto)]

mod decoding;
mod encoding;
mod fault;
mod front;
mod header;
mod option;
mod option_reading;
mod option_writing;
mod options_left;
mod partial;
mod raw;
mod segment;
mod vouched;

pub use decoding::decode;
pub use encoding::{encode, write_around};
pub use fault::DecodeError;
pub use front::write_front;
pub use header::{Header, text_offset};
pub use option::TcpOption;
pub use options_left::OptionsLeft;
pub use partial::write_around_partial;
pub use raw::RawSegment;
pub use segment::{HEADER_LEN, Segment};
pub use tcp_numbers::{Addr, Flags, Seq, checks, checksum, laws, word_sum};
