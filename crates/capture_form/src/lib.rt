//! Captures of packets in the pcap form (draft-ietf-opsawg-pcap) and the pcapng form: their frames, the packet in a frame,
//! and the TCP segment in a packet. A fault is no error: reading ends where the form does.
//!
//! - [`Frames`] goes over the frames of a capture that lies in memory; [`read`] lists them, and tells where reading ends.
//! - [`pcapng`] has the same of the pcapng form.
//! - [`packet_of`] is the IPv4 or IPv6 packet behind a link's header, and [`tcp_of`] the segment in a packet.
//! - [`stand_in`] is an address of IPv4 that stands in for one of IPv6 in checksums.
//! - [`laws`] has what holds of the form: what is written reads back, and a cut capture has the first frames.
#![tactic(auto)]

mod bytes;
mod extension;
mod form;
mod frame;
mod frames;
pub mod laws;
mod link;
mod order;
pub mod pcapng;
mod reading;
mod sums;
mod tcp;

pub use form::{Form, Unit, read_form};
pub use frame::Frame;
pub use frames::{Frames, is_damaged, read_record};
pub use link::packet_of;
pub use order::Order;
pub use reading::{Stop, read};
pub use sums::stand_in;
pub use tcp::{Found, tcp_of};
