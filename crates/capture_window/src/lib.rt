//! A capture by a window: what is held is the record that is read, and at most what two reads give beside it.
//!
//! [`open`] reads a capture's form, [`fill`] reads on until a record begins what a [`Window`] holds, and [`pass_record`]
//! takes it. [`wire_lengths`] is a run of these over a whole input, with the law that it misses no frame. For the pcapng
//! form [`fill_block`], [`pass_block`] and [`section_lengths`] are the same; a section keeps 4,096 interfaces at most.
//! [`take_frames`] and [`take_sections`] give each frame to a [`Taker`], and answer how many there are.
#![tactic(auto)]

mod reading;
mod sections;
mod taking;
mod window;

pub use reading::{fill, fill_to, open, pass_record, wire_lengths};
pub use sections::{fill_block, pass_block, section_lengths};
pub use taking::{Taker, take_frames, take_sections};
pub use window::Window;
