//! Counts the failures of readers and writers, the reads that met the end and the writes that no flush has followed,
//! for contracts alone; and with these, reads all bytes of an input and writes all bytes to an output.
//!
//! [`Counted`] is a reader or a writer with counts that take no memory. [`read_all`] and [`write_all`] work on any
//! [`Input`] and [`Output`], and return a [`ReadError`] or a [`WriteFault`]. It knows nothing of TCP.
#![tactic(auto)]

mod counted;
mod error;
mod tally;
mod transfer;

pub use counted::{Counted, Input, Output};
pub use error::{ReadError, WriteFault};
pub use transfer::{read_all, write_all};
