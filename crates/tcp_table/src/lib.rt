//! What keeps many ends of connections under one roof: which is due first, which is next in turn, and which has a name.
//! None of them knows what an end is. Making room walks over all that is held (`reserve`, and an insertion that has to
//! grow); no other call does.
//!
//! - [`Deadlines`]: the time at which each id is due, and the first of all; [`earlier`]: the earlier of two.
//! - [`Turns`]: the ids that wait for a turn, in the order in which they came.
//! - [`Table`]: values under keys, each in a slot: [`Held`] is what a slot has.
//! - [`Id`]: a handle of a value in a table, by which no other one is found, not even the next in its slot.
#![tactic(auto)]

mod deadlines;
mod held;
mod table;
mod turns;

pub use deadlines::{Deadlines, earlier};
pub use held::{Held, Id};
pub use table::Table;
pub use turns::Turns;
