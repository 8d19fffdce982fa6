//! Many ends of connections under one object: each is found by its pair of sockets (RFC 9293, 3.3.1), listeners by
//! theirs, and the next deadline of all, each by steps that go by the logarithm of how many there are.
//!
//! - [`Timed`], [`Used`], [`Trained`], [`Tuned`], [`Retiring`]: what an end is to a host: a driver, or a connection with its
//!   window and its policy, which may find losses by time.
//! - [`Host`]: the ends, all of one kind, TIME-WAIT records of ends that are gone ([`Record`]), and the listeners, each
//!   with its backlog. Segments, emissions, time and the calls of each end's user go through it, and the answers to
//!   strays.
//! - [`Arrived`]: what became of a segment; [`Place`]: whose turn it is, or who was told the time.
//! - [`Pair`], [`Socket`]: the four values of a connection, and the two of a listener.
//! - [`laws`]: what follows, whatever the ends are and whatever is called.
//!
//! The caller's loop, each turn at some time `now`:
//! 1. waits for a segment or for [`Host::poll_at`], whichever comes first,
//! 2. passes each segment that has come to [`Host::arrive`], or where a device has found its checksum right to
//!    [`Host::arrive_vouched`]. For a listener that it asks for a connection ([`asks`]) it opens an end, puts it there by
//!    [`Host::admit`], and passes the segment again; a stray, and what asks a listener for nothing, it passes to
//!    [`Host::stray`], and sends what that writes; what a full backlog drops it forgets,
//! 3. takes what [`Host::accept`] gives, and makes the calls of its users,
//! 4. calls [`Host::timeout`] until it is `None`,
//! 5. calls [`Host::emit`] and sends what it writes, until nobody waits. Before that an end may write by its handle, at once
//!    ([`Host::emit_by_id`]), or as one for a device that cuts and sums segments ([`Host::emit_train`]),
//! 6. has those ends retire that are in TIME-WAIT and that their users have read ([`Host::retire`]), and takes those
//!    away that have ended ([`Host::remove`]).
//!
//! Left out: what a listener's end is made of. What else an end has can't be called of it in a host: [`Host::end`] lends
//! an end to be looked at alone, and [`Host::remove`] gives it back. Whose turn it is writes one segment, and sums it: by
//! its handle alone an end writes some as one. A record takes what comes without the guard of its end's limits, sums it
//! also where a device has vouched for it, and answers each segment at once, whatever its policy was. How many records
//! there are isn't bounded: each lasts for TIME-WAIT. No end makes way for another: where a backlog is full of handshakes
//! that nobody goes on with, their own limit ends them ([`tcp_driver::Limits::handshake`]).
#![tactic(auto)]

mod arrived;
mod arriving;
mod backlog;
mod calls;
mod choosing;
mod door;
mod emitting;
mod guest;
mod host;
mod keeping;
pub mod laws;
mod pair;
mod place;
mod record;
mod repairing;
mod retiring;
mod roll;
mod strays;
mod timed;
mod trained;
mod tuned;
mod used;
mod using;

pub use arrived::Arrived;
pub use backlog::NotAdmitted;
pub use door::Door;
pub use guest::Guest;
pub use host::Host;
pub use keeping::NotOpened;
pub use pair::{Pair, Socket, asks, pair_of};
pub use place::Place;
pub use record::Record;
pub use retiring::{NotRetired, Retiring};
pub use timed::Timed;
pub use trained::Trained;
pub use tuned::Tuned;
pub use used::Used;
