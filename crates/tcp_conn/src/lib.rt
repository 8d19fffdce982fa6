//! One end of a TCP connection as a plain value (RFC 9293, 3.3 to 3.10): user calls, timers and arriving bytes go in,
//! segments and bytes for the user come out.
//!
//! - [`Endpoint`] is made from a [`Config`]. The user calls `connect`, `listen`, `send`, `receive`, `close`, `abort`.
//!   `arrive` takes any bytes, `emit` writes the segment that is due, `timers` and `timer` are for the caller's clock.
//!   Nothing but `new` allocates.
//! - `take` is `arrive` with a report, [`Taken`]: the rule that applied ([`Judgement`]), what was acknowledged, what it
//!   brought. `transmit` is `emit` with one, [`Transmit`]: the kind of the segment, where it begins, and the length of
//!   its text.
//! - For congestion control: `transmit_within` emits what may go out within a window from SND.UNA, and `train_within`
//!   writes it as one, `emit_acknowledgement` an acknowledgement without data, and `resend_first` sends the first segment
//!   in flight again in place of all of them, `resend` what of them lies between two positions.
//! - Fewer copies and sums: `peek` lends what is unread ([`Lent`]) and `consume` removes it. `parts` lends the text of
//!   the segment that is due ([`Parts`]) and `sent` reports its emission. `arrive_vouched` takes what a device has
//!   checked, and `emit_partial` leaves the checksum to it. `emit_train` writes many segments as one ([`Train`]), for a
//!   device that cuts them.
//! - [`TimeWait`] is the TIME-WAIT record: it takes the place of an end in TIME-WAIT, without buffers.
//! - [`stray_reset`] answers a segment for which there is no end (RFC 9293, 3.10.7.1).
//! - [`laws`]: the invariant of an end, what close, abort and timers do in each phase, and that a TIME-WAIT record acts
//!   as its end.
//!
//! Left out: any clock, congestion control, urgent data, timestamps, simultaneous open and reopening.
#![tactic(auto)]

mod arrive;
mod buffers;
mod calls;
mod emit;
mod endings;
mod endpoint;
mod fault;
pub mod laws;
mod lending;
mod names;
mod new_end;
mod outcome;
mod pending;
mod phase;
mod phases;
mod status;
mod stray;
mod time_wait;
mod timers;
mod windows;

pub use arrive::brought::Brought;
pub use arrive::guard::Intake;
pub use arrive::judgement::Judgement;
pub use arrive::report::Taken;
pub use emit::parts::Parts;
pub use emit::train::{TRAIN_ROOM, Train};
pub use emit::transmit::{EMIT_ROOM, Kind, Transmit};
pub use emit::write::HEADER_ROOM;
pub use endpoint::Endpoint;
pub use lending::Lent;
pub use outcome::{Arrival, CallError, Received};
pub use phase::{Ending, Phase, Timer};
pub use status::Negotiated;
pub use stray::{RESET_LEN, stray_reset};
pub use tcp_halves::{
    Config, ConfigError, DEFAULT_LIMIT, MAX_LIMIT, MAX_MSS, MAX_SHIFT, MIN_MSS, Peer, WaitingReset,
};
pub use tcp_sendq::MAX_CAPACITY;
pub use time_wait::fields::TimeWaitFields;
pub use time_wait::record::{TIME_WAIT_LEN, TimeWait};
pub use timers::Timers;
