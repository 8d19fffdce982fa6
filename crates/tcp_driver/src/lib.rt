//! One end with its times: bytes and times go in, segments and the time of the next call come out. It has no clock: a time
//! is a count of microseconds, which the caller passes, and which never goes back.
//!
//! - [`Core`]: what an end is to it: an end without a clock; [`holds`] says what it holds back.
//! - [`Row`]: what an end tells of segments that go out as one, for a device that cuts them.
//! - [`Driver`]: that end with its timers (RFC 6298, 5; RFC 9293, 3.8.3 and 3.10.8).
//! - [`Limits`]: how long an end waits before it is given up, how long TIME-WAIT is, and how far its guard reaches.
//! - [`laws`]: what follows, whatever the end is and whatever is called.
//!
//! The caller's loop, each turn at some time `now`:
//! 1. waits for a segment or for [`Driver::poll_at`], whichever comes first,
//! 2. passes each segment that has come to [`Driver::arrive`]; one that is answered by [`Taken::EmitFirst`] wasn't taken, and
//!    is passed again behind the emissions,
//! 3. makes its own calls,
//! 4. calls [`Driver::emit`] and sends what it writes, until it answers `None`,
//! 5. calls [`Driver::timeout`], and emits again where a timer has expired.
#![tactic(auto)]

mod codes;
mod conditions;
mod deadlines;
mod driver;
pub mod laws;
mod limits;
mod machine;
mod row;
mod timers;
mod window;

pub use deadlines::LAST;
pub use driver::{Driver, Taken};
pub use limits::Limits;
pub use machine::{Core, Report, Row, Sent, Timer, Wants, Way};
pub use window::holds;
