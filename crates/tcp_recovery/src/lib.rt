//! Which of what is in flight is lost, by time (RACK-TLP: RFC 8985). Plain values without a clock or an end: a position
//! counts from the SYN, which is at 0, in the direction of what is sent, and a time is a count of microseconds that the
//! caller passes, from 1 to 2^62, and which never goes back: 0 stands for a time that isn't known.
//!
//! - [`Rack`]: what is in flight as at most 64 stretches, each of which was sent at nearly one time, and which of them
//!   are lost.
//! - [`Delivered`]: what deliveries have told: RACK's segment, the last round trip, whether reordering was seen, and
//!   how wide the reordering window is.
//! - [`Probe`]: when the end of what is sent goes out once more (tail loss probes: RFC 8985, 7).
//! - [`laws`]: what follows of them, whatever is called.
//!
//! What calls them knows SND.UNA, SND.NXT, SRTT and the least round trip of late (RFC 8985, 6.2, step 1). Before one
//! was measured it passes 0 as `min_rtt` to [`Rack::sent`] and [`Rack::received`]; but to [`Rack::reo_wnd`], where that
//! would give no window, RACK.rtt of [`Rack::delivered`], both as `srtt` and as `min_rtt`:
//! 1. It passes each segment that goes out to [`Rack::sent`], new or again, as it does to a `Watch`; but none that has
//!    no number of what is in flight, as a keep-alive.
//! 2. Where SND.UNA has moved it calls [`Rack::received`] from 0 to SND.UNA, and behind that with each block, in rising
//!    order. A block may be passed again. Who has no blocks at hand asks [`Rack::next_outstanding`] and compares.
//! 3. It asks [`Rack::lost`] with [`Rack::reo_wnd`], after an arrival and when the deadline has come: what that returns
//!    goes out again, as far as it wasn't reported as received, and is passed to `sent` as it does; then it asks again.
//!    Where all of it was, which can be where more than 64 stretches were joined, it calls [`Rack::settled`] instead.
//!    It asks [`Rack::deadline`] only where `lost` answers `None`: a stretch that is lost and can't go out yet keeps
//!    the deadline in the past.
//! 4. It calls [`Rack::recovered`] when all is acknowledged that was in flight when a loss was found.
//! 5. It calls [`Probe::acked`] for each acknowledgement, [`Probe::measured`] for each round trip that is measured, and
//!    [`Probe::recovering`] when a loss begins to be repaired, or the retransmission timer has expired. Behind these
//!    [`Probe::start`] follows each segment that is sent or acknowledged, where no block reports anything of what is in
//!    flight, and no loss is being repaired (RFC 8985, 7.2, for connections with blocks). There it also follows a
//!    duplicate acknowledgement, which acknowledges nothing, where no probe is in doubt behind it any more: `end_seq`
//!    was `Some` before [`Probe::acked`], and is `None`. Else new text that was sent meanwhile would have no probe.
//!    [`Probe::stop`] follows where nothing is in flight any more, or a block has been reported. At [`Probe::deadline`]
//!    it sends new data, or the last segment again, calls [`Probe::sent`] and starts the retransmission timer anew (RFC
//!    8985, 7.3).
#![tactic(auto)]

mod delivered;
pub mod laws;
mod losses;
mod probe;
mod rack;
mod stretch;
mod stretches;

pub use delivered::Delivered;
pub use probe::Probe;
pub use rack::{MAX_STRETCHES, Rack};
pub use stretch::Stretch;
