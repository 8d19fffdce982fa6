//! What a recovery and a connection tell each other.
ghost use Rattle.std.specs.Prelude.{◌≡◌, ◌≤◌, ◌^◌, IfSome, unwrap_or};
ghost use Rattle.tcp_connection.specs.Connection.{first_smss};
ghost use Rattle.tcp_repair.specs.Seen.{seen_of, srtt_of};

use crate::reporting::Reporting;
use tcp_congestion::Congestion;
use tcp_connection::Connection;
use tcp_driver::LAST;
use tcp_flow::Loss;
use tcp_timing::RoundTrip;

/// SMSS before both SYNs have agreed on it (RFC 9293, 3.7.1).
const FIRST_SMSS: u64 = 536;

/// The greatest SRTT that a recovery counts with, in microseconds.
const MOST_TRIP: u64 = 1 << 40;

/// What a recovery sees of a connection at a time.
#[derive(Clone, Copy, Debug, PartialEq, Eq)]
pub(crate) struct Seen {
    /// SND.UNA, as a position.
    pub una: u64,
    /// SND.NXT, as a position.
    pub nxt: u64,
    /// SND.WND, in bytes: 0 where the peer's window is shut.
    pub wnd: u64,
    /// SMSS, in bytes.
    pub smss: u64,
    /// Whether blocks report a gap.
    pub has_gap: bool,
    /// Whether both SYNs agreed on blocks.
    pub has_agreed: bool,
    /// SRTT, in microseconds, once a round trip was measured.
    pub srtt: Option<u64>,
    /// When a timer of the driver expires, in microseconds, and [`LAST`] where none runs.
    pub rto_at: u64,
}

/// What an arrival has told, beside what a recovery sees behind it.
#[derive(Clone, Copy, Debug, PartialEq, Eq)]
pub(crate) struct Told {
    /// SND.UNA before it.
    pub una: u64,
    /// Whether its window was taken, and is the one that was known, while RCV.NXT stays: where SND.UNA does, too, it says nothing
    /// new.
    pub is_echo: bool,
}

/// What goes out again: the numbers from one position on and before another.
#[derive(Clone, Copy, Debug, PartialEq, Eq)]
pub(crate) struct Again {
    /// The position of the first.
    pub from: u64,
    /// The position behind the last.
    pub to: u64,
    /// What was found, where it is lost, and no probe.
    pub loss: Option<Loss>,
}

impl Seen {
    /// What is seen of a connection.
    pub(crate) fn of<C: Reporting + Drop, W: Congestion + Drop>(
        connection: &Connection<C, W>,
    ) -> Seen
        ensures value { result ≡ seen_of C.machine C.smss_of C.reports connection.now.flowing.driving }
        ensures srtt { IfSome result.srtt (λ time. time ≤ 2 ^ 40) }
    {
        let driver = connection.flow().driver();
        let core = driver.core();
        let una = core.una();
        Seen {
            una,
            nxt: una.saturating_add(core.flight()),
            wnd: core.peer_window(),
            smss: smss_of(core),
            has_gap: core.wants().reorder,
            has_agreed: core.uses_blocks(),
            srtt: srtt_of(driver.estimator().trip()),
            rto_at: driver.poll_at().unwrap_or(LAST),
        }
    }
}

/// SMSS of an end.
fn smss_of<C: Reporting>(core: &C) -> u64
    ensures { result ≡ unwrap_or (C.smss_of core.now) first_smss }
{
    match core.smss() {
        Some(smss) => smss,
        None => FIRST_SMSS,
    }
}

/// SRTT, as far as a recovery counts with it.
fn srtt_of(trip: Option<RoundTrip>) -> Option<u64>
    ensures value { result ≡ srtt_of trip }
    ensures most { IfSome result (λ time. time ≤ 2 ^ 40) }
{
    match trip {
        Some(trip) => Some(trip.srtt.min(MOST_TRIP)),
        None => None,
    }
}
