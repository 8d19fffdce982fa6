//! What waits for congestion control's window, or for an acknowledgement (RFC 5681, 3.1; RFC 9293, 3.8.6.3).
ghost use Rattle.std.specs.Prelude.{◌≡◌};
ghost use Rattle.tcp_driver.specs.Driver.{goes_back, holds_by, waits};

use crate::machine::Sent;

/// Whether what is due has to wait, where SND.UNA is `una`, so many numbers are in flight, and `answers` says whether an
/// acknowledgement is pending that may go alone. What ends more than `window` numbers past SND.UNA waits, unless nothing before
/// it is in flight (RFC 5681, 3.1), and what was sent before waits for the acknowledgement. A [`Core`](crate::Core) that has no
/// such rule of its own asks it in `transmit_within`.
#[must_use]
pub fn holds(due: Option<Sent>, una: u64, flight: u64, answers: bool, window: u64) -> bool
    ensures { result ≡ holds_by due una flight answers window }
{
    waits(due, una, window) || (answers && goes_back(due, una, flight))
}

/// Whether what is due was sent before.
fn goes_back(due: Option<Sent>, una: u64, flight: u64) -> bool
    ensures { result ≡ goes_back due una flight }
{
    match due {
        Some(sent) => sent.start.saturating_sub(una) < flight,
        None => false,
    }
}

/// Whether what is due ends past a window, where anything before it is in flight.
fn waits(due: Option<Sent>, una: u64, window: u64) -> bool
    ensures { result ≡ waits due una window }
{
    match due {
        Some(sent) => {
            una < sent.start && window.saturating_sub(sent.start.saturating_sub(una)) < sent.count
        }
        None => false,
    }
}
