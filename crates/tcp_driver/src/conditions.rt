//! What the timers ask of times, windows and segments.
ghost use Rattle.std.specs.Prelude.{IfSome, None, true, ◌≡◌, ◌≤◌};
ghost use Rattle.tcp_driver.specs.Deadlines.{last};
ghost use Rattle.tcp_driver.specs.Limits.{limit_of};
ghost use Rattle.tcp_driver.specs.Times.{goes_again, is_shut, later_by, opens, shut_after, still};

use crate::deadlines::LAST;
use crate::limits::Limits;
use crate::machine::Sent;
use tcp_timing::Watch;

/// How long what begins at SND.UNA may be without an answer: the SYN is at position 0.
pub(crate) fn limit_of(limits: &Limits, una: u64) -> Option<u64>
    ensures { result ≡ limit_of limits.now una }
{
    if una == 0 {
        limits.handshake
    } else {
        limits.user
    }
}

/// Whether none of these times is set.
pub(crate) fn runs_none(one: Option<u64>, other: Option<u64>, third: Option<u64>) -> bool
    ensures one { result ≡ true → one ≡ None }
    ensures other { result ≡ true → other ≡ None }
    ensures third { result ≡ true → third ≡ None }
{
    one.is_none() && other.is_none() && third.is_none()
}

/// Whether something was done since the timer began to wait, and it waits on.
pub(crate) fn still(runs: bool, same: bool, before: bool) -> bool
    ensures { result ≡ still runs same before }
{
    runs && same && before
}

/// Whether a window was taken that is shut.
pub(crate) fn is_shut(window: Option<u64>) -> bool
    ensures { result ≡ is_shut window }
{
    match window {
        Some(window) => window == 0,
        None => false,
    }
}

/// Whether a window was taken that is open, after it was shut.
pub(crate) fn opens(shut: bool, window: Option<u64>) -> bool
    ensures { result ≡ opens shut window }
{
    match window {
        Some(window) => shut && window != 0,
        None => false,
    }
}

/// Whether the window is shut after this one was taken, if one was.
pub(crate) fn shut_after(shut: bool, window: Option<u64>) -> bool
    ensures { result ≡ shut_after shut window }
{
    match window {
        Some(window) => window == 0,
        None => shut,
    }
}

/// Whether a segment goes out again.
pub(crate) fn goes_again(watch: &Watch, sent: Sent) -> bool
    ensures { result ≡ goes_again watch.now sent }
{
    0 < sent.count && sent.start < watch.highest
}

/// A time that lies so long after another.
pub(crate) fn later_by(time: Option<u64>, span: Option<u64>) -> Option<u64>
    requires { IfSome time (λ t. t ≤ last) }
    ensures { result ≡ later_by time span }
{
    match (time, span) {
        (Some(time), Some(span)) => Some(time + LAST.min(span)),
        _ => None,
    }
}
