//! Which stretches are lost (RFC 8985, 6.2, step 5).
ghost use Rattle.std.specs.Prelude.{◌≡◌, Option, ℕ, Some};
ghost use Rattle.tcp_recovery.specs.Rack.{deadline_of, is_lost, is_overtaken, lost_in, sooner};

use crate::delivered::Delivered;
use crate::stretch::Stretch;

/// Whether something was delivered that was sent later than all of it.
fn is_overtaken(d: &Delivered, s: &Stretch) -> bool
    ensures { result ≡ is_overtaken d.now s.now }
{
    s.last < d.xmit_ts
        || (s.last == d.xmit_ts && s.end < d.end_seq)
        || (!s.is_again && s.end < d.fack && d.end_seq > 0)
}

/// Whether it is lost.
fn is_lost(d: &Delivered, s: &Stretch, reo_wnd: u64, now: u64) -> bool
    ensures { result ≡ is_lost d.now reo_wnd now s.now }
{
    if !is_overtaken(d, s) || now < s.last {
        return false;
    }
    let since = now - s.last;
    d.rtt <= since && reo_wnd <= since - d.rtt
}

/// The first that is lost.
pub(crate) fn lost_in(d: &Delivered, all: &[Stretch], reo_wnd: u64, now: u64) -> Option<(u64, u64)>
    ensures { result ≡ lost_in d.now reo_wnd now all.now }
{
    for s in all {
        if is_lost(d, s, reo_wnd, now) {
            return Some((s.start, s.end));
        }
    }
    None
}

/// The sooner of two times.
fn sooner(at: Option<u64>, time: u64) -> Option<u64>
    ensures { result ≡ sooner at (Some time) }
{
    match at {
        None => Some(time),
        Some(at) => Some(at.min(time)),
    }
}

/// When the next one is lost: the soonest of the times at which one is.
pub(crate) fn deadline_of(d: &Delivered, all: &[Stretch], reo_wnd: u64) -> Option<u64>
    ensures { result ≡ deadline_of d.now reo_wnd all.now }
{
    let mut at = None;
    for s in all {
        if is_overtaken(d, s) {
            at = sooner(at, s.last.saturating_add(d.rtt).saturating_add(reo_wnd));
        }
    }
    at
}
