//! What comes tells what was delivered (RFC 8985, 6.2, steps 1 to 4, and 7.4.2).
ghost use Rattle.std.specs.Prelude.{◌≡◌, ◌≤◌, ◌^◌, IfSome, is_some};
ghost use Rattle.tcp_repair.specs.Arrival.{after_run, after_runs, both_came, has_moved, has_told, is_freed, is_over, is_short, most_runs, starts_before, trip_since};

use crate::recovery::Recovery;
use crate::reporting::Reporting;
use crate::seen::{Seen, Told};
use crate::timed::Timed;
use tcp_recovery::{Delivered, Probe};

/// At so many runs of what no block has reported an arrival looks: the project's own choice.
const MOST_RUNS: u64 = 128;

/// Whether any number before an end is outstanding, where this is the first stretch that is.
fn starts_before(stretch: Option<(u64, u64)>, end: u64) -> bool
    ensures { result ≡ starts_before stretch end }
{
    match stretch {
        Some((start, _)) => start < end,
        None => false,
    }
}

/// A run of what blocks report is told to the rack, unless nothing is outstanding of it, which is cheaper to see: it was told before,
/// mostly. Not where there are more stretches than are kept: there a joined one spans what was told.
#[tactic(auto, unfolding(crate::specs::Arrival::after_run))]
fn tell_run(timed: &mut Timed, start: u64, end: u64, min_rtt: u64)
    ensures { timed.new ≡ record timed.old { rack = after_run timed.old.rack start end timed.old.clock min_rtt } }
{
    if starts_before(timed.rack().next_outstanding(start), end) {
        timed.received(start, end, min_rtt);
    }
}

/// What blocks report is told to the rack, run by run from a position on.
#[inline(never)]
fn tell_runs<C: Reporting>(timed: &mut Timed, core: &C, una: u64, nxt: u64, min_rtt: u64)
    ensures { timed.new ≡ record timed.old { rack = after_runs most_runs (C.reports.unmarked core.now) una nxt timed.old.clock min_rtt timed.old.rack } }
{
    let mut at = una;
    for _ in 0..MOST_RUNS {
        let Some((from, to)) = core.unmarked(at) else {
            tell_run(timed, at, nxt, min_rtt);
            return;
        };
        tell_run(timed, at, from, min_rtt);
        at = to;
    }
}

/// Whether something was delivered that was sent later than all that was before.
fn has_told(before: Delivered, after: Delivered) -> bool
    ensures { result ≡ has_told before after }
{
    after.xmit_ts != before.xmit_ts || after.end_seq != before.end_seq
}

/// What an arrival means for the congestion window.
#[derive(Clone, Copy, Debug, PartialEq, Eq)]
pub(crate) struct Heard {
    /// Whether a probe has repaired a loss.
    pub repairs: bool,
    /// The round trip that was measured, in microseconds.
    pub trip: Option<u64>,
}

/// The round trip that was measured, where something was delivered that was sent later.
fn trip_since(before: Delivered, after: Delivered) -> Option<u64>
    ensures { result ≡ trip_since before after }
{
    if has_told(before, after) && after.rtt > 0 {
        Some(after.rtt)
    } else {
        None
    }
}

/// Whether a probe was in doubt, and none is any more.
fn is_freed(before: Probe, after: Probe) -> bool
    ensures { result ≡ is_freed before after }
{
    before.end_seq.is_some() && after.end_seq.is_none()
}

/// Whether both came, what was lost by the look of it and what went out again.
fn both_came(seen: Seen, told: Told) -> bool
    ensures { result ≡ both_came seen told }
{
    seen.una <= told.una && told.is_echo && !seen.has_gap
}

/// Whether SND.UNA has moved by two segments at most, while more is in flight.
fn is_short(told: Told, seen: Seen) -> bool
    ensures { result ≡ is_short told seen }
{
    let two = told.una.saturating_add(seen.smss).saturating_add(seen.smss);
    told.una < seen.una && seen.una <= two && seen.una < seen.nxt
}

/// Whether a recovery is over.
fn is_over(recover: Option<u64>, una: u64) -> bool
    ensures { result ≡ is_over recover una }
{
    match recover {
        Some(recover) => recover <= una,
        None => false,
    }
}

impl Recovery {
    ghost use Rattle.tcp_repair.specs.Arrival.{answered, heard, probed, repairs, shows_more, trip_by, with_acked, with_blocks, with_deliveries, with_more, with_probe_acked, with_repaired, with_trip};
    ghost use Rattle.tcp_repair.specs.Repairing.{repairs_by};

    /// An arrival was taken: what the congestion window has to be told of.
    #[tactic(auto, unfolding(crate::specs::Arrival::heard, crate::specs::Repairing::repairs_by))]
    pub(crate) fn hear<C: Reporting>(&mut self, core: &C, seen: Seen, told: Told) -> Heard
        requires { IfSome seen.srtt (λ time. time ≤ 2 ^ 40) }
        ensures trip { result.trip ≡ trip_by self.old seen (C.reports.unmarked core.now) told }
        ensures repairs { result.repairs ≡ repairs_by self.old seen (C.reports.unmarked core.now) told }
        ensures state { self.new ≡ heard self.old seen (C.reports.unmarked core.now) told }
    {
        let probe = self.probe;
        let trip = self.deliver(core, seen, told);
        let shows_more = self.shows_more(seen, told);
        let repairs = self.probe.acked(seen.una, both_came(seen, told));
        let has_news = told.una < seen.una || is_freed(probe, self.probe);
        self.repaired(seen);
        self.lacks_more(shows_more, seen);
        if has_news {
            self.start_probe(seen);
        } else {
            self.stop_probe(seen);
        }
        Heard {
            repairs: repairs && !shows_more,
            trip,
        }
    }

    /// Whether a probe's answer, by which a round trip was measured, covers no more than the probe, where no blocks say what else has
    /// come.
    fn shows_more(&self, seen: Seen, told: Told) -> bool
        ensures { result ≡ shows_more self.now seen told }
    {
        !seen.has_agreed
            && self.probe.end_seq.is_some()
            && self.probe.is_retrans
            && self.probe.is_measured
            && is_short(told, seen)
    }

    /// What is in flight behind a probe that was answered is being repaired, where it is lost, too.
    fn lacks_more(&mut self, shows_more: bool, seen: Seen)
        ensures { self.new ≡ with_more shows_more self.old seen }
    {
        if shows_more {
            self.recover = Some(self.recover.unwrap_or(seen.nxt));
        }
    }

    /// What was delivered is told: the round trip that was measured.
    #[tactic(auto, unfolding(crate::specs::Arrival::trip_by))]
    fn deliver<C: Reporting>(&mut self, core: &C, seen: Seen, told: Told) -> Option<u64>
        ensures trip { result ≡ trip_by self.old seen (C.reports.unmarked core.now) told }
        ensures state { self.new ≡ with_deliveries self.old seen (C.reports.unmarked core.now) told }
    {
        let before = self.timed.rack().delivered();
        self.acked(seen, told);
        if seen.has_gap {
            let min_rtt = self.min_rtt();
            tell_runs(&mut self.timed, core, seen.una, seen.nxt, min_rtt);
        }
        self.take_trip(before)
    }

    /// SND.UNA has moved.
    fn acked(&mut self, seen: Seen, told: Told)
        ensures { self.new ≡ with_acked self.old seen told }
    {
        if told.una < seen.una {
            let min_rtt = self.min_rtt();
            self.timed.received(0, seen.una, min_rtt);
        }
    }

    /// A round trip was measured, where something was delivered that was sent later.
    fn take_trip(&mut self, before: Delivered) -> Option<u64>
        ensures trip { result ≡ trip_since before self.old.rack.delivered }
        ensures state { self.new ≡ with_trip self.old before }
    {
        let after = self.timed.rack().delivered();
        if !has_told(before, after) {
            return None;
        }
        self.probe.measured();
        let trip = trip_since(before, after);
        if let Some(rtt) = trip {
            self.trips.measured(rtt, self.timed.clock());
            self.longest.measured(rtt, self.timed.clock());
        }
        trip
    }

    /// A recovery is over, where all is acknowledged that was in flight when its loss was found.
    fn repaired(&mut self, seen: Seen)
        ensures { self.new ≡ with_repaired self.old seen }
    {
        if is_over(self.recover, seen.una) {
            self.timed.recovered();
            self.recover = None;
        }
    }
}
