//! What is lost goes out again, and the probe (RFC 8985, 6.2, step 5, and 7.3).
ghost use Rattle.std.specs.Prelude.{◌≡◌, ◌≤◌, ◌^◌, IfSome, option_map};
ghost use Rattle.tcp_driver.specs.Deadlines.{no_later};
ghost use Rattle.tcp_recovery.specs.Probe.{after_probe};
ghost use Rattle.tcp_repair.specs.Deadlines.{IsToCome};
ghost use Rattle.tcp_repair.specs.Emission.{first_of, first_two, goes_again, has_unmarked, head, probe_end, tail};

use crate::recovery::Recovery;
use crate::reporting::Reporting;
use crate::seen::{Again, Seen};
use tcp_connection::Next;

/// No more stretches than these are in flight: the rack keeps no more.
const MOST_STRETCHES: u64 = 64;

/// Whether what is due was sent before.
pub(crate) fn goes_again(seen: Seen, next: Option<Next>) -> bool
    ensures { result ≡ goes_again seen (option_map (λ next. next.sent) next) }
{
    match next {
        Some(next) => 0 < next.sent.count && next.sent.start < seen.nxt,
        None => false,
    }
}

/// The last segment of what is in flight.
fn tail(seen: Seen) -> Again
    ensures { result ≡ tail seen }
{
    Again {
        from: seen.una.max(seen.nxt.saturating_sub(seen.smss)),
        to: seen.nxt,
        loss: None,
    }
}

/// The first segment of what is in flight.
fn head(seen: Seen) -> Again
    ensures { result ≡ head seen }
{
    Again {
        from: seen.una,
        to: seen.nxt.min(seen.una.saturating_add(seen.smss)),
        loss: None,
    }
}

/// The first two segments in flight, of which one may be short: a peer may wait for the second one (RFC 5681, 4.2). Where the peer's
/// window has shrunk the first alone goes past its edge (RFC 9293, 3.8.6; RFC 7323, 2.4).
fn first_two(seen: Seen) -> Again
    ensures { result ≡ first_two seen }
{
    let two = seen.smss.saturating_add(seen.smss);
    let len = seen.smss.max(two.min(seen.wnd));
    Again {
        from: seen.una,
        to: seen.nxt.min(seen.una.saturating_add(len)),
        loss: None,
    }
}

/// What is probed where it isn't the last segment.
fn first_of(seen: Seen) -> Again
    ensures { result ≡ first_of seen }
{
    if seen.has_agreed {
        head(seen)
    } else {
        first_two(seen)
    }
}

/// The position at which a probe is acknowledged (RFC 8985, 7.3).
fn probe_end(seen: Seen) -> u64
    ensures { result ≡ probe_end seen }
{
    if seen.has_agreed {
        seen.nxt
    } else {
        head(seen).to
    }
}

/// Whether any number of what is lost wasn't reported, where this is the first run from it on that wasn't.
fn has_unmarked(run: Option<(u64, u64)>, end: u64) -> bool
    ensures { result ≡ has_unmarked run end }
{
    match run {
        Some((from, _)) => from < end,
        None => false,
    }
}

/// Whether there is a time, and it has come.
fn has_come(time: Option<u64>, now: u64) -> bool
    ensures { result ≡ no_later time now }
{
    match time {
        Some(time) => time <= now,
        None => false,
    }
}

impl Recovery {
    ghost use Rattle.tcp_repair.specs.Emission.{again_of, is_probe_due, loss_in, most_stretches, probe_of, probes_tail, readied, reported_loss, settled, tells_repair, went, went_between, with_loss_in};

    /// Whether the probe is due.
    pub(crate) fn is_probe_due(&self) -> bool
        ensures { result ≡ is_probe_due self.now }
    {
        has_come(self.probe.deadline(), self.timed.clock())
    }

    /// What goes out again now, if anything does, where what is due was sent before or wasn't.
    #[tactic(auto, using(crate::proofs::Resting::not_due), unfolding(crate::specs::Emission::again_of, crate::specs::Emission::readied))]
    pub(crate) fn next_again<C: Reporting>(
        &mut self,
        core: &C,
        seen: Seen,
        resending: bool,
    ) -> Option<Again>
        ensures again { result ≡ again_of self.old seen (C.reports.unmarked core.now) resending }
        ensures state { self.new ≡ readied self.old seen (C.reports.unmarked core.now) resending }
        ensures probe { IsToCome self.new.probe.at self.new.clock }
        ensures clock { self.new.clock ≡ self.old.clock }
    {
        if self.is_probe_due() {
            return Some(self.next_probe(seen));
        }
        if resending {
            return None;
        }
        self.next_loss(core, seen)
    }

    /// Whether the probe is the last segment, and not the first one.
    fn probes_tail(&self, seen: Seen) -> bool
        ensures { result ≡ probes_tail self.now seen }
    {
        seen.has_agreed && !self.is_looking(seen)
    }

    /// The probe goes out.
    fn next_probe(&mut self, seen: Seen) -> Again
        ensures again { result ≡ probe_of self.old seen }
        ensures state { self.new ≡ record self.old { probe = after_probe self.old.probe (probe_end seen) (tells_repair self.old seen) } }
    {
        let is_tail = self.probes_tail(seen);
        self.probe
            .sent(probe_end(seen), is_tail || !seen.has_agreed);
        if is_tail { tail(seen) } else { first_of(seen) }
    }

    /// What is lost, if anything is.
    fn next_loss<C: Reporting>(&mut self, core: &C, seen: Seen) -> Option<Again>
        ensures again { result ≡ loss_in (settled most_stretches self.old seen (C.reports.unmarked core.now)) seen (C.reports.unmarked core.now) }
        ensures state { self.new ≡ with_loss_in (settled most_stretches self.old seen (C.reports.unmarked core.now)) seen (C.reports.unmarked core.now) }
        ensures probe { IsToCome self.old.probe.at self.old.clock → IsToCome self.new.probe.at self.new.clock }
        ensures clock { self.new.clock ≡ self.old.clock }
    {
        self.settle(core, seen);
        let (from, to) = self.lost(seen)?;
        if !has_unmarked(core.unmarked(from), to) {
            return None;
        }
        let loss = Some(self.loss_at(from));
        self.recovers(from, seen.nxt);
        Some(Again { from, to, loss })
    }

    /// What looks lost, and of which all was reported, counts as come.
    fn settle<C: Reporting>(&mut self, core: &C, seen: Seen)
        ensures state { self.new ≡ settled most_stretches self.old seen (C.reports.unmarked core.now) }
        ensures probe { self.new.probe ≡ self.old.probe }
        ensures clock { self.new.clock ≡ self.old.clock }
    {
        for _ in 0..MOST_STRETCHES {
            let Some((from, to)) = self.reported_loss(core, seen) else {
                return;
            };
            self.timed.settled(from, to);
        }
    }

    /// The first stretch that looks lost, if all of it was reported.
    fn reported_loss<C: Reporting>(&self, core: &C, seen: Seen) -> Option<(u64, u64)>
        ensures { result ≡ reported_loss self.now seen (C.reports.unmarked core.now) }
    {
        let (from, to) = self.lost(seen)?;
        if has_unmarked(core.unmarked(from), to) {
            return None;
        }
        Some((from, to))
    }

    /// What begins at a position and takes so many numbers has gone out.
    #[tactic(auto, unfolding(crate::specs::Emission::went))]
    pub(crate) fn went(&mut self, seen: Seen, start: u64, count: u64)
        requires { IfSome seen.srtt (λ time. time ≤ 2 ^ 40) }
        ensures { self.new ≡ went self.old seen start count }
    {
        self.went_between(seen, start, start.saturating_add(count));
    }

    /// What lies from one position on and before another has gone out, if anything does.
    fn went_between(&mut self, seen: Seen, start: u64, end: u64)
        requires { IfSome seen.srtt (λ time. time ≤ 2 ^ 40) }
        ensures { self.new ≡ went_between self.old seen start end }
    {
        if start < end {
            let min_rtt = self.min_rtt();
            self.timed.sent(start, end, min_rtt);
            self.start_probe(seen);
        }
    }
}
