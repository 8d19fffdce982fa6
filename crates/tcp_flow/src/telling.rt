//! What came is told to the window.
ghost use Rattle.std.specs.Prelude.{◌≡◌};

use crate::flow::Flow;
use crate::paced::Paced;
use tcp_congestion::Congestion;
use tcp_driver::Report;

/// So many partial acknowledgements in a row that cover no more than was sent again are of a peer that keeps nothing out of order.
const MOST_DROPS: u8 = 2;

/// So many duplicates count behind all that was sent again.
const MOST_REPEATS: u8 = 3;

impl<C: Paced + Drop, W: Congestion + Drop> Flow<C, W> {
    ghost use Rattle.std.specs.Prelude.{true};
    ghost use Rattle.tcp_flow.specs.Flow.{after_duplicate, after_progress, after_report, counts_blocks, delivered_by, reported_before, says_something, settled, srtt_of, told, with_delivery, with_first, with_pipe_if};

    /// Whether the window grows by what blocks report: where losses are found by time, and no recovery goes on.
    fn counts_blocks(&self) -> bool
        ensures { result ≡ counts_blocks W.control self.now }
    {
        self.is_patient && !self.window.is_recovering()
    }

    /// What blocks report before an arrival, where it counts.
    pub(crate) fn reported_before(&self) -> u64
        ensures { result ≡ reported_before C.machine W.control self.now }
    {
        if self.counts_blocks() {
            self.driver.core().reported()
        } else {
            0
        }
    }

    /// What came is told to the window.
    #[inline(never)]
    pub(crate) fn told(&mut self, una: u64, reported: u64, report: Report, now: u64)
        requires { W.control.limits self.old.window ≡ true }
        ensures { self.new ≡ told C.machine C.smss_of W.control self.old una reported report now }
    {
        let says = self.says_something(una, report);
        if let Some(window) = report.window {
            self.is_shut = window == 0;
        }
        let delivered = self.delivered_by(reported, report);
        self.report(una, delivered, report, now);
        self.keep_pipe(says);
        self.settle();
    }

    /// Whether a segment says something of what is in flight: SND.UNA has moved on, or the peer's window was taken from it.
    fn says_something(&self, una: u64, report: Report) -> bool
        ensures { result ≡ says_something C.machine self.now una report }
    {
        una < self.driver.core().una() || report.window.is_some()
    }

    /// How much an arrival has delivered, before which blocks reported so much (RFC 6937, 2).
    fn delivered_by(&self, reported: u64, report: Report) -> u64
        ensures { result ≡ delivered_by C.machine W.control self.now reported report }
    {
        if !self.counts_blocks() {
            return report.acked;
        }
        let delivered = report.acked.saturating_add(self.driver.core().reported());
        delivered.saturating_sub(reported)
    }

    /// What was acknowledged or delivered is told to the window.
    fn report(&mut self, una: u64, delivered: u64, report: Report, now: u64)
        ensures { self.new ≡ after_report C.machine W.control self.old una delivered report now }
    {
        if una < self.driver.core().una() {
            self.progress(report.acked, delivered, now);
            return;
        }
        self.deliver(delivered, now);
        if report.is_duplicate && !self.is_shut {
            self.duplicate(now);
        }
    }

    /// Blocks have told of what was delivered, while SND.UNA has stayed.
    fn deliver(&mut self, delivered: u64, now: u64)
        ensures { self.new ≡ with_delivery C.machine W.control self.old delivered now }
    {
        if !self.counts_blocks() || delivered == 0 {
            return;
        }
        let flight = self.driver.flight();
        let rtt = self.rtt();
        self.window.delivered(delivered, flight, now, rtt);
    }

    /// The window is of the segments that both SYNs agreed on, once they have.
    pub(crate) fn settle(&mut self)
        ensures { self.new ≡ settled C.smss_of W.control self.old }
    {
        if let Some(smss) = self.driver.core().smss() {
            if smss != self.window.smss() {
                self.window.agreed(smss);
            }
        }
    }

    /// SND.UNA has moved on.
    fn progress(&mut self, acked: u64, delivered: u64, now: u64)
        ensures { self.new ≡ after_progress C.machine W.control self.old acked delivered now }
    {
        let una = self.driver.core().una();
        let flight = self.driver.flight();
        let rtt = self.rtt();
        let has_blocks = self.driver.core().wants().reorder;
        let counts = self.window.is_recovering() && !has_blocks;
        let smss = self.window.smss();
        let kept = self.repeats == MOST_REPEATS && self.window.cwnd() < acked;
        let partial = self.window.acknowledged(delivered, una, flight, now, rtt);
        if counts {
            self.drops = drops_after(self.drops, smss, acked, partial, kept);
        }
        self.repeats = 0;
        self.resend_lost(now, partial && !has_blocks);
    }

    /// The smoothed round trip, or 0 before one was measured.
    fn rtt(&self) -> u64
        ensures { result ≡ srtt_of self.now.driving.times.estimate.trip }
    {
        match self.driver.estimator().trip() {
            Some(trip) => trip.srtt,
            None => 0,
        }
    }

    /// A duplicate has come.
    fn duplicate(&mut self, now: u64)
        ensures { self.new ≡ after_duplicate C.machine W.control self.old now }
    {
        if self.driver.core().wants().reorder {
            if !self.window.is_recovering() {
                self.window.reported();
            }
            return;
        }
        if self.window.is_recovering() && self.drops == MOST_DROPS {
            self.repeat(now);
            return;
        }
        let una = self.driver.core().una();
        let flight = self.driver.flight();
        let nxt = self.nxt();
        let again = self.window.duplicate(una, flight, nxt);
        self.resend_lost(now, again);
    }

    /// In a recovery ssthresh is under way beside what blocks report, however often they report it (RFC 6675, 4 and 5): behind a
    /// segment that says something.
    fn keep_pipe(&mut self, says: bool)
        ensures { self.new ≡ with_pipe_if says C.machine W.control self.old }
    {
        if says && self.window.is_recovering() {
            let reported = self.driver.core().reported();
            self.window.keep_pipe(reported);
        }
    }

    ghost use Rattle.tcp_flow.specs.Flow.{after_repeat, with_all, with_lost};

    /// Something is lost, or isn't: of what is in flight the first segment goes out again, or all to a peer that keeps nothing out of
    /// order.
    fn resend_lost(&mut self, now: u64, again: bool)
        ensures { self.new ≡ with_lost C.machine W.control self.old now again }
    {
        if !again {
            return;
        }
        if self.drops == MOST_DROPS {
            self.resend_all(now);
        } else {
            let _ = self.driver.resend_first(now);
        }
    }

    /// All that is in flight goes out again, within the window.
    fn resend_all(&mut self, now: u64)
        ensures { self.new ≡ with_all C.machine W.control self.old now }
    {
        let una = self.driver.core().una();
        let nxt = self.nxt();
        let _ = self.driver.resend(now, una, nxt);
        self.window.finds_by_time();
        self.repeats = MOST_REPEATS;
    }

    /// A duplicate has come behind all that was sent again.
    fn repeat(&mut self, now: u64)
        ensures { self.new ≡ after_repeat C.machine W.control self.old now }
    {
        if self.repeats == 2 {
            self.window.lost_again();
            self.resend_all(now);
        } else {
            self.repeats = MOST_REPEATS.min(self.repeats.saturating_add(1));
        }
    }
}

ghost use Rattle.tcp_flow.specs.Flow.{drops_after};

/// How many partial acknowledgements in a row of a recovery covered no more than was sent again, behind an acknowledgement of `acked`
/// bytes in it, which says that the peer has kept something, or doesn't. What says that it keeps nothing stays known behind the recovery.
fn drops_after(before: u8, smss: u64, acked: u64, partial: bool, kept: bool) -> u8
    ensures { result ≡ drops_after before smss acked partial kept }
{
    if partial {
        if smss < acked.saturating_sub(smss) {
            0
        } else {
            MOST_DROPS.min(before.saturating_add(1))
        }
    } else if before == MOST_DROPS && !kept {
        MOST_DROPS
    } else {
        0
    }
}
