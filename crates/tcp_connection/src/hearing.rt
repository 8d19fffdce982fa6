//! What comes is heard of: how much has to be acknowledged, and how soon.
ghost use Rattle.std.specs.Prelude.{◌≡◌};
ghost use Rattle.tcp_connection.specs.Connection.{report_in};

use crate::connection::Connection;
use crate::deferring::Deferring;
use crate::segment::{is_exempt, is_first_syn, is_numbered};
use tcp_congestion::Congestion;
use tcp_driver::{Report, Taken};

/// What an end says before an arrival.
#[derive(Clone, Copy, Debug, PartialEq, Eq)]
pub(crate) struct Before {
    /// Whether an acknowledgement is pending.
    pub is_pending: bool,
    /// RCV.NXT, as a position of the peer's direction.
    pub rcv_nxt: u64,
    /// Whether it is in a synchronized state.
    pub is_synchronized: bool,
    /// Whether it is in SYN-RECEIVED, and the segment is the peer's SYN again.
    pub repeats_syn: bool,
}

/// What is reported of an arrival that was taken.
fn report_in<T>(taken: &Taken<T>) -> Option<Report>
    ensures { result ≡ report_in taken.now }
{
    match taken {
        Taken::Done(report, _) => Some(*report),
        Taken::EmitFirst | Taken::Withheld => None,
    }
}

impl<C: Deferring + Drop, W: Congestion + Drop> Connection<C, W> {
    ghost use Rattle.tcp_connection.specs.Connection.{agreed_by, bare_after, before_in, core_of, heard, heard_if};

    /// What the end says before this segment.
    pub(crate) fn before(&self, bytes: &[u8]) -> Before
        ensures { result ≡ before_in C.machine C.insight self.now bytes.now }
    {
        let core = self.flow.driver().core();
        Before {
            is_pending: core.is_pending(),
            rcv_nxt: core.rcv_nxt(),
            is_synchronized: core.is_synchronized(),
            repeats_syn: is_first_syn(bytes) && is_numbered(bytes, core.peer_syn()),
        }
    }

    /// What became of a segment.
    pub(crate) fn hear_of(
        &mut self,
        before: Before,
        bytes: &[u8],
        taken: &Taken<C::Arriving>,
        now: u64,
    )
        ensures { self.new ≡ heard_if C.machine C.insight C.smss_of self.old before bytes.now (report_in taken.now) now }
    {
        if let Some(report) = report_in(taken) {
            self.hear(before, bytes, report, now);
        }
    }

    /// A segment was taken, of which this is reported.
    fn hear(&mut self, before: Before, bytes: &[u8], report: Report, now: u64)
        ensures { self.new ≡ heard C.machine C.insight C.smss_of self.old before bytes.now report now }
    {
        self.agree();
        let rcv_nxt = self.flow.driver().core().rcv_nxt();
        let moved = rcv_nxt.saturating_sub(before.rcv_nxt);
        self.ack.arrived(moved, report.at_once, now);
        if let Some(window) = report.window {
            self.text.window(window);
        }
        self.is_bare = self.is_bare_after(before, bytes, report.at_once);
        if before.repeats_syn && report.at_once {
            self.flow.retransmit(now);
        }
    }

    /// Segments have the size that both SYNs agreed on, once they have.
    fn agree(&mut self)
        ensures { self.new ≡ agreed_by (C.smss_of (core_of self.old)) self.old }
    {
        let Some(smss) = self.flow.driver().core().smss() else {
            return;
        };
        if smss != self.smss {
            self.smss = smss;
            self.ack = self.policy.no_ack(smss);
            self.text = self.policy.no_text(smss);
        }
    }

    /// Whether the acknowledgement that is pending behind a segment only answers what brings nothing.
    fn is_bare_after(&self, before: Before, bytes: &[u8], at_once: bool) -> bool
        ensures { result ≡ bare_after self.now before bytes.now at_once }
    {
        if is_exempt(bytes, before.is_synchronized) {
            return false;
        }
        if at_once && 0 < self.policy.answer_interval {
            !before.is_pending || self.is_bare
        } else {
            self.is_bare
        }
    }
}
