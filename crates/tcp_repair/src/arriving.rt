//! What an arrival tells, from before it to behind it.
ghost use Rattle.std.specs.Prelude.{◌≡◌};
ghost use Rattle.tcp_connection.specs.Connection.{core_of};
ghost use Rattle.tcp_repair.specs.Recovery.{at_time};
ghost use Rattle.tcp_repair.specs.Arrival.{heard, trip_by};
ghost use Rattle.tcp_repair.specs.Repairing.{is_same, losing_if, measuring_if, repaired_if, repairs_by, seen_in, told_of};

use crate::recovery::Recovery;
use crate::repairing::Repairing;
use crate::reporting::Reporting;
use crate::seen::{Seen, Told};
use std::alloc::Allocator;
use tcp_congestion::Congestion;
use tcp_connection::Connection;
use tcp_driver::{Report, Taken};
use tcp_flow::Loss;

/// What an end says before an arrival.
#[derive(Clone, Copy, Debug, PartialEq, Eq)]
pub(crate) struct Before {
    /// SND.UNA, as a position.
    pub una: u64,
    /// SND.WND, in bytes.
    pub snd_wnd: u64,
    /// RCV.NXT, as a position of the peer's direction.
    pub rcv_nxt: u64,
}

/// Whether a window was taken that is the one before.
fn is_same(taken: Option<u64>, window: u64) -> bool
    ensures { result ≡ is_same taken window }
{
    match taken {
        Some(taken) => taken == window,
        None => false,
    }
}

/// What an arrival has told.
fn told_by<C: Reporting>(before: Before, core: &C, report: Report) -> Told
    ensures { result ≡ told_of C.insight before core.now report }
{
    Told {
        una: before.una,
        is_echo: is_same(report.window, before.snd_wnd) && core.rcv_nxt() == before.rcv_nxt,
    }
}

impl<C: Reporting + Drop, W: Congestion + Drop, A: Allocator> Repairing<C, W, A> {
    ghost use Rattle.tcp_connection.specs.Connection.{report_in};
    ghost use Rattle.tcp_repair.specs.Repairing.{before_in, heard_by};

    /// What the end says.
    pub(crate) fn before(&self) -> Before
        ensures { result ≡ before_in C.machine C.insight self.now.connecting }
    {
        let core = self.connection.flow().driver().core();
        Before {
            una: core.una(),
            snd_wnd: core.snd_wnd(),
            rcv_nxt: core.rcv_nxt(),
        }
    }

    /// What became of a segment.
    pub(crate) fn hear_of(&mut self, before: Before, taken: &Taken<C::Arriving>, now: u64)
        ensures { self.new ≡ heard_by C.machine C.insight C.smss_of W.control C.reports before self.old.connecting self.old.recovery (report_in taken.now) now }
    {
        let Taken::Done(report, _) = taken else {
            return;
        };
        if let Some(recovery) = &mut self.recovery {
            hear_in(&mut self.connection, recovery, before, *report, now);
        }
    }
}

/// A recovery hears of a segment that was taken.
fn hear_in<C: Reporting + Drop, W: Congestion + Drop>(
    connection: &mut Connection<C, W>,
    recovery: &mut Recovery,
    before: Before,
    report: Report,
    now: u64,
)
    ensures connection { connection.new ≡ losing_if C.machine W.control (repaired_if (repairs_by (at_time recovery.old now) (seen_in C.machine C.smss_of C.reports connection.old) (C.reports.unmarked (core_of connection.old)) (told_of C.insight before (core_of connection.old) report))) (measuring_if C.machine W.control (trip_by (at_time recovery.old now) (seen_in C.machine C.smss_of C.reports connection.old) (C.reports.unmarked (core_of connection.old)) (told_of C.insight before (core_of connection.old) report)) connection.old) }
    ensures recovery { recovery.new ≡ heard (at_time recovery.old now) (seen_in C.machine C.smss_of C.reports connection.old) (C.reports.unmarked (core_of connection.old)) (told_of C.insight before (core_of connection.old) report) }
{
    recovery.pass(now);
    let seen = Seen::of(connection);
    let core = connection.flow().driver().core();
    let told = told_by(before, core, report);
    let heard = recovery.hear(core, seen, told);
    if let Some(trip) = heard.trip {
        connection.measured(trip);
    }
    if heard.repairs {
        connection.lose(Loss::Repaired);
    }
}
