//! What goes out, by itself or as one.
ghost use Rattle.std.specs.Prelude.{◌≡◌, ◌≤◌, IfSome, IsNone, Some, length};
ghost use Rattle.tcp_repair.specs.Recovery.{at_time};
ghost use Rattle.tcp_connection.specs.Connection.{core_of};
ghost use Rattle.tcp_repair.specs.Deadlines.{AreReady, IsReady};
ghost use Rattle.tcp_repair.specs.Emission.{readied};
ghost use Rattle.tcp_repair.specs.Repairing.{RestsAfter, again_in, going_again, resending, seen_in};

use crate::going::goes_again;
use crate::recovery::Recovery;
use crate::repairing::Repairing;
use crate::reporting::Reporting;
use crate::seen::Seen;
use std::alloc::Allocator;
use tcp_congestion::Congestion;
use tcp_connection::Connection;
use tcp_driver::Sent;
use tcp_recovery::laws::deadlines_are_losses;

/// What a recovery finds is made due, before an emission.
fn make_ready<C: Reporting + Drop, W: Congestion + Drop>(
    connection: &mut Connection<C, W>,
    recovery: &mut Recovery,
    now: u64,
)
    ensures connection { connection.new ≡ going_again C.machine W.control connection.old now (again_in C.machine C.smss_of C.reports connection.old (at_time recovery.old now)) }
    ensures recovery { recovery.new ≡ readied (at_time recovery.old now) (seen_in C.machine C.smss_of C.reports connection.old) (C.reports.unmarked (core_of connection.old)) (resending C.machine C.smss_of C.reports connection.old) }
    ensures rests { IsReady recovery.new now }
{
    recovery.pass(now);
    let seen = Seen::of(connection);
    let core = connection.flow().driver().core();
    let resending = goes_again(seen, core.next());
    let Some(again) = recovery.next_again(core, seen, resending) else {
        return;
    };
    let _ = connection.resend(now, again.from, again.to);
    if let Some(loss) = again.loss {
        connection.lose(loss);
    }
}

impl<C: Reporting + Drop, W: Congestion + Drop, A: Allocator> Repairing<C, W, A> {
    ghost use Rattle.tcp_repair.specs.Repairing.{after_emit, after_train, gone, ready, sent_by_emit, train_by_emit, written_by_emit, written_by_train};

    /// Writes the segment that is due, if one is, and it doesn't wait, as for the connection. With a recovery what is lost goes out
    /// again before anything new, and the probe when its time has come (RFC 8985, 6.2, step 5, and 7.3).
    #[inline(always)]
    pub fn emit(&mut self, now: u64, window: u64, out: &mut [u8]) -> Option<Sent>
        requires { C.machine.room ≤ length out.old }
        ensures sent { result ≡ sent_by_emit C.machine C.insight C.smss_of W.control C.reports self.old now window }
        ensures most { IfSome result (λ sent. sent.len ≤ C.machine.room) }
        ensures written { out.new ≡ written_by_emit C.machine C.insight C.smss_of W.control C.reports self.old now window out.old }
        ensures state { self.new ≡ after_emit C.machine C.insight C.smss_of W.control C.reports self.old now window }
        ensures rests { IsNone result → RestsAfter C.machine C.smss_of C.reports self.new now }
    {
        if self.recovery.is_none() {
            return self.connection.emit(now, window, out);
        }
        self.emit_repairing(now, window, out)
    }

    /// The same, with a recovery.
    #[inline(never)]
    fn emit_repairing(&mut self, now: u64, window: u64, out: &mut [u8]) -> Option<Sent>
        requires { C.machine.room ≤ length out.old }
        ensures sent { result ≡ sent_by_emit C.machine C.insight C.smss_of W.control C.reports self.old now window }
        ensures most { IfSome result (λ sent. sent.len ≤ C.machine.room) }
        ensures written { out.new ≡ written_by_emit C.machine C.insight C.smss_of W.control C.reports self.old now window out.old }
        ensures state { self.new ≡ after_emit C.machine C.insight C.smss_of W.control C.reports self.old now window }
        ensures rests { IsNone result → RestsAfter C.machine C.smss_of C.reports self.new now }
    {
        deadlines_are_losses();
        self.make_ready(now);
        let sent = self.connection.emit(now, window, out);
        if let Some(sent) = &sent {
            self.went(sent.start, sent.count);
        }
        sent
    }

    /// Writes as one, for a device that cuts and sums them, the segments that may go out, as [`emit`](Self::emit) has it, at
    /// most `most`, as for the connection.
    #[inline(always)]
    pub fn emit_train(
        &mut self,
        now: u64,
        window: u64,
        out: &mut [u8],
        most: usize,
    ) -> Option<C::Train>
        requires { C.machine.room ≤ length out.old }
        ensures train { result ≡ train_by_emit C.machine C.insight C.smss_of C.train_answer W.control C.reports self.old now window most (length out.old) }
        ensures written { out.new ≡ written_by_train C.machine C.insight C.smss_of W.control C.reports self.old now window most out.old }
        ensures state { self.new ≡ after_train C.machine C.insight C.smss_of C.train_answer C.start_of C.numbers_of W.control C.reports self.old now window most (length out.old) }
        ensures rests { IsNone result → RestsAfter C.machine C.smss_of C.reports self.new now }
    {
        if self.recovery.is_none() {
            return self.connection.emit_train(now, window, out, most);
        }
        self.emit_train_repairing(now, window, out, most)
    }

    /// The same, with a recovery.
    #[inline(never)]
    fn emit_train_repairing(
        &mut self,
        now: u64,
        window: u64,
        out: &mut [u8],
        most: usize,
    ) -> Option<C::Train>
        requires { C.machine.room ≤ length out.old }
        ensures train { result ≡ train_by_emit C.machine C.insight C.smss_of C.train_answer W.control C.reports self.old now window most (length out.old) }
        ensures written { out.new ≡ written_by_train C.machine C.insight C.smss_of W.control C.reports self.old now window most out.old }
        ensures state { self.new ≡ after_train C.machine C.insight C.smss_of C.train_answer C.start_of C.numbers_of W.control C.reports self.old now window most (length out.old) }
        ensures rests { IsNone result → RestsAfter C.machine C.smss_of C.reports self.new now }
    {
        deadlines_are_losses();
        self.make_ready(now);
        let train = self.connection.emit_train(now, window, out, most);
        if let Some(train) = &train {
            self.went(C::start(train), C::numbers(train));
        }
        train
    }

    /// What the recovery finds is made due, if there is one.
    #[tactic(auto, unfolding(crate::specs::Repairing::ready))]
    fn make_ready(&mut self, now: u64)
        ensures state { self.new ≡ ready C.machine C.smss_of W.control C.reports self.old now }
        ensures rests { AreReady self.new.recovery now }
    {
        if let Some(recovery) = &mut self.recovery {
            make_ready(&mut self.connection, recovery, now);
        }
    }

    /// The recovery is told of what has gone out, if there is one.
    fn went(&mut self, start: u64, count: u64)
        ensures { self.new ≡ gone C.machine C.smss_of C.reports self.old self.old.connecting (Some (start, count)) }
    {
        if let Some(recovery) = &mut self.recovery {
            let seen = Seen::of(&self.connection);
            recovery.went(seen, start, count);
        }
    }
}
