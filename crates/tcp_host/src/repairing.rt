//! A connection that finds losses by time is an end of a host, too.
ghost use Rattle.std.specs.Prelude.{false};

use crate::retiring::Retiring;
use crate::timed::Timed;
use crate::trained::Trained;
use crate::used::Used;
use std::alloc::Allocator;
use tcp_congestion::Congestion;
use tcp_conn::TimeWait;
use tcp_driver::{Sent, Taken, Timer};
use tcp_end::Wired;
use tcp_repair::{Repairing, Reporting};

impl<C: Reporting + Drop, W: Congestion + Drop, A: Allocator> Timed for Repairing<C, W, A> {
    ghost use Rattle.tcp_driver.specs.Driver.{arrival_answer, way_of};
    ghost use Rattle.tcp_host.specs.Repairing.{of_repairing};

    type Arriving = Taken<C::Arriving>;

    ghost behaviour = { of_repairing C.machine C.insight C.smss_of W.control C.reports };

    ghost arrival_answer = { λ r src dst bytes vouched. arrival_answer C.machine C.arrival_answer r.connecting.flowing.driving src dst bytes (way_of r.connecting.flowing.driving vouched) };

    fn is_bursting(&self) -> bool {
        self.flow().driver().is_bursting()
    }

    fn is_open(&self) -> bool {
        0 < self.flow().driver().core().una()
    }

    fn poll_at(&self) -> Option<u64> {
        Repairing::poll_at(self)
    }

    fn arrive(
        &mut self,
        now: u64,
        src: [u8; 4],
        dst: [u8; 4],
        bytes: &[u8],
        is_vouched: bool,
    ) -> Taken<C::Arriving> {
        if is_vouched {
            return Repairing::arrive_vouched(self, now, src, dst, bytes);
        }
        Repairing::arrive(self, now, src, dst, bytes)
    }

    #[tactic(auto, using(crate::proofs::Resting::connection_rests))]
    fn emit(&mut self, now: u64, window: u64, out: &mut [u8]) -> Option<Sent> {
        Repairing::emit(self, now, window, out)
    }

    fn timeout(&mut self, now: u64) -> Option<Timer> {
        Repairing::timeout(self, now)
    }
}

impl<C: Reporting + Drop, W: Congestion + Drop, A: Allocator> Used for Repairing<C, W, A> {
    ghost use Rattle.tcp_connection.specs.Connection.{core_of};
    ghost use Rattle.tcp_host.specs.Repairing.{use_of_repairing};

    type Sending = C::Sending;

    type Receiving = C::Receiving;

    type Consuming = C::Consuming;

    type Closing = C::Closing;

    type Aborting = C::Aborting;

    ghost usage = { use_of_repairing C.machine C.insight };

    ghost send_answer = { λ r text. C.send_answer (core_of r.connecting) text };

    ghost receive_answer = { λ r room. C.receive_answer (core_of r.connecting) room };

    ghost consume_answer = { λ r count. C.consume_answer (core_of r.connecting) count };

    ghost close_answer = { λ r. C.close_answer (core_of r.connecting) };

    ghost abort_answer = { λ r. C.abort_answer (core_of r.connecting) };

    fn send(&mut self, now: u64, text: &[u8]) -> C::Sending {
        Repairing::send(self, now, text)
    }

    fn receive(&mut self, now: u64, out: &mut [u8]) -> C::Receiving {
        Repairing::receive(self, now, out)
    }

    fn consume(&mut self, now: u64, count: usize) -> C::Consuming {
        Repairing::consume(self, now, count)
    }

    fn acknowledge(&mut self, now: u64) {
        Repairing::acknowledge(self, now);
    }

    fn close(&mut self, now: u64) -> C::Closing {
        Repairing::close(self, now)
    }

    fn abort(&mut self, now: u64) -> C::Aborting {
        Repairing::abort(self, now)
    }
}

impl<C: Reporting + Drop, W: Congestion + Drop, A: Allocator> Trained for Repairing<C, W, A> {
    ghost use Rattle.tcp_repair.specs.Repairing.{after_train, train_by_emit, written_by_train};

    type Train = C::Train;

    ghost train_answer = { λ r now window most room. train_by_emit C.machine C.insight C.smss_of C.train_answer W.control C.reports r now window most room };

    ghost train_written = { λ r now window most out. written_by_train C.machine C.insight C.smss_of W.control C.reports r now window most out };

    ghost after_train = { λ r now window most room. after_train C.machine C.insight C.smss_of C.train_answer C.start_of C.numbers_of W.control C.reports r now window most room };

    fn emit_train(
        &mut self,
        now: u64,
        window: u64,
        out: &mut [u8],
        most: usize,
    ) -> Option<C::Train> {
        Repairing::emit_train(self, now, window, out, most)
    }
}

impl<B: Allocator, W: Congestion + Drop, A: Allocator> Retiring for Repairing<Wired<B>, W, A> {
    ghost use Rattle.std.specs.Prelude.{Some, None, if◌then◌else◌};
    ghost use Rattle.tcp_conn.specs.TimeWait.{has_time_wait, time_wait_of};
    ghost use Rattle.tcp_connection.specs.Connection.{core_of};
    ghost use Rattle.tcp_driver.specs.Times.{next_expiry};

    ghost time_wait = { λ r. if has_time_wait (core_of r.connecting).end then Some (time_wait_of (core_of r.connecting).end) else None };

    ghost until = { λ r. next_expiry r.connecting.flowing.driving.times };

    fn time_wait(&self) -> Option<TimeWait> {
        self.flow().driver().core().end.time_wait()
    }

    fn until(&self) -> Option<u64> {
        self.flow().driver().poll_at()
    }
}
