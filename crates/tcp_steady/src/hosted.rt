//! A connection whose silent peer is asked is an end of a host, too.
ghost use Rattle.std.specs.Prelude.{false};

use crate::steady::Steady;
use std::alloc::Allocator;
use tcp_congestion::Congestion;
use tcp_conn::{CallError, Received, TimeWait, Train};
use tcp_driver::{Sent, Taken, Timer};
use tcp_host::{Retiring, Timed, Trained, Used};

impl<W: Congestion + Drop, B: Allocator, A: Allocator> Timed for Steady<W, B, A> {
    ghost use Rattle.tcp_steady.specs.Hosted.{of_steady};
    ghost use Rattle.tcp_steady.specs.Steady.{arrival_answer_of};

    type Arriving = Taken<tcp_conn::Taken>;

    ghost behaviour = { of_steady W.control };

    ghost arrival_answer = { arrival_answer_of };

    fn is_bursting(&self) -> bool {
        Timed::is_bursting(&self.repairing)
    }

    fn is_open(&self) -> bool {
        Timed::is_open(&self.repairing)
    }

    fn poll_at(&self) -> Option<u64> {
        Steady::poll_at(self)
    }

    fn arrive(
        &mut self,
        now: u64,
        src: [u8; 4],
        dst: [u8; 4],
        bytes: &[u8],
        is_vouched: bool,
    ) -> Taken<tcp_conn::Taken> {
        if is_vouched {
            return Steady::arrive_vouched(self, now, src, dst, bytes);
        }
        Steady::arrive(self, now, src, dst, bytes)
    }

    #[tactic(auto, using(crate::proofs::Resting::steady_rests))]
    fn emit(&mut self, now: u64, window: u64, out: &mut [u8]) -> Option<Sent> {
        Steady::emit(self, now, window, out)
    }

    fn timeout(&mut self, now: u64) -> Option<Timer> {
        Steady::timeout(self, now)
    }
}

impl<W: Congestion + Drop, B: Allocator, A: Allocator> Used for Steady<W, B, A> {
    ghost use Rattle.tcp_steady.specs.Hosted.{use_of_steady};
    ghost use Rattle.tcp_steady.specs.Steady.{end_of};
    ghost use Rattle.tcp_conn.specs.Calls.{abort_answer, close_answer, receive_answer, send_answer};
    ghost use Rattle.tcp_conn.specs.Lending.{consume_answer};

    type Sending = Result<usize, CallError>;

    type Receiving = Result<Received, CallError>;

    type Consuming = Result<usize, CallError>;

    type Closing = Result<(), CallError>;

    type Aborting = Result<(), CallError>;

    ghost usage = { use_of_steady };

    ghost send_answer = { λ s text. send_answer (end_of s) text };

    ghost receive_answer = { λ s room. receive_answer (end_of s) room };

    ghost consume_answer = { λ s count. consume_answer (end_of s) count };

    ghost close_answer = { λ s. close_answer (end_of s) };

    ghost abort_answer = { λ s. abort_answer (end_of s) };

    fn send(&mut self, now: u64, text: &[u8]) -> Result<usize, CallError> {
        self.repairing.send(now, text)
    }

    fn receive(&mut self, now: u64, out: &mut [u8]) -> Result<Received, CallError> {
        self.repairing.receive(now, out)
    }

    fn consume(&mut self, now: u64, count: usize) -> Result<usize, CallError> {
        self.repairing.consume(now, count)
    }

    fn acknowledge(&mut self, now: u64) {
        self.repairing.acknowledge(now);
    }

    fn close(&mut self, now: u64) -> Result<(), CallError> {
        self.repairing.close(now)
    }

    fn abort(&mut self, now: u64) -> Result<(), CallError> {
        self.repairing.abort(now)
    }
}

impl<W: Congestion + Drop, B: Allocator, A: Allocator> Trained for Steady<W, B, A> {
    ghost use Rattle.tcp_steady.specs.Steady.{after_train, train_by_emit, written_by_train};

    type Train = Train;

    ghost train_answer = { λ s now window most room. train_by_emit W.control s now window most room };

    ghost train_written = { λ s now window most out. written_by_train W.control s now window most out };

    ghost after_train = { λ s now window most room. after_train W.control s now window most room };

    fn emit_train(&mut self, now: u64, window: u64, out: &mut [u8], most: usize) -> Option<Train> {
        Steady::emit_train(self, now, window, out, most)
    }
}

impl<W: Congestion + Drop, B: Allocator, A: Allocator> Retiring for Steady<W, B, A> {
    ghost use Rattle.std.specs.Prelude.{Some, None, if◌then◌else◌};
    ghost use Rattle.tcp_conn.specs.TimeWait.{has_time_wait, time_wait_of};
    ghost use Rattle.tcp_driver.specs.Times.{next_expiry};
    ghost use Rattle.tcp_steady.specs.Steady.{end_of};

    ghost time_wait = { λ s. if has_time_wait (end_of s) then Some (time_wait_of (end_of s)) else None };

    ghost until = { λ s. next_expiry s.repairing.connecting.flowing.driving.times };

    fn time_wait(&self) -> Option<TimeWait> {
        Retiring::time_wait(&self.repairing)
    }

    fn until(&self) -> Option<u64> {
        Retiring::until(&self.repairing)
    }
}
