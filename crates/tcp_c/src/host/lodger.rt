//! A connection as an end of a host.
use crate::connection::driven::Driven;
use region_heap::{Region, Still};
use tcp_conn::{CallError, Received, TimeWait, Train};
use tcp_driver::{Sent, Taken, Timer};
use tcp_host::{Retiring, Timed, Trained, Used};

/// A connection in a host: it lies where it was made, in its block.
#[derive(Drop)]
pub struct Lodger {
    /// The connection.
    pub driven: Box<Driven, Still>,
}

impl Timed for Lodger {
    ghost use Rattle.tcp_c.specs.Lodgers.{lodger_answer, of_lodger};

    type Arriving = Taken<tcp_conn::Taken>;

    ghost behaviour = { of_lodger };

    ghost arrival_answer = { lodger_answer };

    fn is_bursting(&self) -> bool {
        Timed::is_bursting(&self.driven.connection)
    }

    fn is_open(&self) -> bool {
        Timed::is_open(&self.driven.connection)
    }

    fn poll_at(&self) -> Option<u64> {
        Timed::poll_at(&self.driven.connection)
    }

    fn arrive(
        &mut self,
        now: u64,
        src: [u8; 4],
        dst: [u8; 4],
        bytes: &[u8],
        is_vouched: bool,
    ) -> Taken<tcp_conn::Taken> {
        Timed::arrive(
            &mut self.driven.connection,
            now,
            src,
            dst,
            bytes,
            is_vouched,
        )
    }

    fn emit(&mut self, now: u64, window: u64, out: &mut [u8]) -> Option<Sent> {
        Timed::emit(&mut self.driven.connection, now, window, out)
    }

    fn timeout(&mut self, now: u64) -> Option<Timer> {
        Timed::timeout(&mut self.driven.connection, now)
    }
}

impl Used for Lodger {
    ghost use Rattle.tcp_c.specs.Lodgers.{lodger_end, use_of_lodger};
    ghost use Rattle.tcp_conn.specs.Calls.{abort_answer, close_answer, receive_answer, send_answer};
    ghost use Rattle.tcp_conn.specs.Lending.{consume_answer};

    type Sending = Result<usize, CallError>;

    type Receiving = Result<Received, CallError>;

    type Consuming = Result<usize, CallError>;

    type Closing = Result<(), CallError>;

    type Aborting = Result<(), CallError>;

    ghost usage = { use_of_lodger };

    ghost send_answer = { λ g text. send_answer (lodger_end g) text };

    ghost receive_answer = { λ g room. receive_answer (lodger_end g) room };

    ghost consume_answer = { λ g count. consume_answer (lodger_end g) count };

    ghost close_answer = { λ g. close_answer (lodger_end g) };

    ghost abort_answer = { λ g. abort_answer (lodger_end g) };

    fn send(&mut self, now: u64, text: &[u8]) -> Result<usize, CallError> {
        Used::send(&mut self.driven.connection, now, text)
    }

    fn receive(&mut self, now: u64, out: &mut [u8]) -> Result<Received, CallError> {
        Used::receive(&mut self.driven.connection, now, out)
    }

    fn consume(&mut self, now: u64, count: usize) -> Result<usize, CallError> {
        Used::consume(&mut self.driven.connection, now, count)
    }

    fn acknowledge(&mut self, now: u64) {
        Used::acknowledge(&mut self.driven.connection, now);
    }

    fn close(&mut self, now: u64) -> Result<(), CallError> {
        Used::close(&mut self.driven.connection, now)
    }

    fn abort(&mut self, now: u64) -> Result<(), CallError> {
        Used::abort(&mut self.driven.connection, now)
    }
}

impl Trained for Lodger {
    ghost use Rattle.tcp_c.specs.HostEmissions.{lodger_train, lodger_trained, lodger_written};

    type Train = Train;

    ghost train_answer = { lodger_train };

    ghost train_written = { lodger_written };

    ghost after_train = { lodger_trained };

    fn emit_train(&mut self, now: u64, window: u64, out: &mut [u8], most: usize) -> Option<Train> {
        Trained::emit_train(&mut self.driven.connection, now, window, out, most)
    }
}

impl Retiring for Lodger {
    ghost use Rattle.tcp_c.specs.Lodgers.{lodger_time_wait, lodger_until};

    ghost time_wait = { lodger_time_wait };

    ghost until = { lodger_until };

    fn time_wait(&self) -> Option<TimeWait> {
        Retiring::time_wait(&self.driven.connection)
    }

    fn until(&self) -> Option<u64> {
        Retiring::until(&self.driven.connection)
    }
}
