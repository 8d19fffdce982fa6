//! What a host asks of an end for a device that cuts and sums segments.
ghost use Rattle.std.specs.Prelude.{◌≡◌, ◌≤◌, length, List, Option, ℕ};

use crate::timed::Timed;
use tcp_congestion::Congestion;
use tcp_connection::{Connection, Deferring};
use tcp_driver::{Core, Driver};

/// An end with its times that writes segments as one, for a device that cuts and sums them.
pub trait Trained: Timed {
    /// What an emission of them answers.
    type Train;

    ghost train_answer: { Self → ℕ → ℕ → ℕ → ℕ → Option Self.Train };

    /// What is written of them into a buffer.
    ghost train_written: { Self → ℕ → ℕ → ℕ → List ℕ → List ℕ };

    ghost after_train: { Self → ℕ → ℕ → ℕ → ℕ → Self };

    /// Writes as one the segments that may go out within `window`, as [`emit`](Timed::emit) has it, at most `most`.
    fn emit_train(
        &mut self,
        now: u64,
        window: u64,
        out: &mut [u8],
        most: usize,
    ) -> Option<Self::Train>
        requires { Self.behaviour.room ≤ length out.old }
        ensures train { result ≡ train_answer self.old now window most (length out.old) }
        ensures written { out.new ≡ train_written self.old now window most out.old }
        ensures state { self.new ≡ after_train self.old now window most (length out.old) };
}

impl<C: Core + Drop> Trained for Driver<C> {
    ghost use Rattle.tcp_driver.specs.Driver.{at};
    ghost use Rattle.tcp_driver.specs.Rows.{after_emissions, emissions_of};

    type Train = C::Train;

    ghost train_answer = { λ d now window most room. C.train_answer d.core window most room };

    ghost train_written = { λ d now window most out. C.machine.written_row d.core window most out };

    ghost after_train = { λ d now window most room. after_emissions C.machine (emissions_of (C.machine.row d.core window most room)) d (at d now) window };

    fn emit_train(
        &mut self,
        now: u64,
        window: u64,
        out: &mut [u8],
        most: usize,
    ) -> Option<C::Train> {
        Driver::emit_train(self, now, window, out, most)
    }
}

impl<C: Deferring + Drop, W: Congestion + Drop> Trained for Connection<C, W> {
    ghost use Rattle.tcp_connection.specs.Trains.{after_train, train_by_emit, written_by_train};

    type Train = C::Train;

    ghost train_answer = { λ k now window most room. train_by_emit C.machine C.insight C.train_answer W.control k now window most room };

    ghost train_written = { λ k now window most out. written_by_train C.machine C.insight W.control k now window most out };

    ghost after_train = { λ k now window most room. after_train C.machine C.insight W.control k now window most room };

    fn emit_train(
        &mut self,
        now: u64,
        window: u64,
        out: &mut [u8],
        most: usize,
    ) -> Option<C::Train> {
        Connection::emit_train(self, now, window, out, most)
    }
}
