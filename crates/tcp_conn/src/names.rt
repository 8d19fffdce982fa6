//! The names of states, endings and timers, as they are displayed.
use crate::phase::{Ending, Phase, Timer};
use std::fmt;

impl Phase {
    ghost use Rattle.std.specs.Prelude.{◌≡◌};
    ghost use Rattle.tcp_conn.specs.Names.{phase_name};

    /// The state as RFC 9293, 3.3.2 writes it, such as `SYN-SENT`; `Display` writes the same.
    #[must_use]
    pub fn name(self) -> &'static str
        ensures { result.now ≡ phase_name self }
    {
        match self {
            Phase::Closed => "CLOSED",
            Phase::Listen => "LISTEN",
            Phase::SynSent => "SYN-SENT",
            Phase::SynReceived => "SYN-RECEIVED",
            Phase::Established => "ESTABLISHED",
            Phase::FinWait1 => "FIN-WAIT-1",
            Phase::FinWait2 => "FIN-WAIT-2",
            Phase::CloseWait => "CLOSE-WAIT",
            Phase::Closing => "CLOSING",
            Phase::LastAck => "LAST-ACK",
            Phase::TimeWait => "TIME-WAIT",
        }
    }
}

impl fmt::Display for Phase {
    ghost use Rattle.std.specs.Prelude.{Some};
    ghost use Rattle.tcp_conn.specs.Names.{phase_name};

    ghost output = { λ p. Some (phase_name p) };

    fn fmt<W: fmt::Write>(&self, f: &mut fmt::Formatter<W>) -> fmt::Result {
        f.write_str(self.name())
    }
}

impl Ending {
    ghost use Rattle.std.specs.Prelude.{◌≡◌};
    ghost use Rattle.tcp_conn.specs.Names.{ending_name};

    /// `not-ended`, `orderly`, `reset` or `aborted`; `Display` writes the same.
    #[must_use]
    pub fn name(self) -> &'static str
        ensures { result.now ≡ ending_name self }
    {
        match self {
            Ending::NotEnded => "not-ended",
            Ending::Orderly => "orderly",
            Ending::Reset => "reset",
            Ending::Aborted => "aborted",
        }
    }
}

impl fmt::Display for Ending {
    ghost use Rattle.std.specs.Prelude.{Some};
    ghost use Rattle.tcp_conn.specs.Names.{ending_name};

    ghost output = { λ e. Some (ending_name e) };

    fn fmt<W: fmt::Write>(&self, f: &mut fmt::Formatter<W>) -> fmt::Result {
        f.write_str(self.name())
    }
}

impl Timer {
    ghost use Rattle.std.specs.Prelude.{◌≡◌};
    ghost use Rattle.tcp_conn.specs.Names.{timer_name};

    /// All timers, in the order of the answers of `Endpoint::timers`.
    pub const ALL: [Timer; 3] = [Timer::Retransmit, Timer::Reorder, Timer::TimeWait];

    /// `retransmit`, `reorder` or `timewait`; `Display` writes the same.
    #[must_use]
    pub fn name(self) -> &'static str
        ensures { result.now ≡ timer_name self }
    {
        match self {
            Timer::Retransmit => "retransmit",
            Timer::Reorder => "reorder",
            Timer::TimeWait => "timewait",
        }
    }
}

impl fmt::Display for Timer {
    ghost use Rattle.std.specs.Prelude.{Some};
    ghost use Rattle.tcp_conn.specs.Names.{timer_name};

    ghost output = { λ t. Some (timer_name t) };

    fn fmt<W: fmt::Write>(&self, f: &mut fmt::Formatter<W>) -> fmt::Result {
        f.write_str(self.name())
    }
}
