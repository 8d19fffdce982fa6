ghost use Rattle.std.specs.Prelude.{◌≡◌, Some};
ghost use Rattle.tcp_replay.specs.Refusals.{step_error_number, step_error_text, world_error_text, solo_error_text};
ghost use Rattle.tcp_replay.specs.declared.outcome.StepError.TheVariants.{NoMemory};

use crate::event::Side;
use std::alloc::AllocError;
use std::error::Error;
use std::fmt;
use tcp_conn::{Arrival, CallError, ConfigError, Received};

/// The outcome of an event.
#[derive(Clone, Copy, Debug, PartialEq, Eq)]
pub enum Outcome {
    /// The answer of `connect`, `listen`, `close` or `abort`; Ok for `acknowledge`.
    Call(Result<(), CallError>),
    /// How many bytes `send` accepted.
    Sent(Result<usize, CallError>),
    /// What `receive` delivered.
    Got(Result<Received, CallError>),
    /// Whether the timer's rule applied; of `resend_first` and `resend` whether anything of it was in flight.
    Timer(bool),
    /// The number of the segment that was emitted, if one was due.
    Emitted(Option<usize>),
    /// What became of the segment that arrived.
    Arrived(Arrival),
}

/// Why an event is refused, in the order in which the reasons are looked for. The world is as it was.
#[derive(Clone, Copy, Debug, PartialEq, Eq)]
pub enum StepError {
    /// No segment of this number was emitted.
    NoSuchSegment,
    /// The value of a damage is 0.
    NoChange,
    /// The offset of a damage is past the segment's end.
    PlaceOutside,
    /// The lifetime of the segment is over: its position, or that of its acknowledgement, lies too far behind (RFC
    /// 9293, 3.4).
    Expired,
    /// There is no memory for the world to grow.
    NoMemory,
}

impl StepError {
    /// The number under which the refusal is reported, from 31 to 35.
    pub fn number(self) -> u8
        ensures { result ≡ step_error_number self }
    {
        match self {
            StepError::NoSuchSegment => 31,
            StepError::NoChange => 32,
            StepError::PlaceOutside => 33,
            StepError::Expired => 35,
            StepError::NoMemory => 34,
        }
    }
}

impl fmt::Display for StepError {
    ghost output = { λ e. Some (step_error_text e) };

    fn fmt<W: fmt::Write>(&self, f: &mut fmt::Formatter<W>) -> fmt::Result {
        f.write_str(match self {
            StepError::NoSuchSegment => "no segment of this number was emitted",
            StepError::NoChange => "the damage changes nothing",
            StepError::PlaceOutside => "the place lies past the segment's end",
            StepError::Expired => "the segment's lifetime is over",
            StepError::NoMemory => "no memory for the event",
        })
    }
}

impl Error for StepError {}

impl From<AllocError> for StepError {
    ghost from_gives = { λ _ e. e ≡ NoMemory };

    fn from(_: AllocError) -> StepError {
        StepError::NoMemory
    }
}

/// Why a world can't be made.
#[derive(Clone, Copy, Debug, PartialEq, Eq)]
pub enum WorldError {
    /// The end of this side can't be made.
    Config(Side, ConfigError),
}

impl fmt::Display for WorldError {
    ghost output = { λ e. Some (world_error_text e) };

    fn fmt<W: fmt::Write>(&self, f: &mut fmt::Formatter<W>) -> fmt::Result {
        let WorldError::Config(side, error) = self;
        match side {
            Side::A => write!(f, "side A: {error}"),
            Side::B => write!(f, "side B: {error}"),
        }
    }
}

impl Error for WorldError {}

/// Why one end can't be made, or doesn't take all its events.
#[derive(Clone, Copy, Debug, PartialEq, Eq)]
pub enum SoloError {
    /// The end can't be made.
    Config(ConfigError),
    /// There is no memory for the event with this index, from 0: the error is always `StepError::NoMemory`.
    At(usize, StepError),
}

impl fmt::Display for SoloError {
    ghost output = { λ e. Some (solo_error_text e) };

    fn fmt<W: fmt::Write>(&self, f: &mut fmt::Formatter<W>) -> fmt::Result {
        match *self {
            SoloError::Config(error) => write!(f, "{error}"),
            SoloError::At(index, error) => write!(f, "event {index}: {error}"),
        }
    }
}

impl Error for SoloError {}
