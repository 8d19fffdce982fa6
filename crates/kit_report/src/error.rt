use std::alloc::AllocError;
use tcp_conn::ConfigError;
use tcp_replay::Side;
use thiserror::Error;

/// Why no report of a script is made.
#[derive(Clone, Copy, Debug, PartialEq, Eq, Error)]
pub enum ReportError {
    /// The end of this side can't be made of its Config; never because there is no memory.
    #[error("the end of side {0} can't be made: {1}")]
    Config(Side, ConfigError),
    /// There is no memory.
    #[error("no memory for the report")]
    NoMemory,
}

impl From<AllocError> for ReportError {
    ghost use Rattle.std.specs.Prelude.{◌≡◌};
    ghost use Rattle.kit_report.specs.declared.error.ReportError.TheVariants.{NoMemory};

    ghost from_gives = { λ _ e. e ≡ NoMemory };

    fn from(_: AllocError) -> ReportError {
        ReportError::NoMemory
    }
}
