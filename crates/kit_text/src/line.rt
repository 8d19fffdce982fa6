use std::alloc::AllocError;
use thiserror::Error;

/// Why a line has no meaning.
#[derive(Clone, Copy, Debug, PartialEq, Eq, Error)]
pub enum LineError {
    /// It has none of the forms that are expected.
    #[error("the line has no form")]
    BadForm,
    /// There is no memory for its meaning.
    #[error("no memory for the line")]
    NoMemory,
}

impl From<AllocError> for LineError {
    ghost use Rattle.std.specs.Prelude.{◌≡◌};
    ghost use Rattle.kit_text.specs.declared.line.LineError.TheVariants.{NoMemory};

    ghost from_gives = { λ _ e. e ≡ NoMemory };

    fn from(_: AllocError) -> LineError {
        LineError::NoMemory
    }
}
