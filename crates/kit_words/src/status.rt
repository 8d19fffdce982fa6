//! The program's exit status.
ghost use Rattle.std.specs.Prelude.{◌≡◌};
ghost use Rattle.kit_words.specs.Statuses.{status_of};

/// Success.
const WELL: u8 = 0;

/// The report has a refusal.
const REFUSED: u8 = 1;

/// The words, the file or its text have a fault.
const FAULT: u8 = 2;

/// The exit status of the program: 0 for `Ok(true)`, 1 for `Ok(false)`, a report with a refusal, 2 for an error.
pub fn exit_status<E>(answer: &Result<bool, E>) -> u8
    ensures { result ≡ status_of answer.now }
{
    match answer {
        Ok(true) => WELL,
        Ok(false) => REFUSED,
        Err(_) => FAULT,
    }
}
