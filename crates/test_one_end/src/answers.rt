//! What the answers of kit_report leave out: a call that returns nothing, and the state of the end after it.
ghost use Rattle.std.specs.Prelude.{◌≡◌, ◌++◌, OnOk, string_bytes};
ghost use Rattle.test_one_end.specs.Answers.{call_text, state_text};

use kit_report::push_refused;
use std::alloc::AllocError;
use tcp_conn::{CallError, Endpoint};

pub(crate) fn push_call(text: &mut String, answer: Result<(), CallError>) -> Result<(), AllocError>
    ensures { OnOk result (string_bytes text.new ≡ string_bytes text.old ++ call_text answer) }
{
    match answer {
        Ok(()) => text.push_str("ok"),
        Err(refusal) => push_refused(text, refusal.number()),
    }
}

/// Appends the end's phase, its ending and its counts.
pub(crate) fn push_state(text: &mut String, end: &Endpoint) -> Result<(), AllocError>
    ensures { OnOk result (string_bytes text.new ≡ string_bytes text.old ++ state_text end.now) }
{
    let phase = end.phase();
    let ending = end.ending();
    let unread = end.unread();
    let released = end.released();
    let ordered = end.ordered();
    write!(
        text,
        " {phase} {ending} unread {unread} released {released} ordered {ordered}\n"
    )
}
