//! Both buffers of an end, for tests: reads calls, a line each, and answers each. `queue CAPACITY` and `inbox CAPACITY`
//! begin with another send queue or reassembly, or answer why there is none; a second word is the number of runs. A queue takes `offer HEX`, `release N`,
//! `copy AT N`, `mark FROM TO`, `forget`, `unmarked AT`, `marked` (the end of the last mark) and `state`. A reassembly
//! takes `place OFFSET HEX` or `place -BEFORE HEX`, `read N`, `blocks`, `clear`, `clear_held` and `state`.
#![tactic(auto)]

mod buffer;
mod inbox;
mod queue;
mod words;

use kit_io::{Counted, read_all};
use kit_text::{LineError, Lines};
use std::process::ExitCode;

/// Makes the call of every line in order, and returns the answers.
fn answer_lines(rt: &impl AllocGlobal, text: &[u8]) -> Result<String, LineError> {
    let mut answers = String::new(rt.alloc());
    let mut buffer = None;
    let lines = Lines::new(text).map_err(|_| LineError::BadForm)?;
    for (_, line) in lines {
        buffer = buffer::answer_line(rt.alloc(), buffer, line, &mut answers)?;
    }
    Ok(answers)
}

fn main(rt: HostRuntime) -> ExitCode {
    let mut input = Counted::new(rt.stdin());
    let Ok(text) = read_all(rt.alloc(), &mut input) else {
        return ExitCode::from(2);
    };
    match answer_lines(&rt, &text) {
        Ok(answers) => match print!(rt; "{answers}") {
            Ok(()) => ExitCode::from(0),
            Err(_) => ExitCode::from(2),
        },
        Err(_) => ExitCode::from(2),
    }
}
