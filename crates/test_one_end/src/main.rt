//! One end alone, for tests: reads calls and arriving segments, a line each, and prints each answer, each emission and
//! the phase after it. They are those of the log of `solo` over all lines of that end up to now. A line `new ISN MSS
//! SEND RECV SHIFT SACK` begins with another end, or prints why there is none; a shift of `none` offers none, SACK is 0
//! or 1. A seventh word is the number of runs, from 1 to 4096. Other lines are `connect`, `listen`, `close`, `abort`, `acknowledge`, `emit`, `emit bytes` (which prints the
//! segment's bytes), `timers`; `send HEX`, `receive N`, `timer NAME`; or `arrive SOURCE DESTINATION HEX`. The end is
//! 10.0.0.2, port 2; it connects to 10.0.0.1, port 1.
#![tactic(auto)]

mod answers;
mod calls;
mod events;
mod reading;
mod stream;

use kit_io::{Counted, read_all};
use kit_text::{LineError, Lines};
use std::alloc::Global;
use std::process::ExitCode;
use stream::Stream;

/// Takes one line: another end, or an event of the end there is.
fn take_line(
    alloc: Global,
    stream: &mut Option<Stream>,
    line: &[u8],
    answers: &mut String,
) -> Result<(), LineError> {
    if let Some((config, runs)) = reading::read_config(line) {
        return stream::begin(alloc, config, runs, stream, answers);
    }
    match stream {
        Some(stream) => stream.take_line(alloc, line, answers),
        None => Err(LineError::BadForm),
    }
}

/// Takes every line in order.
fn take_lines(
    alloc: Global,
    stream: &mut Option<Stream>,
    lines: Lines<'_>,
    answers: &mut String,
) -> Result<(), LineError> {
    for (_, line) in lines {
        take_line(alloc, stream, line, answers)?;
    }
    Ok(())
}

/// The answers to all lines of a text.
fn answers_to(alloc: Global, text: &[u8]) -> Option<String> {
    let Ok(lines) = Lines::new(text) else {
        return None;
    };
    let mut answers = String::new(alloc);
    let mut stream = None;
    match take_lines(alloc, &mut stream, lines, &mut answers) {
        Ok(()) => Some(answers),
        Err(_) => None,
    }
}

/// Prints the answers to all lines of a text.
fn print_answers(rt: &(impl Print + AllocGlobal), text: &[u8]) -> bool {
    match answers_to(rt.alloc(), text) {
        Some(answers) => print!(rt; "{answers}").is_ok(),
        None => false,
    }
}

fn main(rt: HostRuntime) -> ExitCode {
    let mut input = Counted::new(rt.stdin());
    let Ok(text) = read_all(rt.alloc(), &mut input) else {
        return ExitCode::from(2);
    };
    if print_answers(&rt, &text) {
        ExitCode::SUCCESS
    } else {
        ExitCode::from(2)
    }
}
