//! The program's commands over readers and writers that fail or take few bytes at a time: each input line is a row,
//! which the module `rows` describes. Before the rows: how many events a script has, and the line of each fault.
#![tactic(auto)]

mod devices;
mod faults;
mod rows;
mod texts;

use kit_io::{Counted, read_all};
use kit_script::read_script;
use kit_text::Lines;
use std::io;
use std::process::ExitCode;

/// How many events a script has.
fn print_event_count(rt: &(impl Print + AllocGlobal), script: &str) -> io::Result<()> {
    match read_script(rt.alloc(), script) {
        Ok(script) => {
            let count = script.events.len();
            println!(rt; "{count} events")
        }
        Err(fault) => println!(rt; "{fault}"),
    }
}

/// Runs the rows of a text.
fn print_rows(rt: &(impl Print + AllocGlobal), text: &[u8]) -> io::Result<()> {
    let Ok(lines) = Lines::new(text) else {
        return Err(io::Error::from(io::ErrorKind::InvalidData));
    };
    for (_, line) in lines {
        rows::print_row(rt, line)?;
    }
    Ok(())
}

fn print_all(rt: &(impl Print + AllocGlobal), rows: &[u8]) -> io::Result<()> {
    print_event_count(rt, texts::CONNECTION)?;
    faults::print_faults(rt)?;
    print_rows(rt, rows)
}

fn main(rt: HostRuntime) -> ExitCode {
    let mut input = Counted::new(rt.stdin());
    let Ok(rows) = read_all(rt.alloc(), &mut input) else {
        return ExitCode::FAILURE;
    };
    match print_all(&rt, &rows) {
        Ok(()) => ExitCode::SUCCESS,
        Err(_) => ExitCode::FAILURE,
    }
}
