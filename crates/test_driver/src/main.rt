//! A driver of a small end, for tests: reads calls, a line each, and answers each by what the call answered, the time of
//! `poll_at`, the retransmission timeout, what is in flight, and whether the path is suspect.
//!
//! `new NOW NUMBER TIME_WAIT SUSPECT HANDSHAKE USER FIN_WAIT_2` begins with another end, whose first number is this; a limit of `-` is
//! none. Then `send NOW COUNT`, `receive NOW`, `acknowledge NOW`, `close NOW`, `abort NOW`, `resend-first NOW`,
//! `user-timeout LIMIT`, `patience 0` or `1`, `arrive NOW ACK GAP FIN WINDOW FLAGS`, `emit NOW WINDOW` and `timeout NOW`.
#![tactic(auto)]

mod calls;
mod small;
mod words;

use calls::{answer_call, new_driver};
use kit_io::{Counted, read_all};
use kit_text::{LineError, Lines, SPACE, cut};
use small::Small;
use std::process::ExitCode;
use tcp_driver::Driver;

/// Appends what a driver shows after each call.
fn show(driver: &Driver<Small>, answers: &mut String) -> Result<(), LineError> {
    match driver.poll_at() {
        Some(time) => write!(answers, " {time}")?,
        None => answers.push_str(" -")?,
    }
    write!(answers, " {} {}", driver.estimator().rto(), driver.flight())?;
    let suspect = if driver.is_suspect() {
        " suspect\n"
    } else {
        "\n"
    };
    answers.push_str(suspect)?;
    Ok(())
}

/// Makes the call of every line in order, and returns the answers.
fn answer_lines(rt: &impl AllocGlobal, text: &[u8]) -> Result<String, LineError> {
    let mut answers = String::new(rt.alloc());
    let mut driver = new_driver(b"0 0 0 0 - - -")?;
    let lines = Lines::new(text).map_err(|_| LineError::BadForm)?;
    for (_, line) in lines {
        let (word, rest) = cut(SPACE, line);
        let rest = rest.unwrap_or(b"");
        if let b"new" = word {
            driver = new_driver(rest)?;
            answers.push_str("new")?;
        } else {
            answer_call(&mut driver, word, rest, &mut answers)?;
        }
        show(&driver, &mut answers)?;
    }
    Ok(answers)
}

fn main(rt: HostRuntime) -> ExitCode {
    let mut input = Counted::new(rt.stdin());
    let Ok(text) = read_all(rt.alloc(), &mut input) else {
        return ExitCode::from(2);
    };
    match answer_lines(&rt, &text) {
        Ok(answers) => match print!(rt; "{answers}") {
            Ok(()) => ExitCode::from(0),
            Err(_) => ExitCode::from(2),
        },
        Err(_) => ExitCode::from(2),
    }
}
