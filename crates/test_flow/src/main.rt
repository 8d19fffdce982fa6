//! A flow of a small end, for tests: reads calls, a line each, and answers each by what the call answered, the time of
//! `poll_at`, cwnd and ssthresh, `recovering` while a loss isn't repaired, and what is in flight.
//!
//! `reno NOW NUMBER LIMIT`, `cubic NOW NUMBER LIMIT` and `none NOW NUMBER LIMIT` begin with another end, whose first number is
//! this, under a window of numbers. Then `send NOW COUNT`, `close NOW`, `abort NOW`, `receive NOW`, `acknowledge NOW`, `arrive NOW
//! ACK GAP FIN WINDOW FLAGS`, `vouched` with the same, `emit NOW WINDOW`, `train NOW WINDOW`, `timeout NOW`, `tick NOW`,
//! `resend-first NOW`, `user-timeout LIMIT`, `patience 0` or `1`, `lose found`, `lose again` or `lose repaired`, and `choose RULE SMSS
//! LIMIT`.
#![tactic(auto)]

mod calls;
mod small;
mod words;

use calls::{answer_call, new_driver, new_flow, show};
use kit_io::{Counted, read_all};
use kit_text::{LineError, Lines, SPACE, cut};
use std::process::ExitCode;
use tcp_congestion::AnyWindow;
use tcp_flow::Flow;

/// Makes the call of every line in order, and returns the answers.
fn answer_lines(rt: &impl AllocGlobal, text: &[u8]) -> Result<String, LineError> {
    let mut answers = String::new(rt.alloc());
    let mut flow = Flow::new(new_driver(0, 0), AnyWindow::Unlimited, 0);
    let lines = Lines::new(text).map_err(|_| LineError::BadForm)?;
    for (_, line) in lines {
        let (word, rest) = cut(SPACE, line);
        let rest = rest.unwrap_or(b"");
        match new_flow(word, rest)? {
            Some(new) => flow = new,
            None => answer_call(&mut flow, word, rest, &mut answers)?,
        }
        show(&flow, &mut answers)?;
    }
    Ok(answers)
}

fn main(rt: HostRuntime) -> ExitCode {
    let mut input = Counted::new(rt.stdin());
    let Ok(text) = read_all(rt.alloc(), &mut input) else {
        return ExitCode::from(2);
    };
    match answer_lines(&rt, &text) {
        Ok(answers) => match print!(rt; "{answers}") {
            Ok(()) => ExitCode::from(0),
            Err(_) => ExitCode::from(2),
        },
        Err(_) => ExitCode::from(2),
    }
}
