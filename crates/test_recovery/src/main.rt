//! What is in flight and what of it is lost, for tests: reads calls, a line each, and answers each.
//! - `rack` begins with nothing in flight. `sent START COUNT NOW MIN_RTT`, `received START END NOW MIN_RTT`, `settled
//!   START END` and `recovered` answer RACK.xmit_ts, RACK.end_seq, RACK.rtt, RACK.fack and RACK.reo_wnd_mult, and
//!   `reordered` once reordering was seen.
//! - `window SRTT MIN_RTT CERTAIN` answers the reordering window, `lost WINDOW NOW` the first stretch that is lost, and
//!   `deadline WINDOW` when the next one is; `resent AT` when what is outstanding from there on was sent last, if it was
//!   sent again.
//! - `probe` begins with no probe; `start NOW SRTT ONE RTO_AT`, with a SRTT of 0 where none is known, `stop`,
//!   `recovering`, `measured`, `probed NXT AGAIN` and `acked UNA BOTH_CAME` answer when the probe is sent, and `repaired`
//!   where it has repaired a loss.
#![tactic(auto)]

mod probing;
mod racking;
mod words;

use kit_io::{Counted, read_all};
use kit_text::{LineError, Lines, SPACE, cut};
use probing::answer_probe;
use racking::{answer_found, answer_rack};
use std::process::ExitCode;
use tcp_recovery::{Probe, Rack};

/// Makes a line's call, and appends its answer.
fn answer_line(
    rack: &mut Rack,
    probe: &mut Probe,
    line: &[u8],
    answers: &mut String,
) -> Result<(), LineError> {
    let (word, rest) = cut(SPACE, line);
    let rest = rest.unwrap_or(b"");
    match word {
        b"window" | b"lost" | b"deadline" | b"resent" => answer_found(rack, word, rest, answers)?,
        b"probe" | b"start" | b"stop" | b"recovering" | b"measured" | b"probed" | b"acked" => {
            answer_probe(probe, word, rest, answers)?;
        }
        _ => answer_rack(rack, word, rest, answers)?,
    }
    answers.push_str("\n")?;
    Ok(())
}

/// Makes the call of every line in order, and returns the answers.
fn answer_lines(rt: &impl AllocGlobal, text: &[u8]) -> Result<String, LineError> {
    let mut answers = String::new(rt.alloc());
    let mut rack = Rack::new();
    let mut probe = Probe::new();
    let lines = Lines::new(text).map_err(|_| LineError::BadForm)?;
    for (_, line) in lines {
        answer_line(&mut rack, &mut probe, line, &mut answers)?;
    }
    Ok(answers)
}

fn main(rt: HostRuntime) -> ExitCode {
    let mut input = Counted::new(rt.stdin());
    let Ok(text) = read_all(rt.alloc(), &mut input) else {
        return ExitCode::from(2);
    };
    match answer_lines(&rt, &text) {
        Ok(answers) => match print!(rt; "{answers}") {
            Ok(()) => ExitCode::from(0),
            Err(_) => ExitCode::from(2),
        },
        Err(_) => ExitCode::from(2),
    }
}
