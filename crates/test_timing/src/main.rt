//! Times and windows as values, for tests: reads calls, a line each, and answers each.
//! - `estimator FIRST LEAST GREATEST GRANULARITY AFTER_SYN` begins with another estimator, or answers `unsound`; `sample
//!   RTT`, `expired`, `window-opened` and `syn-resent` answer SRTT, RTTVAR and RTO.
//! - `watch` begins with another watch; it takes `sent START COUNT NOW` and `acked UNA NOW`.
//! - `reno SMSS [L]` and `cubic SMSS [L]` begin with another congestion window; `acknowledged ACKED UNA FLIGHT [NOW RTT]`,
//!   `delivered COUNT FLIGHT NOW RTT`, `duplicate UNA FLIGHT NXT`, `reported`, `lost UNA FLIGHT NXT`, `lost-again`,
//!   `finds-by-time`, `keep-pipe REPORTED`, `timed-out FLIGHT NXT`, `measured TRIP UNA NXT`, `syn-lost` and `idle` answer
//!   cwnd and ssthresh, `recovering` while a recovery goes on, `again` where the first segment has to be sent again, and
//!   `shrinks` where a loss is the first of a window; `room FLIGHT` answers how much may be sent, and `may-resend` whether
//!   a segment may be sent again, of which `resent COUNT` says that it was.
//! - `delayed RMSS DELAY` begins with another delay; `arrived COUNT URGENT NOW`, `answered` and `due NOW` answer when an
//!   acknowledgement is due.
//! - `sws MSS NAGLE TIMEOUT` begins with another sender; `window WND` and `segment QUEUED USABLE FLIGHT NOW` answer how long
//!   the next segment is, and when it is sent in any case.
//! - `limiter INTERVAL` begins with another limit; `grant NOW` answers whether an answer may be sent.
#![tactic(auto)]

mod answering;
mod estimates;
mod sending;
mod watches;
mod windows;
mod words;

use kit_io::{Counted, read_all};
use kit_text::{LineError, Lines, SPACE, cut};
use std::process::ExitCode;
use tcp_congestion::{DELAY, DelayedAck, Limiter, OVERRIDE, SwsAvoidance};
use tcp_timing::{Estimator, Rules, Watch};
use windows::Windows;

/// The values that lines call.
#[derive(Drop)]
struct Values {
    estimator: Estimator,
    watch: Watch,
    windows: Windows,
    delayed: DelayedAck,
    sws: SwsAvoidance,
    limiter: Limiter,
}

/// Makes a line's call, and appends its answer.
fn answer_line(values: &mut Values, line: &[u8], answers: &mut String) -> Result<(), LineError> {
    let (word, rest) = cut(SPACE, line);
    let rest = rest.unwrap_or(b"");
    match word {
        b"watch" | b"sent" | b"acked" => {
            watches::answer_watch(&mut values.watch, word, rest, answers)?;
        }
        b"delayed" | b"arrived" | b"answered" | b"due" => {
            answering::answer_delayed(&mut values.delayed, word, rest, answers)?;
        }
        b"limiter" | b"grant" => {
            answering::answer_limiter(&mut values.limiter, word, rest, answers)?;
        }
        b"sws" | b"window" | b"segment" => {
            sending::answer_sws(&mut values.sws, word, rest, answers)?;
        }
        b"standard" | b"estimator" | b"sample" | b"expired" | b"window-opened" | b"syn-resent" => {
            estimates::answer_estimator(&mut values.estimator, word, rest, answers)?;
        }
        _ => windows::answer_windows(&mut values.windows, word, rest, answers)?,
    }
    answers.push_str("\n")?;
    Ok(())
}

/// Makes the call of every line in order, and returns the answers.
fn answer_lines(rt: &impl AllocGlobal, text: &[u8]) -> Result<String, LineError> {
    let mut answers = String::new(rt.alloc());
    let mut values = Values {
        estimator: Estimator::new(Rules::standard()),
        watch: Watch::new(),
        windows: Windows::new(),
        delayed: DelayedAck::new(1460, DELAY),
        sws: SwsAvoidance::new(1460, false, OVERRIDE),
        limiter: Limiter::new(0),
    };
    let lines = Lines::new(text).map_err(|_| LineError::BadForm)?;
    for (_, line) in lines {
        answer_line(&mut values, line, &mut answers)?;
    }
    Ok(answers)
}

fn main(rt: HostRuntime) -> ExitCode {
    let mut input = Counted::new(rt.stdin());
    let Ok(text) = read_all(rt.alloc(), &mut input) else {
        return ExitCode::from(2);
    };
    match answer_lines(&rt, &text) {
        Ok(answers) => match print!(rt; "{answers}") {
            Ok(()) => ExitCode::from(0),
            Err(_) => ExitCode::from(2),
        },
        Err(_) => ExitCode::from(2),
    }
}
