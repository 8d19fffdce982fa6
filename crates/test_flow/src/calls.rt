//! The calls of a flow.
use crate::small::Small;
use crate::words::{first_byte, first_limit, first_number};
use kit_text::{LineError, SPACE, cut};
use tcp_congestion::{AnyWindow, Congestion, Cubic, MAX_LIMIT, MAX_SEGMENT, Reno};
use tcp_driver::{Driver, Limits, Sent, Taken, Timer};
use tcp_flow::{Flow, Loss};
use tcp_timing::Rules;

/// A flow of an end that has sent nothing yet, under a window of full segments of a number: the time, the first number, and how
/// many segments an acknowledgement counts for in slow start.
pub(crate) fn new_flow(
    rule: &[u8],
    words: &[u8],
) -> Result<Option<Flow<Small, AnyWindow>>, LineError> {
    let Some(rule) = rule_of(rule) else {
        return Ok(None);
    };
    let (now, rest) = first_number(words)?;
    let (first, rest) = first_number(rest)?;
    let (limit, _) = first_number(rest)?;
    let window = new_window(rule, 1, limit);
    Ok(Some(Flow::new(new_driver(first, now), window, now)))
}

/// By which rule a window grows.
#[derive(Clone, Copy)]
pub(crate) enum Rule {
    None,
    Reno,
    Cubic,
}

/// The rule of a word, where it is one.
fn rule_of(word: &[u8]) -> Option<Rule> {
    match word {
        b"none" => Some(Rule::None),
        b"reno" => Some(Rule::Reno),
        b"cubic" => Some(Rule::Cubic),
        _ => None,
    }
}

/// A window that begins.
fn new_window(rule: Rule, smss: u64, limit: u64) -> AnyWindow {
    if smss == 0 || smss > MAX_SEGMENT || limit == 0 || limit > MAX_LIMIT {
        return AnyWindow::Unlimited;
    }
    match rule {
        Rule::None => AnyWindow::Unlimited,
        Rule::Reno => AnyWindow::Reno(Reno::with_limit(smss, limit)),
        Rule::Cubic => AnyWindow::Cubic(Cubic::with_limit(smss, limit)),
    }
}

/// A driver of an end that has sent nothing yet.
pub(crate) fn new_driver(first: u64, now: u64) -> Driver<Small> {
    let end = Small {
        una: first,
        nxt: first,
        accepted: first,
        again: 0,
        until: 0,
        unread: 0,
        reported: 0,
        is_owed: false,
        is_resting: false,
        is_closed: false,
        is_over: false,
    };
    Driver::new(end, Rules::standard(), Limits::standard(), now)
}

/// Appends what a flow shows after each call.
pub(crate) fn show(flow: &Flow<Small, AnyWindow>, answers: &mut String) -> Result<(), LineError> {
    match flow.poll_at() {
        Some(time) => write!(answers, " {time}")?,
        None => answers.push_str(" -")?,
    }
    let window = flow.window();
    write!(answers, " {} {}", window.cwnd(), window.ssthresh())?;
    if window.is_recovering() {
        answers.push_str(" recovering")?;
    }
    write!(answers, " {}", flow.driver().flight())?;
    if flow.is_suspect() {
        answers.push_str(" suspect")?;
    }
    answers.push_str("\n")?;
    Ok(())
}

/// Makes a line's call, and appends its answer.
pub(crate) fn answer_call(
    flow: &mut Flow<Small, AnyWindow>,
    word: &[u8],
    rest: &[u8],
    answers: &mut String,
) -> Result<(), LineError> {
    match word {
        b"user-timeout" => {
            let (limit, _) = first_limit(rest)?;
            flow.set_user_timeout(limit);
            answers.push_str("set")?;
            return Ok(());
        }
        b"patience" => {
            let (is_patient, _) = first_number(rest)?;
            flow.set_patience(is_patient == 1);
            answers.push_str("set")?;
            return Ok(());
        }
        b"lose" => return loses(flow, rest, answers),
        b"choose" => return chooses(flow, rest, answers),
        _ => {}
    }
    let (now, rest) = first_number(rest)?;
    match word {
        b"arrive" => arrives(flow, now, false, rest, answers),
        b"vouched" => arrives(flow, now, true, rest, answers),
        b"emit" => emits(flow, now, rest, answers),
        b"train" => emits_as_one(flow, now, rest, answers),
        b"send" => {
            let (count, _) = first_number(rest)?;
            let text = [0; 100];
            let count = (count as usize).min(text.len());
            write!(answers, "{}", flow.send(now, &text[..count]))?;
            Ok(())
        }
        _ => answer_plain(flow, word, now, answers),
    }
}

/// A call with no more than its time.
fn answer_plain(
    flow: &mut Flow<Small, AnyWindow>,
    word: &[u8],
    now: u64,
    answers: &mut String,
) -> Result<(), LineError> {
    match word {
        b"receive" => write!(answers, "{}", flow.receive(now, &mut []))?,
        b"consume" => write!(answers, "{}", flow.consume(now, 1))?,
        b"acknowledge" => {
            flow.acknowledge(now);
            answers.push_str("asked")?;
        }
        b"close" => write!(answers, "{}", flow.close(now))?,
        b"abort" => write!(answers, "{}", flow.abort(now))?,
        b"resend-first" => write!(answers, "{}", flow.resend_first(now))?,
        b"timeout" => answers.push_str(timer_name(flow.timeout(now)))?,
        b"tick" => {
            let (timer, next) = flow.tick(now);
            answers.push_str(timer_name(timer))?;
            match next {
                Some(time) => write!(answers, " {time}")?,
                None => answers.push_str(" -")?,
            }
        }
        _ => return Err(LineError::BadForm),
    }
    Ok(())
}

/// A loss was found by the caller.
fn loses(
    flow: &mut Flow<Small, AnyWindow>,
    rest: &[u8],
    answers: &mut String,
) -> Result<(), LineError> {
    match rest {
        b"found" => flow.lose(Loss::Found),
        b"again" => flow.lose(Loss::Again),
        b"repaired" => flow.lose(Loss::Repaired),
        _ => return Err(LineError::BadForm),
    }
    answers.push_str("told")?;
    Ok(())
}

/// Another window is chosen, of full segments of so many numbers.
fn chooses(
    flow: &mut Flow<Small, AnyWindow>,
    rest: &[u8],
    answers: &mut String,
) -> Result<(), LineError> {
    let (word, rest) = cut(SPACE, rest);
    let Some(rule) = rule_of(word) else {
        return Err(LineError::BadForm);
    };
    let (smss, rest) = first_number(rest.unwrap_or(b""))?;
    let (limit, _) = first_number(rest)?;
    flow.set_window(new_window(rule, smss, limit));
    answers.push_str("chosen")?;
    Ok(())
}

/// What a timer is called in an answer.
fn timer_name(timer: Option<Timer>) -> &'static str {
    match timer {
        Some(Timer::Retransmit) => "retransmit",
        Some(Timer::Reorder) => "reorder",
        Some(Timer::TimeWait) => "time-wait",
        Some(Timer::User) => "user",
        None => "-",
    }
}

/// A segment comes: its bytes 0 to 3, and 13.
fn arrives(
    flow: &mut Flow<Small, AnyWindow>,
    now: u64,
    is_vouched: bool,
    rest: &[u8],
    answers: &mut String,
) -> Result<(), LineError> {
    let (ack, rest) = first_byte(rest)?;
    let (gap, rest) = first_byte(rest)?;
    let (fin, rest) = first_byte(rest)?;
    let (window, rest) = first_byte(rest)?;
    let (flags, _) = first_byte(rest)?;
    let bytes = [ack, gap, fin, window, 0, 0, 0, 0, 0, 0, 0, 0, 0, flags];
    let taken = if is_vouched {
        flow.arrive_vouched(now, [10, 0, 0, 2], [10, 0, 0, 1], &bytes)
    } else {
        flow.arrive(now, [10, 0, 0, 2], [10, 0, 0, 1], &bytes)
    };
    match taken {
        Taken::Done(report, _) => write!(answers, "taken {}", report.acked)?,
        Taken::EmitFirst => answers.push_str("emit-first")?,
        Taken::Withheld => answers.push_str("withheld")?,
    }
    Ok(())
}

/// What is due goes out, within a window.
fn emits(
    flow: &mut Flow<Small, AnyWindow>,
    now: u64,
    rest: &[u8],
    answers: &mut String,
) -> Result<(), LineError> {
    let (window, _) = first_number(rest)?;
    let mut out = [0; 14];
    told(flow.emit(now, window, &mut out), answers)
}

/// What is due goes out as a train of the end, which is one segment.
fn emits_as_one(
    flow: &mut Flow<Small, AnyWindow>,
    now: u64,
    rest: &[u8],
    answers: &mut String,
) -> Result<(), LineError> {
    let (window, _) = first_number(rest)?;
    let mut out = [0; 14];
    told(flow.emit_train(now, window, &mut out, 9), answers)
}

/// Appends what has gone out.
fn told(sent: Option<Sent>, answers: &mut String) -> Result<(), LineError> {
    match sent {
        Some(sent) => write!(answers, "sent {} {}", sent.start, sent.count)?,
        None => answers.push_str("-")?,
    }
    Ok(())
}
