//! The calls of a driver.
use crate::small::Small;
use crate::words::{first_byte, first_limit, first_number};
use kit_text::LineError;
use tcp_driver::{Driver, Limits, Taken, Timer};
use tcp_timing::Rules;

/// A driver of an end that has sent nothing yet.
pub(crate) fn new_driver(words: &[u8]) -> Result<Driver<Small>, LineError> {
    let (now, rest) = first_number(words)?;
    let (first, rest) = first_number(rest)?;
    let (time_wait, rest) = first_number(rest)?;
    let (suspect_after, rest) = first_byte(rest)?;
    let (handshake, rest) = first_limit(rest)?;
    let (user, rest) = first_limit(rest)?;
    let (fin_wait_2, _) = first_limit(rest)?;
    let end = Small {
        una: first,
        nxt: first,
        accepted: first,
        again: 0,
        until: 0,
        unread: 0,
        has_gap: false,
        is_owed: false,
        is_resting: false,
        is_closed: false,
        is_over: false,
    };
    let limits = Limits {
        time_wait,
        suspect_after: u32::from(suspect_after),
        handshake,
        user,
        fin_wait_2,
        guard: None,
        is_patient: false,
    };
    Ok(Driver::new(end, Rules::standard(), limits, now))
}

/// Makes a line's call, and appends its answer.
pub(crate) fn answer_call(
    driver: &mut Driver<Small>,
    word: &[u8],
    rest: &[u8],
    answers: &mut String,
) -> Result<(), LineError> {
    if let b"user-timeout" = word {
        let (limit, _) = first_limit(rest)?;
        driver.set_user_timeout(limit);
        answers.push_str("set")?;
        return Ok(());
    }
    if let b"patience" = word {
        let (is_patient, _) = first_number(rest)?;
        driver.set_patience(is_patient == 1);
        answers.push_str("set")?;
        return Ok(());
    }
    let (now, rest) = first_number(rest)?;
    match word {
        b"arrive" => arrives(driver, now, rest, answers),
        b"emit" => emits(driver, now, rest, answers),
        b"resend" => {
            let (from, rest) = first_number(rest)?;
            let (to, _) = first_number(rest)?;
            write!(answers, "{}", driver.resend(now, from, to))?;
            Ok(())
        }
        b"send" => {
            let (count, _) = first_number(rest)?;
            let text = [0; 100];
            let count = (count as usize).min(text.len());
            write!(answers, "{}", driver.send(now, &text[..count]))?;
            Ok(())
        }
        _ => answer_plain(driver, word, now, answers),
    }
}

/// A call with no more than its time.
fn answer_plain(
    driver: &mut Driver<Small>,
    word: &[u8],
    now: u64,
    answers: &mut String,
) -> Result<(), LineError> {
    match word {
        b"receive" => write!(answers, "{}", driver.receive(now, &mut []))?,
        b"acknowledge" => {
            driver.acknowledge(now);
            answers.push_str("asked")?;
        }
        b"close" => write!(answers, "{}", driver.close(now))?,
        b"abort" => write!(answers, "{}", driver.abort(now))?,
        b"resend-first" => write!(answers, "{}", driver.resend_first(now))?,
        b"timeout" => answers.push_str(timer_name(driver.timeout(now)))?,
        _ => return Err(LineError::BadForm),
    }
    Ok(())
}

/// What a timer is called in an answer.
fn timer_name(timer: Option<Timer>) -> &'static str {
    match timer {
        Some(Timer::Retransmit) => "retransmit",
        Some(Timer::Reorder) => "reorder",
        Some(Timer::TimeWait) => "time-wait",
        Some(Timer::User) => "user",
        None => "-",
    }
}

/// A segment comes: its bytes 0 to 3, and 13.
fn arrives(
    driver: &mut Driver<Small>,
    now: u64,
    rest: &[u8],
    answers: &mut String,
) -> Result<(), LineError> {
    let (ack, rest) = first_byte(rest)?;
    let (gap, rest) = first_byte(rest)?;
    let (fin, rest) = first_byte(rest)?;
    let (window, rest) = first_byte(rest)?;
    let (flags, _) = first_byte(rest)?;
    let bytes = [ack, gap, fin, window, 0, 0, 0, 0, 0, 0, 0, 0, 0, flags];
    match driver.arrive(now, [10, 0, 0, 2], [10, 0, 0, 1], &bytes) {
        Taken::Done(report, _) => write!(answers, "taken {}", report.acked)?,
        Taken::EmitFirst => answers.push_str("emit-first")?,
        Taken::Withheld => answers.push_str("withheld")?,
    }
    Ok(())
}

/// What is due goes out.
fn emits(
    driver: &mut Driver<Small>,
    now: u64,
    rest: &[u8],
    answers: &mut String,
) -> Result<(), LineError> {
    let (window, _) = first_number(rest)?;
    let mut out = [0; 14];
    match driver.emit(now, window, &mut out) {
        Some(sent) => write!(answers, "sent {} {}", sent.start, sent.count)?,
        None => answers.push_str("-")?,
    }
    Ok(())
}
