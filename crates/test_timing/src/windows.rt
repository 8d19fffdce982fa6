//! The calls of a congestion window.
use crate::words::{first_number, number};
use kit_text::{LineError, SPACE, cut};
use tcp_congestion::{Congestion, Cubic, MAX_LIMIT, MAX_SEGMENT, Reno};

/// The windows of both rules.
#[derive(Clone, Copy, Drop)]
pub(crate) struct Windows {
    reno: Reno,
    cubic: Cubic,
    is_cubic: bool,
}

impl Windows {
    pub(crate) fn new() -> Windows {
        Windows {
            reno: Reno::new(1460),
            cubic: Cubic::with_limit(1460, 1),
            is_cubic: false,
        }
    }
}

/// What a call answers beside the window.
#[derive(Clone, Copy, Drop)]
enum Answer {
    /// Nothing, or that the first segment has to be sent again.
    Again(bool),
    /// That a loss shrank the window.
    Shrinks(bool),
}

pub(crate) fn answer_windows(
    windows: &mut Windows,
    word: &[u8],
    rest: &[u8],
    answers: &mut String,
) -> Result<(), LineError> {
    match word {
        b"reno" | b"cubic" => begin(windows, word, rest, answers),
        _ if windows.is_cubic => answer_window(&mut windows.cubic, word, rest, answers),
        _ => answer_window(&mut windows.reno, word, rest, answers),
    }
}

/// Another window, with L in segments behind SMSS, or 1.
fn begin(
    windows: &mut Windows,
    word: &[u8],
    rest: &[u8],
    answers: &mut String,
) -> Result<(), LineError> {
    let (first, second) = cut(SPACE, rest);
    let smss = number(first)?;
    let limit = match second {
        Some(second) => number(second)?,
        None => 1,
    };
    if smss == 0 || smss > MAX_SEGMENT || limit == 0 || limit > MAX_LIMIT {
        answers.push_str("refused")?;
        return Ok(());
    }
    windows.is_cubic = matches!(word, b"cubic");
    if windows.is_cubic {
        windows.cubic = Cubic::with_limit(smss, limit);
        show(&windows.cubic, Answer::Again(false), answers)
    } else {
        windows.reno = if limit == 1 {
            Reno::new(smss)
        } else {
            Reno::with_limit(smss, limit)
        };
        show(&windows.reno, Answer::Again(false), answers)
    }
}

fn answer_window<W: Congestion>(
    window: &mut W,
    word: &[u8],
    rest: &[u8],
    answers: &mut String,
) -> Result<(), LineError> {
    match word {
        b"room" => {
            write!(answers, "{}", window.room(number(rest)?))?;
            Ok(())
        }
        b"may-resend" => {
            write!(answers, "{}", window.may_resend())?;
            Ok(())
        }
        _ => {
            let answer = happens(window, word, rest)?;
            show(window, answer, answers)
        }
    }
}

fn happens<W: Congestion>(window: &mut W, word: &[u8], rest: &[u8]) -> Result<Answer, LineError> {
    match word {
        b"acknowledged" => {
            let (acked, rest) = first_number(rest)?;
            let (snd_una, rest) = first_number(rest)?;
            let (flight, rest) = cut(SPACE, rest);
            let flight = number(flight)?;
            let (now, rtt) = match rest {
                Some(times) => {
                    let (now, rtt) = first_number(times)?;
                    (now, number(rtt)?)
                }
                None => (0, 0),
            };
            let again = window.acknowledged(acked, snd_una, flight, now, rtt);
            return Ok(Answer::Again(again));
        }
        b"duplicate" | b"lost" => return finds(window, word, rest),
        b"delivered" => delivers(window, rest)?,
        b"measured" => return measures(window, rest),
        b"reported" => window.reported(),
        b"timed-out" => {
            let (flight, rest) = first_number(rest)?;
            window.timed_out(flight, number(rest)?);
        }
        b"lost-again" => window.lost_again(),
        b"finds-by-time" => window.finds_by_time(),
        b"keep-pipe" => window.keep_pipe(number(rest)?),
        b"resent" => window.resent(number(rest)?),
        b"syn-lost" => window.syn_was_resent(),
        b"idle" => window.was_idle(),
        _ => return Err(LineError::BadForm),
    }
    Ok(Answer::Again(false))
}

/// A round trip is measured.
fn measures<W: Congestion>(window: &mut W, rest: &[u8]) -> Result<Answer, LineError> {
    let (trip, rest) = first_number(rest)?;
    let (snd_una, rest) = first_number(rest)?;
    window.measured(trip, snd_una, number(rest)?);
    Ok(Answer::Again(false))
}

/// Blocks report more bytes, at a time and with a smoothed round trip.
fn delivers<W: Congestion>(window: &mut W, rest: &[u8]) -> Result<(), LineError> {
    let (count, rest) = first_number(rest)?;
    let (flight, rest) = first_number(rest)?;
    let (now, rtt) = first_number(rest)?;
    window.delivered(count, flight, now, number(rtt)?);
    Ok(())
}

/// A loss is found, or may be.
fn finds<W: Congestion>(window: &mut W, word: &[u8], rest: &[u8]) -> Result<Answer, LineError> {
    let (snd_una, rest) = first_number(rest)?;
    let (flight, rest) = first_number(rest)?;
    let snd_nxt = number(rest)?;
    if matches!(word, b"lost") {
        return Ok(Answer::Shrinks(window.lost(snd_una, flight, snd_nxt)));
    }
    Ok(Answer::Again(window.duplicate(snd_una, flight, snd_nxt)))
}

fn show<W: Congestion>(window: &W, answer: Answer, answers: &mut String) -> Result<(), LineError> {
    let cwnd = window.cwnd();
    let ssthresh = window.ssthresh();
    write!(answers, "{cwnd} {ssthresh}")?;
    if window.is_recovering() {
        answers.push_str(" recovering")?;
    }
    match answer {
        Answer::Again(true) => answers.push_str(" again")?,
        Answer::Shrinks(true) => answers.push_str(" shrinks")?,
        _ => {}
    }
    Ok(())
}
