//! The calls of a delayed acknowledgement, and of the limit on answers.
use crate::words::{first_number, number};
use kit_text::LineError;
use tcp_congestion::{DelayedAck, Limiter, MAX_DELAY, MAX_SEGMENT};

pub(crate) fn answer_delayed(
    delayed: &mut DelayedAck,
    word: &[u8],
    rest: &[u8],
    answers: &mut String,
) -> Result<(), LineError> {
    match word {
        b"delayed" => {
            let (rmss, rest) = first_number(rest)?;
            let delay = number(rest)?;
            if rmss == 0 || rmss > MAX_SEGMENT || delay >= MAX_DELAY {
                answers.push_str("refused")?;
                return Ok(());
            }
            *delayed = DelayedAck::new(rmss, delay);
        }
        b"arrived" => {
            let (count, rest) = first_number(rest)?;
            let (urgent, rest) = first_number(rest)?;
            delayed.arrived(count, urgent > 0, number(rest)?);
        }
        b"answered" => delayed.acknowledged(),
        _ => {
            let is_due = delayed.is_due(number(rest)?);
            write!(answers, "{is_due}")?;
            return Ok(());
        }
    }
    match delayed.deadline() {
        Some(at) => write!(answers, "{at}")?,
        None => answers.push_str("-")?,
    }
    Ok(())
}

pub(crate) fn answer_limiter(
    limiter: &mut Limiter,
    word: &[u8],
    rest: &[u8],
    answers: &mut String,
) -> Result<(), LineError> {
    match word {
        b"limiter" => {
            *limiter = Limiter::new(number(rest)?);
            answers.push_str("new")?;
        }
        _ => {
            let granted = limiter.grant(number(rest)?);
            write!(answers, "{granted}")?;
        }
    }
    Ok(())
}
