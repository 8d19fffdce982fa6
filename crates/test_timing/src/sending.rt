//! The calls of a sender that avoids silly windows.
use crate::words::{first_number, number};
use kit_text::LineError;
use tcp_congestion::{MAX_SEGMENT, SwsAvoidance};

pub(crate) fn answer_sws(
    sws: &mut SwsAvoidance,
    word: &[u8],
    rest: &[u8],
    answers: &mut String,
) -> Result<(), LineError> {
    match word {
        b"sws" => {
            let (mss, rest) = first_number(rest)?;
            let (nagle, rest) = first_number(rest)?;
            let timeout = number(rest)?;
            if mss == 0 || mss > MAX_SEGMENT {
                answers.push_str("refused")?;
                return Ok(());
            }
            *sws = SwsAvoidance::new(mss, nagle > 0, timeout);
            answers.push_str("new")?;
        }
        b"window" => {
            sws.window(number(rest)?);
            answers.push_str("taken")?;
        }
        _ => segment(sws, rest, answers)?,
    }
    Ok(())
}

fn segment(sws: &mut SwsAvoidance, rest: &[u8], answers: &mut String) -> Result<(), LineError> {
    let (queued, rest) = first_number(rest)?;
    let (usable, rest) = first_number(rest)?;
    let (flight, rest) = first_number(rest)?;
    let length = sws.next_segment(queued, usable, flight, number(rest)?);
    match sws.deadline() {
        Some(at) => write!(answers, "{length} {at}")?,
        None => write!(answers, "{length} -")?,
    }
    Ok(())
}
