//! The calls of what is in flight.
use crate::words::{first_number, number};
use kit_text::LineError;
use tcp_recovery::Rack;

/// A call that changes it.
pub(crate) fn answer_rack(
    rack: &mut Rack,
    word: &[u8],
    rest: &[u8],
    answers: &mut String,
) -> Result<(), LineError> {
    match word {
        b"rack" => *rack = Rack::new(),
        b"recovered" => rack.recovered(),
        b"settled" => {
            let (start, rest) = first_number(rest)?;
            rack.settled(start, number(rest)?);
        }
        b"sent" => {
            let (start, rest) = first_number(rest)?;
            let (count, rest) = first_number(rest)?;
            let (now, rest) = first_number(rest)?;
            rack.sent(start, count, now, number(rest)?);
        }
        b"received" => {
            let (start, rest) = first_number(rest)?;
            let (end, rest) = first_number(rest)?;
            let (now, rest) = first_number(rest)?;
            rack.received(start, end, now, number(rest)?);
        }
        _ => return Err(LineError::BadForm),
    }
    show(rack, answers)
}

fn show(rack: &Rack, answers: &mut String) -> Result<(), LineError> {
    let d = rack.delivered();
    write!(
        answers,
        "{} {} {} {} {}",
        d.xmit_ts, d.end_seq, d.rtt, d.fack, d.reo_wnd_mult
    )?;
    if d.reordering_seen {
        answers.push_str(" reordered")?;
    }
    Ok(())
}

/// A question.
pub(crate) fn answer_found(
    rack: &Rack,
    word: &[u8],
    rest: &[u8],
    answers: &mut String,
) -> Result<(), LineError> {
    match word {
        b"window" => {
            let (srtt, rest) = first_number(rest)?;
            let (min_rtt, rest) = first_number(rest)?;
            let is_certain = number(rest)? > 0;
            write!(answers, "{}", rack.reo_wnd(srtt, min_rtt, is_certain))?;
        }
        b"lost" => {
            let (window, rest) = first_number(rest)?;
            match rack.lost(window, number(rest)?) {
                Some((start, end)) => write!(answers, "{start} {end}")?,
                None => answers.push_str("-")?,
            }
        }
        b"resent" => match rack.resent_at(number(rest)?) {
            Some(at) => write!(answers, "{at}")?,
            None => answers.push_str("-")?,
        },
        _ => match rack.deadline(number(rest)?) {
            Some(at) => write!(answers, "{at}")?,
            None => answers.push_str("-")?,
        },
    }
    Ok(())
}
