//! The calls of an estimator.
use crate::words::{first_number, number};
use kit_text::LineError;
use tcp_timing::{Estimator, Rules};

fn read_rules(words: &[u8]) -> Result<Rules, LineError> {
    let (first, words) = first_number(words)?;
    let (least, words) = first_number(words)?;
    let (greatest, words) = first_number(words)?;
    let (granularity, words) = first_number(words)?;
    let after_syn = number(words)?;
    Ok(Rules {
        first,
        least,
        greatest,
        granularity,
        after_syn,
    })
}

pub(crate) fn answer_estimator(
    estimator: &mut Estimator,
    word: &[u8],
    rest: &[u8],
    answers: &mut String,
) -> Result<(), LineError> {
    match word {
        b"standard" => *estimator = Estimator::new(Rules::standard()),
        b"estimator" => {
            let rules = read_rules(rest)?;
            if !rules.are_sound() {
                answers.push_str("unsound")?;
                return Ok(());
            }
            *estimator = Estimator::new(rules);
        }
        b"sample" => estimator.sample(number(rest)?),
        b"expired" => estimator.back_off(),
        b"window-opened" => estimator.forget_back_off(),
        b"syn-resent" => estimator.syn_was_resent(),
        _ => return Err(LineError::BadForm),
    }
    show(estimator, answers)
}

fn show(estimator: &Estimator, answers: &mut String) -> Result<(), LineError> {
    let rto = estimator.rto();
    match estimator.trip() {
        Some(trip) => write!(answers, "{} {} {rto}", trip.srtt, trip.rttvar)?,
        None => write!(answers, "- - {rto}")?,
    }
    Ok(())
}
