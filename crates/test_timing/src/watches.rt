//! The calls of a watch.
use crate::words::{first_number, number};
use kit_text::LineError;
use tcp_timing::Watch;

pub(crate) fn answer_watch(
    watch: &mut Watch,
    word: &[u8],
    rest: &[u8],
    answers: &mut String,
) -> Result<(), LineError> {
    match word {
        b"watch" => {
            *watch = Watch::new();
            answers.push_str("new")?;
        }
        b"sent" => {
            let (start, rest) = first_number(rest)?;
            let (count, rest) = first_number(rest)?;
            watch.sent(start, count, number(rest)?);
            answers.push_str("sent")?;
        }
        b"acked" => {
            let (una, rest) = first_number(rest)?;
            match watch.acked(una, number(rest)?) {
                Some(rtt) => write!(answers, "{rtt}")?,
                None => answers.push_str("-")?,
            }
        }
        _ => return Err(LineError::BadForm),
    }
    Ok(())
}
