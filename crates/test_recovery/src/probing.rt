//! The calls of a tail loss probe.
use crate::words::{first_number, number};
use kit_text::LineError;
use tcp_recovery::Probe;

/// The greatest round trip of a line.
const LONGEST: u64 = 1 << 40;

pub(crate) fn answer_probe(
    probe: &mut Probe,
    word: &[u8],
    rest: &[u8],
    answers: &mut String,
) -> Result<(), LineError> {
    let mut repaired = false;
    match word {
        b"probe" => *probe = Probe::new(),
        b"stop" => probe.stop(),
        b"recovering" => probe.recovering(),
        b"measured" => probe.measured(),
        b"start" => {
            let (now, rest) = first_number(rest)?;
            let (srtt, rest) = first_number(rest)?;
            let (is_one, rest) = first_number(rest)?;
            let rto_at = number(rest)?;
            let srtt = srtt.min(LONGEST);
            let trip = if srtt > 0 { Some(srtt) } else { None };
            probe.start(now, trip, is_one > 0, rto_at);
        }
        b"probed" => {
            let (nxt, rest) = first_number(rest)?;
            probe.sent(nxt, number(rest)? > 0);
        }
        _ => {
            let (una, rest) = first_number(rest)?;
            repaired = probe.acked(una, number(rest)? > 0);
        }
    }
    match probe.deadline() {
        Some(at) => write!(answers, "{at}")?,
        None => answers.push_str("-")?,
    }
    if repaired {
        answers.push_str(" repaired")?;
    }
    Ok(())
}
