//! The calls of a reassembly.
use crate::buffer::Buffer;
use crate::words::{capacity_and_runs, number};
use kit_text::{LineError, SPACE, cut, push_bytes, read_bytes};
use std::alloc::{AllocError, Global};
use tcp_reasm::{MAX_RUNS, Placed, ReasmError, Reassembly};

/// The longest text that a line places, in bytes.
const MAX_TEXT: usize = 65_495;

/// One with this number of runs, or with the default one.
fn new_of(alloc: Global, capacity: usize, runs: Option<usize>) -> Result<Reassembly, ReasmError> {
    match runs {
        Some(runs) => Reassembly::with_runs(alloc, capacity, runs.clamp(1, MAX_RUNS)),
        None => Reassembly::new(alloc, capacity),
    }
}

pub(crate) fn new_inbox(
    alloc: Global,
    rest: &[u8],
    answers: &mut String,
) -> Result<Option<Buffer>, LineError> {
    let (capacity, runs) = capacity_and_runs(rest)?;
    if runs.is_some_and(|runs| !(1..=MAX_RUNS).contains(&runs)) {
        answers.push_str("outside\n")?;
        return Ok(None);
    }
    match new_of(alloc, capacity, runs) {
        Ok(inbox) => {
            answers.push_str("new\n")?;
            Ok(Some(Buffer::Inbox(inbox)))
        }
        Err(refusal) => {
            let number = refusal.number();
            write!(answers, "refused {number}: {refusal}\n")?;
            Ok(None)
        }
    }
}

pub(crate) fn answer_inbox(
    alloc: Global,
    inbox: &mut Reassembly,
    word: &[u8],
    rest: &[u8],
    answers: &mut String,
) -> Result<(), LineError> {
    match word {
        b"place" => place(alloc, inbox, rest, answers)?,
        b"read" => read(alloc, inbox, number(rest)?, answers)?,
        b"blocks" => push_edges(answers, inbox.blocks().as_slice())?,
        b"clear" => {
            inbox.clear();
            answers.push_str("done")?;
        }
        b"clear_held" => {
            inbox.clear_held();
            answers.push_str("done")?;
        }
        b"state" => {
            let unread = inbox.unread();
            let window = inbox.window();
            let capacity = inbox.capacity();
            write!(answers, "unread {unread} of {capacity}, window {window}")?;
        }
        _ => return Err(LineError::BadForm),
    }
    Ok(())
}

/// The offset that a word writes; one before RCV.NXT has a minus sign.
fn read_offset(word: &[u8]) -> Result<i64, LineError> {
    match word {
        [b'-', digits @ ..] => Ok(-(number(digits)? as i64)),
        _ => Ok(number(word)? as i64),
    }
}

fn place(
    alloc: Global,
    inbox: &mut Reassembly,
    words: &[u8],
    answers: &mut String,
) -> Result<(), LineError> {
    let (offset, text) = cut(SPACE, words);
    let offset = read_offset(offset)?;
    let text = read_bytes(alloc, text.ok_or(LineError::BadForm)?)?;
    if offset < -(1 << 31) || offset >= 1 << 31 || text.len() > MAX_TEXT {
        answers.push_str("outside")?;
        return Ok(());
    }
    match inbox.place(offset, &text) {
        Placed::Advanced(count) => write!(answers, "advanced {count}")?,
        Placed::Held => answers.push_str("held")?,
        Placed::NotKept => answers.push_str("not kept")?,
    }
    Ok(())
}

fn read(
    alloc: Global,
    inbox: &mut Reassembly,
    room: usize,
    answers: &mut String,
) -> Result<(), LineError> {
    let mut out = vec![in alloc; 0u8; room.min(inbox.capacity())]?;
    let count = inbox.read(&mut out);
    push_bytes(alloc, answers, &out[..count])?;
    Ok(())
}

fn push_edges(answers: &mut String, edges: &[(u32, u32)]) -> Result<(), AllocError> {
    if edges.is_empty() {
        return answers.push_str("none");
    }
    let mut separator = "";
    for (from, to) in edges {
        write!(answers, "{separator}{from}-{to}")?;
        separator = " ";
    }
    Ok(())
}
