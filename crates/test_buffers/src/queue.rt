//! The calls of a send queue. A call that requests more than the queue has is answered by `outside`, and isn't made.
use crate::buffer::Buffer;
use crate::words::{capacity_and_runs, number, two_numbers};
use kit_text::{LineError, push_bytes, read_bytes};
use std::alloc::Global;
use tcp_sendq::{MAX_RUNS, QueueError, SendQueue};

/// One with this number of runs, or with the default one.
fn new_of(alloc: Global, capacity: usize, runs: Option<usize>) -> Result<SendQueue, QueueError> {
    match runs {
        Some(runs) => SendQueue::with_runs(alloc, capacity, runs.clamp(1, MAX_RUNS)),
        None => SendQueue::new(alloc, capacity),
    }
}

pub(crate) fn new_queue(
    alloc: Global,
    rest: &[u8],
    answers: &mut String,
) -> Result<Option<Buffer>, LineError> {
    let (capacity, runs) = capacity_and_runs(rest)?;
    if runs.is_some_and(|runs| !(1..=MAX_RUNS).contains(&runs)) {
        answers.push_str("outside\n")?;
        return Ok(None);
    }
    match new_of(alloc, capacity, runs) {
        Ok(queue) => {
            answers.push_str("new\n")?;
            Ok(Some(Buffer::Queue(queue)))
        }
        Err(refusal) => {
            let number = refusal.number();
            write!(answers, "refused {number}: {refusal}\n")?;
            Ok(None)
        }
    }
}

pub(crate) fn answer_queue(
    alloc: Global,
    queue: &mut SendQueue,
    word: &[u8],
    rest: &[u8],
    answers: &mut String,
) -> Result<(), LineError> {
    match word {
        b"offer" => {
            let text = read_bytes(alloc, rest)?;
            let count = queue.offer(&text);
            write!(answers, "{count}")?;
        }
        b"release" => release(queue, number(rest)?, answers)?,
        b"copy" => copy(alloc, queue, rest, answers)?,
        b"mark" => mark(queue, rest, answers)?,
        b"forget" => {
            queue.forget_marks();
            answers.push_str("done")?;
        }
        _ => tell_queue(queue, word, rest, answers)?,
    }
    Ok(())
}

fn release(queue: &mut SendQueue, count: usize, answers: &mut String) -> Result<(), LineError> {
    if count > queue.len() {
        answers.push_str("outside")?;
        return Ok(());
    }
    queue.release(count);
    answers.push_str("done")?;
    Ok(())
}

fn copy(
    alloc: Global,
    queue: &SendQueue,
    rest: &[u8],
    answers: &mut String,
) -> Result<(), LineError> {
    let (at, count) = two_numbers(rest)?;
    if at + count > queue.len() {
        answers.push_str("outside")?;
        return Ok(());
    }
    let mut out = vec![in alloc; 0u8; count]?;
    queue.copy(at, &mut out);
    push_bytes(alloc, answers, &out)?;
    Ok(())
}

fn mark(queue: &mut SendQueue, rest: &[u8], answers: &mut String) -> Result<(), LineError> {
    let (from, to) = two_numbers(rest)?;
    if from >= to || to > queue.len() {
        answers.push_str("outside")?;
        return Ok(());
    }
    let marked = queue.mark(from, to);
    write!(answers, "{marked}")?;
    Ok(())
}

fn tell_queue(
    queue: &SendQueue,
    word: &[u8],
    rest: &[u8],
    answers: &mut String,
) -> Result<(), LineError> {
    match word {
        b"unmarked" => match queue.next_unmarked(number(rest)?) {
            Some((from, to)) => write!(answers, "{from} {to}")?,
            None => answers.push_str("none")?,
        },
        b"marked" => match queue.last_mark_end() {
            Some(end) => write!(answers, "{end}")?,
            None => answers.push_str("none")?,
        },
        b"state" => {
            let len = queue.len();
            let room = queue.room();
            let capacity = queue.capacity();
            let is_empty = queue.is_empty();
            write!(
                answers,
                "{len} of {capacity}, room {room}, empty {is_empty}"
            )?;
        }
        _ => return Err(LineError::BadForm),
    }
    Ok(())
}
