//! The buffer that lines call.
use crate::inbox::{answer_inbox, new_inbox};
use crate::queue::{answer_queue, new_queue};
use kit_text::{LineError, SPACE, cut};
use std::alloc::Global;
use tcp_reasm::Reassembly;
use tcp_sendq::SendQueue;

#[derive(Drop)]
pub(crate) enum Buffer {
    Queue(SendQueue),
    Inbox(Reassembly),
}

/// Makes a line's call, and returns the buffer after it.
pub(crate) fn answer_line(
    alloc: Global,
    buffer: Option<Buffer>,
    line: &[u8],
    answers: &mut String,
) -> Result<Option<Buffer>, LineError> {
    let (word, rest) = cut(SPACE, line);
    let rest = rest.unwrap_or(b"");
    match word {
        b"queue" => new_queue(alloc, rest, answers),
        b"inbox" => new_inbox(alloc, rest, answers),
        _ => answer_call(alloc, buffer, word, rest, answers),
    }
}

fn answer_call(
    alloc: Global,
    mut buffer: Option<Buffer>,
    word: &[u8],
    rest: &[u8],
    answers: &mut String,
) -> Result<Option<Buffer>, LineError> {
    match &mut buffer {
        Some(Buffer::Queue(queue)) => answer_queue(alloc, queue, word, rest, answers)?,
        Some(Buffer::Inbox(inbox)) => answer_inbox(alloc, inbox, word, rest, answers)?,
        None => return Err(LineError::BadForm),
    }
    answers.push_str("\n")?;
    Ok(buffer)
}
