//! A line's event.
use kit_script::read_timer;
use kit_text::{LineError, SPACE, cut, read_addr, read_bytes, read_number};
use std::alloc::Global;
use tcp_replay::SoloEvent;
use tcp_wire::Addr;

/// The greatest count that a line requests to receive.
const MAX_RECEIVE: u64 = 1_048_576;

/// The greatest position that a line names.
const MAX_POSITION: u64 = 1_000_000_000;

fn read_arrival(alloc: Global, words: &[u8]) -> Result<SoloEvent, LineError> {
    let (src, rest) = cut(SPACE, words);
    let (dst, bytes) = cut(SPACE, rest.ok_or(LineError::BadForm)?);
    let src = read_addr(src).ok_or(LineError::BadForm)?;
    let dst = read_addr(dst).ok_or(LineError::BadForm)?;
    let bytes = read_bytes(alloc, bytes.ok_or(LineError::BadForm)?)?;
    Ok(SoloEvent::Arrive(src, dst, bytes))
}

/// The two positions of a stretch that goes out again.
fn read_resend(words: &[u8]) -> Result<SoloEvent, LineError> {
    let (from, to) = cut(SPACE, words);
    let from = read_number(from, MAX_POSITION).ok_or(LineError::BadForm)?;
    let to = read_number(to.ok_or(LineError::BadForm)?, MAX_POSITION).ok_or(LineError::BadForm)?;
    Ok(SoloEvent::Resend(from, to))
}

fn read_receive(word: &[u8]) -> Result<SoloEvent, LineError> {
    let room = read_number(word, MAX_RECEIVE).ok_or(LineError::BadForm)?;
    Ok(SoloEvent::Receive(room as usize))
}

/// The event of a line's first word, and of what follows it.
pub(crate) fn read_event(alloc: Global, word: &[u8], rest: &[u8]) -> Result<SoloEvent, LineError> {
    match word {
        b"connect" => Ok(SoloEvent::Connect(Addr([10, 0, 0, 1]), 1)),
        b"listen" => Ok(SoloEvent::Listen),
        b"close" => Ok(SoloEvent::Close),
        b"abort" => Ok(SoloEvent::Abort),
        b"acknowledge" => Ok(SoloEvent::Acknowledge),
        b"emit" => Ok(SoloEvent::Emit),
        b"emit-acknowledgement" => Ok(SoloEvent::EmitAcknowledgement),
        b"resend-first" => Ok(SoloEvent::ResendFirst),
        b"resend" => read_resend(rest),
        b"send" => Ok(SoloEvent::Send(read_bytes(alloc, rest)?)),
        b"receive" => read_receive(rest),
        b"timer" => {
            let timer = read_timer(rest).ok_or(LineError::BadForm)?;
            Ok(SoloEvent::Timer(timer))
        }
        b"arrive" => read_arrival(alloc, rest),
        _ => Err(LineError::BadForm),
    }
}
