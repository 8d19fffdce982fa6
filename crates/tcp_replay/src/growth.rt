//! What an end and its user add to a log that grows. Memory is allocated before the end is called, so that a failure
//! changes nothing.
ghost use Rattle.std.specs.Prelude.{◌≡◌, ◌<◌, ◌≤◌, ◌++◌, length, IfOk, IfErr, OnOk, OnErr, IfSome, option_map, vec_len, vec_capacity};
ghost use Rattle.tcp_wire.specs.Checksum.{AreBytes};
ghost use Rattle.tcp_wire.specs.Wire.{header_len};
ghost use Rattle.tcp_conn.specs.Calls.{send_answer, after_send, receive_answer, received_bytes, after_receive};
ghost use Rattle.tcp_conn.specs.Due.{ack_alone, due_of};
ghost use Rattle.tcp_conn.specs.Emission.{after_due};
ghost use Rattle.tcp_replay.specs.Emissions.{due_for, segment_as};
ghost use Rattle.tcp_replay.specs.World.{front_taken};

use crate::outcome::StepError;
use std::alloc::{AllocError, Allocator};
use tcp_conn::{CallError, EMIT_ROOM, Endpoint, HEADER_ROOM, Received};
use tcp_wire::Addr;

/// The user sends, and what the end accepts is appended. Memory for all of the text is allocated first.
pub(crate) fn send_from<A: Allocator>(
    endpoint: &mut Endpoint<A>,
    text: &[u8],
    accepted: &mut Vec<u8, A>,
) -> Result<Result<usize, CallError>, StepError>
    ensures state { OnOk result (endpoint.new ≡ after_send endpoint.old text.now) }
    ensures accepted { OnOk result (accepted.new.items ≡ accepted.old.items ++ front_taken (send_answer endpoint.old text.now) text.now) }
    ensures answer { IfOk result (λ answer. answer ≡ send_answer endpoint.old text.now) }
    ensures bytes { AreBytes text.now }
    ensures err { OnErr result ((endpoint.new ≡ endpoint.old) × (accepted.new.items ≡ accepted.old.items)) }
    ensures memory { IfErr result (λ e. e ≡ StepError.NoMemory) }
{
    accepted.reserve(text.len())?;
    let answer = endpoint.send(text);
    if let Ok(count) = answer {
        let _ = accepted.extend_from_slice(&text[..count]);
    }
    Ok(answer)
}

/// The user receives at most `room` bytes, and what the end delivers is appended from where it lies. Memory for it is
/// allocated first.
pub(crate) fn receive_to<A: Allocator>(
    endpoint: &mut Endpoint<A>,
    room: usize,
    delivered: &mut Vec<u8, A>,
) -> Result<Result<Received, CallError>, StepError>
    ensures state { OnOk result (endpoint.new ≡ after_receive endpoint.old room) }
    ensures delivered { OnOk result (delivered.new.items ≡ delivered.old.items ++ received_bytes endpoint.old room) }
    ensures answer { IfOk result (λ answer. answer ≡ receive_answer endpoint.old room) }
    ensures err { OnErr result ((endpoint.new ≡ endpoint.old) × (delivered.new.items ≡ delivered.old.items)) }
    ensures memory { IfErr result (λ e. e ≡ StepError.NoMemory) }
{
    let count = room.min(endpoint.unread());
    delivered.reserve(count)?;
    if count == 0 {
        return Ok(endpoint.receive(&mut []));
    }
    let lent = match endpoint.peek() {
        Ok(lent) => lent,
        Err(refusal) => return Ok(Err(refusal)),
    };
    let first = count.min(lent.front.len());
    let _ = delivered.extend_from_slice(&lent.front[..first]);
    let _ = delivered.extend_from_slice(&lent.back[..count - first]);
    Ok(endpoint.consume(count).map(Received::Bytes))
}

/// The bytes of a segment, in one list: its header, and its text in two parts. Memory for all of it is allocated first.
fn joined<A: Allocator>(
    alloc: A,
    header: &[u8],
    first: &[u8],
    second: &[u8],
) -> Result<Vec<u8, A>, AllocError>
    ensures { IfOk result (λ bytes. bytes.items ≡ header.now ++ (first.now ++ second.now)) }
{
    // The sum never gets so large that it has to saturate: a header is short, and a text comes from a queue.
    let len = header
        .len()
        .saturating_add(first.len())
        .saturating_add(second.len());
    let mut bytes = Vec::with_capacity(alloc, len)?;
    let _ = bytes.extend_from_slice(header);
    let _ = bytes.extend_from_slice(first);
    let _ = bytes.extend_from_slice(second);
    Ok(bytes)
}

/// The end emits what is due: where it goes, and its bytes, for which the list has room. Memory for both is allocated
/// before the end counts it as sent. Its text is copied once, from where it lies.
#[tactic(auto, unfolding(tcp_conn::specs::Emission::destination, tcp_conn::specs::Emission::emitted_bytes, tcp_conn::specs::Emission::after_emission))]
fn emit_due<A: Allocator, T>(
    alloc: A,
    endpoint: &mut Endpoint<A>,
    list: &mut Vec<T, A>,
) -> Result<Option<(Addr, Vec<u8, A>)>, StepError>
    ensures state { OnOk result (endpoint.new ≡ after_due endpoint.old (due_of endpoint.old)) }
    ensures segment { IfOk result (λ sent. option_map (λ segment. (segment.0.0, segment.1.items)) sent ≡ segment_as endpoint.old (due_of endpoint.old)) }
    ensures least { IfOk result (λ sent. IfSome sent (λ segment. header_len ≤ length segment.1.items)) }
    ensures list { list.new.items ≡ list.old.items }
    ensures place { IfOk result (λ sent. IfSome sent (λ _. vec_len list.new < vec_capacity list.new)) }
    ensures err { OnErr result (endpoint.new ≡ endpoint.old) }
    ensures memory { IfErr result (λ e. e ≡ StepError.NoMemory) }
{
    let mut header = [0u8; HEADER_ROOM];
    let Some(parts) = endpoint.parts(&mut header) else {
        return Ok(None);
    };
    list.reserve(1)?;
    let to = parts.to;
    let bytes = joined(alloc, &header[..parts.header], parts.first, parts.second)?;
    endpoint.sent();
    Ok(Some((to, bytes)))
}

/// The end emits the acknowledgement alone, as `emit_due` does what is due. It is written into room for the longest
/// segment: the function stands apart, so that what is due doesn't wait until that room is zeroed.
#[inline(never)]
#[tactic(auto, unfolding(tcp_conn::specs::Emission::ack_alone_destination, tcp_conn::specs::Emission::buffer_after_ack_alone, tcp_conn::specs::Emission::after_ack_alone, tcp_conn::specs::Emission::ack_alone_length))]
fn emit_alone<A: Allocator, T>(
    alloc: A,
    endpoint: &mut Endpoint<A>,
    list: &mut Vec<T, A>,
) -> Result<Option<(Addr, Vec<u8, A>)>, StepError>
    ensures state { OnOk result (endpoint.new ≡ after_due endpoint.old (ack_alone endpoint.old)) }
    ensures segment { IfOk result (λ sent. option_map (λ segment. (segment.0.0, segment.1.items)) sent ≡ segment_as endpoint.old (ack_alone endpoint.old)) }
    ensures least { IfOk result (λ sent. IfSome sent (λ segment. header_len ≤ length segment.1.items)) }
    ensures list { list.new.items ≡ list.old.items }
    ensures place { IfOk result (λ sent. IfSome sent (λ _. vec_len list.new < vec_capacity list.new)) }
    ensures err { OnErr result (endpoint.new ≡ endpoint.old) }
    ensures memory { IfErr result (λ e. e ≡ StepError.NoMemory) }
{
    let Some(len) = endpoint.pending_acknowledgement() else {
        return Ok(None);
    };
    list.reserve(1)?;
    let mut bytes = Vec::with_capacity(alloc, len)?;
    let mut room = [0u8; EMIT_ROOM];
    let Some(sent) = endpoint.emit_acknowledgement(&mut room) else {
        return Ok(None);
    };
    let _ = bytes.extend_from_slice(&room[..len]);
    Ok(Some((sent.to, bytes)))
}

/// The end emits what is due, or the acknowledgement alone: where it goes, and its bytes, for which the list
/// has room. Memory for both, and for them alone, is allocated first.
pub(crate) fn emit_for<A: Allocator, T>(
    alloc: A,
    endpoint: &mut Endpoint<A>,
    alone: bool,
    list: &mut Vec<T, A>,
) -> Result<Option<(Addr, Vec<u8, A>)>, StepError>
    ensures state { OnOk result (endpoint.new ≡ after_due endpoint.old (due_for alone endpoint.old)) }
    ensures segment { IfOk result (λ sent. option_map (λ segment. (segment.0.0, segment.1.items)) sent ≡ segment_as endpoint.old (due_for alone endpoint.old)) }
    ensures least { IfOk result (λ sent. IfSome sent (λ segment. header_len ≤ length segment.1.items)) }
    ensures list { list.new.items ≡ list.old.items }
    ensures place { IfOk result (λ sent. IfSome sent (λ _. vec_len list.new < vec_capacity list.new)) }
    ensures err { OnErr result (endpoint.new ≡ endpoint.old) }
    ensures memory { IfErr result (λ e. e ≡ StepError.NoMemory) }
{
    if alone {
        emit_alone(alloc, endpoint, list)
    } else {
        emit_due(alloc, endpoint, list)
    }
}
