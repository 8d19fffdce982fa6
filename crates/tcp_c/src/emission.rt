//! Segments that go out, each with where it goes and its length.
ghost use Rattle.std.specs.Prelude.{◌≡◌, length, option_map, unwrap_or};
ghost use Rattle.tcp_conn.specs.declared.emit.transmit.TheConstants.{EMIT_ROOM};
ghost use Rattle.tcp_c.specs.Answers.{answer_of, due_number, number_written};
ghost use Rattle.tcp_c.specs.Lent.{partial_buffer};
ghost use Rattle.tcp_c.specs.Pacing.{ack_buffer, ack_destination, ack_length, ack_number, after_ack_within};
ghost use Rattle.tcp_c.specs.Segments.{after_emission_within, emission_number, written_buffer, written_destination, written_length};

use crate::answers::{DONE, LITTLE_ROOM, NO_END, NOTHING_DUE};
use crate::handle::Handle;
use crate::records::CAddr;
use tcp_conn::{EMIT_ROOM, Transmit};
use tcp_wire::Addr;

/// Where a segment goes that was reported, and its length.
fn sent_to(sent: Option<Transmit>) -> Option<(Addr, usize)>
    ensures to { option_map (λ sent. sent.0.0) result ≡ option_map (λ sent. sent.to.0) sent }
    ensures len { option_map (λ sent. sent.1) result ≡ option_map (λ sent. sent.len) sent }
{
    let sent = sent?;
    Some((sent.to, sent.len))
}

/// The one way out of an emission: reports where the segment goes that was written, and its length. Where none was, what stands there
/// stays.
pub(crate) fn report_sent(sent: Option<(Addr, usize)>, to: &mut CAddr, count: &mut usize) -> u32
    ensures answer { result ≡ due_number (option_map (λ sent. sent.1) sent) }
    ensures destination { to.new.byte ≡ unwrap_or (option_map (λ sent. sent.0.0) sent) to.old.byte }
    ensures count { count.new ≡ unwrap_or (option_map (λ sent. sent.1) sent) count.old }
{
    let Some((destination, length)) = sent else {
        return NOTHING_DUE;
    };
    let Addr(byte) = destination;
    to.byte = byte;
    *count = length;
    DONE
}

/// Writes the segment that is due into the front of `out`, and reports where it goes and its length (RFC 9293, 3.7, 3.8
/// and 3.10). 33 where `out` has less than [`EMIT_ROOM`] bytes, 53 where none is due: then nothing changes.
#[unsafe(no_mangle)]
pub extern "C" fn tcp_c_emit(
    handle: &mut Handle,
    out: &mut [u8],
    to: &mut CAddr,
    count: &mut usize,
) -> u32
    ensures answer { result ≡ answer_of (emission_number EMIT_ROOM (length out.old)) handle.old.held.end }
    ensures bytes { out.new ≡ written_buffer EMIT_ROOM out.old handle.old.held.end }
    ensures destination { to.new.byte ≡ written_destination EMIT_ROOM (length out.old) handle.old.held.end }
    ensures count { count.new ≡ number_written (written_length EMIT_ROOM (length out.old)) handle.old.held.end }
    ensures state { handle.new.held.end ≡ option_map (after_emission_within EMIT_ROOM (length out.old)) handle.old.held.end }
{
    to.byte = [0; 4];
    *count = 0;
    let Some(mut end) = handle.take() else {
        return NO_END;
    };
    if out.len() < EMIT_ROOM {
        handle.put(end);
        return LITTLE_ROOM;
    }
    let sent = end.emit(out);
    handle.put(end);
    report_sent(sent, to, count)
}

/// Emits as `tcp_c_emit` does, but the checksum field has the ones' complement sum of the pseudo-header alone, and no
/// text is summed (RFC 9293, 3.1; RFC 1071, 2). A device sums what was written, and puts the complement of that sum
/// into the field.
#[unsafe(no_mangle)]
pub extern "C" fn tcp_c_emit_partial(
    handle: &mut Handle,
    out: &mut [u8],
    to: &mut CAddr,
    count: &mut usize,
) -> u32
    ensures answer { result ≡ answer_of (emission_number EMIT_ROOM (length out.old)) handle.old.held.end }
    ensures bytes { out.new ≡ partial_buffer EMIT_ROOM out.old handle.old.held.end }
    ensures destination { to.new.byte ≡ written_destination EMIT_ROOM (length out.old) handle.old.held.end }
    ensures count { count.new ≡ number_written (written_length EMIT_ROOM (length out.old)) handle.old.held.end }
    ensures state { handle.new.held.end ≡ option_map (after_emission_within EMIT_ROOM (length out.old)) handle.old.held.end }
{
    to.byte = [0; 4];
    *count = 0;
    let Some(mut end) = handle.take() else {
        return NO_END;
    };
    if out.len() < EMIT_ROOM {
        handle.put(end);
        return LITTLE_ROOM;
    }
    let sent = end.emit_partial(out);
    handle.put(end);
    report_sent(sent, to, count)
}

/// As `tcp_c_emit`, but writes the acknowledgement that is pending, without data, though data or the FIN is due (RFC 9293,
/// 3.8.6.3). 33 where `out` has less than [`EMIT_ROOM`] bytes; 53 where no acknowledgement is pending, or a reset or SYN comes
/// before it: then nothing changes.
#[unsafe(no_mangle)]
pub extern "C" fn tcp_c_emit_acknowledgement(
    handle: &mut Handle,
    out: &mut [u8],
    to: &mut CAddr,
    count: &mut usize,
) -> u32
    ensures answer { result ≡ answer_of (ack_number EMIT_ROOM (length out.old)) handle.old.held.end }
    ensures bytes { out.new ≡ ack_buffer EMIT_ROOM out.old handle.old.held.end }
    ensures destination { to.new.byte ≡ ack_destination EMIT_ROOM (length out.old) handle.old.held.end }
    ensures count { count.new ≡ number_written (ack_length EMIT_ROOM (length out.old)) handle.old.held.end }
    ensures state { handle.new.held.end ≡ option_map (after_ack_within EMIT_ROOM (length out.old)) handle.old.held.end }
{
    to.byte = [0; 4];
    *count = 0;
    let Some(mut end) = handle.take() else {
        return NO_END;
    };
    if out.len() < EMIT_ROOM {
        handle.put(end);
        return LITTLE_ROOM;
    }
    let sent = end.emit_acknowledgement(out);
    handle.put(end);
    report_sent(sent_to(sent), to, count)
}
