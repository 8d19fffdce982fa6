//! Segments of new text as one, for a device that cuts them and computes their checksums.
ghost use Rattle.std.specs.Prelude.{◌≡◌, length, option_map};
ghost use Rattle.tcp_conn.specs.declared.emit.transmit.TheConstants.{EMIT_ROOM};
ghost use Rattle.tcp_c.specs.Answers.{answer_of};
ghost use Rattle.tcp_c.specs.Segments.{emission_number};
ghost use Rattle.tcp_c.specs.Trains.{after_train_within, no_train, record_of, train_buffer, train_told};

use crate::answers::{DONE, LITTLE_ROOM, NO_END, NOTHING_DUE};
use crate::handle::Handle;
use crate::records::{CAddr, CTrain};
use crate::reports::kind_number;
use tcp_conn::{EMIT_ROOM, Train};
use tcp_wire::Addr;

/// A report of no segments: all zero.
pub(crate) fn no_train() -> CTrain
    ensures { result ≡ no_train }
{
    CTrain {
        to: CAddr { byte: [0; 4] },
        kind: 0,
        length: 0,
        position: 0,
        count: 0,
        header: 0,
        each: 0,
        segments: 0,
    }
}

/// The record of segments as one.
pub(crate) fn record_of(train: Train) -> CTrain
    ensures { result ≡ record_of train }
{
    let whole = train.whole;
    let Addr(byte) = whole.to;
    CTrain {
        to: CAddr { byte },
        kind: kind_number(whole.kind),
        length: whole.len,
        position: whole.position,
        count: whole.count,
        header: train.header,
        each: train.each,
        segments: train.segments,
    }
}

/// Emits the segments that are due as one, for a device that cuts them and computes their checksums: as many of new text as the
/// peer's window allows, at most `most`, that `out` has room for; anything else goes alone. The bytes are one segment with all
/// the text, with the sum of the pseudo-header in its checksum field, as `tcp_c_emit_partial` writes it. The end is as after as
/// many calls of `tcp_c_emit` as there are segments. 33 where `out` has less than [`EMIT_ROOM`] bytes, 53 where none is due: then
/// nothing changes.
#[unsafe(no_mangle)]
#[tactic(auto, unfolding(tcp_conn::specs::Emission::destination, tcp_conn::specs::Emission::pending_length, tcp_conn::specs::Transmission::kind_due, tcp_conn::specs::Transmission::position_due, tcp_conn::specs::Transmission::count_due, tcp_conn::specs::Train::train_count, tcp_conn::specs::Train::train_length, tcp_conn::specs::Train::train_text))]
pub extern "C" fn tcp_c_emit_train(
    handle: &mut Handle,
    out: &mut [u8],
    most: usize,
    train: &mut CTrain,
) -> u32
    ensures answer { result ≡ answer_of (emission_number EMIT_ROOM (length out.old)) handle.old.held.end }
    ensures bytes { out.new ≡ train_buffer EMIT_ROOM most out.old handle.old.held.end }
    ensures train { train.new ≡ train_told EMIT_ROOM most (length out.old) handle.old.held.end }
    ensures state { handle.new.held.end ≡ option_map (after_train_within EMIT_ROOM most (length out.old)) handle.old.held.end }
{
    *train = no_train();
    let Some(mut end) = handle.take() else {
        return NO_END;
    };
    if out.len() < EMIT_ROOM {
        handle.put(end);
        return LITTLE_ROOM;
    }
    let sent = end.emit_train(out, most);
    handle.put(end);
    let Some(sent) = sent else {
        return NOTHING_DUE;
    };
    *train = record_of(sent);
    DONE
}
