//! The events of a script: `KIND SIDE`, and the words that the kind requires.
ghost use Rattle.std.specs.Prelude.{◌≡◌, option_map};
ghost use Rattle.tcp_replay.specs.Events.{event_content};
ghost use Rattle.kit_text.specs.Words.{further_pieces, Reads};
ghost use Rattle.kit_script.specs.Statements.{bare_event, event_with_word, event_with_three, event_of, event_after_kind, event_of_words};

use crate::names::{Kind, read_kind, read_side, read_timer};
use kit_text::{LineError, SPACE, cut, read_bytes, read_number};
use std::alloc::Allocator;
use tcp_replay::{Event, Side};

/// The greatest number of a segment, or of an offset in one, that a line can name.
pub(crate) const MAX_PLACE: u64 = 4_294_967_295;

/// The most bytes that a line can request.
const MAX_ROOM: u64 = 1_048_576;

/// An event that names nothing but its side.
fn bare<A: Allocator>(kind: Kind, side: Side) -> Option<Event<A>>
    ensures { option_map event_content result ≡ bare_event kind side }
{
    match kind {
        Kind::Connect => Some(Event::Connect(side)),
        Kind::Listen => Some(Event::Listen(side)),
        Kind::Close => Some(Event::Close(side)),
        Kind::Abort => Some(Event::Abort(side)),
        Kind::Emit => Some(Event::Emit(side)),
        _ => None,
    }
}

/// An event with one word after its side.
fn with_word<A: Allocator + Copy>(
    alloc: A,
    kind: Kind,
    side: Side,
    word: &[u8],
) -> Result<Event<A>, LineError>
    ensures { Reads event_content result (event_with_word kind side word.now) }
{
    match kind {
        Kind::Send => Ok(Event::Send(side, read_bytes(alloc, word)?)),
        Kind::Receive => {
            let room = read_number(word, MAX_ROOM).ok_or(LineError::BadForm)?;
            Ok(Event::Receive(side, room as usize))
        }
        Kind::Timer => {
            let timer = read_timer(word).ok_or(LineError::BadForm)?;
            Ok(Event::Timer(side, timer))
        }
        Kind::Deliver => {
            let k = read_number(word, MAX_PLACE).ok_or(LineError::BadForm)?;
            Ok(Event::Deliver(side, k as usize))
        }
        _ => Err(LineError::BadForm),
    }
}

/// An event with three words after its side.
fn with_three<A: Allocator>(
    kind: Kind,
    from: Side,
    k: &[u8],
    place: &[u8],
    value: &[u8],
) -> Option<Event<A>>
    ensures { option_map event_content result ≡ event_with_three kind from k.now place.now value.now }
{
    if kind != Kind::Damage {
        return None;
    }
    let k = read_number(k, MAX_PLACE)? as usize;
    let place = read_number(place, MAX_PLACE)? as usize;
    let value = read_number(value, 255)? as u8;
    Some(Event::Damage(from, k, place, value))
}

/// The event with these words after its side.
fn after_side<A: Allocator + Copy>(
    alloc: A,
    kind: Kind,
    side: Side,
    rest: Option<&[u8]>,
) -> Result<Event<A>, LineError>
    ensures { Reads event_content result (event_of kind side (further_pieces 32 rest.entry)) }
{
    let Some(rest) = rest else {
        return bare(kind, side).ok_or(LineError::BadForm);
    };
    let (word, rest) = cut(SPACE, rest);
    let Some(rest) = rest else {
        return with_word(alloc, kind, side, word);
    };
    let (place, rest) = cut(SPACE, rest);
    let (value, rest) = cut(SPACE, rest.ok_or(LineError::BadForm)?);
    if rest.is_some() {
        return Err(LineError::BadForm);
    }
    with_three(kind, side, word, place, value).ok_or(LineError::BadForm)
}

/// The event of a line with these words after its kind.
fn after_kind<A: Allocator + Copy>(
    alloc: A,
    kind: Kind,
    rest: Option<&[u8]>,
) -> Result<Event<A>, LineError>
    ensures { Reads event_content result (event_after_kind kind (further_pieces 32 rest.entry)) }
{
    let (side, rest) = cut(SPACE, rest.ok_or(LineError::BadForm)?);
    let side = read_side(side).ok_or(LineError::BadForm)?;
    after_side(alloc, kind, side, rest)
}

/// The event of a line with these words after its first.
pub(crate) fn read_event<A: Allocator + Copy>(
    alloc: A,
    word: &[u8],
    rest: Option<&[u8]>,
) -> Result<Event<A>, LineError>
    ensures { Reads event_content result (event_of_words word.now (further_pieces 32 rest.entry)) }
{
    let kind = read_kind(word).ok_or(LineError::BadForm)?;
    after_kind(alloc, kind, rest)
}
