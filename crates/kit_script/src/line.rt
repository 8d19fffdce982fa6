//! One line of a script, by the script's version.
ghost use Rattle.std.specs.Prelude.{◌≡◌, ◌≤◌, ◌-◌, nat_le, option_map, IfOk, IfSome};
ghost use Rattle.tcp_replay.specs.Events.{event_content};
ghost use Rattle.kit_text.specs.Words.{further_pieces, Reads};
ghost use Rattle.kit_script.specs.Added.{line_content, number_from, life_of, limit_of, runs_of, config_of_words, last_number, repeated, repeat_of_words, added_line_of, line_of, HasLineRange, IsNumberWithin};

use crate::events::{MAX_PLACE, read_event};
use crate::names::read_side;
use crate::statement::{CONFIG, Statement, read_statement};
use kit_text::{LineError, SPACE, cut, read_number};
use std::alloc::{Allocator, Global};
use tcp_reasm::MAX_RUNS;
use tcp_replay::{Event, MAX_LIFE, Side};

const REPEAT: &[u8] = b"repeat";

const LIFE: &[u8] = b"life";

const LIMIT: &[u8] = b"limit";

const RUNS: &[u8] = b"runs";

/// The most turns that an event can have.
const MAX_TIMES: u64 = 1_048_576;

/// The greatest limit that a line can name, in bytes.
const MAX_LIMIT: u64 = 9_223_372_036_854_775_807;

/// The meaning of a line.
#[derive(Debug, Drop)]
pub(crate) enum Line<A: Allocator = Global> {
    /// A statement, which version 1 has too.
    Statement(Statement<A>),
    /// The lifetime of a segment in positions (RFC 9293, 3.4).
    Life(u32),
    /// The limit of this side's stream, in bytes.
    Limit(Side, u64),
    /// How many runs the end of this side keeps out of order, and remembers of its peer's (RFC 2018, 5).
    Runs(Side, usize),
    /// An event with this many turns.
    Repeat(u32, Event<A>),
}

/// The number of a word, where it is from `least` to `most`.
fn read_number_from(word: &[u8], least: u64, most: u64) -> Option<u64>
    ensures value { result ≡ number_from least most word.now }
    ensures least { IfSome result (λ n. least ≤ n) }
    ensures most { IfSome result (λ n. n ≤ most) }
{
    let n = read_number(word, most)?;
    if n < least {
        return None;
    }
    Some(n)
}

fn read_life<A: Allocator>(key: &[u8], value: &[u8]) -> Option<Line<A>>
    ensures line { option_map line_content result ≡ life_of key.now value.now }
    ensures range { IfSome result HasLineRange }
{
    if key != LIFE {
        return None;
    }
    let life = read_number_from(value, 2, u64::from(MAX_LIFE))?;
    Some(Line::Life(life as u32))
}

fn read_limit<A: Allocator>(side: &[u8], key: &[u8], value: &[u8]) -> Option<Line<A>>
    ensures line { option_map line_content result ≡ limit_of side.now key.now value.now }
    ensures range { IfSome result HasLineRange }
{
    if key != LIMIT {
        return None;
    }
    Some(Line::Limit(read_side(side)?, read_number(value, MAX_LIMIT)?))
}

fn read_runs<A: Allocator>(version: u8, side: &[u8], key: &[u8], value: &[u8]) -> Option<Line<A>>
    ensures line { option_map line_content result ≡ runs_of version side.now key.now value.now }
    ensures range { IfSome result HasLineRange }
{
    if version != 3 || key != RUNS {
        return None;
    }
    let side = read_side(side)?;
    let number = read_number_from(value, 1, MAX_RUNS as u64)?;
    Some(Line::Runs(side, number as usize))
}

/// The line with these words after `config`.
fn read_config<A: Allocator>(version: u8, rest: Option<&[u8]>) -> Option<Line<A>>
    ensures line { option_map line_content result ≡ config_of_words version (further_pieces 32 rest.entry) }
    ensures range { IfSome result HasLineRange }
{
    let (first, rest) = cut(SPACE, rest?);
    let (second, rest) = cut(SPACE, rest?);
    let Some(rest) = rest else {
        return read_life(first, second);
    };
    let (third, rest) = cut(SPACE, rest);
    if rest.is_some() {
        return None;
    }
    if let Some(limit) = read_limit(first, second, third) {
        return Some(limit);
    }
    read_runs(version, first, second, third)
}

/// The greatest number of a segment that an event of this many turns names.
fn last_number<A: Allocator>(times: u32, event: &Event<A>) -> Option<usize>
    requires { 1 ≤ times }
    ensures { IsNumberWithin result (last_number times (event_content event.now)) }
{
    match event {
        Event::Deliver(_, k) => k.checked_add(times as usize - 1),
        Event::Damage(_, k, _, _) => k.checked_add(times as usize - 1),
        _ => Some(0),
    }
}

/// An event of this many turns, where the last one's number can be named.
fn repeat<A: Allocator>(times: u32, event: Event<A>) -> Option<Line<A>>
    requires { 1 ≤ times }
    ensures line { option_map line_content result ≡ repeated times (event_content event) }
    ensures range { IfSome result HasLineRange }
{
    if last_number(times, &event)? > MAX_PLACE as usize {
        return None;
    }
    Some(Line::Repeat(times, event))
}

/// The line with these words after `repeat`.
fn read_repeat<A: Allocator + Copy>(alloc: A, rest: Option<&[u8]>) -> Result<Line<A>, LineError>
    ensures line { Reads line_content result (repeat_of_words (further_pieces 32 rest.entry)) }
    ensures range { IfOk result HasLineRange }
{
    let (times, rest) = cut(SPACE, rest.ok_or(LineError::BadForm)?);
    let (kind, rest) = cut(SPACE, rest.ok_or(LineError::BadForm)?);
    let times = read_number_from(times, 1, MAX_TIMES).ok_or(LineError::BadForm)?;
    let event = read_event(alloc, kind, rest)?;
    repeat(times as u32, event).ok_or(LineError::BadForm)
}

/// A line that this version has and version 1 doesn't.
#[tactic(auto, unfolding(crate::specs::Added::added_line_of))]
fn read_added_line<A: Allocator + Copy>(
    alloc: A,
    version: u8,
    line: &[u8],
) -> Result<Line<A>, LineError>
    ensures line { Reads line_content result (added_line_of version line.now) }
    ensures range { IfOk result HasLineRange }
{
    let (word, rest) = cut(SPACE, line);
    if word == CONFIG {
        return read_config(version, rest).ok_or(LineError::BadForm);
    }
    if word == REPEAT {
        return read_repeat(alloc, rest);
    }
    Err(LineError::BadForm)
}

/// A line of a script of a version.
pub(crate) fn read_line<A: Allocator + Copy>(
    alloc: A,
    version: u8,
    line: &[u8],
) -> Result<Line<A>, LineError>
    ensures line { Reads line_content result (line_of version line.now) }
    ensures range { IfOk result HasLineRange }
{
    if version != 1 {
        match read_added_line(alloc, version, line) {
            Ok(added) => return Ok(added),
            Err(LineError::BadForm) => {}
            Err(LineError::NoMemory) => return Err(LineError::NoMemory),
        }
    }
    Ok(Line::Statement(read_statement(alloc, line)?))
}
