//! One line of a script of version 1.
ghost use Rattle.std.specs.Prelude.{◌≡◌, option_map};
ghost use Rattle.kit_text.specs.Words.{further_pieces, Reads};
ghost use Rattle.kit_script.specs.Statements.{statement_content, setting_of_words, statement_of};

use crate::events::read_event;
use crate::names::read_side;
use crate::settings::{Setting, read_setting};
use kit_text::{LineError, SPACE, cut};
use std::alloc::{Allocator, Global};
use tcp_replay::{Event, Side};

/// The first word of a line with a setting.
pub(crate) const CONFIG: &[u8] = b"config";

/// The meaning of a line.
#[derive(Debug, Drop)]
pub(crate) enum Statement<A: Allocator = Global> {
    /// A value of this side's `Config`.
    Setting(Side, Setting),
    Event(Event<A>),
}

/// The setting with these words after `config`.
fn read_config<A: Allocator>(rest: Option<&[u8]>) -> Option<Statement<A>>
    ensures { option_map statement_content result ≡ setting_of_words (further_pieces 32 rest.entry) }
{
    let (side, rest) = cut(SPACE, rest?);
    let (key, rest) = cut(SPACE, rest?);
    let (value, rest) = cut(SPACE, rest?);
    if rest.is_some() {
        return None;
    }
    Some(Statement::Setting(read_side(side)?, read_setting(key, value)?))
}

/// The statement of a line.
#[tactic(auto, unfolding(crate::specs::Statements::statement_of))]
pub(crate) fn read_statement<A: Allocator + Copy>(
    alloc: A,
    line: &[u8],
) -> Result<Statement<A>, LineError>
    ensures { Reads statement_content result (statement_of line.now) }
{
    let (kind, rest) = cut(SPACE, line);
    if kind == CONFIG {
        return read_config(rest).ok_or(LineError::BadForm);
    }
    Ok(Statement::Event(read_event(alloc, kind, rest)?))
}
