//! The whole script.
ghost use Rattle.std.specs.Prelude.{◌≡◌, Some, IfOk};
ghost use Rattle.tcp_halves.specs.Config.{stream_limit};
ghost use Rattle.tcp_replay.specs.Events.{event_content};
ghost use Rattle.kit_text.specs.Lines.{lines_of};
ghost use Rattle.kit_script.specs.Settings.{default_config};
ghost use Rattle.kit_script.specs.Added.{line_content, HasLineRange};
ghost use Rattle.kit_script.specs.Script.{script_without_lines, script_content, with_turn, with_line_content, with_line, script_from, is_first_line, script_of, GoesOn, GoesOnToEnd, ReadsScript, SaysVersion1, CanBegin};

use crate::error::ScriptError;
use crate::line::{Line, read_line};
use crate::settings::set;
use crate::statement::Statement;
use kit_text::{LineError, Lines, cut};
use std::alloc::{Allocator, Global};
use tcp_conn::{Config, DEFAULT_LIMIT, MAX_LIMIT};
use tcp_reasm::DEFAULT_RUNS;
use tcp_replay::{Event, MAX_LIFE, Side};
use tcp_wire::{Addr, Seq};

/// The first line of a script of version 2.
const VERSION_2: &[u8] = b"tcpkit 2";

/// The first line of a script of version 3.
const VERSION_3: &[u8] = b"tcpkit 3";

/// An event, and its number of turns.
#[derive(Debug, Drop)]
pub struct Turn<A: Allocator = Global> {
    /// `None` where the event isn't repeated.
    pub times: Option<u32>,
    /// The event of the first turn. The number of a segment that it names grows by 1 each turn.
    pub event: Event<A>,
}

/// The content of a script: the Configs of the two ends, and their events in order.
#[derive(Debug, Drop)]
pub struct Script<A: Allocator = Global> {
    /// 1, or 2 or 3 where the first line says so.
    pub version: u8,
    /// The lifetime of a segment in positions, from 2 to 2,147,483,648 (RFC 9293, 3.4).
    pub life: u32,
    /// The Config of side A.
    pub a: Config,
    /// The Config of side B.
    pub b: Config,
    /// How many runs the end of side A keeps out of order, and remembers of its peer's, from 1 to 4,096 (RFC 2018, 5).
    pub runs_a: usize,
    /// The same of side B.
    pub runs_b: usize,
    /// The events, each with its turns.
    pub events: Vec<Turn<A>, A>,
}

/// The default Config of address 10.0.0.`host`, with this limit.
fn default_config(host: u8, isn: u32, limit: u64) -> Config
    ensures { result ≡ record (default_config host host isn) { limit = limit } }
{
    let mut config = Config::new(Addr([10, 0, 0, host]), u16::from(host), Seq(isn));
    config.limit = limit;
    config
}

impl<A: Allocator + Copy> Script<A> {
    /// The script of a version without lines, with this limit of both streams.
    fn new(alloc: A, version: u8, limit: u64) -> Script<A>
        ensures script { script_content result ≡ script_without_lines version limit }
        ensures begins { CanBegin result }
    {
        Script {
            version,
            life: MAX_LIFE,
            a: default_config(1, 1000, limit),
            b: default_config(2, 5000, limit),
            runs_a: DEFAULT_RUNS,
            runs_b: DEFAULT_RUNS,
            events: Vec::new(alloc),
        }
    }

    /// Adds an event.
    fn push(&mut self, times: Option<u32>, event: Event<A>) -> Result<(), LineError>
        ensures turn { GoesOn result (Some (with_turn (script_content self.old) times (event_content event))) (script_content self.new) }
        ensures begins { CanBegin self.old → CanBegin self.new }
    {
        match self.events.push(Turn { times, event }) {
            Ok(()) => Ok(()),
            Err(_) => Err(LineError::NoMemory),
        }
    }

    /// Adds the content of a line. A setting is refused after an event.
    fn add(&mut self, line: Line<A>) -> Result<(), LineError>
        requires { HasLineRange line }
        ensures line { GoesOn result (with_line_content (script_content self.old) (line_content line)) (script_content self.new) }
        ensures begins { CanBegin self.old → CanBegin self.new }
    {
        match line {
            Line::Statement(Statement::Event(event)) => return self.push(None, event),
            Line::Repeat(times, event) => return self.push(Some(times), event),
            _ if !self.events.is_empty() => return Err(LineError::BadForm),
            Line::Statement(Statement::Setting(Side::A, setting)) => set(&mut self.a, setting),
            Line::Statement(Statement::Setting(Side::B, setting)) => set(&mut self.b, setting),
            Line::Life(life) => self.life = life,
            Line::Limit(Side::A, limit) => self.a.limit = limit,
            Line::Limit(Side::B, limit) => self.b.limit = limit,
            Line::Runs(Side::A, runs) => self.runs_a = runs,
            Line::Runs(Side::B, runs) => self.runs_b = runs,
        }
        Ok(())
    }

    /// Reads and adds a line.
    fn read_line(&mut self, alloc: A, line: &[u8]) -> Result<(), LineError>
        ensures line { GoesOn result (with_line (script_content self.old) line.now) (script_content self.new) }
        ensures begins { CanBegin self.old → CanBegin self.new }
    {
        match read_line(alloc, self.version, line) {
            Ok(line) => self.add(line),
            Err(error) => Err(error),
        }
    }

    /// Reads and adds all lines in order, up to the first that is bad.
    #[tactic(auto, unfolding(crate::specs::Script::script_from))]
    fn read_lines(&mut self, alloc: A, lines: Lines<'_>) -> Result<(), ScriptError>
        ensures lines { GoesOnToEnd result (script_from (script_content self.old) lines.entry) (script_content self.new) }
        ensures begins { CanBegin self.old → CanBegin self.new }
    {
        for (number, line) in lines {
            match self.read_line(alloc, line) {
                Ok(()) => {}
                Err(LineError::BadForm) => return Err(ScriptError::BadLine { line: number }),
                Err(LineError::NoMemory) => return Err(ScriptError::NoMemory),
            }
        }
        Ok(())
    }
}

/// Whether the first line has these words.
fn begins_with(words: &[u8], text: &[u8]) -> bool
    ensures { result ≡ is_first_line words.now (lines_of text.now) }
{
    let (first, _) = cut(b'\n', text);
    first == words
}

/// The script of a text of any bytes, or its first bad line; `NoMemory` can come at any line.
#[tactic(auto, unfolding(crate::specs::Script::script_of))]
pub fn read_script_bytes<A: Allocator + Copy>(
    alloc: A,
    text: &[u8],
) -> Result<Script<A>, ScriptError>
    ensures script { ReadsScript result (script_of text.now) }
    ensures version_1 { SaysVersion1 text.now }
    ensures begins { IfOk result CanBegin }
{
    let mut lines = match Lines::new(text) {
        Ok(lines) => lines,
        Err(line) => return Err(ScriptError::BadLine { line }),
    };
    let mut script = if begins_with(VERSION_3, text) {
        lines.next();
        Script::new(alloc, 3, MAX_LIMIT)
    } else if begins_with(VERSION_2, text) {
        lines.next();
        Script::new(alloc, 2, MAX_LIMIT)
    } else {
        Script::new(alloc, 1, DEFAULT_LIMIT)
    };
    match script.read_lines(alloc, lines) {
        Ok(()) => Ok(script),
        Err(error) => Err(error),
    }
}

/// The script of a text, or its first bad line; `NoMemory` can come at any line.
pub fn read_script<A: Allocator + Copy>(alloc: A, text: &str) -> Result<Script<A>, ScriptError>
    ensures script { ReadsScript result (script_of text.now) }
    ensures version_1 { SaysVersion1 text.now }
    ensures begins { IfOk result CanBegin }
{
    read_script_bytes(alloc, text.as_bytes())
}
