//! A row: `COMMAND READ-PIECE READ-FAULT WRITE-PIECE WRITE-FAULT AT`. The command `replay` is run on a connection of
//! thirty events, `show` on eight segments, and `show-bad` on a list with a bad line. A fault is `-` where there is
//! none. That of a reader is the number of the read that fails; that of a writer `fails`, `nothing` (it writes nothing)
//! or `flush`, the first two at the write of the number AT. Calls are counted from 0.
use crate::devices::{Reader, Trouble, Writer};
use crate::texts::{BAD_LIST, BEFORE_BAD_LINE, CONNECTION, LISTING, REPORT, SEGMENTS};
use kit_commands::{ToolError, replay, show};
use kit_io::Counted;
use kit_text::{SPACE, cut, read_number};
use std::alloc::Global;
use std::io;

/// A command, what it reads, and what it has to write where nothing fails.
#[derive(Clone, Copy)]
struct Job {
    is_replay: bool,
    input: &'static str,
    wanted: &'static str,
}

/// The content of a row.
#[derive(Clone, Copy)]
struct Row {
    job: Job,
    read_piece: usize,
    read_fails_at: Option<usize>,
    write_piece: usize,
    trouble: Trouble,
}

/// The outcome.
#[derive(Drop)]
struct Outcome {
    answer: Result<bool, ToolError>,
    reads: usize,
    writer: Writer,
}

fn number_of(word: &[u8]) -> Option<usize> {
    Some(read_number(word, 10_000)? as usize)
}

fn job_of(word: &[u8]) -> Option<Job> {
    let (is_replay, input, wanted) = match word {
        b"replay" => (true, CONNECTION, REPORT),
        b"show" => (false, SEGMENTS, LISTING),
        b"show-bad" => (false, BAD_LIST, BEFORE_BAD_LINE),
        _ => return None,
    };
    Some(Job {
        is_replay,
        input,
        wanted,
    })
}

fn trouble_of(word: &[u8], at: &[u8]) -> Trouble {
    let at = number_of(at).unwrap_or(0);
    match word {
        b"fails" => Trouble::FailsAt(at),
        b"nothing" => Trouble::TakesNothingAt(at),
        b"flush" => Trouble::FlushFails,
        _ => Trouble::Nothing,
    }
}

fn read_row(line: &[u8]) -> Option<Row> {
    let (command, rest) = cut(SPACE, line);
    let (read_piece, rest) = cut(SPACE, rest?);
    let (read_fault, rest) = cut(SPACE, rest?);
    let (write_piece, rest) = cut(SPACE, rest?);
    let (write_fault, at) = cut(SPACE, rest?);
    Some(Row {
        job: job_of(command)?,
        read_piece: number_of(read_piece)?,
        read_fails_at: number_of(read_fault),
        write_piece: number_of(write_piece)?,
        trouble: trouble_of(write_fault, at.unwrap_or(b"")),
    })
}

/// Runs the command of a row over its reader and its writer.
fn run(alloc: Global, row: Row) -> Outcome {
    let mut input = Counted::new(Reader {
        rest: row.job.input.as_bytes(),
        piece: row.read_piece,
        calls: 0,
        fails_at: row.read_fails_at,
    });
    let mut output = Counted::new(Writer {
        got: Vec::new(alloc),
        piece: row.write_piece,
        calls: 0,
        trouble: row.trouble,
    });
    let answer = if row.job.is_replay {
        replay(alloc, &mut input, &mut output)
    } else {
        show(alloc, &mut input, &mut output)
    };
    Outcome {
        answer,
        reads: input.into_inner().calls,
        writer: output.into_inner(),
    }
}

/// How much of a text was written.
fn share_of(text: &[u8], written: &[u8]) -> &'static str {
    if written == text {
        "all of it"
    } else if text.starts_with(written) {
        "a prefix"
    } else {
        "other bytes"
    }
}

fn print_outcome(rt: &impl Print, row: Row, outcome: &Outcome) -> io::Result<()> {
    let written = outcome.writer.got.as_slice();
    match &outcome.answer {
        Ok(is_well) => print!(rt; "ok {is_well}")?,
        Err(fault) => print!(rt; "{fault}")?,
    }
    let share = share_of(row.job.wanted.as_bytes(), written);
    let count = written.len();
    let reads = outcome.reads;
    let writes = outcome.writer.calls;
    println!(rt; ", {count} bytes written, {share}, {reads} reads, {writes} writes")
}

/// Runs the row of a line, and prints the line and the outcome.
pub(crate) fn print_row(rt: &(impl Print + AllocGlobal), line: &[u8]) -> io::Result<()> {
    let Some(row) = read_row(line) else {
        return Err(io::Error::from(io::ErrorKind::InvalidData));
    };
    let words = str::from_utf8(line).unwrap_or("?");
    print!(rt; "{words}: ")?;
    let outcome = run(rt.alloc(), row);
    print_outcome(rt, row, &outcome)
}
