//! The program: its words, its file, and its exit status.
use kit_commands::{ToolError, replay, show};
use kit_io::Counted;
use kit_words::{Job, WordsError, exit_status, read_words};
use std::fs::File;
use std::io::Read;
use std::rt::{Env, Files};
use std::{env, io};
use thiserror::Error;

/// Why the program ends without its whole report.
#[derive(Debug, Drop, Error)]
enum Fault {
    #[error(transparent)]
    Words(WordsError),
    #[error(transparent)]
    Tool(ToolError),
}

/// The program's words, its name first.
fn words(rt: &(impl Env + AllocGlobal)) -> Result<Vec<String>, WordsError> {
    let alloc = rt.alloc();
    let words = match env::args(rt) {
        Ok(words) => words,
        Err(error) if error.kind() == io::ErrorKind::OutOfMemory => {
            return Err(WordsError::NoMemory);
        }
        Err(_) => return Err(WordsError::BadWords),
    };
    match words.collect(alloc) {
        Ok(words) => Ok(words),
        Err(_) => Err(WordsError::NoMemory),
    }
}

/// Lists the segments of a list.
fn decode_all<R: Read + Drop>(rt: &(impl Print + AllocGlobal), list: R) -> Result<bool, ToolError> {
    let mut input = Counted::new(list);
    let mut output = Counted::new(io::writer(rt));
    show(rt.alloc(), &mut input, &mut output)
}

/// Replays a script.
fn replay_all<R: Read + Drop>(
    rt: &(impl Print + AllocGlobal),
    script: R,
) -> Result<bool, ToolError> {
    let mut input = Counted::new(script);
    let mut output = Counted::new(io::writer(rt));
    replay(rt.alloc(), &mut input, &mut output)
}

/// Opens a file and does the job.
fn work(rt: &(impl Files + Print + AllocGlobal), job: &Job) -> Result<bool, ToolError> {
    let Ok(file) = File::open(rt, job.path()) else {
        return Err(ToolError::ReadFault);
    };
    match job {
        Job::Decode(_) => decode_all(rt, file),
        Job::Replay(_) => replay_all(rt, file),
    }
}

fn work_by_words(rt: &(impl Env + Files + Print + AllocGlobal)) -> Result<bool, Fault> {
    let words = words(rt).map_err(Fault::Words)?;
    let job = read_words(rt.alloc(), words).map_err(Fault::Words)?;
    work(rt, &job).map_err(Fault::Tool)
}

/// Does what the words request, and returns the exit status. A fault is reported by one line on standard error.
pub(crate) fn run(rt: &(impl Env + Files + Print + Eprint + AllocGlobal)) -> u8 {
    let answer = work_by_words(rt);
    if let Err(fault) = &answer {
        let _ = eprintln!(rt; "tcpkit: {fault}");
    }
    exit_status(&answer)
}
