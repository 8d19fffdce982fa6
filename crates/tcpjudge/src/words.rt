//! The program's words.
use crate::fault::Fault;
use capture_ends::Host;
use clap::error::ErrorKind;
use clap::{Arg, ArgAction, ArgMatches, Command, Error as ParseError};
use std::alloc::{AllocError, Global};

/// When the report has colors.
#[derive(Clone, Copy, Debug, PartialEq, Eq)]
pub(crate) enum When {
    /// Where standard output is a terminal, and the environment has no NO_COLOR.
    Auto,
    Always,
    Never,
}

/// The job that the words request.
#[derive(Debug, Drop)]
pub(crate) enum Job {
    /// To print what the program takes.
    Help,
    /// To judge a log or a capture.
    Judge {
        /// Its path, or `-`.
        path: String,
        /// Of a log: whether no segment is missing in it.
        is_complete: bool,
        /// Of a capture: the address of the end where it was taken, and whether the report is to be JSON.
        at: Option<Host>,
        is_json: bool,
        /// Of a capture: when the report has colors.
        color: When,
    },
}

const COMPLETE: &str = "complete";

const AT: &str = "at";

const JSON: &str = "json";

const COLOR: &str = "color";

/// One form, with one file.
fn form<'a>(alloc: Global) -> Result<Command<'a>, AllocError> {
    let file = Arg::new(alloc, "FILE")
        .required(true)
        .action(ArgAction::Set);
    let complete = Arg::new(alloc, COMPLETE)
        .long(COMPLETE)
        .action(ArgAction::SetTrue);
    let at = Arg::new(alloc, AT)
        .long(AT)
        .value_name("ADDRESS")
        .action(ArgAction::Set);
    let json = Arg::new(alloc, JSON).long(JSON).action(ArgAction::SetTrue);
    let color = Arg::new(alloc, COLOR)
        .long(COLOR)
        .value_name("WHEN")
        .action(ArgAction::Set);
    Command::new(alloc, "tcpjudge")
        .arg(file)?
        .arg(complete)?
        .arg(at)?
        .arg(json)?
        .arg(color)
}

/// What a refusal by clap means.
fn refused(error: &ParseError) -> Result<Job, Fault> {
    match error.kind() {
        ErrorKind::DisplayHelp => Ok(Job::Help),
        ErrorKind::OutOfMemory => Err(Fault::NoMemory),
        _ => Err(Fault::BadWords),
    }
}

/// The address of the end where a capture was taken, if the words name one.
fn place_of(matches: &ArgMatches) -> Result<Option<Host>, Fault> {
    let Some(word) = matches.get_str(AT) else {
        return Ok(None);
    };
    match Host::read(word.as_bytes()) {
        Some(host) => Ok(Some(host)),
        None => Err(Fault::BadWords),
    }
}

/// When the report has colors.
fn color_of(matches: &ArgMatches) -> Result<When, Fault> {
    match matches.get_str(COLOR) {
        None | Some("auto") => Ok(When::Auto),
        Some("always") => Ok(When::Always),
        Some("never") => Ok(When::Never),
        Some(_) => Err(Fault::BadWords),
    }
}

fn job_of(alloc: Global, matches: &ArgMatches) -> Result<Job, Fault> {
    let is_complete = matches.get_flag(COMPLETE);
    let at = place_of(matches)?;
    let is_json = matches.get_flag(JSON);
    let color = color_of(matches)?;
    let Some(file) = matches.get_str("FILE") else {
        return Err(Fault::BadWords);
    };
    match String::from_str(alloc, file) {
        Ok(path) => Ok(Job::Judge {
            path,
            is_complete,
            at,
            is_json,
            color,
        }),
        Err(_) => Err(Fault::NoMemory),
    }
}

/// The job, from the program's words, its own name first.
pub(crate) fn read_words(alloc: Global, words: Vec<String>) -> Result<Job, Fault> {
    let Ok(command) = form(alloc) else {
        return Err(Fault::NoMemory);
    };
    match command.try_get_matches_from(words.as_slice()) {
        Ok(matches) => job_of(alloc, &matches),
        Err(error) => refused(&error),
    }
}
