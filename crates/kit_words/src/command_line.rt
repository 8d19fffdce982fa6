//! The program's words, and the job that they request.
ghost use Rattle.std.specs.Prelude.{◌≡◌, IfOk, Some, None, Err, codes, map, string_bytes};
ghost use Rattle.clap.specs.Words.{app_of, first_value, found_of, kind_of};
ghost use Rattle.kit_words.specs.Forms.{form_app, forms_app};
ghost use Rattle.kit_words.specs.Words.{asked_by, name_of, path_of, words_error_of};

use clap::error::ErrorKind;
use clap::{Arg, ArgAction, ArgMatches, Command, Error as ParseError};
use std::alloc::{AllocError, Global};
use thiserror::Error;

/// Why the program's words are refused. The `Display` text is what the program writes after `tcpkit: `.
#[derive(Clone, Copy, Debug, PartialEq, Eq, Error)]
pub enum WordsError {
    /// They are of no form of the program, or request help or the version.
    #[error("40")]
    BadWords,
    /// There is no memory to read them.
    #[error("42")]
    NoMemory,
}

/// The job of the program, with the path of its file.
#[derive(Debug, PartialEq, Eq, Drop)]
pub enum Job {
    /// To list the segments of a file.
    Decode(String),
    /// To replay a script.
    Replay(String),
}

impl Job {
    /// The path of its file.
    pub fn path(&self) -> &str
        ensures { result.now ≡ path_of self.now }
    {
        match self {
            Job::Decode(path) => path,
            Job::Replay(path) => path,
        }
    }
}

const DECODE: &str = "decode";

const REPLAY: &str = "replay";

/// A form of this name, with one file.
fn form<'a>(alloc: Global, name: &'a str) -> Result<Command<'a>, AllocError>
    ensures { IfOk result (λ form. app_of form ≡ form_app name.entry.now) }
{
    let file = Arg::new(alloc, "FILE")
        .required(true)
        .action(ArgAction::Set);
    Command::new(alloc, name).arg(file)
}

/// The forms that the program has.
fn forms<'a>(alloc: Global) -> Result<Command<'a>, AllocError>
    ensures { IfOk result (λ forms. app_of forms ≡ forms_app) }
{
    Command::new(alloc, "tcpkit")
        .subcommand_required(true)
        .subcommand(form(alloc, DECODE)?)?
        .subcommand(form(alloc, REPLAY)?)
}

/// Any refusal but that there is no memory is one of the words; so is a request for help.
fn fault(error: &ParseError) -> WordsError
    ensures { result ≡ words_error_of (kind_of error.now) }
{
    match error.kind() {
        ErrorKind::OutOfMemory => WordsError::NoMemory,
        _ => WordsError::BadWords,
    }
}

/// The path of the file that a form was given.
fn file(alloc: Global, form: &ArgMatches) -> Result<String, WordsError>
    ensures found { IfOk result (λ path.
        first_value (found_of form.now) (codes "FILE") ≡ Some (string_bytes path)) }
    ensures none { result ≡ Err WordsError.BadWords
        → first_value (found_of form.now) (codes "FILE") ≡ None }
{
    let Some(file) = form.get_str("FILE") else {
        return Err(WordsError::BadWords);
    };
    match String::from_str(alloc, file) {
        Ok(file) => Ok(file),
        Err(_) => Err(WordsError::NoMemory),
    }
}

/// Reads the program's words, its own name first: `decode FILE` or `replay FILE`. A FILE that begins with a hyphen,
/// except `-` alone, has to come after `--`; any other may.
///
/// # Errors
/// `BadWords` only where the words request no job. `NoMemory` where there is no memory, at any words.
pub fn read_words(alloc: Global, words: Vec<String>) -> Result<Job, WordsError>
    ensures asked { IfOk result (λ job.
        asked_by (map string_bytes words.items) ≡ Some (name_of job, path_of job)) }
    ensures refused { result ≡ Err WordsError.BadWords
        → asked_by (map string_bytes words.items) ≡ None }
{
    let Ok(command) = forms(alloc) else {
        return Err(WordsError::NoMemory);
    };
    let matches = match command.try_get_matches_from(words.as_slice()) {
        Ok(matches) => matches,
        Err(error) => return Err(fault(&error)),
    };
    if let Some(form) = matches.subcommand_matches(DECODE) {
        return Ok(Job::Decode(file(alloc, form)?));
    }
    if let Some(form) = matches.subcommand_matches(REPLAY) {
        return Ok(Job::Replay(file(alloc, form)?));
    }
    Err(WordsError::BadWords)
}
