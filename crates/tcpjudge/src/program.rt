//! The program: its words, its file, and its exit status.
use crate::fault::Fault;
use crate::progress::Progress;
use crate::words::{Job, When, read_words};
use capture_ends::{Capture, Host, Paint, judge_capture, open_capture, report};
use capture_window::Window;
use kit_io::{Counted, Input, read_all, write_all};
use kit_judge::{Shown, judge_text};
use std::fs::File;
use std::rt::{Env, Files};
use std::{env, io};

const STANDARD_INPUT: &str = "/dev/stdin";

/// What `--help` prints of logs.
const HELP: &str = "tcpjudge [--complete] FILE

Judges one end of a TCP connection by a log of what came to it and what it sent, in its order. A line is
'came SOURCE DESTINATION HEX' or 'went SOURCE DESTINATION HEX'; FILE is - for the standard input.
--complete says that no segment is missing: only then order, acknowledgements and blocks are judged.
Prints the first finding of each rule with its line and section, and then the counts.
Where something may be missing, wrong checksums are a note and no finding: they may be damage on the path.
The status is 0 where no rule is broken, 1 where one is, and 2 where the words, the file or a line have a fault, or
where the log has no segment that the end sent.
";

/// And of captures.
const CAPTURE_HELP: &str = "
tcpjudge [--at ADDRESS] [--json] [--color WHEN] FILE

Judges both ends of each TCP connection in a capture in the pcap or pcapng form, as tcpdump and dumpcap write it, over
IPv4 and IPv6.
--at names the address of the machine where it was taken: at that end acknowledgements and blocks are judged too,
unless packets are cut short, the capture shows that some are missing, or the connection's beginning is missing.
Prints for each end the first packet that breaks each rule, and how many do; notes, which accuse nobody: what was sent
again, lost, repeated or full, and the round trips; and then what was judged.
--json prints the same as JSON, a line for each finding, each note, each end, and last the capture.
--color WHEN is auto, always or never. auto, which is what holds without it, has colors where standard output is a
terminal and NO_COLOR isn't set.
The status is 0 where no rule is broken, 1 where one is, and 2 where the words or the file have a fault, where the
capture is cut short or damaged, or where no end was judged.
";

/// No rule is broken.
const CLEAN: u8 = 0;

/// A rule is broken.
const FOUND: u8 = 1;

/// The words, the file or its text have a fault, or nothing was judged.
const FAULT: u8 = 2;

/// Which of the standard streams are terminals.
#[derive(Clone, Copy)]
pub(crate) struct Terminals {
    pub(crate) output: bool,
    pub(crate) errors: bool,
}

/// The program's words, its name first.
fn words(rt: &(impl Env + AllocGlobal)) -> Result<Vec<String>, Fault> {
    let alloc = rt.alloc();
    let words = match env::args(rt) {
        Ok(words) => words,
        Err(error) if error.kind() == io::ErrorKind::OutOfMemory => return Err(Fault::NoMemory),
        Err(_) => return Err(Fault::BadWords),
    };
    match words.collect(alloc) {
        Ok(words) => Ok(words),
        Err(_) => Err(Fault::NoMemory),
    }
}

fn write_text(rt: &impl Print, text: &str) -> Result<(), Fault> {
    let mut output = Counted::new(io::writer(rt));
    Ok(write_all(&mut output, text.as_bytes())?)
}

/// What the words request of a log or a capture.
#[derive(Clone, Copy)]
struct Wanted {
    is_complete: bool,
    at: Option<Host>,
    is_json: bool,
    color: When,
}

/// Judges a log, of which the window has the first bytes.
fn judge_log<I: Input>(
    rt: &(impl Print + AllocGlobal),
    input: &mut I,
    window: &Window,
    wanted: &Wanted,
) -> Result<bool, Fault> {
    if wanted.at.is_some() || wanted.is_json {
        return Err(Fault::BadWords);
    }
    let alloc = rt.alloc();
    let mut text = Vec::new(alloc);
    text.extend_from_slice(window.bytes())?;
    text.extend_from_slice(&read_all(alloc, input)?)?;
    let report = judge_text(alloc, &text, wanted.is_complete, Shown::FirstOfRule)?;
    write_text(rt, &report.text)?;
    if report.is_empty {
        return Err(Fault::NothingSent);
    }
    Ok(report.is_clean)
}

/// Whether the report has colors. NO_COLOR counts where it has a value.
fn is_painted(rt: &(impl Env + AllocGlobal), color: When, terminals: Terminals) -> bool {
    match color {
        When::Always => true,
        When::Never => false,
        When::Auto if !terminals.output => false,
        When::Auto => match env::var(rt, "NO_COLOR") {
            Ok(value) => value.is_empty(),
            Err(_) => true,
        },
    }
}

/// Writes what is found in a capture.
fn tell_capture(
    rt: &(impl Env + Print + AllocGlobal),
    capture: &Capture,
    wanted: &Wanted,
    terminals: Terminals,
) -> Result<bool, Fault> {
    let paint = Paint {
        is_on: is_painted(rt, wanted.color, terminals),
    };
    let (text, verdict) = report(rt.alloc(), capture, wanted.at, wanted.is_json, paint)?;
    write_text(rt, &text)?;
    if capture.is_cut {
        return Err(Fault::CutCapture);
    }
    if verdict.ends == 0 {
        return Err(Fault::NothingJudged);
    }
    Ok(verdict.findings == 0)
}

/// Judges a file, or the standard input where its name is `-`, as what it is.
fn judge_file(
    rt: &(impl Env + Files + Print + Eprint + AllocGlobal),
    path: &str,
    wanted: &Wanted,
    terminals: Terminals,
) -> Result<bool, Fault> {
    let path = if path == "-" { STANDARD_INPUT } else { path };
    let Ok(file) = File::open(rt, path) else {
        return Err(Fault::ReadFault);
    };
    let mut input = Counted::new(file);
    let mut window = Window::new(rt.alloc());
    let Some(form) = open_capture(&mut input, &mut window)? else {
        return judge_log(rt, &mut input, &window, wanted);
    };
    if wanted.is_complete {
        return Err(Fault::CompleteCapture);
    }
    let progress = Progress::new(rt, terminals.errors);
    let capture = judge_capture(rt.alloc(), form, &mut input, &mut window, &progress)?;
    progress.end(capture.packets);
    tell_capture(rt, &capture, wanted, terminals)
}

/// Does the job, and returns whether no rule is broken.
fn work(
    rt: &(impl Env + Files + Print + Eprint + AllocGlobal),
    terminals: Terminals,
) -> Result<bool, Fault> {
    let words = words(rt)?;
    match read_words(rt.alloc(), words)? {
        Job::Help => {
            write_text(rt, HELP)?;
            write_text(rt, CAPTURE_HELP)?;
            Ok(true)
        }
        Job::Judge {
            path,
            is_complete,
            at,
            is_json,
            color,
        } => {
            let wanted = Wanted {
                is_complete,
                at,
                is_json,
                color,
            };
            judge_file(rt, &path, &wanted, terminals)
        }
    }
}

/// Does what the words request, and returns the exit status. A fault is reported by one line on standard error.
pub(crate) fn run(
    rt: &(impl Env + Files + Print + Eprint + AllocGlobal),
    terminals: Terminals,
) -> u8 {
    match work(rt, terminals) {
        Ok(true) => CLEAN,
        Ok(false) => FOUND,
        Err(fault) => {
            let _ = eprintln!(rt; "tcpjudge: {fault}");
            FAULT
        }
    }
}
