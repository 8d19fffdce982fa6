//! One end, and its events up to now.
use crate::calls::{push_last, push_timers};
use crate::events::read_event;
use kit_text::{LineError, SPACE, cut};
use std::alloc::Global;
use tcp_conn::Config;
use tcp_reasm::MAX_RUNS;
use tcp_replay::{SoloError, SoloEvent, SoloLog, solo_with_runs};

/// The Config of an end and its number of runs, and its events.
#[derive(Drop)]
pub(crate) struct Stream {
    config: Config,
    runs: usize,
    events: Vec<SoloEvent>,
}

/// Begins with another end, or without one where it is refused, and appends why.
pub(crate) fn begin(
    alloc: Global,
    config: Config,
    runs: usize,
    stream: &mut Option<Stream>,
    answers: &mut String,
) -> Result<(), LineError> {
    *stream = None;
    let events = Vec::new(alloc);
    let begun = Stream {
        config,
        runs,
        events,
    };
    match begun.log(alloc).err() {
        None => *stream = Some(begun),
        Some(SoloError::Config(refusal)) => {
            let number = refusal.number();
            write!(answers, "refused {number}: {refusal}\n")?;
        }
        Some(SoloError::At(_, _)) => return Err(LineError::NoMemory),
    }
    Ok(())
}

impl Stream {
    /// The log of all events up to now.
    fn log(&self, alloc: Global) -> Result<SoloLog, SoloError> {
        let runs = self.runs.clamp(1, MAX_RUNS);
        solo_with_runs(alloc, self.config, runs, &self.events)
    }

    /// Appends what the log of all events up to now reports of a line.
    fn push_answer(
        &self,
        alloc: Global,
        line: &[u8],
        answers: &mut String,
    ) -> Result<(), LineError> {
        match self.log(alloc) {
            Ok(log) if line == TIMERS => push_timers(answers, &log.endpoint),
            Ok(log) => push_last(alloc, answers, &log, line == EMISSION_AS_BYTES),
            Err(_) => Err(LineError::NoMemory),
        }
    }

    /// Takes the event of a line, and appends the outcome. `timers` is a question and no event.
    pub(crate) fn take_line(
        &mut self,
        alloc: Global,
        line: &[u8],
        answers: &mut String,
    ) -> Result<(), LineError> {
        if line != TIMERS {
            let (word, rest) = cut(SPACE, line);
            let event = read_event(alloc, word, rest.unwrap_or(b""))?;
            self.events.reserve(1)?;
            self.events.push_reserved(event);
        }
        self.push_answer(alloc, line, answers)
    }
}

const TIMERS: &[u8] = b"timers";

const EMISSION_AS_BYTES: &[u8] = b"emit bytes";
