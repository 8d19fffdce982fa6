//! `bench_jobs JOB COUNT SEED` does a job that users wait for, on inputs that the seed makes, and prints a digest of all
//! its results. bench/workloads.txt has the jobs as bench/run times them.
//! - `replay`: scripts of two ends to which events happen by chance are written, replayed and reported.
//! - `judge`: logs of one end are judged, with few and with many segments in flight, and with many that are held.
//! - `list`: lists of segments are listed.
//! - `bulk`: two ends move text in full segments and in small writes, in order, late and lossy.
//! - `many`: many connections are opened, echo in turn, and are closed.
//! - `timed`: two ends with their timers move text over a link with times and losses.
//! - `all`: each of these, one after another.
#![tactic(auto)]

mod bulk;
mod digest;
mod judge;
mod list;
mod many;
mod player;
mod random;
mod replay;
mod segments;
mod timed;
mod words;

use bulk::move_bulk;
use digest::Digest;
use judge::judge_logs;
use list::list_lists;
use many::serve_many;
use replay::replay_scripts;
use std::alloc::{AllocError, Global};
use std::process::ExitCode;
use std::rt::Env;
use std::{env, io};
use timed::move_in_time;

fn bad_input() -> io::Error {
    io::Error::from(io::ErrorKind::InvalidInput)
}

/// Does each job so many times.
fn work_all(alloc: Global, count: u32, seed: u32, digest: &mut Digest) -> Result<(), AllocError> {
    replay_scripts(alloc, count, seed, digest)?;
    judge_logs(alloc, count, seed, digest)?;
    list_lists(alloc, count, seed, digest)?;
    move_bulk(alloc, count, seed, digest)?;
    serve_many(alloc, count, seed, digest)?;
    move_in_time(alloc, count, seed, digest)
}

/// Does a job so many times; `None` where no job has the name.
fn work(
    alloc: Global,
    job: &str,
    count: u32,
    seed: u32,
    digest: &mut Digest,
) -> Option<Result<(), AllocError>> {
    match job {
        "all" => Some(work_all(alloc, count, seed, digest)),
        "replay" => Some(replay_scripts(alloc, count, seed, digest)),
        "judge" => Some(judge_logs(alloc, count, seed, digest)),
        "list" => Some(list_lists(alloc, count, seed, digest)),
        "bulk" => Some(move_bulk(alloc, count, seed, digest)),
        "many" => Some(serve_many(alloc, count, seed, digest)),
        "timed" => Some(move_in_time(alloc, count, seed, digest)),
        _ => None,
    }
}

/// Does what the program's words request.
fn run(rt: &(impl Env + Print + AllocGlobal)) -> io::Result<()> {
    let mut words = env::args(rt)?.skip(1);
    let (Some(job), Some(count), Some(seed)) = (words.next(), words.next(), words.next()) else {
        return Err(bad_input());
    };
    let count: u32 = count.as_str().parse().map_err(|_| bad_input())?;
    let seed: u32 = seed.as_str().parse().map_err(|_| bad_input())?;
    let mut digest = Digest::new();
    match work(rt.alloc(), job.as_str(), count, seed, &mut digest) {
        Some(Ok(())) => {}
        _ => return Err(bad_input()),
    }
    let value = digest.value();
    println!(rt; "{job} {count} {value:016x}")
}

fn main(rt: HostRuntime) -> ExitCode {
    match run(&rt) {
        Ok(()) => ExitCode::SUCCESS,
        Err(_) => ExitCode::FAILURE,
    }
}
