//! `transfer MODE BURSTS CAPACITY` moves text from one end to another in bursts of full segments, for counting what
//! that costs: see bench/instructions.sh. In mode `in_order` a burst is two segments, in `each_acknowledged` the same,
//! and in `one_byte` two of one byte. In `late` it is ten and in `early` forty, of which the first arrives last, so
//! that all others are out of order. B's user reads each burst, and B acknowledges every second segment, in
//! `each_acknowledged` each.
//! `transfer connection COUNT CAPACITY` opens and closes this many connections, one after another.
//! `transfer rounds COUNT CAPACITY` writes, carries, reads and acknowledges 16 bytes this many times, as
//! bench/replay.sh's script in order does.
//! `transfer ends COUNT TURNS CAPACITY` opens this many connections, and lets each echo in turn, this many times.
//! `transfer lossy BYTES CAPACITY` moves this many bytes over a wire that loses one segment of 61, and compares what
//! was read with what was written. `transfer CALL COUNT` makes this many calls of `checksum`, `decode` or `encode`.
#![tactic(auto)]

mod calls;
mod ends;
mod lossy;
mod many;
mod mode;

use calls::{call_of, repeat};
use ends::{Pair, connect_and_close};
use lossy::Stream;
use many::Connection;
use mode::{Mode, mode_of};
use std::alloc::Global;
use std::process::ExitCode;
use std::rt::Env;
use std::{env, io};
use tcp_conn::EMIT_ROOM;

fn bad_input() -> io::Error {
    io::Error::from(io::ErrorKind::InvalidInput)
}

/// Moves bursts between ends of a capacity, and prints what was moved.
fn move_bursts(
    rt: &(impl Print + AllocGlobal),
    mode: Mode,
    bursts: u32,
    capacity: usize,
) -> io::Result<()> {
    let mut pair = Pair::new(rt.alloc(), capacity).map_err(|_| bad_input())?;
    pair.open();
    for _ in 0..bursts {
        pair.move_burst(mode);
    }
    let released = pair.released();
    println!(rt; "{released} bytes were moved and acknowledged")
}

/// Moves a stream over the wire that loses segments, and prints how it was read.
fn move_stream(rt: &(impl Print + AllocGlobal), len: u64, capacity: usize) -> io::Result<()> {
    let mut stream = Stream::new(rt.alloc(), capacity, len).map_err(|_| bad_input())?;
    let told = if stream.run() {
        "as written"
    } else {
        "otherwise"
    };
    let lost = stream.lost();
    println!(rt; "{len} bytes were read {told}, {lost} segments were lost")
}

fn run_lossy(
    rt: &(impl Print + AllocGlobal),
    len: String,
    capacity: Option<String>,
) -> io::Result<()> {
    let capacity = capacity.ok_or(bad_input())?;
    let capacity: usize = capacity.as_str().parse().map_err(|_| bad_input())?;
    let len: u64 = len.as_str().parse().map_err(|_| bad_input())?;
    move_stream(rt, len, capacity)
}

/// Opens and closes `count` connections, and prints how many were closed in order.
fn run_connections(rt: &(impl Print + AllocGlobal), count: u32, capacity: usize) -> io::Result<()> {
    let mut room = [0; EMIT_ROOM];
    let mut closed: u32 = 0;
    for _ in 0..count {
        let ended = connect_and_close(rt.alloc(), capacity, &mut room).map_err(|_| bad_input())?;
        closed = closed.saturating_add(u32::from(ended));
    }
    println!(rt; "{closed} connections were opened and closed")
}

/// Moves `count` rounds of a few bytes, and prints what was moved.
fn run_rounds(rt: &(impl Print + AllocGlobal), count: u32, capacity: usize) -> io::Result<()> {
    let mut pair = Pair::new(rt.alloc(), capacity).map_err(|_| bad_input())?;
    pair.open();
    for _ in 0..count {
        pair.move_round();
    }
    let released = pair.released();
    println!(rt; "{released} bytes were moved and acknowledged")
}

/// This many connections that are open.
fn open_connections(
    alloc: Global,
    count: u32,
    capacity: usize,
    room: &mut [u8; EMIT_ROOM],
) -> io::Result<Vec<Connection>> {
    let mut all = Vec::new(alloc);
    for _ in 0..count {
        let next = Connection::new(alloc, capacity, room).map_err(|_| bad_input())?;
        all.push(next).map_err(|_| bad_input())?;
    }
    Ok(all)
}

/// Lets each of this many connections echo in turn, this many times, and prints how often all came back.
fn run_ends(
    rt: &(impl Print + AllocGlobal),
    count: u32,
    turns: String,
    capacity: Option<String>,
) -> io::Result<()> {
    let capacity = capacity.ok_or(bad_input())?;
    let capacity: usize = capacity.as_str().parse().map_err(|_| bad_input())?;
    let turns: u32 = turns.as_str().parse().map_err(|_| bad_input())?;
    let mut room = [0; EMIT_ROOM];
    let mut all = open_connections(rt.alloc(), count, capacity, &mut room)?;
    let mut echoed: u64 = 0;
    for _ in 0..turns {
        for connection in all.iter_mut() {
            echoed = echoed.saturating_add(u64::from(connection.echo(&mut room)));
        }
    }
    println!(rt; "{echoed} echoes")
}

/// Does what the program's words request.
fn run(rt: &(impl Env + Print + AllocGlobal)) -> io::Result<()> {
    let mut words = env::args(rt)?.skip(1);
    let (Some(name), Some(count)) = (words.next(), words.next()) else {
        return Err(bad_input());
    };
    if name.as_str() == "lossy" {
        return run_lossy(rt, count, words.next());
    }
    let count: u32 = count.as_str().parse().map_err(|_| bad_input())?;
    if let Some(call) = call_of(name.as_str()) {
        let greatest = repeat(call, count).ok_or(bad_input())?;
        return println!(rt; "{greatest}");
    }
    if name.as_str() == "ends" {
        let turns = words.next().ok_or(bad_input())?;
        return run_ends(rt, count, turns, words.next());
    }
    let capacity = words.next().ok_or(bad_input())?;
    let capacity: usize = capacity.as_str().parse().map_err(|_| bad_input())?;
    if name.as_str() == "connection" {
        return run_connections(rt, count, capacity);
    }
    if name.as_str() == "rounds" {
        return run_rounds(rt, count, capacity);
    }
    let mode = mode_of(name.as_str()).ok_or(bad_input())?;
    move_bursts(rt, mode, count, capacity)
}

fn main(rt: HostRuntime) -> ExitCode {
    match run(&rt) {
        Ok(()) => ExitCode::SUCCESS,
        Err(_) => ExitCode::FAILURE,
    }
}
