//! An example: two ends with their timers over a wire that takes 20 ms each way and loses each fourth segment. The caller
//! has a clock, here a number, and carries the bytes; when each event comes is the driver's.
#![tactic(auto)]

mod wire;

use std::alloc::Global;
use std::io;
use std::process::ExitCode;
use tcp_conn::{Config, Endpoint, Phase, Received};
use tcp_driver::Limits;
use tcp_end::{End, connect, listen};
use tcp_timing::Rules;
use tcp_wire::{Addr, Seq};
use wire::Wire;

/// The address of a host.
fn addr(host: u8) -> Addr {
    Addr([10, 0, 0, host])
}

/// An end at 10.0.0.`host`, port `host`, that is CLOSED.
fn new_end(alloc: Global, host: u8, isn: u32) -> Option<Endpoint> {
    let config = Config::new(addr(host), u16::from(host), Seq(isn));
    Endpoint::new(alloc, config).ok()
}

/// A connects to B, at time 0.
fn new_pair(alloc: Global) -> Option<(End<Global>, End<Global>)> {
    let a = new_end(alloc, 1, 1000)?;
    let b = new_end(alloc, 2, 5000)?;
    let a = connect(a, addr(2), 2, Rules::standard(), Limits::standard(), 0).ok()?;
    let b = listen(b, Rules::standard(), Limits::standard(), 0).ok()?;
    Some((a, b))
}

/// The user of B reads what there is, and closes at the end of the stream.
fn read_all(rt: &impl Print, now: u64, end: &mut End<Global>) -> io::Result<()> {
    let mut out = [0u8; 4000];
    for _ in 0..10 {
        match end.receive(now, &mut out) {
            Ok(Received::Bytes(read)) => println!(rt; "{now} B reads {read}")?,
            Ok(Received::EndOfStream) => {
                let _ = end.close(now);
                break;
            }
            _ => break,
        }
    }
    Ok(())
}

/// The time has come at which some timer expires.
fn expire(rt: &impl Print, now: u64, name: &str, end: &mut End<Global>) -> io::Result<()> {
    if let Some(timer) = end.timeout(now) {
        println!(rt; "{now} {name}: {timer:?}")?;
    }
    Ok(())
}

/// When something happens next: a segment comes, or a timer expires.
fn next_event(wire: &Wire, a: &End<Global>, b: &End<Global>) -> Option<u64> {
    earlier(wire.next_arrival(), earlier(a.poll_at(), b.poll_at()))
}

/// The earlier of two times.
fn earlier(one: Option<u64>, other: Option<u64>) -> Option<u64> {
    match (one, other) {
        (Some(one), Some(other)) => Some(one.min(other)),
        (None, time) | (time, None) => time,
    }
}

/// What happens at a time: segments come, timers expire, users read and close, and all that is due goes out.
fn turn(
    rt: &impl Print,
    now: u64,
    wire: &mut Wire,
    a: &mut End<Global>,
    b: &mut End<Global>,
) -> io::Result<()> {
    wire.deliver(now, a, b)?;
    expire(rt, now, "A", a)?;
    expire(rt, now, "B", b)?;
    if a.core().end.phase() == Phase::Established {
        let _ = a.close(now);
    }
    read_all(rt, now, b)?;
    wire.carry(rt, now, "A", a)?;
    wire.carry(rt, now, "B", b)
}

/// From event to event, until nothing is under way and no timer runs.
fn run(
    rt: &impl Print,
    alloc: Global,
    a: &mut End<Global>,
    b: &mut End<Global>,
) -> io::Result<u64> {
    let mut wire = Wire::new(alloc);
    let mut now: u64 = 0;
    for _ in 0..1000 {
        turn(rt, now, &mut wire, a, b)?;
        match next_event(&wire, a, b) {
            Some(time) => now = now.max(time),
            None => break,
        }
    }
    Ok(now)
}

fn main(rt: HostRuntime) -> ExitCode {
    let Some((mut a, mut b)) = new_pair(rt.alloc()) else {
        return ExitCode::FAILURE;
    };
    let _ = a.send(0, &[65; 10_000]);
    let Ok(now) = run(&rt, rt.alloc(), &mut a, &mut b) else {
        return ExitCode::FAILURE;
    };
    let released = a.core().end.released();
    let _ = println!(rt;
        "{now} {:?}, {released} bytes acknowledged",
        a.core().end.phase()
    );
    ExitCode::SUCCESS
}
