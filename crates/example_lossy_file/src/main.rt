//! An example: a file over a path that loses each fifth segment. A sends what comes on standard input, and what B receives
//! goes to standard output. What is lost the ends send again by themselves: they are told what time it is, and that is all.
#![tactic(auto)]

use std::alloc::Global;
use std::io::{self, Read, Write};
use std::process::ExitCode;
use tcp_conn::{Config, EMIT_ROOM, Endpoint, Received};
use tcp_driver::Limits;
use tcp_end::{End, connect, listen};
use tcp_timing::Rules;
use tcp_wire::{Addr, Seq};

const A: Addr = Addr([10, 0, 0, 1]);

const B: Addr = Addr([10, 0, 0, 2]);

/// An end at an address and port 7, with windows of 64 KiB, that is CLOSED.
fn new_end(alloc: Global, addr: Addr) -> Option<Endpoint> {
    Endpoint::new(alloc, Config::new(addr, 7, Seq(1000))).ok()
}

/// A connects to B, at time 0.
fn new_pair(alloc: Global) -> Option<(End<Global>, End<Global>)> {
    let (a, b) = (new_end(alloc, A)?, new_end(alloc, B)?);
    let a = connect(a, B, 7, Rules::standard(), Limits::standard(), 0).ok()?;
    let b = listen(b, Rules::standard(), Limits::standard(), 0).ok()?;
    Some((a, b))
}

/// A timer of an end may have expired. Then all that it has due comes to the other end, but for each fifth segment.
fn carry(now: u64, src: Addr, from: &mut End<Global>, to: &mut End<Global>, count: &mut u32) {
    let mut segment = [0u8; EMIT_ROOM];
    let _ = from.timeout(now);
    for _ in 0..1000 {
        let Some(sent) = from.emit(now, u64::MAX, &mut segment) else {
            break;
        };
        *count = count.wrapping_add(1);
        if !count.is_multiple_of(5) {
            let _ = to.arrive(now, src.0, sent.to, &segment[..sent.len]);
        }
    }
}

/// A's user sends what fits, and closes behind it; what is left.
fn send<'a>(now: u64, a: &mut End<Global>, text: &'a [u8]) -> &'a [u8] {
    if text.is_empty() {
        let _ = a.close(now);
    }
    match a.send(now, text) {
        Ok(taken) => &text[taken..],
        Err(_) => text,
    }
}

/// B's user writes what came, and closes at the end of the stream; whether that has come.
fn receive(now: u64, b: &mut End<Global>, out: &mut impl Write) -> io::Result<bool> {
    let mut bytes = [0u8; 4096];
    for _ in 0..1000 {
        match b.receive(now, &mut bytes) {
            Ok(Received::Bytes(count)) => out.write_all(&bytes[..count])?,
            Ok(Received::EndOfStream) => {
                let _ = b.close(now);
                return Ok(true);
            }
            _ => break,
        }
    }
    Ok(false)
}

/// The earlier of two times.
fn earlier(one: Option<u64>, other: Option<u64>) -> Option<u64> {
    match (one, other) {
        (Some(one), Some(other)) => Some(one.min(other)),
        (None, time) | (time, None) => time,
    }
}

/// Turn by turn, until no timer runs. Where nothing goes out it is the next timer's time. Whether B has had all.
fn transfer(
    text: &[u8],
    a: &mut End<Global>,
    b: &mut End<Global>,
    out: &mut impl Write,
) -> io::Result<bool> {
    let (mut rest, mut now, mut count, mut has_all) = (text, 0u64, 0u32, false);
    for _ in 0..1_000_000 {
        let before = count;
        rest = send(now, a, rest);
        carry(now, A, a, b, &mut count);
        if receive(now, b, out)? {
            has_all = true;
        }
        carry(now, B, b, a, &mut count);
        if count == before {
            match earlier(a.poll_at(), b.poll_at()) {
                Some(time) => now = time,
                None => break,
            }
        }
    }
    Ok(has_all)
}

fn main(rt: HostRuntime) -> ExitCode {
    let Some((mut a, mut b)) = new_pair(rt.alloc()) else {
        return ExitCode::FAILURE;
    };
    let mut text = Vec::new(rt.alloc());
    let Ok(_) = rt.stdin().read_to_end(&mut text) else {
        return ExitCode::FAILURE;
    };
    match transfer(&text, &mut a, &mut b, &mut rt.stdout()) {
        Ok(true) => ExitCode::SUCCESS,
        _ => ExitCode::FAILURE,
    }
}
