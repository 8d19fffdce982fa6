//! Keep-alives by the standard's own numbers: A connects to B, which sends a line and nothing more. B answers twice when it
//! is asked, and then it is gone.
#![tactic(auto)]

use std::alloc::Global;
use std::io;
use std::process::ExitCode;
use tcp_conn::{Config, ConfigError, EMIT_ROOM, Endpoint};
use tcp_keep_alive::{KeepAlive, KeepAliveAction, KeepAliveRules, may_ask, write_keep_alive};
use tcp_wire::{Addr, Seq};

/// An end at 10.0.0.`host`, port `host`.
fn new_end(alloc: Global, host: u8, isn: u32) -> Result<Endpoint, ConfigError> {
    let config = Config::new(Addr([10, 0, 0, host]), u16::from(host), Seq(isn));
    Endpoint::new(alloc, config)
}

/// Carries all that one end emits to the other, and answers whether there was any.
fn carry(from: &mut Endpoint, to: &mut Endpoint) -> bool {
    let mut room = [0u8; EMIT_ROOM];
    let src = from.config().addr;
    let mut arrived = false;
    for _ in 0..10 {
        let Some((dst, len)) = from.emit(&mut room) else {
            break;
        };
        to.arrive(src, dst, &room[..len]);
        arrived = true;
    }
    arrived
}

/// A connects to B, which sends a line. A's user has read it.
fn connect(a: &mut Endpoint, b: &mut Endpoint) {
    let _ = b.listen();
    let _ = a.connect(b.config().addr, b.config().port);
    for _ in 0..3 {
        carry(a, b);
        carry(b, a);
    }
    let _ = b.send(b"hello");
    carry(b, a);
    carry(a, b);
    let mut out = [0u8; 16];
    let _ = a.receive(&mut out);
}

/// Writes bytes as hexadecimal digits.
fn print_bytes(rt: &impl Print, bytes: &[u8]) -> io::Result<()> {
    for byte in bytes {
        print!(rt; "{byte:02x}")?;
    }
    println!(rt; "")
}

/// A asks, and hears what B answers, if B is there.
fn ask(
    rt: &impl Print,
    now: u64,
    a: &mut Endpoint,
    b: Option<&mut Endpoint>,
    alive: &mut KeepAlive,
) -> io::Result<()> {
    let mut room = [0u8; 64];
    let Some(len) = write_keep_alive(a, &mut room) else {
        return println!(rt; "{now} nothing to send");
    };
    print!(rt; "{now} asks ")?;
    print_bytes(rt, &room[..len])?;
    let Some(b) = b else {
        return Ok(());
    };
    b.arrive(a.config().addr, b.config().addr, &room[..len]);
    if carry(b, a) {
        println!(rt; "{now} hears")?;
        alive.heard(now);
    }
    Ok(())
}

/// Goes from time to time, and B is gone after `answers` answers.
fn run(
    rt: &impl Print,
    a: &mut Endpoint,
    b: &mut Endpoint,
    alive: &mut KeepAlive,
    answers: u32,
) -> io::Result<()> {
    for turn in 0..20 {
        let Some(now) = alive.poll_at(may_ask(a)) else {
            return println!(rt; "waits for nothing");
        };
        match alive.timeout(now, may_ask(a)) {
            KeepAliveAction::Nothing => println!(rt; "{now} nothing")?,
            KeepAliveAction::Asks => {
                let peer = if turn < answers { Some(&mut *b) } else { None };
                ask(rt, now, a, peer, alive)?;
            }
            KeepAliveAction::GivesUp => {
                println!(rt; "{now} gives up after {}", alive.unanswered())?;
                let _ = a.abort();
            }
        }
    }
    Ok(())
}

/// With text in flight, or to send, the peer may not be asked: what is sent asks it.
fn busy(rt: &impl Print, a: &mut Endpoint, b: &mut Endpoint) -> io::Result<()> {
    let before = may_ask(b);
    let _ = b.send(b"more");
    let queued = may_ask(b);
    carry(b, a);
    let in_flight = may_ask(b);
    a.acknowledge();
    carry(a, b);
    println!(rt;
        "may ask: {before}, {queued} with text to send, {in_flight} in flight, {} acknowledged",
        may_ask(b)
    )
}

/// All of it.
fn print_all(rt: &impl Print, a: &mut Endpoint, b: &mut Endpoint) -> io::Result<()> {
    let mut off = KeepAlive::new(None, 0);
    println!(rt;
        "off: {:?}, {:?}",
        off.poll_at(true),
        off.timeout(u64::MAX, true)
    )?;
    let mut alive = KeepAlive::new(Some(KeepAliveRules::usual()), 0);
    run(rt, a, b, &mut alive, 2)
}

fn main(rt: HostRuntime) -> ExitCode {
    let (Ok(mut a), Ok(mut b)) = (new_end(rt.alloc(), 1, 1000), new_end(rt.alloc(), 2, 5000)) else {
        return ExitCode::FAILURE;
    };
    connect(&mut a, &mut b);
    if busy(&rt, &mut a, &mut b).is_err() {
        return ExitCode::FAILURE;
    }
    if print_all(&rt, &mut a, &mut b).is_err() {
        return ExitCode::FAILURE;
    }
    let mut room = [0u8; EMIT_ROOM];
    let Some((_, len)) = a.emit(&mut room) else {
        return ExitCode::FAILURE;
    };
    if print_bytes(&rt, &room[..len]).is_err() {
        return ExitCode::FAILURE;
    }
    ExitCode::SUCCESS
}
