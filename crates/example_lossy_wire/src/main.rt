//! An example: two ends over a wire that loses each fourth segment. The caller keeps the timers, and carries the bytes.
#![tactic(auto)]

ghost use Rattle.std.specs.Prelude.{◌≡◌, IfOk};

mod wire;

use std::alloc::Global;
use std::io;
use std::process::ExitCode;
use tcp_conn::{Config, ConfigError, Endpoint, Phase, Received, Timer};
use tcp_wire::{Addr, Seq};
use wire::Wire;

/// An end at 10.0.0.`host`, port `host`, with windows of 64 KiB.
fn new_end(alloc: Global, host: u8, isn: u32) -> Result<Endpoint, ConfigError>
    ensures port { IfOk result (λ end. end.config.port ≡ host) }
    ensures isn { IfOk result (λ end. end.config.isn.0 ≡ isn) }
{
    let config = Config::new(Addr([10, 0, 0, host]), u16::from(host), Seq(isn));
    Endpoint::new(alloc, config)
}

/// A turn without any arrival takes the place of the time after which a timer expires.
fn run_out(end: &mut Endpoint) {
    let _ = end.timer(Timer::Reorder) || end.timer(Timer::Retransmit);
}

/// Takes turns until both know that the connection is closed, or for a thousand turns.
fn take_turns(rt: &impl Print, a: &mut Endpoint, b: &mut Endpoint) -> io::Result<u32> {
    let mut wire = Wire::default();
    for turn in 0..1000 {
        // A has nothing to send after its first text; what is queued goes out before the close.
        if a.phase() == Phase::Established {
            a.close().unwrap_or(());
        }
        let there = wire.carry(a, b);
        let back = wire.carry(b, a);
        let mut out = [0u8; 32];
        match b.receive(&mut out) {
            Ok(Received::Bytes(read)) => println!(rt; "turn {turn}: B reads {read} bytes")?,
            // A has no more to send: B closes too.
            Ok(Received::EndOfStream) => b.close().unwrap_or(()),
            _ => {}
        }
        if a.phase() == Phase::TimeWait && b.phase() == Phase::Closed {
            break;
        }
        if !there && !back {
            run_out(a);
            run_out(b);
        }
    }
    Ok(wire.count)
}

fn main(rt: HostRuntime) -> ExitCode {
    let (Ok(mut a), Ok(mut b)) = (new_end(rt.alloc(), 1, 1000), new_end(rt.alloc(), 2, 5000)) else {
        return ExitCode::FAILURE;
    };
    let _ = b.listen();
    let _ = a.connect(Addr([10, 0, 0, 2]), 2);
    let _ = a.send(b"one line of text, and a second one behind it");
    let Ok(count) = take_turns(&rt, &mut a, &mut b) else {
        return ExitCode::FAILURE;
    };
    let released = a.released();
    let _ = println!(rt; "{count} segments, {released} bytes acknowledged");
    ExitCode::SUCCESS
}
