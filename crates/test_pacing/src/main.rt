//! Pacing by hand (RFC 9002, 7.7): so many bytes wait at a time, and whenever some may go out the time and their number are
//! printed.
#![tactic(auto)]

use std::io;
use tcp_pacing::{Pace, Pacer};

/// Sends all that is allowed from a time on, until nothing waits or it has been ten times.
fn send(rt: &impl Print, pacer: &mut Pacer, pace: Pace, from: u64, text: u64) -> io::Result<()> {
    let mut now = from;
    let mut left = text;
    for _ in 0..10 {
        let count = pacer.allowed(now, pace).min(left);
        pacer.went(count);
        left -= count;
        pacer.hold(left > 0);
        println!(rt; "{now} {count}")?;
        let Some(at) = pacer.poll_at() else {
            break;
        };
        now = at;
    }
    Ok(())
}

fn avoidance(cwnd: u64) -> Pace {
    Pace {
        cwnd,
        smss: 1_460,
        srtt: 100_000,
        is_slow_start: false,
    }
}

/// Two windows of ten segments, each over half of 50 ms.
fn first_flight(rt: &impl Print) -> io::Result<()> {
    let mut pacer = Pacer::off();
    let mut pace = Pace {
        cwnd: 14_600,
        smss: 1_460,
        srtt: 50_000,
        is_slow_start: true,
    };
    println!(rt; "off")?;
    send(rt, &mut pacer, pace, 0, 14_600)?;
    pacer.set(true);
    pace.srtt = 0;
    println!(rt; "on: {}, no round trip", pacer.is_on())?;
    send(rt, &mut pacer, pace, 0, 14_600)?;
    pace.srtt = 50_000;
    println!(rt; "slow start, 0.584 bytes in a microsecond")?;
    send(rt, &mut pacer, pace, 0, 29_200)
}

fn main(rt: HostRuntime) -> io::Result<()> {
    first_flight(&rt)?;
    let mut pacer = Pacer::off();
    pacer.set(true);
    println!(rt; "29.2 bytes in a microsecond")?;
    send(&rt, &mut pacer, avoidance(2_336_000), 0, 60_000)?;
    println!(rt; "5 bytes in a microsecond, behind a second")?;
    send(&rt, &mut pacer, avoidance(400_000), 1_000_000, 30_000)?;
    println!(rt; "0.075 bytes in a microsecond")?;
    send(&rt, &mut pacer, avoidance(6_000), 2_000_000, 6_000)?;
    println!(rt; "0.01825 bytes in a microsecond")?;
    send(&rt, &mut pacer, avoidance(1_460), 3_000_000, 4_000)
}
