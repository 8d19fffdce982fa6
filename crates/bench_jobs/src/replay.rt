//! Scripts of what happens to two ends by chance, each replayed and reported.
use crate::digest::Digest;
use crate::player::{Mix, Player};
use crate::random::{Pool, Random};
use kit_commands::report_of;
use std::alloc::{AllocError, Global};

/// Full segments, some of them lost, late, repeated or damaged.
const BULK: Mix = Mix {
    least: 1460,
    most: 1460,
    lost: 20,
    late: 30,
    twice: 20,
    damaged: 10,
    again: 10,
    refused: 5,
    reads: 3,
    timers: 16,
};

/// Small writes.
const SMALL: Mix = Mix {
    least: 16,
    most: 64,
    reads: 1,
    ..BULK
};

/// Writes of any size.
const MIXED: Mix = Mix {
    least: 1,
    reads: 2,
    ..BULK
};

/// Gaps that are held for a long time, sixteen runs of them, while old segments come again.
const HELD: Mix = Mix {
    least: 16,
    most: 200,
    lost: 250,
    again: 300,
    timers: 400,
    ..BULK
};

/// A window that is shut most of the time, and many events that are refused.
const SHUT: Mix = Mix {
    least: 1000,
    reads: 200,
    refused: 200,
    timers: 20,
    ..BULK
};

/// The mix of a script of this number, and how many rounds it has: together some of each kind have about the same time.
fn mix_of(number: u32) -> (Mix, usize) {
    match number % 8 {
        0 | 1 => (BULK, 700),
        2 | 3 => (SMALL, 3000),
        4 => (MIXED, 1000),
        5 => (HELD, 2500),
        6 => (SHUT, 1000),
        _ => (BULK, 100),
    }
}

/// Whether the events of a script are repeated in lines.
fn repeats(number: u32) -> bool {
    number % 8 == 7
}

/// The script of a number, written while its events happen.
fn write_script(
    player: &mut Player,
    random: &mut Random,
    pool: &Pool,
    number: u32,
) -> Result<(), AllocError> {
    let (mix, rounds) = mix_of(number);
    player.open()?;
    for round in 0..rounds {
        if repeats(number) {
            player.round_of_repeats(random, pool, mix)?;
        } else {
            player.round(random, pool, mix, round)?;
        }
    }
    player.close(random, mix)
}

/// Adds the report of a script.
fn add_report(alloc: Global, script: &[u8], digest: &mut Digest) {
    match report_of(alloc, script) {
        Ok(report) => {
            digest.add_bytes(report.text.as_bytes());
            digest.add(u64::from(report.is_well));
        }
        Err(_) => digest.add(0),
    }
}

/// Replays so many scripts.
pub(crate) fn replay_scripts(
    alloc: Global,
    count: u32,
    seed: u32,
    digest: &mut Digest,
) -> Result<(), AllocError> {
    let mut random = Random::new(seed, 1);
    let pool = Pool::new(alloc, &mut random)?;
    for number in 0..count {
        let isn = (random.number() >> 32) as u32;
        let mut player = Player::new(alloc, isn, repeats(number))?;
        write_script(&mut player, &mut random, &pool, number)?;
        add_report(alloc, player.script(), digest);
    }
    Ok(())
}
