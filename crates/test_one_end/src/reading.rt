//! The content of a line.
ghost use Rattle.std.specs.Prelude.{◌≡◌, option_map};
ghost use Rattle.kit_text.specs.Words.{number_of};

use kit_script::read_shift;
use kit_text::{SPACE, cut, read_number};
use tcp_conn::{Config, DEFAULT_LIMIT};
use tcp_reasm::{DEFAULT_RUNS, MAX_RUNS};
use tcp_wire::{Addr, Seq};

fn read_seq(word: &[u8]) -> Option<Seq>
    ensures { option_map (λ seq. seq.0) result ≡ number_of 4294967295 word.now }
{
    Some(Seq(read_number(word, 4_294_967_295)? as u32))
}

/// The number of runs that a line sets, from 1 to 4,096, or the default one.
fn read_runs(word: Option<&[u8]>) -> Option<usize> {
    let Some(word) = word else {
        return Some(DEFAULT_RUNS);
    };
    match read_number(word, MAX_RUNS as u64)? {
        0 => None,
        runs => Some(runs as usize),
    }
}

/// The settings after the initial number and the MSS, and the number of runs.
fn read_settings(words: &[u8], isn: Seq, mss: u16) -> Option<(Config, usize)> {
    let (send, rest) = cut(SPACE, words);
    let (recv, rest) = cut(SPACE, rest?);
    let (shift, rest) = cut(SPACE, rest?);
    let (sack, runs) = cut(SPACE, rest?);
    let config = Config {
        addr: Addr([10, 0, 0, 2]),
        port: 2,
        isn,
        mss,
        send_capacity: read_number(send, 4_294_967_295)? as usize,
        recv_capacity: read_number(recv, 4_294_967_295)? as usize,
        window_shift: read_shift(shift)?,
        sack: matches!(sack, b"1"),
        limit: DEFAULT_LIMIT,
    };
    Some((config, read_runs(runs)?))
}

/// The Config of another end and its number of runs, where the line has one.
pub(crate) fn read_config(line: &[u8]) -> Option<(Config, usize)> {
    let (b"new", Some(rest)) = cut(SPACE, line) else {
        return None;
    };
    let (isn, rest) = cut(SPACE, rest);
    let (mss, rest) = cut(SPACE, rest?);
    read_settings(rest?, read_seq(isn)?, read_number(mss, 65_535)? as u16)
}
