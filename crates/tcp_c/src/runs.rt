//! How many runs an end keeps: of bytes out of order (RFC 9293, 3.10.7.4), and of those that the peer reported (RFC 2018, 5).
ghost use Rattle.std.specs.Prelude.{◌≡◌, ◌≤◌, ◌<◌, ◌↔◌, IsTrue};
ghost use Rattle.tcp_sendq.specs.SendQueue.{greatest_runs};
ghost use Rattle.tcp_c.specs.Configs.{runs_of, HasBadRuns, HasGoodRuns};

use crate::records::CConfig;
use tcp_sendq::MAX_RUNS;

/// The number of runs where C's record has 0.
pub const RUNS: usize = 128;

/// What a run takes in the table of the marks, in bytes.
pub(crate) const MARK_SIZE: usize = 8;

/// What a run takes in the table of those that are held, in bytes. Its ends take as much as another run.
pub(crate) const HELD_SIZE: usize = 16;

/// The number of runs of C's record.
pub(crate) fn runs_of(config: &CConfig) -> usize
    ensures value { result ≡ runs_of config.now }
    ensures least { 1 ≤ result }
    ensures most { result < 65536 }
{
    if config.runs == 0 {
        RUNS
    } else {
        usize::from(config.runs)
    }
}

/// The number of runs of C's record, and the greatest where that is above it.
pub(crate) fn runs_within(config: &CConfig) -> usize
    ensures value { HasGoodRuns config.now → result ≡ runs_of config.now }
    ensures least { 1 ≤ result }
    ensures most { result ≤ greatest_runs }
{
    runs_of(config).min(MAX_RUNS)
}

/// Whether an end can't keep as many.
pub(crate) fn are_too_many(config: &CConfig) -> bool
    ensures { IsTrue result ↔ HasBadRuns config.now }
{
    runs_of(config) > MAX_RUNS
}
