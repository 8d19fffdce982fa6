//! Makes and frees an end.
ghost use Rattle.std.specs.Prelude.{◌≡◌, ◌≢◌, ◌↔◌, ◌⊎◌, ◌≤◌, ◌<◌, IsSome, IsNone, Some, None, Ok, Err, IfOk};
ghost use Rattle.tcp_conn.specs.NewEnd.{end_with_runs};
ghost use Rattle.tcp_sendq.specs.SendQueue.{greatest_runs};
ghost use Rattle.tcp_halves.specs.Config.{config_error_number, HasBadCapacity, HasBadMss, HasBadShift, HasBadLimit, IsGoodConfig};
ghost use Rattle.tcp_c.specs.Answers.{done, bad_runs, in_use, answer_of};
ghost use Rattle.tcp_c.specs.Configs.{config_of, runs_of, HasBadRuns, HasGoodRuns};

use crate::answers::{BAD_RUNS, DONE, IN_USE, NO_END};
use crate::handle::Handle;
use crate::loose::Loose;
use crate::records::CConfig;
use crate::runs::{HELD_SIZE, MARK_SIZE, are_too_many, runs_of};
use region_heap::{Block, Region, Still};
use tcp_conn::{Config, ConfigError, Endpoint};
use tcp_sendq::MAX_RUNS;
use tcp_wire::{Addr, Seq};

/// The Config of C's record.
pub(crate) fn config_of(config: &CConfig) -> Config
    ensures { result ≡ config_of config.now }
{
    Config {
        addr: Addr(config.addr.byte),
        port: config.port,
        isn: Seq(config.isn),
        mss: config.mss,
        send_capacity: config.send_capacity,
        recv_capacity: config.recv_capacity,
        window_shift: if config.scales == 0 {
            None
        } else {
            Some(config.window_shift)
        },
        sack: config.sack != 0,
        limit: config.limit,
    }
}

/// The box with the allocator that needs no memory: its region isn't needed any more.
fn settled(end: Box<Endpoint<Region>, Region>) -> Box<Endpoint<Region>, Still>
    ensures { result.value ≡ end.value }
{
    let (end, _region) = Loose::of(end).settled(Still {});
    end.into_box()
}

/// A new end whose buffers, and after them the two tables of runs, lie in the front of this block; and the rest of the block.
pub(crate) fn end_in(
    block: Block,
    config: Config,
    runs: usize,
) -> Result<(Endpoint<Region>, Block), ConfigError>
    requires least { 1 ≤ runs }
    requires most { runs ≤ greatest_runs }
    ensures new { IfOk result (λ made. made.0 ≡ end_with_runs config runs) }
    ensures bad_capacity { (result ≡ Err ConfigError.BadCapacity) ↔ HasBadCapacity config }
    ensures bad_mss { (result ≡ Err ConfigError.BadMss) ↔ HasBadMss config }
    ensures bad_shift { (result ≡ Err ConfigError.BadShift) ↔ HasBadShift config }
    ensures bad_limit { (result ≡ Err ConfigError.BadLimit) ↔ HasBadLimit config }
    ensures good { (result ≡ Err ConfigError.NoMemory) → IsGoodConfig config }
{
    let (send, rest) = block.split(config.send_capacity);
    let (recv, rest) = rest.split(config.recv_capacity);
    let (marks, rest) = rest.split(runs * MARK_SIZE);
    let (held, rest) = rest.split((runs + 1) * HELD_SIZE);
    match Endpoint::with_runs_of(
        Region::new(send),
        Region::new(recv),
        Region::new(marks),
        Region::new(held),
        config,
        runs,
    ) {
        Ok(end) => Ok((end, rest)),
        Err(error) => Err(error),
    }
}

/// A new end in a box behind its buffers and tables, all of it in this block.
fn boxed_end(
    block: Block,
    config: Config,
    runs: usize,
) -> Result<Box<Endpoint<Region>, Still>, ConfigError>
    requires least { 1 ≤ runs }
    requires most { runs ≤ greatest_runs }
    ensures new { IfOk result (λ end. end.value ≡ end_with_runs config runs) }
    ensures bad_capacity { (result ≡ Err ConfigError.BadCapacity) ↔ HasBadCapacity config }
    ensures bad_mss { (result ≡ Err ConfigError.BadMss) ↔ HasBadMss config }
    ensures bad_shift { (result ≡ Err ConfigError.BadShift) ↔ HasBadShift config }
    ensures bad_limit { (result ≡ Err ConfigError.BadLimit) ↔ HasBadLimit config }
    ensures good { (result ≡ Err ConfigError.NoMemory) → IsGoodConfig config }
{
    let (end, rest) = match end_in(block, config, runs) {
        Ok(made) => made,
        Err(error) => return Err(error),
    };
    match Box::new(Region::new(rest), end) {
        Ok(end) => Ok(settled(end)),
        Err(_) => Err(ConfigError::NoMemory),
    }
}

/// Makes an end, CLOSED and empty, where the handle has none (RFC 9293, 3.3.2); all of it lies in the block. 32 where
/// the handle has one, else 21, 23, 24, 25 or 28 for a fault of the config, and 22 where the block is too small. The block
/// is the caller's again at any answer but 0, and after [`tcp_c_free`].
#[unsafe(no_mangle)]
pub extern "C" fn tcp_c_new(handle: &mut Handle, config: &CConfig, block: Block) -> u32
    ensures in_use { (result ≡ in_use) ↔ IsSome handle.old.held.end }
    ensures bad_capacity { (result ≡ config_error_number ConfigError.BadCapacity) ↔ (IsNone handle.old.held.end × HasBadCapacity (config_of config.now)) }
    ensures bad_mss { (result ≡ config_error_number ConfigError.BadMss) ↔ (IsNone handle.old.held.end × HasBadMss (config_of config.now)) }
    ensures bad_shift { (result ≡ config_error_number ConfigError.BadShift) ↔ (IsNone handle.old.held.end × HasBadShift (config_of config.now)) }
    ensures bad_limit { (result ≡ config_error_number ConfigError.BadLimit) ↔ (IsNone handle.old.held.end × HasBadLimit (config_of config.now)) }
    ensures bad_runs { (result ≡ bad_runs) ↔ (IsNone handle.old.held.end × IsGoodConfig (config_of config.now) × HasBadRuns config.now) }
    ensures good { (IsNone handle.old.held.end × IsGoodConfig (config_of config.now) × HasGoodRuns config.now) ↔ ((result ≡ done) ⊎ (result ≡ config_error_number ConfigError.NoMemory)) }
    ensures made { result ≡ done → handle.new.held.end ≡ Some (end_with_runs (config_of config.now) (runs_of config.now)) }
    ensures kept { result ≢ done → handle.new.held.end ≡ handle.old.held.end }
{
    if let Some(held) = handle.take() {
        handle.put(held);
        return IN_USE;
    }
    // Too many runs are a fault behind those of the Config, which are looked for with as many as there may be.
    let too_many = are_too_many(config);
    match boxed_end(block, config_of(config), runs_of(config).min(MAX_RUNS)) {
        Ok(end) => {
            if too_many {
                return BAD_RUNS;
            }
            handle.put(end);
            DONE
        }
        Err(error) => {
            if too_many && matches!(error, ConfigError::NoMemory) {
                return BAD_RUNS;
            }
            u32::from(error.number())
        }
    }
}

/// Frees the end: the block in which it was made is the caller's again.
#[unsafe(no_mangle)]
pub extern "C" fn tcp_c_free(handle: &mut Handle) -> u32
    ensures answer { result ≡ answer_of (λ _. done) handle.old.held.end }
    ensures state { handle.new.held.end ≡ None }
{
    match handle.take() {
        Some(end) => {
            drop(end);
            DONE
        }
        None => NO_END,
    }
}
