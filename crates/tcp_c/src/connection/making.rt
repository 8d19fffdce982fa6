//! Makes a connection, opens it at once, and frees it.
ghost use Rattle.std.specs.Prelude.{◌≡◌, ◌≢◌, ◌↔◌, ◌⊎◌, ◌≤◌, IsSome, IsNone, Some, None, Err, IfOk};
ghost use Rattle.tcp_conn.specs.NewEnd.{end_with_runs};
ghost use Rattle.tcp_timing.specs.Rules.{IsSound};
ghost use Rattle.tcp_sendq.specs.SendQueue.{greatest_runs};
ghost use Rattle.tcp_halves.specs.Config.{config_error_number, HasBadCapacity, HasBadMss, HasBadShift, HasBadLimit, HasGoodCapacities, IsGoodConfig};
ghost use Rattle.tcp_end.specs.Wired.{connected, listening};
ghost use Rattle.tcp_c.specs.Answers.{done, bad_rules, bad_runs, in_use, answer_of};
ghost use Rattle.tcp_c.specs.Configs.{config_of, connection_room_of, runs_of, HasBadRuns, HasGoodRuns};
ghost use Rattle.tcp_c.specs.Connections.{IsFree, Makes, driven_from, made_of, opened, opens, rules_of};

use crate::answers::{BAD_RULES, BAD_RUNS, DONE, IN_USE, NO_END};
use crate::connection::driven::Driven;
use crate::connection::driven_handle::DrivenHandle;
use crate::connection::rules::{limits_of, rules_of};
use crate::loose::Loose;
use crate::making::{config_of, end_in};
use crate::records::{CAddr, CConfig, CConnectionRules};
use crate::room::room_beside;
use crate::runs::{are_too_many, runs_within};
use region_heap::{Block, Region, Still};
use tcp_congestion::AnyWindow;
use tcp_conn::{CallError, Config, ConfigError, Endpoint, Peer};
use tcp_connection::{Connection, Policy};
use tcp_driver::Limits;
use tcp_end::{End, connect, listen};
use tcp_flow::Flow;
use tcp_repair::Repairing;
use tcp_steady::Steady;
use tcp_timing::Rules;
use tcp_wire::Addr;

/// How a connection is opened.
#[derive(Clone, Copy)]
pub(crate) struct Opening {
    /// The peer that it is opened to; without one it waits for one.
    pub(crate) peer: Option<Peer>,
    /// The rules of the timeout.
    pub(crate) rules: Rules,
    /// The limits.
    pub(crate) limits: Limits,
    /// When its timers begin.
    pub(crate) now: u64,
}

/// An end that was opened, with its timers.
fn opened(end: Endpoint<Region>, opening: Opening) -> Result<End<Region>, CallError>
    requires { IsSound opening.rules }
    ensures { result ≡ opened end opening }
{
    let Opening {
        peer,
        rules,
        limits,
        now,
    } = opening;
    match peer {
        Some(peer) => connect(end, peer.addr, peer.port, rules, limits, now),
        None => listen(end, rules, limits, now),
    }
}

/// A connection without a congestion window, a loss recovery and keep-alives, of which nothing waits, as it begins.
#[tactic(auto, unfolding(crate::specs::Connections::driven_from))]
fn driven_from(end: End<Region>, now: u64) -> Driven
    ensures { result ≡ driven_from end now }
{
    Driven {
        connection: Steady::new(Repairing::new(Connection::new(
            Flow::new(end, AnyWindow::Unlimited, now),
            Policy::immediate(),
        ))),
    }
}

/// The box with the allocator that needs no memory: its region isn't needed any more.
fn settled(driven: Box<Driven, Region>) -> Box<Driven, Still>
    ensures { result.value ≡ driven.value }
{
    let (driven, _region) = Loose::of(driven).settled(Still {});
    driven.into_box()
}

/// A new end that was opened, in a box behind its buffers and tables, all of it in this block.
fn boxed(
    block: Block,
    config: Config,
    runs: usize,
    opening: Opening,
) -> Result<Box<Driven, Still>, ConfigError>
    requires least { 1 ≤ runs }
    requires most { runs ≤ greatest_runs }
    requires sound { IsSound opening.rules }
    ensures new { IfOk result (λ driven. driven.value ≡ opens (end_with_runs config runs) opening) }
    ensures bad_capacity { (result ≡ Err ConfigError.BadCapacity) ↔ HasBadCapacity config }
    ensures bad_mss { (result ≡ Err ConfigError.BadMss) ↔ HasBadMss config }
    ensures bad_shift { (result ≡ Err ConfigError.BadShift) ↔ HasBadShift config }
    ensures bad_limit { (result ≡ Err ConfigError.BadLimit) ↔ HasBadLimit config }
    ensures good { (result ≡ Err ConfigError.NoMemory) → IsGoodConfig config }
    ensures fit { IfOk result (λ driven. IsGoodConfig config) }
{
    let (end, rest) = match end_in(block, config, runs) {
        Ok(made) => made,
        Err(error) => return Err(error),
    };
    // A new end is CLOSED, and has never been opened: this isn't refused.
    let Ok(end) = opened(end, opening) else {
        return Err(ConfigError::NoMemory);
    };
    match Box::new(Region::new(rest), driven_from(end, opening.now)) {
        Ok(driven) => Ok(settled(driven)),
        Err(_) => Err(ConfigError::NoMemory),
    }
}

/// Makes an end and opens it, where the handle has none.
fn make(
    handle: &mut DrivenHandle,
    block: Block,
    config: &CConfig,
    rules: &CConnectionRules,
    peer: Option<Peer>,
    now: u64,
) -> u32
    ensures in_use { (result ≡ in_use) ↔ IsSome handle.old.held.end }
    ensures bad_rules { (result ≡ bad_rules) ↔ (IsNone handle.old.held.end × ¬ IsSound (rules_of rules.now)) }
    ensures bad_capacity { (result ≡ config_error_number ConfigError.BadCapacity) ↔ (IsFree handle.old.held.end rules.now × HasBadCapacity (config_of config.now)) }
    ensures bad_mss { (result ≡ config_error_number ConfigError.BadMss) ↔ (IsFree handle.old.held.end rules.now × HasBadMss (config_of config.now)) }
    ensures bad_shift { (result ≡ config_error_number ConfigError.BadShift) ↔ (IsFree handle.old.held.end rules.now × HasBadShift (config_of config.now)) }
    ensures bad_limit { (result ≡ config_error_number ConfigError.BadLimit) ↔ (IsFree handle.old.held.end rules.now × HasBadLimit (config_of config.now)) }
    ensures bad_runs { (result ≡ bad_runs) ↔ (IsFree handle.old.held.end rules.now × IsGoodConfig (config_of config.now) × HasBadRuns config.now) }
    ensures good { (IsFree handle.old.held.end rules.now × IsGoodConfig (config_of config.now) × HasGoodRuns config.now) ↔ ((result ≡ done) ⊎ (result ≡ config_error_number ConfigError.NoMemory)) }
    ensures made { result ≡ done → handle.new.held.end ≡ Some (made_of config.now rules.now peer now) }
    ensures kept { result ≢ done → handle.new.held.end ≡ handle.old.held.end }
{
    if let Some(held) = handle.take() {
        handle.put(held);
        return IN_USE;
    }
    let opening = Opening {
        peer,
        rules: rules_of(rules),
        limits: limits_of(rules),
        now,
    };
    if !opening.rules.are_sound() {
        return BAD_RULES;
    }
    // Too many runs are a fault behind those of the Config, which are looked for with as many as there may be.
    let too_many = are_too_many(config);
    match boxed(block, config_of(config), runs_within(config), opening) {
        Ok(driven) => {
            if too_many {
                return BAD_RUNS;
            }
            handle.put(driven);
            DONE
        }
        Err(error) => {
            if too_many && matches!(error, ConfigError::NoMemory) {
                return BAD_RUNS;
            }
            u32::from(error.number())
        }
    }
}

/// Makes an end where the handle has none, and opens a connection to this address and port at `now` (RFC 9293, 3.10.1); all
/// of it lies in the block. 32 where the handle has one, else 29 where no timeout can be made from the rules, else 21, 23,
/// 24, 25 or 28 for a fault of the config, and 22 where the block is too small. The block is the caller's again at any
/// answer but 0, and after [`tcp_c_connection_free`].
#[unsafe(no_mangle)]
pub extern "C" fn tcp_c_connection_connect(
    handle: &mut DrivenHandle,
    block: Block,
    config: &CConfig,
    rules: &CConnectionRules,
    addr: &CAddr,
    port: u16,
    now: u64,
) -> u32
    ensures { Makes handle.old.held.end handle.new.held.end config.now rules.now (made_of config.now rules.now (Some (record { addr = record { 0 = addr.now.byte }; port = port })) now) result }
{
    let peer = Peer {
        addr: Addr(addr.byte),
        port,
    };
    make(handle, block, config, rules, Some(peer), now)
}

/// Makes an end where the handle has none, and waits for a peer from `now` on (RFC 9293, 3.10.1). Answers as
/// [`tcp_c_connection_connect`].
#[unsafe(no_mangle)]
pub extern "C" fn tcp_c_connection_listen(
    handle: &mut DrivenHandle,
    block: Block,
    config: &CConfig,
    rules: &CConnectionRules,
    now: u64,
) -> u32
    ensures { Makes handle.old.held.end handle.new.held.end config.now rules.now (made_of config.now rules.now None now) result }
{
    make(handle, block, config, rules, None, now)
}

/// The size of an end with its timers, its window and its policy without its buffers and tables, in bytes. It is measured, by tests
/// of the C library.
const CONNECTION_SIZE: usize = 1200;

/// The least size of a block for a connection with this config, in bytes; 0 where a capacity isn't from 1 to 1,048,576, or
/// the number of runs is above 4,096.
#[unsafe(no_mangle)]
pub extern "C" fn tcp_c_connection_room(config: &CConfig) -> usize
    ensures room { HasGoodCapacities (config_of config.now) → HasGoodRuns config.now → result ≡ connection_room_of config.now }
    ensures none { HasBadCapacity (config_of config.now) → result ≡ 0 }
    ensures none_of_runs { HasBadRuns config.now → result ≡ 0 }
{
    room_beside(config, CONNECTION_SIZE)
}

/// Frees the end: the block in which it was made is the caller's again.
#[unsafe(no_mangle)]
pub extern "C" fn tcp_c_connection_free(handle: &mut DrivenHandle) -> u32
    ensures answer { result ≡ answer_of (λ _. done) handle.old.held.end }
    ensures state { handle.new.held.end ≡ None }
{
    match handle.take() {
        Some(driven) => {
            drop(driven);
            DONE
        }
        None => NO_END,
    }
}
