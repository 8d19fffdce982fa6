//! The faults of a Config from which no end can be made.
ghost use Rattle.std.specs.Prelude.{◌≡◌, ◌↔◌, IsTrue, Some};
ghost use Rattle.tcp_halves.specs.Config.{HasGoodCapacities, HasBadCapacity, HasGoodMss, HasBadMss, HasGoodShift, HasBadShift, HasGoodLimit, HasBadLimit, IsGoodConfig};

use tcp_halves::{Config, ConfigError, MAX_LIMIT, MAX_MSS, MAX_SHIFT, MIN_MSS};
use tcp_sendq::MAX_CAPACITY;

/// The first fault, in the order of [`ConfigError`].
pub(crate) fn fault_of(config: &Config) -> Option<ConfigError>
    ensures bad_capacity { (result ≡ Some ConfigError.BadCapacity) ↔ HasBadCapacity config.now }
    ensures bad_mss { (result ≡ Some ConfigError.BadMss) ↔ HasBadMss config.now }
    ensures bad_shift { (result ≡ Some ConfigError.BadShift) ↔ HasBadShift config.now }
    ensures bad_limit { (result ≡ Some ConfigError.BadLimit) ↔ HasBadLimit config.now }
    ensures none { (result ≡ None) ↔ IsGoodConfig config.now }
{
    if !has_good_capacities(config) {
        return Some(ConfigError::BadCapacity);
    }
    if !has_good_mss(config) {
        return Some(ConfigError::BadMss);
    }
    if !has_good_shift(config) {
        return Some(ConfigError::BadShift);
    }
    if !has_good_limit(config) {
        return Some(ConfigError::BadLimit);
    }
    None
}

/// Whether both capacities are from 1 to 1,048,576.
fn has_good_capacities(config: &Config) -> bool
    ensures { IsTrue result ↔ HasGoodCapacities config.now }
{
    let send = config.send_capacity;
    let recv = config.recv_capacity;
    send >= 1 && send <= MAX_CAPACITY && recv >= 1 && recv <= MAX_CAPACITY
}

/// Whether the MSS is from 64 to 1460.
fn has_good_mss(config: &Config) -> bool
    ensures { IsTrue result ↔ HasGoodMss config.now }
{
    MIN_MSS <= config.mss && config.mss <= MAX_MSS
}

/// Whether the shift, if there is one, is at most 14.
fn has_good_shift(config: &Config) -> bool
    ensures { IsTrue result ↔ HasGoodShift config.now }
{
    config.window_shift.unwrap_or(0) <= MAX_SHIFT
}

/// Whether the limit is from 1 to 2^62.
fn has_good_limit(config: &Config) -> bool
    ensures { IsTrue result ↔ HasGoodLimit config.now }
{
    1 <= config.limit && config.limit <= MAX_LIMIT
}
