//! How much memory an end needs.
ghost use Rattle.std.specs.Prelude.{◌≡◌, ◌<◌, ◌↔◌, IsTrue};
ghost use Rattle.tcp_halves.specs.Config.{IsCapacity, HasGoodCapacities, HasBadCapacity};
ghost use Rattle.tcp_c.specs.Configs.{config_of, room_beside, room_of, HasGoodRuns, HasBadRuns};

use crate::records::CConfig;
use crate::runs::{HELD_SIZE, MARK_SIZE, are_too_many, runs_of};
use region_heap::UNIT;
use tcp_sendq::MAX_CAPACITY;

/// The size of an end without its buffers and tables, in bytes. It is measured, by tests of the C library.
const END_SIZE: usize = 416;

/// Whether an end may have this capacity.
fn is_capacity(capacity: usize) -> bool
    ensures { IsTrue result ↔ IsCapacity capacity }
{
    1 <= capacity && capacity <= MAX_CAPACITY
}

/// The least size of a block for an end with this config that takes `size` bytes itself; 0 where a capacity or the number of runs is
/// refused.
pub(crate) fn room_beside(config: &CConfig, size: usize) -> usize
    requires { size < 4096 }
    ensures room { HasGoodCapacities (config_of config.now) → HasGoodRuns config.now → result ≡ room_beside config.now size }
    ensures none { HasBadCapacity (config_of config.now) → result ≡ 0 }
    ensures none_of_runs { HasBadRuns config.now → result ≡ 0 }
{
    let (send, recv) = (config.send_capacity, config.recv_capacity);
    if !is_capacity(send) || !is_capacity(recv) || are_too_many(config) {
        return 0;
    }
    let marks = (runs_of(config) * MARK_SIZE).next_multiple_of(UNIT);
    let held = ((runs_of(config) + 1) * HELD_SIZE).next_multiple_of(UNIT);
    send.next_multiple_of(UNIT) + recv.next_multiple_of(UNIT) + marks + held + size
}

/// The least size of a block for an end with this config, in bytes; 0 where a capacity isn't from 1 to 1,048,576, or the number of
/// runs is above 4,096.
#[unsafe(no_mangle)]
pub extern "C" fn tcp_c_room(config: &CConfig) -> usize
    ensures room { HasGoodCapacities (config_of config.now) → HasGoodRuns config.now → result ≡ room_of config.now }
    ensures none { HasBadCapacity (config_of config.now) → result ≡ 0 }
    ensures none_of_runs { HasBadRuns config.now → result ≡ 0 }
{
    room_beside(config, END_SIZE)
}
