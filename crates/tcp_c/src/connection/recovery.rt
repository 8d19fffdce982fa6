//! Losses found by time (RACK-TLP: RFC 8985).
ghost use Rattle.std.specs.Prelude.{◌≡◌, ◌≢◌, ◌↔◌, ◌⊎◌, IsNone, option_map};
ghost use Rattle.tcp_halves.specs.Config.{config_error_number};
ghost use Rattle.tcp_c.specs.Answers.{done, in_use, no_end, no_rule};
ghost use Rattle.tcp_c.specs.Recoveries.{HasOne, HasSent, IsNew, recovering};

use crate::answers::{DONE, IN_USE, NO_END, NO_RULE};
use crate::connection::congestion::has_sent;
use crate::connection::driven_handle::DrivenHandle;
use region_heap::{Block, Region};
use tcp_conn::ConfigError;
use tcp_repair::Recovery;

/// A recovery in this block, if that is large enough.
fn recovery_in(block: Block) -> Option<Box<Recovery, Region>> {
    match Box::new(Region::new(block), Recovery::new()) {
        Ok(recovery) => Some(recovery),
        Err(_) => None,
    }
}

/// Finds losses by time from `now` on (RFC 8985): what is in flight, when it was sent, and the tail loss probe lie in the block. 32
/// where the connection does so already, else 54 where text was sent already, or a FIN, of which it wouldn't be known when, else 22
/// where the block is too small: then nothing changes. The block is the caller's again at any answer but 0, and after
/// [`tcp_c_connection_free`](crate::tcp_c_connection_free).
#[unsafe(no_mangle)]
pub extern "C" fn tcp_c_connection_set_recovery(
    handle: &mut DrivenHandle,
    block: Block,
    now: u64,
) -> u32
    ensures no_end { (result ≡ no_end) ↔ IsNone handle.old.held.end }
    ensures in_use { (result ≡ in_use) ↔ HasOne handle.old.held.end }
    ensures sent { (result ≡ no_rule) ↔ HasSent handle.old.held.end }
    ensures new { IsNew handle.old.held.end ↔ ((result ≡ done) ⊎ (result ≡ config_error_number ConfigError.NoMemory)) }
    ensures chosen { result ≡ done → handle.new.held.end ≡ option_map (recovering now) handle.old.held.end }
    ensures kept { result ≢ done → handle.new.held.end ≡ handle.old.held.end }
{
    let Some(mut driven) = handle.take() else {
        return NO_END;
    };
    if driven.connection.repairing.has_recovery() {
        handle.put(driven);
        return IN_USE;
    }
    if has_sent(&driven) {
        handle.put(driven);
        return NO_RULE;
    }
    let Some(recovery) = recovery_in(block) else {
        handle.put(driven);
        return u32::from(ConfigError::NoMemory.number());
    };
    driven.connection.repairing.set_recovery(recovery, now);
    handle.put(driven);
    DONE
}
