//! The rules of the retransmission timeout (RFC 6298, 2 and 5), the limits of a connection (RFC 9293, 3.8.3) and its guard (RFC 5961,
//! 5.2), from C's record.
ghost use Rattle.std.specs.Prelude.{◌≡◌};
ghost use Rattle.tcp_c.specs.Connections.{limit_of, limits_of, reach_of, rules_of};

use crate::records::CConnectionRules;
use tcp_driver::Limits;
use tcp_timing::Rules;

/// The time that stands for none: no limit, no timer.
pub const NEVER: u64 = u64::MAX;

/// A limit, if it is one.
pub(crate) fn limit_of(time: u64) -> Option<u64>
    ensures { result ≡ limit_of time }
{
    if time == NEVER { None } else { Some(time) }
}

/// How far a guard reaches where C's record has 0: two of the greatest windows.
const GUARD: u32 = 1 << 21;

/// The reach that stands for none: no number lies farther behind another.
const NO_GUARD: u32 = u32::MAX;

/// How far a guard reaches, if there is one.
pub(crate) fn reach_of(guard: u32) -> Option<u32>
    ensures { result ≡ reach_of guard }
{
    match guard {
        NO_GUARD => None,
        0 => Some(GUARD),
        reach => Some(reach),
    }
}

/// The rules of the timeout.
pub(crate) fn rules_of(rules: &CConnectionRules) -> Rules
    ensures { result ≡ rules_of rules.now }
{
    Rules {
        first: rules.first,
        least: rules.least,
        greatest: rules.greatest,
        granularity: rules.granularity,
        after_syn: rules.after_syn,
    }
}

/// The limits, and the guard.
pub(crate) fn limits_of(rules: &CConnectionRules) -> Limits
    ensures { result ≡ limits_of rules.now }
{
    Limits {
        time_wait: rules.time_wait,
        suspect_after: rules.suspect_after,
        handshake: limit_of(rules.handshake),
        user: limit_of(rules.user),
        fin_wait_2: limit_of(rules.fin_wait_2),
        guard: reach_of(rules.guard),
        is_patient: false,
    }
}
