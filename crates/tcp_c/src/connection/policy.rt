//! When an acknowledgement and a small segment go out (RFC 9293, 3.7.4 and 3.8.6; RFC 5961, 7).
ghost use Rattle.std.specs.Prelude.{◌≡◌, option_map};
ghost use Rattle.tcp_c.specs.Answers.{answer_of, done};
ghost use Rattle.tcp_c.specs.Policies.{policy_of, with_policy_of};

use crate::answers::{DONE, NO_END};
use crate::connection::driven_handle::DrivenHandle;
use crate::connection::rules::limit_of;
use crate::records::CPolicy;
use tcp_connection::Policy;

/// The policy of C's record.
pub(crate) fn policy_of(policy: &CPolicy) -> Policy
    ensures { result ≡ policy_of policy.now }
{
    Policy {
        ack_delay: policy.ack_delay,
        is_nagle: policy.nagle != 0,
        override_timeout: limit_of(policy.override_timeout),
        answer_interval: policy.answer_interval,
    }
}

/// Chooses when an acknowledgement and a small segment go out, which is at once where this isn't called. An acknowledgement that
/// waited is due then, and text begins to wait anew.
#[unsafe(no_mangle)]
pub extern "C" fn tcp_c_connection_set_policy(handle: &mut DrivenHandle, policy: &CPolicy) -> u32
    ensures answer { result ≡ answer_of (λ _. done) handle.old.held.end }
    ensures state { handle.new.held.end ≡ option_map (with_policy_of policy.now) handle.old.held.end }
{
    let Some(mut driven) = handle.take() else {
        return NO_END;
    };
    driven.connection.repairing.set_policy(policy_of(policy));
    handle.put(driven);
    DONE
}
