//! When the silent peer of a connection is asked whether it is there (RFC 9293, 3.8.4), and whether new text is paced (RFC 9002, 7.7).
ghost use Rattle.std.specs.Prelude.{◌≡◌, option_map};
ghost use Rattle.tcp_c.specs.Answers.{answer_of, done};
ghost use Rattle.tcp_c.specs.KeepAlives.{asking, is_chosen, pacing, rules_of_keep_alive};

use crate::answers::{DONE, NO_END};
use crate::connection::driven_handle::DrivenHandle;
use crate::records::CKeepAlive;
use tcp_keep_alive::KeepAliveRules;

/// The rules of C's record, if it has any.
pub(crate) fn rules_of_keep_alive(rules: &CKeepAlive) -> Option<KeepAliveRules>
    ensures { result ≡ rules_of_keep_alive rules.now }
{
    if rules.idle == 0 {
        return None;
    }
    Some(KeepAliveRules {
        idle: rules.idle,
        interval: rules.interval,
        most: rules.most,
    })
}

/// Asks the peer whether it is there where nothing is heard of it from `now` on, by these rules, and aborts the connection where it
/// doesn't answer (RFC 9293, 3.8.4): that is reported as an expiry of the user timeout. Where `idle` is 0 it is never asked, as it
/// begins.
#[unsafe(no_mangle)]
pub extern "C" fn tcp_c_connection_set_keep_alive(
    handle: &mut DrivenHandle,
    rules: &CKeepAlive,
    now: u64,
) -> u32
    ensures answer { result ≡ answer_of (λ _. done) handle.old.held.end }
    ensures state { handle.new.held.end ≡ option_map (asking (rules_of_keep_alive rules.now) now) handle.old.held.end }
{
    let Some(mut driven) = handle.take() else {
        return NO_END;
    };
    driven
        .connection
        .set_keep_alive(rules_of_keep_alive(rules), now);
    handle.put(driven);
    DONE
}

/// Lets new text out spread over a round trip, by the congestion window (RFC 9002, 7.7), or at once, as it begins, where `is_paced` is
/// 0. Without a congestion window it isn't paced.
#[unsafe(no_mangle)]
pub extern "C" fn tcp_c_connection_set_pacing(handle: &mut DrivenHandle, is_paced: u32) -> u32
    ensures answer { result ≡ answer_of (λ _. done) handle.old.held.end }
    ensures state { handle.new.held.end ≡ option_map (pacing (is_chosen is_paced)) handle.old.held.end }
{
    let Some(mut driven) = handle.take() else {
        return NO_END;
    };
    driven.connection.set_pacing(is_paced != 0);
    handle.put(driven);
    DONE
}
