//! What the user of a connection in a host chooses, by its name.
ghost use Rattle.std.specs.Prelude.{◌≡◌, if◌then◌else◌, option_map};
ghost use Rattle.tcp_c.specs.Answers.{answer_of, done, no_rule};
ghost use Rattle.tcp_c.specs.Choices.{choice_number, lodger_after};
ghost use Rattle.tcp_c.specs.Connections.{limit_of};
ghost use Rattle.tcp_c.specs.Hosts.{after_use, asked_of, guest_of, id_of};
ghost use Rattle.tcp_c.specs.KeepAlives.{is_chosen, rules_of_keep_alive};
ghost use Rattle.tcp_c.specs.Lodgers.{lodger_end};
ghost use Rattle.tcp_c.specs.Pacing.{resend_number, stretch_number};
ghost use Rattle.tcp_c.specs.Policies.{policy_of};

use crate::answers::{DONE, GONE, NO_END, NO_RULE};
use crate::connection::keep_alive::rules_of_keep_alive;
use crate::connection::policy::policy_of;
use crate::connection::rules::limit_of;
use crate::host::host_handle::HostHandle;
use crate::host::ids::id_of;
use crate::host::lodger::Lodger;
use crate::host::lodging::Lodging;
use crate::records::{CHostId, CKeepAlive, CPolicy};
use tcp_connection::Policy;
use tcp_host::Tuned;
use tcp_keep_alive::KeepAliveRules;
use tcp_table::Id;

/// What is chosen of a connection.
#[derive(Clone, Copy, Debug, PartialEq, Eq)]
pub enum Choice {
    /// When an acknowledgement and a small segment go out.
    Policy(Policy),
    /// How long what was sent may be without an answer.
    UserTimeout(Option<u64>),
    /// When the silent peer is asked whether it is there.
    KeepAlive(Option<KeepAliveRules>),
    /// Whether new text is paced.
    Pacing(bool),
    /// The first segment in flight goes out again.
    ResendFirst,
    /// What is in flight from one position on and before another goes out again.
    Resend(u64, u64),
}

/// Whether something goes out again.
fn resend_told(again: bool) -> u32
    ensures { result ≡ (if again then done else no_rule) }
{
    if again { DONE } else { NO_RULE }
}

impl Tuned for Lodger {
    type Choice = Choice;

    type Choosing = u32;

    ghost choice_answer = { choice_number };

    ghost chosen = { lodger_after };

    fn choose(&mut self, now: u64, choice: &Choice) -> u32 {
        let connection = &mut self.driven.connection;
        match choice {
            Choice::Policy(policy) => {
                connection.repairing.set_policy(*policy);
                DONE
            }
            Choice::UserTimeout(limit) => {
                connection.repairing.set_user_timeout(*limit);
                DONE
            }
            Choice::KeepAlive(rules) => {
                connection.set_keep_alive(*rules, now);
                DONE
            }
            Choice::Pacing(is_on) => {
                connection.set_pacing(*is_on);
                DONE
            }
            Choice::ResendFirst => resend_told(connection.repairing.resend_first(now)),
            Choice::Resend(from, to) => resend_told(connection.repairing.resend(now, *from, *to)),
        }
    }
}

impl Lodging {
    /// The user of an end chooses.
    fn choose(&mut self, now: u64, id: Id, choice: &Choice) -> Option<u32>
        ensures answer { result ≡ option_map (λ guest. choice_number guest.end choice.now) (guest_of self.old.host id) }
        ensures state { self.new ≡ after_use id (λ g. lodger_after g now choice.now) self.old }
    {
        self.host.choose(now, id, choice)
    }
}

/// The user of a connection chooses.
fn choose(handle: &mut HostHandle, now: u64, id: Id, choice: &Choice) -> u32
    ensures answer { result ≡ answer_of (asked_of id (λ g. choice_number g choice.now)) handle.old.held.host }
    ensures state { handle.new.held.host ≡ option_map (after_use id (λ g. lodger_after g now choice.now)) handle.old.held.host }
{
    let Some(mut lodging) = handle.take() else {
        return NO_END;
    };
    let answer = lodging.choose(now, id, choice);
    handle.put(lodging);
    match answer {
        Some(answer) => answer,
        None => GONE,
    }
}

/// Chooses when an acknowledgement and a small segment go out, as of
/// [`tcp_c_connection_set_policy`](crate::tcp_c_connection_set_policy). 61 where the end is gone.
#[unsafe(no_mangle)]
pub extern "C" fn tcp_c_host_set_policy(
    handle: &mut HostHandle,
    id: &CHostId,
    policy: &CPolicy,
) -> u32
    ensures answer { result ≡ answer_of (asked_of (id_of id.now) (λ g. done)) handle.old.held.host }
    ensures state { handle.new.held.host ≡ option_map (after_use (id_of id.now) (λ g. lodger_after g 0 (Choice.Policy (policy_of policy.now)))) handle.old.held.host }
{
    choose(handle, 0, id_of(id), &Choice::Policy(policy_of(policy)))
}

/// Sets the user timeout, as of [`tcp_c_connection_set_user_timeout`](crate::tcp_c_connection_set_user_timeout) (RFC 9293,
/// 3.8.3). 61 where the end is gone.
#[unsafe(no_mangle)]
pub extern "C" fn tcp_c_host_set_user_timeout(
    handle: &mut HostHandle,
    id: &CHostId,
    limit: u64,
) -> u32
    ensures answer { result ≡ answer_of (asked_of (id_of id.now) (λ g. done)) handle.old.held.host }
    ensures state { handle.new.held.host ≡ option_map (after_use (id_of id.now) (λ g. lodger_after g 0 (Choice.UserTimeout (limit_of limit)))) handle.old.held.host }
{
    choose(handle, 0, id_of(id), &Choice::UserTimeout(limit_of(limit)))
}

/// Asks the peer whether it is there where nothing is heard of it, as of
/// [`tcp_c_connection_set_keep_alive`](crate::tcp_c_connection_set_keep_alive) (RFC 9293, 3.8.4). 61 where the end is gone.
#[unsafe(no_mangle)]
pub extern "C" fn tcp_c_host_set_keep_alive(
    handle: &mut HostHandle,
    now: u64,
    id: &CHostId,
    rules: &CKeepAlive,
) -> u32
    ensures answer { result ≡ answer_of (asked_of (id_of id.now) (λ g. done)) handle.old.held.host }
    ensures state { handle.new.held.host ≡ option_map (after_use (id_of id.now) (λ g. lodger_after g now (Choice.KeepAlive (rules_of_keep_alive rules.now)))) handle.old.held.host }
{
    choose(
        handle,
        now,
        id_of(id),
        &Choice::KeepAlive(rules_of_keep_alive(rules)),
    )
}

/// Lets new text out spread over a round trip, as of [`tcp_c_connection_set_pacing`](crate::tcp_c_connection_set_pacing) (RFC 9002,
/// 7.7). 61 where the end is gone.
#[unsafe(no_mangle)]
pub extern "C" fn tcp_c_host_set_pacing(handle: &mut HostHandle, id: &CHostId, is_paced: u32) -> u32
    ensures answer { result ≡ answer_of (asked_of (id_of id.now) (λ g. done)) handle.old.held.host }
    ensures state { handle.new.held.host ≡ option_map (after_use (id_of id.now) (λ g. lodger_after g 0 (Choice.Pacing (is_chosen is_paced)))) handle.old.held.host }
{
    choose(handle, 0, id_of(id), &Choice::Pacing(is_paced != 0))
}

/// Of what is in flight the first segment goes out again, as of
/// [`tcp_c_connection_resend_first`](crate::tcp_c_connection_resend_first) (RFC 5681, 3.2). 61 where the end is gone, 54
/// where nothing is in flight.
#[unsafe(no_mangle)]
pub extern "C" fn tcp_c_host_resend_first(handle: &mut HostHandle, now: u64, id: &CHostId) -> u32
    ensures answer { result ≡ answer_of (asked_of (id_of id.now) (λ g. resend_number (lodger_end g))) handle.old.held.host }
    ensures state { handle.new.held.host ≡ option_map (after_use (id_of id.now) (λ g. lodger_after g now Choice.ResendFirst)) handle.old.held.host }
{
    choose(handle, now, id_of(id), &Choice::ResendFirst)
}

/// Of what is in flight what lies from the position `from` on and before `to` goes out again, as of
/// [`tcp_c_connection_resend`](crate::tcp_c_connection_resend) (RFC 6675, 5). 61 where the end is gone, 54 where nothing in
/// flight lies there.
#[unsafe(no_mangle)]
pub extern "C" fn tcp_c_host_resend(
    handle: &mut HostHandle,
    now: u64,
    id: &CHostId,
    from: u64,
    to: u64,
) -> u32
    ensures answer { result ≡ answer_of (asked_of (id_of id.now) (λ g. stretch_number from to (lodger_end g))) handle.old.held.host }
    ensures state { handle.new.held.host ≡ option_map (after_use (id_of id.now) (λ g. lodger_after g now (Choice.Resend from to))) handle.old.held.host }
{
    choose(handle, now, id_of(id), &Choice::Resend(from, to))
}
