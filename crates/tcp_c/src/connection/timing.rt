//! When a timer expires, and what then happens (RFC 9293, 3.10.8).
ghost use Rattle.std.specs.Prelude.{◌≡◌, option_map};
ghost use Rattle.tcp_congestion.specs.AnyWindow.{any_control};
ghost use Rattle.tcp_connection.specs.Using.{with_user_limit};
ghost use Rattle.tcp_steady.specs.Steady.{expired, next_call};
ghost use Rattle.tcp_c.specs.Answers.{done, due_number, answer_of, number_written};
ghost use Rattle.tcp_c.specs.Connections.{limit_of, time_number, timed_out, timer_number, timer_told, with_own};

use crate::answers::{DONE, NO_END, NOTHING_DUE};
use crate::connection::driven_handle::DrivenHandle;
use crate::connection::rules::{NEVER, limit_of};
use tcp_driver::Timer;

/// A time, or that there is none.
pub(crate) fn time_number(time: Option<u64>) -> u64
    ensures { result ≡ time_number time }
{
    match time {
        Some(time) => time,
        None => NEVER,
    }
}

/// Reports when [`tcp_c_connection_timeout`] has to be called, if nothing else happens before; 2^64 - 1 where no timer
/// runs.
#[unsafe(no_mangle)]
pub extern "C" fn tcp_c_connection_poll_at(handle: &mut DrivenHandle, at: &mut u64) -> u32
    ensures answer { result ≡ answer_of (λ _. done) handle.old.held.end }
    ensures at { at.new ≡ number_written (λ d. time_number (next_call d.connection)) handle.old.held.end }
    ensures state { handle.new.held.end ≡ handle.old.held.end }
{
    *at = 0;
    let Some(driven) = handle.take() else {
        return NO_END;
    };
    let poll_at = driven.connection.poll_at();
    handle.put(driven);
    *at = time_number(poll_at);
    DONE
}

/// The number of a timer.
pub(crate) fn timer_number(timer: Timer) -> u32
    ensures { result ≡ timer_number timer }
{
    match timer {
        Timer::Retransmit => 0,
        Timer::Reorder => 1,
        Timer::TimeWait => 2,
        Timer::User => 3,
    }
}

/// It is `now`: reports the timer that has expired, and 53 where none has. After an expiry no segment is taken, and no other
/// timer expires, until a [`tcp_c_connection_emit`](crate::tcp_c_connection_emit) finds nothing that may go out.
#[unsafe(no_mangle)]
pub extern "C" fn tcp_c_connection_timeout(
    handle: &mut DrivenHandle,
    now: u64,
    timer: &mut u32,
) -> u32
    ensures answer { result ≡ answer_of (λ d. due_number (expired any_control d.connection now)) handle.old.held.end }
    ensures timer { timer.new ≡ number_written (λ d. timer_told (expired any_control d.connection now)) handle.old.held.end }
    ensures state { handle.new.held.end ≡ option_map (timed_out now) handle.old.held.end }
{
    *timer = 0;
    let Some(mut driven) = handle.take() else {
        return NO_END;
    };
    let expired = driven.connection.timeout(now);
    handle.put(driven);
    let Some(expired) = expired else {
        return NOTHING_DUE;
    };
    *timer = timer_number(expired);
    DONE
}

/// It is `now`: as [`tcp_c_connection_timeout`], and reports when it has to be called next, as [`tcp_c_connection_poll_at`]
/// behind it.
#[unsafe(no_mangle)]
pub extern "C" fn tcp_c_connection_tick(
    handle: &mut DrivenHandle,
    now: u64,
    timer: &mut u32,
    next: &mut u64,
) -> u32
    ensures answer { result ≡ answer_of (λ d. due_number (expired any_control d.connection now)) handle.old.held.end }
    ensures timer { timer.new ≡ number_written (λ d. timer_told (expired any_control d.connection now)) handle.old.held.end }
    ensures next { next.new ≡ number_written (λ d. time_number (next_call (timed_out now d).connection)) handle.old.held.end }
    ensures state { handle.new.held.end ≡ option_map (timed_out now) handle.old.held.end }
{
    *timer = 0;
    *next = 0;
    let Some(mut driven) = handle.take() else {
        return NO_END;
    };
    let (found, soonest) = driven.connection.tick(now);
    handle.put(driven);
    *next = time_number(soonest);
    let Some(found) = found else {
        return NOTHING_DUE;
    };
    *timer = timer_number(found);
    DONE
}

/// Sets the user timeout: how long what was sent may be without an answer before the connection is aborted, of which the time that
/// has passed already counts (RFC 9293, 3.8.3 and 3.10.2); 2^64 - 1 is forever. A SYN has the limit of the rules.
#[unsafe(no_mangle)]
pub extern "C" fn tcp_c_connection_set_user_timeout(handle: &mut DrivenHandle, limit: u64) -> u32
    ensures answer { result ≡ answer_of (λ _. done) handle.old.held.end }
    ensures state { handle.new.held.end ≡ option_map (λ d. with_own d (with_user_limit d.connection.repairing.connecting (limit_of limit))) handle.old.held.end }
{
    let Some(mut driven) = handle.take() else {
        return NO_END;
    };
    driven
        .connection
        .repairing
        .set_user_timeout(limit_of(limit));
    handle.put(driven);
    DONE
}
