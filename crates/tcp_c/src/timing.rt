//! The timers. The caller keeps the times (RFC 9293, 3.10.8).
ghost use Rattle.std.specs.Prelude.{◌≡◌, option_map};
ghost use Rattle.tcp_c.specs.Answers.{done, answer_of, number_written};
ghost use Rattle.tcp_c.specs.Calls.{timer_of, timer_number, after_any_timer, running_timers};

use crate::answers::{DONE, NO_END, NO_RULE, NO_TIMER};
use crate::handle::Handle;
use tcp_conn::Timer;

/// The timer of a number.
pub(crate) fn timer_of(number: u32) -> Option<Timer>
    ensures { result ≡ timer_of number }
{
    match number {
        0 => Some(Timer::Retransmit),
        1 => Some(Timer::Reorder),
        2 => Some(Timer::TimeWait),
        _ => None,
    }
}

/// A timer has expired: 0 the retransmission timeout, 1 the reordering timeout, 2 the TIME-WAIT timeout (RFC 9293,
/// 3.10.8). 54 where its rule doesn't apply, 34 at any other number: then nothing changes.
#[unsafe(no_mangle)]
pub extern "C" fn tcp_c_timer(handle: &mut Handle, timer: u32) -> u32
    ensures answer { result ≡ answer_of (timer_number (timer_of timer)) handle.old.held.end }
    ensures state { handle.new.held.end ≡ option_map (after_any_timer (timer_of timer)) handle.old.held.end }
{
    let Some(mut end) = handle.take() else {
        return NO_END;
    };
    let answer = match timer_of(timer) {
        Some(timer) => { if end.timer(timer) { DONE } else { NO_RULE } }
        None => NO_TIMER,
    };
    handle.put(end);
    answer
}

/// Reports which timers have to run: the sum of 1 for the retransmission timeout, 2 for the reordering timeout and 4
/// for the TIME-WAIT timeout (RFC 9293, 3.10.8).
#[unsafe(no_mangle)]
pub extern "C" fn tcp_c_timers(handle: &mut Handle, running: &mut u32) -> u32
    ensures answer { result ≡ answer_of (λ _. done) handle.old.held.end }
    ensures running { running.new ≡ number_written running_timers handle.old.held.end }
    ensures state { handle.new.held.end ≡ handle.old.held.end }
{
    *running = 0;
    let Some(end) = handle.take() else {
        return NO_END;
    };
    let (retransmit, reorder, time_wait) = end.timers();
    handle.put(end);
    *running = u32::from(retransmit) + 2 * u32::from(reorder) + 4 * u32::from(time_wait);
    DONE
}
