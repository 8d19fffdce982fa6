//! The congestion window of a connection (RFC 5681, 3; RFC 9438).
ghost use Rattle.std.specs.Prelude.{◌≡◌, Option, option_map};
ghost use Rattle.tcp_c.specs.Answers.{answer_of, done};
ghost use Rattle.tcp_c.specs.Congestions.{choice_number, chosen, congestion_by, congestion_number, congestion_of, has_sent, no_congestion, window_of};
ghost use Rattle.tcp_c.specs.Connections.{end_of};

use crate::answers::{BAD_RULES, DONE, NO_END, NO_RULE};
use crate::connection::driven::Driven;
use crate::connection::driven_handle::DrivenHandle;
use crate::records::CCongestion;
use tcp_congestion::{AnyWindow, Congestion, Cubic, Reno};

/// SMSS before both SYNs have agreed on it (RFC 9293, 3.7.1).
const FIRST_SMSS: u64 = 536;

/// The window of a number, as a connection begins with it.
fn window_of(number: u32) -> Option<AnyWindow>
    ensures { result ≡ window_of number }
{
    match number {
        0 => Some(AnyWindow::Unlimited),
        1 => Some(AnyWindow::Reno(Reno::new(FIRST_SMSS))),
        2 => Some(AnyWindow::Cubic(Cubic::with_limit(FIRST_SMSS, 1))),
        _ => None,
    }
}

/// The number of a window.
fn congestion_number(window: &AnyWindow) -> u32
    ensures { result ≡ congestion_number window.now }
{
    match window {
        AnyWindow::Unlimited => 0,
        AnyWindow::Reno(_) => 1,
        AnyWindow::Cubic(_) => 2,
    }
}

/// Whether text was sent, or a FIN.
pub(crate) fn has_sent(driven: &Driven) -> bool
    ensures { result ≡ has_sent (end_of driven.now) }
{
    driven.connection.end().snd_nxt() > 1
}

/// Chooses the congestion window: 0 none, 1 that of RFC 5681, 2 CUBIC's (RFC 9438). It begins as the standard has it, with the
/// segments that both SYNs agree on. 29 where no window has this number, else 54 where text was sent already, or a FIN: then
/// nothing changes.
#[unsafe(no_mangle)]
pub extern "C" fn tcp_c_connection_set_congestion(handle: &mut DrivenHandle, congestion: u32) -> u32
    ensures answer { result ≡ answer_of (choice_number congestion) handle.old.held.end }
    ensures state { handle.new.held.end ≡ option_map (chosen congestion) handle.old.held.end }
{
    let Some(mut driven) = handle.take() else {
        return NO_END;
    };
    let Some(window) = window_of(congestion) else {
        handle.put(driven);
        return BAD_RULES;
    };
    if has_sent(&driven) {
        handle.put(driven);
        return NO_RULE;
    }
    driven.connection.repairing.set_window(window);
    handle.put(driven);
    DONE
}

/// A report of no window: all zero.
fn no_congestion() -> CCongestion
    ensures { result ≡ no_congestion }
{
    CCongestion {
        cwnd: 0,
        ssthresh: 0,
        smss: 0,
        congestion: 0,
        is_recovering: 0,
    }
}

/// What is reported of a window.
fn reported(window: &AnyWindow) -> CCongestion
    ensures { result ≡ congestion_by window.now }
{
    CCongestion {
        cwnd: window.cwnd(),
        ssthresh: window.ssthresh(),
        smss: window.smss(),
        congestion: congestion_number(window),
        is_recovering: u32::from(window.is_recovering()),
    }
}

/// Reports the congestion window. Where none was chosen cwnd and ssthresh are 2^40, more than is ever in flight.
#[unsafe(no_mangle)]
pub extern "C" fn tcp_c_connection_congestion(
    handle: &mut DrivenHandle,
    congestion: &mut CCongestion,
) -> u32
    ensures answer { result ≡ answer_of (λ _. done) handle.old.held.end }
    ensures congestion { congestion.new ≡ congestion_of handle.old.held.end }
    ensures state { handle.new.held.end ≡ handle.old.held.end }
{
    let Some(driven) = handle.take() else {
        *congestion = no_congestion();
        return NO_END;
    };
    *congestion = reported(driven.connection.repairing.flow().window());
    handle.put(driven);
    DONE
}
