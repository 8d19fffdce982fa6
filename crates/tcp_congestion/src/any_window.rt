ghost use Rattle.std.specs.Prelude.{◌≡◌};
ghost use Rattle.tcp_congestion.specs.Sizes.{max_limit, max_segment};

use crate::congestion::Congestion;
use crate::cubic::Cubic;
use crate::reno::{MAX_WINDOW, Reno};

/// The window that a connection has, where that is chosen as it runs: none, Reno's or CUBIC's.
#[derive(Clone, Copy, Debug, PartialEq, Eq)]
pub enum AnyWindow {
    /// There is none: what goes out is bounded by what the peer and the caller let out.
    Unlimited,
    /// That of RFC 5681.
    Reno(Reno),
    /// That of RFC 9438.
    Cubic(Cubic),
}

impl Congestion for AnyWindow {
    ghost use Rattle.tcp_congestion.specs.AnyWindow.{any_control};

    ghost control = { any_control };

    fn limits(&self) -> bool {
        !matches!(self, AnyWindow::Unlimited)
    }

    fn smss(&self) -> u64 {
        match self {
            AnyWindow::Unlimited => 0,
            AnyWindow::Reno(window) => Congestion::smss(window),
            AnyWindow::Cubic(window) => Congestion::smss(window),
        }
    }

    fn cwnd(&self) -> u64 {
        match self {
            AnyWindow::Unlimited => MAX_WINDOW,
            AnyWindow::Reno(window) => Congestion::cwnd(window),
            AnyWindow::Cubic(window) => Congestion::cwnd(window),
        }
    }

    fn ssthresh(&self) -> u64 {
        match self {
            AnyWindow::Unlimited => MAX_WINDOW,
            AnyWindow::Reno(window) => Congestion::ssthresh(window),
            AnyWindow::Cubic(window) => Congestion::ssthresh(window),
        }
    }

    fn is_recovering(&self) -> bool {
        match self {
            AnyWindow::Unlimited => false,
            AnyWindow::Reno(window) => Congestion::is_recovering(window),
            AnyWindow::Cubic(window) => Congestion::is_recovering(window),
        }
    }

    fn room(&self, flight: u64) -> u64 {
        match self {
            AnyWindow::Unlimited => MAX_WINDOW.saturating_sub(flight),
            AnyWindow::Reno(window) => Congestion::room(window, flight),
            AnyWindow::Cubic(window) => Congestion::room(window, flight),
        }
    }

    fn acknowledged(&mut self, acked: u64, snd_una: u64, flight: u64, now: u64, rtt: u64) -> bool {
        match self {
            AnyWindow::Unlimited => false,
            AnyWindow::Reno(window) => Congestion::acknowledged(
                window, acked, snd_una, flight, now, rtt,
            ),
            AnyWindow::Cubic(window) => Congestion::acknowledged(
                window, acked, snd_una, flight, now, rtt,
            ),
        }
    }

    fn delivered(&mut self, count: u64, flight: u64, now: u64, rtt: u64) {
        match self {
            AnyWindow::Unlimited => {}
            AnyWindow::Reno(window) => Congestion::delivered(window, count, flight, now, rtt),
            AnyWindow::Cubic(window) => Congestion::delivered(window, count, flight, now, rtt),
        }
    }

    fn duplicate(&mut self, snd_una: u64, flight: u64, snd_nxt: u64) -> bool {
        match self {
            AnyWindow::Unlimited => false,
            AnyWindow::Reno(window) => Congestion::duplicate(window, snd_una, flight, snd_nxt),
            AnyWindow::Cubic(window) => Congestion::duplicate(window, snd_una, flight, snd_nxt),
        }
    }

    fn reported(&mut self) {
        match self {
            AnyWindow::Unlimited => {}
            AnyWindow::Reno(window) => Congestion::reported(window),
            AnyWindow::Cubic(window) => Congestion::reported(window),
        }
    }

    fn is_new_loss(&self, snd_una: u64) -> bool {
        match self {
            AnyWindow::Unlimited => false,
            AnyWindow::Reno(window) => Congestion::is_new_loss(window, snd_una),
            AnyWindow::Cubic(window) => Congestion::is_new_loss(window, snd_una),
        }
    }

    fn lost(&mut self, snd_una: u64, flight: u64, snd_nxt: u64) -> bool {
        match self {
            AnyWindow::Unlimited => false,
            AnyWindow::Reno(window) => Congestion::lost(window, snd_una, flight, snd_nxt),
            AnyWindow::Cubic(window) => Congestion::lost(window, snd_una, flight, snd_nxt),
        }
    }

    fn finds_by_time(&mut self) {
        match self {
            AnyWindow::Unlimited => {}
            AnyWindow::Reno(window) => Congestion::finds_by_time(window),
            AnyWindow::Cubic(window) => Congestion::finds_by_time(window),
        }
    }

    fn keep_pipe(&mut self, reported: u64) {
        match self {
            AnyWindow::Unlimited => {}
            AnyWindow::Reno(window) => Congestion::keep_pipe(window, reported),
            AnyWindow::Cubic(window) => Congestion::keep_pipe(window, reported),
        }
    }

    fn lost_again(&mut self) {
        match self {
            AnyWindow::Unlimited => {}
            AnyWindow::Reno(window) => Congestion::lost_again(window),
            AnyWindow::Cubic(window) => Congestion::lost_again(window),
        }
    }

    fn timed_out(&mut self, flight: u64, snd_nxt: u64) {
        match self {
            AnyWindow::Unlimited => {}
            AnyWindow::Reno(window) => Congestion::timed_out(window, flight, snd_nxt),
            AnyWindow::Cubic(window) => Congestion::timed_out(window, flight, snd_nxt),
        }
    }

    fn may_resend(&self) -> bool {
        match self {
            AnyWindow::Unlimited => true,
            AnyWindow::Reno(window) => Congestion::may_resend(window),
            AnyWindow::Cubic(window) => Congestion::may_resend(window),
        }
    }

    fn resent(&mut self, count: u64) {
        match self {
            AnyWindow::Unlimited => {}
            AnyWindow::Reno(window) => Congestion::resent(window, count),
            AnyWindow::Cubic(window) => Congestion::resent(window, count),
        }
    }

    fn measured(&mut self, trip: u64, snd_una: u64, snd_nxt: u64) {
        match self {
            AnyWindow::Unlimited => {}
            AnyWindow::Reno(window) => Congestion::measured(window, trip, snd_una, snd_nxt),
            AnyWindow::Cubic(window) => Congestion::measured(window, trip, snd_una, snd_nxt),
        }
    }

    fn agreed(&mut self, smss: u64) {
        match self {
            AnyWindow::Unlimited => {}
            AnyWindow::Reno(window) => Congestion::agreed(window, smss),
            AnyWindow::Cubic(window) => Congestion::agreed(window, smss),
        }
    }

    fn syn_was_resent(&mut self) {
        match self {
            AnyWindow::Unlimited => {}
            AnyWindow::Reno(window) => Congestion::syn_was_resent(window),
            AnyWindow::Cubic(window) => Congestion::syn_was_resent(window),
        }
    }

    fn was_idle(&mut self) {
        match self {
            AnyWindow::Unlimited => {}
            AnyWindow::Reno(window) => Congestion::was_idle(window),
            AnyWindow::Cubic(window) => Congestion::was_idle(window),
        }
    }
}
