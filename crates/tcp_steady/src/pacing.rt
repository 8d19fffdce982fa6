//! How fast new text goes out (RFC 9002, 7.7).
ghost use Rattle.std.specs.Prelude.{◌≡◌};
ghost use Rattle.tcp_steady.specs.Steady.{asked_pacer, flight_of, next_segment, pace_of, paced_window, pacer_behind, srtt_by, told_pacer, unsent_of, waits_for_portion};

use crate::steady::Steady;
use std::alloc::Allocator;
use tcp_congestion::Congestion;
use tcp_conn::Endpoint;
use tcp_pacing::Pace;
use tcp_timing::RoundTrip;

/// SRTT in microseconds, 0 where no round trip is measured.
fn srtt_of(trip: Option<RoundTrip>) -> u64
    ensures { result ≡ srtt_by trip }
{
    match trip {
        Some(trip) => trip.srtt,
        None => 0,
    }
}

/// How many bytes are in flight.
pub(crate) fn flight_of<B: Allocator>(end: &Endpoint<B>) -> u64
    ensures { result ≡ flight_of end.now }
{
    end.snd_nxt().saturating_sub(end.snd_una())
}

/// How many bytes the user has given that weren't sent yet.
fn unsent_of<B: Allocator>(end: &Endpoint<B>) -> u64
    ensures { result ≡ unsent_of end.now }
{
    (end.queued() as u64).saturating_sub(flight_of(end))
}

impl<W: Congestion + Drop, B: Allocator, A: Allocator> Steady<W, B, A> {
    /// By what the text is paced.
    fn pace(&self) -> Pace
        ensures { result ≡ pace_of W.control self.now.repairing }
    {
        let flow = self.repairing.flow();
        let window = flow.window();
        let cwnd = window.cwnd();
        Pace {
            cwnd,
            smss: window.smss(),
            srtt: srtt_of(flow.driver().estimator().trip()),
            is_slow_start: cwnd < window.ssthresh(),
        }
    }

    /// Before an emission: its window, which the pacer bounds where text is left to send. A FIN alone never waits.
    #[inline(always)]
    pub(crate) fn before_emission(&mut self, now: u64, window: u64) -> u64
        ensures window { result ≡ paced_window W.control self.old now window }
        ensures state { self.new ≡ record self.old { pacer = asked_pacer W.control self.old now } }
    {
        if !self.pacer.is_on() {
            return window;
        }
        let pace = self.pace();
        let allowed = self.pacer.allowed(now, pace);
        let end = self.end();
        if unsent_of(end) == 0 {
            return window;
        }
        window.min(flight_of(end).saturating_add(allowed))
    }

    /// Behind it: the pacer is told what went out, or whether text waits for its next portion.
    #[inline(always)]
    pub(crate) fn behind_emission(&mut self, is_sent: bool, flight: u64, window: u64)
        ensures { self.new ≡ record self.old { pacer = pacer_behind W.control self.old.repairing self.old.pacer is_sent flight window } }
    {
        if self.pacer.is_on() {
            self.tell_pacer(is_sent, flight, window);
        }
    }

    /// The pacer is told that.
    #[inline(never)]
    fn tell_pacer(&mut self, is_sent: bool, flight: u64, window: u64)
        ensures { self.new ≡ record self.old { pacer = told_pacer W.control self.old.repairing self.old.pacer is_sent flight window } }
    {
        if is_sent {
            let flight_after = flight_of(self.end());
            self.pacer.went(flight_after.saturating_sub(flight));
            self.pacer.hold(false);
        } else {
            let waits = self.waits(window);
            self.pacer.hold(waits);
        }
    }

    /// Whether text waits for the next portion: the windows let its next segment out, which the peer's cuts, and the pacer doesn't.
    fn waits(&self, window: u64) -> bool
        ensures { result ≡ waits_for_portion W.control self.now.repairing window self.now.pacer }
    {
        let pace = self.pace();
        let end = self.end();
        let flight = flight_of(end);
        let room = u64::from(end.windows().1).saturating_sub(flight);
        let next = pace.smss.min(unsent_of(end)).min(room);
        let allowed = self.repairing.flow().allowed(window);
        self.pacer.is_paced(pace)
            && self.pacer.left() < next
            && flight.saturating_add(next) <= allowed
    }
}
