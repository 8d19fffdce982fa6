//! An end of a connection that finds by time what is lost.
ghost use Rattle.std.specs.Prelude.{◌≡◌};

use crate::reporting::Reporting;
use std::alloc::Allocator;
use tcp_conn::Train;
use tcp_end::Wired;

impl<A: Allocator> Reporting for Wired<A> {
    ghost use Rattle.tcp_conn.specs.TrainWithin.{train_within};
    ghost use Rattle.tcp_repair.specs.Wired.{reports, start_of, starts_of};

    ghost reports = { reports };

    ghost start_of = { start_of };

    ghost starts = { λ w window most room. starts_of (train_within w.end window most room) };

    #[tactic(auto, unfolding(crate::specs::Wired::unmarked_of))]
    fn unmarked(&self, at: u64) -> Option<(u64, u64)> {
        let nxt = self.end.snd_nxt();
        let at = at.max(self.end.snd_una());
        if nxt <= at {
            return None;
        }
        let place = at.saturating_sub(1).saturating_sub(self.end.released());
        let queued = self.end.queued() as u64;
        let (from, to) = match self.end.next_unmarked(place as usize) {
            Some((from, to)) => (from as u64, to as u64),
            None => (place.max(queued), queued),
        };
        // So far no position lies past SND.NXT.
        let flight = nxt - at;
        let skipped = from.saturating_sub(place);
        if flight <= skipped {
            return None;
        }
        let len = if to < queued {
            flight.min(to.saturating_sub(place))
        } else {
            flight
        };
        Some((at + skipped, at + len))
    }

    fn uses_blocks(&self) -> bool {
        match self.end.negotiated() {
            Some(agreed) => agreed.sack,
            None => false,
        }
    }

    fn peer_window(&self) -> u64 {
        let (_, snd_wnd) = self.end.windows();
        u64::from(snd_wnd)
    }

    fn start(train: &Train) -> u64 {
        train.whole.position
    }
}
