ghost use Rattle.std.specs.Prelude.{◌≡◌, ◌+◌, ◌<◌, ◌≤◌, ◌^◌};

use crate::delivered::Delivered;
use crate::losses::{deadline_of, lost_in};
use crate::stretch::Stretch;
use crate::stretches::{
    MAX_STRETCHES as MOST, ROOM, first_behind, place_again, place_new, remove, resent_behind,
};
use arrayvec::ArrayVec;
use std::marker::Model;

/// How many stretches are kept at most: the project's own choice.
pub const MAX_STRETCHES: usize = MOST;

/// What is in flight and when it was sent, and what of it is lost (RFC 8985, 6.2). It holds what is outstanding, which
/// was sent and not reported as received since, as stretches in order. Where a 65th would stand, the two neighbours
/// nearest in time are joined with the later time: these are found lost later, never earlier. A gap between the two is
/// then held as well, though its numbers have come.
#[derive(Debug, Drop)]
pub struct Rack {
    stretches: ArrayVec<Stretch, ROOM>,
    /// SND.NXT: the position after all that was sent.
    next: u64,
    delivered: Delivered,
}

impl Model for Rack {
    ghost use Rattle.tcp_recovery.specs.Rack.{Flight, IsFlight};

    ghost Value = { Flight };

    ghost view = { λ r. record { stretches = r.stretches.items; next = r.next; delivered = r.delivered } };

    ghost invariant = { λ r. IsFlight (record { stretches = r.stretches.items; next = r.next; delivered = r.delivered }) };
}

impl Rack {
    ghost use Rattle.tcp_recovery.specs.Delivered.{reo_wnd_of};
    ghost use Rattle.tcp_recovery.specs.Stretches.{behind, first_of, resent_of};
    ghost use Rattle.tcp_recovery.specs.Rack.{after_received, after_recovered, after_sent, after_settled, deadline_of, lost_in, new_flight};

    /// Nothing was sent yet (RFC 8985, 5.2 and 5.3).
    pub fn new() -> Rack
        ensures { result ≡ new_flight }
    {
        Rack {
            stretches: ArrayVec::new(),
            next: 0,
            delivered: Delivered::new(),
        }
    }

    /// What deliveries have told (RFC 8985, 5.3).
    #[must_use]
    pub fn delivered(&self) -> Delivered
        ensures { result ≡ self.now.delivered }
    {
        let Rack { delivered, .. } = self;
        *delivered
    }

    /// SND.NXT: the position after all that it was told of as sent.
    #[must_use]
    pub fn next(&self) -> u64
        ensures { result ≡ self.now.next }
    {
        let Rack { next, .. } = self;
        *next
    }

    /// A segment was sent that begins at `start` and takes `count` numbers, its SYN and FIN counted (RFC 9293, 3.4).
    /// New text that follows the last stretch within a 64th of `min_rtt` of its first time is part of it; what goes out
    /// again becomes a stretch of its own (RFC 8985, 6.1). `now` and `min_rtt` are in microseconds.
    pub fn sent(&mut self, start: u64, count: u64, now: u64, min_rtt: u64)
        requires { start + count < 2 ^ 64 }
        ensures { self.new ≡ after_sent self.old start count now min_rtt }
    {
        if count == 0 {
            return;
        }
        let end = start + count;
        if self.next <= start {
            place_new(&mut self.stretches, start, end, now, min_rtt / 64);
        } else {
            place_again(&mut self.stretches, start, end, now);
        }
        self.next = self.next.max(end);
    }

    /// The numbers from `start` on and before `end` were reported as received, by SND.UNA or by a block: those that
    /// were outstanding aren't any more, and say when they were sent and how far deliveries reach (RFC 8985, 6.2, steps
    /// 2 and 3). What was sent again less than `min_rtt` ago says nothing of when, but that it hadn't been lost (step
    /// 4), in place of a DSACK. What was joined over a gap says nothing at all, since it may have come before. `now`
    /// and `min_rtt` are in microseconds.
    pub fn received(&mut self, start: u64, end: u64, now: u64, min_rtt: u64)
        ensures { self.new ≡ after_received self.old start end now min_rtt }
    {
        let next = self.next;
        let end = next.min(end);
        if end <= start {
            return;
        }
        self.delivered = self.delivered.after_all(
            self.stretches.as_slice(),
            (start, end),
            now,
            min_rtt,
            next,
        );
        remove(&mut self.stretches, start, end);
    }

    /// The numbers from `start` on and before `end` had come before, as is seen where stretches were joined over them:
    /// nothing is learnt (RFC 8985, 6.2, steps 2 and 3, are for what is newly reported).
    pub fn settled(&mut self, start: u64, end: u64)
        ensures { self.new ≡ after_settled self.old start end }
    {
        let end = self.next.min(end);
        if start < end {
            remove(&mut self.stretches, start, end);
        }
    }

    /// A recovery is over: all is acknowledged that was in flight when its loss was found (RFC 8985, 6.2, step 4).
    pub fn recovered(&mut self)
        ensures { self.new ≡ after_recovered self.old }
    {
        self.delivered = self.delivered.after_recovery();
    }

    /// RACK.reo_wnd, how long reordering is waited for, in microseconds as `srtt` and `min_rtt` are (RFC 8985, 6.2,
    /// step 4). `is_certain` says that a recovery goes on, or that three segments or more behind a gap were reported as
    /// received: then there is no window where no reordering was seen.
    #[must_use]
    pub fn reo_wnd(&self, srtt: u64, min_rtt: u64, is_certain: bool) -> u64
        ensures value { result ≡ reo_wnd_of self.now.delivered srtt min_rtt is_certain }
        ensures most { result ≤ srtt }
    {
        self.delivered.reo_wnd(srtt, min_rtt, is_certain)
    }

    /// The first numbers of the stretches from a position on, as the position of the first and that after the last of
    /// their stretch: outstanding, but for those of a gap over which stretches were joined (RFC 8985, 5.2).
    #[must_use]
    pub fn next_outstanding(&self, at: u64) -> Option<(u64, u64)>
        ensures { result ≡ first_of (behind at self.now.stretches) }
    {
        first_behind(self.stretches.as_slice(), at)
    }

    /// When the first numbers of the stretches from a position on were sent last, in microseconds, if they were sent again
    /// (RFC 8985, 5.2): of those that were joined the latest time.
    #[must_use]
    pub fn resent_at(&self, at: u64) -> Option<u64>
        ensures { result ≡ resent_of (behind at self.now.stretches) }
    {
        resent_behind(self.stretches.as_slice(), at)
    }

    /// The first stretch that is lost, as the position of its first number and that after its last: something was
    /// delivered that was sent later, and RACK.rtt and the window have passed since all of it was sent (RFC 8985, 6.2,
    /// step 5). `reo_wnd` and `now` are in microseconds.
    #[must_use]
    pub fn lost(&self, reo_wnd: u64, now: u64) -> Option<(u64, u64)>
        ensures { result ≡ lost_in self.now.delivered reo_wnd now self.now.stretches }
    {
        lost_in(&self.delivered, self.stretches.as_slice(), reo_wnd, now)
    }

    /// When the next one is lost, in microseconds, if nothing is delivered until then, and nothing more is sent.
    /// `None`: never. The standard takes the latest of the times at which stretches are lost (RFC 8985, 6.2, step 5),
    /// this the soonest, the project's own choice: each is found when it is due, at the price of more wake-ups.
    #[must_use]
    pub fn deadline(&self, reo_wnd: u64) -> Option<u64>
        ensures { result ≡ deadline_of self.now.delivered reo_wnd self.now.stretches }
    {
        deadline_of(&self.delivered, self.stretches.as_slice(), reo_wnd)
    }
}
