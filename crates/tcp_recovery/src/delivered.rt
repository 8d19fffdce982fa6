ghost use Rattle.std.specs.Prelude.{ℕ, ◌≡◌, ◌≤◌};
ghost use Rattle.tcp_recovery.specs.Delivered.{after_deliveries, after_delivery, after_recovery, after_spurious, new_delivered, reo_wnd_of, widened, with_latest, with_order, with_trip};
ghost use Rattle.tcp_recovery.specs.Stretches.{AreInOrder, between};

use crate::stretch::Stretch;

/// No reordering window is longer than so many quarters of a round trip: the project's own choice.
const MAX_MULT: u8 = 64;

/// What deliveries have told (RFC 8985, 5.3). Positions and times are those of [`Rack`](crate::Rack).
#[derive(Clone, Copy, Debug, PartialEq, Eq)]
pub struct Delivered {
    /// RACK.xmit_ts, in microseconds: something was delivered that was sent then or later. 0 before anything was of
    /// which that is known.
    pub xmit_ts: u64,
    /// RACK.end_seq: the position after it, and 0 before there is one.
    pub end_seq: u64,
    /// RACK.rtt, in microseconds: what was delivered last, of all of which that is known, took so long at most.
    pub rtt: u64,
    /// RACK.fack: the highest position before which anything was delivered, of all of which it is known when it was
    /// sent.
    pub fack: u64,
    /// RACK.reordering_seen: what was never sent again was delivered behind something that was sent later, or what was
    /// sent again came too soon to be that, the project's own addition.
    pub reordering_seen: bool,
    /// RACK.reo_wnd_mult: how many quarters of the least round trip the window has, 64 at most.
    pub reo_wnd_mult: u8,
    /// RACK.reo_wnd_persist: for how many recoveries it keeps so many.
    pub reo_wnd_persist: u8,
    /// In place of RACK.dsack_round: a needless resend of what is before this position is known already.
    pub round: u64,
}

impl Delivered {
    /// Nothing was delivered yet.
    pub(crate) fn new() -> Delivered
        ensures { result ≡ new_delivered }
    {
        Delivered {
            xmit_ts: 0,
            end_seq: 0,
            rtt: 0,
            fack: 0,
            reordering_seen: false,
            reo_wnd_mult: 1,
            reo_wnd_persist: 16,
            round: 0,
        }
    }

    /// A stretch, or a part of one, was delivered. Where it isn't known when it was sent it may have come before, and
    /// nothing is learnt: the project's own choice, since the standard has a time of each segment.
    pub(crate) fn after(self, part: Stretch, now: u64, min_rtt: u64, next: u64) -> Delivered
        ensures { result ≡ after_delivery self part now min_rtt next }
    {
        if part.first == 0 {
            return self;
        }
        let told = if part.is_again && now.saturating_sub(part.last) < min_rtt {
            self.after_spurious(part.start, next)
        } else {
            self.with_trip(part, now).with_latest(part)
        };
        told.with_order(part)
    }

    /// What was sent again hadn't been lost: it came late (RFC 8985, 6.2, step 4).
    fn after_spurious(self, start: u64, next: u64) -> Delivered
        ensures { result ≡ after_spurious self start next }
    {
        let told = if start < self.round {
            self
        } else {
            self.widened(next)
        };
        Delivered {
            reordering_seen: true,
            ..told
        }
    }

    /// The window is widened (RFC 8985, 6.2, step 4).
    fn widened(self, next: u64) -> Delivered
        ensures { result ≡ widened self next }
    {
        Delivered {
            reo_wnd_mult: MAX_MULT.min(self.reo_wnd_mult.saturating_add(1)),
            reo_wnd_persist: 16,
            round: next,
            ..self
        }
    }

    /// How long the part took at most (RFC 8985, 6.2, step 2).
    fn with_trip(self, part: Stretch, now: u64) -> Delivered
        ensures { result ≡ with_trip self part now }
    {
        Delivered {
            rtt: now.saturating_sub(part.first),
            ..self
        }
    }

    /// The part may be what was sent last of all that was delivered (RFC 8985, 6.2, step 2).
    fn with_latest(self, part: Stretch) -> Delivered
        ensures { result ≡ with_latest self part }
    {
        if part.first > self.xmit_ts || (part.first == self.xmit_ts && part.end > self.end_seq) {
            return Delivered {
                xmit_ts: part.first,
                end_seq: part.end,
                ..self
            };
        }
        self
    }

    /// The part may be the highest that was delivered, or show reordering (RFC 8985, 6.2, step 3).
    fn with_order(self, part: Stretch) -> Delivered
        ensures { result ≡ with_order self part }
    {
        let seen = !part.is_again && part.end < self.fack;
        Delivered {
            fack: self.fack.max(part.end),
            reordering_seen: self.reordering_seen || seen,
            ..self
        }
    }

    /// What of these stretches is from one position on and before another was delivered.
    pub(crate) fn after_all(
        self,
        all: &[Stretch],
        piece: (u64, u64),
        now: u64,
        min_rtt: u64,
        next: u64,
    ) -> Delivered
        requires { (to : ℕ) × AreInOrder 0 to all.now }
        ensures { result ≡ after_deliveries self (between piece.0 piece.1 all.now) now min_rtt next }
    {
        let (start, end) = piece;
        let mut told = self;
        for s in all {
            if end <= s.start {
                return told;
            }
            if start < s.end.min(end) {
                told = told.after(s.before(end).behind(start), now, min_rtt, next);
            }
        }
        told
    }

    /// A recovery is over.
    pub(crate) fn after_recovery(self) -> Delivered
        ensures { result ≡ after_recovery self }
    {
        Delivered {
            reo_wnd_persist: self.reo_wnd_persist.saturating_sub(1),
            reo_wnd_mult: if self.reo_wnd_persist <= 1 {
                1
            } else {
                self.reo_wnd_mult
            },
            ..self
        }
    }

    /// RACK.reo_wnd (RFC 8985, 6.2, step 4).
    pub(crate) fn reo_wnd(&self, srtt: u64, min_rtt: u64, is_certain: bool) -> u64
        ensures most { result ≤ srtt }
        ensures value { result ≡ reo_wnd_of self.now srtt min_rtt is_certain }
    {
        if !self.reordering_seen && is_certain {
            return 0;
        }
        srtt.min(u64::from(self.reo_wnd_mult).saturating_mul(min_rtt) / 4)
    }
}
