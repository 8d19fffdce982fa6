ghost use Rattle.std.specs.Prelude.{◌≡◌, ◌<◌, min, max};
ghost use Rattle.tcp_recovery.specs.Stretches.{distance, extends, followed_by, joined, segment};

/// A stretch of what is in flight: the numbers from `start` on and before `end`, with the times at which they were sent
/// last, in microseconds (RFC 8985, 5.2, has them for each segment).
#[derive(Clone, Copy, Debug, Default, PartialEq, Eq)]
pub struct Stretch {
    /// The position of its first number.
    pub start: u64,
    /// The position after its last number.
    pub end: u64,
    /// None of it was sent before this: 0 where that isn't known, as of stretches that were joined over a gap.
    pub first: u64,
    /// None of it was sent after this: Segment.xmit_ts.
    pub last: u64,
    /// Whether some of it was sent more than once: Segment.retransmitted.
    pub is_again: bool,
}

impl Stretch {
    /// What is sent at a time.
    pub(crate) fn segment(start: u64, end: u64, now: u64, is_again: bool) -> Stretch
        ensures { result ≡ segment start end now is_again }
    {
        Stretch {
            start,
            end,
            first: now,
            last: now,
            is_again,
        }
    }

    /// Whether new text belongs to it that is sent behind it within a span of its first.
    pub(crate) fn extends(&self, start: u64, now: u64, span: u64) -> bool
        ensures { result ≡ extends self.now start now span }
    {
        !self.is_again && self.end == start && now <= self.first.saturating_add(span)
    }

    /// With that text.
    pub(crate) fn followed_by(self, end: u64, now: u64) -> Stretch
        ensures { result ≡ followed_by self end now }
    {
        Stretch {
            end,
            first: self.first.min(now),
            last: self.last.max(now),
            ..self
        }
    }

    /// Its part before a position.
    pub(crate) fn before(self, at: u64) -> Stretch
        ensures { result ≡ record self { end = min self.end at } }
    {
        Stretch {
            end: self.end.min(at),
            ..self
        }
    }

    /// Its part from a position on.
    pub(crate) fn behind(self, at: u64) -> Stretch
        ensures { result ≡ record self { start = max self.start at } }
    {
        Stretch {
            start: self.start.max(at),
            ..self
        }
    }

    /// How long the times of two lie apart at most.
    pub(crate) fn distance(&self, next: &Stretch) -> u64
        ensures { result ≡ distance self.now next.now }
    {
        (self.last.max(next.last)).saturating_sub(self.first.min(next.first))
    }

    /// The two as one.
    pub(crate) fn joined(self, next: Stretch) -> Stretch
        ensures { result ≡ joined self next }
    {
        Stretch {
            start: self.start,
            end: next.end,
            first: if self.end == next.start {
                self.first.min(next.first)
            } else {
                0
            },
            last: self.last.max(next.last),
            is_again: self.is_again || next.is_again,
        }
    }
}
