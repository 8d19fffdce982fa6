ghost use Rattle.std.specs.Prelude.{◌≡◌, ◌↔◌, IsTrue, min, max};
ghost use Rattle.tcp_timing.specs.Rules.{standard, IsSound};

/// No round trip counts as longer than this, and no timeout is: 2^40 microseconds, twelve days.
pub const LONGEST: u64 = 1 << 40;

/// What the timeout is made from, in microseconds (RFC 6298, 2 and 5).
#[derive(Clone, Copy, Debug, PartialEq, Eq)]
pub struct Rules {
    /// The timeout before any round trip was measured: 1 s (2.1).
    pub first: u64,
    /// No timeout is below it: 1 s (2.4).
    pub least: u64,
    /// None is above it: 60 s or more (2.5).
    pub greatest: u64,
    /// G, the granularity of the clock (2).
    pub granularity: u64,
    /// The timeout with which data begin where the SYN was sent again and `first` is less: 3 s (5.7).
    pub after_syn: u64,
}

impl Rules {
    /// The values of RFC 6298, with a clock of milliseconds and 60 s as the greatest timeout.
    pub fn standard() -> Rules
        ensures { result ≡ standard }
    {
        Rules {
            first: 1_000_000,
            least: 1_000_000,
            greatest: 60_000_000,
            granularity: 1_000,
            after_syn: 3_000_000,
        }
    }

    /// The timeout nearest to `time` that is within the bounds (RFC 6298, 2.4 and 2.5).
    #[must_use]
    pub fn bounded(self, time: u64) -> u64
        ensures { result ≡ min self.greatest (max self.least time) }
    {
        self.greatest.min(self.least.max(time))
    }

    /// Whether an [`Estimator`](crate::Estimator) can be made from these: the least timeout is above 0 and not above the
    /// greatest, and neither that nor the granularity is above [`LONGEST`].
    pub fn are_sound(&self) -> bool
        ensures { IsTrue result ↔ IsSound self.now }
    {
        0 < self.least
            && self.least <= self.greatest
            && self.greatest <= LONGEST
            && self.granularity <= LONGEST
    }
}
