ghost use Rattle.std.specs.Prelude.{◌≡◌};
ghost use Rattle.tcp_keep_alive.specs.Rules.{bounded, usual_rules};

/// No time of the rules counts as shorter, in microseconds: 1 s, the least time in which a missing answer says anything (RFC
/// 6298, 2.4).
pub const LEAST_TIME: u64 = 1_000_000;

/// No peer is given up with fewer keep-alives unanswered: one of them may be lost, since nothing sends it again, and that
/// isn't a dead connection (RFC 9293, 3.8.4).
pub const LEAST_UNANSWERED: u32 = 2;

/// When a silent peer is asked, and when it is given up. Times are in microseconds.
#[derive(Clone, Copy, Debug, PartialEq, Eq)]
pub struct KeepAliveRules {
    /// The peer is asked where nothing was heard of it for so long: 2 hours or more, unless a user chooses less (RFC 9293,
    /// 3.8.4). Less than [`LEAST_TIME`] counts as that.
    pub idle: u64,
    /// It is asked again after each so long. Less than [`LEAST_TIME`] counts as that.
    pub interval: u64,
    /// With so many keep-alives unanswered it is given up, an interval after the last. Less than [`LEAST_UNANSWERED`] counts
    /// as that.
    pub most: u32,
}

impl KeepAliveRules {
    /// Two hours, the least that the standard has where nothing else is chosen (RFC 9293, 3.8.4), and by custom nine
    /// keep-alives, 75 seconds apart.
    pub fn usual() -> KeepAliveRules
        ensures { result ≡ usual_rules }
    {
        KeepAliveRules {
            idle: 7_200_000_000,
            interval: 75_000_000,
            most: 9,
        }
    }

    /// The rules as they count: no time is shorter than [`LEAST_TIME`], and `most` is at least [`LEAST_UNANSWERED`].
    #[must_use]
    pub fn bounded(self) -> KeepAliveRules
        ensures { result ≡ bounded self }
    {
        KeepAliveRules {
            idle: self.idle.max(LEAST_TIME),
            interval: self.interval.max(LEAST_TIME),
            most: self.most.max(LEAST_UNANSWERED),
        }
    }
}
