ghost use Rattle.std.specs.Prelude.{◌≡◌};
ghost use Rattle.tcp_driver.specs.Deadlines.{earlier};
ghost use Rattle.tcp_repair.specs.Trips.{after_long_trip, after_span, after_trip, least_of, no_long_trip, no_trips};

/// How long a span is, in microseconds: 300 s, the project's own choice.
const SPAN: u64 = 300_000_000;

/// The least round trip of late: RACK.min_RTT (RFC 8985, 6.2, step 1). It is that of two spans of 300 s, the one that has begun last
/// and the one before it, so that a path that has become longer is known as such after ten minutes: the project's own choice.
/// All is in microseconds.
#[derive(Clone, Copy, Debug, PartialEq, Eq)]
pub struct LeastTrip {
    /// The least of the span that has begun last, if one was measured in it.
    pub least: Option<u64>,
    /// The least of the span before it.
    pub before: Option<u64>,
    /// When the last span has begun.
    pub since: u64,
}

impl LeastTrip {
    /// None was measured yet.
    pub fn new() -> LeastTrip
        ensures { result ≡ no_trips }
    {
        LeastTrip {
            least: None,
            before: None,
            since: 0,
        }
    }

    /// A round trip was measured.
    pub fn measured(&mut self, trip: u64, now: u64)
        ensures { self.new ≡ after_trip self.old trip now }
    {
        let spanned = self.after_span(now);
        *self = LeastTrip {
            least: earlier(spanned.least, Some(trip)),
            ..spanned
        };
    }

    /// Another span begins where the last one is over.
    fn after_span(self, now: u64) -> LeastTrip
        ensures { result ≡ after_span self now }
    {
        let since = now.saturating_sub(self.since);
        if since < SPAN {
            return self;
        }
        LeastTrip {
            least: None,
            before: if since < 2 * SPAN { self.least } else { None },
            since: now,
        }
    }

    /// The least of both spans, if any was measured in them.
    #[must_use]
    pub fn least(&self) -> Option<u64>
        ensures { result ≡ least_of self.now }
    {
        let LeastTrip { least, before, .. } = *self;
        earlier(least, before)
    }
}

/// The longest round trip of late, the project's own: it stays for as long as it took, unless one that is no shorter comes, and then the
/// next one that is measured takes its place. Where round trips have just become shorter, since a queue has drained, what was sent before
/// may still take so long. All is in microseconds.
#[derive(Clone, Copy, Debug, PartialEq, Eq)]
pub struct LongestTrip {
    /// How long it took: 0 before one was measured.
    pub trip: u64,
    /// When it was measured.
    pub at: u64,
}

impl LongestTrip {
    /// None was measured yet.
    pub fn new() -> LongestTrip
        ensures { result ≡ no_long_trip }
    {
        LongestTrip { trip: 0, at: 0 }
    }

    /// A round trip was measured.
    pub fn measured(&mut self, trip: u64, now: u64)
        ensures { self.new ≡ after_long_trip self.old trip now }
    {
        if self.trip <= trip || self.trip < now.saturating_sub(self.at) {
            *self = LongestTrip { trip, at: now };
        }
    }
}

/// The lesser of two numbers, or the one that there is: the earlier of two times.
pub(crate) fn earlier(one: Option<u64>, other: Option<u64>) -> Option<u64>
    ensures { result ≡ earlier one other }
{
    match (one, other) {
        (Some(one), Some(other)) => Some(one.min(other)),
        (None, time) | (time, None) => time,
    }
}
