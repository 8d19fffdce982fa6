ghost use Rattle.std.specs.Prelude.{◌≡◌};
ghost use Rattle.tcp_pacing.specs.Pace.{burst, cwnd_of, gain, interval, portion, rate_bytes, rate_time, smss_of, srtt_of};

/// No segment is longer (RFC 9293, 3.7.1).
pub const MAX_SEGMENT: u64 = 65_535;

/// No window counts as greater: 2^40 bytes.
pub const MAX_WINDOW: u64 = 1 << 40;

/// No round trip counts as longer, in microseconds: 2^40, some 12 days.
pub const MAX_SRTT: u64 = 1 << 40;

/// A portion is as many whole segments as go out in so long, in microseconds: a millisecond. It is as many as cwnd has, up to
/// [`INITIAL_WINDOW`], where those are more, and two at least.
pub const PERIOD: u64 = 1_000;

/// The initial window (RFC 6928, 2), to which bursts are limited (RFC 9002, 7.7), in segments, however long these are.
pub const INITIAL_WINDOW: u64 = 10;

/// How fast new text goes out: by N * cwnd / srtt, where N is 2 in slow start, in which the window may double in a round trip,
/// and else 5/4, so that no window is left unused where round trips vary (RFC 9002, 7.7). Any values will do.
#[derive(Clone, Copy, Debug, PartialEq, Eq)]
pub struct Pace {
    /// The congestion window in bytes. It counts as a segment at least, and as [`MAX_WINDOW`] at most.
    pub cwnd: u64,
    /// The length of a full segment's text in bytes. It counts as 1 at least, and as [`MAX_SEGMENT`] at most.
    pub smss: u64,
    /// The smoothed round-trip time in microseconds (RFC 6298, 2), 0 where none is measured, or it is less than one: then
    /// nothing waits. It counts as [`MAX_SRTT`] at most.
    pub srtt: u64,
    /// Whether cwnd grows by slow start (RFC 5681, 3.1).
    pub is_slow_start: bool,
}

impl Pace {
    fn smss(self) -> u64
        ensures { result ≡ smss_of self }
    {
        self.smss.min(MAX_SEGMENT).max(1)
    }

    fn cwnd(self) -> u64
        ensures { result ≡ cwnd_of self }
    {
        self.cwnd.min(MAX_WINDOW).max(self.smss())
    }

    fn srtt(self) -> u64
        ensures { result ≡ srtt_of self }
    {
        self.srtt.min(MAX_SRTT).max(1)
    }

    /// N, in quarters.
    fn gain(self) -> u64
        ensures { result ≡ gain self }
    {
        if self.is_slow_start { 8 } else { 5 }
    }

    /// The rate is so many bytes in [`rate_time`](Self::rate_time).
    fn rate_bytes(self) -> u64
        ensures { result ≡ rate_bytes self }
    {
        self.gain() * self.cwnd()
    }

    fn rate_time(self) -> u64
        ensures { result ≡ rate_time self }
    {
        4 * self.srtt()
    }

    /// How many segments may go out at once at any rate: as many as cwnd has, up to [`INITIAL_WINDOW`].
    fn burst(self) -> u64
        ensures { result ≡ burst self }
    {
        INITIAL_WINDOW.min(self.cwnd() / self.smss())
    }

    /// How many bytes may go out at once: as many whole segments as go out in [`PERIOD`] at the rate, or a
    /// [`burst`](Self::burst) where that is more, and two at least.
    pub(crate) fn portion(self) -> u64
        ensures { result ≡ portion self }
    {
        let smss = self.smss();
        let segments = self.rate_bytes() * PERIOD / (self.rate_time() * smss);
        smss * segments.max(self.burst()).max(2)
    }

    /// How long a portion takes at the rate, in microseconds, rounded up.
    pub(crate) fn interval(self) -> u64
        ensures { result ≡ interval self }
    {
        (self.portion() * self.rate_time()).div_ceil(self.rate_bytes())
    }
}
