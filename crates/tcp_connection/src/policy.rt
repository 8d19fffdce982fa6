ghost use Rattle.std.specs.Prelude.{◌≡◌, ◌<◌, ◌≤◌};
ghost use Rattle.tcp_congestion.specs.DelayedAck.{max_delay};
ghost use Rattle.tcp_congestion.specs.Sizes.{max_segment};
ghost use Rattle.tcp_connection.specs.Policy.{holds_any, delay_of, no_ack, immediate, no_text, standard, timeout_of};

use tcp_congestion::{DELAY, DelayedAck, MAX_DELAY, OVERRIDE, SwsAvoidance};

/// What waits, and how long, in microseconds. Any values are sound.
#[derive(Clone, Copy, Debug, PartialEq, Eq)]
pub struct Policy {
    /// How long an acknowledgement of text waits for a second full segment (RFC 9293, 3.8.6.3; RFC 5681, 4.2): less than 500 ms,
    /// and 499,999 µs where more is asked for. With 0 none waits.
    pub ack_delay: u64,
    /// Whether text that doesn't fill a segment waits while anything is in flight: the Nagle algorithm (RFC 9293, 3.7.4). It
    /// counts only where `override_timeout` is set.
    pub is_nagle: bool,
    /// The override timeout, 0.1 to 1 s, and at least 1 µs (RFC 9293, 3.8.6.2.1): so long text that isn't worth a segment
    /// waits, counted from when only its size holds it back, and anew behind whatever else goes out; and silly windows are
    /// avoided on both sides. `None`: text never waits, and a window that a read has opened is advertised only where it was
    /// shut, or the user asks for it.
    pub override_timeout: Option<u64>,
    /// Of the acknowledgements that only answer segments without text and FIN, or a SYN in a synchronized state (RFC 9293,
    /// 3.10.7.4, fourth), one goes out in so long (RFC 5961, 7). With 0 all do.
    pub answer_interval: u64,
}

impl Policy {
    /// Nothing waits, and all is answered.
    pub fn immediate() -> Policy
        ensures { result ≡ immediate }
    {
        Policy {
            ack_delay: 0,
            is_nagle: false,
            override_timeout: None,
            answer_interval: 0,
        }
    }

    /// An acknowledgement waits for 40 ms, and text that isn't worth a segment for 0.5 s, with the Nagle algorithm; what brings
    /// nothing is answered once in 0.5 s.
    pub fn standard() -> Policy
        ensures { result ≡ standard }
    {
        Policy {
            ack_delay: DELAY,
            is_nagle: true,
            override_timeout: Some(OVERRIDE),
            answer_interval: 500_000,
        }
    }

    /// Whether anything waits, or isn't answered.
    #[must_use]
    pub fn holds_any(&self) -> bool
        ensures { result ≡ holds_any self.now }
    {
        0 < self.ack_delay || self.override_timeout.is_some() || 0 < self.answer_interval
    }

    /// How long an acknowledgement waits.
    fn delay(&self) -> u64
        ensures value { result ≡ delay_of self.now }
        ensures short { result < max_delay }
    {
        self.ack_delay.min(MAX_DELAY - 1)
    }

    /// How long text waits at most.
    fn timeout(&self) -> u64
        ensures { result ≡ timeout_of self.now }
    {
        self.override_timeout.unwrap_or(1).max(1)
    }

    /// No acknowledgement waits yet, of full segments of so many bytes.
    pub(crate) fn no_ack(&self, smss: u64) -> DelayedAck
        requires least { 0 < smss }
        requires most { smss ≤ max_segment }
        ensures { result ≡ no_ack self.now smss }
    {
        DelayedAck::new(smss, self.delay())
    }

    /// No text waits yet.
    pub(crate) fn no_text(&self, smss: u64) -> SwsAvoidance
        requires least { 0 < smss }
        requires most { smss ≤ max_segment }
        ensures { result ≡ no_text self.now smss }
    {
        SwsAvoidance::new(smss, self.is_nagle, self.timeout())
    }
}
