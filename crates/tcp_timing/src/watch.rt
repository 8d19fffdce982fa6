ghost use Rattle.std.specs.Prelude.{◌≡◌, ◌<◌, ◌+◌, ◌^◌};
ghost use Rattle.tcp_timing.specs.Watch.{after_acked, after_sent, new_watch, sample_of};

/// The segment that is being timed: when it is acknowledged a round trip ends.
#[derive(Clone, Copy, Debug, PartialEq, Eq)]
pub struct Timed {
    /// The position after it.
    pub end: u64,
    /// When it was sent.
    pub at: u64,
}

/// Times one segment at a time, and none that was sent again (Karn's algorithm: RFC 6298, 3). A position counts from the
/// SYN, which is at 0, in the direction of what is sent (RFC 9293, 3.4); a time is a count of microseconds.
#[derive(Clone, Copy, Debug, PartialEq, Eq)]
pub struct Watch {
    /// The position after all that was sent.
    pub highest: u64,
    /// The segment that is being timed.
    pub timed: Option<Timed>,
}

impl Watch {
    /// Nothing was sent yet.
    pub fn new() -> Watch
        ensures { result ≡ new_watch }
    {
        Watch {
            highest: 0,
            timed: None,
        }
    }

    /// A segment was sent that begins at `start` and takes `count` numbers, its SYN and FIN counted (RFC 9293, 3.4). Where
    /// it is new and nothing is being timed it is timed; where it is sent again nothing is timed any more.
    pub fn sent(&mut self, start: u64, count: u64, now: u64)
        requires { start + count < 2 ^ 64 }
        ensures { self.new ≡ after_sent self.old start count now }
    {
        if count == 0 {
            return;
        }
        if start < self.highest {
            self.timed = None;
        } else if self.timed.is_none() {
            self.timed = Some(Timed {
                end: start + count,
                at: now,
            });
        }
        self.highest = self.highest.max(start + count);
    }

    /// All before `una` is acknowledged now. Returns the round trip in microseconds, where the segment that was timed is
    /// acknowledged by it; a clock that went back since makes that 0.
    #[must_use]
    pub fn acked(&mut self, una: u64, now: u64) -> Option<u64>
        ensures sample { result ≡ sample_of self.old una now }
        ensures after { self.new ≡ after_acked self.old una }
    {
        match self.timed {
            Some(timed) if timed.end <= una => {
                self.timed = None;
                Some(now.saturating_sub(timed.at))
            }
            _ => None,
        }
    }
}
