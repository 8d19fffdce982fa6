ghost use Rattle.std.specs.Prelude.{◌≡◌};
ghost use Rattle.tcp_congestion.specs.Limiter.{after_granted, is_granted, new_limiter};

/// One answer in an interval (RFC 5961, 7), in microseconds.
#[derive(Clone, Copy, Debug, PartialEq, Eq)]
pub struct Limiter {
    /// After an answer so long no other one is granted; 0: there is no limit.
    pub interval: u64,
    /// When an answer was granted last.
    pub last: Option<u64>,
}

impl Limiter {
    /// Nothing was answered yet.
    pub fn new(interval: u64) -> Limiter
        ensures { result ≡ new_limiter interval }
    {
        Limiter {
            interval,
            last: None,
        }
    }

    /// Whether an answer may be sent now; where it may, it counts as sent.
    #[must_use]
    pub fn grant(&mut self, now: u64) -> bool
        ensures granted { result ≡ is_granted self.old now }
        ensures after { self.new ≡ after_granted self.old now }
    {
        match self.last {
            Some(last) if now < last || now - last < self.interval => false,
            _ => {
                self.last = Some(now);
                true
            }
        }
    }
}
