ghost use Rattle.std.specs.Prelude.{◌≡◌, ◌≤◌};
ghost use Rattle.tcp_timing.specs.RoundTrip.{first_trip, next_trip};
ghost use Rattle.tcp_timing.specs.Rules.{longest};

/// What is known of the round-trip time, in microseconds (RFC 6298, 2).
#[derive(Clone, Copy, Debug, PartialEq, Eq)]
pub struct RoundTrip {
    /// SRTT, the smoothed round-trip time.
    pub srtt: u64,
    /// RTTVAR, how much it varies.
    pub rttvar: u64,
}

impl RoundTrip {
    /// After the first measurement (RFC 6298, 2.2).
    pub fn first(rtt: u64) -> RoundTrip
        ensures { result ≡ first_trip rtt }
    {
        RoundTrip {
            srtt: rtt,
            rttvar: rtt / 2,
        }
    }

    /// After one more (RFC 6298, 2.3). No sum overflows, because all three are 2^40 us at most.
    pub fn next(self, rtt: u64) -> RoundTrip
        requires srtt { self.srtt ≤ longest }
        requires rttvar { self.rttvar ≤ longest }
        requires rtt { rtt ≤ longest }
        ensures { result ≡ next_trip self rtt }
    {
        let distance = self.srtt.abs_diff(rtt);
        RoundTrip {
            srtt: (7 * self.srtt + rtt) / 8,
            rttvar: (3 * self.rttvar + distance) / 4,
        }
    }
}
