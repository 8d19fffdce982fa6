ghost use Rattle.std.specs.Prelude.{◌≡◌};
ghost use Rattle.tcp_driver.specs.Limits.{standard};

/// How long an end waits, in microseconds, and how far its guard reaches.
#[derive(Clone, Copy, Debug, PartialEq, Eq)]
pub struct Limits {
    /// How long TIME-WAIT is: two maximum segment lifetimes (RFC 9293, 3.4.2).
    pub time_wait: u64,
    /// After so many expiries of the retransmission timer without an answer the path is suspect, and before them no end is
    /// given up: 3 or more (RFC 9293, 3.8.3).
    pub suspect_after: u32,
    /// How long a SYN may be without an answer: 3 minutes or more (RFC 9293, 3.8.3). `None` is forever.
    pub handshake: Option<u64>,
    /// The user timeout: how long all else may be, 100 s or more (RFC 9293, 3.8.3). `None` is forever.
    pub user: Option<u64>,
    /// How long FIN-WAIT-2 may last without anything of the peer's: text or a FIN, again or not, or a window. It doesn't count
    /// while something that came is unread. `None` is forever, as the standard has it; a program whose user has nothing more
    /// to wait for may take a minute, as Linux does.
    pub fin_wait_2: Option<u64>,
    /// The guard against segments of somebody who sees nothing of a connection (RFC 5961, 5.2): how many numbers behind SND.UNA
    /// the acknowledgement of a segment may lie that is taken, and while the window is shut how many behind RCV.NXT its own
    /// number may. It has to be two of the greatest windows or more, else what the peer sent may be kept out. `None` is no
    /// guard, as RFC 9293 has it.
    pub guard: Option<u32>,
    /// Whether what the peer's blocks pass over is given a whole timeout before it counts as lost, and not a round trip: for a caller
    /// that finds losses by time, and has what is lost sent again by [`Driver::resend`](crate::Driver::resend) (RFC 8985).
    pub is_patient: bool,
}

impl Limits {
    /// The values of RFC 9293: 4 minutes of TIME-WAIT, 3 expiries, 3 minutes for a SYN, a user timeout of 5 minutes (3.4.2,
    /// 3.8.3 and 3.9.1.1), and FIN-WAIT-2 without a limit; a guard of two of the greatest windows, 2^20 bytes each; and a round
    /// trip for what blocks pass over.
    pub fn standard() -> Limits
        ensures { result ≡ standard }
    {
        Limits {
            time_wait: 240_000_000,
            suspect_after: 3,
            handshake: Some(180_000_000),
            user: Some(300_000_000),
            fin_wait_2: None,
            guard: Some(1 << 21),
            is_patient: false,
        }
    }
}
