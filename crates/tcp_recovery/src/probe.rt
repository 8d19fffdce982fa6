ghost use Rattle.std.specs.Prelude.{◌≡◌, ◌≤◌, ◌^◌, IfSome};
ghost use Rattle.tcp_recovery.specs.Probe.{after_ack, after_loss, after_measurement, after_probe, after_start, end_after, has_repaired, new_probe, pto_of, without_probe};

/// TLP.max_ack_delay, in microseconds: so long a peer waits at most before it acknowledges one segment (RFC 8985, 7.2).
const MAX_ACK_DELAY: u64 = 200_000;

/// The probe timeout where SRTT isn't known, in microseconds: 1 s (RFC 8985, 7.2).
const FIRST_PTO: u64 = 1_000_000;

/// When the end of what is sent goes out once more, so that its loss is reported before the retransmission timeout
/// (tail loss probes: RFC 8985, 7).
#[derive(Clone, Copy, Debug, PartialEq, Eq)]
pub struct Probe {
    /// When the probe is sent, where one waits.
    pub at: Option<u64>,
    /// TLP.end_seq (RFC 8985, 7.1): SND.NXT, as a position, when a probe was sent that isn't acknowledged.
    pub end_seq: Option<u64>,
    /// TLP.is_retrans (RFC 8985, 7.1): whether it was sent again, and not new data.
    pub is_retrans: bool,
    /// Whether a round trip was measured since a probe was sent last, or where none was, at all (RFC 8985, 7.3).
    pub is_measured: bool,
}

impl Probe {
    /// No probe waits, none was sent, and no round trip was measured (RFC 8985, 7.1).
    pub fn new() -> Probe
        ensures { result ≡ new_probe }
    {
        Probe {
            at: None,
            end_seq: None,
            is_retrans: false,
            is_measured: false,
        }
    }

    /// Something was sent or acknowledged, or a probe is in doubt no more, while no block has reported anything of what
    /// is in flight and no loss is being repaired: a probe waits from now on (RFC 8985, 7.2, for connections with blocks).
    /// It waits for two round trips and, where one segment alone is in flight, for the peer's delay; but until `rto_at`
    /// at most, when the retransmission timer expires. None waits while one is out, or before a round trip was measured
    /// behind the last one. The standard asks these two when the time has come, and where one of them fails it starts
    /// the retransmission timer anew then (RFC 8985, 7.3). Here that timer runs on from where it was, and expires
    /// earlier (own). What the two wait for comes by an acknowledgement, behind which this is called. `now`, `srtt` and
    /// `rto_at` are in microseconds.
    pub fn start(&mut self, now: u64, srtt: Option<u64>, is_one: bool, rto_at: u64)
        requires now { now ≤ 2 ^ 62 }
        requires srtt { IfSome srtt (λ time. time ≤ 2 ^ 40) }
        ensures { self.new ≡ after_start self.old now srtt is_one rto_at }
    {
        if self.end_seq.is_some() || !self.is_measured {
            self.stop();
            return;
        }
        self.at = Some(rto_at.min(now + pto(srtt, is_one)));
    }

    /// Nothing is in flight, or blocks have been reported: no probe waits (RFC 8985, 7.2).
    pub fn stop(&mut self)
        ensures { self.new ≡ without_probe self.old }
    {
        self.at = None;
    }

    /// A loss is being repaired, or the retransmission timer has expired: no probe waits, and one that is out is
    /// forgotten (RFC 8985, 7.1).
    pub fn recovering(&mut self)
        ensures { self.new ≡ after_loss self.old }
    {
        *self = Probe {
            is_measured: self.is_measured,
            ..Probe::new()
        };
    }

    /// A round trip was measured, by an acknowledgement behind which [`Probe::start`] is still to be called: from now
    /// on a probe may wait (RFC 8985, 7.3).
    pub fn measured(&mut self)
        ensures { self.new ≡ after_measurement self.old }
    {
        self.is_measured = true;
    }

    /// When the probe is sent, in microseconds, if one waits (RFC 8985, 7.3).
    #[must_use]
    pub fn deadline(&self) -> Option<u64>
        ensures { result ≡ self.now.at }
    {
        let Probe { at, .. } = *self;
        at
    }

    /// The probe was sent, while SND.NXT is `snd_nxt` behind it: the last segment again, or new data (RFC 8985, 7.3).
    pub fn sent(&mut self, snd_nxt: u64, is_retrans: bool)
        ensures { self.new ≡ after_probe self.old snd_nxt is_retrans }
    {
        *self = Probe {
            at: None,
            end_seq: Some(snd_nxt),
            is_retrans,
            is_measured: false,
        };
    }

    /// An acknowledgement of all before `una` came. `both_came` says that it tells of two arrivals of what the probe
    /// sent again: it has a block of what came twice (D-SACK: RFC 2883, 4) that ends at TLP.end_seq, or it is a
    /// duplicate acknowledgement of TLP.end_seq without blocks. Returns whether the probe has repaired a loss, for
    /// which the window shrinks (RFC 8985, 7.4.2): never where both came.
    #[must_use]
    pub fn acked(&mut self, una: u64, both_came: bool) -> bool
        ensures repaired { result ≡ has_repaired self.old una both_came }
        ensures after { self.new ≡ after_ack self.old una both_came }
    {
        let Some(end) = self.end_seq else {
            return false;
        };
        if end < una || (end == una && (!self.is_retrans || both_came)) {
            self.end_seq = None;
        }
        self.is_retrans && !both_came && end < una
    }
}

/// PTO (RFC 8985, 7.2).
fn pto(srtt: Option<u64>, is_one: bool) -> u64
    requires { IfSome srtt (λ time. time ≤ 2 ^ 40) }
    ensures value { result ≡ pto_of srtt is_one }
    ensures most { result ≤ 2 ^ 42 }
{
    match srtt {
        None => FIRST_PTO,
        Some(srtt) if is_one => 2 * srtt + MAX_ACK_DELAY,
        Some(srtt) => 2 * srtt,
    }
}
