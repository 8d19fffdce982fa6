ghost use Rattle.std.specs.Prelude.{◌≡◌, ◌≤◌, ◌<◌, ◌*◌};

use crate::hystart::HyStart;
use std::marker::Model;

mod growing;

/// No segment is longer (RFC 9293, 3.7.1).
pub const MAX_SEGMENT: u64 = 65_535;

/// No window grows past this: 2^40 bytes.
pub const MAX_WINDOW: u64 = 1 << 40;

/// No limit of slow start is greater, in segments (RFC 9406, 4.2, where nothing is paced).
pub const MAX_LIMIT: u64 = 8;

/// The congestion window of one connection (RFC 5681, 3), with NewReno's recovery (RFC 6582) and limited transmit (RFC
/// 3042). Sizes are bytes; positions count from the SYN, which is at 0, in the direction of what is sent (RFC 9293, 3.4).
#[derive(Clone, Copy, Debug, PartialEq, Eq)]
pub struct Reno {
    smss: u16,
    limit: u8,
    duplicates: u8,
    is_recovering: bool,
    /// Losses are found by time in it.
    is_found: bool,
    is_timed_out: bool,
    cwnd: u64,
    ssthresh: u64,
    bytes_acked: u64,
    recover: u64,
    resent: u64,
    /// The first slow start.
    start: HyStart,
}

impl Model for Reno {
    ghost use Rattle.tcp_congestion.specs.Reno.{Window, IsWindow};

    ghost Value = { Window };

    ghost view = { λ r. record {
      smss = r.smss;
      limit = r.limit;
      cwnd = r.cwnd;
      ssthresh = r.ssthresh;
      bytes_acked = r.bytes_acked;
      recover = r.recover;
      is_recovering = r.is_recovering;
      is_found = r.is_found;
      is_timed_out = r.is_timed_out;
      duplicates = r.duplicates;
      resent = r.resent;
      start = r.start;
    } };

    ghost invariant = { λ r. IsWindow (record {
      smss = r.smss;
      limit = r.limit;
      cwnd = r.cwnd;
      ssthresh = r.ssthresh;
      bytes_acked = r.bytes_acked;
      recover = r.recover;
      is_recovering = r.is_recovering;
      is_found = r.is_found;
      is_timed_out = r.is_timed_out;
      duplicates = r.duplicates;
      resent = r.resent;
      start = r.start;
    }) };

    ghost inverse = { λ w. record {
      smss = w.smss;
      limit = w.limit;
      cwnd = w.cwnd;
      ssthresh = w.ssthresh;
      bytes_acked = w.bytes_acked;
      recover = w.recover;
      is_recovering = w.is_recovering;
      is_found = w.is_found;
      is_timed_out = w.is_timed_out;
      duplicates = w.duplicates;
      resent = w.resent;
      start = w.start;
    } };
}

impl Reno {
    ghost use Rattle.tcp_congestion.specs.Reno.{new_window, new_window_with, room_of, after_acknowledgement, after_agreement, after_delivery, after_finding, after_loss, with_pipe, after_report, after_second_loss, is_new_loss, is_partial, after_duplicate, begins_recovery, after_timeout, after_resent, may_resend, after_syn_resent, after_idle};
    ghost use Rattle.tcp_congestion.specs.Sizes.{max_limit, max_segment, max_window};

    /// The window of a connection that begins, with full segments of `smss` bytes as both SYNs agreed on them: IW (RFC
    /// 6928, 2). In slow start an acknowledgement counts for a segment at most (RFC 5681, 3.1).
    pub fn new(smss: u64) -> Reno
        requires least { 0 < smss }
        requires most { smss ≤ max_segment }
        ensures { result ≡ new_window smss }
    {
        Reno::with_limit(smss, 1)
    }

    /// The same where an acknowledgement counts for up to `limit` segments until a loss is found (RFC 3465, 2.2): 2 at most
    /// where nothing is paced, or 8 with what RFC 9406 has for slow start.
    pub fn with_limit(smss: u64, limit: u64) -> Reno
        requires least { 0 < smss }
        requires most { smss ≤ max_segment }
        requires counts { 0 < limit }
        requires limited { limit ≤ max_limit }
        ensures { result ≡ new_window_with smss limit }
    {
        Reno {
            smss: smss as u16,
            limit: limit as u8,
            cwnd: initial_window(smss),
            ssthresh: MAX_WINDOW,
            bytes_acked: 0,
            recover: 0,
            is_recovering: false,
            is_found: false,
            is_timed_out: false,
            duplicates: 0,
            resent: 0,
            start: HyStart::new(),
        }
    }

    /// The congestion window: at least one segment.
    #[must_use]
    pub fn cwnd(&self) -> u64
        ensures value { result ≡ self.now.cwnd }
        ensures least { self.now.smss ≤ result }
        ensures positive { 0 < result }
        ensures most { result ≤ max_window }
    {
        self.cwnd
    }

    /// The slow start threshold: at least two segments. Below it the window grows by slow start.
    #[must_use]
    pub fn ssthresh(&self) -> u64
        ensures value { result ≡ self.now.ssthresh }
        ensures least { 2 * self.now.smss ≤ result }
    {
        self.ssthresh
    }

    /// Whether fast recovery goes on: a loss was found by duplicates and isn't repaired yet (RFC 6582, 3.2).
    #[must_use]
    pub fn is_recovering(&self) -> bool
        ensures { result ≡ self.now.is_recovering }
    {
        self.is_recovering
    }

    /// How many bytes may be sent beside the `flight` bytes that aren't acknowledged, as far as the peer's window allows it
    /// as well. Where blocks are exchanged, what goes past `cwnd` is for duplicates with a new block (RFC 5681, 3.2, 1).
    #[must_use]
    pub fn room(&self, flight: u64) -> u64
        ensures { result ≡ room_of self.now flight }
    {
        (self.cwnd + self.limited()).saturating_sub(flight)
    }

    /// SND.UNA has moved on: all before `snd_una` is acknowledged, `acked` bytes of it by what has just come, and `flight`
    /// bytes aren't. Returns whether the first segment has to be sent again, because this is a partial acknowledgement (RFC
    /// 6582, 3.2, 3), and losses aren't found by time.
    #[must_use]
    pub fn acknowledged(&mut self, acked: u64, snd_una: u64, flight: u64) -> bool
        ensures again { result ≡ is_partial self.old snd_una }
        ensures after { self.new ≡ after_acknowledgement self.old acked snd_una flight }
    {
        let again = self.is_partial(snd_una);
        self.progress(acked);
        if self.is_recovering {
            self.recover(acked, snd_una, flight);
        } else {
            self.grow(acked, flight);
        }
        again
    }

    /// Blocks report `count` bytes more of what is in flight, and SND.UNA stays: they were delivered (RFC 6937, 2), so that the window
    /// grows as where so much is acknowledged, unless a recovery goes on. What [`acknowledged`](Reno::acknowledged) is told later is
    /// less by so much.
    pub fn delivered(&mut self, count: u64, flight: u64)
        ensures { self.new ≡ after_delivery self.old count flight }
    {
        if !self.is_recovering {
            self.grow(count, flight.saturating_sub(count));
        }
    }

    /// A duplicate acknowledgement has come (RFC 5681, 2), so that SND.UNA is still `snd_una`, while `flight` bytes are in
    /// flight, up to the position `snd_nxt`. Returns whether the first segment has to be sent again, because this is the third one and begins
    /// fast recovery (RFC 5681, 3.2; RFC 6582, 3.2, 2).
    #[must_use]
    pub fn duplicate(&mut self, snd_una: u64, flight: u64, snd_nxt: u64) -> bool
        ensures again { result ≡ begins_recovery self.old snd_una }
        ensures after { self.new ≡ after_duplicate self.old snd_una flight snd_nxt }
    {
        if self.begins_recovery(snd_una) {
            self.halve(flight);
            self.begin_recovery(3, snd_nxt);
            return true;
        }
        self.reported();
        false
    }

    /// A duplicate acknowledgement with a new block has come, where blocks say what is lost: it stands for a segment that has
    /// left the network, and no number of these is a loss, which [`lost`](Reno::lost) tells. So it takes the place of
    /// [`duplicate`](Reno::duplicate) where blocks are exchanged.
    pub fn reported(&mut self)
        ensures { self.new ≡ after_report self.old }
    {
        if self.is_recovering {
            self.cwnd = MAX_WINDOW.min(self.cwnd + self.smss());
        } else {
            self.duplicates = 3.min(self.duplicates + 1);
        }
    }

    /// Blocks or a probe have found a loss, while `flight` bytes were in flight, from the position `snd_una` up to `snd_nxt`.
    /// Returns whether it shrinks the window, which one loss does for all that is in flight (RFC 5681, 4.3).
    pub fn lost(&mut self, snd_una: u64, flight: u64, snd_nxt: u64) -> bool
        ensures shrinks { result ≡ is_new_loss self.old snd_una }
        ensures after { self.new ≡ after_loss self.old snd_una flight snd_nxt }
    {
        if !self.is_new_loss(snd_una) {
            return false;
        }
        self.halve(flight);
        self.begin_recovery(self.duplicates(), snd_nxt);
        true
    }

    /// Losses are found by time in the recovery that goes on (RFC 8985), and what is lost goes out again by that alone.
    pub fn finds_by_time(&mut self)
        ensures { self.new ≡ after_finding self.old }
    {
        self.is_found = true;
    }

    /// Blocks report `reported` bytes of what is in flight: in a recovery these have left the network, and the window is ssthresh
    /// and as much, so that as many as ssthresh are under way (RFC 6675, 4 and 5). Nothing changes where they report nothing, unless
    /// losses are found by time: then what is lost is known by that, and else by acknowledgements alone (RFC 6582).
    pub fn keep_pipe(&mut self, reported: u64)
        ensures { self.new ≡ with_pipe self.old reported }
    {
        if self.is_recovering && (self.is_found || reported > 0) {
            self.cwnd = MAX_WINDOW.min(self.ssthresh + reported.min(MAX_WINDOW));
        }
    }

    /// What was sent again since the last loss was lost again: the window and ssthresh are lowered once more (RFC 5681, 4.3), by half
    /// of ssthresh, or of the window where that is less. A recovery goes on.
    pub fn lost_again(&mut self)
        ensures { self.new ≡ after_second_loss self.old }
    {
        self.lower(self.base() / 2);
    }

    /// The retransmission timer has expired while `flight` bytes were in flight, up to the position `snd_nxt` (RFC 5681,
    /// 3.1; RFC 6582, 3.2, 4). A timer that probes a shut window says nothing of the path (RFC 9293, 3.8.6.1): then it isn't
    /// called.
    pub fn timed_out(&mut self, flight: u64, snd_nxt: u64)
        ensures { self.new ≡ after_timeout self.old flight snd_nxt }
    {
        if !self.is_timed_out {
            let before = self.ssthresh;
            self.halve(flight);
            self.no_higher(before);
        }
        self.restart(snd_nxt);
    }

    /// Whether what a loss concerns may be sent again now, a segment of it: no more than a window of it is in flight (RFC
    /// 5681, 3.1). After a timeout that is one segment first.
    #[must_use]
    pub fn may_resend(&self) -> bool
        ensures { result ≡ may_resend self.now }
    {
        self.resent < self.cwnd
    }

    /// A segment with `count` bytes was sent again.
    pub fn resent(&mut self, count: u64)
        ensures { self.new ≡ after_resent self.old count }
    {
        self.resent = MAX_WINDOW.min(self.resent + count.min(MAX_WINDOW));
    }

    /// The handshake is over, and its SYN was lost (RFC 5681, 3.1). RFC 6928, 2, recommends to call it only where the SYN was
    /// sent again more than once.
    pub fn syn_was_resent(&mut self)
        ensures { self.new ≡ after_syn_resent self.old }
    {
        self.cwnd = self.smss();
    }

    /// Both SYNs have agreed on full segments of `smss` bytes: the window begins with them as [`Reno::with_limit`] has it, or with
    /// one where a SYN was lost before (RFC 6928, 2; RFC 5681, 3.1).
    pub fn agreed(&mut self, smss: u64)
        requires least { 0 < smss }
        requires most { smss ≤ max_segment }
        ensures { self.new ≡ after_agreement self.old smss }
    {
        let was_lost = self.cwnd == self.smss();
        *self = Reno::with_limit(smss, u64::from(self.limit));
        if was_lost {
            self.cwnd = smss;
        }
    }

    /// Data are sent again after nothing was sent for longer than the timeout (RFC 5681, 4.1): the window is the initial one
    /// at most, and what was acknowledged before doesn't let it grow.
    pub fn was_idle(&mut self)
        ensures { self.new ≡ after_idle self.old }
    {
        self.cwnd = initial_window(self.smss()).min(self.cwnd);
        self.bytes_acked = 0;
    }
}

// What CUBIC's window does as well.
impl Reno {
    ghost use Rattle.tcp_congestion.specs.Reno.{after_recovering, base_of, begins_recovery, begun, deflated, is_new_loss, is_partial, is_used, lowered, recovered, restarted, with_progress};
    ghost use Rattle.tcp_congestion.specs.Sizes.{max_threshold, max_window};

    /// SMSS.
    pub(crate) fn smss(&self) -> u64
        ensures value { result ≡ self.now.smss }
        ensures least { 0 < result }
        ensures most { result ≤ max_segment }
    {
        u64::from(self.smss)
    }

    /// Whether the timer has expired, and nothing was acknowledged since.
    pub(crate) fn is_timed_out(&self) -> bool
        ensures { result ≡ self.now.is_timed_out }
    {
        self.is_timed_out
    }

    /// How many duplicates came in a row, of which three count.
    pub(crate) fn duplicates(&self) -> u64
        ensures value { result ≡ self.now.duplicates }
        ensures few { result ≤ 3 }
    {
        u64::from(self.duplicates)
    }

    /// Whether an acknowledgement of all before `snd_una` is a partial one, where losses aren't found by time (RFC 6582, 3.2, 3).
    pub(crate) fn is_partial(&self, snd_una: u64) -> bool
        ensures { result ≡ is_partial self.now snd_una }
    {
        self.is_recovering && !self.is_found && snd_una < self.recover
    }

    /// Whether one more duplicate is the third one, which begins fast recovery (RFC 6582, 3.2, 2).
    pub(crate) fn begins_recovery(&self, snd_una: u64) -> bool
        ensures { result ≡ begins_recovery self.now snd_una }
    {
        !self.is_recovering && self.duplicates == 2 && self.recover < snd_una
    }

    /// Whether a loss is the first of a window of data (RFC 5681, 4.3).
    pub(crate) fn is_new_loss(&self, snd_una: u64) -> bool
        ensures { result ≡ is_new_loss self.now snd_una }
    {
        !self.is_recovering && self.recover <= snd_una
    }

    /// Whether half of the window was in use (RFC 7661, 4.3).
    pub(crate) fn is_used(&self, acked: u64, flight: u64) -> bool
        ensures { result ≡ is_used self.now acked flight }
    {
        self.cwnd <= 2 * (acked.min(MAX_WINDOW) + flight.min(MAX_WINDOW))
    }

    /// Something was acknowledged.
    pub(crate) fn progress(&mut self, acked: u64)
        ensures { self.new ≡ with_progress self.old acked }
    {
        self.is_timed_out = false;
        self.duplicates = 0;
        self.resent = self.resent.saturating_sub(acked);
    }

    /// The window is so large.
    pub(crate) fn set_cwnd(&mut self, cwnd: u64)
        requires least { self.old.smss ≤ cwnd }
        requires most { cwnd ≤ max_window }
        ensures { self.new ≡ record self.old { cwnd = cwnd } }
    {
        self.cwnd = cwnd;
    }

    /// The slow start threshold is so high.
    pub(crate) fn set_ssthresh(&mut self, ssthresh: u64)
        requires least { 2 * self.old.smss ≤ ssthresh }
        requires most { ssthresh ≤ max_window }
        ensures { self.new ≡ record self.old { ssthresh = ssthresh } }
    {
        self.ssthresh = ssthresh;
    }

    /// Recovery begins (RFC 5681, 3.2, 3; RFC 6582, 3.2, 2), when so many segments are known to have left the network.
    pub(crate) fn begin_recovery(&mut self, left: u64, snd_nxt: u64)
        requires few { left ≤ 3 }
        requires low { self.old.ssthresh ≤ max_threshold }
        ensures { self.new ≡ begun self.old left snd_nxt }
    {
        self.cwnd = self.ssthresh + left * self.smss();
        self.bytes_acked = 0;
        self.recover = snd_nxt;
        self.is_recovering = true;
        self.is_found = false;
        self.duplicates = 0;
        self.resent = 0;
    }

    /// What is lowered where what was sent again is lost again.
    pub(crate) fn base(&self) -> u64
        ensures value { result ≡ base_of self.now }
        ensures most { result ≤ max_window }
    {
        self.cwnd.min(self.ssthresh)
    }

    /// The window and ssthresh are lowered, to so much but for what was let out beyond it (RFC 5681, 4.3).
    pub(crate) fn lower(&mut self, least: u64)
        requires { least ≤ max_window }
        ensures { self.new ≡ lowered self.old least }
    {
        let base = self.base();
        self.ssthresh = least.max(2 * self.smss());
        self.cwnd = self
            .smss()
            .max(self.cwnd - base.saturating_sub(self.ssthresh));
        self.bytes_acked = 0;
    }

    /// Recovery goes on or ends (RFC 6582, 3.2, 3).
    pub(crate) fn recover(&mut self, acked: u64, snd_una: u64, flight: u64)
        ensures { self.new ≡ after_recovering self.old acked snd_una flight }
    {
        if snd_una < self.recover {
            self.deflate(acked);
        } else {
            self.end_recovery(flight);
        }
    }

    /// A partial acknowledgement (RFC 6582, 3.2, 3): the window shrinks by what it acknowledges, less a segment.
    fn deflate(&mut self, acked: u64)
        ensures { self.new ≡ deflated self.old acked }
    {
        let smss = self.smss();
        let added_back = if smss <= acked { smss } else { 0 };
        self.cwnd = smss.max(self.cwnd.saturating_sub(acked) + added_back);
    }

    /// A full one (RFC 6582, 3.2, 3).
    fn end_recovery(&mut self, flight: u64)
        ensures { self.new ≡ recovered self.old flight }
    {
        let smss = self.smss();
        let needed = flight.min(MAX_WINDOW).max(smss) + smss;
        self.cwnd = self.ssthresh.min(needed);
        self.bytes_acked = 0;
        self.is_recovering = false;
    }

    /// The window begins again with a segment (RFC 5681, 3.1; RFC 6582, 3.2, 4).
    pub(crate) fn restart(&mut self, snd_nxt: u64)
        ensures { self.new ≡ restarted self.old snd_nxt }
    {
        self.cwnd = self.smss();
        self.bytes_acked = 0;
        self.recover = snd_nxt;
        self.is_recovering = false;
        self.is_timed_out = true;
        self.duplicates = 0;
        self.resent = 0;
    }
}

ghost use Rattle.tcp_congestion.specs.Reno.{initial_window};
ghost use Rattle.tcp_congestion.specs.Sizes.{max_segment};

/// IW (RFC 6928, 2).
fn initial_window(smss: u64) -> u64
    requires { smss ≤ max_segment }
    ensures { result ≡ initial_window smss }
{
    (10 * smss).min((2 * smss).max(14_600))
}
