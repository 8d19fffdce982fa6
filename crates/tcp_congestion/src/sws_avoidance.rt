ghost use Rattle.std.specs.Prelude.{◌≡◌, ◌≤◌, ◌<◌};

use std::marker::Model;

/// How long data wait for a fuller segment at most, in microseconds, where nothing else is chosen: 0.5 s, of the 0.1 s to
/// 1 s that RFC 9293, 3.8.6.2.1, has.
pub const OVERRIDE: u64 = 500_000;

/// When data are sent (RFC 9293, 3.8.6.2.1): no silly window is filled, and with the Nagle algorithm (3.7.4) no segment that
/// isn't full goes out while anything is in flight. Sizes are bytes, and times are counts of microseconds.
#[derive(Clone, Copy, Debug, PartialEq, Eq)]
pub struct SwsAvoidance {
    mss: u64,
    is_nagle: bool,
    timeout: u64,
    max_wnd: u64,
    since: Option<u64>,
}

impl Model for SwsAvoidance {
    ghost use Rattle.tcp_congestion.specs.SwsAvoidance.{Sender, IsSender};

    ghost Value = { Sender };

    ghost view = { λ s. record { mss = s.mss; is_nagle = s.is_nagle; timeout = s.timeout; max_wnd = s.max_wnd; since = s.since } };

    ghost invariant = { λ s. IsSender (record { mss = s.mss; is_nagle = s.is_nagle; timeout = s.timeout; max_wnd = s.max_wnd; since = s.since }) };

    ghost inverse = { λ s. record { mss = s.mss; is_nagle = s.is_nagle; timeout = s.timeout; max_wnd = s.max_wnd; since = s.since } };
}

impl SwsAvoidance {
    ghost use Rattle.tcp_congestion.specs.SwsAvoidance.{after_asked, after_window, deadline_by, length_of, new_sender};
    ghost use Rattle.tcp_congestion.specs.Sizes.{max_segment};

    /// Nothing waits. A full segment has `mss` bytes of text (Eff.snd.MSS: RFC 9293, 3.7.1); `timeout` is the override
    /// timeout, as [`OVERRIDE`].
    pub fn new(mss: u64, is_nagle: bool, timeout: u64) -> SwsAvoidance
        requires least { 0 < mss }
        requires most { mss ≤ max_segment }
        ensures { result ≡ new_sender mss is_nagle timeout }
    {
        SwsAvoidance {
            mss,
            is_nagle,
            timeout,
            max_wnd: 0,
            since: None,
        }
    }

    /// The peer has advertised this window: SND.WND.
    pub fn window(&mut self, snd_wnd: u64)
        ensures { self.new ≡ after_window self.old snd_wnd }
    {
        self.max_wnd = self.max_wnd.max(snd_wnd);
    }

    /// How long the next segment is: of `queued` bytes that weren't sent, with room for `usable` in the window, SND.UNA +
    /// SND.WND - SND.NXT or what the congestion window leaves of it, while `flight` bytes aren't acknowledged. 0: nothing can
    /// be sent, or what can waits for more.
    #[must_use]
    pub fn next_segment(&mut self, queued: u64, usable: u64, flight: u64, now: u64) -> u64
        ensures length { result ≡ length_of self.old queued usable flight now }
        ensures after { self.new ≡ after_asked self.old queued usable flight now }
    {
        let sendable = queued.min(usable);
        if self.mss <= sendable
            || self.is_worth(queued, usable, flight)
            || self.is_overridden(now)
        {
            self.since = None;
            return self.mss.min(sendable);
        }
        if sendable == 0 {
            self.since = None;
        } else if self.since.is_none() {
            self.since = Some(now);
        }
        0
    }

    /// When what waits is sent in any case, if anything waits.
    #[must_use]
    pub fn deadline(&self) -> Option<u64>
        ensures { result ≡ deadline_by self.now.since self.now.timeout }
    {
        match self.since {
            Some(since) => Some(since.saturating_add(self.timeout)),
            None => None,
        }
    }

    ghost use Rattle.tcp_congestion.specs.SwsAvoidance.{is_overridden, is_worth};

    /// Whether a segment that isn't full is worth its header now.
    fn is_worth(&self, queued: u64, usable: u64, flight: u64) -> bool
        ensures { result ≡ is_worth self.now queued usable flight }
    {
        if self.is_nagle && flight > 0 {
            return false;
        }
        queued <= usable || self.max_wnd.div_ceil(2) <= queued.min(usable)
    }

    /// Whether the override timeout has passed.
    fn is_overridden(&self, now: u64) -> bool
        ensures { result ≡ is_overridden self.now.since self.now.timeout now }
    {
        match self.since {
            Some(since) => since <= now && self.timeout <= now - since,
            None => false,
        }
    }
}
