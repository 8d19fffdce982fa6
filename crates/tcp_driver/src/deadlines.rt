ghost use Rattle.std.specs.Prelude.{◌≡◌};
ghost use Rattle.tcp_driver.specs.Deadlines.{earlier, is_kept, kept, no_deadlines, no_later, soonest, without};

use crate::machine::Timer;

/// The last time: 2^62 microseconds.
pub const LAST: u64 = 1 << 62;

/// When each timer expires, if it runs.
#[derive(Clone, Copy, Debug, PartialEq, Eq)]
pub struct Deadlines {
    /// That of the retransmission timer.
    pub retransmit: Option<u64>,
    /// That of the reordering timer.
    pub reorder: Option<u64>,
    /// That of the TIME-WAIT timer.
    pub time_wait: Option<u64>,
}

impl Deadlines {
    /// No timer runs.
    pub fn none() -> Deadlines
        ensures { result ≡ no_deadlines }
    {
        Deadlines {
            retransmit: None,
            reorder: None,
            time_wait: None,
        }
    }

    /// The first of them.
    #[must_use]
    pub fn soonest(self) -> Option<u64>
        ensures { result ≡ soonest self }
    {
        // Mostly no other runs.
        if self.reorder.is_none() && self.time_wait.is_none() {
            return self.retransmit;
        }
        earlier(self.retransmit, earlier(self.reorder, self.time_wait))
    }

    /// A timer no longer runs. The user timeout has no deadline here.
    #[must_use]
    pub fn without(self, timer: Timer) -> Deadlines
        ensures { result ≡ without self timer }
    {
        let mut deadlines = self;
        match timer {
            Timer::Retransmit => deadlines.retransmit = None,
            Timer::Reorder => deadlines.reorder = None,
            Timer::TimeWait => deadlines.time_wait = None,
            Timer::User => {}
        }
        deadlines
    }
}

/// The earlier of two deadlines.
pub fn earlier(one: Option<u64>, other: Option<u64>) -> Option<u64>
    ensures { result ≡ earlier one other }
{
    match (one, other) {
        (Some(one), Some(other)) => Some(one.min(other)),
        (None, time) | (time, None) => time,
    }
}

/// Whether there is a deadline, and it isn't after `now`.
pub fn no_later(deadline: Option<u64>, now: u64) -> bool
    ensures { result ≡ no_later deadline now }
{
    match deadline {
        Some(time) => time <= now,
        None => false,
    }
}

/// Whether a time is what it has to be already: set while it runs, and else not set.
pub fn is_kept(runs: bool, before: Option<u64>) -> bool
    ensures { result ≡ is_kept runs before }
{
    runs == before.is_some()
}

/// A time that is kept while it runs and nothing starts it anew.
pub fn kept(runs: bool, same: bool, before: Option<u64>, new: u64) -> Option<u64>
    ensures { result ≡ kept runs same before new }
{
    if !runs {
        return None;
    }
    match before {
        Some(time) if same => Some(time),
        _ => Some(new),
    }
}
