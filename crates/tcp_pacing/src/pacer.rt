ghost use Rattle.std.specs.Prelude.{◌≡◌};

use crate::pace::Pace;
use std::marker::Model;

/// Spreads new text over a round trip (RFC 9002, 7.7): it goes out in portions, each of which begins where the one before it is
/// over at the rate of its [`Pace`]. Time in which nothing goes out earns no more than a portion. Times are counts of
/// microseconds.
///
/// A caller asks [`allowed`](Self::allowed), sends no more new text than that, tells it by [`went`](Self::went), and says by
/// [`hold`](Self::hold) whether more waits. What is sent again isn't paced.
#[derive(Clone, Copy, Debug, PartialEq, Eq)]
pub struct Pacer {
    is_on: bool,
    is_held: bool,
    /// When the next portion begins, at the earliest.
    next_at: u64,
    /// How many bytes of this portion didn't go out.
    left: u64,
}

impl Model for Pacer {
    ghost use Rattle.tcp_pacing.specs.Pacer.{Pacing};

    ghost Value = { Pacing };

    ghost view = { λ p. record { is_on = p.is_on; is_held = p.is_held; next_at = p.next_at; left = p.left } };

    ghost inverse = { λ p. record { is_on = p.is_on; is_held = p.is_held; next_at = p.next_at; left = p.left } };
}

impl Pacer {
    ghost use Rattle.tcp_pacing.specs.Pacer.{after_asked, after_set, after_went, allowed, is_paced, off, poll_at, with_held};

    /// As it begins: off, so that nothing waits.
    pub fn off() -> Pacer
        ensures { result ≡ off }
    {
        Pacer {
            is_on: false,
            is_held: false,
            next_at: 0,
            left: 0,
        }
    }

    /// Turns it on, so that the first portion begins when it is asked next, or off. One that is on and stays on doesn't change.
    pub fn set(&mut self, is_on: bool)
        ensures { self.new ≡ after_set self.old is_on }
    {
        if !is_on {
            *self = Pacer::off();
        } else if !self.is_on {
            *self = Pacer {
                is_on: true,
                is_held: false,
                next_at: 0,
                left: 0,
            };
        }
    }

    /// Whether it is on.
    #[must_use]
    pub fn is_on(&self) -> bool
        ensures { result ≡ self.now.is_on }
    {
        self.is_on
    }

    /// Whether text waits for portions of this pace: it is on, and a round trip is measured.
    #[must_use]
    pub fn is_paced(&self, pace: Pace) -> bool
        ensures { result ≡ is_paced self.now pace }
    {
        pace.srtt > 0 && self.is_on
    }

    /// How many bytes of the last portion didn't go out.
    #[must_use]
    pub fn left(&self) -> u64
        ensures { result ≡ self.now.left }
    {
        let Pacer { left, .. } = *self;
        left
    }

    /// It is `now`: how many bytes of new text may go out. A portion begins where its time has come. `u64::MAX`, and nothing
    /// changes, where it is off or no round trip is measured.
    #[must_use]
    pub fn allowed(&mut self, now: u64, pace: Pace) -> u64
        ensures bytes { result ≡ allowed self.old now pace }
        ensures after { self.new ≡ after_asked self.old now pace }
    {
        if !self.is_on || pace.srtt == 0 {
            return u64::MAX;
        }
        if self.next_at <= now {
            self.left = pace.portion();
            self.next_at = now.saturating_add(pace.interval());
        }
        self.left
    }

    /// `count` bytes of new text went out.
    pub fn went(&mut self, count: u64)
        ensures { self.new ≡ after_went self.old count }
    {
        self.left = self.left.saturating_sub(count);
    }

    /// Whether new text waits for the next portion.
    pub fn hold(&mut self, is_held: bool)
        ensures { self.new ≡ with_held self.old is_held }
    {
        self.is_held = is_held;
    }

    /// When the next portion begins, where new text waits for it.
    #[must_use]
    pub fn poll_at(&self) -> Option<u64>
        ensures { result ≡ poll_at self.now }
    {
        if self.is_on && self.is_held {
            Some(self.next_at)
        } else {
            None
        }
    }
}
