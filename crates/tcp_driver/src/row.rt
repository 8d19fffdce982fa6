//! Segments that go out as one, for a device that cuts them: each is timed as if it had gone out alone.
ghost use Rattle.std.specs.Prelude.{◌≡◌, ◌≤◌, ◌<◌, ◌+◌, ◌-◌, ◌*◌, ◌^◌, is_some, true};
ghost use Rattle.tcp_driver.specs.Deadlines.{last};
ghost use Rattle.tcp_driver.specs.Rows.{after_numbers, after_row};
ghost use Rattle.tcp_driver.specs.Times.{IsSoon, rests};

use crate::machine::{Row, Sent, Wants};
use crate::timers::Timers;

/// A segment that takes these numbers, wherever it goes.
fn numbers(start: u64, count: u64) -> Sent
    ensures start { result.start ≡ start }
    ensures count { result.count ≡ count }
{
    Sent {
        to: [0; 4],
        len: 0,
        start,
        count,
    }
}

impl Timers {
    /// A segment has gone out that takes these numbers, and then the end wants these timers.
    #[inline(always)]
    fn went_out(&mut self, start: u64, count: u64, wants: Wants, una: u64, now: u64)
        requires early { now ≤ last }
        requires later { self.old.clock ≤ now }
        requires fits { start + count < 2 ^ 64 }
        ensures state { self.new ≡ after_numbers start count wants una now self.old }
        ensures soon { IsSoon self.new }
        ensures una { self.new.una ≡ una }
        ensures retransmit { is_some self.new.deadlines.retransmit ≡ wants.retransmit }
        ensures since { is_some self.new.since ≡ wants.retransmit }
        ensures left { is_some self.new.left ≡ wants.fin_wait_2 }
        ensures reorder { is_some self.new.deadlines.reorder ≡ wants.reorder }
        ensures time_wait { is_some self.new.deadlines.time_wait ≡ wants.time_wait }
        ensures rests { rests wants.retransmit self.new ≡ true }
    {
        self.emitted(numbers(start, count), now);
        self.follow(wants, una, now);
    }

    /// Segments have gone out as one, behind each of which the end wants these timers.
    #[tactic(auto, using(crate::proofs::Rows::one_more, crate::proofs::Rows::none_more, crate::proofs::Rows::fits_more, crate::proofs::Rows::whole_more))]
    pub fn emitted_as_one(&mut self, row: Row, wants: Wants, una: u64, now: u64)
        requires early { now ≤ last }
        requires later { self.old.clock ≤ now }
        requires fits { row.start + row.count < 2 ^ 64 }
        requires whole { (row.segments - 1) * row.each ≤ row.count }
        ensures state { self.new ≡ after_row (row.segments - 1) row.each row.start row.count wants una now self.old }
        ensures soon { IsSoon self.new }
        ensures una { self.new.una ≡ una }
        ensures retransmit { is_some self.new.deadlines.retransmit ≡ wants.retransmit }
        ensures since { is_some self.new.since ≡ wants.retransmit }
        ensures left { is_some self.new.left ≡ wants.fin_wait_2 }
        ensures reorder { is_some self.new.deadlines.reorder ≡ wants.reorder }
        ensures time_wait { is_some self.new.deadlines.time_wait ≡ wants.time_wait }
        ensures rests { rests wants.retransmit self.new ≡ true }
    {
        let mut more = row.segments.saturating_sub(1);
        let mut start = row.start;
        let mut left = row.count;
        while more > 0 {
            self.went_out(start, row.each, wants, una, now);
            start += row.each;
            left -= row.each;
            more -= 1;
        }
        self.went_out(start, left, wants, una, now);
    }
}
