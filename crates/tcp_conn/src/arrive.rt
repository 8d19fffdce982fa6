//! The way in (RFC 9293, 3.10.7): bytes are read, `judgement` says which rule applies, `effect` carries it out, and
//! `report` tells what became of them.
ghost use Rattle.std.specs.Prelude.{◌≡◌};
ghost use Rattle.tcp_wire.specs.Vouched.{with_right_sum};
ghost use Rattle.tcp_conn.specs.Arrival.{after_arrival, arrival_answer};
ghost use Rattle.tcp_conn.specs.AtOnce.{answers_at_once};
ghost use Rattle.tcp_conn.specs.Guard.{after_intake, intake_answer, intake_at_once, intake_brought, intake_duplicate, intake_rule, intake_window};
ghost use Rattle.tcp_conn.specs.State.{IsWithin};
ghost use Rattle.tcp_conn.specs.Taking.{brought, bytes_acked, is_duplicate, is_window_taken, rule_of};

pub(crate) mod brought;
pub(crate) mod effect;
pub(crate) mod guard;
pub(crate) mod judged_fields;
pub(crate) mod judgement;
pub(crate) mod report;

use crate::arrive::guard::Intake;
use crate::arrive::judgement::Judgement;
use crate::arrive::report::Taken;
use crate::endpoint::Endpoint;
use crate::outcome::Arrival;
use std::alloc::Allocator;
use tcp_wire::{Addr, RawSegment};

impl<A: Allocator> Endpoint<A> {
    /// The rule that applies now to bytes that come from `src` to `dst` (RFC 9293, 3.10.7); `None` where they are no
    /// segment. Nothing changes.
    #[must_use]
    #[tactic(auto, unfolding(crate::specs::Taking::rule_of))]
    pub fn rule(&self, src: Addr, dst: Addr, bytes: &[u8]) -> Option<Judgement>
        ensures { result ≡ rule_of self.now src.0 dst.0 bytes.now }
    {
        match RawSegment::parse(src, dst, bytes) {
            Ok(segment) => Some(self.judge(src, dst, &segment)),
            Err(_) => None,
        }
    }

    /// Takes bytes that came from `src` to `dst`, whatever they are (RFC 9293, 3.10.7), and reports what became of
    /// them.
    pub fn arrive(&mut self, src: Addr, dst: Addr, bytes: &[u8]) -> Arrival
        ensures answer { result ≡ arrival_answer self.old src.0 dst.0 bytes.now }
        ensures state { self.new ≡ after_arrival self.old src.0 dst.0 bytes.now }
        ensures within { IsWithin self.new }
    {
        self.take(src, dst, bytes).arrival
    }

    /// Takes bytes as [`arrive`](Self::arrive) does, with a report. It has whether the segment has to be answered at
    /// once (RFC 5681, 4.2), the rule that applied, the text that was acknowledged, whether it is a duplicate
    /// acknowledgement (RFC 5681, 2), whether its window was taken, and what it brought.
    #[must_use]
    #[inline(always)]
    pub fn take(&mut self, src: Addr, dst: Addr, bytes: &[u8]) -> Taken
        ensures answer { result.arrival ≡ arrival_answer self.old src.0 dst.0 bytes.now }
        ensures at_once { result.at_once ≡ answers_at_once self.old src.0 dst.0 bytes.now }
        ensures rule { result.rule ≡ rule_of self.old src.0 dst.0 bytes.now }
        ensures acked { result.acked ≡ bytes_acked self.old self.new }
        ensures duplicate { result.is_duplicate ≡ is_duplicate self.old src.0 dst.0 bytes.now }
        ensures window { result.window_taken ≡ is_window_taken self.old src.0 dst.0 bytes.now }
        ensures brought { result.brought ≡ brought self.old src.0 dst.0 bytes.now }
        ensures state { self.new ≡ after_arrival self.old src.0 dst.0 bytes.now }
        ensures within { IsWithin self.new }
    {
        self.take_with(src, dst, bytes, Intake::PLAIN)
    }

    /// Takes bytes whose checksum a device has found right, and doesn't sum them. Whatever they are, answer and end are
    /// those of [`arrive`](Endpoint::arrive) for the same bytes with the checksum field that is right for them (RFC
    /// 9293, 3.1 and 3.10.7). So the caller has to drop what the device found wrong: a changed byte isn't noticed here.
    pub fn arrive_vouched(&mut self, src: Addr, dst: Addr, bytes: &[u8]) -> Arrival
        ensures answer { result ≡ arrival_answer self.old src.0 dst.0 (with_right_sum src.0 dst.0 bytes.now) }
        ensures state { self.new ≡ after_arrival self.old src.0 dst.0 (with_right_sum src.0 dst.0 bytes.now) }
        ensures within { IsWithin self.new }
    {
        self.take_vouched(src, dst, bytes).arrival
    }

    /// Takes bytes as [`arrive_vouched`](Endpoint::arrive_vouched) does, with the report of [`take`](Endpoint::take).
    #[must_use]
    #[inline(always)]
    pub fn take_vouched(&mut self, src: Addr, dst: Addr, bytes: &[u8]) -> Taken
        ensures answer { result.arrival ≡ arrival_answer self.old src.0 dst.0 (with_right_sum src.0 dst.0 bytes.now) }
        ensures at_once { result.at_once ≡ answers_at_once self.old src.0 dst.0 (with_right_sum src.0 dst.0 bytes.now) }
        ensures rule { result.rule ≡ rule_of self.old src.0 dst.0 (with_right_sum src.0 dst.0 bytes.now) }
        ensures acked { result.acked ≡ bytes_acked self.old self.new }
        ensures duplicate { result.is_duplicate ≡ is_duplicate self.old src.0 dst.0 (with_right_sum src.0 dst.0 bytes.now) }
        ensures window { result.window_taken ≡ is_window_taken self.old src.0 dst.0 (with_right_sum src.0 dst.0 bytes.now) }
        ensures brought { result.brought ≡ brought self.old src.0 dst.0 (with_right_sum src.0 dst.0 bytes.now) }
        ensures state { self.new ≡ after_arrival self.old src.0 dst.0 (with_right_sum src.0 dst.0 bytes.now) }
        ensures within { IsWithin self.new }
    {
        self.take_with(src, dst, bytes, Intake::VOUCHED)
    }

    /// Takes bytes that came from `src` to `dst` by this way, whatever they are (RFC 9293, 3.10.7), with the report of
    /// [`take`](Endpoint::take). What the guard keeps out counts as unacceptable: it is dropped, and an acknowledgement
    /// is due (RFC 5961, 5.2).
    #[must_use]
    #[inline(always)]
    #[tactic(auto, unfolding(crate::specs::Guard::intake_answer, crate::specs::Guard::after_intake, crate::specs::Guard::intake_at_once, crate::specs::Guard::intake_rule, crate::specs::Guard::intake_duplicate, crate::specs::Guard::intake_window, crate::specs::Guard::intake_brought))]
    pub fn take_with(&mut self, src: Addr, dst: Addr, bytes: &[u8], way: Intake) -> Taken
        ensures answer { result.arrival ≡ intake_answer way self.old src.0 dst.0 bytes.now }
        ensures at_once { result.at_once ≡ intake_at_once way self.old src.0 dst.0 bytes.now }
        ensures rule { result.rule ≡ intake_rule way self.old src.0 dst.0 bytes.now }
        ensures acked { result.acked ≡ bytes_acked self.old self.new }
        ensures duplicate { result.is_duplicate ≡ intake_duplicate way self.old src.0 dst.0 bytes.now }
        ensures window { result.window_taken ≡ intake_window way self.old src.0 dst.0 bytes.now }
        ensures brought { result.brought ≡ intake_brought way self.old src.0 dst.0 bytes.now }
        ensures state { self.new ≡ after_intake way self.old src.0 dst.0 bytes.now }
        ensures within { IsWithin self.new }
    {
        let read = if way.is_vouched {
            RawSegment::parse_vouched(src, dst, bytes)
        } else {
            RawSegment::parse(src, dst, bytes)
        };
        let taken = match read {
            Ok(segment) => {
                let rule = self.judge(src, dst, &segment);
                if self.is_taken_by_any(rule, &segment) {
                    self.take_by(Judgement::Taken, src, &segment)
                } else {
                    self.take_rarely(way.guard, rule, src, &segment)
                }
            }
            Err(fault) => Taken::malformed(fault),
        };
        // So that the proof knows the invariant of an end.
        let _ = &self.config;
        taken
    }
}
