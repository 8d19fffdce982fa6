//! What is reported of bytes that arrive (RFC 9293, 3.10.7.4; RFC 5681, 2 and 4.2), beside their effect.
ghost use Rattle.std.specs.Prelude.{◌≡◌, Some, None, length, nat_lt, false};
ghost use Rattle.tcp_reasm.specs.Reassembly.{runs};
ghost use Rattle.tcp_wire.specs.View.{raw_content};
ghost use Rattle.tcp_conn.specs.Arrival.{after_judgement};
ghost use Rattle.tcp_conn.specs.AtOnce.{breaks_order, is_urgent};
ghost use Rattle.tcp_conn.specs.Guard.{guarded};
ghost use Rattle.tcp_conn.specs.Judgement.{answer_of};
ghost use Rattle.tcp_conn.specs.Taking.{brought_by, bytes_acked, is_duplicate_ack, is_duplicate_by, takes_window_by};

use crate::arrive::brought::Brought;
use crate::arrive::judgement::Judgement;
use crate::endpoint::Endpoint;
use crate::outcome::Arrival;
use std::alloc::Allocator;
use tcp_wire::{Addr, DecodeError, RawSegment};

/// What became of bytes that arrived, whether they have to be answered at once, and what they brought.
#[derive(Clone, Copy, Debug, PartialEq, Eq)]
pub struct Taken {
    /// What became of them.
    pub arrival: Arrival,
    /// Whether they have to be answered at once, by emitting what is due (RFC 5681, 4.2). The segment came out of order
    /// or filled all or part of a gap, had a SYN or a FIN, or wasn't taken and has an answer. Where it is false, an
    /// acknowledgement that is due may wait for the next segment.
    pub at_once: bool,
    /// The rule that applied to the segment (RFC 9293, 3.10.7); `None` where the bytes are no segment.
    pub rule: Option<Judgement>,
    /// How many text bytes its acknowledgement has released (RFC 9293, 3.10.7.4, fifth); SYN and FIN aren't counted.
    pub acked: u64,
    /// Whether it is a duplicate acknowledgement (RFC 5681, 2): text was in flight, it has no text, no SYN and no FIN,
    /// it acknowledges up to SND.UNA, and its window is SND.WND.
    pub is_duplicate: bool,
    /// Whether SND.WND was taken from it, by the rule of SND.WL1 and SND.WL2 (RFC 9293, 3.10.7.4, fifth).
    pub window_taken: bool,
    /// What it brought of the peer's stream (RFC 9293, 3.10.7.4, seventh and eighth).
    pub brought: Brought,
}

impl Taken {
    /// What is reported of bytes that are no segment.
    pub(crate) fn malformed(fault: DecodeError) -> Taken
        ensures answer { result.arrival ≡ Arrival.Malformed fault }
        ensures at_once { result.at_once ≡ false }
        ensures rule { result.rule ≡ None }
        ensures acked { result.acked ≡ 0 }
        ensures duplicate { result.is_duplicate ≡ false }
        ensures window { result.window_taken ≡ false }
        ensures brought { result.brought ≡ Brought.Nothing }
    {
        Taken {
            arrival: Arrival::Malformed(fault),
            at_once: false,
            rule: None,
            acked: 0,
            is_duplicate: false,
            window_taken: false,
            brought: Brought::Nothing,
        }
    }
}

impl<A: Allocator> Endpoint<A> {
    /// Takes a segment by the rule that applies to it, and reports on it. It is compiled in place, where the rule is known.
    #[inline(always)]
    pub(crate) fn take_by(&mut self, rule: Judgement, src: Addr, segment: &RawSegment<'_>) -> Taken
        ensures answer { result.arrival ≡ answer_of rule }
        ensures at_once { result.at_once ≡ is_urgent rule (nat_lt 0 (length (runs self.old.receiving.inbox.held))) self.new (raw_content segment.now) }
        ensures rule { result.rule ≡ Some rule }
        ensures acked { result.acked ≡ bytes_acked self.old self.new }
        ensures duplicate { result.is_duplicate ≡ is_duplicate_by rule self.old (raw_content segment.now) }
        ensures window { result.window_taken ≡ takes_window_by rule self.old (raw_content segment.now) }
        ensures brought { result.brought ≡ brought_by rule self.old (raw_content segment.now) }
        ensures state { self.new ≡ after_judgement rule self.old src.0 (raw_content segment.now) }
    {
        let had_gap = self.has_gap();
        let released = self.sender.released;
        let is_duplicate = self.is_duplicate(rule, segment);
        let effect = self.follow(rule, src, segment);
        Taken {
            arrival: rule.answer(),
            at_once: self.is_urgent(rule, had_gap, segment),
            rule: Some(rule),
            acked: self.sender.released.saturating_sub(released),
            is_duplicate,
            window_taken: effect.window_taken,
            brought: effect.brought,
        }
    }

    /// Takes a segment by the rule that applies to it past this guard, and reports on it, where that is mostly another than that
    /// all is taken.
    #[cold]
    #[inline(never)]
    pub(crate) fn take_rarely(
        &mut self,
        guard: Option<u32>,
        rule: Judgement,
        src: Addr,
        segment: &RawSegment<'_>,
    ) -> Taken
        ensures answer { result.arrival ≡ answer_of (guarded guard rule self.old (raw_content segment.now)) }
        ensures at_once { result.at_once ≡ is_urgent (guarded guard rule self.old (raw_content segment.now)) (nat_lt 0 (length (runs self.old.receiving.inbox.held))) self.new (raw_content segment.now) }
        ensures rule { result.rule ≡ Some (guarded guard rule self.old (raw_content segment.now)) }
        ensures acked { result.acked ≡ bytes_acked self.old self.new }
        ensures duplicate { result.is_duplicate ≡ is_duplicate_by (guarded guard rule self.old (raw_content segment.now)) self.old (raw_content segment.now) }
        ensures window { result.window_taken ≡ takes_window_by (guarded guard rule self.old (raw_content segment.now)) self.old (raw_content segment.now) }
        ensures brought { result.brought ≡ brought_by (guarded guard rule self.old (raw_content segment.now)) self.old (raw_content segment.now) }
        ensures state { self.new ≡ after_judgement (guarded guard rule self.old (raw_content segment.now)) self.old src.0 (raw_content segment.now) }
    {
        self.take_by(self.guarded(guard, rule, segment), src, segment)
    }

    /// Whether a segment to which this rule applies is a duplicate acknowledgement (RFC 5681, 2).
    fn is_duplicate(&self, rule: Judgement, segment: &RawSegment<'_>) -> bool
        ensures { result ≡ is_duplicate_by rule self.now (raw_content segment.now) }
    {
        match rule {
            Judgement::Taken | Judgement::TakenShut => self.is_duplicate_ack(segment),
            _ => false,
        }
    }

    /// The five conditions of a duplicate acknowledgement (RFC 5681, 2).
    fn is_duplicate_ack(&self, segment: &RawSegment<'_>) -> bool
        ensures { result ≡ is_duplicate_ack self.now (raw_content segment.now) }
    {
        // Mostly it has text, or acknowledges more.
        let flags = segment.header.flags;
        if !segment.text.is_empty()
            || self.position_near(segment.header.ack) != self.sender.snd_una
        {
            return false;
        }
        let is_bare = !flags.is_syn() && !flags.is_fin();
        let is_same_window = self.window_from(segment.header.window) == self.sender.snd_wnd;
        self.in_flight() > 0 && is_bare && is_same_window
    }

    /// Whether a segment that was taken by this judgement has to be answered at once (RFC 5681, 4.2).
    fn is_urgent(&self, judgement: Judgement, had_gap: bool, segment: &RawSegment<'_>) -> bool
        ensures { result ≡ is_urgent judgement had_gap self.now (raw_content segment.now) }
    {
        match judgement {
            Judgement::Taken => self.pending.ack && self.breaks_order(had_gap, segment),
            Judgement::TakenShut => self.pending.ack,
            Judgement::Foreign
            | Judgement::ResetIgnored
            | Judgement::OpensNothing
            | Judgement::NoAck
            | Judgement::PeerRefuses
            | Judgement::PeerResets => false,
            _ => true,
        }
    }

    /// Whether a run is kept out of order, so that something before it is missing.
    pub(crate) fn has_gap(&self) -> bool
        ensures { result ≡ nat_lt 0 (length (runs self.now.receiving.inbox.held)) }
    {
        self.receiver.inbox.held_runs() > 0
    }

    /// Whether it had a FIN, or text that came out of order or filled all or part of a gap.
    fn breaks_order(&self, had_gap: bool, segment: &RawSegment<'_>) -> bool
        ensures { result ≡ breaks_order had_gap self.now (raw_content segment.now) }
    {
        let is_early = had_gap || self.has_gap();
        segment.header.flags.is_fin() || !segment.text.is_empty() && is_early
    }
}
