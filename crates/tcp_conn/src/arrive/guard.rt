//! The way in with its parameters, and the guard against segments of somebody who sees nothing of a connection (RFC
//! 5961, 1.1 and 5.2).
ghost use Rattle.std.specs.Prelude.{◌≡◌, Option, true, false, ℕ};
ghost use Rattle.tcp_wire.specs.View.{raw_content};
ghost use Rattle.tcp_conn.specs.Guard.{acks_behind, guarded, is_elsewhere, is_kept_out, is_old_ack};

use crate::arrive::judgement::Judgement;
use crate::endpoint::Endpoint;
use std::alloc::Allocator;
use tcp_wire::RawSegment;

/// How bytes come in.
#[derive(Clone, Copy, Debug, PartialEq, Eq)]
pub struct Intake {
    /// Whether a device has found their checksum right, so that it isn't summed (RFC 9293, 3.1).
    pub is_vouched: bool,
    /// The reach of the guard, in sequence numbers; `None` is no guard, as the standard has it (RFC 9293, 3.10.7.4). A
    /// segment that would be taken is dropped and answered by an acknowledgement where it acknowledges what lies more
    /// than the reach before SND.UNA (RFC 5961, 5.2). So is one that comes while the window is shut, unless its number
    /// is within the reach before RCV.NXT, or within the receive buffer and a FIN from there on.
    pub guard: Option<u32>,
}

impl Intake {
    /// Bytes are summed, and there is no guard.
    pub const PLAIN: Intake = Intake {
        is_vouched: false,
        guard: None,
    };
    /// A device has summed the bytes, and there is no guard.
    pub const VOUCHED: Intake = Intake {
        is_vouched: true,
        guard: None,
    };
}

impl<A: Allocator> Endpoint<A> {
    /// Whether all of a segment is taken, whatever the guard: mostly so, since what is taken acknowledges nothing before SND.UNA.
    #[inline(always)]
    #[tactic(auto, unfolding(crate::specs::Guard::guarded))]
    pub(crate) fn is_taken_by_any(&self, rule: Judgement, segment: &RawSegment<'_>) -> bool
        ensures rule { result ≡ true → rule ≡ Judgement.Taken }
        ensures guarded { (guard : Option ℕ) → result ≡ true → guarded guard rule self.now (raw_content segment.now) ≡ rule }
    {
        match rule {
            Judgement::Taken => !self.acks_behind(segment),
            _ => false,
        }
    }

    /// The rule that applies with this guard, where without one it is `rule`.
    #[tactic(auto, unfolding(crate::specs::Guard::guarded))]
    pub(crate) fn guarded(
        &self,
        guard: Option<u32>,
        rule: Judgement,
        segment: &RawSegment<'_>,
    ) -> Judgement
        ensures { result ≡ guarded guard rule self.now (raw_content segment.now) }
    {
        match guard {
            Some(reach) if self.is_kept_out(reach, rule, segment) => Judgement::Unacceptable,
            _ => rule,
        }
    }

    /// Whether a guard of this reach keeps out a segment to which this rule applies.
    #[inline(always)]
    fn is_kept_out(&self, reach: u32, rule: Judgement, segment: &RawSegment<'_>) -> bool
        ensures { result ≡ is_kept_out reach rule self.now (raw_content segment.now) }
    {
        match rule {
            Judgement::Taken => self.is_old_ack(reach, segment),
            Judgement::TakenShut => self.is_old_ack(reach, segment)
                || self.is_elsewhere(reach, segment),
            _ => false,
        }
    }

    /// Whether it acknowledges what lies before SND.UNA. Where it doesn't it is no old acknowledgement, whatever the reach.
    #[inline(always)]
    #[tactic(auto, unfolding(crate::specs::Guard::is_old_ack))]
    fn acks_behind(&self, segment: &RawSegment<'_>) -> bool
        ensures { (reach : ℕ) → result ≡ false → is_old_ack reach self.now (raw_content segment.now) ≡ false }
    {
        let behind = self
            .number_of(self.sender.snd_una)
            .minus(segment.header.ack);
        behind.wrapping_sub(1) < 1 << 31
    }

    /// Whether it acknowledges what lies before SND.UNA - reach (RFC 5961, 5.2).
    #[inline(always)]
    #[tactic(auto, unfolding(crate::specs::Guard::is_old_ack))]
    fn is_old_ack(&self, reach: u32, segment: &RawSegment<'_>) -> bool
        ensures { result ≡ is_old_ack reach self.now (raw_content segment.now) }
    {
        let snd_una = self.number_of(self.sender.snd_una);
        let behind = snd_una.minus(segment.header.ack);
        reach < behind && behind <= 1 << 31
    }

    /// Whether its number is neither within the reach before RCV.NXT, nor within the receive buffer and a FIN from there
    /// on.
    #[tactic(auto, unfolding(crate::specs::Guard::is_elsewhere))]
    fn is_elsewhere(&self, reach: u32, segment: &RawSegment<'_>) -> bool
        ensures { result ≡ is_elsewhere reach self.now (raw_content segment.now) }
    {
        let ahead = segment.header.seq.minus(self.receiver.rcv_nxt) as usize;
        let behind = self.receiver.rcv_nxt.minus(segment.header.seq);
        self.config.recv_capacity < ahead.saturating_sub(1) && reach < behind
    }
}
