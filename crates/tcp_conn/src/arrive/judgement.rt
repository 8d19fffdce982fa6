//! Which rule applies to a segment that arrives (RFC 9293, 3.10.7); each test is made once.
ghost use Rattle.std.specs.Prelude.{◌≡◌, ◌≤◌, ◌+◌};
ghost use Rattle.tcp_wire.specs.Position.{number};
ghost use Rattle.tcp_wire.specs.View.{raw_content};
ghost use Rattle.tcp_wire.specs.Wire.{max_text_len};
ghost use Rattle.tcp_conn.specs.Judgement.{acceptable_judgement, ack_judgement, acks_syn, answer_of, closed_judgement, count_numbers, is_foreign, IsReadOf, judgement, judgement_after_syn, listen_judgement, phase_judgement, position_near, syn_sent_judgement, unacceptable_judgement};
ghost use Rattle.tcp_conn.specs.State.{State};

use crate::arrive::judged_fields::JudgedFields;
use crate::endpoint::Endpoint;
use crate::outcome::Arrival;
use crate::phase::Phase;
use crate::phases::{has_peer, is_syn_received};
use std::alloc::Allocator;
use tcp_halves::is_acceptable;
use tcp_wire::{Addr, RawSegment, Seq};

/// Which rule applies to a segment that arrives (RFC 9293, 3.10.7): a case for each rule, also where two have the same
/// effect.
#[derive(Clone, Copy, Debug, PartialEq, Eq)]
pub enum Judgement {
    /// The segment is for another end, or from another source than the peer (RFC 9293, 3.10.7).
    Foreign,
    /// A reset that has no effect (RFC 9293, 3.10.7.1 to 3.10.7.3), or one outside the window (3.10.7.4, first).
    ResetIgnored,
    /// A segment for which there is no connection: a reset answers it (RFC 9293, 3.10.7.1).
    Stray,
    /// An acknowledgement in LISTEN, where nothing was sent: a reset answers it (RFC 9293, 3.10.7.2, second).
    AckOfListen,
    /// A segment in LISTEN or SYN-SENT that has no effect, also a SYN without ACK in SYN-SENT (RFC 9293, 3.10.7.2,
    /// fourth, and 3.10.7.3, fifth).
    OpensNothing,
    /// A SYN in LISTEN (RFC 9293, 3.10.7.2, third).
    PeerOpens,
    /// An acknowledgement in SYN-SENT that isn't of the SYN: a reset answers it (RFC 9293, 3.10.7.3, first).
    AckOfNoSyn,
    /// A reset in SYN-SENT that acknowledges the SYN (RFC 9293, 3.10.7.3, second).
    PeerRefuses,
    /// A SYN in SYN-SENT that acknowledges this end's SYN (RFC 9293, 3.10.7.3, fourth).
    PeerAccepts,
    /// A segment outside the window: an acknowledgement shows where the window lies (RFC 9293, 3.10.7.4, first).
    Unacceptable,
    /// A reset at exactly RCV.NXT (RFC 9293, 3.10.7.4, second).
    PeerResets,
    /// A reset elsewhere in the window: an acknowledgement asks for one at RCV.NXT (RFC 9293, 3.10.7.4, second).
    ResetElsewhere,
    /// A SYN in the window: an acknowledgement answers it (RFC 9293, 3.10.7.4, fourth).
    SynInWindow,
    /// A segment without ACK: all of it is dropped (RFC 9293, 3.10.7.4, fifth).
    NoAck,
    /// An acknowledgement of what wasn't sent: an acknowledgement answers it (RFC 9293, 3.10.7.4, fifth).
    AcksUnsent,
    /// An acknowledgement in SYN-RECEIVED that isn't of the SYN: a reset answers it (RFC 9293, 3.10.7.4, fifth).
    HandshakeRefused,
    /// An unacceptable acknowledgement in SYN-RECEIVED at a zero window that isn't of the SYN: a reset answers it (RFC
    /// 9293, 3.10.7.4, first and fifth).
    HandshakeRefusedShut,
    /// A segment of which all is taken (RFC 9293, 3.10.7.4, fifth to eighth).
    Taken,
    /// An unacceptable segment at a zero window: its acknowledgement, window and blocks are taken, its text and FIN
    /// dropped (RFC 9293, 3.10.7.4, first).
    TakenShut,
}

impl Judgement {
    /// What `arrive` returns.
    pub(crate) fn answer(self) -> Arrival
        ensures { result ≡ answer_of self }
    {
        match self {
            Judgement::Foreign => Arrival::NotMine,
            Judgement::PeerOpens
            | Judgement::PeerRefuses
            | Judgement::PeerAccepts
            | Judgement::PeerResets
            | Judgement::Taken
            | Judgement::TakenShut => Arrival::Processed,
            Judgement::ResetIgnored
            | Judgement::Stray
            | Judgement::AckOfListen
            | Judgement::OpensNothing
            | Judgement::AckOfNoSyn
            | Judgement::Unacceptable
            | Judgement::ResetElsewhere
            | Judgement::SynInWindow
            | Judgement::NoAck
            | Judgement::AcksUnsent
            | Judgement::HandshakeRefused
            | Judgement::HandshakeRefusedShut => Arrival::Dropped,
        }
    }
}

/// How many sequence numbers a segment takes, SEG.LEN: SYN and FIN take one each (RFC 9293, 3.4).
pub(crate) fn count_numbers(segment: &RawSegment<'_>) -> u32
    ensures value { result ≡ count_numbers (raw_content segment.now) }
    ensures most { result ≤ max_text_len + 2 }
{
    let syn = u32::from(segment.header.flags.is_syn());
    let fin = u32::from(segment.header.flags.is_fin());
    segment.text.len() as u32 + syn + fin
}

/// Arrival in CLOSED (RFC 9293, 3.10.7.1).
#[tactic(auto, unfolding(crate::specs::Judgement::closed_judgement))]
pub(crate) fn judge_closed(segment: &RawSegment<'_>) -> Judgement
    ensures { result ≡ closed_judgement (raw_content segment.now) }
{
    if segment.header.flags.is_rst() {
        Judgement::ResetIgnored
    } else {
        Judgement::Stray
    }
}

/// Arrival in LISTEN (RFC 9293, 3.10.7.2).
#[tactic(auto, unfolding(crate::specs::Judgement::listen_judgement))]
fn judge_listen(segment: &RawSegment<'_>) -> Judgement
    ensures { result ≡ listen_judgement (raw_content segment.now) }
{
    if segment.header.flags.is_rst() {
        Judgement::ResetIgnored
    } else if segment.header.flags.is_ack() {
        Judgement::AckOfListen
    } else if segment.header.flags.is_syn() {
        Judgement::PeerOpens
    } else {
        Judgement::OpensNothing
    }
}

/// Arrival at an end whose peer is known (RFC 9293, 3.10.7.4).
#[inline(always)]
#[tactic(auto, unfolding(crate::specs::Judgement::judgement_after_syn))]
pub(crate) fn judge_after_syn(read: &JudgedFields, segment: &RawSegment<'_>) -> Judgement
    ensures { (s : State) → IsReadOf read.now s → result ≡ judgement_after_syn s (raw_content segment.now) }
{
    let count = count_numbers(segment);
    if is_acceptable(read.rcv_nxt, read.rcv_wnd, segment.header.seq, count) {
        judge_acceptable(read, segment)
    } else {
        judge_unacceptable(read, segment)
    }
}

/// Reset check, SYN check, then the acknowledgement (RFC 9293, 3.10.7.4, second, fourth and fifth).
#[inline(always)]
#[tactic(auto, unfolding(crate::specs::Judgement::acceptable_judgement))]
fn judge_acceptable(read: &JudgedFields, segment: &RawSegment<'_>) -> Judgement
    ensures { (s : State) → IsReadOf read.now s → result ≡ acceptable_judgement s (raw_content segment.now) }
{
    if segment.header.flags.is_rst() {
        return if segment.header.seq == read.rcv_nxt {
            Judgement::PeerResets
        } else {
            Judgement::ResetElsewhere
        };
    }
    if segment.header.flags.is_syn() {
        return Judgement::SynInWindow;
    }
    if !segment.header.flags.is_ack() {
        return Judgement::NoAck;
    }
    judge_ack(read, segment, Judgement::Taken, Judgement::HandshakeRefused)
}

/// Outside the window: at a zero window an acknowledgement is still taken (RFC 9293, 3.10.7.4, first).
#[inline(always)]
#[tactic(auto, unfolding(crate::specs::Judgement::unacceptable_judgement))]
fn judge_unacceptable(read: &JudgedFields, segment: &RawSegment<'_>) -> Judgement
    ensures { (s : State) → IsReadOf read.now s → result ≡ unacceptable_judgement s (raw_content segment.now) }
{
    if segment.header.flags.is_rst() {
        return Judgement::ResetIgnored;
    }
    let shut = read.rcv_wnd == 0;
    if shut && segment.header.flags.is_ack() && !segment.header.flags.is_syn() {
        return judge_ack(
            read,
            segment,
            Judgement::TakenShut,
            Judgement::HandshakeRefusedShut,
        );
    }
    Judgement::Unacceptable
}

/// The acknowledgement: of this end's SYN in SYN-RECEIVED, else of nothing that wasn't sent (RFC 9293, 3.10.7.4,
/// fifth).
#[inline(always)]
#[tactic(auto, unfolding(crate::specs::Judgement::ack_judgement))]
fn judge_ack(
    read: &JudgedFields,
    segment: &RawSegment<'_>,
    good: Judgement,
    refused: Judgement,
) -> Judgement
    ensures { (s : State) → IsReadOf read.now s → result ≡ ack_judgement s (raw_content segment.now) good refused }
{
    let position = segment.header.ack.position(read.isn, read.snd_una);
    if read.is_syn_received {
        return if position == read.snd_nxt {
            good
        } else {
            refused
        };
    }
    if position > read.snd_nxt {
        Judgement::AcksUnsent
    } else {
        good
    }
}

impl<A: Allocator> Endpoint<A> {
    /// Which rule applies to a segment that came from `src` to `dst`.
    #[inline(always)]
    #[tactic(auto, unfolding(crate::specs::Judgement::judgement))]
    pub(crate) fn judge(&self, src: Addr, dst: Addr, segment: &RawSegment<'_>) -> Judgement
        ensures { result ≡ judgement self.now src.0 dst.0 (raw_content segment.now) }
    {
        if self.is_foreign(src, dst, segment) {
            return Judgement::Foreign;
        }
        self.judge_by_phase(segment)
    }

    /// Whether the segment is for another end, or, where the peer is known, from another source (RFC 9293, 3.10.7).
    #[inline(always)]
    #[tactic(auto, unfolding(crate::specs::Judgement::is_foreign))]
    fn is_foreign(&self, src: Addr, dst: Addr, segment: &RawSegment<'_>) -> bool
        ensures { result ≡ is_foreign self.now src.0 dst.0 (raw_content segment.now) }
    {
        let for_other = dst != self.config.addr || segment.header.dst_port != self.config.port;
        let from_other = src != self.peer.addr || segment.header.src_port != self.peer.port;
        for_other || has_peer(self.phase) && from_other
    }

    /// The rules of its phase.
    #[inline(always)]
    #[tactic(auto, unfolding(crate::specs::Judgement::phase_judgement))]
    fn judge_by_phase(&self, segment: &RawSegment<'_>) -> Judgement
        ensures { result ≡ phase_judgement self.now (raw_content segment.now) }
    {
        match self.phase {
            Phase::Closed => judge_closed(segment),
            Phase::Listen => judge_listen(segment),
            Phase::SynSent => self.judge_syn_sent(segment),
            _ => self.judge_after_syn(segment),
        }
    }

    /// The position that a number is read as: the nearest to SND.UNA (RFC 9293, 3.4).
    pub(crate) fn position_near(&self, number: Seq) -> u64
        ensures { result ≡ position_near self.now number.0 }
    {
        number.position(self.config.isn, self.sender.snd_una)
    }

    /// Whether it acknowledges this end's SYN, and nothing else was sent.
    fn acks_syn(&self, segment: &RawSegment<'_>) -> bool
        ensures { result ≡ acks_syn self.now (raw_content segment.now) }
    {
        self.position_near(segment.header.ack) == self.sender.snd_nxt
    }

    /// Arrival in SYN-SENT (RFC 9293, 3.10.7.3).
    #[tactic(auto, unfolding(crate::specs::Judgement::syn_sent_judgement))]
    fn judge_syn_sent(&self, segment: &RawSegment<'_>) -> Judgement
        ensures { result ≡ syn_sent_judgement self.now (raw_content segment.now) }
    {
        let rst = segment.header.flags.is_rst();
        let ack = segment.header.flags.is_ack();
        if ack && !self.acks_syn(segment) {
            return if rst {
                Judgement::ResetIgnored
            } else {
                Judgement::AckOfNoSyn
            };
        }
        if rst {
            return if ack {
                Judgement::PeerRefuses
            } else {
                Judgement::ResetIgnored
            };
        }
        if segment.header.flags.is_syn() && ack {
            Judgement::PeerAccepts
        } else {
            Judgement::OpensNothing
        }
    }

    /// Arrival in any other phase (RFC 9293, 3.10.7.4).
    #[inline(always)]
    fn judge_after_syn(&self, segment: &RawSegment<'_>) -> Judgement
        ensures { result ≡ judgement_after_syn self.now (raw_content segment.now) }
    {
        judge_after_syn(&self.judged_fields(), segment)
    }

    /// What is read of it where its peer is known.
    #[inline(always)]
    fn judged_fields(&self) -> JudgedFields
        ensures { IsReadOf result self.now }
    {
        JudgedFields {
            rcv_nxt: self.receiver.rcv_nxt,
            rcv_wnd: self.receiver.inbox.window(),
            is_syn_received: is_syn_received(self.phase),
            isn: self.config.isn,
            snd_una: self.sender.snd_una,
            snd_nxt: self.sender.snd_nxt,
        }
    }
}
