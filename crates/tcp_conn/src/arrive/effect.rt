//! The effect of each judgement on an arrival (RFC 9293, 3.10.7), a method for each rule.
ghost use Rattle.std.specs.Prelude.{◌≡◌, ◌≢◌};
ghost use Rattle.tcp_wire.specs.View.{raw_content};
ghost use Rattle.tcp_conn.specs.Arrival.{after_acked_text, after_fin, after_its_ack, after_its_text, after_judgement, after_own_fin, after_own_syn, after_peer_accepts, after_peer_opens, after_reported_blocks, after_taking, after_taking_shut, after_window_and_blocks, reset_at_ack, reset_of_stray, takes_fin, with_reset};
ghost use Rattle.tcp_conn.specs.Taking.{brought_by, brought_kept, brought_text, takes_window, takes_window_by, takes_window_of};

use crate::arrive::brought::{Brought, Effect, brings};
use crate::arrive::judgement::{Judgement, count_numbers};
use crate::endpoint::Endpoint;
use crate::phase::{Ending, Phase};
use crate::phases::{is_closed, is_syn_received, phase_after_fin, takes_text};
use std::alloc::Allocator;
use tcp_halves::{Peer, WaitingReset, link_of};
use tcp_wire::{Addr, RawSegment, Seq};

/// A reset at SEG.ACK (RFC 9293, 3.10.7.1).
fn reset_at_ack(src: Addr, segment: &RawSegment<'_>) -> WaitingReset
    ensures { result ≡ reset_at_ack src.0 (raw_content segment.now) }
{
    WaitingReset {
        to: Peer {
            addr: src,
            port: segment.header.src_port,
        },
        seq: segment.header.ack,
        ack: None,
    }
}

/// The reset that answers a segment for which there is no connection (RFC 9293, 3.10.7.1).
pub(crate) fn reset_of_stray(src: Addr, segment: &RawSegment<'_>) -> WaitingReset
    ensures { result ≡ reset_of_stray src.0 (raw_content segment.now) }
{
    if segment.header.flags.is_ack() {
        return reset_at_ack(src, segment);
    }
    WaitingReset {
        to: Peer {
            addr: src,
            port: segment.header.src_port,
        },
        seq: Seq(0),
        ack: Some(segment.header.seq.plus(count_numbers(segment))),
    }
}

impl<A: Allocator> Endpoint<A> {
    /// The effect of a judgement, and what is reported of it.
    #[inline(always)]
    pub(crate) fn follow(&mut self, rule: Judgement, src: Addr, segment: &RawSegment<'_>) -> Effect
        ensures state { self.new ≡ after_judgement rule self.old src.0 (raw_content segment.now) }
        ensures window { result.window_taken ≡ takes_window_by rule self.old (raw_content segment.now) }
        ensures brought { result.brought ≡ brought_by rule self.old (raw_content segment.now) }
    {
        match rule {
            Judgement::Taken => self.take_all(segment),
            Judgement::TakenShut => Effect {
                window_taken: self.take_shut(segment),
                brought: Brought::in_vain(segment),
            },
            _ => {
                self.follow_other(rule, src, segment);
                Effect {
                    window_taken: rule == Judgement::PeerAccepts,
                    brought: Brought::in_vain(segment),
                }
            }
        }
    }

    /// The effect of a judgement by which no text and no acknowledgement of text is taken.
    #[inline(never)]
    fn follow_other(&mut self, rule: Judgement, src: Addr, segment: &RawSegment<'_>)
        requires open { rule ≢ Judgement.Taken }
        requires shut { rule ≢ Judgement.TakenShut }
        ensures { self.new ≡ after_judgement rule self.old src.0 (raw_content segment.now) }
    {
        match rule {
            Judgement::Foreign
            | Judgement::ResetIgnored
            | Judgement::OpensNothing
            | Judgement::NoAck
            | Judgement::Taken
            | Judgement::TakenShut => {}
            Judgement::Stray => self.record_reset(reset_of_stray(src, segment)),
            Judgement::AckOfListen | Judgement::AckOfNoSyn | Judgement::HandshakeRefused => {
                self.record_reset(reset_at_ack(src, segment));
            }
            Judgement::HandshakeRefusedShut => {
                self.record_reset(reset_at_ack(src, segment));
                self.pending.ack = true;
            }
            Judgement::PeerOpens => self.peer_opens(src, segment),
            Judgement::PeerAccepts => self.peer_accepts(segment),
            Judgement::PeerRefuses | Judgement::PeerResets => self.end_by(Ending::Reset),
            Judgement::Unacceptable
            | Judgement::ResetElsewhere
            | Judgement::SynInWindow
            | Judgement::AcksUnsent => self.pending.ack = true,
        }
    }

    /// A reset waits, unless one does already (RFC 9293, 3.10.7.1).
    fn record_reset(&mut self, reset: WaitingReset)
        ensures { self.new ≡ with_reset self.old reset }
    {
        if self.pending.reset.is_none() {
            self.pending.reset = Some(reset);
        }
    }

    /// A SYN in LISTEN: the peer opens (RFC 9293, 3.10.7.2, third).
    #[inline(never)]
    #[tactic(auto, unfolding(crate::specs::Arrival::after_peer_opens))]
    fn peer_opens(&mut self, src: Addr, segment: &RawSegment<'_>)
        ensures { self.new ≡ after_peer_opens self.old src.0 (raw_content segment.now) }
    {
        self.phase = Phase::SynReceived;
        self.peer = Peer {
            addr: src,
            port: segment.header.src_port,
        };
        self.link = link_of(&self.config, segment.options_left());
        self.sender.send_syn();
        self.receiver.take_syn(segment.header.seq);
        self.pending.syn = true;
    }

    /// A SYN with ACK in SYN-SENT: the peer accepts, and its window isn't scaled (RFC 9293, 3.10.7.3, fourth).
    #[inline(never)]
    #[tactic(auto, unfolding(crate::specs::Arrival::after_peer_accepts))]
    fn peer_accepts(&mut self, segment: &RawSegment<'_>)
        ensures { self.new ≡ after_peer_accepts self.old (raw_content segment.now) }
    {
        self.phase = Phase::Established;
        self.link = link_of(&self.config, segment.options_left());
        self.sender.take_syn_ack(
            segment.header.seq,
            segment.header.ack,
            u32::from(segment.header.window),
        );
        self.receiver.take_syn(segment.header.seq);
        self.pending.syn = false;
        self.pending.ack = true;
    }

    /// Takes all of a segment (RFC 9293, 3.10.7.4, fifth to eighth), and returns what is reported of it.
    #[inline(always)]
    #[tactic(auto, unfolding(crate::specs::Arrival::after_taking))]
    fn take_all(&mut self, segment: &RawSegment<'_>) -> Effect
        ensures state { self.new ≡ after_taking self.old (raw_content segment.now) }
        ensures window { result.window_taken ≡ takes_window self.old (raw_content segment.now) }
        ensures brought { result.brought ≡ brought_kept (after_its_ack self.old (raw_content segment.now)) (raw_content segment.now) }
    {
        let window_taken = self.take_its_ack(segment);
        let text = self.take_its_text(segment);
        let brought = if self.take_fin(segment) {
            Brought::InOrder
        } else if brings(segment) {
            text
        } else {
            Brought::Nothing
        };
        Effect {
            window_taken,
            brought,
        }
    }

    /// At a zero window: text and FIN are dropped, and an acknowledgement shows where the window lies (RFC 9293,
    /// 3.10.7.4, first). Whether the peer's window is taken.
    #[inline(always)]
    #[tactic(auto, unfolding(crate::specs::Arrival::after_taking_shut))]
    fn take_shut(&mut self, segment: &RawSegment<'_>) -> bool
        ensures state { self.new ≡ after_taking_shut self.old (raw_content segment.now) }
        ensures window { result ≡ takes_window self.old (raw_content segment.now) }
    {
        let window_taken = self.take_its_ack(segment);
        self.pending.ack = self.pending.ack || !is_closed(self.phase);
        window_taken
    }

    /// Takes acknowledgement, window and blocks (RFC 9293, 3.10.7.4, fifth). Whether the window is taken.
    #[inline(always)]
    #[tactic(auto, unfolding(crate::specs::Arrival::after_its_ack))]
    fn take_its_ack(&mut self, segment: &RawSegment<'_>) -> bool
        ensures state { self.new ≡ after_its_ack self.old (raw_content segment.now) }
        ensures window { result ≡ takes_window self.old (raw_content segment.now) }
    {
        self.take_own_syn(segment);
        self.take_acked_text(segment);
        let window_taken = self.take_window_and_blocks(segment);
        self.take_own_fin();
        window_taken
    }

    /// This end's SYN is acknowledged in SYN-RECEIVED; a waiting close takes effect (RFC 9293, 3.10.7.4, fifth).
    #[tactic(auto, unfolding(crate::specs::Arrival::after_own_syn))]
    fn take_own_syn(&mut self, segment: &RawSegment<'_>)
        ensures { self.new ≡ after_own_syn self.old (raw_content segment.now) }
    {
        if is_syn_received(self.phase) {
            self.phase = if self.closing {
                Phase::FinWait1
            } else {
                Phase::Established
            };
            let window = self.window_from(segment.header.window);
            self.sender
                .take_syn_ack(segment.header.seq, segment.header.ack, window);
            self.pending.syn = false;
        }
    }

    /// Text is acknowledged (RFC 9293, 3.10.7.4, fifth).
    #[inline(always)]
    #[tactic(auto, unfolding(crate::specs::Arrival::after_acked_text))]
    fn take_acked_text(&mut self, segment: &RawSegment<'_>)
        ensures { self.new ≡ after_acked_text self.old (raw_content segment.now) }
    {
        let ack = self.position_near(segment.header.ack);
        self.sender.take_ack(ack);
    }

    /// Takes the window, then each block, but not from an acknowledgement that is older than SND.UNA (RFC 9293,
    /// 3.10.7.4, fifth; RFC 2018, 5). Whether the window is taken.
    #[tactic(auto, unfolding(crate::specs::Arrival::after_window_and_blocks))]
    fn take_window_and_blocks(&mut self, segment: &RawSegment<'_>) -> bool
        ensures state { self.new ≡ after_window_and_blocks self.old (raw_content segment.now) }
        ensures window { result ≡ takes_window_of self.old (raw_content segment.now) }
    {
        let ack = self.position_near(segment.header.ack);
        if ack < self.sender.snd_una {
            return false;
        }
        let window = self.window_from(segment.header.window);
        let is_taken = self
            .sender
            .update_window(segment.header.seq, segment.header.ack, window);
        // Most segments have no options.
        if self.link.sack && segment.has_area() {
            self.take_blocks(segment);
        }
        is_taken
    }

    /// Marks the text of the blocks of all options (RFC 2018, 5). It is a separate function, as `peer_opens` and
    /// `peer_accepts` are: an option among the locals of a plain arrival would be zeroed each time.
    #[inline(never)]
    fn take_blocks(&mut self, segment: &RawSegment<'_>)
        ensures { self.new ≡ after_reported_blocks self.old (raw_content segment.now) }
    {
        let iss = self.config.isn;
        self.sender.mark_reported(iss, segment.options_left());
    }

    /// This end's FIN is acknowledged (RFC 9293, 3.10.7.4, fifth).
    #[tactic(auto, unfolding(crate::specs::Arrival::after_own_fin))]
    fn take_own_fin(&mut self)
        ensures { self.new ≡ after_own_fin self.old }
    {
        if !self.sender.is_fin_acked() {
            return;
        }
        match self.phase {
            Phase::LastAck => self.end_in_order(),
            Phase::FinWait1 => self.phase = Phase::FinWait2,
            Phase::Closing => self.phase = Phase::TimeWait,
            _ => {}
        }
    }

    /// Places its text, if any; an acknowledgement is then pending for it (RFC 9293, 3.10.7.4, seventh). Returns what
    /// became of it.
    #[tactic(auto, unfolding(crate::specs::Arrival::after_its_text))]
    fn take_its_text(&mut self, segment: &RawSegment<'_>) -> Brought
        ensures state { self.new ≡ after_its_text self.old (raw_content segment.now) }
        ensures brought { result ≡ brought_text self.old (raw_content segment.now) }
    {
        if !takes_text(self.phase) || segment.text.is_empty() {
            return Brought::NotKept;
        }
        let placed = self.receiver.place(segment.header.seq, segment.text);
        self.pending.ack = true;
        Brought::text(placed)
    }

    /// Acknowledges the peer's FIN, and takes it where its number is RCV.NXT (RFC 9293, 3.10.7.4, eighth). Whether it
    /// is taken.
    #[tactic(auto, unfolding(crate::specs::Arrival::after_fin))]
    fn take_fin(&mut self, segment: &RawSegment<'_>) -> bool
        ensures state { self.new ≡ after_fin self.old (raw_content segment.now) }
        ensures taken { result ≡ takes_fin self.old (raw_content segment.now) }
    {
        if !takes_text(self.phase) || !segment.header.flags.is_fin() {
            return false;
        }
        self.pending.ack = true;
        let number = segment.header.seq.plus(segment.text.len() as u32);
        let is_taken = self.receiver.is_fin_due(number);
        if is_taken {
            self.receiver.take_fin();
            self.phase = phase_after_fin(self.phase);
        }
        is_taken
    }
}
