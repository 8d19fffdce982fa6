//! What an end sent and acknowledged, as far as notes ask for it.
use crate::judged_end::Packet;
use crate::notes::{Kind, Notes};
use crate::told::Told;
use crate::watch::Watch;
use std::alloc::{AllocError, Allocator, Global};
use tcp_wire::{RawSegment, Seq};

/// Numbers that were passed over: from the first up to before the second.
#[derive(Clone, Copy)]
struct Gap {
    begin: Seq,
    end: Seq,
}

/// At most so many are kept of an end; with more the oldest one is forgotten.
const MOST_GAPS: usize = 16;

/// What is timed: up to which number, and when it was sent.
#[derive(Clone, Copy)]
struct Timed {
    end: Seq,
    time: u64,
}

/// The furthest acknowledgement that an end sent.
#[derive(Clone, Copy)]
struct Acknowledged {
    number: Seq,
    /// The window field that came with it last, and the number behind the window where the shift is known.
    window: u16,
    edge: Option<Seq>,
    /// How many duplicates of it went, and whether what begins at it was sent again since.
    duplicates: u32,
    is_answered: bool,
}

#[derive(Drop)]
pub(crate) struct Flow<A: Allocator = Global> {
    /// The number of its SYN.
    initial: Option<Seq>,
    /// The number behind all that it sent: SND.NXT.
    next: Option<Seq>,
    gaps: Vec<Gap, A>,
    timed: Option<Timed>,
    acknowledged: Option<Acknowledged>,
    /// Its SYN's window scale, if it sent a SYN (RFC 7323, 2.2).
    offer: Option<Option<u8>>,
    /// The number behind the window that it told last.
    edge: Option<Seq>,
    /// The least number of a segment without text: SND.NXT, or where what was sent again since it moved begins.
    floor: Option<Seq>,
    /// What it tells beside its numbers.
    watch: Watch<A>,
    pub(crate) notes: Notes,
}

/// The numbers that a segment takes: its SYN, its text and its FIN.
fn len_of(segment: &RawSegment<'_>) -> u32 {
    let flags = segment.header.flags;
    let controls = u32::from(flags.is_syn()) + u32::from(flags.is_fin());
    (segment.text.len() as u32).saturating_add(controls)
}

impl<A: Allocator + Copy> Flow<A> {
    /// What is known of an end at first, whose peer's maximum segment size is `untold` where its SYN has none.
    pub(crate) fn new(alloc: A, untold: u16) -> Self {
        Flow {
            initial: None,
            next: None,
            gaps: Vec::new(alloc),
            timed: None,
            acknowledged: None,
            offer: None,
            edge: None,
            floor: None,
            watch: Watch::new(alloc, untold),
            notes: Notes::new(),
        }
    }
}

impl<A: Allocator> Flow<A> {
    /// The number that its furthest acknowledgement has.
    fn acknowledges(&self) -> Option<Seq> {
        match self.acknowledged {
            Some(known) => Some(known.number),
            None => None,
        }
    }

    /// Whether a number is before its furthest acknowledgement.
    fn acknowledges_behind(&self, number: Seq) -> bool {
        match self.acknowledged {
            Some(known) => number.before(known.number),
            None => false,
        }
    }

    /// Whether the segment is a keep-alive: all that was sent is acknowledged, and it begins one before (RFC 9293, 3.8.4).
    fn is_keep_alive(&self, peer: &Flow<A>, segment: &RawSegment<'_>) -> bool {
        let flags = segment.header.flags;
        !flags.is_syn()
            && !flags.is_fin()
            && segment.text.len() <= 1
            && self.next == Some(segment.header.seq.plus(1))
            && self.next == peer.acknowledges()
    }

    /// Takes numbers out of the gaps, and says whether the first was in one: then it wasn't seen before.
    fn fill_gaps(&mut self, begin: Seq, end: Seq) -> Result<bool, AllocError> {
        let mut is_late = false;
        let mut rest = None;
        for gap in self.gaps.iter_mut() {
            if !begin.before(gap.end) || !gap.begin.before(end) {
                continue;
            }
            if !begin.before(gap.begin) {
                is_late = true;
                rest = Some(Gap {
                    begin: end,
                    end: gap.end,
                });
                gap.end = begin;
            } else {
                gap.begin = end;
            }
        }
        match rest {
            Some(gap) => self.add_gap(gap.begin, gap.end)?,
            None => self.forget_gaps(),
        }
        Ok(is_late)
    }

    /// Forgets the gaps that are filled.
    fn forget_gaps(&mut self) {
        self.gaps.retain(|gap| gap.begin.before(gap.end));
    }

    /// Keeps numbers that were passed over.
    fn add_gap(&mut self, begin: Seq, end: Seq) -> Result<(), AllocError> {
        self.forget_gaps();
        if !begin.before(end) {
            return Ok(());
        }
        if self.gaps.len() >= MOST_GAPS {
            self.gaps.remove(0);
        }
        self.gaps.push(Gap { begin, end })?;
        Ok(())
    }

    /// Takes what begins before SND.NXT.
    fn take_older(
        &mut self,
        peer: &mut Flow<A>,
        number: usize,
        begin: Seq,
        end: Seq,
    ) -> Result<(), AllocError> {
        // What is sent again isn't timed, nor what is sent before it is acknowledged (RFC 6298, 3).
        self.timed = None;
        self.lower_floor(begin);
        let is_late = self.fill_gaps(begin, end)? && !peer.acknowledges_behind(begin);
        let is_fast = peer.answers(begin);
        if is_fast {
            self.notes.add(Kind::FastRetransmission, number);
        }
        if is_late && !is_fast {
            self.notes.add(Kind::OutOfOrder, number);
        } else {
            self.notes.add(Kind::Retransmission, number);
        }
        Ok(())
    }

    /// Whether what begins at a number is sent the first time after three duplicate acknowledgements of it.
    fn answers(&mut self, begin: Seq) -> bool {
        match &mut self.acknowledged {
            Some(known) if known.number == begin && known.duplicates >= 3 && !known.is_answered => {
                known.is_answered = true;
                true
            }
            _ => false,
        }
    }

    /// Takes the numbers of a segment: those of an acknowledgement alone are none, at SND.NXT.
    fn take_numbers(
        &mut self,
        peer: &mut Flow<A>,
        packet: Packet,
        begin: Seq,
        end: Seq,
    ) -> Result<(), AllocError> {
        let next = match self.next {
            Some(next) => next,
            None => begin,
        };
        if begin.before(next) {
            if begin != end {
                self.take_older(peer, packet.number, begin, end)?;
            }
            if next.before(end) {
                self.next = Some(end);
                self.floor = Some(end);
            }
            return Ok(());
        }
        if begin != next {
            self.notes.add(Kind::PreviousNotSeen, packet.number);
            self.add_gap(next, begin)?;
        }
        self.next = Some(end);
        self.floor = Some(end);
        if begin != end {
            self.begin_timing(packet, end);
        }
        Ok(())
    }

    /// SND.NXT may have fallen back to a number, from which on all is sent again.
    fn lower_floor(&mut self, begin: Seq) {
        if let Some(floor) = self.floor {
            if begin.before(floor) {
                self.floor = Some(begin);
            }
        }
    }

    /// Whether a segment without text, SYN and FIN at a number is neither at SND.NXT, nor where that may have fallen back
    /// to, nor a probe: these are at the furthest acknowledgement or one before (RFC 9293, 3.8.4).
    fn is_behind(&self, peer: &Flow<A>, begin: Seq) -> bool {
        let is_below = match self.floor {
            Some(floor) => begin.before(floor),
            None => false,
        };
        match peer.acknowledges() {
            Some(number) if begin.plus(1) == number || begin == number => false,
            Some(number) => is_below || begin.before(number),
            None => is_below,
        }
    }

    /// Times what is sent the first time, unless something is timed already: one round trip at a time (RFC 6298, 3).
    fn begin_timing(&mut self, packet: Packet, end: Seq) {
        if self.timed.is_none() {
            self.timed = Some(Timed {
                end,
                time: packet.time,
            });
        }
    }

    /// What it sent is acknowledged up to a number.
    fn take_acknowledged(&mut self, packet: Packet, number: Seq) {
        self.gaps.retain(|gap| number.before(gap.end));
        if let Some(timed) = self.timed {
            if !number.before(timed.end) {
                self.notes.add_trip(packet.time.saturating_sub(timed.time));
                self.timed = None;
            }
        }
    }

    /// How far the window of a segment of this end is shifted, if both SYNs are known, as only then that is (RFC 7323, 2.2
    /// and 2.3).
    fn shift_of(&self, peer: &Flow<A>, segment: &RawSegment<'_>) -> Option<u32> {
        let own = self.offer?;
        let other = peer.offer?;
        match own {
            Some(shift) if other.is_some() && !segment.header.flags.is_syn() => {
                Some(u32::from(shift.min(14)))
            }
            _ => Some(0),
        }
    }

    /// The number behind the window that a segment of this end tells, if the shift is known.
    fn edge_of(&self, peer: &Flow<A>, segment: &RawSegment<'_>) -> Option<Seq> {
        let shift = self.shift_of(peer, segment)?;
        Some(
            segment
                .header
                .ack
                .plus(u32::from(segment.header.window) << shift.min(14)),
        )
    }

    /// Takes the number behind the window of a segment, unless that was late. One that falls by less than the shift shows is
    /// rounded down (RFC 9293, 3.8.6; RFC 7323, 2.4).
    fn take_edge(&mut self, peer: &Flow<A>, packet: Packet, segment: &RawSegment<'_>) {
        if self.acknowledges_behind(segment.header.ack) {
            return;
        }
        let (Some(shift), Some(edge)) = (self.shift_of(peer, segment), self.edge_of(peer, segment))
        else {
            return;
        };
        if let Some(known) = self.edge {
            if edge.before(known) && known.minus(edge) >> shift.min(14) > 0 {
                self.notes.add(Kind::ShrunkWindow, packet.number);
            }
        }
        self.edge = Some(edge);
    }

    /// Takes the acknowledgement of a segment, and its window.
    fn take_ack(&mut self, peer: &mut Flow<A>, packet: Packet, segment: &RawSegment<'_>) {
        let number = segment.header.ack;
        let window = segment.header.window;
        let edge = self.edge_of(peer, segment);
        let Some(known) = &mut self.acknowledged else {
            self.acknowledged = Some(Acknowledged::new(number, window, edge));
            peer.take_acknowledged(packet, number);
            return;
        };
        if number.before(known.number) {
            return;
        }
        if number != known.number {
            *known = Acknowledged::new(number, window, edge);
            peer.take_acknowledged(packet, number);
            return;
        }
        let is_outstanding = match peer.next {
            Some(next) => number.before(next),
            None => false,
        };
        if is_outstanding && window == known.window && len_of(segment) == 0 {
            known.duplicates = known.duplicates.saturating_add(1);
            self.notes.add(Kind::DuplicateAck, packet.number);
        }
        known.window = window;
        known.edge = edge;
    }

    /// Takes a SYN; one with another number begins all numbers anew.
    fn take_syn(&mut self, peer: &mut Flow<A>, segment: &RawSegment<'_>, told: &Told) {
        let number = segment.header.seq;
        self.offer = Some(told.shift);
        if self.initial != Some(number) {
            self.next = None;
            self.gaps.clear();
            self.timed = None;
            self.floor = None;
            self.watch.forget_sent();
            peer.acknowledged = None;
            peer.edge = None;
            peer.watch.forget_came();
        }
        self.initial = Some(number);
    }

    /// The end sent a segment, which has no RST, to its peer.
    pub(crate) fn went(
        &mut self,
        peer: &mut Flow<A>,
        packet: Packet,
        segment: &RawSegment<'_>,
    ) -> Result<(), AllocError> {
        let told = Told::of(segment);
        let begin = segment.header.seq;
        let end = begin.plus(len_of(segment));
        if segment.header.flags.is_syn() {
            self.take_syn(peer, segment, &told);
        }
        self.watch
            .went(&mut self.notes, &peer.watch, packet, segment, &told);
        let is_again = match self.next {
            Some(next) => begin.before(next),
            None => false,
        };
        peer.watch.came(segment, &told, begin, end, is_again)?;
        if self.is_keep_alive(peer, segment) {
            self.notes.add(Kind::KeepAlive, packet.number);
        } else {
            self.take_new(peer, packet, segment, begin, end)?;
        }
        if segment.header.flags.is_ack() {
            self.take_window(peer, packet, segment);
        }
        Ok(())
    }

    /// Takes the numbers of a segment that is no keep-alive.
    fn take_new(
        &mut self,
        peer: &mut Flow<A>,
        packet: Packet,
        segment: &RawSegment<'_>,
        begin: Seq,
        end: Seq,
    ) -> Result<(), AllocError> {
        if begin == end && self.is_behind(peer, begin) {
            self.notes.add(Kind::OldNumber, packet.number);
        }
        self.take_numbers(peer, packet, begin, end)?;
        if !segment.text.is_empty() && peer.ends_at(end) {
            self.notes.add(Kind::WindowFull, packet.number);
        }
        Ok(())
    }

    /// Takes the acknowledgement and the window of a segment.
    fn take_window(&mut self, peer: &mut Flow<A>, packet: Packet, segment: &RawSegment<'_>) {
        let flags = segment.header.flags;
        self.take_edge(peer, packet, segment);
        self.take_ack(peer, packet, segment);
        if segment.header.window == 0 && !flags.is_syn() && !flags.is_fin() {
            self.notes.add(Kind::ZeroWindow, packet.number);
        }
    }

    /// Whether the window that it told ends before this number.
    fn ends_at(&self, end: Seq) -> bool {
        match self.acknowledged {
            Some(known) => known.edge == Some(end),
            None => false,
        }
    }
}

impl Acknowledged {
    fn new(number: Seq, window: u16, edge: Option<Seq>) -> Self {
        Acknowledged {
            number,
            window,
            edge,
            duplicates: 0,
            is_answered: false,
        }
    }
}
