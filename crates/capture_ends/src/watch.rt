//! What an end tells beside its numbers: sizes, timestamps and blocks.
use crate::judged_end::Packet;
use crate::notes::{Kind, Notes};
use crate::told::{Blocks, Told, is_from};
use std::alloc::{AllocError, Allocator};
use tcp_wire::{RawSegment, Seq};

/// So many timestamps that came are kept at most.
const MOST_TIMES: usize = 1_024;

/// The least segment that any end takes, whatever its SYN allows.
const LEAST_SIZE: usize = 64;

#[derive(Drop)]
pub(crate) struct Watch<A: Allocator> {
    /// The maximum segment size of a peer whose SYN has none (RFC 9293, 3.7.1), and the greatest that came.
    untold: u16,
    size: Option<u16>,
    /// Whether its SYN has timestamps, and the latest one that it sent.
    has_times: bool,
    time: Option<Seq>,
    /// The timestamps that came since the one that it echoed last, with that, and whether some of them are forgotten.
    times: Vec<Seq, A>,
    forgets_times: bool,
    /// Where the last four texts that came begin, the newest first.
    texts: [Option<Seq>; 4],
    /// The numbers that came again last.
    again: Option<(Seq, Seq)>,
    /// The blocks of its last segment, without one of a duplicate.
    blocks: Blocks,
}

impl<A: Allocator> Watch<A> {
    /// What is known at first. `untold` is the maximum segment size of a peer whose SYN has none.
    pub(crate) fn new(alloc: A, untold: u16) -> Self {
        Watch {
            untold,
            size: None,
            has_times: false,
            time: None,
            times: Vec::new(alloc),
            forgets_times: false,
            texts: [None; 4],
            again: None,
            blocks: Blocks::none(),
        }
    }

    /// Its SYN has another number than the one before.
    pub(crate) fn forget_sent(&mut self) {
        self.time = None;
        self.blocks = Blocks::none();
    }

    /// The peer's SYN has another number than the one before.
    pub(crate) fn forget_came(&mut self) {
        self.size = None;
        self.times.clear();
        self.forgets_times = false;
        self.texts = [None; 4];
        self.again = None;
    }

    /// A segment came, from `begin` up to before `end`. `is_again` says that it begins before what came last.
    pub(crate) fn came(
        &mut self,
        segment: &RawSegment<'_>,
        told: &Told,
        begin: Seq,
        end: Seq,
        is_again: bool,
    ) -> Result<(), AllocError> {
        if segment.header.flags.is_syn() {
            let size = told.size.unwrap_or(self.untold);
            self.size = Some(size.max(self.size.unwrap_or(0)));
        }
        if begin != end {
            let [first, second, third, _] = self.texts;
            self.texts = [Some(begin), first, second, third];
            if is_again {
                self.again = Some((begin, end));
            }
        }
        match told.times {
            Some((time, _)) => self.keep_time(time),
            None => Ok(()),
        }
    }

    /// Keeps a timestamp that came.
    fn keep_time(&mut self, time: Seq) -> Result<(), AllocError> {
        if self.times.last().copied() == Some(time) {
            return Ok(());
        }
        if self.times.len() >= MOST_TIMES {
            self.times.remove(0);
            self.forgets_times = true;
        }
        self.times.push(time)?;
        Ok(())
    }

    /// The end sent a segment to a peer.
    pub(crate) fn went(
        &mut self,
        notes: &mut Notes,
        peer: &Watch<A>,
        packet: Packet,
        segment: &RawSegment<'_>,
        told: &Told,
    ) {
        if segment.header.flags.is_syn() {
            self.has_times = told.times.is_some();
        }
        if self.is_long(packet, segment) {
            notes.add(Kind::LongSegment, packet.number);
        }
        if self.has_times && peer.has_times {
            self.take_times(notes, packet, segment, told.times);
        }
        if segment.header.flags.is_ack() {
            self.take_blocks(notes, packet, segment.header.ack, told.blocks);
        }
    }

    /// Whether text and options are more than the peer's SYN allows (RFC 9293, 3.7.1; RFC 6691, 2). A segment whose checksum
    /// was left to a device may be one that this cuts.
    fn is_long(&self, packet: Packet, segment: &RawSegment<'_>) -> bool {
        match self.size {
            Some(size) if !packet.is_mended => {
                let len = segment.text.len().saturating_add(segment.area.len());
                len > LEAST_SIZE && len > usize::from(size)
            }
            _ => false,
        }
    }

    /// Takes the timestamp and the echo of a segment, where both SYNs had the option (RFC 7323, 3.2).
    fn take_times(
        &mut self,
        notes: &mut Notes,
        packet: Packet,
        segment: &RawSegment<'_>,
        times: Option<(Seq, Seq)>,
    ) {
        let Some((time, echo)) = times else {
            notes.add(Kind::NoTimestamp, packet.number);
            return;
        };
        match self.time {
            Some(known) if time.before(known) => notes.add(Kind::TimestampBack, packet.number),
            _ => self.time = Some(time),
        }
        if segment.header.flags.is_ack() && !self.echoes(echo) {
            notes.add(Kind::StrangeEcho, packet.number);
        }
    }

    /// Whether an echo is of a timestamp that came, or may be; what came before that is forgotten.
    fn echoes(&mut self, echo: Seq) -> bool {
        let mut before = 0usize;
        let mut is_known = false;
        for time in self.times.iter() {
            if *time == echo {
                is_known = true;
                break;
            }
            before = before.saturating_add(1);
        }
        if is_known {
            self.forget_times(before);
        }
        is_known || self.forgets_times
    }

    /// Forgets so many of the oldest timestamps that came.
    fn forget_times(&mut self, count: usize) {
        for _ in 0..count {
            if !self.times.is_empty() {
                self.times.remove(0);
            }
        }
        self.forgets_times = false;
    }

    /// Takes the blocks beside an acknowledgement (RFC 2018, 3 and 4; RFC 2883, 4).
    fn take_blocks(&mut self, notes: &mut Notes, packet: Packet, ack: Seq, blocks: Blocks) {
        let duplicate = blocks.duplicate(ack);
        let rest = match duplicate {
            Some(_) => blocks.behind_first(),
            None => blocks,
        };
        if rest.touch(ack) {
            notes.add(Kind::TouchingBlocks, packet.number);
        }
        if rest.any_before(ack) || self.is_old(ack, duplicate) {
            notes.add(Kind::OldBlock, packet.number);
        }
        if let Some(first) = rest.first() {
            if self.blocks.behind_first().has(first) && !self.begins_in(first) {
                notes.add(Kind::FirstBlock, packet.number);
            }
        }
        self.blocks = rest;
    }

    /// Whether a block before the acknowledgement is of nothing that came again.
    fn is_old(&self, ack: Seq, duplicate: Option<(Seq, Seq)>) -> bool {
        let Some((left, right)) = duplicate else {
            return false;
        };
        let is_repeated = match self.again {
            Some((begin, end)) => left.before(end) && begin.before(right),
            None => false,
        };
        left.before(ack) && !is_repeated
    }

    /// Whether one of the last four texts that came begins in a block.
    fn begins_in(&self, block: (Seq, Seq)) -> bool {
        let mut is_in = false;
        for text in self.texts {
            if let Some(begin) = text {
                is_in = is_in || (is_from(block.0, begin) && begin.before(block.1));
            }
        }
        is_in
    }
}
