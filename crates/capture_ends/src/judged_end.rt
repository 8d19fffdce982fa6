//! One end of a connection: its judge, and what is found of it.
use crate::flow::Flow;
use crate::notes::Kind;
use crate::side::Side;
use kit_judge::{is_damage, rule_of, wants_whole_log};
use std::alloc::{AllocError, Allocator, Global};
use tcp_judge::{Finding, Judge};
use tcp_wire::{Addr, RawSegment, Seq};

/// A packet of the capture.
#[derive(Clone, Copy, PartialEq, Eq)]
pub(crate) struct Packet {
    /// Counted from 1.
    pub(crate) number: usize,
    /// When it was seen, in nanoseconds from 1970 on.
    pub(crate) time: u64,
    /// Whether its checksum was left to a device, and is made right.
    pub(crate) is_mended: bool,
}

impl Packet {
    /// The packet, whose checksum was left to a device.
    pub(crate) fn mended(self) -> Packet {
        Packet {
            number: self.number,
            time: self.time,
            is_mended: true,
        }
    }
}

/// The first packet that breaks a rule, and how many do.
#[derive(Clone, Copy)]
pub(crate) struct Broken {
    pub(crate) packet: Packet,
    pub(crate) finding: Finding,
    pub(crate) count: usize,
}

/// How many packets of a kind there are, and the first.
#[derive(Clone, Copy)]
pub(crate) struct Note {
    pub(crate) count: usize,
    pub(crate) first: usize,
}

impl Note {
    pub(crate) fn add(&mut self, number: usize) {
        if self.count == 0 {
            self.first = number;
        }
        self.count = self.count.saturating_add(1);
    }
}

pub(crate) const NONE: Note = Note { count: 0, first: 0 };

/// An end, what is known of it and what it broke.
#[derive(Drop)]
pub(crate) struct JudgedEnd<A: Allocator = Global> {
    pub(crate) side: Side,
    /// Its address in checksums.
    pub(crate) addr: Addr,
    judge: Judge<A>,
    /// The number of its first SYN, from which relative numbers count.
    pub(crate) initial: Option<Seq>,
    /// How many segments it sent, and how many bytes of text these had, resent ones among them.
    pub(crate) segments: usize,
    pub(crate) text: u64,
    /// A rule has at most one of these.
    pub(crate) broken: Vec<Broken, A>,
    /// Segments with a wrong checksum that it sent.
    pub(crate) damaged: Note,
    /// Whether what it acknowledges can't be compared with what came: it acknowledged something before a SYN came to it or it
    /// sent one, so that what came before isn't in the capture.
    pub(crate) lacks_beginning: bool,
    /// What it sent and acknowledged, with the notes.
    pub(crate) flow: Flow<A>,
}

/// Adds a finding to those of its rule.
fn add_finding<A: Allocator>(
    broken: &mut Vec<Broken, A>,
    packet: Packet,
    finding: Finding,
) -> Result<(), AllocError> {
    for known in broken.iter_mut() {
        if rule_of(known.finding) == rule_of(finding) {
            known.count = known.count.saturating_add(1);
            return Ok(());
        }
    }
    broken.push(Broken {
        packet,
        finding,
        count: 1,
    })?;
    Ok(())
}

impl<A: Allocator + Copy> JudgedEnd<A> {
    pub(crate) fn new(alloc: A, side: Side) -> Self {
        JudgedEnd {
            side,
            addr: side.host.in_sums(),
            judge: Judge::new_in(alloc),
            initial: None,
            segments: 0,
            text: 0,
            broken: Vec::new(alloc),
            damaged: NONE,
            lacks_beginning: false,
            flow: Flow::new(alloc, side.host.untold_size()),
        }
    }

    /// What a segment that can be read tells of the end that sent it, `came` being whether a SYN came to that.
    fn tell(&mut self, segment: &RawSegment<'_>, has_peer: bool) {
        let flags = segment.header.flags;
        self.text = self.text.saturating_add(segment.text.len() as u64);
        if flags.is_syn() && self.initial.is_none() {
            self.initial = Some(segment.header.seq);
        }
        // Before its own SYN it is still in an earlier connection (RFC 9293, 3.5, figure 9).
        if flags.is_ack() && !flags.is_rst() && (!has_peer || self.initial.is_none()) {
            self.lacks_beginning = true;
        }
    }

    /// It sent a segment to an end with this address and this flow. `has_peer` says that a SYN came to it before.
    pub(crate) fn went(
        &mut self,
        packet: Packet,
        dst: Addr,
        bytes: &[u8],
        has_peer: bool,
        peer: &mut Flow<A>,
    ) -> Result<(), AllocError> {
        let src = self.addr;
        self.segments = self.segments.saturating_add(1);
        if let Ok(segment) = RawSegment::parse(src, dst, bytes) {
            self.tell(&segment, has_peer);
            if !segment.header.flags.is_rst() {
                self.flow.went(peer, packet, &segment)?;
            }
        }
        let Some(finding) = self.judge.went(src, dst, bytes)? else {
            return Ok(());
        };
        if is_damage(finding) {
            self.damaged.add(packet.number);
        }
        if let Some(kind) = kind_of(finding) {
            self.flow.notes.add(kind, packet.number);
        }
        add_finding(&mut self.broken, packet, finding)
    }

    /// A segment came to it.
    pub(crate) fn came(&mut self, src: Addr, bytes: &[u8]) -> Result<(), AllocError> {
        self.judge.came(src, self.addr, bytes)
    }
}

/// The note of a finding of order, but for those of a segment behind SND.NXT, which has a note already.
fn kind_of(finding: Finding) -> Option<Kind> {
    match finding {
        Finding::BeforeAck(_) => Some(Kind::BeforeAck),
        Finding::AfterReset(_) => Some(Kind::AfterReset),
        Finding::BeyondWindow(_) => Some(Kind::BeyondWindow),
        Finding::StrayReset(_) => Some(Kind::StrayReset),
        _ => None,
    }
}

/// Whether it is of the order in which segments go.
fn is_of_order(finding: Finding) -> bool {
    matches!(
        finding,
        Finding::BeforeAck(_)
            | Finding::AfterReset(_)
            | Finding::Gap(_)
            | Finding::BehindNext(_)
            | Finding::BeyondWindow(_)
            | Finding::StrayReset(_)
    )
}

/// Whether a finding counts, where all rules may be tried and where they mayn't. One of order never does: the machine's
/// own queue may have dropped a segment before it was captured, and a firewall may have sent a reset. It is a note.
pub(crate) fn counts(finding: Finding, is_complete: bool) -> bool {
    !is_of_order(finding) && (is_complete || (!wants_whole_log(finding) && !is_damage(finding)))
}
