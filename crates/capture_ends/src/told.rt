//! What the options of a segment tell.
use tcp_wire::{RawSegment, Seq, TcpOption};

/// The kind of timestamps (RFC 7323, 3.2).
const TIMES: u8 = 8;

/// Whether a number is another one or after it.
pub(crate) fn is_from(least: Seq, number: Seq) -> bool {
    !number.before(least)
}

/// The blocks of a segment, each as its left edge and the number behind it: an option has four at most (RFC 2018, 3).
#[derive(Clone, Copy)]
pub(crate) struct Blocks {
    list: [Option<(Seq, Seq)>; 4],
}

/// What a segment tells by its options. Of two of one kind the last one counts.
#[derive(Clone, Copy)]
pub(crate) struct Told {
    /// The window scale, 14 at most (RFC 7323, 2.3).
    pub(crate) shift: Option<u8>,
    /// The maximum segment size.
    pub(crate) size: Option<u16>,
    /// The timestamp and the one that it echoes.
    pub(crate) times: Option<(Seq, Seq)>,
    pub(crate) blocks: Blocks,
}

fn times_of(body: &[u8]) -> Option<(Seq, Seq)> {
    match body {
        [a, b, c, d, e, f, g, h] => Some((
            Seq(u32::from_be_bytes([*a, *b, *c, *d])),
            Seq(u32::from_be_bytes([*e, *f, *g, *h])),
        )),
        _ => None,
    }
}

impl Told {
    fn take(&mut self, option: &TcpOption<'_>) {
        match option {
            TcpOption::WindowScale(shift) => self.shift = Some((*shift).min(14)),
            TcpOption::Mss(size) => self.size = Some(*size),
            TcpOption::Sack(blocks) => self.blocks = Blocks::of(blocks.as_slice()),
            TcpOption::Unknown { kind, body } if *kind == TIMES => self.times = times_of(body),
            _ => {}
        }
    }

    /// What the options of a segment tell.
    pub(crate) fn of(segment: &RawSegment<'_>) -> Told {
        let mut told = Told {
            shift: None,
            size: None,
            times: None,
            blocks: Blocks::none(),
        };
        if !segment.has_area() {
            return told;
        }
        let mut left = segment.options_left();
        for _ in 0..40u32 {
            match left.next() {
                None => break,
                Some(option) => told.take(&option),
            }
        }
        told
    }
}

/// Whether two blocks have a number in common, or one begins where the other ends.
fn meet(one: Option<(Seq, Seq)>, other: Option<(Seq, Seq)>) -> bool {
    match (one, other) {
        (Some(one), Some(other)) => is_from(one.0, other.1) && is_from(other.0, one.1),
        _ => false,
    }
}

impl Blocks {
    pub(crate) fn none() -> Self {
        Blocks { list: [None; 4] }
    }

    fn of(blocks: &[(Seq, Seq)]) -> Self {
        Blocks {
            list: [
                blocks.first().copied(),
                blocks.get(1).copied(),
                blocks.get(2).copied(),
                blocks.get(3).copied(),
            ],
        }
    }

    pub(crate) fn first(&self) -> Option<(Seq, Seq)> {
        let [first, _, _, _] = self.list;
        first
    }

    /// All but the first.
    pub(crate) fn behind_first(&self) -> Blocks {
        let [_, second, third, fourth] = self.list;
        Blocks {
            list: [second, third, fourth, None],
        }
    }

    /// The first block, where it reports a duplicate: it begins before the acknowledgement, or lies in the second one (RFC
    /// 2883, 4).
    pub(crate) fn duplicate(&self, ack: Seq) -> Option<(Seq, Seq)> {
        let [first, second, _, _] = self.list;
        let (left, right) = first?;
        let is_inside = match second {
            Some(whole) => is_from(whole.0, left) && is_from(right, whole.1),
            None => false,
        };
        if left.before(ack) || is_inside {
            return first;
        }
        None
    }

    /// Whether two of them meet, or one the acknowledgement: then they are one (RFC 2018, 3).
    pub(crate) fn touch(&self, ack: Seq) -> bool {
        let [first, second, third, fourth] = self.list;
        let mut touch = meet(first, second) || meet(first, third) || meet(first, fourth);
        touch = touch || meet(second, third) || meet(second, fourth) || meet(third, fourth);
        for block in self.list {
            if let Some((left, _)) = block {
                touch = touch || left == ack;
            }
        }
        touch
    }

    /// Whether one begins before a number.
    pub(crate) fn any_before(&self, ack: Seq) -> bool {
        let mut any = false;
        for block in self.list {
            if let Some((left, _)) = block {
                any = any || left.before(ack);
            }
        }
        any
    }

    /// Whether a block is one of them.
    pub(crate) fn has(&self, block: (Seq, Seq)) -> bool {
        let mut has = false;
        for known in self.list {
            has = has || known == Some(block);
        }
        has
    }
}
