//! What an end did that breaks no rule and is worth a look: it is counted, and never accused.
use crate::judged_end::{NONE, Note};

/// What is counted.
#[derive(Clone, Copy, PartialEq, Eq)]
pub(crate) enum Kind {
    /// A SYN, text or a FIN that begins before SND.NXT (RFC 9293, 3.8.1).
    Retransmission,
    /// Of these the first at an acknowledgement after three duplicates of it came (RFC 5681, 3.2).
    FastRetransmission,
    /// A segment of numbers that were passed over before: it was late, or is sent again.
    OutOfOrder,
    /// Text or a FIN that begins behind SND.NXT: what is before it isn't in the capture.
    PreviousNotSeen,
    /// A duplicate acknowledgement (RFC 5681, 2).
    DuplicateAck,
    /// A window of 0 (RFC 9293, 3.8.6).
    ZeroWindow,
    /// Text that ends where the peer's window does (RFC 9293, 3.8.6).
    WindowFull,
    /// A keep-alive (RFC 9293, 3.8.4).
    KeepAlive,
    /// The number behind its window falls by what the shift can show, or more (RFC 9293, 3.8.6).
    ShrunkWindow,
    /// Text and options that are more than the peer's maximum segment size (RFC 9293, 3.7.1).
    LongSegment,
    /// A segment without a timestamp, where both SYNs had one (RFC 7323, 3.2).
    NoTimestamp,
    /// A timestamp before one that it sent (RFC 7323, 4.1).
    TimestampBack,
    /// An echo of no timestamp that came since the one that it echoed before (RFC 7323, 4.3).
    StrangeEcho,
    /// A segment without text, SYN and FIN before SND.NXT, which is no keep-alive (RFC 9293, 3.10.7.4).
    OldNumber,
    /// A first block in which nothing came since it was reported behind another one (RFC 2018, 4).
    FirstBlock,
    /// Two blocks, or a block and the acknowledgement, between which nothing is missing (RFC 2018, 3).
    TouchingBlocks,
    /// A block before the acknowledgement of nothing that came twice (RFC 2018, 4; RFC 2883, 4).
    OldBlock,
    /// What the rules of order find, of which a capture can't tell whether it is the end's (RFC 9293, 3.10.2, 3.10.5, 3.8.6
    /// and 3.5.2).
    BeforeAck,
    AfterReset,
    BeyondWindow,
    StrayReset,
}

/// Each kind, as it is told.
pub(crate) const KINDS: [Kind; 21] = [
    Kind::PreviousNotSeen,
    Kind::OutOfOrder,
    Kind::Retransmission,
    Kind::FastRetransmission,
    Kind::DuplicateAck,
    Kind::ZeroWindow,
    Kind::WindowFull,
    Kind::KeepAlive,
    Kind::ShrunkWindow,
    Kind::LongSegment,
    Kind::NoTimestamp,
    Kind::TimestampBack,
    Kind::StrangeEcho,
    Kind::OldNumber,
    Kind::FirstBlock,
    Kind::TouchingBlocks,
    Kind::OldBlock,
    Kind::BeforeAck,
    Kind::AfterReset,
    Kind::BeyondWindow,
    Kind::StrayReset,
];

impl Kind {
    /// What the report says.
    pub(crate) fn words(self) -> &'static str {
        match self {
            Kind::Retransmission => "retransmissions",
            Kind::FastRetransmission => "fast retransmissions",
            Kind::OutOfOrder => "out of order",
            Kind::PreviousNotSeen => "previous segment not seen",
            Kind::DuplicateAck => "duplicate acknowledgements",
            Kind::ZeroWindow => "zero windows",
            Kind::WindowFull => "window full",
            Kind::KeepAlive => "keep-alives",
            Kind::ShrunkWindow => "windows that shrink",
            Kind::LongSegment => "segments longer than the peer's SYN allows",
            Kind::NoTimestamp => "timestamps left out",
            Kind::TimestampBack => "timestamps that fall",
            Kind::StrangeEcho => "echoes of a timestamp that didn't come",
            Kind::OldNumber => "segments without text before SND.NXT",
            Kind::FirstBlock => "first blocks that aren't the newest",
            Kind::TouchingBlocks => "blocks that touch",
            Kind::OldBlock => "blocks before the acknowledgement",
            Kind::BeforeAck => "text before the SYN is acknowledged",
            Kind::AfterReset => "text after the end's own reset",
            Kind::BeyondWindow => "text beyond the window",
            Kind::StrayReset => "resets that answer nothing",
        }
    }

    /// The RFC and its section.
    pub(crate) fn section(self) -> &'static str {
        match self {
            Kind::Retransmission => "9293, 3.8.1",
            Kind::FastRetransmission => "5681, 3.2",
            Kind::OutOfOrder | Kind::PreviousNotSeen => "9293, 3.4",
            Kind::DuplicateAck => "5681, 2",
            Kind::ZeroWindow | Kind::WindowFull | Kind::ShrunkWindow | Kind::BeyondWindow =>
                "9293, 3.8.6",
            Kind::KeepAlive => "9293, 3.8.4",
            Kind::LongSegment => "9293, 3.7.1",
            Kind::NoTimestamp => "7323, 3.2",
            Kind::TimestampBack => "7323, 4.1",
            Kind::StrangeEcho => "7323, 4.3",
            Kind::OldNumber => "9293, 3.10.7.4",
            Kind::FirstBlock | Kind::OldBlock => "2018, 4",
            Kind::TouchingBlocks => "2018, 3",
            Kind::BeforeAck => "9293, 3.10.2",
            Kind::AfterReset => "9293, 3.10.5",
            Kind::StrayReset => "9293, 3.5.2",
        }
    }

    /// Its name in JSON.
    pub(crate) fn name(self) -> &'static str {
        match self {
            Kind::Retransmission => "Retransmission",
            Kind::FastRetransmission => "FastRetransmission",
            Kind::OutOfOrder => "OutOfOrder",
            Kind::PreviousNotSeen => "PreviousNotSeen",
            Kind::DuplicateAck => "DuplicateAck",
            Kind::ZeroWindow => "ZeroWindow",
            Kind::WindowFull => "WindowFull",
            Kind::KeepAlive => "KeepAlive",
            Kind::ShrunkWindow => "ShrunkWindow",
            Kind::LongSegment => "LongSegment",
            Kind::NoTimestamp => "NoTimestamp",
            Kind::TimestampBack => "TimestampBack",
            Kind::StrangeEcho => "StrangeEcho",
            Kind::OldNumber => "OldNumber",
            Kind::FirstBlock => "FirstBlock",
            Kind::TouchingBlocks => "TouchingBlocks",
            Kind::OldBlock => "OldBlock",
            Kind::BeforeAck => "BeforeAck",
            Kind::AfterReset => "AfterReset",
            Kind::BeyondWindow => "BeyondWindow",
            Kind::StrayReset => "StrayReset",
        }
    }

    /// Whether it compares with all that came, or with the order in which the end sent: it is told only where all rules are
    /// tried.
    pub(crate) fn wants_all(self) -> bool {
        matches!(
            self,
            Kind::TimestampBack
                | Kind::StrangeEcho
                | Kind::OldNumber
                | Kind::FirstBlock
                | Kind::OldBlock
                | Kind::BeforeAck
                | Kind::AfterReset
                | Kind::BeyondWindow
                | Kind::StrayReset
        )
    }
}

/// How long what an end sent was on its way until it was acknowledged, in nanoseconds.
#[derive(Clone, Copy)]
pub(crate) struct Trips {
    pub(crate) count: u64,
    pub(crate) least: u64,
    pub(crate) greatest: u64,
    sum: u64,
}

impl Trips {
    fn add(&mut self, time: u64) {
        if self.count == 0 || time < self.least {
            self.least = time;
        }
        self.greatest = self.greatest.max(time);
        self.count = self.count.saturating_add(1);
        self.sum = self.sum.saturating_add(time);
    }

    /// Their mean, rounded down; 0 where there is none.
    pub(crate) fn mean(&self) -> u64 {
        if self.count == 0 {
            0
        } else {
            self.sum / self.count
        }
    }
}

/// The notes of an end.
#[derive(Clone, Copy)]
pub(crate) struct Notes {
    retransmission: Note,
    fast_retransmission: Note,
    out_of_order: Note,
    previous_not_seen: Note,
    duplicate_ack: Note,
    zero_window: Note,
    window_full: Note,
    keep_alive: Note,
    shrunk_window: Note,
    long_segment: Note,
    no_timestamp: Note,
    timestamp_back: Note,
    strange_echo: Note,
    old_number: Note,
    first_block: Note,
    touching_blocks: Note,
    old_block: Note,
    before_ack: Note,
    after_reset: Note,
    beyond_window: Note,
    stray_reset: Note,
    pub(crate) trips: Trips,
}

impl Notes {
    pub(crate) fn new() -> Self {
        Notes {
            retransmission: NONE,
            fast_retransmission: NONE,
            out_of_order: NONE,
            previous_not_seen: NONE,
            duplicate_ack: NONE,
            zero_window: NONE,
            window_full: NONE,
            keep_alive: NONE,
            shrunk_window: NONE,
            long_segment: NONE,
            no_timestamp: NONE,
            timestamp_back: NONE,
            strange_echo: NONE,
            old_number: NONE,
            first_block: NONE,
            touching_blocks: NONE,
            old_block: NONE,
            before_ack: NONE,
            after_reset: NONE,
            beyond_window: NONE,
            stray_reset: NONE,
            trips: Trips {
                count: 0,
                least: 0,
                greatest: 0,
                sum: 0,
            },
        }
    }

    pub(crate) fn of(&self, kind: Kind) -> Note {
        match kind {
            Kind::Retransmission => self.retransmission,
            Kind::FastRetransmission => self.fast_retransmission,
            Kind::OutOfOrder => self.out_of_order,
            Kind::PreviousNotSeen => self.previous_not_seen,
            Kind::DuplicateAck => self.duplicate_ack,
            Kind::ZeroWindow => self.zero_window,
            Kind::WindowFull => self.window_full,
            Kind::KeepAlive => self.keep_alive,
            Kind::ShrunkWindow => self.shrunk_window,
            Kind::LongSegment => self.long_segment,
            Kind::NoTimestamp => self.no_timestamp,
            Kind::TimestampBack => self.timestamp_back,
            Kind::StrangeEcho => self.strange_echo,
            Kind::OldNumber => self.old_number,
            Kind::FirstBlock => self.first_block,
            Kind::TouchingBlocks => self.touching_blocks,
            Kind::OldBlock => self.old_block,
            Kind::BeforeAck => self.before_ack,
            Kind::AfterReset => self.after_reset,
            Kind::BeyondWindow => self.beyond_window,
            Kind::StrayReset => self.stray_reset,
        }
    }

    /// A packet of this kind.
    pub(crate) fn add(&mut self, kind: Kind, number: usize) {
        match kind {
            Kind::Retransmission => self.retransmission.add(number),
            Kind::FastRetransmission => self.fast_retransmission.add(number),
            Kind::OutOfOrder => self.out_of_order.add(number),
            Kind::PreviousNotSeen => self.previous_not_seen.add(number),
            Kind::DuplicateAck => self.duplicate_ack.add(number),
            Kind::ZeroWindow => self.zero_window.add(number),
            Kind::WindowFull => self.window_full.add(number),
            Kind::KeepAlive => self.keep_alive.add(number),
            Kind::ShrunkWindow => self.shrunk_window.add(number),
            Kind::LongSegment => self.long_segment.add(number),
            Kind::NoTimestamp => self.no_timestamp.add(number),
            Kind::TimestampBack => self.timestamp_back.add(number),
            Kind::StrangeEcho => self.strange_echo.add(number),
            Kind::OldNumber => self.old_number.add(number),
            Kind::FirstBlock => self.first_block.add(number),
            Kind::TouchingBlocks => self.touching_blocks.add(number),
            Kind::OldBlock => self.old_block.add(number),
            Kind::BeforeAck => self.before_ack.add(number),
            Kind::AfterReset => self.after_reset.add(number),
            Kind::BeyondWindow => self.beyond_window.add(number),
            Kind::StrayReset => self.stray_reset.add(number),
        }
    }

    /// What was sent is acknowledged after so many nanoseconds.
    pub(crate) fn add_trip(&mut self, time: u64) {
        self.trips.add(time);
    }
}
