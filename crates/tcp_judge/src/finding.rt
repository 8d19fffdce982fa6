use tcp_wire::{DecodeError, Seq};

/// The rule that a segment breaks, and the numbers that show it.
#[derive(Clone, Copy, Debug, PartialEq, Eq)]
pub enum Finding {
    /// The bytes are no segment (RFC 9293, 3.1).
    Unreadable(DecodeError),
    /// An option of SYNs alone is in another segment (RFC 9293, 3.2; RFC 7323, 2.1; RFC 2018, 2).
    SynOption,
    /// A shift above 14 (RFC 7323, 2.3).
    GreatShift,
    /// ACK is missing in a segment that is neither a SYN nor a reset (RFC 9293, 3.1).
    NoAck,
    /// A SYN has another number than the first one, which comes first here (RFC 9293, 3.4).
    OtherInitial(Seq, Seq),
    /// The text or the FIN of the segment with this number begins before the position behind the SYN's (RFC 9293, 3.4).
    BeforeFirst(Seq),
    /// The text of the segment with this number has another byte at a position that was sent before and isn't
    /// acknowledged (RFC 9293, 3.4).
    OtherByte(Seq),
    /// Text or FIN beyond the FIN: the position of the FIN, and that where the text or the other FIN ends (RFC 9293,
    /// 3.4 and 3.6).
    BeyondFin(u64, u64),
    /// The text of the segment with this number goes before the end's SYN is acknowledged, without TCP Fast Open (RFC
    /// 9293, 3.10.2).
    BeforeAck(Seq),
    /// The text or the FIN of the segment with this number goes after the end's own reset of the connection (RFC 9293,
    /// 3.10.5).
    AfterReset(Seq),
    /// The text or the FIN of the segment with this number begins behind SND.NXT, so that there is a gap in what was sent
    /// (RFC 9293, 3.4).
    Gap(Seq),
    /// The segment with this number has neither text nor SYN, FIN or RST, and is behind SND.NXT (RFC 9293, 3.10.7.4).
    BehindNext(Seq),
    /// The text of the segment with this number ends behind what is acknowledged and the greatest window that came (RFC 9293,
    /// 3.8.6).
    BeyondWindow(Seq),
    /// A reset has this number, which is none that the end sent nor SND.NXT, and answers nothing that came (RFC 9293, 3.5.2).
    StrayReset(Seq),
    /// This acknowledgement covers what didn't come (RFC 9293, 3.4).
    AckBeyond(Seq),
    /// This acknowledgement is less than the other one, which went before it (RFC 9293, 3.10.7.4).
    AckBack(Seq, Seq),
    /// A SYN that acknowledges another has the window scale, and no SYN that came had it (RFC 7323, 1.3 and 2.2).
    Unoffered,
    /// Blocks are reported, and no SYN that came permitted selective acknowledgement (RFC 2018, 4).
    Unpermitted,
    /// A block of what didn't come: its left edge and the number after its last (RFC 2018, 3).
    BlockBeyond(Seq, Seq),
}
