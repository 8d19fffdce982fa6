//! The records that C passes by reference, in C's layout. The fields of tcpcore.h, of its layout and of the bindings' structs are
//! made from these, with their comments (c/tcpcore/layout.py).

/// An IPv4 address, its bytes in network order.
#[repr(C)]
#[derive(Clone, Copy)]
pub struct CAddr {
    /// In network order: 10, 0, 0, 1 for 10.0.0.1.
    pub byte: [u8; 4],
}

/// The Config of one end.
#[repr(C)]
#[derive(Clone, Copy)]
pub struct CConfig {
    /// The address of this end.
    pub addr: CAddr,
    /// The port of this end.
    pub port: u16,
    /// The maximum segment size that this end announces, in bytes, from 64 to 1460 (RFC 9293, 3.7.1).
    pub mss: u16,
    /// The initial sequence number, ISS: choose it as RFC 9293, 3.4.1 says.
    pub isn: u32,
    /// The most bytes that are kept for the peer, from 1 to 1,048,576.
    pub send_capacity: usize,
    /// The most bytes that are kept for the user, from 1 to 1,048,576: the greatest receive window.
    pub recv_capacity: usize,
    /// The most bytes that this end's direction carries, from 1 to 2^62. Past TCPCORE_LIMIT the network has to keep the maximum
    /// segment lifetime (RFC 9293, 3.4).
    pub limit: u64,
    /// The shift of the windows that this end advertises, from 0 to 14 (RFC 7323, 2.2). Ignored where `scales` is 0. A window behind
    /// the SYN's is advertised in steps of 2^shift bytes, rounded down: it is 0 while fewer than 2^shift bytes are free, with a
    /// `recv_capacity` below 2^shift always, and the peer then sends nothing but probes of a byte. No call refuses that. Take the
    /// least shift with recv_capacity >> shift at most 65,535 (TCPCORE_LEAST_SHIFT): 0 for 65,535 bytes, 1 for 65,536, 5 for 1,048,576.
    pub window_shift: u8,
    /// Whether this end offers window scaling (RFC 7323, 2.2): 0 is no, anything else yes.
    pub scales: u8,
    /// Whether this end permits selective acknowledgement (RFC 2018, 2): 0 is no, anything else yes.
    pub sack: u8,
    /// The most runs of bytes that are kept out of order (RFC 9293, 3.10.7.4), and the most runs of the peer's blocks that are remembered
    /// (RFC 2018, 5), from 1 to TCPCORE_MAX_RUNS; 0 is TCPCORE_RUNS. What would be one run more is dropped, and has to be sent again. A
    /// path that reorders makes about one for each five segments that it carries in the time of its jitter. Each takes 24 bytes of the
    /// block.
    pub runs: u16,
}

/// What is reported of an end (RFC 9293, 3.10.6).
#[repr(C)]
#[derive(Clone, Copy)]
pub struct CStatus {
    /// The state of the connection (RFC 9293, 3.3.2): TCPCORE_PHASE_CLOSED, 0, to TCPCORE_PHASE_TIME_WAIT, 10.
    pub phase: u32,
    /// How it ended: TCPCORE_ENDING_NOT_ENDED, 0, to TCPCORE_ENDING_ABORTED, 3.
    pub ending: u32,
    /// The count of bytes that came in order and wait for `tcp_c_receive`.
    pub unread: usize,
    /// The count of text bytes that acknowledgements have released.
    pub released: u64,
    /// The count of text bytes that came in order up to now, read or not.
    pub ordered: u64,
    /// SND.UNA: the oldest position of this end's direction that isn't acknowledged. The SYN is at 0, byte i at 1 + i.
    pub snd_una: u64,
    /// RCV.NXT: the next position of the peer's direction that is expected. The peer's SYN is at 0; this is 1 until it has come.
    pub rcv_position: u64,
    /// How many bytes of a long text `tcp_c_send` would accept, by `send_capacity` and `limit`.
    pub room: usize,
    /// The count of bytes that were accepted and not released.
    pub queued: usize,
    /// The count of text bytes that were sent and aren't acknowledged, at most `queued`. SYN and FIN aren't counted.
    pub in_flight: usize,
    /// The most text bytes of a segment of this end, the smaller of both MSS; options take of it. This and the next fields up to
    /// `sack` are what both SYNs agreed on, and 0 until the peer's SYN was taken.
    pub mss: u32,
    /// The shift of the windows that this end advertises; 0 where `scaling` is 0.
    pub own_shift: u8,
    /// The shift of the windows that the peer advertises.
    pub peer_shift: u8,
    /// 1 where windows are scaled (RFC 7323, 2.2).
    pub scaling: u8,
    /// 1 where selective acknowledgement is in use (RFC 2018, 2).
    pub sack: u8,
    /// SND.WND in bytes, scaled: the peer's window, from the segment that it was last taken from (RFC 9293, 3.3.1 and 3.10.7.4). It
    /// is 0 until this end's SYN was acknowledged.
    pub snd_wnd: u32,
    /// RCV.WND in bytes: how much more this end accepts (RFC 9293, 3.3.1).
    pub rcv_wnd: u32,
    /// SND.NXT: the next position of this end's direction to be sent for the first time.
    pub snd_nxt: u64,
    /// 1 once `tcp_c_close` was accepted.
    pub closing: u32,
    /// 1 once the peer's FIN was taken.
    pub finished: u32,
}

/// What is reported of bytes that arrived (RFC 9293, 3.10.7).
#[repr(C)]
#[derive(Clone, Copy)]
pub struct CArriveReport {
    /// 1 where they have to be answered at once (RFC 5681, 4.2).
    pub at_once: u32,
    /// The rule that applied: TCPCORE_RULE_FOREIGN, 1, to TCPCORE_RULE_TAKEN_SHUT, 19; TCPCORE_RULE_NONE, 0, where they are no
    /// segment.
    pub rule: u32,
    /// The count of text bytes that their acknowledgement released. SYN and FIN aren't counted.
    pub acked: u64,
    /// What they brought: TCPCORE_BROUGHT_NOTHING, 0, to TCPCORE_BROUGHT_NOT_KEPT, 3.
    pub brought: u32,
    /// 1 where they are a duplicate acknowledgement (RFC 5681, 2): text was in flight, they have no text, no SYN and no FIN, they
    /// acknowledge up to SND.UNA, and their window is SND.WND.
    pub is_duplicate: u32,
    /// 1 where SND.WND was taken from them (RFC 9293, 3.10.7.4, fifth).
    pub window_taken: u32,
}

/// How bytes come in.
#[repr(C)]
#[derive(Clone, Copy)]
pub struct CIntake {
    /// How far the guard reaches, in sequence numbers, as in the rules of a connection: TCPCORE_GUARD or more. 0 is TCPCORE_GUARD, and
    /// TCPCORE_NO_GUARD is none.
    pub guard: u32,
    /// Whether a device has found their checksum right, so that it isn't summed (RFC 9293, 3.1): 0 is no, anything else yes.
    pub is_vouched: u32,
}

/// A segment that was written, or would be.
#[repr(C)]
#[derive(Clone, Copy)]
pub struct CTransmit {
    /// The address that it goes to.
    pub to: CAddr,
    /// Its kind: TCPCORE_KIND_RESET, 1, to TCPCORE_KIND_ACKNOWLEDGEMENT, 7; TCPCORE_KIND_NONE, 0, where there is none.
    pub kind: u32,
    /// Its length in bytes, with its header.
    pub length: usize,
    /// Where it begins, as a position of this end's direction: a SYN at 0, byte i at 1 + i, the FIN after the last byte, an
    /// acknowledgement at SND.NXT; 0 of a reset.
    pub position: u64,
    /// The length of its text in bytes.
    pub count: usize,
}

/// Segments that were written as one.
#[repr(C)]
#[derive(Clone, Copy)]
pub struct CTrain {
    /// The address that they go to.
    pub to: CAddr,
    /// The kind of the segment: TCPCORE_KIND_NONE, 0, where there is none.
    pub kind: u32,
    /// Its length in bytes, with its header.
    pub length: usize,
    /// Where it begins, as a position of this end's direction.
    pub position: u64,
    /// The length of all its text in bytes.
    pub count: usize,
    /// The length of its header in bytes with options, which each segment has.
    pub header: usize,
    /// The length of the text of each segment but the last in bytes.
    pub each: usize,
    /// How many segments it is.
    pub segments: usize,
}

/// The TIME-WAIT record in the place of an end: a plain value, which may be copied, stored and moved.
#[repr(C)]
#[derive(Clone, Copy)]
pub struct CTimeWait {
    /// The library's word for it; with any other there is no record.
    pub mark: u32,
    /// The address of this end.
    pub addr: CAddr,
    /// The peer's address.
    pub peer_addr: CAddr,
    /// The port of this end.
    pub port: u16,
    /// The peer's port.
    pub peer_port: u16,
    /// SND.NXT, a sequence number: all before it is acknowledged.
    pub snd_nxt: u32,
    /// RCV.NXT, a sequence number.
    pub rcv_nxt: u32,
    /// RCV.WND in bytes, at most 1,048,576.
    pub rcv_wnd: u32,
    /// The address that the waiting reset goes to. This and the next three are ignored where `reset` is 0.
    pub reset_addr: CAddr,
    /// The sequence number of the reset.
    pub reset_seq: u32,
    /// What the reset acknowledges; ignored where `reset` is 1.
    pub reset_ack: u32,
    /// The port that the reset goes to.
    pub reset_port: u16,
    /// The shift by which the window is advertised, at most 14.
    pub shift: u8,
    /// Whether an acknowledgement is pending: 0 is no, anything else yes.
    pub ack: u8,
    /// The waiting reset: 0 none, 1 one that acknowledges nothing, 2 one that acknowledges.
    pub reset: u16,
    /// How the connection ended: TCPCORE_ENDING_NOT_ENDED, 0, to TCPCORE_ENDING_ABORTED, 3.
    pub ending: u16,
}

/// Bytes that are lent where they lie, in two parts.
#[repr(C)]
#[derive(Clone, Copy)]
pub struct CLent {
    /// Where the first part lies.
    pub first: *const u8,
    /// The length of the first part in bytes.
    pub first_length: usize,
    /// Where the second part lies.
    pub second: *const u8,
    /// The length of the second part in bytes.
    pub second_length: usize,
    /// 1 where none follows them: the peer has closed.
    pub ends: u32,
}

/// A segment that is due: its header was written, and its text is lent.
#[repr(C)]
#[derive(Clone, Copy)]
pub struct CParts {
    /// The address that it goes to.
    pub to: CAddr,
    /// The length of its header in bytes with options.
    pub header: u32,
    /// Where the first part of its text lies.
    pub first: *const u8,
    /// The length of the first part in bytes.
    pub first_length: usize,
    /// Where the second part of its text lies.
    pub second: *const u8,
    /// The length of the second part in bytes.
    pub second_length: usize,
}

/// The rules of a connection: how the retransmission timeout is made (RFC 6298, 2 and 5), how long the end waits (RFC 9293, 3.8.3), and
/// what its guard keeps out (RFC 5961, 5.2). Times are microseconds.
#[repr(C)]
#[derive(Clone, Copy)]
pub struct CConnectionRules {
    /// The timeout before any round trip was measured: 1 s (RFC 6298, 2.1).
    pub first: u64,
    /// No timeout is below it: 1 s (RFC 6298, 2.4). Above 0, and at most `greatest`.
    pub least: u64,
    /// None is above it: 60 s or more (RFC 6298, 2.5), and at most 2^40.
    pub greatest: u64,
    /// G, the granularity of the clock (RFC 6298, 2); at most 2^40.
    pub granularity: u64,
    /// The timeout with which data begin where the SYN was sent again and `first` is less: 3 s (RFC 6298, 5.7).
    pub after_syn: u64,
    /// How long TIME-WAIT is: two maximum segment lifetimes, 4 minutes (RFC 9293, 3.4.2).
    pub time_wait: u64,
    /// How long a SYN may be without an answer, 3 minutes or more (RFC 9293, 3.8.3); TCPCORE_NEVER is forever.
    pub handshake: u64,
    /// The user timeout: how long all else may be, 100 s or more (RFC 9293, 3.8.3); TCPCORE_NEVER is forever.
    pub user: u64,
    /// How long FIN-WAIT-2 may last without anything of the peer's, while all that came is read; TCPCORE_NEVER is forever, as the
    /// standard has it.
    pub fin_wait_2: u64,
    /// After so many timeouts in a row the path is suspect, and before them no end is given up: 3 or more (RFC 9293, 3.8.3).
    pub suspect_after: u32,
    /// The guard against segments of somebody who sees nothing of the connection (RFC 5961, 5.2): how many sequence numbers behind
    /// SND.UNA the acknowledgement of a segment may lie that is taken, and while the window is shut how many behind RCV.NXT its own
    /// number may. TCPCORE_GUARD or more, two of the greatest windows: below it, what the peer sent may be kept out. 0 is
    /// TCPCORE_GUARD, and TCPCORE_NO_GUARD is none.
    pub guard: u32,
}

/// The congestion window of a connection (RFC 5681, 3; RFC 9438), in bytes.
#[repr(C)]
#[derive(Clone, Copy)]
pub struct CCongestion {
    /// The congestion window; 2^40 where none was chosen, more than is ever in flight.
    pub cwnd: u64,
    /// The slow start threshold; 2^40 until slow start has ended once.
    pub ssthresh: u64,
    /// SMSS: 536 until the SYNs have agreed on it; 0 where no window was chosen.
    pub smss: u64,
    /// Which was chosen: TCPCORE_CONGESTION_NONE, 0, to TCPCORE_CONGESTION_CUBIC, 2.
    pub congestion: u32,
    /// Whether a loss was found that isn't repaired yet: 1, or 0.
    pub is_recovering: u32,
}

/// When an acknowledgement and a small segment of a connection go out (RFC 9293, 3.7.4 and 3.8.6; RFC 5961, 7). Times are
/// microseconds. Any values may be chosen.
#[repr(C)]
#[derive(Clone, Copy)]
pub struct CPolicy {
    /// How long an acknowledgement of text waits for a second full segment: 40 ms, and less than 500 ms whatever is chosen (RFC 9293,
    /// 3.8.6.3). 0: none waits.
    pub ack_delay: u64,
    /// How long text that isn't worth a segment waits, counted from when only its size holds it back, 0.1 to 1 s (RFC 9293, 3.8.6.2): until
    /// then no small segment goes into a small window, and none goes out just for a window that opened by little. TCPCORE_NEVER: no text
    /// waits, and a window that was opened by reading is advertised only where it was shut.
    pub override_timeout: u64,
    /// Of the acknowledgements that only answer segments without text and FIN, or a SYN in a synchronized state, one goes out in so long
    /// (RFC 5961, 7). 0: all do.
    pub answer_interval: u64,
    /// Whether text that doesn't fill a segment waits while anything is in flight, by the Nagle algorithm (RFC 9293, 3.7.4): 0 is no.
    /// It counts where `override_timeout` isn't TCPCORE_NEVER.
    pub nagle: u32,
}

/// When a silent peer is asked whether it is there (RFC 9293, 3.8.4). Times are in microseconds; none counts as shorter than 1 s.
#[repr(C)]
#[derive(Clone, Copy)]
pub struct CKeepAlive {
    /// It is asked where nothing was heard of it for so long: 2 hours or more, unless a user chooses less. 0: it is never asked.
    pub idle: u64,
    /// It is asked again after each so long: 75 s by custom.
    pub interval: u64,
    /// With so many unanswered it is given up, an interval after the last: 9 by custom. Less than 2 counts as 2: one may be lost.
    pub most: u32,
}

/// A segment that a connection wrote.
#[repr(C)]
#[derive(Clone, Copy)]
pub struct CConnectionSegment {
    /// Its length in bytes, with its header.
    pub length: usize,
    /// Where it begins, as a position of this end's direction: a SYN at 0, byte i at 1 + i, the FIN after the last byte, an
    /// acknowledgement at SND.NXT; 0 of a reset.
    pub position: u64,
    /// How many numbers it takes: one for each byte of text, one for a SYN, one for a FIN (RFC 9293, 3.4).
    pub count: u64,
    /// The address that it goes to.
    pub to: CAddr,
}

/// The name of an end or a listener in a host: no other one has it or had it.
#[repr(C)]
#[derive(Clone, Copy)]
pub struct CHostId {
    /// Its number, 1 or more, in the order in which they came.
    pub number: u64,
    /// Its slot: a small number from 0 on, which another one has once this one is gone. A caller's own table goes by it.
    pub slot: usize,
}

/// What became of a segment that came to a host (RFC 9293, 3.3.1 and 3.10.7).
#[repr(C)]
#[derive(Clone, Copy)]
pub struct CHostArrived {
    /// The end that took it, or the listener; zero of anything else.
    pub id: CHostId,
    /// Whose it is: TCPCORE_PLACE_END, 1, to TCPCORE_PLACE_STRAY, 5; TCPCORE_PLACE_NONE, 0, where it is too short for ports.
    pub place: u32,
}

/// A segment that a host wrote.
#[repr(C)]
#[derive(Clone, Copy)]
pub struct CHostSent {
    /// The end whose turn it was; zero of a TIME-WAIT record.
    pub id: CHostId,
    /// Its length in bytes, with its header.
    pub length: usize,
    /// Where it begins, as a position of its end's direction, as of a connection.
    pub position: u64,
    /// How many numbers it takes: one for each byte of text, one for a SYN, one for a FIN (RFC 9293, 3.4).
    pub count: u64,
    /// The address that it comes from.
    pub from: CAddr,
    /// The address that it goes to.
    pub to: CAddr,
    /// Whose turn it was: TCPCORE_PLACE_END, 1, or TCPCORE_PLACE_RECORD, 2; TCPCORE_PLACE_NONE, 0, where nobody waited.
    pub place: u32,
}

/// Who was told the time.
#[repr(C)]
#[derive(Clone, Copy)]
pub struct CHostTold {
    /// The end; zero of a TIME-WAIT record, which is gone.
    pub id: CHostId,
    /// TCPCORE_PLACE_END, 1, or TCPCORE_PLACE_RECORD, 2; TCPCORE_PLACE_NONE, 0, where nobody was due.
    pub place: u32,
    /// The timer that has expired, TCPCORE_TIMER_RETRANSMIT, 0, to TCPCORE_TIMER_USER, 3; TCPCORE_TIMER_NONE, 4, where none has: what
    /// was held back may go out.
    pub timer: u32,
}
