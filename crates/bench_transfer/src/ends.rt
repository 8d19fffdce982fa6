//! Two ends, and the segments between them.
use crate::mode::Mode;
use std::alloc::Global;
use tcp_conn::{Config, ConfigError, EMIT_ROOM, Endpoint, MAX_LIMIT, Phase};
use tcp_wire::{Addr, Seq};

/// The text of a full segment, in bytes.
const SEGMENT: usize = 1460;

/// What a user writes or reads at once: the text of two segments, in bytes.
const PIECE: usize = 2 * SEGMENT;

/// The text of a round, in bytes.
const ROUND: usize = 16;

pub(crate) fn new_end(alloc: Global, host: u8, capacity: usize) -> Result<Endpoint, ConfigError> {
    let config = Config {
        addr: Addr([10, 0, 0, host]),
        port: u16::from(host),
        isn: Seq(1000),
        mss: SEGMENT as u16,
        send_capacity: capacity,
        recv_capacity: capacity,
        window_shift: Some(5),
        sack: true,
        limit: MAX_LIMIT,
    };
    Endpoint::new(alloc, config)
}

/// Carries the segment that is due, if one is.
pub(crate) fn carry(from: &mut Endpoint, to: &mut Endpoint, room: &mut [u8; EMIT_ROOM]) {
    if let Some((dst, len)) = from.emit(room) {
        let src = from.config().addr;
        to.arrive(src, dst, &room[..len]);
    }
}

/// The handshake, in which A connects to B.
pub(crate) fn open(a: &mut Endpoint, b: &mut Endpoint, room: &mut [u8; EMIT_ROOM]) {
    let _ = b.listen();
    let _ = a.connect(Addr([10, 0, 0, 2]), 2);
    carry(a, b, room);
    carry(b, a, room);
    carry(a, b, room);
}

/// An end A that sends, and an end B that reads.
#[derive(Drop)]
pub(crate) struct Pair {
    a: Endpoint,
    b: Endpoint,
    room: [u8; EMIT_ROOM],
    late: [u8; EMIT_ROOM],
    text: [u8; PIECE],
    read: [u8; PIECE],
}

impl Pair {
    pub(crate) fn new(alloc: Global, capacity: usize) -> Result<Self, ConfigError> {
        Ok(Pair {
            a: new_end(alloc, 1, capacity)?,
            b: new_end(alloc, 2, capacity)?,
            room: [0; EMIT_ROOM],
            late: [0; EMIT_ROOM],
            text: [b'a'; PIECE],
            read: [0; PIECE],
        })
    }

    /// The count of bytes that A's acknowledgements have released.
    pub(crate) fn released(&self) -> u64 {
        self.a.released()
    }

    /// The handshake.
    pub(crate) fn open(&mut self) {
        open(&mut self.a, &mut self.b, &mut self.room);
    }

    /// Carries the segments of a burst that aren't late, with an acknowledgement for each two, or for each.
    fn carry_segments(&mut self, mode: Mode, count: usize) {
        for k in 1..=count {
            if !mode.is_written_at_once() {
                let _ = self.a.send(&self.text[..mode.text()]);
            }
            carry(&mut self.a, &mut self.b, &mut self.room);
            if k % mode.acknowledged() == 0 {
                carry(&mut self.b, &mut self.a, &mut self.room);
            }
        }
    }

    /// A's user writes the text of `count` segments, two at once.
    fn write_text(&mut self, count: usize) {
        for _ in 0..count / 2 {
            let _ = self.a.send(&self.text);
        }
    }

    /// B's user reads the text of `count` segments, of two at once.
    fn read_text(&mut self, mode: Mode) {
        let read = &mut self.read[..];
        let piece = &mut read[..2 * mode.text()];
        for _ in 0..mode.segments() / 2 {
            let _ = self.b.receive(piece);
        }
    }

    /// Writes a burst, carries it, reads it, and carries an acknowledgement.
    pub(crate) fn move_burst(&mut self, mode: Mode) {
        let count = mode.segments();
        if mode.is_written_at_once() {
            self.write_text(count);
        }
        if mode.is_first_late() {
            let late = self.a.emit(&mut self.late);
            self.carry_segments(mode, count - 1);
            if let Some((dst, len)) = late {
                let src = self.a.config().addr;
                self.b.arrive(src, dst, &self.late[..len]);
            }
        } else {
            self.carry_segments(mode, count);
        }
        self.read_text(mode);
        carry(&mut self.b, &mut self.a, &mut self.room);
    }

    /// The six events of a script in order: a few bytes are written, carried, read and acknowledged.
    pub(crate) fn move_round(&mut self) {
        let _ = self.a.send(&self.text[..ROUND]);
        carry(&mut self.a, &mut self.b, &mut self.room);
        let read = &mut self.read[..];
        let _ = self.b.receive(&mut read[..ROUND]);
        carry(&mut self.b, &mut self.a, &mut self.room);
    }
}

/// A whole connection: two ends are made, opened, closed one after the other, and freed. Returns whether both know that
/// it has ended, but for the time that A waits.
pub(crate) fn connect_and_close(
    alloc: Global,
    capacity: usize,
    room: &mut [u8; EMIT_ROOM],
) -> Result<bool, ConfigError> {
    let mut a = new_end(alloc, 1, capacity)?;
    let mut b = new_end(alloc, 2, capacity)?;
    open(&mut a, &mut b, room);
    let _ = a.close();
    carry(&mut a, &mut b, room);
    carry(&mut b, &mut a, room);
    let _ = b.close();
    carry(&mut b, &mut a, room);
    carry(&mut a, &mut b, room);
    Ok(a.phase() == Phase::TimeWait && b.phase() == Phase::Closed)
}
