//! A stream of any length over a wire that loses segments. Neither end of it is kept: what was read is compared with
//! what was written by a sum in which each byte's offset counts.
ghost use Rattle.std.specs.Prelude.{◌≤◌, length};

use crate::ends::{new_end, open};
use std::alloc::Global;
use tcp_conn::{ConfigError, EMIT_ROOM, Endpoint, Received, Timer};

/// What a user writes or reads at once, in bytes.
const PIECE: usize = 2920;

/// The byte at an offset of the stream: high bits of a product, so that pieces of it don't repeat soon.
fn byte_at(place: u64) -> u8 {
    (place.wrapping_mul(0x9e37_79b9_7f4a_7c15) >> 56) as u8
}

fn fill(piece: &mut [u8; PIECE], from: u64) {
    for i in 0..PIECE {
        piece[i] = byte_at(from.wrapping_add(i as u64));
    }
}

fn sum_of(sum: u64, bytes: &[u8]) -> u64 {
    let mut sum = sum;
    for byte in bytes {
        sum = sum.wrapping_mul(31).wrapping_add(u64::from(*byte));
    }
    sum
}

/// A writer, a reader, and the wire between them.
#[derive(Drop)]
pub(crate) struct Stream {
    a: Endpoint,
    b: Endpoint,
    room: [u8; EMIT_ROOM],
    piece: [u8; PIECE],
    /// The length of the stream in bytes.
    len: u64,
    written: u64,
    read: u64,
    sum_written: u64,
    sum_read: u64,
    carried: u64,
    lost: u64,
}

impl Stream {
    pub(crate) fn new(alloc: Global, capacity: usize, len: u64) -> Result<Self, ConfigError> {
        let mut a = new_end(alloc, 1, capacity)?;
        let mut b = new_end(alloc, 2, capacity)?;
        let mut room = [0; EMIT_ROOM];
        open(&mut a, &mut b, &mut room);
        Ok(Stream {
            a,
            b,
            room,
            piece: [0; PIECE],
            len,
            written: 0,
            read: 0,
            sum_written: 0,
            sum_read: 0,
            carried: 0,
            lost: 0,
        })
    }

    /// Whether the next segment is lost: one of 61, each way.
    fn loses_next(&mut self) -> bool {
        self.carried = self.carried.wrapping_add(1);
        let loses = self.carried % 61 == 0;
        self.lost = self.lost.wrapping_add(u64::from(loses));
        loses
    }

    /// A's user writes what is accepted of the next piece.
    fn write(&mut self) {
        let left = self.len.saturating_sub(self.written).min(PIECE as u64) as usize;
        fill(&mut self.piece, self.written);
        if let Ok(count) = self.a.send(&self.piece[..left]) {
            self.sum_written = sum_of(self.sum_written, &self.piece[..count]);
            self.written = self.written.saturating_add(count as u64);
        }
    }

    /// B's user reads a piece.
    fn read(&mut self) {
        if let Ok(Received::Bytes(count)) = self.b.receive(&mut self.piece) {
            self.sum_read = sum_of(self.sum_read, &self.piece[..count]);
            self.read = self.read.saturating_add(count as u64);
        }
    }

    /// Carries what A emits; whether it emitted anything.
    fn carry_there(&mut self) -> bool {
        let src = self.a.config().addr;
        let Some((dst, len)) = self.a.emit(&mut self.room) else {
            return false;
        };
        if !self.loses_next() {
            self.b.arrive(src, dst, &self.room[..len]);
        }
        true
    }

    /// Carries what B emits.
    fn carry_back(&mut self) {
        let src = self.b.config().addr;
        if let Some((dst, len)) = self.b.emit(&mut self.room) {
            if !self.loses_next() {
                self.a.arrive(src, dst, &self.room[..len]);
            }
        }
    }

    /// Two segments there, what B reads, and what it acknowledges. Where A has nothing more to send, a timer expires.
    fn turn(&mut self) {
        self.write();
        let first = self.carry_there();
        let second = self.carry_there();
        self.read();
        self.carry_back();
        if !first && !second && !self.a.timer(Timer::Reorder) {
            self.a.timer(Timer::Retransmit);
        }
    }

    /// Takes turns until all was acknowledged, and returns whether it was, and was read as it was written.
    pub(crate) fn run(&mut self) -> bool {
        for _ in 0..self.len {
            self.turn();
            if self.a.released() == self.len && self.read == self.len {
                return self.sum_read == self.sum_written;
            }
        }
        false
    }

    pub(crate) fn lost(&self) -> u64 {
        self.lost
    }
}
