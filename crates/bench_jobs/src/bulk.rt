//! Two ends that move text: in full segments and in small writes, in order, late, and lossy.
use crate::digest::Digest;
use crate::random::{POOL, Pool, Random, within};
use byteorder::{ByteOrder, LittleEndian};
use std::alloc::{AllocError, Global};
use tcp_conn::{Config, ConfigError, EMIT_ROOM, Endpoint, MAX_LIMIT, Received, Timer};
use tcp_wire::{Addr, Seq};

/// The text of a full segment, in bytes.
const SEGMENT: usize = 1460;

/// How a burst of segments comes.
#[derive(Clone, Copy, Debug, PartialEq, Eq)]
enum Mode {
    /// In order.
    InOrder,
    /// The first arrives last.
    FirstLate,
    /// Some are lost.
    Lossy,
    /// In order, each of one byte or a few.
    Small,
}

pub(crate) fn new_end(
    alloc: Global,
    host: u8,
    isn: u32,
    capacity: usize,
) -> Result<Endpoint, ConfigError> {
    let config = Config {
        addr: Addr([10, 0, 0, host]),
        port: u16::from(host),
        isn: Seq(isn),
        mss: SEGMENT as u16,
        send_capacity: capacity,
        recv_capacity: capacity,
        window_shift: Some(5),
        sack: true,
        limit: MAX_LIMIT,
    };
    Endpoint::new(alloc, config)
}

/// Adds the header of a segment, whose checksum depends on all of its bytes.
pub(crate) fn add_segment(digest: &mut Digest, bytes: &[u8]) {
    if bytes.len() < 20 {
        return;
    }
    digest.add(LittleEndian::read_u64(bytes));
    digest.add(LittleEndian::read_u64(&bytes[8..]));
    digest.add(u64::from(LittleEndian::read_u32(&bytes[16..])));
}

/// Carries the segment that is due; whether one was.
pub(crate) fn carry(
    from: &mut Endpoint,
    to: &mut Endpoint,
    room: &mut [u8; EMIT_ROOM],
    digest: &mut Digest,
) -> bool {
    let src = from.config().addr;
    let Some((dst, len)) = from.emit(room) else {
        return false;
    };
    add_segment(digest, &room[..len]);
    to.arrive(src, dst, &room[..len]);
    true
}

/// The handshake, in which A connects to B.
pub(crate) fn open(
    a: &mut Endpoint,
    b: &mut Endpoint,
    room: &mut [u8; EMIT_ROOM],
    digest: &mut Digest,
) {
    let _ = b.listen();
    let _ = a.connect(Addr([10, 0, 0, 2]), 2);
    carry(a, b, room, digest);
    carry(b, a, room, digest);
    carry(a, b, room, digest);
}

/// The user reads what came, at most so many bytes and 4,096: how many.
fn read_piece(end: &mut Endpoint, read: &mut [u8; 4096], most: usize) -> Option<usize> {
    let all = &mut read[..];
    match end.receive(&mut all[..most.min(4096)]) {
        Ok(Received::Bytes(count)) => Some(count),
        _ => None,
    }
}

/// An end A that sends, and an end B that reads. The stream has the pool's bytes, again and again.
#[derive(Drop)]
struct Pair {
    a: Endpoint,
    b: Endpoint,
    room: [u8; EMIT_ROOM],
    late: [u8; EMIT_ROOM],
    read: [u8; 4096],
    /// Where the next bytes that are written and read stand in the pool.
    written_to: usize,
    read_to: usize,
}

impl Pair {
    fn new(alloc: Global, isn: u32, capacity: usize) -> Result<Pair, ConfigError> {
        Ok(Pair {
            a: new_end(alloc, 1, isn, capacity)?,
            b: new_end(alloc, 2, 5000, capacity)?,
            room: [0; EMIT_ROOM],
            late: [0; EMIT_ROOM],
            read: [0; 4096],
            written_to: 0,
            read_to: 0,
        })
    }

    /// A's user writes the next bytes of the pool, at most so many.
    fn write(&mut self, pool: &Pool, most: usize) {
        let len = most.min(POOL.saturating_sub(self.written_to));
        if let Ok(count) = self.a.send(pool.piece(self.written_to, len)) {
            self.written_to = self.written_to.saturating_add(count) % POOL;
        }
    }

    /// B's user reads all that came, and looks whether it is what was written.
    fn read_all(&mut self, pool: &Pool, digest: &mut Digest) {
        for _ in 0..1000 {
            let most = POOL.saturating_sub(self.read_to);
            let Some(count) = read_piece(&mut self.b, &mut self.read, most) else {
                return;
            };
            let is_same = within(&self.read, 0, count) == pool.piece(self.read_to, count);
            digest.add(count as u64);
            digest.add(u64::from(is_same));
            self.read_to = self.read_to.saturating_add(count) % POOL;
        }
    }

    /// A emits what is due, and it is lost.
    fn lose(&mut self, digest: &mut Digest) {
        if let Some((_, len)) = self.a.emit(&mut self.room) {
            add_segment(digest, &self.room[..len]);
        }
    }

    fn carry_there(&mut self, digest: &mut Digest) -> bool {
        carry(&mut self.a, &mut self.b, &mut self.room, digest)
    }

    fn carry_back(&mut self, digest: &mut Digest) -> bool {
        carry(&mut self.b, &mut self.a, &mut self.room, digest)
    }

    /// A's segments are carried, with an acknowledgement for each two.
    fn carry_burst(&mut self, random: &mut Random, lost: u32, count: usize, digest: &mut Digest) {
        for k in 0..count {
            if random.happens(lost) {
                self.lose(digest);
            } else {
                self.carry_there(digest);
            }
            if k % 2 == 1 {
                self.carry_back(digest);
            }
        }
    }

    /// A's timers expire, and what is due then is carried.
    fn recover(&mut self, digest: &mut Digest) {
        if !self.a.timer(Timer::Reorder) {
            self.a.timer(Timer::Retransmit);
        }
        for _ in 0..40 {
            if !self.carry_there(digest) {
                break;
            }
        }
        self.carry_back(digest);
    }

    /// A burst whose first segment arrives last.
    fn carry_late(&mut self, random: &mut Random, count: usize, digest: &mut Digest) {
        let src = self.a.config().addr;
        let late = self.a.emit(&mut self.late);
        self.carry_burst(random, 0, count, digest);
        if let Some((dst, len)) = late {
            add_segment(digest, &self.late[..len]);
            self.b.arrive(src, dst, &self.late[..len]);
        }
    }

    /// Writes of a few bytes, each carried at once.
    fn carry_small(&mut self, pool: &Pool, random: &mut Random, count: usize, digest: &mut Digest) {
        for k in 0..count {
            let len = if random.happens(700) {
                1
            } else {
                random.between(1, 64)
            };
            self.write(pool, len);
            self.carry_there(digest);
            if k % 2 == 1 {
                self.carry_back(digest);
            }
        }
    }

    /// A burst of a mode.
    fn move_burst(
        &mut self,
        pool: &Pool,
        random: &mut Random,
        mode: Mode,
        count: usize,
        digest: &mut Digest,
    ) {
        if mode == Mode::Small {
            self.carry_small(pool, random, count, digest);
        } else {
            for _ in 0..count {
                self.write(pool, SEGMENT);
            }
        }
        match mode {
            Mode::InOrder => self.carry_burst(random, 0, count, digest),
            Mode::FirstLate => self.carry_late(random, count, digest),
            Mode::Lossy => {
                self.carry_burst(random, 100, count, digest);
                self.recover(digest);
            }
            Mode::Small => {}
        }
        self.read_all(pool, digest);
        self.carry_back(digest);
        self.recover_rest(pool, digest);
    }

    /// What was lost again is sent again, until all has come.
    fn recover_rest(&mut self, pool: &Pool, digest: &mut Digest) {
        for _ in 0..10 {
            if self.a.snd_una() == self.a.snd_nxt() && self.a.queued() == 0 {
                return;
            }
            self.recover(digest);
            self.read_all(pool, digest);
            self.carry_back(digest);
        }
    }
}

/// The mode of a burst, and how many segments it has.
fn mode_of(random: &mut Random) -> (Mode, usize) {
    match random.below(10) {
        0..=3 => (Mode::InOrder, 2),
        4 => (Mode::InOrder, 20),
        5 => (Mode::FirstLate, 10),
        6 => (Mode::FirstLate, 40),
        7 => (Mode::Lossy, 30),
        _ => (Mode::Small, 20),
    }
}

/// Moves so many bursts between two ends.
fn move_bursts(
    pair: &mut Pair,
    pool: &Pool,
    random: &mut Random,
    bursts: u32,
    digest: &mut Digest,
) {
    open(&mut pair.a, &mut pair.b, &mut pair.room, digest);
    for _ in 0..bursts {
        let (mode, count) = mode_of(random);
        pair.move_burst(pool, random, mode, count, digest);
    }
    digest.add(pair.a.released());
    digest.add(pair.b.ordered());
}

/// Moves thousands of bursts, so many times between two new ends.
pub(crate) fn move_bulk(
    alloc: Global,
    count: u32,
    seed: u32,
    digest: &mut Digest,
) -> Result<(), AllocError> {
    let mut random = Random::new(seed, 4);
    let pool = Pool::new(alloc, &mut random)?;
    for number in 0..count {
        let isn = (random.number() >> 32) as u32;
        let capacity = if number % 2 == 0 { 1 << 16 } else { 1 << 20 };
        let Ok(mut pair) = Pair::new(alloc, isn, capacity) else {
            return Err(AllocError);
        };
        move_bursts(&mut pair, &pool, &mut random, 5000, digest);
    }
    Ok(())
}
