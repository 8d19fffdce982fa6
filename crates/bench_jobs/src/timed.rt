//! Two ends with their timers over a link that takes time, and loses, delays and repeats segments.
use crate::bulk::{add_segment, new_end};
use crate::digest::Digest;
use crate::random::{POOL, Pool, Random, within};
use std::alloc::{AllocError, Global};
use std::collections::VecDeque;
use tcp_conn::{CallError, EMIT_ROOM, Endpoint, Received};
use tcp_driver::{Limits, Sent};
use tcp_end::{End, connect, listen};
use tcp_timing::Rules;
use tcp_wire::Addr;

/// One way, in microseconds.
const WAY: u64 = 10_000;

/// A segment on its way.
#[derive(Drop)]
struct Packet {
    /// When it comes.
    at: u64,
    src: [u8; 4],
    dst: [u8; 4],
    bytes: Vec<u8>,
}

/// A link between two ends, both ways, and the two ends.
#[derive(Drop)]
struct Link {
    alloc: Global,
    a: End<Global>,
    b: End<Global>,
    /// What is on its way, the next to come first.
    packets: VecDeque<Packet>,
    /// Room of segments that have come, for others.
    spare: Vec<Vec<u8>>,
    out: [u8; EMIT_ROOM],
    read: [u8; 8192],
    now: u64,
    /// What may be in flight, in bytes.
    window: u64,
    /// How many segments out of 1,000 are lost.
    lost: u32,
    written_to: usize,
    read_to: usize,
    /// How many bytes A has still to write.
    left: usize,
}

/// A connects to B, at time 0.
fn new_pair(alloc: Global, isn: u32) -> Option<(End<Global>, End<Global>)> {
    let a = new_end(alloc, 1, isn, 1 << 17).ok()?;
    let b = new_end(alloc, 2, 5000, 1 << 17).ok()?;
    let (rules, limits) = (Rules::standard(), Limits::standard());
    let a = connect(a, Addr([10, 0, 0, 2]), 2, rules, limits, 0).ok()?;
    let b = listen(b, rules, limits, 0).ok()?;
    Some((a, b))
}

/// The earlier of two times.
fn earlier(one: Option<u64>, other: Option<u64>) -> Option<u64> {
    match (one, other) {
        (Some(one), Some(other)) => Some(one.min(other)),
        (None, time) | (time, None) => time,
    }
}

/// A packet comes to an end.
fn arrive(end: &mut End<Global>, now: u64, packet: &Packet, digest: &mut Digest) {
    end.arrive(now, packet.src, packet.dst, &packet.bytes);
    digest.add(end.poll_at().unwrap_or(0));
}

/// The end writes what is due, if anything is.
fn emit_from(
    end: &mut End<Global>,
    now: u64,
    window: u64,
    out: &mut [u8; EMIT_ROOM],
    digest: &mut Digest,
) -> Option<Sent> {
    let sent = end.emit(now, window, out)?;
    digest.add(end.poll_at().unwrap_or(0));
    add_segment(digest, within(out, 0, sent.len));
    Some(sent)
}

/// The user reads what came, at most so many bytes and 8,192.
fn receive_from(
    end: &mut End<Global>,
    now: u64,
    read: &mut [u8; 8192],
    most: usize,
) -> Result<Received, CallError> {
    let all = &mut read[..];
    end.receive(now, &mut all[..most.min(8192)])
}

impl Link {
    fn new(alloc: Global, isn: u32, window: u64, lost: u32, left: usize) -> Option<Link> {
        let (a, b) = new_pair(alloc, isn)?;
        Some(Link {
            alloc,
            a,
            b,
            packets: VecDeque::new(alloc),
            spare: Vec::new(alloc),
            out: [0; EMIT_ROOM],
            read: [0; 8192],
            now: 0,
            window,
            lost,
            written_to: 0,
            read_to: 0,
            left,
        })
    }

    /// When the next segment comes.
    fn next_arrival(&self) -> Option<u64> {
        match self.packets.front() {
            Some(packet) => Some(packet.at),
            None => None,
        }
    }

    /// The segments that come by now.
    fn deliver(&mut self, digest: &mut Digest) -> Result<(), AllocError> {
        for _ in 0..10_000 {
            match self.next_arrival() {
                Some(at) if at <= self.now => {}
                _ => return Ok(()),
            }
            let Some(packet) = self.packets.pop_front() else {
                return Ok(());
            };
            let now = self.now;
            if packet.dst[3] == 1 {
                arrive(&mut self.a, now, &packet, digest);
            } else {
                arrive(&mut self.b, now, &packet, digest);
            }
            self.spare.push(packet.bytes)?;
        }
        Ok(())
    }

    /// A segment of `len` bytes is on its way.
    fn put(&mut self, src: [u8; 4], dst: [u8; 4], len: usize) -> Result<(), AllocError> {
        let mut bytes = match self.spare.pop() {
            Some(bytes) => bytes,
            None => Vec::new(self.alloc),
        };
        bytes.clear();
        bytes.extend_from_slice(within(&self.out, 0, len))?;
        let packet = Packet {
            at: self.now.saturating_add(WAY),
            src,
            dst,
            bytes,
        };
        self.packets.push_back(packet)?;
        Ok(())
    }

    /// All that an end has due goes out, some of it in vain, some of it twice.
    fn emit(
        &mut self,
        random: &mut Random,
        from_a: bool,
        digest: &mut Digest,
    ) -> Result<(), AllocError> {
        let src = if from_a { [10, 0, 0, 1] } else { [10, 0, 0, 2] };
        let (now, window) = (self.now, self.window);
        for _ in 0..1000 {
            let sent = if from_a {
                emit_from(&mut self.a, now, window, &mut self.out, digest)
            } else {
                emit_from(&mut self.b, now, window, &mut self.out, digest)
            };
            let Some(sent) = sent else {
                return Ok(());
            };
            if random.happens(self.lost) {
                continue;
            }
            self.put(src, sent.to, sent.len)?;
            if random.happens(5) {
                self.put(src, sent.to, sent.len)?;
            }
        }
        Ok(())
    }

    /// A's user writes what is accepted, and closes behind all.
    fn write(&mut self, pool: &Pool) {
        for _ in 0..100 {
            if self.left == 0 {
                let _ = self.a.close(self.now);
                return;
            }
            let most = 4096
                .min(self.left)
                .min(POOL.saturating_sub(self.written_to));
            let Ok(count) = self.a.send(self.now, pool.piece(self.written_to, most)) else {
                return;
            };
            self.left = self.left.saturating_sub(count);
            self.written_to = self.written_to.saturating_add(count) % POOL;
            if count < most {
                return;
            }
        }
    }

    /// B's user reads all that came, and closes at the end of the stream.
    fn read_all(&mut self, pool: &Pool, digest: &mut Digest) {
        for _ in 0..100 {
            let now = self.now;
            let most = POOL.saturating_sub(self.read_to);
            match receive_from(&mut self.b, now, &mut self.read, most) {
                Ok(Received::Bytes(count)) => {
                    let is_same = within(&self.read, 0, count) == pool.piece(self.read_to, count);
                    digest.add(count as u64);
                    digest.add(u64::from(is_same));
                    self.read_to = self.read_to.saturating_add(count) % POOL;
                }
                Ok(Received::EndOfStream) => {
                    let _ = self.b.close(self.now);
                    return;
                }
                _ => return,
            }
        }
    }

    /// What happens now.
    fn turn(
        &mut self,
        pool: &Pool,
        random: &mut Random,
        digest: &mut Digest,
    ) -> Result<(), AllocError> {
        self.deliver(digest)?;
        if self.a.timeout(self.now).is_some() {
            digest.add(1);
        }
        if self.b.timeout(self.now).is_some() {
            digest.add(2);
        }
        self.write(pool);
        self.read_all(pool, digest);
        self.emit(random, true, digest)?;
        self.emit(random, false, digest)
    }

    /// From event to event, until nothing is under way and no timer runs.
    fn run(
        &mut self,
        pool: &Pool,
        random: &mut Random,
        digest: &mut Digest,
    ) -> Result<(), AllocError> {
        for _ in 0..1_000_000 {
            self.turn(pool, random, digest)?;
            match earlier(
                self.next_arrival(),
                earlier(self.a.poll_at(), self.b.poll_at()),
            ) {
                Some(time) => self.now = self.now.max(time),
                None => return Ok(()),
            }
        }
        Ok(())
    }

    fn released(&self) -> u64 {
        let a: &Endpoint = &self.a.core().end;
        a.released()
    }
}

/// So many transfers, each over a link of its own.
pub(crate) fn move_in_time(
    alloc: Global,
    count: u32,
    seed: u32,
    digest: &mut Digest,
) -> Result<(), AllocError> {
    let mut random = Random::new(seed, 6);
    let pool = Pool::new(alloc, &mut random)?;
    for number in 0..count {
        let isn = (random.number() >> 32) as u32;
        let lost = 5 * (number % 5);
        let window = 20_000 + 10_000 * u64::from(number % 8);
        let Some(mut link) = Link::new(alloc, isn, window, lost, 2_000_000) else {
            return Err(AllocError);
        };
        link.run(&pool, &mut random, digest)?;
        digest.add(link.released());
        digest.add(link.now);
    }
    Ok(())
}
