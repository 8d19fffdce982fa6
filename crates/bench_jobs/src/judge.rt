//! Logs of one end: it sends with few or many segments in flight, or what comes to it is held behind a gap, in any order.
use crate::digest::Digest;
use crate::random::{POOL, Pool, Random};
use crate::segments::{ACK, FIN, Fields, Maker, PSH, SYN, push_u16, push_u32};
use crate::words::push_words;
use kit_judge::{Shown, judge_text};
use std::alloc::{AllocError, Global};
use tcp_wire::Addr;

/// The end that is judged, and its peer.
const END: Addr = Addr([10, 0, 0, 1]);

const PEER: Addr = Addr([10, 0, 0, 2]);

const WENT: &[u8] = b"went 10.0.0.1 10.0.0.2 ";

const CAME: &[u8] = b"came 10.0.0.2 10.0.0.1 ";

/// A log while it is written.
#[derive(Drop)]
struct Log {
    text: Vec<u8>,
    maker: Maker,
    /// The initial numbers of the end and of its peer.
    isn: u32,
    peer_isn: u32,
}

/// The numbers and flags of a segment.
#[derive(Clone, Copy)]
struct Numbers {
    seq: u32,
    ack: u32,
    flags: u8,
}

impl Log {
    fn new(alloc: Global) -> Log {
        Log {
            text: Vec::new(alloc),
            maker: Maker::new(alloc),
            isn: 0,
            peer_isn: 0,
        }
    }

    /// The end sends a piece of the pool. Numbers count from the two SYNs.
    fn went(
        &mut self,
        pool: &Pool,
        numbers: Numbers,
        at: usize,
        len: usize,
    ) -> Result<(), AllocError> {
        let fields = Fields {
            src_port: 1,
            dst_port: 2,
            seq: self.isn.wrapping_add(numbers.seq),
            ack: self.peer_isn.wrapping_add(numbers.ack),
            flags: numbers.flags,
            window: 65_535,
        };
        self.maker.make(END, PEER, fields, pool.piece(at, len))?;
        self.maker.push_line(&mut self.text, WENT, pool, at, len)
    }

    /// A piece of the pool comes to the end.
    fn came(
        &mut self,
        pool: &Pool,
        numbers: Numbers,
        at: usize,
        len: usize,
    ) -> Result<(), AllocError> {
        let fields = Fields {
            src_port: 2,
            dst_port: 1,
            seq: self.peer_isn.wrapping_add(numbers.seq),
            ack: self.isn.wrapping_add(numbers.ack),
            flags: numbers.flags,
            window: 65_535,
        };
        self.maker.make(PEER, END, fields, pool.piece(at, len))?;
        self.maker.push_line(&mut self.text, CAME, pool, at, len)
    }

    /// A segment without text.
    fn bare(
        &mut self,
        pool: &Pool,
        goes: bool,
        seq: u32,
        ack: u32,
        flags: u8,
    ) -> Result<(), AllocError> {
        let numbers = Numbers { seq, ack, flags };
        if goes {
            self.went(pool, numbers, 0, 0)
        } else {
            self.came(pool, numbers, 0, 0)
        }
    }

    /// The handshake, in which both permit selective acknowledgement.
    fn open(&mut self, pool: &Pool, random: &mut Random) -> Result<(), AllocError> {
        self.text.clear();
        self.isn = (random.number() >> 32) as u32;
        self.peer_isn = (random.number() >> 32) as u32;
        self.maker.options.clear();
        push_words(&mut self.maker.options, &[2, 4, 5, 180, 4, 2, 1, 1])?;
        let unknown = 0u32.wrapping_sub(self.peer_isn);
        self.bare(pool, true, 0, unknown, SYN)?;
        self.bare(pool, false, 0, 1, SYN | ACK)?;
        self.maker.options.clear();
        self.bare(pool, true, 1, 1, ACK)
    }

    /// Puts blocks of so many pieces of `len` bytes each, from these first ones on, into the next segment's options.
    fn put_blocks(&mut self, blocks: &[(usize, usize)], len: usize) -> Result<(), AllocError> {
        self.maker.options.clear();
        if blocks.is_empty() {
            return Ok(());
        }
        push_u16(&mut self.maker.options, 257)?;
        let count = blocks.len().min(4) as u16;
        push_u16(&mut self.maker.options, 1282 + 8 * count)?;
        for (from, to) in blocks {
            let left = number_of(*from, len);
            let right = number_of(*to, len);
            push_u32(&mut self.maker.options, self.peer_isn.wrapping_add(left))?;
            push_u32(&mut self.maker.options, self.peer_isn.wrapping_add(right))?;
        }
        Ok(())
    }
}

/// The sequence number of a piece, counted from the SYN.
fn number_of(piece: usize, len: usize) -> u32 {
    let bytes = piece.saturating_mul(len).min(1 << 31) as u32;
    bytes.wrapping_add(1)
}

/// Where a piece of a stream stands in the pool: the stream has the pool's bytes, again and again.
fn place_of(piece: usize, len: usize) -> usize {
    let pieces = POOL.checked_div(len).unwrap_or(1).max(1);
    (piece % pieces).saturating_mul(len)
}

/// What an end sends: `pieces` segments of `len` bytes with up to `window` of them in flight, of which every second one is
/// acknowledged. Some go out a second time.
fn write_sender(
    log: &mut Log,
    pool: &Pool,
    random: &mut Random,
    len: usize,
    pieces: usize,
    window: usize,
) -> Result<(), AllocError> {
    log.open(pool, random)?;
    for piece in 0..pieces {
        send_piece(log, pool, piece, len)?;
        if random.happens(20) {
            send_piece(log, pool, piece.saturating_sub(window / 2), len)?;
        }
        if piece >= window && piece % 2 == 1 {
            let acked = number_of(piece - window, len);
            log.bare(pool, false, 1, acked, ACK)?;
        }
    }
    log.bare(pool, false, 1, number_of(pieces, len), ACK)?;
    log.bare(pool, true, number_of(pieces, len), 1, FIN | ACK)
}

fn send_piece(log: &mut Log, pool: &Pool, piece: usize, len: usize) -> Result<(), AllocError> {
    let numbers = Numbers {
        seq: number_of(piece, len),
        ack: 1,
        flags: ACK | PSH,
    };
    log.went(pool, numbers, place_of(piece, len), len)
}

/// The pieces from the second on, in any order.
fn shuffled(alloc: Global, random: &mut Random, pieces: usize) -> Result<Vec<usize>, AllocError> {
    let mut order = Vec::with_capacity(alloc, pieces)?;
    for piece in 1..pieces {
        order.push(piece)?;
    }
    let count = order.len();
    for i in 0..count {
        order.swap(i, random.between(i, count).min(count - 1));
    }
    Ok(order)
}

/// Whether a piece came.
fn has_piece(has: &[bool], piece: usize) -> bool {
    has.get(piece).copied().unwrap_or(false)
}

/// The run of pieces that came in which a piece lies.
fn run_of(has: &[bool], piece: usize) -> (usize, usize) {
    let mut from = piece;
    for _ in 0..piece {
        if !has_piece(has, from.saturating_sub(1)) {
            break;
        }
        from = from.saturating_sub(1);
    }
    let mut to = piece.saturating_add(1);
    for _ in piece..has.len() {
        if !has_piece(has, to) {
            break;
        }
        to = to.saturating_add(1);
    }
    (from, to)
}

/// What comes to an end: `pieces` segments of `len` bytes, the first of them last and the others in any order. Each is
/// answered at once, with blocks of the run that it lies in and of the two pieces before it.
fn write_holder(
    alloc: Global,
    log: &mut Log,
    pool: &Pool,
    random: &mut Random,
    len: usize,
    pieces: usize,
) -> Result<(), AllocError> {
    log.open(pool, random)?;
    let order = shuffled(alloc, random, pieces)?;
    let mut has = vec![in alloc; false; pieces.saturating_add(1)]?;
    let mut blocks = [(0, 0), (0, 0), (0, 0)];
    let mut count = 0usize;
    for piece in order.iter() {
        take_piece(log, pool, *piece, len)?;
        if let Some(place) = has.get_mut(*piece) {
            *place = true;
        }
        blocks[2] = blocks[1];
        blocks[1] = blocks[0];
        blocks[0] = run_of(&has, *piece);
        count = 3.min(count.saturating_add(1));
        log.put_blocks(&blocks[..count.min(3)], len)?;
        log.bare(pool, true, 1, 1, ACK)?;
    }
    log.put_blocks(&[], len)?;
    take_piece(log, pool, 0, len)?;
    log.bare(pool, true, 1, number_of(pieces, len), ACK)
}

/// A piece comes, with no options.
fn take_piece(log: &mut Log, pool: &Pool, piece: usize, len: usize) -> Result<(), AllocError> {
    log.maker.options.clear();
    let numbers = Numbers {
        seq: number_of(piece, len),
        ack: 1,
        flags: ACK,
    };
    log.came(pool, numbers, place_of(piece, len), len)
}

/// What comes to an end in order, every second segment of it acknowledged.
fn write_receiver(
    log: &mut Log,
    pool: &Pool,
    random: &mut Random,
    len: usize,
    pieces: usize,
) -> Result<(), AllocError> {
    log.open(pool, random)?;
    for piece in 0..pieces {
        take_piece(log, pool, piece, len)?;
        if piece % 2 == 1 {
            log.bare(pool, true, 1, number_of(piece.saturating_add(1), len), ACK)?;
        }
    }
    Ok(())
}

/// Writes the log of this number.
fn write_log(
    alloc: Global,
    log: &mut Log,
    pool: &Pool,
    random: &mut Random,
    number: u32,
) -> Result<(), AllocError> {
    match number % 6 {
        0 => write_sender(log, pool, random, 1448, 4000, 10),
        1 => write_sender(log, pool, random, 1000, 5000, 700),
        2 => write_receiver(log, pool, random, 1448, 4000),
        3 => write_holder(alloc, log, pool, random, 100, 3000),
        4 => write_sender(log, pool, random, 1, 20_000, 100),
        _ => write_holder(alloc, log, pool, random, 1448, 1000),
    }
}

/// Adds the judgement of a log.
fn add_judgement(alloc: Global, log: &[u8], digest: &mut Digest) {
    match judge_text(alloc, log, true, Shown::Each) {
        Ok(report) => {
            digest.add_bytes(report.text.as_bytes());
            digest.add(u64::from(report.is_clean));
        }
        Err(_) => digest.add(0),
    }
}

/// Judges so many logs.
pub(crate) fn judge_logs(
    alloc: Global,
    count: u32,
    seed: u32,
    digest: &mut Digest,
) -> Result<(), AllocError> {
    let mut random = Random::new(seed, 2);
    let pool = Pool::new(alloc, &mut random)?;
    let mut log = Log::new(alloc);
    for number in 0..count {
        write_log(alloc, &mut log, &pool, &mut random, number)?;
        add_judgement(alloc, &log.text, digest);
    }
    Ok(())
}
