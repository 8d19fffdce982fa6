//! Lists of segments of many sizes, some with options, some malformed.
use crate::digest::Digest;
use crate::random::{POOL, Pool, Random};
use crate::segments::{ACK, Fields, Maker, PSH, SYN, push_u16, push_u32};
use crate::words::push_words;
use kit_commands::list_segments;
use std::alloc::{AllocError, Global};
use tcp_wire::Addr;

/// How many lines a list has.
const LINES: u32 = 20_000;

const A: Addr = Addr([10, 0, 0, 1]);

const B: Addr = Addr([192, 168, 10, 2]);

/// The options of a segment: those of a SYN, a timestamp, or a timestamp and up to three blocks.
fn put_options(
    options: &mut Vec<u8>,
    random: &mut Random,
    flags: u8,
    ack: u32,
) -> Result<(), AllocError> {
    options.clear();
    if flags == SYN {
        push_words(options, &[2, 4, 5, 180, 4, 2, 1, 1, 1, 3, 3, 7])?;
        return Ok(());
    }
    if random.happens(800) {
        push_words(options, &[1, 1, 8, 10])?;
        push_u32(options, (random.number() >> 40) as u32)?;
        push_u32(options, (random.number() >> 40) as u32)?;
    }
    if random.happens(100) {
        let blocks = 1 + random.below(3) as u16;
        push_u16(options, 257)?;
        push_u16(options, 1282 + 8 * blocks)?;
        for k in 1..=u32::from(blocks) {
            push_u32(options, ack.wrapping_add(k.wrapping_mul(4000)))?;
            push_u32(
                options,
                ack.wrapping_add(k.wrapping_mul(4000)).wrapping_add(1460),
            )?;
        }
    }
    Ok(())
}

/// How many bytes of text a segment has: none, as many as fit, or some.
fn text_len(random: &mut Random, flags: u8) -> usize {
    if flags == SYN {
        return 0;
    }
    match random.below(10) {
        0..=3 => 0,
        4..=7 => 1400,
        _ => random.between(1, 1400),
    }
}

/// Appends the line of one segment. One of 50 has a byte changed.
fn push_segment(
    list: &mut Vec<u8>,
    maker: &mut Maker,
    pool: &Pool,
    random: &mut Random,
    number: u32,
) -> Result<(), AllocError> {
    let flags = if number % 200 == 0 { SYN } else { ACK | PSH };
    let len = text_len(random, flags);
    let at = random.between(0, POOL.saturating_sub(len));
    let fields = Fields {
        src_port: 49_152,
        dst_port: 443,
        seq: (random.number() >> 32) as u32,
        ack: (random.number() >> 32) as u32,
        flags,
        window: (random.number() >> 48) as u16,
    };
    put_options(&mut maker.options, random, flags, fields.ack)?;
    maker.make(A, B, fields, pool.piece(at, len))?;
    if random.happens(20) {
        maker.spoil(7);
    }
    maker.push_line(list, b"10.0.0.1 192.168.10.2 ", pool, at, len)
}

/// Writes a list.
fn write_list(
    list: &mut Vec<u8>,
    maker: &mut Maker,
    pool: &Pool,
    random: &mut Random,
) -> Result<(), AllocError> {
    list.clear();
    push_words(list, b"# what was captured\n\n")?;
    for number in 0..LINES {
        push_segment(list, maker, pool, random, number)?;
    }
    Ok(())
}

/// Adds the listing of a list.
fn add_listing(alloc: Global, list: &[u8], digest: &mut Digest) {
    match list_segments(alloc, list) {
        Ok(listing) => {
            digest.add_bytes(listing.text.as_bytes());
            digest.add(match listing.answer {
                Ok(is_well) => u64::from(is_well),
                Err(line) => line as u64,
            });
        }
        Err(_) => digest.add(0),
    }
}

/// Lists so many lists.
pub(crate) fn list_lists(
    alloc: Global,
    count: u32,
    seed: u32,
    digest: &mut Digest,
) -> Result<(), AllocError> {
    let mut random = Random::new(seed, 3);
    let pool = Pool::new(alloc, &mut random)?;
    let mut maker = Maker::new(alloc);
    let mut list = Vec::new(alloc);
    for _ in 0..count {
        write_list(&mut list, &mut maker, &pool, &mut random)?;
        add_listing(alloc, &list, digest);
    }
    Ok(())
}
