//! Segments and lines of text with segments, made without an end.
ghost use Rattle.std.specs.Prelude.{◌≡◌, ◌≤◌, ◌+◌, length};

use crate::random::Pool;
use crate::words::{push_hex, push_words};
use byteorder::{BigEndian, ByteOrder};
use std::alloc::{AllocError, Global};
use tcp_wire::{Addr, checksum};

/// The fields of a segment that aren't always the same.
#[derive(Clone, Copy)]
pub(crate) struct Fields {
    pub(crate) src_port: u16,
    pub(crate) dst_port: u16,
    pub(crate) seq: u32,
    pub(crate) ack: u32,
    pub(crate) flags: u8,
    pub(crate) window: u16,
}

pub(crate) const FIN: u8 = 1;

pub(crate) const SYN: u8 = 2;

pub(crate) const PSH: u8 = 8;

pub(crate) const ACK: u8 = 16;

/// The length of the fixed header, in bytes.
const HEADER: usize = 20;

/// The most bytes of options.
const OPTIONS: usize = 40;

/// A line's segment: its bytes, and the options that are put into the next one.
#[derive(Drop)]
pub(crate) struct Maker {
    bytes: Vec<u8>,
    /// Whole words of four bytes.
    pub(crate) options: Vec<u8>,
}

/// The fixed header, with the checksum left 0.
fn header_of(fields: Fields, option_words: u8) -> [u8; HEADER] {
    let mut header = [0; HEADER];
    BigEndian::write_u16(&mut header, fields.src_port);
    BigEndian::write_u16(&mut header[2..], fields.dst_port);
    BigEndian::write_u32(&mut header[4..], fields.seq);
    BigEndian::write_u32(&mut header[8..], fields.ack);
    header[12] = 80 + 16 * option_words.min(10);
    header[13] = fields.flags;
    BigEndian::write_u16(&mut header[14..], fields.window);
    header
}

/// Writes the checksum of a segment into it, where it has a segment's length.
fn put_checksum(src: Addr, dst: Addr, bytes: &mut [u8]) {
    if bytes.len() < HEADER || bytes.len() > 2000 {
        return;
    }
    let sum = checksum(src, dst, bytes);
    BigEndian::write_u16(&mut bytes[16..], sum);
}

impl Maker {
    pub(crate) fn new(alloc: Global) -> Maker {
        Maker {
            bytes: Vec::new(alloc),
            options: Vec::new(alloc),
        }
    }

    /// The bytes of the last segment.
    pub(crate) fn bytes(&self) -> &[u8] {
        &self.bytes
    }

    /// Changes a byte of the last segment, where it has so many.
    pub(crate) fn spoil(&mut self, place: usize) {
        if place < self.bytes.len() {
            self.bytes[place] ^= 1;
        }
    }

    /// Makes a segment with the piece of the pool as its text.
    pub(crate) fn make(
        &mut self,
        src: Addr,
        dst: Addr,
        fields: Fields,
        text: &[u8],
    ) -> Result<(), AllocError> {
        let words = (self.options.len() / 4).min(10) as u8;
        self.bytes.clear();
        self.bytes.extend_from_slice(&header_of(fields, words))?;
        self.bytes.extend_from_slice(&self.options)?;
        self.bytes.extend_from_slice(text)?;
        put_checksum(src, dst, &mut self.bytes);
        Ok(())
    }

    /// Appends a line: words, and then the digits of the last segment, whose text is this piece of the pool.
    pub(crate) fn push_line(
        &self,
        text: &mut Vec<u8>,
        words: &[u8],
        pool: &Pool,
        at: usize,
        len: usize,
    ) -> Result<(), AllocError> {
        let header = self.bytes.len().saturating_sub(len).min(HEADER + OPTIONS);
        push_words(text, words)?;
        push_hex(text, &self.bytes[..header])?;
        push_words(text, pool.digits(at, len))?;
        push_words(text, b"\n")
    }
}

/// Appends a number of two bytes.
pub(crate) fn push_u16(options: &mut Vec<u8>, number: u16) -> Result<(), AllocError> {
    let mut bytes = [0; 2];
    BigEndian::write_u16(&mut bytes, number);
    options.extend_from_slice(&bytes)
}

/// Appends a number of four bytes.
pub(crate) fn push_u32(options: &mut Vec<u8>, number: u32) -> Result<(), AllocError> {
    let mut bytes = [0; 4];
    BigEndian::write_u32(&mut bytes, number);
    options.extend_from_slice(&bytes)
}
