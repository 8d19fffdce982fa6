//! The stream that an end sent, as far as it isn't acknowledged.
ghost use Rattle.std.specs.Prelude.{◌≡◌, ◌+◌, ◌<◌, ◌≤◌, ◌^◌, OnOk, OnErr, length, drop};
ghost use Rattle.std.specs.Vec.{vec_len};
ghost use Rattle.tcp_judge.specs.Stream.{nothing_sent, count_sent, count_taken, with_text, agrees, changes_bytes, count_covered, without_front};

use std::alloc::{AllocError, Allocator, Global};
use std::fmt;
use std::marker::Model;

/// The greatest count of bytes that a stream has.
const MAX_COUNT: u64 = (1 << 63) - 1;

/// What an end sent, from the first byte on that isn't acknowledged.
#[derive(Drop)]
pub(crate) struct Stream<A: Allocator = Global> {
    /// How many bytes come before that.
    released: u64,
    /// How many of these still lie at the front of `bytes`.
    start: usize,
    /// These, and the bytes from there on, as far as they were sent without a gap.
    bytes: Vec<u8, A>,
}

impl<A: Allocator> Model for Stream<A> {
    ghost use Rattle.std.specs.Prelude.{◌+◌, ◌<◌, ◌≤◌, ◌^◌, length, drop};
    ghost use Rattle.tcp_judge.specs.Stream.{Stream};

    ghost Value = { Stream };

    ghost view = { λ d. record { released = d.released; sent = drop d.start d.bytes.items } };

    ghost invariant = { λ d. (d.start ≤ length d.bytes.items) × (d.released + length d.bytes.items < d.start + 2 ^ 63) };
}

impl<A: Allocator> fmt::Debug for Stream<A> {
    fn fmt<W: fmt::Write>(&self, f: &mut fmt::Formatter<W>) -> fmt::Result {
        let sent = &self.bytes[self.start..];
        f.debug_struct("Stream")
            .field("released", &self.released)
            .field("sent", &sent)
            .finish()
    }
}

/// Whether the two are equal as far as both go.
fn agrees(one: &[u8], other: &[u8]) -> bool
    ensures { result ≡ agrees one.now other.now }
{
    let count = one.len().min(other.len());
    one[..count] == other[..count]
}

fn remove_front<A: Allocator>(bytes: &mut Vec<u8, A>, n: usize)
    requires { n ≤ vec_len bytes.old }
    ensures { bytes.new.items ≡ drop n bytes.old.items }
{
    let len = bytes.len();
    bytes.as_mut_slice().copy_within(n..len, 0);
    bytes.truncate(len - n);
}

impl<A: Allocator + Copy> Stream<A> {
    /// Nothing was sent.
    pub(crate) fn new(alloc: A) -> Self
        ensures { result ≡ nothing_sent }
    {
        Stream {
            released: 0,
            start: 0,
            bytes: Vec::new(alloc),
        }
    }

    /// The bytes that are kept.
    fn sent(&self) -> &[u8]
        ensures { result.now ≡ self.now.sent }
    {
        &self.bytes[self.start..]
    }

    /// How many bytes are kept.
    fn count_kept(&self) -> usize
        ensures { result ≡ length self.now.sent }
    {
        self.bytes.len() - self.start
    }

    /// Moves the bytes that are kept to the front.
    fn compact(&mut self)
        ensures { self.new ≡ self.old }
    {
        if self.start > 0 {
            remove_front(&mut self.bytes, self.start);
            self.start = 0;
        }
    }

    /// How many bytes were sent without a gap.
    pub(crate) fn count(&self) -> u64
        ensures count { result ≡ count_sent self.now }
        ensures most { result < 2 ^ 63 }
    {
        self.released + self.count_kept() as u64
    }

    /// How many positions were sent without a gap, the SYN's and the FIN's among them.
    pub(crate) fn count_taken(&self, has_fin: bool) -> u64
        ensures count { result ≡ count_taken self.now has_fin }
        ensures most { result < 2 ^ 63 + 2 }
    {
        1 + self.count() + u64::from(has_fin)
    }

    /// Whether a text has another byte at a position that was sent before and isn't acknowledged.
    pub(crate) fn changes_bytes(&self, place: u64, text: &[u8]) -> bool
        ensures { result ≡ changes_bytes self.now place text.now }
    {
        let first = 1 + self.released;
        if place == 0 || place > self.count() {
            return false;
        }
        if place >= first {
            return !agrees(&self.sent()[(place - first) as usize..], text);
        }
        let before = (first - place) as usize;
        before < text.len() && !agrees(self.sent(), &text[before..])
    }

    /// Makes room for `n` bytes more, as far as there is memory. Where a third of the vector is forgotten, or it can't
    /// grow, the bytes that are kept are moved in place of that.
    fn make_room(&mut self, n: usize)
        ensures { self.new ≡ self.old }
    {
        let spare = self.bytes.capacity() - self.bytes.len();
        if n <= spare {
            return;
        }
        if self.start >= self.count_kept() / 2 || self.bytes.reserve(n).is_err() {
            self.compact();
        }
    }

    /// Extends the stream by what a text has beyond its end. Memory is allocated first; a stream of 2^63 bytes has none.
    pub(crate) fn extend(&mut self, place: u64, text: &[u8]) -> Result<(), AllocError>
        ensures sent { OnOk result (self.new ≡ with_text self.old place text.now) }
        ensures err { OnErr result (self.new ≡ self.old) }
    {
        let count = self.count();
        if place == 0 || place > 1 + count {
            return Ok(());
        }
        let known = (1 + count - place) as usize;
        if known < text.len() {
            if (text.len() - known) as u64 > MAX_COUNT - count {
                return Err(AllocError);
            }
            self.make_room(text.len() - known);
            self.bytes.extend_from_slice(&text[known..])?;
        }
        Ok(())
    }

    /// How many of the bytes that are kept an acknowledgement with this position covers.
    pub(crate) fn count_covered(&self, has_fin: bool, position: u64) -> usize
        ensures count { result ≡ count_covered self.now has_fin position }
        ensures most { result ≤ length self.now.sent }
    {
        if position > self.count_taken(has_fin) || position <= self.released {
            return 0;
        }
        let covered = position - (1 + self.released);
        self.count_kept().min(covered as usize)
    }

    /// Forgets the first bytes that are kept. The others are moved once no more of them are left than were forgotten since
    /// the last time.
    pub(crate) fn release(&mut self, n: usize)
        requires { n ≤ length self.old.sent }
        ensures { self.new ≡ without_front self.old n }
    {
        self.released += n as u64;
        self.start += n;
        if self.start >= self.count_kept() {
            self.compact();
        }
    }

    /// Forgets all that was sent.
    pub(crate) fn forget(&mut self)
        ensures { self.new ≡ nothing_sent }
    {
        self.released = 0;
        self.start = 0;
        self.bytes.clear();
    }
}
