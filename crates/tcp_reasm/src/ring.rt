//! A ring of bytes in one block: its offsets count from a start on, over the block's end.
ghost use Rattle.std.specs.Prelude.{◌≡◌, ℕ, ◌+◌, ◌<◌, ◌≤◌, ◌++◌, length, List, take, drop, vec_capacity, IfOk};
ghost use Rattle.tcp_reasm.specs.Reassembly.{max_capacity};
ghost use Rattle.tcp_reasm.specs.Store.{turned, filled, put, ready_from, IsRing, Turned};

use std::alloc::{AllocError, Allocator, Global};
use std::marker::Model;

/// As many bytes as its capacity, each of them 0 until it is written. Memory that nothing was written to isn't touched.
#[derive(Debug, Drop)]
pub(crate) struct Ring<A: Allocator = Global> {
    /// The bytes of the block up to the last that was written. Those after it, up to the capacity, are 0.
    block: Vec<u8, A>,
    /// How many bytes there are, at most [`MAX_CAPACITY`](crate::MAX_CAPACITY).
    capacity: u32,
    /// The index in the block of the first byte. The others follow it, over the block's end.
    start: u32,
}

impl<A: Allocator> Model for Ring<A> {
    ghost Value = { Turned };

    ghost view = { λ r. record { bytes = turned r.start (filled r.capacity r.block.items); ready = ready_from r.start r.capacity (length r.block.items) } };

    ghost invariant = { λ r. IsRing (vec_capacity r.block) r.capacity r.start r.block.items };
}

impl<A: Allocator> Ring<A> {
    /// A ring of `capacity` bytes. It is allocated now, and isn't touched.
    pub(crate) fn new_in(alloc: A, capacity: usize) -> Result<Self, AllocError>
        requires { capacity ≤ max_capacity }
        ensures { IfOk result (λ ring. length ring.bytes ≡ capacity) }
    {
        let block = Vec::with_capacity(alloc, capacity)?;
        Ok(Ring {
            block,
            capacity: capacity as u32,
            start: 0,
        })
    }

    /// How many bytes there are.
    pub(crate) fn len(&self) -> usize
        ensures { result ≡ length self.now.bytes }
    {
        self.capacity as usize
    }

    /// Writes a text over the bytes from the offset `place` on.
    #[inline(always)]
    pub(crate) fn write(&mut self, place: usize, text: &[u8])
        requires { place + length text.now ≤ length self.old.bytes }
        ensures bytes { self.new.bytes ≡ put place text.now self.old.bytes }
        ensures ready { self.old.ready ≤ self.new.ready }
    {
        let start = self.start as usize;
        let until_end = self.capacity as usize - start;
        if place + text.len() <= until_end {
            write_at(&mut self.block, start + place, text);
        } else if place < until_end {
            let (front, back) = text.split_at(until_end - place);
            write_at(&mut self.block, start + place, front);
            write_at(&mut self.block, 0, back);
        } else {
            write_at(&mut self.block, place - until_end, text);
        }
    }

    /// Copies the first bytes, as many as `out` has room for.
    pub(crate) fn copy(&self, out: &mut [u8])
        requires { length out.old ≤ length self.now.bytes }
        ensures { out.new ≡ take (length out.old) self.now.bytes }
    {
        let start = self.start as usize;
        let until_end = self.capacity as usize - start;
        if out.len() <= until_end {
            copy_at(&self.block, start, out);
        } else {
            let (front, back) = out.split_at_mut(until_end);
            copy_at(&self.block, start, front);
            copy_at(&self.block, 0, back);
        }
    }

    /// Moves the first bytes to the end.
    pub(crate) fn advance(&mut self, count: usize)
        requires { count ≤ length self.old.bytes }
        ensures bytes { self.new.bytes ≡ drop count self.old.bytes ++ take count self.old.bytes }
        ensures ready { self.old.ready ≤ self.new.ready + count }
    {
        let until_end = (self.capacity - self.start) as usize;
        self.start = if count < until_end {
            self.start + count as u32
        } else {
            (count - until_end) as u32
        };
    }

    /// Moves the first byte to the start of the block. What the bytes are then isn't said.
    pub(crate) fn rewind(&mut self)
        ensures { length self.new.bytes ≡ length self.old.bytes }
    {
        self.start = 0;
    }

    /// Makes the first bytes ready to be lent, whether they were written or not.
    #[inline(always)]
    pub(crate) fn reach(&mut self, count: usize)
        requires { count ≤ length self.old.bytes }
        ensures bytes { self.new.bytes ≡ self.old.bytes }
        ensures ready { count ≤ self.new.ready }
    {
        let end = (self.start as usize + count).min(self.capacity as usize);
        if self.block.len() < end {
            grow(&mut self.block, end, &[]);
        }
    }

    /// The first bytes as they lie: up to the block's end, and from its beginning on. Where there are any, the first
    /// part has some.
    pub(crate) fn lend(&self, count: usize) -> (&[u8], &[u8])
        requires ready { count ≤ self.now.ready }
        requires inside { count ≤ length self.now.bytes }
        ensures bytes { result.0.now ++ result.1.now ≡ take count self.now.bytes }
        ensures front { 0 < count → 0 < length result.0.now }
    {
        if count == 0 {
            return (&[], &[]);
        }
        let start = self.start as usize;
        let until_end = self.capacity as usize - start;
        if count <= until_end {
            (&self.block[start..start + count], &[])
        } else if until_end == 0 {
            (&self.block[..count], &[])
        } else {
            (&self.block[start..], &self.block[..count - until_end])
        }
    }
}

/// Writes a text over the bytes of a block from an index on. The block grows where the text ends after it: it has the
/// room, so that nothing is allocated.
fn write_at<A: Allocator>(block: &mut Vec<u8, A>, at: usize, text: &[u8])
    requires { at + length text.now ≤ vec_capacity block.old }
    ensures capacity { vec_capacity block.old ≤ vec_capacity block.new }
    ensures bytes { (n : ℕ) → at + length text.now ≤ n →
        filled n block.new.items ≡ put at text.now (filled n block.old.items) }
    ensures grown { length block.old.items ≤ length block.new.items }
{
    let end = at + text.len();
    if end <= block.len() {
        block[at..end].copy_from_slice(text);
    } else {
        grow(block, at, text);
    }
}

/// Writes a text that ends after a block's end.
#[cold]
#[inline(never)]
fn grow<A: Allocator>(block: &mut Vec<u8, A>, at: usize, text: &[u8])
    requires room { at + length text.now ≤ vec_capacity block.old }
    requires behind { length block.old.items ≤ at + length text.now }
    ensures capacity { vec_capacity block.old ≤ vec_capacity block.new }
    ensures bytes { (n : ℕ) → at + length text.now ≤ n →
        filled n block.new.items ≡ put at text.now (filled n block.old.items) }
    ensures len { length block.new.items ≡ at + length text.now }
{
    let _ = block.resize(at, 0);
    let _ = block.extend_from_slice(text);
}

/// Fills `out` with the bytes of a block from an index on, and with 0 after its end.
fn copy_at(block: &[u8], at: usize, out: &mut [u8])
    requires { at + length out.old ≤ max_capacity }
    ensures { (n : ℕ) → at + length out.old ≤ n → out.new ≡ take (length out.old) (drop at (filled n block.now)) }
{
    let end = at + out.len();
    if end <= block.len() {
        out.copy_from_slice(&block[at..end]);
    } else {
        copy_behind(block, at, out);
    }
}

/// Does so where the bytes end after the block's end.
#[cold]
#[inline(never)]
fn copy_behind(block: &[u8], at: usize, out: &mut [u8])
    ensures { (n : ℕ) → at + length out.old ≤ n → out.new ≡ take (length out.old) (drop at (filled n block.now)) }
{
    let written = &block[block.len().min(at)..];
    let count = written.len().min(out.len());
    let (front, back) = out.split_at_mut(count);
    front.copy_from_slice(&written[..count]);
    back.fill(0);
}
