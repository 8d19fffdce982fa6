//! The pieces of a pool.
ghost use Rattle.std.specs.Prelude.{◌≡◌, ◌<◌, ◌%◌, ◌^◌, IfSome};

use crate::piece::{Bytes, Piece};
use region_heap::{Block, Region};
use std::mem::{self, size_of};

/// How many sizes of pieces there is room for at first.
const SHELVES: usize = 8;

/// How many pieces of a size there is room for at first.
const PIECES: usize = 4;

/// The pieces of a size.
#[derive(Drop)]
struct Shelf {
    /// The size in bytes.
    size: usize,
    /// How many there are, in use or not.
    count: usize,
    /// Those that aren't in use, with room for all.
    free: Vec<Piece, Region>,
}

/// The memory of a pool.
#[derive(Drop)]
pub(crate) struct Store {
    /// What was never handed out.
    rest: Option<Block>,
    /// What was freed, by its size.
    shelves: Vec<Shelf, Region>,
}

/// The front of a block as a region, if it has so many bytes.
fn carve(rest: &mut Option<Block>, size: usize) -> Option<Region> {
    let block = rest.take()?;
    if block.size < size {
        *rest = Some(block);
        return None;
    }
    let (front, behind) = block.split(size);
    *rest = Some(behind);
    Some(Region::new(front))
}

/// Room for so many sizes.
fn room_for(rest: &mut Option<Block>, sizes: usize) -> Option<Vec<Shelf, Region>> {
    let region = carve(rest, sizes.saturating_mul(size_of::<Shelf>()))?;
    Vec::with_capacity(region, sizes).ok()
}

impl Shelf {
    /// There is room for a piece more, which is in use. Only where all are is there a list that isn't roomy enough.
    fn count_one(&mut self, rest: &mut Option<Block>) -> Option<()> {
        if self.count == usize::MAX {
            return None;
        }
        if self.free.capacity() <= self.count {
            let room = self.count.saturating_mul(2).max(PIECES);
            let region = carve(rest, room.saturating_mul(size_of::<Piece>()))?;
            self.free = Vec::with_capacity(region, room).ok()?;
        }
        self.count += 1;
        Some(())
    }
}

impl Store {
    /// All that is handed out is in this block.
    pub(crate) fn new(block: Block) -> Option<Store> {
        let mut rest = Some(block);
        let shelves = room_for(&mut rest, SHELVES)?;
        Some(Store { rest, shelves })
    }

    /// The place of the pieces of a size, if there are any.
    fn find(&self, size: usize) -> Option<usize> {
        for (at, shelf) in self.shelves.iter().enumerate() {
            if shelf.size == size {
                return Some(at);
            }
        }
        None
    }

    /// Whether so many bytes were never handed out.
    fn has_room(&self, size: usize) -> bool {
        match &self.rest {
            Some(block) => block.size >= size,
            None => false,
        }
    }

    /// There is room for a size more.
    fn grow(&mut self) -> Option<()> {
        if self.shelves.len() < self.shelves.capacity() {
            return Some(());
        }
        let more = room_for(&mut self.rest, self.shelves.len().saturating_mul(2))?;
        let shelves = mem::replace(&mut self.shelves, more);
        for shelf in shelves {
            self.shelves.push(shelf).ok()?;
        }
        Some(())
    }

    /// The place of the pieces of a size, for which there is one where there are none yet only if a piece fits.
    fn shelf(&mut self, size: usize) -> Option<usize> {
        if let Some(at) = self.find(size) {
            return Some(at);
        }
        if !self.has_room(size) {
            return None;
        }
        self.grow()?;
        let region = carve(&mut self.rest, 0)?;
        let shelf = Shelf {
            size,
            count: 0,
            free: Vec::new(region),
        };
        let at = self.shelves.len();
        self.shelves.push(shelf).ok()?;
        Some(at)
    }

    /// A piece of a size: one that was freed, if there is one.
    pub(crate) fn take(&mut self, size: usize) -> Option<Bytes>
        requires { (size % 16 ≡ 0) × (size < 2 ^ 63) }
        ensures { IfSome result (λ b. b.size ≡ size) }
    {
        let at = self.shelf(size)?;
        let fits = self.has_room(size);
        let shelf = self.shelves.get_mut(at)?;
        if let Some(piece) = shelf.free.pop() {
            return if piece.size == size {
                Some(piece.bytes)
            } else {
                None
            };
        }
        // What is refused takes nothing, so that it can be asked for as often as one likes.
        if !fits {
            return None;
        }
        shelf.count_one(&mut self.rest)?;
        let Some(region) = carve(&mut self.rest, size) else {
            shelf.count = shelf.count.saturating_sub(1);
            return None;
        };
        Bytes::of(&region, size)
    }

    /// A piece isn't in use any more.
    pub(crate) fn give(&mut self, piece: Piece) {
        let Some(at) = self.find(piece.size) else {
            return;
        };
        if let Some(shelf) = self.shelves.get_mut(at) {
            let _kept = shelf.free.push(piece);
        }
    }
}
