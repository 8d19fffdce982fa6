ghost use Rattle.std.specs.Prelude.{◌≡◌, ◌≤◌, None, MatchOption, Some, length, true};
ghost use Rattle.capture_form.specs.Blocks.{is_section, order_at, total_len, is_total, is_ended, is_whole, is_broken, block_at};
ghost use Rattle.capture_form.specs.SectionView.{block_content};

use crate::order::Order;
use byteorder::{BigEndian, ByteOrder};

/// A block of a section, its bytes where they are.
#[derive(Clone, Copy, Debug)]
pub struct Block<'a> {
    pub kind: u32,
    pub body: &'a [u8],
}

/// The type of a block that begins a section.
pub(crate) const SECTION: u32 = 0x0a0d_0d0a;

/// What tells its order.
pub(crate) const ORDER: u32 = 0x1a2b_3c4d;

/// The most that a block has.
const MAX_TOTAL: u32 = 16_777_216;

/// Whether these bytes begin as a section does: then they are a capture in the pcapng form.
pub fn is_section(bytes: &[u8]) -> bool
    ensures { result ≡ is_section bytes.now }
{
    if bytes.len() < 4 {
        return false;
    }
    BigEndian::read_u32(bytes) == SECTION
}

/// The order of the block that begins these bytes, in a section of this order.
pub(crate) fn order_at(order: Order, bytes: &[u8]) -> Order
    requires { 12 ≤ length bytes.now }
    ensures { result ≡ order_at order bytes.now }
{
    if !is_section(bytes) {
        return order;
    }
    if BigEndian::read_u32(&bytes[8..]) == ORDER {
        Order::Big
    } else {
        Order::Little
    }
}

fn is_total(len: u32) -> bool
    ensures value { result ≡ is_total len }
    ensures least { result ≡ true → 12 ≤ len }
{
    len >= 12 && len % 4 == 0 && len <= MAX_TOTAL
}

/// Whether a block's length is told again at its end.
fn is_ended(order: Order, bytes: &[u8]) -> bool
    requires least { 12 ≤ total_len order bytes.now }
    requires fits { total_len order bytes.now ≤ length bytes.now }
    ensures { result ≡ is_ended order bytes.now }
{
    let len = order.read_u32(&bytes[4..]);
    order.read_u32(&bytes[len as usize - 4..]) == len
}

/// Whether a block begins these bytes, and all of it is there.
#[tactic(auto, unfolding(crate::specs::Blocks::is_whole))]
pub(crate) fn is_whole(order: Order, bytes: &[u8]) -> bool
    ensures value { result ≡ is_whole order bytes.now }
    ensures least { result ≡ true → 12 ≤ total_len order bytes.now }
    ensures fits { result ≡ true → total_len order bytes.now ≤ length bytes.now }
{
    if bytes.len() < 12 {
        return false;
    }
    let len = order.read_u32(&bytes[4..]);
    if !is_total(len) || bytes.len() < len as usize {
        return false;
    }
    is_ended(order, bytes)
}

/// Whether none begins them, whatever follows.
#[tactic(auto, unfolding(crate::specs::Blocks::is_broken))]
pub(crate) fn is_broken(order: Order, bytes: &[u8]) -> bool
    ensures { result ≡ is_broken order bytes.now }
{
    if bytes.len() < 12 {
        return false;
    }
    let len = order.read_u32(&bytes[4..]);
    if !is_total(len) {
        return true;
    }
    bytes.len() >= len as usize && !is_ended(order, bytes)
}

/// The block that begins these bytes, and the bytes after it.
#[tactic(auto, unfolding(crate::specs::Blocks::block_at))]
pub(crate) fn read_block(order: Order, bytes: &[u8]) -> Option<(Block<'_>, &[u8])>
    ensures { MatchOption result (block_at order bytes.now ≡ None) (λ r. block_at order bytes.now ≡ Some (block_content r.0, r.1.now)) }
{
    if !is_whole(order, bytes) {
        return None;
    }
    let len = order.read_u32(&bytes[4..]) as usize;
    let body = &bytes[8..];
    let block = Block {
        kind: order.read_u32(bytes),
        body: &body[..len - 12],
    };
    Some((block, &bytes[len..]))
}
