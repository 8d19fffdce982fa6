ghost use Rattle.std.specs.Prelude.{◌≡◌, ◌↔◌, ◌+◌, ◌*◌, ◌<◌, ◌≤◌, ◌^◌, ℕ, List, length, IsTrue};
ghost use Rattle.tcp_numbers.specs.Checksum.{header_len, max_len};
ghost use Rattle.tcp_numbers.specs.Checksum.{word_sum, segment_sum, Checks, field, pseudo_header, DiffersInOnePlace};

use crate::addr::Addr;
use crate::lanes::{lane_sum, short_lane_sum};
use byteorder::{BigEndian, ByteOrder};

/// Inputs of fewer bytes than this are summed over eight lanes: more lanes take longer to combine at the end.
const LONG: usize = 256;

/// The sum of the first four words, where there are as many, and the bytes after them.
#[inline(always)]
#[tactic(auto, using(crate::proofs::WordSums::word_sum_four))]
fn sum_eight(bytes: &[u8]) -> (u32, &[u8])
    requires { length bytes.now < 16 }
    ensures sum { result.0 + word_sum result.1.now ≡ word_sum bytes.now }
    ensures short { length result.1.now < 8 }
    ensures bound { result.0 < 2 ^ 18 }
{
    if bytes.len() < 8 {
        return (0, bytes);
    }
    let four = BigEndian::read_u64(bytes);
    let outer = four / (1 << 48) + four % (1 << 16);
    let inner = four / (1 << 32) % (1 << 16) + four / (1 << 16) % (1 << 16);
    ((outer + inner) as u32, &bytes[8..])
}

/// The sum of the first two words, where there are as many, and the bytes after them.
#[inline(always)]
#[tactic(auto, using(crate::proofs::WordSums::word_sum_two))]
fn sum_four(bytes: &[u8]) -> (u32, &[u8])
    requires { length bytes.now < 8 }
    ensures sum { result.0 + word_sum result.1.now ≡ word_sum bytes.now }
    ensures short { length result.1.now < 4 }
    ensures bound { result.0 < 2 ^ 17 }
{
    if bytes.len() < 4 {
        return (0, bytes);
    }
    let two = BigEndian::read_u32(bytes);
    (two / (1 << 16) + two % (1 << 16), &bytes[4..])
}

/// The sum of the first word, where there is one, and the bytes after it.
#[inline(always)]
#[tactic(auto, using(crate::proofs::WordSums::word_sum_more))]
fn sum_two(bytes: &[u8]) -> (u32, &[u8])
    requires { length bytes.now < 4 }
    ensures sum { result.0 + word_sum result.1.now ≡ word_sum bytes.now }
    ensures short { length result.1.now < 2 }
    ensures bound { result.0 < 2 ^ 16 }
{
    if bytes.len() < 2 {
        return (0, bytes);
    }
    (u32::from(BigEndian::read_u16(bytes)), &bytes[2..])
}

/// The sum of the words of a short input.
#[inline(always)]
fn short_sum(bytes: &[u8]) -> u32
    requires { length bytes.now < 4096 }
    ensures { result ≡ word_sum bytes.now }
{
    let (front, rest) = short_lane_sum(bytes);
    let (eight, rest) = sum_eight(rest);
    let (four, rest) = sum_four(rest);
    let (two, rest) = sum_two(rest);
    let mut sum = front + eight + four + two;
    if let [high] = rest {
        sum += 256 * u32::from(*high);
    }
    sum
}

/// The sum of the words of a long input. Not inlined, so that short segments don't pay for it.
#[inline(never)]
fn long_sum(bytes: &[u8]) -> u32
    requires { length bytes.now ≤ max_len }
    ensures { result ≡ word_sum bytes.now }
{
    let mut sum = 0;
    let mut rest = bytes;
    while rest.len() >= LONG {
        let (more, behind) = lane_sum(rest);
        sum += more;
        rest = behind;
    }
    sum + short_sum(rest)
}

/// The whole-number sum of the 16-bit words in network order, where an odd last byte is a high half (RFC 9293, 3.1).
/// There are at most 65515 bytes, and no bytes give 0.
#[inline(always)]
pub fn word_sum(bytes: &[u8]) -> u32
    requires { length bytes.now ≤ max_len }
    ensures exact { result ≡ word_sum bytes.now }
    ensures bound { 2 * result ≤ 65535 * (length bytes.now + 1) }
{
    if bytes.len() < LONG {
        short_sum(bytes)
    } else {
        long_sum(bytes)
    }
}

/// The sum of the two words of an address.
#[inline(always)]
fn addr_sum(addr: Addr) -> u32
    ensures exact { result ≡ word_sum addr.0 }
    ensures bound { result < 2 ^ 17 }
{
    u32::from(BigEndian::read_u16(&addr.0)) + u32::from(BigEndian::read_u16(&addr.0[2..]))
}

/// The sum of the pseudo-header: addresses, the protocol's number 6, and the segment's length (RFC 9293, 3.1).
#[tactic(auto, using(crate::proofs::WordSums::pseudo_parts))]
pub(crate) fn pseudo_sum(src: Addr, dst: Addr, len: usize) -> u32
    requires { len ≤ max_len }
    ensures exact { result ≡ word_sum (pseudo_header src.0 dst.0 len) }
    ensures some { 0 < result }
    ensures bound { result < 2 ^ 20 }
{
    addr_sum(src) + addr_sum(dst) + 6 + len as u32
}

/// The checksum field that makes `bytes` check, with their own field taken as zero (RFC 9293, 3.1).
pub fn checksum(src: Addr, dst: Addr, bytes: &[u8]) -> u16
    requires least { header_len ≤ length bytes.now }
    requires most { length bytes.now ≤ max_len }
    ensures { result ≡ field src.0 dst.0 bytes.now }
{
    let own = u32::from(BigEndian::read_u16(&bytes[16..]));
    let sum = word_sum(bytes) + pseudo_sum(src, dst, bytes.len()) + 65535 - own;
    ((65535 - sum % 65535) % 65535) as u16
}

/// Whether the sum of pseudo-header and segment is a multiple of 65535 (RFC 9293, 3.1).
pub fn checks(src: Addr, dst: Addr, bytes: &[u8]) -> bool
    requires least { header_len ≤ length bytes.now }
    requires most { length bytes.now ≤ max_len }
    ensures exact { IsTrue result ↔ Checks src.0 dst.0 bytes.now }
    // A segment with one changed byte never checks.
    ensures one_place { IsTrue result → (other : List ℕ) → DiffersInOnePlace bytes.now other → ¬ Checks src.0 dst.0 other }
{
    (word_sum(bytes) + pseudo_sum(src, dst, bytes.len())) % 65535 == 0
}
