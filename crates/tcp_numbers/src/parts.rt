//! The checksum of a segment in parts, and the partial sum that a device completes.
ghost use Rattle.std.specs.Prelude.{◌≡◌, ◌+◌, ◌*◌, ◌%◌, ◌<◌, ◌≤◌, ◌++◌, length};
ghost use Rattle.tcp_numbers.specs.Checksum.{completion, max_len, segment_sum, word_sum};
ghost use Rattle.tcp_numbers.specs.Partial.{partial_field};

use crate::addr::Addr;
use crate::sums::{pseudo_sum, word_sum};

/// The sum of the words of two slices, one after the other.
#[tactic(auto, using(crate::proofs::WordSums::word_sum_joined_even, crate::proofs::WordSums::word_sum_joined_none, crate::proofs::WordSums::word_sum_joined_odd))]
fn joined_sum(first: &[u8], second: &[u8]) -> u32
    requires { length first.now + length second.now ≤ max_len }
    ensures exact { result ≡ word_sum (first.now ++ second.now) }
    ensures bound { 2 * result ≤ 65535 * (length first.now + length second.now + 2) }
{
    if first.len() % 2 == 0 || second.is_empty() {
        return word_sum(first) + word_sum(second);
    }
    // A word lies across the end of the first.
    let last = first.len() - 1;
    let over = 256 * u32::from(first[last]) + u32::from(second[0]);
    word_sum(&first[..last]) + over + word_sum(&second[1..])
}

/// The checksum field of a segment in three parts, one after the other, whose own field is zero (RFC 9293, 3.1). The
/// length of the front is even.
pub fn checksum_in_parts(src: Addr, dst: Addr, front: &[u8], first: &[u8], second: &[u8]) -> u16
    requires words { length front.now % 2 ≡ 0 }
    requires most { length front.now + (length first.now + length second.now) ≤ max_len }
    ensures { result ≡ completion (segment_sum src.0 dst.0 (front.now ++ (first.now ++ second.now))) }
{
    let len = front.len() + first.len() + second.len();
    let sum = word_sum(front) + joined_sum(first, second) + pseudo_sum(src, dst, len);
    ((65535 - sum % 65535) % 65535) as u16
}

/// The ones' complement sum of the pseudo-header of a segment of `len` bytes. A device that computes the checksum finds
/// it in the checksum field (RFC 9293, 3.1; RFC 1071, 2). It is never 0.
pub fn partial_checksum(src: Addr, dst: Addr, len: usize) -> u16
    requires { len ≤ max_len }
    ensures value { result ≡ partial_field src.0 dst.0 len }
    ensures some { 0 < result }
{
    let sum = pseudo_sum(src, dst, len);
    let sum = sum % 65_536 + sum / 65_536;
    (sum % 65_536 + sum / 65_536) as u16
}
