//! What is read of a segment (RFC 9293, 3.1).
ghost use Rattle.std.specs.Prelude.{◌≡◌, length, slice_get};
ghost use Rattle.tcp_connection.specs.Segment.{has_flag, has_text, is_exempt, is_first_syn, is_numbered, word};

/// FIN among the flags of a segment.
const FIN: u8 = 1;

/// SYN among the flags of a segment.
const SYN: u8 = 2;

/// RST among the flags of a segment.
const RST: u8 = 4;

/// ACK among the flags of a segment.
const ACK: u8 = 16;

/// Whether a segment has this flag.
fn has_flag(bytes: &[u8], flag: u8) -> bool
    ensures { result ≡ has_flag flag (slice_get bytes.now 13) }
{
    match bytes.get(13) {
        Some(flags) => *flags & flag != 0,
        None => false,
    }
}

/// Whether a segment is longer than its header.
fn has_text(bytes: &[u8]) -> bool
    ensures { result ≡ has_text (slice_get bytes.now 12) (length bytes.now) }
{
    match bytes.get(12) {
        Some(offset) => 4 * usize::from(*offset / 16) < bytes.len(),
        None => false,
    }
}

/// Whether the answer to a segment isn't limited, where the end was in a synchronized state or wasn't: it has text or FIN, or a
/// SYN that may open the connection (RFC 9293, 3.10.7.4, fourth; RFC 5961, 7).
pub(crate) fn is_exempt(bytes: &[u8], is_synchronized: bool) -> bool
    ensures { result ≡ is_exempt is_synchronized bytes.now }
{
    if has_flag(bytes, SYN) {
        return !is_synchronized;
    }
    has_flag(bytes, FIN) || has_text(bytes)
}

/// Whether a segment has SYN, and neither ACK nor RST.
pub(crate) fn is_first_syn(bytes: &[u8]) -> bool
    ensures { result ≡ is_first_syn (slice_get bytes.now 13) }
{
    match bytes.get(13) {
        Some(flags) => *flags & (SYN | RST | ACK) == SYN,
        None => false,
    }
}

/// Four bytes as a number, the greatest first.
fn word(first: u8, second: u8, third: u8, fourth: u8) -> u32
    ensures { result ≡ word first second third fourth }
{
    let upper = u32::from(first) * 256 + u32::from(second);
    (upper * 256 + u32::from(third)) * 256 + u32::from(fourth)
}

/// Whether a segment has this sequence number.
#[cold]
pub(crate) fn is_numbered(bytes: &[u8], seq: Option<u32>) -> bool
    ensures { result ≡ is_numbered seq bytes.now }
{
    let Some(seq) = seq else {
        return false;
    };
    let [_, _, _, _, first, second, third, fourth, ..] = bytes else {
        return false;
    };
    word(*first, *second, *third, *fourth) == seq
}
