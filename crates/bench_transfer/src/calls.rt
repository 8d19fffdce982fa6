//! Single calls of tcp_wire, each on one of two segments with 1,460 bytes of text, so that no turn repeats the one
//! before it.
ghost use Rattle.std.specs.Prelude.{◌≡◌, ◌≤◌, length, IsTrue};
ghost use Rattle.tcp_wire.specs.Wire.{IsValid, wire_length};
ghost use Rattle.tcp_wire.specs.View.{content};
ghost use Rattle.bench_transfer.specs.Modes.{call_of};

use arrayvec::ArrayVec;
use tcp_wire::{Addr, Flags, Header, Segment, Seq, checksum, decode, encode};

const FROM: Addr = Addr([10, 0, 0, 1]);

const TO: Addr = Addr([10, 0, 0, 2]);

/// The length in bytes of a segment, and of its text.
const LEN: usize = 1480;

const TEXT: usize = 1460;

/// A call that is counted.
#[derive(Clone, Copy, Debug, PartialEq, Eq)]
pub enum Call {
    Checksum,
    Decode,
    Encode,
}

/// The call of this name.
pub fn call_of(name: &str) -> Option<Call>
    ensures { result ≡ call_of name.now }
{
    match name {
        "checksum" => Some(Call::Checksum),
        "decode" => Some(Call::Decode),
        "encode" => Some(Call::Encode),
        _ => None,
    }
}

/// A segment with this text.
fn segment_of(text: &[u8]) -> Segment<'_> {
    Segment {
        header: Header {
            src_port: 1,
            dst_port: 2,
            seq: Seq(1000),
            ack: Seq(2000),
            reserved: 0,
            flags: Flags::ACK,
            window: 65_535,
            urgent: 0,
        },
        options: ArrayVec::new(),
        pad: 0,
        text,
    }
}

/// Whether the segment can be written into this many bytes.
fn fits(segment: &Segment<'_>) -> bool
    ensures valid { IsTrue result → IsValid (content segment.now) }
    ensures room { IsTrue result → wire_length (content segment.now) ≤ 1480 }
{
    segment.is_valid() && segment.wire_len() <= LEN
}

fn sum_often(count: u32, first: &[u8; LEN], second: &[u8; LEN]) -> u32 {
    let mut greatest = 0;
    for k in 0..count {
        let bytes = if k % 2 == 0 { first } else { second };
        greatest = greatest.max(u32::from(checksum(FROM, TO, bytes)));
    }
    greatest
}

fn read_often(count: u32, first: &[u8; LEN], second: &[u8; LEN]) -> u32 {
    let mut greatest = 0;
    for k in 0..count {
        let bytes = if k % 2 == 0 { first } else { second };
        if let Ok(segment) = decode(FROM, TO, bytes) {
            greatest = greatest.max(u32::from(segment.header.window));
        }
    }
    greatest
}

fn write_often(count: u32, segment: &Segment<'_>, out: &mut [u8; LEN]) -> u32
    requires valid { IsValid (content segment.now) }
    requires room { wire_length (content segment.now) ≤ 1480 }
{
    let mut greatest = 0;
    for _ in 0..count {
        encode(segment, FROM, TO, out);
        greatest = greatest.max(u32::from(out[16]));
    }
    greatest
}

/// Makes `count` calls, and returns a number that depends on each of them; `None` where the segments couldn't be
/// written.
pub(crate) fn repeat(call: Call, count: u32) -> Option<u32> {
    let text_of_first = [b'a'; TEXT];
    let text_of_second = [b'b'; TEXT];
    let first = segment_of(&text_of_first);
    let second = segment_of(&text_of_second);
    if !fits(&first) || !fits(&second) {
        return None;
    }
    let mut bytes_of_first = [0; LEN];
    let mut bytes_of_second = [0; LEN];
    encode(&first, FROM, TO, &mut bytes_of_first);
    encode(&second, FROM, TO, &mut bytes_of_second);
    Some(match call {
        Call::Checksum => sum_often(count, &bytes_of_first, &bytes_of_second),
        Call::Decode => read_often(count, &bytes_of_first, &bytes_of_second),
        Call::Encode => write_often(count, &first, &mut bytes_of_first),
    })
}
