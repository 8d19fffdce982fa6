ghost use Rattle.std.specs.Prelude.{◌≡◌, ◌↔◌, ◌+◌, ◌*◌, ◌/◌, ◌<◌, ◌≤◌, List, [], length, map, drop, Ok, Err, Some, None, IsOk, IsTrue, IfSome, MatchOption, MatchResult};
ghost use Rattle.tcp_wire.specs.Options.{has_own_length, spelling};
ghost use Rattle.tcp_wire.specs.Decoded.{blocks_in, known_option, option_of, first_option, option_at, count_zeros, padding_at, options_in, options_of, IsReadable};
ghost use Rattle.tcp_wire.specs.View.{block, option_content, BodyIs, BodiesLie};

use crate::fault::DecodeError;
use crate::option::{TcpOption, has_own_length};
use arrayvec::ArrayVec;
use byteorder::{BigEndian, ByteOrder};
use tcp_numbers::Seq;

/// The blocks of eight bytes each.
fn read_blocks(body: &[u8]) -> ArrayVec<(Seq, Seq), 4>
    requires { length body.now ≤ 32 }
    ensures { map block result.items ≡ blocks_in (length body.now / 8) body.now }
{
    let mut blocks = ArrayVec::new();
    let mut rest = body;
    while rest.len() >= 8 {
        let left = Seq(BigEndian::read_u32(rest));
        let right = Seq(BigEndian::read_u32(&rest[4..]));
        blocks.push((left, right));
        rest = &rest[8..];
    }
    blocks
}

/// The option of this kind with these bytes after its length byte.
fn option_from(kind: u8, body: &[u8]) -> TcpOption<'_>
    requires { length body.now ≤ 38 }
    ensures value { option_content result ≡ option_of kind body.now }
    ensures place { BodyIs body.entry.ref_ptr result }
{
    if !has_own_length(kind, body.len() + 2) {
        return TcpOption::Unknown { kind, body };
    }
    match kind {
        2 => TcpOption::Mss(BigEndian::read_u16(body)),
        3 => TcpOption::WindowScale(body[0]),
        4 => TcpOption::SackPermitted,
        _ => TcpOption::Sack(read_blocks(body)),
    }
}

/// The length in bytes of the option whose spelling begins these bytes. No option is made.
#[tactic(auto, using(crate::proofs::ReadOptions::no_first, crate::proofs::ReadOptions::nop_first, crate::proofs::ReadOptions::long_first, crate::proofs::ReadOptions::short_first))]
fn first_len(bytes: &[u8]) -> Option<usize>
    requires { length bytes.now ≤ 40 }
    ensures value { MatchOption result (option_at bytes.now ≡ None) (λ len. option_at bytes.now ≡ Some (first_option len bytes.now, drop len bytes.now)) }
    ensures least { IfSome result (λ len. 1 ≤ len) }
    ensures inside { IfSome result (λ len. len ≤ length bytes.now) }
{
    if bytes.is_empty() || bytes[0] == 0 {
        return None;
    }
    if bytes[0] == 1 {
        return Some(1);
    }
    if bytes.len() < 2 {
        return None;
    }
    let len = usize::from(bytes[1]);
    if len < 2 || bytes.len() < len {
        return None;
    }
    Some(len)
}

/// The option that is spelled by the first `len` of these bytes.
#[tactic(auto, using(crate::proofs::ReadOptions::spelled_first))]
fn first_option(bytes: &[u8], len: usize) -> TcpOption<'_>
    requires least { 1 ≤ len }
    requires inside { len ≤ length bytes.now }
    requires most { length bytes.now ≤ 40 }
    ensures value { option_content result ≡ first_option len bytes.now }
    ensures spelled { length (spelling (option_content result)) ≡ len }
    ensures body { BodyIs (bytes.entry.ref_ptr.0, bytes.entry.ref_ptr.1 + 2) result }
{
    if len == 1 {
        TcpOption::Nop
    } else {
        option_from(bytes[0], &bytes[2..len])
    }
}

/// The option whose spelling begins these bytes, and the bytes after it.
pub(crate) fn read_option(bytes: &[u8]) -> Option<(TcpOption<'_>, &[u8])>
    requires { length bytes.now ≤ 40 }
    ensures value { MatchOption result (option_at bytes.now ≡ None) (λ r. option_at bytes.now ≡ Some (option_content r.0, r.1.now)) }
    ensures shorter { IfSome result (λ r. length r.1.now < length bytes.now) }
    ensures body { IfSome result (λ r. BodyIs (bytes.entry.ref_ptr.0, bytes.entry.ref_ptr.1 + 2) r.0) }
    ensures behind { IfSome result (λ r. r.1.ref_ptr ≡ (bytes.entry.ref_ptr.0, bytes.entry.ref_ptr.1 + length (spelling (option_content r.0)))) }
{
    let Some(len) = first_len(bytes) else {
        return None;
    };
    Some((first_option(bytes, len), &bytes[len..]))
}

/// Whether these bytes, which begin at the offset `at` of the segment, are zeros.
fn check_padding(bytes: &[u8], at: usize) -> Result<(), DecodeError>
    requires most { length bytes.now ≤ 40 }
    requires low { at ≤ 60 }
    ensures { MatchResult result (λ _. padding_at at bytes.now ≡ Ok ([], length bytes.now)) (λ e. padding_at at bytes.now ≡ Err e) }
{
    for (i, byte) in bytes.iter().enumerate() {
        if *byte != 0 {
            if i == 0 {
                return Err(DecodeError::BadOption { at });
            }
            return Err(DecodeError::BadPadding { at: at + i });
        }
    }
    Ok(())
}

/// What is still to be read.
struct Unread<'a>(&'a [u8]);

/// The options in this area, and the count of zeros after them.
pub(crate) fn read_options(area: &[u8]) -> (ArrayVec<TcpOption<'_>, 40>, u8)
    requires fits { length area.now ≤ 40 }
    requires reads { IsReadable area.now }
    ensures options { map option_content result.0.items ≡ (options_of area.now).0 }
    ensures pad { result.1 ≡ (options_of area.now).1 }
    ensures bodies { BodiesLie area.entry.ref_ptr result.0.items }
{
    let mut options = ArrayVec::new();
    let mut unread = Unread(area);
    while let Some((option, behind)) = read_option(unread.0) {
        options.push(option);
        unread.0 = behind;
    }
    let Unread(rest) = unread;
    (options, rest.len() as u8)
}

/// How many zeros come after the options in this area. No option is made.
pub(crate) fn padding_len(area: &[u8]) -> u8
    requires fits { length area.now ≤ 40 }
    requires reads { IsReadable area.now }
    ensures { result ≡ (options_of area.now).1 }
{
    let mut rest = area;
    while let Some(len) = first_len(rest) {
        rest = &rest[len..];
    }
    rest.len() as u8
}

/// Whether these bytes, which begin at the offset `at` of the segment, are at most `left` options, and zeros alone
/// after them. No list is made.
pub(crate) fn check_options(bytes: &[u8], at: usize, left: usize) -> Result<(), DecodeError>
    requires short { length bytes.now ≤ 40 }
    requires place { at + length bytes.now ≤ 60 }
    ensures { MatchResult result (λ _. IsOk (options_in left at bytes.now)) (λ e. options_in left at bytes.now ≡ Err e) }
{
    let (mut rest, mut at, mut left) = (bytes, at, left);
    while left > 0 {
        let Some(len) = first_len(rest) else { break };
        rest = &rest[len..];
        at += len;
        left -= 1;
    }
    check_padding(rest, at)
}
