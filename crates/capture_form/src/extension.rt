//! The headers of extension of IPv6 (RFC 8200, 4).
ghost use Rattle.std.specs.Prelude.{◌≡◌, ◌≤◌, length};
ghost use Rattle.capture_form.specs.Extensions.{is_extension, extension_len, is_part, next_kind, upper_of};
ghost use Rattle.capture_form.specs.View.{upper_content};

use crate::bytes::behind;
use byteorder::{BigEndian, ByteOrder};

/// The number of TCP among protocols.
pub(crate) const TCP: u8 = 6;

const HOP_BY_HOP: u8 = 0;

const ROUTING: u8 = 43;

const FRAGMENT: u8 = 44;

const AUTHENTICATION: u8 = 51;

const NO_NEXT: u8 = 59;

const DESTINATION: u8 = 60;

/// What the headers of extension lead to.
#[derive(Clone, Copy)]
pub(crate) enum Upper<'a> {
    /// A header of another kind, and all that begins with it.
    Header { kind: u8, bytes: &'a [u8] },
    /// A part of a packet.
    Part,
    /// A header that isn't there whole.
    Short,
}

fn is_extension(kind: u8) -> bool
    ensures { result ≡ is_extension kind }
{
    kind == HOP_BY_HOP
        || kind == ROUTING
        || kind == FRAGMENT
        || kind == AUTHENTICATION
        || kind == DESTINATION
}

/// The length in bytes of the header of extension of this kind that begins these bytes.
fn extension_len(kind: u8, bytes: &[u8]) -> usize
    requires { 8 ≤ length bytes.now }
    ensures { result ≡ extension_len kind bytes.now }
{
    let told = usize::from(bytes[1]);
    if kind == FRAGMENT {
        8
    } else if kind == AUTHENTICATION {
        (told + 2) * 4
    } else {
        (told + 1) * 8
    }
}

/// Whether it is that of a fragment, and not of a whole packet (RFC 6946), which may be of TCP.
fn is_part(kind: u8, bytes: &[u8]) -> bool
    requires { 8 ≤ length bytes.now }
    ensures { result ≡ is_part kind bytes.now }
{
    let place = BigEndian::read_u16(&bytes[2..]);
    let is_whole = place / 8 == 0 && place % 2 == 0;
    kind == FRAGMENT && !is_whole && (bytes[0] == TCP || is_extension(bytes[0]))
}

/// The number of the next header.
fn next_kind(kind: u8, bytes: &[u8]) -> u8
    requires { 8 ≤ length bytes.now }
    ensures { result ≡ next_kind kind bytes.now }
{
    if kind == ROUTING && bytes[3] != 0 {
        NO_NEXT
    } else {
        bytes[0]
    }
}

/// What is behind the headers of extension, the first of which is of this kind.
#[tactic(auto, using(crate::proofs::Extensions::upper_end, crate::proofs::Extensions::upper_none, crate::proofs::Extensions::upper_short, crate::proofs::Extensions::upper_part, crate::proofs::Extensions::upper_passed))]
pub(crate) fn upper_of(first: u8, bytes: &[u8]) -> Upper<'_>
    ensures { upper_content result ≡ upper_of first bytes.now }
{
    let mut kind = first;
    let mut rest = bytes;
    while is_extension(kind) {
        if rest.len() < 8 {
            return Upper::Short;
        }
        let len = extension_len(kind, rest);
        if rest.len() < len {
            return Upper::Short;
        }
        if is_part(kind, rest) {
            return Upper::Part;
        }
        kind = next_kind(kind, rest);
        rest = behind(rest, len);
    }
    Upper::Header { kind, bytes: rest }
}
