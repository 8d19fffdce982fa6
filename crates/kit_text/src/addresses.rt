//! Addresses: four numbers joined by dots.
ghost use Rattle.std.specs.Prelude.{◌≡◌, option_map};
ghost use Rattle.kit_text.specs.Words.{octet_of, addr_of, octets};

use crate::cutting::{DOT, cut};
use crate::numbers::read_number;
use tcp_wire::Addr;

/// A number of 0 to 255.
fn read_octet(word: &[u8]) -> Option<u8>
    ensures { result ≡ octet_of word.now }
{
    Some(read_number(word, 255)? as u8)
}

/// The address of a word: four numbers of 0 to 255, joined by dots.
pub fn read_addr(word: &[u8]) -> Option<Addr>
    ensures { option_map octets result ≡ addr_of word.now }
{
    let (a, rest) = cut(DOT, word);
    let (b, rest) = cut(DOT, rest?);
    let (c, rest) = cut(DOT, rest?);
    let (d, rest) = cut(DOT, rest?);
    if rest.is_some() {
        return None;
    }
    Some(Addr([
        read_octet(a)?,
        read_octet(b)?,
        read_octet(c)?,
        read_octet(d)?,
    ]))
}
