//! What stands behind a block's fixed part (section 3.5).
ghost use Rattle.std.specs.Prelude.{◌≡◌, ◌≤◌, length};
ghost use Rattle.capture_form.specs.Blocks.{padded, value_of, number_of};

use crate::bytes::behind;
use crate::order::Order;

/// A length brought to a multiple of four.
pub(crate) fn padded(len: usize) -> usize
    requires { len ≤ 4294967295 }
    ensures { result ≡ padded len }
{
    (len + 3) / 4 * 4
}

/// The value of the first option with this code; no bytes where there is none.
#[tactic(auto, using(crate::proofs::Options::option_short))]
fn value_of(order: Order, code: u16, bytes: &[u8]) -> &[u8]
    ensures { result.now ≡ value_of order code bytes.now }
{
    let mut rest = bytes;
    while rest.len() >= 4 {
        let found = order.read_u16(rest);
        let len = usize::from(order.read_u16(behind(rest, 2)));
        let value = behind(rest, 4);
        if found == 0 {
            return &rest[..0];
        }
        if value.len() < len {
            return &rest[..0];
        }
        if found == code {
            return &value[..len];
        }
        rest = behind(rest, 4 + padded(len));
    }
    &rest[..0]
}

/// The byte that the option with this code has.
pub(crate) fn byte_of(order: Order, code: u16, bytes: &[u8], other: u8) -> u8
    ensures { result ≡ number_of order code 1 bytes.now other }
{
    let value = value_of(order, code, bytes);
    if value.len() == 1 { value[0] } else { other }
}

/// The number of eight bytes that it has, or 0.
pub(crate) fn number_of(order: Order, code: u16, bytes: &[u8]) -> u64
    ensures { result ≡ number_of order code 8 bytes.now 0 }
{
    let value = value_of(order, code, bytes);
    if value.len() == 8 {
        order.read_u64(value)
    } else {
        0
    }
}
