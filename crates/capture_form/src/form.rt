ghost use Rattle.std.specs.Prelude.{◌≡◌, ◌≤◌, None, Some, MatchOption, drop, length};
ghost use Rattle.capture_form.specs.Pcap.{nanoseconds, writing_of, form_of};

use crate::order::Order;
use byteorder::{BigEndian, ByteOrder, LittleEndian};

/// What the second number of a time counts.
#[derive(Clone, Copy, Debug, PartialEq, Eq)]
pub enum Unit {
    Micro,
    Nano,
}

impl Unit {
    /// How many nanoseconds it is.
    pub(crate) fn nanoseconds(self) -> u64
        ensures value { result ≡ nanoseconds self }
        ensures most { result ≤ 1000 }
    {
        match self {
            Unit::Micro => 1000,
            Unit::Nano => 1,
        }
    }
}

/// What a capture's first 24 bytes tell of all its frames.
#[derive(Clone, Copy, Debug, PartialEq, Eq)]
pub struct Form {
    pub order: Order,
    pub unit: Unit,
    /// The kind of link that the frames went over.
    pub link: u16,
}

const MICRO: u32 = 0xa1b2c3d4;

const NANO: u32 = 0xa1b23c4d;

/// The order and the unit, by the magic number.
#[tactic(auto, unfolding(crate::specs::Pcap::writing_of))]
fn read_writing(bytes: &[u8]) -> Option<(Order, Unit)>
    requires { 4 ≤ length bytes.now }
    ensures { result ≡ writing_of bytes.now }
{
    let big = BigEndian::read_u32(bytes);
    let little = LittleEndian::read_u32(bytes);
    if big == MICRO {
        Some((Order::Big, Unit::Micro))
    } else if little == MICRO {
        Some((Order::Little, Unit::Micro))
    } else if big == NANO {
        Some((Order::Big, Unit::Nano))
    } else if little == NANO {
        Some((Order::Little, Unit::Nano))
    } else {
        None
    }
}

/// The form of the capture that begins so; `None` where it is none of pcap's.
#[tactic(auto, unfolding(crate::specs::Pcap::form_of))]
pub fn read_form(bytes: &[u8]) -> Option<Form>
    ensures value { result ≡ form_of bytes.now }
    ensures least { MatchOption result (length bytes.now ≡ length bytes.now) (λ _. 24 ≤ length bytes.now) }
{
    if bytes.len() < 24 {
        return None;
    }
    match read_writing(bytes) {
        Some((order, unit)) => {
            let link = order.read_u32(&bytes[20..]) % 65536;
            Some(Form {
                order,
                unit,
                link: link as u16,
            })
        }
        None => None,
    }
}
