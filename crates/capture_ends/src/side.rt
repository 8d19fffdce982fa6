//! One side of a connection.
ghost use Rattle.std.specs.Prelude.{◌≡◌, option_map};
ghost use Rattle.kit_text.specs.Words.{addr_of, octets};
ghost use Rattle.capture_ends.specs.Hosts.{v4_of};

use capture_form::stand_in;
use kit_text::read_addr;
use std::alloc::{AllocError, Allocator, Global};
use std::collections::BTreeMap;
use std::fmt;
use std::net::Ipv6Addr;
use tcp_wire::Addr;

/// The address of a machine.
#[derive(Clone, Copy, Debug, PartialEq, Eq)]
pub enum Host {
    V4(Addr),
    V6([u8; 16]),
}

impl Host {
    /// The address that a text names, of IPv4 in dotted decimals, or of IPv6 (RFC 4291, 2.2).
    pub fn read(text: &[u8]) -> Option<Host>
        ensures { option_map octets (v4_of result) ≡ addr_of text.now }
    {
        if let Some(addr) = read_addr(text) {
            return Some(Host::V4(addr));
        }
        match Ipv6Addr::parse_ascii(text) {
            Ok(addr) => Some(Host::V6(addr.octets())),
            Err(_) => None,
        }
    }

    /// The address of IPv4 with which a checksum is right: where this is one of IPv6, one that stands in for it.
    pub(crate) fn in_sums(self) -> Addr {
        match self {
            Host::V4(addr) => addr,
            Host::V6(bytes) => stand_in(bytes),
        }
    }

    /// The maximum segment size of a SYN that has none (RFC 9293, 3.7.1).
    pub(crate) fn untold_size(self) -> u16 {
        match self {
            Host::V4(_) => 536,
            Host::V6(_) => 1220,
        }
    }
}

/// The address and the port of an end.
#[derive(Clone, Copy, PartialEq, Eq)]
pub(crate) struct Side {
    pub(crate) host: Host,
    pub(crate) port: u16,
}

/// An address of IPv6 is written as RFC 5952 has it, in brackets before a port.
impl fmt::Display for Side {
    fn fmt<W: fmt::Write>(&self, f: &mut fmt::Formatter<W>) -> fmt::Result {
        let port = self.port;
        match self.host {
            Host::V4(addr) => write!(f, "{addr}:{port}"),
            Host::V6(bytes) => {
                let addr = Ipv6Addr::from_octets(bytes);
                write!(f, "[{addr}]:{port}")
            }
        }
    }
}

/// A side as a number: that of its address, and behind it the port.
pub(crate) type Place = u64;

/// No address has a number of 2^48 or more: memory ends before.
pub(crate) fn place_of(number: u64, port: u16) -> Place {
    (number % (1 << 48)) * 65_536 + u64::from(port)
}

/// A connection by its two sides, or two addresses, whichever comes first.
pub(crate) type Key = (u64, u64);

pub(crate) fn key_of(one: u64, other: u64) -> Key {
    if one < other {
        (one, other)
    } else {
        (other, one)
    }
}

/// The addresses of IPv6 of a capture, each with its number, so that a connection is looked for by numbers. That of an
/// address of IPv4 is the address itself.
#[derive(Drop)]
pub(crate) struct Hosts<A: Allocator = Global> {
    numbers: BTreeMap<u128, u64, A>,
    /// Each at its number's place.
    addrs: Vec<[u8; 16], A>,
}

/// The number of the first address of IPv6.
const FIRST: u64 = 1 << 32;

/// The number of an address of IPv4.
pub(crate) fn number_of(addr: Addr) -> u64 {
    u64::from(u32::from_be_bytes(addr.0))
}

impl<A: Allocator + Copy> Hosts<A> {
    pub(crate) fn new(alloc: A) -> Self {
        Hosts {
            numbers: BTreeMap::new(alloc),
            addrs: Vec::new(alloc),
        }
    }

    /// The number of an address, if it has one.
    pub(crate) fn find(&self, host: Host) -> Option<u64> {
        match host {
            Host::V4(addr) => Some(number_of(addr)),
            Host::V6(bytes) => self.numbers.get(&u128::from_be_bytes(bytes)).copied(),
        }
    }

    /// The number of an address, which may be a new one.
    pub(crate) fn number(&mut self, host: Host) -> Result<u64, AllocError> {
        if let Some(number) = self.find(host) {
            return Ok(number);
        }
        let number = FIRST.saturating_add(self.addrs.len() as u64);
        if let Host::V6(bytes) = host {
            self.addrs.push(bytes)?;
            self.numbers.insert(u128::from_be_bytes(bytes), number)?;
        }
        Ok(number)
    }

    /// The address with a number.
    pub(crate) fn host(&self, number: u64) -> Host {
        let place = number.saturating_sub(FIRST);
        match self.addrs.get(place as usize) {
            Some(bytes) if number >= FIRST => Host::V6(*bytes),
            _ => Host::V4(Addr(((number % FIRST) as u32).to_be_bytes())),
        }
    }
}
