//! The four values of a connection.
ghost use Rattle.std.specs.Prelude.{◌≡◌};
ghost use Rattle.tcp_host.specs.Pair.{acknowledges, asks, pair_of};

/// A socket: an IPv4 address and a port (RFC 9293, 3.3.1). They are ordered by their ports first, in which most
/// sockets of one host differ.
#[derive(Clone, Copy, Debug, PartialEq, Eq, PartialOrd, Ord)]
pub struct Socket {
    /// The port.
    pub port: u16,
    /// The address.
    pub addr: [u8; 4],
}

/// The pair of sockets that identifies a connection (RFC 9293, 3.3.1). They are ordered by the peers first, in whose ports
/// most connections of a server differ: there one comparison of two numbers tells them apart.
#[derive(Clone, Copy, Debug, PartialEq, Eq, PartialOrd, Ord)]
pub struct Pair {
    /// The peer's.
    pub peer: Socket,
    /// This end's.
    pub local: Socket,
}

/// The pair that a segment from `src` to `dst` is for, if it has ports (RFC 9293, 3.1).
#[must_use]
pub fn pair_of(src: [u8; 4], dst: [u8; 4], bytes: &[u8]) -> Option<Pair>
    ensures { result ≡ pair_of src dst bytes.now }
{
    let [first, second, third, fourth, ..] = bytes else {
        return None;
    };
    let peer = Socket {
        addr: src,
        port: u16::from(*first) * 256 + u16::from(*second),
    };
    let local = Socket {
        addr: dst,
        port: u16::from(*third) * 256 + u16::from(*fourth),
    };
    Some(Pair { local, peer })
}

/// SYN, RST and ACK among the flags of a segment (RFC 9293, 3.1).
const SYN: u8 = 2;

const RST: u8 = 4;

const ACK: u8 = 16;

/// Whether a segment asks a listener for a connection (RFC 9293, 3.10.7.2): it has SYN, and neither RST nor ACK. For no
/// other one an end has to be made: [`Host::stray`](crate::Host::stray) answers those that are answered.
#[must_use]
pub fn asks(bytes: &[u8]) -> bool
    ensures { result ≡ asks bytes.now }
{
    match bytes.get(13) {
        Some(flags) => *flags & (SYN | RST | ACK) == SYN,
        None => false,
    }
}

/// Whether a segment acknowledges something: it has ACK (RFC 9293, 3.1).
pub(crate) fn acknowledges(bytes: &[u8]) -> bool
    ensures { result ≡ acknowledges bytes.now }
{
    match bytes.get(13) {
        Some(flags) => *flags & ACK == ACK,
        None => false,
    }
}
