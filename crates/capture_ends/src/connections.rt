//! The connections of a capture.
use crate::judged_end::{JudgedEnd, Packet};
use crate::side::{Host, Hosts, Key, Place, Side, key_of, number_of, place_of};
use capture_form::stand_in;
use std::alloc::{AllocError, Allocator, Global};
use std::collections::BTreeMap;
use tcp_numbers::partial_checksum;
use tcp_wire::{Addr, Seq, checks, checksum};

/// A TCP segment has at least so many bytes, and at most so many.
const LEAST: usize = 20;

const MOST: usize = 65_515;

/// A connection: the side of its first packet, and the other one.
#[derive(Drop)]
pub(crate) struct Connection<A: Allocator = Global> {
    /// The side of its first packet as a number.
    opener: Place,
    pub(crate) first: JudgedEnd<A>,
    pub(crate) second: JudgedEnd<A>,
    pub(crate) begin: Packet,
    pub(crate) end: Packet,
    /// Whether a FIN or a reset went.
    is_over: bool,
}

/// What is left out of the judgement.
#[derive(Clone, Copy, Default)]
pub(crate) struct LeftOut {
    /// Packets without TCP.
    pub(crate) others: usize,
    pub(crate) fragments: usize,
    /// Segments that weren't captured whole.
    pub(crate) cut: usize,
    /// Segments with a wrong checksum that are of no connection.
    pub(crate) strays: usize,
}

#[derive(Drop)]
pub(crate) struct Connections<A: Allocator = Global> {
    pub(crate) list: Vec<Connection<A>, A>,
    hosts: Hosts<A>,
    /// Where the newest connection between two sides is in the list.
    places: BTreeMap<Key, usize, A>,
    /// A segment whose checksum was left to a device, mended.
    mended: Vec<u8, A>,
    pub(crate) left_out: LeftOut,
    /// The addresses between which a fragment went, or a segment that is cut short. Ports are in the first fragment alone,
    /// so it may be of any connection between them.
    gaps: BTreeMap<Key, (), A>,
    /// The latest time of a segment.
    latest: u64,
    /// Whether one has an earlier time than one before it, as where several interfaces are captured.
    pub(crate) goes_back: bool,
}

/// How far the checksum of a segment is to be trusted.
#[derive(Clone, Copy, PartialEq, Eq)]
enum Sum {
    Right,
    /// It is that of the pseudo-header alone, to which a device adds the rest (RFC 9293, 3.1).
    LeftToDevice,
    Wrong,
}

fn field_at(bytes: &[u8], at: usize) -> u16 {
    match bytes.get(at..) {
        Some([high, low, ..]) => u16::from(*high) * 256 + u16::from(*low),
        _ => 0,
    }
}

fn addr_at(packet: &[u8], at: usize) -> Option<Host> {
    match packet.get(at..) {
        Some([a, b, c, d, ..]) => Some(Host::V4(Addr([*a, *b, *c, *d]))),
        _ => None,
    }
}

fn addr6_at(packet: &[u8], at: usize) -> Option<Host> {
    let bytes = packet.get(at..)?.first_chunk::<16>()?;
    Some(Host::V6(*bytes))
}

/// The addresses of a packet (RFC 791, 3.1; RFC 8200, 3).
fn hosts_of(packet: &[u8]) -> Option<(Host, Host)> {
    if packet.first()? / 16 == 6 {
        Some((addr6_at(packet, 8)?, addr6_at(packet, 24)?))
    } else {
        Some((addr_at(packet, 12)?, addr_at(packet, 16)?))
    }
}

fn sum_of(src: Addr, dst: Addr, bytes: &[u8]) -> Sum {
    if bytes.len() < LEAST || bytes.len() > MOST {
        return Sum::Wrong;
    }
    if checks(src, dst, bytes) {
        return Sum::Right;
    }
    if field_at(bytes, 16) == partial_checksum(src, dst, bytes.len()) {
        return Sum::LeftToDevice;
    }
    Sum::Wrong
}

/// SYN, FIN, RST and ACK among a segment's control bits.
const FIN: u8 = 1;

const SYN: u8 = 2;

const RST: u8 = 4;

const ACK: u8 = 16;

fn bits_of(bytes: &[u8]) -> u8 {
    match bytes.get(13) {
        Some(bits) => *bits,
        None => 0,
    }
}

fn seq_of(bytes: &[u8]) -> Seq {
    Seq(u32::from(field_at(bytes, 4)) * 65_536 + u32::from(field_at(bytes, 6)))
}

/// A SYN without RST: its number, and whether it answers another.
#[derive(Clone, Copy)]
struct Opening {
    number: Seq,
    is_answer: bool,
}

fn opening_of(bytes: &[u8]) -> Option<Opening> {
    let bits = bits_of(bytes);
    if bits & (SYN | RST) != SYN {
        return None;
    }
    Some(Opening {
        number: seq_of(bytes),
        is_answer: bits & ACK != 0,
    })
}

/// After so long a silence no segment of a connection is on its way any more, and its ports may be used again (RFC 9293,
/// 3.4.2): two minutes.
const LIFETIME: u64 = 120_000_000_000;

/// Where a segment comes from, and where it goes to: both addresses by their numbers, and as sums have them.
#[derive(Clone, Copy)]
struct Way {
    source: u64,
    target: u64,
    src: Addr,
    dst: Addr,
}

impl<A: Allocator + Copy> Connection<A> {
    fn new(alloc: A, packet: Packet, source: Place, from: Side, to: Side) -> Self {
        Connection {
            opener: source,
            first: JudgedEnd::new(alloc, from),
            second: JudgedEnd::new(alloc, to),
            begin: packet,
            end: packet,
            is_over: false,
        }
    }

    /// Whether a SYN from this side with this number begins another connection: the side had another number, and the
    /// connection is over, was silent for long, or was never answered, unless the SYN is an answer itself.
    fn is_left_by(&self, packet: Packet, source: Place, opening: Opening) -> bool {
        let (initial, answers) = if source == self.opener {
            (self.first.initial, self.second.segments)
        } else {
            (self.second.initial, self.first.segments)
        };
        let silence = packet.time.saturating_sub(self.end.time);
        match initial {
            Some(known) => {
                let is_unanswered = answers == 0 && !opening.is_answer;
                known != opening.number && (self.is_over || is_unanswered || silence > LIFETIME)
            }
            // What answers a SYN whose sender has reset it is of the same connection.
            None => self.is_over && !opening.is_answer,
        }
    }

    /// Takes a segment from one side to the other one; one whose checksum is wrong ends nothing.
    fn take(
        &mut self,
        packet: Packet,
        source: Place,
        bytes: &[u8],
        is_right: bool,
    ) -> Result<(), AllocError> {
        self.end = packet;
        if is_right && bits_of(bytes) & (FIN | RST) != 0 {
            self.is_over = true;
        }
        if source == self.opener {
            let has_peer = self.second.initial.is_some();
            let other = &mut self.second;
            self.first
                .went(packet, other.addr, bytes, has_peer, &mut other.flow)?;
            return self.second.came(self.first.addr, bytes);
        }
        let has_peer = self.first.initial.is_some();
        let other = &mut self.first;
        self.second
            .went(packet, other.addr, bytes, has_peer, &mut other.flow)?;
        self.first.came(self.second.addr, bytes)
    }
}

/// Copies a segment with the checksum that is right.
fn mend<A: Allocator>(
    mended: &mut Vec<u8, A>,
    src: Addr,
    dst: Addr,
    bytes: &[u8],
) -> Result<(), AllocError> {
    if bytes.len() < LEAST || bytes.len() > MOST {
        return Ok(());
    }
    let [high, low] = checksum(src, dst, bytes).to_be_bytes();
    mended.clear();
    mended.extend_from_slice(bytes)?;
    if let Some(place) = mended.get_mut(16) {
        *place = high;
    }
    if let Some(place) = mended.get_mut(17) {
        *place = low;
    }
    Ok(())
}

impl<A: Allocator + Copy> Connections<A> {
    pub(crate) fn new(alloc: A) -> Self {
        Connections {
            list: Vec::new(alloc),
            hosts: Hosts::new(alloc),
            places: BTreeMap::new(alloc),
            mended: Vec::new(alloc),
            left_out: LeftOut::default(),
            gaps: BTreeMap::new(alloc),
            latest: 0,
            goes_back: false,
        }
    }

    /// A packet whose segment is left out.
    pub(crate) fn leave_out(&mut self, packet: &[u8]) -> Result<(), AllocError> {
        if let Some((src, dst)) = hosts_of(packet) {
            let key = key_of(self.hosts.number(src)?, self.hosts.number(dst)?);
            self.gaps.insert(key, ())?;
        }
        Ok(())
    }

    /// Whether each segment between the two addresses is there whole.
    pub(crate) fn is_whole(&self, one: Host, other: Host) -> bool {
        match (self.hosts.find(one), self.hosts.find(other)) {
            (Some(one), Some(other)) => self.gaps.get(&key_of(one, other)).is_none(),
            _ => true,
        }
    }

    /// The place of the connection that goes on with a segment, if there is one.
    fn known(
        &self,
        packet: Packet,
        source: Place,
        target: Place,
        opening: Option<Opening>,
    ) -> Option<usize> {
        let place = self.places.get(&key_of(source, target)).copied()?;
        let connection = self.list.get(place)?;
        match opening {
            Some(syn) if connection.is_left_by(packet, source, syn) => None,
            _ => Some(place),
        }
    }

    /// Begins a connection, and returns its place.
    fn begin(
        &mut self,
        alloc: A,
        packet: Packet,
        way: Way,
        bytes: &[u8],
    ) -> Result<usize, AllocError> {
        let from = Side {
            host: self.hosts.host(way.source),
            port: field_at(bytes, 0),
        };
        let to = Side {
            host: self.hosts.host(way.target),
            port: field_at(bytes, 2),
        };
        let source = place_of(way.source, from.port);
        let target = place_of(way.target, to.port);
        let place = self.list.len();
        self.list
            .push(Connection::new(alloc, packet, source, from, to))?;
        self.places.insert(key_of(source, target), place)?;
        Ok(place)
    }

    /// Takes a segment over IPv4.
    pub(crate) fn take(
        &mut self,
        alloc: A,
        packet: Packet,
        src: Addr,
        dst: Addr,
        bytes: &[u8],
    ) -> Result<(), AllocError> {
        let way = Way {
            source: number_of(src),
            target: number_of(dst),
            src,
            dst,
        };
        self.take_on(alloc, packet, way, bytes)
    }

    /// Takes a segment over IPv6.
    pub(crate) fn take6(
        &mut self,
        alloc: A,
        packet: Packet,
        src: [u8; 16],
        dst: [u8; 16],
        bytes: &[u8],
    ) -> Result<(), AllocError> {
        let way = Way {
            source: self.hosts.number(Host::V6(src))?,
            target: self.hosts.number(Host::V6(dst))?,
            src: stand_in(src),
            dst: stand_in(dst),
        };
        self.take_on(alloc, packet, way, bytes)
    }

    /// Takes a segment from one address to another. Only one with a right checksum, or with one that was left to a device,
    /// begins a connection.
    fn take_on(
        &mut self,
        alloc: A,
        packet: Packet,
        way: Way,
        bytes: &[u8],
    ) -> Result<(), AllocError> {
        self.goes_back = self.goes_back || packet.time < self.latest;
        self.latest = self.latest.max(packet.time);
        let sum = sum_of(way.src, way.dst, bytes);
        let is_right = sum != Sum::Wrong;
        let opening = if is_right { opening_of(bytes) } else { None };
        let source = place_of(way.source, field_at(bytes, 0));
        let target = place_of(way.target, field_at(bytes, 2));
        let place = match self.known(packet, source, target, opening) {
            Some(place) => place,
            None if is_right => self.begin(alloc, packet, way, bytes)?,
            None => {
                self.left_out.strays = self.left_out.strays.saturating_add(1);
                return Ok(());
            }
        };
        let Some(connection) = self.list.get_mut(place) else {
            return Ok(());
        };
        if sum == Sum::LeftToDevice {
            mend(&mut self.mended, way.src, way.dst, bytes)?;
            return connection.take(packet.mended(), source, &self.mended, is_right);
        }
        connection.take(packet, source, bytes, is_right)
    }
}
