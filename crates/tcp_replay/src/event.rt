ghost use Rattle.std.specs.Prelude.{◌≡◌};
ghost use Rattle.tcp_replay.specs.Events.{event_content, side_of};

use std::alloc::{Allocator, Global};
use std::fmt;
use tcp_conn::Timer;

/// One of the two ends.
#[derive(Clone, Copy, Debug, PartialEq, Eq, Hash)]
pub enum Side {
    /// The first end.
    A,
    /// The second end.
    B,
}

impl Side {
    ghost use Rattle.tcp_replay.specs.Names.{side_name};

    /// `A` or `B`; `Display` writes the same.
    #[must_use]
    pub fn name(self) -> &'static str
        ensures { result.now ≡ side_name self }
    {
        match self {
            Side::A => "A",
            Side::B => "B",
        }
    }
}

impl fmt::Display for Side {
    ghost use Rattle.std.specs.Prelude.{Some};
    ghost use Rattle.tcp_replay.specs.Names.{side_name};

    ghost output = { λ side. Some (side_name side) };

    fn fmt<W: fmt::Write>(&self, f: &mut fmt::Formatter<W>) -> fmt::Result {
        f.write_str(self.name())
    }
}

/// An event of the two ends (RFC 9293, 3.10). Its bytes may lie in other memory than the world's.
#[derive(Debug, Drop)]
pub enum Event<A: Allocator = Global> {
    /// The user of this side opens a connection to the other side's address and port (RFC 9293, 3.10.1).
    Connect(Side),
    /// The user of this side waits for the other one (RFC 9293, 3.10.1).
    Listen(Side),
    /// The user of this side sends these bytes (RFC 9293, 3.10.2).
    Send(Side, Vec<u8, A>),
    /// The user of this side receives at most this many bytes (RFC 9293, 3.10.3).
    Receive(Side, usize),
    /// The user of this side has no more to send (RFC 9293, 3.10.4).
    Close(Side),
    /// The user of this side aborts the connection (RFC 9293, 3.10.5).
    Abort(Side),
    /// The user of this side makes an acknowledgement pending, which advertises the window (RFC 9293, 3.8.6.2.2).
    Acknowledge(Side),
    /// A timer of this side expires (RFC 9293, 3.10.8).
    Timer(Side, Timer),
    /// This side emits the segment that is due, if there is one.
    Emit(Side),
    /// This side emits the acknowledgement that is pending, if one is, whatever else is due.
    EmitAcknowledgement(Side),
    /// This side sends the first segment in flight again, and nothing else of what is in flight.
    ResendFirst(Side),
    /// This side sends what is in flight from the first of these positions on and before the second again, and nothing
    /// else of what is in flight. Positions count from the SYN, which is at 0.
    Resend(Side, u64, u64),
    /// The segment of this number, from 0, that this side emitted arrives at the other side (RFC 9293, 3.10.7).
    Deliver(Side, usize),
    /// That segment arrives with one byte changed by exclusive or: side, number, offset of the byte, and value.
    Damage(Side, usize, usize, u8),
}

impl<A: Allocator> Event<A> {
    /// The side whose user, timer or emission it names; for a delivery the side that emitted the segment.
    pub fn side(&self) -> Side
        ensures { result ≡ side_of (event_content self.now) }
    {
        match self {
            Event::Connect(side)
            | Event::Listen(side)
            | Event::Send(side, _)
            | Event::Receive(side, _)
            | Event::Close(side)
            | Event::Abort(side)
            | Event::Acknowledge(side)
            | Event::Timer(side, _)
            | Event::Emit(side)
            | Event::EmitAcknowledgement(side)
            | Event::ResendFirst(side)
            | Event::Resend(side, _, _)
            | Event::Deliver(side, _)
            | Event::Damage(side, _, _, _) => *side,
        }
    }
}
