//! The words of a script: kinds of events, sides and timers.
ghost use Rattle.std.specs.Prelude.{◌≡◌};
ghost use Rattle.tcp_replay.specs.Events.{event_content};
ghost use Rattle.kit_script.specs.Names as spec;

use std::alloc::Allocator;
use tcp_conn::Timer;
use tcp_replay::{Event, Side};

/// The kind of an event, without what it names.
#[derive(Clone, Copy, Debug, PartialEq, Eq)]
pub enum Kind {
    /// The user opens a connection, actively (RFC 9293, 3.10.1).
    Connect,
    /// The user waits for a peer, passively (RFC 9293, 3.10.1).
    Listen,
    /// The user sends (RFC 9293, 3.10.2).
    Send,
    /// The user receives (RFC 9293, 3.10.3).
    Receive,
    /// The user has no more to send (RFC 9293, 3.10.4).
    Close,
    /// The user aborts the connection (RFC 9293, 3.10.5).
    Abort,
    /// The user makes an acknowledgement pending, which advertises the window. No line of a script says it.
    Acknowledge,
    /// A timer expires (RFC 9293, 3.10.8).
    Timer,
    /// The side emits what is due.
    Emit,
    /// The side emits the acknowledgement that is pending. No line of a script says it.
    EmitAcknowledgement,
    /// The side sends the first segment in flight again. No line of a script says it.
    ResendFirst,
    /// The side sends what lies between two positions again. No line of a script says it.
    Resend,
    /// A segment of the side arrives at the other (RFC 9293, 3.10.7).
    Deliver,
    /// A segment of the side arrives at the other with one byte changed.
    Damage,
}

/// The kind of an event.
pub fn kind_of<A: Allocator>(event: &Event<A>) -> Kind
    ensures { result ≡ spec.kind_of (event_content event.now) }
{
    match event {
        Event::Connect(_) => Kind::Connect,
        Event::Listen(_) => Kind::Listen,
        Event::Send(_, _) => Kind::Send,
        Event::Receive(_, _) => Kind::Receive,
        Event::Close(_) => Kind::Close,
        Event::Abort(_) => Kind::Abort,
        Event::Acknowledge(_) => Kind::Acknowledge,
        Event::Timer(_, _) => Kind::Timer,
        Event::Emit(_) => Kind::Emit,
        Event::EmitAcknowledgement(_) => Kind::EmitAcknowledgement,
        Event::ResendFirst(_) => Kind::ResendFirst,
        Event::Resend(_, _, _) => Kind::Resend,
        Event::Deliver(_, _) => Kind::Deliver,
        Event::Damage(_, _, _, _) => Kind::Damage,
    }
}

/// The name of a kind.
pub fn kind_name(kind: Kind) -> &'static str
    ensures { result.now ≡ spec.kind_name kind }
{
    match kind {
        Kind::Connect => "connect",
        Kind::Listen => "listen",
        Kind::Send => "send",
        Kind::Receive => "receive",
        Kind::Close => "close",
        Kind::Abort => "abort",
        Kind::Acknowledge => "acknowledge",
        Kind::Timer => "timer",
        Kind::Emit => "emit",
        Kind::EmitAcknowledgement => "emit-acknowledgement",
        Kind::ResendFirst => "resend-first",
        Kind::Resend => "resend",
        Kind::Deliver => "deliver",
        Kind::Damage => "damage",
    }
}

/// The kind that a word of a script names. No line says `acknowledge`, `emit-acknowledgement`, `resend-first` or
/// `resend`.
pub(crate) fn read_kind(word: &[u8]) -> Option<Kind>
    ensures { result ≡ spec.kind_named word.now }
{
    if word == kind_name(Kind::Connect).as_bytes() {
        return Some(Kind::Connect);
    }
    if word == kind_name(Kind::Listen).as_bytes() {
        return Some(Kind::Listen);
    }
    if word == kind_name(Kind::Send).as_bytes() {
        return Some(Kind::Send);
    }
    if word == kind_name(Kind::Receive).as_bytes() {
        return Some(Kind::Receive);
    }
    if word == kind_name(Kind::Close).as_bytes() {
        return Some(Kind::Close);
    }
    if word == kind_name(Kind::Abort).as_bytes() {
        return Some(Kind::Abort);
    }
    if word == kind_name(Kind::Timer).as_bytes() {
        return Some(Kind::Timer);
    }
    if word == kind_name(Kind::Emit).as_bytes() {
        return Some(Kind::Emit);
    }
    if word == kind_name(Kind::Deliver).as_bytes() {
        return Some(Kind::Deliver);
    }
    if word == kind_name(Kind::Damage).as_bytes() {
        return Some(Kind::Damage);
    }
    None
}

/// The side that a word names.
pub(crate) fn read_side(word: &[u8]) -> Option<Side>
    ensures { result ≡ spec.side_named word.now }
{
    if word == Side::A.name().as_bytes() {
        return Some(Side::A);
    }
    if word == Side::B.name().as_bytes() {
        return Some(Side::B);
    }
    None
}

/// The timer that a word names.
pub fn read_timer(word: &[u8]) -> Option<Timer>
    ensures { result ≡ spec.timer_named word.now }
{
    if word == Timer::Retransmit.name().as_bytes() {
        return Some(Timer::Retransmit);
    }
    if word == Timer::Reorder.name().as_bytes() {
        return Some(Timer::Reorder);
    }
    if word == Timer::TimeWait.name().as_bytes() {
        return Some(Timer::TimeWait);
    }
    None
}
