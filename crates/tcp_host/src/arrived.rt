//! What became of a segment.

use tcp_conn::Arrival;

/// Where a segment belonged.
#[derive(Clone, Copy, Debug, PartialEq, Eq)]
pub enum Arrived<T> {
    /// The end in this slot has its four values: what that answered.
    Taken(usize, T),
    /// No end has its four values, but the TIME-WAIT record in this slot has them: what that answered, or `None` for a
    /// reset, which counts as lost (RFC 1337, 3).
    Late(usize, Option<Arrival>),
    /// No end and no record has its four values, but the listener in this slot has its destination (RFC 9293,
    /// 3.10.7.2): nothing has changed. Where it asks for a connection an end that takes it is put there by `admit`, and
    /// the segment passed again; else `stray` answers it, if anything does.
    Listening(usize),
    /// The same, but the listener in this slot has as many ends in its backlog as it may: nothing has changed, and the
    /// segment is dropped.
    Full(usize),
    /// Nobody is there (RFC 9293, 3.10.7.1): nothing has changed. `stray` answers it.
    Stray,
    /// It is too short for ports: nothing has changed.
    Short,
}
