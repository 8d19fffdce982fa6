//! Many connections in one process, each of which echoes in turn.
use crate::ends::{carry, new_end, open};
use std::alloc::Global;
use tcp_conn::{ConfigError, EMIT_ROOM, Endpoint, Received};

/// What is echoed, in bytes.
const PIECE: usize = 64;

/// Both ends of a connection.
#[derive(Drop)]
pub(crate) struct Connection {
    a: Endpoint,
    b: Endpoint,
}

impl Connection {
    /// A connection that is open.
    pub(crate) fn new(
        alloc: Global,
        capacity: usize,
        room: &mut [u8; EMIT_ROOM],
    ) -> Result<Self, ConfigError> {
        let mut a = new_end(alloc, 1, capacity)?;
        let mut b = new_end(alloc, 2, capacity)?;
        open(&mut a, &mut b, room);
        Ok(Connection { a, b })
    }

    /// A's user writes, B's user reads it and writes it back, and A's user reads that. Returns whether all came.
    pub(crate) fn echo(&mut self, room: &mut [u8; EMIT_ROOM]) -> bool {
        let mut piece = [b'e'; PIECE];
        let _ = self.a.send(&piece);
        carry(&mut self.a, &mut self.b, room);
        let _ = self.b.receive(&mut piece);
        let _ = self.b.send(&piece);
        carry(&mut self.b, &mut self.a, room);
        let came = self.a.receive(&mut piece);
        carry(&mut self.a, &mut self.b, room);
        matches!(came, Ok(Received::Bytes(PIECE)))
    }
}
