//! Many connections in one process: opened, echoing in turn, and closed.
use crate::bulk::{carry, new_end, open};
use crate::digest::Digest;
use crate::random::{POOL, Pool, Random, within};
use std::alloc::{AllocError, Global};
use tcp_conn::{ConfigError, EMIT_ROOM, Endpoint, Received};

/// Both ends of a connection.
#[derive(Drop)]
struct Connection {
    a: Endpoint,
    b: Endpoint,
}

/// What all connections share.
#[derive(Drop)]
struct Desk {
    room: [u8; EMIT_ROOM],
    read: [u8; 1024],
}

impl Connection {
    fn new(alloc: Global, isn: u32, capacity: usize) -> Result<Connection, ConfigError> {
        Ok(Connection {
            a: new_end(alloc, 1, isn, capacity)?,
            b: new_end(alloc, 2, 5000, capacity)?,
        })
    }

    fn open(&mut self, desk: &mut Desk, digest: &mut Digest) {
        open(&mut self.a, &mut self.b, &mut desk.room, digest);
    }

    /// A's user writes, B's user reads it and writes it back, and A's user reads that, and looks whether all came back.
    fn echo(&mut self, desk: &mut Desk, piece: &[u8], digest: &mut Digest) {
        let _ = self.a.send(piece);
        carry(&mut self.a, &mut self.b, &mut desk.room, digest);
        let Ok(Received::Bytes(came)) = self.b.receive(&mut desk.read) else {
            return;
        };
        let _ = self.b.send(within(&desk.read, 0, came));
        carry(&mut self.b, &mut self.a, &mut desk.room, digest);
        let Ok(Received::Bytes(back)) = self.a.receive(&mut desk.read) else {
            return;
        };
        carry(&mut self.a, &mut self.b, &mut desk.room, digest);
        digest.add(u64::from(within(&desk.read, 0, back) == piece));
    }

    /// Both users close, one after the other.
    fn close(&mut self, desk: &mut Desk, digest: &mut Digest) {
        let _ = self.a.close();
        carry(&mut self.a, &mut self.b, &mut desk.room, digest);
        carry(&mut self.b, &mut self.a, &mut desk.room, digest);
        let _ = self.b.close();
        carry(&mut self.b, &mut self.a, &mut desk.room, digest);
        carry(&mut self.a, &mut self.b, &mut desk.room, digest);
        digest.add(self.a.ordered().wrapping_add(self.b.released()));
    }
}

/// The capacity of a connection's four buffers, in bytes.
fn capacity_of(random: &mut Random) -> usize {
    match random.below(4) {
        0 => 512,
        1 => 1024,
        2 => 2048,
        _ => 4096,
    }
}

/// So many connections that are open.
fn open_all(
    alloc: Global,
    random: &mut Random,
    count: u32,
    desk: &mut Desk,
    digest: &mut Digest,
) -> Result<Vec<Connection>, AllocError> {
    let mut all = Vec::new(alloc);
    for _ in 0..count {
        let isn = (random.number() >> 32) as u32;
        let Ok(mut next) = Connection::new(alloc, isn, capacity_of(random)) else {
            return Err(AllocError);
        };
        next.open(desk, digest);
        all.push(next)?;
    }
    Ok(all)
}

/// Each echoes once.
fn echo_all(
    all: &mut [Connection],
    pool: &Pool,
    random: &mut Random,
    desk: &mut Desk,
    digest: &mut Digest,
) {
    for connection in all.iter_mut() {
        let len = random.between(1, 300);
        let at = random.between(0, POOL - 300);
        connection.echo(desk, pool.piece(at, len), digest);
    }
}

fn close_all(all: &mut [Connection], desk: &mut Desk, digest: &mut Digest) {
    for connection in all.iter_mut() {
        connection.close(desk, digest);
    }
}

/// Opens one connection after another, of which each echoes once and is closed.
fn pass(
    alloc: Global,
    random: &mut Random,
    pool: &Pool,
    desk: &mut Desk,
    digest: &mut Digest,
) -> Result<(), AllocError> {
    let isn = (random.number() >> 32) as u32;
    let Ok(mut one) = Connection::new(alloc, isn, capacity_of(random)) else {
        return Err(AllocError);
    };
    let at = random.between(0, POOL - 300);
    one.open(desk, digest);
    one.echo(desk, pool.piece(at, 200), digest);
    one.close(desk, digest);
    Ok(())
}

/// Opens `count` connections, which echo in turn ten times and are closed, and then as many one after another.
pub(crate) fn serve_many(
    alloc: Global,
    count: u32,
    seed: u32,
    digest: &mut Digest,
) -> Result<(), AllocError> {
    let mut random = Random::new(seed, 5);
    let pool = Pool::new(alloc, &mut random)?;
    let mut desk = Desk {
        room: [0; EMIT_ROOM],
        read: [0; 1024],
    };
    let mut all = open_all(alloc, &mut random, count, &mut desk, digest)?;
    for _ in 0..10 {
        echo_all(&mut all, &pool, &mut random, &mut desk, digest);
    }
    close_all(&mut all, &mut desk, digest);
    for _ in 0..count {
        pass(alloc, &mut random, &pool, &mut desk, digest)?;
    }
    Ok(())
}
