//! A wire that takes 20 ms each way and loses each fourth segment.
use std::alloc::Global;
use std::collections::VecDeque;
use std::io;
use tcp_conn::EMIT_ROOM;
use tcp_driver::Taken;
use tcp_end::End;

/// One way, in microseconds.
const WAY: u64 = 20_000;

/// What may be in flight, in bytes: what congestion control would say.
const WINDOW: u64 = 5840;

/// A segment on its way.
#[derive(Debug, Drop)]
struct Packet {
    /// When it comes.
    at: u64,
    src: [u8; 4],
    dst: [u8; 4],
    bytes: Vec<u8>,
}

/// A wire between two ends, both ways.
#[derive(Debug, Drop)]
pub(crate) struct Wire {
    alloc: Global,
    /// What is on its way, the oldest first.
    packets: VecDeque<Packet>,
    /// How many segments were put on it.
    count: u32,
}

impl Wire {
    /// With nothing on it.
    pub(crate) fn new(alloc: Global) -> Wire {
        Wire {
            alloc,
            packets: VecDeque::new(alloc),
            count: 0,
        }
    }

    /// When the next segment comes, if one is on its way.
    pub(crate) fn next_arrival(&self) -> Option<u64> {
        match self.packets.front() {
            Some(packet) => Some(packet.at),
            None => None,
        }
    }

    /// What has come by now goes to the end whose address it has: A is at 10.0.0.1. An end whose timer has expired has to
    /// emit first, and is passed the segment again the next time.
    pub(crate) fn deliver(
        &mut self,
        now: u64,
        a: &mut End<Global>,
        b: &mut End<Global>,
    ) -> io::Result<()> {
        for _ in 0..1000 {
            match self.next_arrival() {
                Some(at) if at <= now => {}
                _ => return Ok(()),
            }
            let Some(packet) = self.packets.pop_front() else {
                return Ok(());
            };
            let end = if packet.dst[3] == 1 { &mut *a } else { &mut *b };
            if let Taken::EmitFirst = end.arrive(now, packet.src, packet.dst, &packet.bytes) {
                self.packets.push_front(packet)?;
                return Ok(());
            }
        }
        Ok(())
    }

    /// Puts on it all that an end has due, and prints each segment: its position, and how many numbers it takes.
    pub(crate) fn carry(
        &mut self,
        rt: &impl Print,
        now: u64,
        name: &str,
        end: &mut End<Global>,
    ) -> io::Result<()> {
        let src = end.core().end.config().addr.0;
        let mut out = [0u8; EMIT_ROOM];
        for _ in 0..100 {
            let Some(sent) = end.emit(now, WINDOW, &mut out) else {
                break;
            };
            self.count = self.count.wrapping_add(1);
            let is_lost = self.count.is_multiple_of(4);
            let word = if is_lost { "loses" } else { "sends" };
            println!(rt; "{now} {name} {word} {} {}", sent.start, sent.count)?;
            if !is_lost {
                self.put(now, src, sent.to, &out[..sent.len])?;
            }
        }
        Ok(())
    }

    /// A segment is on its way.
    fn put(&mut self, now: u64, src: [u8; 4], dst: [u8; 4], bytes: &[u8]) -> io::Result<()> {
        let packet = Packet {
            at: now.saturating_add(WAY),
            src,
            dst,
            bytes: bytes.to_vec(self.alloc)?,
        };
        self.packets.push_back(packet)?;
        Ok(())
    }
}
