//! A wire that loses each fourth segment.
ghost use Rattle.std.specs.Prelude.{◌≡◌, ◌==◌, ◌%◌};

use tcp_conn::{EMIT_ROOM, Endpoint};

/// A wire between two ends, both ways.
#[derive(Debug, Default, Drop)]
pub(crate) struct Wire {
    /// How many segments were put on it.
    pub(crate) count: u32,
}

impl Wire {
    /// Counts a segment, and answers whether the wire loses it.
    fn loses_next(&mut self) -> bool
        ensures { result ≡ (self.new.count % 4 == 0) }
    {
        self.count = self.count.wrapping_add(1);
        self.count.is_multiple_of(4)
    }

    /// Carries what one end emits to the other, and answers whether any of it arrived.
    pub(crate) fn carry(&mut self, from: &mut Endpoint, to: &mut Endpoint) -> bool {
        let mut room = [0u8; EMIT_ROOM];
        let src = from.config().addr;
        let mut arrived = false;
        // `emit` is called until nothing is due: after every call, arrival and timer something may be.
        for _ in 0..100 {
            let Some((dst, len)) = from.emit(&mut room) else {
                return arrived;
            };
            if !self.loses_next() {
                to.arrive(src, dst, &room[..len]);
                arrived = true;
            }
        }
        arrived
    }
}
