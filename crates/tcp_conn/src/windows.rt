ghost use Rattle.std.specs.Prelude.{◌≡◌, ◌≤◌};
ghost use Rattle.tcp_halves.specs.Config.{max_shift};
ghost use Rattle.tcp_conn.specs.Windows.{advertised_window, own_shift, window_from};

use crate::endpoint::Endpoint;
use std::alloc::Allocator;

/// The greatest window field (RFC 9293, 3.1).
pub(crate) const MAX_WINDOW: u32 = 65_535;

impl<A: Allocator> Endpoint<A> {
    /// The shift of the windows that this end advertises; 0 where scaling isn't in use (RFC 7323, 2.3).
    pub(crate) fn own_shift(&self) -> u8
        ensures value { result ≡ own_shift self.now.config self.now.link }
        ensures most { result ≤ max_shift }
    {
        if self.link.scaling {
            self.config.window_shift.unwrap_or(0)
        } else {
            0
        }
    }

    /// The window field of any segment but a SYN and a reset (RFC 9293, 3.1; RFC 7323, 2.3).
    pub(crate) fn advertised_window(&self) -> u16
        ensures { result ≡ advertised_window self.now self.now.receiving.inbox }
    {
        (self.receiver.inbox.window() >> self.own_shift()).min(MAX_WINDOW) as u16
    }

    /// The window in bytes that the peer advertises by a field (RFC 7323, 2.3).
    pub(crate) fn window_from(&self, field: u16) -> u32
        ensures { result ≡ window_from self.now.link field }
    {
        u32::from(field) << self.link.peer_shift
    }
}
