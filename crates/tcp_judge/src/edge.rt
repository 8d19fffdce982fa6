//! What the windows that came allow of the stream.
ghost use Rattle.std.specs.Prelude.{◌≡◌, ◌+◌, ◌<◌, ◌≤◌, ◌^◌, length};
ghost use Rattle.tcp_wire.specs.View.{raw_content, option_content};
ghost use Rattle.tcp_wire.specs.Wire.{max_text_len};
ghost use Rattle.tcp_judge.specs.Edge.{no_edge, shift_in, greatest_shift, window_of, edge_after, is_beyond};

use crate::heard::is_syn;
use std::marker::Model;
use tcp_wire::{OptionsLeft, RawSegment, TcpOption};

/// The greatest shift (RFC 7323, 2.3).
const MAX_SHIFT: u8 = 14;

/// The right edge of the windows that the peer offered, as far as it can be known.
#[derive(Debug, Drop)]
pub(crate) struct Edge {
    /// The furthest position that was acknowledged.
    acked: u64,
    /// The greatest window that came, in bytes.
    window: u32,
    /// The greatest shift that a SYN which came had.
    shift: u8,
}

impl Model for Edge {
    ghost use Rattle.tcp_judge.specs.Edge.{Edge};

    ghost Value = { Edge };

    ghost view = { λ e. record { acked = e.acked; window = e.window; shift = e.shift } };
}

fn shift_in(option: &TcpOption<'_>) -> u8
    ensures { result ≡ shift_in (option_content option.now) }
{
    match option {
        TcpOption::WindowScale(shift) => *shift,
        _ => 0,
    }
}

fn greatest_shift(options: OptionsLeft<'_>) -> u8
    ensures { result ≡ greatest_shift options.entry }
{
    let mut left = options;
    let mut greatest = 0;
    while let Some(option) = left.next() {
        greatest = shift_in(&option).max(greatest);
    }
    greatest
}

/// The window of a segment, in bytes.
fn window_of(shift: u8, segment: &RawSegment<'_>) -> u32
    ensures { result ≡ window_of shift (raw_content segment.now) }
{
    let window = u32::from(segment.header.window);
    if segment.header.flags.is_syn() {
        return window;
    }
    window << shift.min(MAX_SHIFT)
}

impl Edge {
    /// Nothing came.
    pub(crate) fn none() -> Self
        ensures { result ≡ no_edge }
    {
        Edge {
            acked: 0,
            window: 0,
            shift: 0,
        }
    }

    /// A segment came, which acknowledges this position.
    pub(crate) fn widen(&mut self, position: u64, segment: &RawSegment<'_>)
        ensures { self.new ≡ edge_after self.old position (raw_content segment.now) }
    {
        self.acked = self.acked.max(position);
        if !segment.header.flags.is_rst() {
            self.window = self.window.max(window_of(self.shift, segment));
        }
        if is_syn(segment) {
            self.shift = self.shift.max(greatest_shift(segment.options_left()));
        }
    }

    /// Whether the text of a segment at this position ends behind the edge, where the end's SYN is acknowledged and a window
    /// came.
    pub(crate) fn is_beyond(&self, place: u64, segment: &RawSegment<'_>) -> bool
        requires place { place < 2 ^ 63 + 2 ^ 32 }
        requires short { length segment.now.text.now ≤ max_text_len }
        ensures { result ≡ is_beyond self.now place (raw_content segment.now) }
    {
        let end = place + segment.text.len() as u64;
        let most = u64::from(self.window.max(1));
        let is_new = place > 0 && (!segment.text.is_empty() && !segment.header.flags.is_syn());
        let is_past = end.saturating_sub(self.acked) > most && is_new;
        is_past && (self.acked > 0 && self.window > 0)
    }
}
