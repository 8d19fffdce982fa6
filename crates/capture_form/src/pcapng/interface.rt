ghost use Rattle.std.specs.Prelude.{◌≡◌, ◌≤◌, drop, length, true};
ghost use Rattle.capture_form.specs.Sections.{units_of, is_resolution, resolution_in, nanoseconds_of, shifted, time_at, simple_len, interface_in};

use super::options::{byte_of, number_of};
use crate::bytes::behind;
use crate::order::Order;

/// An interface at which packets were seen.
#[derive(Clone, Copy, Debug, PartialEq, Eq)]
pub struct Interface {
    /// The kind of link that the frames went over.
    pub link: u16,
    /// The most that is captured of a frame; 0 where nothing limits it.
    pub snaplen: u32,
    /// How many units of its times a second has.
    pub units: u64,
    /// How many seconds are added to its times, in two's complement.
    pub offset: u64,
}

/// A number of units in nanoseconds.
fn nanoseconds_of(units: u64, ticks: u64) -> u64
    ensures { result ≡ nanoseconds_of units ticks }
{
    if units == 0 {
        return 0;
    }
    let time = u128::from(ticks) * 1_000_000_000 / u128::from(units);
    if time > u128::from(u64::MAX) {
        u64::MAX
    } else {
        time as u64
    }
}

/// The time so many seconds later, or earlier.
fn shifted(offset: u64, time: u64) -> u64
    ensures { result ≡ shifted offset time }
{
    if offset < 1 << 63 {
        return time.saturating_add(offset.saturating_mul(1_000_000_000));
    }
    let seconds = u64::MAX - offset + 1;
    time.saturating_sub(seconds.saturating_mul(1_000_000_000))
}

impl Interface {
    /// The time that so many units are, in nanoseconds from 1970 on.
    pub(crate) fn time_at(self, ticks: u64) -> u64
        ensures { result ≡ time_at self ticks }
    {
        shifted(self.offset, nanoseconds_of(self.units, ticks))
    }

    /// How much it captures of a frame of this length.
    pub(crate) fn simple_len(self, wire: u32) -> u32
        ensures { result ≡ simple_len self wire }
    {
        if self.snaplen == 0 {
            wire
        } else {
            wire.min(self.snaplen)
        }
    }
}

/// Whether units of this resolution are read.
pub(crate) fn is_resolution(resolution: u8) -> bool
    ensures { result ≡ is_resolution resolution }
{
    resolution <= 19 || (resolution >= 128 && resolution <= 191)
}

/// The resolution that an interface's options tell: 10^-6 where they don't.
pub(crate) fn read_resolution(order: Order, options: &[u8]) -> u8
    ensures { result ≡ resolution_in order options.now }
{
    byte_of(order, 9, options, 6)
}

/// How many units a second has.
fn units_of(resolution: u8) -> u64
    requires { is_resolution resolution ≡ true }
    ensures { result ≡ units_of resolution }
{
    if resolution < 128 {
        10u64.pow(u32::from(resolution))
    } else {
        2u64.pow(u32::from(resolution) - 128)
    }
}

/// The interface that a block describes.
pub(crate) fn read_interface(order: Order, body: &[u8]) -> Interface
    requires room { 8 ≤ length body.now }
    requires resolution { is_resolution (resolution_in order (drop 8 body.now)) ≡ true }
    ensures { result ≡ interface_in order body.now }
{
    let options = behind(body, 8);
    Interface {
        link: order.read_u16(body),
        snaplen: order.read_u32(behind(body, 4)),
        units: units_of(read_resolution(order, options)),
        offset: number_of(order, 14, options),
    }
}
