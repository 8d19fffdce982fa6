//! What the options of the peer's SYN offer.
ghost use Rattle.std.specs.Prelude.{◌≡◌, ◌≤◌};
ghost use Rattle.tcp_halves.specs.Options.{mss_option, shift_option, permits_sack, link_of};
ghost use Rattle.tcp_halves.specs.Config.{max_shift};

use crate::config::{Config, MAX_SHIFT, MIN_MSS};
use crate::link::Link;
use tcp_wire::{OptionsLeft, TcpOption};

/// The MSS of a peer that announces none, in bytes (RFC 9293, 3.7.1).
pub const DEFAULT_MSS: u16 = 536;

/// What the options of a SYN offer; of repeated options the first counts.
#[derive(Drop)]
struct Offer {
    /// The maximum segment size (RFC 9293, 3.7.1).
    mss: Option<u16>,
    /// The window shift (RFC 7323, 2.2).
    shift: Option<u8>,
    /// Whether selective acknowledgement is permitted (RFC 2018, 2).
    sack: bool,
}

/// What these options offer.
fn offer_of(options: OptionsLeft<'_>) -> Offer
    ensures mss { result.mss ≡ mss_option options.entry }
    ensures shift { result.shift ≡ shift_option options.entry }
    ensures sack { result.sack ≡ permits_sack options.entry }
{
    let mut mss = None;
    let mut shift = None;
    let mut sack = false;
    let mut left = options;
    while let Some(option) = left.next() {
        match option {
            TcpOption::Mss(size) => mss = mss.or(Some(size)),
            TcpOption::WindowScale(count) => shift = shift.or(Some(count)),
            TcpOption::SackPermitted => sack = true,
            TcpOption::Nop | TcpOption::Sack(_) | TcpOption::Unknown { .. } => {}
        }
    }
    Offer { mss, shift, sack }
}

/// What the Config of this end and the options of the peer's SYN agree on (RFC 9293, 3.7.1; RFC 7323, 2.2; RFC 2018,
/// 2).
#[tactic(auto, unfolding(crate::specs::Options::link_of))]
pub fn link_of(config: &Config, options: OptionsLeft<'_>) -> Link
    ensures value { result ≡ link_of config.now options.entry }
    ensures shift { result.peer_shift ≤ max_shift }
{
    let offer = offer_of(options);
    let shift = offer.shift;
    Link {
        peer_mss: offer.mss.unwrap_or(DEFAULT_MSS).max(MIN_MSS),
        scaling: config.window_shift.is_some() && shift.is_some(),
        peer_shift: if config.window_shift.is_some() {
            shift.unwrap_or(0).min(MAX_SHIFT)
        } else {
            0
        },
        sack: config.sack && offer.sack,
    }
}
