ghost use Rattle.std.specs.Prelude.{◌≡◌, Some};
ghost use Rattle.tcp_halves.specs.Config.{default_config, config_error_number, config_error_text};

use std::error::Error;
use std::fmt;
use tcp_wire::{Addr, Seq};

/// The least MSS in bytes: of a [`Config`], and used where a peer announces less.
pub const MIN_MSS: u16 = 64;

/// The greatest MSS of a [`Config`], in bytes: what an Ethernet frame carries.
pub const MAX_MSS: u16 = 1460;

/// The greatest window shift (RFC 7323, 2.3).
pub const MAX_SHIFT: u8 = 14;

/// The greatest limit of a direction in a [`Config`], in bytes: 2^62.
pub const MAX_LIMIT: u64 = 1 << 62;

/// The default limit of a direction, in bytes: 2^31 less 16. Any two positions of such a direction are less than 2^31
/// apart, so no segment, however old, is taken for another (RFC 9293, 3.4).
pub const DEFAULT_LIMIT: u64 = 2_147_483_632;

/// What one end is made from.
#[derive(Clone, Copy, Debug, PartialEq, Eq)]
pub struct Config {
    /// The address of this end.
    pub addr: Addr,
    /// The port of this end.
    pub port: u16,
    /// The initial sequence number, ISS (RFC 9293, 3.4.1).
    pub isn: Seq,
    /// The maximum segment size that this end announces, in bytes, from 64 to 1460 (RFC 9293, 3.7.1).
    pub mss: u16,
    /// The capacity of the send queue in bytes, from 1 to 1,048,576.
    pub send_capacity: usize,
    /// The capacity of the receive buffer in bytes, and the greatest receive window, from 1 to 1,048,576.
    pub recv_capacity: usize,
    /// The shift of the windows that this end advertises, from 0 to 14; `None` where it doesn't offer scaling (RFC
    /// 7323, 2.2).
    pub window_shift: Option<u8>,
    /// Whether this end permits selective acknowledgement (RFC 2018, 2).
    pub sack: bool,
    /// The most bytes that this end's direction carries, from 1 to 2^62. Past [`DEFAULT_LIMIT`] the network has to keep
    /// the maximum segment lifetime (RFC 9293, 3.4).
    pub limit: u64,
}

impl Config {
    /// A Config of this address, port and ISS: an MSS of 1460 bytes, capacities of 65,536 bytes, no window scaling,
    /// selective acknowledgement, and [`DEFAULT_LIMIT`].
    pub fn new(addr: Addr, port: u16, isn: Seq) -> Self
        ensures { result ≡ default_config addr port isn }
    {
        Config {
            addr,
            port,
            isn,
            mss: MAX_MSS,
            send_capacity: 65_536,
            recv_capacity: 65_536,
            window_shift: None,
            sack: true,
            limit: DEFAULT_LIMIT,
        }
    }
}

/// Why an end can't be made, in the order in which the faults are looked for.
#[derive(Clone, Copy, Debug, PartialEq, Eq)]
pub enum ConfigError {
    /// A capacity isn't from 1 to 1,048,576.
    BadCapacity,
    /// The MSS isn't from 64 to 1460.
    BadMss,
    /// The window shift isn't from 0 to 14.
    BadShift,
    /// The limit of the direction isn't from 1 to 2^62.
    BadLimit,
    /// There is no memory for the buffers.
    NoMemory,
}

impl ConfigError {
    /// The number under which the refusal is reported, from 21 to 25.
    pub fn number(self) -> u8
        ensures { result ≡ config_error_number self }
    {
        match self {
            ConfigError::BadCapacity => 21,
            ConfigError::BadMss => 23,
            ConfigError::BadShift => 24,
            ConfigError::BadLimit => 25,
            ConfigError::NoMemory => 22,
        }
    }
}

impl fmt::Display for ConfigError {
    ghost output = { λ e. Some (config_error_text e) };

    fn fmt<W: fmt::Write>(&self, f: &mut fmt::Formatter<W>) -> fmt::Result {
        f.write_str(match self {
            ConfigError::BadCapacity => "a capacity is not from 1 to 1048576 bytes",
            ConfigError::BadMss => "the maximum segment size is not from 64 to 1460 bytes",
            ConfigError::BadShift => "the window shift is not from 0 to 14",
            ConfigError::BadLimit =>
                "the limit of the stream is not from 1 to 4611686018427387904 bytes",
            ConfigError::NoMemory => "no memory for the buffers",
        })
    }
}

impl Error for ConfigError {}
