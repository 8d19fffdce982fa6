//! A TIME-WAIT record field by field: to be stored, or passed across an interface.
ghost use Rattle.std.specs.Prelude.{◌≡◌, if◌then◌else◌, Some, None, IsTrue};
ghost use Rattle.tcp_conn.specs.TimeWait.{can_be_kept, kept_of};

use crate::phase::Ending;
use crate::time_wait::record::TimeWait;
use tcp_halves::{MAX_SHIFT, Peer, WaitingReset};
use tcp_sendq::MAX_CAPACITY;
use tcp_wire::{Addr, Seq};

/// The fields of a [`TimeWait`]. Any values can be given to [`TimeWait::of`], which refuses those of no record.
#[derive(Clone, Copy, Debug, PartialEq, Eq)]
pub struct TimeWaitFields {
    /// The address of this end.
    pub addr: Addr,
    /// The port of this end.
    pub port: u16,
    /// The other end.
    pub peer: Peer,
    /// SND.NXT: all before it is acknowledged.
    pub snd_nxt: Seq,
    /// RCV.NXT.
    pub rcv_nxt: Seq,
    /// RCV.WND in bytes, at most 1,048,576.
    pub window: u32,
    /// The shift by which the window is advertised, at most 14.
    pub shift: u8,
    /// Whether an acknowledgement is pending.
    pub ack: bool,
    /// A reset that waits.
    pub reset: Option<WaitingReset>,
    /// How the connection ended, if it did.
    pub ending: Ending,
}

impl TimeWait {
    /// Its fields: [`TimeWait::of`] makes an equal record of them.
    #[must_use]
    pub fn fields(&self) -> TimeWaitFields
        ensures value { kept_of result ≡ self.now }
        ensures valid { IsTrue (can_be_kept result) }
    {
        TimeWaitFields {
            addr: self.addr,
            port: self.port,
            peer: self.peer,
            snd_nxt: self.snd_nxt,
            rcv_nxt: self.rcv_nxt,
            window: self.window,
            shift: self.shift,
            ack: self.ack,
            reset: self.reset,
            ending: self.ending,
        }
    }

    /// The record of these fields. `None` exactly where there is none: with a window above 1,048,576 bytes, or a shift
    /// above 14.
    #[must_use]
    pub fn of(fields: TimeWaitFields) -> Option<TimeWait>
        ensures { result ≡ (if can_be_kept fields then Some (kept_of fields) else None) }
    {
        if fields.window as usize > MAX_CAPACITY || fields.shift > MAX_SHIFT {
            return None;
        }
        Some(TimeWait {
            addr: fields.addr,
            port: fields.port,
            peer: fields.peer,
            snd_nxt: fields.snd_nxt,
            rcv_nxt: fields.rcv_nxt,
            window: fields.window,
            shift: fields.shift,
            ack: fields.ack,
            reset: fields.reset,
            ending: fields.ending,
        })
    }
}
