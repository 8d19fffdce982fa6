//! The TIME-WAIT record as C's record, and back.
ghost use Rattle.std.specs.Prelude.{◌≡◌, Some};
ghost use Rattle.tcp_c.specs.CTimeWaits.{ending_of, fields_of, no_record, reset_of, time_wait_kept, settled_record, with_reset};

use crate::records::{CAddr, CTimeWait};
use crate::status::ending_number;
use tcp_conn::{Ending, Peer, TimeWait, TimeWaitFields, WaitingReset};
use tcp_wire::{Addr, Seq};

/// The first word of a TIME-WAIT record. Any other fields have another.
pub const MARK_OF_TIME_WAIT: u32 = 0x5265_7374;

/// The ending of a number.
fn ending_of(number: u16) -> Option<Ending>
    ensures { result ≡ ending_of number }
{
    match number {
        0 => Some(Ending::NotEnded),
        1 => Some(Ending::Orderly),
        2 => Some(Ending::Reset),
        3 => Some(Ending::Aborted),
        _ => None,
    }
}

/// The waiting reset, if there is one.
fn reset_of(stored: &CTimeWait) -> Option<WaitingReset>
    ensures { result ≡ reset_of stored.now }
{
    if stored.reset == 0 {
        return None;
    }
    Some(WaitingReset {
        to: Peer {
            addr: Addr(stored.reset_addr.byte),
            port: stored.reset_port,
        },
        seq: Seq(stored.reset_seq),
        ack: if stored.reset == 1 {
            None
        } else {
            Some(Seq(stored.reset_ack))
        },
    })
}

/// The fields of C's record, with this ending.
fn fields_of(stored: &CTimeWait, ending: Ending) -> TimeWaitFields
    ensures { result ≡ fields_of stored.now ending }
{
    TimeWaitFields {
        addr: Addr(stored.addr.byte),
        port: stored.port,
        peer: Peer {
            addr: Addr(stored.peer_addr.byte),
            port: stored.peer_port,
        },
        snd_nxt: Seq(stored.snd_nxt),
        rcv_nxt: Seq(stored.rcv_nxt),
        window: stored.rcv_wnd,
        shift: stored.shift,
        ack: stored.ack != 0,
        reset: reset_of(stored),
        ending,
    }
}

/// The TIME-WAIT record of C's record, if it is one.
pub(crate) fn time_wait_of(stored: &CTimeWait) -> Option<TimeWait>
    ensures { result ≡ time_wait_kept stored.now }
{
    if stored.mark != MARK_OF_TIME_WAIT {
        return None;
    }
    let ending = ending_of(stored.ending)?;
    TimeWait::of(fields_of(stored, ending))
}

/// No record: all zero.
pub(crate) fn no_record() -> CTimeWait
    ensures { result ≡ no_record }
{
    let nowhere = CAddr { byte: [0; 4] };
    CTimeWait {
        mark: 0,
        addr: nowhere,
        peer_addr: nowhere,
        port: 0,
        peer_port: 0,
        snd_nxt: 0,
        rcv_nxt: 0,
        rcv_wnd: 0,
        reset_addr: nowhere,
        reset_seq: 0,
        reset_ack: 0,
        reset_port: 0,
        shift: 0,
        ack: 0,
        reset: 0,
        ending: 0,
    }
}

/// Fields with no reset, as C's record.
fn settled_record(fields: &TimeWaitFields) -> CTimeWait
    ensures { result ≡ settled_record fields.now }
{
    let (Addr(own), Addr(peer)) = (fields.addr, fields.peer.addr);
    CTimeWait {
        mark: MARK_OF_TIME_WAIT,
        addr: CAddr { byte: own },
        peer_addr: CAddr { byte: peer },
        port: fields.port,
        peer_port: fields.peer.port,
        snd_nxt: fields.snd_nxt.0,
        rcv_nxt: fields.rcv_nxt.0,
        rcv_wnd: fields.window,
        shift: fields.shift,
        ack: u8::from(fields.ack),
        ending: ending_number(fields.ending),
        ..no_record()
    }
}

/// These fields with a waiting reset.
fn with_reset(settled: CTimeWait, reset: WaitingReset) -> CTimeWait
    ensures { result ≡ with_reset settled reset }
{
    let Addr(byte) = reset.to.addr;
    let (kind, reset_ack) = match reset.ack {
        Some(ack) => (2, ack.0),
        None => (1, 0),
    };
    CTimeWait {
        reset_addr: CAddr { byte },
        reset_port: reset.to.port,
        reset_seq: reset.seq.0,
        reset_ack,
        reset: kind,
        ..settled
    }
}

/// C's record of this TIME-WAIT record.
pub(crate) fn record_of(time_wait: &TimeWait) -> CTimeWait
    ensures { time_wait_kept result ≡ Some time_wait.now }
{
    let fields = time_wait.fields();
    let record = settled_record(&fields);
    match fields.reset {
        Some(reset) => with_reset(record, reset),
        None => record,
    }
}
