//! TIME-WAIT records in a host.
ghost use Rattle.std.specs.Prelude.{◌≡◌};
ghost use Rattle.tcp_driver.specs.Driver.{is_reset};
ghost use Rattle.tcp_host.specs.Record.{repeats_fin};

use crate::timed::Timed;
use tcp_conn::{Arrival, TIME_WAIT_LEN, TimeWait};
use tcp_driver::{LAST, Sent, Timer};
use tcp_wire::{Addr, RawSegment};

/// What is left of an end in TIME-WAIT (RFC 9293, 3.3.2): it answers late segments as the end would, until TIME-WAIT
/// is over. It sums each, also one that a device has vouched for: where a device leaves sums out, one is made first.
#[derive(Clone, Copy, Debug, PartialEq, Eq)]
pub struct Record {
    /// What answers.
    pub time_wait: TimeWait,
    /// When TIME-WAIT is over.
    pub until: u64,
    /// How long it lasts from the peer's FIN on.
    pub span: u64,
}

impl Timed for Record {
    ghost use Rattle.tcp_host.specs.Record.{answer_of_record, of_record};

    /// `None` for a reset, which counts as lost.
    type Arriving = Option<Arrival>;

    ghost behaviour = { of_record };

    ghost arrival_answer = { λ r src dst bytes vouched. answer_of_record r src dst bytes };

    fn is_bursting(&self) -> bool {
        false
    }

    fn is_open(&self) -> bool {
        true
    }

    fn poll_at(&self) -> Option<u64> {
        Some(self.until)
    }

    fn arrive(
        &mut self,
        now: u64,
        src: [u8; 4],
        dst: [u8; 4],
        bytes: &[u8],
        _is_vouched: bool,
    ) -> Option<Arrival> {
        if is_reset(bytes) {
            return None;
        }
        if repeats_fin(&self.time_wait, src, dst, bytes) {
            self.until = LAST.min(now) + LAST.min(self.span);
        }
        Some(self.time_wait.arrive(Addr(src), Addr(dst), bytes))
    }

    fn emit(&mut self, _now: u64, _window: u64, out: &mut [u8]) -> Option<Sent> {
        let (to, _) = self.time_wait.emit(out)?;
        let to = to.0;
        Some(Sent {
            to,
            len: TIME_WAIT_LEN,
            start: 0,
            count: 0,
        })
    }

    fn timeout(&mut self, now: u64) -> Option<Timer> {
        if self.until <= LAST.min(now) {
            Some(Timer::TimeWait)
        } else {
            None
        }
    }
}

/// RST among the flags of a segment (RFC 9293, 3.1).
const RST: u8 = 4;

/// Whether a segment has the bit RST.
fn is_reset(bytes: &[u8]) -> bool
    ensures { result ≡ is_reset bytes.now }
{
    match bytes.get(13) {
        Some(flags) => *flags & RST != 0,
        None => false,
    }
}

/// Whether it is the peer's FIN again (RFC 9293, 3.10.7.4, eighth).
fn repeats_fin(time_wait: &TimeWait, src: [u8; 4], dst: [u8; 4], bytes: &[u8]) -> bool
    ensures { result ≡ repeats_fin time_wait.now src dst bytes.now }
{
    let Ok(segment) = RawSegment::parse(Addr(src), Addr(dst), bytes) else {
        return false;
    };
    let after = segment.header.seq.plus(segment.text.len() as u32).plus(1);
    segment.header.flags.is_fin() && after == time_wait.fields().rcv_nxt
}
