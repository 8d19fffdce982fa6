//! The TIME-WAIT record: it takes the place of an end that only answers late segments (RFC 9293, 3.10.7.4), without its
//! buffers.
ghost use Rattle.std.specs.Prelude.{◌≡◌, ◌≤◌, if◌then◌else◌, length, option_map, IfSome, Some, None, false, []};
ghost use Rattle.tcp_wire.specs.View.{content_of, raw_content};
ghost use Rattle.tcp_wire.specs.Wire.{IsValid};
ghost use Rattle.tcp_conn.specs.declared.emit.due.Due.TheVariants.{Acknowledgement};
ghost use Rattle.tcp_conn.specs.declared.phase.Ending.TheVariants.{NotEnded};
ghost use Rattle.tcp_conn.specs.Arrival.{after_arrival, arrival_answer, first_reset};
ghost use Rattle.tcp_conn.specs.Calls.{abort_answer, after_abort};
ghost use Rattle.tcp_conn.specs.Emission.{after_emission, buffer_after, destination, pending_length};
ghost use Rattle.tcp_conn.specs.Forms.{plain_segment};
ghost use Rattle.tcp_conn.specs.Judgement.{IsReadOf, is_foreign, judgement};
ghost use Rattle.tcp_conn.specs.TimeWait.{as_state, has_time_wait, time_wait_after_judgement, time_wait_of, time_wait_phase};
ghost use Rattle.tcp_conn.specs.Timers.{after_timer, timer_answer};
ghost use Rattle.tcp_conn.specs.Windows.{window_field};

use crate::arrive::effect::reset_of_stray;
use crate::arrive::judged_fields::JudgedFields;
use crate::arrive::judgement::{Judgement, judge_after_syn, judge_closed};
use crate::emit::segment::reset_from;
use crate::emit::write::write_bare;
use crate::endpoint::Endpoint;
use crate::outcome::{Arrival, CallError};
use crate::phase::{Ending, Phase, Timer};
use crate::phases::{is_ended, is_time_wait};
use crate::windows::MAX_WINDOW;
use std::alloc::Allocator;
use std::marker::Model;
use tcp_halves::{Peer, WaitingReset};
use tcp_wire::{Addr, Flags, Header, RawSegment, Seq};

/// The length in bytes of each segment that a [`TimeWait`] emits.
pub const TIME_WAIT_LEN: usize = 20;

/// A TIME-WAIT record: it takes the place of an end in TIME-WAIT (RFC 9293, 3.3.2), and allocates nothing. It answers
/// late segments as the end would, until the TIME-WAIT timeout, a reset or `abort` closes it. At most 64 bytes.
#[derive(Clone, Copy, Debug, PartialEq, Eq)]
pub struct TimeWait {
    /// The address and port of this end.
    pub(crate) addr: Addr,
    pub(crate) port: u16,
    pub(crate) peer: Peer,
    /// SND.NXT: all before it is acknowledged.
    pub(crate) snd_nxt: Seq,
    /// RCV.NXT.
    pub(crate) rcv_nxt: Seq,
    /// RCV.WND, and the shift by which it is advertised.
    pub(crate) window: u32,
    pub(crate) shift: u8,
    /// Whether an acknowledgement is pending.
    pub(crate) ack: bool,
    /// A reset that waits.
    pub(crate) reset: Option<WaitingReset>,
    pub(crate) ending: Ending,
}

impl Model for TimeWait {
    ghost use Rattle.std.specs.Prelude.{◌<◌, ◌≤◌, ◌^◌};
    ghost use Rattle.tcp_reasm.specs.Reassembly.{max_capacity};
    ghost use Rattle.tcp_halves.specs.Config.{max_shift};
    ghost use Rattle.tcp_conn.specs.TimeWait.{TimeWaitRecord};

    ghost Value = { TimeWaitRecord };

    ghost view = { λ r. record { addr = r.addr; port = r.port; peer = r.peer; snd_nxt = r.snd_nxt.0; rcv_nxt = r.rcv_nxt.0; window = r.window; shift = r.shift; ack = r.ack; reset = r.reset; ending = r.ending } };

    ghost inverse = { λ d. record { addr = d.addr; port = d.port; peer = d.peer; snd_nxt = record { 0 = d.snd_nxt }; rcv_nxt = record { 0 = d.rcv_nxt }; window = d.window; shift = d.shift; ack = d.ack; reset = d.reset; ending = d.ending } };

    ghost invariant = { λ r. (r.snd_nxt.0 < 2 ^ 32) × (r.rcv_nxt.0 < 2 ^ 32) × (r.window ≤ max_capacity) × (r.shift ≤ max_shift) };
}

impl<A: Allocator> Endpoint<A> {
    /// The TIME-WAIT record of this end: it answers and emits as the end would (RFC 9293, 3.10.7.4). `None` in any
    /// phase but TIME-WAIT, while bytes are unread or kept out of order, and while anything that was sent isn't
    /// acknowledged.
    #[must_use]
    pub fn time_wait(&self) -> Option<TimeWait>
        ensures { result ≡ (if has_time_wait self.now then Some (time_wait_of self.now) else None) }
    {
        if !self.has_time_wait() {
            return None;
        }
        Some(TimeWait {
            addr: self.config.addr,
            port: self.config.port,
            peer: self.peer,
            snd_nxt: self.number_of(self.sender.snd_nxt),
            rcv_nxt: self.receiver.rcv_nxt,
            window: self.receiver.inbox.window(),
            shift: self.own_shift(),
            ack: self.pending.ack,
            reset: self.pending.reset,
            ending: self.ending,
        })
    }

    /// Whether it is in TIME-WAIT, nothing is unread or kept out of order, and all that was sent is acknowledged.
    fn has_time_wait(&self) -> bool
        ensures { result ≡ has_time_wait self.now }
    {
        let waits = is_time_wait(self.phase) && !is_ended(self.ending);
        let empty = self.receiver.inbox.unread() == 0 && !self.has_gap();
        let acknowledged = self.sender.snd_una == self.sender.snd_nxt && !self.pending.syn;
        waits && empty && acknowledged
    }
}

impl TimeWait {
    /// TIME-WAIT, or CLOSED once the connection has ended.
    #[must_use]
    pub fn phase(&self) -> Phase
        ensures { result ≡ time_wait_phase self.now.ending }
    {
        if is_ended(self.ending) {
            Phase::Closed
        } else {
            Phase::TimeWait
        }
    }

    /// How the connection ended, if it did.
    #[must_use]
    pub fn ending(&self) -> Ending
        ensures { result ≡ self.now.ending }
    {
        self.ending
    }

    /// Takes bytes that came from `src` to `dst`, whatever they are, as the end would (RFC 9293, 3.10.7).
    #[tactic(auto, using(crate::proofs::TimeWaits::kept, crate::proofs::TimeWaitArrival::followed), unfolding(crate::specs::Arrival::arrival_answer, crate::specs::Arrival::after_arrival))]
    pub fn arrive(&mut self, src: Addr, dst: Addr, bytes: &[u8]) -> Arrival
        ensures answer { result ≡ arrival_answer (as_state self.old) src.0 dst.0 bytes.now }
        ensures state { self.new ≡ time_wait_of (after_arrival (as_state self.old) src.0 dst.0 bytes.now) }
    {
        // So that the proof knows the invariant of the record.
        let _ = &self.snd_nxt;
        match RawSegment::parse(src, dst, bytes) {
            Ok(segment) => {
                let judgement = self.judge(src, dst, &segment);
                self.follow(judgement, src, &segment);
                judgement.answer()
            }
            Err(fault) => Arrival::Malformed(fault),
        }
    }

    /// Which rule applies to a segment that came from `src` to `dst`.
    #[tactic(auto, unfolding(crate::specs::Judgement::judgement, crate::specs::Judgement::phase_judgement))]
    fn judge(&self, src: Addr, dst: Addr, segment: &RawSegment<'_>) -> Judgement
        ensures { result ≡ judgement (as_state self.now) src.0 dst.0 (raw_content segment.now) }
    {
        if self.is_foreign(src, dst, segment) {
            return Judgement::Foreign;
        }
        if is_ended(self.ending) {
            return judge_closed(segment);
        }
        judge_after_syn(&self.judged_fields(), segment)
    }

    /// Whether the segment is for another end, or, in TIME-WAIT, from another source than the peer (RFC 9293, 3.10.7).
    #[tactic(auto, unfolding(crate::specs::Judgement::is_foreign))]
    fn is_foreign(&self, src: Addr, dst: Addr, segment: &RawSegment<'_>) -> bool
        ensures { result ≡ is_foreign (as_state self.now) src.0 dst.0 (raw_content segment.now) }
    {
        let for_other = dst != self.addr || segment.header.dst_port != self.port;
        let from_other = src != self.peer.addr || segment.header.src_port != self.peer.port;
        for_other || !is_ended(self.ending) && from_other
    }

    /// What is read of it in TIME-WAIT: positions count from SND.NXT.
    fn judged_fields(&self) -> JudgedFields
        requires { self.now.ending ≡ NotEnded }
        ensures { IsReadOf result (as_state self.now) }
    {
        JudgedFields {
            rcv_nxt: self.rcv_nxt,
            rcv_wnd: self.window,
            is_syn_received: false,
            isn: self.snd_nxt,
            snd_una: 0,
            snd_nxt: 0,
        }
    }

    /// The effect of a judgement. An acknowledgement that is taken changes nothing.
    fn follow(&mut self, judgement: Judgement, src: Addr, segment: &RawSegment<'_>)
        ensures { self.new ≡ time_wait_after_judgement judgement self.old src.0 (raw_content segment.now) }
    {
        match judgement {
            Judgement::Stray => self.record_reset(reset_of_stray(src, segment)),
            Judgement::PeerResets => self.end_by(Ending::Reset),
            Judgement::Unacceptable
            | Judgement::ResetElsewhere
            | Judgement::SynInWindow
            | Judgement::AcksUnsent
            | Judgement::TakenShut => self.ack = true,
            _ => {}
        }
    }

    /// A reset waits, unless one does already (RFC 9293, 3.10.7.1).
    fn record_reset(&mut self, reset: WaitingReset)
        ensures { self.new ≡ record self.old { reset = first_reset self.old.reset reset } }
    {
        if self.reset.is_none() {
            self.reset = Some(reset);
        }
    }

    /// The connection ends, and nothing is pending but a waiting reset.
    fn end_by(&mut self, ending: Ending)
        ensures { self.new ≡ record self.old { ending = ending; ack = false } }
    {
        self.ending = ending;
        self.ack = false;
    }

    /// A timer has expired (RFC 9293, 3.10.8): whether its rule applies. TimeWait ends the connection in order; any
    /// other changes nothing.
    #[tactic(auto, using(crate::proofs::TimeWaits::kept), unfolding(crate::specs::Timers::after_retransmit, crate::specs::Timers::after_reorder, crate::specs::Timers::after_time_wait))]
    pub fn timer(&mut self, timer: Timer) -> bool
        ensures answer { result ≡ timer_answer (as_state self.old) timer }
        ensures state { self.new ≡ time_wait_of (after_timer (as_state self.old) timer) }
    {
        if timer != Timer::TimeWait || is_ended(self.ending) {
            return false;
        }
        self.end_by(Ending::Orderly);
        true
    }

    /// Aborts the connection; no reset is sent in TIME-WAIT (RFC 9293, 3.10.5). `Ended` where it has ended.
    #[tactic(auto, using(crate::proofs::TimeWaits::kept), unfolding(crate::specs::Calls::after_abort))]
    pub fn abort(&mut self) -> Result<(), CallError>
        ensures answer { result ≡ abort_answer (as_state self.old) }
        ensures state { self.new ≡ time_wait_of (after_abort (as_state self.old)) }
    {
        if is_ended(self.ending) {
            return Err(CallError::Ended(self.ending));
        }
        self.end_by(Ending::Aborted);
        Ok(())
    }

    /// The length in bytes of the segment that `emit` would write now, [`TIME_WAIT_LEN`]; `None` where none is due.
    #[must_use]
    #[tactic(auto, unfolding(crate::specs::Emission::pending_length, crate::specs::Due::due_of, crate::specs::Forms::segment_of))]
    pub fn pending(&self) -> Option<usize>
        ensures value { result ≡ pending_length (as_state self.now) }
        ensures len { IfSome result (λ len. len ≡ TIME_WAIT_LEN) }
    {
        if self.reset.is_some() || self.ack {
            Some(TIME_WAIT_LEN)
        } else {
            None
        }
    }

    /// The window field (RFC 9293, 3.1; RFC 7323, 2.3).
    fn field(&self) -> u16
        ensures { result ≡ window_field self.now.shift self.now.window }
    {
        (self.window >> self.shift).min(MAX_WINDOW) as u16
    }

    /// The fixed header of an acknowledgement.
    fn ack_header(&self) -> Header
        ensures value { content_of result [] 0 [] ≡ plain_segment (as_state self.now) Acknowledgement }
        ensures valid { IsValid (content_of result [] 0 []) }
    {
        // So that the proof knows their ranges.
        let (_port, _peer_port) = (self.port, self.peer.port);
        Header {
            src_port: self.port,
            dst_port: self.peer.port,
            seq: self.snd_nxt,
            ack: self.rcv_nxt,
            reserved: 0,
            flags: Flags::ACK,
            window: self.field(),
            urgent: 0,
        }
    }

    /// Writes the segment that is due, a waiting reset or an acknowledgement, at the start of `out`, which has room for
    /// [`TIME_WAIT_LEN`] bytes. Returns where it goes and its length, [`TIME_WAIT_LEN`]. `None`, and nothing changes,
    /// exactly where none is due.
    #[must_use]
    #[tactic(auto, using(crate::proofs::TimeWaits::kept), unfolding(crate::specs::Emission::pending_length, crate::specs::Emission::destination, crate::specs::Emission::buffer_after, crate::specs::Emission::after_emission, crate::specs::Due::due_of, crate::specs::Forms::segment_of, crate::specs::Writing::bytes_of))]
    pub fn emit(&mut self, out: &mut [u8]) -> Option<(Addr, usize)>
        requires { TIME_WAIT_LEN ≤ length out.old }
        ensures destination { option_map (λ sent. sent.0.0) result ≡ destination (as_state self.old) }
        ensures len { option_map (λ sent. sent.1) result ≡ pending_length (as_state self.old) }
        ensures bytes { out.new ≡ buffer_after (as_state self.old) out.old }
        ensures state { self.new ≡ time_wait_of (after_emission (as_state self.old)) }
    {
        if let Some(reset) = self.reset {
            let header = reset_from(self.port, reset);
            let len = write_bare(&header, self.addr, reset.to.addr, out);
            self.reset = None;
            return Some((reset.to.addr, len));
        }
        if !self.ack {
            return None;
        }
        let header = self.ack_header();
        let len = write_bare(&header, self.addr, self.peer.addr, out);
        self.ack = false;
        Some((self.peer.addr, len))
    }
}
