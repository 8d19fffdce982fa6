ghost use Rattle.std.specs.Prelude.{◌≡◌, ◌<◌, ◌≤◌, ◌+◌, ◌-◌, ◌==◌, ◌↔◌, ◌⊎◌, min, length, IfOk};
ghost use Rattle.tcp_sendq.specs.SendQueue.{greatest_runs, max_capacity, room};
ghost use Rattle.tcp_halves.specs.Sender.{Sending, accepted_count, place_of, end_of_text};
ghost use Rattle.tcp_halves.specs.Config.{stream_limit};
ghost use Rattle.tcp_halves.specs.Sender.{sending_with_runs, with_syn_sent, with_syn_counted, with_syn_acked, count_below, after_ack, with_window, is_newer, after_window_update, with_all_resent, with_first_resent, with_gaps_resent, with_resent, count_sendable, with_text, count_unsent, is_probe_needed, is_fin_acked, without_text, IsSender};

use crate::config::Config;
use std::alloc::{Allocator, Global};
use std::marker::Model;
use std::ops::Range;
use tcp_sendq::{QueueError, SendQueue};
use tcp_wire::Seq;

/// The half of an end that sends (RFC 9293, 3.3.1). Positions count from the SYN, which is at 0; byte i of the queue is
/// at `1 + released + i`, the FIN after the last byte. Its fields are public to read; its methods keep its invariant.
#[derive(Debug, Drop)]
pub struct Sender<A: Allocator = Global> {
    /// SND.UNA, the oldest position that isn't acknowledged; at most `snd_nxt`.
    pub snd_una: u64,
    /// SND.NXT, the next position to be sent; at most the one after the FIN of a full direction.
    pub snd_nxt: u64,
    /// The text bytes that acknowledgements have released.
    pub released: u64,
    /// The text after those: accepted, and not released.
    pub queue: SendQueue<A>,
    /// What a retransmission still has to send again, as positions.
    pub resend: Option<Range<u64>>,
    /// SND.WND, in bytes.
    pub snd_wnd: u32,
    /// SND.WL1 and SND.WL2, SEG.SEQ and SEG.ACK of the segment that the window was taken from.
    pub snd_wl1: Seq,
    pub snd_wl2: Seq,
}

impl<A: Allocator> Model for Sender<A> {
    ghost use Rattle.tcp_halves.specs.Sender.{Sending};

    ghost Value = { Sending };

    ghost use Rattle.tcp_halves.specs.Sender.{IsSender};

    ghost view = { λ s. record { snd_una = s.snd_una; snd_nxt = s.snd_nxt; released = s.released; queue = s.queue; resend = s.resend; snd_wnd = s.snd_wnd; snd_wl1 = s.snd_wl1.0; snd_wl2 = s.snd_wl2.0 } };

    ghost invariant = { λ s. IsSender (record { snd_una = s.snd_una; snd_nxt = s.snd_nxt; released = s.released; queue = s.queue; resend = s.resend; snd_wnd = s.snd_wnd; snd_wl1 = s.snd_wl1.0; snd_wl2 = s.snd_wl2.0 }) };
}

impl<A: Allocator> Sender<A> {
    /// A sender before any call, whose queue can have at most `runs` runs of marked bytes; the queue has memory of `bytes`,
    /// its table of marks of `table`. An error where the capacity is out of range, or there is no memory.
    pub fn with_runs_of(
        bytes: A,
        table: A,
        config: &Config,
        runs: usize,
    ) -> Result<Self, QueueError>
        requires least { 1 ≤ runs }
        requires most { runs ≤ greatest_runs }
        ensures ok { IfOk result (λ s. s ≡ sending_with_runs config.now.send_capacity runs) }
        ensures bad_capacity { (result ≡ Err QueueError.BadCapacity) ↔ ((config.now.send_capacity < 1) ⊎ (max_capacity < config.now.send_capacity)) }
    {
        let queue = SendQueue::with_runs_of(bytes, table, config.send_capacity, runs)?;
        Ok(Sender {
            snd_una: 0,
            snd_nxt: 0,
            released: 0,
            queue,
            resend: None,
            snd_wnd: 0,
            snd_wl1: Seq(0),
            snd_wl2: Seq(0),
        })
    }
}

impl<A: Allocator> Sender<A> {
    /// How many bytes the direction has accepted from its user.
    pub fn accepted_count(&self) -> u64
        ensures value { result ≡ accepted_count self.now }
        ensures limit { result ≤ stream_limit }
    {
        self.released + self.queue.len() as u64
    }

    /// The position after the last byte that was accepted.
    pub(crate) fn end_of_text(&self) -> u64
        ensures { result ≡ end_of_text self.now }
    {
        1 + self.accepted_count()
    }

    /// The offset in the queue of the byte at a position.
    pub(crate) fn place_of(&self, position: u64) -> u64
        ensures { result ≡ place_of self.now position }
    {
        position.saturating_sub(1 + self.released)
    }

    /// How many queued bytes lie before a position.
    pub fn count_below(&self, position: u64) -> usize
        ensures { result ≡ count_below self.now position }
    {
        self.place_of(position).min(self.queue.len() as u64) as usize
    }

    /// This end's SYN is sent (RFC 9293, 3.10.1).
    pub fn send_syn(&mut self)
        ensures state { self.new ≡ with_syn_sent self.old }
        ensures capacity { self.new.queue.capacity ≡ self.old.queue.capacity }
        ensures queued { length self.new.queue.bytes ≤ self.new.queue.capacity }
    {
        self.snd_una = 0;
        self.snd_nxt = 1;
    }

    /// This end's SYN was emitted: SND.NXT is at least the position after it (RFC 9293, 3.4).
    pub fn mark_syn_sent(&mut self)
        ensures state { self.new ≡ with_syn_counted self.old }
        ensures capacity { self.new.queue.capacity ≡ self.old.queue.capacity }
        ensures queued { length self.new.queue.bytes ≤ self.new.queue.capacity }
    {
        self.snd_nxt = self.snd_nxt.max(1);
    }

    /// This end's SYN is acknowledged, by a segment that advertises a window (RFC 9293, 3.10.7.3 and 3.10.7.4).
    pub fn take_syn_ack(&mut self, seq: Seq, ack: Seq, window: u32)
        ensures state { self.new ≡ with_window (with_syn_acked self.old) seq.0 ack.0 window }
        ensures capacity { self.new.queue.capacity ≡ self.old.queue.capacity }
        ensures queued { length self.new.queue.bytes ≤ self.new.queue.capacity }
    {
        self.snd_una = self.snd_nxt;
        self.snd_wnd = window;
        self.snd_wl1 = seq;
        self.snd_wl2 = ack;
    }

    /// Releases the text below an acknowledgement that is after SND.UNA and up to SND.NXT; else nothing changes (RFC
    /// 9293, 3.10.7.4, fifth).
    #[tactic(auto, unfolding(crate::specs::Sender::after_ack))]
    pub fn take_ack(&mut self, ack: u64)
        ensures state { self.new ≡ after_ack self.old ack }
        ensures capacity { self.new.queue.capacity ≡ self.old.queue.capacity }
        ensures queued { length self.new.queue.bytes ≤ self.new.queue.capacity }
    {
        if self.snd_una < ack && ack <= self.snd_nxt {
            let count = self.count_below(ack);
            self.snd_una = ack;
            self.released += count as u64;
            self.queue.release(count);
        }
    }

    /// Takes a window in bytes, unless the last was taken from a newer segment; returns whether it did (RFC 9293,
    /// 3.10.7.4, fifth).
    #[tactic(auto, unfolding(crate::specs::Sender::after_window_update))]
    pub fn update_window(&mut self, seq: Seq, ack: Seq, window: u32) -> bool
        ensures answer { result ≡ is_newer self.old seq.0 ack.0 }
        ensures state { self.new ≡ after_window_update self.old seq.0 ack.0 window }
        ensures capacity { self.new.queue.capacity ≡ self.old.queue.capacity }
        ensures queued { length self.new.queue.bytes ≤ self.new.queue.capacity }
    {
        let follows = self.snd_wl1 == seq && (self.snd_wl2.before(ack) || self.snd_wl2 == ack);
        let is_newer = self.snd_wl1.before(seq) || follows;
        if is_newer {
            self.snd_wnd = window;
            self.snd_wl1 = seq;
            self.snd_wl2 = ack;
        }
        is_newer
    }

    /// Marks all that is in flight to be sent again, and forgets what the peer reported of it (RFC 9293, 3.8.1; RFC
    /// 2018, 5).
    #[tactic(auto, unfolding(tcp_sendq::specs::SendQueue::without_marks))]
    pub fn resend_all(&mut self)
        ensures state { self.new ≡ with_all_resent self.old }
        ensures capacity { self.new.queue.capacity ≡ self.old.queue.capacity }
        ensures queued { length self.new.queue.bytes ≤ self.new.queue.capacity }
    {
        self.queue.forget_marks();
        self.resend = Some(self.snd_una..self.snd_nxt);
    }

    /// Sends what is in flight from the position `from` on and before `to` again, and nothing else of it (RFC 6675, 5;
    /// RFC 8985, 6.2).
    pub fn resend(&mut self, from: u64, to: u64)
        ensures state { self.new ≡ with_resent self.old from to }
        ensures capacity { self.new.queue.capacity ≡ self.old.queue.capacity }
        ensures queued { length self.new.queue.bytes ≤ self.new.queue.capacity }
    {
        self.resend = Some(self.snd_una.max(from)..self.snd_nxt.min(to));
    }

    /// Sends the first segment of what is in flight again, with at most `limit` bytes of data, and nothing else of it
    /// (RFC 5681, 3.2; RFC 6582, 3.2).
    pub fn resend_first(&mut self, limit: u16)
        ensures state { self.new ≡ with_first_resent self.old limit }
        ensures capacity { self.new.queue.capacity ≡ self.old.queue.capacity }
        ensures queued { length self.new.queue.bytes ≤ self.new.queue.capacity }
    {
        self.resend(self.snd_una, self.snd_una + u64::from(limit));
    }

    /// What lies before the offset `end` in the queue has to be sent again (RFC 2018, 5).
    pub fn resend_gaps(&mut self, end: usize)
        requires { end ≤ length self.old.queue.bytes }
        ensures state { self.new ≡ with_gaps_resent self.old end }
        ensures capacity { self.new.queue.capacity ≡ self.old.queue.capacity }
        ensures queued { length self.new.queue.bytes ≤ self.new.queue.capacity }
    {
        self.resend = Some(self.snd_una..1 + self.released + end as u64);
    }

    /// Whether a probe is needed: nothing is in flight, text is unsent, and the peer's window is zero (RFC 9293,
    /// 3.8.6.1).
    pub fn is_probe_needed(&self) -> bool
        ensures { result ≡ is_probe_needed self.now }
    {
        self.snd_una == self.snd_nxt && self.count_unsent() > 0 && self.snd_wnd == 0
    }

    /// How many bytes of a long text fit the queue and the limit of the direction.
    pub fn room(&self, limit: u64) -> usize
        ensures { result ≡ min (room self.now.queue) (limit - accepted_count self.now) }
    {
        let left = limit.saturating_sub(self.accepted_count());
        (self.queue.room() as u64).min(left) as usize
    }

    /// Accepts the longest prefix of `text` that fits the queue and the limit of the direction, and returns its length
    /// (RFC 9293, 3.10.2).
    pub fn send(&mut self, limit: u64, text: &[u8]) -> usize
        requires { limit ≤ stream_limit }
        ensures count { result ≡ count_sendable self.old limit text.now }
        ensures state { self.new ≡ with_text self.old limit text.now }
        ensures capacity { self.new.queue.capacity ≡ self.old.queue.capacity }
        ensures queued { length self.new.queue.bytes ≤ self.new.queue.capacity }
    {
        let count = self.room(limit).min(text.len());
        let _ = self.queue.offer(&text[..count]);
        count
    }

    /// How many queued bytes weren't sent yet.
    pub(crate) fn count_unsent(&self) -> u64
        ensures { result ≡ count_unsent self.now }
    {
        (self.queue.len() as u64).saturating_sub(self.place_of(self.snd_nxt))
    }

    /// Whether this end's FIN was sent, and all that was sent is acknowledged (RFC 9293, 3.10.7.4, fifth).
    pub fn is_fin_acked(&self) -> bool
        ensures { result ≡ is_fin_acked self.now }
    {
        self.end_of_text() < self.snd_nxt && self.snd_una == self.snd_nxt
    }

    /// Discards what is queued: the connection has ended by a reset or an abort.
    pub fn discard(&mut self)
        ensures state { self.new ≡ without_text self.old }
        ensures capacity { self.new.queue.capacity ≡ self.old.queue.capacity }
        ensures queued { length self.new.queue.bytes ≤ self.new.queue.capacity }
    {
        self.resend = None;
        let count = self.queue.len();
        self.queue.release(count);
    }
}
