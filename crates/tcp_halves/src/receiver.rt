ghost use Rattle.std.specs.Prelude.{◌≡◌, ◌↔◌, ◌⊎◌, ◌+◌, ◌^◌, ◌<◌, ◌≤◌, ◌≤ℤ◌, ◌<ℤ◌, pos, negsuc, length, take, drop, min, ◌++◌, IfOk};
ghost use Rattle.tcp_reasm.specs.Reassembly.{greatest_runs, max_capacity, place_answer, window};
ghost use Rattle.tcp_halves.specs.Receiver.{Receiving};
ghost use Rattle.tcp_wire.specs.Position.{offset};
ghost use Rattle.tcp_wire.specs.Wire.{max_text_len};
ghost use Rattle.tcp_halves.specs.Receiver.{receiving_with_runs, with_syn, after_text, is_fin_due, with_fin, after_delivering, without_bytes};

use crate::config::Config;
use arrayvec::ArrayVec;
use std::alloc::{Allocator, Global};
use std::marker::Model;
use tcp_reasm::{Placed, ReasmError, Reassembly};
use tcp_wire::Seq;

/// The half of an end that receives (RFC 9293, 3.3.1). Its fields are public to read; its methods keep its invariant.
#[derive(Debug, Drop)]
pub struct Receiver<A: Allocator = Global> {
    /// Whether the peer's SYN was taken.
    pub opened: bool,
    /// RCV.NXT, once the peer's SYN was taken.
    pub rcv_nxt: Seq,
    /// The text bytes that came in order; the count stays at its maximum once it has reached it.
    pub ordered: u64,
    /// Whether the peer's FIN was taken.
    pub finished: bool,
    /// What came, in order and out of order.
    pub inbox: Reassembly<A>,
}

impl<A: Allocator> Model for Receiver<A> {
    ghost use Rattle.std.specs.Prelude.{◌≡◌, ◌+◌, ◌^◌, ◌<◌, length};
    ghost use Rattle.tcp_halves.specs.Receiver.{Receiving};

    ghost Value = { Receiving };

    ghost view = { λ r. record { opened = r.opened; rcv_nxt = r.rcv_nxt.0; ordered = r.ordered; finished = r.finished; inbox = r.inbox } };

    ghost invariant = { λ r. (r.rcv_nxt.0 < 2 ^ 32) × (r.ordered < 2 ^ 64) × (length r.inbox.unread + length r.inbox.held ≡ r.inbox.capacity) };
}

impl<A: Allocator> Receiver<A> {
    /// A receiver before the peer's SYN that keeps at most `runs` runs out of order; its buffer has memory of `bytes`, its
    /// table of runs of `table`. An error where the capacity is out of range, or there is no memory.
    pub fn with_runs_of(
        bytes: A,
        table: A,
        config: &Config,
        runs: usize,
    ) -> Result<Self, ReasmError>
        requires least { 1 ≤ runs }
        requires most { runs ≤ greatest_runs }
        ensures ok { IfOk result (λ r. r ≡ receiving_with_runs config.now.recv_capacity runs) }
        ensures bad_capacity { (result ≡ Err ReasmError.BadCapacity) ↔ ((config.now.recv_capacity < 1) ⊎ (max_capacity < config.now.recv_capacity)) }
        ensures whole { IfOk result (λ r. length r.inbox.unread + length r.inbox.held ≡ r.inbox.capacity) }
    {
        let inbox = Reassembly::with_runs_of(bytes, table, config.recv_capacity, runs)?;
        Ok(Receiver {
            opened: false,
            rcv_nxt: Seq(0),
            ordered: 0,
            finished: false,
            inbox,
        })
    }
}

impl<A: Allocator> Receiver<A> {
    /// RCV.WND in bytes.
    pub(crate) fn window(&self) -> u32
        ensures value { result ≡ window self.now.inbox }
        ensures most { result ≤ max_capacity }
    {
        self.inbox.window()
    }

    /// Takes the peer's SYN (RFC 9293, 3.10.7.2 and 3.10.7.3).
    pub fn take_syn(&mut self, seq: Seq)
        ensures state { self.new ≡ with_syn self.old seq.0 }
        ensures capacity { self.new.inbox.capacity ≡ self.old.inbox.capacity }
        ensures whole { length self.new.inbox.unread + length self.new.inbox.held ≡ self.new.inbox.capacity }
    {
        self.opened = true;
        self.rcv_nxt = seq.plus(1);
    }

    /// How far ahead of RCV.NXT a number is; negative where it is before it.
    #[tactic(auto, using(tcp_wire::proofs::Lemmas::offset_ahead, tcp_wire::proofs::Lemmas::offset_behind))]
    fn offset_of(&self, seq: Seq) -> i64
        ensures value { result ≡ offset self.now.rcv_nxt seq.0 }
        ensures least { negsuc 2147483647 ≤ℤ result }
        ensures most { result <ℤ pos 2147483648 }
    {
        let ahead = i64::from(seq.minus(self.rcv_nxt));
        if ahead < 1 << 31 {
            ahead
        } else {
            ahead - (1 << 32)
        }
    }

    /// Takes the text that begins at this number, and reports what became of it (RFC 9293, 3.10.7.4, seventh).
    #[tactic(auto, using(crate::proofs::Placing::length_placed, crate::proofs::Placing::capacity_placed), unfolding(crate::specs::Receiver::after_text))]
    pub fn place(&mut self, seq: Seq, text: &[u8]) -> Placed
        requires { length text.now ≤ max_text_len }
        ensures answer { result ≡ place_answer self.old.inbox (offset self.old.rcv_nxt seq.0) text.now }
        ensures state { self.new ≡ after_text self.old seq.0 text.now }
        ensures capacity { self.new.inbox.capacity ≡ self.old.inbox.capacity }
        ensures whole { length self.new.inbox.unread + length self.new.inbox.held ≡ self.new.inbox.capacity }
    {
        let offset = self.offset_of(seq);
        let placed = self.inbox.place(offset, text);
        let count = match placed {
            Placed::Advanced(count) => count as u32,
            Placed::Held | Placed::NotKept => 0,
        };
        self.rcv_nxt = self.rcv_nxt.plus(count);
        self.ordered = self.ordered.saturating_add(u64::from(count));
        placed
    }

    /// Whether a FIN with this number is the next in order, and the window is open (RFC 9293, 3.10.7.4, eighth).
    pub fn is_fin_due(&self, number: Seq) -> bool
        ensures { result ≡ is_fin_due self.now number.0 }
    {
        number == self.rcv_nxt && self.window() > 0
    }

    /// Takes the peer's FIN, and discards what is kept out of order (RFC 9293, 3.10.7.4, eighth).
    #[tactic(auto, using(crate::proofs::Placing::whole_without_held))]
    pub fn take_fin(&mut self)
        ensures state { self.new ≡ with_fin self.old }
        ensures capacity { self.new.inbox.capacity ≡ self.old.inbox.capacity }
        ensures whole { length self.new.inbox.unread + length self.new.inbox.held ≡ self.new.inbox.capacity }
    {
        self.rcv_nxt = self.rcv_nxt.plus(1);
        self.finished = true;
        self.inbox.clear_held();
    }

    /// Copies the longest prefix of the unread bytes that fits `out` to its start, and returns its length (RFC 9293,
    /// 3.10.3).
    #[tactic(auto, using(crate::proofs::Placing::whole_read, crate::proofs::Placing::capacity_read))]
    pub fn read(&mut self, out: &mut [u8]) -> usize
        ensures count { result ≡ min (length out.old) (length self.old.inbox.unread) }
        ensures bytes { out.new ≡ take result self.old.inbox.unread ++ drop result out.old }
        ensures state { self.new ≡ after_delivering self.old (length out.old) }
        ensures capacity { self.new.inbox.capacity ≡ self.old.inbox.capacity }
        ensures whole { length self.new.inbox.unread + length self.new.inbox.held ≡ self.new.inbox.capacity }
    {
        self.inbox.read(out)
    }

    /// Discards what is unread or kept out of order: the connection has ended by a reset or an abort.
    #[tactic(auto, using(crate::proofs::Placing::whole_empty))]
    pub fn discard(&mut self)
        ensures state { self.new ≡ without_bytes self.old }
        ensures capacity { self.new.inbox.capacity ≡ self.old.inbox.capacity }
        ensures whole { length self.new.inbox.unread + length self.new.inbox.held ≡ self.new.inbox.capacity }
    {
        self.inbox.clear();
    }
}
