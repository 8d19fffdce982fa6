//! Segments that go out as one, for a device that cuts and sums them.
ghost use Rattle.std.specs.Prelude.{◌≡◌, ◌≤◌, IsNone, false, is_some, length, option_map, true};

use crate::connection::Connection;
use crate::deferring::Deferring;
use crate::going::{kind_in, sent_in};
use tcp_congestion::Congestion;

impl<C: Deferring + Drop, W: Congestion + Drop> Connection<C, W> {
    ghost use Rattle.tcp_connection.specs.Deadlines.{RestsAfter, TextRestsAfter};
    ghost use Rattle.tcp_connection.specs.Policy.{holds_any};
    ghost use Rattle.tcp_connection.specs.Trains.{after_train, after_train_going, flow_train, most_of, train_after, train_by_emit, train_count, train_going, train_written, train_written_going, written_by_train};

    /// Writes as one, for a device that cuts and sums them, the segments that may go out, as [`emit`](Self::emit) has it, at
    /// most `most`. Of new text that waits for a segment that is worth it they are full ones, or a single one: what is left
    /// goes or waits by itself. Without the Nagle algorithm it goes with them where the window has room for all that is queued.
    pub fn emit_train(
        &mut self,
        now: u64,
        window: u64,
        out: &mut [u8],
        most: usize,
    ) -> Option<C::Train>
        requires { C.machine.room ≤ length out.old }
        ensures train { result ≡ train_by_emit C.machine C.insight C.train_answer W.control self.old now window most (length out.old) }
        ensures written { out.new ≡ written_by_train C.machine C.insight W.control self.old now window most out.old }
        ensures state { self.new ≡ after_train C.machine C.insight W.control self.old now window most (length out.old) }
        ensures rests { IsNone result → RestsAfter C.machine self.new now }
    {
        if !self.is_deferring {
            let (train, _) = self.emit_as_one(now, window, out, most);
            return train;
        }
        self.emit_train_deferring(now, window, out, most)
    }

    /// The same, where something may wait.
    #[inline(never)]
    fn emit_train_deferring(
        &mut self,
        now: u64,
        window: u64,
        out: &mut [u8],
        most: usize,
    ) -> Option<C::Train>
        requires any { holds_any self.old.policy ≡ true }
        requires room { C.machine.room ≤ length out.old }
        ensures train { result ≡ train_by_emit C.machine C.insight C.train_answer W.control self.old now window most (length out.old) }
        ensures written { out.new ≡ written_by_train C.machine C.insight W.control self.old now window most out.old }
        ensures state { self.new ≡ after_train C.machine C.insight W.control self.old now window most (length out.old) }
        ensures rests { IsNone result → RestsAfter C.machine self.new now }
    {
        let most = self.most_of(window, most);
        if self.hold_back(now, window) {
            return None;
        }
        self.go_as_one(now, window, out, most)
    }

    /// How many may go out as one.
    fn most_of(&self, window: u64, most: usize) -> usize
        ensures { result ≡ most_of C.machine C.insight W.control self.now window most }
    {
        let next = self.flow.driver().core().next();
        let past = self.is_past(sent_in(next), window);
        if !self.is_asked(kind_in(next), past) {
            return most;
        }
        let core = self.flow.driver().core();
        let queued = core.unsent();
        let usable = core.snd_wnd().saturating_sub(core.flight());
        if !self.policy.is_nagle && queued <= usable {
            return most;
        }
        let full = queued.min(usable) / self.smss;
        most.min(full.max(1) as usize)
    }

    /// What doesn't wait goes out as one.
    fn go_as_one(&mut self, now: u64, window: u64, out: &mut [u8], most: usize) -> Option<C::Train>
        requires room { C.machine.room ≤ length out.old }
        requires text { TextRestsAfter self.old now }
        ensures train { result ≡ train_going C.machine C.train_answer W.control self.old now window most (length out.old) }
        ensures written { out.new ≡ train_written_going C.machine W.control self.old now window most out.old }
        ensures state { self.new ≡ after_train_going C.machine C.insight W.control self.old now window most (length out.old) }
        ensures rests { IsNone result → RestsAfter C.machine self.new now }
    {
        let answers = self.may_answer();
        let (train, count) = self.emit_as_one(now, window, out, most);
        if self.discards(answers, count, now) {
            if let Some(train) = train {
                C::discard(train);
            }
            let (train, count) = self.emit_as_one(now, window, out, most);
            self.note(count.is_some(), now);
            return train;
        }
        self.note(count.is_some(), now);
        train
    }

    /// The flow emits as one, at most so many: its answer, and how many numbers they take.
    #[tactic(auto, unfolding(crate::specs::Trains::flow_train, crate::specs::Trains::train_written, crate::specs::Trains::train_after, crate::specs::Trains::train_count))]
    fn emit_as_one(
        &mut self,
        now: u64,
        window: u64,
        out: &mut [u8],
        most: usize,
    ) -> (Option<C::Train>, Option<u64>)
        requires { C.machine.room ≤ length out.old }
        ensures train { result.0 ≡ flow_train C.machine C.train_answer W.control self.old.flowing now window most (length out.old) }
        ensures count { result.1 ≡ train_count C.machine W.control self.old.flowing now window most (length out.old) }
        ensures none { IsNone result.0 → is_some result.1 ≡ false }
        ensures written { out.new ≡ train_written C.machine W.control self.old.flowing now window most out.old }
        ensures state { self.new ≡ record self.old { flowing = train_after C.machine W.control self.old.flowing now window most (length out.old) } }
    {
        let train = self.flow.emit_train(now, window, out, most);
        let count = count_of::<C>(&train);
        (train, count)
    }
}

/// How many numbers segments take that have gone out as one.
fn count_of<C: Deferring>(train: &Option<C::Train>) -> Option<u64>
    ensures value { result ≡ option_map C.numbers_of train.now }
    ensures none { IsNone train.now → is_some result ≡ false }
{
    match train {
        Some(train) => Some(C::numbers(train)),
        None => None,
    }
}
