//! A small end: numbers without bytes, one in a segment.
ghost use Rattle.std.specs.Prelude.{◌≡◌, ◌≤◌, ◌+◌, ◌<◌, ◌^◌, IfSome, false};
ghost use Rattle.test_driver.specs.Small.{row_of, segment};

use tcp_driver::{Core, Report, Row, Sent, Timer, Wants, Way, holds};

/// The bytes of each of its segments.
const SEGMENT: usize = 14;

/// The address that all of them go to.
const PEER: [u8; 4] = [10, 0, 0, 2];

/// What is reported of bytes that say nothing.
const NOTHING: Report = Report {
    acked: 0,
    is_duplicate: false,
    at_once: false,
    window: None,
    repeats_fin: false,
    from_peer: false,
};

/// An end that sends numbers, one in a segment. What comes to it, from anywhere, is an acknowledgement, whether the peer
/// reports a gap, the peer's FIN, and its window: a byte each. Byte 13 has the bit RST, as in a segment of RFC 9293, 3.1. It
/// has no checksum and no guard.
#[derive(Clone, Copy, Debug, PartialEq, Eq)]
pub struct Small {
    /// The first number that isn't acknowledged.
    pub una: u64,
    /// The next one to send.
    pub nxt: u64,
    /// The one after all that the user gave.
    pub accepted: u64,
    /// What goes out again begins here ..
    pub again: u64,
    /// .. and ends here.
    pub until: u64,
    /// What came and wasn't read.
    pub unread: u64,
    /// Whether the peer reports a gap.
    pub has_gap: bool,
    /// Whether an acknowledgement is pending.
    pub is_owed: bool,
    /// Whether it is in TIME-WAIT.
    pub is_resting: bool,
    /// Whether the user has closed.
    pub is_closed: bool,
    /// Whether the connection is over.
    pub is_over: bool,
}

impl Small {
    ghost use Rattle.test_driver.specs.Small.{alone, awaits_fin, due, emitted};

    /// Whether all that it sent is acknowledged behind its close, all that came is read, and the peer hasn't closed.
    fn awaits_fin(&self) -> bool
        ensures { result ≡ awaits_fin self.now }
    {
        (self.is_closed && self.una == self.accepted)
            && (self.unread == 0 && (!self.is_resting && !self.is_over))
    }

    /// What is due.
    fn next(&self) -> Option<Sent>
        ensures { result ≡ due self.now }
    {
        if self.is_over {
            None
        } else if self.again < self.until {
            Some(segment(self.again, 1))
        } else if self.nxt < self.accepted {
            Some(segment(self.nxt, 1))
        } else if self.is_owed {
            Some(segment(self.nxt, 0))
        } else {
            None
        }
    }

    /// What is due goes out.
    fn transmit(&mut self) -> Option<Sent>
        ensures sent { result ≡ due self.old }
        ensures state { self.new ≡ emitted self.old }
        ensures most { IfSome result (λ sent. sent.len ≤ 14) }
        ensures fits { IfSome result (λ sent. sent.start + sent.count < 2 ^ 64) }
    {
        let due = self.next();
        if self.is_over {
            return due;
        }
        if self.again < self.until {
            self.again += 1;
        } else if self.nxt < self.accepted {
            self.nxt += 1;
        }
        self.is_owed = false;
        due
    }

    /// The acknowledgement goes out alone, if one is pending.
    fn emit_acknowledgement(&mut self) -> Option<Sent>
        ensures sent { result ≡ alone self.old }
        ensures state { self.new ≡ record self.old { is_owed = false } }
        ensures most { IfSome result (λ sent. sent.len ≤ 14) }
        ensures fits { IfSome result (λ sent. sent.start + sent.count < 2 ^ 64) }
    {
        let is_due = self.is_owed && !self.is_over;
        self.is_owed = false;
        if is_due {
            Some(segment(self.nxt, 0))
        } else {
            None
        }
    }
}

/// What the driver is told of a segment that goes alone.
fn row_of(sent: Sent) -> Row
    ensures { result ≡ row_of sent }
{
    Row {
        start: sent.start,
        count: sent.count,
        each: sent.count,
        segments: 1,
    }
}

impl Core for Small {
    ghost use Rattle.test_driver.specs.Small.{goes_out, is_open, machine, takes_text};

    type Sending = bool;

    type Receiving = u64;

    type Consuming = u64;

    type Closing = bool;

    type Aborting = bool;

    type Arriving = bool;

    type Train = Sent;

    ghost machine = { machine };

    ghost send_answer = { λ s text. takes_text s };

    ghost receive_answer = { λ s room. s.unread };

    ghost consume_answer = { λ s count. s.unread };

    ghost close_answer = { λ s. takes_text s };

    ghost abort_answer = { λ s. is_open s };

    ghost arrival_answer = { λ s src dst bytes way. is_open s };

    ghost train_answer = { λ s window most room. goes_out s window };

    fn wants(&self) -> Wants {
        Wants {
            retransmit: self.una < self.nxt && !self.is_over,
            reorder: self.has_gap && !self.is_over,
            time_wait: self.is_resting && !self.is_over,
            fin_wait_2: self.awaits_fin(),
        }
    }

    fn una(&self) -> u64 {
        self.una
    }

    fn flight(&self) -> u64 {
        self.nxt.saturating_sub(self.una)
    }

    fn reported(&self) -> u64 {
        u64::from(self.has_gap)
    }

    fn ignores_resets(&self) -> bool {
        self.is_resting
    }

    fn expire(&mut self, timer: Timer) {
        match timer {
            Timer::Retransmit => {
                self.again = self.una;
                self.until = self.nxt;
                self.has_gap = false;
            }
            Timer::Reorder => {
                self.again = self.una;
                self.until = self.una.saturating_add(1);
            }
            Timer::TimeWait | Timer::User => self.is_over = true,
        }
    }

    fn arrive(&mut self, _src: [u8; 4], _dst: [u8; 4], bytes: &[u8], _way: Way) -> (Report, bool) {
        let [ack, gap, fin, window, ..] = bytes else {
            return (NOTHING, !self.is_over);
        };
        let before = self.una;
        let rested = self.is_resting;
        self.una = before.max(self.nxt.min(u64::from(*ack)));
        self.again = self.again.max(self.una);
        self.has_gap = *gap == 1;
        if *fin == 1 {
            self.is_owed = true;
            self.unread = 1;
            self.is_resting = self.is_resting || self.una == self.nxt;
        }
        let report = Report {
            acked: self.una.saturating_sub(before),
            is_duplicate: u64::from(*ack) == before,
            at_once: *fin == 1,
            window: Some(u64::from(*window)),
            repeats_fin: rested && *fin == 1,
            from_peer: *fin == 1 || *window > 0,
        };
        (report, !self.is_over)
    }

    fn transmit_within(&mut self, window: u64, _out: &mut [u8]) -> Option<Sent> {
        let answers = self.is_owed && !self.is_over;
        if holds(self.next(), self.una, self.flight(), answers, window) {
            self.emit_acknowledgement()
        } else {
            self.transmit()
        }
    }

    /// It has no device that cuts: each goes alone.
    #[tactic(auto, unfolding(tcp_driver::specs::Rows::AreInTurn, tcp_driver::specs::Rows::core_after_many))]
    fn transmit_train(&mut self, window: u64, out: &mut [u8], _most: usize) -> Option<(Row, Sent)> {
        let sent = self.transmit_within(window, out)?;
        Some((row_of(sent), sent))
    }

    fn resend_first(&mut self) -> bool {
        let can = self.una < self.nxt && !self.is_over;
        if can {
            self.again = self.una;
            self.until = self.una + 1;
        }
        can
    }

    fn resend(&mut self, from: u64, to: u64) -> bool {
        let (first, end) = (self.una.max(from), self.nxt.min(to));
        let can = first < end && !self.is_over;
        if can {
            self.again = first;
            self.until = end;
        }
        can
    }

    fn send(&mut self, text: &[u8]) -> bool {
        let can = !self.is_closed && !self.is_over;
        if can {
            self.accepted = self.accepted.saturating_add(text.len() as u64);
        }
        can
    }

    fn receive(&mut self, _out: &mut [u8]) -> u64 {
        let unread = self.unread;
        self.unread = 0;
        unread
    }

    fn consume(&mut self, _count: usize) -> u64 {
        let unread = self.unread;
        self.unread = 0;
        unread
    }

    fn acknowledge(&mut self) {
        self.is_owed = true;
    }

    fn close(&mut self) -> bool {
        let can = !self.is_closed && !self.is_over;
        if can {
            self.accepted = self.accepted.saturating_add(1);
            self.is_closed = true;
        }
        can
    }

    fn abort(&mut self) -> bool {
        let can = !self.is_over;
        self.is_over = true;
        can
    }
}

/// A segment with so many numbers.
fn segment(start: u64, count: u64) -> Sent
    ensures { result ≡ segment start count }
{
    Sent {
        to: PEER,
        len: SEGMENT,
        start,
        count,
    }
}
