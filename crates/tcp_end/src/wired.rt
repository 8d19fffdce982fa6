ghost use Rattle.std.specs.Prelude.{◌≡◌};
ghost use Rattle.tcp_timing.specs.Rules.{IsSound};
ghost use Rattle.tcp_conn.specs.Guard.{reading_of};
ghost use Rattle.tcp_end.specs.Wired.{connected, intake_of, is_last_fin, is_of_connection, listening, row_by, sent_by, waits_for_last_ack};

use std::alloc::{Allocator, Global};
use tcp_conn::{
    Brought, CallError, Endpoint, Intake, Judgement, Phase, Received, Taken, Train, Transmit,
};
use tcp_driver::{Core, Driver, Limits, Report, Row, Sent, Timer, Wants, Way};
use tcp_timing::Rules;
use tcp_wire::{Addr, RawSegment, Seq};

/// An end of a connection, as a driver sees it.
#[derive(Debug, Drop)]
pub struct Wired<A: Allocator = Global> {
    /// The end.
    pub end: Endpoint<A>,
}

/// An end with its timers.
pub type End<A> = Driver<Wired<A>>;

/// Opens a connection to this address and port (RFC 9293, 3.10.1): the SYN is due, and the timers run from now on. It is
/// refused as `Endpoint::connect` is.
pub fn connect<A: Allocator>(
    end: Endpoint<A>,
    addr: Addr,
    port: u16,
    rules: Rules,
    limits: Limits,
    now: u64,
) -> Result<End<A>, CallError>
    requires { IsSound rules }
    ensures { result ≡ connected end (record { addr = addr; port = port }) rules limits now }
{
    let mut end = end;
    match end.connect(addr, port) {
        Ok(()) => Ok(Driver::new(Wired { end }, rules, limits, now)),
        Err(error) => Err(error),
    }
}

/// Waits for a peer (RFC 9293, 3.10.1). It is refused as `Endpoint::listen` is.
pub fn listen<A: Allocator>(
    end: Endpoint<A>,
    rules: Rules,
    limits: Limits,
    now: u64,
) -> Result<End<A>, CallError>
    requires { IsSound rules }
    ensures { result ≡ listening end rules limits now }
{
    let mut end = end;
    match end.listen() {
        Ok(()) => Ok(Driver::new(Wired { end }, rules, limits, now)),
        Err(error) => Err(error),
    }
}

impl<A: Allocator> Core for Wired<A> {
    ghost use Rattle.tcp_conn.specs.Calls.{abort_answer, close_answer, receive_answer, send_answer};
    ghost use Rattle.tcp_conn.specs.Lending.{consume_answer};
    ghost use Rattle.tcp_conn.specs.TrainWithin.{train_within};
    ghost use Rattle.tcp_end.specs.Wired.{intake_of, machine, taken_of};

    type Sending = Result<usize, CallError>;

    type Receiving = Result<Received, CallError>;

    type Consuming = Result<usize, CallError>;

    type Closing = Result<(), CallError>;

    type Aborting = Result<(), CallError>;

    type Arriving = Taken;

    type Train = Train;

    ghost machine = { machine };

    ghost send_answer = { λ w text. send_answer w.end text };

    ghost receive_answer = { λ w room. receive_answer w.end room };

    ghost consume_answer = { λ w count. consume_answer w.end count };

    ghost close_answer = { λ w. close_answer w.end };

    ghost abort_answer = { λ w. abort_answer w.end };

    ghost arrival_answer = { λ w src dst bytes way. taken_of (intake_of way) w.end src dst bytes };

    ghost train_answer = { λ w window most room. train_within w.end window most room };

    fn wants(&self) -> Wants {
        // Mostly text goes both ways.
        if matches!(self.end.phase(), Phase::Established) {
            let wanted = self.end.timers_wanted();
            return Wants {
                retransmit: wanted.retransmit,
                reorder: wanted.reorder,
                time_wait: false,
                fin_wait_2: false,
            };
        }
        let wanted = self.end.timers_wanted();
        Wants {
            retransmit: wanted.retransmit,
            reorder: wanted.reorder,
            time_wait: wanted.time_wait,
            fin_wait_2: matches!(self.end.phase(), Phase::FinWait2) && self.end.unread() == 0,
        }
    }

    fn una(&self) -> u64 {
        self.end.snd_una()
    }

    fn flight(&self) -> u64 {
        self.end.snd_nxt().saturating_sub(self.end.snd_una())
    }

    fn reported(&self) -> u64 {
        self.end.marked() as u64
    }

    fn ignores_resets(&self) -> bool {
        let phase = self.end.phase();
        if !matches!(phase, Phase::Closing | Phase::LastAck | Phase::TimeWait) {
            return false;
        }
        matches!(phase, Phase::TimeWait) || waits_for_last_ack(phase) && self.end.unread() > 0
    }

    fn expire(&mut self, timer: Timer) {
        match timer {
            Timer::Retransmit => {
                let _ = self.end.timer(tcp_conn::Timer::Retransmit);
            }
            Timer::Reorder => {
                let _ = self.end.timer(tcp_conn::Timer::Reorder);
            }
            Timer::TimeWait => {
                let _ = self.end.timer(tcp_conn::Timer::TimeWait);
            }
            Timer::User => {
                let _ = self.end.abort();
            }
        }
    }

    #[inline(always)]
    fn arrive(&mut self, src: [u8; 4], dst: [u8; 4], bytes: &[u8], way: Way) -> (Report, Taken) {
        let rests = matches!(self.end.phase(), Phase::TimeWait);
        let rcv_nxt = self.end.rcv_nxt();
        let way = intake_of(way);
        let taken = self.end.take_with(Addr(src), Addr(dst), bytes, way);
        let (_, snd_wnd) = self.end.windows();
        let report = Report {
            acked: taken.acked,
            is_duplicate: taken.is_duplicate,
            at_once: taken.at_once,
            window: if taken.window_taken {
                Some(u64::from(snd_wnd))
            } else {
                None
            },
            repeats_fin: rests
                && is_of_connection(taken.rule)
                && is_last_fin(rcv_nxt, src, dst, bytes, way),
            // No jump: the driver mostly doesn't ask.
            from_peer: is_of_connection(taken.rule)
                & (!matches!(taken.brought, Brought::Nothing) | taken.window_taken),
        };
        (report, taken)
    }

    fn transmit_within(&mut self, window: u64, out: &mut [u8]) -> Option<Sent> {
        let sent = self.end.transmit_within(window, out)?;
        Some(sent_by(sent))
    }

    fn transmit_train(&mut self, window: u64, out: &mut [u8], most: usize) -> Option<(Row, Train)> {
        let train = self.end.train_within(window, out, most)?;
        Some((row_by(train), train))
    }

    fn resend_first(&mut self) -> bool {
        self.end.resend_first()
    }

    fn resend(&mut self, from: u64, to: u64) -> bool {
        self.end.resend(from, to)
    }

    fn send(&mut self, text: &[u8]) -> Result<usize, CallError> {
        self.end.send(text)
    }

    fn receive(&mut self, out: &mut [u8]) -> Result<Received, CallError> {
        self.end.receive(out)
    }

    fn consume(&mut self, count: usize) -> Result<usize, CallError> {
        self.end.consume(count)
    }

    fn acknowledge(&mut self) {
        self.end.acknowledge();
    }

    fn close(&mut self) -> Result<(), CallError> {
        self.end.close()
    }

    fn abort(&mut self) -> Result<(), CallError> {
        self.end.abort()
    }
}

/// What the driver is told of a segment.
fn sent_by(sent: Transmit) -> Sent
    ensures { result ≡ sent_by sent }
{
    let to = sent.to.0;
    Sent {
        to,
        len: sent.len,
        start: sent.position,
        count: sent.end.saturating_sub(sent.position),
    }
}

/// What the driver is told of segments as one.
fn row_by(train: Train) -> Row
    ensures { result ≡ row_by train }
{
    Row {
        start: train.whole.position,
        count: train.whole.end.saturating_sub(train.whole.position),
        each: train.each as u64,
        segments: train.segments,
    }
}

/// A way in of the driver's is one of the end's.
fn intake_of(way: Way) -> Intake
    ensures { result ≡ intake_of way }
{
    Intake {
        is_vouched: way.is_vouched,
        guard: way.guard,
    }
}

/// Whether what comes by this way has the FIN whose number is the one before RCV.NXT. Only TIME-WAIT reads a segment again.
#[cold]
fn is_last_fin(rcv_nxt: Seq, src: [u8; 4], dst: [u8; 4], bytes: &[u8], way: Intake) -> bool
    ensures { result ≡ is_last_fin rcv_nxt.0 (reading_of way src dst bytes.now) }
{
    let read = if way.is_vouched {
        RawSegment::parse_vouched(Addr(src), Addr(dst), bytes)
    } else {
        RawSegment::parse(Addr(src), Addr(dst), bytes)
    };
    match read {
        Ok(segment) => {
            let after = segment.header.seq.plus(segment.text.len() as u32).plus(1);
            segment.header.flags.is_fin() && after == rcv_nxt
        }
        Err(_) => false,
    }
}

/// Whether a segment is one of the connection, in TIME-WAIT: its numbers decide no more than its answer.
fn is_of_connection(rule: Option<Judgement>) -> bool
    ensures { result ≡ is_of_connection rule }
{
    matches!(
        rule,
        Some(Judgement::Unacceptable | Judgement::Taken | Judgement::TakenShut)
    )
}

/// Whether both ends have closed, and this end's FIN waits for its acknowledgement.
fn waits_for_last_ack(phase: Phase) -> bool
    ensures { result ≡ waits_for_last_ack phase }
{
    matches!(phase, Phase::Closing | Phase::LastAck)
}
