ghost use Rattle.std.specs.Prelude.{◌≡◌, ◌<◌, ◌≤◌, ◌↔◌, ◌||◌, length, OnOk, OnErr, IfOk, IfErr, IfSome, IfNone, IsOk};
ghost use Rattle.tcp_wire.specs.Checksum.{AreBytes};
ghost use Rattle.tcp_halves.specs.Config.{HasBadCapacity, HasBadMss, HasBadShift, HasBadLimit, IsGoodConfig, IsConfig};
ghost use Rattle.tcp_conn.specs.Calls.{opening_answer, send_answer, receive_answer, close_answer, abort_answer};
ghost use Rattle.tcp_conn.specs.Timers.{resends_between, sends_again, timer_answer};
ghost use Rattle.tcp_conn.specs.Arrival.{arrival_answer};
ghost use Rattle.tcp_reasm.specs.Reassembly.{greatest_runs};
ghost use Rattle.tcp_replay.specs.Emissions.{due_for};
ghost use Rattle.tcp_replay.specs.World.{PartyState, party_with_runs, address_of, party_after_connect, party_after_listen, party_after_send, is_end_of_stream, party_after_receive, party_after_close, party_after_abort, party_after_acknowledge, party_after_timer, party_after_resend_first, party_after_resend, party_out, outcome_out, party_after_arrival, arrival_outcome, sent_at, segment_at, bytes_with_damage, delivery_refusal, damage_refusal};

use crate::growth::{emit_for, receive_to, send_from};
use crate::outcome::{Outcome, StepError};
use crate::segment::{SentSegment, seq_in};
use std::alloc::{AllocError, Allocator, Global};
use std::marker::Model;
use tcp_conn::{Arrival, CallError, Config, ConfigError, Endpoint, Received, Timer};

/// One end, with what its user did and got, and every segment that it emitted.
#[derive(Debug, Drop)]
pub(crate) struct Party<A: Allocator = Global> {
    pub(crate) endpoint: Endpoint<A>,
    /// The segments that were emitted, in order. Nothing is removed from the list.
    pub(crate) sent: Vec<SentSegment<A>, A>,
    /// The bytes that `send` accepted.
    pub(crate) accepted: Vec<u8, A>,
    /// The bytes that `receive` delivered.
    pub(crate) delivered: Vec<u8, A>,
    /// Whether a `close` was accepted.
    pub(crate) closed: bool,
    /// Whether the end of the stream was delivered.
    pub(crate) ended: bool,
}

impl<A: Allocator> Model for Party<A> {
    ghost use Rattle.tcp_replay.specs.World.{PartyState};

    ghost Value = { PartyState };

    ghost view = { λ p. record { endpoint = p.endpoint; sent = p.sent.items; accepted = p.accepted.items; delivered = p.delivered.items; closed = p.closed; ended = p.ended } };
}

/// Whether the end of the stream was delivered, by this answer of a `receive` or before it.
pub(crate) fn ended_by(ended: bool, answer: Result<Received, CallError>) -> bool
    ensures { result ≡ (ended || is_end_of_stream answer) }
{
    ended || matches!(answer, Ok(Received::EndOfStream))
}

impl<A: Allocator + Copy> Party<A> {
    /// A new end before any call, with this number of runs.
    pub(crate) fn new_in(alloc: A, config: Config, runs: usize) -> Result<Self, ConfigError>
        requires least { 1 ≤ runs }
        requires most { runs ≤ greatest_runs }
        ensures new { IfOk result (λ p. p ≡ party_with_runs config runs) }
        ensures bad_capacity { (result ≡ Err ConfigError.BadCapacity) ↔ HasBadCapacity config }
        ensures bad_mss { (result ≡ Err ConfigError.BadMss) ↔ HasBadMss config }
        ensures bad_shift { (result ≡ Err ConfigError.BadShift) ↔ HasBadShift config }
        ensures bad_limit { (result ≡ Err ConfigError.BadLimit) ↔ HasBadLimit config }
        ensures good { (result ≡ Err ConfigError.NoMemory) → IsGoodConfig config }
        ensures made { OnOk result (IsConfig config) }
    {
        let endpoint = Endpoint::with_runs_in(alloc, config, runs)?;
        Ok(Party {
            endpoint,
            sent: Vec::new(alloc),
            accepted: Vec::new(alloc),
            delivered: Vec::new(alloc),
            closed: false,
            ended: false,
        })
    }

    /// The user waits for a peer.
    #[tactic(auto, unfolding(crate::specs::World::party_after_listen))]
    pub(crate) fn listen(&mut self) -> Outcome
        ensures state { self.new ≡ party_after_listen self.old }
        ensures outcome { result ≡ Outcome.Call (opening_answer self.old.endpoint) }
    {
        Outcome::Call(self.endpoint.listen())
    }

    /// The user sends. Memory for all of the text is allocated first.
    #[tactic(auto, unfolding(crate::specs::World::party_after_send))]
    pub(crate) fn send(&mut self, text: &[u8]) -> Result<Outcome, StepError>
        ensures state { OnOk result (self.new ≡ party_after_send self.old text.now) }
        ensures outcome { IfOk result (λ o. o ≡ Outcome.Sent (send_answer self.old.endpoint text.now)) }
        ensures bytes { AreBytes text.now }
        ensures err { OnErr result (self.new ≡ self.old) }
        ensures memory { IfErr result (λ e. e ≡ StepError.NoMemory) }
    {
        let answer = send_from(&mut self.endpoint, text, &mut self.accepted)?;
        Ok(Outcome::Sent(answer))
    }

    /// The user receives at most `room` bytes. Memory for the unread bytes is allocated first.
    #[tactic(auto, unfolding(crate::specs::World::party_after_receive))]
    pub(crate) fn receive(&mut self, room: usize) -> Result<Outcome, StepError>
        ensures state { OnOk result (self.new ≡ party_after_receive self.old room) }
        ensures outcome { IfOk result (λ o. o ≡ Outcome.Got (receive_answer self.old.endpoint room)) }
        ensures err { OnErr result (self.new ≡ self.old) }
        ensures memory { IfErr result (λ e. e ≡ StepError.NoMemory) }
    {
        let answer = receive_to(&mut self.endpoint, room, &mut self.delivered)?;
        self.ended = ended_by(self.ended, answer);
        Ok(Outcome::Got(answer))
    }

    /// The user has no more to send.
    #[tactic(auto, unfolding(crate::specs::World::party_after_close))]
    pub(crate) fn close(&mut self) -> Outcome
        ensures state { self.new ≡ party_after_close self.old }
        ensures outcome { result ≡ Outcome.Call (close_answer self.old.endpoint) }
    {
        let answer = self.endpoint.close();
        self.closed = self.closed || answer.is_ok();
        Outcome::Call(answer)
    }

    /// The user aborts the connection.
    #[tactic(auto, unfolding(crate::specs::World::party_after_abort))]
    pub(crate) fn abort(&mut self) -> Outcome
        ensures state { self.new ≡ party_after_abort self.old }
        ensures outcome { result ≡ Outcome.Call (abort_answer self.old.endpoint) }
    {
        Outcome::Call(self.endpoint.abort())
    }

    /// The user makes an acknowledgement pending.
    #[tactic(auto, unfolding(crate::specs::World::party_after_acknowledge))]
    pub(crate) fn acknowledge(&mut self) -> Outcome
        ensures state { self.new ≡ party_after_acknowledge self.old }
        ensures outcome { result ≡ Outcome.Call (Ok tt) }
    {
        self.endpoint.acknowledge();
        Outcome::Call(Ok(()))
    }

    /// A timer expires.
    #[tactic(auto, unfolding(crate::specs::World::party_after_timer))]
    pub(crate) fn timer(&mut self, timer: Timer) -> Outcome
        ensures state { self.new ≡ party_after_timer self.old timer }
        ensures outcome { result ≡ Outcome.Timer (timer_answer self.old.endpoint timer) }
    {
        Outcome::Timer(self.endpoint.timer(timer))
    }

    /// Of what is in flight the first segment alone is to go out again.
    #[tactic(auto, unfolding(crate::specs::World::party_after_resend_first))]
    pub(crate) fn resend_first(&mut self) -> Outcome
        ensures state { self.new ≡ party_after_resend_first self.old }
        ensures outcome { result ≡ Outcome.Timer (sends_again self.old.endpoint) }
    {
        Outcome::Timer(self.endpoint.resend_first())
    }

    /// Of what is in flight what lies between two positions is to go out again.
    #[tactic(auto, unfolding(crate::specs::World::party_after_resend))]
    pub(crate) fn resend(&mut self, from: u64, to: u64) -> Outcome
        ensures state { self.new ≡ party_after_resend self.old from to }
        ensures outcome { result ≡ Outcome.Timer (resends_between self.old.endpoint from to) }
    {
        Outcome::Timer(self.endpoint.resend(from, to))
    }

    /// The end emits what is due, or the acknowledgement alone. Memory for its bytes, and for them alone, is allocated
    /// first.
    pub(crate) fn emit(&mut self, alloc: A, alone: bool) -> Result<Outcome, StepError>
        ensures state { OnOk result (self.new ≡ party_out self.old (due_for alone self.old.endpoint)) }
        ensures outcome { IfOk result (λ o. o ≡ outcome_out self.old (due_for alone self.old.endpoint)) }
        ensures err { OnErr result (self.new ≡ self.old) }
        ensures memory { IfErr result (λ e. e ≡ StepError.NoMemory) }
    {
        let initial = self.endpoint.config().isn;
        let snd_una = self.endpoint.snd_una();
        let wanted = self.endpoint.rcv_position();
        let Some((_, bytes)) = emit_for(alloc, &mut self.endpoint, alone, &mut self.sent)? else {
            return Ok(Outcome::Emitted(None));
        };
        let position = seq_in(&bytes).position(initial, snd_una);
        let number = self.sent.len();
        self.sent.push_reserved(SentSegment {
            bytes,
            position,
            wanted,
        });
        Ok(Outcome::Emitted(Some(number)))
    }

    /// Segment `k` of those that it emitted.
    fn segment(&self, k: usize) -> &SentSegment<A>
        requires { k < length self.now.sent }
        ensures { result.now ≡ sent_at self.now k }
    {
        &self.sent[k]
    }

    /// Bytes arrive from the other party, with the true addresses.
    #[tactic(auto, unfolding(crate::specs::World::party_after_arrival))]
    fn take_in(&mut self, from: &Party<A>, bytes: &[u8]) -> Arrival
        ensures state { self.new ≡ party_after_arrival self.old from.now bytes.now }
        ensures answer { result ≡ arrival_answer self.old.endpoint from.now.endpoint.config.addr.0 self.old.endpoint.config.addr.0 bytes.now }
    {
        let src = from.endpoint.config().addr;
        let dst = self.endpoint.config().addr;
        self.endpoint.arrive(src, dst, bytes)
    }
}

/// The user of `party` opens a connection to the address and port of `peer`.
#[tactic(auto, unfolding(crate::specs::World::party_after_connect))]
pub(crate) fn connect<A: Allocator + Copy>(party: &mut Party<A>, peer: &Party<A>) -> Outcome
    ensures state { party.new ≡ party_after_connect party.old (address_of peer.now) }
    ensures outcome { result ≡ Outcome.Call (opening_answer party.old.endpoint) }
{
    let config = peer.endpoint.config();
    Outcome::Call(party.endpoint.connect(config.addr, config.port))
}

/// Segment `k` of `from` arrives at `to`, unchanged, unless its lifetime is over. No byte of it is copied.
pub(crate) fn deliver<A: Allocator + Copy>(
    life: u32,
    from: &Party<A>,
    k: usize,
    to: &mut Party<A>,
) -> Result<Outcome, StepError>
    ensures state { OnOk result (to.new ≡ party_after_arrival to.old from.now (segment_at from.now k)) }
    ensures outcome { IfOk result (λ o. o ≡ arrival_outcome to.old from.now (segment_at from.now k)) }
    ensures refused { IfSome (delivery_refusal life from.now to.old k) (λ e. result ≡ Err e) }
    ensures taken { IfNone (delivery_refusal life from.now to.old k) (IsOk result) }
    ensures err { OnErr result (to.new ≡ to.old) }
{
    if k >= from.sent.len() {
        return Err(StepError::NoSuchSegment);
    }
    let segment = from.segment(k);
    if segment.is_expired(life, &to.endpoint) {
        return Err(StepError::Expired);
    }
    Ok(Outcome::Arrived(to.take_in(from, &segment.bytes)))
}

/// A copy of these bytes with the one at an offset changed by exclusive or with a value.
fn damaged<A: Allocator>(
    alloc: A,
    bytes: &[u8],
    place: usize,
    value: u8,
) -> Result<Vec<u8, A>, AllocError>
    requires { place < length bytes.now }
    ensures { IfOk result (λ copy. copy.items ≡ bytes_with_damage bytes.now place value) }
{
    let mut copy = Vec::from_slice(alloc, bytes)?;
    copy[place] ^= value;
    Ok(copy)
}

/// Segment `k` of `from` arrives at `to` with the byte at an offset changed by exclusive or with a value, unless its
/// lifetime is over. Memory for the changed bytes is allocated first.
pub(crate) fn damage<A: Allocator + Copy>(
    alloc: A,
    life: u32,
    from: &Party<A>,
    k: usize,
    place: usize,
    value: u8,
    to: &mut Party<A>,
) -> Result<Outcome, StepError>
    ensures state { OnOk result (to.new ≡ party_after_arrival to.old from.now (bytes_with_damage (segment_at from.now k) place value)) }
    ensures outcome { IfOk result (λ o. o ≡ arrival_outcome to.old from.now (bytes_with_damage (segment_at from.now k) place value)) }
    ensures refused { IfSome (damage_refusal life from.now to.old k place value) (λ e. result ≡ Err e) }
    ensures memory { IfNone (damage_refusal life from.now to.old k place value) (IfErr result (λ e. e ≡ StepError.NoMemory)) }
    ensures err { OnErr result (to.new ≡ to.old) }
{
    if k >= from.sent.len() {
        return Err(StepError::NoSuchSegment);
    }
    if value == 0 {
        return Err(StepError::NoChange);
    }
    let segment = from.segment(k);
    if place >= segment.bytes.len() {
        return Err(StepError::PlaceOutside);
    }
    if segment.is_expired(life, &to.endpoint) {
        return Err(StepError::Expired);
    }
    let bytes = damaged(alloc, &segment.bytes, place, value)?;
    Ok(Outcome::Arrived(to.take_in(from, &bytes)))
}
