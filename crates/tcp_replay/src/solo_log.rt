ghost use Rattle.std.specs.Prelude.{false, ◌≡◌, ◌<◌, ◌≤◌, ◌++◌, ◌||◌, ◌∷◌, [], ◌↔◌, length, map, option_to_list, option_map, Ok, Err, IfOk, IfErr, OnOk, OnErr};
ghost use Rattle.tcp_wire.specs.Checksum.{AreBytes};
ghost use Rattle.tcp_conn.specs.Arrival.{after_arrival, arrival_answer};
ghost use Rattle.tcp_halves.specs.Config.{HasBadCapacity, HasBadMss, HasBadShift, HasBadLimit, IsGoodConfig, IsConfig};
ghost use Rattle.tcp_conn.specs.Calls.{receive_answer, received_bytes, after_receive};
ghost use Rattle.tcp_conn.specs.Emission.{after_due};
ghost use Rattle.tcp_conn.specs.NewEnd.{end_with_runs};
ghost use Rattle.tcp_reasm.specs.Reassembly.{greatest_runs};
ghost use Rattle.tcp_replay.specs.OneEnd.{SendsItsUsers, DeliversWhatCame, DeliversWhatCameWith, AcknowledgesInOrder, AcknowledgesInOrderWith};
ghost use Rattle.tcp_replay.specs.Emissions.{due_for, segment_as};
ghost use Rattle.tcp_replay.specs.Solo.{end_after, bytes_taken, bytes_put_out, delivers_end, segment_emitted, solo_outcome, alone_with_runs, run_alone, segments, IsLogOf, IsWantOfMemory};
ghost use Rattle.tcp_replay.specs.SoloEvents.{solo_content, HasRanges};
ghost use Rattle.tcp_replay.specs.World.{is_end_of_stream};

use crate::growth::{emit_for, receive_to, send_from};
use crate::outcome::{Outcome, SoloError, StepError};
use crate::party::ended_by;
use crate::solo_event::SoloEvent;
use std::alloc::{Allocator, Global};
use tcp_conn::{Config, ConfigError, Endpoint};
use tcp_reasm::DEFAULT_RUNS;
use tcp_wire::Addr;

/// The outcomes of all events of one end.
#[derive(Debug, Drop)]
pub struct SoloLog<A: Allocator = Global> {
    /// The bytes that `send` accepted.
    pub accepted: Vec<u8, A>,
    /// The bytes that `receive` delivered.
    pub delivered: Vec<u8, A>,
    /// Each segment that the end emitted, in order: the address that it goes to, and its bytes.
    pub emitted: Vec<(Addr, Vec<u8, A>), A>,
    /// The outcome of each event, in order. An emission gives the segment's number in `emitted`.
    pub outcomes: Vec<Outcome, A>,
    /// Whether the end of the stream was delivered.
    pub ended: bool,
    /// The end after all events.
    pub endpoint: Endpoint<A>,
}

/// Bytes arrive, whoever sent them.
fn arrive<A: Allocator>(endpoint: &mut Endpoint<A>, src: Addr, dst: Addr, bytes: &[u8]) -> Outcome
    ensures state { endpoint.new ≡ after_arrival endpoint.old src.0 dst.0 bytes.now }
    ensures outcome { result ≡ Outcome.Arrived (arrival_answer endpoint.old src.0 dst.0 bytes.now) }
    ensures bytes { AreBytes bytes.now }
{
    Outcome::Arrived(endpoint.arrive(src, dst, bytes))
}

impl<A: Allocator + Copy> SoloLog<A> {
    /// A new end before any event, with this number of runs.
    fn new_in(alloc: A, config: Config, runs: usize) -> Result<Self, ConfigError>
        requires least { 1 ≤ runs }
        requires most { runs ≤ greatest_runs }
        ensures endpoint { IfOk result (λ log. log.endpoint ≡ end_with_runs config runs) }
        ensures accepted { IfOk result (λ log. log.accepted.items ≡ []) }
        ensures delivered { IfOk result (λ log. log.delivered.items ≡ []) }
        ensures emitted { IfOk result (λ log. log.emitted.items ≡ []) }
        ensures outcomes { IfOk result (λ log. log.outcomes.items ≡ []) }
        ensures ended { IfOk result (λ log. log.ended ≡ false) }
        ensures bad_capacity { (result ≡ Err ConfigError.BadCapacity) ↔ HasBadCapacity config }
        ensures bad_mss { (result ≡ Err ConfigError.BadMss) ↔ HasBadMss config }
        ensures bad_shift { (result ≡ Err ConfigError.BadShift) ↔ HasBadShift config }
        ensures bad_limit { (result ≡ Err ConfigError.BadLimit) ↔ HasBadLimit config }
        ensures good { (result ≡ Err ConfigError.NoMemory) → IsGoodConfig config }
        ensures made { OnOk result (IsConfig config) }
    {
        let endpoint = Endpoint::with_runs_in(alloc, config, runs)?;
        Ok(SoloLog {
            accepted: Vec::new(alloc),
            delivered: Vec::new(alloc),
            emitted: Vec::new(alloc),
            outcomes: Vec::new(alloc),
            ended: false,
            endpoint,
        })
    }

    /// The user receives at most `room` bytes.
    fn receive(&mut self, room: usize) -> Result<Outcome, StepError>
        ensures endpoint { OnOk result (self.new.endpoint ≡ after_receive self.old.endpoint room) }
        ensures delivered { OnOk result (self.new.delivered.items ≡ self.old.delivered.items ++ received_bytes self.old.endpoint room) }
        ensures ended { OnOk result (self.new.ended ≡ (self.old.ended || is_end_of_stream (receive_answer self.old.endpoint room))) }
        ensures outcome { IfOk result (λ o. o ≡ Outcome.Got (receive_answer self.old.endpoint room)) }
        ensures others { (self.new.accepted ≡ self.old.accepted) × (self.new.emitted ≡ self.old.emitted) × (self.new.outcomes ≡ self.old.outcomes) }
        ensures memory { IfErr result (λ e. e ≡ StepError.NoMemory) }
    {
        let answer = receive_to(&mut self.endpoint, room, &mut self.delivered)?;
        self.ended = ended_by(self.ended, answer);
        Ok(Outcome::Got(answer))
    }

    /// The end emits what is due, or the acknowledgement alone.
    fn emit(&mut self, alloc: A, alone: bool) -> Result<Outcome, StepError>
        ensures endpoint { OnOk result (self.new.endpoint ≡ after_due self.old.endpoint (due_for alone self.old.endpoint)) }
        ensures emitted { OnOk result (segments self.new.emitted.items ≡ segments self.old.emitted.items ++ option_to_list (segment_as self.old.endpoint (due_for alone self.old.endpoint))) }
        ensures outcome { IfOk result (λ o. o ≡ Outcome.Emitted (option_map (λ _. length self.old.emitted.items) (segment_as self.old.endpoint (due_for alone self.old.endpoint)))) }
        ensures others { (self.new.accepted ≡ self.old.accepted) × (self.new.delivered ≡ self.old.delivered) × (self.new.outcomes ≡ self.old.outcomes) × (self.new.ended ≡ self.old.ended) }
        ensures memory { IfErr result (λ e. e ≡ StepError.NoMemory) }
    {
        let Some(segment) = emit_for(alloc, &mut self.endpoint, alone, &mut self.emitted)? else {
            return Ok(Outcome::Emitted(None));
        };
        let number = self.emitted.len();
        self.emitted.push_reserved(segment);
        Ok(Outcome::Emitted(Some(number)))
    }

    /// Applies one event, but doesn't add its outcome.
    #[tactic(auto, unfolding(crate::specs::Solo::segment_due, crate::specs::Solo::segment_alone, tcp_conn::specs::Emission::after_emission, tcp_conn::specs::Emission::after_ack_alone))]
    fn apply(&mut self, alloc: A, event: &SoloEvent) -> Result<Outcome, StepError>
        ensures endpoint { OnOk result (self.new.endpoint ≡ end_after self.old.endpoint (solo_content event.now)) }
        ensures accepted { OnOk result (self.new.accepted.items ≡ self.old.accepted.items ++ bytes_taken self.old.endpoint (solo_content event.now)) }
        ensures delivered { OnOk result (self.new.delivered.items ≡ self.old.delivered.items ++ bytes_put_out self.old.endpoint (solo_content event.now)) }
        ensures emitted { OnOk result (segments self.new.emitted.items ≡ segments self.old.emitted.items ++ option_to_list (segment_emitted self.old.endpoint (solo_content event.now))) }
        ensures ended { OnOk result (self.new.ended ≡ (self.old.ended || delivers_end self.old.endpoint (solo_content event.now))) }
        ensures outcome { IfOk result (λ o. o ≡ solo_outcome self.old.endpoint (length self.old.emitted.items) (solo_content event.now)) }
        ensures outcomes { self.new.outcomes ≡ self.old.outcomes }
        ensures ranges { OnOk result (HasRanges (solo_content event.now)) }
        ensures memory { IfErr result (λ e. e ≡ StepError.NoMemory) }
    {
        match event {
            SoloEvent::Connect(addr, port) => {
                Ok(Outcome::Call(self.endpoint.connect(*addr, *port)))
            }
            SoloEvent::Listen => Ok(Outcome::Call(self.endpoint.listen())),
            SoloEvent::Send(text) => {
                let answer = send_from(&mut self.endpoint, text, &mut self.accepted)?;
                Ok(Outcome::Sent(answer))
            }
            SoloEvent::Receive(room) => self.receive(*room),
            SoloEvent::Close => Ok(Outcome::Call(self.endpoint.close())),
            SoloEvent::Abort => Ok(Outcome::Call(self.endpoint.abort())),
            SoloEvent::Acknowledge => {
                self.endpoint.acknowledge();
                Ok(Outcome::Call(Ok(())))
            }
            SoloEvent::Timer(timer) => Ok(Outcome::Timer(self.endpoint.timer(*timer))),
            SoloEvent::Emit => self.emit(alloc, false),
            SoloEvent::EmitAcknowledgement => self.emit(alloc, true),
            SoloEvent::ResendFirst => Ok(Outcome::Timer(self.endpoint.resend_first())),
            SoloEvent::Resend(from, to) => Ok(Outcome::Timer(self.endpoint.resend(*from, *to))),
            SoloEvent::Arrive(src, dst, bytes) => Ok(arrive(&mut self.endpoint, *src, *dst, bytes)),
        }
    }

    /// Applies one event. Memory for its outcome is allocated first.
    fn step(&mut self, alloc: A, event: &SoloEvent) -> Result<(), StepError>
        ensures endpoint { OnOk result (self.new.endpoint ≡ end_after self.old.endpoint (solo_content event.now)) }
        ensures accepted { OnOk result (self.new.accepted.items ≡ self.old.accepted.items ++ bytes_taken self.old.endpoint (solo_content event.now)) }
        ensures delivered { OnOk result (self.new.delivered.items ≡ self.old.delivered.items ++ bytes_put_out self.old.endpoint (solo_content event.now)) }
        ensures emitted { OnOk result (segments self.new.emitted.items ≡ segments self.old.emitted.items ++ option_to_list (segment_emitted self.old.endpoint (solo_content event.now))) }
        ensures ended { OnOk result (self.new.ended ≡ (self.old.ended || delivers_end self.old.endpoint (solo_content event.now))) }
        ensures outcomes { OnOk result (self.new.outcomes.items ≡ self.old.outcomes.items ++ solo_outcome self.old.endpoint (length self.old.emitted.items) (solo_content event.now) ∷ []) }
        ensures ranges { OnOk result (HasRanges (solo_content event.now)) }
        ensures memory { IfErr result (λ e. e ≡ StepError.NoMemory) }
    {
        self.outcomes.reserve(1)?;
        let outcome = self.apply(alloc, event)?;
        self.outcomes.push_reserved(outcome);
        Ok(())
    }
}

/// One end from its Config through all these events, whoever its peer is (RFC 9293, 3.10). A refused call is an outcome
/// like any other. The error is of the Config, or that there is no memory.
pub fn solo(alloc: Global, config: Config, events: &[SoloEvent]) -> Result<SoloLog, SoloError>
    // The log is the fold of calls, timers, emissions and arrivals over the events.
    ensures log { IfOk result (λ log. IsLogOf log (run_alone config (map solo_content events.now))) }
    ensures sends_its_users { IfOk result (λ log. SendsItsUsers config log.accepted.items (run_alone config (map solo_content events.now)).closed (segments log.emitted.items)) }
    ensures delivers_what_came { IfOk result (λ log. DeliversWhatCame config (map solo_content events.now) log.delivered.items) }
    ensures acknowledges_in_order { OnOk result (AcknowledgesInOrder config (map solo_content events.now)) }
    ensures bad_capacity { (result ≡ Err (SoloError.Config ConfigError.BadCapacity)) ↔ HasBadCapacity config }
    ensures bad_mss { (result ≡ Err (SoloError.Config ConfigError.BadMss)) ↔ HasBadMss config }
    ensures bad_shift { (result ≡ Err (SoloError.Config ConfigError.BadShift)) ↔ HasBadShift config }
    ensures bad_limit { (result ≡ Err (SoloError.Config ConfigError.BadLimit)) ↔ HasBadLimit config }
    ensures good { (result ≡ Err (SoloError.Config ConfigError.NoMemory)) → IsGoodConfig config }
    // Once the end is made, only memory can be missing, at any of the events.
    ensures fault { IfErr result (IsWantOfMemory config (length events.now)) }
{
    solo_in(alloc, config, events)
}

/// One end as of [`solo`], with a number of runs, from 1 to [`MAX_RUNS`](tcp_reasm::MAX_RUNS): at most as many runs of
/// bytes are kept out of order (RFC 9293, 3.10.7.4), and at most as many runs that the peer reported are remembered (RFC
/// 2018, 5).
pub fn solo_with_runs(
    alloc: Global,
    config: Config,
    runs: usize,
    events: &[SoloEvent],
) -> Result<SoloLog, SoloError>
    requires least { 1 ≤ runs }
    requires most { runs ≤ greatest_runs }
    // The log is the fold of calls, timers, emissions and arrivals over the events.
    ensures log { IfOk result (λ log. IsLogOf log (alone_with_runs config runs (map solo_content events.now))) }
    ensures sends_its_users { IfOk result (λ log. SendsItsUsers config log.accepted.items (alone_with_runs config runs (map solo_content events.now)).closed (segments log.emitted.items)) }
    ensures delivers_what_came { IfOk result (λ log. DeliversWhatCameWith config runs (map solo_content events.now) log.delivered.items) }
    ensures acknowledges_in_order { OnOk result (AcknowledgesInOrderWith config runs (map solo_content events.now)) }
    ensures bad_capacity { (result ≡ Err (SoloError.Config ConfigError.BadCapacity)) ↔ HasBadCapacity config }
    ensures bad_mss { (result ≡ Err (SoloError.Config ConfigError.BadMss)) ↔ HasBadMss config }
    ensures bad_shift { (result ≡ Err (SoloError.Config ConfigError.BadShift)) ↔ HasBadShift config }
    ensures bad_limit { (result ≡ Err (SoloError.Config ConfigError.BadLimit)) ↔ HasBadLimit config }
    ensures good { (result ≡ Err (SoloError.Config ConfigError.NoMemory)) → IsGoodConfig config }
    // Once the end is made, only memory can be missing, at any of the events.
    ensures fault { IfErr result (IsWantOfMemory config (length events.now)) }
{
    solo_with_runs_in(alloc, config, runs, events)
}

/// One end as of [`solo`], with memory of this allocator.
pub fn solo_in<A: Allocator + Copy>(
    alloc: A,
    config: Config,
    events: &[SoloEvent],
) -> Result<SoloLog<A>, SoloError>
    // The log is the fold of calls, timers, emissions and arrivals over the events.
    ensures log { IfOk result (λ log. IsLogOf log (run_alone config (map solo_content events.now))) }
    ensures sends_its_users { IfOk result (λ log. SendsItsUsers config log.accepted.items (run_alone config (map solo_content events.now)).closed (segments log.emitted.items)) }
    ensures delivers_what_came { IfOk result (λ log. DeliversWhatCame config (map solo_content events.now) log.delivered.items) }
    ensures acknowledges_in_order { OnOk result (AcknowledgesInOrder config (map solo_content events.now)) }
    ensures bad_capacity { (result ≡ Err (SoloError.Config ConfigError.BadCapacity)) ↔ HasBadCapacity config }
    ensures bad_mss { (result ≡ Err (SoloError.Config ConfigError.BadMss)) ↔ HasBadMss config }
    ensures bad_shift { (result ≡ Err (SoloError.Config ConfigError.BadShift)) ↔ HasBadShift config }
    ensures bad_limit { (result ≡ Err (SoloError.Config ConfigError.BadLimit)) ↔ HasBadLimit config }
    ensures good { (result ≡ Err (SoloError.Config ConfigError.NoMemory)) → IsGoodConfig config }
    // Once the end is made, only memory can be missing, at any of the events.
    ensures fault { IfErr result (IsWantOfMemory config (length events.now)) }
{
    solo_with_runs_in(alloc, config, DEFAULT_RUNS, events)
}

/// One end as of [`solo_with_runs`], with memory of this allocator.
pub fn solo_with_runs_in<A: Allocator + Copy>(
    alloc: A,
    config: Config,
    runs: usize,
    events: &[SoloEvent],
) -> Result<SoloLog<A>, SoloError>
    requires least { 1 ≤ runs }
    requires most { runs ≤ greatest_runs }
    // The log is the fold of calls, timers, emissions and arrivals over the events.
    ensures log { IfOk result (λ log. IsLogOf log (alone_with_runs config runs (map solo_content events.now))) }
    ensures sends_its_users { IfOk result (λ log. SendsItsUsers config log.accepted.items (alone_with_runs config runs (map solo_content events.now)).closed (segments log.emitted.items)) }
    ensures delivers_what_came { IfOk result (λ log. DeliversWhatCameWith config runs (map solo_content events.now) log.delivered.items) }
    ensures acknowledges_in_order { OnOk result (AcknowledgesInOrderWith config runs (map solo_content events.now)) }
    ensures bad_capacity { (result ≡ Err (SoloError.Config ConfigError.BadCapacity)) ↔ HasBadCapacity config }
    ensures bad_mss { (result ≡ Err (SoloError.Config ConfigError.BadMss)) ↔ HasBadMss config }
    ensures bad_shift { (result ≡ Err (SoloError.Config ConfigError.BadShift)) ↔ HasBadShift config }
    ensures bad_limit { (result ≡ Err (SoloError.Config ConfigError.BadLimit)) ↔ HasBadLimit config }
    ensures good { (result ≡ Err (SoloError.Config ConfigError.NoMemory)) → IsGoodConfig config }
    // Once the end is made, only memory can be missing, at any of the events.
    ensures fault { IfErr result (IsWantOfMemory config (length events.now)) }
{
    let mut log = match SoloLog::new_in(alloc, config, runs) {
        Ok(log) => log,
        Err(fault) => return Err(SoloError::Config(fault)),
    };
    for (i, event) in events.iter().enumerate() {
        if let Err(error) = log.step(alloc, event) {
            return Err(SoloError::At(i, error));
        }
    }
    Ok(log)
}
