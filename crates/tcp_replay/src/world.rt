ghost use Rattle.std.specs.Prelude.{◌≡◌, ◌≢◌, ◌↔◌, ◌≤◌, true, length, None, Some, OnOk, OnErr, IfOk, IfErr, IfSome, IfNone, map, option_map, slice_get};
ghost use Rattle.std.specs.List.{AllByRecursion};
ghost use Rattle.tcp_halves.specs.Config.{IsConfig};
ghost use Rattle.tcp_reasm.specs.Reassembly.{greatest_runs};
ghost use Rattle.tcp_replay.specs.Events.{event_content, HasBytes, IsDamage};
ghost use Rattle.tcp_replay.specs.World.{WorldState, KeepsAllSegments, max_life, new_world, new_world_with, world_with_runs, both, party_of, effect_of, world_with_effect, refusal_of, outcome_of, grows_for, step_answer, world_after, run_of, stop_of, StopsForMemory, HasGoodConfigs, NamesFault};
ghost use Rattle.tcp_replay.specs.Safe.{IsSafe, HintsAreTrue};

use crate::event::{Event, Side};
use crate::outcome::{Outcome, StepError, WorldError};
use crate::party::{Party, connect, damage, deliver};
use std::alloc::{Allocator, Global};
use std::marker::Model;
use tcp_conn::{Arrival, Config, ConfigError, Endpoint};
use tcp_reasm::DEFAULT_RUNS;
use tcp_wire::DecodeError;

/// The longest lifetime of segments, in positions of a direction: 2^31 (RFC 9293, 3.4).
pub const MAX_LIFE: u32 = 2_147_483_648;

/// Two ends of one connection, with all that their users did and got, and every segment that was emitted.
#[derive(Debug, Drop)]
pub struct World<A: Allocator = Global> {
    alloc: A,
    /// The lifetime of a segment in positions, at most [`MAX_LIFE`].
    life: u32,
    a: Party<A>,
    b: Party<A>,
}

impl<A: Allocator> Model for World<A> {
    ghost use Rattle.tcp_replay.specs.World.{WorldState, both};
    ghost use Rattle.tcp_replay.specs.Sound.{IsSound};

    ghost Value = { WorldState };

    ghost view = { λ w. both w.life w.a w.b };

    ghost invariant = { λ w. IsSound (both w.life w.a w.b) };
}

/// Applies one event to the party whose side it names, and to the other one.
#[tactic(auto, unfolding(crate::specs::World::effect_of, crate::specs::World::party_after_emission, crate::specs::World::party_after_ack_alone, tcp_conn::specs::Emission::after_emission, tcp_conn::specs::Emission::emitted_bytes))]
fn step_at<A: Allocator + Copy, E: Allocator>(
    alloc: A,
    life: u32,
    here: &mut Party<A>,
    there: &mut Party<A>,
    event: &Event<E>,
) -> Result<Outcome, StepError>
    ensures here { OnOk result (here.new ≡ (effect_of life here.old there.old (event_content event.now)).here) }
    ensures there { OnOk result (there.new ≡ (effect_of life here.old there.old (event_content event.now)).there) }
    ensures outcome { IfOk result (λ o. o ≡ (effect_of life here.old there.old (event_content event.now)).outcome) }
    ensures bytes { OnOk result (HasBytes (event_content event.now)) }
    ensures refused { IfSome (effect_of life here.old there.old (event_content event.now)).refusal (λ e. result ≡ Err e) }
    ensures memory { IfNone (effect_of life here.old there.old (event_content event.now)).refusal (IfErr result (λ e. (e ≡ StepError.NoMemory) × ((effect_of life here.old there.old (event_content event.now)).grows ≡ true))) }
    ensures err { OnErr result ((here.new ≡ here.old) × (there.new ≡ there.old)) }
{
    match event {
        Event::Connect(_) => Ok(connect(here, there)),
        Event::Listen(_) => Ok(here.listen()),
        Event::Send(_, bytes) => here.send(bytes),
        Event::Receive(_, room) => here.receive(*room),
        Event::Close(_) => Ok(here.close()),
        Event::Abort(_) => Ok(here.abort()),
        Event::Acknowledge(_) => Ok(here.acknowledge()),
        Event::Timer(_, timer) => Ok(here.timer(*timer)),
        Event::Emit(_) => here.emit(alloc, false),
        Event::EmitAcknowledgement(_) => here.emit(alloc, true),
        Event::ResendFirst(_) => Ok(here.resend_first()),
        Event::Resend(_, from, to) => Ok(here.resend(*from, *to)),
        Event::Deliver(_, k) => deliver(life, here, *k, there),
        Event::Damage(_, k, place, value) => damage(alloc, life, here, *k, *place, *value, there),
    }
}

/// Applies one event to the two parties.
fn step_parties<A: Allocator + Copy, E: Allocator>(
    alloc: A,
    life: u32,
    a: &mut Party<A>,
    b: &mut Party<A>,
    event: &Event<E>,
) -> Result<Outcome, StepError>
    ensures state { OnOk result (both life a.new b.new ≡ world_with_effect (both life a.old b.old) (event_content event.now)) }
    ensures outcome { IfOk result (λ o. o ≡ outcome_of (both life a.old b.old) (event_content event.now)) }
    ensures bytes { OnOk result (HasBytes (event_content event.now)) }
    ensures refused { IfSome (refusal_of (both life a.old b.old) (event_content event.now)) (λ e. result ≡ Err e) }
    ensures memory { IfNone (refusal_of (both life a.old b.old) (event_content event.now)) (IfErr result (λ e. (e ≡ StepError.NoMemory) × (grows_for (both life a.old b.old) (event_content event.now) ≡ true))) }
    ensures err { OnErr result (both life a.new b.new ≡ both life a.old b.old) }
{
    match event.side() {
        Side::A => step_at(alloc, life, a, b, event),
        Side::B => step_at(alloc, life, b, a, event),
    }
}

impl World {
    /// Two new ends, whose segments live [`MAX_LIFE`] positions. A fault of `a` comes first; also where there is no
    /// memory for `a`, no fault of `b` is looked for.
    pub fn new(alloc: Global, a: Config, b: Config) -> Result<Self, WorldError>
        ensures new { IfOk result (λ w. w ≡ new_world a b) }
        ensures safe { IfOk result IsSafe }
        ensures hints { IfOk result HintsAreTrue }
        ensures good { OnOk result (HasGoodConfigs a b) }
        ensures made { OnOk result (IsConfig a × IsConfig b) }
        ensures fault { NamesFault a b result }
    {
        Self::new_in(alloc, a, b)
    }

    /// Two new ends, whose segments live `life` positions, from 2 to [`MAX_LIFE`] (RFC 9293, 3.4). A segment is refused
    /// as `Expired` whose position lies this far behind the next that its receiver expects, or whose acknowledgement
    /// lies this far behind SND.UNA there.
    pub fn with_lifetime(alloc: Global, a: Config, b: Config, life: u32) -> Result<Self, WorldError>
        requires least { 2 ≤ life }
        requires most { life ≤ max_life }
        ensures new { IfOk result (λ w. w ≡ new_world_with life a b) }
        ensures safe { IfOk result IsSafe }
        ensures hints { IfOk result HintsAreTrue }
        ensures good { OnOk result (HasGoodConfigs a b) }
        ensures made { OnOk result (IsConfig a × IsConfig b) }
        ensures fault { NamesFault a b result }
    {
        Self::with_lifetime_in(alloc, a, b, life)
    }

    /// Two new ends as of [`with_lifetime`](World::with_lifetime), each with a number of runs, from 1 to
    /// [`MAX_RUNS`](tcp_reasm::MAX_RUNS): at most as many runs of bytes are kept out of order (RFC 9293, 3.10.7.4), and
    /// at most as many runs that the peer reported are remembered (RFC 2018, 5).
    pub fn with_runs(
        alloc: Global,
        a: Config,
        b: Config,
        life: u32,
        runs_a: usize,
        runs_b: usize,
    ) -> Result<Self, WorldError>
        requires least { 2 ≤ life }
        requires most { life ≤ max_life }
        requires least_a { 1 ≤ runs_a }
        requires most_a { runs_a ≤ greatest_runs }
        requires least_b { 1 ≤ runs_b }
        requires most_b { runs_b ≤ greatest_runs }
        ensures new { IfOk result (λ w. w ≡ world_with_runs life a b runs_a runs_b) }
        ensures safe { IfOk result IsSafe }
        ensures hints { IfOk result HintsAreTrue }
        ensures good { OnOk result (HasGoodConfigs a b) }
        ensures made { OnOk result (IsConfig a × IsConfig b) }
        ensures fault { NamesFault a b result }
    {
        Self::with_runs_in(alloc, a, b, life, runs_a, runs_b)
    }
}

impl<A: Allocator + Copy> World<A> {
    /// [`World::new`] with memory of this allocator.
    pub fn new_in(alloc: A, a: Config, b: Config) -> Result<Self, WorldError>
        ensures new { IfOk result (λ w. w ≡ new_world a b) }
        ensures safe { IfOk result IsSafe }
        ensures hints { IfOk result HintsAreTrue }
        ensures good { OnOk result (HasGoodConfigs a b) }
        ensures made { OnOk result (IsConfig a × IsConfig b) }
        ensures fault { NamesFault a b result }
    {
        Self::with_lifetime_in(alloc, a, b, MAX_LIFE)
    }

    /// [`World::with_lifetime`] with memory of this allocator.
    pub fn with_lifetime_in(alloc: A, a: Config, b: Config, life: u32) -> Result<Self, WorldError>
        requires least { 2 ≤ life }
        requires most { life ≤ max_life }
        ensures new { IfOk result (λ w. w ≡ new_world_with life a b) }
        ensures safe { IfOk result IsSafe }
        ensures hints { IfOk result HintsAreTrue }
        ensures good { OnOk result (HasGoodConfigs a b) }
        ensures made { OnOk result (IsConfig a × IsConfig b) }
        ensures fault { NamesFault a b result }
    {
        Self::with_runs_in(alloc, a, b, life, DEFAULT_RUNS, DEFAULT_RUNS)
    }

    /// [`World::with_runs`] with memory of this allocator.
    pub fn with_runs_in(
        alloc: A,
        a: Config,
        b: Config,
        life: u32,
        runs_a: usize,
        runs_b: usize,
    ) -> Result<Self, WorldError>
        requires least { 2 ≤ life }
        requires most { life ≤ max_life }
        requires least_a { 1 ≤ runs_a }
        requires most_a { runs_a ≤ greatest_runs }
        requires least_b { 1 ≤ runs_b }
        requires most_b { runs_b ≤ greatest_runs }
        ensures new { IfOk result (λ w. w ≡ world_with_runs life a b runs_a runs_b) }
        ensures safe { IfOk result IsSafe }
        ensures hints { IfOk result HintsAreTrue }
        ensures good { OnOk result (HasGoodConfigs a b) }
        ensures made { OnOk result (IsConfig a × IsConfig b) }
        ensures fault { NamesFault a b result }
    {
        let first = match Party::new_in(alloc, a, runs_a) {
            Ok(party) => party,
            Err(fault) => return Err(WorldError::Config(Side::A, fault)),
        };
        let second = match Party::new_in(alloc, b, runs_b) {
            Ok(party) => party,
            Err(fault) => return Err(WorldError::Config(Side::B, fault)),
        };
        Ok(World {
            alloc,
            life,
            a: first,
            b: second,
        })
    }

    /// Applies one event. A refused event changes nothing; memory for the world to grow is allocated before anything
    /// else.
    pub fn step<E: Allocator>(&mut self, event: &Event<E>) -> Result<Outcome, StepError>
        ensures state { OnOk result (self.new ≡ world_with_effect self.old (event_content event.now)) }
        ensures outcome { IfOk result (λ o. o ≡ outcome_of self.old (event_content event.now)) }
        ensures bytes { OnOk result (HasBytes (event_content event.now)) }
        ensures refused { IfSome (refusal_of self.old (event_content event.now)) (λ e. result ≡ Err e) }
        ensures memory { IfNone (refusal_of self.old (event_content event.now)) (IfErr result (λ e. (e ≡ StepError.NoMemory) × (grows_for self.old (event_content event.now) ≡ true))) }
        ensures unchanged { OnErr result (self.new ≡ self.old) }
        // Where there was memory, the definitions give the result.
        ensures exact { result ≢ Err StepError.NoMemory → (result ≡ step_answer self.old (event_content event.now)) × (self.new ≡ world_after self.old (event_content event.now)) }
        // One changed byte is found at the checksum, and no end takes anything of the segment.
        ensures damaged { IsDamage (event_content event.now) → IfOk result (λ o. (o ≡ Outcome.Arrived (Arrival.Malformed DecodeError.BadChecksum)) × (self.new ≡ self.old)) }
        // Within the limits of the streams no segment expires, at this event or at a later one.
        ensures unexpired { KeepsAllSegments self.old → result ≢ Err StepError.Expired }
        ensures keeps { KeepsAllSegments self.old → KeepsAllSegments self.new }
        ensures safe { IsSafe self.new }
        ensures hints { HintsAreTrue self.new }
    {
        step_parties(self.alloc, self.life, &mut self.a, &mut self.b, event)
    }

    /// Applies events in order, and stops at the first that is refused, with its index from 0. The events before it
    /// stay applied.
    pub fn run<E: Allocator>(&mut self, events: &[Event<E>]) -> Result<(), (usize, StepError)>
        ensures done { OnOk result ((stop_of self.old (map event_content events.now) ≡ None) × (self.new ≡ run_of self.old (map event_content events.now))) }
        ensures bytes { OnOk result (AllByRecursion HasBytes (map event_content events.now)) }
        // A refusal that isn't for memory is the first one of the list.
        ensures refused { IfErr result (λ stop. stop.1 ≢ StepError.NoMemory → (stop_of self.old (map event_content events.now) ≡ Some stop) × (self.new ≡ run_of self.old (map event_content events.now))) }
        // Where there is no memory, the run stops before an event that isn't refused and makes the world grow.
        ensures memory { IfErr result (λ stop. stop.1 ≡ StepError.NoMemory → StopsForMemory self.old (map event_content events.now) stop.0 self.new) }
        ensures unexpired { KeepsAllSegments self.old → IfErr result (λ stop. stop.1 ≢ StepError.Expired) }
        ensures safe { IsSafe self.new }
        ensures hints { HintsAreTrue self.new }
    {
        let _ = &self.alloc;
        for (i, event) in events.iter().enumerate() {
            if let Err(error) = self.step(event) {
                return Err((i, error));
            }
        }
        Ok(())
    }
}

impl<A: Allocator> World<A> {
    fn party(&self, side: Side) -> &Party<A>
        ensures { result.now ≡ party_of self.now side }
    {
        match side {
            Side::A => &self.a,
            Side::B => &self.b,
        }
    }

    /// The bytes that `send` of this side accepted.
    pub fn accepted(&self, side: Side) -> &[u8]
        ensures { result.now ≡ (party_of self.now side).accepted }
    {
        let party = self.party(side);
        &party.accepted
    }

    /// The bytes that `receive` of this side delivered.
    pub fn delivered(&self, side: Side) -> &[u8]
        ensures { result.now ≡ (party_of self.now side).delivered }
    {
        let party = self.party(side);
        &party.delivered
    }

    /// Whether a `close` of this side was accepted.
    pub fn closed(&self, side: Side) -> bool
        ensures { result ≡ (party_of self.now side).closed }
    {
        let party = self.party(side);
        party.closed
    }

    /// Whether the end of the stream was delivered to the user of this side.
    pub fn ended(&self, side: Side) -> bool
        ensures { result ≡ (party_of self.now side).ended }
    {
        let party = self.party(side);
        party.ended
    }

    /// The bytes of segment `k`, from 0, that this side emitted.
    pub fn sent(&self, side: Side, k: usize) -> Option<&[u8]>
        ensures { option_map (λ segment. segment.now) result ≡ option_map (λ g. g.bytes) (slice_get (party_of self.now side).sent k) }
    {
        let party = self.party(side);
        if k < party.sent.len() {
            Some(&party.sent[k].bytes)
        } else {
            None
        }
    }

    /// How many segments this side emitted.
    pub fn count(&self, side: Side) -> usize
        ensures { result ≡ length (party_of self.now side).sent }
    {
        let party = self.party(side);
        party.sent.len()
    }

    /// The end of this side.
    pub fn endpoint(&self, side: Side) -> &Endpoint<A>
        ensures { result.now ≡ (party_of self.now side).endpoint }
    {
        let party = self.party(side);
        &party.endpoint
    }
}
