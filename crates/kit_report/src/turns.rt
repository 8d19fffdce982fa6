//! The lines of the events of a script.
ghost use Rattle.std.specs.Prelude.{◌≡◌, ◌+◌, ◌++◌, ◌==◌, ◌∷◌, [], ◌≤◌, Some, map, length, if◌then◌else◌, IfOk, OnOk, string_bytes};
ghost use Rattle.tcp_replay.specs.Events.{event_content};
ghost use Rattle.tcp_replay.specs.World.{step_answer, world_after, world_after_all};
ghost use Rattle.kit_script.specs.Script.{turn_content};
ghost use Rattle.kit_report.specs.Outcomes.{is_refused};
ghost use Rattle.kit_report.specs.Report.{event_line, event_in_turn, turns_from, events_of, refusals, count_text, repeat_line, turn_line, world_after_turn, world_after_turns, event_lines, is_well};

use crate::events::push_event;
use crate::outcomes::{StepResult, is_refused, push_step_result};
use kit_script::Turn;
use kit_text::push_number_word;
use std::alloc::{AllocError, Allocator};
use tcp_replay::{Event, StepError, World};

/// Applies one event, refused or not. Where there is no memory the world is as it was.
fn apply<A: Allocator + Copy>(
    world: &mut World<A>,
    event: &Event<A>,
) -> Result<StepResult, AllocError>
    ensures answer { IfOk result (λ answer. answer ≡ step_answer world.old (event_content event.now)) }
    ensures state { OnOk result (world.new ≡ world_after world.old (event_content event.now)) }
{
    match world.step(event) {
        Err(StepError::NoMemory) => Err(AllocError),
        answer => Ok(answer),
    }
}

/// Applies an event and appends its line; returns whether it was refused.
#[tactic(auto, unfolding(crate::specs::Report::event_line))]
fn push_event_line<A: Allocator + Copy>(
    alloc: A,
    text: &mut String<A>,
    world: &mut World<A>,
    number: usize,
    event: &Event<A>,
) -> Result<bool, AllocError>
    ensures line { OnOk result (string_bytes text.new ≡ string_bytes text.old ++ event_line number world.old (event_content event.now)) }
    ensures refused { IfOk result (λ refused. refused ≡ is_refused (step_answer world.old (event_content event.now))) }
    ensures state { OnOk result (world.new ≡ world_after world.old (event_content event.now)) }
{
    let side = event.side();
    let had = world.delivered(side).len();
    let answer = apply(world, event)?;
    push_number_word(text, number as u64, " ")?;
    push_event(text, event)?;
    text.push_str(" ")?;
    push_step_result(alloc, text, world, side, had, answer)?;
    text.push_str("\n")?;
    Ok(is_refused(answer))
}

/// One turn of an event: the number of a segment that it names has grown by `turn`.
fn apply_turn<A: Allocator + Copy>(
    world: &mut World<A>,
    event: &Event<A>,
    turn: usize,
) -> Result<StepResult, AllocError>
    ensures answer { IfOk result (λ answer. answer ≡ step_answer world.old (event_in_turn (event_content event.now) turn)) }
    ensures state { OnOk result (world.new ≡ world_after world.old (event_in_turn (event_content event.now) turn)) }
{
    match event {
        Event::Deliver(from, k) => apply(world, &Event::Deliver(*from, k.saturating_add(turn))),
        Event::Damage(from, k, place, value) => {
            apply(
                world,
                &Event::Damage(*from, k.saturating_add(turn), *place, *value),
            )
        }
        _ => apply(world, event),
    }
}

/// Applies all turns of an event, refused ones too; returns how many were refused.
#[tactic(auto, using(crate::proofs::Repeats::next_turn, crate::proofs::Repeats::no_turn_left), unfolding(crate::specs::Report::refusals, tcp_replay::specs::World::world_after_all))]
fn apply_turns<A: Allocator + Copy>(
    world: &mut World<A>,
    event: &Event<A>,
    times: u32,
) -> Result<u32, AllocError>
    ensures refused { IfOk result (λ refused. refused ≡ refusals world.old (turns_from (event_content event.now) 0 times)) }
    ensures state { OnOk result (world.new ≡ world_after_all world.old (turns_from (event_content event.now) 0 times)) }
{
    let mut refused = 0;
    let mut turn = 0u32;
    while turn < times {
        let answer = apply_turn(world, event, turn as usize)?;
        if is_refused(answer) {
            refused += 1;
        }
        turn += 1;
    }
    Ok(refused)
}

/// Appends the outcome of an event's turns: for `send` how many bytes were accepted after the first `accepted`, for
/// others how many turns weren't refused.
fn push_count<A: Allocator>(
    text: &mut String<A>,
    world: &World<A>,
    accepted: usize,
    event: &Event<A>,
    times: u32,
    refused: u32,
) -> Result<(), AllocError>
    ensures { OnOk result (string_bytes text.new ≡ string_bytes text.old ++ count_text accepted world.now (event_content event.now) times refused) }
{
    match event {
        Event::Send(side, _) => {
            let taken = world.accepted(*side).len().saturating_sub(accepted);
            write!(text, "took {taken}")
        }
        _ => {
            let done = times.saturating_sub(refused);
            write!(text, "done {done}")
        }
    }
}

/// Applies all turns of an event and appends their line; returns how many were refused.
#[tactic(auto, unfolding(crate::specs::Report::repeat_text, crate::specs::Report::repeat_line))]
fn push_repeat_line<A: Allocator + Copy>(
    text: &mut String<A>,
    world: &mut World<A>,
    number: usize,
    event: &Event<A>,
    times: u32,
) -> Result<u32, AllocError>
    ensures line { OnOk result (string_bytes text.new ≡ string_bytes text.old ++ repeat_line number world.old times (event_content event.now)) }
    ensures refused { IfOk result (λ refused. refused ≡ refusals world.old (turns_from (event_content event.now) 0 times)) }
    ensures state { OnOk result (world.new ≡ world_after_all world.old (turns_from (event_content event.now) 0 times)) }
{
    let accepted = world.accepted(event.side()).len();
    let refused = apply_turns(world, event, times)?;
    write!(text, "{number} repeat {times} ")?;
    push_event(text, event)?;
    text.push_str(" ")?;
    push_count(text, world, accepted, event, times, refused)?;
    write!(text, " refused {refused}\n")?;
    Ok(refused)
}

/// Applies an event as often as the script says and appends its line; returns whether no turn was refused.
#[tactic(auto, unfolding(crate::specs::Report::refusals, tcp_replay::specs::World::world_after_all))]
pub(crate) fn push_turn_line<A: Allocator + Copy>(
    alloc: A,
    text: &mut String<A>,
    world: &mut World<A>,
    number: usize,
    turn: &Turn<A>,
) -> Result<bool, AllocError>
    ensures line { OnOk result (string_bytes text.new ≡ string_bytes text.old ++ turn_line number world.old (turn_content turn.now)) }
    ensures well { IfOk result (λ well. well ≡ (refusals world.old (events_of (turn_content turn.now)) == 0)) }
    ensures state { OnOk result (world.new ≡ world_after_turn world.old (turn_content turn.now)) }
{
    let Some(times) = turn.times else {
        let is_refused = push_event_line(alloc, text, world, number, &turn.event)?;
        return Ok(!is_refused);
    };
    let refused = push_repeat_line(text, world, number, &turn.event, times)?;
    Ok(refused == 0)
}

/// Applies all events in order, refused ones too, and appends their lines; returns whether no turn was refused.
#[tactic(auto, unfolding(crate::specs::Report::event_lines, crate::specs::Report::is_well, crate::specs::Report::world_after_turns))]
pub(crate) fn push_event_lines<A: Allocator + Copy>(
    alloc: A,
    text: &mut String<A>,
    world: &mut World<A>,
    events: &[Turn<A>],
) -> Result<bool, AllocError>
    ensures lines { OnOk result (string_bytes text.new ≡ string_bytes text.old ++ event_lines 1 world.old (map turn_content events.now)) }
    ensures well { IfOk result (λ well. well ≡ is_well world.old (map turn_content events.now)) }
    ensures state { OnOk result (world.new ≡ world_after_turns world.old (map turn_content events.now)) }
{
    let mut is_well = true;
    for (i, turn) in events.iter().enumerate() {
        if !push_turn_line(alloc, text, world, i + 1, turn)? {
            is_well = false;
        }
    }
    Ok(is_well)
}
