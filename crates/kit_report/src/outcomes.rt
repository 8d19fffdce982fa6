//! The outcome of one event.
ghost use Rattle.std.specs.Prelude.{◌≡◌, ◌++◌, drop, OnOk, string_bytes};
ghost use Rattle.tcp_replay.specs.World.{party_of, other, segment_at};
ghost use Rattle.kit_report.specs.Outcomes.{call_text, address_of_side, emission_text, outcome_text, answer_text, is_refused};

use crate::answers::{push_arrival, push_receive, push_refused, push_segment, push_send};
use crate::names::yes_or_no;
use kit_text::push_number_word;
use std::alloc::{AllocError, Allocator};
use tcp_conn::{CallError, Phase};
use tcp_replay::{Outcome, Side, StepError, World};
use tcp_wire::Addr;

/// What a step returned.
pub(crate) type StepResult = Result<Outcome, StepError>;

pub(crate) fn other(side: Side) -> Side
    ensures { result ≡ other side }
{
    match side {
        Side::A => Side::B,
        Side::B => Side::A,
    }
}

pub(crate) fn address_of<A: Allocator>(world: &World<A>, side: Side) -> Addr
    ensures { result.0 ≡ address_of_side world.now side }
{
    world.endpoint(side).config().addr
}

/// The bytes of segment `k` of a side; no bytes where there is none.
pub(crate) fn segment_at<A: Allocator>(world: &World<A>, side: Side, k: usize) -> &[u8]
    ensures { result.now ≡ segment_at (party_of world.now side) k }
{
    world.sent(side, k).unwrap_or(&[])
}

/// Appends the answer of a call, with the phase that the side is in then.
fn push_call<A: Allocator>(
    text: &mut String<A>,
    answer: Result<(), CallError>,
    phase: Phase,
) -> Result<(), AllocError>
    ensures { OnOk result (string_bytes text.new ≡ string_bytes text.old ++ call_text answer phase) }
{
    match answer {
        Ok(()) => {
            text.push_str("ok ")?;
            text.push_str(phase.name())
        }
        Err(error) => push_refused(text, error.number()),
    }
}

fn push_emission<A: Allocator>(
    text: &mut String<A>,
    world: &World<A>,
    side: Side,
    emitted: Option<usize>,
) -> Result<(), AllocError>
    ensures { OnOk result (string_bytes text.new ≡ string_bytes text.old ++ emission_text world.now side emitted) }
{
    let Some(k) = emitted else {
        return text.push_str("none");
    };
    push_number_word(text, k as u64, " ")?;
    let src = address_of(world, side);
    let dst = address_of(world, other(side));
    push_segment(text, src, dst, segment_at(world, side, k))
}

/// The bytes after the first `count`.
fn after(bytes: &[u8], count: usize) -> &[u8]
    ensures { result.now ≡ drop count bytes.now }
{
    if count > bytes.len() {
        return &[];
    }
    &bytes[count..]
}

/// Appends the outcome of an event that names this side, to which `had` bytes were delivered before it.
#[tactic(auto, unfolding(crate::specs::Outcomes::outcome_text))]
fn push_outcome<A: Allocator + Copy>(
    alloc: A,
    text: &mut String<A>,
    world: &World<A>,
    side: Side,
    had: usize,
    outcome: Outcome,
) -> Result<(), AllocError>
    ensures { OnOk result (string_bytes text.new ≡ string_bytes text.old ++ outcome_text world.now side had outcome) }
{
    match outcome {
        Outcome::Call(answer) => push_call(text, answer, world.endpoint(side).phase()),
        Outcome::Sent(answer) => push_send(text, answer),
        Outcome::Got(answer) => {
            push_receive(alloc, text, answer, after(world.delivered(side), had))
        }
        Outcome::Timer(applied) => text.push_str(yes_or_no(applied)),
        Outcome::Emitted(k) => push_emission(text, world, side, k),
        Outcome::Arrived(arrival) => {
            push_arrival(text, arrival)?;
            let phase = world.endpoint(other(side)).phase();
            text.push_str(" ")?;
            text.push_str(phase.name())
        }
    }
}

/// Appends the outcome of an event, or why it was refused.
pub(crate) fn push_step_result<A: Allocator + Copy>(
    alloc: A,
    text: &mut String<A>,
    world: &World<A>,
    side: Side,
    had: usize,
    answer: StepResult,
) -> Result<(), AllocError>
    ensures { OnOk result (string_bytes text.new ≡ string_bytes text.old ++ answer_text world.now side had answer) }
{
    match answer {
        Ok(outcome) => push_outcome(alloc, text, world, side, had, outcome),
        Err(error) => push_refused(text, error.number()),
    }
}

/// Whether a call or a step was refused.
pub(crate) fn is_refused(answer: StepResult) -> bool
    ensures { result ≡ is_refused answer }
{
    match answer {
        Ok(Outcome::Call(answer)) => answer.is_err(),
        Ok(Outcome::Sent(answer)) => answer.is_err(),
        Ok(Outcome::Got(answer)) => answer.is_err(),
        Ok(_) => false,
        Err(_) => true,
    }
}
