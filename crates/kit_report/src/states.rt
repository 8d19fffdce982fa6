//! The state of an end, in one line.
ghost use Rattle.std.specs.Prelude.{◌≡◌, ◌++◌, [], OnOk, string_bytes};
ghost use Rattle.kit_text.specs.Texts.{blocks_text};
ghost use Rattle.tcp_replay.specs.World.{party_of};
ghost use Rattle.kit_report.specs.Steps.{unmarked_runs, max_unmarked_runs, queue_text, inbox_text, state_line, state_lines};
ghost use Rattle.kit_report.specs.Runs.{run_text, runs_text};

use crate::report::push_counts;
use std::alloc::{AllocError, Allocator};
use tcp_conn::Endpoint;
use tcp_replay::{Side, World};

/// The most runs of unmarked bytes that a send queue has: between at most 4,096 marked ones, and around them.
const MAX_UNMARKED_RUNS: u32 = 4_097;

/// Appends a run, with a `+` before it unless it is the first.
fn push_run<A: Allocator>(
    text: &mut String<A>,
    is_first: bool,
    from: usize,
    to: usize,
) -> Result<(), AllocError>
    ensures { OnOk result (string_bytes text.new ≡ string_bytes text.old ++ run_text is_first (from, to)) }
{
    if !is_first {
        text.push_str("+")?;
    }
    write!(text, "{from}-{to}")
}

/// What is written where there is no run: nothing after another run.
fn none_after(is_first: bool) -> &'static str
    ensures { result.now ≡ runs_text is_first [] }
{
    if is_first { "-" } else { "" }
}

/// Appends runs joined by `+`, or `-` for none.
#[tactic(auto, unfolding(kit_text::specs::Texts::blocks_text))]
fn push_runs<A: Allocator>(text: &mut String<A>, runs: &[(u32, u32)]) -> Result<(), AllocError>
    ensures { OnOk result (string_bytes text.new ≡ string_bytes text.old ++ blocks_text runs.now) }
{
    let mut is_first = true;
    for run in runs {
        push_run(text, is_first, run.0 as usize, run.1 as usize)?;
        is_first = false;
    }
    text.push_str(none_after(is_first))
}

/// Appends the runs of unmarked bytes of the send queue.
#[tactic(auto, unfolding(crate::specs::Steps::unmarked_runs, kit_text::specs::Texts::blocks_text))]
fn push_unmarked<A: Allocator>(text: &mut String<A>, end: &Endpoint<A>) -> Result<(), AllocError>
    ensures { OnOk result (string_bytes text.new ≡ string_bytes text.old ++ blocks_text (unmarked_runs max_unmarked_runs end.now.sending.queue 0)) }
{
    let mut at = 0;
    let mut is_first = true;
    let mut left = MAX_UNMARKED_RUNS;
    while left > 0 {
        let Some((from, to)) = end.next_unmarked(at) else {
            return text.push_str(none_after(is_first));
        };
        push_run(text, is_first, from, to)?;
        at = to;
        is_first = false;
        left -= 1;
    }
    text.push_str(none_after(is_first))
}

/// Appends the content of the send queue.
#[tactic(auto, unfolding(crate::specs::Steps::queue_text))]
fn push_queue<A: Allocator>(text: &mut String<A>, end: &Endpoint<A>) -> Result<(), AllocError>
    ensures { OnOk result (string_bytes text.new ≡ string_bytes text.old ++ queue_text end.now) }
{
    let queued = end.queued();
    let flight = end.in_flight();
    write!(text, " queued {queued} flight {flight} unmarked ")?;
    push_unmarked(text, end)
}

/// Appends the content of the receive buffer, and the peer's window.
#[tactic(auto, unfolding(crate::specs::Steps::inbox_text))]
fn push_inbox<A: Allocator>(text: &mut String<A>, end: &Endpoint<A>) -> Result<(), AllocError>
    ensures { OnOk result (string_bytes text.new ≡ string_bytes text.old ++ inbox_text end.now) }
{
    let unread = end.unread();
    let (window, peer) = end.windows();
    write!(text, " unread {unread} window {window} held ")?;
    push_runs(text, end.held_blocks().as_slice())?;
    write!(text, " peer {peer}")
}

/// Appends the state of this side.
#[tactic(auto, unfolding(crate::specs::Steps::state_line))]
fn push_state_line<A: Allocator>(
    text: &mut String<A>,
    world: &World<A>,
    side: Side,
) -> Result<(), AllocError>
    ensures { OnOk result (string_bytes text.new ≡ string_bytes text.old ++ state_line side (party_of world.now side)) }
{
    let end = world.endpoint(side);
    let phase = end.phase();
    let ending = end.ending();
    write!(text, "state {side} {phase} {ending}")?;
    push_counts(text, world, side)?;
    push_queue(text, end)?;
    push_inbox(text, end)?;
    text.push_str("\n")
}

/// Appends the states of both sides.
pub(crate) fn push_state_lines<A: Allocator>(
    text: &mut String<A>,
    world: &World<A>,
) -> Result<(), AllocError>
    ensures { OnOk result (string_bytes text.new ≡ string_bytes text.old ++ state_lines world.now) }
{
    push_state_line(text, world, Side::A)?;
    push_state_line(text, world, Side::B)
}
