//! The meaning of a segment of a script's run.
ghost use Rattle.std.specs.Prelude.{◌≡◌, ◌++◌, map, option_map, IfOk, IfErr, OnOk, string_bytes};
ghost use Rattle.tcp_replay.specs.World.{HasGoodConfigs};
ghost use Rattle.kit_script.specs.Script.{turn_content, script_content, CanBegin};
ghost use Rattle.kit_report.specs.Report.{world_after_turns};
ghost use Rattle.kit_report.specs.Steps.{segment_text_of, segment_text_at, shown_segment};
ghost use Rattle.kit_report.specs.Faults.{HasReportFault};

use crate::error::ReportError;
use crate::outcomes::{address_of, other};
use crate::report::new_world;
use crate::turns::push_event_lines;
use kit_script::{Script, Turn};
use kit_text::push_meaning;
use std::alloc::{AllocError, Allocator};
use tcp_replay::{Side, World};

/// The meaning of the bytes of a segment of this side.
fn text_of<A: Allocator + Copy>(
    alloc: A,
    world: &World<A>,
    side: Side,
    bytes: &[u8],
) -> Result<String<A>, AllocError>
    ensures { IfOk result (λ text. string_bytes text ≡ segment_text_of world.now side bytes.now) }
{
    let mut text = String::new(alloc);
    let src = address_of(world, side);
    let dst = address_of(world, other(side));
    push_meaning(alloc, &mut text, src, dst, bytes)?;
    Ok(text)
}

/// The meaning of segment `k` of this side, if there is one.
fn text_at<A: Allocator + Copy>(
    alloc: A,
    world: &World<A>,
    side: Side,
    k: usize,
) -> Result<Option<String<A>>, AllocError>
    ensures { IfOk result (λ text. option_map string_bytes text ≡ segment_text_at world.now side k) }
{
    let Some(bytes) = world.sent(side, k) else {
        return Ok(None);
    };
    let text = text_of(alloc, world, side, bytes)?;
    Ok(Some(text))
}

/// Applies all events in order, refused ones too.
pub(crate) fn apply_all<A: Allocator + Copy>(
    alloc: A,
    world: &mut World<A>,
    events: &[Turn<A>],
) -> Result<(), AllocError>
    ensures { OnOk result (world.new ≡ world_after_turns world.old (map turn_content events.now)) }
{
    let mut report = String::new(alloc);
    push_event_lines(alloc, &mut report, world, events)?;
    Ok(())
}

/// The meaning of segment `k`, from 0, that this side emits in the run of a script, as in a listing; `None` where it
/// emits no such segment. `NoMemory` can come at any turn.
#[tactic(auto, unfolding(crate::specs::Steps::shown_segment))]
pub fn show_segment<A: Allocator + Copy>(
    alloc: A,
    script: &Script<A>,
    side: Side,
    k: usize,
) -> Result<Option<String<A>>, ReportError>
    requires { CanBegin script.now }
    ensures text { IfOk result (λ text. option_map string_bytes text ≡ shown_segment (script_content script.now) side k) }
    ensures good { OnOk result (HasGoodConfigs script.now.a script.now.b) }
    ensures fault { IfErr result (HasReportFault (script_content script.now)) }
{
    let mut world = new_world(alloc, script)?;
    apply_all(alloc, &mut world, &script.events)?;
    let text = text_at(alloc, &world, side, k)?;
    Ok(text)
}
