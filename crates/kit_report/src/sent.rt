//! All segments that the run of a script emits, as bytes.
ghost use Rattle.std.specs.Prelude.{◌≡◌, ◌++◌, map, IfOk, IfErr, OnOk, string_bytes};
ghost use Rattle.tcp_replay.specs.World.{HasGoodConfigs};
ghost use Rattle.kit_script.specs.Script.{turn_content, script_content, CanBegin};
ghost use Rattle.kit_report.specs.Ends.{sent_line, sent_lines, sent_text};
ghost use Rattle.kit_report.specs.Faults.{HasReportFault};
ghost use Rattle.kit_report.specs.Report.{world_after_turns};

use crate::error::ReportError;
use crate::outcomes::{address_of, other, segment_at};
use crate::report::new_world;
use crate::shown::apply_all;
use kit_script::{Script, Turn};
use kit_text::push_bytes;
use std::alloc::{AllocError, Allocator};
use tcp_replay::{Side, World};

/// Appends a segment of this side as a line of a list.
#[tactic(auto, unfolding(crate::specs::Ends::sent_line))]
fn push_sent_line<A: Allocator + Copy>(
    alloc: A,
    text: &mut String<A>,
    world: &World<A>,
    side: Side,
    bytes: &[u8],
) -> Result<(), AllocError>
    ensures { OnOk result (string_bytes text.new ≡ string_bytes text.old ++ sent_line world.now side bytes.now) }
{
    let src = address_of(world, side);
    let dst = address_of(world, other(side));
    write!(text, "{src} {dst} ")?;
    push_bytes(alloc, text, bytes)?;
    text.push_str("\n")
}

/// Appends all segments of this side.
fn push_sent_lines<A: Allocator + Copy>(
    alloc: A,
    text: &mut String<A>,
    world: &World<A>,
    side: Side,
) -> Result<(), AllocError>
    ensures { OnOk result (string_bytes text.new ≡ string_bytes text.old ++ sent_lines world.now side) }
{
    let count = world.count(side);
    let mut k = 0usize;
    while k < count {
        push_sent_line(alloc, text, world, side, segment_at(world, side, k))?;
        k += 1;
    }
    Ok(())
}

/// All segments that events emit from a world on, and those that it emitted before.
fn sent_after<A: Allocator + Copy>(
    alloc: A,
    world: &mut World<A>,
    events: &[Turn<A>],
) -> Result<String<A>, AllocError>
    ensures { IfOk result (λ text. string_bytes text ≡ sent_lines (world_after_turns world.old (map turn_content events.now)) Side.A ++ sent_lines (world_after_turns world.old (map turn_content events.now)) Side.B) }
{
    apply_all(alloc, world, events)?;
    let mut text = String::new(alloc);
    push_sent_lines(alloc, &mut text, world, Side::A)?;
    push_sent_lines(alloc, &mut text, world, Side::B)?;
    Ok(text)
}

/// All segments that the run of a script emits: a list as `tcpkit decode` reads it, those of side A first. `NoMemory` can
/// come at any turn.
#[tactic(auto, unfolding(crate::specs::Ends::sent_text))]
pub fn list_sent<A: Allocator + Copy>(
    alloc: A,
    script: &Script<A>,
) -> Result<String<A>, ReportError>
    requires { CanBegin script.now }
    ensures text { IfOk result (λ text. string_bytes text ≡ sent_text (script_content script.now)) }
    ensures good { OnOk result (HasGoodConfigs script.now.a script.now.b) }
    ensures fault { IfErr result (HasReportFault (script_content script.now)) }
{
    let mut world = new_world(alloc, script)?;
    let text = sent_after(alloc, &mut world, &script.events)?;
    Ok(text)
}
