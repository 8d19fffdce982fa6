//! The states of both ends after each event of a script.
ghost use Rattle.std.specs.Prelude.{◌≡◌, ◌++◌, map, IfOk, IfErr, OnOk, string_bytes};
ghost use Rattle.tcp_replay.specs.World.{HasGoodConfigs};
ghost use Rattle.kit_script.specs.Script.{turn_content, script_content, CanBegin};
ghost use Rattle.kit_report.specs.Report.{world_after_turns};
ghost use Rattle.kit_report.specs.Steps.{state_lines, step_lines, steps_text};
ghost use Rattle.kit_report.specs.Faults.{HasReportFault};

use crate::error::ReportError;
use crate::report::new_world;
use crate::states::push_state_lines;
use crate::turns::push_turn_line;
use kit_script::{Script, Turn};
use std::alloc::{AllocError, Allocator};
use tcp_replay::World;

/// Applies all events in order, refused ones too, and appends the line of each and the states of both ends then.
#[tactic(auto, unfolding(crate::specs::Steps::step_lines))]
fn push_step_lines<A: Allocator + Copy>(
    alloc: A,
    text: &mut String<A>,
    world: &mut World<A>,
    events: &[Turn<A>],
) -> Result<(), AllocError>
    ensures { OnOk result (string_bytes text.new ≡ string_bytes text.old ++ step_lines 1 world.old (map turn_content events.now)) }
{
    for (i, turn) in events.iter().enumerate() {
        push_turn_line(alloc, text, world, i + 1, turn)?;
        push_state_lines(text, world)?;
    }
    Ok(())
}

/// The states of both ends of a world now, and after each event.
fn steps_from<A: Allocator + Copy>(
    alloc: A,
    world: &mut World<A>,
    events: &[Turn<A>],
) -> Result<String<A>, AllocError>
    ensures { IfOk result (λ text. string_bytes text ≡ state_lines world.old ++ step_lines 1 world.old (map turn_content events.now)) }
{
    let mut text = String::new(alloc);
    push_state_lines(&mut text, world)?;
    push_step_lines(alloc, &mut text, world, events)?;
    Ok(text)
}

/// The steps of a script: two lines with the states of both ends, and then for each event its line of the report and
/// two such lines. `NoMemory` can come at any turn.
#[tactic(auto, unfolding(crate::specs::Steps::steps_text))]
pub fn make_steps<A: Allocator + Copy>(
    alloc: A,
    script: &Script<A>,
) -> Result<String<A>, ReportError>
    requires { CanBegin script.now }
    ensures text { IfOk result (λ text. string_bytes text ≡ steps_text (script_content script.now)) }
    ensures good { OnOk result (HasGoodConfigs script.now.a script.now.b) }
    ensures fault { IfErr result (HasReportFault (script_content script.now)) }
{
    let mut world = new_world(alloc, script)?;
    let text = steps_from(alloc, &mut world, &script.events)?;
    Ok(text)
}
