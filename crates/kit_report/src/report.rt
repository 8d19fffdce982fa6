//! The report of a script.
ghost use Rattle.std.specs.Prelude.{◌≡◌, ◌++◌, map, IfOk, IfErr, OnOk, string_bytes};
ghost use Rattle.tcp_replay.specs.World.{party_of, HasGoodConfigs};
ghost use Rattle.kit_script.specs.Script.{turn_content, script_content, CanBegin};
ghost use Rattle.kit_report.specs.Report.{world_after_turns, event_lines, is_well, counts_text, end_line, end_lines, first_world, report_text, report_is_well};
ghost use Rattle.kit_report.specs.Faults.{HasReportFault};

use crate::error::ReportError;
use crate::names::yes_or_no;
use crate::turns::push_event_lines;
use kit_script::{Script, Turn};
use std::alloc::{AllocError, Allocator, Global};
use tcp_conn::ConfigError;
use tcp_replay::{Side, World, WorldError};

/// A report, and whether it has no refusal.
#[derive(Debug, Drop)]
pub struct Report<A: Allocator = Global> {
    /// A line for each event, and then one for each side.
    pub text: String<A>,
    /// Whether no call and no step was refused.
    pub is_well: bool,
}

/// Appends the counts of a side.
#[tactic(auto, unfolding(crate::specs::Report::counts_text))]
pub(crate) fn push_counts<A: Allocator>(
    text: &mut String<A>,
    world: &World<A>,
    side: Side,
) -> Result<(), AllocError>
    ensures { OnOk result (string_bytes text.new ≡ string_bytes text.old ++ counts_text (party_of world.now side)) }
{
    let end = world.endpoint(side);
    let accepted = world.accepted(side).len();
    let delivered = world.delivered(side).len();
    let released = end.released();
    let ordered = end.ordered();
    let sent = world.count(side);
    let ended = yes_or_no(world.ended(side));
    write!(
        text,
        " accepted {accepted} delivered {delivered} released {released} ordered {ordered} sent {sent} ended {ended}"
    )
}

/// Appends the last line of a side.
#[tactic(auto, unfolding(crate::specs::Report::end_line))]
fn push_end_line<A: Allocator>(
    text: &mut String<A>,
    world: &World<A>,
    side: Side,
) -> Result<(), AllocError>
    ensures { OnOk result (string_bytes text.new ≡ string_bytes text.old ++ end_line side (party_of world.now side)) }
{
    let end = world.endpoint(side);
    let phase = end.phase();
    let ending = end.ending();
    write!(text, "end {side} {phase} {ending}")?;
    push_counts(text, world, side)?;
    text.push_str("\n")
}

/// Appends the whole report of events between two new ends; returns whether none was refused.
fn push_report<A: Allocator + Copy>(
    alloc: A,
    text: &mut String<A>,
    world: &mut World<A>,
    events: &[Turn<A>],
) -> Result<bool, AllocError>
    ensures lines { OnOk result (string_bytes text.new ≡ string_bytes text.old ++ (event_lines 1 world.old (map turn_content events.now) ++ end_lines (world_after_turns world.old (map turn_content events.now)))) }
    ensures well { IfOk result (λ well. well ≡ is_well world.old (map turn_content events.now)) }
{
    let is_well = push_event_lines(alloc, text, world, events)?;
    push_end_line(text, world, Side::A)?;
    push_end_line(text, world, Side::B)?;
    Ok(is_well)
}

/// Two new ends.
pub(crate) fn new_world<A: Allocator + Copy>(
    alloc: A,
    script: &Script<A>,
) -> Result<World<A>, ReportError>
    requires { CanBegin script.now }
    ensures new { IfOk result (λ world. world ≡ first_world (script_content script.now)) }
    ensures good { OnOk result (HasGoodConfigs script.now.a script.now.b) }
    ensures fault { IfErr result (HasReportFault (script_content script.now)) }
{
    match World::with_runs_in(
        alloc,
        script.a,
        script.b,
        script.life,
        script.runs_a,
        script.runs_b,
    ) {
        Ok(world) => Ok(world),
        Err(WorldError::Config(_, ConfigError::NoMemory)) => Err(ReportError::NoMemory),
        Err(WorldError::Config(side, fault)) => Err(ReportError::Config(side, fault)),
    }
}

/// The report of events that happen in order to the ends of a world.
fn report_from<A: Allocator + Copy>(
    alloc: A,
    world: &mut World<A>,
    events: &[Turn<A>],
) -> Result<Report<A>, AllocError>
    ensures text { IfOk result (λ report. string_bytes report.text ≡ event_lines 1 world.old (map turn_content events.now) ++ end_lines (world_after_turns world.old (map turn_content events.now))) }
    ensures well { IfOk result (λ report. report.is_well ≡ is_well world.old (map turn_content events.now)) }
{
    let mut text = String::new(alloc);
    let is_well = push_report(alloc, &mut text, world, events)?;
    Ok(Report { text, is_well })
}

/// The report of a script whose events happen in order to two new ends, with a lifetime that two ends can have.
/// `NoMemory` can come at any turn.
#[tactic(auto, unfolding(crate::specs::Report::report_text, crate::specs::Report::report_is_well))]
pub fn make_report<A: Allocator + Copy>(
    alloc: A,
    script: &Script<A>,
) -> Result<Report<A>, ReportError>
    requires { CanBegin script.now }
    ensures text { IfOk result (λ report. string_bytes report.text ≡ report_text (script_content script.now)) }
    ensures well { IfOk result (λ report. report.is_well ≡ report_is_well (script_content script.now)) }
    ensures good { OnOk result (HasGoodConfigs script.now.a script.now.b) }
    ensures fault { IfErr result (HasReportFault (script_content script.now)) }
{
    let mut world = new_world(alloc, script)?;
    let report = report_from(alloc, &mut world, &script.events)?;
    Ok(report)
}
