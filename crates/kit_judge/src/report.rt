//! The report of a log.
ghost use Rattle.std.specs.Prelude.{◌≡◌, ◌++◌, [], not, IfOk, OnOk, string_bytes};
ghost use Rattle.kit_judge.specs.Findings.{finding_lines};
ghost use Rattle.kit_judge.specs.Verdict.{unless_among, with_rule, firsts, shown, note_text, notes_line, unjudged_line, counts_line, found_content, report_content, report_of_findings, report_of, sends_any, Reports};

use crate::error::LogError;
use crate::finding::{push_finding, rule_of};
use crate::judging::{Findings, find_all};
use kit_text::Lines;
use std::alloc::{AllocError, Allocator, Global};
use tcp_judge::Finding;

/// Which findings have a line.
#[derive(Clone, Copy, Debug, PartialEq, Eq)]
pub enum Shown {
    /// The first of each rule.
    FirstOfRule,
    /// Each.
    Each,
}

/// The report of a log.
#[derive(Debug, Drop)]
pub struct Report<A: Allocator = Global> {
    /// A line for each finding that is shown, one for all notes, one that says what isn't judged where the log
    /// may lack what came, and then the counts of all segments and all findings.
    pub text: String<A>,
    /// Whether the end sent something, and no rule is broken.
    pub is_clean: bool,
    /// Whether the log has no segment that the end sent, so that nothing was judged.
    pub is_empty: bool,
}

/// Appends the lines of all findings.
fn push_each<A: Allocator>(
    text: &mut String<A>,
    found: &[(usize, Finding)],
) -> Result<(), AllocError>
    ensures { OnOk result (string_bytes text.new ≡ string_bytes text.old ++ finding_lines found.now) }
{
    for (line, finding) in found {
        push_finding(text, *line, *finding)?;
    }
    Ok(())
}

/// Appends the line of a finding, and adds its rule, unless that is among these.
fn push_first<A: Allocator>(
    text: &mut String<A>,
    rules: &mut Vec<usize, A>,
    line: usize,
    finding: Finding,
) -> Result<(), AllocError>
    ensures text { OnOk result (string_bytes text.new ≡ string_bytes text.old ++ finding_lines (unless_among rules.old.items (line, finding) [])) }
    ensures rules { OnOk result (rules.new.items ≡ with_rule rules.old.items (line, finding)) }
{
    let rule = rule_of(finding);
    if rules.contains(&rule) {
        return Ok(());
    }
    rules.push(rule)?;
    push_finding(text, line, finding)
}

/// Appends the line of the first finding of each rule.
#[tactic(auto, using(crate::proofs::FirstLines::finding_lines_unless), unfolding(crate::specs::Verdict::firsts))]
fn push_firsts<A: Allocator + Copy>(
    alloc: A,
    text: &mut String<A>,
    found: &[(usize, Finding)],
) -> Result<(), AllocError>
    ensures { OnOk result (string_bytes text.new ≡ string_bytes text.old ++ finding_lines (firsts [] found.now)) }
{
    let mut rules = Vec::new(alloc);
    for (line, finding) in found {
        push_first(text, &mut rules, *line, *finding)?;
    }
    Ok(())
}

/// Appends the number of the notes and the line of the first.
#[tactic(auto, unfolding(crate::specs::Verdict::note_text))]
fn push_note<A: Allocator>(
    text: &mut String<A>,
    count: usize,
    first: usize,
) -> Result<(), AllocError>
    ensures { OnOk result (string_bytes text.new ≡ string_bytes text.old ++ note_text count first) }
{
    write!(
        text,
        "note: wrong checksums: {count}, the first in line {first} (RFC 9293, 3.1)\n"
    )
}

/// Appends the line of the notes, where there are any.
fn push_notes<A: Allocator>(text: &mut String<A>, notes: &[usize]) -> Result<(), AllocError>
    ensures { OnOk result (string_bytes text.new ≡ string_bytes text.old ++ notes_line notes.now) }
{
    if notes.is_empty() {
        return Ok(());
    }
    push_note(text, notes.len(), notes[0])
}

/// Appends what isn't judged of a log that may lack segments.
fn push_unjudged<A: Allocator>(text: &mut String<A>, is_complete: bool) -> Result<(), AllocError>
    ensures { OnOk result (string_bytes text.new ≡ string_bytes text.old ++ unjudged_line is_complete) }
{
    if is_complete {
        return Ok(());
    }
    text.push_str(
        "note: order, acknowledgements and blocks aren't judged, as segments may be missing\n",
    )
}

/// Appends the counts.
#[tactic(auto, unfolding(crate::specs::Verdict::counts_line))]
fn push_counts<A: Allocator>(
    text: &mut String<A>,
    segments: usize,
    findings: usize,
) -> Result<(), AllocError>
    ensures { OnOk result (string_bytes text.new ≡ string_bytes text.old ++ counts_line segments findings) }
{
    write!(text, "segments {segments} findings {findings}\n")
}

/// The report of findings.
fn report_of<A: Allocator + Copy>(
    alloc: A,
    findings: &Findings<A>,
    is_complete: bool,
    shown: Shown,
) -> Result<Report<A>, AllocError>
    ensures report { IfOk result (λ report. report_content report ≡ report_of_findings shown is_complete (found_content findings.now)) }
    ensures empty { IfOk result (λ report. report.is_empty ≡ not findings.now.any_sent) }
{
    let mut text = String::new(alloc);
    match shown {
        Shown::FirstOfRule => push_firsts(alloc, &mut text, &findings.found)?,
        Shown::Each => push_each(&mut text, &findings.found)?,
    }
    push_notes(&mut text, &findings.notes)?;
    push_unjudged(&mut text, is_complete)?;
    let count = findings.found.len();
    push_counts(&mut text, findings.segments, count)?;
    Ok(Report {
        text,
        is_clean: findings.any_sent && count == 0,
        is_empty: !findings.any_sent,
    })
}

/// The report of a log of any bytes: a line for each segment that was sent and breaks a rule, or for the first of each
/// rule, and then the counts. `is_complete` says that no segment is missing: only then order, acknowledgements and blocks
/// are judged, and a wrong checksum is a finding; else it is a note. `NoMemory` can come at any line.
#[tactic(auto, unfolding(crate::specs::Verdict::report_of, crate::specs::Verdict::sends_any))]
pub fn judge_text<A: Allocator + Copy>(
    alloc: A,
    text: &[u8],
    is_complete: bool,
    shown: Shown,
) -> Result<Report<A>, LogError>
    ensures report { Reports result (report_of shown is_complete text.now) }
    ensures empty { IfOk result (λ report. report.is_empty ≡ not (sends_any text.now)) }
{
    let lines = match Lines::new(text) {
        Ok(lines) => lines,
        Err(line) => return Err(LogError::BadLine { line }),
    };
    let findings = match find_all(alloc, lines, is_complete) {
        Ok(findings) => findings,
        Err(error) => return Err(error),
    };
    let report = report_of(alloc, &findings, is_complete, shown)?;
    Ok(report)
}
