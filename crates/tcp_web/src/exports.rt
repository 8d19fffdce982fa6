//! The exported functions.
ghost use Rattle.std.specs.Prelude.{◌≡◌, ◌≢◌, ◌≤◌, ◌<◌, ◌⊎◌, true, false, length, take, Some, None, IfSome, IsNone, Ok, Err};
ghost use Rattle.kit_commands.specs.Listing.{listing_of};
ghost use Rattle.kit_commands.specs.Replay.{IsReport};
ghost use Rattle.kit_judge.specs.Verdict.{Reports};
ghost use Rattle.tcp_web.specs.Answers.{well, refused, fault, no_memory, no_room, no_segment, side_of, fault_text, IsOfText, IsFaultLine, IsAnyReport, IsRule, IsSteps, IsSegment, IsNumbers, IsSent, IsListing, WantsRoom, verdict_on, IsVerdict, WantsVerdict, is_set};

use crate::answers::{FAULT, NO_MEMORY, NO_SEGMENT, REFUSED, WELL, put};
use crate::faults::fault_line;
use crate::texts::{numbers_of, rule_of, segment_of, sent_of, steps_of};
use kit_commands::{ToolError, list_segments, report_of};
use kit_judge::{LogError, Report, Shown, judge_text};
use region_heap::{Block, Region};
use std::alloc::Allocator;
use tcp_replay::Side;

/// Writes the line of a fault of the text. Where there was no memory it writes nothing: the block is too small.
fn put_fault<A: Allocator>(alloc: A, error: ToolError, out: &mut [u8], count: &mut usize) -> u32
    ensures of_text { result ≢ no_memory → IsOfText error }
    ensures fault { result ≡ fault → take count.new out.new ≡ fault_text error }
    ensures answers { result ≢ fault → (result ≡ no_memory) ⊎ (result ≡ no_room) }
    ensures fits { result ≤ fault → count.new ≤ length out.old }
    ensures no_memory { result ≡ no_memory → count.new ≡ 0 }
    ensures no_room { result ≡ no_room → (length out.old < count.new) × (count.new ≡ length (fault_text error)) }
{
    *count = 0;
    match error {
        ToolError::BadLine { .. } | ToolError::Config(..) => {}
        // Nothing is read from a device here, or written to one.
        ToolError::NoMemory | ToolError::ReadFault | ToolError::WriteFault => return NO_MEMORY,
    }
    match fault_line(alloc, error) {
        Ok(line) => put(line.as_bytes(), out, count, FAULT),
        Err(_) => NO_MEMORY,
    }
}

/// Writes the report of a script, or the line of its fault.
#[unsafe(no_mangle)]
pub extern "C" fn tcp_web_replay(
    memory: Block,
    script: &[u8],
    out: &mut [u8],
    count: &mut usize,
) -> u32
    ensures well { result ≡ well → IsReport script.now (take count.new out.new) true }
    ensures refused { result ≡ refused → IsReport script.now (take count.new out.new) false }
    ensures fault { result ≡ fault → IsFaultLine script.now (take count.new out.new) }
    ensures fits { result ≤ fault → count.new ≤ length out.old }
    ensures no_memory { result ≡ no_memory → count.new ≡ 0 }
    // Where there is too little room, the length that is required is reported.
    ensures no_room { result ≡ no_room → (length out.old < count.new) × WantsRoom (IsAnyReport script.now) script.now count.new }
    ensures answers { result ≤ no_room }
{
    let region = Region::new(memory);
    match report_of(&region, script) {
        Ok(report) => {
            let answer = if report.is_well { WELL } else { REFUSED };
            put(report.text.as_bytes(), out, count, answer)
        }
        Err(error) => put_fault(&region, error, out, count),
    }
}

/// Writes the steps of a script, or the line of its fault. They are the states of both ends before its events and after
/// each, with the report's line of each. [`WELL`] says that they are written, with refused calls or without.
#[unsafe(no_mangle)]
pub extern "C" fn tcp_web_steps(
    memory: Block,
    script: &[u8],
    out: &mut [u8],
    count: &mut usize,
) -> u32
    ensures well { result ≡ well → IsSteps script.now (take count.new out.new) }
    ensures fault { result ≡ fault → IsFaultLine script.now (take count.new out.new) }
    ensures fits { result ≤ fault → count.new ≤ length out.old }
    ensures no_memory { result ≡ no_memory → count.new ≡ 0 }
    ensures no_room { result ≡ no_room → (length out.old < count.new) × WantsRoom (IsSteps script.now) script.now count.new }
    ensures answers { result ≤ no_room }
    ensures unrefused { result ≢ refused }
{
    let region = Region::new(memory);
    match steps_of(&region, script) {
        Ok(steps) => put(steps.as_bytes(), out, count, WELL),
        Err(error) => put_fault(&region, error, out, count),
    }
}

/// The side of a number.
fn side_of(number: u32) -> Option<Side>
    ensures { result ≡ side_of number }
{
    match number {
        0 => Some(Side::A),
        1 => Some(Side::B),
        _ => None,
    }
}

/// Writes the meaning of the segment `number`, from 0, that a side, 0 for A and 1 for B, emits in the run of a script;
/// or the line of the script's fault.
#[unsafe(no_mangle)]
pub extern "C" fn tcp_web_show(
    memory: Block,
    script: &[u8],
    side: u32,
    number: usize,
    out: &mut [u8],
    count: &mut usize,
) -> u32
    ensures well { result ≡ well → IfSome (side_of side) (λ side. IsSegment script.now side number (Some (take count.new out.new))) }
    ensures fault { result ≡ fault → IsFaultLine script.now (take count.new out.new) }
    ensures none { result ≡ no_segment → IfSome (side_of side) (λ side. IsSegment script.now side number None) }
    ensures no_side { IsNone (side_of side) → result ≡ no_segment }
    ensures nothing { result ≡ no_segment → count.new ≡ 0 }
    ensures fits { result ≤ fault → count.new ≤ length out.old }
    ensures no_memory { result ≡ no_memory → count.new ≡ 0 }
    ensures no_room { result ≡ no_room → (length out.old < count.new) × IfSome (side_of side) (λ side. WantsRoom (λ shown. IsSegment script.now side number (Some shown)) script.now count.new) }
    ensures answers { result ≤ no_segment }
    ensures unrefused { result ≢ refused }
{
    *count = 0;
    let Some(side) = side_of(side) else {
        return NO_SEGMENT;
    };
    let region = Region::new(memory);
    match segment_of(&region, script, side, number) {
        Ok(Some(shown)) => put(shown.as_bytes(), out, count, WELL),
        Ok(None) => NO_SEGMENT,
        Err(error) => put_fault(&region, error, out, count),
    }
}

/// Writes the listing of a list of segments: [`WELL`] where none is malformed, [`REFUSED`] where one is. With a bad
/// line it ends before the first: the answer is [`FAULT`], and `line` is its number, else 0.
#[unsafe(no_mangle)]
pub extern "C" fn tcp_web_list(
    memory: Block,
    list: &[u8],
    out: &mut [u8],
    count: &mut usize,
    line: &mut usize,
) -> u32
    ensures well { result ≡ well → IsListing list.now (take count.new out.new) (Ok true) }
    ensures refused { result ≡ refused → IsListing list.now (take count.new out.new) (Ok false) }
    ensures fault { result ≡ fault → IsListing list.now (take count.new out.new) (Err line.new) }
    ensures no_line { result ≢ fault → line.new ≡ 0 }
    ensures fits { result ≤ fault → count.new ≤ length out.old }
    ensures no_memory { result ≡ no_memory → count.new ≡ 0 }
    ensures no_room { result ≡ no_room → (length out.old < count.new) × (count.new ≡ length (listing_of list.now).text) }
    ensures answers { result ≤ no_room }
{
    *count = 0;
    *line = 0;
    let region = Region::new(memory);
    let Ok(listing) = list_segments(&region, list) else {
        return NO_MEMORY;
    };
    let ending = listing.answer;
    let text = listing.text.as_bytes();
    match ending {
        Ok(is_well) => put(text, out, count, if is_well { WELL } else { REFUSED }),
        Err(number) => {
            let answer = put(text, out, count, FAULT);
            if answer == FAULT {
                *line = number;
            }
            answer
        }
    }
}

/// The report of a log, with a line for each finding or for the first of each rule.
#[tactic(auto, unfolding(crate::specs::Answers::verdict_on))]
fn judged<A: Allocator + Copy>(
    alloc: A,
    log: &[u8],
    is_complete: bool,
    is_first: bool,
) -> Result<Report<A>, LogError>
    ensures { Reports result (verdict_on log.now is_complete is_first) }
{
    if is_first {
        judge_text(alloc, log, is_complete, Shown::FirstOfRule)
    } else {
        judge_text(alloc, log, is_complete, Shown::Each)
    }
}

/// Judges a log of one end, and writes a line for each finding, one for all notes and then the counts: [`WELL`] where no
/// rule is broken, [`REFUSED`] where one is or the end sent nothing. Where `is_complete` is 0 segments may be missing: no
/// rule is tried of order or against what came, and a wrong checksum is a note. Where `is_first` isn't 0 only the first
/// finding of each rule has a line. With a bad line nothing is written: the answer is [`FAULT`], and `line` is its
/// number, else 0.
#[unsafe(no_mangle)]
pub extern "C" fn tcp_web_judge(
    memory: Block,
    log: &[u8],
    is_complete: u32,
    is_first: u32,
    out: &mut [u8],
    count: &mut usize,
    line: &mut usize,
) -> u32
    ensures well { result ≡ well → IsVerdict log.now (is_set is_complete) (is_set is_first) (take count.new out.new) true }
    ensures refused { result ≡ refused → IsVerdict log.now (is_set is_complete) (is_set is_first) (take count.new out.new) false }
    ensures fault { result ≡ fault → verdict_on log.now (is_set is_complete) (is_set is_first) ≡ Err line.new }
    ensures nothing { result ≡ fault → count.new ≡ 0 }
    ensures no_line { result ≢ fault → line.new ≡ 0 }
    ensures fits { result ≤ fault → count.new ≤ length out.old }
    ensures no_memory { result ≡ no_memory → count.new ≡ 0 }
    ensures no_room { result ≡ no_room → (length out.old < count.new) × WantsVerdict log.now (is_set is_complete) (is_set is_first) count.new }
    ensures answers { result ≤ no_room }
{
    *count = 0;
    *line = 0;
    let region = Region::new(memory);
    match judged(&region, log, is_complete != 0, is_first != 0) {
        Ok(report) => {
            let answer = if report.is_clean { WELL } else { REFUSED };
            put(report.text.as_bytes(), out, count, answer)
        }
        Err(LogError::BadLine { line: number }) => {
            *line = number;
            FAULT
        }
        Err(LogError::NoMemory) => NO_MEMORY,
    }
}

/// Writes the name and RFC section of the rule that applies to the segment that event `number`, from 0, of a script
/// delivers (RFC 9293, 3.10.7); or the line of the script's fault. [`NO_SEGMENT`] where there is no such event, or it
/// delivers no segment. For a repeated event it is the rule of the first turn.
#[unsafe(no_mangle)]
pub extern "C" fn tcp_web_rule(
    memory: Block,
    script: &[u8],
    number: usize,
    out: &mut [u8],
    count: &mut usize,
) -> u32
    ensures well { result ≡ well → IsRule script.now number (Some (take count.new out.new)) }
    ensures fault { result ≡ fault → IsFaultLine script.now (take count.new out.new) }
    ensures none { result ≡ no_segment → IsRule script.now number None }
    ensures nothing { result ≡ no_segment → count.new ≡ 0 }
    ensures fits { result ≤ fault → count.new ≤ length out.old }
    ensures no_memory { result ≡ no_memory → count.new ≡ 0 }
    ensures no_room { result ≡ no_room → (length out.old < count.new) × WantsRoom (λ shown. IsRule script.now number (Some shown)) script.now count.new }
    ensures answers { result ≤ no_segment }
    ensures unrefused { result ≢ refused }
{
    *count = 0;
    let region = Region::new(memory);
    match rule_of(&region, script, number) {
        Ok(Some(rule)) => put(rule.as_bytes(), out, count, WELL),
        Ok(None) => NO_SEGMENT,
        Err(error) => put_fault(&region, error, out, count),
    }
}

/// Writes the sequence numbers and timers of both ends after the first `number` events of a script, or after all where
/// there are fewer (RFC 9293, 3.3.1 and 3.10.8); or the line of the script's fault.
#[unsafe(no_mangle)]
pub extern "C" fn tcp_web_numbers(
    memory: Block,
    script: &[u8],
    number: usize,
    out: &mut [u8],
    count: &mut usize,
) -> u32
    ensures well { result ≡ well → IsNumbers script.now number (take count.new out.new) }
    ensures fault { result ≡ fault → IsFaultLine script.now (take count.new out.new) }
    ensures fits { result ≤ fault → count.new ≤ length out.old }
    ensures no_memory { result ≡ no_memory → count.new ≡ 0 }
    ensures no_room { result ≡ no_room → (length out.old < count.new) × WantsRoom (IsNumbers script.now number) script.now count.new }
    ensures answers { result ≤ no_room }
    ensures unrefused { result ≢ refused }
{
    let region = Region::new(memory);
    match numbers_of(&region, script, number) {
        Ok(numbers) => put(numbers.as_bytes(), out, count, WELL),
        Err(error) => put_fault(&region, error, out, count),
    }
}

/// Writes all segments that both sides emit in the run of a script, a list as `tcpkit decode` reads it, those of A
/// first; or the line of the script's fault.
#[unsafe(no_mangle)]
pub extern "C" fn tcp_web_sent(
    memory: Block,
    script: &[u8],
    out: &mut [u8],
    count: &mut usize,
) -> u32
    ensures well { result ≡ well → IsSent script.now (take count.new out.new) }
    ensures fault { result ≡ fault → IsFaultLine script.now (take count.new out.new) }
    ensures fits { result ≤ fault → count.new ≤ length out.old }
    ensures no_memory { result ≡ no_memory → count.new ≡ 0 }
    ensures no_room { result ≡ no_room → (length out.old < count.new) × WantsRoom (IsSent script.now) script.now count.new }
    ensures answers { result ≤ no_room }
    ensures unrefused { result ≢ refused }
{
    let region = Region::new(memory);
    match sent_of(&region, script) {
        Ok(sent) => put(sent.as_bytes(), out, count, WELL),
        Err(error) => put_fault(&region, error, out, count),
    }
}
