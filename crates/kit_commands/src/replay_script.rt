//! The replay of a script.
ghost use Rattle.std.specs.Prelude.{◌≡◌, ◌≢◌, ◌+◌, IfOk, IfErr, IfSome, OnOk, IsErrOf, string_bytes};
ghost use Rattle.kit_commands.specs.Replay.{IsReport, OnText, BeforeWriting, WritesReport, WritesFront, RefusesText};

use crate::errors::ToolError;
use kit_io::{Input, Output, read_all, write_all};
use kit_report::{Report, make_report};
use kit_script::read_script_bytes;
use std::alloc::{Allocator, Global};

/// The report of a text of any bytes; an error for its first bad line, or for a Config from which no end can be made.
pub fn report_of<A: Allocator + Copy>(alloc: A, text: &[u8]) -> Result<Report<A>, ToolError>
    ensures report { IfOk result (λ report. IsReport text.now (string_bytes report.text) report.is_well) }
    ensures refusal { IfErr result (RefusesText text.now) }
    ensures unread { IfErr result (λ e. e ≢ ToolError.ReadFault) }
    ensures unwritten { IfErr result (λ e. e ≢ ToolError.WriteFault) }
{
    let script = read_script_bytes(alloc, text)?;
    let report = make_report(alloc, &script)?;
    Ok(report)
}

/// Replays a script, and then writes the report.
fn replay_text<O: Output>(alloc: Global, text: &[u8], output: &mut O) -> Result<bool, ToolError>
    ensures report { IfOk result (WritesReport text.now (O.contents output.old) (O.contents output.new)) }
    ensures refusal { IfErr result (RefusesText text.now) }
    ensures front { IsErrOf result ToolError.WriteFault → WritesFront text.now (O.contents output.old) (O.contents output.new) }
    ensures unwritten { BeforeWriting result (output.new ≡ output.old) }
    ensures unfailed { OnText result (O.failures output.new ≡ O.failures output.old) }
    ensures flushed { OnOk result (O.unflushed output.new ≡ 0) }
    ensures write_fault { IsErrOf result ToolError.WriteFault → O.failures output.new ≡ O.failures output.old + 1 }
    ensures unread { IfErr result (λ e. e ≢ ToolError.ReadFault) }
{
    let report = report_of(alloc, text)?;
    write_all(output, report.text.as_bytes())?;
    Ok(report.is_well)
}

/// Reads a script to its end, replays it between two new ends, and then writes the report and flushes. Returns whether
/// no call and no step was refused. After an `Err` but `WriteFault` nothing was written.
pub fn replay<I: Input, O: Output>(
    alloc: Global,
    input: &mut I,
    output: &mut O,
) -> Result<bool, ToolError>
    // Where the bytes of the input are known, they are a script, and its report was written.
    ensures report { IfOk result (λ well. IfSome (I.remaining input.old) (λ text. WritesReport text (O.contents output.old) (O.contents output.new) well)) }
    ensures refusal { IfErr result (λ e. IfSome (I.remaining input.old) (λ text. RefusesText text e)) }
    ensures front { IsErrOf result ToolError.WriteFault → IfSome (I.remaining input.old) (λ text. WritesFront text (O.contents output.old) (O.contents output.new)) }
    ensures unwritten { BeforeWriting result (output.new ≡ output.old) }
    ensures flushed { OnOk result (O.unflushed output.new ≡ 0) }

    // Neither a report nor a refusal of the text comes without the input's end, or with a failure.
    ensures ended { OnText result (I.ends input.new ≡ I.ends input.old + 1) }
    ensures unfailed_input { OnText result (I.failures input.new ≡ I.failures input.old) }
    ensures unfailed_output { OnText result (O.failures output.new ≡ O.failures output.old) }
    ensures read_fault { IsErrOf result ToolError.ReadFault → I.failures input.new ≡ I.failures input.old + 1 }
    ensures write_fault { IsErrOf result ToolError.WriteFault → O.failures output.new ≡ O.failures output.old + 1 }
{
    let text = read_all(alloc, input)?;
    replay_text(alloc, &text, output)
}
