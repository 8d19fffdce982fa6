//! What is reported of a script's text.
ghost use Rattle.std.specs.Prelude.{◌≡◌, option_map, IfOk, IfErr, string_bytes};
ghost use Rattle.kit_commands.specs.Replay.{RefusesText};
ghost use Rattle.tcp_web.specs.Answers.{IsNumbers, IsRule, IsSegment, IsSent, IsSteps};

use kit_commands::ToolError;
use kit_report::{list_sent, make_steps, show_numbers, show_rule, show_segment};
use kit_script::read_script_bytes;
use std::alloc::Allocator;
use tcp_replay::Side;

/// The steps of a text.
pub(crate) fn steps_of<A: Allocator + Copy>(alloc: A, text: &[u8]) -> Result<String<A>, ToolError>
    ensures steps { IfOk result (λ steps. IsSteps text.now (string_bytes steps)) }
    ensures refusal { IfErr result (RefusesText text.now) }
{
    let script = read_script_bytes(alloc, text)?;
    let steps = make_steps(alloc, &script)?;
    Ok(steps)
}

/// The meaning of segment `k` of a side in the run of a text.
pub(crate) fn segment_of<A: Allocator + Copy>(
    alloc: A,
    text: &[u8],
    side: Side,
    k: usize,
) -> Result<Option<String<A>>, ToolError>
    ensures segment { IfOk result (λ shown. IsSegment text.now side k (option_map string_bytes shown)) }
    ensures refusal { IfErr result (RefusesText text.now) }
{
    let script = read_script_bytes(alloc, text)?;
    let shown = show_segment(alloc, &script, side, k)?;
    Ok(shown)
}

/// The rule that applies to the segment that event `n` of a text delivers.
pub(crate) fn rule_of<A: Allocator + Copy>(
    alloc: A,
    text: &[u8],
    n: usize,
) -> Result<Option<&'static str>, ToolError>
    ensures rule { IfOk result (λ rule. IsRule text.now n (option_map (λ words. words.now) rule)) }
    ensures refusal { IfErr result (RefusesText text.now) }
{
    let script = read_script_bytes(alloc, text)?;
    let rule = show_rule(alloc, &script, n)?;
    Ok(rule)
}

/// The sequence numbers and timers of both ends after the first `n` events of a text.
pub(crate) fn numbers_of<A: Allocator + Copy>(
    alloc: A,
    text: &[u8],
    n: usize,
) -> Result<String<A>, ToolError>
    ensures numbers { IfOk result (λ numbers. IsNumbers text.now n (string_bytes numbers)) }
    ensures refusal { IfErr result (RefusesText text.now) }
{
    let script = read_script_bytes(alloc, text)?;
    let numbers = show_numbers(alloc, &script, n)?;
    Ok(numbers)
}

/// All segments that the run of a text emits.
pub(crate) fn sent_of<A: Allocator + Copy>(alloc: A, text: &[u8]) -> Result<String<A>, ToolError>
    ensures sent { IfOk result (λ sent. IsSent text.now (string_bytes sent)) }
    ensures refusal { IfErr result (RefusesText text.now) }
{
    let script = read_script_bytes(alloc, text)?;
    let sent = list_sent(alloc, &script)?;
    Ok(sent)
}
