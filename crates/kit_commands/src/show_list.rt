//! The listing of an input's segments.
ghost use Rattle.std.specs.Prelude.{◌≡◌, ◌≢◌, ◌+◌, IfOk, IfErr, IfSome, OnOk, Ok, IsErrOf};
ghost use Rattle.kit_commands.specs.Replay.{OnText};
ghost use Rattle.kit_commands.specs.Show.{WritesListing, EndsListing, IsShowFault};

use crate::errors::ToolError;
use crate::listing::list_segments;
use kit_io::{Input, Output, read_all, write_all};
use std::alloc::Global;

/// Lists a text's segments, writes the listing, and then returns. Where a bad line comes before any segment, nothing
/// has to be written.
fn show_text<O: Output>(alloc: Global, text: &[u8], output: &mut O) -> Result<bool, ToolError>
    ensures listing { IfOk result (λ well. WritesListing text.now (O.contents output.old) (O.contents output.new) (Ok well)) }
    ensures refusal { IfErr result (EndsListing text.now (O.contents output.old) (O.contents output.new)) }
    ensures unmade { IsErrOf result ToolError.NoMemory → output.new ≡ output.old }
    ensures flushed { OnText result (O.unflushed output.old ≡ 0 → O.unflushed output.new ≡ 0) }
    ensures unfailed { OnText result (O.failures output.new ≡ O.failures output.old) }
    ensures write_fault { IsErrOf result ToolError.WriteFault → O.failures output.new ≡ O.failures output.old + 1 }
    ensures faults { IfErr result IsShowFault }
    ensures unread { IfErr result (λ e. e ≢ ToolError.ReadFault) }
{
    let listing = list_segments(alloc, text)?;
    if !listing.text.is_empty() {
        write_all(output, listing.text.as_bytes())?;
    }
    match listing.answer {
        Ok(is_well) => Ok(is_well),
        Err(line) => Err(ToolError::BadLine { line }),
    }
}

/// Reads a list of segments to its end, and writes the meaning of each, up to the first bad line if there is one.
/// Returns whether no segment was malformed. At `BadLine` all that comes before that line was written, at `WriteFault`
/// a prefix of the listing, at `ReadFault` and `NoMemory` nothing. `Config` never comes.
pub fn show<I: Input, O: Output>(
    alloc: Global,
    input: &mut I,
    output: &mut O,
) -> Result<bool, ToolError>
    // Where the bytes of the input are known, their whole listing was written.
    ensures listing { IfOk result (λ well. IfSome (I.remaining input.old) (λ text. WritesListing text (O.contents output.old) (O.contents output.new) (Ok well))) }
    ensures refusal { IfErr result (λ e. IfSome (I.remaining input.old) (λ text. EndsListing text (O.contents output.old) (O.contents output.new) e)) }
    ensures faults { IfErr result IsShowFault }
    ensures unread { IsErrOf result ToolError.ReadFault → output.new ≡ output.old }
    ensures unmade { IsErrOf result ToolError.NoMemory → output.new ≡ output.old }
    ensures flushed { OnText result (O.unflushed output.old ≡ 0 → O.unflushed output.new ≡ 0) }

    // Neither a listing nor a bad line comes without the input's end, or with a failure.
    ensures ended { OnText result (I.ends input.new ≡ I.ends input.old + 1) }
    ensures unfailed_input { OnText result (I.failures input.new ≡ I.failures input.old) }
    ensures unfailed_output { OnText result (O.failures output.new ≡ O.failures output.old) }
    ensures read_fault { IsErrOf result ToolError.ReadFault → I.failures input.new ≡ I.failures input.old + 1 }
    ensures write_fault { IsErrOf result ToolError.WriteFault → O.failures output.new ≡ O.failures output.old + 1 }
{
    let text = read_all(alloc, input)?;
    show_text(alloc, &text, output)
}
