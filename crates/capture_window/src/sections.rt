//! A capture in the pcapng form.
ghost use Rattle.std.specs.Prelude.{◌≡◌, ◌-◌, ◌≤◌, ◌++◌, drop, length, None, Some, MatchOption, IfSome, IfOk, OnOk, false, true};
ghost use Rattle.std.specs.Io.KnownBytes.{IsAtEnd};
ghost use Rattle.capture_form.specs.Blocks.{order_at, is_whole, is_broken};
ghost use Rattle.capture_form.specs.Sections.{step_at};
ghost use Rattle.capture_window.specs.Windows.{Holds, wire_step, section_wires, more_wires};

use crate::reading::{keep, read_on};
use crate::window::Window;
use capture_form::pcapng::{Section, Step};
use kit_io::{Input, ReadError};
use std::alloc::Allocator;

/// Reads on until a whole block begins what the window holds, and answers whether one does: none does where the input
/// ends, or where a broken block begins it.
pub fn fill_block<I: Input, A: Allocator>(
    section: &Section<A>,
    input: &mut I,
    window: &mut Window<A>,
) -> Result<bool, ReadError>
    ensures held { OnOk result (Holds (I.remaining input.old) window.old (I.remaining input.new) window.new) }
    ensures whole { IfOk result (λ found. found ≡ is_whole (order_at section.now.order window.new) window.new) }
    ensures met { IfOk result (λ found. found ≡ false → is_broken (order_at section.now.order window.new) window.new ≡ false → IsAtEnd (I.remaining input.new)) }
{
    loop {
        if section.has_block(window.bytes()) {
            return Ok(true);
        }
        if section.is_broken(window.bytes()) {
            return Ok(false);
        }
        if !read_on(input, window)? {
            return Ok(false);
        }
    }
}

/// Takes all but the last `left` bytes.
pub(crate) fn pass_to<A: Allocator>(left: usize, window: &mut Window<A>)
    requires { left ≤ length window.old }
    ensures { window.new ≡ drop (length window.old - left) window.old }
{
    let taken = window.bytes().len() - left;
    window.pass(taken);
}

/// Takes the block that begins what the window holds, and answers the length on the wire of the frame that it is, if it is
/// a packet; `None` where no block begins it, or a damaged one.
pub fn pass_block<A: Allocator>(
    section: &mut Section<A>,
    window: &mut Window<A>,
) -> Result<Option<Option<u32>>, ReadError>
    ensures { IfOk result (λ passed. MatchOption passed (step_at section.old window.old ≡ None) (λ wire. wire_step section.old window.old ≡ Some ((section.new, wire), window.new))) }
{
    let Ok(step) = section.step(window.bytes()) else {
        return Err(ReadError::NoMemory);
    };
    match step {
        Step::NoBlock => Ok(None),
        Step::Passed(rest) => {
            let left = rest.len();
            pass_to(left, window);
            Ok(Some(None))
        }
        Step::Packet(frame, rest) => {
            let wire = frame.wire;
            let left = rest.len();
            pass_to(left, window);
            Ok(Some(Some(wire)))
        }
    }
}

/// Adds the length of the frame that a block is, if it is a packet.
fn keep_wire<A: Allocator>(found: &mut Vec<u32, A>, wire: Option<u32>) -> Result<(), ReadError>
    ensures { OnOk result (found.new.items ≡ more_wires found.old.items wire) }
{
    match wire {
        None => Ok(()),
        Some(wire) => keep(found, wire),
    }
}

/// The lengths on the wire of the frames that the window and its input hold, in a section that may have begun: all those
/// of the capture, though never more than a block and what one read gives are held at once. No capture has 2^64 blocks.
pub fn section_lengths<I: Input, A: Allocator>(
    alloc: A,
    section: &mut Section<A>,
    input: &mut I,
    window: &mut Window<A>,
) -> Result<Vec<u32, A>, ReadError>
    ensures { IfOk result (λ found. IfSome (I.remaining input.old) (λ bytes. found.items ≡ section_wires section.old (window.old ++ bytes))) }
{
    let mut found = Vec::new(alloc);
    for _block in 0..usize::MAX {
        if !fill_block(section, input, window)? {
            return Ok(found);
        }
        let wire = match pass_block(section, window)? {
            None => return Ok(found),
            Some(wire) => wire,
        };
        keep_wire(&mut found, wire)?;
    }
    Err(ReadError::Fault)
}
