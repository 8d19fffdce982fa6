//! The frames of a capture, each given to somebody.
ghost use Rattle.std.specs.Prelude.{◌≡◌, ◌++◌, length, None, Some, MatchOption, IfSome, IfOk};
ghost use Rattle.capture_form.specs.Sections.{step_at};
ghost use Rattle.capture_window.specs.Windows.{wires, section_wires, wire_step, more_frames};

use crate::reading::{fill, pass_record};
use crate::sections::{fill_block, pass_to};
use crate::window::Window;
use capture_form::pcapng::{Section, Step};
use capture_form::{Form, Frame, read_record};
use kit_io::{Input, ReadError};
use std::alloc::Allocator;

/// Who takes the frames of a capture, one after another.
pub trait Taker {
    /// Takes a frame: its number, counted from 1.
    fn take(&mut self, number: usize, frame: &Frame<'_>) -> Result<(), ReadError>;
}

/// So many frames, and one more where a block or record is one. No capture has 2^64.
fn count_one(frames: usize, wire: Option<u32>) -> Result<usize, ReadError>
    ensures { IfOk result (λ count. count ≡ more_frames frames wire) }
{
    match wire {
        None => Ok(frames),
        Some(_) => frames.checked_add(1).ok_or(ReadError::Fault),
    }
}

/// Gives the frame whose record begins these bytes.
fn give_first<T: Taker>(
    taker: &mut T,
    number: usize,
    form: Form,
    bytes: &[u8],
) -> Result<(), ReadError> {
    match read_record(form, bytes) {
        Some((frame, _)) => taker.take(number, &frame),
        None => Ok(()),
    }
}

/// Gives the frames that the window and its input hold, behind a capture's form, and answers how many there are: all those
/// of the capture, though never more than a record and what one read gives are held at once.
pub fn take_frames<I: Input, A: Allocator, T: Taker>(
    form: Form,
    input: &mut I,
    window: &mut Window<A>,
    taker: &mut T,
) -> Result<usize, ReadError>
    ensures { IfOk result (λ count. IfSome (I.remaining input.old) (λ bytes. count ≡ length (wires form (window.old ++ bytes)))) }
{
    let mut count = 0usize;
    loop {
        if !fill(form, input, window)? {
            return Ok(count);
        }
        give_first(taker, count.saturating_add(1), form, window.bytes())?;
        let Some(wire) = pass_record(form, window) else {
            return Ok(count);
        };
        count = count_one(count, Some(wire))?;
    }
}

/// Takes the block that begins what the window holds, and gives the frame that it is, if it is a packet; the answer is the
/// frame's length on the wire, and `None` where no block begins it, or a damaged one.
fn take_block<A: Allocator, T: Taker>(
    section: &mut Section<A>,
    window: &mut Window<A>,
    number: usize,
    taker: &mut T,
) -> Result<Option<Option<u32>>, ReadError>
    ensures { IfOk result (λ passed. MatchOption passed (step_at section.old window.old ≡ None) (λ wire. wire_step section.old window.old ≡ Some ((section.new, wire), window.new))) }
{
    let Ok(step) = section.step(window.bytes()) else {
        return Err(ReadError::NoMemory);
    };
    match step {
        Step::NoBlock => Ok(None),
        Step::Passed(rest) => {
            let left = rest.len();
            pass_to(left, window);
            Ok(Some(None))
        }
        Step::Packet(frame, rest) => {
            taker.take(number, &frame)?;
            let wire = frame.wire;
            let left = rest.len();
            pass_to(left, window);
            Ok(Some(Some(wire)))
        }
    }
}

/// The same of a capture in the pcapng form, in a section that may have begun.
pub fn take_sections<I: Input, A: Allocator, T: Taker>(
    section: &mut Section<A>,
    input: &mut I,
    window: &mut Window<A>,
    taker: &mut T,
) -> Result<usize, ReadError>
    ensures { IfOk result (λ count. IfSome (I.remaining input.old) (λ bytes. count ≡ length (section_wires section.old (window.old ++ bytes)))) }
{
    let mut count = 0usize;
    for _block in 0..usize::MAX {
        if !fill_block(section, input, window)? {
            return Ok(count);
        }
        let wire = match take_block(section, window, count.saturating_add(1), taker)? {
            None => return Ok(count),
            Some(wire) => wire,
        };
        count = count_one(count, wire)?;
    }
    Err(ReadError::Fault)
}
