ghost use Rattle.std.specs.Prelude.{◌≡◌, ◌<◌, ◌^◌, ◌++◌, ◌∷◌, [], None, Some, MatchOption, IsSome, IfSome, IfOk, OnOk, length, false, true};
ghost use Rattle.std.specs.Io.KnownBytes.{IsAtEnd};
ghost use Rattle.capture_form.specs.Pcap.{form_of, is_damaged, record_at};
ghost use Rattle.capture_window.specs.Windows.{Holds, HoldsBehind, first_wire, wires};

use crate::window::Window;
use capture_form::{Form, is_damaged, read_form, read_record};
use kit_io::{Input, ReadError};
use std::alloc::Allocator;

/// The bytes that one read requests.
const CHUNK: usize = 65536;

/// How many bytes of a capture tell its form.
const HEAD: usize = 24;

/// Reads once, and answers whether anything was read. The buffer is here, so that what finds enough in the window doesn't
/// pay for it.
#[inline(never)]
pub(crate) fn read_on<I: Input, A: Allocator>(
    input: &mut I,
    window: &mut Window<A>,
) -> Result<bool, ReadError>
    ensures held { OnOk result (Holds (I.remaining input.old) window.old (I.remaining input.new) window.new) }
    ensures more { IfOk result (λ some. some ≡ true → length window.old < length window.new) }
    ensures room { IfOk result (λ some. some ≡ true → length window.new < 2 ^ 63) }
    ensures same { IfOk result (λ some. some ≡ false → window.new ≡ window.old) }
    ensures end { IfOk result (λ some. some ≡ false → IsAtEnd (I.remaining input.new)) }
{
    let mut buffer = [0u8; CHUNK];
    match input.read(&mut buffer) {
        Err(_) => Err(ReadError::Fault),
        Ok(0) => Ok(false),
        Ok(count) => {
            window.push(&buffer[..count])?;
            Ok(true)
        }
    }
}

/// Reads on until the window holds this many bytes, or the input ends.
pub fn fill_to<I: Input, A: Allocator>(
    count: usize,
    input: &mut I,
    window: &mut Window<A>,
) -> Result<(), ReadError>
    ensures held { OnOk result (Holds (I.remaining input.old) window.old (I.remaining input.new) window.new) }
    ensures met { OnOk result (length window.new < count → IsAtEnd (I.remaining input.new)) }
{
    while window.bytes().len() < count {
        if !read_on(input, window)? {
            return Ok(());
        }
    }
    Ok(())
}

/// Reads the form of a capture and takes the bytes that tell it. Where it is none in the pcap form, what was read stays in
/// the window.
pub fn open<I: Input, A: Allocator>(
    input: &mut I,
    window: &mut Window<A>,
) -> Result<Option<Form>, ReadError>
    ensures form { IfOk result (λ form. IfSome (I.remaining input.old) (λ bytes. form ≡ form_of (window.old ++ bytes))) }
    ensures behind { IfOk result (λ form. IsSome form → HoldsBehind (I.remaining input.old) window.old (I.remaining input.new) window.new) }
    ensures held { IfOk result (λ form. form ≡ None → Holds (I.remaining input.old) window.old (I.remaining input.new) window.new) }
{
    fill_to(HEAD, input, window)?;
    let Some(form) = read_form(window.bytes()) else {
        return Ok(None);
    };
    window.pass(HEAD);
    Ok(Some(form))
}

/// Reads on until a record begins what the window holds, and answers whether one does: none does where the input ends, or
/// where a damaged record begins it.
pub fn fill<I: Input, A: Allocator>(
    form: Form,
    input: &mut I,
    window: &mut Window<A>,
) -> Result<bool, ReadError>
    ensures held { OnOk result (Holds (I.remaining input.old) window.old (I.remaining input.new) window.new) }
    ensures whole { IfOk result (λ found. found ≡ true → IsSome (record_at form window.new)) }
    ensures end { IfOk result (λ found. found ≡ false → record_at form window.new ≡ None) }
    ensures met { IfOk result (λ found. found ≡ false → is_damaged form window.new ≡ false → IsAtEnd (I.remaining input.new)) }
{
    loop {
        if read_record(form, window.bytes()).is_some() {
            return Ok(true);
        }
        if is_damaged(form, window.bytes()) {
            return Ok(false);
        }
        if !read_on(input, window)? {
            return Ok(false);
        }
    }
}

/// Takes the record that begins what the window holds, and answers its frame's length on the wire.
pub fn pass_record<A: Allocator>(form: Form, window: &mut Window<A>) -> Option<u32>
    ensures { MatchOption result (record_at form window.old ≡ None) (λ wire. first_wire form window.old ≡ Some (wire, window.new)) }
{
    let (wire, left) = match read_record(form, window.bytes()) {
        Some((frame, rest)) => (frame.wire, rest.len()),
        None => return None,
    };
    let taken = window.bytes().len() - left;
    window.pass(taken);
    Some(wire)
}

/// Adds a length at the end.
pub(crate) fn keep<A: Allocator>(found: &mut Vec<u32, A>, wire: u32) -> Result<(), ReadError>
    ensures { OnOk result (found.new.items ≡ found.old.items ++ wire ∷ []) }
{
    if found.push(wire).is_err() {
        return Err(ReadError::NoMemory);
    }
    Ok(())
}

/// The lengths on the wire of the frames that the window and its input hold, behind a capture's form: all those of the
/// capture, though never more than a record and what one read gives are held at once.
pub fn wire_lengths<I: Input, A: Allocator>(
    alloc: A,
    form: Form,
    input: &mut I,
    window: &mut Window<A>,
) -> Result<Vec<u32, A>, ReadError>
    ensures { IfOk result (λ found. IfSome (I.remaining input.old) (λ bytes. found.items ≡ wires form (window.old ++ bytes))) }
{
    let mut found = Vec::new(alloc);
    loop {
        if !fill(form, input, window)? {
            return Ok(found);
        }
        let Some(wire) = pass_record(form, window) else {
            return Ok(found);
        };
        keep(&mut found, wire)?;
    }
}
