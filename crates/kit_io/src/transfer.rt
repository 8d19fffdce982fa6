//! All bytes of an input, and all bytes to an output.
ghost use Rattle.std.specs.Prelude.{◌≡◌, ◌+◌, ◌<◌, IfOk, OnOk, OnErr, IsErrOf};
ghost use Rattle.std.specs.Io.KnownBytes.{Consumes, IsAtEnd, Appends};
ghost use Rattle.kit_io.specs.Devices.{AppendsFront};

use crate::counted::{Input, Output};
use crate::error::{ReadError, WriteFault};
use std::alloc::Global;

/// The bytes that one read requests.
const CHUNK: usize = 4096;

/// Reads all bytes up to the end of the input.
pub fn read_all<I: Input>(alloc: Global, input: &mut I) -> Result<Vec<u8>, ReadError>
    ensures bytes { IfOk result (λ v. Consumes (I.remaining input.old) (I.remaining input.new) v.items) }
    ensures end { OnOk result (IsAtEnd (I.remaining input.new)) }
    ensures met { OnOk result (I.ends input.new ≡ I.ends input.old + 1) }
    ensures unfailed { OnOk result (I.failures input.new ≡ I.failures input.old) }
    ensures fault { IsErrOf result ReadError.Fault → I.failures input.new ≡ I.failures input.old + 1 }
{
    let mut bytes = Vec::new(alloc);
    let mut buffer = [0u8; CHUNK];
    loop {
        match input.read(&mut buffer) {
            Err(_) => return Err(ReadError::Fault),
            Ok(0) => return Ok(bytes),
            Ok(count) => {
                if bytes.extend_from_slice(&buffer[..count]).is_err() {
                    return Err(ReadError::NoMemory);
                }
            }
        }
    }
}

/// Writes all bytes, and then flushes. After a fault a prefix of them was written.
pub fn write_all<O: Output>(output: &mut O, bytes: &[u8]) -> Result<(), WriteFault>
    ensures written { OnOk result (Appends (O.contents output.old) (O.contents output.new) bytes.now) }
    ensures front { OnErr result (AppendsFront (O.contents output.old) (O.contents output.new) bytes.now) }
    ensures unfailed { OnOk result (O.failures output.new ≡ O.failures output.old) }
    ensures failed { OnErr result (O.failures output.new ≡ O.failures output.old + 1) }
    ensures flushed { OnOk result (O.unflushed output.new ≡ 0) }
{
    let mut at = 0;
    while at < bytes.len() {
        match output.write(&bytes[at..]) {
            Err(_) => return Err(WriteFault),
            Ok(0) => return Err(WriteFault),
            Ok(count) => at += count,
        }
    }
    if output.flush().is_err() {
        return Err(WriteFault);
    }
    Ok(())
}
