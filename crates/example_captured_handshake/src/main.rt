//! An example: the three segments with which one Linux kernel opened a connection to another's echo server, as they
//! were captured between them, decoded and shown with their options.
#![tactic(auto)]

ghost use Rattle.std.specs.Prelude.{◌≡◌, ◌++◌, codes, IfOk, string_bytes};
ghost use Rattle.tcp_wire.specs.View.{content};
ghost use Rattle.kit_text.specs.Segments.{fields_text};

use kit_text::{push_fields, read_bytes};
use std::alloc::{AllocError, Global};
use std::io;
use std::process::ExitCode;
use tcp_wire::{Addr, Segment, decode};

const CLIENT: Addr = Addr([10, 0, 0, 1]);

const SERVER: Addr = Addr([10, 0, 0, 2]);

const SYN: &[u8] =
    b"9c400007ddbbb8e900000000a002faf07ac10000020405b40402080a05fa8561000000000103030a";

const SYN_ACK: &[u8] =
    b"00079c402001db6fddbbb8eaa012fe8844f00000020405b40402080a9012a6a405fa85610103030a";

const ACK: &[u8] = b"9c400007ddbbb8ea2001db708010003f720900000101080a05fa85619012a6a4";

/// The sender and the content of a segment.
fn line_of(alloc: Global, sender: &str, segment: &Segment<'_>) -> Result<String, AllocError>
    ensures { IfOk result (λ line. string_bytes line ≡ sender.now ++ (codes ": " ++ fields_text (content segment.now))) }
{
    let mut line = format!(in alloc; "{sender}: ")?;
    push_fields(alloc, &mut line, segment)?;
    Ok(line)
}

/// Decodes a segment between two addresses, and prints its content.
fn print_segment(
    rt: &(impl Print + AllocGlobal),
    sender: &str,
    src: Addr,
    dst: Addr,
    digits: &[u8],
) -> io::Result<()> {
    let Ok(bytes) = read_bytes(rt.alloc(), digits) else {
        return Err(io::Error::from(io::ErrorKind::InvalidData));
    };
    match decode(src, dst, &bytes) {
        Ok(segment) => {
            let line = line_of(rt.alloc(), sender, &segment)?;
            println!(rt; "{line}")
        }
        Err(fault) => println!(rt; "{sender}: {fault}"),
    }
}

fn print_handshake(rt: &(impl Print + AllocGlobal)) -> io::Result<()> {
    print_segment(rt, "client", CLIENT, SERVER, SYN)?;
    print_segment(rt, "server", SERVER, CLIENT, SYN_ACK)?;
    print_segment(rt, "client", CLIENT, SERVER, ACK)
}

fn main(rt: HostRuntime) -> ExitCode {
    match print_handshake(&rt) {
        Ok(()) => ExitCode::SUCCESS,
        Err(_) => ExitCode::FAILURE,
    }
}
