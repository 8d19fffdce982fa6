ghost use Rattle.std.specs.Prelude.{◌≡◌, ◌+◌, ◌*◌, ◌≤◌, ◌++◌, length, map, drop};
ghost use Rattle.std.specs.List.{flat_map};
ghost use Rattle.tcp_wire.specs.Options.{IsSpellable, AreSpellable, block_bytes, spelling, spellings};
ghost use Rattle.tcp_wire.specs.View.{block, option_content};

use crate::option::TcpOption;
use byteorder::{BigEndian, ByteOrder};
use tcp_numbers::Seq;

/// Writes the two edges of a block.
fn write_block(edges: (Seq, Seq), out: &mut [u8])
    requires { 8 ≤ length out.old }
    ensures { out.new ≡ block_bytes (block edges) ++ drop 8 out.old }
{
    BigEndian::write_u32(out, edges.0.0);
    BigEndian::write_u32(&mut out[4..], edges.1.0);
}

/// Writes blocks one after another.
fn write_blocks(blocks: &[(Seq, Seq)], out: &mut [u8])
    requires few { length blocks.now ≤ 4 }
    requires room { 8 * length blocks.now ≤ length out.old }
    ensures { out.new ≡ flat_map block_bytes (map block blocks.now) ++ drop (8 * length blocks.now) out.old }
{
    for (i, edges) in blocks.iter().enumerate() {
        write_block(*edges, &mut out[8 * i..]);
    }
}

/// Writes one option, and returns its length.
fn write_option(option: &TcpOption<'_>, out: &mut [u8]) -> usize
    requires spellable { IsSpellable (option_content option.now) }
    requires room { length (spelling (option_content option.now)) ≤ length out.old }
    ensures len { result ≡ length (spelling (option_content option.now)) }
    ensures written { out.new ≡ spelling (option_content option.now) ++ drop (length (spelling (option_content option.now))) out.old }
{
    match option {
        TcpOption::Nop => {
            out[0] = 1;
            1
        }
        TcpOption::Mss(size) => {
            out[0] = 2;
            out[1] = 4;
            BigEndian::write_u16(&mut out[2..], *size);
            4
        }
        TcpOption::WindowScale(shift) => {
            out[0] = 3;
            out[1] = 3;
            out[2] = *shift;
            3
        }
        TcpOption::SackPermitted => {
            out[0] = 4;
            out[1] = 2;
            2
        }
        TcpOption::Sack(blocks) => {
            let len = 8 * blocks.len() + 2;
            out[0] = 5;
            out[1] = len as u8;
            write_blocks(blocks.as_slice(), &mut out[2..]);
            len
        }
        TcpOption::Unknown { kind, body } => {
            let len = body.len() + 2;
            out[0] = *kind;
            out[1] = len as u8;
            out[2..len].copy_from_slice(body);
            len
        }
    }
}

/// Writes options one after another, and returns the length of all.
pub(crate) fn write_options(options: &[TcpOption<'_>], out: &mut [u8]) -> usize
    requires spellable { AreSpellable (map option_content options.now) }
    requires room { length (spellings (map option_content options.now)) ≤ length out.old }
    ensures len { result ≡ length (spellings (map option_content options.now)) }
    ensures written { out.new ≡ spellings (map option_content options.now) ++ drop (length (spellings (map option_content options.now))) out.old }
{
    let mut at = 0;
    for option in options {
        at += write_option(option, &mut out[at..]);
    }
    at
}
