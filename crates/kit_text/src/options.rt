//! Options, and blocks of selective acknowledgement.
ghost use Rattle.std.specs.Prelude.{◌≡◌, ◌++◌, OnOk, string_bytes, map, codes, decimal};
ghost use Rattle.tcp_wire.specs.View.{block, option_content};
ghost use Rattle.kit_text.specs.Texts.{block_text, blocks_text, option_text, options_text};

use crate::bytes::push_bytes;
use crate::room::{ROOM, push_from, put, put_number};
use std::alloc::{AllocError, Allocator};
use tcp_wire::{OptionsLeft, Seq, TcpOption};

fn push_block<A: Allocator>(text: &mut String<A>, edges: &(Seq, Seq)) -> Result<(), AllocError>
    ensures { OnOk result (string_bytes text.new ≡ string_bytes text.old ++ block_text (block edges.now)) }
{
    let mut room = [0u8; ROOM];
    let at = put_number(&mut room, ROOM, u64::from(edges.1.0));
    let at = put(&mut room, at, "-");
    let at = put_number(&mut room, at, u64::from(edges.0.0));
    push_from(text, &room, at)
}

/// Appends blocks (RFC 2018, 3), each as its left edge and the number after its last, joined by `+`, or `-` for none.
#[tactic(auto, unfolding(crate::specs::Texts::blocks_text))]
pub fn push_blocks<A: Allocator>(
    text: &mut String<A>,
    blocks: &[(Seq, Seq)],
) -> Result<(), AllocError>
    ensures { OnOk result (string_bytes text.new ≡ string_bytes text.old ++ blocks_text (map block blocks.now)) }
{
    let Some((first, others)) = blocks.split_first() else {
        return text.push_str("-");
    };
    push_block(text, first)?;
    for edges in others {
        text.push_str("+")?;
        push_block(text, edges)?;
    }
    Ok(())
}

fn push_kind<A: Allocator>(text: &mut String<A>, kind: u8) -> Result<(), AllocError>
    ensures { OnOk result (string_bytes text.new ≡ string_bytes text.old ++ (codes "kind" ++ (decimal kind ++ codes ":"))) }
{
    let mut room = [0u8; ROOM];
    let at = put(&mut room, ROOM, ":");
    let at = put_number(&mut room, at, u64::from(kind));
    let at = put(&mut room, at, "kind");
    push_from(text, &room, at)
}

fn push_option<A: Allocator + Copy>(
    alloc: A,
    text: &mut String<A>,
    option: &TcpOption<'_>,
) -> Result<(), AllocError>
    ensures { OnOk result (string_bytes text.new ≡ string_bytes text.old ++ option_text (option_content option.now)) }
{
    match option {
        TcpOption::Nop => text.push_str("nop"),
        TcpOption::Mss(size) => write!(text, "mss:{size}"),
        TcpOption::WindowScale(shift) => write!(text, "ws:{shift}"),
        TcpOption::SackPermitted => text.push_str("sackok"),
        TcpOption::Sack(blocks) => {
            text.push_str("sack:")?;
            push_blocks(text, blocks.as_slice())
        }
        TcpOption::Unknown { kind, body } => {
            push_kind(text, *kind)?;
            push_bytes(alloc, text, body)
        }
    }
}

/// Appends options joined by commas, or `-` for none.
#[tactic(auto, unfolding(crate::specs::Texts::options_text))]
pub fn push_options<A: Allocator + Copy>(
    alloc: A,
    text: &mut String<A>,
    options: &[TcpOption<'_>],
) -> Result<(), AllocError>
    ensures { OnOk result (string_bytes text.new ≡ string_bytes text.old ++ options_text (map option_content options.now)) }
{
    let Some((first, others)) = options.split_first() else {
        return text.push_str("-");
    };
    push_option(alloc, text, first)?;
    for option in others {
        text.push_str(",")?;
        push_option(alloc, text, option)?;
    }
    Ok(())
}

/// Appends the same of options where they are, one by one, without a list.
#[tactic(auto, unfolding(crate::specs::Texts::options_text))]
pub(crate) fn push_options_left<A: Allocator + Copy>(
    alloc: A,
    text: &mut String<A>,
    options: OptionsLeft<'_>,
) -> Result<(), AllocError>
    ensures { OnOk result (string_bytes text.new ≡ string_bytes text.old ++ options_text options.entry) }
{
    let mut left = options;
    let Some(first) = left.next() else {
        return text.push_str("-");
    };
    push_option(alloc, text, &first)?;
    while let Some(option) = left.next() {
        text.push_str(",")?;
        push_option(alloc, text, &option)?;
    }
    Ok(())
}
