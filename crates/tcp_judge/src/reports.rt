//! The rules of the blocks that a segment reports.
ghost use Rattle.std.specs.Prelude.{◌≡◌, map};
ghost use Rattle.tcp_wire.specs.View.{block, option_content};
ghost use Rattle.tcp_judge.specs.Reports.{is_report, any_report, is_ahead, is_block, block_finding, option_finding, options_finding};

use crate::finding::Finding;
use crate::lookup::is_from;
use crate::spans::Spans;
use std::alloc::Allocator;
use tcp_wire::{OptionsLeft, Seq, TcpOption};

fn is_report(option: &TcpOption<'_>) -> bool
    ensures { result ≡ is_report (option_content option.now) }
{
    match option {
        TcpOption::Sack(_) => true,
        _ => false,
    }
}

/// Whether blocks are reported by one of the options.
pub(crate) fn any_report(options: OptionsLeft<'_>) -> bool
    ensures { result ≡ any_report options.entry }
{
    let mut left = options;
    while let Some(option) = left.next() {
        if is_report(&option) {
            return true;
        }
    }
    false
}

/// Whether a block begins at the furthest acknowledgement or after it.
fn is_ahead(acked_number: Option<Seq>, edges: (Seq, Seq)) -> bool
    ensures { result ≡ is_ahead acked_number (block edges) }
{
    match acked_number {
        Some(acked_number) => is_from(acked_number, edges.0),
        None => true,
    }
}

/// Whether a block is of what came, as far as that isn't forgotten.
fn is_block<A: Allocator + Copy>(
    acked_number: Option<Seq>,
    spans: &Spans<A>,
    edges: (Seq, Seq),
) -> bool
    ensures { result ≡ is_block acked_number spans.now (block edges) }
{
    is_from(edges.0, edges.1) && (!is_ahead(acked_number, edges) || spans.goes_on(edges.0, edges.1))
}

/// The first block of what didn't come.
fn block_finding<A: Allocator + Copy>(
    acked_number: Option<Seq>,
    spans: &Spans<A>,
    blocks: &[(Seq, Seq)],
) -> Option<Finding>
    ensures { result ≡ block_finding acked_number spans.now (map block blocks.now) }
{
    for edges in blocks {
        if !is_block(acked_number, spans, *edges) {
            return Some(Finding::BlockBeyond(edges.0, edges.1));
        }
    }
    None
}

fn option_finding<A: Allocator + Copy>(
    acked_number: Option<Seq>,
    spans: &Spans<A>,
    option: &TcpOption<'_>,
) -> Option<Finding>
    ensures { result ≡ option_finding acked_number spans.now (option_content option.now) }
{
    match option {
        TcpOption::Sack(blocks) => block_finding(acked_number, spans, blocks.as_slice()),
        _ => None,
    }
}

/// The first block of all options that is of what didn't come. Blocks before `acked_number` are passed over.
pub(crate) fn options_finding<A: Allocator + Copy>(
    acked_number: Option<Seq>,
    spans: &Spans<A>,
    options: OptionsLeft<'_>,
) -> Option<Finding>
    ensures { result ≡ options_finding acked_number spans.now options.entry }
{
    let mut left = options;
    while let Some(option) = left.next() {
        if let Some(finding) = option_finding(acked_number, spans, &option) {
            return Some(finding);
        }
    }
    None
}
