//! The rules of a segment by itself.
ghost use Rattle.std.specs.Prelude.{◌≡◌};
ghost use Rattle.tcp_wire.specs.View.{raw_content, option_content};
ghost use Rattle.tcp_judge.specs.Rules.{is_syn_option, any_syn_option, is_great_shift, any_great_shift, has_stray_option, lacks_ack, form_finding};

use crate::finding::Finding;
use tcp_wire::{OptionsLeft, RawSegment, TcpOption};

fn is_syn_option(option: &TcpOption<'_>) -> bool
    ensures { result ≡ is_syn_option (option_content option.now) }
{
    match option {
        TcpOption::Mss(_) => true,
        TcpOption::WindowScale(_) => true,
        TcpOption::SackPermitted => true,
        _ => false,
    }
}

fn any_syn_option(options: OptionsLeft<'_>) -> bool
    ensures { result ≡ any_syn_option options.entry }
{
    let mut left = options;
    while let Some(option) = left.next() {
        if is_syn_option(&option) {
            return true;
        }
    }
    false
}

fn is_great_shift(option: &TcpOption<'_>) -> bool
    ensures { result ≡ is_great_shift (option_content option.now) }
{
    match option {
        TcpOption::WindowScale(shift) => *shift > 14,
        _ => false,
    }
}

fn any_great_shift(options: OptionsLeft<'_>) -> bool
    ensures { result ≡ any_great_shift options.entry }
{
    let mut left = options;
    while let Some(option) = left.next() {
        if is_great_shift(&option) {
            return true;
        }
    }
    false
}

fn has_stray_option(segment: &RawSegment<'_>) -> bool
    ensures { result ≡ has_stray_option (raw_content segment.now) }
{
    !segment.header.flags.is_syn() && any_syn_option(segment.options_left())
}

fn lacks_ack(segment: &RawSegment<'_>) -> bool
    ensures { result ≡ lacks_ack (raw_content segment.now) }
{
    let flags = segment.header.flags;
    !flags.is_ack() && !flags.is_syn() && !flags.is_rst()
}

/// The first rule of form that the segment breaks.
pub(crate) fn form_finding(segment: &RawSegment<'_>) -> Option<Finding>
    ensures { result ≡ form_finding (raw_content segment.now) }
{
    if has_stray_option(segment) {
        return Some(Finding::SynOption);
    }
    if any_great_shift(segment.options_left()) {
        return Some(Finding::GreatShift);
    }
    if lacks_ack(segment) {
        return Some(Finding::NoAck);
    }
    None
}
