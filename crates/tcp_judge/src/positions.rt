//! The rules of positions, by what is known of the end's own direction.
ghost use Rattle.std.specs.Prelude.{◌≡◌, ◌<◌, ◌^◌};
ghost use Rattle.tcp_wire.specs.View.{raw_content, option_content};
ghost use Rattle.tcp_judge.specs.Known.{is_fast_open, any_fast_open, opens_fast, initial_after, acked_position_by};
ghost use Rattle.tcp_judge.specs.Heard.{is_syn};
ghost use Rattle.tcp_judge.specs.Rules.{initial_by, early_by, fin_by, takes_numbers, next_by};

use crate::finding::Finding;
use crate::heard::{carries_ack, is_syn};
use tcp_wire::{OptionsLeft, RawSegment, Seq, TcpOption};

pub(crate) fn initial_after(known: Option<Seq>, segment: &RawSegment<'_>) -> Option<Seq>
    ensures { result ≡ initial_after known (raw_content segment.now) }
{
    match known {
        Some(number) => Some(number),
        None => {
            if is_syn(segment) {
                Some(segment.header.seq)
            } else {
                None
            }
        }
    }
}

pub(crate) fn initial_by(known: Option<Seq>, segment: &RawSegment<'_>) -> Option<Finding>
    ensures { result ≡ initial_by known (raw_content segment.now) }
{
    let Some(first) = known else {
        return None;
    };
    let number = segment.header.seq;
    if is_syn(segment) && number.0 != first.0 {
        return Some(Finding::OtherInitial(first, number));
    }
    None
}

/// The FIN's rule, where text is known to end before `behind` and the segment ends before `end`.
pub(crate) fn fin_by(
    known: Option<u64>,
    behind: u64,
    end: u64,
    segment: &RawSegment<'_>,
) -> Option<Finding>
    ensures { result ≡ fin_by known behind end (raw_content segment.now) }
{
    let is_fin = segment.header.flags.is_fin();
    match known {
        None => {
            if is_fin && end < behind {
                return Some(Finding::BeyondFin(end, behind));
            }
            None
        }
        Some(place) => {
            if (!segment.text.is_empty() && place < end) || (is_fin && end != place) {
                return Some(Finding::BeyondFin(place, end));
            }
            None
        }
    }
}

/// The rule of text and FIN before the first byte, at this position or at an unknown one, 0.
pub(crate) fn early_by(known: Option<Seq>, place: u64, segment: &RawSegment<'_>) -> Option<Finding>
    ensures { result ≡ early_by known place (raw_content segment.now) }
{
    if known.is_none() {
        return None;
    }
    if (place == 0 && !segment.header.flags.is_rst()) && takes_numbers(segment) {
        return Some(Finding::BeforeFirst(segment.header.seq));
    }
    None
}

/// The position that a segment which came acknowledges, where that is before `next`: 0 where it acknowledges nothing. The last
/// byte that was sent has the position `count`.
pub(crate) fn acked_position_by(
    known: Option<Seq>,
    count: u64,
    next: u64,
    segment: &RawSegment<'_>,
) -> u64
    requires { count < 2 ^ 63 }
    ensures { result ≡ acked_position_by known count next (raw_content segment.now) }
{
    let Some(first) = known else {
        return 0;
    };
    let position = segment.header.ack.position(first, count);
    if carries_ack(segment) && position <= next {
        position
    } else {
        0
    }
}

/// The rules of what is behind SND.NXT, which is at this position.
pub(crate) fn next_finding(place: u64, next: u64, segment: &RawSegment<'_>) -> Option<Finding>
    ensures { result ≡ next_by next place (raw_content segment.now) }
{
    if place <= next {
        return None;
    }
    if takes_numbers(segment) {
        return Some(Finding::Gap(segment.header.seq));
    }
    if segment.header.flags.is_syn() {
        return None;
    }
    Some(Finding::BehindNext(segment.header.seq))
}

/// Whether it has text or a FIN.
pub(crate) fn takes_numbers(segment: &RawSegment<'_>) -> bool
    ensures { result ≡ takes_numbers (raw_content segment.now) }
{
    !segment.text.is_empty() || segment.header.flags.is_fin()
}

/// Whether it is the option of TCP Fast Open (RFC 7413, 4.1.1), or one of an experiment, as it was before (RFC 6994).
fn is_fast_open(option: &TcpOption<'_>) -> bool
    ensures { result ≡ is_fast_open (option_content option.now) }
{
    match option {
        TcpOption::Unknown { kind, .. } => *kind == 34 || (*kind == 253 || *kind == 254),
        _ => false,
    }
}

fn any_fast_open(options: OptionsLeft<'_>) -> bool
    ensures { result ≡ any_fast_open options.entry }
{
    let mut left = options;
    while let Some(option) = left.next() {
        if is_fast_open(&option) {
            return true;
        }
    }
    false
}

/// Whether it is a SYN, and no reset, with an option that TCP Fast Open may have, or with text.
pub(crate) fn opens_fast(segment: &RawSegment<'_>) -> bool
    ensures { result ≡ opens_fast (raw_content segment.now) }
{
    if !is_syn(segment) {
        return false;
    }
    any_fast_open(segment.options_left()) || !segment.text.is_empty()
}
