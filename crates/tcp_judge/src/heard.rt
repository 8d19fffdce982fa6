//! The rule of acknowledgements: what came, as numbers.
ghost use Rattle.std.specs.Prelude.{◌≡◌, ◌<◌, ◌≤◌, ◌&&◌, ◌++◌, OnOk, OnErr, IfSome, not, nat_le, length};
ghost use Rattle.std.specs.Vec.{vec_len, vec_capacity};
ghost use Rattle.tcp_wire.specs.Flags.{syn, ack, has};
ghost use Rattle.tcp_wire.specs.View.{raw_content, option_content};
ghost use Rattle.tcp_wire.specs.Wire.{max_text_len};
ghost use Rattle.tcp_conn.specs.Judgement.{count_numbers};
ghost use Rattle.tcp_wire.specs.Position.{distance};
ghost use Rattle.tcp_judge.specs.Heard.{is_syn, is_elsewhere, ports_after, is_scale, any_scale, is_permission, any_permission, goes_on, begins, is_of_came, carries_ack, is_further, spans_of, may_open, syns_of};
ghost use Rattle.tcp_judge.specs.Rules.{ack_rule};
ghost use Rattle.tcp_judge.specs.Run.{any_within};

use crate::finding::Finding;
use crate::lookup::is_from;
use crate::spans::Spans;
use std::alloc::{AllocError, Allocator};
use tcp_wire::{OptionsLeft, RawSegment, Seq, TcpOption};

/// How many numbers SYN, text and FIN take, SEG.LEN (RFC 9293, 3.4).
pub(crate) fn count_numbers(segment: &RawSegment<'_>) -> u32
    requires { length segment.now.text.now ≤ max_text_len }
    ensures { result ≡ count_numbers (raw_content segment.now) }
{
    let flags = segment.header.flags;
    let mut count = segment.text.len() as u32;
    if flags.is_syn() {
        count += 1;
    }
    if flags.is_fin() {
        count += 1;
    }
    count
}

/// Whether it is a SYN, and no reset.
pub(crate) fn is_syn(segment: &RawSegment<'_>) -> bool
    ensures { result ≡ is_syn (raw_content segment.now) }
{
    segment.header.flags.is_syn() && !segment.header.flags.is_rst()
}

/// Whether it came with other ports than these, the end's own and its peer's.
pub(crate) fn is_elsewhere(ports: Option<(u16, u16)>, segment: &RawSegment<'_>) -> bool
    ensures { result ≡ is_elsewhere ports (raw_content segment.now) }
{
    match ports {
        Some((own, peer)) => segment.header.dst_port != own || segment.header.src_port != peer,
        None => false,
    }
}

/// The ports of the connection after a segment that was sent.
pub(crate) fn ports_after(known: Option<(u16, u16)>, segment: &RawSegment<'_>) -> Option<(u16, u16)>
    ensures { result ≡ ports_after known (raw_content segment.now) }
{
    if is_syn(segment) {
        return Some((segment.header.src_port, segment.header.dst_port));
    }
    known
}

pub(crate) fn carries_ack(segment: &RawSegment<'_>) -> bool
    ensures { result ≡ carries_ack (raw_content segment.now) }
{
    segment.header.flags.is_ack() && !segment.header.flags.is_rst()
}

fn is_scale(option: &TcpOption<'_>) -> bool
    ensures { result ≡ is_scale (option_content option.now) }
{
    match option {
        TcpOption::WindowScale(_) => true,
        _ => false,
    }
}

/// Whether a window scale is among the options.
fn any_scale(options: OptionsLeft<'_>) -> bool
    ensures { result ≡ any_scale options.entry }
{
    let mut left = options;
    while let Some(option) = left.next() {
        if is_scale(&option) {
            return true;
        }
    }
    false
}

fn is_permission(option: &TcpOption<'_>) -> bool
    ensures { result ≡ is_permission (option_content option.now) }
{
    match option {
        TcpOption::SackPermitted => true,
        _ => false,
    }
}

/// Whether selective acknowledgement is permitted by one of the options.
fn any_permission(options: OptionsLeft<'_>) -> bool
    ensures { result ≡ any_permission options.entry }
{
    let mut left = options;
    while let Some(option) = left.next() {
        if is_permission(&option) {
            return true;
        }
    }
    false
}

/// Whether it is a SYN with a window scale.
pub(crate) fn offers_scale(segment: &RawSegment<'_>) -> bool
    ensures { result ≡ (is_syn (raw_content segment.now) && any_scale (raw_content segment.now).options) }
{
    is_syn(segment) && any_scale(segment.options_left())
}

/// Whether it is a SYN that permits selective acknowledgement.
pub(crate) fn offers_sack(segment: &RawSegment<'_>) -> bool
    ensures { result ≡ (is_syn (raw_content segment.now) && any_permission (raw_content segment.now).options) }
{
    is_syn(segment) && any_permission(segment.options_left())
}

/// Whether a SYN that acknowledges another has a window scale that wasn't offered.
pub(crate) fn oversteps(scaling: bool, segment: &RawSegment<'_>) -> bool
    ensures { result ≡ ((has syn (raw_content segment.now).flags && has ack (raw_content segment.now).flags) && (any_scale (raw_content segment.now).options && not scaling)) }
{
    let is_answer = segment.header.flags.is_syn() && segment.header.flags.is_ack();
    is_answer && (any_scale(segment.options_left()) && !scaling)
}

/// Whether one of the SYNs is no further before an acknowledgement than so many numbers.
fn any_within(syns: &[Seq], acked_number: Seq, count: u32) -> bool
    ensures { result ≡ any_within syns.now acked_number.0 count }
{
    for first in syns {
        if acked_number.minus(first.plus(1)) <= count {
            return true;
        }
    }
    false
}

/// How many numbers right before an acknowledgement came without a gap, as far back as it is asked: to the furthest one
/// before it, and where SYNs wait as far as they go.
fn count_back<A: Allocator + Copy>(
    last: Option<Seq>,
    spans: &Spans<A>,
    syns: &[Seq],
    acked_number: Seq,
) -> u32
    ensures last { IfSome last (λ first. goes_on spans.now first.0 acked_number.0 ≡ nat_le (distance first.0 acked_number.0) result) }
    ensures syns { begins spans.now syns.now acked_number.0 ≡ any_within syns.now acked_number.0 result }
{
    if !syns.is_empty() {
        return spans.count_before(acked_number, u32::MAX);
    }
    match last {
        Some(last) => spans.count_before(acked_number, acked_number.minus(last)),
        None => 0,
    }
}

/// Whether an acknowledgement continues over what came from the last one that was sent, or begins after a SYN that came;
/// and whether it isn't less than the furthest one before it, or begins after a SYN.
pub(crate) fn standing<A: Allocator + Copy>(
    last: Option<Seq>,
    spans: &Spans<A>,
    syns: &[Seq],
    acked_number: Seq,
) -> (bool, bool)
    ensures of_came { result.0 ≡ is_of_came last spans.now syns.now acked_number.0 }
    ensures further { result.1 ≡ is_further last spans.now syns.now acked_number.0 }
{
    let count = count_back(last, spans, syns, acked_number);
    let begins = any_within(syns, acked_number, count);
    match last {
        Some(last) => {
            let goes_on = acked_number.minus(last) <= count;
            (goes_on || begins, is_from(last, acked_number) || begins)
        }
        None => (begins, true),
    }
}

/// The rule that an acknowledgement breaks of what didn't come, with the furthest one before it.
pub(crate) fn ack_rule(last: Option<Seq>, acked_number: Seq) -> Finding
    ensures { result ≡ ack_rule last acked_number.0 }
{
    match last {
        Some(last) => {
            if is_from(last, acked_number) {
                Finding::AckBeyond(acked_number)
            } else {
                Finding::AckBack(acked_number, last)
            }
        }
        None => Finding::AckBeyond(acked_number),
    }
}

/// Adds a segment that came, where it takes a number and is no reset.
pub(crate) fn keep_span<A: Allocator + Copy>(
    spans: &mut Spans<A>,
    segment: &RawSegment<'_>,
) -> Result<(), AllocError>
    requires { length segment.now.text.now ≤ max_text_len }
    ensures kept { OnOk result (spans.new ≡ spans.old ++ spans_of (raw_content segment.now)) }
    ensures err { OnErr result (spans.new ≡ spans.old) }
{
    let count = count_numbers(segment);
    if segment.header.flags.is_rst() || count == 0 {
        return Ok(());
    }
    spans.push(segment.header.seq, count)
}

/// Whether the end may take a SYN: before anything is acknowledged, and behind a reset.
fn may_open(acked_number: Option<Seq>, reset: bool) -> bool
    ensures { result ≡ may_open acked_number reset }
{
    match acked_number {
        Some(_) => reset,
        None => true,
    }
}

/// Adds a SYN that came, where the end may take it.
pub(crate) fn keep_syn<A: Allocator>(
    acked_number: Option<Seq>,
    reset: bool,
    syns: &mut Vec<Seq, A>,
    segment: &RawSegment<'_>,
)
    requires room { vec_len syns.old < vec_capacity syns.old }
    ensures { syns.new.items ≡ syns.old.items ++ syns_of acked_number reset (raw_content segment.now) }
{
    if is_syn(segment) && may_open(acked_number, reset) {
        syns.push_reserved(segment.header.seq);
    }
}
