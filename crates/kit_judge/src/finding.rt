//! A finding in words.
ghost use Rattle.std.specs.Prelude.{◌≡◌, ◌++◌, OnOk, string_bytes};
ghost use Rattle.tcp_wire.specs.Refusals.{decode_error_text};
ghost use Rattle.kit_judge.specs.Findings.{rule_number, wants_whole_log, is_damage, unreadable_text, initial_text, byte_text, fin_text, early_text, before_ack_text, after_reset_text, gap_text, behind_text, window_text, stray_text, ack_text, back_text, block_text, finding_text, finding_line};

use std::alloc::{AllocError, Allocator};
use tcp_judge::Finding;
use tcp_wire::{DecodeError, Seq};

/// The first rule that wants a log of which nothing is missing.
const FIRST_OF_WHOLE_LOGS: usize = 8;

/// The number of the rule.
pub fn rule_of(finding: Finding) -> usize
    ensures { result ≡ rule_number finding }
{
    match finding {
        Finding::Unreadable(_) => 0,
        Finding::SynOption => 1,
        Finding::GreatShift => 2,
        Finding::NoAck => 3,
        Finding::OtherInitial(_, _) => 4,
        Finding::BeforeFirst(_) => 5,
        Finding::OtherByte(_) => 6,
        Finding::BeyondFin(_, _) => 7,
        Finding::BeforeAck(_) => 8,
        Finding::AfterReset(_) => 9,
        Finding::Gap(_) => 10,
        Finding::AckBeyond(_) => 11,
        Finding::AckBack(_, _) => 12,
        Finding::Unoffered => 13,
        Finding::Unpermitted => 14,
        Finding::BlockBeyond(_, _) => 15,
        Finding::BehindNext(_) => 16,
        Finding::BeyondWindow(_) => 17,
        Finding::StrayReset(_) => 18,
    }
}

/// Whether the rule wants a log of which nothing is missing: it compares with all that came, or with all that was sent.
pub fn wants_whole_log(finding: Finding) -> bool
    ensures { result ≡ wants_whole_log finding }
{
    rule_of(finding) >= FIRST_OF_WHOLE_LOGS
}

/// Whether it is a wrong checksum, which damage on the path makes too.
pub fn is_damage(finding: Finding) -> bool
    ensures { result ≡ is_damage finding }
{
    match finding {
        Finding::Unreadable(DecodeError::BadChecksum) => true,
        _ => false,
    }
}

fn push_unreadable<A: Allocator>(text: &mut String<A>, fault: DecodeError) -> Result<(), AllocError>
    ensures { OnOk result (string_bytes text.new ≡ string_bytes text.old ++ unreadable_text (decode_error_text fault)) }
{
    write!(text, "no segment: {fault} (RFC 9293, 3.1)")
}

fn push_initial<A: Allocator>(
    text: &mut String<A>,
    first: Seq,
    other: Seq,
) -> Result<(), AllocError>
    ensures { OnOk result (string_bytes text.new ≡ string_bytes text.old ++ initial_text first.0 other.0) }
{
    let first = first.0;
    let other = other.0;
    write!(
        text,
        "a SYN at {other}, and the first at {first} (RFC 9293, 3.4)"
    )
}

fn push_early<A: Allocator>(text: &mut String<A>, seq: Seq) -> Result<(), AllocError>
    ensures { OnOk result (string_bytes text.new ≡ string_bytes text.old ++ early_text seq.0) }
{
    let seq = seq.0;
    write!(
        text,
        "text or FIN before the first byte of the stream, at {seq} (RFC 9293, 3.4)"
    )
}

fn push_byte<A: Allocator>(text: &mut String<A>, seq: Seq) -> Result<(), AllocError>
    ensures { OnOk result (string_bytes text.new ≡ string_bytes text.old ++ byte_text seq.0) }
{
    let seq = seq.0;
    write!(
        text,
        "another byte where one went before, in the text at {seq} (RFC 9293, 3.4)"
    )
}

fn push_fin<A: Allocator>(text: &mut String<A>, place: u64, end: u64) -> Result<(), AllocError>
    ensures { OnOk result (string_bytes text.new ≡ string_bytes text.old ++ fin_text place end) }
{
    write!(
        text,
        "text or FIN up to position {end}, and the FIN at {place} (RFC 9293, 3.4)"
    )
}

fn push_before_ack<A: Allocator>(text: &mut String<A>, seq: Seq) -> Result<(), AllocError>
    ensures { OnOk result (string_bytes text.new ≡ string_bytes text.old ++ before_ack_text seq.0) }
{
    let seq = seq.0;
    write!(
        text,
        "text before the SYN is acknowledged, at {seq} (RFC 9293, 3.10.2)"
    )
}

fn push_after_reset<A: Allocator>(text: &mut String<A>, seq: Seq) -> Result<(), AllocError>
    ensures { OnOk result (string_bytes text.new ≡ string_bytes text.old ++ after_reset_text seq.0) }
{
    let seq = seq.0;
    write!(
        text,
        "text or FIN after the end's own reset, at {seq} (RFC 9293, 3.10.5)"
    )
}

fn push_gap<A: Allocator>(text: &mut String<A>, seq: Seq) -> Result<(), AllocError>
    ensures { OnOk result (string_bytes text.new ≡ string_bytes text.old ++ gap_text seq.0) }
{
    let seq = seq.0;
    write!(
        text,
        "text or FIN behind a gap in what was sent, at {seq} (RFC 9293, 3.4)"
    )
}

fn push_behind<A: Allocator>(text: &mut String<A>, seq: Seq) -> Result<(), AllocError>
    ensures { OnOk result (string_bytes text.new ≡ string_bytes text.old ++ behind_text seq.0) }
{
    let seq = seq.0;
    write!(
        text,
        "a segment without text behind all that was sent, at {seq} (RFC 9293, 3.10.7.4)"
    )
}

fn push_window<A: Allocator>(text: &mut String<A>, seq: Seq) -> Result<(), AllocError>
    ensures { OnOk result (string_bytes text.new ≡ string_bytes text.old ++ window_text seq.0) }
{
    let seq = seq.0;
    write!(text, "text beyond the window, at {seq} (RFC 9293, 3.8.6)")
}

fn push_stray<A: Allocator>(text: &mut String<A>, seq: Seq) -> Result<(), AllocError>
    ensures { OnOk result (string_bytes text.new ≡ string_bytes text.old ++ stray_text seq.0) }
{
    let seq = seq.0;
    write!(
        text,
        "a reset at {seq}, which was neither sent nor acknowledged (RFC 9293, 3.5.2)"
    )
}

fn push_ack<A: Allocator>(text: &mut String<A>, acked_number: Seq) -> Result<(), AllocError>
    ensures { OnOk result (string_bytes text.new ≡ string_bytes text.old ++ ack_text acked_number.0) }
{
    let acked_number = acked_number.0;
    write!(
        text,
        "an acknowledgement of {acked_number}, up to which not all came (RFC 9293, 3.4)"
    )
}

fn push_back<A: Allocator>(
    text: &mut String<A>,
    acked_number: Seq,
    last: Seq,
) -> Result<(), AllocError>
    ensures { OnOk result (string_bytes text.new ≡ string_bytes text.old ++ back_text acked_number.0 last.0) }
{
    let acked_number = acked_number.0;
    let last = last.0;
    write!(
        text,
        "an acknowledgement of {acked_number}, and one of {last} before it (RFC 9293, 3.10.7.4)"
    )
}

fn push_block<A: Allocator>(text: &mut String<A>, left: Seq, right: Seq) -> Result<(), AllocError>
    ensures { OnOk result (string_bytes text.new ≡ string_bytes text.old ++ block_text left.0 right.0) }
{
    let left = left.0;
    let right = right.0;
    write!(
        text,
        "a block from {left} to {right}, of which not all came (RFC 2018, 3)"
    )
}

/// Appends the rule, the numbers that show how it is broken, and its section.
pub fn push_rule<A: Allocator>(text: &mut String<A>, finding: Finding) -> Result<(), AllocError>
    ensures { OnOk result (string_bytes text.new ≡ string_bytes text.old ++ finding_text finding) }
{
    match finding {
        Finding::Unreadable(fault) => push_unreadable(text, fault),
        Finding::SynOption => text.push_str("an option of SYNs in another segment (RFC 9293, 3.2)"),
        Finding::GreatShift => text.push_str("a shift above 14 (RFC 7323, 2.3)"),
        Finding::NoAck => text.push_str("no ACK (RFC 9293, 3.1)"),
        Finding::OtherInitial(first, other) => push_initial(text, first, other),
        Finding::BeforeFirst(seq) => push_early(text, seq),
        Finding::OtherByte(seq) => push_byte(text, seq),
        Finding::BeyondFin(place, end) => push_fin(text, place, end),
        Finding::BeforeAck(seq) => push_before_ack(text, seq),
        Finding::AfterReset(seq) => push_after_reset(text, seq),
        Finding::Gap(seq) => push_gap(text, seq),
        Finding::BehindNext(seq) => push_behind(text, seq),
        Finding::BeyondWindow(seq) => push_window(text, seq),
        Finding::StrayReset(seq) => push_stray(text, seq),
        Finding::AckBeyond(acked_number) => push_ack(text, acked_number),
        Finding::AckBack(acked_number, last) => push_back(text, acked_number, last),
        Finding::Unoffered => text.push_str(
            "a SYN answers with a window scale that no SYN offered (RFC 7323, 2.2)",
        ),
        Finding::Unpermitted => {
            text.push_str("blocks, which no SYN that came permitted (RFC 2018, 4)")
        }
        Finding::BlockBeyond(left, right) => push_block(text, left, right),
    }
}

/// Appends a finding's line, with the number of the log's line.
#[tactic(auto, unfolding(crate::specs::Findings::finding_line))]
pub(crate) fn push_finding<A: Allocator>(
    text: &mut String<A>,
    line: usize,
    finding: Finding,
) -> Result<(), AllocError>
    ensures { OnOk result (string_bytes text.new ≡ string_bytes text.old ++ finding_line (line, finding)) }
{
    write!(text, "line {line}: ")?;
    push_rule(text, finding)?;
    text.push_str("\n")
}
