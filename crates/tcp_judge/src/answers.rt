//! Resets, and what they answer.
ghost use Rattle.std.specs.Prelude.{◌≡◌, ◌<◌, ◌≤◌, ◌&&◌, ◌++◌, not, length};
ghost use Rattle.std.specs.Vec.{vec_len, vec_capacity};
ghost use Rattle.tcp_wire.specs.Flags.{rst, has};
ghost use Rattle.tcp_wire.specs.View.{raw_content};
ghost use Rattle.tcp_wire.specs.Wire.{max_text_len};
ghost use Rattle.tcp_judge.specs.Answers.{is_own, answer_to, answers_of, is_answer, any_answer, is_full, kept_with, may_answer, goes_elsewhere};
ghost use Rattle.tcp_judge.specs.Rules.{is_stray_by};

use crate::heard::count_numbers;
use std::alloc::Allocator;
use tcp_wire::{RawSegment, Seq};

/// How many answers a reset is compared with at most: where there are more none is kept, and no reset is judged.
const MOST_ANSWERS: usize = 1_024;

/// Whether a number is from the initial one up to SND.NXT, which is so many positions behind it.
fn is_own(first: Seq, next: u64, number: Seq) -> bool
    ensures { result ≡ is_own first.0 next number.0 }
{
    u64::from(number.minus(first)) <= next
}

/// The number of the reset that answers a segment, and what that acknowledges.
fn answer_to(segment: &RawSegment<'_>) -> (Seq, Option<Seq>)
    requires { length segment.now.text.now ≤ max_text_len }
    ensures { result ≡ answer_to (raw_content segment.now) }
{
    let header = segment.header;
    if header.flags.is_ack() {
        return (header.ack, None);
    }
    (Seq(0), Some(header.seq.plus(count_numbers(segment))))
}

fn is_full(answers: &[(Seq, Option<Seq>)]) -> bool
    ensures { result ≡ is_full answers.now }
{
    MOST_ANSWERS < answers.len()
}

/// Adds the answer to a segment that came, unless it is a reset or acknowledges an own number, or enough are kept.
pub(crate) fn keep_answer<A: Allocator>(
    initial: Option<Seq>,
    next: u64,
    answers: &mut Vec<(Seq, Option<Seq>), A>,
    segment: &RawSegment<'_>,
)
    requires room { vec_len answers.old < vec_capacity answers.old }
    requires short { length segment.now.text.now ≤ max_text_len }
    ensures { answers.new.items ≡ kept_with answers.old.items (answers_of initial next (raw_content segment.now)) }
{
    let Some(first) = initial else {
        return;
    };
    let flags = segment.header.flags;
    if is_full(answers) {
        return;
    }
    if flags.is_rst() || (flags.is_ack() && is_own(first, next, segment.header.ack)) {
        return;
    }
    answers.push_reserved(answer_to(segment));
}

fn is_answer(segment: &RawSegment<'_>, answer: (Seq, Option<Seq>)) -> bool
    ensures { result ≡ is_answer (raw_content segment.now) answer }
{
    let header = segment.header;
    if header.seq.0 != answer.0.0 {
        return false;
    }
    match answer.1 {
        Some(number) => header.flags.is_ack() && header.ack.0 == number.0,
        None => true,
    }
}

fn any_answer(segment: &RawSegment<'_>, answers: &[(Seq, Option<Seq>)]) -> bool
    ensures { result ≡ any_answer (raw_content segment.now) answers.now }
{
    for answer in answers {
        if is_answer(segment, *answer) {
            return true;
        }
    }
    false
}

/// Whether one of these is the reset, or may be where not all are kept.
fn may_answer(segment: &RawSegment<'_>, answers: &[(Seq, Option<Seq>)]) -> bool
    ensures { result ≡ may_answer (raw_content segment.now) answers.now }
{
    is_full(answers) || any_answer(segment, answers)
}

/// Whether it goes with other ports than these, the end's own and its peer's.
pub(crate) fn goes_elsewhere(ports: Option<(u16, u16)>, segment: &RawSegment<'_>) -> bool
    ensures { result ≡ goes_elsewhere ports (raw_content segment.now) }
{
    match ports {
        Some((own, peer)) => segment.header.src_port != own || segment.header.dst_port != peer,
        None => false,
    }
}

fn is_stray_by(
    initial: Option<Seq>,
    next: u64,
    answers: &[(Seq, Option<Seq>)],
    segment: &RawSegment<'_>,
) -> bool
    ensures { result ≡ is_stray_by initial next answers.now (raw_content segment.now) }
{
    match initial {
        Some(first) => {
            !(is_own(first, next, segment.header.seq) || may_answer(segment, answers))
        }
        None => false,
    }
}

/// Whether it is a reset of the connection with these ports that is neither at an own number nor answers what came.
pub(crate) fn is_stray(
    ports: Option<(u16, u16)>,
    initial: Option<Seq>,
    next: u64,
    answers: &[(Seq, Option<Seq>)],
    segment: &RawSegment<'_>,
) -> bool
    ensures { result ≡ ((has rst (raw_content segment.now).flags && not (goes_elsewhere ports (raw_content segment.now))) && is_stray_by initial next answers.now (raw_content segment.now)) }
{
    (segment.header.flags.is_rst() && !goes_elsewhere(ports, segment))
        && is_stray_by(initial, next, answers, segment)
}
