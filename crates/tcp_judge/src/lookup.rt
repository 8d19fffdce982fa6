//! Numbers, looked up among the spans that came.
ghost use Rattle.std.specs.Prelude.{◌≡◌, ℕ, ◌<◌, ◌≤◌, true, false, length};
ghost use Rattle.tcp_judge.specs.Heard.{covers, has_come, is_from, is_passed};
ghost use Rattle.tcp_judge.specs.Run.{number_before};

use tcp_wire::Seq;

/// How many of a span's numbers there are up to this one: 0 where it hasn't this one.
pub(crate) fn count_in(wanted: Seq, span: (Seq, u32)) -> u32
    ensures came { (j : ℕ) → j < result → covers (number_before wanted.0 j) span ≡ true }
    ensures none { result ≡ 0 → covers wanted.0 span ≡ false }
{
    let before = wanted.minus(span.0);
    if before < span.1 { before + 1 } else { 0 }
}

/// The first of the spans that has this number: its index, and how many of its numbers there are up to this one. They
/// are 0 where none has it.
fn find_in(spans: &[(Seq, u32)], wanted: Seq) -> (usize, u32)
    ensures came { (j : ℕ) → j < result.1 → has_come spans.now (number_before wanted.0 j) ≡ true }
    ensures none { result.1 ≡ 0 → has_come spans.now wanted.0 ≡ false }
    ensures inside { result.0 ≤ length spans.now }
{
    for (i, span) in spans.iter().enumerate() {
        let count = count_in(wanted, *span);
        if count > 0 {
            return (i, count);
        }
    }
    (spans.len(), 0)
}

/// The same, looked for from index `at` on first.
pub(crate) fn find_from(spans: &[(Seq, u32)], at: usize, wanted: Seq) -> (usize, u32)
    requires { at ≤ length spans.now }
    ensures came { (j : ℕ) → j < result.1 → has_come spans.now (number_before wanted.0 j) ≡ true }
    ensures none { result.1 ≡ 0 → has_come spans.now wanted.0 ≡ false }
    ensures inside { result.0 ≤ length spans.now }
{
    let (place, count) = find_in(&spans[at..], wanted);
    if count > 0 {
        return (at + place, count);
    }
    find_in(&spans[..at], wanted)
}

/// Whether a number is this one or less than 2^31 ahead of it.
pub(crate) fn is_from(first: Seq, number: Seq) -> bool
    ensures { result ≡ is_from first.0 number.0 }
{
    number.minus(first) < 1 << 31
}

/// Whether each number of the span is before this one.
pub(crate) fn is_passed(acked_number: Seq, span: (Seq, u32)) -> bool
    ensures { result ≡ is_passed acked_number.0 span }
{
    span.1 <= acked_number.minus(span.0) && is_from(span.0, acked_number)
}
