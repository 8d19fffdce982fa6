//! Reads the content of a ring in two slices.
ghost use Rattle.std.specs.Prelude.{◌≡◌, ◌+◌, ◌<◌, ◌≤◌, ◌++◌, length, take, drop};

/// Fills `out` with the bytes from the offset `at` on of `front`, which `back` continues.
#[inline(always)]
#[tactic(auto, using(crate::proofs::Joined::joined, crate::proofs::Joined::inside))]
pub(crate) fn copy_from(front: &[u8], back: &[u8], at: usize, out: &mut [u8])
    requires { at + length out.old ≤ length front.now + length back.now }
    ensures { out.new ≡ take (length out.old) (drop at (front.now ++ back.now)) }
{
    // Most texts lie in one piece.
    let end = at + out.len();
    if end <= front.len() {
        out.copy_from_slice(&front[at..end]);
    } else {
        copy_over_end(front, back, at, out);
    }
}

/// Does so where they end in `back`.
#[cold]
#[inline(never)]
#[tactic(auto, using(crate::proofs::Joined::joined, std::proofs::lemmas::List::drop_min, std::proofs::lemmas::List::take_min))]
fn copy_over_end(front: &[u8], back: &[u8], at: usize, out: &mut [u8])
    requires { at + length out.old ≤ length front.now + length back.now }
    ensures { out.new ≡ take (length out.old) (drop at (front.now ++ back.now)) }
{
    let first = &front[at.min(front.len())..];
    let second = &back[at.saturating_sub(front.len())..];
    let count = first.len().min(out.len());
    let rest = out.len() - count;
    out[..count].copy_from_slice(&first[..count]);
    out[count..].copy_from_slice(&second[..rest]);
}

/// The `count` bytes from the offset `at` on of `front`, which `back` continues, where they lie, in two parts. The
/// first is empty only where there are none.
#[inline(always)]
#[tactic(auto, using(crate::proofs::Joined::joined, crate::proofs::Joined::inside))]
pub(crate) fn lend_from<'a>(
    front: &'a [u8],
    back: &'a [u8],
    at: usize,
    count: usize,
) -> (&'a [u8], &'a [u8])
    requires { at + count ≤ length front.now + length back.now }
    ensures bytes { result.0.now ++ result.1.now ≡ take count (drop at (front.now ++ back.now)) }
    ensures first { 0 < count → 0 < length result.0.now }
{
    let end = at + count;
    if end <= front.len() {
        return (&front[at..end], &[]);
    }
    let over = end - front.len();
    if at < front.len() {
        (&front[at..], &back[..over])
    } else {
        (&back[at - front.len()..over], &[])
    }
}
