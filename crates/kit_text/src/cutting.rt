//! Pieces between separators. Three searches in turn look for the byte that ends a piece: the first bytes go one by one,
//! since most words and many lines end there; the next go by blocks, for words and lines of middle length; and only what
//! is behind those goes by loads of four blocks, by which a long line, as one with a text in hexadecimal, is passed the
//! fastest.
ghost use Rattle.std.specs.Prelude.{◌≡◌, ◌∷◌, ◌==◌, ◌<◌, ◌≤◌, length, slice_index, IfSome};
ghost use Rattle.std.specs.List.{slice_split};
ghost use Rattle.kit_text.specs.Cutting.{IsNowhere, FindsWithin, any_below};
ghost use Rattle.kit_text.specs.Words.{further_pieces};

/// The separator of the words of a line.
pub const SPACE: u8 = b' ';
/// The separator of the numbers of an address.
pub(crate) const DOT: u8 = b'.';
/// The end of a line.
pub(crate) const LINE_FEED: u8 = b'\n';

/// As many bytes are looked at one by one first: most words and many lines end in these.
const NEAR: usize = 16;

/// As many are looked at together, behind those.
const BLOCK: usize = 16;

/// As many are looked at by blocks. The load that has the end of a word or line is looked through once more, which pays
/// only for one that is longer than these.
const MIDDLE: usize = 192;

/// As many are looked at together, behind all those.
const LOAD: usize = 64;

/// The offset of the first byte `at`, which isn't before `from`, among the first `to`.
#[inline(always)]
fn first_between(at: u8, bytes: &[u8], from: usize, to: usize) -> Option<usize>
    requires order { from ≤ to }
    requires within { to ≤ length bytes.now }
    requires none { IsNowhere at bytes.now from }
    ensures { FindsWithin at bytes.now to result }
{
    for i in from..to {
        if bytes[i] == at {
            return Some(i);
        }
    }
    None
}

/// Whether the byte `at` is among the first 16. They are compared without a branch for each, so that the compiler takes
/// vectors where the machine has them, and a machine without them is faster than with a loop, too.
#[inline(always)]
fn is_in_block(at: u8, bytes: &[u8]) -> bool
    requires { 16 ≤ length bytes.now }
    ensures { result ≡ any_below (λ k. slice_index bytes.now k == at) 16 }
{
    (bytes[0] == at)
        | (bytes[1] == at)
        | (bytes[2] == at)
        | (bytes[3] == at)
        | (bytes[4] == at)
        | (bytes[5] == at)
        | (bytes[6] == at)
        | (bytes[7] == at)
        | (bytes[8] == at)
        | (bytes[9] == at)
        | (bytes[10] == at)
        | (bytes[11] == at)
        | (bytes[12] == at)
        | (bytes[13] == at)
        | (bytes[14] == at)
        | (bytes[15] == at)
}

/// The offset of the block that has the first byte `at`, or of the last bytes before `to`, which are no whole block.
#[inline(always)]
fn pass_blocks(at: u8, bytes: &[u8], from: usize, to: usize) -> usize
    requires order { from ≤ to }
    requires within { to ≤ length bytes.now }
    requires none { IsNowhere at bytes.now from }
    ensures order { result ≤ to }
    ensures none { IsNowhere at bytes.now result }
{
    let mut i = from;
    while to - i >= BLOCK && !is_in_block(at, &bytes[i..]) {
        i += BLOCK;
    }
    i
}

/// Whether the byte `at` is among the first 64. These are four blocks with one branch for all, and not a comparison of
/// lanes, which takes twice as long where the machine has none.
#[inline(always)]
fn is_in_load(at: u8, bytes: &[u8]) -> bool
    requires { 64 ≤ length bytes.now }
    ensures { result ≡ any_below (λ k. slice_index bytes.now k == at) 64 }
{
    is_in_block(at, bytes)
        | is_in_block(at, &bytes[16..])
        | is_in_block(at, &bytes[32..])
        | is_in_block(at, &bytes[48..])
}

/// The offset of the load that has the first byte `at`, or of the last bytes, which are no whole load.
fn pass_loads(at: u8, bytes: &[u8], from: usize) -> usize
    requires within { from ≤ length bytes.now }
    requires none { IsNowhere at bytes.now from }
    ensures within { result ≤ length bytes.now }
    ensures none { IsNowhere at bytes.now result }
{
    let mut i = from;
    while bytes.len() - i >= LOAD && !is_in_load(at, &bytes[i..]) {
        i += LOAD;
    }
    i
}

/// The offset of the first byte `at`, which isn't before `from`, in a long word or line: by loads, and at the end, or in
/// the load that has the byte, by blocks and one by one.
#[inline(never)]
fn first_farther(at: u8, bytes: &[u8], from: usize) -> Option<usize>
    requires within { from ≤ length bytes.now }
    requires none { IsNowhere at bytes.now from }
    ensures { FindsWithin at bytes.now (length bytes.now) result }
{
    let load = pass_loads(at, bytes, from);
    let block = pass_blocks(at, bytes, load, bytes.len());
    first_between(at, bytes, block, bytes.len())
}

/// The offset of the first byte `at`, which isn't before `from`: by blocks, as far as most words and lines go.
#[inline(never)]
fn first_far(at: u8, bytes: &[u8], from: usize) -> Option<usize>
    requires within { from ≤ length bytes.now }
    requires none { IsNowhere at bytes.now from }
    ensures { FindsWithin at bytes.now (length bytes.now) result }
{
    let middle = bytes.len().min(from + MIDDLE);
    let block = pass_blocks(at, bytes, from, middle);
    if let Some(i) = first_between(at, bytes, block, middle) {
        return Some(i);
    }
    if middle == bytes.len() {
        return None;
    }
    first_farther(at, bytes, middle)
}

/// The offset of the first byte `at`, in a line. It finds what [`first_in_text`] finds, and differs in what is quick: most
/// words are shorter than [`NEAR`], so one short loop, up to the nearer of `NEAR` and the end, is small enough to be inlined
/// where words are cut. With the comparisons of `first_in_text` written out there, lines of short words took a fifth longer.
#[inline(always)]
fn first_in_line(at: u8, bytes: &[u8]) -> Option<usize>
    ensures { FindsWithin at bytes.now (length bytes.now) result }
{
    let near = bytes.len().min(NEAR);
    if let Some(i) = first_between(at, bytes, 0, near) {
        return Some(i);
    }
    if near == bytes.len() {
        return None;
    }
    first_far(at, bytes, near)
}

/// The offset of the first byte `at`, in a text. Most are longer than [`NEAR`], so the length is tested once, and the
/// comparisons up to `NEAR`, whose count is then known, are written out by the compiler.
#[inline(always)]
fn first_in_text(at: u8, text: &[u8]) -> Option<usize>
    ensures { FindsWithin at text.now (length text.now) result }
{
    if text.len() < NEAR {
        return first_between(at, text, 0, text.len());
    }
    if let Some(i) = first_between(at, text, 0, NEAR) {
        return Some(i);
    }
    first_far(at, text, NEAR)
}

/// The piece before the first byte `at`, which is at `place`, and what follows that byte.
#[inline(always)]
fn parted(at: u8, bytes: &[u8], place: Option<usize>) -> (&[u8], Option<&[u8]>)
    requires { FindsWithin at bytes.now (length bytes.now) place }
    ensures pieces { slice_split (λ b. b == at) bytes.now ≡ result.0.now ∷ further_pieces at result.1 }
    ensures within { length result.0.now ≤ length bytes.now }
    ensures shorter { IfSome result.1 (λ rest. length rest.now < length bytes.now) }
{
    match place {
        Some(i) => (&bytes[..i], Some(&bytes[i + 1..])),
        None => (bytes, None),
    }
}

/// The piece before the first byte `at`, and what follows that byte, if there is one.
pub fn cut(at: u8, bytes: &[u8]) -> (&[u8], Option<&[u8]>)
    ensures pieces { slice_split (λ b. b == at) bytes.now ≡ result.0.now ∷ further_pieces at result.1 }
    ensures within { length result.0.now ≤ length bytes.now }
    ensures shorter { IfSome result.1 (λ rest. length rest.now < length bytes.now) }
{
    parted(at, bytes, first_in_line(at, bytes))
}

/// The first line of a text, and what follows its end, if it has one.
pub(crate) fn cut_line(text: &[u8]) -> (&[u8], Option<&[u8]>)
    ensures pieces { slice_split (λ b. b == 10) text.now ≡ result.0.now ∷ further_pieces 10 result.1 }
    ensures within { length result.0.now ≤ length text.now }
    ensures shorter { IfSome result.1 (λ rest. length rest.now < length text.now) }
{
    parted(LINE_FEED, text, first_in_text(LINE_FEED, text))
}
