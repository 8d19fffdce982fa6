//! The lines of a text.
ghost use Rattle.std.specs.Prelude.{◌≡◌, ◌+◌, ◌==◌, ◌<◌, ◌≤◌, nat_lt, length, position, count_by, drop, take, option_map, IfOk, IfErr, IfSome, Ok, Err};
ghost use Rattle.std.specs.List.{list_all};
ghost use Rattle.kit_text.specs.Lines.{is_passed_over, line_above_ascii, ascii_lines};

use crate::cutting::{LINE_FEED, cut_line};
use byteorder::{ByteOrder, LittleEndian};
use std::marker::Model;

/// The first byte of a comment.
const COMMENT: u8 = b'#';

/// As many bytes at a time are looked at for one above 7f.
const LOAD: usize = 64;

/// The lines of a text that aren't skipped, each with its number. Every line counts, from 1 on; those that are empty or
/// begin with `#` are skipped.
#[derive(Debug, Drop)]
pub struct Lines<'a> {
    /// What is left of the text; `None` after its last line.
    rest: Option<&'a [u8]>,
    /// How many lines come before that.
    count: usize,
}

impl<'a> Model for Lines<'a> {
    ghost use Rattle.std.specs.Prelude.{ℕ, List};
    ghost use Rattle.kit_text.specs.Lines.{lines_left, CanCount};

    ghost Value = { List (ℕ × List ℕ) };

    ghost view = { λ lines. lines_left lines.count lines.rest };

    ghost invariant = { λ lines. CanCount lines.count lines.rest };
}

impl<'a> Lines<'a> {
    /// The lines of a text, at most one more than it has bytes. Where it has a byte above 7f, the error is the line of
    /// the first.
    #[tactic(auto, using(crate::proofs::LineCounts::length_numbered_lines))]
    pub fn new(text: &'a [u8]) -> Result<Lines<'a>, usize>
        ensures lines { IfOk result (λ lines. ascii_lines text.now ≡ Ok lines) }
        ensures above { IfErr result (λ line. ascii_lines text.now ≡ Err line) }
        ensures count { IfOk result (λ lines. length lines ≤ length text.now + 1) }
    {
        if let Some(line) = line_above_ascii(text) {
            return Err(line);
        }
        Ok(Lines {
            rest: Some(text),
            count: 0,
        })
    }
}

impl<'a> Iterator for Lines<'a> {
    ghost use Rattle.std.specs.Iterator.{YieldsFirstBy, item_count};

    type Item = (usize, &'a [u8]);

    ghost next_gives = { YieldsFirstBy (λ line. (line.0, line.1.now)) (λ lines. lines) };

    ghost remaining = { item_count (λ lines. lines) };

    #[tactic(auto, unfolding(crate::specs::Lines::numbered_from))]
    fn next(&mut self) -> Option<(usize, &'a [u8])> {
        while let Some(rest) = self.rest {
            let (line, rest) = cut_line(rest);
            self.rest = rest;
            self.count += 1;
            if !is_passed_over(line) {
                return Some((self.count, line));
            }
        }
        None
    }
}

/// Whether a line is empty or a comment.
fn is_passed_over(line: &[u8]) -> bool
    ensures { result ≡ is_passed_over line.now }
{
    line.is_empty() || line[0] == COMMENT
}

/// The highest bit of each byte of a word.
const HIGH_BITS: u64 = 0x8080_8080_8080_8080;

/// Whether 8 bytes, read as one word, have none above 7f.
#[inline(always)]
fn is_ascii_word(bytes: &[u8]) -> bool
    requires { 8 ≤ length bytes.now }
    ensures { result ≡ list_all (λ b. nat_lt b 128) (take 8 bytes.now) }
{
    LittleEndian::read_u64(bytes) & HIGH_BITS == 0
}

/// Whether 64 bytes have none above 7f. These are eight words with one branch for all, and not a comparison of lanes,
/// which takes twice as long where the machine has none.
#[inline(always)]
fn is_ascii_load(bytes: &[u8]) -> bool
    requires { 64 ≤ length bytes.now }
    ensures { result ≡ list_all (λ b. nat_lt b 128) (take 64 bytes.now) }
{
    is_ascii_word(bytes)
        & is_ascii_word(&bytes[8..])
        & is_ascii_word(&bytes[16..])
        & is_ascii_word(&bytes[24..])
        & is_ascii_word(&bytes[32..])
        & is_ascii_word(&bytes[40..])
        & is_ascii_word(&bytes[48..])
        & is_ascii_word(&bytes[56..])
}

/// How many bytes, by whole loads, come before the load with the first byte above 7f.
fn ascii_loads(text: &[u8]) -> usize
    ensures within { result ≤ length text.now }
    ensures none { position (nat_lt 127) text.now ≡ option_map (λ at. result + at) (position (nat_lt 127) (drop result text.now)) }
{
    let mut i = 0;
    while text.len() - i >= LOAD && is_ascii_load(&text[i..]) {
        i += LOAD;
    }
    i
}

/// The offset of the first byte above 7f, looked for byte by byte.
fn first_above_by_bytes(text: &[u8]) -> Option<usize>
    ensures place { result ≡ position (nat_lt 127) text.now }
    ensures within { IfSome result (λ at. at < length text.now) }
{
    text.iter().position(|byte| *byte > 0x7f)
}

/// The offset of the first byte above 7f.
fn first_above_ascii(text: &[u8]) -> Option<usize>
    ensures place { result ≡ position (nat_lt 127) text.now }
    ensures within { IfSome result (λ at. at < length text.now) }
{
    let front = ascii_loads(text);
    match first_above_by_bytes(&text[front..]) {
        Some(at) => Some(front + at),
        None => None,
    }
}

/// How many lines end in a prefix of a text.
fn count_lines(prefix: &[u8]) -> usize
    ensures count { result ≡ count_by (λ b. b == 10) prefix.now }
    ensures most { result ≤ length prefix.now }
{
    prefix.iter().filter(|byte| **byte == LINE_FEED).count()
}

/// The line of the first byte above 7f.
fn line_above_ascii(text: &[u8]) -> Option<usize>
    ensures { result ≡ line_above_ascii text.now }
{
    let at = first_above_ascii(text)?;
    Some(count_lines(&text[..at]) + 1)
}
