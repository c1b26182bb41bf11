// The words of a line, and the numbers that they are.
ghost use Rattle.std.specs.Prelude.{◌≡◌, ◌↔◌, ◌==◌, ◌+◌, ◌<◌, ◌≤◌, ◌++◌, ◌∷◌, [], IfOk, IsTrue, OnOk, bytes_eq, drop, length, map, min};
ghost use Rattle.std.specs.List.{list_any};
ghost use Rattle.tetri_io.specs.Words.{parts_at};
ghost use Rattle.tetri_logs.specs.Words.{amount, count_in, is_separator, needed, next_place, word_at, words_of};

use crate::entry::Cause;
use crate::scan::{marks_from, next_place};
use std::alloc::AllocError;
use tetri_io::digits_below;

// Of each byte whether it is a separator.
static SEPARATORS: [bool; 256] = [
    false, false, false, false, false, false, false, false, false, true, false, false, false, true,
    false, false, false, false, false, false, false, false, false, false, false, false, false,
    false, false, false, false, false, true, false, false, false, false, false, false, false,
    false, false, false, false, false, false, false, false, false, false, false, false, false,
    false, false, false, false, false, false, true, false, false, false, false, false, false,
    false, false, false, false, false, false, false, false, false, false, false, false, false,
    false, false, false, false, false, false, false, false, false, false, false, false, false,
    false, false, false, false, false, false, false, false, false, false, false, false, false,
    false, false, false, false, false, false, false, false, false, false, false, false, false,
    false, false, false, false, false, false, false, false, false, false, false, false, false,
    false, false, false, false, false, false, false, false, false, false, false, false, false,
    false, false, false, false, false, false, false, false, false, false, false, false, false,
    false, false, false, false, false, false, false, false, false, false, false, false, false,
    false, false, false, false, false, false, false, false, false, false, false, false, false,
    false, false, false, false, false, false, false, false, false, false, false, false, false,
    false, false, false, false, false, false, false, false, false, false, false, false, false,
    false, false, false, false, false, false, false, false, false, false, false, false, false,
    false, false, false, false, false, false, false, false, false, false, false, false, false,
    false, false, false, false, false, false, false, false, false, false, false, false, false,
    false, false, false, false, false, false, false, false,
];

// A space, a tab, a carriage return or the mark of a comment.
pub(crate) fn is_separator(b: u8) -> bool
    ensures { result ≡ is_separator b }
{
    SEPARATORS[b as usize]
}

/// Puts what stands between the separators of a line, where something does, in the place of other words. Its only error is want of memory.
pub(crate) fn words_of<'a>(words: &mut Vec<&'a [u8]>, line: &'a [u8]) -> Result<(), AllocError>
    ensures { OnOk result (map (λ x. x.now) words.new.items ≡ words_of line.now) }
{
    words.clear();
    let mut from = 0;
    for (i, b) in line.iter().enumerate() {
        if is_separator(*b) {
            if from < i {
                words.push(&line[from..i])?;
            }
            from = i + 1;
        }
    }
    if from < line.len() {
        words.push(&line[from..])?;
    }
    Ok(())
}

// Adds the parts that end at the marks among the next 64 bytes from a place on, and gives where the next part begins.
#[inline(always)]
fn add_parts<'a>(
    parts: &mut Vec<&'a [u8]>,
    mark: u8,
    line: &'a [u8],
    mut begin: usize,
    at: usize,
) -> Result<usize, AllocError>
    requires long { 64 ≤ length line.now }
    requires inside { at < length line.now }
    requires order { begin ≤ at }
    requires next { next_place mark line.now begin ≡ next_place mark line.now at }
    ensures inside { IfOk result (λ last. last ≤ min (at + 64) (length line.now)) }
    ensures next { IfOk result (λ last. next_place mark line.now last ≡ next_place mark line.now (min (at + 64) (length line.now))) }
    ensures parts { IfOk result (λ last. map (λ x. x.now) parts.new.items ++ parts_at mark (drop last line.now) ≡ map (λ x. x.now) parts.old.items ++ parts_at mark (drop begin line.now)) }
{
    let mut found = marks_from(line, at, mark);
    while found != 0 {
        let end = at + found.trailing_zeros() as usize;
        parts.push(&line[begin..end])?;
        begin = end + 1;
        found &= found - 1;
    }
    Ok(begin)
}

// Adds all parts but the last of a line of 64 bytes or more, and gives where the last begins.
#[inline(always)]
fn add_long<'a>(parts: &mut Vec<&'a [u8]>, mark: u8, line: &'a [u8]) -> Result<usize, AllocError>
    requires { 64 ≤ length line.now }
    ensures inside { IfOk result (λ last. last ≤ length line.now) }
    ensures parts { IfOk result (λ last. map (λ x. x.now) parts.new.items ++ drop last line.now ∷ [] ≡ map (λ x. x.now) parts.old.items ++ parts_at mark line.now) }
{
    let mut begin = 0;
    let mut at = 0;
    while at < line.len() {
        begin = add_parts(parts, mark, line, begin, at)?;
        at += 64;
    }
    Ok(begin)
}

// The same of a line of any length.
#[inline(always)]
fn add_short<'a>(parts: &mut Vec<&'a [u8]>, mark: u8, line: &'a [u8]) -> Result<usize, AllocError>
    ensures inside { IfOk result (λ last. last ≤ length line.now) }
    ensures parts { IfOk result (λ last. map (λ x. x.now) parts.new.items ++ drop last line.now ∷ [] ≡ map (λ x. x.now) parts.old.items ++ parts_at mark line.now) }
{
    let mut begin = 0;
    let mut end = next_place(line, begin, mark);
    while end < line.len() {
        parts.push(&line[begin..end])?;
        begin = end + 1;
        end = next_place(line, begin, mark);
    }
    Ok(begin)
}

/// Puts what stands between single bytes of a kind, before the first and behind the last, in the place of other parts. Its only error is
/// want of memory.
pub(crate) fn parts_of<'a>(
    parts: &mut Vec<&'a [u8]>,
    mark: u8,
    line: &'a [u8],
) -> Result<(), AllocError>
    ensures { OnOk result (map (λ x. x.now) parts.new.items ≡ parts_at mark line.now) }
{
    parts.clear();
    let last = if line.len() < 64 {
        add_short(parts, mark, line)?
    } else {
        add_long(parts, mark, line)?
    };
    parts.push(&line[last..])?;
    Ok(())
}

/// A word by its place, or nothing.
#[inline(always)]
pub(crate) fn word_at<'a>(words: &[&'a [u8]], place: usize) -> &'a [u8]
    ensures { result.now ≡ word_at (map (λ w. w.now) words.now) place }
{
    match words.get(place) {
        Some(word) => word,
        None => b"",
    }
}

/// Whether two words are the same.
pub(crate) fn is_same(one: &[u8], other: &[u8]) -> bool
    ensures { IsTrue result ↔ (one.now ≡ other.now) }
{
    one == other
}

/// Whether a byte stands in a word.
#[inline(always)]
pub(crate) fn has_byte(word: &[u8], byte: u8) -> bool
    ensures { result ≡ list_any (λ b. b == byte) word.now }
{
    word.iter().any(|b| *b == byte)
}

/// Whether a word is this text.
#[inline(always)]
pub(crate) fn is_text(word: &[u8], text: &str) -> bool
    ensures { result ≡ bytes_eq word.now text.now }
{
    word == text.as_bytes()
}

/// The number below 2^32 that a word's 1 to 10 digits are.
#[inline(always)]
pub(crate) fn count_in(word: &[u8]) -> Option<u32>
    ensures { result ≡ count_in word.now }
{
    match digits_below(4_294_967_296, word) {
        Some(number) => Some(number as u32),
        None => None,
    }
}

/// The number that has to be there, in a column.
pub(crate) fn needed(column: usize, word: &[u8]) -> Result<u32, Cause>
    ensures { result ≡ needed column word.now }
{
    match count_in(word) {
        Some(number) => Ok(number),
        None => Err(Cause::Unreadable(column)),
    }
}

/// The number that a word in a column is, where it is known: `-1` says that it is not.
#[inline(always)]
pub(crate) fn amount(column: usize, word: &[u8]) -> Result<Option<u32>, Cause>
    ensures { result ≡ amount column word.now }
{
    amount_by(column, word, count_in(word))
}

/// The same of a word whose digits are this number.
#[inline(always)]
pub(crate) fn amount_by(
    column: usize,
    word: &[u8],
    number: Option<u32>,
) -> Result<Option<u32>, Cause>
    requires { number ≡ count_in word.now }
    ensures { result ≡ amount column word.now }
{
    if is_text(word, "-1") {
        return Ok(None);
    }
    match number {
        Some(number) => Ok(Some(number)),
        None => Err(Cause::Unreadable(column)),
    }
}
