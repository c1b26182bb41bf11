// Words, marks and what else a text consists of.
ghost use Rattle.std.specs.Prelude.{◌≡◌, ◌≤◌, length};
ghost use Rattle.std.specs.List.{prefix_len};
ghost use Rattle.tetri_parse.specs.Answers.{Gives};
ghost use Rattle.tetri_parse.specs.Tokens.{stands, skip_blanks, missed, missing, mark_at, known_word, word_at, goes_on_at, name_at};

use crate::fault::{Fault, Miss, Stop};
use crate::syntax::Join;

/// A class of bytes.
#[derive(Clone, Copy, Debug, PartialEq, Eq)]
pub(crate) enum Class {
    Blank,
    Digit,
    Letter,
    Named,
}

/// A word of the language.
#[derive(Clone, Copy, Debug, PartialEq, Eq)]
pub(crate) enum Word {
    Leaf { linear: bool },
    Join(Join),
    Scale,
    Barrier,
}

fn is_in(class: Class, b: u8) -> bool
    ensures { result ≡ stands class b }
{
    let is_digit = b'0' <= b && b <= b'9';
    let is_letter = (b'a' <= b && b <= b'z') || (b'A' <= b && b <= b'Z');
    match class {
        Class::Blank => b == b' ' || b == b'\t' || b == b'\r' || b == b'\n',
        Class::Digit => is_digit,
        Class::Letter => is_letter,
        Class::Named => is_letter || (b'-' <= b && b <= b':') || b == b'_',
    }
}

/// How many bytes of the class stand first.
pub(crate) fn run_of(class: Class, text: &[u8]) -> usize
    ensures value { result ≡ prefix_len (stands class) text.now }
    ensures within { result ≤ length text.now }
{
    for (i, b) in text.iter().enumerate() {
        if !is_in(class, *b) {
            return i;
        }
    }
    text.len()
}

pub(crate) fn skip_blanks(text: &[u8]) -> &[u8]
    ensures { result.now ≡ skip_blanks text.now }
{
    text.split_at(run_of(Class::Blank, text)).1
}

/// This fault at the first byte.
pub(crate) fn missed(fault: Fault, text: &[u8]) -> Stop
    ensures { result ≡ Stop.Missed (missed fault text.now) }
{
    Stop::Missed(Miss {
        fault,
        left: text.len(),
    })
}

/// The fault where what should stand first does not.
pub(crate) fn missing(text: &[u8]) -> Stop
    ensures { result ≡ Stop.Missed (missing text.now) }
{
    if text.is_empty() {
        missed(Fault::Ended, text)
    } else {
        missed(Fault::Unexpected, text)
    }
}

/// What stands behind a mark.
pub(crate) fn mark(mark: u8, text: &[u8]) -> Result<&[u8], Stop>
    ensures { Gives (λ x. x.now) result (mark_at mark text.now) }
{
    let text = skip_blanks(text);
    match text {
        [first, rest @ ..] if *first == mark => Ok(rest),
        _ => Err(missing(text)),
    }
}

fn known_word(word: &[u8]) -> Option<Word>
    ensures { result ≡ known_word word.now }
{
    if word == b"nCk".as_slice() {
        return Some(Word::Leaf { linear: false });
    }
    if word == b"LnCk".as_slice() {
        return Some(Word::Leaf { linear: true });
    }
    if word == b"max".as_slice() {
        return Some(Word::Join(Join::Max));
    }
    if word == b"min".as_slice() {
        return Some(Word::Join(Join::Min));
    }
    if word == b"sum".as_slice() {
        return Some(Word::Join(Join::Sum));
    }
    if word == b"scale".as_slice() {
        return Some(Word::Scale);
    }
    if word == b"barrier".as_slice() {
        return Some(Word::Barrier);
    }
    None
}

/// The word that stands first, and what stands behind it.
pub(crate) fn first_word(text: &[u8]) -> Result<(Word, &[u8]), Stop>
    ensures { Gives (λ x. (x.0, x.1.now)) result (word_at text.now) }
{
    let (letters, rest) = text.split_at(run_of(Class::Letter, text));
    match known_word(letters) {
        Some(word) => Ok((word, rest)),
        None => Err(missing(text)),
    }
}

/// The name that stands first, and what stands behind it.
pub(crate) fn name(text: &[u8]) -> Result<(&[u8], &[u8]), Stop>
    ensures { Gives (λ x. (x.0.now, x.1.now)) result (name_at text.now) }
{
    let text = skip_blanks(text);
    let count = run_of(Class::Named, text);
    if count == 0 {
        return Err(missing(text));
    }
    let (name, rest) = text.split_at(count);
    Ok((name, rest))
}

/// Whether a list goes on behind a comma, or ends with its last mark.
pub(crate) fn goes_on(last: u8, text: &[u8]) -> Result<(bool, &[u8]), Stop>
    ensures { Gives (λ x. (x.0, x.1.now)) result (goes_on_at last text.now) }
{
    let text = skip_blanks(text);
    match text {
        [b',', rest @ ..] => Ok((true, rest)),
        [first, rest @ ..] if *first == last => Ok((false, rest)),
        _ => Err(missing(text)),
    }
}
