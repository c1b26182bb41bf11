// Bytes as a person sees them.
use std::alloc::{AllocError, Global};

/// A piece of a text, and how many characters stand before the place that is meant.
#[derive(Drop)]
pub struct Excerpt {
    pub text: String,
    pub caret: usize,
}

const BEFORE_MOST: usize = 60;

const BEHIND_MOST: usize = 40;

// A byte as one character.
fn shown_byte(byte: u8) -> char {
    if byte.is_ascii_graphic() || byte == b' ' {
        char::from(byte)
    } else {
        '?'
    }
}

/// Bytes as text of as many characters: what cannot be printed as ASCII is a `?`.
pub(crate) fn shown(alloc: Global, bytes: &[u8]) -> Result<String, AllocError> {
    let mut text = String::new(alloc);
    for byte in bytes {
        text.push(shown_byte(*byte))?;
    }
    Ok(text)
}

/// The first bytes of what stands somewhere, without blanks around them.
pub(crate) fn front(alloc: Global, bytes: &[u8]) -> Result<String, AllocError> {
    let bytes = bytes.trim_ascii();
    let mut text = shown(
        alloc,
        bytes.get(..bytes.len().min(BEHIND_MOST)).unwrap_or(&[]),
    )?;
    if bytes.len() > BEHIND_MOST {
        text.push_str("..")?;
    }
    Ok(text)
}

/// The text around a place.
pub(crate) fn excerpt_at(alloc: Global, text: &[u8], at: usize) -> Result<Excerpt, AllocError> {
    let from = at.saturating_sub(BEFORE_MOST).min(text.len());
    let to = at.saturating_add(BEHIND_MOST).min(text.len());
    let piece = text.get(from..to).unwrap_or(&[]);
    Ok(Excerpt {
        text: shown(alloc, piece)?,
        caret: at.saturating_sub(from),
    })
}

/// Whether a byte may stand in a word or a name.
pub(crate) fn is_word_byte(byte: u8) -> bool {
    byte.is_ascii_alphanumeric() || matches!(byte, b'-' | b'.' | b'/' | b':' | b'_')
}

// How many bytes of a word stand first.
fn word_len(text: &[u8]) -> usize {
    for (i, b) in text.iter().enumerate() {
        if !is_word_byte(*b) {
            return i;
        }
    }
    text.len()
}

/// The word that stands at a place, or the byte.
pub(crate) fn word_at(text: &[u8], at: usize) -> &[u8] {
    let rest = text.get(at..).unwrap_or(&[]);
    let len = word_len(rest).max(1).min(rest.len());
    rest.get(..len).unwrap_or(&[])
}
