// What is wrong with the text of an expression or of a set.
use crate::around::{near_nodes, near_tags};
use crate::near::nearest_of;
use crate::scan::piece;
use crate::shown::{excerpt_at, front, is_word_byte, word_at};
use crate::told::Told;
use std::alloc::{AllocError, Global};
use tetri_cluster::{Cluster, Sets};
use tetri_parse::{Fault, ParseFault, read_expr, read_set};

const WORDS: [&str; 7] = ["nCk", "LnCk", "max", "min", "sum", "scale", "barrier"];

/// A text, and whether it is that of a set.
#[derive(Clone, Copy, Debug)]
pub(crate) struct Phrase<'t> {
    pub(crate) text: &'t [u8],
    pub(crate) is_set: bool,
}

// Why a text is not read over the nodes of a cluster.
fn fault_of(alloc: Global, cluster: &Cluster, phrase: Phrase<'_>) -> Result<(), ParseFault> {
    let mut sets = Sets::new(alloc);
    if phrase.is_set {
        let _set = read_set(alloc, phrase.text, cluster, &mut sets)?;
    } else {
        let _expr = read_expr(alloc, phrase.text, 1, 0, cluster, &mut sets)?;
    }
    Ok(())
}

/// Whether the text of a set has this fault behind so many bytes.
pub(crate) fn has_fault(
    alloc: Global,
    cluster: &Cluster,
    text: &[u8],
    offset: u64,
    fault: Fault,
) -> Result<bool, AllocError> {
    let phrase = Phrase { text, is_set: true };
    match fault_of(alloc, cluster, phrase) {
        Ok(()) => Ok(false),
        Err(ParseFault::NoMemory) => Err(AllocError),
        Err(
            ParseFault::At {
                offset: at,
                fault: found,
            },
        ) => Ok(at == offset && found == fault),
    }
}

// Whether a reader goes on behind a piece that is put behind the front of a text.
fn goes_on(
    alloc: Global,
    cluster: &Cluster,
    phrase: Phrase<'_>,
    at: usize,
    piece: &str,
) -> Result<bool, AllocError> {
    let begun = phrase.text.get(..at).unwrap_or(&[]);
    let mut text = Vec::from_slice(alloc, begun)?;
    text.extend_from_slice(piece.as_bytes())?;
    let phrase = Phrase {
        text: &text,
        is_set: phrase.is_set,
    };
    match fault_of(alloc, cluster, phrase) {
        Ok(()) => Ok(true),
        Err(ParseFault::NoMemory) => Err(AllocError),
        Err(ParseFault::At { offset, fault }) => {
            let is_grammar = matches!(fault, Fault::Unexpected | Fault::Ended | Fault::Trailing);
            Ok(offset > at as u64 || !is_grammar)
        }
    }
}

// Adds a part of what is expected.
fn add_part(expected: &mut String, part: &str) -> Result<(), AllocError> {
    if !expected.is_empty() {
        expected.push_str(" or ")?;
    }
    expected.push_str(part)
}

// Adds the marks that may stand at a place.
fn add_marks(
    alloc: Global,
    cluster: &Cluster,
    phrase: Phrase<'_>,
    at: usize,
    expected: &mut String,
) -> Result<(), AllocError> {
    for mark in ["(", ",", ")", "&", "}"] {
        if goes_on(alloc, cluster, phrase, at, mark)? {
            add_part(expected, mark)?;
        }
    }
    Ok(())
}

// Whether the byte before a place is one of a word or a number.
fn is_in_word(text: &[u8], at: usize) -> bool {
    match text.get(..at).unwrap_or(&[]).last() {
        Some(byte) => is_word_byte(*byte),
        None => false,
    }
}

// Adds what may begin at a place, and says whether it is one of the seven words.
fn add_begun(
    alloc: Global,
    cluster: &Cluster,
    phrase: Phrase<'_>,
    at: usize,
    expected: &mut String,
) -> Result<bool, AllocError> {
    if is_in_word(phrase.text, at) {
        return Ok(false);
    }
    if goes_on(alloc, cluster, phrase, at, "*")? {
        add_part(expected, "a set")?;
        return Ok(false);
    }
    if goes_on(alloc, cluster, phrase, at, "nCk(")? {
        add_part(expected, "one of nCk, LnCk, max, min, sum, scale, barrier")?;
        return Ok(true);
    }
    if goes_on(alloc, cluster, phrase, at, "nCk")? {
        add_part(expected, "a name")?;
        return Ok(false);
    }
    if goes_on(alloc, cluster, phrase, at, "1")? {
        add_part(expected, "a number")?;
    }
    Ok(false)
}

// Whether a word of a set names something: a tag, or a node between braces.
fn is_named(cluster: &Cluster, word: &[u8], is_node: bool) -> bool {
    if is_node {
        cluster.node(word).is_some()
    } else {
        cluster.knows_tag(word)
    }
}

// The place of the first word of a set that names nothing, and whether it stands between braces. The set begins at a place.
fn unknown_word(cluster: &Cluster, text: &[u8], at: usize) -> (usize, bool) {
    let mut is_node = false;
    let mut begun = None;
    for (i, b) in text.iter().enumerate() {
        if i >= at {
            if is_word_byte(*b) {
                if begun.is_none() {
                    begun = Some(i);
                }
            } else {
                if let Some(from) = begun {
                    if !is_named(cluster, piece(text, from, i), is_node) {
                        return (from, is_node);
                    }
                    begun = None;
                }
                if *b == b',' && !is_node {
                    return (at, false);
                }
                if *b == b'{' {
                    is_node = true;
                }
                if *b == b'}' {
                    is_node = false;
                }
            }
        }
    }
    (begun.unwrap_or(at), is_node)
}

// Tells of a set that names what is not there, and gives the place of the name.
fn tell_unknown(
    alloc: Global,
    cluster: &Cluster,
    header: &[u8],
    text: &[u8],
    at: usize,
    told: &mut Told,
) -> Result<usize, AllocError> {
    let (at, is_node) = unknown_word(cluster, text, at);
    let word = word_at(text, at);
    let name = front(alloc, word)?;
    if is_node {
        told.near = near_nodes(alloc, header, name.as_str())?;
    } else {
        told.near = near_tags(alloc, header, name.as_str())?;
        if cluster.node(word).is_some() {
            let node = name.as_str();
            told.expected = format!(in alloc; "a tag, or {{{node}}} for the node")?;
        }
    }
    Ok(at)
}

// Tells what may stand at a place in the place of a word.
fn tell_expected(
    alloc: Global,
    cluster: &Cluster,
    phrase: Phrase<'_>,
    at: usize,
    told: &mut Told,
) -> Result<(), AllocError> {
    let mut expected = String::new(alloc);
    let is_word = add_begun(alloc, cluster, phrase, at, &mut expected)?;
    add_marks(alloc, cluster, phrase, at, &mut expected)?;
    told.expected = expected;
    if is_word {
        let word = front(alloc, word_at(phrase.text, at))?;
        told.near = nearest_of(alloc, word.as_str(), &WORDS)?;
    }
    Ok(())
}

const LIMITS: &str =
    "1 to 4096 nodes, a start from 0 to 10000, a duration from 1 to 10000, a worth or a factor from 0 to 1000000000000";

/// Tells of a fault in a text behind so many bytes, and gives the place that is meant.
pub(crate) fn tell_fault(
    alloc: Global,
    cluster: &Cluster,
    header: &[u8],
    phrase: Phrase<'_>,
    offset: u64,
    fault: Fault,
    told: &mut Told,
) -> Result<usize, AllocError> {
    let mut at = offset.min(phrase.text.len() as u64) as usize;
    match fault {
        Fault::Unexpected | Fault::Ended => tell_expected(alloc, cluster, phrase, at, told)?,
        Fault::NumberRange => told.expected = String::from_str(alloc, LIMITS)?,
        Fault::UnknownSet => at = tell_unknown(alloc, cluster, header, phrase.text, at, told)?,
        _ => {}
    }
    let word = front(alloc, word_at(phrase.text, at))?;
    if !word.is_empty() && fault != Fault::Uneven && fault != Fault::Mixed {
        told.found = Some(word);
    }
    told.excerpt = Some(excerpt_at(alloc, phrase.text, at)?);
    Ok(at)
}
