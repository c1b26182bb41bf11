// Findings as text.
use crate::finding::{Finding, Kind, Level, Refusal, level_of};
use crate::shown::Excerpt;
use crate::words::words_of;
use std::alloc::AllocError;
use std::fmt::Write;

// The file, the line and the column.
fn add_place(
    out: &mut String,
    name: &str,
    line: u64,
    column: Option<u64>,
) -> Result<(), AllocError> {
    write!(out, "{name}:{line}:")?;
    if let Some(column) = column {
        write!(out, "{column}:")?;
    }
    Ok(())
}

// The nearest names, if there are any.
fn add_near(out: &mut String, names: &[String]) -> Result<(), AllocError> {
    let mut mark = "; nearest: ";
    for name in names {
        out.push_str(mark)?;
        out.push_str(name.as_str())?;
        mark = ", ";
    }
    Ok(())
}

// A text, and a caret below a place in it.
fn add_excerpt(out: &mut String, excerpt: &Excerpt) -> Result<(), AllocError> {
    out.push_str("    ")?;
    out.push_str(excerpt.text.as_str())?;
    out.push_str("\n    ")?;
    for _ in 0..excerpt.caret {
        out.push(' ')?;
    }
    out.push_str("^\n")
}

/// Adds why a trace of this name is refused: a line, and below it the text that is meant, where there is one.
pub fn add_refusal(out: &mut String, name: &str, refusal: &Refusal) -> Result<(), AllocError> {
    add_place(out, name, refusal.line, refusal.told.column)?;
    out.push_str(" error: ")?;
    out.push_str(words_of(refusal.why))?;
    out.push_str(" [")?;
    refusal.why.print_onto(out)?;
    out.push_str("]")?;
    if let Some(found) = &refusal.told.found {
        out.push_str("; found: ")?;
        out.push_str(found.as_str())?;
    }
    if !refusal.told.expected.is_empty() {
        out.push_str("; expected: ")?;
        out.push_str(refusal.told.expected.as_str())?;
    }
    add_near(out, &refusal.told.near)?;
    out.push_str("\n")?;
    match &refusal.told.excerpt {
        Some(excerpt) => add_excerpt(out, excerpt),
        None => Ok(()),
    }
}

fn level_word(level: Level) -> &'static str {
    match level {
        Level::Warning => " warning: ",
        Level::Note => " note: ",
    }
}

// What is found of a name.
fn add_kind(out: &mut String, kind: Kind, name: &str) -> Result<(), AllocError> {
    match kind {
        Kind::UnknownKey => write!(out, "the key {name} is not known"),
        Kind::RepeatedKey => write!(
            out,
            "the key {name} stands once more: the last value counts"
        ),
        Kind::MoreThanSet { wanted, there } => {
            write!(
                out,
                "job {name} wants {wanted} nodes of a set that has {there}"
            )
        }
        Kind::PastDeadline { dur, deadline } => {
            write!(
                out,
                "job {name} runs {dur} slots and is to end {deadline} slots after it arrives"
            )
        }
        Kind::RoundsToZero { value } => {
            write!(
                out,
                "job {name} is worth {value}, which rounds to 0 at its deadline"
            )
        }
        Kind::NeverStarts => write!(
            out,
            "job {name} can never start: the nodes that it wants are closed"
        ),
        Kind::UnnamedNodes { count } => {
            write!(
                out,
                "no job wants node {name}: {count} nodes are in no set that a job names"
            )
        }
        Kind::ShortWindow { window, wait } => {
            write!(
                out,
                "job {name} may wait {wait} slots, and a plan looks {window} slots ahead"
            )
        }
    }
}

/// Adds what is found in a trace of this name, as a line.
pub fn add_finding(out: &mut String, name: &str, finding: &Finding) -> Result<(), AllocError> {
    add_place(out, name, finding.line, finding.column)?;
    out.push_str(level_word(level_of(finding.kind)))?;
    add_kind(out, finding.kind, finding.name.as_str())?;
    add_near(out, &finding.near)?;
    out.push_str("\n")
}
