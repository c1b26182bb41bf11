// Instances with charged worths, densities, and plans with a cost of delay.
mod charging;
mod planning;
mod settings;

use settings::settings_of;
use std::alloc::{AllocError, Global};
use tetri_tables::{Given, Tally, expand_text, sections_of};

// What a section finds by its words, and nothing for a word that is unknown.
fn found_by(
    alloc: Global,
    trace: &str,
    word: &str,
    words: &str,
) -> Result<Option<String>, AllocError> {
    let settings = settings_of(alloc, words)?;
    match word {
        "charged" => Ok(Some(charging::charged(alloc, trace, &settings)?)),
        "density" => Ok(Some(charging::density(alloc, trace, &settings)?)),
        "planned" => Ok(Some(planning::planned(alloc, trace, &settings)?)),
        _ => Ok(None),
    }
}

// A text without the line feeds at its end.
fn ended(text: &str) -> &str {
    text.trim_end_matches('\n')
}

fn judge_section(
    alloc: Global,
    given: &mut Given,
    tally: &mut Tally,
    kind: &str,
    body: &str,
) -> Result<(), AllocError> {
    if kind == "why" || given.take(alloc, kind, body)? {
        return Ok(());
    }
    let (word, words) = kind.split_once(": ").unwrap_or((kind, ""));
    let wanted = expand_text(alloc, body)?;
    match found_by(alloc, given.trace.as_str(), word, words)? {
        Some(found) => tally.expect(kind, ended(found.as_str()), ended(wanted.as_str())),
        None => tally.expect(kind, "no such section", ""),
    }
}

/// Judges each case of a table, with a trace that a section before it gives. `charged` has the instance of a slot with charged worths, a
/// line for each job; `density` the density of the instance of a slot; `planned` the report of the run without its certificates; `why`
/// tells what the sections behind it try, and is no case. What is wanted may have repetitions. Behind a colon stand settings: `at` a slot; `density` a fraction, in the place
/// of that of each cycle; `ageing` in slots; `promise`; `effort`, a budget; by job `first`, the slot in which it was first seen, and
/// `held`, 1 where its nodes are held.
pub fn judge(alloc: Global, table: &str) -> Result<Tally, AllocError> {
    let mut given = Given::new(alloc);
    let mut tally = Tally::new(alloc);
    for (kind, body) in sections_of(alloc, table)? {
        judge_section(alloc, &mut given, &mut tally, kind, body)?;
    }
    Ok(tally)
}
