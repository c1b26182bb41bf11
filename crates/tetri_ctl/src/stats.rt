// `tetri_ctl stats TRACE REPORT`
ghost use Rattle.tetri_trace.specs.Scenario.{scenario};
ghost use Rattle.tetri_trace.specs.Sound.{IsSound};

use crate::accounted::{Run, account_in, format_of, format_word, on_run, prices_word, send};
use crate::builders::{Built, choice, with_word};
use crate::named::Shelf;
use clap::{Arg, ArgMatches};
use std::alloc::{AllocError, Global};
use tetri_figures::{By, slot_seconds_of, stats_text, tags_of};

// The option that asks for more columns.
fn by_word<'a>(alloc: Global) -> Arg<'a> {
    let help = "a column for each tag of nodes, or for each class of jobs, too";
    choice(alloc, "by", &["tag", "class"], help).value_name("WHAT")
}

/// The words of the command.
pub fn command<'a>(alloc: Global) -> Built<'a> {
    let command = on_run(
        alloc,
        "stats",
        "Tells figures of a run: waits, use of nodes, worth, cycles",
        "Example: tetri_ctl stats day.jsonl day.report --by tag",
    );
    let command = with_word(command, by_word(alloc));
    let command = with_word(command, prices_word(alloc));
    with_word(command, format_word(alloc))
}

fn by_of(words: &ArgMatches<'_>) -> By {
    match words.get_str("by") {
        Some("tag") => By::Tag,
        Some("class") => By::Class,
        _ => By::Nothing,
    }
}

// The figures of a run.
fn text_of(
    alloc: Global,
    shelf: &mut Shelf<'_>,
    run: &Run,
    trace: &str,
    words: &ArgMatches<'_>,
) -> Result<Vec<u8>, AllocError>
    requires { IsSound (scenario run.now.trace) }
{
    let tags = tags_of(alloc, shelf, trace)?;
    let slot_seconds = slot_seconds_of(alloc, shelf, trace)?;
    let (by, format) = (by_of(words), format_of(words));
    stats_text(
        alloc,
        &run.trace,
        slot_seconds,
        &run.account,
        run.bounds,
        by,
        &tags,
        format,
    )
}

/// Tells of what the words name, and gives the exit number.
pub fn run(rt: &HostRuntime, words: &ArgMatches<'_>) -> u8 {
    let trace = words.get_str("TRACE").unwrap_or("");
    let mut shelf = Shelf::new(rt.alloc(), rt);
    match account_in(rt, &mut shelf, words, words.get_flag("prices")) {
        Ok(run) => send(rt, text_of(rt.alloc(), &mut shelf, &run, trace, words)),
        Err(number) => number,
    }
}
