// `tetri_ctl bound TRACE REPORT`
use crate::builders::{Built, flag, on_report, valued, with_word};
use crate::named::{Shelf, open_both};
use crate::refusals::end_of;
use crate::said::{USAGE, complain};
use clap::ArgMatches;
use std::alloc::Global;
use tetri_io::StdSink;
use tetri_priced::{BySearch, Wanted, price_report};
use tetri_run::Status;

/// The words of the command.
pub fn command<'a>(alloc: Global) -> Built<'a> {
    let command = on_report(
        alloc,
        "bound",
        "Tells the bounds of a report that is accepted, lowered by prices of nodes",
        "Example: tetri_ctl bound day.jsonl day.report --slots 8-16 --no-prices",
    );
    let command = with_word(
        command,
        valued(
            alloc,
            "slots",
            "FROM-TO",
            "tell of the cycles of these slots alone, both included",
        ),
    );
    with_word(command, flag(alloc, "no-prices", "leave the prices out"))
}

// The first and the last slot that a text names, as `8-16`.
fn slots_in(text: &str) -> Option<(u32, u32)> {
    let (from, to) = text.split_once('-')?;
    let (from, to) = (from.parse::<u32>().ok()?, to.parse::<u32>().ok()?);
    if from <= to { Some((from, to)) } else { None }
}

// Which cycles the words ask for. `None` where slots are none.
fn wanted_of(words: &ArgMatches<'_>) -> Option<Wanted> {
    let prices = !words.get_flag("no-prices");
    match words.get_str("slots") {
        Some(text) => {
            let (from, to) = slots_in(text)?;
            Some(Wanted { from, to, prices })
        }
        None => Some(Wanted {
            prices,
            ..Wanted::ALL
        }),
    }
}

// Bounds a report that can be read.
fn bounded(
    rt: &HostRuntime,
    shelf: &mut Shelf<'_>,
    trace: &str,
    report: &str,
    wanted: Wanted,
) -> Result<Status, u8> {
    open_both(rt, shelf, trace, report)?;
    let mut sink = StdSink::new(rt.stdout());
    let alloc = rt.alloc();
    Ok(price_report(alloc, trace, report, wanted, BySearch, shelf, &mut sink))
}

/// Tells of what the words name, and gives the exit number.
pub fn run(rt: &HostRuntime, words: &ArgMatches<'_>) -> u8 {
    let trace = words.get_str("TRACE").unwrap_or("");
    let report = words.get_str("REPORT").unwrap_or("");
    let Some(wanted) = wanted_of(words) else {
        complain(rt, "bound", "slots are two numbers, as 8-16");
        return USAGE;
    };
    let mut shelf = Shelf::new(rt.alloc(), rt);
    match bounded(rt, &mut shelf, trace, report, wanted) {
        Ok(status) => end_of(rt, &mut shelf, &status, trace, report),
        Err(number) => number,
    }
}
