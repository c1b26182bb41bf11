// `tetri_ctl jobs TRACE REPORT`
use crate::accounted::{Run, account_in, format_of, format_word, on_run, send};
use crate::builders::{Built, with_word};
use crate::named::Shelf;
use clap::ArgMatches;
use std::alloc::Global;
use tetri_figures::jobs_text;

/// The words of the command.
pub fn command<'a>(alloc: Global) -> Built<'a> {
    let command = on_run(
        alloc,
        "jobs",
        "Tells of each job of a run: when it started, how long it waited, where it ran",
        "Example: tetri_ctl jobs day.jsonl day.report --format csv > day.csv",
    );
    with_word(command, format_word(alloc))
}

/// Tells of what the words name, and gives the exit number.
pub fn run(rt: &HostRuntime, words: &ArgMatches<'_>) -> u8 {
    let mut shelf = Shelf::new(rt.alloc(), rt);
    match account_in(rt, &mut shelf, words, false) {
        Ok(
            Run {
                trace: kept,
                account,
                ..
            },
        ) => {
            let rows = account.rows.as_slice();
            send(rt, jobs_text(rt.alloc(), &kept, rows, format_of(words)))
        }
        Err(number) => number,
    }
}
