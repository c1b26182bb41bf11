// `tetri_ctl check TRACE REPORT`
use crate::builders::{Built, on_report};
use crate::named::{Shelf, open_both};
use crate::refusals::end_of;
use clap::ArgMatches;
use std::alloc::Global;
use tetri_io::StdSink;
use tetri_run::{Status, run_check};

/// The words of the command.
pub fn command<'a>(alloc: Global) -> Built<'a> {
    on_report(
        alloc,
        "check",
        "Checks a report against its trace, as tetri check does",
        "Example: zcat day.report.gz | tetri_ctl check day.jsonl -",
    )
}

// Checks a report that can be read.
fn checked(
    rt: &HostRuntime,
    shelf: &mut Shelf<'_>,
    trace: &str,
    report: &str,
) -> Result<Status, u8> {
    open_both(rt, shelf, trace, report)?;
    let mut sink = StdSink::new(rt.stdout());
    Ok(run_check(rt.alloc(), trace, report, shelf, &mut sink))
}

/// Checks what the words name, and gives the exit number.
pub fn run(rt: &HostRuntime, words: &ArgMatches<'_>) -> u8 {
    let trace = words.get_str("TRACE").unwrap_or("");
    let report = words.get_str("REPORT").unwrap_or("");
    let mut shelf = Shelf::new(rt.alloc(), rt);
    match checked(rt, &mut shelf, trace, report) {
        Ok(status) => end_of(rt, &mut shelf, &status, trace, report),
        Err(number) => number,
    }
}
