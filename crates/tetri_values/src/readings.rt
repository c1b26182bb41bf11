// Traces and reports that are read, and reports that are judged.
mod judged;
mod reports;
mod traces;

use crate::texts;
use std::alloc::{AllocError, Global};
use tetri_tables::{Given, Tally};

/// Judges the rows of a section.
pub fn judge(
    alloc: Global,
    given: &Given,
    tally: &mut Tally,
    word: &str,
    more: &str,
    body: &str,
) -> Result<(), AllocError> {
    match word {
        "judged" => judged::judged(alloc, given, tally, more),
        "first faults" => traces::first_faults(alloc, given, tally, body),
        "changed headers" => traces::changed_headers(alloc, given, tally, body),
        "changed jobs" => traces::changed_jobs(alloc, given, tally, body),
        "contents" => traces::contents(alloc, tally, body),
        "read" => traces::read(alloc, given, tally, body),
        "found jobs" => traces::found_jobs(alloc, given, tally, body),
        "lines" => reports::lines(alloc, given, tally, body),
        "changed reports" => reports::changed_reports(alloc, given, tally, body),
        _ => texts::judge(alloc, given, tally, word, more, body),
    }
}
