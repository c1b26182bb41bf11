// What prices make of the bounds of reports, and the plans and prices that are found.
mod chance;
mod finding;
mod planning;
mod pricing;

use std::alloc::{AllocError, Global};
use tetri_tables::{Given, Tally, sections_of};

fn judge_section(
    alloc: Global,
    given: &mut Given,
    tally: &mut Tally,
    kind: &str,
    body: &str,
) -> Result<(), AllocError> {
    if given.take(alloc, kind, body)? {
        return Ok(());
    }
    let (word, more) = kind.split_once(": ").unwrap_or((kind, ""));
    match word {
        "priced" => pricing::priced(alloc, given, tally, more, body),
        "found" => finding::found(alloc, given, tally, body),
        "planned" => planning::planned(alloc, given, tally, body),
        _ => tally.expect(kind, "no such section", ""),
    }
}

/// Judges each case of a table, with a trace and a report that sections before it give. `priced: WHO ..` has what is written and said of
/// the report by prices; `found` what the search finds for the first slot of the trace; `planned` the lines `plan`, without the number of
/// nodes, and `summary` of the run by prices.
pub fn judge(alloc: Global, table: &str) -> Result<Tally, AllocError> {
    let mut given = Given::new(alloc);
    let mut tally = Tally::new(alloc);
    for (kind, body) in sections_of(alloc, table)? {
        judge_section(alloc, &mut given, &mut tally, kind, body)?;
    }
    Ok(tally)
}
