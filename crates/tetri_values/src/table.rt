// The sections of a table.
use crate::{
    cuts, cycles, expressions, fractions, node_sets, readings, runs_of_programs, unaligned,
};
use std::alloc::{AllocError, Global};
use tetri_tables::{Given, Tally, sections_of};

fn judge_section(
    alloc: Global,
    given: &mut Given,
    tally: &mut Tally,
    kind: &str,
    body: &str,
) -> Result<(), AllocError> {
    if given.take(alloc, kind, body)? {
        return Ok(());
    }
    let (word, more) = kind.split_once(": ").unwrap_or((kind, ""));
    match word {
        "cycles" => cycles::cycles(alloc, given.trace.as_str(), tally, body),
        "expression" => expressions::expression(alloc, given.trace.as_str(), tally, more, body),
        "fractions" => fractions::fractions(alloc, tally, body),
        "in code" => {
            node_sets::numbered_sets(alloc, tally)?;
            unaligned::unaligned(alloc, tally)?;
            runs_of_programs::weighed(alloc, tally)?;
            runs_of_programs::dual_runs(alloc, tally)
        }
        "cuts" => cuts::judge(alloc, given, tally, body),
        _ => readings::judge(alloc, given, tally, word, more, body),
    }
}

/// Judges each case of a table.
pub fn judge(alloc: Global, table: &str) -> Result<Tally, AllocError> {
    let mut given = Given::new(alloc);
    let mut tally = Tally::new(alloc);
    for (kind, body) in sections_of(alloc, table)? {
        judge_section(alloc, &mut given, &mut tally, kind, body)?;
    }
    Ok(tally)
}
