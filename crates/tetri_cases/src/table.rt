// The sections of a table.
use crate::panels::{Trial, try_panel};
use crate::{devices, imports, runs};
use std::alloc::{AllocError, Global};
use tetri_tables::{Given, Tally, expand_text, sections_of};

// A plan whose report has repetitions.
fn made_plan(
    alloc: Global,
    given: &mut Given,
    tally: &mut Tally,
    advisors: &str,
    body: &str,
) -> Result<(), AllocError> {
    let body = expand_text(alloc, body)?;
    let body = body.as_str().trim_end_matches('\n');
    runs::plan(alloc, given, tally, advisors, body)
}

// The same of what a run of the words writes.
fn made_run(
    alloc: Global,
    given: &Given,
    tally: &mut Tally,
    words: &str,
    body: &str,
) -> Result<(), AllocError> {
    let body = expand_text(alloc, body)?;
    let body = body.as_str().trim_end_matches('\n');
    runs::made(alloc, given, tally, words, body)
}

fn judge_more(
    alloc: Global,
    given: &mut Given,
    tally: &mut Tally,
    word: &str,
    more: &str,
    body: &str,
) -> Result<(), AllocError> {
    match word {
        "forged" => runs::forged(alloc, given, tally, body),
        "failing" => runs::failing(alloc, given, tally, more, body),
        "each read" => devices::each_read(alloc, given, tally, more, body),
        "each write" => devices::each_write(alloc, given, tally, more, body),
        "each cut" => devices::each_cut(alloc, given, tally),
        "words" => runs::words(alloc, tally, body),
        "endings" => runs::endings(alloc, tally, body),
        "panel" => try_panel(alloc, given, tally, Trial::Rows(body)),
        "run" => try_panel(alloc, given, tally, Trial::Run(body)),
        _ => imports::judge(alloc, given, tally, word, more, body),
    }
}

fn judge_section(
    alloc: Global,
    given: &mut Given,
    tally: &mut Tally,
    kind: &str,
    body: &str,
) -> Result<(), AllocError> {
    if given.take(alloc, kind, body)? {
        return Ok(());
    }
    let (word, more) = kind.split_once(": ").unwrap_or((kind, ""));
    match word {
        "plan" => runs::plan(alloc, given, tally, more, body),
        "made plan" => made_plan(alloc, given, tally, more, body),
        "made parts" => made_run(alloc, given, tally, "parts trace", body),
        "made admit" => made_run(alloc, given, tally, "admit trace", body),
        "made log" => imports::take_in_order(alloc, given, more, body),
        "no plan" => runs::no_plan(alloc, given, tally, more),
        "check" => runs::check(alloc, given, tally, more),
        _ => judge_more(alloc, given, tally, word, more, body),
    }
}

/// Judges a trace with a report that a check accepts, and that is planned for it by the program's own advisors where this is said.
pub fn judge_example(
    alloc: Global,
    trace: String,
    report: String,
    is_planned: bool,
) -> Result<Tally, AllocError> {
    let mut given = Given::new(alloc);
    given.trace = trace;
    let mut tally = Tally::new(alloc);
    if is_planned {
        let body = report.as_str().trim_end_matches('\n');
        runs::plan(alloc, &mut given, &mut tally, "deadline,worth", body)?;
    } else {
        given.report = report;
        runs::accepted(alloc, &given, &mut tally)?;
    }
    Ok(tally)
}

/// Judges what is answered for the jobs of a trace.
pub fn judge_answers(alloc: Global, trace: String, answers: String) -> Result<Tally, AllocError> {
    let mut given = Given::new(alloc);
    given.trace = trace;
    let mut tally = Tally::new(alloc);
    let body = answers.as_str().trim_end_matches('\n');
    runs::made(alloc, &given, &mut tally, "admit trace", body)?;
    Ok(tally)
}

/// Judges each case of a table.
pub fn judge(alloc: Global, table: &str) -> Result<Tally, AllocError> {
    let mut given = Given::new(alloc);
    let mut tally = Tally::new(alloc);
    for (kind, body) in sections_of(alloc, table)? {
        judge_section(alloc, &mut given, &mut tally, kind, body)?;
    }
    Ok(tally)
}
