// Reports that are read line by line.
ghost use Rattle.std.specs.Prelude.{◌≤◌, ◌+◌};

use std::alloc::{AllocError, Global};
use tetri_cert::{Certificate, print_onto};
use tetri_report::{Blocks, Cycle, ReportFault};
use tetri_state::{Happened, PieceId};
use tetri_tables::{Given, Tally, add_debug, answer, debug_text, halves, replaced};
use tetri_trace::Trace;

fn add_pieces(out: &mut String, word: &str, pieces: &[PieceId]) -> Result<(), AllocError> {
    for piece in pieces {
        write!(out, " {word} {} {}", piece.job, piece.leaf)?;
    }
    Ok(())
}

fn add_jobs(out: &mut String, word: &str, jobs: &[u32]) -> Result<(), AllocError> {
    for job in jobs {
        write!(out, " {word} {job}")?;
    }
    Ok(())
}

fn add_happened(out: &mut String, happened: &Happened) -> Result<(), AllocError> {
    add_pieces(out, "end", &happened.ended)?;
    add_jobs(out, "cancel", &happened.cancelled)?;
    add_jobs(out, "fail", &happened.failed)?;
    add_pieces(out, "over", &happened.over)?;
    add_jobs(out, "expire", &happened.expired)
}

fn add_plan(out: &mut String, cycle: &Cycle) -> Result<(), AllocError> {
    let (value, bound, mark, nodes) = (cycle.value, cycle.bound, cycle.mark, cycle.nodes);
    write!(out, " plan {value} {bound} {mark} {nodes}")
}

fn add_grants(out: &mut String, cycle: &Cycle) -> Result<(), AllocError> {
    for grant in cycle.grants.as_slice() {
        let nodes = grant.nodes.as_slice();
        write!(out, " grant {} {} {nodes:?}", grant.job, grant.leaf)?;
    }
    let starts = cycle.starts.as_slice();
    write!(out, " starts {starts:?}")
}

fn add_certificate(
    alloc: Global,
    out: &mut String,
    certificate: &Certificate,
) -> Result<(), AllocError> {
    let mut text = String::new(alloc);
    print_onto(&mut text, certificate)?;
    for line in text.as_str().lines() {
        write!(out, " {line}")?;
    }
    Ok(())
}

// Adds what a cycle says, by the numbers of jobs and nodes.
fn add_cycle(alloc: Global, out: &mut String, cycle: &Cycle) -> Result<(), AllocError> {
    write!(out, "cycle {}", cycle.number)?;
    add_happened(out, &cycle.happened)?;
    add_plan(out, cycle)?;
    add_grants(out, cycle)?;
    add_certificate(alloc, out, &cycle.certificate)?;
    add_jobs(out, "launch", &cycle.launched)
}

fn cycle_told(alloc: Global, cycle: &Cycle) -> Result<String, AllocError> {
    let mut out = String::new(alloc);
    add_cycle(alloc, &mut out, cycle)?;
    Ok(out)
}

/// What one line more answers.
pub fn fed(trace: &Trace, blocks: &mut Blocks, line: &str) -> Result<Option<Cycle>, ReportFault>
    requires { blocks.old.lines ≤ 100000 }
    ensures { blocks.new.lines ≤ blocks.old.lines + 1 }
{
    blocks.feed(trace, line.as_bytes())
}

fn told(alloc: Global, answer: Result<Option<Cycle>, ReportFault>) -> Result<String, AllocError> {
    match answer {
        Ok(Some(cycle)) => cycle_told(alloc, &cycle),
        Ok(None) => String::from_str(alloc, "-"),
        Err(fault) => debug_text(alloc, &fault),
    }
}

fn expect_line(
    alloc: Global,
    tally: &mut Tally,
    trace: &Trace,
    blocks: &mut Blocks,
    row: &str,
) -> Result<(), AllocError>
    requires { blocks.old.lines ≤ 1000 }
    ensures { blocks.new.lines ≤ blocks.old.lines + 1 }
{
    let (line, wanted) = row.split_once(" => ").unwrap_or((row, ""));
    let found = told(alloc, fed(trace, blocks, line))?;
    tally.expect(row, found.as_str(), wanted)
}

// The report behind these rows; none where a row stands behind the summary.
fn report_of(
    alloc: Global,
    tally: &mut Tally,
    trace: &Trace,
    rows: &str,
) -> Result<Option<Blocks>, AllocError> {
    let mut blocks = Blocks::new(alloc);
    let mut count = 0u64;
    for row in rows.lines() {
        if count == 1000 || blocks.summary().is_some() {
            tally.expect(row, "a summary", "none so far")?;
            return Ok(None);
        }
        count += 1;
        expect_line(alloc, tally, trace, &mut blocks, row)?;
    }
    Ok(Some(blocks))
}

// The summary as it is read, and as the whole answers it.
fn end_told(alloc: Global, blocks: Blocks) -> Result<String, AllocError> {
    let summary = blocks.summary();
    let end = blocks.finish();
    let mut out = debug_text(alloc, &summary)?;
    out.push_str(" ")?;
    add_debug(&mut out, &end)?;
    Ok(out)
}

fn expect_report(
    alloc: Global,
    tally: &mut Tally,
    trace: &Trace,
    body: &str,
) -> Result<(), AllocError> {
    let (rows, last) = body.rsplit_once('\n').unwrap_or(("", body));
    let Some(blocks) = report_of(alloc, tally, trace, rows)? else {
        return Ok(());
    };
    let found = end_told(alloc, blocks)?;
    tally.expect("the end", found.as_str(), last)
}

/// Rows `LINE => TOLD`, the lines of one report over the trace: a cycle once it is whole, and `-` before. The last row is
/// the summary of the whole.
pub fn lines(
    alloc: Global,
    given: &Given,
    tally: &mut Tally,
    body: &str,
) -> Result<(), AllocError> {
    match answer(alloc, given.trace.as_bytes())? {
        Ok(trace) => expect_report(alloc, tally, &trace, body),
        Err(_) => tally.expect("a trace", "refused", "read"),
    }
}

fn refusal_told(alloc: Global, fault: ReportFault) -> Result<String, AllocError> {
    match fault {
        ReportFault::Malformed(line) => format!(in alloc; "{line}"),
        ReportFault::NoMemory => String::from_str(alloc, "no memory"),
    }
}

// Where a report is refused, whose lines stand between slashes.
fn refusal(alloc: Global, trace: &Trace, report: &str) -> Result<String, AllocError> {
    let mut blocks = Blocks::new(alloc);
    let mut count = 0u64;
    for line in report.split('/') {
        if count == 1000 {
            return String::from_str(alloc, "too many lines");
        }
        count += 1;
        if let Err(fault) = fed(trace, &mut blocks, line) {
            return refusal_told(alloc, fault);
        }
    }
    match blocks.finish() {
        Ok(_) => String::from_str(alloc, "read"),
        Err(fault) => refusal_told(alloc, fault),
    }
}

fn expect_changes(
    alloc: Global,
    tally: &mut Tally,
    trace: &Trace,
    report: &str,
    body: &str,
) -> Result<(), AllocError> {
    for row in body.lines() {
        let (change, wanted) = halves(row);
        let report = replaced(alloc, report, change)?;
        let found = refusal(alloc, trace, report.as_str())?;
        tally.expect(row, found.as_str(), wanted)?;
    }
    Ok(())
}

/// Rows `OLD => NEW => LINE`: where the report is refused with OLD replaced, or `read`. Its lines stand between slashes.
pub fn changed_reports(
    alloc: Global,
    given: &Given,
    tally: &mut Tally,
    body: &str,
) -> Result<(), AllocError> {
    let report = given.report.as_str().trim_end_matches('\n');
    match answer(alloc, given.trace.as_bytes())? {
        Ok(trace) => expect_changes(alloc, tally, &trace, report, body),
        Err(_) => tally.expect("a trace", "refused", "read"),
    }
}
