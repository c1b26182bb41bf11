// Accounts as text, over memory. A table gives traces and reports, and below them wants what is told of them: by a section `jobs FORMAT`,
// `stats FORMAT BY` or `compare FORMAT`, which has the text, or the words of what refuses the report; by `priced FORMAT BY`, the figures with
// those of the bounds that prices make; and by `fcfs FORMAT BY` or `easy FORMAT BY`, the figures of the trace's run by that policy.
ghost use Rattle.tetri_trace.specs.Scenario.{scenario};
ghost use Rattle.tetri_trace.specs.Sound.{IsSound};

use std::alloc::{AllocError, Global};
use std::fmt::Write;
use tetri_accounts::{Account, account_policy, account_report};
use tetri_figures::{
    Bounds, By, Compared, Format, PricedSums, compare_text, jobs_text, slot_seconds_of, stats_text,
    tags_of,
};
use tetri_io::{MemShelf, MemSink};
use tetri_policy::Policy;
use tetri_priced::{BySearch, Noting, Wanted};
use tetri_run::{Status, check_seen, conclude};
use tetri_tables::{Given, Tally, answer, sections_of, text_in};
use tetri_trace::Trace;

fn format_of(word: &str) -> Format {
    match word {
        "csv" => Format::Csv,
        "jsonl" => Format::Lines,
        _ => Format::Table,
    }
}

fn by_of(word: &str) -> By {
    match word {
        "tag" => By::Tag,
        "class" => By::Class,
        _ => By::Nothing,
    }
}

// What is said of a call that ends so.
fn said(alloc: Global, status: &Status) -> Result<Vec<u8>, AllocError> {
    let mut sink = MemSink::new(alloc, 4000, 4000, &[])?;
    let _number = conclude(alloc, status, &mut sink);
    Vec::from_slice(alloc, sink.written())
}

fn put(
    alloc: Global,
    name: &str,
    account: Account,
    runs: &mut Vec<Compared>,
) -> Result<(), AllocError> {
    let name = String::from_str(alloc, name)?;
    let bounds = Bounds::Printed;
    runs.push(Compared {
        name,
        account,
        bounds,
    })?;
    Ok(())
}

// The shelf with the trace and the report.
fn shelf_of(alloc: Global, given: &Given) -> Result<MemShelf, AllocError> {
    let mut shelf = MemShelf::new(alloc, 4000, &[])?;
    shelf.put("trace", given.trace.as_bytes())?;
    shelf.put("report", given.report.as_bytes())?;
    Ok(shelf)
}

// A trace and a report in which the first of so many jobs runs on the only node and the others wait, too many to be searched.
fn crowd(alloc: Global, jobs: u32) -> Result<Given, AllocError> {
    let mut given = Given::new(alloc);
    let header = "{\"nodes\":[{\"name\":\"n1\"}],\"window\":1,\"budget\":1,\"until\":1}\n";
    given.trace.push_str(header)?;
    for job in 0..jobs {
        write!(
            given.trace,
            "{{\"at\":0,\"arrive\":\"j{job}\",\"strl\":\"nCk(*,1,0,1,1)\"}}\n"
        )?;
    }
    let columns = u64::from(jobs) * 2;
    let rows = columns + 1;
    write!(
        given.report,
        "cycle 0\nplan 1 {jobs} wide 0\ngrant j0 0 0 n1\ntops {columns} {rows}\nlaunch j0\n"
    )?;
    let summary = "summary cycles=1 launched=1 ended=0 cancelled=0 expired=0 worth=1 optimal=0\n";
    given.report.push_str(summary)?;
    Ok(given)
}

// How many lines and bytes the rows of such a crowd take.
fn crowd_told(alloc: Global, jobs: u32) -> Result<String, AllocError> {
    let given = crowd(alloc, jobs)?;
    let text = told(alloc, &given, "jobs jsonl")?;
    let lines = text.iter().filter(|b| **b == b'\n').count();
    let bytes = text.len();
    format!(in alloc; "{lines} lines, {bytes} bytes")
}

// The lines of figures that are of the bounds that prices make.
fn priced_lines(alloc: Global, text: &str) -> Result<String, AllocError> {
    let mut lines = String::new(alloc);
    for line in text.lines() {
        if line.starts_with("priced ") {
            write!(lines, "{line}\n")?;
        }
    }
    Ok(lines)
}

// The last two lines of the figures of such a crowd, those of the bounds that prices make.
fn crowd_priced(alloc: Global, jobs: u32) -> Result<String, AllocError> {
    let given = crowd(alloc, jobs)?;
    let text = told(alloc, &given, "priced table")?;
    priced_lines(alloc, str::from_utf8(&text).unwrap_or("not text"))
}

fn policy_told(
    alloc: Global,
    shelf: &mut MemShelf,
    trace: &Trace,
    policy: Policy,
    wish: Wish<'_>,
) -> Result<Vec<u8>, AllocError>
    requires { IsSound (scenario trace.now) }
{
    let account = account_policy(alloc, trace, policy)?;
    stats_told(alloc, shelf, trace, &account, Bounds::Absent, wish)
}

// The figures of the run of a trace by a policy.
fn told_by(
    alloc: Global,
    given: &Given,
    policy: Policy,
    wish: Wish<'_>,
) -> Result<Vec<u8>, AllocError> {
    let mut shelf = shelf_of(alloc, given)?;
    match answer(alloc, given.trace.as_bytes())? {
        Ok(trace) => policy_told(alloc, &mut shelf, &trace, policy, wish),
        Err(_) => Vec::from_slice(alloc, b"the trace is not read"),
    }
}

// What prices make of the bounds of a report that is accepted.
fn priced_in(alloc: Global, shelf: &mut MemShelf) -> Bounds {
    let mut noting = Noting::new(alloc, Wanted::ALL, BySearch);
    match check_seen(alloc, "trace", "report", shelf, &mut noting) {
        Ok(_trace) => Bounds::Priced(PricedSums::of(noting.cycles())),
        Err(_) => Bounds::Printed,
    }
}

// What a section asks for: which figures, over which groups, in which format.
#[derive(Clone, Copy)]
struct Wish<'a> {
    what: &'a str,
    format: Format,
    by: By,
}

fn wish_of(kind: &str) -> Wish<'_> {
    let mut words = kind.split(' ');
    Wish {
        what: words.next().unwrap_or(""),
        format: format_of(words.next().unwrap_or("")),
        by: by_of(words.next().unwrap_or("")),
    }
}

// The figures of a report's account, with these bounds.
fn stats_told(
    alloc: Global,
    shelf: &mut MemShelf,
    trace: &Trace,
    account: &Account,
    bounds: Bounds,
    wish: Wish<'_>,
) -> Result<Vec<u8>, AllocError>
    requires { IsSound (scenario trace.now) }
{
    let tags = tags_of(alloc, shelf, "trace")?;
    let slot_seconds = slot_seconds_of(alloc, shelf, "trace")?;
    stats_text(
        alloc,
        trace,
        slot_seconds,
        account,
        bounds,
        wish.by,
        &tags,
        wish.format,
    )
}

fn both_told(
    alloc: Global,
    trace: &Trace,
    slot_seconds: Option<u64>,
    first: Account,
    second: Account,
    format: Format,
) -> Result<Vec<u8>, AllocError>
    requires { IsSound (scenario trace.now) }
{
    let mut runs = Vec::new(alloc);
    put(alloc, "one", first, &mut runs)?;
    put(alloc, "two", second, &mut runs)?;
    compare_text(alloc, trace, slot_seconds, &runs, format)
}

// The report beside itself.
fn compared_told(
    alloc: Global,
    shelf: &mut MemShelf,
    trace: &Trace,
    first: Account,
    format: Format,
) -> Result<Vec<u8>, AllocError>
    requires { IsSound (scenario trace.now) }
{
    let slot_seconds = slot_seconds_of(alloc, shelf, "trace")?;
    match account_report(alloc, "trace", "report", shelf) {
        Ok((_trace, second)) => both_told(alloc, trace, slot_seconds, first, second, format),
        Err(status) => said(alloc, &status),
    }
}

// What is told of a report's account.
fn account_told(
    alloc: Global,
    shelf: &mut MemShelf,
    trace: &Trace,
    account: Account,
    wish: Wish<'_>,
) -> Result<Vec<u8>, AllocError>
    requires { IsSound (scenario trace.now) }
{
    match wish.what {
        "jobs" => jobs_text(alloc, trace, account.rows.as_slice(), wish.format),
        "stats" => stats_told(alloc, shelf, trace, &account, Bounds::Printed, wish),
        "priced" => {
            let bounds = priced_in(alloc, shelf);
            stats_told(alloc, shelf, trace, &account, bounds, wish)
        }
        _ => compared_told(alloc, shelf, trace, account, wish.format),
    }
}

// What is told of the report, or what is said where it is refused.
fn report_told(alloc: Global, given: &Given, wish: Wish<'_>) -> Result<Vec<u8>, AllocError> {
    let mut shelf = shelf_of(alloc, given)?;
    match account_report(alloc, "trace", "report", &mut shelf) {
        Ok((trace, account)) => account_told(alloc, &mut shelf, &trace, account, wish),
        Err(status) => said(alloc, &status),
    }
}

// What is told by these words.
fn told(alloc: Global, given: &Given, kind: &str) -> Result<Vec<u8>, AllocError> {
    let wish = wish_of(kind);
    match wish.what {
        "fcfs" => told_by(alloc, given, Policy::FirstCome, wish),
        "easy" => told_by(alloc, given, Policy::Backfill, wish),
        _ => report_told(alloc, given, wish),
    }
}

// Expects a text, but for the line feeds at the end of what is found.
fn expect_text(
    alloc: Global,
    tally: &mut Tally,
    given: &Given,
    kind: &str,
    body: &str,
) -> Result<(), AllocError> {
    let found = told(alloc, given, kind)?;
    let text = text_in(alloc, &found)?;
    tally.expect(kind, text.as_str().trim_end_matches('\n'), body)
}

fn expect_crowd(
    alloc: Global,
    tally: &mut Tally,
    kind: &str,
    jobs: &str,
    body: &str,
) -> Result<(), AllocError> {
    let found = crowd_told(alloc, jobs.parse::<u32>().unwrap_or(0))?;
    tally.expect(kind, found.as_str(), body)
}

fn expect_priced_crowd(
    alloc: Global,
    tally: &mut Tally,
    kind: &str,
    jobs: &str,
    body: &str,
) -> Result<(), AllocError> {
    let found = crowd_priced(alloc, jobs.parse::<u32>().unwrap_or(0))?;
    tally.expect(kind, found.as_str().trim_end_matches('\n'), body)
}

fn judge_section(
    alloc: Global,
    given: &mut Given,
    tally: &mut Tally,
    kind: &str,
    body: &str,
) -> Result<(), AllocError> {
    match kind.split_once(' ') {
        Some(("crowd", jobs)) => expect_crowd(alloc, tally, kind, jobs, body),
        Some(("priced-crowd", jobs)) => expect_priced_crowd(alloc, tally, kind, jobs, body),
        _ => {
            if given.take(alloc, kind, body)? {
                return Ok(());
            }
            expect_text(alloc, tally, given, kind, body)
        }
    }
}

/// Tells of each report of a table what it asks for.
pub fn judge(alloc: Global, table: &str) -> Result<Tally, AllocError> {
    let mut tally = Tally::new(alloc);
    let mut given = Given::new(alloc);
    for (kind, body) in sections_of(alloc, table)? {
        judge_section(alloc, &mut given, &mut tally, kind, body)?;
    }
    Ok(tally)
}
