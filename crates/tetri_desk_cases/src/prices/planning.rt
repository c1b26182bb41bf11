// Runs by prices.
use crate::panels::seat;
use std::alloc::{AllocError, Global};
use tetri_advice::{Advisor, Panel};
use tetri_by_price::ByPrice;
use tetri_greedy::{ByDeadline, ByWorth};
use tetri_io::{MemShelf, MemSink};
use tetri_plan::Chooser;
use tetri_run::{ByChooser, Status, run_check, run_chosen};
use tetri_tables::{Given, Tally, text_in};

// Bytes of a read and of a write at most, and bytes that there is room for.
const PIECE: usize = 65_536;

const ROOM: usize = 16_000_000;

// The report of the run by a chooser.
fn report_by<C: Chooser + Drop>(
    alloc: Global,
    trace: &str,
    chooser: C,
) -> Result<String, AllocError> {
    let mut shelf = MemShelf::new(alloc, PIECE, &[])?;
    shelf.put("trace", trace.as_bytes())?;
    let mut sink = MemSink::new(alloc, PIECE, ROOM, &[])?;
    let mut planner = ByChooser { chooser };
    match run_chosen(alloc, "trace", &mut shelf, &mut sink, &mut planner) {
        Status::Done => text_in(alloc, sink.written()),
        _ => String::from_str(alloc, "no report"),
    }
}

// The report of the run by prices, with the two shipped advisors.
fn report_of(alloc: Global, trace: &str) -> Result<String, AllocError> {
    let mut panel = Panel::new(alloc);
    let by_deadline: Box<dyn Advisor> = Box::new(alloc, ByDeadline::new())?;
    seat(&mut panel, by_deadline)?;
    let by_worth: Box<dyn Advisor> = Box::new(alloc, ByWorth::new())?;
    seat(&mut panel, by_worth)?;
    report_by(alloc, trace, ByPrice::new(panel))
}

// Whether a check accepts the report.
fn is_accepted(alloc: Global, trace: &str, report: &str) -> Result<bool, AllocError> {
    let mut shelf = MemShelf::new(alloc, PIECE, &[])?;
    shelf.put("trace", trace.as_bytes())?;
    shelf.put("report", report.as_bytes())?;
    let mut sink = MemSink::new(alloc, PIECE, 1000, &[])?;
    match run_check(alloc, "trace", "report", &mut shelf, &mut sink) {
        Status::Done => Ok(true),
        _ => Ok(false),
    }
}

// The lines of plans without their last number, and the summary.
fn add_told(out: &mut String, report: &str) -> Result<(), AllocError> {
    for line in report.lines() {
        if line.starts_with("plan ") {
            let (front, _) = line.rsplit_once(' ').unwrap_or((line, ""));
            write!(out, "{front}\n")?;
        }
        if line.starts_with("summary ") {
            write!(out, "{line}\n")?;
        }
    }
    Ok(())
}

/// What is planned for the trace.
pub fn planned(
    alloc: Global,
    given: &Given,
    tally: &mut Tally,
    body: &str,
) -> Result<(), AllocError> {
    let trace = given.trace.as_str();
    let report = report_of(alloc, trace)?;
    let mut found = String::new(alloc);
    add_told(&mut found, report.as_str())?;
    if !is_accepted(alloc, trace, report.as_str())? {
        found.push_str("refused\n")?;
    }
    tally.expect("planned", found.as_str().trim_end_matches('\n'), body)
}
