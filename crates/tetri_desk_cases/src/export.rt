// Programs of cycles as texts: what is written of them, and what is said where there is none.
ghost use Rattle.tetri_trace.specs.Scenario.{scenario};
ghost use Rattle.tetri_trace.specs.Sound.{IsSound};

use crate::panels::seat;
use std::alloc::{AllocError, Global};
use tetri_advice::{Advisor, Panel};
use tetri_export::Format;
use tetri_greedy::{ByDeadline, ByWorth};
use tetri_io::{MemShelf, MemSink};
use tetri_programs::{Exported, export_cycle, export_report};
use tetri_run::{Status, say, status_of};
use tetri_tables::{Given, Tally, sections_of, text_in};
use tetri_trace::{Trace, read_trace};

// What a section asks for: whether for the size alone, whether of the report's run, in which format, and of which cycle.
#[derive(Clone, Copy)]
struct Wish {
    is_size: bool,
    is_report: bool,
    format: Format,
    cycle: u32,
}

fn format_of(word: &str) -> Format {
    match word {
        "mps" => Format::Mps,
        _ => Format::Lp,
    }
}

// The wish that words say, as `plan lp 0`, `report mps 3` and `size plan lp 0`.
fn wish_of(words: &str) -> Option<Wish> {
    let (is_size, words) = match words.strip_prefix("size ") {
        Some(words) => (true, words),
        None => (false, words),
    };
    let (whose, rest) = words.split_once(' ')?;
    let (format, cycle) = rest.split_once(' ')?;
    Some(Wish {
        is_size,
        is_report: whose == "report",
        format: format_of(format),
        cycle: cycle.parse::<u32>().ok()?,
    })
}

// A cycle of the plan of a trace, with the two shipped advisors.
fn cycle_exported(alloc: Global, trace: &Trace, wish: Wish) -> Result<Exported, AllocError>
    requires { IsSound (scenario trace.now) }
{
    let mut panel = Panel::new(alloc);
    let by_deadline: Box<dyn Advisor> = Box::new(alloc, ByDeadline::new())?;
    seat(&mut panel, by_deadline)?;
    let by_worth: Box<dyn Advisor> = Box::new(alloc, ByWorth::new())?;
    seat(&mut panel, by_worth)?;
    export_cycle(alloc, trace, wish.cycle, wish.format, &mut panel)
}

// The same of the trace on the shelf, or what refuses it.
fn planned(
    alloc: Global,
    shelf: &mut MemShelf,
    wish: Wish,
) -> Result<Result<Exported, Status>, AllocError> {
    match read_trace(alloc, shelf, "trace") {
        Ok(trace) => Ok(Ok(cycle_exported(alloc, &trace, wish)?)),
        Err(fault) => Ok(Err(status_of(fault))),
    }
}

// What comes of a wish.
fn exported(
    alloc: Global,
    shelf: &mut MemShelf,
    wish: Wish,
) -> Result<Result<Exported, Status>, AllocError> {
    if wish.is_report {
        let outcome = export_report(alloc, "trace", "report", wish.cycle, wish.format, shelf);
        return Ok(outcome);
    }
    planned(alloc, shelf, wish)
}

// What is said of a status.
fn said_of(alloc: Global, status: &Status) -> Result<String, AllocError> {
    let mut sink = MemSink::new(alloc, 64, 4096, &[])?;
    let _said = say(alloc, status, &mut sink);
    text_in(alloc, sink.written())
}

// The text of a program, or what is said where there is none.
fn told(alloc: Global, outcome: Result<Exported, Status>) -> Result<String, AllocError> {
    match outcome {
        Ok(Exported::Text(text)) => Ok(text),
        Ok(Exported::Wide { columns, rows }) => {
            format!(in alloc; "too wide: {columns} columns, {rows} rows\n")
        }
        Ok(Exported::NoCycle) => String::from_str(alloc, "no such cycle\n"),
        Err(status) => said_of(alloc, &status),
    }
}

// The second line of a text, in which its size stands, and how many lines and bytes it has.
fn size_of(alloc: Global, text: &str) -> Result<String, AllocError> {
    let line = text.lines().nth(1).unwrap_or("");
    let lines = text.lines().count();
    let bytes = text.len();
    format!(in alloc; "{line}, {lines} lines, {bytes} bytes\n")
}

// The shelf with the trace and the report.
fn shelf_of(alloc: Global, given: &Given) -> Result<MemShelf, AllocError> {
    let mut shelf = MemShelf::new(alloc, 65_536, &[])?;
    shelf.put("trace", given.trace.as_bytes())?;
    shelf.put("report", given.report.as_bytes())?;
    Ok(shelf)
}

// The text that is wished for, or its size.
fn found_for(alloc: Global, given: &Given, wish: Wish) -> Result<String, AllocError> {
    let mut shelf = shelf_of(alloc, given)?;
    let text = told(alloc, exported(alloc, &mut shelf, wish)?)?;
    if wish.is_size {
        return size_of(alloc, text.as_str());
    }
    Ok(text)
}

// Tries a section that asks for a text, or for its size.
fn judge_text(
    alloc: Global,
    given: &Given,
    tally: &mut Tally,
    kind: &str,
    body: &str,
) -> Result<(), AllocError> {
    let Some(wish) = wish_of(kind) else {
        return tally.expect(kind, "no such kind", "");
    };
    let found = found_for(alloc, given, wish)?;
    let wanted = format!(in alloc; "{body}\n")?;
    tally.expect(kind, found.as_str(), wanted.as_str())
}

/// Tries the sections of a table.
pub fn judge(alloc: Global, table: &str) -> Result<Tally, AllocError> {
    let mut given = Given::new(alloc);
    let mut tally = Tally::new(alloc);
    for (kind, body) in sections_of(alloc, table)? {
        if !given.take(alloc, kind, body)? {
            judge_text(alloc, &given, &mut tally, kind, body)?;
        }
    }
    Ok(tally)
}
