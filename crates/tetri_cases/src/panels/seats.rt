// Panels whose seats a table names.
use crate::panels::consulted::{cycles, seats_told};
use crate::panels::repeat::Repeat;
use crate::panels::script::{steps_in, turns_in};
use crate::panels::scripted::Scripted;
use crate::panels::wrapped::{Forgetful, Untold};
use crate::runs;
use std::alloc::{AllocError, Global};
use tetri_advice::{Advisor, Panel, PanelOf};
use tetri_greedy::{ByDeadline, ByWorth};
use tetri_io::{MemShelf, MemSink};
use tetri_run::{Status, run_plan};
use tetri_tables::{Given, Tally, answer, text_in};

/// What is done with a panel.
#[derive(Clone, Copy)]
pub enum Trial<'a> {
    /// It is asked and taught as these rows say.
    Rows(&'a str),
    /// The whole trace is planned with it; then this is the report, and behind it who sits.
    Run(&'a str),
}

// An advisor that a line names.
#[derive(Drop)]
enum Named {
    Deadline(ByDeadline),
    Worth(ByWorth),
    Repeat(Repeat),
    UntoldDeadline(Untold<ByDeadline>),
    UntoldWorth(Untold<ByWorth>),
    ForgetfulDeadline(Forgetful<ByDeadline>),
    ForgetfulWorth(Forgetful<ByWorth>),
    Scripted(Scripted),
    Nobody,
}

// One that forgets in these turns.
fn forgetful_by(alloc: Global, word: &str, turns: &str) -> Result<Named, AllocError> {
    let turns = turns_in(alloc, turns)?;
    match word {
        "deadline" => Ok(Named::ForgetfulDeadline(Forgetful::new(ByDeadline::new(), turns))),
        "worth" => Ok(Named::ForgetfulWorth(Forgetful::new(ByWorth::new(), turns))),
        _ => Ok(Named::Nobody),
    }
}

// One by a script, whose steps end as it is asked or as it is taught.
fn scripted_by(alloc: Global, steps: &str, is_asked: bool) -> Result<Named, AllocError> {
    let steps = steps_in(alloc, steps)?;
    Ok(Named::Scripted(Scripted::new(alloc, steps, is_asked)?))
}

// The advisor of a line that goes on with turns or steps.
fn advisor_by_turns(alloc: Global, word: &str, more: &str) -> Result<Named, AllocError> {
    match word {
        "forgetful deadline" => forgetful_by(alloc, "deadline", more),
        "forgetful worth" => forgetful_by(alloc, "worth", more),
        "taught" => scripted_by(alloc, more, false),
        "asked" => scripted_by(alloc, more, true),
        _ => Ok(Named::Nobody),
    }
}

fn advisor_of(alloc: Global, line: &str) -> Result<Named, AllocError> {
    let (word, more) = line.split_once(": ").unwrap_or((line, ""));
    match word {
        "deadline" => Ok(Named::Deadline(ByDeadline::new())),
        "worth" => Ok(Named::Worth(ByWorth::new())),
        "repeat" => Ok(Named::Repeat(Repeat::new(alloc))),
        "untold deadline" => Ok(Named::UntoldDeadline(Untold::new(ByDeadline::new()))),
        "untold worth" => Ok(Named::UntoldWorth(Untold::new(ByWorth::new()))),
        _ => advisor_by_turns(alloc, word, more),
    }
}

/// Seats an advisor; whether there was a seat.
pub fn is_seated(panel: &mut Panel, one: Box<dyn Advisor>) -> bool {
    panel.seat(one).is_ok()
}

// Boxes an advisor and seats it; whether there was a seat.
macro_rules! seated {
    ($panel:ident, $alloc:ident, $one:expr) => {{
        let one: Box<dyn Advisor> = Box::new($alloc, $one)?;
        is_seated(&mut $panel, one)
    }};
}

fn try_rows(
    alloc: Global,
    tally: &mut Tally,
    trace: &str,
    panel: &mut Panel,
    rows: &str,
) -> Result<(), AllocError> {
    match answer(alloc, trace.as_bytes())? {
        Ok(trace) => cycles(alloc, tally, &trace, panel, rows),
        Err(_) => tally.expect("a trace", "refused", "read"),
    }
}

fn shelf_with(alloc: Global, trace: &str) -> Result<MemShelf, AllocError> {
    let mut shelf = MemShelf::new(alloc, 64, &[])?;
    shelf.put("trace", trace.as_bytes())?;
    Ok(shelf)
}

// A report that was planned, and who sits behind it.
#[derive(Drop)]
struct Planned {
    report: String,
    sits: String,
}

// What was planned, and who sits behind it; nothing where the plan ended before.
fn planned_of<A: Advisor>(
    alloc: Global,
    status: &Status,
    sink: &MemSink,
    panel: &PanelOf<A>,
) -> Result<Option<Planned>, AllocError> {
    if !matches!(status, Status::Done) {
        return Ok(None);
    }
    let sits = seats_told(alloc, panel)?;
    let report = text_in(alloc, sink.written())?;
    Ok(Some(Planned { report, sits }))
}

// Expects a plan to end with this report and these seats; from then on it is the report, which a check accepts.
fn expect_planned(
    alloc: Global,
    given: &mut Given,
    tally: &mut Tally,
    planned: Option<Planned>,
    wanted: &str,
) -> Result<(), AllocError> {
    match planned {
        Some(Planned { report, sits }) => {
            let found = format!(in alloc; "{report}{sits}")?;
            tally.expect(given.trace.as_str(), found.as_str(), wanted)?;
            given.report = report;
            runs::accepted(alloc, given, tally)
        }
        None => tally.expect(given.trace.as_str(), "another end", "done"),
    }
}

/// Seats an advisor for each line of the text, and tries the panel on the trace. The advisors are `deadline`, `worth`, `repeat`,
/// `untold deadline` and `untold worth` without their creed, `forgetful deadline: TURNS` and `forgetful worth: TURNS`, and scripted
/// ones, `taught: STEPS` whose steps end as they are taught, and `asked: STEPS` whose steps end as they are asked.
pub fn try_panel(
    alloc: Global,
    given: &mut Given,
    tally: &mut Tally,
    trial: Trial<'_>,
) -> Result<(), AllocError> {
    let mut panel = Panel::new(alloc);
    for line in given.seats.as_str().lines() {
        let is_seated = match advisor_of(alloc, line)? {
            Named::Deadline(one) => seated!(panel, alloc, one),
            Named::Worth(one) => seated!(panel, alloc, one),
            Named::Repeat(one) => seated!(panel, alloc, one),
            Named::UntoldDeadline(one) => seated!(panel, alloc, one),
            Named::UntoldWorth(one) => seated!(panel, alloc, one),
            Named::ForgetfulDeadline(one) => seated!(panel, alloc, one),
            Named::ForgetfulWorth(one) => seated!(panel, alloc, one),
            Named::Scripted(one) => seated!(panel, alloc, one),
            Named::Nobody => false,
        };
        if !is_seated {
            tally.expect(line, "no seat", "a seat")?;
        }
    }
    match trial {
        Trial::Rows(rows) => try_rows(alloc, tally, given.trace.as_str(), &mut panel, rows),
        Trial::Run(report) => {
            let mut shelf = shelf_with(alloc, given.trace.as_str())?;
            let mut sink = MemSink::new(alloc, 7, 4_000_000, &[])?;
            let status = run_plan(alloc, "trace", &mut shelf, &mut sink, &mut panel);
            let planned = planned_of(alloc, &status, &sink, &panel)?;
            expect_planned(alloc, given, tally, planned, report)
        }
    }
}
