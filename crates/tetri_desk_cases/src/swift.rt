// Swift searches beside others over the first cycle of traces, runs by swift plans, whose reports are checked, and grants that are moved.
ghost use Rattle.std.specs.Prelude.{◌≡◌, ◌<◌, ◌^◌, All, IfOk, IfSome, pos};
ghost use Rattle.tetri_compile.specs.Gain.{most_gain};
ghost use Rattle.tetri_ip.specs.Points.{IsFit};
ghost use Rattle.tetri_space.specs.Sound.{IsSound as IsSoundSpace};
ghost use Rattle.tetri_space.specs.Space.{space};
ghost use Rattle.tetri_trace.specs.Scenario.{scenario};
ghost use Rattle.tetri_trace.specs.Sound.{IsSound};

mod made;
mod moved;
mod wild;

use crate::panels::seat;
use made::made_trace;
use moved::moved_in;
use std::alloc::{AllocError, Global};
use tetri_advice::{Advisor, Panel};
use tetri_by_swift::BySwift;
use tetri_compile::{Compiled, compile, size};
use tetri_greedy::{ByDeadline, ByWorth};
use tetri_io::{MemShelf, MemSink};
use tetri_plan::Chooser;
use tetri_run::{ByChooser, Status, run_check, run_chosen};
use tetri_search::{Found, search};
use tetri_sooner::Sooner;
use tetri_space::{Instance, find_partitions};
use tetri_state::State;
use tetri_swift::{Anew, search_by, swift_search};
use tetri_tables::{Given, Tally, answer, halves, sections_of, text_in};
use tetri_trace::Trace;
use wild::Wild;

// The instance of a trace at slot 0.
fn first_instance(alloc: Global, trace: &Trace) -> Result<Option<Instance>, AllocError>
    requires { IsSound (scenario trace.now) }
    ensures { IfOk result (λ o. IfSome o (λ i. IsSoundSpace (space i))) }
{
    let mut state = State::open(alloc, trace)?;
    if trace.header.until <= state.now() {
        return Ok(None);
    }
    let _happened = state.begin_cycle(alloc, trace)?;
    Ok(Some(state.instance(alloc, trace)?))
}

fn is_settled(found: &Found) -> bool {
    found.bound <= found.best
}

// The best objective where no node is left open.
fn told(alloc: Global, found: &Found) -> Result<String, AllocError> {
    if is_settled(found) {
        format!(in alloc; "{}", found.best)
    } else {
        String::from_str(alloc, "open")
    }
}

// What another search finds, where both settle it and differ.
fn note(out: &mut String, what: &str, found: &Found, other: &Found) -> Result<(), AllocError> {
    if is_settled(found) && is_settled(other) && found.best != other.best {
        write!(out, ", {what} {}", other.best)?;
    }
    Ok(())
}

// What the exact search, one from nothing and one by proposals without sense find, where they differ.
fn note_others(
    alloc: Global,
    out: &mut String,
    c: &Compiled,
    budget: u32,
    swift: &Found,
) -> Result<(), AllocError>
    requires fit { IsFit c.now.program }
    requires zero { All (λ z. z ≡ pos 0) c.now.program.lower.items }
    requires bounded { most_gain c.now.program < 2 ^ 64 }
{
    let exact = search(alloc, c, 0, budget)?;
    note(out, "exactly", swift, &exact)?;
    let mut nothing = Anew;
    let anew = search_by(alloc, c, 0, budget, &mut nothing)?;
    note(out, "anew", swift, &anew)?;
    let mut engine = Wild::new();
    let wild = search_by(alloc, c, 0, budget, &mut engine)?;
    note(out, "by a wild engine", swift, &wild)
}

// What the searches of a program find, by the others too where they are asked for.
fn program_searched(
    alloc: Global,
    c: &Compiled,
    budget: u32,
    bytes: usize,
    beside: bool,
) -> Result<String, AllocError>
    requires fit { IsFit c.now.program }
    requires zero { All (λ z. z ≡ pos 0) c.now.program.lower.items }
    requires bounded { most_gain c.now.program < 2 ^ 64 }
{
    let swift = swift_search(alloc, c, 0, budget, bytes)?;
    let mut out = told(alloc, &swift)?;
    if beside {
        note_others(alloc, &mut out, c, budget, &swift)?;
    }
    Ok(out)
}

// What the searches of an instance find.
fn searched(
    alloc: Global,
    inst: &Instance,
    budget: u32,
    bytes: usize,
    beside: bool,
) -> Result<String, AllocError>
    requires { IsSoundSpace (space inst.now) }
{
    let parts = find_partitions(alloc, inst)?;
    let (columns, rows) = size(inst, &parts);
    if 2000 < columns || 2000 < rows {
        return String::from_str(alloc, "too large");
    }
    let c = compile(alloc, inst, &parts)?;
    program_searched(alloc, &c, budget, bytes, beside)
}

fn searched_first(
    alloc: Global,
    trace: &Trace,
    budget: u32,
    bytes: usize,
    beside: bool,
) -> Result<String, AllocError>
    requires { IsSound (scenario trace.now) }
{
    match first_instance(alloc, trace)? {
        Some(inst) => searched(alloc, &inst, budget, bytes, beside),
        None => String::from_str(alloc, "no cycle"),
    }
}

fn searched_in(
    alloc: Global,
    content: &str,
    budget: u32,
    bytes: usize,
    beside: bool,
) -> Result<String, AllocError> {
    match answer(alloc, content.as_bytes())? {
        Ok(trace) => searched_first(alloc, &trace, budget, bytes, beside),
        Err(_) => String::from_str(alloc, "the trace is not read"),
    }
}

// How many plans a report counts as optimal.
fn optimal_in(report: &str) -> &str {
    match report.rsplit_once("optimal=") {
        Some((_, count)) => count.trim_end_matches('\n'),
        None => "none",
    }
}

// Whether a report of the trace is accepted, and how many plans it counts as optimal.
fn report_told(alloc: Global, shelf: &mut MemShelf, report: &[u8]) -> Result<String, AllocError> {
    shelf.put("report", report)?;
    let mut told = MemSink::new(alloc, 4000, 4000, &[])?;
    match run_check(alloc, "trace", "report", shelf, &mut told) {
        Status::Done => {
            let report = text_in(alloc, report)?;
            let optimal = optimal_in(report.as_str());
            format!(in alloc; "accepted, optimal={optimal}")
        }
        _ => String::from_str(alloc, "refused"),
    }
}

// The plans of a trace, and whether their report is accepted.
fn run_in<C: Chooser + Drop>(
    alloc: Global,
    content: &str,
    chooser: C,
) -> Result<String, AllocError> {
    let mut shelf = MemShelf::new(alloc, 4000, &[])?;
    shelf.put("trace", content.as_bytes())?;
    let mut sink = MemSink::new(alloc, 4000, 4_000_000, &[])?;
    let mut planner = ByChooser { chooser };
    match run_chosen(alloc, "trace", &mut shelf, &mut sink, &mut planner) {
        Status::Done => report_told(alloc, &mut shelf, sink.written()),
        _ => String::from_str(alloc, "not planned"),
    }
}

// A row of runs by a swift search, with the two shipped advisors.
fn run_row(
    alloc: Global,
    content: &str,
    bytes: usize,
    is_moved: bool,
) -> Result<String, AllocError> {
    let mut panel = Panel::new(alloc);
    let by_deadline: Box<dyn Advisor> = Box::new(alloc, ByDeadline::new())?;
    seat(&mut panel, by_deadline)?;
    let by_worth: Box<dyn Advisor> = Box::new(alloc, ByWorth::new())?;
    seat(&mut panel, by_worth)?;
    let chooser = BySwift::new(panel, bytes);
    if is_moved {
        run_in(alloc, content, Sooner::new(chooser))
    } else {
        run_in(alloc, content, chooser)
    }
}

// The grants of a row as they are moved to earlier starts in the first cycle of a trace.
fn moved_row(alloc: Global, content: &str, row: &str) -> Result<String, AllocError> {
    match answer(alloc, content.as_bytes())? {
        Ok(trace) => match first_instance(alloc, &trace)? {
            Some(inst) => moved_in(alloc, &inst, row),
            None => String::from_str(alloc, "no cycle"),
        },
        Err(_) => String::from_str(alloc, "the trace is not read"),
    }
}

// The numbers of a row.
fn numbers_of(alloc: Global, row: &str) -> Result<Vec<u32>, AllocError> {
    let mut numbers = Vec::new(alloc);
    for word in row.split(' ') {
        numbers.push(word.parse::<u32>().unwrap_or(0))?;
    }
    Ok(numbers)
}

fn number_at(numbers: &[u32], place: usize) -> u32 {
    match numbers.get(place) {
        Some(number) => *number,
        None => 0,
    }
}

// What the rows of a section try.
#[derive(Clone, Copy)]
enum Kind {
    Searches,
    SearchesBeside,
    MadeSearches,
    WideSearches,
    Runs,
    RunsMoved,
    Moved,
}

fn kind_of(section: &str) -> Option<Kind> {
    match section {
        "searches" => Some(Kind::Searches),
        "searches beside" => Some(Kind::SearchesBeside),
        "made searches" => Some(Kind::MadeSearches),
        "wide searches" => Some(Kind::WideSearches),
        "runs" => Some(Kind::Runs),
        "runs moved" => Some(Kind::RunsMoved),
        "moved" => Some(Kind::Moved),
        _ => None,
    }
}

// What searches of a trace find by a row's budget and count of bytes.
fn search_row(
    alloc: Global,
    trace: &str,
    numbers: &[u32],
    beside: bool,
) -> Result<String, AllocError> {
    let bytes = number_at(numbers, 1) as usize;
    searched_in(alloc, trace, number_at(numbers, 0), bytes, beside)
}

// The same of a trace that is made of the row's numbers.
fn made_row(alloc: Global, numbers: &[u32], beside: bool) -> Result<String, AllocError> {
    let made = made_trace(alloc, numbers)?;
    search_row(alloc, made.as_str(), numbers, beside)
}

// What a row of a section finds.
fn found_by(alloc: Global, kind: Kind, trace: &str, row: &str) -> Result<String, AllocError> {
    let words = numbers_of(alloc, row)?;
    let numbers: &[u32] = &words;
    let bytes = number_at(numbers, 0) as usize;
    match kind {
        Kind::Searches => search_row(alloc, trace, numbers, false),
        Kind::SearchesBeside => search_row(alloc, trace, numbers, true),
        Kind::MadeSearches => made_row(alloc, numbers, true),
        Kind::WideSearches => made_row(alloc, numbers, false),
        Kind::Runs => run_row(alloc, trace, bytes, false),
        Kind::RunsMoved => run_row(alloc, trace, bytes, true),
        Kind::Moved => moved_row(alloc, trace, row),
    }
}

fn judge_row(
    alloc: Global,
    given: &Given,
    tally: &mut Tally,
    section: &str,
    line: &str,
) -> Result<(), AllocError> {
    let (row, wanted) = halves(line);
    match kind_of(section) {
        Some(kind) => {
            let found = found_by(alloc, kind, given.trace.as_str(), row)?;
            tally.expect(row, found.as_str(), wanted)
        }
        None => tally.expect(section, "no such section", ""),
    }
}

fn judge_section(
    alloc: Global,
    given: &mut Given,
    tally: &mut Tally,
    section: &str,
    body: &str,
) -> Result<(), AllocError> {
    if given.take(alloc, section, body)? {
        return Ok(());
    }
    for line in body.lines() {
        judge_row(alloc, given, tally, section, line)?;
    }
    Ok(())
}

/// Judges a table of traces, of what searches of their first cycles find, of runs by swift plans, and of
/// grants that are moved to earlier starts.
pub fn judge(alloc: Global, table: &str) -> Result<Tally, AllocError> {
    let mut tally = Tally::new(alloc);
    let mut given = Given::new(alloc);
    for (section, body) in sections_of(alloc, table)? {
        judge_section(alloc, &mut given, &mut tally, section, body)?;
    }
    Ok(tally)
}
