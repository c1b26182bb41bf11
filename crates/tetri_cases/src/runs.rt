// Runs over memory: what they write, and what is said of them.
ghost use Rattle.std.specs.Prelude.{◌<◌};

use crate::panels::is_seated;
use std::alloc::{AllocError, Global};
use tetri_advice::{Advisor, Panel};
use tetri_greedy::{ByDeadline, ByWorth};
use tetri_io::{MemShelf, MemSink};
use tetri_run::{Status, Why, conclude, run, say};
use tetri_tables::{Given, Tally, edited, halves, text_in};
use tetri_trace::{Field, TraceWhy};

/// How a run is served: the names of its advisors, the bytes of a read and of a write at most, the bytes that there is room for, and
/// the reads and writes that fail.
#[derive(Drop)]
pub struct Service<'a> {
    pub advisors: &'a str,
    pub read_most: usize,
    pub write_most: usize,
    pub room: usize,
    pub reads: Vec<u64>,
    pub writes: Vec<u64>,
    ghost reads_some: { 0 < read_most },
    ghost writes_some: { 0 < write_most },
}

impl<'a> Service<'a> {
    /// Of short pieces, with room enough, and nothing that fails.
    pub fn new(alloc: Global, advisors: &'a str) -> Service<'a> {
        Service {
            advisors,
            read_most: 64,
            write_most: 7,
            room: 4_000_000,
            reads: Vec::new(alloc),
            writes: Vec::new(alloc),
        }
    }

    /// Of words as `read 1; write 2; piece 64; width 7; room 100`.
    pub fn of(alloc: Global, advisors: &'a str, limits: &str) -> Result<Service<'a>, AllocError> {
        let mut service = Service::new(alloc, advisors);
        for limit in limits.split("; ") {
            let (word, number) = limit.split_once(' ').unwrap_or((limit, ""));
            service.set(word, number.parse::<u64>().unwrap_or(0))?;
        }
        Ok(service)
    }

    // Takes a word of a row.
    fn set(&mut self, word: &str, number: u64) -> Result<(), AllocError> {
        let size = usize::try_from(number).unwrap_or(1);
        match word {
            "piece" => self.read_most = size.max(1),
            "width" => self.write_most = size.max(1),
            "room" => self.room = size.min(4_000_000),
            "read" => self.reads.push(number)?,
            "write" => self.writes.push(number)?,
            _ => {}
        }
        Ok(())
    }
}

/// What was written, and what is said of the status.
#[derive(Drop)]
pub struct Outcome {
    pub written: String,
    pub said: String,
}

fn words_of(alloc: Global, line: &str) -> Result<Vec<String>, AllocError> {
    let mut words = Vec::new(alloc);
    for word in line.split(' ') {
        words.push(String::from_str(alloc, word)?)?;
    }
    Ok(words)
}

// The line that is said of a status, without its line feed.
fn said_of(alloc: Global, status: &Status) -> Result<String, AllocError> {
    let mut sink = MemSink::new(alloc, 7, 1000, &[])?;
    match say(alloc, status, &mut sink) {
        Ok(()) => {
            let line = text_in(alloc, sink.written())?;
            String::from_str(alloc, line.as_str().trim_end_matches('\n'))
        }
        Err(_) => String::from_str(alloc, "cannot say it"),
    }
}

fn shelf_of(alloc: Global, given: &Given, service: &Service<'_>) -> Result<MemShelf, AllocError> {
    let mut shelf = MemShelf::new(alloc, service.read_most, &service.reads)?;
    shelf.put("trace", given.trace.as_bytes())?;
    shelf.put("report", given.report.as_bytes())?;
    Ok(shelf)
}

fn outcome_of(alloc: Global, sink: &MemSink, status: &Status) -> Result<Outcome, AllocError> {
    let written = text_in(alloc, sink.written())?;
    let said = said_of(alloc, status)?;
    Ok(Outcome { written, said })
}

/// Runs the words with the advisors that are named, in this order: `deadline` and `worth`.
pub fn run_words(
    alloc: Global,
    given: &Given,
    service: &Service<'_>,
    line: &str,
) -> Result<Outcome, AllocError> {
    let mut panel = Panel::new(alloc);
    for name in service.advisors.split(',') {
        let is_there = match name {
            "deadline" => {
                let one: Box<dyn Advisor> = Box::new(alloc, ByDeadline::new())?;
                is_seated(&mut panel, one)
            }
            "worth" => {
                let one: Box<dyn Advisor> = Box::new(alloc, ByWorth::new())?;
                is_seated(&mut panel, one)
            }
            _ => true,
        };
        if !is_there {
            return Err(AllocError);
        }
    }
    let words = words_of(alloc, line)?;
    let mut shelf = shelf_of(alloc, given, service)?;
    let mut sink = MemSink::new(alloc, service.write_most, service.room, &service.writes)?;
    let status = run(alloc, words.as_slice(), &mut shelf, &mut sink, &mut panel);
    outcome_of(alloc, &sink, &status)
}

// What a run with these advisors writes and says, one behind the other.
fn answer(alloc: Global, given: &Given, advisors: &str, line: &str) -> Result<String, AllocError> {
    let outcome = run_words(alloc, given, &Service::new(alloc, advisors), line)?;
    format!(in alloc; "{}{}", outcome.written, outcome.said)
}

fn check_answer(alloc: Global, given: &Given) -> Result<String, AllocError> {
    let answer = answer(alloc, given, "", "check trace report")?;
    String::from_str(alloc, answer.as_str().trim_end_matches('\n'))
}

/// A run of the words with nobody to advise writes the text.
pub fn made(
    alloc: Global,
    given: &Given,
    tally: &mut Tally,
    words: &str,
    body: &str,
) -> Result<(), AllocError> {
    let wanted = format!(in alloc; "{body}\n")?;
    let found = answer(alloc, given, "", words)?;
    tally.expect(given.trace.as_str(), found.as_str(), wanted.as_str())
}

/// The trace is planned with these advisors, and its report is the text, which is then accepted by a check.
pub fn plan(
    alloc: Global,
    given: &mut Given,
    tally: &mut Tally,
    advisors: &str,
    body: &str,
) -> Result<(), AllocError> {
    let wanted = format!(in alloc; "{body}\n")?;
    let found = answer(alloc, given, advisors, "plan trace")?;
    tally.expect(given.trace.as_str(), found.as_str(), wanted.as_str())?;
    given.report = wanted;
    accepted(alloc, given, tally)
}

/// The report is accepted, with each of its cycles.
pub fn accepted(alloc: Global, given: &Given, tally: &mut Tally) -> Result<(), AllocError> {
    let mut cycles = 0usize;
    for line in given.report.as_str().lines() {
        if line.starts_with("cycle ") {
            cycles = cycles.saturating_add(1);
        }
    }
    let accepted = format!(in alloc; "accepted {cycles}")?;
    check(alloc, given, tally, accepted.as_str())
}

/// The trace is not planned: nothing is written, and this is said.
pub fn no_plan(
    alloc: Global,
    given: &Given,
    tally: &mut Tally,
    wanted: &str,
) -> Result<(), AllocError> {
    let found = answer(alloc, given, "", "plan trace")?;
    tally.expect(given.trace.as_str(), found.as_str(), wanted)
}

/// This is the answer to a check of the report against the trace.
pub fn check(
    alloc: Global,
    given: &Given,
    tally: &mut Tally,
    wanted: &str,
) -> Result<(), AllocError> {
    let found = check_answer(alloc, given)?;
    tally.expect(given.report.as_str(), found.as_str(), wanted)
}

/// Rows `EDITS => ANSWER`: the answer to a check of the changed report.
pub fn forged(
    alloc: Global,
    given: &mut Given,
    tally: &mut Tally,
    body: &str,
) -> Result<(), AllocError> {
    let report = given.report.clone()?;
    for row in body.lines() {
        let (edits, wanted) = halves(row);
        given.report = edited(alloc, report.as_str(), edits)?;
        let found = check_answer(alloc, given)?;
        tally.expect(row, found.as_str(), wanted)?;
    }
    given.report = report;
    Ok(())
}

// Adds a text with `|` for a line feed.
fn add_barred(out: &mut String, text: &str) -> Result<(), AllocError> {
    for line in text.split_inclusive('\n') {
        match line.strip_suffix('\n') {
            Some(line) => write!(out, "{line}|")?,
            None => out.push_str(line)?,
        }
    }
    Ok(())
}

// What a run of `WORDS; WORD NUMBER; ..` says and writes.
fn failing_told(
    alloc: Global,
    given: &Given,
    advisors: &str,
    how: &str,
) -> Result<String, AllocError> {
    let (words, limits) = how.split_once("; ").unwrap_or((how, ""));
    let service = Service::of(alloc, advisors, limits)?;
    let outcome = run_words(alloc, given, &service, words)?;
    let mut found = format!(in alloc; "{}; ", outcome.said)?;
    add_barred(&mut found, outcome.written.as_str())?;
    Ok(found)
}

/// Rows `WORDS; WORD NUMBER; .. => SAID; WRITTEN`: what a run of the words with these advisors says and writes, with `|` for a line
/// feed, where reads and writes of these numbers fail.
pub fn failing(
    alloc: Global,
    given: &Given,
    tally: &mut Tally,
    advisors: &str,
    body: &str,
) -> Result<(), AllocError> {
    for row in body.lines() {
        let (how, wanted) = halves(row);
        let found = failing_told(alloc, given, advisors, how)?;
        tally.expect(row, found.as_str(), wanted)?;
    }
    Ok(())
}

const FIELDS: [Field; 25] = [
    Field::Nodes,
    Field::Window,
    Field::Budget,
    Field::Until,
    Field::Unit,
    Field::Closures,
    Field::At,
    Field::Arrive,
    Field::Cancel,
    Field::Drain,
    Field::Undrain,
    Field::Fail,
    Field::Late,
    Field::Strl,
    Field::Ask,
    Field::K,
    Field::Set,
    Field::Dur,
    Field::Value,
    Field::Deadline,
    Field::Prefer,
    Field::PreferSet,
    Field::PreferDur,
    Field::Class,
    Field::Elastic,
];

// What is said of a field that is missing.
fn missing_told(alloc: Global, field: Field) -> Result<String, AllocError> {
    let why = TraceWhy::MissingField(field);
    said_of(alloc, &Status::BadTrace { line: 1, why })
}

/// What is said where there is no memory, and then of each field that may be missing, one in each line.
pub fn words(alloc: Global, tally: &mut Tally, body: &str) -> Result<(), AllocError> {
    let mut found = said_of(alloc, &Status::NoMemory)?;
    for field in &FIELDS {
        let line = missing_told(alloc, *field)?;
        write!(found, "\n{line}")?;
    }
    tally.expect("words", found.as_str(), body)
}

// The status whose exit number this is.
fn status_of(number: u8) -> Status {
    match number {
        0 => Status::Done,
        1 => Status::Refused {
            line: 2,
            why: Why::Malformed,
        },
        2 => Status::Usage,
        3 => Status::ReadFault,
        4 => Status::WriteFault,
        5 => Status::BadTrace {
            line: 1,
            why: TraceWhy::NotJson,
        },
        _ => Status::NoMemory,
    }
}

// The exit number of a status, with what goes to the sink of errors.
fn ending_told(alloc: Global, status: &Status) -> Result<String, AllocError> {
    let mut errors = MemSink::new(alloc, 7, 1000, &[])?;
    let exit = conclude(alloc, status, &mut errors);
    let said = text_in(alloc, errors.written())?;
    format!(in alloc; "{exit} {}", said.as_str().trim_end_matches('\n'))
}

/// The exit number of each status with what goes to the sink of errors then, one in each line.
pub fn endings(alloc: Global, tally: &mut Tally, body: &str) -> Result<(), AllocError> {
    let mut found = String::new(alloc);
    for number in 0u8..7 {
        let line = ending_told(alloc, &status_of(number))?;
        write!(found, "{line}\n")?;
    }
    tally.expect("endings", found.as_str().trim_end_matches('\n'), body)
}
