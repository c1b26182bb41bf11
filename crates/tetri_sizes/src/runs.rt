// Runs over memory, with the two advisors of `tetri` or with none.
use std::alloc::{AllocError, Global};
use tetri_advice::{Advisor, Panel};
use tetri_greedy::{ByDeadline, ByWorth};
use tetri_io::{MemShelf, MemSink};
use tetri_run::{run, say};
use tetri_tables::{Given, Tally, expand_text, sections_of, text_in};

// Bytes of a read and of a write at most, and bytes that there is room for.
const PIECE: usize = 65_536;

const ROOM: usize = 16_000_000;

// What was written, and what is said of the status.
#[derive(Drop)]
struct Outcome {
    written: String,
    said: String,
}

fn words_of(alloc: Global, line: &str) -> Result<Vec<String>, AllocError> {
    let mut words = Vec::new(alloc);
    for word in line.split(' ') {
        words.push(String::from_str(alloc, word)?)?;
    }
    Ok(words)
}

// Runs the words over the trace and the report.
fn run_words(
    alloc: Global,
    given: &Given,
    line: &str,
    is_advised: bool,
) -> Result<Outcome, AllocError> {
    let mut panel = Panel::new(alloc);
    if is_advised {
        let by_deadline: Box<dyn Advisor> = Box::new(alloc, ByDeadline::new())?;
        let by_worth: Box<dyn Advisor> = Box::new(alloc, ByWorth::new())?;
        if panel.seat(by_deadline).is_err() || panel.seat(by_worth).is_err() {
            return Err(AllocError);
        }
    }
    let words = words_of(alloc, line)?;
    let mut shelf = MemShelf::new(alloc, PIECE, &[])?;
    shelf.put("trace", given.trace.as_bytes())?;
    shelf.put("report", given.report.as_bytes())?;
    let mut sink = MemSink::new(alloc, PIECE, ROOM, &[])?;
    let status = run(alloc, words.as_slice(), &mut shelf, &mut sink, &mut panel);
    let written = text_in(alloc, sink.written())?;
    let mut errors = MemSink::new(alloc, PIECE, 1000, &[])?;
    let _ = say(alloc, &status, &mut errors);
    let said = text_in(alloc, errors.written())?;
    Ok(Outcome { written, said })
}

// Whether a line begins with one of these words; any line does where there are none.
fn is_chosen(line: &str, words: &str) -> bool {
    if words.is_empty() {
        return true;
    }
    let (first, _) = line.split_once(' ').unwrap_or((line, ""));
    for word in words.split(',') {
        if word == first {
            return true;
        }
    }
    false
}

fn chosen_lines(alloc: Global, text: &str, words: &str) -> Result<String, AllocError> {
    let mut lines = String::new(alloc);
    for line in text.lines() {
        if is_chosen(line, words) {
            write!(lines, "{line}\n")?;
        }
    }
    Ok(lines)
}

// Runs a command, and expects these lines of what it writes and says; what `plan` writes is the report from then on.
fn judge_run(
    alloc: Global,
    given: &mut Given,
    tally: &mut Tally,
    kind: &str,
    body: &str,
) -> Result<(), AllocError> {
    let (command, words) = kind.split_once(": ").unwrap_or((kind, ""));
    let (line, is_advised) = match command {
        "plan" => ("plan trace", false),
        "advised plan" => ("plan trace", true),
        "check" => ("check trace report", false),
        "parts" => ("parts trace", false),
        "tight" => ("tight trace", false),
        "admit" => ("admit trace", false),
        _ => return tally.expect("a section", kind, "a known kind"),
    };
    let outcome = run_words(alloc, given, line, is_advised)?;
    let mut found = chosen_lines(alloc, outcome.written.as_str(), words)?;
    found.push_str(outcome.said.as_str())?;
    let wanted = expand_text(alloc, body)?;
    tally.expect(
        kind,
        found.as_str().trim_end_matches('\n'),
        wanted.as_str().trim_end_matches('\n'),
    )?;
    if line == "plan trace" {
        given.report = outcome.written;
    }
    Ok(())
}

/// Judges each case of a table.
pub fn judge(alloc: Global, table: &str) -> Result<Tally, AllocError> {
    let mut given = Given::new(alloc);
    let mut tally = Tally::new(alloc);
    for (kind, body) in sections_of(alloc, table)? {
        if !given.take(alloc, kind, body)? {
            judge_run(alloc, &mut given, &mut tally, kind, body)?;
        }
    }
    Ok(tally)
}
