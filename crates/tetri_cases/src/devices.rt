// Runs over devices that refuse each read or each write in turn, and over contents that are cut at each byte.
ghost use Rattle.std.specs.Prelude.{◌<◌, ◌≤◌, length};

use crate::runs::{Outcome, Service, run_words};
use std::alloc::{AllocError, Global};
use tetri_tables::{Given, Tally};

// No run of the tables has so many reads or writes.
const MOST: u64 = 100_000;

// The two halves of a row `WORDS; LIMITS`.
fn words_and_limits(row: &str) -> (&str, &str) {
    row.split_once("; ").unwrap_or((row, ""))
}

// The words with which a block of a text begins: a cycle is a block, and an answer, and the last line.
const BLOCKS: [&str; 7] = [
    "cycle ",
    "summary ",
    "admitted ",
    "refused ",
    "undecided ",
    "deep ",
    "booked ",
];

fn begins_block(line: &str) -> bool {
    for word in &BLOCKS {
        if line.starts_with(*word) {
            return true;
        }
    }
    false
}

// How many bytes of a text are written in so many writes, where the text is handed to the sink block by block.
fn bytes_behind(text: &str, width: usize, writes: u64) -> usize
    requires { 0 < width }
{
    let mut left = usize::try_from(writes).unwrap_or(usize::MAX);
    let mut behind = 0usize;
    let mut block = 0usize;
    for line in text.split_inclusive('\n') {
        if begins_block(line) {
            let (bytes, count) = sent_of(block, width, left);
            behind = behind.saturating_add(bytes);
            left -= count;
            block = 0;
        }
        block = block.saturating_add(line.len());
    }
    behind.saturating_add(sent_of(block, width, left).0)
}

// How many bytes of a block so many writes take, and how many of these it needs.
fn sent_of(block: usize, width: usize, writes: usize) -> (usize, usize)
    requires { 0 < width }
    ensures { result.1 ≤ writes }
{
    let bytes = block.min(writes.saturating_mul(width));
    let whole = bytes / width;
    let count = if bytes % width == 0 {
        whole
    } else {
        whole.saturating_add(1)
    };
    (bytes, count.min(writes))
}

// Whether what was written are so many bytes of the text.
fn is_front(text: &str, behind: usize, written: &str) -> bool {
    behind <= text.len() && &text.as_bytes()[..behind] == written.as_bytes()
}

// What a run writes and says of which the read of a number is refused.
fn run_without_read(
    alloc: Global,
    given: &Given,
    service: &mut Service<'_>,
    words: &str,
    number: u64,
) -> Result<Outcome, AllocError> {
    service.reads.clear();
    service.reads.push(number)?;
    run_words(alloc, given, service, words)
}

// The same of a write.
fn run_without_write(
    alloc: Global,
    given: &Given,
    service: &mut Service<'_>,
    words: &str,
    number: u64,
) -> Result<Outcome, AllocError> {
    service.writes.clear();
    service.writes.push(number)?;
    run_words(alloc, given, service, words)
}

// What differs where each read of a run is refused in turn: the run ends with a read fault and has written nothing, until it has no
// further read and ends as one of which none is refused.
fn read_told(
    alloc: Global,
    given: &Given,
    service: &mut Service<'_>,
    words: &str,
) -> Result<String, AllocError> {
    let whole = run_words(alloc, given, service, words)?;
    for number in 1..MOST {
        let outcome = run_without_read(alloc, given, service, words, number)?;
        if outcome.said.as_str() != "read fault" {
            return ended_told(alloc, &whole, &outcome, number);
        }
        if !outcome.written.is_empty() {
            return format!(in alloc; "read {number}: wrote {}", outcome.written);
        }
    }
    String::from_str(alloc, "too many reads")
}

// The same of each write: what is written is what was taken before.
fn write_told(
    alloc: Global,
    given: &Given,
    service: &mut Service<'_>,
    words: &str,
) -> Result<String, AllocError> {
    let width = service.write_most;
    let whole = run_words(alloc, given, service, words)?;
    for number in 1..MOST {
        let outcome = run_without_write(alloc, given, service, words, number)?;
        let text = whole.written.as_str();
        let behind = bytes_behind(text, width, number - 1);
        if outcome.said.as_str() != "write fault" {
            if behind < text.len() {
                return format!(in alloc; "write {number}: {}", outcome.said);
            }
            return ended_told(alloc, &whole, &outcome, number);
        }
        if !is_front(text, behind, outcome.written.as_str()) {
            return format!(in alloc; "write {number}: wrote {}", outcome.written);
        }
    }
    String::from_str(alloc, "too many writes")
}

// How a run ended in which nothing was refused.
fn ended_told(
    alloc: Global,
    whole: &Outcome,
    last: &Outcome,
    number: u64,
) -> Result<String, AllocError> {
    if number == 1 {
        return String::from_str(alloc, "nothing was refused");
    }
    if last.written.as_str() != whole.written.as_str()
        || last.said.as_str() != whole.said.as_str()
    {
        return format!(in alloc; "another end: {} {}", last.said, last.written);
    }
    format!(in alloc; "each, then {}", last.said)
}

fn reads_told(
    alloc: Global,
    given: &Given,
    advisors: &str,
    row: &str,
) -> Result<String, AllocError> {
    let (words, limits) = words_and_limits(row);
    let mut service = Service::of(alloc, advisors, limits)?;
    read_told(alloc, given, &mut service, words)
}

fn writes_told(
    alloc: Global,
    given: &Given,
    advisors: &str,
    row: &str,
) -> Result<String, AllocError> {
    let (words, limits) = words_and_limits(row);
    let mut service = Service::of(alloc, advisors, limits)?;
    write_told(alloc, given, &mut service, words)
}

/// Rows `WORDS; LIMITS`: each read of the run of the words with these advisors is refused in turn.
pub fn each_read(
    alloc: Global,
    given: &Given,
    tally: &mut Tally,
    advisors: &str,
    body: &str,
) -> Result<(), AllocError> {
    for row in body.lines() {
        let found = reads_told(alloc, given, advisors, row)?;
        tally.expect(row, found.as_str(), "each, then ")?;
    }
    Ok(())
}

/// Rows `WORDS; LIMITS`: each write of the run of the words with these advisors is refused in turn.
pub fn each_write(
    alloc: Global,
    given: &Given,
    tally: &mut Tally,
    advisors: &str,
    body: &str,
) -> Result<(), AllocError> {
    for row in body.lines() {
        let found = writes_told(alloc, given, advisors, row)?;
        tally.expect(row, found.as_str(), "each, then ")?;
    }
    Ok(())
}

// What a run says and writes of the trace when only these bytes of it are there.
fn cut_told(alloc: Global, given: &mut Given, trace: &[u8]) -> Result<String, AllocError> {
    given.trace = String::from_str(alloc, str::from_utf8(trace).unwrap_or(""))?;
    let outcome = run_words(alloc, given, &Service::new(alloc, ""), "plan trace")?;
    format!(in alloc; "{}{}", outcome.written, outcome.said)
}

fn expect_cut(
    alloc: Global,
    given: &mut Given,
    tally: &mut Tally,
    trace: &[u8],
    line: u64,
) -> Result<(), AllocError> {
    let found = cut_told(alloc, given, trace)?;
    let wanted = format!(in alloc; "bad trace: line {line}: not-json")?;
    tally.expect("a trace that is cut", found.as_str(), wanted.as_str())
}

// Whether the byte at this place is the last of its line.
fn ends_line(bytes: &[u8], place: usize) -> bool
    requires { place < length bytes.now }
{
    match bytes.get(place + 1) {
        Some(next) => *next == b'\n',
        None => true,
    }
}

/// The trace is cut inside each of its lines, behind each of their bytes but the last brace: nothing is written, and that line is not
/// JSON.
pub fn each_cut(alloc: Global, given: &mut Given, tally: &mut Tally) -> Result<(), AllocError> {
    let whole = given.trace.clone()?;
    let bytes = whole.as_bytes();
    let mut line = 1u64;
    for (place, byte) in bytes.iter().enumerate() {
        if *byte == b'\n' {
            line = line.saturating_add(1);
        } else if !ends_line(bytes, place) {
            expect_cut(alloc, given, tally, &bytes[..place + 1], line)?;
        }
    }
    given.trace = whole;
    Ok(())
}
