// Lines, parts and numbers of contents, and bytes that are sent.
ghost use Rattle.std.specs.Prelude.{◌<◌, ◌^◌, IfOk};
ghost use Rattle.tetri_io.specs.Line.{IsPlacedAfter};

use std::alloc::{AllocError, Global};
use tetri_io::{
    Line, LineFault, MemShelf, MemSink, halves_at, number_below, parts_at, read_line_at, send_all,
};
use tetri_tables::{Tally, expand, expand_text, halves};

// The text before the first space, and the one behind it.
fn words(text: &str) -> (&str, &str) {
    text.split_once(' ').unwrap_or((text, ""))
}

fn number(text: &str) -> u64 {
    text.parse::<u64>().unwrap_or(0)
}

fn next_line(
    alloc: Global,
    shelf: &mut MemShelf,
    offset: u64,
    limit: usize,
) -> Result<Line, LineFault>
    requires { offset < 2 ^ 63 }
    ensures { IfOk result (IsPlacedAfter offset) }
{
    read_line_at(alloc, shelf, "trace", offset, limit)
}

// What came in the place of a further line.
fn word_of(fault: LineFault) -> &'static str {
    match fault {
        LineFault::Failed => "failed",
        LineFault::TooLong => "too long",
        LineFault::NoMemory => "no memory",
    }
}

fn add_line(told: &mut String, line: &[u8]) -> Result<(), AllocError> {
    write!(told, "{}|", str::from_utf8(line).unwrap_or("not text"))
}

// The lines of a content, one by one, with a bar behind each, and what came in the place of a further line.
fn lines_told(alloc: Global, shelf: &mut MemShelf, limit: usize) -> Result<String, AllocError> {
    let mut told = String::new(alloc);
    let mut offset = 0u64;
    for _ in 0..100 {
        match next_line(alloc, shelf, offset, limit) {
            Ok(Line::Text { bytes, next }) => {
                add_line(&mut told, &bytes)?;
                offset = next;
            }
            Ok(Line::End) => return Ok(told),
            Err(fault) => {
                told.push_str(word_of(fault))?;
                return Ok(told);
            }
        }
    }
    Ok(told)
}

// A shelf with a content, where the read of this number fails; no content where the text is `none`.
fn shelf_with(alloc: Global, failing: u64, content: &str) -> Result<MemShelf, AllocError> {
    let mut shelf = MemShelf::new(alloc, 2, &[failing])?;
    if content != "none" {
        shelf.put("trace", b"an earlier content")?;
        shelf.put("trace", &expand(alloc, content)?)?;
    }
    Ok(shelf)
}

fn content_told(alloc: Global, what: &str) -> Result<String, AllocError> {
    let (limit, what) = words(what);
    let (failing, content) = what.split_once(' ').unwrap_or((what, "none"));
    let mut shelf = shelf_with(alloc, number(failing), content)?;
    lines_told(alloc, &mut shelf, limit.parse::<usize>().unwrap_or(0))
}

/// Rows `LIMIT FAILING CONTENT => LINES`: the lines of at most LIMIT bytes of a content, where the read of the number
/// FAILING fails. Without a content the name holds none.
pub fn read_lines(alloc: Global, tally: &mut Tally, body: &str) -> Result<(), AllocError> {
    for row in body.lines() {
        let (what, wanted) = halves(row);
        let found = content_told(alloc, what)?;
        let wanted = expand_text(alloc, wanted)?;
        tally.expect(row, found.as_str(), wanted.as_str())?;
    }
    Ok(())
}

// How sending a text ends, and what was written, where there is so much room.
fn sent_told(alloc: Global, room: usize, failing: u64, text: &str) -> Result<String, AllocError> {
    let mut sink = MemSink::new(alloc, 3, room.min(1000), &[failing])?;
    let answer = match send_all(&mut sink, text.as_bytes()) {
        Ok(()) => "sent",
        Err(_) => "failed",
    };
    let written = str::from_utf8(sink.written()).unwrap_or("not text");
    format!(in alloc; "{answer} {written}")
}

/// Rows `ROOM FAILING TEXT => ANSWER WRITTEN`: how sending a text three bytes at a time ends, and what was written, where
/// there is so much room and the write of the number FAILING fails.
pub fn sent_bytes(alloc: Global, tally: &mut Tally, body: &str) -> Result<(), AllocError> {
    for row in body.lines() {
        let (what, wanted) = halves(row);
        let (room, what) = words(what);
        let (failing, text) = words(what);
        let room = room.parse::<usize>().unwrap_or(0);
        let found = sent_told(alloc, room, number(failing), text)?;
        tally.expect(row, found.as_str(), wanted)?;
    }
    Ok(())
}

fn parts_told(alloc: Global, text: &str) -> Result<String, AllocError> {
    let mut found = String::new(alloc);
    let parts = parts_at(alloc, b',', text.as_bytes())?;
    for part in &parts {
        add_line(&mut found, *part)?;
    }
    Ok(found)
}

/// Rows `TEXT => PARTS`: what stands between the commas of a text, with a bar behind each.
pub fn parts(alloc: Global, tally: &mut Tally, body: &str) -> Result<(), AllocError> {
    for row in body.lines() {
        let (text, wanted) = halves(row);
        let found = parts_told(alloc, text)?;
        tally.expect(row, found.as_str(), wanted)?;
    }
    Ok(())
}

fn split_told(alloc: Global, text: &str) -> Result<String, AllocError> {
    let Some((before, behind)) = halves_at(b':', text.as_bytes()) else {
        return String::from_str(alloc, "none");
    };
    let before = str::from_utf8(before).unwrap_or("not text");
    let behind = str::from_utf8(behind).unwrap_or("not text");
    format!(in alloc; "{before}|{behind}")
}

/// Rows `TEXT => BEFORE|BEHIND`: what stands before and behind the first colon of a text, or `none`.
pub fn split_texts(alloc: Global, tally: &mut Tally, body: &str) -> Result<(), AllocError> {
    for row in body.lines() {
        let (text, wanted) = halves(row);
        let found = split_told(alloc, text)?;
        tally.expect(row, found.as_str(), wanted)?;
    }
    Ok(())
}

fn number_told(alloc: Global, limit: u128, text: &str) -> Result<String, AllocError> {
    match number_below(limit.min(1 << 127), text.as_bytes()) {
        Some(number) => format!(in alloc; "{number}"),
        None => String::from_str(alloc, "none"),
    }
}

/// Rows `TEXT => NUMBER`: the number below a limit that a text says, or `none`.
pub fn numbers(
    alloc: Global,
    tally: &mut Tally,
    limit: &str,
    body: &str,
) -> Result<(), AllocError> {
    let limit = limit.parse::<u128>().unwrap_or(0);
    for row in body.lines() {
        let (text, wanted) = halves(row);
        let found = number_told(alloc, limit, text)?;
        tally.expect(row, found.as_str(), wanted)?;
    }
    Ok(())
}
