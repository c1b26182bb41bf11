// What is said of traces. A section `trace` gives a trace, and one `lint` what is said of it, by the name `t`.
use std::alloc::{AllocError, Global};
use std::fmt::Write;
use tetri_io::MemShelf;
use tetri_lint::{LintFault, Linted, add_finding, add_refusal, lint};
use tetri_tables::{Given, Tally, sections_of};

// All that is said of a trace, as lines.
fn text_of(alloc: Global, linted: &Linted) -> Result<String, AllocError> {
    let mut text = String::new(alloc);
    if let Some(refusal) = &linted.refusal {
        add_refusal(&mut text, "t", refusal)?;
    }
    for finding in &linted.findings {
        add_finding(&mut text, "t", finding)?;
    }
    if linted.more > 0 {
        let more = linted.more;
        writeln!(text, "{more} more")?;
    }
    Ok(text)
}

// What is said of a content, and that of one whose read fails.
fn said(alloc: Global, content: &[u8], failing: &[u64]) -> Result<String, AllocError> {
    let mut shelf = MemShelf::new(alloc, 4000, failing)?;
    shelf.put("t", content)?;
    match lint(alloc, &mut shelf, "t") {
        Ok(linted) => text_of(alloc, &linted),
        Err(LintFault::Read) => String::from_str(alloc, "read fault\n"),
        Err(LintFault::NoMemory) => Err(AllocError),
    }
}

// How many lines a text has, and the last of them.
fn in_short(alloc: Global, text: &str) -> Result<String, AllocError> {
    let text = text.trim_end_matches('\n');
    let count = text.split('\n').count();
    let last = text.rsplit('\n').next().unwrap_or("");
    format!(in alloc; "{count} lines, the last: {last}")
}

// What is said of the trace, in a section of this kind.
fn said_by(alloc: Global, kind: &str, trace: &str) -> Result<String, AllocError> {
    let content = trace.as_bytes();
    match kind {
        "lint of a failed read" => said(alloc, content, &[1]),
        "lint of a failed second reading" => said(alloc, content, &[3]),
        _ => said(alloc, content, &[]),
    }
}

fn expect_said(
    alloc: Global,
    tally: &mut Tally,
    kind: &str,
    trace: &str,
    body: &str,
) -> Result<(), AllocError> {
    let text = said_by(alloc, kind, trace)?;
    if kind == "lint in short" {
        let short = in_short(alloc, text.as_str())?;
        return tally.expect(kind, short.as_str(), body);
    }
    tally.expect(kind, text.as_str().trim_end_matches('\n'), body)
}

/// Judges the cases of a table.
pub fn judge(alloc: Global, table: &str) -> Result<Tally, AllocError> {
    let mut given = Given::new(alloc);
    let mut tally = Tally::new(alloc);
    for (kind, body) in sections_of(alloc, table)? {
        if !given.take(alloc, kind, body)? {
            expect_said(alloc, &mut tally, kind, given.trace.as_str(), body)?;
        }
    }
    Ok(tally)
}
