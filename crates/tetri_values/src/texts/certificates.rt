// Lines of marks that are read and printed back, and lines that are no marks.
use std::alloc::{AllocError, Global};
use tetri_base::Items;
use tetri_cert::{Certificate, Mark, count_nodes, print, print_mark, read_mark};
use tetri_tables::{Tally, expand, expand_text, text_of};

fn mark_told(alloc: Global, mark: &Mark) -> Result<String, AllocError> {
    let mut out = String::new(alloc);
    print_mark(&mut out, mark)?;
    String::from_str(alloc, out.as_str().trim_end_matches('\n'))
}

// The mark of a line as it prints, or why there is none.
fn told(alloc: Global, line: &[u8]) -> Result<String, AllocError> {
    match read_mark(alloc, line) {
        Ok(mark) => mark_told(alloc, &mark),
        Err(fault) => text_of(alloc, &fault),
    }
}

/// Each line is that of a mark, and prints so.
pub fn marks(alloc: Global, tally: &mut Tally, body: &str) -> Result<(), AllocError> {
    for row in body.lines() {
        let line = expand_text(alloc, row)?;
        let found = told(alloc, line.as_bytes())?;
        tally.expect("a mark", found.as_str(), line.as_str())?;
    }
    Ok(())
}

/// No line is that of a mark.
pub fn no_marks(alloc: Global, tally: &mut Tally, body: &str) -> Result<(), AllocError> {
    for line in body.lines() {
        let bytes = expand(alloc, line)?;
        let found = told(alloc, &bytes)?;
        tally.expect(line, found.as_str(), "not a mark")?;
    }
    Ok(())
}

fn mark_in(alloc: Global, line: &str) -> Option<Mark> {
    read_mark(alloc, line.as_bytes()).ok()
}

fn marks_in(alloc: Global, lines: &str) -> Result<Items<Mark>, AllocError> {
    let mut marks = Items::new(alloc);
    for line in lines.lines() {
        if let Some(mark) = mark_in(alloc, line) {
            marks.push(mark)?;
        }
    }
    Ok(marks)
}

// The tree of these marks as it prints.
fn tree_told(alloc: Global, marks: Items<Mark>) -> Result<String, AllocError> {
    let text = print(alloc, &Certificate::Tree(marks))?;
    let text = str::from_utf8(&text).unwrap_or("");
    String::from_str(alloc, text.trim_end_matches('\n'))
}

/// The lines are those of a tree with so many nodes other than rests, and print so.
pub fn certificate(
    alloc: Global,
    tally: &mut Tally,
    nodes: &str,
    body: &str,
) -> Result<(), AllocError> {
    let marks = marks_in(alloc, body)?;
    let count = format!(in alloc; "{}", count_nodes(marks.as_slice()))?;
    tally.expect(body, count.as_str(), nodes)?;
    let text = tree_told(alloc, marks)?;
    tally.expect("a tree", text.as_str(), body)
}
