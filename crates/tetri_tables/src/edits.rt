// Texts that are made of others by a change of a few lines.
use std::alloc::{AllocError, Global};

fn add_lines(out: &mut String, lines: &str) -> Result<(), AllocError> {
    if lines.is_empty() {
        return Ok(());
    }
    for line in lines.split('|') {
        out.push_str(line)?;
        out.push_str("\n")?;
    }
    Ok(())
}

// A text with `count` lines from line `from` on taken out, and others put there.
fn with_lines(
    alloc: Global,
    text: &str,
    from: usize,
    count: usize,
    with: &str,
) -> Result<String, AllocError> {
    let mut out = String::new(alloc);
    for (place, line) in text.lines().enumerate() {
        let number = place + 1;
        if number == from {
            add_lines(&mut out, with)?;
        }
        if number < from || count <= number - from {
            out.push_str(line)?;
            out.push_str("\n")?;
        }
    }
    if text.lines().count() < from {
        add_lines(&mut out, with)?;
    }
    Ok(out)
}

/// A text changed by edits with `; ` between them, one behind the other. An edit is `FROM COUNT LINES`: COUNT lines from line
/// FROM on are taken out, and LINES put there, with `|` between them.
pub fn edited(alloc: Global, text: &str, edits: &str) -> Result<String, AllocError> {
    let mut out = String::from_str(alloc, text)?;
    for edit in edits.split("; ") {
        let (from, edit) = edit.split_once(' ').unwrap_or(("", ""));
        let (count, with) = edit.split_once(' ').unwrap_or((edit, ""));
        let from = from.parse::<usize>().unwrap_or(0);
        let count = count.parse::<usize>().unwrap_or(0);
        out = with_lines(alloc, out.as_str(), from, count, with)?;
    }
    Ok(out)
}

/// A text with the first OLD replaced, where `change` is `OLD => NEW`.
pub fn replaced(alloc: Global, text: &str, change: &str) -> Result<String, AllocError> {
    let (old, new) = change.split_once(" => ").unwrap_or((change, ""));
    match text.split_once(old) {
        Some((front, back)) => format!(in alloc; "{front}{new}{back}"),
        None => format!(in alloc; "{old} is not there"),
    }
}
