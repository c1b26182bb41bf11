// `tetri_ctl lint TRACE`
use crate::builders::{Built, flag, on_trace, with_word};
use crate::named::{Shelf, open_trace};
use crate::said::{BAD_INPUT, NO_MEMORY, REFUSED, complain, read_fault, shown, write_output};
use clap::ArgMatches;
use std::alloc::{AllocError, Global};
use std::fmt::Write;
use tetri_lint::{Level, LintFault, Linted, add_finding, add_refusal, level_of, lint};

/// The words of the command.
pub fn command<'a>(alloc: Global) -> Built<'a> {
    let command = on_trace(
        alloc,
        "lint",
        "Tells why a trace is refused, or what is suspicious in it",
        "Example: tetri_ctl lint day.jsonl --strict",
    );
    with_word(
        command,
        flag(alloc, "strict", "end with 1 where there is a warning"),
    )
}

// What is found in a trace of this name, a line each.
fn text_of(alloc: Global, name: &str, linted: &Linted) -> Result<String, AllocError> {
    let mut text = String::new(alloc);
    if let Some(refusal) = &linted.refusal {
        add_refusal(&mut text, shown(name), refusal)?;
    }
    for finding in &linted.findings {
        add_finding(&mut text, shown(name), finding)?;
    }
    if linted.more > 0 {
        let name = shown(name);
        let more = linted.more;
        writeln!(text, "{name}: {more} more")?;
    }
    Ok(text)
}

fn has_warning(linted: &Linted) -> bool {
    for finding in &linted.findings {
        if level_of(finding.kind) == Level::Warning {
            return true;
        }
    }
    linted.more > 0
}

// The exit number of what is found.
fn number_of(linted: &Linted, is_strict: bool) -> u8 {
    if linted.refusal.is_some() {
        BAD_INPUT
    } else if is_strict && has_warning(linted) {
        REFUSED
    } else {
        0
    }
}

// Writes what is found, and gives the exit number.
fn write_out(rt: &HostRuntime, name: &str, linted: &Linted, is_strict: bool) -> u8 {
    let Ok(text) = text_of(rt.alloc(), name, linted) else {
        complain(rt, name, "out of memory");
        return NO_MEMORY;
    };
    match write_output(rt, text.as_bytes()) {
        Ok(()) => number_of(linted, is_strict),
        Err(number) => number,
    }
}

/// Lints what the words name, and gives the exit number.
pub fn run(rt: &HostRuntime, words: &ArgMatches<'_>) -> u8 {
    let name = words.get_str("TRACE").unwrap_or("");
    let mut shelf = Shelf::new(rt.alloc(), rt);
    if let Err(number) = open_trace(rt, &mut shelf, name) {
        return number;
    }
    match lint(rt.alloc(), &mut shelf, name) {
        Ok(linted) => write_out(rt, name, &linted, words.get_flag("strict")),
        Err(LintFault::Read) => read_fault(rt, name),
        Err(LintFault::NoMemory) => {
            complain(rt, name, "out of memory");
            NO_MEMORY
        }
    }
}
