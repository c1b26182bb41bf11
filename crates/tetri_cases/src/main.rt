//! Tries the cases of the tables that its arguments name, and prints what differs and how many cases there were.
//!
//! A table is a text of sections. What stands before the first line that begins with `== ` is a comment; that line names the
//! section's kind, and the lines below it are its text, blank lines at the end left out. The README lists the kinds. An argument
//! that ends with `.jsonl` is a trace, and the report beside it is the one that `tetri` plans for it, with its two advisors. One that
//! ends with `.report` is a report that a check accepts, and one that ends with `.answers` what `tetri admit` writes of the trace.
//! The table `pictures.txt` asks for pictures of reports, which are printed as they are.
#![tactic(auto)]

mod devices;
mod imports;
mod panels;
mod pictures;
mod runs;
mod table;

use std::{env, fs, io};
use tetri_tables::Tally;

// The name of an example without its ending.
fn example_of(name: &str) -> Option<&str> {
    for ending in [".jsonl", ".report", ".answers"] {
        if let Some(example) = name.strip_suffix(ending) {
            return Some(example);
        }
    }
    None
}

// The text of the file of an example with an ending.
fn text_of(rt: &HostRuntime, example: &str, ending: &str) -> io::Result<String> {
    let name = format!(in rt.alloc(); "{example}.{ending}")?;
    fs::read_to_string(rt, name.as_str())
}

// Judges the example by the ending of the argument.
fn judge_example(rt: &HostRuntime, example: &str, name: &str) -> io::Result<Tally> {
    let trace = text_of(rt, example, "jsonl")?;
    if name.ends_with(".answers") {
        let answers = fs::read_to_string(rt, name)?;
        return Ok(table::judge_answers(rt.alloc(), trace, answers)?);
    }
    let report = text_of(rt, example, "report")?;
    let is_planned = name.ends_with(".jsonl");
    Ok(table::judge_example(rt.alloc(), trace, report, is_planned)?)
}

fn judge_table(rt: &HostRuntime, name: &str) -> io::Result<Tally> {
    let text = fs::read_to_string(rt, name)?;
    Ok(table::judge(rt.alloc(), text.as_str())?)
}

// Judges the cases that an argument names, and prints what differs and how many there were.
fn judge(rt: &HostRuntime, name: &str) -> io::Result<()> {
    let tally = match example_of(name) {
        Some(example) => judge_example(rt, example, name)?,
        None => judge_table(rt, name)?,
    };
    print!(rt; "{}", tally.differences)?;
    println!(rt; "{name}: {} cases", tally.cases)
}

fn main(rt: HostRuntime) -> io::Result<()> {
    for name in env::args(&rt)?.skip(1) {
        match name.as_str() {
            "pictures.txt" => pictures::draw_all(&rt, "pictures.txt")?,
            name => judge(&rt, name)?,
        }
    }
    Ok(())
}
