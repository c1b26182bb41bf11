//! Tries the cases of the tables that its arguments name, on what stands around the core, and prints what differs and how many cases
//! there were. A table is named after what it tries, up to the first `-` or `.` of its name.
#![tactic(auto)]

mod accounts;
mod delay;
mod export;
mod lint;
mod panels;
mod policies;
mod prices;
mod queue;
mod swift;

use std::alloc::{AllocError, Global};
use std::{env, fs, io};
use tetri_tables::Tally;

// What the cases of a table try.
#[derive(Clone, Copy)]
enum Kind {
    Accounts,
    Delay,
    Export,
    Lint,
    Policies,
    Prices,
    Queue,
    Swift,
}

// What a table of this name tries, if it tries anything.
fn kind_of(name: &str) -> Option<Kind> {
    match name.split(['-', '.']).next().unwrap_or("") {
        "accounts" => Some(Kind::Accounts),
        "delay" => Some(Kind::Delay),
        "export" => Some(Kind::Export),
        "lint" => Some(Kind::Lint),
        "policies" => Some(Kind::Policies),
        "prices" => Some(Kind::Prices),
        "queue" => Some(Kind::Queue),
        "swift" => Some(Kind::Swift),
        _ => None,
    }
}

// Judges the cases of a table.
fn judge(alloc: Global, kind: Kind, text: &str) -> Result<Tally, AllocError> {
    match kind {
        Kind::Accounts => accounts::judge(alloc, text),
        Kind::Delay => delay::judge(alloc, text),
        Kind::Export => export::judge(alloc, text),
        Kind::Lint => lint::judge(alloc, text),
        Kind::Policies => policies::judge(alloc, text),
        Kind::Prices => prices::judge(alloc, text),
        Kind::Queue => queue::judge(alloc, text),
        Kind::Swift => swift::judge(alloc, text),
    }
}

fn print_tally(rt: &HostRuntime, name: &str, tally: &Tally) -> io::Result<()> {
    print!(rt; "{}", tally.differences)?;
    println!(rt; "{name}: {} cases", tally.cases)
}

// Judges a file, and prints what differs and how many cases there were.
fn judge_file(rt: &HostRuntime, name: &str) -> io::Result<()> {
    let text = fs::read_to_string(rt, name)?;
    match kind_of(name) {
        Some(kind) => print_tally(rt, name, &judge(rt.alloc(), kind, text.as_str())?),
        None => println!(rt; "{name}: nothing is tried by this name"),
    }
}

fn main(rt: HostRuntime) -> io::Result<()> {
    for name in env::args(&rt)?.skip(1) {
        judge_file(&rt, name.as_str())?;
    }
    Ok(())
}
