//! Tries the cases of the tables that its arguments name, on the values of libraries, and prints what differs and how many cases
//! there were. Tables are as those of tetri_cases; the README lists the kinds of sections. Some cases whose values no text says
//! stand in the code. `files.txt` is a table of files that are read through a shelf.
#![tactic(auto)]

mod answers;
mod cuts;
mod cycles;
mod expressions;
mod fractions;
mod instances;
mod node_sets;
mod parts;
mod prices;
mod programs;
mod readings;
mod runs_of_programs;
mod table;
mod texts;
mod unaligned;

use std::alloc::AllocError;
use std::{env, fs, io};
use tetri_tables::Tally;

// Judges the table of this name.
fn judge(rt: &HostRuntime, name: &str, text: &str) -> Result<Tally, AllocError> {
    match name {
        "files.txt" => texts::judge_files(rt.alloc(), rt, text),
        _ => table::judge(rt.alloc(), text),
    }
}

// Judges a table, and prints what differs and how many cases there were.
fn judge_file(rt: &HostRuntime, name: &str) -> io::Result<()> {
    let text = fs::read_to_string(rt, name)?;
    let tally = judge(rt, name, text.as_str())?;
    print!(rt; "{}", tally.differences)?;
    println!(rt; "{name}: {} cases", tally.cases)
}

fn main(rt: HostRuntime) -> io::Result<()> {
    for name in env::args(&rt)?.skip(1) {
        judge_file(&rt, name.as_str())?;
    }
    Ok(())
}
