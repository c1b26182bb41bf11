//! Times single calls of the libraries. The first argument names what is timed.
//!
//! `num SIZE` makes SIZE sums and SIZE products of fractions of each kind. `weigh FILE WEIGHTS ROUNDS` weighs the program of a file
//! of numbers (`programs`) in two ways. `dual KIND FILE` runs it over the dictionaries `full`, `sparse`, `whole` or `mirrored`.
//! `search TRACE` searches the program of a trace, and `tree TRACE` shows its tree. `each FILE ..` makes each of these calls in
//! a small size on programs and traces (`.jsonl`), and times none.
#![tactic(auto)]

mod dual;
mod fractions;
mod programs;
mod searches;
mod weighing;

use std::{env, fs, io};

fn number(word: &str) -> u32 {
    word.parse::<u32>().unwrap_or(0)
}

// Weighs the program of a file by so many weights, so often.
fn weigh(rt: &HostRuntime, file: &str, count: u32, rounds: u32, timed: bool) -> io::Result<()> {
    let text = fs::read_to_string(rt, file)?;
    match programs::program_in(rt.alloc(), text.as_str())? {
        Some(p) => weighing::weigh_both(rt, rt.alloc(), &p, count, rounds, timed),
        None => eprintln!(rt; "{file}: not fit"),
    }
}

// Runs the program of a file over dictionaries of a kind.
fn run_dual(rt: &HostRuntime, kind: &str, file: &str, timed: bool) -> io::Result<()> {
    let text = fs::read_to_string(rt, file)?;
    match programs::program_in(rt.alloc(), text.as_str())? {
        Some(p) => dual::run_one(rt, rt.alloc(), &p, kind, timed),
        None => eprintln!(rt; "{file}: not fit"),
    }
}

// What is made of a program or of a trace, once and not timed.
fn try_file(rt: &HostRuntime, file: &str) -> io::Result<()> {
    println!(rt; "{file}")?;
    if file.ends_with(".jsonl") {
        return searches::show(rt, rt.alloc(), file, false);
    }
    weigh(rt, file, 4, 1, false)?;
    for kind in &dual::KINDS {
        run_dual(rt, kind, file, false)?;
    }
    Ok(())
}

fn try_each(rt: &HostRuntime, files: &[String]) -> io::Result<()> {
    fractions::add_two(rt)?;
    for file in files {
        try_file(rt, file.as_str())?;
    }
    Ok(())
}

// Weighs the program of a file by the weights and rounds that words say.
fn time_weighing(rt: &HostRuntime, file: &str, weights: &str, rounds: &str) -> io::Result<()> {
    weigh(rt, file, number(weights), number(rounds), true)
}

fn show_search(rt: &HostRuntime, trace: &str, timed: bool) -> io::Result<()> {
    searches::show(rt, rt.alloc(), trace, timed)
}

fn show_usage(rt: &HostRuntime) -> io::Result<()> {
    eprintln!(rt; "usage: tetri_bench each|num|weigh|dual|search|tree ARGUMENT ..")
}

// What is timed of one argument.
fn time_one(rt: &HostRuntime, what: &str, argument: &str) -> io::Result<()> {
    match what {
        "num" => fractions::measure(rt, rt.alloc(), u64::from(number(argument))),
        "search" => show_search(rt, argument, true),
        "tree" => show_search(rt, argument, false),
        _ => show_usage(rt),
    }
}

// What is timed of the arguments behind the first one.
fn time_words(rt: &HostRuntime, what: &str, arguments: &[String]) -> io::Result<()> {
    match (what, arguments) {
        ("dual", [kind, file]) => run_dual(rt, kind.as_str(), file.as_str(), true),
        ("weigh", [file, weights, rounds]) => {
            time_weighing(rt, file.as_str(), weights.as_str(), rounds.as_str())
        }
        (_, [argument]) => time_one(rt, what, argument.as_str()),
        _ => show_usage(rt),
    }
}

fn main(rt: HostRuntime) -> io::Result<()> {
    let words: Vec<String> = env::args(&rt)?.skip(1).collect(rt.alloc())?;
    match words.as_slice() {
        [what, files @ ..] if what.as_str() == "each" => try_each(&rt, files),
        [what, arguments @ ..] => time_words(&rt, what.as_str(), arguments),
        [] => show_usage(&rt),
    }
}
