//! `tetri_ctl COMMAND ..`: what people use around `tetri`. Each command reads files, pipes or standard input, writes to standard
//! output, and says on standard error what is wrong with which of them.
#![tactic(auto)]

mod accounted;
mod advisors;
mod asked;
mod bound;
mod builders;
mod chart;
mod check;
mod compare;
mod delays;
mod export;
mod import;
mod jobs;
mod lint;
mod named;
mod orders;
mod plan;
mod queue;
mod refusals;
mod said;
mod stats;

use builders::{Built, with_command};
use clap::error::ErrorKind;
use clap::{ArgMatches, Command, Error};
use said::{USAGE, WRITE_FAULT};
use std::alloc::Global;
use std::process::ExitCode;
use std::{env, io};
use tetri_about::VERSION;

// The words of the command line.
fn words<R: env::Env + AllocGlobal>(rt: &R) -> io::Result<Vec<String>> {
    env::args(rt)?.collect(rt.alloc()).map_err(io::Error::from)
}

// The program, without its commands.
fn program<'a>(alloc: Global) -> Built<'a> {
    let program = Command::new(alloc, "tetri_ctl")
        .bin_name("tetri_ctl")?
        .about(
            "What people use around tetri: plans, checks, imports, pictures, accounts, bounds, exports, lint, queues",
        )
        .version(VERSION)
        .propagate_version(true)
        .subcommand_required(true)
        .arg_required_else_help(true)
        .after_help("In the place of a file - is standard input. Read on: docs/CTL.md");
    Ok(program)
}

// With the commands that plan, check, import and draw.
fn with_plans<'a>(alloc: Global, program: Built<'a>) -> Built<'a> {
    let program = with_command(program, plan::command(alloc));
    let program = with_command(program, check::command(alloc));
    let program = with_command(program, import::command(alloc));
    with_command(program, chart::command(alloc))
}

// With the commands that tell of runs.
fn with_accounts<'a>(alloc: Global, program: Built<'a>) -> Built<'a> {
    let program = with_command(program, jobs::command(alloc));
    let program = with_command(program, stats::command(alloc));
    let program = with_command(program, compare::command(alloc));
    with_command(program, bound::command(alloc))
}

// With the commands around other solvers and resource managers.
fn with_others<'a>(alloc: Global, program: Built<'a>) -> Built<'a> {
    let program = with_command(program, export::command(alloc));
    let program = with_command(program, lint::command(alloc));
    let program = with_command(program, queue::command(alloc));
    with_command(program, orders::command(alloc))
}

// The command line.
fn command<'a>(alloc: Global) -> Built<'a> {
    let program = with_plans(alloc, program(alloc));
    with_others(alloc, with_accounts(alloc, program))
}

// Whether a word stands for standard input, by itself or as the value of an option.
fn is_input(word: &str) -> bool {
    word == "-" || word.ends_with("=-")
}

// Whether two words stand for standard input.
fn is_input_named_twice(words: &[String]) -> bool {
    words.iter().filter(|word| is_input(word.as_str())).count() > 1
}

// What the words are read as. Standard input is named once at most.
fn read_words<'a>(alloc: Global, words: &'a [String]) -> Result<ArgMatches<'a>, Error> {
    let mut command = command(alloc)?;
    let matches = command.try_get_matches_from_mut(words)?;
    if is_input_named_twice(words) {
        let twice = "standard input, '-', is named twice";
        return Err(command.error(ErrorKind::ArgumentConflict, twice)?);
    }
    Ok(matches)
}

// Does what the words ask for, and gives the exit number.
fn run(rt: &HostRuntime, matches: &ArgMatches<'_>) -> u8 {
    match matches.subcommand() {
        Some(("plan", inner)) => plan::run(rt, inner),
        Some(("check", inner)) => check::run(rt, inner),
        Some(("import", inner)) => import::run(rt, inner),
        Some(("chart", inner)) => chart::run(rt, inner),
        Some(("jobs", inner)) => jobs::run(rt, inner),
        Some(("stats", inner)) => stats::run(rt, inner),
        Some(("compare", inner)) => compare::run(rt, inner),
        Some(("bound", inner)) => bound::run(rt, inner),
        Some(("export", inner)) => export::run(rt, inner),
        Some(("lint", inner)) => lint::run(rt, inner),
        Some(("queue", inner)) => queue::run(rt, inner),
        Some(("orders", inner)) => orders::run(rt, inner),
        _ => USAGE,
    }
}

// Prints a help, a version or what is wrong with the words, and gives the exit number.
fn refuse(rt: &HostRuntime, error: &Error) -> u8 {
    match error.print(rt) {
        Ok(()) => error.exit_code() as u8,
        Err(_) => WRITE_FAULT,
    }
}

fn main(rt: HostRuntime) -> ExitCode {
    let words = match words(&rt) {
        Ok(words) => words,
        Err(error) => return ExitCode::from(said::words_fault(&rt, &error)),
    };
    let number = match read_words(rt.alloc(), words.as_slice()) {
        Ok(matches) => run(&rt, &matches),
        Err(error) => refuse(&rt, &error),
    };
    ExitCode::from(number)
}
