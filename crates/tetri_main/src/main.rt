//! `tetri plan TRACE` plans the trace in a file and writes its report to standard output. `tetri check TRACE REPORT` checks a report
//! in a file against its trace. `tetri load N` writes the summary of the run of a trace that is made from the number N. Two advisors
//! suggest grants in each cycle that is planned: one that serves the jobs by their deadlines, and then one that serves them by worth.
//! `tetri --help` and `tetri --version` tell of the program itself.
#![tactic(auto)]

use std::alloc::AllocError;
use std::process::ExitCode;
use std::{env, io};
use tetri_about::{HELP, Itself, VERSION, asked_of_itself};
use tetri_advice::{Advisor, Panel};
use tetri_greedy::{ByDeadline, ByWorth};
use tetri_io::{Failed, FileShelf, StdSink, send_all};
use tetri_run::{Status, conclude, run, status_of_words};

// The words behind the program's name.
fn words<R: env::Env + AllocGlobal>(rt: &R) -> io::Result<Vec<String>> {
    env::args(rt)?
        .skip(1)
        .collect(rt.alloc())
        .map_err(io::Error::from)
}

// Seats the advisors, and does what the words ask for. Its only error is want of memory for a seat.
fn seat_and_run(rt: &HostRuntime, words: &[String]) -> Result<Status, AllocError> {
    let by_deadline: Box<dyn Advisor> = Box::new(rt.alloc(), ByDeadline::new())?;
    let by_worth: Box<dyn Advisor> = Box::new(rt.alloc(), ByWorth::new())?;
    let mut panel = Panel::new(rt.alloc());
    if panel.seat(by_deadline).is_err() || panel.seat(by_worth).is_err() {
        return Err(AllocError);
    }
    let mut shelf = FileShelf::new(rt);
    let mut sink = StdSink::new(rt.stdout());
    Ok(run(rt.alloc(), words, &mut shelf, &mut sink, &mut panel))
}

// Tells of the program itself.
fn tell(rt: &HostRuntime, of: Itself) -> Result<(), Failed> {
    let mut sink = StdSink::new(rt.stdout());
    match of {
        Itself::Help => send_all(&mut sink, HELP.as_bytes()),
        Itself::Version => {
            send_all(&mut sink, b"tetri ")?;
            send_all(&mut sink, VERSION.as_bytes())?;
            send_all(&mut sink, b"\n")
        }
    }
}

// Does what the words ask for.
fn answer_words(rt: &HostRuntime, words: &[String]) -> Status {
    match asked_of_itself(words) {
        Some(of) => match tell(rt, of) {
            Ok(()) => Status::Done,
            Err(Failed) => Status::WriteFault,
        },
        None => match seat_and_run(rt, words) {
            Ok(status) => status,
            Err(AllocError) => Status::NoMemory,
        },
    }
}

// Reads the words, and does what they ask for.
fn answer(rt: &HostRuntime) -> Status {
    match words(rt) {
        Ok(words) => answer_words(rt, &words),
        Err(error) => status_of_words(error.kind()),
    }
}

fn main(rt: HostRuntime) -> ExitCode {
    let status = answer(&rt);
    let mut errors = StdSink::new(rt.stderr());
    ExitCode::from(conclude(rt.alloc(), &status, &mut errors))
}
