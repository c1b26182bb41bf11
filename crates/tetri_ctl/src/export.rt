// `tetri_ctl export TRACE [REPORT] --cycle N`
ghost use Rattle.tetri_trace.specs.Scenario.{scenario};
ghost use Rattle.tetri_trace.specs.Sound.{IsSound};

use crate::advisors::seat;
use crate::builders::{Built, choice, number, on_trace, report_word, with_word};
use crate::named::{Shelf, open_both, open_trace};
use crate::refusals::end_of;
use crate::said::{REFUSED, USAGE, complain, end, shown, too_large};
use clap::{Arg, ArgMatches};
use std::alloc::{AllocError, Global};
use tetri_advice::{Advisor, Panel};
use tetri_export::Format;
use tetri_greedy::{ByDeadline, ByWorth};
use tetri_io::{StdSink, send_all};
use tetri_notice::TraceFault;
use tetri_programs::{Exported, export_cycle, export_report};
use tetri_run::{Status, status_of};
use tetri_trace::{Trace, read_trace};

// The word that names a report, where its run is exported.
fn run_word<'a>(alloc: Global) -> Arg<'a> {
    report_word(alloc)
        .required(false)
        .help("the report whose run it is, a file or -")
}

// The option that names the cycle.
fn cycle_word<'a>(alloc: Global) -> Arg<'a> {
    number(alloc, "cycle", "N", "the cycle whose program is written").required(true)
}

/// The words of the command.
pub fn command<'a>(alloc: Global) -> Built<'a> {
    let command = on_trace(
        alloc,
        "export",
        "Writes the integer program of a cycle of a run, for other solvers",
        "Example: tetri_ctl export day.jsonl --cycle 7 > day7.lp",
    );
    let command = with_word(command, run_word(alloc));
    let command = with_word(command, cycle_word(alloc));
    with_word(
        command,
        choice(
            alloc,
            "format",
            &["lp", "mps"],
            "how it is written [default: lp]",
        ),
    )
}

// The format that the words ask for.
fn format_of(words: &ArgMatches<'_>) -> Format {
    match words.get_str("format") {
        Some("mps") => Format::Mps,
        _ => Format::Lp,
    }
}

// The program of a cycle of a trace. The two shipped advisors are asked in the cycles before it.
fn seat_and_export(
    alloc: Global,
    trace: &Trace,
    cycle: u32,
    format: Format,
) -> Result<Exported, AllocError>
    requires { IsSound (scenario trace.now) }
{
    let mut panel = Panel::new(alloc);
    let by_deadline: Box<dyn Advisor> = Box::new(alloc, ByDeadline::new())?;
    seat(&mut panel, by_deadline)?;
    let by_worth: Box<dyn Advisor> = Box::new(alloc, ByWorth::new())?;
    seat(&mut panel, by_worth)?;
    export_cycle(alloc, trace, cycle, format, &mut panel)
}

// The same of the trace that a name tells, if that can be read.
fn read_and_export(
    rt: &HostRuntime,
    shelf: &mut Shelf<'_>,
    name: &str,
    cycle: u32,
    format: Format,
) -> Result<Result<Exported, TraceFault>, AllocError> {
    let trace = match read_trace(rt.alloc(), shelf, name) {
        Ok(trace) => trace,
        Err(fault) => return Ok(Err(fault)),
    };
    let exported = seat_and_export(rt.alloc(), &trace, cycle, format)?;
    Ok(Ok(exported))
}

// The program of a cycle of a plan, or how it ends without one.
fn planned(
    rt: &HostRuntime,
    shelf: &mut Shelf<'_>,
    name: &str,
    cycle: u32,
    format: Format,
) -> Result<Exported, Status> {
    match read_and_export(rt, shelf, name, cycle, format) {
        Ok(Ok(exported)) => Ok(exported),
        Ok(Err(fault)) => Err(status_of(fault)),
        Err(AllocError) => Err(Status::NoMemory),
    }
}

// The letters at most of a name in a comment, since readers limit the length of a line.
const NAME_MOST: usize = 200;

// A comment that names the trace. What is no letter, digit or mark of ASCII in its name is a question mark.
fn head_of(alloc: Global, format: Format, trace: &str) -> Result<String, AllocError> {
    let mark = match format {
        Format::Lp => '\\',
        Format::Mps => '*',
    };
    let mut head = format!(in alloc; "{mark} trace ")?;
    for letter in shown(trace).chars().take(NAME_MOST) {
        let is_plain = letter.is_ascii_graphic() || letter == ' ';
        head.push(if is_plain { letter } else { '?' })?;
    }
    head.push('\n')?;
    Ok(head)
}

// Writes a program behind a comment that names its trace.
fn write_text(rt: &HostRuntime, format: Format, trace: &str, text: &str) -> Status {
    let Ok(head) = head_of(rt.alloc(), format, trace) else {
        return Status::NoMemory;
    };
    let mut sink = StdSink::new(rt.stdout());
    for part in [head.as_str(), text] {
        if send_all(&mut sink, part.as_bytes()).is_err() {
            return Status::WriteFault;
        }
    }
    Status::Done
}

// Writes what there is of a cycle of the run that a name tells, or says why there is nothing, and gives the exit number.
fn written(rt: &HostRuntime, format: Format, trace: &str, name: &str, exported: &Exported) -> u8 {
    match exported {
        Exported::Text(text) => {
            let status = write_text(rt, format, trace, text.as_str());
            end(rt, &status, name, "")
        }
        Exported::Wide { columns, rows } => {
            too_large(rt, name, *columns, *rows);
            REFUSED
        }
        Exported::NoCycle => {
            complain(rt, name, "the run has no such cycle");
            USAGE
        }
    }
}

// Exports a cycle of a plan of a trace, and gives the exit number.
fn run_plan(rt: &HostRuntime, trace: &str, cycle: u32, format: Format) -> u8 {
    let mut shelf = Shelf::new(rt.alloc(), rt);
    if let Err(number) = open_trace(rt, &mut shelf, trace) {
        return number;
    }
    match planned(rt, &mut shelf, trace, cycle, format) {
        Ok(exported) => written(rt, format, trace, trace, &exported),
        Err(status) => end_of(rt, &mut shelf, &status, trace, ""),
    }
}

// Exports a cycle of the run of a report, and gives the exit number.
fn run_report(rt: &HostRuntime, trace: &str, report: &str, cycle: u32, format: Format) -> u8 {
    let mut shelf = Shelf::new(rt.alloc(), rt);
    if let Err(number) = open_both(rt, &mut shelf, trace, report) {
        return number;
    }
    match export_report(rt.alloc(), trace, report, cycle, format, &mut shelf) {
        Ok(exported) => written(rt, format, trace, report, &exported),
        Err(status) => end_of(rt, &mut shelf, &status, trace, report),
    }
}

/// Exports what the words name, and gives the exit number.
pub fn run(rt: &HostRuntime, words: &ArgMatches<'_>) -> u8 {
    let trace = words.get_str("TRACE").unwrap_or("");
    let cycle = words.get_one::<u32>("cycle").unwrap_or(0);
    let format = format_of(words);
    match words.get_str("REPORT") {
        Some(report) => run_report(rt, trace, report, cycle, format),
        None => run_plan(rt, trace, cycle, format),
    }
}
