// `tetri_ctl orders TRACE REPORT`
use crate::builders::{Built, choice, flag, on_report, with_word};
use crate::named::{Shelf, open_both};
use crate::refusals::end_of;
use crate::said::{NO_MEMORY, REFUSED, complain, write_output};
use clap::ArgMatches;
use std::alloc::Global;
use tetri_queue::{Launches, OrderFault, OrderForm, orders_text};
use tetri_run::check_seen;

/// The words of the command.
pub fn command<'a>(alloc: Global) -> Built<'a> {
    let command = on_report(
        alloc,
        "orders",
        "Writes the launches of the last cycle of a report that is accepted, as commands or objects",
        "Example: tetri_ctl orders cycle.jsonl cycle.report --slurm",
    );
    let command = with_word(
        command,
        flag(alloc, "slurm", "as commands of Slurm, a line a job"),
    );
    with_word(
        command,
        choice(
            alloc,
            "format",
            &["jsonl"],
            "as objects, a line a job [default: jsonl]",
        ),
    )
}

// Says why there are no orders, and gives the exit number.
fn refuse(rt: &HostRuntime, trace: &str, fault: OrderFault) -> u8 {
    match fault {
        OrderFault::NoMemory => {
            complain(rt, trace, "out of memory");
            NO_MEMORY
        }
        OrderFault::NotOrder => {
            complain(
                rt,
                trace,
                "a job is launched whose name is no identifier of the manager",
            );
            REFUSED
        }
    }
}

// The orders of a report that can be read. Where there are none to write, the error is the exit number.
fn ordered(rt: &HostRuntime, trace: &str, report: &str, form: OrderForm) -> Result<String, u8> {
    let mut shelf = Shelf::new(rt.alloc(), rt);
    open_both(rt, &mut shelf, trace, report)?;
    let mut launches = Launches::new(rt.alloc());
    let kept = match check_seen(rt.alloc(), trace, report, &mut shelf, &mut launches) {
        Ok(kept) => kept,
        Err(status) => return Err(end_of(rt, &mut shelf, &status, trace, report)),
    };
    match orders_text(rt.alloc(), form, &kept, &launches) {
        Ok(text) => Ok(text),
        Err(fault) => Err(refuse(rt, trace, fault)),
    }
}

fn form_of(words: &ArgMatches<'_>) -> OrderForm {
    if words.get_flag("slurm") {
        OrderForm::Slurm
    } else {
        OrderForm::Json
    }
}

/// Writes the orders of what the words name, and gives the exit number.
pub fn run(rt: &HostRuntime, words: &ArgMatches<'_>) -> u8 {
    let trace = words.get_str("TRACE").unwrap_or("");
    let report = words.get_str("REPORT").unwrap_or("");
    match ordered(rt, trace, report, form_of(words)) {
        Ok(text) => match write_output(rt, text.as_bytes()) {
            Ok(()) => 0,
            Err(number) => number,
        },
        Err(number) => number,
    }
}
