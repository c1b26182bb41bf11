// `tetri_ctl compare TRACE REPORT..`
ghost use Rattle.std.specs.Prelude.{IfOk};
ghost use Rattle.tetri_trace.specs.Scenario.{scenario};
ghost use Rattle.tetri_trace.specs.Sound.{IsSound};

use crate::accounted::{
    format_of, format_word, kept_trace, policy_of, policy_word, prices_word, report_account, send,
};
use crate::builders::{Built, on_trace, with_word};
use crate::named::{Shelf, open_trace};
use crate::said::{USAGE, complain, no_memory};
use clap::{Arg, ArgAction, ArgMatches};
use std::alloc::{AllocError, Global};
use tetri_accounts::{Account, account_policy};
use tetri_figures::{Bounds, Compared, compare_text, slot_seconds_of};
use tetri_trace::Trace;

// The word that names reports.
fn reports_word<'a>(alloc: Global) -> Arg<'a> {
    Arg::new(alloc, "REPORT")
        .num_args(1..)
        .help("reports of the trace, files, one perhaps -")
}

/// The words of the command.
pub fn command<'a>(alloc: Global) -> Built<'a> {
    let command = on_trace(
        alloc,
        "compare",
        "Tells figures of several runs of one trace, and which jobs start at other times",
        "Example: tetri_ctl compare day.jsonl day.report --policy fcfs --policy easy",
    );
    let command = with_word(command, reports_word(alloc));
    let command = with_word(command, policy_word(alloc).action(ArgAction::Append));
    let command = with_word(command, prices_word(alloc));
    with_word(command, format_word(alloc))
}

// Puts an account with its name to the others.
fn put(
    alloc: Global,
    name: &str,
    account: Account,
    bounds: Bounds,
    runs: &mut Vec<Compared>,
) -> Result<(), AllocError> {
    let name = String::from_str(alloc, name)?;
    runs.push(Compared {
        name,
        account,
        bounds,
    })?;
    Ok(())
}

// Puts the account of a report to the others.
fn put_report(
    rt: &HostRuntime,
    shelf: &mut Shelf<'_>,
    trace: &str,
    report: &str,
    prices: bool,
    runs: &mut Vec<Compared>,
) -> Result<(), u8> {
    let run = report_account(rt, shelf, trace, report, prices)?;
    match put(rt.alloc(), report, run.account, run.bounds, runs) {
        Ok(()) => Ok(()),
        Err(AllocError) => Err(no_memory(rt)),
    }
}

// Puts the account of the run by a policy to the others.
fn put_policy(
    alloc: Global,
    trace: &Trace,
    word: &str,
    runs: &mut Vec<Compared>,
) -> Result<(), AllocError>
    requires { IsSound (scenario trace.now) }
{
    let account = account_policy(alloc, trace, policy_of(word))?;
    put(alloc, word, account, Bounds::Absent, runs)
}

// Puts the accounts of the runs by policies to the others.
fn put_policies(
    alloc: Global,
    trace: &Trace,
    words: &[&str],
    runs: &mut Vec<Compared>,
) -> Result<(), AllocError>
    requires { IsSound (scenario trace.now) }
{
    for word in words {
        put_policy(alloc, trace, word, runs)?;
    }
    Ok(())
}

// The accounts of the reports of a trace, which is read with each.
fn accounts_of(
    rt: &HostRuntime,
    shelf: &mut Shelf<'_>,
    trace: &str,
    reports: &[&str],
    prices: bool,
) -> Result<Vec<Compared>, u8> {
    let mut runs = Vec::new(rt.alloc());
    for report in reports {
        put_report(rt, shelf, trace, report, prices, &mut runs)?;
    }
    Ok(runs)
}

// A trace, how many seconds its slots have, if that is known, and accounts of its runs.
#[derive(Drop)]
struct Runs {
    trace: Trace,
    slot_seconds: Option<u64>,
    runs: Vec<Compared>,
}

// The trace, and the accounts of the reports.
fn reported(rt: &HostRuntime, trace: &str, reports: &[&str], prices: bool) -> Result<Runs, u8>
    ensures { IfOk result (λ r. IsSound (scenario r.trace)) }
{
    let mut shelf = Shelf::new(rt.alloc(), rt);
    open_trace(rt, &mut shelf, trace)?;
    let kept = kept_trace(rt, &mut shelf, trace)?;
    let runs = accounts_of(rt, &mut shelf, trace, reports, prices)?;
    match slot_seconds_of(rt.alloc(), &mut shelf, trace) {
        Ok(slot_seconds) => Ok(Runs {
            trace: kept,
            slot_seconds,
            runs,
        }),
        Err(AllocError) => Err(no_memory(rt)),
    }
}

// The text of the accounts and of those of the runs by policies.
fn text_of(
    alloc: Global,
    reported: Runs,
    policies: &[&str],
    words: &ArgMatches<'_>,
) -> Result<Vec<u8>, AllocError>
    requires { IsSound (scenario reported.trace) }
{
    let Runs {
        trace,
        slot_seconds,
        mut runs,
    } = reported;
    put_policies(alloc, &trace, policies, &mut runs)?;
    compare_text(
        alloc,
        &trace,
        slot_seconds,
        runs.as_slice(),
        format_of(words),
    )
}

// Tells of the reports and of the policies, as the words ask, and gives the exit number.
fn tell(
    rt: &HostRuntime,
    trace: &str,
    reports: &[&str],
    policies: &[&str],
    words: &ArgMatches<'_>,
) -> u8 {
    match reported(rt, trace, reports, words.get_flag("prices")) {
        Ok(reported) => send(rt, text_of(rt.alloc(), reported, policies, words)),
        Err(number) => number,
    }
}

/// Tells of what the words name, and gives the exit number.
pub fn run(rt: &HostRuntime, words: &ArgMatches<'_>) -> u8 {
    let trace = words.get_str("TRACE").unwrap_or("");
    let reports = words.get_strs("REPORT").unwrap_or(&[]);
    let policies = words.get_strs("policy").unwrap_or(&[]);
    if reports.is_empty() && policies.is_empty() {
        complain(rt, trace, "neither a report nor a policy is named");
        return USAGE;
    }
    tell(rt, trace, reports, policies, words)
}
