// What the commands that tell of a run share.
ghost use Rattle.tetri_trace.specs.Scenario.{scenario};
ghost use Rattle.tetri_trace.specs.Sound.{IsSound};
ghost use Rattle.std.specs.Prelude.{IfOk};

use crate::builders::{Built, choice, flag, on_trace, report_word, with_word};
use crate::named::{Shelf, open_report, open_trace};
use crate::refusals::end_of;
use crate::said::{USAGE, complain, end, no_memory};
use clap::{Arg, ArgMatches};
use std::alloc::{AllocError, Global};
use tetri_accounts::{Account, account_policy, account_report};
use tetri_figures::{Bounds, Format, PricedSums};
use tetri_io::{StdSink, send_all};
use tetri_policy::Policy;
use tetri_priced::{BySearch, Noting, Wanted};
use tetri_run::{Status, check_seen, status_of};
use tetri_trace::{Trace, read_trace};

/// A run with its trace, and what is known of the bounds of its cycles.
#[derive(Drop)]
pub struct Run {
    pub trace: Trace,
    pub account: Account,
    pub bounds: Bounds,
}

/// The option that says how it is told.
pub fn format_word<'a>(alloc: Global) -> Arg<'a> {
    let words = &["table", "csv", "jsonl"];
    choice(alloc, "format", words, "how it is told [default: table]").value_name("FORMAT")
}

/// How it is told.
pub fn format_of(words: &ArgMatches<'_>) -> Format {
    match words.get_str("format") {
        Some("csv") => Format::Csv,
        Some("jsonl") => Format::Lines,
        _ => Format::Table,
    }
}

/// The option that names a policy, whose run of the trace is told in the place of a report.
pub fn policy_word<'a>(alloc: Global) -> Arg<'a> {
    let help = "the run of the trace by a policy, in the place of a report";
    choice(alloc, "policy", &["fcfs", "easy"], help).value_name("POLICY")
}

/// The option that asks for figures of the bounds that prices make.
pub fn prices_word<'a>(alloc: Global) -> Arg<'a> {
    flag(
        alloc,
        "prices",
        "the bounds of a report's cycles as prices of the nodes lower them, too",
    )
}

/// A command on a trace and the run of a report or of a policy.
pub fn on_run<'a>(alloc: Global, name: &'a str, about: &'a str, after: &'a str) -> Built<'a> {
    let command = on_trace(alloc, name, about, after);
    let command = with_word(command, report_word(alloc).required(false));
    with_word(command, policy_word(alloc))
}

/// The policy of a word.
pub fn policy_of(word: &str) -> Policy {
    if word == "fcfs" {
        Policy::FirstCome
    } else {
        Policy::Backfill
    }
}

/// The trace that is ready to be read. Where it is refused, that is said, and the error is the exit number.
pub fn kept_trace(rt: &HostRuntime, shelf: &mut Shelf<'_>, trace: &str) -> Result<Trace, u8>
    ensures { IfOk result (λ t. IsSound (scenario t)) }
{
    match read_trace(rt.alloc(), shelf, trace) {
        Ok(kept) => Ok(kept),
        Err(fault) => Err(end_of(rt, shelf, &status_of(fault), trace, "")),
    }
}

// The run of a trace by a policy.
fn policy_run(
    rt: &HostRuntime,
    shelf: &mut Shelf<'_>,
    trace: &str,
    policy: Policy,
) -> Result<Run, u8>
    ensures { IfOk result (λ r. IsSound (scenario r.trace)) }
{
    open_trace(rt, shelf, trace)?;
    let kept = kept_trace(rt, shelf, trace)?;
    match account_policy(rt.alloc(), &kept, policy) {
        Ok(account) => Ok(Run {
            trace: kept,
            account,
            bounds: Bounds::Absent,
        }),
        Err(AllocError) => Err(no_memory(rt)),
    }
}

// What prices make of the bounds of a report that can be read. Where it is refused, that is said, and the error is the exit number.
fn priced_bounds(
    rt: &HostRuntime,
    shelf: &mut Shelf<'_>,
    trace: &str,
    report: &str,
) -> Result<Bounds, u8> {
    let alloc = rt.alloc();
    let mut noting = Noting::new(alloc, Wanted::ALL, BySearch);
    match check_seen(alloc, trace, report, shelf, &mut noting) {
        Ok(_trace) => Ok(Bounds::Priced(PricedSums::of(noting.cycles()))),
        Err(status) => Err(end_of(rt, shelf, &status, trace, report)),
    }
}

/// The account of a report that is accepted, of a trace that is ready to be read, with what prices make of its bounds where that is asked
/// for. Where there is none, that is said, and the error is the exit number.
pub fn report_account(
    rt: &HostRuntime,
    shelf: &mut Shelf<'_>,
    trace: &str,
    report: &str,
    prices: bool,
) -> Result<Run, u8>
    ensures { IfOk result (λ r. IsSound (scenario r.trace)) }
{
    open_report(rt, shelf, report)?;
    let (kept, account) = match account_report(rt.alloc(), trace, report, shelf) {
        Ok(both) => both,
        Err(status) => return Err(end_of(rt, shelf, &status, trace, report)),
    };
    let bounds = if prices {
        priced_bounds(rt, shelf, trace, report)?
    } else {
        Bounds::Printed
    };
    Ok(Run {
        trace: kept,
        account,
        bounds,
    })
}

// The account of a report that is accepted. Where there is none, that is said, and the error is the exit number.
fn account_of(
    rt: &HostRuntime,
    shelf: &mut Shelf<'_>,
    trace: &str,
    report: &str,
    prices: bool,
) -> Result<Run, u8>
    ensures { IfOk result (λ r. IsSound (scenario r.trace)) }
{
    open_trace(rt, shelf, trace)?;
    report_account(rt, shelf, trace, report, prices)
}

/// The account of the report or of the policy that the words name, with what prices make of the bounds of a report where that is asked for.
/// Where there is none, that is said, and the error is the exit number.
pub fn account_in(
    rt: &HostRuntime,
    shelf: &mut Shelf<'_>,
    words: &ArgMatches<'_>,
    prices: bool,
) -> Result<Run, u8>
    ensures { IfOk result (λ r. IsSound (scenario r.trace)) }
{
    let trace = words.get_str("TRACE").unwrap_or("");
    match (words.get_str("REPORT"), words.get_str("policy")) {
        (Some(report), None) => account_of(rt, shelf, trace, report, prices),
        (None, Some(word)) => policy_run(rt, shelf, trace, policy_of(word)),
        _ => {
            complain(rt, trace, "either a report or a policy is told of");
            Err(USAGE)
        }
    }
}

/// Writes a text to standard output, and gives the exit number.
pub fn send(rt: &HostRuntime, text: Result<Vec<u8>, AllocError>) -> u8 {
    let status = match text {
        Ok(text) => {
            let mut sink = StdSink::new(rt.stdout());
            match send_all(&mut sink, &text) {
                Ok(()) => Status::Done,
                Err(_) => Status::WriteFault,
            }
        }
        Err(AllocError) => Status::NoMemory,
    };
    end(rt, &status, "", "")
}
