// Reports of one cycle that are read as a whole, and judged.
ghost use Rattle.std.specs.Prelude.{◌+◌, ◌≤◌};
ghost use Rattle.tetri_state.specs.Reached as moment;
ghost use Rattle.tetri_state.specs.Reached.{IsReached};
ghost use Rattle.tetri_trace.specs.Scenario.{scenario};
ghost use Rattle.tetri_trace.specs.Sound.{IsSound};

use crate::readings::reports::fed;
use std::alloc::{AllocError, Global};
use tetri_judge::{Verdict, judge};
use tetri_report::{Blocks, Cycle};
use tetri_space::total;
use tetri_state::State;
use tetri_tables::{Given, Tally, answer, debug_text};
use tetri_trace::Trace;

// Takes a line more, and keeps the cycle that it ends; false where it is refused.
fn takes(trace: &Trace, blocks: &mut Blocks, last: &mut Option<Cycle>, line: &str) -> bool
    requires { blocks.old.lines ≤ 100000 }
    ensures { blocks.new.lines ≤ blocks.old.lines + 1 }
{
    match fed(trace, blocks, line) {
        Ok(Some(cycle)) => {
            *last = Some(cycle);
            true
        }
        Ok(None) => true,
        Err(_) => false,
    }
}

// The last cycle of a report, if the report is read to its end.
fn cycle_of(alloc: Global, trace: &Trace, report: &str) -> Option<Cycle> {
    let mut blocks = Blocks::new(alloc);
    let mut last: Option<Cycle> = None;
    let mut count = 0u64;
    for line in report.lines() {
        if count == 100_000 {
            return None;
        }
        count += 1;
        if !takes(trace, &mut blocks, &mut last, line) {
            return None;
        }
    }
    match blocks.finish() {
        Ok(_) => last,
        Err(_) => None,
    }
}

// The verdict on the plan of a cycle in the slot in which the run stands, if it is one of the trace.
fn verdict_on(
    alloc: Global,
    trace: &Trace,
    state: &mut State,
    cycle: &Cycle,
) -> Result<Option<Result<(), Verdict>>, AllocError>
    requires sound { IsSound (scenario trace.now) }
    requires reached { IsReached (scenario trace.now) moment.between state.old }
{
    if trace.header.until <= state.now() {
        return Ok(None);
    }
    let _happened = state.begin_cycle(alloc, trace)?;
    let inst = state.instance(alloc, trace)?;
    let carry = state.carry(alloc, trace, &inst)?;
    let least = total(&inst, &carry);
    Ok(Some(judge(alloc, &inst, least, trace.header.budget, cycle)))
}

// The same in the first slot of the trace.
fn first_verdict(
    alloc: Global,
    trace: &Trace,
    cycle: &Cycle,
) -> Result<Option<Result<(), Verdict>>, AllocError>
    requires { IsSound (scenario trace.now) }
{
    let mut state = State::open(alloc, trace)?;
    verdict_on(alloc, trace, &mut state, cycle)
}

fn verdict_told(alloc: Global, verdict: Option<Result<(), Verdict>>) -> Result<String, AllocError> {
    match verdict {
        Some(verdict) => debug_text(alloc, &verdict),
        None => String::from_str(alloc, "no slot"),
    }
}

fn expect_verdict(
    alloc: Global,
    tally: &mut Tally,
    trace: &Trace,
    report: &str,
    wanted: &str,
) -> Result<(), AllocError>
    requires { IsSound (scenario trace.now) }
{
    let Some(cycle) = cycle_of(alloc, trace, report) else {
        return tally.expect("a report", "refused", "read");
    };
    let verdict = first_verdict(alloc, trace, &cycle)?;
    let found = verdict_told(alloc, verdict)?;
    tally.expect("a report", found.as_str(), wanted)
}

/// The verdict on the plan of the report's cycle, in the first slot of the trace.
pub fn judged(
    alloc: Global,
    given: &Given,
    tally: &mut Tally,
    wanted: &str,
) -> Result<(), AllocError> {
    match answer(alloc, given.trace.as_bytes())? {
        Ok(trace) => expect_verdict(alloc, tally, &trace, given.report.as_str(), wanted),
        Err(_) => tally.expect("a trace", "refused", "read"),
    }
}
