// What the search finds.
ghost use Rattle.std.specs.Prelude.{IfOk, IfSome};
ghost use Rattle.tetri_space.specs.Sound.{IsSound as IsSoundSpace};
ghost use Rattle.tetri_space.specs.Space.{space};
ghost use Rattle.tetri_trace.specs.Scenario.{scenario};
ghost use Rattle.tetri_trace.specs.Sound.{IsSound};

use std::alloc::{AllocError, Global};
use tetri_lagrange::{UNIT, search};
use tetri_prices::{capacities_of, priced_bound};
use tetri_space::{Instance, find_partitions, lawful, total};
use tetri_state::State;
use tetri_tables::{Given, Tally, answer};
use tetri_trace::Trace;

// The instance of slot 0, if the run has one.
fn first_instance(alloc: Global, trace: &Trace) -> Result<Option<Instance>, AllocError>
    requires { IsSound (scenario trace.now) }
    ensures { IfOk result (λ o. IfSome o (λ i. IsSoundSpace (space i))) }
{
    let mut state = State::open(alloc, trace)?;
    if trace.header.until <= state.now() {
        return Ok(None);
    }
    let _happened = state.begin_cycle(alloc, trace)?;
    Ok(Some(state.instance(alloc, trace)?))
}

// The worth of the plan, whether it is lawful, and the bound of the prices.
fn told(alloc: Global, inst: &Instance) -> Result<String, AllocError>
    requires { IsSoundSpace (space inst.now) }
{
    let parts = find_partitions(alloc, inst)?;
    let capacities = capacities_of(alloc, inst, &parts)?;
    let found = search(alloc, inst, &parts, &[], 0)?;
    let bound = priced_bound(alloc, inst, &parts, &capacities, &found.prices, UNIT)?;
    let value = total(inst, &found.plan);
    let kind = match lawful(inst, &found.plan) {
        Ok(()) => "lawful",
        Err(_) => "unlawful",
    };
    format!(in alloc; "{kind}, worth {value} of at most {bound}")
}

fn told_first(alloc: Global, trace: &Trace) -> Result<String, AllocError>
    requires { IsSound (scenario trace.now) }
{
    match first_instance(alloc, trace)? {
        Some(inst) => told(alloc, &inst),
        None => String::from_str(alloc, "no slot"),
    }
}

fn told_in(alloc: Global, content: &[u8]) -> Result<String, AllocError> {
    match answer(alloc, content)? {
        Ok(trace) => told_first(alloc, &trace),
        Err(_) => String::from_str(alloc, "a bad trace"),
    }
}

/// What is found for the first slot of the trace.
pub fn found(
    alloc: Global,
    given: &Given,
    tally: &mut Tally,
    body: &str,
) -> Result<(), AllocError> {
    let found = told_in(alloc, given.trace.as_bytes())?;
    tally.expect("found", found.as_str(), body)
}
