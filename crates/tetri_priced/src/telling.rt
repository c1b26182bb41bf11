// What is told of the cycles of a run.
ghost use Rattle.std.specs.Prelude.{◌≡◌, ◌≤◌, ◌<◌, ◌+◌, ◌-◌, ◌^◌, ◌++◌, ◌==◌, flat_map, length, IfOk, OnOk, string_bytes};
ghost use Rattle.tetri_base.specs.Lists.{bit};
ghost use Rattle.tetri_priced.specs.Text.{bound_in, cycle_text, optimal_in, priced_in, priced_text, totals_text, value_in};
ghost use Rattle.tetri_trace.specs.Scenario.{scenario};

use crate::cycle::PricedCycle;
use crate::lines::{add_cycle, add_totals_line};
use std::alloc::{AllocError, Global};
use tetri_trace::Trace;

// The numbers of cycles, added up.
#[derive(Clone, Copy, Debug)]
struct Totals {
    cycles: usize,
    optimal: usize,
    value: u128,
    bound: u128,
    priced: u128,
}

// 1 where prices show that the plan of a cycle is optimal, else 0.
fn optimal_count(cycle: &PricedCycle) -> usize
    ensures { result ≡ bit (cycle.now.value == cycle.now.priced) }
{
    if cycle.value == cycle.priced { 1 } else { 0 }
}

// A sum with one number more.
fn plus(sum: u128, more: u64) -> u128
    requires { sum ≤ 2 ^ 128 - 2 ^ 64 }
    ensures value { result ≡ sum + more }
    ensures small { result < sum + 2 ^ 64 }
{
    sum + u128::from(more)
}

fn totals_of(cycles: &[PricedCycle]) -> Totals
    ensures cycles { result.cycles ≡ length cycles.now }
    ensures optimal { result.optimal ≡ optimal_in cycles.now }
    ensures value { result.value ≡ value_in cycles.now }
    ensures bound { result.bound ≡ bound_in cycles.now }
    ensures priced { result.priced ≡ priced_in cycles.now }
{
    let mut totals = Totals {
        cycles: cycles.len(),
        optimal: 0,
        value: 0,
        bound: 0,
        priced: 0,
    };
    for cycle in cycles {
        totals.optimal += optimal_count(cycle);
        totals.value = plus(totals.value, cycle.value);
        totals.bound = plus(totals.bound, cycle.bound);
        totals.priced = plus(totals.priced, cycle.priced);
    }
    totals
}

// Adds the last line.
fn add_totals(out: &mut String, cycles: &[PricedCycle]) -> Result<(), AllocError>
    ensures { OnOk result (string_bytes out.new ≡ string_bytes out.old ++ totals_text cycles.entry.now) }
{
    let totals = totals_of(cycles);
    add_totals_line(
        out,
        totals.cycles,
        totals.optimal,
        totals.value,
        totals.bound,
        totals.priced,
    )
}

// Adds the lines of cycles.
fn add_cycles(
    out: &mut String,
    trace: &Trace,
    prices: bool,
    cycles: &[PricedCycle],
) -> Result<(), AllocError>
    ensures { OnOk result (string_bytes out.new
        ≡ string_bytes out.old ++ flat_map (cycle_text (scenario trace.entry.now) prices) cycles.entry.now) }
{
    for cycle in cycles {
        add_cycle(out, trace, prices, cycle)?;
    }
    Ok(())
}

/// The lines of cycles of a trace's run, and the line of their sums. First stands of each cycle `priced NUMBER VALUE
/// BOUND PRICED`. Behind it, where they are asked for, stand its prices above 0, each as `price NODE SLOT PRICE/UNIT`,
/// where NODE is the name of the partition's least node. The last line is `summary cycles=A optimal=B value=C bound=D
/// priced=E`, where B counts the cycles with VALUE equal to PRICED. The only error is want of memory.
pub fn priced_text(
    alloc: Global,
    trace: &Trace,
    prices: bool,
    cycles: &[PricedCycle],
) -> Result<Vec<u8>, AllocError>
    ensures { IfOk result (λ v. v.items ≡ priced_text (scenario trace.entry.now) prices cycles.entry.now) }
{
    let mut out = String::new(alloc);
    add_cycles(&mut out, trace, prices, cycles)?;
    add_totals(&mut out, cycles)?;
    Ok(out.into_bytes())
}
