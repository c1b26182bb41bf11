// The plans of the parts of an instance.
ghost use Rattle.std.specs.Prelude.{◌≡◌, ◌<◌, ◌≤◌, ◌^◌, ◌==◌, [], IfOk, length, slice_index_or, if◌then◌else◌};
ghost use Rattle.tetri_commands.specs.Printing.{IsInstanceOf};
ghost use Rattle.tetri_commands.specs.PartsReady.{ArePartsReady, IsPartReady, IsPartsPlan};
ghost use Rattle.tetri_space.specs.Lawful.{IsLawful};
ghost use Rattle.tetri_space.specs.Space.{space};
ghost use Rattle.tetri_space.specs.Trimmed.{IsThriftyForAll};
ghost use Rattle.tetri_split.specs.Parts.{ArePartsOf};
ghost use Rattle.tetri_trace.specs.Scenario.{scenario};

use crate::part_lines::{part_line, parts_line};
use std::alloc::{AllocError, Global};
use tetri_plan::choose;
use tetri_report::{name_of, print_plan};
use tetri_space::Instance;
use tetri_split::{Parts, join, split};
use tetri_state::starts_of;
use tetri_strl::Allotment;
use tetri_trace::Trace;

/// A part that was planned: the lines that tell it, its grants, what they are worth and their bound.
#[derive(Drop)]
pub(crate) struct PartLines {
    pub(crate) text: Vec<u8>,
    pub(crate) grants: Allotment,
    pub(crate) value: u64,
    pub(crate) bound: u64,
}

/// The parts that were planned: the lines that tell them, the grants of each, and the sums of their values and of their bounds.
#[derive(Drop)]
pub(crate) struct PartsLines {
    pub(crate) text: Vec<u8>,
    pub(crate) grants: Vec<Allotment>,
    pub(crate) value: u128,
    pub(crate) bound: u128,
}

/// The plan of an instance part by part: its lines, all grants by job and leaf, and 1 where the sums of values and of bounds are equal,
/// else 0.
#[derive(Drop)]
pub(crate) struct PartsPlan {
    pub(crate) text: Vec<u8>,
    pub(crate) grants: Allotment,
    pub(crate) optimal: u64,
}

// 1 where these two are equal, else 0.
fn optimal_count(value: u128, bound: u128) -> u64
    ensures value { result ≡ (if value == bound then 1 else 0) }
    ensures most { result ≤ 1 }
{
    if value == bound { 1 } else { 0 }
}

// Plans a part of an instance by itself.
fn plan_part(
    alloc: Global,
    trace: &Trace,
    inst: &Instance,
    carry: &Allotment,
    parts: &Parts,
    part: u32,
) -> Result<PartLines, AllocError>
    requires instance { IsInstanceOf (scenario trace.now) (space inst.now) }
    requires lawful { IsLawful (space inst.now) carry.now }
    requires thrifty { IsThriftyForAll (space inst.now) carry.now }
    requires parts { ArePartsOf (space inst.now) parts.now }
    requires within { part < length parts.now }
    ensures ready { IfOk result (IsPartReady (scenario trace.entry.now) (space inst.entry.now) carry.entry.now (slice_index_or parts.entry.now part [])) }
    ensures small { IfOk result (λ r. (r.value < 2 ^ 64) × (r.bound < 2 ^ 64)) }
{
    let own = parts.part_of(alloc, inst, part)?;
    let kept = parts.keep(alloc, part, carry)?;
    let plan = choose(alloc, &own, &kept, &[], trace.header.budget)?;
    let starts = starts_of(alloc, inst, plan.grants.as_slice())?;
    let least = parts.jobs_of(part)[0];
    let mut text = part_line(alloc, name_of(trace, least))?;
    let lines = print_plan(
        alloc,
        trace,
        plan.value,
        plan.bound,
        plan.mark,
        plan.nodes,
        &plan.grants,
        &starts,
        &plan.certificate,
    )?;
    text.extend_from_slice(&lines)?;
    Ok(PartLines {
        text,
        grants: plan.grants,
        value: plan.value,
        bound: plan.bound,
    })
}

// Plans each part of an instance by itself.
fn plan_parts(
    alloc: Global,
    trace: &Trace,
    inst: &Instance,
    carry: &Allotment,
    parts: &Parts,
) -> Result<PartsLines, AllocError>
    requires instance { IsInstanceOf (scenario trace.now) (space inst.now) }
    requires lawful { IsLawful (space inst.now) carry.now }
    requires thrifty { IsThriftyForAll (space inst.now) carry.now }
    requires parts { ArePartsOf (space inst.now) parts.now }
    ensures { IfOk result (λ r. ArePartsReady (scenario trace.entry.now) (space inst.entry.now) carry.entry.now parts.entry.now
        r.text.items r.grants.items r.value r.bound) }
{
    let mut text = Vec::new(alloc);
    let mut grants = Vec::new(alloc);
    let mut value = 0u128;
    let mut bound = 0u128;
    for part in 0..parts.count() {
        let lines = plan_part(alloc, trace, inst, carry, parts, part)?;
        text.extend_from_slice(&lines.text)?;
        grants.push(lines.grants)?;
        value += u128::from(lines.value);
        bound += u128::from(lines.bound);
    }
    Ok(PartsLines {
        text,
        grants,
        value,
        bound,
    })
}

/// Plans an instance of a trace part by part, each beside what is carried over to its jobs and with the trace's budget.
pub(crate) fn plan_by_parts(
    alloc: Global,
    trace: &Trace,
    inst: &Instance,
    carry: &Allotment,
) -> Result<PartsPlan, AllocError>
    requires instance { IsInstanceOf (scenario trace.now) (space inst.now) }
    requires lawful { IsLawful (space inst.now) carry.now }
    requires thrifty { IsThriftyForAll (space inst.now) carry.now }
    ensures plan { IfOk result (IsPartsPlan (scenario trace.entry.now) (space inst.entry.now) carry.entry.now) }
    ensures most { IfOk result (λ p. p.optimal ≤ 1) }
{
    let parts = split(alloc, inst)?;
    let plans = plan_parts(alloc, trace, inst, carry, &parts)?;
    let grants = join(alloc, &plans.grants)?;
    let mut text = parts_line(alloc, parts.count(), plans.value, plans.bound)?;
    text.extend_from_slice(&plans.text)?;
    Ok(PartsPlan {
        text,
        grants,
        optimal: optimal_count(plans.value, plans.bound),
    })
}
