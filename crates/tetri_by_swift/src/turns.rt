// A plan in two turns: a short search, and where that is cut short prices and a whole one.
ghost use Rattle.std.specs.Prelude.{◌≡◌, All, AllPairs, IfOk, true};
ghost use Rattle.tetri_cert.specs.declared.plan_mark.PlanMark.TheVariants as marks;
ghost use Rattle.tetri_claims.specs.Certified.{IsCertified};
ghost use Rattle.tetri_claims.specs.Good.{IsGood};
ghost use Rattle.tetri_plan.specs.Plans.{IsPrintableTree, planned_of};
ghost use Rattle.tetri_space.specs.GrantOrder.{ComesBefore};
ghost use Rattle.tetri_space.specs.Lawful.{IsLawful};
ghost use Rattle.tetri_space.specs.Sound.{IsSound};
ghost use Rattle.tetri_space.specs.Space.{space};
ghost use Rattle.tetri_space.specs.Total.{total_in};
ghost use Rattle.tetri_space.specs.Trimmed.{IsThriftyForAll};

use crate::planning::choose_by;
use std::alloc::{AllocError, Global};
use tetri_by_price::add_priced;
use tetri_cert::PlanMark;
use tetri_compile::size;
use tetri_plan::Plan;
use tetri_space::{Instance, find_partitions};
use tetri_strl::Allotment;
use tetri_swift::Swift;

// So many numbers of dictionaries are gone over in a short search, about: less than a search for prices takes.
const SHORT: u64 = 16_777_216;

// A short search of fewer nodes is left out.
const LEAST: u64 = 32;

// How many nodes a short search has.
fn short_budget(alloc: Global, inst: &Instance, budget: u32) -> Result<u32, AllocError>
    requires { IsSound (space inst.now) }
{
    let parts = find_partitions(alloc, inst)?;
    let (columns, rows) = size(inst, &parts);
    let nodes = SHORT / columns.saturating_mul(rows).max(1);
    if nodes < LEAST {
        return Ok(0);
    }
    Ok(u32::try_from(nodes).unwrap_or(u32::MAX).min(budget))
}

fn is_optimal(p: &Plan) -> bool
    ensures { result ≡ true → p.now.mark ≡ marks.Optimal }
{
    p.mark == PlanMark::Optimal
}

// The plan by a search of some nodes.
fn plan_shortly(
    alloc: Global,
    inst: &Instance,
    carry: &Allotment,
    given: &[Allotment],
    budget: u32,
    keep_bytes: usize,
) -> Result<Plan, AllocError>
    requires sound { IsSound (space inst.now) }
    requires lawful { IsLawful (space inst.now) carry.now }
    requires thrifty { IsThriftyForAll (space inst.now) carry.now }
    requires given { All (IsLawful (space inst.now)) given.now }
    ensures good { IfOk result
        (λ p. IsGood (space inst.entry.now) (total_in (space inst.entry.now) carry.entry.now)
        (planned_of p)) }
    ensures certified { IfOk result (λ p. p.mark ≡ marks.Optimal
        → IsCertified (space inst.entry.now) budget (planned_of p)) }
    ensures ordered { IfOk result (λ p. AllPairs ComesBefore p.grants) }
    ensures printable { IfOk result (λ p. IsPrintableTree p.certificate) }
{
    let short = short_budget(alloc, inst, budget)?;
    let mut engine = Swift::new(alloc, keep_bytes);
    let plan = choose_by(alloc, inst, carry, given, short, &mut engine)?;
    Ok(plan)
}

// The plan by a search with the whole budget, which knows these grants and those that prices lead to.
fn plan_fully(
    alloc: Global,
    inst: &Instance,
    carry: &Allotment,
    given: Vec<Allotment>,
    first: Allotment,
    budget: u32,
    keep_bytes: usize,
) -> Result<Plan, AllocError>
    requires sound { IsSound (space inst.now) }
    requires lawful { IsLawful (space inst.now) carry.now }
    requires thrifty { IsThriftyForAll (space inst.now) carry.now }
    requires given { All (IsLawful (space inst.now)) given.items }
    requires first { IsLawful (space inst.now) first }
    ensures good { IfOk result
        (λ p. IsGood (space inst.entry.now) (total_in (space inst.entry.now) carry.entry.now)
        (planned_of p)) }
    ensures certified { IfOk result
        (λ p. IsCertified (space inst.entry.now) budget (planned_of p)) }
    ensures ordered { IfOk result (λ p. AllPairs ComesBefore p.grants) }
    ensures printable { IfOk result (λ p. IsPrintableTree p.certificate) }
{
    let mut given = given;
    given.push(first)?;
    add_priced(alloc, inst, carry, &mut given)?;
    let mut engine = Swift::new(alloc, keep_bytes);
    let plan = choose_by(alloc, inst, carry, &given, budget, &mut engine)?;
    Ok(plan)
}

/// The plan of an instance for what is carried over and given: by a search of some nodes, and where
/// that does not show its plan to be optimal by a search with the whole budget that knows this plan
/// and the one that prices lead to. Its only error is want of memory.
pub(crate) fn plan_in_turns(
    alloc: Global,
    inst: &Instance,
    carry: &Allotment,
    given: Vec<Allotment>,
    budget: u32,
    keep_bytes: usize,
) -> Result<Plan, AllocError>
    requires sound { IsSound (space inst.now) }
    requires lawful { IsLawful (space inst.now) carry.now }
    requires thrifty { IsThriftyForAll (space inst.now) carry.now }
    requires given { All (IsLawful (space inst.now)) given.items }
    ensures good { IfOk result
        (λ p. IsGood (space inst.entry.now) (total_in (space inst.entry.now) carry.entry.now)
        (planned_of p)) }
    ensures certified { IfOk result
        (λ p. IsCertified (space inst.entry.now) budget (planned_of p)) }
    ensures ordered { IfOk result (λ p. AllPairs ComesBefore p.grants) }
    ensures printable { IfOk result (λ p. IsPrintableTree p.certificate) }
{
    let first = plan_shortly(alloc, inst, carry, &given, budget, keep_bytes)?;
    if is_optimal(&first) {
        return Ok(first);
    }
    plan_fully(alloc, inst, carry, given, first.grants, budget, keep_bytes)
}
