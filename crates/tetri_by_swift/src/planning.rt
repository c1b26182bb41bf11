// The plan of one cycle by a search that an engine leads.
ghost use Rattle.std.specs.Prelude.{◌≡◌, ◌⊎◌, ◌↔◌, ◌<◌, ◌≤◌, ◌≤ℤ◌, [], All, AllPairs, IfOk, IfSome, IsTrue, false, pos, true};
ghost use Rattle.tetri_by_swift.specs.Held.{IsHeld};
ghost use Rattle.tetri_by_swift.specs.Right.{IsRight};
ghost use Rattle.tetri_cert.specs.declared.plan_mark.PlanMark.TheVariants as marks;
ghost use Rattle.tetri_claims.specs.Certified.{IsCertified, MayHaveTree};
ghost use Rattle.tetri_claims.specs.Good.{IsGood};
ghost use Rattle.tetri_compile.specs.Flat.{IsCompiled, column_count, row_count};
ghost use Rattle.tetri_ip.specs.Points.{IsPoint, box_of, objective};
ghost use Rattle.tetri_plan.specs.Chosen.{kept};
ghost use Rattle.tetri_plan.specs.Plans.{HasTree, IsPrintableTree, enough_in, leaves_open, planned_of};
ghost use Rattle.tetri_space.specs.GrantOrder.{ComesBefore};
ghost use Rattle.tetri_space.specs.Lawful.{IsLawful};
ghost use Rattle.tetri_space.specs.Partitions.{ArePartitionsOf, parts_of};
ghost use Rattle.tetri_space.specs.Sound.{IsSound};
ghost use Rattle.tetri_space.specs.Space.{space};
ghost use Rattle.tetri_space.specs.Total.{total_in};
ghost use Rattle.tetri_space.specs.Trimmed.{IsThriftyForAll};

use std::alloc::{AllocError, Global};
use tetri_assign::assign;
use tetri_cert::{Certificate, PlanMark};
use tetri_compile::{Compiled, compile};
use tetri_plan::{Plan, choose};
use tetri_space::{Instance, Partitions, find_partitions, order_grants, total, trim_all};
use tetri_strl::Allotment;
use tetri_swift::{Engine, search_by};

// An allotment, and what it is worth.
#[derive(Drop)]
struct Candidate {
    grants: Allotment,
    worth: u64,
}

// The better of a candidate and a later allotment, which has to be worth more.
fn better(inst: &Instance, earlier: Candidate, later: Allotment) -> Candidate
    requires sound { IsSound (space inst.now) }
    requires held { IsHeld (space inst.now) earlier }
    requires lawful { IsLawful (space inst.now) later }
    requires thrifty { IsThriftyForAll (space inst.now) later }
    ensures held { IsHeld (space inst.entry.now) result }
    ensures earlier { earlier.worth ≤ result.worth }
    ensures later { total_in (space inst.entry.now) later ≤ result.worth }
{
    let worth = total(inst, &later);
    if earlier.worth < worth {
        Candidate {
            grants: later,
            worth,
        }
    } else {
        earlier
    }
}

// The better of a candidate and the nodes of a search's last whole point, where it has one.
fn better_at(
    alloc: Global,
    inst: &Instance,
    parts: &Partitions,
    compiled: &Compiled,
    best: Candidate,
    last: &Option<Vec<i128>>,
) -> Result<Candidate, AllocError>
    requires sound { IsSound (space inst.now) }
    requires partitions { ArePartitionsOf (space inst.now) (parts_of parts.now) }
    requires compiled { IsCompiled (space inst.now) compiled.now }
    requires held { IsHeld (space inst.now) best }
    requires point { IfSome last.now
        (λ v. IsPoint compiled.now.program (box_of compiled.now.program) v.items) }
    ensures held { IfOk result (IsHeld (space inst.entry.now)) }
    ensures at_least { IfOk result (λ c. best.worth ≤ c.worth) }
    ensures reached { IfOk result (λ c. IfSome last.entry.now
        (λ v. objective compiled.entry.now.program v.items ≤ℤ pos c.worth)) }
{
    match last {
        Some(point) => {
            let assigned = assign(alloc, inst, parts, compiled, point)?;
            let trimmed = trim_all(alloc, inst, &assigned)?;
            Ok(better(inst, best, trimmed))
        }
        None => Ok(best),
    }
}

// The mark of a plan with a tree.
fn mark_of(value: u64, bound: u64) -> PlanMark
    ensures optimal { value ≡ bound → result ≡ marks.Optimal }
    ensures spent { (value ≡ bound → ⊥) → result ≡ marks.Spent }
{
    if value == bound {
        PlanMark::Optimal
    } else {
        PlanMark::Spent
    }
}

// The plan of an instance that may have a tree, by a search that knows an allotment.
fn search_from<E: Engine>(
    alloc: Global,
    inst: &Instance,
    known: Candidate,
    low: u64,
    budget: u32,
    engine: &mut E,
) -> Result<Plan, AllocError>
    requires sound { IsSound (space inst.now) }
    requires tree { MayHaveTree (space inst.now) }
    requires held { IsHeld (space inst.now) known }
    requires low { low ≤ known.worth }
    ensures right { IfOk result (IsRight (space inst.entry.now) known.worth budget) }
    ensures low { IfOk result (λ p. p.low ≡ low) }
    ensures heard { IfOk result (λ p. p.heard.items ≡ []) }
{
    let parts = find_partitions(alloc, inst)?;
    let compiled = compile(alloc, inst, &parts)?;
    let found = search_by(alloc, &compiled, known.worth, budget, engine)?;
    let best = better_at(alloc, inst, &parts, &compiled, known, &found.last)?;
    let mark = mark_of(best.worth, found.bound);
    let grants = order_grants(best.grants)?;
    Ok(Plan {
        value: best.worth,
        bound: found.bound,
        mark,
        nodes: found.nodes,
        grants,
        certificate: Certificate::Tree(found.marks),
        low,
        heard: Vec::new(alloc),
    })
}

// Whether a plan with no node but one that is left open may get better by a search.
fn may_get_better(p: &Plan) -> bool
    ensures tree { result ≡ true → HasTree p.now.certificate }
    ensures settled { result ≡ false
        → (p.now.mark ≡ marks.Optimal) ⊎ (HasTree p.now.certificate → ⊥) }
{
    match &p.certificate {
        Certificate::Tree(_) => p.mark != PlanMark::Optimal,
        Certificate::Tops { .. } => false,
    }
}

/// The plan of an instance by a search that an engine leads, whatever that proposes. Of no grant,
/// what is carried over and what of each given allotment earns something, the first that is worth
/// most is kept. Where a job is pending, the program of the instance has at most 2,000 columns and
/// rows and the sum of its costs does not show that what is kept is best, branch and bound with this
/// budget follows, and the nodes of its last whole point take the place of the kept ones where they
/// are worth more. Nobody is heard. Its only error is want of memory.
pub fn choose_by<E: Engine>(
    alloc: Global,
    inst: &Instance,
    carry: &Allotment,
    given: &[Allotment],
    budget: u32,
    engine: &mut E,
) -> Result<Plan, AllocError>
    requires sound { IsSound (space inst.now) }
    requires lawful { IsLawful (space inst.now) carry.now }
    requires thrifty { IsThriftyForAll (space inst.now) carry.now }
    requires given { All (IsLawful (space inst.now)) given.now }
    ensures good { IfOk result
        (λ p. IsGood (space inst.entry.now) (total_in (space inst.entry.now) carry.entry.now)
        (planned_of p)) }
    ensures certified { IfOk result
        (λ p. IsCertified (space inst.entry.now) budget (planned_of p)) }
    ensures low { IfOk result (λ p. p.low
        ≡ total_in (space inst.entry.now)
        (kept (space inst.entry.now) carry.entry.now given.entry.now)) }
    ensures at_least { IfOk result (λ p. p.low ≤ p.value) }
    ensures heard { IfOk result (λ p. p.heard.items ≡ []) }
    ensures ordered { IfOk result (λ p. AllPairs ComesBefore p.grants) }
    ensures printable { IfOk result (λ p. IsPrintableTree p.certificate) }
    ensures tree { IfOk result (λ p. HasTree p.certificate ↔ MayHaveTree (space inst.entry.now)) }
    ensures no_rest { IfOk result (λ p. MayHaveTree (space inst.entry.now)
        → leaves_open p.certificate ≡ false → p.mark ≡ marks.Optimal) }
    ensures spent { IfOk result (λ p. p.mark ≡ marks.Spent
        → (p.value < p.bound) × (leaves_open p.certificate ≡ true) × (p.nodes ≡ budget)) }
    ensures wide { IfOk result (λ p. p.mark ≡ marks.Wide → (p.value < p.bound)
        × ((2000 < column_count (space inst.entry.now))
        ⊎ (2000 < row_count (space inst.entry.now)))) }
    ensures enough { MayHaveTree (space inst.entry.now) → enough_in (space inst.entry.now) ≤ budget
        → IfOk result (λ p. p.mark ≡ marks.Optimal) }
{
    let known = choose(alloc, inst, carry, given, 0)?;
    if may_get_better(&known) {
        let low = known.low;
        let best = Candidate {
            grants: known.grants,
            worth: known.value,
        };
        let plan = search_from(alloc, inst, best, low, budget, engine)?;
        return Ok(plan);
    }
    Ok(known)
}
