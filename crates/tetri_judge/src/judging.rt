// The judge of one cycle.
ghost use Rattle.std.specs.Prelude.{◌≡◌, ◌≤◌, ◌⊎◌, IfErr, OnOk, Ok, Err};
ghost use Rattle.tetri_cert.specs.declared.certificate.Certificate.{Certificate};
ghost use Rattle.tetri_claims.specs.Certified.{IsCertified};
ghost use Rattle.tetri_claims.specs.Good.{IsGood, IsHonest};
ghost use Rattle.tetri_judge.specs.Answers.{AnswersGrants};
ghost use Rattle.tetri_judge.specs.Places.{place_of};
ghost use Rattle.tetri_judge.specs.PlanOf.{planned, planned_as};
ghost use Rattle.tetri_judge.specs.Seen.{Tells};
ghost use Rattle.tetri_judge.specs.Verdict.{IsVerdict, PassesBefore, proper};
ghost use Rattle.tetri_report.specs.Block.{block};
ghost use Rattle.tetri_report.specs.BlockLines.{end_place};
ghost use Rattle.tetri_report.specs.Block.{headed};
ghost use Rattle.tetri_space.specs.Sound.{IsSound};
ghost use Rattle.tetri_space.specs.Space.{space};

use crate::certificate::{bound_of, is_rightly_marked};
use crate::seen::Seen;
use crate::tree_walk::see;
use crate::unordered::{ordered_copy, total_by, wasted_by};
use crate::verdict::Verdict;
use std::alloc::Global;
use tetri_report::{Cycle, Head, PlanLine};
use tetri_space::{Instance, lawful};
use tetri_strl::Allotment;

// The tests of the grants. Those that do not ascend by job are weighed by a copy in order, and where there is no memory for it each
// job is held against all grants.
fn test_grants(
    alloc: Global,
    inst: &Instance,
    carry: u64,
    plan: PlanLine,
    grants: &Allotment,
) -> Result<(), Verdict>
    requires { IsSound (space inst.now) }
    ensures { (c : Certificate) → AnswersGrants result (space inst.entry.now) carry (planned_as plan grants.now c) }
{
    if let Err(unlawful) = lawful(inst, grants) {
        return Err(Verdict::Unlawful(unlawful));
    }
    let ordered = ordered_copy(alloc, grants);
    let found = total_by(inst, grants, &ordered);
    if found != plan.value {
        return Err(Verdict::WrongValue {
            printed: plan.value,
            found,
        });
    }
    if let Some(place) = wasted_by(alloc, inst, grants, &ordered) {
        return Err(Verdict::WasteGrant(place));
    }
    if plan.value < carry {
        return Err(Verdict::BelowCarry {
            printed: plan.value,
            carry,
        });
    }
    Ok(())
}

// The tests of the certificate that was seen, its bound and the mark, for a plan that passes those of its grants.
fn test_certificate(
    alloc: Global,
    inst: &Instance,
    carry: u64,
    budget: u32,
    plan: PlanLine,
    grants: &Allotment,
    seen: &Seen,
) -> Result<(), Verdict>
    requires sound { IsSound (space inst.now) }
    requires granted { (c : Certificate) → PassesBefore (space inst.now) carry budget (planned_as plan grants.now c) proper }
    ensures { (c : Certificate) → Tells (space inst.entry.now) c seen.now
        → IsVerdict (space inst.entry.now) carry budget (planned_as plan grants.entry.now c) result }
{
    let found = match bound_of(alloc, inst, seen) {
        Ok(found) => found,
        Err(verdict) => return Err(verdict),
    };
    if found != plan.bound {
        return Err(Verdict::WrongBound {
            printed: plan.bound,
            found,
        });
    }
    if !is_rightly_marked(budget, plan, seen) {
        return Err(Verdict::WrongMark);
    }
    Ok(())
}

// All tests of a plan whose certificate was seen so.
fn test_plan(
    alloc: Global,
    inst: &Instance,
    carry: u64,
    budget: u32,
    plan: PlanLine,
    grants: &Allotment,
    seen: &Seen,
) -> Result<(), Verdict>
    requires { IsSound (space inst.now) }
    ensures { (c : Certificate) → Tells (space inst.entry.now) c seen.now
        → IsVerdict (space inst.entry.now) carry budget (planned_as plan grants.entry.now c) result }
{
    match test_grants(alloc, inst, carry, plan, grants) {
        Ok(()) => {}
        Err(verdict) => return Err(verdict),
    }
    test_certificate(alloc, inst, carry, budget, plan, grants, seen)
}

/// Whether the plan of a cycle is good for the instance, worth at least `carry`, and certified for the budget, where its certificate
/// was seen so; if not, the first test that it fails. It trusts nothing that the cycle says, and uses neither a search nor the
/// simplex method.
pub fn judge_seen(
    alloc: Global,
    inst: &Instance,
    carry: u64,
    budget: u32,
    head: &Head,
    seen: &Seen,
) -> Result<(), Verdict>
    requires { IsSound (space inst.now) }
    ensures verdict { (c : Certificate) → Tells (space inst.entry.now) c seen.now
        → IsVerdict (space inst.entry.now) carry budget (planned (headed head.now c)) result }
    ensures good { (c : Certificate) → Tells (space inst.entry.now) c seen.now
        → OnOk result (IsGood (space inst.entry.now) carry (planned (headed head.now c))
        × IsCertified (space inst.entry.now) budget (planned (headed head.now c))) }
    ensures complete { (c : Certificate) → Tells (space inst.entry.now) c seen.now
        → IsHonest (space inst.entry.now) carry (planned (headed head.now c))
        → IsCertified (space inst.entry.now) budget (planned (headed head.now c)) → (result ≡ Ok tt) ⊎ (result ≡ Err Verdict.NoMemory) }
    ensures within { (c : Certificate) → Tells (space inst.entry.now) c seen.now
        → IfErr result (λ v. place_of (headed head.now c) v ≤ end_place (headed head.now c)) }
{
    let plan = PlanLine {
        value: head.value,
        bound: head.bound,
        mark: head.mark,
        nodes: head.nodes,
    };
    match test_plan(alloc, inst, carry, budget, plan, &head.grants, seen) {
        Ok(()) => Ok(()),
        Err(verdict) => Err(verdict),
    }
}

/// Whether the plan of a cycle is good for the instance, worth at least `carry`, and certified for the budget; if not, the first
/// test that it fails. It walks over the certificate, and then judges what it saw as `judge_seen` does.
pub fn judge(
    alloc: Global,
    inst: &Instance,
    carry: u64,
    budget: u32,
    c: &Cycle,
) -> Result<(), Verdict>
    requires { IsSound (space inst.now) }
    ensures verdict { IsVerdict (space inst.entry.now) carry budget (planned (block c.now)) result }
    ensures good { OnOk result (IsGood (space inst.entry.now) carry (planned (block c.now))
        × IsCertified (space inst.entry.now) budget (planned (block c.now))) }
    ensures complete { IsHonest (space inst.entry.now) carry (planned (block c.now))
        → IsCertified (space inst.entry.now) budget (planned (block c.now)) → (result ≡ Ok tt) ⊎ (result ≡ Err Verdict.NoMemory) }
    ensures within { IfErr result (λ v. place_of (block c.now) v ≤ end_place (block c.now)) }
{
    let Ok(seen) = see(alloc, inst, &c.certificate) else {
        return Err(Verdict::NoMemory);
    };
    let plan = PlanLine {
        value: c.value,
        bound: c.bound,
        mark: c.mark,
        nodes: c.nodes,
    };
    match test_plan(alloc, inst, carry, budget, plan, &c.grants, &seen) {
        Ok(()) => Ok(()),
        Err(verdict) => Err(verdict),
    }
}
