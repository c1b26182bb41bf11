// Plans that start jobs sooner.
ghost use Rattle.std.specs.Prelude.{◌≡◌, ℕ, AllPairs, IfOk};
ghost use Rattle.tetri_cert.specs.declared.plan_mark.PlanMark.TheVariants as marks;
ghost use Rattle.tetri_claims.specs.Certified.{IsCertified};
ghost use Rattle.tetri_claims.specs.Good.{IsGood};
ghost use Rattle.tetri_plan.specs.Plans.{IsPrintableTree, planned_of};
ghost use Rattle.tetri_space.specs.GrantOrder.{ComesBefore};
ghost use Rattle.tetri_space.specs.Lawful.{IsLawful};
ghost use Rattle.tetri_space.specs.Sound.{IsSound};
ghost use Rattle.tetri_space.specs.Space.{space};
ghost use Rattle.tetri_space.specs.Total.{total_in};
ghost use Rattle.tetri_space.specs.Trimmed.{IsThriftyForAll};

use crate::moving::moved_sooner;
use std::alloc::{AllocError, Global};
use tetri_cert::PlanMark;
use tetri_plan::{Chooser, Plan};
use tetri_space::{Instance, lawful, order_grants, total, trim_all};
use tetri_strl::Allotment;

/// Has another choose the plans, and moves their jobs to earlier starts, where these cost nothing: a
/// plan that is best in its cycle may put a job off for no gain, and be planned anew in the next,
/// until the job expires. What is moved is tested by the rules, and is worth no less. No proof of a
/// bound rests on it.
#[derive(Drop)]
pub struct Sooner<C: Chooser> {
    chooser: C,
}

impl<C: Chooser> Sooner<C> {
    /// With what chooses the plans.
    pub fn new(chooser: C) -> Self {
        Sooner { chooser }
    }
}

// The mark of a plan that has come to be worth so much.
fn mark_at(worth: u64, bound: u64, before: PlanMark) -> PlanMark
    ensures optimal { worth ≡ bound → result ≡ marks.Optimal }
    ensures before { (worth ≡ bound → ⊥) → result ≡ before }
{
    if worth == bound {
        PlanMark::Optimal
    } else {
        before
    }
}

// The plan with these grants in the place of its own, where they are worth no less.
fn with_grants(
    alloc: Global,
    inst: &Instance,
    plan: Plan,
    moved: &Allotment,
) -> Result<Plan, AllocError>
    requires sound { IsSound (space inst.now) }
    requires lawful { IsLawful (space inst.now) moved.now }
    requires ordered { AllPairs ComesBefore plan.grants }
    ensures good { IfOk result (λ p. (low : ℕ) → IsGood (space inst.entry.now) low (planned_of plan)
        → IsGood (space inst.entry.now) low (planned_of p)) }
    ensures certified { IfOk result (λ p. (budget : ℕ)
        → IsCertified (space inst.entry.now) budget (planned_of plan)
        → IsCertified (space inst.entry.now) budget (planned_of p)) }
    ensures ordered { IfOk result (λ p. AllPairs ComesBefore p.grants) }
    ensures certificate { IfOk result (λ p. p.certificate ≡ plan.certificate) }
{
    let trimmed = trim_all(alloc, inst, moved)?;
    let grants = order_grants(trimmed)?;
    let worth = total(inst, &grants);
    if worth < plan.value {
        return Ok(plan);
    }
    let mark = mark_at(worth, plan.bound, plan.mark);
    Ok(Plan {
        value: worth,
        bound: plan.bound,
        mark,
        nodes: plan.nodes,
        grants,
        certificate: plan.certificate,
        low: plan.low,
        heard: plan.heard,
    })
}

// The plan with its grants moved to earlier starts, where what is moved is lawful and worth no less.
fn start_sooner(alloc: Global, inst: &Instance, plan: Plan) -> Result<Plan, AllocError>
    requires sound { IsSound (space inst.now) }
    requires ordered { AllPairs ComesBefore plan.grants }
    ensures good { IfOk result (λ p. (low : ℕ) → IsGood (space inst.entry.now) low (planned_of plan)
        → IsGood (space inst.entry.now) low (planned_of p)) }
    ensures certified { IfOk result (λ p. (budget : ℕ)
        → IsCertified (space inst.entry.now) budget (planned_of plan)
        → IsCertified (space inst.entry.now) budget (planned_of p)) }
    ensures ordered { IfOk result (λ p. AllPairs ComesBefore p.grants) }
    ensures certificate { IfOk result (λ p. p.certificate ≡ plan.certificate) }
{
    let moved = moved_sooner(alloc, inst, &plan.grants)?;
    match lawful(inst, &moved) {
        Ok(()) => with_grants(alloc, inst, plan, &moved),
        Err(_) => Ok(plan),
    }
}

impl<C: Chooser> Chooser for Sooner<C> {
    fn plan(
        &mut self,
        alloc: Global,
        inst: &Instance,
        carry: &Allotment,
        budget: u32,
    ) -> Result<Plan, AllocError> {
        let plan = self.chooser.plan(alloc, inst, carry, budget)?;
        let moved = start_sooner(alloc, inst, plan)?;
        Ok(moved)
    }
}
