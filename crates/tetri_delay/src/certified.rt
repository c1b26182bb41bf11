// A plan of given grants, with the bound of a search.
ghost use Rattle.std.specs.Prelude.{◌≡◌, AllPairs, IfOk};
ghost use Rattle.tetri_cert.specs.declared.plan_mark.PlanMark.TheVariants as marks;
ghost use Rattle.tetri_claims.specs.Certified.{IsCertified};
ghost use Rattle.tetri_claims.specs.Good.{IsGood};
ghost use Rattle.tetri_delay.specs.Marks.{mark_for, may_stand};
ghost use Rattle.tetri_plan.specs.Plans.{IsPrintableTree, planned_of};
ghost use Rattle.tetri_space.specs.GrantOrder.{ComesBefore};
ghost use Rattle.tetri_space.specs.Lawful.{IsLawful};
ghost use Rattle.tetri_space.specs.Sound.{IsSound};
ghost use Rattle.tetri_space.specs.Space.{space};
ghost use Rattle.tetri_space.specs.Total.{total_in};
ghost use Rattle.tetri_space.specs.Trimmed.{IsThriftyForAll};

use std::alloc::{AllocError, Global};
use tetri_by_swift::choose_by;
use tetri_cert::{Certificate, PlanMark};
use tetri_plan::Plan;
use tetri_space::{Instance, total};
use tetri_strl::Allotment;
use tetri_swift::Swift;

// The mark of a plan that is worth so much, beside this certificate.
fn mark_for(worth: u64, bound: u64, certificate: &Certificate) -> PlanMark
    ensures { result ≡ mark_for worth bound certificate.now }
{
    if worth == bound {
        return PlanMark::Optimal;
    }
    match certificate {
        Certificate::Tops { .. } => PlanMark::Wide,
        Certificate::Tree(_) => PlanMark::Spent,
    }
}

// Whether a plan that is worth so much may stand beside the certificate of this one: where it is
// worth the bound, the certificate is no tree, or the tree spends the budget.
fn may_stand(worth: u64, plan: &Plan, budget: u32) -> bool
    ensures { result ≡ may_stand worth plan.now.bound plan.now.nodes budget plan.now.certificate }
{
    if worth == plan.bound {
        return true;
    }
    match &plan.certificate {
        Certificate::Tops { .. } => true,
        Certificate::Tree(_) => plan.nodes == budget,
    }
}

// The plan with these grants in the place of its own, where its certificate allows them.
fn with_grants(inst: &Instance, plan: Plan, grants: Allotment, budget: u32) -> Plan
    requires sound { IsSound (space inst.now) }
    requires lawful { IsLawful (space inst.now) grants }
    requires thrifty { IsThriftyForAll (space inst.now) grants }
    requires grants_ordered { AllPairs ComesBefore grants }
    requires ordered { AllPairs ComesBefore plan.grants }
    requires printable { IsPrintableTree plan.certificate }
    requires good { IsGood (space inst.now) (total_in (space inst.now) grants) (planned_of plan) }
    requires certified { IsCertified (space inst.now) budget (planned_of plan) }
    ensures good { IsGood (space inst.entry.now) (total_in (space inst.entry.now) grants) (planned_of result) }
    ensures certified { IsCertified (space inst.entry.now) budget (planned_of result) }
    ensures ordered { AllPairs ComesBefore result.grants }
    ensures printable { IsPrintableTree result.certificate }
{
    let worth = total(inst, &grants);
    if !may_stand(worth, &plan, budget) {
        return plan;
    }
    let mark = mark_for(worth, plan.bound, &plan.certificate);
    Plan {
        value: worth,
        bound: plan.bound,
        mark,
        nodes: plan.nodes,
        grants,
        certificate: plan.certificate,
        low: plan.low,
        heard: plan.heard,
    }
}

/// The plan of these grants, with the certificate of a search of the instance with this budget that
/// knows them. With a budget of 1 it has these very grants, and the bound of the search's root. With
/// a larger one it has those of the search, where they are worth more and the search is not cut
/// short. Its only error is want of memory.
pub(crate) fn certified(
    alloc: Global,
    inst: &Instance,
    grants: Allotment,
    budget: u32,
) -> Result<Plan, AllocError>
    requires sound { IsSound (space inst.now) }
    requires lawful { IsLawful (space inst.now) grants }
    requires thrifty { IsThriftyForAll (space inst.now) grants }
    requires ordered { AllPairs ComesBefore grants }
    ensures good { IfOk result
        (λ p. IsGood (space inst.entry.now) (total_in (space inst.entry.now) grants) (planned_of p)) }
    ensures certified { IfOk result (λ p. IsCertified (space inst.entry.now) budget (planned_of p)) }
    ensures ordered { IfOk result (λ p. AllPairs ComesBefore p.grants) }
    ensures printable { IfOk result (λ p. IsPrintableTree p.certificate) }
{
    let mut engine = Swift::new(alloc, 0);
    let plan = choose_by(alloc, inst, &grants, &[], budget, &mut engine)?;
    Ok(with_grants(inst, plan, grants, budget))
}
