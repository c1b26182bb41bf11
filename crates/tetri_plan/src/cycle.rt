// The plan of one cycle, with a panel of advisors.
ghost use Rattle.std.specs.Prelude.{◌≡◌, ◌⊎◌, ◌↔◌, ◌<◌, ◌≤◌, [], AllPairs, IfOk, false, true};
ghost use Rattle.tetri_advice.specs.Heard.{EachHeard};
ghost use Rattle.tetri_advice.specs.Seat.{creeds_of};
ghost use Rattle.tetri_advice.specs.Sitting.{seats};
ghost use Rattle.tetri_cert.specs.declared.plan_mark.PlanMark.TheVariants as marks;
ghost use Rattle.tetri_claims.specs.Certified.{MayHaveTree};
ghost use Rattle.tetri_claims.specs.Good.{IsGood};
ghost use Rattle.tetri_compile.specs.Flat.{column_count, row_count};
ghost use Rattle.tetri_plan.specs.Advised.{IsAdvisedPlan, IsWorthAtMost};
ghost use Rattle.tetri_plan.specs.Plans.{HasNoWhole, HasTree, IsPrintableTree, enough_in, leaves_open, planned_of};
ghost use Rattle.tetri_space.specs.GrantOrder.{ComesBefore};
ghost use Rattle.tetri_space.specs.Lawful.{IsLawful};
ghost use Rattle.tetri_space.specs.Sound.{IsSound};
ghost use Rattle.tetri_space.specs.Space.{space};
ghost use Rattle.tetri_space.specs.Total.{total_in};
ghost use Rattle.tetri_space.specs.Trimmed.{IsThriftyForAll};

use crate::planning::{Plan, choose};
use std::alloc::{AllocError, Global};
use tetri_advice::{Advice, Advisor, PanelOf};
use tetri_space::Instance;
use tetri_strl::Allotment;

/// The plan of a cycle: the panel is asked once, the plan is the chosen one with the lawful
/// suggestions given, and the panel is then taught the grants of the plan. Its only error is want
/// of memory, after which the panel alone may have changed.
pub fn plan_cycle<A: Advisor>(
    alloc: Global,
    inst: &Instance,
    carry: &Allotment,
    panel: &mut PanelOf<A>,
    budget: u32,
) -> Result<Plan, AllocError>
    requires sound { IsSound (space inst.now) }
    requires lawful { IsLawful (space inst.now) carry.now }
    requires thrifty { IsThriftyForAll (space inst.now) carry.now }
    ensures good { IfOk result
        (λ p. IsGood (space inst.entry.now) (total_in (space inst.entry.now) carry.entry.now)
        (planned_of p)) }
    ensures advised { IfOk result (IsAdvisedPlan (space inst.entry.now) carry.entry.now budget
        (seats A.says A.misses A.creed panel.old) panel.old.missed
        (seats A.says A.misses A.creed panel.new) panel.new.missed) }
    ensures heard { IfOk result
        (λ p. EachHeard (IsWorthAtMost (space inst.entry.now) p.value)
        (seats A.says A.misses A.creed panel.old) p.heard.items) }
    ensures creeds { creeds_of (seats A.says A.misses A.creed panel.new)
        ≡ creeds_of (seats A.says A.misses A.creed panel.old) }
    ensures later { panel.old.missed ≤ panel.new.missed }
    ensures alone { seats A.says A.misses A.creed panel.old ≡ []
        → IfOk result (λ p. p.low ≡ total_in (space inst.entry.now) carry.entry.now) }
    ensures at_least { IfOk result (λ p. p.low ≤ p.value) }
    ensures no_whole { IfOk result (λ p. HasNoWhole p.certificate → p.low ≡ p.value) }
    ensures ordered { IfOk result (λ p. AllPairs ComesBefore p.grants) }
    ensures printable { IfOk result (λ p. IsPrintableTree p.certificate) }
    ensures tree { IfOk result (λ p. HasTree p.certificate ↔ MayHaveTree (space inst.entry.now)) }
    ensures no_rest { IfOk result (λ p. MayHaveTree (space inst.entry.now)
        → leaves_open p.certificate ≡ false → p.mark ≡ marks.Optimal) }
    ensures spent { IfOk result (λ p. p.mark ≡ marks.Spent
        → (p.value < p.bound) × (leaves_open p.certificate ≡ true) × (p.nodes ≡ budget)) }
    ensures wide { IfOk result (λ p. p.mark ≡ marks.Wide → (p.value < p.bound)
        × ((2000 < column_count (space inst.entry.now))
        ⊎ (2000 < row_count (space inst.entry.now)))) }
    ensures enough { MayHaveTree (space inst.entry.now) → enough_in (space inst.entry.now) ≤ budget
        → IfOk result (λ p. p.mark ≡ marks.Optimal) }
{
    let Advice { given, heard } = panel.consult(alloc, inst)?;
    let mut plan = choose(alloc, inst, carry, &given, budget)?;
    panel.teach(alloc, inst, &plan.grants);
    plan.heard = heard;
    Ok(plan)
}
