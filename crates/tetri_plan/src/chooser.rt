// What chooses the plans of cycles.
ghost use Rattle.std.specs.Prelude.{◌≤◌, AllPairs, IfOk};
ghost use Rattle.tetri_claims.specs.Certified.{IsCertified};
ghost use Rattle.tetri_claims.specs.Good.{IsGood};
ghost use Rattle.tetri_plan.specs.Plans.{IsPrintableTree, planned_of};
ghost use Rattle.tetri_space.specs.GrantOrder.{ComesBefore};
ghost use Rattle.tetri_space.specs.Lawful.{IsLawful};
ghost use Rattle.tetri_space.specs.Sound.{IsSound};
ghost use Rattle.tetri_space.specs.Space.{space};
ghost use Rattle.tetri_space.specs.Total.{total_in};
ghost use Rattle.tetri_space.specs.Trimmed.{IsThriftyForAll};

use crate::planning::Plan;
use std::alloc::{AllocError, Global};
use tetri_space::Instance;
use tetri_strl::Allotment;

/// What chooses the plan of each cycle of a run. It may ask advisors, search in its own way, or
/// keep what it learnt from cycle to cycle: whatever it does, its plans are such that `check`
/// accepts a report of them.
pub trait Chooser {
    /// The plan of an instance for what is carried over, with a certificate for this budget. It is
    /// worth no less than what is carried over. Its only error is want of memory.
    fn plan(
        &mut self,
        alloc: Global,
        inst: &Instance,
        carry: &Allotment,
        budget: u32,
    ) -> Result<Plan, AllocError>
        requires sound { IsSound (space inst.now) }
        requires lawful { IsLawful (space inst.now) carry.now }
        requires thrifty { IsThriftyForAll (space inst.now) carry.now }
        ensures good { IfOk result (λ p. IsGood (space inst.entry.now)
            (total_in (space inst.entry.now) carry.entry.now) (planned_of p)) }
        ensures certified { IfOk result (λ p.
            IsCertified (space inst.entry.now) budget (planned_of p)) }
        ensures ordered { IfOk result (λ p. AllPairs ComesBefore p.grants) }
        ensures printable { IfOk result (λ p. IsPrintableTree p.certificate) };
}
