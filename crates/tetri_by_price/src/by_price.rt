// Plans by a panel and by prices.
ghost use Rattle.std.specs.Prelude.{◌≡◌, ◌≤◌, All, IfOk, OnOk};
ghost use Rattle.tetri_space.specs.Lawful.{IsLawful};
ghost use Rattle.tetri_space.specs.Sound.{IsSound};
ghost use Rattle.tetri_space.specs.Space.{space};

use std::alloc::{AllocError, Global};
use tetri_advice::{Advice, Advisor, PanelOf};
use tetri_lagrange::search;
use tetri_plan::{Chooser, Plan, choose};
use tetri_space::{Instance, find_partitions, lawful, total};
use tetri_strl::Allotment;

/// Asks a panel of advisors, and looks for prices and for a plan that they lead to. The plan that
/// it chooses is worth no less than each lawful list that it was given, and a search by branch and
/// bound follows where the cycle is not too wide.
#[derive(Drop)]
pub struct ByPrice<A: Advisor> {
    panel: PanelOf<A>,
}

impl<A: Advisor> ByPrice<A> {
    /// With this panel.
    pub fn new(panel: PanelOf<A>) -> Self {
        ByPrice { panel }
    }
}

// What is known to be attained: the greatest worth of what is carried over and of these lists.
fn known_worth(inst: &Instance, carry: &Allotment, given: &[Allotment]) -> u64
    requires { IsSound (space inst.now) }
{
    let mut most = total(inst, carry);
    for list in given {
        most = most.max(total(inst, list));
    }
    most
}

/// Looks for prices, and puts the plan that they lead to behind these lists, where it is lawful. Its
/// only error is want of memory.
pub fn add_priced(
    alloc: Global,
    inst: &Instance,
    carry: &Allotment,
    given: &mut Vec<Allotment>,
) -> Result<(), AllocError>
    requires sound { IsSound (space inst.now) }
    requires given { All (IsLawful (space inst.now)) given.old.items }
    ensures { OnOk result (All (IsLawful (space inst.entry.now)) given.new.items) }
{
    let parts = find_partitions(alloc, inst)?;
    let known = known_worth(inst, carry, given);
    let found = search(alloc, inst, &parts, &[], known)?;
    match lawful(inst, &found.plan) {
        Ok(()) => {
            given.push(found.plan)?;
            Ok(())
        }
        Err(_) => Ok(()),
    }
}

impl<A: Advisor> Chooser for ByPrice<A> {
    fn plan(
        &mut self,
        alloc: Global,
        inst: &Instance,
        carry: &Allotment,
        budget: u32,
    ) -> Result<Plan, AllocError> {
        let Advice { mut given, heard } = self.panel.consult(alloc, inst)?;
        add_priced(alloc, inst, carry, &mut given)?;
        let mut plan = choose(alloc, inst, carry, &given, budget)?;
        self.panel.teach(alloc, inst, &plan.grants);
        plan.heard = heard;
        Ok(plan)
    }
}
