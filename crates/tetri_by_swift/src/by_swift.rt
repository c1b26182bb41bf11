// Plans by a panel, by a swift search and by prices.
ghost use Rattle.tetri_space.specs.Sound.{IsSound};
ghost use Rattle.tetri_space.specs.Space.{space};

use crate::turns::plan_in_turns;
use std::alloc::{AllocError, Global};
use tetri_advice::{Advice, Advisor, PanelOf};
use tetri_plan::{Chooser, Plan};
use tetri_space::Instance;
use tetri_strl::Allotment;

/// Asks a panel of advisors, and searches by branch and bound where the cycle is not too wide, with
/// the engine `Swift` of tetri_swift, which goes on at each node from the dictionary of the node
/// above: first some nodes, and where these do not settle the plan it looks for prices and for a plan
/// that they lead to, and searches with the whole budget.
#[derive(Drop)]
pub struct BySwift<A: Advisor> {
    panel: PanelOf<A>,
    keep_bytes: usize,
}

impl<A: Advisor> BySwift<A> {
    /// With this panel, and so many bytes for copies of dictionaries.
    pub fn new(panel: PanelOf<A>, keep_bytes: usize) -> Self {
        BySwift { panel, keep_bytes }
    }
}

impl<A: Advisor> Chooser for BySwift<A> {
    fn plan(
        &mut self,
        alloc: Global,
        inst: &Instance,
        carry: &Allotment,
        budget: u32,
    ) -> Result<Plan, AllocError> {
        let Advice { given, heard } = self.panel.consult(alloc, inst)?;
        let mut plan = plan_in_turns(alloc, inst, carry, given, budget, self.keep_bytes)?;
        self.panel.teach(alloc, inst, &plan.grants);
        plan.heard = heard;
        Ok(plan)
    }
}
