// The cycles of a run that are planned once a panel was asked.
ghost use Rattle.std.specs.Prelude.{◌≡◌, ◌≤◌};
ghost use Rattle.tetri_run.specs.Telling.{optimal_count};

use crate::planner::told_cycle;
use crate::telling::{Telling, told_text};
use std::alloc::{AllocError, Global};
use tetri_advice::{Advisor, PanelOf};
use tetri_cert::PlanMark;
use tetri_cycles::{Planner, Ready, SlotTally};
use tetri_state::State;
use tetri_trace::Trace;

/// 1 where a plan is optimal, else 0.
pub(crate) fn optimal_count(mark: PlanMark) -> u64
    ensures value { result ≡ optimal_count mark }
    ensures most { result ≤ 1 }
{
    match mark {
        PlanMark::Optimal => 1,
        PlanMark::Spent => 0,
        PlanMark::Wide => 0,
    }
}

impl<A: Advisor> Planner<Telling> for PanelOf<A> {
    ghost use Rattle.tetri_advice.specs.Sitting.{seats};
    ghost use Rattle.tetri_run.specs.Advised.{by_panel};

    ghost planning = { by_panel (seats A.says A.misses A.creed) (λ p. p.missed) };

    fn ready(
        &mut self,
        alloc: Global,
        trace: &Trace,
        state: &mut State,
        telling: Telling,
    ) -> Result<Ready, AllocError> {
        let happened = state.begin_cycle(alloc, trace)?;
        let inst = state.instance(alloc, trace)?;
        let carry = state.carry(alloc, trace, &inst)?;
        let told = told_cycle(alloc, trace, &inst, happened, &carry, self)?;
        let text = told_text(alloc, trace, &inst, &told.cycle, telling)?;
        let tally = SlotTally {
            worth: told.launch.worth,
            optimal: optimal_count(told.cycle.mark),
        };
        let prepared = state.prepare_launch(alloc, told.launch, &told.cycle.grants)?;
        Ok(Ready {
            text,
            prepared,
            tally,
        })
    }
}
