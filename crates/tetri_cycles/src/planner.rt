// What plans the cycles of a run.
ghost use Rattle.std.specs.Prelude.{◌≡◌, ◌<◌, ◌≤◌, ◌^◌, IfOk, OnOk};
ghost use Rattle.tetri_cycles.specs.Planning.{Planning};
ghost use Rattle.tetri_cycles.specs.Ready.{IsReady};
ghost use Rattle.tetri_state.specs.Begin.{begin};
ghost use Rattle.tetri_state.specs.Reached.{IsReached, between};
ghost use Rattle.tetri_trace.specs.Scenario.{scenario};
ghost use Rattle.tetri_trace.specs.Sound.{IsSound};

use std::alloc::{AllocError, Global};
use tetri_state::{Prepared, State};
use tetri_trace::Trace;

/// What one slot adds to the numbers of a run: what its launched jobs are worth, and 1 where its plan is optimal, else 0.
#[derive(Clone, Copy, Debug)]
pub struct SlotTally {
    pub worth: u64,
    pub optimal: u64,
}

/// A cycle that is ready: the bytes of the text that tells of it, what it launches, and what it adds to the numbers of the run.
#[derive(Drop)]
pub struct Ready {
    pub text: Vec<u8>,
    pub prepared: Prepared,
    pub tally: SlotTally,
}

/// What plans the cycles of a run, one after another, and tells each as it is asked to by a `T`. It may search, ask others or follow a
/// rule.
pub trait Planner<T> {
    /// What its cycles are, which of them it may plan in a state, and which text tells of each.
    ghost planning: { Planning Self T };

    /// Begins the slot of a state that a run of the trace reaches, plans its cycle, and makes the text that tells of it and its launch
    /// ready. The only error is want of memory.
    fn ready(
        &mut self,
        alloc: Global,
        trace: &Trace,
        state: &mut State,
        telling: T,
    ) -> Result<Ready, AllocError>
        requires sound { IsSound (scenario trace.now) }
        requires reached { IsReached (scenario trace.now) between state.old }
        requires in_run { state.old.now < (scenario trace.now).header.until }
        ensures begun { OnOk result (state.new ≡ begin (scenario trace.entry.now) state.old) }
        ensures ready { IfOk result (IsReady planning telling self.old self.new (scenario trace.entry.now) state.old) }
        ensures most { IfOk result (λ r. r.tally.optimal ≤ 1) }
        ensures small { IfOk result (λ r. r.tally.worth < 2 ^ 64) }
        ensures follows { planning.Follows self.old self.new };
}
