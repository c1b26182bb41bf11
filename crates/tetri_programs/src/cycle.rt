// The program of a cycle of a run.
ghost use Rattle.std.specs.Prelude.{◌≡◌, ◌<◌, ◌+◌, OnOk, IfOk};
ghost use Rattle.tetri_programs.specs.Exported.{IsExport};
ghost use Rattle.tetri_state.specs.Reached.{IsReached, between};
ghost use Rattle.tetri_trace.specs.Scenario.{scenario};
ghost use Rattle.tetri_trace.specs.Sound.{IsSound};

use crate::instance::{Exported, export_instance};
use std::alloc::{AllocError, Global};
use tetri_advice::{Advisor, PanelOf};
use tetri_export::Format;
use tetri_plan::plan_cycle;
use tetri_state::State;
use tetri_trace::Trace;

// Plans the cycle that begins in this state, and launches it.
fn pass_slot<A: Advisor>(
    alloc: Global,
    trace: &Trace,
    state: &mut State,
    panel: &mut PanelOf<A>,
) -> Result<(), AllocError>
    requires sound { IsSound (scenario trace.now) }
    requires reached { IsReached (scenario trace.now) between state.old }
    requires in_run { state.old.now < (scenario trace.now).header.until }
    ensures reached { OnOk result (IsReached (scenario trace.entry.now) between state.new) }
    ensures next { OnOk result (state.new.now ≡ state.old.now + 1) }
{
    let _happened = state.begin_cycle(alloc, trace)?;
    let inst = state.instance(alloc, trace)?;
    let carry = state.carry(alloc, trace, &inst)?;
    let plan = plan_cycle(alloc, &inst, &carry, panel, trace.header.budget)?;
    let prepared = state.prepare(alloc, trace, &inst, &plan.grants)?;
    state.apply(prepared);
    Ok(())
}

/// The program of the cycle of this number in a format, where the cycles before it are planned as `run_plan`
/// plans them with this panel. Its only error is want of memory.
pub fn export_cycle<A: Advisor>(
    alloc: Global,
    trace: &Trace,
    cycle: u32,
    format: Format,
    panel: &mut PanelOf<A>,
) -> Result<Exported, AllocError>
    requires { IsSound (scenario trace.now) }
    ensures { IfOk result (IsExport (scenario trace.entry.now) format cycle) }
{
    if cycle >= trace.header.until {
        return Ok(Exported::NoCycle);
    }
    let mut state = State::open(alloc, trace)?;
    for number in 0..cycle {
        pass_slot(alloc, trace, &mut state, panel)?;
    }
    let _happened = state.begin_cycle(alloc, trace)?;
    let inst = state.instance(alloc, trace)?;
    export_instance(alloc, &inst, &trace.cluster, format)
}
