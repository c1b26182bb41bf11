// A run that is planned part by part.
ghost use Rattle.std.specs.Prelude.{◌≡◌, ◌≤◌, IsErrOf, OnOk};
ghost use Rattle.tetri_algebra.specs.Counts.{Rose};
ghost use Rattle.tetri_commands.specs.PartsRun.{StoppedBetweenParts, StoppedInPartsText, WroteParts};
ghost use Rattle.tetri_trace.specs.Scenario.{scenario};
ghost use Rattle.tetri_trace.specs.Sound.{IsSound};

use crate::planning::plan_by_parts;
use std::alloc::{AllocError, Global};
use tetri_cycles::{Planner, Ready, SlotTally, run_cycles};
use tetri_io::Sink;
use tetri_report::{SendFault, print_events, print_launches};
use tetri_state::{State, find_launch};
use tetri_trace::Trace;

// Plans each cycle part by part, with a program and a budget for each part, and asks nobody.
#[derive(Drop)]
struct ByParts;

impl Planner<()> for ByParts {
    ghost use Rattle.tetri_commands.specs.PartsRun.{by_parts};

    ghost planning = { by_parts };

    fn ready(
        &mut self,
        alloc: Global,
        trace: &Trace,
        state: &mut State,
        _: (),
    ) -> Result<Ready, AllocError> {
        let happened = state.begin_cycle(alloc, trace)?;
        let inst = state.instance(alloc, trace)?;
        let carry = state.carry(alloc, trace, &inst)?;
        let plan = plan_by_parts(alloc, trace, &inst, &carry)?;
        let launch = find_launch(alloc, trace, &inst, plan.grants.as_slice())?;
        let mut text = print_events(alloc, trace, inst.now, &happened)?;
        text.extend_from_slice(&plan.text)?;
        let launches = print_launches(alloc, trace, &launch.jobs)?;
        text.extend_from_slice(&launches)?;
        let tally = SlotTally {
            worth: launch.worth,
            optimal: plan.optimal,
        };
        let prepared = state.prepare_launch(alloc, launch, &plan.grants)?;
        Ok(Ready {
            text,
            prepared,
            tally,
        })
    }
}

/// Runs a trace and plans each cycle part by part: each cycle is written by one send once it is planned, and then the summary by one
/// more. A fault leaves whole cycles and a proper front of the next text, and want of memory whole cycles alone.
pub fn run_by_parts<K: Sink>(alloc: Global, trace: &Trace, sink: &mut K) -> Result<(), SendFault>
    requires { IsSound (scenario trace.now) }
    ensures ok { OnOk result (WroteParts (scenario trace.entry.now) (K.written sink.old) (K.written sink.new)) }
    ensures failed { IsErrOf result SendFault.Failed → StoppedInPartsText (scenario trace.entry.now) (K.written sink.old) (K.written sink.new) }
    ensures memory { IsErrOf result SendFault.NoMemory → StoppedBetweenParts (scenario trace.entry.now) (K.written sink.old) (K.written sink.new) }
    ensures write { IsErrOf result SendFault.Failed → Rose (K.faults sink.old) (K.faults sink.new) }
    ensures later { K.faults sink.old ≤ K.faults sink.new }
{
    let mut planner = ByParts;
    run_cycles(alloc, trace, sink, &mut planner, ())
}
