// One slot of a run.
ghost use Rattle.std.specs.Prelude.{◌≡◌, ◌≤◌, ◌<◌, ◌^◌, IfOk, IsErrOf};
ghost use Rattle.tetri_algebra.specs.Counts.{Rose};
ghost use Rattle.tetri_cycles.specs.Progress.{RanSlot, StoppedInSlot};
ghost use Rattle.tetri_state.specs.Reached.{IsReached, between};
ghost use Rattle.tetri_trace.specs.Scenario.{scenario};
ghost use Rattle.tetri_trace.specs.Sound.{IsSound};

use crate::planner::{Planner, SlotTally};
use std::alloc::Global;
use tetri_io::{Sink, send_all};
use tetri_report::SendFault;
use tetri_state::State;
use tetri_trace::Trace;

/// Runs the slot that begins in this state: its cycle is planned and prepared, then told by one send, and then applied. What is written
/// at a fault is a proper front of its text, and without memory nothing is.
pub(crate) fn run_slot<T: Copy, P: Planner<T>, K: Sink>(
    alloc: Global,
    trace: &Trace,
    state: &mut State,
    sink: &mut K,
    planner: &mut P,
    telling: T,
) -> Result<SlotTally, SendFault>
    requires sound { IsSound (scenario trace.now) }
    requires reached { IsReached (scenario trace.now) between state.old }
    requires in_run { state.old.now < (scenario trace.now).header.until }
    ensures ok { IfOk result (λ tally. RanSlot P.planning telling planner.old planner.new (scenario trace.entry.now)
        state.old state.new tally (K.written sink.old) (K.written sink.new)) }
    ensures most { IfOk result (λ tally. tally.optimal ≤ 1) }
    ensures small { IfOk result (λ tally. tally.worth < 2 ^ 64) }
    ensures failed { IsErrOf result SendFault.Failed → StoppedInSlot P.planning telling planner.old planner.new
        (scenario trace.entry.now) state.old (K.written sink.old) (K.written sink.new) }
    ensures memory { IsErrOf result SendFault.NoMemory → K.written sink.new ≡ K.written sink.old }
    ensures write { IsErrOf result SendFault.Failed → Rose (K.faults sink.old) (K.faults sink.new) }
    ensures later { K.faults sink.old ≤ K.faults sink.new }
    ensures follows { P.planning.Follows planner.old planner.new }
{
    let ready = planner.ready(alloc, trace, state, telling)?;
    send_all(sink, &ready.text)?;
    state.apply(ready.prepared);
    Ok(ready.tally)
}
