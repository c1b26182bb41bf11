// The cycles of a run, one a slot.
ghost use Rattle.std.specs.Prelude.{◌≡◌, ◌≤◌, ◌<◌, ◌^◌, IfOk, IsErrOf, OnOk};
ghost use Rattle.tetri_algebra.specs.Counts.{Rose};
ghost use Rattle.tetri_cycles.specs.Progress.{IsRunBy, RanAll, RanSome};
ghost use Rattle.tetri_cycles.specs.Told.{StoppedBetween, StoppedInText, WroteRun};
ghost use Rattle.tetri_report.specs.Printable.{IsSummaryInRange};
ghost use Rattle.tetri_trace.specs.Scenario.{scenario};
ghost use Rattle.tetri_trace.specs.Sound.{IsSound};

use crate::planner::Planner;
use crate::slot::run_slot;
use crate::tally::{RunTally, summary_at};
use std::alloc::Global;
use tetri_io::{Sink, send_all};
use tetri_report::{SendFault, Summary, print_summary};
use tetri_state::State;
use tetri_trace::Trace;

// Runs all slots, from the opening state on, and tells each.
fn run_slots<T: Copy, P: Planner<T>, K: Sink>(
    alloc: Global,
    trace: &Trace,
    sink: &mut K,
    planner: &mut P,
    telling: T,
) -> Result<Summary, SendFault>
    requires { IsSound (scenario trace.now) }
    ensures ok { IfOk result (λ summary. RanAll P.planning telling planner.old planner.new (scenario trace.entry.now) summary
        (K.written sink.old) (K.written sink.new)) }
    ensures small { IfOk result (λ summary. summary.worth < 2 ^ 127) }
    ensures in_range { IfOk result IsSummaryInRange }
    ensures failed { IsErrOf result SendFault.Failed → StoppedInText P.planning.kind telling
        (IsRunBy P.planning planner.old planner.new) (scenario trace.entry.now) (K.written sink.old) (K.written sink.new) }
    ensures memory { IsErrOf result SendFault.NoMemory → StoppedBetween P.planning.kind telling
        (IsRunBy P.planning planner.old planner.new) (scenario trace.entry.now) (K.written sink.old) (K.written sink.new) }
    ensures write { IsErrOf result SendFault.Failed → Rose (K.faults sink.old) (K.faults sink.new) }
    ensures later { K.faults sink.old ≤ K.faults sink.new }
    ensures some { RanSome P.planning planner.old planner.new (scenario trace.entry.now) }
{
    let mut state = State::open(alloc, trace)?;
    let mut tally = RunTally {
        worth: 0,
        optimal: 0,
    };
    for number in 0..trace.header.until {
        let slot = run_slot(alloc, trace, &mut state, sink, planner, telling)?;
        tally.worth += u128::from(slot.worth);
        tally.optimal += slot.optimal;
    }
    Ok(summary_at(&state, tally))
}

/// Runs a trace by a planner, one cycle a slot, and tells each cycle by one send once it is planned, and then writes the summary by one
/// more. A fault leaves whole texts and a proper front of the next one, and want of memory whole texts alone.
pub fn run_cycles<T: Copy, P: Planner<T>, K: Sink>(
    alloc: Global,
    trace: &Trace,
    sink: &mut K,
    planner: &mut P,
    telling: T,
) -> Result<(), SendFault>
    requires { IsSound (scenario trace.now) }
    ensures ok { OnOk result (WroteRun P.planning.kind telling (IsRunBy P.planning planner.old planner.new)
        (scenario trace.entry.now) (K.written sink.old) (K.written sink.new)) }
    ensures failed { IsErrOf result SendFault.Failed → StoppedInText P.planning.kind telling
        (IsRunBy P.planning planner.old planner.new) (scenario trace.entry.now) (K.written sink.old) (K.written sink.new) }
    ensures memory { IsErrOf result SendFault.NoMemory → StoppedBetween P.planning.kind telling
        (IsRunBy P.planning planner.old planner.new) (scenario trace.entry.now) (K.written sink.old) (K.written sink.new) }
    ensures write { IsErrOf result SendFault.Failed → Rose (K.faults sink.old) (K.faults sink.new) }
    ensures later { K.faults sink.old ≤ K.faults sink.new }
    ensures some { RanSome P.planning planner.old planner.new (scenario trace.entry.now) }
{
    let summary = run_slots(alloc, trace, sink, planner, telling)?;
    let text = print_summary(alloc, &summary)?;
    send_all(sink, &text)?;
    Ok(())
}
