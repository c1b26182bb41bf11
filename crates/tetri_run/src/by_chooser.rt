// The cycles of a run whose plans a chooser chooses, and their report.
ghost use Rattle.std.specs.Prelude.{◌≡◌, ◌≢◌, ◌⊎◌, ◌≤◌, ℕ, List, Some, Ok, Err, IsErrOf, OnOk};
ghost use Rattle.tetri_algebra.specs.Counts.{Rose};
ghost use Rattle.tetri_cycles.specs.Told.{StoppedBetween, StoppedInText, WroteRun};
ghost use Rattle.tetri_notice.specs.declared.fault.TraceWhy.{TraceWhy};
ghost use Rattle.tetri_run.specs.Chosen.{IsChosenRun};
ghost use Rattle.tetri_run.specs.Status.{IsPromisedOf, IsRunAnswer, IsSilent};
ghost use Rattle.tetri_run.specs.Telling.{block_cycles};
ghost use Rattle.tetri_run.specs.declared.why.Why.{Why};
ghost use Rattle.tetri_trace.specs.Lines.{scenario_in};
ghost use Rattle.tetri_trace.specs.Scenario.{Scenario, scenario};
ghost use Rattle.tetri_trace.specs.Sound.{IsSound};

use crate::by_panel::optimal_count;
use crate::planner::told_choice;
use crate::status::Status;
use crate::telling::{Telling, told_text};
use crate::top::status_of;
use std::alloc::{AllocError, Global};
use tetri_cycles::{Planner, Ready, SlotTally, run_cycles};
use tetri_io::{Shelf, Sink};
use tetri_plan::Chooser;
use tetri_report::SendFault;
use tetri_state::State;
use tetri_trace::{Trace, read_trace};

/// Plans the cycles of a run as a chooser chooses.
#[derive(Drop)]
pub struct ByChooser<C> {
    /// What chooses the plans.
    pub chooser: C,
}

impl<C: Chooser> Planner<Telling> for ByChooser<C> {
    ghost use Rattle.tetri_run.specs.Chosen.{by_chooser};

    ghost planning = { by_chooser };

    fn ready(
        &mut self,
        alloc: Global,
        trace: &Trace,
        state: &mut State,
        telling: Telling,
    ) -> Result<Ready, AllocError> {
        let happened = state.begin_cycle(alloc, trace)?;
        let inst = state.instance(alloc, trace)?;
        let carry = state.carry(alloc, trace, &inst)?;
        let told = told_choice(alloc, trace, &inst, happened, &carry, &mut self.chooser)?;
        let text = told_text(alloc, trace, &inst, &told.cycle, telling)?;
        let tally = SlotTally {
            worth: told.launch.worth,
            optimal: optimal_count(told.cycle.mark),
        };
        let prepared = state.prepare_launch(alloc, told.launch, &told.cycle.grants)?;
        Ok(Ready {
            text,
            prepared,
            tally,
        })
    }
}

// Runs all slots and tells each, and then writes the summary.
fn write_chosen<K: Sink, C: Chooser>(
    alloc: Global,
    trace: &Trace,
    sink: &mut K,
    planner: &mut ByChooser<C>,
) -> Result<(), SendFault>
    requires { IsSound (scenario trace.now) }
    ensures ok { OnOk result (WroteRun block_cycles Telling.Report IsChosenRun
        (scenario trace.entry.now) (K.written sink.old) (K.written sink.new)) }
    ensures failed { IsErrOf result SendFault.Failed
        → StoppedInText block_cycles Telling.Report IsChosenRun
        (scenario trace.entry.now) (K.written sink.old) (K.written sink.new) }
    ensures memory { IsErrOf result SendFault.NoMemory
        → StoppedBetween block_cycles Telling.Report IsChosenRun
        (scenario trace.entry.now) (K.written sink.old) (K.written sink.new) }
    ensures write { IsErrOf result SendFault.Failed
        → Rose (K.faults sink.old) (K.faults sink.new) }
    ensures later { K.faults sink.old ≤ K.faults sink.new }
{
    run_cycles(alloc, trace, sink, planner, Telling::Report)
}

// The status of a run whose plans a chooser chooses.
fn tell_chosen<K: Sink, C: Chooser>(
    alloc: Global,
    trace: &Trace,
    sink: &mut K,
    planner: &mut ByChooser<C>,
) -> Status
    requires { IsSound (scenario trace.now) }
    ensures usage { result ≢ Status.Usage }
    ensures refused { (line : ℕ) (why : Why) → result ≢ Status.Refused line why }
    ensures good_trace { (line : ℕ) (why : TraceWhy) → result ≢ Status.BadTrace line why }
    ensures read { result ≢ Status.ReadFault }
    ensures silent { IsSilent result (K.written sink.old) (K.written sink.new) }
    ensures answer { IsRunAnswer Telling.Report IsChosenRun result (scenario trace.entry.now)
        (K.written sink.old) (K.written sink.new) }
    ensures write { result ≡ Status.WriteFault → Rose (K.faults sink.old) (K.faults sink.new) }
    ensures complete { ¬ Rose (K.faults sink.old) (K.faults sink.new)
        → (result ≡ Status.Done) ⊎ (result ≡ Status.NoMemory) }
    ensures later { K.faults sink.old ≤ K.faults sink.new }
{
    match write_chosen(alloc, trace, sink, planner) {
        Ok(()) => Status::Done,
        Err(SendFault::Failed) => Status::WriteFault,
        Err(SendFault::NoMemory) => Status::NoMemory,
    }
}

/// Plans the trace that a name holds as a chooser chooses, and writes its report as `run_plan`
/// does: it is the report of a run of the trace, no lawful allotment of a cycle is worth more than
/// the cycle's bound, and `check` accepts it.
pub fn run_chosen<S: Shelf, K: Sink, C: Chooser>(
    alloc: Global,
    name: &str,
    shelf: &mut S,
    sink: &mut K,
    planner: &mut ByChooser<C>,
) -> Status
    ensures usage { result ≢ Status.Usage }
    ensures refused { (line : ℕ) (why : Why) → result ≢ Status.Refused line why }
    ensures promise { (content : List ℕ) → S.told shelf.old name.now ≡ Some content
        → IsPromisedOf IsChosenRun result (scenario_in content)
        (K.written sink.old) (K.written sink.new) }
    ensures silent { IsSilent result (K.written sink.old) (K.written sink.new) }
    ensures read { result ≡ Status.ReadFault
        → Rose (S.faults shelf.old name.now) (S.faults shelf.new name.now) }
    ensures write { result ≡ Status.WriteFault → Rose (K.faults sink.old) (K.faults sink.new) }
    ensures complete { (content : List ℕ) (t : Scenario)
        → S.told shelf.old name.now ≡ Some content → scenario_in content ≡ Ok t
        → ¬ Rose (S.faults shelf.old name.now) (S.faults shelf.new name.now)
        → ¬ Rose (K.faults sink.old) (K.faults sink.new)
        → (result ≡ Status.Done) ⊎ (result ≡ Status.NoMemory) }
    ensures refuses { (content : List ℕ) (line : ℕ) (why : TraceWhy)
        → S.told shelf.old name.now ≡ Some content → scenario_in content ≡ Err (line, why)
        → ¬ Rose (S.faults shelf.old name.now) (S.faults shelf.new name.now)
        → (result ≡ Status.BadTrace line why) ⊎ (result ≡ Status.NoMemory) }
    ensures same { S.told shelf.new ≡ S.told shelf.old }
    ensures later_reads { (other : List ℕ)
        → S.faults shelf.old other ≤ S.faults shelf.new other }
    ensures later_writes { K.faults sink.old ≤ K.faults sink.new }
{
    match read_trace(alloc, shelf, name) {
        Ok(trace) => tell_chosen(alloc, &trace, sink, planner),
        Err(fault) => status_of(fault),
    }
}
