// The picture of a report.
ghost use Rattle.std.specs.Prelude.{◌≡◌, ◌≢◌, ◌≤◌, ◌⊎◌, [], List, ℕ, Some, Ok};
ghost use Rattle.tetri_algebra.specs.Counts.{Rose};
ghost use Rattle.tetri_chart.specs.Charted.{IsChartPromised, IsDrawn};
ghost use Rattle.tetri_chart.specs.Gathered.{picture_with};
ghost use Rattle.tetri_chart.specs.Slots.{HasSlots};
ghost use Rattle.tetri_run.specs.Check.{IsAccepted};
ghost use Rattle.tetri_run.specs.CheckEnds.{Refuses, Rejects, TellsBadTrace, TellsReadFault};
ghost use Rattle.tetri_run.specs.Status.{RoseOf};
ghost use Rattle.tetri_run.specs.Words.{to_check};
ghost use Rattle.tetri_state.specs.Snapshot.{Snapshot};
ghost use Rattle.tetri_trace.specs.Lines.{scenario_in};
ghost use Rattle.tetri_trace.specs.Scenario.{Scenario, scenario};
ghost use Rattle.tetri_trace.specs.Sound.{IsSound};

use crate::gathering::{Gathering, chart_of};
use crate::slots::has_slots;
use crate::view::View;
use crate::writing::draw;
use std::alloc::Global;
use tetri_io::{Shelf, Sink};
use tetri_report::SendFault;
use tetri_run::{Status, check_seen};
use tetri_trace::Trace;

// Draws what was gathered of a run of the trace, where it has the cycle and the slots that are asked for.
fn draw_gathered<K: Sink>(
    alloc: Global,
    trace: &Trace,
    gathering: Gathering,
    view: &View,
    sink: &mut K,
) -> Status
    requires { IsSound (scenario trace.now) }
    ensures answer { (s : Snapshot) → s.now ≡ (scenario trace.entry.now).header.until
        → IsDrawn (scenario trace.entry.now) view.entry.now (picture_with (scenario trace.entry.now) s gathering []) result
        (K.written sink.old) (K.written sink.new) }
    ensures write { result ≡ Status.WriteFault → Rose (K.faults sink.old) (K.faults sink.new) }
    ensures later { K.faults sink.old ≤ K.faults sink.new }
{
    if !has_slots(trace, gathering.asked, view) {
        return Status::Usage;
    }
    let Ok(chart) = chart_of(gathering, trace.header.until) else {
        return Status::NoMemory;
    };
    match draw(alloc, trace, &chart, view, sink) {
        Ok(()) => Status::Done,
        Err(SendFault::Failed) => Status::WriteFault,
        Err(SendFault::NoMemory) => Status::NoMemory,
    }
}

/// Checks the report that a name holds against the trace that another one holds, as `run_check` does, and draws the picture of its run
/// where it is accepted, in these slots, with the grants that wait for a later slot in this cycle, if one is named. Each of the two is read
/// once. A report that is not accepted is refused as `run_check` refuses it. `Usage` comes exactly where the run of an accepted report has no
/// such cycle or slots.
/// Behind a `WriteFault` a proper front of the picture is written, and where memory ran out a front of it, perhaps nothing.
pub fn chart<S: Shelf, K: Sink>(
    alloc: Global,
    trace: &str,
    report: &str,
    cycle: Option<u32>,
    view: &View,
    shelf: &mut S,
    sink: &mut K,
) -> Status
    ensures drawn { (content lines : List ℕ) → S.told shelf.old trace.now ≡ Some content → S.told shelf.old report.now ≡ Some lines
        → IsChartPromised cycle view.now result (scenario_in content) lines (K.written sink.old) (K.written sink.new) }
    ensures bad_trace { TellsBadTrace (S.told shelf.old) (S.faults shelf.old) (S.faults shelf.new) trace.now report.now result }
    ensures silent { result ≢ Status.Done → result ≢ Status.WriteFault → result ≢ Status.NoMemory → K.written sink.new ≡ K.written sink.old }
    ensures read { TellsReadFault (S.told shelf.old) (S.faults shelf.old) (S.faults shelf.new) trace.now report.now result }
    ensures write { result ≡ Status.WriteFault → Rose (K.faults sink.old) (K.faults sink.new) }
    ensures accepts { (content lines : List ℕ) (t : Scenario) → S.told shelf.old trace.now ≡ Some content → scenario_in content ≡ Ok t
        → S.told shelf.old report.now ≡ Some lines → IsAccepted t lines → HasSlots t cycle view.now
        → ¬ RoseOf (to_check trace.now report.now) (S.faults shelf.old) (S.faults shelf.new)
        → ¬ Rose (K.faults sink.old) (K.faults sink.new)
        → (result ≡ Status.Done) ⊎ (result ≡ Status.NoMemory) }
    ensures no_slots { (content lines : List ℕ) (t : Scenario) → S.told shelf.old trace.now ≡ Some content → scenario_in content ≡ Ok t
        → S.told shelf.old report.now ≡ Some lines → IsAccepted t lines → ¬ HasSlots t cycle view.now
        → ¬ RoseOf (to_check trace.now report.now) (S.faults shelf.old) (S.faults shelf.new)
        → (result ≡ Status.Usage) ⊎ (result ≡ Status.NoMemory) }
    ensures rejects { Rejects (S.told shelf.old) (S.faults shelf.old) (S.faults shelf.new) trace.now report.now result }
    ensures refuses { Refuses (S.told shelf.old) (S.faults shelf.old) (S.faults shelf.new) trace.now report.now result }
    ensures same { S.told shelf.new ≡ S.told shelf.old }
    ensures later_reads { (other : List ℕ) → S.faults shelf.old other ≤ S.faults shelf.new other }
    ensures later_writes { K.faults sink.old ≤ K.faults sink.new }
{
    let mut gathering = Gathering::new(alloc, cycle);
    match check_seen(alloc, trace, report, shelf, &mut gathering) {
        Ok(trace) => draw_gathered(alloc, &trace, gathering, view, sink),
        Err(status) => status,
    }
}
