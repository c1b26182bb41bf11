// The pictures of two reports of one trace.
ghost use Rattle.std.specs.Prelude.{◌≡◌, ◌≢◌, ◌≤◌, ◌⊎◌, [], List, ℕ, Some, Ok};
ghost use Rattle.tetri_algebra.specs.Counts.{Rose};
ghost use Rattle.tetri_chart.specs.Charted.{IsTextDrawn};
ghost use Rattle.tetri_chart.specs.Gathered.{picture_with};
ghost use Rattle.tetri_chart.specs.Pair.{pair_text};
ghost use Rattle.tetri_chart.specs.PairCharted.{IsPairPromised, IsSecondRefusal, first_status, status_in};
ghost use Rattle.tetri_chart.specs.Slots.{HasSlots};
ghost use Rattle.tetri_run.specs.Check.{IsAccepted};
ghost use Rattle.tetri_run.specs.CheckEnds.{Refuses, Rejects, TellsBadTrace, TellsReadFault};
ghost use Rattle.tetri_run.specs.Status.{RoseOf};
ghost use Rattle.tetri_run.specs.Words.{to_check};
ghost use Rattle.tetri_state.specs.Snapshot.{Snapshot};
ghost use Rattle.tetri_trace.specs.Lines.{scenario_in};
ghost use Rattle.tetri_trace.specs.Scenario.{Scenario, scenario};
ghost use Rattle.tetri_trace.specs.Sound.{IsSound};

use crate::gathering::{Gathering, chart_of};
use crate::pair_status::PairStatus;
use crate::sheet::draw_pair;
use crate::slots::has_slots;
use crate::view::View;
use std::alloc::Global;
use tetri_io::{Shelf, Sink};
use tetri_report::SendFault;
use tetri_run::{Status, check_seen};
use tetri_trace::Trace;

// Draws what was gathered of two runs of the trace, where it has the cycle and the slots that are asked for.
fn draw_gathered_pair<K: Sink>(
    alloc: Global,
    trace: &Trace,
    cycle: Option<u32>,
    first: Gathering,
    second: Gathering,
    view: View,
    sink: &mut K,
) -> Status
    requires { IsSound (scenario trace.now) }
    ensures answer { (r s : Snapshot) → r.now ≡ (scenario trace.entry.now).header.until → s.now ≡ (scenario trace.entry.now).header.until
        → IsTextDrawn (HasSlots (scenario trace.entry.now) cycle view)
        (pair_text (scenario trace.entry.now) view (picture_with (scenario trace.entry.now) r first []) (picture_with (scenario trace.entry.now) s second []))
        result (K.written sink.old) (K.written sink.new) }
    ensures write { result ≡ Status.WriteFault → Rose (K.faults sink.old) (K.faults sink.new) }
    ensures later { K.faults sink.old ≤ K.faults sink.new }
{
    if !has_slots(trace, cycle, &view) {
        return Status::Usage;
    }
    let until = trace.header.until;
    let Ok(upper) = chart_of(first, until) else {
        return Status::NoMemory;
    };
    let Ok(lower) = chart_of(second, until) else {
        return Status::NoMemory;
    };
    match draw_pair(alloc, trace, &upper, &lower, view, sink) {
        Ok(()) => Status::Done,
        Err(SendFault::Failed) => Status::WriteFault,
        Err(SendFault::NoMemory) => Status::NoMemory,
    }
}

/// Checks two reports of the trace that a name holds, the first and then the second, as `run_check` does, and where both are accepted draws the
/// pictures of their runs, the first above the second. Both are shown over the same slots, up to the later of their ends where the view names no
/// last slot, and each is the picture that `chart` draws of its report alone over these. The trace is read once with each report. Where one is not
/// accepted it says which and why, and writes nothing.
/// Behind a `WriteFault` a proper front of both pictures is written, and where memory ran out a front of them, perhaps nothing.
pub fn chart_pair<S: Shelf, K: Sink>(
    alloc: Global,
    trace: &str,
    first: &str,
    second: &str,
    cycle: Option<u32>,
    view: View,
    shelf: &mut S,
    sink: &mut K,
) -> PairStatus
    ensures drawn { (content upper lower : List ℕ) → S.told shelf.old trace.now ≡ Some content → S.told shelf.old first.now ≡ Some upper
        → S.told shelf.old second.now ≡ Some lower
        → IsPairPromised cycle view result (scenario_in content) upper lower (K.written sink.old) (K.written sink.new) }
    ensures bad_trace { TellsBadTrace (S.told shelf.old) (S.faults shelf.old) (S.faults shelf.new) trace.now first.now (status_in result) }
    ensures silent { status_in result ≢ Status.Done → status_in result ≢ Status.WriteFault → status_in result ≢ Status.NoMemory
        → K.written sink.new ≡ K.written sink.old }
    ensures read_first { TellsReadFault (S.told shelf.old) (S.faults shelf.old) (S.faults shelf.new) trace.now first.now (first_status result) }
    ensures read_second { result ≡ PairStatus.Second Status.ReadFault
        → RoseOf (to_check trace.now second.now) (S.faults shelf.old) (S.faults shelf.new) }
    ensures write { status_in result ≡ Status.WriteFault → Rose (K.faults sink.old) (K.faults sink.new) }
    ensures accepts { (content upper lower : List ℕ) (t : Scenario) → S.told shelf.old trace.now ≡ Some content → scenario_in content ≡ Ok t
        → S.told shelf.old first.now ≡ Some upper → IsAccepted t upper → S.told shelf.old second.now ≡ Some lower → IsAccepted t lower
        → HasSlots t cycle view
        → ¬ RoseOf (to_check trace.now first.now) (S.faults shelf.old) (S.faults shelf.new)
        → ¬ RoseOf (to_check trace.now second.now) (S.faults shelf.old) (S.faults shelf.new)
        → ¬ Rose (K.faults sink.old) (K.faults sink.new)
        → (result ≡ PairStatus.Both Status.Done) ⊎ (status_in result ≡ Status.NoMemory) }
    ensures no_slots { (content upper lower : List ℕ) (t : Scenario) → S.told shelf.old trace.now ≡ Some content → scenario_in content ≡ Ok t
        → S.told shelf.old first.now ≡ Some upper → IsAccepted t upper → S.told shelf.old second.now ≡ Some lower → IsAccepted t lower
        → ¬ HasSlots t cycle view
        → ¬ RoseOf (to_check trace.now first.now) (S.faults shelf.old) (S.faults shelf.new)
        → ¬ RoseOf (to_check trace.now second.now) (S.faults shelf.old) (S.faults shelf.new)
        → (result ≡ PairStatus.Both Status.Usage) ⊎ (status_in result ≡ Status.NoMemory) }
    ensures rejects_first { Rejects (S.told shelf.old) (S.faults shelf.old) (S.faults shelf.new) trace.now first.now (first_status result) }
    ensures rejects_second { (content upper lower : List ℕ) (t : Scenario) → S.told shelf.old trace.now ≡ Some content → scenario_in content ≡ Ok t
        → S.told shelf.old first.now ≡ Some upper → IsAccepted t upper → S.told shelf.old second.now ≡ Some lower → ¬ IsAccepted t lower
        → ¬ RoseOf (to_check trace.now first.now) (S.faults shelf.old) (S.faults shelf.new)
        → ¬ RoseOf (to_check trace.now second.now) (S.faults shelf.old) (S.faults shelf.new)
        → IsSecondRefusal result t lower ⊎ (status_in result ≡ Status.NoMemory) }
    ensures refuses { Refuses (S.told shelf.old) (S.faults shelf.old) (S.faults shelf.new) trace.now first.now (first_status result) }
    ensures same { S.told shelf.new ≡ S.told shelf.old }
    ensures later_reads { (other : List ℕ) → S.faults shelf.old other ≤ S.faults shelf.new other }
    ensures later_writes { K.faults sink.old ≤ K.faults sink.new }
{
    let mut upper = Gathering::new(alloc, cycle);
    match check_seen(alloc, trace, first, shelf, &mut upper) {
        Ok(_) => {}
        Err(status) => return PairStatus::First(status),
    }
    let mut lower = Gathering::new(alloc, cycle);
    match check_seen(alloc, trace, second, shelf, &mut lower) {
        Ok(trace) => {
            let status = draw_gathered_pair(alloc, &trace, cycle, upper, lower, view, sink);
            PairStatus::Both(status)
        }
        Err(status) => PairStatus::Second(status),
    }
}
