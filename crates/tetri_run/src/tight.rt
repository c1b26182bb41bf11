// A run whose bounds are tightened by cuts.
ghost use Rattle.std.specs.Prelude.{◌≡◌, ◌≢◌, ◌⊎◌, ◌≤◌, ℕ, List, Some, Ok, Err};
ghost use Rattle.tetri_advice.specs.Seat.{creeds_of};
ghost use Rattle.tetri_advice.specs.Sitting.{seats};
ghost use Rattle.tetri_algebra.specs.Counts.{Rose};
ghost use Rattle.tetri_run.specs.Advised.{IsAdvisedRun};
ghost use Rattle.tetri_run.specs.Status.{IsSilent, IsTightPromised};
ghost use Rattle.tetri_run.specs.declared.why.Why.{Why};
ghost use Rattle.tetri_trace.specs.Lines.{scenario_in};
ghost use Rattle.tetri_trace.specs.Scenario.{Scenario};
ghost use Rattle.tetri_notice.specs.declared.fault.TraceWhy.{TraceWhy};

use crate::status::Status;
use crate::telling::Telling;
use crate::told::run_told;
use crate::top::status_of;
use std::alloc::Global;
use tetri_advice::Panel;
use tetri_io::{Shelf, Sink};
use tetri_trace::read_trace;

/// Plans the trace that a name holds as `run_plan` does, with the same panel and in the same
/// cycles, and writes what cuts make of the bound of each: a cycle's lines by one send once the
/// panel was asked and it is planned, and then the summary by one more.
pub fn run_tight<S: Shelf, K: Sink>(
    alloc: Global,
    name: &str,
    shelf: &mut S,
    sink: &mut K,
    panel: &mut Panel,
) -> Status
    ensures usage { result ≢ Status.Usage }
    ensures refused { (line : ℕ) (why : Why) → result ≢ Status.Refused line why }
    ensures promise { (content : List ℕ) → S.told shelf.old name.now ≡ Some content
        → IsTightPromised
        (IsAdvisedRun
        (seats (λ b. says b) (λ b. misses b)
        (λ b. creed b) panel.old) panel.old.missed panel.new.missed)
        result (scenario_in content) (K.written sink.old) (K.written sink.new) }
    ensures silent { IsSilent result (K.written sink.old) (K.written sink.new) }
    ensures read { result ≡ Status.ReadFault
        → Rose (S.faults shelf.old name.now) (S.faults shelf.new name.now) }
    ensures write { result ≡ Status.WriteFault → Rose (K.faults sink.old) (K.faults sink.new) }
    ensures complete { (content : List ℕ) (t : Scenario) → S.told shelf.old name.now ≡ Some content
        → scenario_in content ≡ Ok t
        → ¬ Rose (S.faults shelf.old name.now) (S.faults shelf.new name.now)
        → ¬ Rose (K.faults sink.old) (K.faults sink.new)
        → (result ≡ Status.Done) ⊎ (result ≡ Status.NoMemory) }
    ensures refuses { (content : List ℕ) (line : ℕ) (why : TraceWhy)
        → S.told shelf.old name.now ≡ Some content
        → scenario_in content ≡ Err (line, why)
        → ¬ Rose (S.faults shelf.old name.now) (S.faults shelf.new name.now)
        → (result ≡ Status.BadTrace line why) ⊎ (result ≡ Status.NoMemory) }
    ensures same { S.told shelf.new ≡ S.told shelf.old }
    ensures later_reads { (other : List ℕ) → S.faults shelf.old other ≤ S.faults shelf.new other }
    ensures creeds { creeds_of (seats (λ b. says b) (λ b. misses b) (λ b. creed b) panel.new)
        ≡ creeds_of (seats (λ b. says b) (λ b. misses b) (λ b. creed b) panel.old) }
    ensures later_writes { K.faults sink.old ≤ K.faults sink.new }
    ensures later_misses { panel.old.missed ≤ panel.new.missed }
{
    match read_trace(alloc, shelf, name) {
        Ok(trace) => run_told(alloc, &trace, sink, panel, Telling::Tight),
        Err(fault) => status_of(fault),
    }
}
