// A trace that is planned part by part.
ghost use Rattle.std.specs.Prelude.{◌≡◌, ◌≢◌, ◌⊎◌, ◌≤◌, ℕ, List, Some, Ok, Err};
ghost use Rattle.tetri_algebra.specs.Counts.{Rose};
ghost use Rattle.tetri_run.specs.ByParts.{IsPartsPromised};
ghost use Rattle.tetri_run.specs.Status.{IsSilent};
ghost use Rattle.tetri_run.specs.declared.why.Why.{Why};
ghost use Rattle.tetri_trace.specs.Lines.{scenario_in};
ghost use Rattle.tetri_trace.specs.Scenario.{Scenario};
ghost use Rattle.tetri_notice.specs.declared.fault.TraceWhy.{TraceWhy};

use crate::status::Status;
use crate::top::status_of;
use std::alloc::Global;
use tetri_commands::run_by_parts;
use tetri_io::{Shelf, Sink};
use tetri_report::SendFault;
use tetri_trace::read_trace;

/// Plans the trace that a name holds part by part and writes its report: each cycle by one send
/// once it is planned, and then the summary by one more. Jobs that can share no node are planned by
/// themselves, each group with the trace's budget.
pub fn run_parts<S: Shelf, K: Sink>(
    alloc: Global,
    name: &str,
    shelf: &mut S,
    sink: &mut K,
) -> Status
    ensures usage { result ≢ Status.Usage }
    ensures refused { (line : ℕ) (why : Why) → result ≢ Status.Refused line why }
    ensures promise { (content : List ℕ) → S.told shelf.old name.now ≡ Some content
        → IsPartsPromised result (scenario_in content) (K.written sink.old) (K.written sink.new) }
    ensures silent { IsSilent result (K.written sink.old) (K.written sink.new) }
    ensures read { result ≡ Status.ReadFault
        → Rose (S.faults shelf.old name.now) (S.faults shelf.new name.now) }
    ensures write { result ≡ Status.WriteFault → Rose (K.faults sink.old) (K.faults sink.new) }
    ensures complete { (content : List ℕ) (t : Scenario) → S.told shelf.old name.now ≡ Some content
        → scenario_in content ≡ Ok t
        → ¬ Rose (S.faults shelf.old name.now) (S.faults shelf.new name.now)
        → ¬ Rose (K.faults sink.old) (K.faults sink.new)
        → (result ≡ Status.Done) ⊎ (result ≡ Status.NoMemory) }
    ensures refuses { (content : List ℕ) (line : ℕ) (why : TraceWhy)
        → S.told shelf.old name.now ≡ Some content
        → scenario_in content ≡ Err (line, why)
        → ¬ Rose (S.faults shelf.old name.now) (S.faults shelf.new name.now)
        → (result ≡ Status.BadTrace line why) ⊎ (result ≡ Status.NoMemory) }
    ensures same { S.told shelf.new ≡ S.told shelf.old }
    ensures later_reads { (other : List ℕ) → S.faults shelf.old other ≤ S.faults shelf.new other }
    ensures later_writes { K.faults sink.old ≤ K.faults sink.new }
{
    match read_trace(alloc, shelf, name) {
        Ok(trace) => match run_by_parts(alloc, &trace, sink) {
            Ok(()) => Status::Done,
            Err(SendFault::Failed) => Status::WriteFault,
            Err(SendFault::NoMemory) => Status::NoMemory,
        },
        Err(fault) => status_of(fault),
    }
}
