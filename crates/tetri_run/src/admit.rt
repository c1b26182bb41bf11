// Which jobs of a trace can be served together.
ghost use Rattle.std.specs.Prelude.{◌≡◌, ◌≢◌, ◌⊎◌, ◌≤◌, ℕ, List, Some, Ok, Err};
ghost use Rattle.tetri_algebra.specs.Counts.{Rose};
ghost use Rattle.tetri_run.specs.Admitting.{IsAdmitPromised};
ghost use Rattle.tetri_run.specs.Status.{IsSilent};
ghost use Rattle.tetri_run.specs.declared.why.Why.{Why};
ghost use Rattle.tetri_trace.specs.Lines.{scenario_in};
ghost use Rattle.tetri_trace.specs.Scenario.{Scenario};
ghost use Rattle.tetri_notice.specs.declared.fault.TraceWhy.{TraceWhy};

use crate::status::Status;
use crate::top::status_of;
use std::alloc::Global;
use tetri_commands::admit_trace;
use tetri_io::{Shelf, Sink};
use tetri_report::SendFault;
use tetri_trace::read_trace;

/// Answers for each job that is pending in the first slot of the trace that a name holds whether it
/// can be served together with those booked before it, with the trace's budget, and writes each
/// answer by one send once it is made, and then the count of booked jobs by one more. Later slots
/// are not run.
pub fn run_admit<S: Shelf, K: Sink>(
    alloc: Global,
    name: &str,
    shelf: &mut S,
    sink: &mut K,
) -> Status
    ensures usage { result ≢ Status.Usage }
    ensures refused { (line : ℕ) (why : Why) → result ≢ Status.Refused line why }
    ensures promise { (content : List ℕ) → S.told shelf.old name.now ≡ Some content
        → IsAdmitPromised result (scenario_in content) (K.written sink.old) (K.written sink.new) }
    ensures silent { IsSilent result (K.written sink.old) (K.written sink.new) }
    ensures read { result ≡ Status.ReadFault
        → Rose (S.faults shelf.old name.now) (S.faults shelf.new name.now) }
    ensures write { result ≡ Status.WriteFault → Rose (K.faults sink.old) (K.faults sink.new) }
    ensures complete { (content : List ℕ) (t : Scenario) → S.told shelf.old name.now ≡ Some content
        → scenario_in content ≡ Ok t
        → ¬ Rose (S.faults shelf.old name.now) (S.faults shelf.new name.now)
        → ¬ Rose (K.faults sink.old) (K.faults sink.new)
        → (result ≡ Status.Done) ⊎ (result ≡ Status.NoMemory) }
    ensures refuses { (content : List ℕ) (line : ℕ) (why : TraceWhy)
        → S.told shelf.old name.now ≡ Some content
        → scenario_in content ≡ Err (line, why)
        → ¬ Rose (S.faults shelf.old name.now) (S.faults shelf.new name.now)
        → (result ≡ Status.BadTrace line why) ⊎ (result ≡ Status.NoMemory) }
    ensures same { S.told shelf.new ≡ S.told shelf.old }
    ensures later_reads { (other : List ℕ) → S.faults shelf.old other ≤ S.faults shelf.new other }
    ensures later_writes { K.faults sink.old ≤ K.faults sink.new }
{
    match read_trace(alloc, shelf, name) {
        Ok(trace) => match admit_trace(alloc, &trace, sink) {
            Ok(()) => Status::Done,
            Err(SendFault::Failed) => Status::WriteFault,
            Err(SendFault::NoMemory) => Status::NoMemory,
        },
        Err(fault) => status_of(fault),
    }
}
