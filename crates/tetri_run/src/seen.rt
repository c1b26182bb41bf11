// The check of a report, while an observer looks on.
ghost use Rattle.std.specs.Prelude.{◌≡◌, ◌≤◌, List, ℕ, Some, Ok, IfErr, IfOk};
ghost use Rattle.tetri_run.specs.CheckEnds.{Accepts, HasSeen, IsHalt, IsHaltOf, Refuses, Rejects, TellsBadTrace, TellsReadFault, ended_as};
ghost use Rattle.tetri_trace.specs.Lines.{scenario_in};
ghost use Rattle.tetri_trace.specs.Scenario.{scenario};
ghost use Rattle.tetri_trace.specs.Sound.{IsSound};

use crate::check::check_report;
use crate::halt::CheckHalt;
use crate::status::Status;
use crate::top::status_of;
use std::alloc::Global;
use tetri_cycles::Observer;
use tetri_io::Shelf;
use tetri_trace::{Trace, TraceFault, read_trace};

impl From<CheckHalt> for Status {
    ghost use Rattle.std.specs.Prelude.{◌≡◌};
    ghost use Rattle.tetri_run.specs.CheckEnds.{status_of_halt};

    ghost from_gives = { λ halt status. status ≡ status_of_halt halt };

    fn from(halt: CheckHalt) -> Self {
        match halt {
            CheckHalt::Refused { line, why } => Status::Refused { line, why },
            CheckHalt::ReadFault => Status::ReadFault,
            CheckHalt::NoMemory => Status::NoMemory,
        }
    }
}

impl From<TraceFault> for Status {
    ghost use Rattle.std.specs.Prelude.{◌≡◌};
    ghost use Rattle.tetri_run.specs.Status.{status_of};

    ghost from_gives = { λ fault status. status ≡ status_of fault };

    fn from(fault: TraceFault) -> Self {
        status_of(fault)
    }
}

/// Checks the report that a name holds against the trace that another one holds, as `run_check`
/// does, while an observer looks on: it is shown each cycle that was found right, in order. Each of
/// the two is read once. Gives the trace where the report is accepted, and else the status with
/// which `run_check` ends; then the observer may have been shown some cycles.
pub fn check_seen<S: Shelf, O: Observer>(
    alloc: Global,
    trace: &str,
    report: &str,
    shelf: &mut S,
    observer: &mut O,
) -> Result<Trace, Status>
    ensures sound { IfOk result (λ kept. IsSound (scenario kept)) }
    ensures kept { (content : List ℕ) → S.told shelf.old trace.now ≡ Some content
        → IfOk result (λ kept. scenario_in content ≡ Ok (scenario kept)) }
    ensures seen { (lines : List ℕ) → S.told shelf.old report.now ≡ Some lines
        → IfOk result (λ kept. HasSeen O.saw (scenario kept) lines observer.old observer.new) }
    ensures halts { IfErr result IsHalt }
    ensures halted { (content lines : List ℕ) → S.told shelf.old trace.now ≡ Some content
        → S.told shelf.old report.now ≡ Some lines
        → IfErr result (λ status. IsHaltOf status (scenario_in content) lines) }
    ensures bad_trace { TellsBadTrace (S.told shelf.old) (S.faults shelf.old) (S.faults shelf.new)
        trace.now report.now (ended_as result) }
    ensures read { TellsReadFault (S.told shelf.old) (S.faults shelf.old) (S.faults shelf.new)
        trace.now report.now (ended_as result) }
    ensures accepts { Accepts (S.told shelf.old) (S.faults shelf.old) (S.faults shelf.new)
        trace.now report.now (ended_as result) (Unit {0}) }
    ensures rejects { Rejects (S.told shelf.old) (S.faults shelf.old) (S.faults shelf.new)
        trace.now report.now (ended_as result) }
    ensures refuses { Refuses (S.told shelf.old) (S.faults shelf.old) (S.faults shelf.new)
        trace.now report.now (ended_as result) }
    ensures same { S.told shelf.new ≡ S.told shelf.old }
    ensures later { (other : List ℕ) → S.faults shelf.old other ≤ S.faults shelf.new other }
{
    let kept = read_trace(alloc, shelf, trace)?;
    check_report(alloc, &kept, shelf, report, observer)?;
    Ok(kept)
}
