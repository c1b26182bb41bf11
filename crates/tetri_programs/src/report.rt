// The program of a cycle of an accepted report.
ghost use Rattle.std.specs.Prelude.{◌≡◌, ◌≤◌, List, ℕ, Ok, Some, IfErr, IfOk};
ghost use Rattle.tetri_programs.specs.Exported.{IsReportExport};
ghost use Rattle.tetri_run.specs.CheckEnds.{Accepts, IsHalt, Refuses, Rejects, TellsBadTrace, TellsReadFault, ended_as};
ghost use Rattle.tetri_trace.specs.Lines.{scenario_in};
ghost use Rattle.tetri_trace.specs.Scenario.{Scenario};

use crate::instance::Exported;
use crate::watching::Watching;
use std::alloc::Global;
use tetri_export::Format;
use tetri_io::Shelf;
use tetri_run::{Status, check_seen};

/// Checks the report that a name holds against the trace that another one holds, as `run_check` does,
/// and, where it is accepted, gives the program of the cycle of this number of its run in a format.
/// Each of the two is read once. A report that is not accepted is refused with the status with which
/// `run_check` ends.
pub fn export_report<S: Shelf>(
    alloc: Global,
    trace: &str,
    report: &str,
    cycle: u32,
    format: Format,
    shelf: &mut S,
) -> Result<Exported, Status>
    ensures exported { (content lines : List ℕ) → S.told shelf.old trace.now ≡ Some content
        → S.told shelf.old report.now ≡ Some lines
        → IfOk result (λ e. (t : Scenario) × ((scenario_in content ≡ Ok t) × IsReportExport t lines format cycle e)) }
    ensures halts { IfErr result IsHalt }
    ensures bad_trace { TellsBadTrace (S.told shelf.old) (S.faults shelf.old) (S.faults shelf.new)
        trace.now report.now (ended_as result) }
    ensures read { TellsReadFault (S.told shelf.old) (S.faults shelf.old) (S.faults shelf.new)
        trace.now report.now (ended_as result) }
    ensures accepts { Accepts (S.told shelf.old) (S.faults shelf.old) (S.faults shelf.new)
        trace.now report.now (ended_as result) (Unit {0}) }
    ensures rejects { Rejects (S.told shelf.old) (S.faults shelf.old) (S.faults shelf.new)
        trace.now report.now (ended_as result) }
    ensures refuses { Refuses (S.told shelf.old) (S.faults shelf.old) (S.faults shelf.new)
        trace.now report.now (ended_as result) }
    ensures same { S.told shelf.new ≡ S.told shelf.old }
    ensures later { (other : List ℕ) → S.faults shelf.old other ≤ S.faults shelf.new other }
{
    let mut watching = Watching::new(cycle, format);
    match check_seen(alloc, trace, report, shelf, &mut watching) {
        Ok(_trace) => Ok(watching.end()),
        Err(status) => Err(status),
    }
}
