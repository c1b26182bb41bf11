// A run that is planned once a panel was asked, and told.
ghost use Rattle.std.specs.Prelude.{◌≡◌, ◌≢◌, ◌⊎◌, ◌≤◌, ℕ, IsErrOf, OnOk};
ghost use Rattle.tetri_advice.specs.Seat.{creeds_of};
ghost use Rattle.tetri_advice.specs.Sitting.{seats};
ghost use Rattle.tetri_algebra.specs.Counts.{Rose};
ghost use Rattle.tetri_cycles.specs.Told.{StoppedBetween, StoppedInText, WroteRun};
ghost use Rattle.tetri_run.specs.Advised.{IsAdvisedRun};
ghost use Rattle.tetri_run.specs.Status.{IsRunAnswer, IsSilent};
ghost use Rattle.tetri_run.specs.Telling.{block_cycles};
ghost use Rattle.tetri_run.specs.declared.why.Why.{Why};
ghost use Rattle.tetri_trace.specs.Scenario.{scenario};
ghost use Rattle.tetri_trace.specs.Sound.{IsSound};
ghost use Rattle.tetri_notice.specs.declared.fault.TraceWhy.{TraceWhy};

use crate::status::Status;
use crate::telling::Telling;
use std::alloc::Global;
use tetri_advice::{Advisor, PanelOf};
use tetri_cycles::run_cycles;
use tetri_io::Sink;
use tetri_report::SendFault;
use tetri_trace::Trace;

// Runs all slots and tells each, and then writes the summary.
fn write_run<K: Sink, A: Advisor>(
    alloc: Global,
    trace: &Trace,
    sink: &mut K,
    panel: &mut PanelOf<A>,
    telling: Telling,
) -> Result<(), SendFault>
    requires { IsSound (scenario trace.now) }
    ensures ok { OnOk result (WroteRun block_cycles telling
        (IsAdvisedRun (seats A.says A.misses A.creed panel.old) panel.old.missed panel.new.missed)
        (scenario trace.entry.now) (K.written sink.old) (K.written sink.new)) }
    ensures failed { IsErrOf result SendFault.Failed → StoppedInText block_cycles telling
        (IsAdvisedRun (seats A.says A.misses A.creed panel.old) panel.old.missed panel.new.missed)
        (scenario trace.entry.now) (K.written sink.old) (K.written sink.new) }
    ensures memory { IsErrOf result SendFault.NoMemory → StoppedBetween block_cycles telling
        (IsAdvisedRun (seats A.says A.misses A.creed panel.old) panel.old.missed panel.new.missed)
        (scenario trace.entry.now) (K.written sink.old) (K.written sink.new) }
    ensures write { IsErrOf result SendFault.Failed → Rose (K.faults sink.old) (K.faults sink.new) }
    ensures later { K.faults sink.old ≤ K.faults sink.new }
    ensures creeds { creeds_of (seats A.says A.misses A.creed panel.new)
        ≡ creeds_of (seats A.says A.misses A.creed panel.old) }
    ensures later_misses { panel.old.missed ≤ panel.new.missed }
{
    run_cycles(alloc, trace, sink, panel, telling)
}

/// Runs a trace and tells each cycle by one send once the panel was asked and it is planned, and
/// then writes the summary by one more. A fault leaves whole texts and a proper front of the next
/// one, and want of memory whole texts alone.
pub(crate) fn run_told<K: Sink, A: Advisor>(
    alloc: Global,
    trace: &Trace,
    sink: &mut K,
    panel: &mut PanelOf<A>,
    telling: Telling,
) -> Status
    requires { IsSound (scenario trace.now) }
    ensures usage { result ≢ Status.Usage }
    ensures refused { (line : ℕ) (why : Why) → result ≢ Status.Refused line why }
    ensures good_trace { (line : ℕ) (why : TraceWhy) → result ≢ Status.BadTrace line why }
    ensures read { result ≢ Status.ReadFault }
    ensures silent { IsSilent result (K.written sink.old) (K.written sink.new) }
    ensures answer { IsRunAnswer telling
        (IsAdvisedRun (seats A.says A.misses A.creed panel.old) panel.old.missed panel.new.missed)
        result (scenario trace.entry.now) (K.written sink.old) (K.written sink.new) }
    ensures write { result ≡ Status.WriteFault → Rose (K.faults sink.old) (K.faults sink.new) }
    ensures complete { ¬ Rose (K.faults sink.old) (K.faults sink.new)
        → (result ≡ Status.Done) ⊎ (result ≡ Status.NoMemory) }
    ensures later { K.faults sink.old ≤ K.faults sink.new }
    ensures creeds { creeds_of (seats A.says A.misses A.creed panel.new)
        ≡ creeds_of (seats A.says A.misses A.creed panel.old) }
    ensures later_misses { panel.old.missed ≤ panel.new.missed }
{
    match write_run(alloc, trace, sink, panel, telling) {
        Ok(()) => Status::Done,
        Err(SendFault::Failed) => Status::WriteFault,
        Err(SendFault::NoMemory) => Status::NoMemory,
    }
}
