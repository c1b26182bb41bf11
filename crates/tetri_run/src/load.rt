// The run of a generated trace, for its summary alone.
ghost use Rattle.std.specs.Prelude.{◌≡◌, ◌≢◌, ◌⊎◌, ◌≤◌, ◌<◌, ◌^◌, ℕ};
ghost use Rattle.tetri_advice.specs.Seat.{creeds_of};
ghost use Rattle.tetri_advice.specs.Sitting.{seats};
ghost use Rattle.tetri_algebra.specs.Counts.{Rose};
ghost use Rattle.tetri_make.specs.Generated.{generated};
ghost use Rattle.tetri_run.specs.Advised.{IsAdvisedRun};
ghost use Rattle.tetri_run.specs.Status.{IsLoadAnswer, IsSilent};
ghost use Rattle.tetri_run.specs.declared.why.Why.{Why};
ghost use Rattle.tetri_notice.specs.declared.fault.TraceWhy.{TraceWhy};

use crate::status::Status;
use crate::telling::Telling;
use crate::told::run_told;
use std::alloc::Global;
use tetri_advice::Panel;
use tetri_io::Sink;
use tetri_make::make;

/// Makes the trace of a number, runs it with a panel as `run_plan` runs a trace, and writes the
/// summary of the run alone, by one send.
pub fn run_load<K: Sink>(alloc: Global, number: u32, sink: &mut K, panel: &mut Panel) -> Status
    requires { number < 2 ^ 31 }
    ensures usage { result ≢ Status.Usage }
    ensures refused { (line : ℕ) (why : Why) → result ≢ Status.Refused line why }
    ensures good_trace { (line : ℕ) (why : TraceWhy) → result ≢ Status.BadTrace line why }
    ensures read { result ≢ Status.ReadFault }
    ensures silent { IsSilent result (K.written sink.old) (K.written sink.new) }
    ensures promise { IsLoadAnswer
        (IsAdvisedRun
        (seats (λ b. says b) (λ b. misses b)
        (λ b. creed b) panel.old) panel.old.missed panel.new.missed) result (generated number)
        (K.written sink.old) (K.written sink.new) }
    ensures write { result ≡ Status.WriteFault → Rose (K.faults sink.old) (K.faults sink.new) }
    ensures complete { ¬ Rose (K.faults sink.old) (K.faults sink.new)
        → (result ≡ Status.Done) ⊎ (result ≡ Status.NoMemory) }
    ensures later { K.faults sink.old ≤ K.faults sink.new }
    ensures creeds { creeds_of (seats (λ b. says b) (λ b. misses b) (λ b. creed b) panel.new)
        ≡ creeds_of (seats (λ b. says b) (λ b. misses b) (λ b. creed b) panel.old) }
    ensures later_misses { panel.old.missed ≤ panel.new.missed }
{
    match make(alloc, number) {
        Ok(trace) => run_told(alloc, &trace, sink, panel, Telling::Untold),
        Err(_) => Status::NoMemory,
    }
}
