// What is done for the words of the command line.
ghost use Rattle.std.specs.Prelude.{◌≡◌, ◌≢◌, ◌↔◌, ◌≤◌, ◌⊎◌, List, ℕ, Some, None, Ok, Err};
ghost use Rattle.tetri_advice.specs.Seat.{creeds_of};
ghost use Rattle.tetri_advice.specs.Sitting.{seats};
ghost use Rattle.tetri_algebra.specs.Counts.{Rose};
ghost use Rattle.tetri_run.specs.Advised.{IsAdvisedRun};
ghost use Rattle.tetri_run.specs.Answers.{AsksPanel, IsAnswerTo, IsComplete, MayRefuse};
ghost use Rattle.tetri_run.specs.CheckEnds.{Accepts, Refuses, Rejects, TellsBadTrace, TellsReadFault};
ghost use Rattle.tetri_run.specs.Status.{IsCheckPromised, IsPromised, IsPromisedOf, IsSilent, RoseOf, status_of, trace_of};
ghost use Rattle.tetri_run.specs.declared.why.Why.{Why};
ghost use Rattle.tetri_notice.specs.declared.fault.TraceWhy.{TraceWhy};
ghost use Rattle.tetri_run.specs.Words.{Asked, IsSmall, asked, asked_of, texts, to_plan};
ghost use Rattle.tetri_trace.specs.Lines.{scenario_in};
ghost use Rattle.tetri_trace.specs.Scenario.{Scenario};

use crate::accepted::tell_accepted;
use crate::admit::run_admit;
use crate::load::run_load;
use crate::parts::run_parts;
use crate::seen::check_seen;
use crate::status::Status;
use crate::telling::Telling;
use crate::tight::run_tight;
use crate::told::run_told;
use crate::words::{Request, asked};
use std::alloc::Global;
use tetri_advice::Panel;
use tetri_cycles::Unobserved;
use tetri_io::{Shelf, Sink};
use tetri_trace::{TraceFault, read_trace};

/// Does what the words ask: `plan TRACE` plans the trace of that name and writes its report; `check
/// TRACE REPORT` checks the report of that name against the trace, and writes that it is accepted,
/// where it is; and `load N` runs the trace that is made of the number N, 1 to 10 digits with a
/// value below 2^31, and writes the summary of its run alone. `parts TRACE` plans the trace part by
/// part, each group of jobs that can share no node with others by itself, and asks no panel. `tight
/// TRACE` plans the trace and writes what cuts make of the bound of each cycle. `admit TRACE`
/// answers which jobs of the trace's first slot can all be served together, and asks no panel.
pub fn run<S: Shelf, K: Sink>(
    alloc: Global,
    words: &[String],
    shelf: &mut S,
    sink: &mut K,
    panel: &mut Panel,
) -> Status
    ensures usage { (result ≡ Status.Usage) ↔ (asked (texts words.now) ≡ None) }
    ensures promise { (name content : List ℕ) → asked (texts words.now) ≡ Some (to_plan name)
        → S.told shelf.old name ≡ Some content
        → IsPromised result (scenario_in content) (K.written sink.old) (K.written sink.new) }
    ensures answers { (a : Asked) → asked (texts words.now) ≡ Some a
        → IsAnswerTo (S.told shelf.old)
        (IsAdvisedRun
        (seats (λ b. says b) (λ b. misses b)
        (λ b. creed b) panel.old) panel.old.missed panel.new.missed)
        result (K.written sink.old) (K.written sink.new) a }
    ensures refused { (a : Asked) (line : ℕ) (why : Why) → asked (texts words.now) ≡ Some a
        → result ≡ Status.Refused line why → MayRefuse a }
    ensures silent { IsSilent result (K.written sink.old) (K.written sink.new) }

    // A fault comes only where it was counted.
    ensures read { (a : Asked) → asked (texts words.now) ≡ Some a → result ≡ Status.ReadFault
        → RoseOf a (S.faults shelf.old) (S.faults shelf.new) }
    ensures write { result ≡ Status.WriteFault → Rose (K.faults sink.old) (K.faults sink.new) }

    // What is accepted is worked on to its end, and what is not is refused, but for want of memory.
    ensures complete { (a : Asked) → asked (texts words.now) ≡ Some a
        → ¬ RoseOf a (S.faults shelf.old) (S.faults shelf.new)
        → IsComplete (S.told shelf.old) (¬ Rose (K.faults sink.old) (K.faults sink.new)) result a }
    ensures refuses { (a : Asked) (name content : List ℕ) (line : ℕ) (why : TraceWhy)
        → asked (texts words.now) ≡ Some a
        → trace_of a ≡ Some name → S.told shelf.old name ≡ Some content
        → scenario_in content ≡ Err (line, why)
        → ¬ Rose (S.faults shelf.old name) (S.faults shelf.new name)
        → (result ≡ Status.BadTrace line why) ⊎ (result ≡ Status.NoMemory) }
    ensures same { S.told shelf.new ≡ S.told shelf.old }
    ensures unasked { (a : Asked) → asked (texts words.now) ≡ Some a → ¬ AsksPanel a
        → (seats (λ b. says b) (λ b. misses b) (λ b. creed b) panel.new
        ≡ seats (λ b. says b) (λ b. misses b) (λ b. creed b) panel.old)
        × (panel.new.missed ≡ panel.old.missed) }
    ensures creeds { creeds_of (seats (λ b. says b) (λ b. misses b) (λ b. creed b) panel.new)
        ≡ creeds_of (seats (λ b. says b) (λ b. misses b) (λ b. creed b) panel.old) }
    ensures later { ((other : List ℕ) → S.faults shelf.old other ≤ S.faults shelf.new other)
        × (K.faults sink.old ≤ K.faults sink.new) × (panel.old.missed ≤ panel.new.missed) }
{
    match asked(words) {
        Some(request) => answer(alloc, request, shelf, sink, panel),
        None => Status::Usage,
    }
}

// Does what is asked.
fn answer<S: Shelf, K: Sink>(
    alloc: Global,
    request: Request<'_>,
    shelf: &mut S,
    sink: &mut K,
    panel: &mut Panel,
) -> Status
    requires { IsSmall request }
    ensures usage { result ≢ Status.Usage }
    ensures answers { IsAnswerTo (S.told shelf.old)
        (IsAdvisedRun
        (seats (λ b. says b) (λ b. misses b)
        (λ b. creed b) panel.old) panel.old.missed panel.new.missed)
        result (K.written sink.old) (K.written sink.new) (asked_of request.entry) }
    ensures refused { (line : ℕ) (why : Why) → result ≡ Status.Refused line why
        → MayRefuse (asked_of request.entry) }
    ensures silent { IsSilent result (K.written sink.old) (K.written sink.new) }
    ensures read { result ≡ Status.ReadFault
        → RoseOf (asked_of request.entry) (S.faults shelf.old) (S.faults shelf.new) }
    ensures write { result ≡ Status.WriteFault → Rose (K.faults sink.old) (K.faults sink.new) }
    ensures complete { ¬ RoseOf (asked_of request.entry) (S.faults shelf.old) (S.faults shelf.new)
        → IsComplete (S.told shelf.old) (¬ Rose (K.faults sink.old) (K.faults sink.new)) result
        (asked_of request.entry) }
    ensures refuses { (name content : List ℕ) (line : ℕ) (why : TraceWhy)
        → trace_of (asked_of request.entry) ≡ Some name
        → S.told shelf.old name ≡ Some content → scenario_in content ≡ Err (line, why)
        → ¬ Rose (S.faults shelf.old name) (S.faults shelf.new name)
        → (result ≡ Status.BadTrace line why) ⊎ (result ≡ Status.NoMemory) }
    ensures same { S.told shelf.new ≡ S.told shelf.old }
    ensures unasked { ¬ AsksPanel (asked_of request.entry)
        → (seats (λ b. says b) (λ b. misses b) (λ b. creed b) panel.new
        ≡ seats (λ b. says b) (λ b. misses b) (λ b. creed b) panel.old)
        × (panel.new.missed ≡ panel.old.missed) }
    ensures creeds { creeds_of (seats (λ b. says b) (λ b. misses b) (λ b. creed b) panel.new)
        ≡ creeds_of (seats (λ b. says b) (λ b. misses b) (λ b. creed b) panel.old) }
    ensures later { ((other : List ℕ) → S.faults shelf.old other ≤ S.faults shelf.new other)
        × (K.faults sink.old ≤ K.faults sink.new) × (panel.old.missed ≤ panel.new.missed) }
{
    match request {
        Request::Plan { trace } => run_plan(alloc, trace, shelf, sink, panel),
        Request::Check { trace, report } => run_check(alloc, trace, report, shelf, sink),
        Request::Load { number } => run_load(alloc, number, sink, panel),
        Request::Parts { trace } => run_parts(alloc, trace, shelf, sink),
        Request::Tight { trace } => run_tight(alloc, trace, shelf, sink, panel),
        Request::Admit { trace } => run_admit(alloc, trace, shelf, sink),
    }
}

/// The status of a trace that is not read.
pub fn status_of(fault: TraceFault) -> Status
    ensures { result ≡ status_of fault }
{
    match fault {
        TraceFault::Read => Status::ReadFault,
        TraceFault::Bad { line, why } => Status::BadTrace { line, why },
        TraceFault::NoMemory => Status::NoMemory,
    }
}

/// Plans the trace that a name holds and writes its report: each cycle by one send once the panel
/// was asked and it is planned, and then the summary by one more.
pub fn run_plan<S: Shelf, K: Sink>(
    alloc: Global,
    name: &str,
    shelf: &mut S,
    sink: &mut K,
    panel: &mut Panel,
) -> Status
    ensures usage { result ≢ Status.Usage }
    ensures refused { (line : ℕ) (why : Why) → result ≢ Status.Refused line why }
    ensures promise { (content : List ℕ) → S.told shelf.old name.now ≡ Some content
        → IsPromised result (scenario_in content) (K.written sink.old) (K.written sink.new) }
    ensures advised { (content : List ℕ) → S.told shelf.old name.now ≡ Some content
        → IsPromisedOf
        (IsAdvisedRun
        (seats (λ b. says b) (λ b. misses b)
        (λ b. creed b) panel.old) panel.old.missed panel.new.missed)
        result (scenario_in content) (K.written sink.old) (K.written sink.new) }
    ensures silent { IsSilent result (K.written sink.old) (K.written sink.new) }
    ensures read { result ≡ Status.ReadFault
        → Rose (S.faults shelf.old name.now) (S.faults shelf.new name.now) }
    ensures write { result ≡ Status.WriteFault → Rose (K.faults sink.old) (K.faults sink.new) }
    ensures complete { (content : List ℕ) (t : Scenario) → S.told shelf.old name.now ≡ Some content
        → scenario_in content ≡ Ok t
        → ¬ Rose (S.faults shelf.old name.now) (S.faults shelf.new name.now)
        → ¬ Rose (K.faults sink.old) (K.faults sink.new)
        → (result ≡ Status.Done) ⊎ (result ≡ Status.NoMemory) }
    ensures refuses { (content : List ℕ) (line : ℕ) (why : TraceWhy)
        → S.told shelf.old name.now ≡ Some content
        → scenario_in content ≡ Err (line, why)
        → ¬ Rose (S.faults shelf.old name.now) (S.faults shelf.new name.now)
        → (result ≡ Status.BadTrace line why) ⊎ (result ≡ Status.NoMemory) }
    ensures same { S.told shelf.new ≡ S.told shelf.old }
    ensures later_reads { (other : List ℕ) → S.faults shelf.old other ≤ S.faults shelf.new other }
    ensures creeds { creeds_of (seats (λ b. says b) (λ b. misses b) (λ b. creed b) panel.new)
        ≡ creeds_of (seats (λ b. says b) (λ b. misses b) (λ b. creed b) panel.old) }
    ensures later_writes { K.faults sink.old ≤ K.faults sink.new }
    ensures later_misses { panel.old.missed ≤ panel.new.missed }
{
    match read_trace(alloc, shelf, name) {
        Ok(trace) => run_told(alloc, &trace, sink, panel, Telling::Report),
        Err(fault) => status_of(fault),
    }
}

/// Checks the report that a name holds against the trace that another one holds, and writes how
/// many cycles it has where it is accepted. Nothing that the report says is trusted.
pub fn run_check<S: Shelf, K: Sink>(
    alloc: Global,
    trace: &str,
    report: &str,
    shelf: &mut S,
    sink: &mut K,
) -> Status
    ensures usage { result ≢ Status.Usage }
    ensures check { (content lines : List ℕ) → S.told shelf.old trace.now ≡ Some content
        → S.told shelf.old report.now ≡ Some lines
        → IsCheckPromised result (scenario_in content) lines (K.written sink.old)
        (K.written sink.new) }
    ensures bad_trace { TellsBadTrace (S.told shelf.old) (S.faults shelf.old)
        (S.faults shelf.new) trace.now report.now result }
    ensures silent { result ≢ Status.Done → result ≢ Status.WriteFault
        → K.written sink.new ≡ K.written sink.old }
    ensures read { TellsReadFault (S.told shelf.old) (S.faults shelf.old)
        (S.faults shelf.new) trace.now report.now result }
    ensures write { result ≡ Status.WriteFault → Rose (K.faults sink.old) (K.faults sink.new) }
    ensures accepts { Accepts (S.told shelf.old) (S.faults shelf.old)
        (S.faults shelf.new) trace.now report.now result
        (¬ Rose (K.faults sink.old) (K.faults sink.new)) }
    ensures rejects { Rejects (S.told shelf.old) (S.faults shelf.old)
        (S.faults shelf.new) trace.now report.now result }
    ensures refuses { Refuses (S.told shelf.old) (S.faults shelf.old)
        (S.faults shelf.new) trace.now report.now result }
    ensures same { S.told shelf.new ≡ S.told shelf.old }
    ensures later_reads { (other : List ℕ) → S.faults shelf.old other ≤ S.faults shelf.new other }
    ensures later_writes { K.faults sink.old ≤ K.faults sink.new }
{
    match check_seen(alloc, trace, report, shelf, &mut Unobserved) {
        Ok(trace) => tell_accepted(alloc, trace.header.until, sink),
        Err(status) => status,
    }
}
