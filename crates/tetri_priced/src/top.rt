// The bounds of an accepted report by prices.
ghost use Rattle.std.specs.Prelude.{◌≡◌, ◌≢◌, ◌≤◌, ◌⊎◌, List, ℕ, Some, OnOk, IsErrOf};
ghost use Rattle.std.specs.Io.KnownBytes.{append_known};
ghost use Rattle.tetri_algebra.specs.Counts.{Rose};
ghost use Rattle.tetri_io.specs.Sink.{AppendsPart};
ghost use Rattle.tetri_priced.specs.Answer.{IsPricedPromised};
ghost use Rattle.tetri_priced.specs.Text.{priced_text};
ghost use Rattle.tetri_run.specs.CheckEnds.{Accepts, Refuses, Rejects, TellsBadTrace, TellsReadFault};
ghost use Rattle.tetri_trace.specs.Lines.{scenario_in};
ghost use Rattle.tetri_trace.specs.Scenario.{scenario};

use crate::cycle::PricedCycle;
use crate::noting::Noting;
use crate::pricer::Pricer;
use crate::telling::priced_text;
use crate::wanted::Wanted;
use std::alloc::Global;
use tetri_io::{Shelf, Sink, send_all};
use tetri_report::SendFault;
use tetri_run::{Status, check_seen};
use tetri_trace::Trace;

// Writes what is told of cycles, by one send.
fn send_cycles<K: Sink>(
    alloc: Global,
    trace: &Trace,
    prices: bool,
    cycles: &[PricedCycle],
    sink: &mut K,
) -> Result<(), SendFault>
    ensures ok { OnOk result (K.written sink.new ≡ append_known (K.written sink.old)
        (priced_text (scenario trace.entry.now) prices cycles.entry.now)) }
    ensures failed { IsErrOf result SendFault.Failed → AppendsPart (K.written sink.old) (K.written sink.new)
        (priced_text (scenario trace.entry.now) prices cycles.entry.now) }
    ensures memory { IsErrOf result SendFault.NoMemory → K.written sink.new ≡ K.written sink.old }
    ensures write { IsErrOf result SendFault.Failed → Rose (K.faults sink.old) (K.faults sink.new) }
    ensures later { K.faults sink.old ≤ K.faults sink.new }
{
    let text = priced_text(alloc, trace, prices, cycles)?;
    send_all(sink, &text)?;
    Ok(())
}

// Tells cycles of an accepted report, by one send.
fn tell_cycles<K: Sink>(
    alloc: Global,
    trace: &Trace,
    prices: bool,
    cycles: &[PricedCycle],
    sink: &mut K,
) -> Status
    ensures done { result ≡ Status.Done → K.written sink.new
        ≡ append_known (K.written sink.old) (priced_text (scenario trace.entry.now) prices cycles.entry.now) }
    ensures failed { result ≡ Status.WriteFault → AppendsPart (K.written sink.old) (K.written sink.new)
        (priced_text (scenario trace.entry.now) prices cycles.entry.now) }
    ensures silent { result ≡ Status.NoMemory → K.written sink.new ≡ K.written sink.old }
    ensures ends { (result ≡ Status.Done) ⊎ ((result ≡ Status.WriteFault) ⊎ (result ≡ Status.NoMemory)) }
    ensures write { result ≡ Status.WriteFault → Rose (K.faults sink.old) (K.faults sink.new) }
    ensures later { K.faults sink.old ≤ K.faults sink.new }
{
    match send_cycles(alloc, trace, prices, cycles, sink) {
        Ok(()) => Status::Done,
        Err(SendFault::Failed) => Status::WriteFault,
        Err(SendFault::NoMemory) => Status::NoMemory,
    }
}

/// Checks the report that a name holds against the trace that another one holds, as `run_check` does, and, where it is
/// accepted, writes what the prices of a pricer make of the bounds of its cycles, as far as they are asked for: for each
/// `priced NUMBER VALUE BOUND PRICED`, where PRICED is the lesser of the printed bound and that of the prices; behind it,
/// where they are asked for, `price NODE SLOT PRICE/UNIT` for each price above 0; and at the end `summary cycles=A
/// optimal=B value=C bound=D priced=E`, of the cycles that are told. Whatever the pricer gives, no lawful allotment of a
/// cycle is worth more than its PRICED. Each of the two is read once, and nothing is written before the report is
/// accepted. A report that is not accepted is refused as `run_check` refuses it. Behind a `WriteFault` a proper front is
/// written, and where memory ran out nothing. `Usage` never comes.
pub fn price_report<P: Pricer + Drop, S: Shelf, K: Sink>(
    alloc: Global,
    trace: &str,
    report: &str,
    wanted: Wanted,
    pricer: P,
    shelf: &mut S,
    sink: &mut K,
) -> Status
    ensures told { (content lines : List ℕ) → S.told shelf.old trace.now ≡ Some content → S.told shelf.old report.now ≡ Some lines
        → IsPricedPromised P.gives pricer wanted result (scenario_in content) lines (K.written sink.old) (K.written sink.new) }
    ensures usage { result ≢ Status.Usage }
    ensures bad_trace { TellsBadTrace (S.told shelf.old) (S.faults shelf.old) (S.faults shelf.new) trace.now report.now result }
    ensures silent { result ≢ Status.Done → result ≢ Status.WriteFault → K.written sink.new ≡ K.written sink.old }
    ensures read { TellsReadFault (S.told shelf.old) (S.faults shelf.old) (S.faults shelf.new) trace.now report.now result }
    ensures write { result ≡ Status.WriteFault → Rose (K.faults sink.old) (K.faults sink.new) }
    ensures accepts { Accepts (S.told shelf.old) (S.faults shelf.old) (S.faults shelf.new) trace.now report.now result
        (¬ Rose (K.faults sink.old) (K.faults sink.new)) }
    ensures rejects { Rejects (S.told shelf.old) (S.faults shelf.old) (S.faults shelf.new) trace.now report.now result }
    ensures refuses { Refuses (S.told shelf.old) (S.faults shelf.old) (S.faults shelf.new) trace.now report.now result }
    ensures same { S.told shelf.new ≡ S.told shelf.old }
    ensures later_reads { (other : List ℕ) → S.faults shelf.old other ≤ S.faults shelf.new other }
    ensures later_writes { K.faults sink.old ≤ K.faults sink.new }
{
    let mut noting = Noting::new(alloc, wanted, pricer);
    match check_seen(alloc, trace, report, shelf, &mut noting) {
        Ok(trace) => tell_cycles(alloc, &trace, wanted.prices, noting.cycles(), sink),
        Err(status) => status,
    }
}
