// What is written of a report that is accepted.
ghost use Rattle.std.specs.Prelude.{◌≡◌, ◌≤◌, ◌⊎◌, IfOk, OnOk, IsErrOf, string_bytes};
ghost use Rattle.std.specs.Io.KnownBytes.{append_known};
ghost use Rattle.tetri_algebra.specs.Counts.{Rose};
ghost use Rattle.tetri_io.specs.Sink.{AppendsPart};
ghost use Rattle.tetri_run.specs.Status.{accepted_text};

use crate::status::Status;
use std::alloc::{AllocError, Global};
use std::fmt::Write;
use tetri_io::{Sink, send_all};
use tetri_report::SendFault;

#[tactic(auto, unfolding(crate::specs::Status::accepted_text))]
fn accepted_line(alloc: Global, cycles: u64) -> Result<String, AllocError>
    ensures { IfOk result (λ s. string_bytes s ≡ accepted_text cycles) }
{
    let mut out = String::new(alloc);
    write!(out, "accepted {cycles}\n")?;
    Ok(out)
}

// Writes that a report of so many cycles is accepted.
fn write_accepted<K: Sink>(alloc: Global, cycles: u64, sink: &mut K) -> Result<(), SendFault>
    ensures ok { OnOk result (K.written sink.new
        ≡ append_known (K.written sink.old) (accepted_text cycles)) }
    ensures failed { IsErrOf result SendFault.Failed
        → AppendsPart (K.written sink.old) (K.written sink.new) (accepted_text cycles) }
    ensures memory { IsErrOf result SendFault.NoMemory → K.written sink.new ≡ K.written sink.old }
    ensures write { IsErrOf result SendFault.Failed → Rose (K.faults sink.old) (K.faults sink.new) }
    ensures later { K.faults sink.old ≤ K.faults sink.new }
{
    let text = accepted_line(alloc, cycles)?;
    send_all(sink, text.as_bytes())?;
    Ok(())
}

/// Tells that a report of so many cycles is accepted, by one send.
pub(crate) fn tell_accepted<K: Sink>(alloc: Global, cycles: u32, sink: &mut K) -> Status
    ensures done { result ≡ Status.Done
        → K.written sink.new ≡ append_known (K.written sink.old) (accepted_text cycles) }
    ensures failed { result ≡ Status.WriteFault
        → AppendsPart (K.written sink.old) (K.written sink.new) (accepted_text cycles) }
    ensures ends { (result ≡ Status.Done)
        ⊎ ((result ≡ Status.WriteFault) ⊎ (result ≡ Status.NoMemory)) }
    ensures silent { result ≡ Status.NoMemory → K.written sink.new ≡ K.written sink.old }
    ensures write { result ≡ Status.WriteFault → Rose (K.faults sink.old) (K.faults sink.new) }
    ensures later { K.faults sink.old ≤ K.faults sink.new }
{
    match write_accepted(alloc, u64::from(cycles), sink) {
        Ok(()) => Status::Done,
        Err(SendFault::Failed) => Status::WriteFault,
        Err(SendFault::NoMemory) => Status::NoMemory,
    }
}
