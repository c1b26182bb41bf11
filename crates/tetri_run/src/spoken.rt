// What is said of a status.
ghost use Rattle.std.specs.Prelude.{◌≡◌, ◌≤◌, ◌++◌, IfOk, OnOk, OnErr, IsErrOf, string_bytes};
ghost use Rattle.std.specs.Io.KnownBytes.{append_known};
ghost use Rattle.tetri_algebra.specs.Counts.{Rose};
ghost use Rattle.tetri_io.specs.Sink.{AppendsPart};
ghost use Rattle.tetri_run.specs.Ended.{NeedsMemory};
ghost use Rattle.tetri_run.specs.Status.{bad_trace_words, refusal_name, refusal_values, verdict_name, verdict_values, refused_words, status_words};
ghost use Rattle.tetri_notice.specs.declared.fault.TraceWhy.{TraceWhy};

use crate::status::Status;
use crate::why::Why;
use std::alloc::{AllocError, Global};
use std::fmt::Write;
use tetri_io::{Sink, send_all};
use tetri_judge::Verdict;
use tetri_report::SendFault;
use tetri_trace::TraceWhy;

#[tactic(auto, unfolding(crate::specs::Status::bad_trace_words))]
fn bad_trace_line(alloc: Global, line: u64, why: TraceWhy) -> Result<String, AllocError>
    ensures { IfOk result (λ s. string_bytes s ≡ bad_trace_words line why) }
{
    let mut out = String::new(alloc);
    write!(out, "bad trace: line {line}: ")?;
    why.print_onto(&mut out)?;
    out.push_str("\n")?;
    Ok(out)
}

// The name of a test that the plan of a cycle fails.
fn verdict_name(verdict: Verdict) -> &'static str
    ensures { result.now ≡ verdict_name verdict }
{
    match verdict {
        Verdict::Unlawful(_) => "unlawful",
        Verdict::WrongValue { .. } => "wrong-value",
        Verdict::WasteGrant(_) => "waste-grant",
        Verdict::BelowCarry { .. } => "below-carry",
        Verdict::BadTree { .. } => "bad-tree",
        Verdict::Past { .. } => "past",
        Verdict::WrongBound { .. } => "wrong-bound",
        Verdict::WrongMark => "wrong-mark",
        Verdict::NoMemory => "out-of-memory",
    }
}

// Adds the values that show it, each after a space.
fn add_verdict_values(out: &mut String, verdict: Verdict) -> Result<(), AllocError>
    ensures { OnOk result (string_bytes out.new ≡ string_bytes out.old ++ verdict_values verdict) }
{
    match verdict {
        Verdict::Unlawful(unlawful) => {
            out.push_str(" ")?;
            unlawful.print_onto(out)
        }
        Verdict::WrongValue { printed, found } | Verdict::WrongBound { printed, found } => {
            write!(out, " {printed} {found}")
        }
        Verdict::WasteGrant(place) => write!(out, " {place}"),
        Verdict::BelowCarry { printed, carry } => write!(out, " {printed} {carry}"),
        Verdict::BadTree { node, why } => write!(out, " {node} {}", why.words()),
        Verdict::Past { node, column } => write!(out, " {node} {column}"),
        Verdict::WrongMark | Verdict::NoMemory => Ok(()),
    }
}

// The name of a test that a report fails.
fn refusal_name(why: Why) -> &'static str
    ensures { result.now ≡ refusal_name why }
{
    match why {
        Why::Malformed => "malformed",
        Why::LineTooLong => "line-too-long",
        Why::Plan(verdict) => verdict_name(verdict),
        Why::WrongEvents => "wrong-events",
    }
}

// Adds the values that show it, each after a space.
fn add_refusal_values(out: &mut String, why: Why) -> Result<(), AllocError>
    ensures { OnOk result (string_bytes out.new ≡ string_bytes out.old ++ refusal_values why) }
{
    match why {
        Why::Plan(verdict) => add_verdict_values(out, verdict),
        Why::Malformed | Why::LineTooLong | Why::WrongEvents => Ok(()),
    }
}

#[tactic(auto, unfolding(crate::specs::Status::refused_words))]
fn refused_line(alloc: Global, line: u64, why: Why) -> Result<String, AllocError>
    ensures { IfOk result (λ s. string_bytes s ≡ refused_words line why) }
{
    let mut out = String::new(alloc);
    write!(out, "refused: line {line}: ")?;
    out.push_str(refusal_name(why))?;
    add_refusal_values(&mut out, why)?;
    out.push_str("\n")?;
    Ok(out)
}

/// Writes the line of a status, and nothing for `Done`. `Failed` comes only where the count of
/// faults rose, and then a proper prefix was written.
pub fn say<K: Sink>(alloc: Global, status: &Status, sink: &mut K) -> Result<(), SendFault>
    ensures ok { OnOk result (K.written sink.new
        ≡ append_known (K.written sink.old) (status_words status.entry.now)) }
    ensures failed { IsErrOf result SendFault.Failed
        → Rose (K.faults sink.old) (K.faults sink.new) }
    ensures part { IsErrOf result SendFault.Failed
        → AppendsPart (K.written sink.old) (K.written sink.new) (status_words status.entry.now) }
    ensures memory { IsErrOf result SendFault.NoMemory → K.written sink.new ≡ K.written sink.old }
    ensures numbered { IsErrOf result SendFault.NoMemory → NeedsMemory status.entry.now }
    ensures later { K.faults sink.old ≤ K.faults sink.new }
{
    match status {
        Status::Done => send_all(sink, b"")?,
        Status::Refused { line, why } => {
            let text = refused_line(alloc, *line, *why)?;
            send_all(sink, text.as_bytes())?;
        }
        Status::Usage => send_all(
            sink,
            b"usage: tetri plan TRACE | check TRACE REPORT | load N | parts TRACE | tight TRACE | admit TRACE\n",
        )?,
        Status::ReadFault => send_all(sink, b"read fault\n")?,
        Status::WriteFault => send_all(sink, b"write fault\n")?,
        Status::BadTrace { line, why } => {
            let text = bad_trace_line(alloc, *line, *why)?;
            send_all(sink, text.as_bytes())?;
        }
        Status::NoMemory => send_all(sink, b"out of memory\n")?,
    }
    Ok(())
}
