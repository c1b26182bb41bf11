// The answers for the jobs of a trace's first slot, written one after another.
ghost use Rattle.std.specs.Prelude.{◌≡◌, ◌≤◌, if◌then◌else◌, IfOk, IsErrOf, OnOk};
ghost use Rattle.tetri_algebra.specs.Counts.{Rose};
ghost use Rattle.tetri_commands.specs.Answered.{first_instance};
ghost use Rattle.tetri_commands.specs.AnswersTold.{StoppedBetweenAnswers, StoppedInAnswersText, WroteAll, WroteAnswers};
ghost use Rattle.tetri_commands.specs.Printing.{IsInstanceOf};
ghost use Rattle.tetri_reserve.specs.Answers.{is_booked};
ghost use Rattle.tetri_space.specs.Space.{space};
ghost use Rattle.tetri_trace.specs.Scenario.{scenario};
ghost use Rattle.tetri_trace.specs.Sound.{IsSound};

use crate::answer_lines::{answer_text, booked_line};
use std::alloc::{AllocError, Global};
use tetri_io::{Sink, send_all};
use tetri_report::SendFault;
use tetri_reserve::{AnswerKind, Book};
use tetri_space::Instance;
use tetri_state::State;
use tetri_trace::Trace;

// What the trace's first slot plans for, once it has begun.
fn first_instance(alloc: Global, trace: &Trace) -> Result<Instance, AllocError>
    requires { IsSound (scenario trace.now) }
    ensures instance { IfOk result (λ i. space i ≡ first_instance (scenario trace.entry.now)) }
    ensures of_trace { IfOk result (λ i. IsInstanceOf (scenario trace.entry.now) (space i)) }
{
    let mut state = State::open(alloc, trace)?;
    state.begin_cycle(alloc, trace)?;
    state.instance(alloc, trace)
}

// 1 for an answer that books its job, else 0.
fn count_of(kind: AnswerKind) -> usize
    ensures { result ≡ (if is_booked kind then 1 else 0) }
{
    if kind.is_booked() { 1 } else { 0 }
}

// Answers for each job of the trace's first slot and writes each answer once it is made. How many jobs are booked.
fn write_answers<K: Sink>(
    alloc: Global,
    trace: &Trace,
    inst: &Instance,
    sink: &mut K,
) -> Result<usize, SendFault>
    requires instance { space inst.now ≡ first_instance (scenario trace.now) }
    requires of_trace { IsInstanceOf (scenario trace.now) (space inst.now) }
    ensures ok { IfOk result (λ count. WroteAll (scenario trace.entry.now) count (K.written sink.old) (K.written sink.new)) }
    ensures failed { IsErrOf result SendFault.Failed → StoppedInAnswersText (scenario trace.entry.now) (K.written sink.old) (K.written sink.new) }
    ensures memory { IsErrOf result SendFault.NoMemory → StoppedBetweenAnswers (scenario trace.entry.now) (K.written sink.old) (K.written sink.new) }
    ensures write { IsErrOf result SendFault.Failed → Rose (K.faults sink.old) (K.faults sink.new) }
    ensures later { K.faults sink.old ≤ K.faults sink.new }
{
    let mut book = Book::new(alloc, inst)?;
    let mut booked = 0;
    for place in 0..inst.jobs.len() {
        let answer = book.answer_next(alloc, inst, place, trace.header.budget)?;
        let text = answer_text(alloc, trace, inst, &answer)?;
        send_all(sink, &text)?;
        booked += count_of(answer.kind);
    }
    Ok(booked)
}

/// Answers for each job of the trace's first slot, in order, whether it can be served together with the jobs booked before it, as
/// `admit` of tetri_reserve does with the trace's budget, and writes each answer by one send once it is made: the job with the word of
/// the answer's kind, and the plan that shows it, if there is one. By one more send it writes how many jobs are booked, of how many.
/// A fault leaves whole answers and a proper front of the next text, and want of memory whole answers alone.
pub fn admit_trace<K: Sink>(alloc: Global, trace: &Trace, sink: &mut K) -> Result<(), SendFault>
    requires { IsSound (scenario trace.now) }
    ensures ok { OnOk result (WroteAnswers (scenario trace.entry.now) (K.written sink.old) (K.written sink.new)) }
    ensures failed { IsErrOf result SendFault.Failed → StoppedInAnswersText (scenario trace.entry.now) (K.written sink.old) (K.written sink.new) }
    ensures memory { IsErrOf result SendFault.NoMemory → StoppedBetweenAnswers (scenario trace.entry.now) (K.written sink.old) (K.written sink.new) }
    ensures write { IsErrOf result SendFault.Failed → Rose (K.faults sink.old) (K.faults sink.new) }
    ensures later { K.faults sink.old ≤ K.faults sink.new }
{
    let inst = first_instance(alloc, trace)?;
    let booked = write_answers(alloc, trace, &inst, sink)?;
    let line = booked_line(alloc, booked, inst.jobs.len())?;
    send_all(sink, &line)?;
    Ok(())
}
