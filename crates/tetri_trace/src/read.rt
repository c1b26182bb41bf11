// A whole trace.
ghost use Rattle.std.specs.Prelude.{◌≡◌, ◌≤◌, List, ℕ, None, Some, IsErrOf, IfOk, OnOk, option_map};
ghost use Rattle.std.specs.Option.{ForSome};
ghost use Rattle.tetri_algebra.specs.Counts.{Rose};
ghost use Rattle.tetri_trace.specs.Answers.{AnswersTrace, fault_at};
ghost use Rattle.tetri_trace.specs.Draft.{so_far, IsSoundDraft};
ghost use Rattle.tetri_trace.specs.Lines.{ended, scenario_in};
ghost use Rattle.tetri_trace.specs.Reading.{LeavesEnd};
ghost use Rattle.tetri_trace.specs.Scenario.{scenario};
ghost use Rattle.tetri_trace.specs.Sound.{IsSound};

use crate::draft::{Draft, finished};
use crate::lines::{LINE_MOST, add_line};
use crate::trace::Trace;
use std::alloc::Global;
use tetri_io::{Line, LineFault, LineReader, Shelf};
use tetri_notice::{Stop, TraceFault, TraceWhy};

/// The trace that a name holds. `Read` comes only where the count of the name's faults rose. `Bad` comes
/// exactly where a line is faulty, with the first such line and the first fault that holds there.
pub fn read_trace<S: Shelf>(alloc: Global, shelf: &mut S, name: &str) -> Result<Trace, TraceFault>
    ensures exact { (content : List ℕ) → S.told shelf.old name.now ≡ Some content
        → AnswersTrace result (scenario_in content) }
    ensures sound { IfOk result (λ t. IsSound (scenario t)) }
    ensures same { S.told shelf.new ≡ S.told shelf.old }
    ensures read { IsErrOf result TraceFault.Read
        → Rose (S.faults shelf.old name.now) (S.faults shelf.new name.now) }
    ensures later { (other : List ℕ) → S.faults shelf.old other ≤ S.faults shelf.new other }
{
    let mut draft = None;
    match read_lines(alloc, shelf, name, &mut draft) {
        Ok(line) => ended(alloc, draft, line),
        Err(fault) => Err(fault),
    }
}

// Reads all lines into a draft, and gives the number that one more line would have.
fn read_lines<S: Shelf>(
    alloc: Global,
    shelf: &mut S,
    name: &str,
    draft: &mut Option<Draft>,
) -> Result<u64, TraceFault>
    requires { draft.old ≡ None }
    ensures exact { (content : List ℕ) → S.told shelf.old name.now ≡ Some content
        → LeavesEnd result (option_map so_far draft.new) (scenario_in content) }
    ensures sound { OnOk result (ForSome draft.new IsSoundDraft) }
    ensures same { S.told shelf.new ≡ S.told shelf.old }
    ensures read { IsErrOf result TraceFault.Read
        → Rose (S.faults shelf.old name.now) (S.faults shelf.new name.now) }
    ensures later { (other : List ℕ) → S.faults shelf.old other ≤ S.faults shelf.new other }
{
    let Ok(mut reader) = LineReader::new(alloc) else {
        return Err(TraceFault::NoMemory);
    };
    let mut line = 1u64;
    'lines: loop {
        match reader.next_line(alloc, shelf, name, LINE_MOST) {
            Ok(Line::Text { bytes, next }) => {
                if let Err(stop) = add_line(alloc, draft, &bytes, next) {
                    return Err(fault_at(line, stop));
                }
                line += 1;
            }
            Ok(Line::End) => return Ok(line),
            Err(LineFault::TooLong) => {
                return Err(fault_at(line, Stop::Because(TraceWhy::LineTooLong)));
            }
            Err(LineFault::Failed) => return Err(TraceFault::Read),
            Err(LineFault::NoMemory) => return Err(TraceFault::NoMemory),
        }
    }
}

// No line is left, and the next one would have this number.
fn ended(alloc: Global, draft: Option<Draft>, line: u64) -> Result<Trace, TraceFault>
    requires { ForSome draft IsSoundDraft }
    ensures not_read { IsErrOf result TraceFault.Read → ⊥ }
    ensures exact { AnswersTrace result (ended (option_map so_far draft) line) }
    ensures sound { IfOk result (λ t. IsSound (scenario t)) }
{
    match draft {
        Some(draft) => match finished(alloc, draft) {
            Ok(trace) => Ok(trace),
            Err(stop) => Err(fault_at(line, stop)),
        },
        None => Err(fault_at(line, Stop::Because(TraceWhy::NoHeader))),
    }
}

// What a step stopped for at a line.
fn fault_at(line: u64, stop: Stop) -> TraceFault
    ensures { result ≡ fault_at line stop }
{
    match stop {
        Stop::Because(why) => TraceFault::Bad { line, why },
        Stop::NoMemory => TraceFault::NoMemory,
    }
}
