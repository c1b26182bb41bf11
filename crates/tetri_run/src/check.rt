// The check of a report, line by line.
ghost use Rattle.std.specs.Prelude.{◌≡◌, ◌↔◌, ◌+◌, ◌≤◌, ◌<◌, ◌^◌, List, ℕ, Option, Ok, Some, IsErrOf, IsTrue, IfOk, OnOk, length};
ghost use Rattle.tetri_algebra.specs.Counts.{Rose};
ghost use Rattle.tetri_cert.specs.declared.certificate.Certificate.TheVariants.{Tops};
ghost use Rattle.tetri_cycles.specs.Observed.{Observed};
ghost use Rattle.tetri_report.specs.Block.{Block, headed};
ghost use Rattle.tetri_report.specs.Reading.{line_answer};
ghost use Rattle.tetri_report.specs.Strips as strips;
ghost use Rattle.tetri_report.specs.Strips.{block_told, telling};
ghost use Rattle.tetri_run.specs.Check.{Checking, ComesTo, FitsRun, IsShort, lines_in, unchecked};
ghost use Rattle.tetri_run.specs.Checked.{AnswersLine, AnswersPlace, AnswersReport, AnswersTaken, CountsRun, IsAt, IsFed, SawEnded};
ghost use Rattle.tetri_run.specs.Run.{in_order, state_behind};
ghost use Rattle.tetri_state.specs.Snapshot.{opening_state};
ghost use Rattle.tetri_trace.specs.Scenario.{scenario};
ghost use Rattle.tetri_trace.specs.Sound.{IsSound};

use crate::cycle_check::check_cycle;
use crate::halt::CheckHalt;
use crate::sight::{Sight, see_node, view_of};
use crate::why::Why;
use std::alloc::{AllocError, Global};
use tetri_cycles::{Observer, RunTally, SeenSlot, summary_at};
use tetri_io::{Line, LineFault, LineReader, Shelf};
use tetri_report::{Head, Strips, Told};
use tetri_state::State;
use tetri_trace::Trace;

// No line of a report has more bytes.
const LINE_MOST: usize = 1_048_576;

/// How far the check of a report has come: the state behind the cycles that were accepted, which
/// has begun the next slot where a tree is told of it, what is read of the next cycle and what is
/// seen of its certificate, the line at which that cycle begins, and what is added up.
#[derive(Drop)]
pub(crate) struct Progress {
    pub(crate) state: State,
    pub(crate) strips: Strips,
    pub(crate) sight: Sight,
    pub(crate) first: u64,
    pub(crate) tally: RunTally,
}

fn begin_check(alloc: Global, trace: &Trace) -> Result<Progress, AllocError>
    requires { IsSound (scenario trace.now) }
    ensures { IfOk result (IsAt (scenario trace.entry.now) unchecked) }
{
    let state = State::open(alloc, trace)?;
    let strips = Strips::new(alloc);
    Ok(Progress {
        state,
        strips,
        sight: Sight::Tops {
            columns: 0,
            rows: 0,
        },
        first: 1,
        tally: RunTally {
            worth: 0,
            optimal: 0,
        },
    })
}

// How many pieces run in a state. Its only error is that they are more than memory can hold.
fn count_pieces(state: &State) -> Result<usize, AllocError>
    ensures { IfOk result (λ count. count ≡ length state.entry.now.pieces) }
{
    for count in 0..usize::MAX {
        if state.piece(count).is_none() {
            return Ok(count);
        }
    }
    Err(AllocError)
}

// Checks the cycle that this line ended, shows it to the observer, and goes on behind it.
fn end_cycle<O: Observer>(
    alloc: Global,
    trace: &Trace,
    progress: &mut Progress,
    observer: &mut O,
    number: u64,
    head: &Head,
) -> Result<(), CheckHalt>
    requires sound { IsSound (scenario trace.now) }
    requires fed { (c : Checking) × (line : List ℕ)
        × IsFed (scenario trace.now) c progress.old line
        (strips.ended (headed head.now (Tops 0 0))) }
    requires number { number ≡ progress.old.strips.lines }
    requires few { number < 2 ^ 63 }
    ensures answer { (c : Checking) (line : List ℕ)
        → IsFed (scenario trace.entry.now) c progress.old line
        (strips.ended (headed head.entry.now (Tops 0 0)))
        → AnswersTaken result (scenario trace.entry.now) c progress.new line }
    ensures saw { (c : Checking) (line : List ℕ)
        → IsFed (scenario trace.entry.now) c progress.old line
        (strips.ended (headed head.entry.now (Tops 0 0)))
        → OnOk result
        (O.saw (scenario trace.entry.now) (state_behind (scenario trace.entry.now) c.past)
        (headed head.entry.now c.reading.block.certificate) observer.old observer.new) }
{
    let unseen = Sight::Tops {
        columns: 0,
        rows: 0,
    };
    let sight = std::mem::replace(&mut progress.sight, unseen);
    let view = view_of(alloc, trace, &mut progress.state, sight)?;
    let held = count_pieces(&progress.state)?;
    let first = progress.first;
    let tally = check_cycle(alloc, trace, &mut progress.state, first, head, &view)?;
    let slot = SeenSlot {
        inst: &view.slot.inst,
        held,
        worth: tally.worth,
    };
    observer.see(alloc, trace, &progress.state, slot, head)?;
    progress.first = number;
    progress.tally.worth += u128::from(tally.worth);
    progress.tally.optimal += tally.optimal;
    Ok(())
}

// Takes what the line told that was read, which has this number.
fn take<O: Observer>(
    alloc: Global,
    trace: &Trace,
    progress: &mut Progress,
    observer: &mut O,
    number: u64,
    told: Told,
) -> Result<(), CheckHalt>
    requires sound { IsSound (scenario trace.now) }
    requires fed { (c : Checking) × (line : List ℕ)
        × IsFed (scenario trace.now) c progress.old line (telling told) }
    requires number { number ≡ progress.old.strips.lines }
    requires few { number < 2 ^ 63 }
    ensures answer { (c : Checking) (line : List ℕ)
        → IsFed (scenario trace.entry.now) c progress.old line (telling told)
        → AnswersTaken result (scenario trace.entry.now) c progress.new line }
    ensures saw { (c : Checking) (line : List ℕ)
        → IsFed (scenario trace.entry.now) c progress.old line (telling told)
        → OnOk result (SawEnded O.saw (scenario trace.entry.now) c.past
        (block_told c.reading.block.certificate (telling told)) observer.old observer.new) }
{
    match told {
        Told::More => Ok(()),
        Told::Tops { columns, rows } => {
            progress.sight = Sight::Tops { columns, rows };
            Ok(())
        }
        Told::Node(mark) => {
            see_node(
                alloc,
                trace,
                &mut progress.state,
                &mut progress.sight,
                &mark,
            )?;
            Ok(())
        }
        Told::Block(head) => end_cycle(alloc, trace, progress, observer, number, &head),
    }
}

// Whether the last line has a place in the run.
fn is_in_place(trace: &Trace, progress: &Progress) -> bool
    ensures { (past : List Block) → CountsRun (scenario trace.now) past progress.now
        → IsTrue result ↔ FitsRun (scenario trace.now) past progress.now.strips.summary }
{
    let ended = progress.state.now() == trace.header.until;
    match progress.strips.summary() {
        Some(summary) => ended && summary == summary_at(&progress.state, progress.tally),
        None => !ended,
    }
}

// Refuses the last line, which has this number, where it has no place in the run.
fn test_place(trace: &Trace, progress: &Progress, number: u64) -> Result<(), CheckHalt>
    ensures { (past : List Block) → CountsRun (scenario trace.now) past progress.now
        → AnswersPlace result (scenario trace.now) past progress.now.strips.summary number }
{
    if is_in_place(trace, progress) {
        return Ok(());
    }
    Err(CheckHalt::Refused {
        line: number,
        why: Why::WrongEvents,
    })
}

// Goes on behind a line that was read, which has this number and told this.
fn go_on<O: Observer>(
    alloc: Global,
    trace: &Trace,
    progress: &mut Progress,
    observer: &mut O,
    number: u64,
    told: Told,
) -> Result<(), CheckHalt>
    requires sound { IsSound (scenario trace.now) }
    requires fed { (c : Checking) × (line : List ℕ)
        × IsFed (scenario trace.now) c progress.old line (telling told) }
    requires number { number ≡ progress.old.strips.lines }
    requires few { number < 2 ^ 63 }
    ensures answer { (c : Checking) (line : List ℕ)
        → IsFed (scenario trace.entry.now) c progress.old line (telling told)
        → AnswersLine result (scenario trace.entry.now) c progress.new line }
    ensures saw { (c : Checking) (line : List ℕ)
        → IsFed (scenario trace.entry.now) c progress.old line (telling told)
        → OnOk result (SawEnded O.saw (scenario trace.entry.now) c.past
        (block_told c.reading.block.certificate (telling told)) observer.old observer.new) }
{
    take(alloc, trace, progress, observer, number, told)?;
    test_place(trace, progress, number)
}

// Checks one line more, which has this number.
fn check_line<O: Observer>(
    alloc: Global,
    trace: &Trace,
    progress: &mut Progress,
    observer: &mut O,
    number: u64,
    line: &[u8],
) -> Result<(), CheckHalt>
    requires sound { IsSound (scenario trace.now) }
    requires at { (c : Checking) × IsAt (scenario trace.now) c progress.old }
    requires short { IsShort line.now }
    requires number { number ≡ progress.old.strips.lines + 1 }
    requires few { number < 2 ^ 63 }
    ensures answer { (c : Checking) → IsAt (scenario trace.entry.now) c progress.old
        → AnswersLine result (scenario trace.entry.now) c progress.new line.now }
    ensures saw { (c : Checking) (ended : Option Block)
        → IsAt (scenario trace.entry.now) c progress.old
        → line_answer (scenario trace.entry.now) c.reading line.now ≡ Ok ended
        → OnOk result
        (SawEnded O.saw (scenario trace.entry.now) c.past ended observer.old observer.new) }
{
    let told = progress.strips.feed(trace, line)?;
    go_on(alloc, trace, progress, observer, number, told)
}

/// Checks the report that a name holds against the trace, and shows its cycles to the observer.
pub(crate) fn check_report<S: Shelf, O: Observer>(
    alloc: Global,
    trace: &Trace,
    shelf: &mut S,
    name: &str,
    observer: &mut O,
) -> Result<(), CheckHalt>
    requires { IsSound (scenario trace.now) }
    ensures answer { (content : List ℕ) → S.told shelf.old name.now ≡ Some content
        → AnswersReport result (ComesTo (scenario trace.entry.now) unchecked (lines_in content))
        (λ past. Observed O.saw (scenario trace.entry.now)
        (opening_state (scenario trace.entry.now)) (in_order past)
        observer.old observer.new) }
    ensures read { IsErrOf result CheckHalt.ReadFault
        → Rose (S.faults shelf.old name.now) (S.faults shelf.new name.now) }
    ensures same { S.told shelf.new ≡ S.told shelf.old }
    ensures later { (other : List ℕ) → S.faults shelf.old other ≤ S.faults shelf.new other }
{
    let mut progress = begin_check(alloc, trace)?;
    let mut reader = LineReader::new(alloc)?;
    let mut number = 1u64;
    'lines: loop {
        match reader.next_line(alloc, shelf, name, LINE_MOST) {
            Ok(Line::Text { bytes, next: _next }) => {
                check_line(alloc, trace, &mut progress, observer, number, &bytes)?;
                number += 1;
            }
            Ok(Line::End) => break 'lines,
            Err(LineFault::TooLong) => {
                return Err(CheckHalt::Refused {
                    line: number,
                    why: Why::LineTooLong,
                });
            }
            Err(LineFault::Failed) => return Err(CheckHalt::ReadFault),
            Err(LineFault::NoMemory) => return Err(CheckHalt::NoMemory),
        }
    }
    progress.strips.finish()?;
    Ok(())
}
