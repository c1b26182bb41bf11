// A trace, line by line.
ghost use Rattle.std.specs.Prelude.{◌≡◌, ◌≤◌, IfOk, Ok, OnOk, Some, option_map};
ghost use Rattle.std.specs.Option.{ForSome};
ghost use Rattle.serde_json.specs.View.{view};
ghost use Rattle.tetri_base.specs.ResultSteps.{then_ok};
ghost use Rattle.tetri_notice.specs.Answers.{Gives};
ghost use Rattle.tetri_notice.specs.Notices.{IsGoodNotice};
ghost use Rattle.tetri_notice.specs.Objects.{notice as notice_said};
ghost use Rattle.tetri_trace.specs.Draft.{so_far, IsSoundDraft};
ghost use Rattle.tetri_trace.specs.Lines.{add_event, add_line, event_line, header_line, is_blank_line, noticed};

use crate::draft::Draft;
use crate::happen::{happened, next_slot};
use crate::header::begun;
use serde_json::Value;
use std::alloc::Global;
use tetri_io::is_blank;
use tetri_notice::{Notice, Stop, TraceWhy, event_in, header_in, object_in, written_event};

/// The bytes that a line has at most, without its line feed.
pub(crate) const LINE_MOST: usize = 1_048_576;

const TRACE_MOST: u64 = 67_108_864;

fn is_blank_line(line: &[u8]) -> bool
    ensures { result ≡ is_blank_line line.now }
{
    line.iter().all(|b| is_blank(*b))
}

// What happens at a slot.
fn add_notice(alloc: Global, draft: &mut Draft, at: u64, notice: Notice) -> Result<(), Stop>
    requires sound { IsSoundDraft draft.old }
    requires good { IsGoodNotice (notice_said notice) }
    ensures gives { Gives (λ _. so_far draft.new) result (noticed (so_far draft.old) (at, notice_said notice.entry)) }
    ensures sound { OnOk result (IsSoundDraft draft.new) }
{
    let at = next_slot(draft, at)?;
    happened(alloc, draft, at, notice)
}

// The event that an object is. Few lines come here, so it stands apart.
#[inline(never)]
fn add_event(alloc: Global, draft: &mut Draft, object: &Value) -> Result<(), Stop>
    requires { IsSoundDraft draft.old }
    ensures gives { Gives (λ _. so_far draft.new) result (add_event (so_far draft.old) (view object.now)) }
    ensures sound { OnOk result (IsSoundDraft draft.new) }
{
    let (at, notice) = event_in(draft.header.unit, object)?;
    add_notice(alloc, draft, at, notice)
}

// The event that a line is. Lines that an import wrote are read quickly.
#[tactic(auto, using(crate::proofs::LineLemmas::in_turn))]
fn add_event_line(alloc: Global, draft: &mut Draft, line: &[u8]) -> Result<(), Stop>
    requires { IsSoundDraft draft.old }
    ensures gives { Gives (λ _. so_far draft.new) result (event_line (so_far draft.old) line.now) }
    ensures sound { OnOk result (IsSoundDraft draft.new) }
{
    if let Some((at, notice)) = written_event(draft.header.unit, line) {
        return add_notice(alloc, draft, at, notice);
    }
    let object = object_in(alloc, line)?;
    add_event(alloc, draft, &object)
}

// The trace that the header on a line begins.
fn header_line(alloc: Global, line: &[u8]) -> Result<Draft, Stop>
    ensures gives { Gives so_far result (header_line line.now) }
    ensures sound { IfOk result IsSoundDraft }
{
    let object = object_in(alloc, line)?;
    let header = header_in(alloc, &object)?;
    begun(alloc, header)
}

// The header is on a line, and begins the trace. It stands apart, as one line alone comes here.
#[inline(never)]
fn begin(alloc: Global, draft: &mut Option<Draft>, line: &[u8]) -> Result<(), Stop>
    ensures gives { Gives (λ _. option_map so_far draft.new) result (then_ok (header_line line.now) (λ s. Ok (Some s))) }
    ensures sound { OnOk result (ForSome draft.new IsSoundDraft) }
{
    *draft = Some(header_line(alloc, line)?);
    Ok(())
}

/// Adds a line, where `next` is the offset behind it and its line feed. The first object is the header, and each later one an event.
#[tactic(auto, unfolding(crate::specs::Lines::add_line))]
pub(crate) fn add_line(
    alloc: Global,
    draft: &mut Option<Draft>,
    line: &[u8],
    next: u64,
) -> Result<(), Stop>
    requires { ForSome draft.old IsSoundDraft }
    ensures gives { Gives (λ _. option_map so_far draft.new) result (add_line (option_map so_far draft.old) (line.now, next)) }
    ensures sound { OnOk result (ForSome draft.new IsSoundDraft) }
    ensures short { OnOk result (next ≤ 67108864) }
{
    if line.len() > LINE_MOST {
        return Err(Stop::Because(TraceWhy::LineTooLong));
    }
    if next > TRACE_MOST {
        return Err(Stop::Because(TraceWhy::TraceTooLong));
    }
    if is_blank_line(line) {
        return Ok(());
    }
    match draft {
        Some(draft) => add_event_line(alloc, draft, line),
        None => begin(alloc, draft, line),
    }
}
