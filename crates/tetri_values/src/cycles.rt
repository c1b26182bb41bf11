// Cycles of a run over a trace: what happens, what is carried and launched, what runs, and what is told of each instance.
ghost use Rattle.std.specs.Prelude.{◌<◌, OnOk};
ghost use Rattle.tetri_space.specs.Sound.{IsSound as IsSoundSpace};
ghost use Rattle.tetri_space.specs.Space.{space};
ghost use Rattle.tetri_state.specs.Reached as moment;
ghost use Rattle.tetri_state.specs.Reached.{IsReached};
ghost use Rattle.tetri_trace.specs.Scenario.{scenario};
ghost use Rattle.tetri_trace.specs.Sound.{IsSound};

use crate::{answers, parts};
use std::alloc::{AllocError, Global};
use tetri_space::Instance;
use tetri_state::{
    Happened, PieceId, State, jobs_of_a_run_are_known, no_two_running_pieces_share_a_node,
    nodes_of_running_pieces_are_taken, running_pieces_run_on_unless_told,
};
use tetri_strl::Allotment;
use tetri_tables::{Tally, answer, expand_text, grants_told, halves, launch, plan_of};
use tetri_trace::Trace;

// What is seen at the beginning of a cycle.
#[derive(Drop)]
struct Seen {
    happened: Happened,
    carry: Allotment,
}

fn pieces_told(out: &mut String, word: &str, pieces: &[PieceId]) -> Result<(), AllocError> {
    for piece in pieces {
        write!(out, "{word} {} {}; ", piece.job, piece.leaf)?;
    }
    Ok(())
}

fn jobs_told(out: &mut String, word: &str, jobs: &[u32]) -> Result<(), AllocError> {
    for job in jobs {
        write!(out, "{word} {job}; ")?;
    }
    Ok(())
}

fn add_happened(out: &mut String, happened: &Happened) -> Result<(), AllocError> {
    pieces_told(out, "end", &happened.ended)?;
    jobs_told(out, "cancel", &happened.cancelled)?;
    jobs_told(out, "fail", &happened.failed)?;
    pieces_told(out, "over", &happened.over)?;
    jobs_told(out, "expire", &happened.expired)
}

fn happened_told(alloc: Global, happened: &Happened) -> Result<String, AllocError> {
    let mut out = String::new(alloc);
    add_happened(&mut out, happened)?;
    Ok(out)
}

fn told(alloc: Global, inst: &Instance, seen: &Seen, what: &str) -> Result<String, AllocError>
    requires { IsSoundSpace (space inst.now) }
{
    let (word, rest) = what.split_once(' ').unwrap_or((what, ""));
    match word {
        "happened" => happened_told(alloc, &seen.happened),
        "pending" => format!(in alloc; "{}", inst.jobs.len()),
        "busy" => format!(in alloc; "{:?}", inst.busy_until),
        "drained" => format!(in alloc; "{:?}", inst.drained),
        "carry" => grants_told(alloc, seen.carry.as_slice()),
        "admit" => answers::told(alloc, inst, rest),
        _ => parts::told(alloc, inst, word, rest),
    }
}

fn expect_row(
    alloc: Global,
    tally: &mut Tally,
    inst: &Instance,
    seen: &Seen,
    row: &str,
) -> Result<(), AllocError>
    requires { IsSoundSpace (space inst.now) }
{
    let (what, wanted) = halves(row);
    let what = expand_text(alloc, what)?;
    let found = told(alloc, inst, seen, what.as_str())?;
    let wanted = expand_text(alloc, wanted)?;
    tally.expect(row, found.as_str(), wanted.as_str())
}

// The rows of a cycle but for those of its plan.
fn expect_rows(
    alloc: Global,
    tally: &mut Tally,
    inst: &Instance,
    seen: &Seen,
    rows: &str,
) -> Result<(), AllocError>
    requires { IsSoundSpace (space inst.now) }
{
    for row in rows.lines() {
        if !row.starts_with("plan") {
            expect_row(alloc, tally, inst, seen, row)?;
        }
    }
    Ok(())
}

fn cycle(
    alloc: Global,
    tally: &mut Tally,
    trace: &Trace,
    state: &mut State,
    rows: &str,
) -> Result<(), AllocError>
    requires sound { IsSound (scenario trace.now) }
    requires reached { IsReached (scenario trace.now) moment.between state.old }
    ensures { OnOk result (IsReached (scenario trace.entry.now) moment.between state.new) }
{
    if trace.header.until <= state.now() {
        tally.expect(rows, "past the end", "a slot")?;
        return Err(AllocError);
    }
    let happened = state.begin_cycle(alloc, trace)?;
    let inst = state.instance(alloc, trace)?;
    let carry = state.carry(alloc, trace, &inst)?;
    expect_rows(alloc, tally, &inst, &Seen { happened, carry }, rows)?;
    let (grants, launched) = plan_of(rows);
    launch(alloc, tally, trace, state, &inst, grants, launched)
}

fn piece_told(alloc: Global, state: &State, place: usize) -> Result<String, AllocError> {
    let Some(piece) = state.piece(place) else {
        return String::from_str(alloc, "none");
    };
    let nodes = piece.nodes.as_slice();
    let (started, expected, real) = (piece.started, piece.expected, piece.real);
    format!(in alloc;
        "{} {} {nodes:?} {started} {expected} {real}",
        piece.job, piece.leaf
    )
}

fn state_told(alloc: Global, state: &State, what: &str) -> Result<String, AllocError> {
    let (word, rest) = what.split_once(' ').unwrap_or((what, ""));
    match word {
        "now" => format!(in alloc; "{}", state.now()),
        "launched" => format!(in alloc; "{}", state.launched_count()),
        "ended" => format!(in alloc; "{}", state.ended_count()),
        "cancelled" => format!(in alloc; "{}", state.cancelled_count()),
        "expired" => format!(in alloc; "{}", state.expired_count()),
        "piece" => piece_told(alloc, state, rest.parse::<usize>().unwrap_or(0)),
        _ => String::from_str(alloc, "no such word"),
    }
}

fn expect_state(
    alloc: Global,
    tally: &mut Tally,
    state: &State,
    rows: &str,
) -> Result<(), AllocError> {
    for row in rows.lines() {
        let (what, wanted) = halves(row);
        let found = state_told(alloc, state, what)?;
        tally.expect(row, found.as_str(), wanted)?;
    }
    Ok(())
}

fn run(alloc: Global, tally: &mut Tally, trace: &Trace, body: &str) -> Result<(), AllocError>
    requires { IsSound (scenario trace.now) }
{
    no_two_running_pieces_share_a_node(trace);
    running_pieces_run_on_unless_told(trace);
    nodes_of_running_pieces_are_taken(trace);
    jobs_of_a_run_are_known(trace);
    let mut state = State::open(alloc, trace)?;
    for rows in body.split("\n\n") {
        if rows.starts_with("now") {
            expect_state(alloc, tally, &state, rows)?;
        } else {
            cycle(alloc, tally, trace, &mut state, rows)?;
        }
    }
    Ok(())
}

/// Rows of a run over the trace, a block for each cycle with a blank line behind it. In a block stand what `happened`, how many
/// jobs are `pending`, until when each node is `busy`, which are `drained`, what is the `carry`, what is answered by
/// `admit BUDGET`, rows of the instance, and `plan GRANTS => [LAUNCHED JOBS]`; without the last no grant is planned. A block that
/// begins with `now` tells of the state between two cycles. All rows may have repetitions.
pub fn cycles(alloc: Global, trace: &str, tally: &mut Tally, body: &str) -> Result<(), AllocError> {
    match answer(alloc, trace.as_bytes())? {
        Ok(trace) => run(alloc, tally, &trace, body),
        Err(_) => tally.expect("a trace", "refused", "read"),
    }
}
