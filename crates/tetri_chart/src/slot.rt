// What one cycle of a report adds to what is gathered.
ghost use Rattle.std.specs.Prelude.{◌≡◌, ◌++◌, ◌∷◌, [], ℕ, if◌then◌else◌, IfOk, OnOk, drop};
ghost use Rattle.std.specs.List.Sorted.{IsNonDecreasing};
ghost use Rattle.tetri_base.specs.Lists.{has};
ghost use Rattle.tetri_chart.specs.Pieces.{fate_by, leaving, runs_on, span_of, staying};
ghost use Rattle.tetri_chart.specs.Waits.{is_asked, waits_in};
ghost use Rattle.tetri_space.specs.Sound.{IsSound as IsSoundSpace};
ghost use Rattle.tetri_space.specs.Space.{space};
ghost use Rattle.tetri_state.specs.Begin.{occurrences};

use crate::picture::{Span, Wait};
use std::alloc::{AllocError, Global};
use tetri_space::{Instance, leaf_of};
use tetri_state::{Happened, Piece, State};
use tetri_strl::{Grant, copy_nodes};
use tetri_svg::Fate;

/// The jobs, ascending. Its only error is want of memory.
pub(crate) fn ascending(alloc: Global, jobs: &[u32]) -> Result<Vec<u32>, AllocError>
    ensures rise { IfOk result (λ v. IsNonDecreasing v.items) }
    ensures same { IfOk result (λ v. (job : ℕ) → has v.items job ≡ has jobs.entry.now job) }
{
    let mut copy = Vec::from_slice(alloc, jobs)?;
    copy.sort()?;
    Ok(copy)
}

/// Whether a job is one of these.
pub(crate) fn has_job(jobs: &[u32], job: u32) -> bool
    requires { IsNonDecreasing jobs.now }
    ensures { result ≡ has jobs.now job }
{
    jobs.binary_search(&job).is_ok()
}

// What becomes of a piece in a slot, where these jobs failed and these were cancelled as it began.
fn fate_of(piece: &Piece, now: u32, failed: &[u32], cancelled: &[u32]) -> Fate
    requires { IsNonDecreasing failed.now × IsNonDecreasing cancelled.now }
    ensures { result ≡ fate_by failed.now cancelled.now now piece.now }
{
    if piece.real <= now {
        Fate::Ended
    } else if has_job(failed, piece.job) {
        Fate::Failed
    } else if has_job(cancelled, piece.job) {
        Fate::Cancelled
    } else {
        Fate::RunsOn
    }
}

// Whether a piece runs on.
fn runs_on(fate: Fate) -> bool
    ensures { result ≡ runs_on fate }
{
    match fate {
        Fate::RunsOn => true,
        Fate::Ended | Fate::Cancelled | Fate::Failed => false,
    }
}

/// The piece up to this slot, with what became of it.
pub(crate) fn span_of(piece: Piece, until: u32, fate: Fate) -> Span
    ensures { result ≡ span_of until fate piece }
{
    Span {
        job: piece.job,
        nodes: piece.nodes,
        from: piece.started,
        expected: piece.expected,
        until,
        fate,
    }
}

// Puts a piece of which this becomes in a slot where it belongs: to those that stay, or to the spans.
fn place_piece(
    piece: Piece,
    now: u32,
    fate: Fate,
    staying: &mut Vec<Piece>,
    spans: &mut Vec<Span>,
) -> Result<(), AllocError>
    ensures active { OnOk result (staying.new.items ≡ staying.old.items ++ (if runs_on fate then piece ∷ [] else [])) }
    ensures spans { OnOk result (spans.new.items ≡ spans.old.items ++ (if runs_on fate then [] else span_of now fate piece ∷ [])) }
{
    if runs_on(fate) {
        staying.push(piece)?;
    } else {
        spans.push(span_of(piece, now, fate))?;
    }
    Ok(())
}

/// The pieces that run on in a slot whose beginning is told so. Those that do not are added to the spans.
pub(crate) fn part(
    alloc: Global,
    active: Vec<Piece>,
    now: u32,
    happened: &Happened,
    spans: &mut Vec<Span>,
) -> Result<Vec<Piece>, AllocError>
    ensures active { IfOk result (λ v. v.items ≡ staying (occurrences happened.entry.now) now active.items) }
    ensures spans { OnOk result (spans.new.items ≡ spans.old.items ++ leaving (occurrences happened.entry.now) now active.items) }
{
    let failed = ascending(alloc, &happened.failed)?;
    let cancelled = ascending(alloc, &happened.cancelled)?;
    let mut staying = Vec::new(alloc);
    for piece in active {
        let fate = fate_of(&piece, now, &failed, &cancelled);
        place_piece(piece, now, fate, &mut staying, spans)?;
    }
    Ok(staying)
}

fn copy_piece(alloc: Global, piece: &Piece) -> Result<Piece, AllocError>
    ensures { IfOk result (λ p. p ≡ piece.now) }
{
    Ok(Piece {
        job: piece.job,
        leaf: piece.leaf,
        nodes: copy_nodes(alloc, &piece.nodes)?,
        started: piece.started,
        expected: piece.expected,
        real: piece.real,
    })
}

/// Adds the pieces of a state from this place on.
pub(crate) fn add_pieces(
    alloc: Global,
    state: &State,
    from: usize,
    active: &mut Vec<Piece>,
) -> Result<(), AllocError>
    ensures { OnOk result (active.new.items ≡ active.old.items ++ drop from state.entry.now.pieces) }
{
    for place in from..usize::MAX {
        match state.piece(place) {
            Some(piece) => active.push(copy_piece(alloc, piece)?)?,
            None => return Ok(()),
        }
    }
    Err(AllocError)
}

// Adds the grants that start later.
fn add_waits(
    alloc: Global,
    inst: &Instance,
    grants: &[Grant],
    waits: &mut Vec<Wait>,
) -> Result<(), AllocError>
    requires { IsSoundSpace (space inst.now) }
    ensures { OnOk result (waits.new.items ≡ waits.old.items ++ waits_in (space inst.entry.now) grants.now) }
{
    for grant in grants {
        if let Some(leaf) = leaf_of(inst, grant.job, grant.leaf) {
            if inst.now < leaf.start {
                waits.push(Wait {
                    job: grant.job,
                    nodes: copy_nodes(alloc, &grant.nodes)?,
                    from: leaf.start,
                    until: leaf.start.saturating_add(leaf.dur),
                })?;
            }
        }
    }
    Ok(())
}

/// Adds the waiting grants of a slot, if it is the one that is asked for.
pub(crate) fn add_asked(
    alloc: Global,
    asked: Option<u32>,
    inst: &Instance,
    grants: &[Grant],
    waits: &mut Vec<Wait>,
) -> Result<(), AllocError>
    requires { IsSoundSpace (space inst.now) }
    ensures { OnOk result (waits.new.items ≡ waits.old.items
        ++ (if is_asked asked (space inst.entry.now).now then waits_in (space inst.entry.now) grants.now else [])) }
{
    if asked == Some(inst.now) {
        add_waits(alloc, inst, grants, waits)?;
    }
    Ok(())
}
