// The grants and the new pieces of a cycle by job, and among them those of one job.
ghost use Rattle.std.specs.Prelude.{◌≡◌, ◌++◌, ◌∷◌, ◌==◌, [], ℕ, IfOk, OnOk, drop, filter};
ghost use Rattle.std.specs.List.Sorted.{IsNonDecreasingBy};

use std::alloc::{AllocError, Global};
use tetri_base::Items;
use tetri_state::{Piece, State};
use tetri_strl::{Allotment, Grant, copy_grants, copy_nodes};

/// The grants by job, those of a job in their order. Its only error is want of memory.
pub(crate) fn grants_by_job(alloc: Global, grants: &Allotment) -> Result<Vec<Grant>, AllocError>
    ensures rise { IfOk result (λ v. IsNonDecreasingBy (λ g. g.job) v.items) }
    ensures own { IfOk result (λ v. (job : ℕ) → filter (λ g. g.job == job) v.items ≡ filter (λ g. g.job == job) grants.entry.now) }
{
    let mut by_job = copy_grants(alloc, grants)?.into_items();
    by_job.sort_by_key(|grant| grant.job)?;
    Ok(by_job)
}

fn copy_piece(alloc: Global, piece: &Piece) -> Result<Piece, AllocError>
    ensures { IfOk result (λ p. p ≡ piece.now) }
{
    Ok(Piece {
        job: piece.job,
        leaf: piece.leaf,
        nodes: copy_nodes(alloc, &piece.nodes)?,
        started: piece.started,
        expected: piece.expected,
        real: piece.real,
    })
}

// Adds a copy of a piece.
fn add_copy(alloc: Global, piece: &Piece, pieces: &mut Vec<Piece>) -> Result<(), AllocError>
    ensures { OnOk result (pieces.new.items ≡ pieces.old.items ++ piece.entry.now ∷ []) }
{
    let copy = copy_piece(alloc, piece)?;
    pieces.push(copy)?;
    Ok(())
}

// The pieces of a state from this place on.
fn pieces_from(alloc: Global, state: &State, from: usize) -> Result<Vec<Piece>, AllocError>
    ensures { IfOk result (λ v. v.items ≡ drop from state.entry.now.pieces) }
{
    let mut pieces = Vec::new(alloc);
    for place in from..usize::MAX {
        match state.piece(place) {
            Some(piece) => add_copy(alloc, piece, &mut pieces)?,
            None => return Ok(pieces),
        }
    }
    Err(AllocError)
}

/// The pieces of a state from this place on by job, those of a job in their order. Its only error is want of memory.
pub(crate) fn pieces_by_job(
    alloc: Global,
    state: &State,
    from: usize,
) -> Result<Vec<Piece>, AllocError>
    ensures rise { IfOk result (λ v. IsNonDecreasingBy (λ p. p.job) v.items) }
    ensures own { IfOk result (λ v. (job : ℕ) → filter (λ p. p.job == job) v.items ≡ filter (λ p. p.job == job) (drop from state.entry.now.pieces)) }
{
    let mut by_job = pieces_from(alloc, state, from)?;
    by_job.sort_by_key(|piece| piece.job)?;
    Ok(by_job)
}

/// The job's grants of these, which ascend by job.
pub(crate) fn own_grants(grants: &[Grant], job: u32) -> &[Grant]
    requires { IsNonDecreasingBy (λ g. g.job) grants.now }
    ensures { result.now ≡ filter (λ g. g.job == job) grants.entry.now }
{
    let before = grants.partition_point(|grant| grant.job < job);
    let (_, rest) = grants.split_at(before);
    let count = rest.partition_point(|grant| grant.job <= job);
    let (own, _) = rest.split_at(count);
    own
}

// The job's pieces of these, which ascend by job.
fn own_run(pieces: &[Piece], job: u32) -> &[Piece]
    requires { IsNonDecreasingBy (λ p. p.job) pieces.now }
    ensures { result.now ≡ filter (λ p. p.job == job) pieces.entry.now }
{
    let before = pieces.partition_point(|piece| piece.job < job);
    let (_, rest) = pieces.split_at(before);
    let count = rest.partition_point(|piece| piece.job <= job);
    let (own, _) = rest.split_at(count);
    own
}

// Copies of pieces.
fn copy_pieces(alloc: Global, pieces: &[Piece]) -> Result<Items<Piece>, AllocError>
    ensures { IfOk result (λ v. v ≡ pieces.entry.now) }
{
    let mut copies = Items::new(alloc);
    for piece in pieces {
        copies.push(copy_piece(alloc, piece)?)?;
    }
    Ok(copies)
}

/// Copies of the job's pieces of these, which ascend by job.
pub(crate) fn own_pieces(
    alloc: Global,
    pieces: &[Piece],
    job: u32,
) -> Result<Items<Piece>, AllocError>
    requires { IsNonDecreasingBy (λ p. p.job) pieces.now }
    ensures { IfOk result (λ v. v ≡ filter (λ p. p.job == job) pieces.entry.now) }
{
    copy_pieces(alloc, own_run(pieces, job))
}
