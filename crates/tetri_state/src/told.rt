// Pieces as they are told, by job and then leaf.
ghost use Rattle.std.specs.Prelude.{◌≡◌, ◌<◌, ◌+◌, ◌^◌, ◌&&◌, ◌||◌, All, drop, filter, length, not, slice_index_or, IfOk};
ghost use Rattle.std.specs.List.Sorted.{IsNonDecreasingBy};
ghost use Rattle.tetri_base.specs.Order.{in_order};
ghost use Rattle.tetri_state.specs.Begin.{comes_before, finished, has_ended, is_over, named, runs, told};
ghost use Rattle.tetri_state.specs.declared.happened.PieceId.{PieceId};

use crate::happened::PieceId;
use crate::pieces::Piece;
use std::alloc::{AllocError, Global};

fn named(piece: &Piece) -> PieceId
    ensures named { result ≡ named piece.now }
    ensures leaf { result.leaf < 2 ^ 32 }
{
    let (job, leaf) = (piece.job, piece.leaf);
    PieceId { job, leaf }
}

fn sorted(ids: Vec<PieceId>) -> Result<Vec<PieceId>, AllocError>
    ensures order { IfOk result (λ v. v.items ≡ in_order comes_before ids.items) }
    ensures rise { IfOk result (λ v. IsNonDecreasingBy (λ a. a.job) v.items) }
{
    let mut ids = ids;
    ids.sort()?;
    Ok(ids)
}

// Whether one of the pieces is the job's, by binary search.
pub fn runs(ids: &[PieceId], job: u32) -> bool
    requires { IsNonDecreasingBy (λ a. a.job) ids.now }
    ensures { result ≡ runs ids.now job }
{
    ids.binary_search_by_key(&job, |id| id.job).is_ok()
}

// The pieces that end.
pub fn ended(alloc: Global, pieces: &[Piece], now: u32) -> Result<Vec<PieceId>, AllocError>
    ensures told { IfOk result (λ v. v.items ≡ told (filter (has_ended now) pieces.now)) }
    ensures rise { IfOk result (λ v. IsNonDecreasingBy (λ a. a.job) v.items) }
    ensures leaves { IfOk result (λ v. All (λ a. a.leaf < 2 ^ 32) v.items) }
{
    let mut ids = Vec::new(alloc);
    for piece in pieces {
        if piece.real <= now {
            ids.push(named(piece))?;
        }
    }
    sorted(ids)
}

// The pieces that do not end.
pub fn running(alloc: Global, pieces: &[Piece], now: u32) -> Result<Vec<PieceId>, AllocError>
    ensures told { IfOk result (λ v. v.items ≡ told (filter (λ p. not (has_ended now p)) pieces.now)) }
    ensures rise { IfOk result (λ v. IsNonDecreasingBy (λ a. a.job) v.items) }
{
    let mut ids = Vec::new(alloc);
    for piece in pieces {
        if now < piece.real {
            ids.push(named(piece))?;
        }
    }
    sorted(ids)
}

// Whether a piece does not end, and its job still runs.
pub fn stays(piece: &Piece, now: u32, running: &[PieceId]) -> bool
    requires { IsNonDecreasingBy (λ a. a.job) running.now }
    ensures { result ≡ (not (has_ended now piece.now) && runs running.now piece.now.job) }
{
    now < piece.real && runs(running, piece.job)
}

// The pieces that stay longer than expected.
pub fn over(
    alloc: Global,
    pieces: &[Piece],
    now: u32,
    running: &[PieceId],
) -> Result<Vec<PieceId>, AllocError>
    requires { IsNonDecreasingBy (λ a. a.job) running.now }
    ensures told { IfOk result (λ v. v.items ≡ told (filter (is_over now)
        (filter (λ p. not (has_ended now p) && runs running.now p.job) pieces.now))) }
    ensures leaves { IfOk result (λ v. All (λ a. a.leaf < 2 ^ 32) v.items) }
{
    let mut ids = Vec::new(alloc);
    for piece in pieces {
        if stays(piece, now, running) && piece.expected <= now {
            ids.push(named(piece))?;
        }
    }
    sorted(ids)
}

// The jobs of ended pieces of which none runs on.
pub fn finished(
    alloc: Global,
    running: &[PieceId],
    ended: &[PieceId],
) -> Result<Vec<u32>, AllocError>
    requires running_rise { IsNonDecreasingBy (λ a. a.job) running.now }
    requires ended_rise { IsNonDecreasingBy (λ a. a.job) ended.now }
    ensures { IfOk result (λ v. v.items ≡ finished running.now ended.now) }
{
    let mut jobs = Vec::new(alloc);
    for (place, id) in ended.iter().enumerate() {
        if is_finished(running, ended, place) {
            jobs.push(id.job)?;
        }
    }
    Ok(jobs)
}

// Whether neither a later one of the ended pieces nor one that runs on is of the same job.
fn is_finished(running: &[PieceId], ended: &[PieceId], place: usize) -> bool
    requires running_rise { IsNonDecreasingBy (λ a. a.job) running.now }
    requires ended_rise { IsNonDecreasingBy (λ a. a.job) ended.now }
    requires within { place < length ended.now }
    ensures { (d : PieceId) → result ≡ not (runs (drop (place + 1) ended.now) (slice_index_or ended.now place d).job
        || runs running.now (slice_index_or ended.now place d).job) }
{
    is_last(ended, place) && !runs(running, ended[place].job)
}

// Whether no later piece is of the same job.
fn is_last(ids: &[PieceId], place: usize) -> bool
    requires rise { IsNonDecreasingBy (λ a. a.job) ids.now }
    requires within { place < length ids.now }
    ensures { (d : PieceId) → result ≡ not (runs (drop (place + 1) ids.now) (slice_index_or ids.now place d).job) }
{
    place + 1 == ids.len() || ids[place].job < ids[place + 1].job
}
