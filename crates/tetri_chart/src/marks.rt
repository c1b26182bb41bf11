// The numbers of a cycle.
ghost use Rattle.std.specs.Prelude.{◌≡◌, ◌+◌, ◌≤◌, IfOk, count_by, min};
ghost use Rattle.std.specs.List.Sorted.{IsNonDecreasing};
ghost use Rattle.tetri_cert.specs.declared.certificate.Certificate.TheVariants.{Tops};
ghost use Rattle.tetri_chart.specs.Marks.{is_left, mark_in, nodes_at, used_at};
ghost use Rattle.tetri_report.specs.Block.{headed};
ghost use Rattle.tetri_space.specs.Space.{bid, space};

use crate::picture::CycleMark;
use crate::slot::{ascending, has_job};
use std::alloc::{AllocError, Global};
use tetri_report::Head;
use tetri_space::{Instance, Offer};
use tetri_state::Piece;

// Whether the job is none of those that are launched.
fn is_left(launched: &[u32], offer: &Offer) -> bool
    requires { IsNonDecreasing launched.now }
    ensures { result ≡ is_left launched.now (bid offer.now) }
{
    !has_job(launched, offer.job)
}

// How many jobs of an instance are none of those that are launched.
fn count_left(inst: &Instance, launched: &[u32]) -> usize
    requires { IsNonDecreasing launched.now }
    ensures { result ≡ count_by (is_left launched.now) (space inst.entry.now).bids }
{
    let mut count = 0;
    for offer in &inst.jobs {
        count += usize::from(is_left(launched, offer));
    }
    count
}

// The same, where those that are launched stand in any order. Its only error is want of memory.
fn count_waiting(alloc: Global, inst: &Instance, launched: &[u32]) -> Result<usize, AllocError>
    ensures { IfOk result (λ n. n ≡ count_by (is_left launched.entry.now) (space inst.entry.now).bids) }
{
    let launched = ascending(alloc, launched)?;
    Ok(count_left(inst, &launched))
}

// This many nodes and those that a piece uses in a slot, or the most where they are no fewer.
fn used_with(used: u32, piece: &Piece, now: u32, most: u32) -> u32
    requires { used ≤ most }
    ensures value { result ≡ min (used + nodes_at now piece.now) most }
    ensures within { result ≤ most }
{
    if now < piece.started {
        return used;
    }
    let used = u64::from(used).saturating_add(piece.nodes.as_slice().len() as u64);
    used.min(u64::from(most)) as u32
}

// How many nodes pieces use in a slot, or the most where they are no fewer.
fn used_at(pieces: &[Piece], now: u32, most: u32) -> u32
    ensures { result ≡ min (used_at now pieces.now) most }
{
    let mut used = 0;
    for piece in pieces {
        used = used_with(used, piece, now, most);
    }
    used
}

/// The numbers of a cycle that plans for this, behind whose launch these pieces run, on so many nodes. Its only error is want of memory.
pub(crate) fn mark_of(
    alloc: Global,
    inst: &Instance,
    active: &[Piece],
    nodes: u32,
    head: &Head,
) -> Result<CycleMark, AllocError>
    ensures { IfOk result (λ m. m ≡ mark_in (space inst.entry.now) active.entry.now nodes (headed head.entry.now (Tops 0 0))) }
{
    Ok(CycleMark {
        value: head.value,
        bound: head.bound,
        mark: head.mark,
        waiting: count_waiting(alloc, inst, &head.launched)?,
        used: used_at(active, inst.now, nodes),
    })
}
