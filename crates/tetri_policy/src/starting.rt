// What a job starts with in a slot.
ghost use Rattle.std.specs.Prelude.{◌≡◌, ◌++◌, ◌<◌, Contains, IfOk, List, OnOk, length};
ghost use Rattle.tetri_advice.specs.Fit.{Placement, is_held};
ghost use Rattle.tetri_greedy.specs.Held.{TellsOf};
ghost use Rattle.tetri_policy.specs.Start.{reserved, start_at, worthy_fit};
ghost use Rattle.tetri_policy.specs.Started.{Starts};
ghost use Rattle.tetri_space.specs.Sound.{HasKnownSet, IsSound};
ghost use Rattle.tetri_space.specs.Space.{bid, space};
ghost use Rattle.tetri_strl.specs.Aligned.{EachLeaf};
ghost use Rattle.tetri_strl.specs.Tree.{tree};
ghost use Rattle.tetri_strl.specs.WellMade as made;

use std::alloc::{AllocError, Global};
use tetri_greedy::{HeldSlots, Placements, fit};
use tetri_space::{Instance, Offer};
use tetri_strl::{Expr, Grant, prune};

// The grants of the fit of an expression beside what is held, which is held then, where it is worth something.
fn start_with(
    alloc: Global,
    inst: &Instance,
    job: u32,
    left: &Expr,
    held: &mut HeldSlots,
) -> Result<Vec<Grant>, AllocError>
    requires sound { IsSound (space inst.now) }
    requires good { made.IsSound (tree left.now) }
    requires known { EachLeaf (HasKnownSet (space inst.now)) (tree left.now) }
    requires as_many { length held.old ≡ (space inst.now).nodes }
    ensures as_many { OnOk result (length held.new ≡ (space inst.entry.now).nodes) }
    ensures starts { IfOk result (λ gs. (before : List Placement) → TellsOf (space inst.entry.now) before held.old
        → Starts (space inst.entry.now) job before (worthy_fit (space inst.entry.now) job (is_held before) (tree left.entry.now)) held.new gs.items) }
{
    let mut own = Placements::new(alloc, job);
    fit(alloc, inst, held, left, &mut own)?;
    if own.worth_from(0, left) == 0 {
        return Ok(Vec::new(alloc));
    }
    own.hold(inst.now, held);
    Ok(own.into_grants())
}

/// The grants with which a pending job can start in the slot beside what is held, which is held then. Its only error is want of memory.
pub(crate) fn start_at(
    alloc: Global,
    inst: &Instance,
    offer: &Offer,
    slot: u32,
    held: &mut HeldSlots,
) -> Result<Vec<Grant>, AllocError>
    requires sound { IsSound (space inst.now) }
    requires pending { Contains (space inst.now).bids (bid offer.now) }
    requires early { slot < 20000 }
    requires as_many { length held.old ≡ (space inst.now).nodes }
    ensures as_many { OnOk result (length held.new ≡ (space inst.entry.now).nodes) }
    ensures starts { IfOk result (λ gs. (before : List Placement) → TellsOf (space inst.entry.now) before held.old
        → Starts (space inst.entry.now) offer.entry.now.job before (start_at (space inst.entry.now) before (bid offer.entry.now) slot) held.new gs.items) }
{
    match prune(alloc, &offer.expr, slot, slot + 1)? {
        Some(left) => start_with(alloc, inst, offer.job, &left, held),
        None => Ok(Vec::new(alloc)),
    }
}

/// Holds what is reserved for a pending job beside what is held. Its only error is want of memory.
pub(crate) fn reserve(
    alloc: Global,
    inst: &Instance,
    offer: &Offer,
    held: &mut HeldSlots,
) -> Result<(), AllocError>
    requires sound { IsSound (space inst.now) }
    requires pending { Contains (space inst.now).bids (bid offer.now) }
    requires as_many { length held.old ≡ (space inst.now).nodes }
    ensures as_many { OnOk result (length held.new ≡ (space inst.entry.now).nodes) }
    ensures reserved { OnOk result ((before : List Placement) → TellsOf (space inst.entry.now) before held.old
        → TellsOf (space inst.entry.now) (before ++ reserved (space inst.entry.now) before (bid offer.entry.now)) held.new) }
{
    for slot in inst.now..inst.now + inst.window {
        let grants = start_at(alloc, inst, offer, slot, held)?;
        if !grants.is_empty() {
            return Ok(());
        }
    }
    Ok(())
}
