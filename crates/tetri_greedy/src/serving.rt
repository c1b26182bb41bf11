// Jobs served in turn.
ghost use Rattle.std.specs.Prelude.{◌≡◌, Contains, IfOk, List, OnOk, length};
ghost use Rattle.tetri_advice.specs.Creeds.{greedy_list};
ghost use Rattle.tetri_advice.specs.Fit.{Placement};
ghost use Rattle.tetri_greedy.specs.Held.{TellsOf};
ghost use Rattle.tetri_greedy.specs.Served.{IsServed};
ghost use Rattle.tetri_space.specs.Sound.{IsSound};
ghost use Rattle.tetri_space.specs.Space.{bid, space};

use crate::fits::fit;
use crate::fitted::Placements;
use crate::held::HeldSlots;
use crate::order::creed_order;
use std::alloc::{AllocError, Global};
use tetri_advice::Creed;
use tetri_space::{Instance, Offer};
use tetri_strl::{Allotment, Grant};

// Puts the grants of a job's fit last, and holds its nodes.
fn serve(
    alloc: Global,
    inst: &Instance,
    offer: &Offer,
    held: &mut HeldSlots,
    grants: &mut Vec<Grant>,
) -> Result<(), AllocError>
    requires sound { IsSound (space inst.now) }
    requires pending { Contains (space inst.now).bids (bid offer.now) }
    requires as_many { length held.old ≡ (space inst.now).nodes }
    ensures as_many { OnOk result (length held.new ≡ (space inst.entry.now).nodes) }
    ensures served { OnOk result ((before : List Placement) → TellsOf (space inst.entry.now) before held.old
        → IsServed (space inst.entry.now) before (bid offer.entry.now) held.new grants.old.items grants.new.items) }
{
    let mut own = Placements::new(alloc, offer.job);
    fit(alloc, inst, held, &offer.expr, &mut own)?;
    own.hold(inst.now, held);
    let mut made = own.into_grants();
    grants.append(&mut made)
}

/// The jobs in the order of a creed, each with the fit of its expression beside what earlier ones got. Its only error is want of
/// memory.
pub(crate) fn greedy_list(
    alloc: Global,
    inst: &Instance,
    creed: Creed,
) -> Result<Allotment, AllocError>
    requires { IsSound (space inst.now) }
    ensures { IfOk result (λ a. a ≡ greedy_list creed (space inst.entry.now)) }
{
    let order = creed_order(alloc, inst, creed)?;
    let mut held = HeldSlots::of(alloc, inst)?;
    let mut grants = Vec::new(alloc);
    for job in &order {
        serve(
            alloc,
            inst,
            &inst.jobs[job.place as usize],
            &mut held,
            &mut grants,
        )?;
    }
    Ok(Allotment::of(grants))
}
