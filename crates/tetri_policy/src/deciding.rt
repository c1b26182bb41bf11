// The grants of a policy.
ghost use Rattle.std.specs.Prelude.{◌≡◌, ◌+◌, ◌++◌, ◌<◌, All, Contains, IfOk, List, OnOk, [], drop, length, map};
ghost use Rattle.tetri_advice.specs.Fit.{Placement};
ghost use Rattle.tetri_greedy.specs.Held.{TellsOf};
ghost use Rattle.tetri_policy.specs.Policies.{backfilled, each_start, first_come, policy_grants, starts_by};
ghost use Rattle.tetri_space.specs.Sound.{IsSound};
ghost use Rattle.tetri_space.specs.Space.{bid, space};

use crate::policy::Policy;
use crate::starting::{reserve, start_at};
use std::alloc::{AllocError, Global};
use tetri_greedy::HeldSlots;
use tetri_space::{Instance, Offer, trim_all};
use tetri_strl::{Allotment, Grant};

// The jobs in turn, until the first that cannot start.
fn first_come(alloc: Global, inst: &Instance) -> Result<Vec<Grant>, AllocError>
    requires { IsSound (space inst.now) }
    ensures { IfOk result (λ gs. gs.items ≡ first_come (space inst.entry.now) [] (space inst.entry.now).bids) }
{
    let mut held = HeldSlots::of(alloc, inst)?;
    let mut grants = Vec::new(alloc);
    for offer in &inst.jobs {
        let mut started = start_at(alloc, inst, offer, inst.now, &mut held)?;
        if started.is_empty() {
            return Ok(grants);
        }
        grants.append(&mut started)?;
    }
    Ok(grants)
}

// These jobs in turn beside what is held, put behind the grants.
fn start_each(
    alloc: Global,
    inst: &Instance,
    offers: &[Offer],
    held: &mut HeldSlots,
    grants: &mut Vec<Grant>,
) -> Result<(), AllocError>
    requires sound { IsSound (space inst.now) }
    requires pending { All (Contains (space inst.now).bids) (map bid offers.now) }
    requires as_many { length held.old ≡ (space inst.now).nodes }
    ensures { OnOk result ((before : List Placement) → TellsOf (space inst.entry.now) before held.old
        → grants.new.items ≡ grants.old.items ++ each_start (space inst.entry.now) before (map bid offers.entry.now)) }
{
    for offer in offers {
        let mut made = start_at(alloc, inst, offer, inst.now, held)?;
        grants.append(&mut made)?;
    }
    Ok(())
}

// The jobs in turn, where the first that cannot start gets what is reserved for it.
fn backfilled(alloc: Global, inst: &Instance) -> Result<Vec<Grant>, AllocError>
    requires { IsSound (space inst.now) }
    ensures { IfOk result (λ gs. gs.items ≡ backfilled (space inst.entry.now) [] (space inst.entry.now).bids) }
{
    let mut held = HeldSlots::of(alloc, inst)?;
    let mut grants = Vec::new(alloc);
    for (place, offer) in inst.jobs.iter().enumerate() {
        let mut made = start_at(alloc, inst, offer, inst.now, &mut held)?;
        if made.is_empty() {
            reserve(alloc, inst, offer, &mut held)?;
            let rest = later(inst.jobs.as_slice(), place);
            start_each(alloc, inst, rest, &mut held, &mut grants)?;
            return Ok(grants);
        }
        grants.append(&mut made)?;
    }
    Ok(grants)
}

// The offers behind a place.
fn later(offers: &[Offer], place: usize) -> &[Offer]
    requires { place < length offers.now }
    ensures { result.now ≡ drop (place + 1) offers.now }
{
    &offers[place + 1..]
}

// The starts of a policy.
fn starts_by(alloc: Global, inst: &Instance, policy: Policy) -> Result<Vec<Grant>, AllocError>
    requires { IsSound (space inst.now) }
    ensures { IfOk result (λ gs. gs.items ≡ starts_by policy (space inst.entry.now)) }
{
    match policy {
        Policy::FirstCome => first_come(alloc, inst),
        Policy::Backfill => backfilled(alloc, inst),
    }
}

/// The grants of a policy. Its only error is want of memory.
pub fn policy_grants(
    alloc: Global,
    inst: &Instance,
    policy: Policy,
) -> Result<Allotment, AllocError>
    requires { IsSound (space inst.now) }
    ensures { IfOk result (λ a. a ≡ policy_grants policy (space inst.entry.now)) }
{
    let starts = starts_by(alloc, inst, policy)?;
    let grants = trim_all(alloc, inst, &Allotment::of(starts))?;
    Ok(grants)
}
