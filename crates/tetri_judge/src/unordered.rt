// Grants in any order, by a copy in order.
ghost use Rattle.std.specs.Prelude.{◌≡◌, ◌==◌, ◌↔◌, None, IfOk, IfSome, length, map};
ghost use Rattle.std.specs.List.{list_any, position_from};
ghost use Rattle.std.specs.List.Sorted.{IsNonDecreasingBy};
ghost use Rattle.tetri_base.specs.Order.{in_order};
ghost use Rattle.tetri_claims.specs.Good.{IsThriftyForAll};
ghost use Rattle.tetri_judge.specs.Wasted.{first_wasted, idle_of, is_idle_among};
ghost use Rattle.tetri_space.specs.GrantOrder.{comes_first};
ghost use Rattle.tetri_space.specs.Sound.{IsSound};
ghost use Rattle.tetri_space.specs.Space.{space};
ghost use Rattle.tetri_space.specs.Total.{total_in};

use crate::wasted::first_wasted;
use std::alloc::{AllocError, Global};
use tetri_space::{Instance, ascends_by_job, order_grants, run_len, total};
use tetri_strl::{Allotment, Grant, copy_grants, idle_leaves};

/// A copy of the grants by job and leaf, where they do not ascend by job and there is memory for it.
pub(crate) fn ordered_copy(alloc: Global, grants: &Allotment) -> Option<Allotment>
    ensures { IfSome result (λ o. o ≡ in_order comes_first grants.now) }
{
    if ascends_by_job(grants.as_slice()) {
        return None;
    }
    let Ok(copy) = copy_grants(alloc, grants) else {
        return None;
    };
    match order_grants(copy) {
        Ok(ordered) => Some(ordered),
        Err(_) => None,
    }
}

/// What the grants are worth to all jobs together, by their copy in order where there is one.
pub(crate) fn total_by(inst: &Instance, grants: &Allotment, ordered: &Option<Allotment>) -> u64
    requires sound { IsSound (space inst.now) }
    requires copy { IfSome ordered.now (λ o. o ≡ in_order comes_first grants.now) }
    ensures { result ≡ total_in (space inst.entry.now) grants.now }
{
    match ordered {
        Some(ordered) => total(inst, ordered),
        None => total(inst, grants),
    }
}

// The idle leaves of each job, by the place of its offer. The grants are gone through once.
fn idle_by_offer(
    alloc: Global,
    inst: &Instance,
    grants: &[Grant],
) -> Result<Vec<Vec<u32>>, AllocError>
    requires sound { IsSound (space inst.now) }
    requires ascending { IsNonDecreasingBy (λ g. g.job) grants.now }
    ensures { IfOk result (λ v. map (λ ns. ns.items) v.items
        ≡ map (idle_of grants.now) (space inst.entry.now).bids) }
{
    let mut idle = Vec::new(alloc);
    let mut rest = grants;
    for offer in &inst.jobs {
        let (run, later) = rest.split_at(run_len(rest, offer.job));
        let leaves = idle_leaves(alloc, &offer.expr, offer.job, run)?;
        idle.push(leaves)?;
        rest = later;
    }
    Ok(idle)
}

fn has_leaf(leaves: &[u32], leaf: u32) -> bool
    ensures { result ≡ list_any (λ n. n == leaf) leaves.now }
{
    leaves.iter().any(|n| *n == leaf)
}

// Whether the grant is of an idle leaf of its job, which is found by binary search.
fn is_idle(inst: &Instance, idle: &[Vec<u32>], grant: &Grant) -> bool
    requires sound { IsSound (space inst.now) }
    requires as_many { length idle.now ≡ length (space inst.now).bids }
    ensures { result ≡ is_idle_among (space inst.entry.now).bids (map (λ ns. ns.items) idle.now) grant.now }
{
    let job = grant.job;
    match inst.jobs.binary_search_by_key(&job, |offer| offer.job) {
        Ok(at) => has_leaf(&idle[at], grant.leaf),
        Err(_) => false,
    }
}

fn first_idle(inst: &Instance, idle: &[Vec<u32>], grants: &[Grant]) -> Option<u64>
    requires sound { IsSound (space inst.now) }
    requires as_many { length idle.now ≡ length (space inst.now).bids }
    ensures { result ≡ position_from (is_idle_among (space inst.entry.now).bids (map (λ ns. ns.items) idle.now)) 0 grants.now }
{
    for (place, grant) in grants.iter().enumerate() {
        if is_idle(inst, idle, grant) {
            return Some(place as u64);
        }
    }
    None
}

// The place of the first grant that earns its job nothing, by the copy in order.
fn wasted_by_copy(
    alloc: Global,
    inst: &Instance,
    grants: &Allotment,
    ordered: &Allotment,
) -> Result<Option<u64>, AllocError>
    requires sound { IsSound (space inst.now) }
    requires copy { ordered.now ≡ in_order comes_first grants.now }
    ensures place { IfOk result (λ place. place ≡ first_wasted (space inst.entry.now).bids grants.now) }
    ensures thrifty { IfOk result (λ place. (place ≡ None) ↔ IsThriftyForAll (space inst.entry.now) grants.now) }
{
    let idle = idle_by_offer(alloc, inst, ordered.as_slice())?;
    Ok(first_idle(inst, &idle, grants.as_slice()))
}

/// The place of the first grant that earns its job nothing, by the copy in order where there is one. Where memory lacks, it goes
/// as `first_wasted` does.
pub(crate) fn wasted_by(
    alloc: Global,
    inst: &Instance,
    grants: &Allotment,
    ordered: &Option<Allotment>,
) -> Option<u64>
    requires sound { IsSound (space inst.now) }
    requires copy { IfSome ordered.now (λ o. o ≡ in_order comes_first grants.now) }
    ensures place { result ≡ first_wasted (space inst.entry.now).bids grants.now }
    ensures thrifty { (result ≡ None) ↔ IsThriftyForAll (space inst.entry.now) grants.now }
{
    match ordered {
        Some(ordered) => match wasted_by_copy(alloc, inst, grants, ordered) {
            Ok(place) => place,
            Err(_) => first_wasted(inst, grants),
        },
        None => first_wasted(inst, grants),
    }
}
