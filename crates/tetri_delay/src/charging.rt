// The instance of a cycle with a cost of delay.
ghost use Rattle.std.specs.Prelude.{◌≡◌, ◌*◌, ◌≤◌, IfOk, map};
ghost use Rattle.tetri_delay.specs.Charged.{charged_bid, charged_space, is_held, most_in, times_of};
ghost use Rattle.tetri_space.specs.Sound.{IsSound};
ghost use Rattle.tetri_space.specs.Space.{bid, space};
ghost use Rattle.tetri_strl.specs.Tree.{tree};
ghost use Rattle.tetri_strl.specs.WellMade.{IsSound as IsSoundTree, PEAK, peak};

use crate::charge::{Charge, Density, charged_expr};
use crate::factors::{grain, times, waited};
use crate::peak::peak;
use std::alloc::{AllocError, Global};
use std::rc::Rc;
use tetri_space::{Instance, Offer};
use tetri_strl::Expr;

/// What a delay costs in a cycle.
#[derive(Clone, Copy, Debug, PartialEq, Eq)]
pub struct Rates {
    /// What a node costs for each slot before a start.
    pub density: Density,
    /// For so many slots of waiting a job's worths count once more; none: they never do.
    pub ageing: Option<u32>,
}

/// What is known of jobs, by their numbers.
#[derive(Clone, Copy)]
pub struct Jobs<'a> {
    /// The slot in which the job was first seen; a job past its end has not waited.
    pub first: &'a [u32],
    /// Whether the job's nodes are held for it, so that its offer counts for nothing; a job past its
    /// end is not held.
    pub held: &'a [bool],
}

fn is_held(held: &[bool], job: u32) -> bool
    ensures { result ≡ is_held held.now job }
{
    match held.get(job as usize) {
        Some(is_held) => *is_held,
        None => false,
    }
}

// The greatest worth that a part of a sound expression may have.
fn peak_of(e: &Expr) -> u64
    requires { IsSoundTree (tree e.now) }
    ensures { result ≡ peak (tree e.now) }
{
    peak(e)
}

// The greatest worth that a part of an expression of the instance may have.
fn most_in(inst: &Instance) -> u64
    requires { IsSound (space inst.now) }
    ensures { result ≡ most_in (space inst.entry.now).bids }
{
    let mut most = 0;
    for offer in &inst.jobs {
        most = peak(&offer.expr).max(most);
    }
    most
}

// By how much the worths of a job are multiplied: by 0 where it is held.
fn times_of(offer: &Offer, rates: Rates, jobs: Jobs<'_>, now: u32, grain: u64) -> u64
    requires sound { IsSoundTree (tree offer.now.expr) }
    requires grain { grain ≤ 64 }
    ensures exact { result ≡ times_of rates jobs.entry.first.now jobs.entry.held.now now grain (bid offer.entry.now) }
    ensures in_range { result ≤ PEAK }
{
    if is_held(jobs.held, offer.job) {
        return 0;
    }
    let waited = waited(jobs.first, now, offer.job);
    times(grain, rates.ageing, waited, peak_of(&offer.expr))
}

// What a job offers, charged.
fn charged_offer(
    alloc: Global,
    offer: &Offer,
    rates: Rates,
    jobs: Jobs<'_>,
    now: u32,
    grain: u64,
) -> Result<Offer, AllocError>
    requires sound { IsSoundTree (tree offer.now.expr) }
    requires worth { rates.density.worth ≤ 100000 * PEAK }
    requires grain { grain ≤ 64 }
    ensures { IfOk result (λ o. bid o ≡ charged_bid rates jobs.entry.first.now jobs.entry.held.now now grain (bid offer.entry.now)) }
{
    let charge = Charge {
        now,
        times: times_of(offer, rates, jobs, now, grain),
        density: rates.density,
    };
    Ok(Offer {
        job: offer.job,
        expr: charged_expr(alloc, &offer.expr, charge, 1)?,
    })
}

// What the jobs of an instance offer, charged.
fn charged_offers(
    alloc: Global,
    inst: &Instance,
    rates: Rates,
    jobs: Jobs<'_>,
    grain: u64,
) -> Result<Vec<Offer>, AllocError>
    requires sound { IsSound (space inst.now) }
    requires worth { rates.density.worth ≤ 100000 * PEAK }
    requires grain { grain ≤ 64 }
    ensures { IfOk result (λ made. map bid made.items
        ≡ map (charged_bid rates jobs.entry.first.now jobs.entry.held.now inst.entry.now.now grain) (space inst.entry.now).bids) }
{
    let mut made = Vec::with_capacity(alloc, inst.jobs.len())?;
    for offer in &inst.jobs {
        made.push(charged_offer(alloc, offer, rates, jobs, inst.now, grain)?)?;
    }
    Ok(made)
}

// The instance with charged offers.
fn with_charges(
    alloc: Global,
    inst: &Instance,
    rates: Rates,
    jobs: Jobs<'_>,
) -> Result<Instance, AllocError>
    requires sound { IsSound (space inst.now) }
    requires worth { rates.density.worth ≤ 100000 * PEAK }
    ensures { IfOk result (λ i. space i ≡ charged_space rates jobs.entry.first.now jobs.entry.held.now (space inst.entry.now)) }
{
    let grain = grain(most_in(inst));
    Ok(Instance {
        now: inst.now,
        window: inst.window,
        nodes: inst.nodes,
        sets: Rc::clone(&inst.sets)?,
        busy_until: Vec::from_slice(alloc, &inst.busy_until)?,
        drained: Vec::from_slice(alloc, &inst.drained)?,
        closures: Rc::clone(&inst.closures)?,
        jobs: charged_offers(alloc, inst, rates, jobs, grain)?,
    })
}

/// The instance with the same jobs, leaves, nodes and slots, in which each leaf's worth is lessened
/// by what its delay costs, and each job that is held offers leaves worth nothing. Its only error is
/// want of memory.
pub fn charged_instance(
    alloc: Global,
    inst: &Instance,
    rates: Rates,
    jobs: Jobs<'_>,
) -> Result<Instance, AllocError>
    requires sound { IsSound (space inst.now) }
    requires worth { rates.density.worth ≤ 100000 * PEAK }
    ensures instance { IfOk result (λ i. space i ≡ charged_space rates jobs.entry.first.now jobs.entry.held.now (space inst.entry.now)) }
    ensures sound { IfOk result (λ i. IsSound (space i)) }
{
    let charged = with_charges(alloc, inst, rates, jobs)?;
    Ok(charged)
}
