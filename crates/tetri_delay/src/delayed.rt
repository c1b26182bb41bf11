// What chooses plans with a cost of delay.
ghost use Rattle.std.specs.Prelude.{◌*◌, ◌≤◌, AllPairs, IfOk, IfSome};
ghost use Rattle.tetri_space.specs.GrantOrder.{ComesBefore};
ghost use Rattle.tetri_space.specs.Lawful.{IsLawful};
ghost use Rattle.tetri_space.specs.Sound.{IsSound};
ghost use Rattle.tetri_space.specs.Space.{space};
ghost use Rattle.tetri_space.specs.Total.{total_in};
ghost use Rattle.tetri_space.specs.Trimmed.{IsThriftyForAll};
ghost use Rattle.tetri_strl.specs.WellMade.{PEAK};

use crate::certified::certified;
use crate::charge::Density;
use crate::charging::{Jobs, Rates, charged_instance};
use crate::density::{MOST_WORTH, density_of};
use crate::rest::{beside, closed, holders, others};
use std::alloc::{AllocError, Global};
use tetri_plan::{Chooser, Plan};
use tetri_sooner::moved_sooner;
use tetri_space::{Instance, lawful, order_grants, total, trim_all};
use tetri_strl::{Allotment, Grant, copy_grant, copy_grants};

/// What a node costs for each slot before a start.
#[derive(Clone, Copy, Debug, PartialEq, Eq)]
pub enum Delay {
    /// Half of what a node-slot earns on the average in the worthiest leaf of each pending job, anew
    /// in each cycle.
    Auto,
    /// This much, of whose worth at most 10^17 counts.
    Fixed(Density),
}

/// How plans with a cost of delay are made.
#[derive(Clone, Copy, Debug, PartialEq, Eq)]
pub struct DelaySettings {
    /// What a delay costs.
    pub delay: Delay,
    /// For so many slots of waiting a job's worths count once more; none: they never do.
    pub ageing: Option<u32>,
    /// Whether the oldest pending job, once it was planned, keeps its nodes until it starts.
    pub keeps_promise: bool,
    /// The budget of another's search for a plan with the cost of delay.
    pub effort: u32,
}

/// Has another choose the plan of each cycle at worths that are lessened by what a delay costs, so
/// that a job starts soon unless a later start is worth the node-slots until then. The plan has its
/// jobs moved to earlier starts where these cost nothing. It is worth no less than what was carried
/// over, at the true worths, and its certificate is that of the true instance. It is meant for a
/// budget of 1: with more the search for the certificate takes the plan's place where it finds a
/// better one in time.
#[derive(Drop)]
pub struct Delayed<C: Chooser> {
    chooser: C,
    settings: DelaySettings,
    // By job, the slot in which it was first seen.
    first: Vec<u32>,
}

// The density that settings ask for in a cycle.
fn density_by(delay: Delay, inst: &Instance) -> Density
    ensures { result.worth ≤ 100000 * PEAK }
{
    match delay {
        Delay::Auto => density_of(inst),
        Delay::Fixed(density) => Density {
            worth: density.worth.min(MOST_WORTH),
            node_slots: density.node_slots,
        },
    }
}

// What is carried over for the oldest pending job.
fn promise(alloc: Global, inst: &Instance, carry: &Allotment) -> Result<Vec<Grant>, AllocError> {
    let mut held = Vec::new(alloc);
    if let Some(oldest) = inst.jobs.first() {
        for grant in carry.as_slice() {
            if grant.job == oldest.job {
                held.push(copy_grant(alloc, grant)?)?;
            }
        }
    }
    Ok(held)
}

// The grants by job and leaf without what earns nothing, where they are lawful and worth at least as
// much as this.
fn tested(
    alloc: Global,
    inst: &Instance,
    grants: &Allotment,
    least: u64,
) -> Result<Option<Allotment>, AllocError>
    requires { IsSound (space inst.now) }
    ensures lawful { IfOk result (λ o. IfSome o (IsLawful (space inst.entry.now))) }
    ensures thrifty { IfOk result (λ o. IfSome o (IsThriftyForAll (space inst.entry.now))) }
    ensures ordered { IfOk result (λ o. IfSome o (AllPairs ComesBefore)) }
    ensures worth { IfOk result (λ o. IfSome o (λ a. least ≤ total_in (space inst.entry.now) a)) }
{
    match lawful(inst, grants) {
        Ok(()) => {
            let trimmed = trim_all(alloc, inst, grants)?;
            let ordered = order_grants(trimmed)?;
            if total(inst, &ordered) < least {
                return Ok(None);
            }
            Ok(Some(ordered))
        }
        Err(_) => Ok(None),
    }
}

// What is carried over, by job and leaf.
fn carried(alloc: Global, inst: &Instance, carry: &Allotment) -> Result<Allotment, AllocError>
    requires sound { IsSound (space inst.now) }
    requires lawful { IsLawful (space inst.now) carry.now }
    requires thrifty { IsThriftyForAll (space inst.now) carry.now }
    ensures lawful { IfOk result (IsLawful (space inst.entry.now)) }
    ensures thrifty { IfOk result (IsThriftyForAll (space inst.entry.now)) }
    ensures ordered { IfOk result (AllPairs ComesBefore) }
    ensures worth { IfOk result
        (λ a. total_in (space inst.entry.now) carry.entry.now ≤ total_in (space inst.entry.now) a) }
{
    let copied = copy_grants(alloc, carry)?;
    let ordered = order_grants(copied)?;
    Ok(ordered)
}

impl<C: Chooser> Delayed<C> {
    /// With another that chooses plans at charged worths.
    pub fn new(alloc: Global, chooser: C, settings: DelaySettings) -> Self {
        Delayed {
            chooser,
            settings,
            first: Vec::new(alloc),
        }
    }

    // Notes the jobs that are seen for the first time. Its only error is want of memory.
    fn note(&mut self, inst: &Instance) -> Result<(), AllocError> {
        if let Some(offer) = inst.jobs.last() {
            let seen = offer.job as usize + 1;
            if self.first.len() < seen {
                self.first.resize(seen, inst.now)?;
            }
        }
        Ok(())
    }

    // The held grants, and beside them a plan of the other jobs, at charged worths and with jobs
    // moved to earlier starts; what it makes is to be tested.
    fn plan_beside(
        &mut self,
        alloc: Global,
        inst: &Instance,
        carry: &Allotment,
        rates: Rates,
        held: &[Grant],
    ) -> Result<Allotment, AllocError>
        requires sound { IsSound (space inst.now) }
        requires worth { rates.density.worth ≤ 100000 * PEAK }
    {
        let has = holders(alloc, held)?;
        let jobs = Jobs {
            first: &self.first,
            held: &has,
        };
        let charged = charged_instance(alloc, inst, rates, jobs)?;
        let rest = closed(alloc, charged, held)?;
        let known = others(alloc, &rest, carry, &has)?;
        let plan = self
            .chooser
            .plan(alloc, &rest, &known, self.settings.effort)?;
        beside(alloc, inst, held, plan.grants.as_slice())
    }

    // The grants with jobs moved to earlier starts that are worth no less at charged worths.
    fn moved(
        &self,
        alloc: Global,
        inst: &Instance,
        rates: Rates,
        grants: &Allotment,
    ) -> Result<Allotment, AllocError>
        requires sound { IsSound (space inst.now) }
        requires worth { rates.density.worth ≤ 100000 * PEAK }
    {
        let jobs = Jobs {
            first: &self.first,
            held: &[],
        };
        let charged = charged_instance(alloc, inst, rates, jobs)?;
        moved_sooner(alloc, &charged, grants)
    }

    // A plan beside held grants, where it is worth at least as much as this.
    fn tried(
        &mut self,
        alloc: Global,
        inst: &Instance,
        carry: &Allotment,
        held: &[Grant],
        least: u64,
    ) -> Result<Option<Allotment>, AllocError>
        requires { IsSound (space inst.now) }
        ensures lawful { IfOk result (λ o. IfSome o (IsLawful (space inst.entry.now))) }
        ensures thrifty { IfOk result (λ o. IfSome o (IsThriftyForAll (space inst.entry.now))) }
        ensures ordered { IfOk result (λ o. IfSome o (AllPairs ComesBefore)) }
        ensures worth { IfOk result (λ o. IfSome o (λ a. least ≤ total_in (space inst.entry.now) a)) }
    {
        let rates = Rates {
            density: density_by(self.settings.delay, inst),
            ageing: self.settings.ageing,
        };
        let planned = self.plan_beside(alloc, inst, carry, rates, held)?;
        let moved = self.moved(alloc, inst, rates, &planned)?;
        tested(alloc, inst, &moved, least)
    }

    // The grants of the cycle: beside the promise that is kept, else beside all that is carried
    // over, else what is carried over.
    fn grants(
        &mut self,
        alloc: Global,
        inst: &Instance,
        carry: &Allotment,
    ) -> Result<Allotment, AllocError>
        requires sound { IsSound (space inst.now) }
        requires lawful { IsLawful (space inst.now) carry.now }
        requires thrifty { IsThriftyForAll (space inst.now) carry.now }
        ensures lawful { IfOk result (IsLawful (space inst.entry.now)) }
        ensures thrifty { IfOk result (IsThriftyForAll (space inst.entry.now)) }
        ensures ordered { IfOk result (AllPairs ComesBefore) }
        ensures worth { IfOk result
            (λ a. total_in (space inst.entry.now) carry.entry.now ≤ total_in (space inst.entry.now) a) }
    {
        let least = total(inst, carry);
        let promise = if self.settings.keeps_promise {
            promise(alloc, inst, carry)?
        } else {
            Vec::new(alloc)
        };
        if let Some(grants) = self.tried(alloc, inst, carry, &promise, least)? {
            return Ok(grants);
        }
        if let Some(grants) = self.tried(alloc, inst, carry, carry.as_slice(), least)? {
            return Ok(grants);
        }
        carried(alloc, inst, carry)
    }
}

impl<C: Chooser> Chooser for Delayed<C> {
    fn plan(
        &mut self,
        alloc: Global,
        inst: &Instance,
        carry: &Allotment,
        budget: u32,
    ) -> Result<Plan, AllocError> {
        self.note(inst)?;
        let grants = self.grants(alloc, inst, carry)?;
        let plan = certified(alloc, inst, grants, budget)?;
        Ok(plan)
    }
}
