// What is carried over of a plan.
ghost use Rattle.std.specs.Prelude.{◌≡◌, IfOk};
ghost use Rattle.tetri_space.specs.Lawful.{IsLawful};
ghost use Rattle.tetri_space.specs.Sound.{IsSound as IsSoundSpace};
ghost use Rattle.tetri_space.specs.Space.{leaf_in, space};
ghost use Rattle.tetri_space.specs.Trimmed.{IsThriftyForAll};
ghost use Rattle.tetri_state.specs.Planning.{IsCarry, instance_of, is_live, still_pending};
ghost use Rattle.tetri_state.specs.Reached as moment;
ghost use Rattle.tetri_state.specs.Reached.{IsReached};
ghost use Rattle.tetri_trace.specs.Scenario.{scenario};
ghost use Rattle.tetri_trace.specs.Sound.{IsSound};

use crate::State;
use std::alloc::{AllocError, Global};
use tetri_space::{Instance, lawful, leaf_of};
use tetri_strl::{Allotment, Grant, copy_grant};
use tetri_trace::Trace;

// Whether the grant names a pending job and a leaf that it offers in the window.
fn is_live(inst: &Instance, grant: &Grant) -> bool
    requires { IsSoundSpace (space inst.now) }
    ensures { result ≡ is_live (space inst.entry.now) (leaf_in (space inst.entry.now).bids grant.now.job grant.now.leaf) }
{
    match leaf_of(inst, grant.job, grant.leaf) {
        Some(leaf) => inst.now <= leaf.start && leaf.start < inst.now + inst.window,
        None => false,
    }
}

// The grants that name a pending job and a leaf that it offers in the window.
fn still_pending(alloc: Global, inst: &Instance, grants: &[Grant]) -> Result<Allotment, AllocError>
    requires { IsSoundSpace (space inst.now) }
    ensures { IfOk result (λ a. a ≡ still_pending (space inst.entry.now) grants.now) }
{
    let mut kept = Allotment::new(alloc);
    for grant in grants {
        if is_live(inst, grant) {
            kept.push(copy_grant(alloc, grant)?)?;
        }
    }
    Ok(kept)
}

impl State {
    /// What is carried over of the last plan: its grants that name a pending job and a leaf that the job offers in the window,
    /// where these are lawful together in the instance of this state, and else none. Its only error is want of memory.
    pub fn carry(
        &self,
        alloc: Global,
        trace: &Trace,
        inst: &Instance,
    ) -> Result<Allotment, AllocError>
        requires sound { IsSound (scenario trace.now) }
        requires reached { IsReached (scenario trace.now) moment.begun self.now }
        requires instance { space inst.now ≡ instance_of (scenario trace.now) self.now }
        ensures carry { IfOk result (IsCarry (space inst.entry.now) self.entry.now.plan) }
        ensures lawful { IfOk result (IsLawful (space inst.entry.now)) }
        ensures thrifty { IfOk result (IsThriftyForAll (space inst.entry.now)) }
    {
        let kept = still_pending(alloc, inst, self.plan.as_slice())?;
        match lawful(inst, &kept) {
            Ok(()) => Ok(kept),
            Err(_) => Ok(Allotment::new(alloc)),
        }
    }
}
