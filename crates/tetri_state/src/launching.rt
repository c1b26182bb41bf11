// The launch that ends a cycle.
ghost use Rattle.std.specs.Prelude.{◌≡◌, List, IfOk};
ghost use Rattle.tetri_space.specs.Lawful.{IsLawful};
ghost use Rattle.tetri_space.specs.Space.{space};
ghost use Rattle.tetri_state.specs.After.{after};
ghost use Rattle.tetri_space.specs.Trimmed.{IsThriftyForAll};
ghost use Rattle.tetri_state.specs.Planning.{instance_of};
ghost use Rattle.tetri_state.specs.Reached as moment;
ghost use Rattle.tetri_state.specs.Reached.{IsReached};
ghost use Rattle.tetri_state.specs.Readied.{Fits, IsFoundFor, IsLaunchOf, launched_from};
ghost use Rattle.tetri_strl.specs.declared.grants.Grant.{Grant};
ghost use Rattle.tetri_trace.specs.Scenario.{Scenario, scenario};
ghost use Rattle.tetri_trace.specs.Sound.{IsSound};

use crate::State;
use crate::launches::{Launch, find_launch};
use crate::prepared::{Prepared, leave};
use std::alloc::{AllocError, Global};
use tetri_space::Instance;
use tetri_strl::{Allotment, copy_grants};
use tetri_trace::Trace;

impl State {
    /// Makes the launch of grants ready, which are lawful and thrifty in the instance of this state: it is found, and then
    /// made ready as `prepare_launch` does. It takes all memory of the launch, and its only error is want of it.
    pub fn prepare(
        &self,
        alloc: Global,
        trace: &Trace,
        inst: &Instance,
        grants: &Allotment,
    ) -> Result<Prepared, AllocError>
        requires sound { IsSound (scenario trace.now) }
        requires reached { IsReached (scenario trace.now) moment.begun self.now }
        requires instance { space inst.now ≡ instance_of (scenario trace.now) self.now }
        requires lawful { IsLawful (space inst.now) grants.now }
        requires thrifty { IsThriftyForAll (space inst.now) grants.now }
        ensures launch { IfOk result (IsLaunchOf (scenario trace.entry.now) self.entry.now grants.now) }
        ensures fits { IfOk result (Fits self.entry.now) }
    {
        let launch = find_launch(alloc, trace, inst, grants.as_slice())?;
        self.prepare_launch(alloc, launch, grants)
    }

    /// Makes a launch ready that was found of these grants, which are lawful and thrifty in the instance of this state. It
    /// takes all further memory of the launch, and its only error is want of it.
    pub fn prepare_launch(
        &self,
        alloc: Global,
        launch: Launch,
        grants: &Allotment,
    ) -> Result<Prepared, AllocError>
        requires { (t : Scenario) × IsFoundFor t self.now grants.now launch }
        ensures launch { IfOk result (λ p. (t : Scenario)
            → IsFoundFor t self.entry.now grants.now launch
            → IsLaunchOf t self.entry.now grants.now p) }
        ensures fits { IfOk result (Fits self.entry.now) }
    {
        let Launch {
            starts: _starts,
            jobs,
            pieces,
            worth: _worth,
        } = launch;
        let room = Vec::with_capacity(alloc, self.pieces.len() + pieces.len())?;
        Ok(Prepared {
            jobs,
            pieces,
            grants: copy_grants(alloc, grants)?,
            room,
        })
    }

    /// The launch, which ends the cycle. It takes no memory.
    pub fn apply(&mut self, prepared: Prepared)
        requires { Fits self.old prepared }
        ensures state { self.new ≡ launched_from self.old prepared }
        ensures after { (t : Scenario) (a : List Grant) → IsLaunchOf t self.old a prepared → self.new ≡ after t self.old a }
        ensures reached { (t : Scenario) (a : List Grant) → IsReached t moment.begun self.old → IsLaunchOf t self.old a prepared
            → IsReached t moment.between self.new }
    {
        self.launch(prepared);
    }

    fn launch(&mut self, prepared: Prepared)
        requires { Fits self.old prepared }
        ensures { self.new ≡ launched_from self.old prepared }
    {
        let Prepared {
            mut jobs,
            mut pieces,
            grants,
            mut room,
        } = prepared;
        leave(&mut self.pending, &jobs);
        let _ = self.launched.append(&mut jobs);
        let _ = room.append(&mut self.pieces);
        let _ = room.append(&mut pieces);
        self.pieces = room;
        self.plan = grants;
        self.now += 1;
    }
}
