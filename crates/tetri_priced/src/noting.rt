// What is noted of a report while it is checked.
ghost use Rattle.std.specs.Prelude.{◌≡◌, [], OnOk};
ghost use Rattle.tetri_priced.specs.Run.{IsNoted};
ghost use Rattle.tetri_space.specs.Sound.{IsSound};
ghost use Rattle.tetri_space.specs.Space.{space};

use crate::cycle::{PricedCycle, Printed, price_cycle};
use crate::pricer::Pricer;
use crate::wanted::Wanted;
use std::alloc::{AllocError, Global};
use tetri_cycles::{Observer, SeenSlot};
use tetri_report::Head;
use tetri_space::Instance;
use tetri_state::State;
use tetri_trace::Trace;

/// What looks on while a report is checked, and notes what a pricer makes of the cycles that are asked for, in their order.
#[derive(Drop)]
pub struct Noting<P> {
    pub(crate) wanted: Wanted,
    pub(crate) pricer: P,
    pub(crate) cycles: Vec<PricedCycle>,
}

impl<P: Pricer + Drop> Noting<P> {
    /// Nothing is noted yet.
    pub fn new(alloc: Global, wanted: Wanted, pricer: P) -> Self
        ensures wanted { result.wanted ≡ wanted }
        ensures pricer { result.pricer ≡ pricer }
        ensures nothing { result.cycles.items ≡ [] }
    {
        Noting {
            wanted,
            pricer,
            cycles: Vec::new(alloc),
        }
    }

    /// The cycles that were noted.
    pub fn cycles(&self) -> &[PricedCycle]
        ensures { result.now ≡ self.now.cycles.items }
    {
        self.cycles.as_slice()
    }

    // Notes a cycle of this instance, where it is asked for.
    fn note(&mut self, alloc: Global, inst: &Instance, printed: Printed) -> Result<(), AllocError>
        requires { IsSound (space inst.now) }
        ensures { OnOk result (IsNoted P.gives (space inst.entry.now) printed self.old.wanted self.new.wanted
            self.old.pricer self.new.pricer self.old.cycles.items self.new.cycles.items) }
    {
        if !self.wanted.has(printed.number) {
            return Ok(());
        }
        let cycle = price_cycle(alloc, inst, printed, &mut self.pricer)?;
        self.cycles.push(cycle)?;
        Ok(())
    }
}

impl<P: Pricer + Drop> Observer for Noting<P> {
    ghost use Rattle.tetri_priced.specs.Run.{IsNoted, printed};
    ghost use Rattle.tetri_state.specs.Planning.{instance_at};

    ghost saw = { λ t s b old new. IsNoted P.gives (instance_at t s) (printed b)
        old.wanted new.wanted old.pricer new.pricer old.cycles.items new.cycles.items };

    fn see(
        &mut self,
        alloc: Global,
        _trace: &Trace,
        _state: &State,
        slot: SeenSlot<'_>,
        head: &Head,
    ) -> Result<(), AllocError> {
        let printed = Printed {
            number: head.number,
            value: head.value,
            bound: head.bound,
        };
        self.note(alloc, slot.inst, printed)
    }
}
