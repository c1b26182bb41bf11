// What looks on while a report is checked.
ghost use Rattle.std.specs.Prelude.{◌≡◌, OnOk};
ghost use Rattle.tetri_cert.specs.declared.certificate.Certificate.{Certificate};
ghost use Rattle.tetri_cycles.specs.Observed.{IsShown};
ghost use Rattle.tetri_report.specs.Block.{Block, headed};
ghost use Rattle.tetri_state.specs.Snapshot.{Snapshot};
ghost use Rattle.tetri_trace.specs.Scenario.{Scenario, scenario};
ghost use Rattle.tetri_trace.specs.Sound.{IsSound};

use std::alloc::{AllocError, Global};
use tetri_report::Head;
use tetri_space::Instance;
use tetri_state::State;
use tetri_trace::Trace;

/// A slot of a run, with the launch of its cycle.
#[derive(Clone, Copy)]
pub struct SeenSlot<'a> {
    /// What the cycle plans for.
    pub inst: &'a Instance,
    /// How many pieces run once the slot has begun. In the state behind the cycle, its new pieces stand from this place on.
    pub held: usize,
    /// What the launched jobs are worth together at their launch.
    pub worth: u64,
}

/// What looks on while a report is checked: it is shown each cycle of the report in order, once this was found right.
pub trait Observer {
    /// What a cycle may make of it: of the trace, the state in which the cycle begins and the cycle, the observer as it stood before
    /// and as it stands behind it.
    ghost saw: { Scenario → Snapshot → Block → Self → Self → Type 0 };

    /// Sees a cycle: the state behind its launch, its slot, and all that it tells but its certificate. What happened as the slot began
    /// and which jobs were launched is in its head, where it was found to be so. The only error is want of memory.
    fn see(
        &mut self,
        alloc: Global,
        trace: &Trace,
        state: &State,
        slot: SeenSlot<'_>,
        head: &Head,
    ) -> Result<(), AllocError>
        requires sound { IsSound (scenario trace.now) }
        requires shown { (s : Snapshot) × (c : Certificate)
            × IsShown (scenario trace.now) s (headed head.now c) state.now slot }
        ensures saw { (s : Snapshot) (c : Certificate)
            → IsShown (scenario trace.entry.now) s (headed head.entry.now c) state.entry.now slot.entry
            → OnOk result (saw (scenario trace.entry.now) s (headed head.entry.now c) self.old self.new) };
}

/// An observer that keeps nothing of what it sees.
#[derive(Drop)]
pub struct Unobserved;

impl Observer for Unobserved {
    ghost use Rattle.std.specs.Prelude.{◌≡◌};

    ghost saw = { λ _ _ _ old new. new ≡ old };

    fn see(
        &mut self,
        _alloc: Global,
        _trace: &Trace,
        _state: &State,
        _slot: SeenSlot<'_>,
        _head: &Head,
    ) -> Result<(), AllocError> {
        Ok(())
    }
}
