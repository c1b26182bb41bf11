// What looks on while a report is checked, for the program of one of its cycles.
ghost use Rattle.std.specs.Prelude.{◌≡◌, OnOk, unwrap_or};
ghost use Rattle.tetri_space.specs.Sound.{IsSound};
ghost use Rattle.tetri_space.specs.Space.{space};

use crate::instance::{Exported, export_instance};
use std::alloc::{AllocError, Global};
use tetri_cluster::Cluster;
use tetri_cycles::{Observer, SeenSlot};
use tetri_export::Format;
use tetri_report::Head;
use tetri_space::Instance;
use tetri_state::State;
use tetri_trace::Trace;

/// The cycle that is asked for, the format, and what was exported, once the cycle was shown.
#[derive(Drop)]
pub struct Watching {
    pub(crate) cycle: u32,
    pub(crate) format: Format,
    pub(crate) exported: Option<Exported>,
}

impl Watching {
    ghost use Rattle.tetri_programs.specs.Taken.{IsTaken};

    /// Nothing is exported yet.
    pub fn new(cycle: u32, format: Format) -> Self
        ensures cycle { result.cycle ≡ cycle }
        ensures format { result.format ≡ format }
        ensures nothing { result.exported ≡ None }
    {
        Watching {
            cycle,
            format,
            exported: None,
        }
    }

    /// What was exported, or that there is no such cycle where none was shown.
    pub fn end(self) -> Exported
        ensures { result ≡ unwrap_or self.exported Exported.NoCycle }
    {
        let Watching {
            cycle: _cycle,
            format: _format,
            exported,
        } = self;
        exported.unwrap_or(Exported::NoCycle)
    }

    // Takes what is exported of this instance, where its cycle is the one that is asked for.
    fn take(&mut self, alloc: Global, cluster: &Cluster, inst: &Instance) -> Result<(), AllocError>
        requires { IsSound (space inst.now) }
        ensures { OnOk result (IsTaken cluster.entry.now (space inst.entry.now) self.old self.new) }
    {
        if inst.now != self.cycle {
            return Ok(());
        }
        let exported = export_instance(alloc, inst, cluster, self.format)?;
        self.exported = Some(exported);
        Ok(())
    }
}

impl Observer for Watching {
    ghost use Rattle.tetri_programs.specs.Taken.{IsTaken};
    ghost use Rattle.tetri_state.specs.Planning.{instance_at};

    ghost saw = { λ t s b old new. IsTaken t.nodes (instance_at t s) old new };

    fn see(
        &mut self,
        alloc: Global,
        trace: &Trace,
        _state: &State,
        slot: SeenSlot<'_>,
        _head: &Head,
    ) -> Result<(), AllocError> {
        self.take(alloc, &trace.cluster, slot.inst)
    }
}
