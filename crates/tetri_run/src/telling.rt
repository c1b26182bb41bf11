// How the cycles of a run are told.
ghost use Rattle.std.specs.Prelude.{◌≡◌, IfOk};
ghost use Rattle.tetri_claims.specs.Certified.{IsOfKind};
ghost use Rattle.tetri_claims.specs.Good.{BoundsEveryLawful};
ghost use Rattle.tetri_report.specs.Block.{block};
ghost use Rattle.tetri_report.specs.Printable.{IsPrintable};
ghost use Rattle.tetri_run.specs.Telling.{IsTold};
ghost use Rattle.tetri_space.specs.Lawful.{IsLawful};
ghost use Rattle.tetri_space.specs.Sound.{IsSound};
ghost use Rattle.tetri_space.specs.Space.{space};
ghost use Rattle.tetri_space.specs.Total.{total_in};
ghost use Rattle.tetri_trace.specs.Scenario.{scenario};

use std::alloc::{AllocError, Global};
use tetri_commands::tight_lines;
use tetri_report::{Cycle, print_cycle};
use tetri_space::Instance;
use tetri_trace::Trace;

/// How each cycle of a run is told.
#[derive(Clone, Copy, Debug)]
pub(crate) enum Telling {
    /// By its block of the report.
    Report,
    /// By what cuts make of its bound.
    Tight,
    /// Not at all: the summary of the run is all that is written.
    Untold,
}

/// The text that tells of a cycle of this instance. Its block of the report is made only where that
/// is what is told.
pub(crate) fn told_text(
    alloc: Global,
    trace: &Trace,
    inst: &Instance,
    cycle: &Cycle,
    telling: Telling,
) -> Result<Vec<u8>, AllocError>
    requires printable { IsPrintable (scenario trace.now) (block cycle.now) }
    requires sound { IsSound (space inst.now) }
    requires lawful { IsLawful (space inst.now) (block cycle.now).grants }
    requires attained { total_in (space inst.now) (block cycle.now).grants
        ≡ (block cycle.now).value }
    requires kind { IsOfKind (space inst.now) (block cycle.now).certificate }
    requires bounded { BoundsEveryLawful (space inst.now) (block cycle.now).bound }
    ensures { IfOk result
        (λ v. IsTold telling (scenario trace.entry.now) (space inst.entry.now)
        (block cycle.entry.now) v.items) }
{
    match telling {
        Telling::Report => {
            let own = print_cycle(alloc, trace, cycle)?;
            Ok(own)
        }
        Telling::Tight => {
            let (number, value, bound) = (cycle.number, cycle.value, cycle.bound);
            let lines = tight_lines(alloc, inst, number, value, bound, &cycle.certificate)?;
            Ok(lines)
        }
        Telling::Untold => Ok(Vec::new(alloc)),
    }
}
