// The allotment of a point.
ghost use Rattle.std.specs.Prelude.{◌≡◌, pos, ◌≤ℤ◌, AllPairs, IfOk};
ghost use Rattle.tetri_ip.specs.Points.{IsPoint, box_of, objective};
ghost use Rattle.tetri_space.specs.GrantOrder.{ComesBefore};
ghost use Rattle.tetri_space.specs.Lawful.{IsLawful};
ghost use Rattle.tetri_space.specs.Partitions.{ArePartitionsOf, parts_of};
ghost use Rattle.tetri_space.specs.Sound.{IsSound};
ghost use Rattle.tetri_space.specs.Space.{space};
ghost use Rattle.tetri_space.specs.Total.{total_in};
ghost use Rattle.tetri_compile.specs.Flat.{IsCompiled};
ghost use Rattle.tetri_assign.specs.Assigned.{assigned};
ghost use Rattle.tetri_assign.specs.Granting.{GrantsCounts};

use crate::backs::take_nodes;
use crate::gathering::gather;
use crate::wants::wants_of;
use std::alloc::{AllocError, Global};
use tetri_compile::{Compiled, counts_of};
use tetri_space::{Instance, Partitions};
use tetri_strl::Allotment;

/// The allotment of a point of the instance's program. It grants exactly the point's counts, is lawful,
/// and its total is at least what the program earns at the point. The counts take nodes by start, job,
/// leaf and partition, each the lowest-numbered that are free at its start and that no earlier count
/// holds there. The grants go by job and leaf. Its only error is want of memory.
pub fn assign(
    alloc: Global,
    inst: &Instance,
    parts: &Partitions,
    c: &Compiled,
    point: &[i128],
) -> Result<Allotment, AllocError>
    requires sound { IsSound (space inst.now) }
    requires partitions { ArePartitionsOf (space inst.now) (parts_of parts.now) }
    requires compiled { IsCompiled (space inst.now) c.now }
    requires point { IsPoint c.now.program (box_of c.now.program) point.now }
    ensures assigned { IfOk result (λ a. a ≡ assigned (space inst.entry.now) point.now) }
    ensures counts { IfOk result (GrantsCounts (space inst.entry.now) point.now) }
    ensures lawful { IfOk result (IsLawful (space inst.entry.now)) }
    ensures ordered { IfOk result (λ a. AllPairs ComesBefore a) }
    ensures worth { IfOk result (λ a. objective c.entry.now.program point.now ≤ℤ pos (total_in (space inst.entry.now) a)) }
{
    let counts = counts_of(alloc, c, point)?;
    let mut wants = wants_of(alloc, inst, &counts)?;
    wants.sort()?;
    let mut held = take_nodes(alloc, inst, parts, &wants)?;
    held.sort()?;
    gather(alloc, &held)
}
