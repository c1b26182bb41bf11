// The parts of an instance, found.
ghost use Rattle.std.specs.Prelude.{IfOk};
ghost use Rattle.tetri_space.specs.Sound.{IsSound};
ghost use Rattle.tetri_space.specs.Space.{space};
ghost use Rattle.tetri_split.specs.Parts.{ArePartsOf};

use crate::Parts;
use crate::grouping::group_jobs;
use crate::labels::keys_of;
use std::alloc::{AllocError, Global};
use tetri_space::Instance;

/// The independent parts of an instance: the connected components of its jobs, where two jobs are joined that may
/// use the same node. Nodes are labelled: each used set's nodes are joined once, then for each job the first nodes of
/// its sets, with one walk over the labels for each join of two labels. Its only error is want of memory.
pub fn split(alloc: Global, inst: &Instance) -> Result<Parts, AllocError>
    requires { IsSound (space inst.now) }
    ensures { IfOk result (ArePartsOf (space inst.entry.now)) }
{
    let keys = keys_of(alloc, inst)?;
    let groups = group_jobs(alloc, &inst.jobs, &keys, inst.nodes)?;
    Ok(Parts::of(groups))
}
