// What counts want.
ghost use Rattle.std.specs.Prelude.{◌≡◌, IfOk};
ghost use Rattle.tetri_assign.specs.steps.Taking.{wants_from};
ghost use Rattle.tetri_space.specs.Sound.{IsSound};
ghost use Rattle.tetri_space.specs.Space.{space};

use std::alloc::{AllocError, Global};
use tetri_compile::Taken;
use tetri_space::{Instance, leaf_of};
use tetri_strl::Leaf;

// Nodes of a partition that a leaf of a job wants, in the order of their turns.
#[derive(Clone, Copy, Debug, PartialEq, Eq, PartialOrd, Ord)]
pub struct Want {
    pub start: u32,
    pub job: u32,
    pub leaf: u32,
    pub part: u32,
    pub nodes: u32,
    pub end: u32,
}

// What the counts want, each for its leaf.
pub fn wants_of(alloc: Global, inst: &Instance, counts: &[Taken]) -> Result<Vec<Want>, AllocError>
    requires { IsSound (space inst.now) }
    ensures { IfOk result (λ v. v.items ≡ wants_from (space inst.entry.now).bids counts.now) }
{
    let mut wants = Vec::new(alloc);
    for count in counts {
        if let Some(leaf) = leaf_of(inst, count.job, count.leaf) {
            wants.push(Want {
                start: leaf.start,
                job: count.job,
                leaf: leaf.num,
                part: count.part,
                nodes: count.nodes,
                end: leaf.start + leaf.dur,
            })?;
        }
    }
    Ok(wants)
}
