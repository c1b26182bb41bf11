// Which nodes are free.
ghost use Rattle.std.specs.Prelude.{◌≡◌, ◌≤◌, ◌↔◌, IsTrue};
ghost use Rattle.tetri_space.specs.Free.{IsFree, IsFreeThroughout, is_idle};
ghost use Rattle.tetri_space.specs.Sound.{IsSound};
ghost use Rattle.tetri_space.specs.Space.{space};

use crate::Instance;
use tetri_strl::Leaf;

// Whether the node is there and not drained, and busy until that slot at most.
fn is_idle(inst: &Instance, node: u32, slot: u32) -> bool
    requires { IsSound (space inst.now) }
    ensures { result ≡ is_idle (space inst.entry.now) node slot }
{
    if node >= inst.nodes {
        return false;
    }
    let place = node as usize;
    !inst.drained[place] && inst.busy_until[place] <= slot
}

/// Whether a leaf may use the node in the slot: the node is there and not drained, busy until that
/// slot at most, and not closed in it.
pub fn free(inst: &Instance, node: u32, slot: u32) -> bool
    requires { IsSound (space inst.now) }
    ensures { IsTrue result ↔ IsFree (space inst.entry.now) node slot }
{
    is_idle(inst, node, slot) && !inst.closures.is_closed(node, slot)
}

/// Whether the node is free in each slot of the leaf. A node that is idle in the first slot is idle
/// in all later ones.
pub fn free_throughout(inst: &Instance, leaf: &Leaf, node: u32) -> bool
    requires sound { IsSound (space inst.now) }
    requires some_slots { 1 ≤ leaf.now.dur }
    ensures { IsTrue result ↔ IsFreeThroughout (space inst.entry.now) leaf.now node }
{
    is_idle(inst, node, leaf.start) && !inst.closures.is_closed_within(node, leaf.start, leaf.dur)
}
