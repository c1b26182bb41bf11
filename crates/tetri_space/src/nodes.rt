// The nodes of a grant against the leaf that it names.
ghost use Rattle.std.specs.Prelude.{◌≤◌, ◌↔◌, ◌<◌, IsTrue, All, Contains, MatchOption, length};
ghost use Rattle.std.specs.List.Sorted.{IsStrictlyIncreasing};
ghost use Rattle.tetri_space.specs.Broken.{IsLeast};
ghost use Rattle.tetri_space.specs.Free.{IsFreeThroughout};
ghost use Rattle.tetri_space.specs.Sound.{IsSound};
ghost use Rattle.tetri_space.specs.Space.{set_of, space};

use crate::{Instance, free_throughout};
use tetri_strl::Leaf;

// Whether there is a node, and each is above the one before it.
pub fn some_ascend(nodes: &[u32]) -> bool
    ensures { IsTrue result ↔ ((1 ≤ length nodes.now) × IsStrictlyIncreasing nodes.now) }
{
    for place in 1..nodes.len() {
        if nodes[place] <= nodes[place - 1] {
            return false;
        }
    }
    !nodes.is_empty()
}

// The least node that is not in the leaf's set.
pub fn first_outside(inst: &Instance, leaf: &Leaf, nodes: &[u32]) -> Option<u32>
    requires known { leaf.now.set < length (space inst.now).sets }
    requires ascending { IsStrictlyIncreasing nodes.now }
    ensures { MatchOption result
        (All (Contains (set_of (space inst.entry.now) leaf.now)) nodes.now)
        (IsLeast (λ m. Contains nodes.now m
        × (Contains (set_of (space inst.entry.now) leaf.now) m → ⊥))) }
{
    for node in nodes {
        if !inst.sets.holds(leaf.set, *node) {
            return Some(*node);
        }
    }
    None
}

// The least node that is not free in some slot of the leaf.
pub fn first_not_free(inst: &Instance, leaf: &Leaf, nodes: &[u32]) -> Option<u32>
    requires sound { IsSound (space inst.now) }
    requires some_slots { 1 ≤ leaf.now.dur }
    requires ascending { IsStrictlyIncreasing nodes.now }
    ensures { MatchOption result
        (All (IsFreeThroughout (space inst.entry.now) leaf.now) nodes.now)
        (IsLeast (λ m. Contains nodes.now m
        × (IsFreeThroughout (space inst.entry.now) leaf.now m → ⊥))) }
{
    for node in nodes {
        if !free_throughout(inst, leaf, *node) {
            return Some(*node);
        }
    }
    None
}
