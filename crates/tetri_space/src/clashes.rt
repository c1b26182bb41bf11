// Grants that hold the same node in the same slot.
ghost use Rattle.std.specs.Prelude.{◌≡◌, ◌<◌, ◌≤◌, ◌↔◌, ℕ, None, Some, IsTrue, All, Contains, IsSomeAnd, MatchOption, slice_get};
ghost use Rattle.std.specs.List.Sorted.{IsStrictlyIncreasing};
ghost use Rattle.tetri_strl.specs.WellMade.{IsGoodLeaf};
ghost use Rattle.tetri_space.specs.Broken.{ClashesAt, HasCommonSlot, IsFirstClash, IsLeast, NamesSameLeaf};
ghost use Rattle.tetri_space.specs.Sound.{IsSound};
ghost use Rattle.tetri_space.specs.Space.{space};

use crate::Instance;
use crate::leaves::leaf_of;
use tetri_strl::{Grant, Leaf};

// The place of the first of these grants that names the same leaf.
pub fn first_double(earlier: &[Grant], grant: &Grant) -> Option<u64>
    ensures { MatchOption result
        (All (λ h. NamesSameLeaf grant.now h → ⊥) earlier.now)
        (IsLeast (λ p. IsSomeAnd (slice_get earlier.now p) (NamesSameLeaf grant.now))) }
{
    for (place, other) in earlier.iter().enumerate() {
        if other.job == grant.job && other.leaf == grant.leaf {
            return Some(place as u64);
        }
    }
    None
}

// The least node in both lists, found by merging them.
fn first_common(nodes: &[u32], others: &[u32]) -> Option<u32>
    requires ascending { IsStrictlyIncreasing nodes.now }
    requires others_ascending { IsStrictlyIncreasing others.now }
    ensures { MatchOption result
        ((m : ℕ) → Contains nodes.now m → Contains others.now m → ⊥)
        (IsLeast (λ m. Contains nodes.now m × Contains others.now m)) }
{
    let mut place = 0;
    let mut other = 0;
    while place < nodes.len() && other < others.len() {
        if nodes[place] < others[other] {
            place += 1;
        } else if nodes[place] > others[other] {
            other += 1;
        } else {
            return Some(nodes[place]);
        }
    }
    None
}

// Whether a slot is in both leaves.
fn overlap(leaf: &Leaf, other: &Leaf) -> bool
    requires good { IsGoodLeaf leaf.now }
    requires other_good { IsGoodLeaf other.now }
    ensures { IsTrue result ↔ HasCommonSlot leaf.now other.now }
{
    leaf.start < other.start + other.dur && other.start < leaf.start + leaf.dur
}

// The least of these nodes that the grant holds in a slot of the leaf. The grant's leaf is looked
// up only where they have a node in common.
fn clash_with(inst: &Instance, leaf: &Leaf, nodes: &[u32], grant: &Grant) -> Option<u32>
    requires sound { IsSound (space inst.now) }
    requires good { IsGoodLeaf leaf.now }
    requires ascending { IsStrictlyIncreasing nodes.now }
    requires grant_ascending { IsStrictlyIncreasing grant.now.nodes }
    ensures { MatchOption result
        ((m : ℕ) → ClashesAt (space inst.entry.now) leaf.now nodes.now grant.now m → ⊥)
        (IsLeast (ClashesAt (space inst.entry.now) leaf.now nodes.now grant.now)) }
{
    let Some(node) = first_common(nodes, grant.nodes.as_slice()) else {
        return None;
    };
    let Some(other) = leaf_of(inst, grant.job, grant.leaf) else {
        return None;
    };
    if overlap(leaf, &other) {
        Some(node)
    } else {
        None
    }
}

// Of a clash that was found before and one at a later place, the one at the lesser node, and else
// the earlier one.
fn lesser(found: Option<(u64, u32)>, place: u64, node: u32) -> Option<(u64, u32)>
    ensures first { found ≡ None → result ≡ Some (place, node) }
    ensures less { (f : ℕ × ℕ) → found ≡ Some f → node < f.1 → result ≡ Some (place, node) }
    ensures kept { (f : ℕ × ℕ) → found ≡ Some f → f.1 ≤ node → result ≡ Some f }
{
    match found {
        Some((first, least)) => if node < least {
            Some((place, node))
        } else {
            Some((first, least))
        },
        None => Some((place, node)),
    }
}

// The least of these nodes at which a grant clashes with the leaf, and the place of the first such
// grant.
pub fn first_clash(
    inst: &Instance,
    leaf: &Leaf,
    nodes: &[u32],
    earlier: &[Grant],
) -> Option<(u64, u32)>
    requires sound { IsSound (space inst.now) }
    requires good { IsGoodLeaf leaf.now }
    requires ascending { IsStrictlyIncreasing nodes.now }
    requires earlier_ascending { All (λ g. IsStrictlyIncreasing g.nodes) earlier.now }
    ensures { MatchOption result
        (All (λ g. (m : ℕ) → ClashesAt (space inst.entry.now) leaf.now nodes.now g m
        → ⊥) earlier.now)
        (λ f. IsFirstClash (space inst.entry.now) leaf.now nodes.now earlier.now f.0 f.1) }
{
    let mut found = None;
    for (place, grant) in earlier.iter().enumerate() {
        if let Some(node) = clash_with(inst, leaf, nodes, grant) {
            found = lesser(found, place as u64, node);
        }
    }
    found
}
