// Grants that ascend by job and leaf: whether they are lawful together, by a mask of slots for each
// node.
ghost use Rattle.std.specs.Prelude.{◌≡◌, ◌≤◌, IsTrue, length, take};
ghost use Rattle.tetri_space.specs.steps.Front.{IsTaken};
ghost use Rattle.tetri_space.specs.Lawful.{IsLawful};
ghost use Rattle.tetri_space.specs.Sound.{IsSound};
ghost use Rattle.tetri_space.specs.Space.{space};

use crate::Instance;
use crate::leaves::leaf_of;
use crate::masks::{hold, holds_some, slots_of};
use crate::ordering::comes_first;
use crate::rules::check_grant;
use tetri_strl::Grant;

const MOST_NODES: usize = 4096;

// Whether a grant is lawful by itself, and none of its nodes is held in a slot of its leaf. Then
// they are from now on.
fn takes(inst: &Instance, grant: &Grant, masks: &mut [u64]) -> bool
    requires sound { IsSound (space inst.now) }
    requires as_many { length masks.old ≡ 4096 }
    ensures { IsTrue result → IsTaken (space inst.entry.now) masks.old grant.now masks.new }
{
    if check_grant(inst, &[], grant).is_err() {
        return false;
    }
    let Some(leaf) = leaf_of(inst, grant.job, grant.leaf) else {
        return false;
    };
    let slots = slots_of(inst.now, &leaf);
    let nodes = grant.nodes.as_slice();
    if holds_some(masks, slots, nodes) {
        return false;
    }
    hold(masks, slots, nodes);
    true
}

/// How many of the grants, from the first on, ascend by job and leaf and are lawful together, as
/// far as a walk over them tells.
pub fn lawful_front(inst: &Instance, grants: &[Grant]) -> usize
    requires { IsSound (space inst.now) }
    ensures bound { result ≤ length grants.now }
    ensures lawful { IsLawful (space inst.entry.now) (take result grants.now) }
{
    let mut masks = [0u64; MOST_NODES];
    for (place, grant) in grants.iter().enumerate() {
        if place > 0 && !comes_first(&grants[place - 1], grant) {
            return place;
        }
        if !takes(inst, grant, &mut masks) {
            return place;
        }
    }
    grants.len()
}
