// The slots of a window of at most 64 slots, as the bits of a number: bit i is slot `now + i`.
ghost use Rattle.std.specs.Prelude.{◌≡◌, ◌+◌, ◌<◌, ◌≤◌, All, get_or, length};
ghost use Rattle.std.specs.List.{list_any};
ghost use Rattle.tetri_space.specs.Slots.{marked, meets, slots_of};

use tetri_strl::Leaf;

/// The slots of the window that a live leaf uses.
pub fn slots_of(now: u32, leaf: &Leaf) -> u64
    requires live { now ≤ leaf.now.start }
    requires window { leaf.now.start < now + 64 }
    requires few_slots { leaf.now.dur ≤ 10000 }
    ensures { result ≡ slots_of now leaf.now }
{
    let first = leaf.start - now;
    let end = (first + leaf.dur).min(64);
    ((1u128 << end) - (1u128 << first)) as u64
}

/// Whether one of the nodes is held in one of these slots, where each node has a mask of the slots
/// in which it is held.
pub fn holds_some(masks: &[u64], slots: u64, nodes: &[u32]) -> bool
    requires { All (λ n. n < length masks.now) nodes.now }
    ensures { result ≡ list_any (λ n. meets (get_or masks.now n 0) slots) nodes.now }
{
    for node in nodes {
        if masks[*node as usize] & slots != 0 {
            return true;
        }
    }
    false
}

/// Holds the nodes in these slots.
pub fn hold(masks: &mut [u64], slots: u64, nodes: &[u32])
    requires { All (λ n. n < length masks.old) nodes.now }
    ensures { masks.new ≡ marked masks.old slots nodes.now }
{
    for node in nodes {
        masks[*node as usize] |= slots;
    }
}
