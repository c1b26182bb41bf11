// What the jobs so far hold.
ghost use Rattle.std.specs.Prelude.{◌≡◌, ◌+◌, ◌-◌, ◌^◌, ◌<◌, ◌≤◌, ℕ, All, List, bit_or, false, get_or, length, min, not, replicate, set, ◌&&◌, IfOk};
ghost use Rattle.tetri_base.specs.Lists.{Ascends, bit};
ghost use Rattle.tetri_greedy.specs.Held.{AreBusy, busy_slots, is_clear};
ghost use Rattle.tetri_space.specs.Slots.{is_marked, marked, slots_of};
ghost use Rattle.tetri_space.specs.Sound.{IsSound};
ghost use Rattle.tetri_space.specs.Space.{space};

use std::alloc::{AllocError, Global};
use std::marker::Model;
use tetri_space::{Instance, slots_of};
use tetri_strl::Leaf;

const SLOTS: usize = 64;

/// By node, the slots of a window of at most 64 slots in which it is held: bit i of its number is
/// slot `now + i`. For each slot it counts the nodes that are not held in it.
#[derive(Drop)]
pub struct HeldSlots {
    masks: Vec<u64>,
    room: [u32; 64],
}

impl Model for HeldSlots {
    ghost use Rattle.std.specs.Prelude.{List, ℕ};
    ghost use Rattle.tetri_greedy.specs.Held.{AreMost};

    ghost Value = { List ℕ };

    ghost view = { λ s. s.masks.items };

    ghost invariant = { λ s. AreMost s.masks.items s.room };
}

// This number for each slot.
fn each_slot(count: u32) -> [u32; 64]
    ensures { result ≡ replicate 64 count }
{
    [count; 64]
}

// Whether the mask does not hold the slot.
fn is_clear(mask: u64, slot: usize) -> bool
    requires { slot < 64 }
    ensures { result ≡ is_clear slot mask }
{
    mask >> slot & 1 == 0
}

// One open node less in each slot that is clear before and not after.
fn close(room: &mut [u32; 64], before: u64, after: u64)
    ensures { (slot : ℕ) → slot < 64 → get_or room.new slot 0 ≡ get_or room.old slot 0 - bit (is_clear slot before && not (is_clear slot after)) }
{
    for slot in 0..SLOTS {
        if is_clear(before, slot) && !is_clear(after, slot) {
            room[slot] = room[slot].saturating_sub(1);
        }
    }
}

// The slots of the window in which the node is not idle.
fn busy_slots(inst: &Instance, node: u32) -> u64
    requires sound { IsSound (space inst.now) }
    requires known { node < (space inst.now).nodes }
    ensures { result ≡ busy_slots (space inst.entry.now) node }
{
    let place = node as usize;
    if inst.drained[place] {
        return u64::MAX;
    }
    let busy = inst.busy_until[place].saturating_sub(inst.now).min(64);
    ((1u128 << busy) - 1) as u64
}

impl HeldSlots {
    /// Each node is held in the slots in which it is not idle. Its only error is want of memory.
    pub fn of(alloc: Global, inst: &Instance) -> Result<HeldSlots, AllocError>
        requires { IsSound (space inst.now) }
        ensures { IfOk result (AreBusy (space inst.entry.now)) }
    {
        let mut held = HeldSlots::new(alloc, inst.nodes)?;
        for node in 0..inst.nodes {
            held.hold_at(node, busy_slots(inst, node));
        }
        Ok(held)
    }

    // No node is held.
    fn new(alloc: Global, nodes: u32) -> Result<HeldSlots, AllocError>
        ensures { IfOk result (λ held. held ≡ replicate nodes 0) }
    {
        let masks = no_marks(alloc, nodes as usize)?;
        Ok(HeldSlots {
            masks,
            room: each_slot(nodes),
        })
    }

    // Holds one node in these slots.
    fn hold_at(&mut self, node: u32, slots: u64)
        requires { node < length self.old }
        ensures { self.new ≡ set self.old node (bit_or (get_or self.old node 0) slots) }
    {
        let place = node as usize;
        let before = self.masks[place];
        let after = before | slots;
        self.masks[place] = after;
        close(&mut self.room, before, after);
    }

    /// Whether the node is held in some slot of the window that the live leaf uses.
    pub fn holds(&self, now: u32, leaf: &Leaf, node: u32) -> bool
        requires live { now ≤ leaf.now.start }
        requires window { leaf.now.start < now + 64 }
        requires few_slots { leaf.now.dur ≤ 10000 }
        requires known { node < length self.now }
        ensures { result ≡ is_marked self.now now leaf.now node }
    {
        self.masks[node as usize] & slots_of(now, leaf) != 0
    }

    /// Whether there may be so many nodes that are not held in any slot of the window that the live
    /// leaf uses: whether each of these slots has so many. It looks at no node.
    pub fn may_have(&self, now: u32, leaf: &Leaf, count: u32) -> bool
        requires live { now ≤ leaf.now.start }
        requires window { leaf.now.start < now + 64 }
        requires few_slots { leaf.now.dur ≤ 10000 }
        ensures { result ≡ false → (nodes : List ℕ) → Ascends nodes → All (λ n. n < length self.now) nodes
            → All (λ n. is_marked self.now now leaf.now n ≡ false) nodes → length nodes < count }
    {
        let first = (leaf.start - now) as usize;
        let end = (first + leaf.dur as usize).min(SLOTS);
        for slot in first..end {
            if self.room[slot] < count {
                return false;
            }
        }
        true
    }

    /// Holds the nodes in the slots of the live leaf from now on.
    pub fn hold(&mut self, now: u32, leaf: &Leaf, nodes: &[u32])
        requires live { now ≤ leaf.now.start }
        requires window { leaf.now.start < now + 64 }
        requires few_slots { leaf.now.dur ≤ 10000 }
        requires known { All (λ n. n < length self.old) nodes.now }
        ensures marks { self.new ≡ marked self.old (slots_of now leaf.now) nodes.now }
        ensures as_many { length self.new ≡ length self.old }
    {
        let slots = slots_of(now, leaf);
        for node in nodes {
            self.hold_at(*node, slots);
        }
    }
}

fn no_marks(alloc: Global, count: usize) -> Result<Vec<u64>, AllocError>
    ensures { IfOk result (λ v. v.items ≡ replicate count 0) }
{
    vec![in alloc; 0u64; count]
}
