// Which nodes a plan gives away, and when.
ghost use Rattle.tetri_space.specs.Sound.{IsSound};
ghost use Rattle.tetri_space.specs.Space.{space};

use std::alloc::{AllocError, Global};
use tetri_space::{Instance, free_throughout, slots_of};
use tetri_strl::{Leaf, NodeList};

// At how many nodes the moves of one cycle look at most.
const LOOKS: u32 = 10_000_000;

/// By node, the slots of the window in which a plan gives it away: bit i of its number is slot
/// `now + i`. It also counts how many looks at a node are left.
#[derive(Drop)]
pub(crate) struct Board {
    masks: Vec<u64>,
    looks: u32,
}

/// The slots of the window that the leaf uses: none where it does not start in the window.
pub(crate) fn slots_in(inst: &Instance, leaf: &Leaf) -> u64
    requires { IsSound (space inst.now) }
{
    let is_live = inst.now <= leaf.start && leaf.start < inst.now + inst.window;
    if is_live && leaf.dur <= 10_000 {
        slots_of(inst.now, leaf)
    } else {
        0
    }
}

impl Board {
    /// No node is given away. Its only error is want of memory.
    pub(crate) fn new(alloc: Global, nodes: u32) -> Result<Board, AllocError> {
        let masks = vec![in alloc; 0u64; nodes as usize]?;
        Ok(Board {
            masks,
            looks: LOOKS,
        })
    }

    /// Gives these nodes away in these slots.
    pub(crate) fn give(&mut self, slots: u64, nodes: &[u32]) {
        for node in nodes {
            let place = *node as usize;
            if place < self.masks.len() {
                self.masks[place] |= slots;
            }
        }
    }

    /// Takes these nodes back in these slots.
    pub(crate) fn take_back(&mut self, slots: u64, nodes: &[u32]) {
        for node in nodes {
            let place = *node as usize;
            if place < self.masks.len() {
                self.masks[place] &= !slots;
            }
        }
    }

    // Whether the node is given away in none of these slots.
    fn is_clear(&self, slots: u64, node: u32) -> bool {
        let place = node as usize;
        place < self.masks.len() && self.masks[place] & slots == 0
    }

    /// The lowest nodes of the leaf's set that are free and not given away in all its slots, so many
    /// at most, as far as looks are left. Its only error is want of memory.
    pub(crate) fn lowest(
        &mut self,
        alloc: Global,
        inst: &Instance,
        leaf: &Leaf,
        count: usize,
    ) -> Result<NodeList, AllocError>
        requires { IsSound (space inst.now) }
    {
        let mut nodes = NodeList::new(alloc);
        if leaf.dur == 0 || leaf.set >= inst.sets.len() {
            return Ok(nodes);
        }
        let slots = slots_in(inst, leaf);
        let mut left = count;
        for node in inst.sets.nodes_of(leaf.set).as_slice() {
            if left == 0 || self.looks == 0 {
                return Ok(nodes);
            }
            self.looks -= 1;
            if self.is_clear(slots, *node) && free_throughout(inst, leaf, *node) {
                nodes.push(*node)?;
                left -= 1;
            }
        }
        Ok(nodes)
    }
}
