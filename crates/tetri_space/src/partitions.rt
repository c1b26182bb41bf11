// The partitions of an instance's nodes.
ghost use Rattle.std.specs.Prelude.{◌≡◌, ◌<◌, ◌≤◌, ◌↔◌, length, map, Contains, IfOk, IsTrue};
ghost use Rattle.std.specs.List.{list_any};
ghost use Rattle.tetri_space.specs.Free.{slots};
ghost use Rattle.tetri_space.specs.Partitions.{ArePartitionsOf, available, is_closed_part, part_at, partitions, parts_found, parts_of};
ghost use Rattle.tetri_space.specs.Sound.{IsSound};
ghost use Rattle.tetri_space.specs.Space.{bid, space};

use crate::finding::{group_alike, live_offers, parts_by_set};
use crate::free_nodes::free;
use crate::{Instance, Offer, Partitions};
use std::alloc::{AllocError, Global};
use tetri_strl::{Leaf, NodeList};

/// The partitions of the nodes of an instance. Linear in its expressions, in the sizes of the sets
/// that live leaves name, each taken once, and in the closures of their nodes. Its only error is
/// want of memory.
pub fn find_partitions(alloc: Global, inst: &Instance) -> Result<Partitions, AllocError>
    requires { IsSound (space inst.now) }
    ensures { IfOk result (λ p. ArePartitionsOf (space inst.entry.now) (parts_of p)) }
{
    let offers = live_offers(alloc, inst)?;
    let grouped = group_alike(alloc, inst, &offers)?;
    let inside = parts_by_set(alloc, grouped.signatures.as_slice(), inst.sets.len())?;
    Ok(Partitions {
        offers,
        groups: grouped.groups,
        inside,
    })
}

impl Partitions {
    /// How many partitions there are.
    pub fn count(&self) -> u32
        ensures { result ≡ length (parts_of self.now).groups }
    {
        self.groups.len() as u32
    }

    /// The nodes of a partition, ascending.
    pub fn nodes_of(&self, part: u32) -> &NodeList
        requires { part < length (parts_of self.now).groups }
        ensures { result.now ≡ part_at (parts_of self.now).groups part }
    {
        &self.groups[part as usize]
    }

    /// The partitions in a set that a live leaf names, ascending.
    pub fn parts_in(&self, set: u32) -> &[u32]
        requires { set < length (parts_of self.now).inside }
        ensures { result.now ≡ parts_found (parts_of self.now) set }
    {
        self.inside[set as usize].as_slice()
    }

    /// What is left of the jobs' expressions in the window, ascending by job.
    pub fn offers(&self) -> &[Offer]
        ensures { map bid result.now ≡ (parts_of self.now).bids }
    {
        self.offers.as_slice()
    }

    /// Whether a partition lies in a set that a live leaf names: a binary search.
    pub fn in_set(&self, part: u32, set: u32) -> bool
        requires { set < length (parts_of self.now).inside }
        ensures { IsTrue result ↔ Contains (parts_found (parts_of self.now) set) part }
    {
        self.parts_in(set).binary_search(&part).is_ok()
    }

    /// Whether the nodes of a partition are closed in a slot, which is not before now: all of them
    /// are, or none. A binary search, which takes no memory.
    pub fn closed(&self, inst: &Instance, part: u32, slot: u32) -> bool
        requires sound { IsSound (space inst.now) }
        requires partitions { ArePartitionsOf (space inst.now) (parts_of self.now) }
        requires there { part < length (parts_of self.now).groups }
        requires not_past { (space inst.now).now ≤ slot }
        ensures { result
            ≡ is_closed_part (space inst.entry.now) (partitions (space inst.entry.now)) part slot }
    {
        let node = self.nodes_of(part).as_slice()[0];
        inst.closures.is_closed(node, slot)
    }

    /// Whether the nodes of a partition are closed in some slot of a leaf, which does not start
    /// before now. A binary search, which takes no memory.
    pub fn closed_within(&self, inst: &Instance, part: u32, leaf: &Leaf) -> bool
        requires sound { IsSound (space inst.now) }
        requires partitions { ArePartitionsOf (space inst.now) (parts_of self.now) }
        requires there { part < length (parts_of self.now).groups }
        requires not_past { (space inst.now).now ≤ leaf.now.start }
        ensures { result
            ≡ list_any
            (is_closed_part (space inst.entry.now) (partitions (space inst.entry.now)) part)
            (slots leaf.now) }
    {
        let node = self.nodes_of(part).as_slice()[0];
        inst.closures.is_closed_within(node, leaf.start, leaf.dur)
    }
}

/// How many nodes of a partition are free in a slot.
pub fn available(inst: &Instance, parts: &Partitions, part: u32, slot: u32) -> u32
    requires sound { IsSound (space inst.now) }
    requires partitions { ArePartitionsOf (space inst.now) (parts_of parts.now) }
    requires there { part < length (parts_of parts.now).groups }
    ensures { result
        ≡ available (space inst.entry.now) (partitions (space inst.entry.now)) part slot }
{
    let mut count = 0;
    for node in parts.nodes_of(part).as_slice() {
        if free(inst, *node, slot) {
            count += 1;
        }
    }
    count
}
