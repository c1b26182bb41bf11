// How many nodes of a partition are free in a slot or for a leaf, without a scan of its nodes.
ghost use Rattle.std.specs.Prelude.{◌≡◌, ◌<◌, ◌≤◌, ℕ, false, length, nat_le, IfNone, IfOk, IfSome};
ghost use Rattle.std.specs.List.Sorted.{IsNonDecreasing};
ghost use Rattle.tetri_base.specs.Lists.{count};
ghost use Rattle.tetri_space.specs.Free.{is_idle};
ghost use Rattle.tetri_space.specs.Partitions.{ArePartitionsOf, available, partitions, parts_of};
ghost use Rattle.tetri_space.specs.Sound.{IsSound};
ghost use Rattle.tetri_space.specs.Space.{space};
ghost use Rattle.tetri_compile.specs.steps.Room.{AreRooms, idle_count};
ghost use Rattle.tetri_compile.specs.Usable.{usable_by};

use std::alloc::{AllocError, Global};
use tetri_space::{Instance, Partitions};
use tetri_strl::Leaf;

// By partition, the slots from which its nodes are idle, ascending. A drained node has none.
#[derive(Drop)]
pub struct Rooms {
    pub since: Vec<Vec<u32>>,
}

// The slot from which a node is idle, if it ever is.
fn idle_since(inst: &Instance, node: u32) -> Option<u32>
    requires { IsSound (space inst.now) }
    ensures never { IfNone result ((t : ℕ) → is_idle (space inst.entry.now) node t ≡ false) }
    ensures since { IfSome result (λ b. (t : ℕ) → is_idle (space inst.entry.now) node t ≡ nat_le b t) }
{
    if node >= inst.nodes || inst.drained[node as usize] {
        return None;
    }
    Some(inst.busy_until[node as usize])
}

// The slots from which these nodes are idle, ascending.
fn slots_of(alloc: Global, inst: &Instance, nodes: &[u32]) -> Result<Vec<u32>, AllocError>
    requires { IsSound (space inst.now) }
    ensures ascending { IfOk result (λ v. IsNonDecreasing v.items) }
    ensures idle { IfOk result (λ v. (t : ℕ) → count (λ b. nat_le b t) v.items ≡ count (λ n. is_idle (space inst.entry.now) n t) nodes.now) }
{
    let mut slots = Vec::new(alloc);
    for node in nodes {
        if let Some(slot) = idle_since(inst, *node) {
            slots.push(slot)?;
        }
    }
    slots.sort()?;
    Ok(slots)
}

/// The rooms of an instance: sorts the nodes of each partition once.
pub fn rooms_of(alloc: Global, inst: &Instance, parts: &Partitions) -> Result<Rooms, AllocError>
    requires sound { IsSound (space inst.now) }
    requires partitions { ArePartitionsOf (space inst.now) (parts_of parts.now) }
    ensures { IfOk result (λ r. AreRooms (space inst.entry.now) r) }
{
    let mut since = Vec::with_capacity(alloc, parts.count() as usize)?;
    for part in 0..parts.count() {
        let slots = slots_of(alloc, inst, parts.nodes_of(part).as_slice())?;
        since.push(slots)?;
    }
    Ok(Rooms { since })
}

// How many nodes of a partition of the instance are idle in a slot: a binary search.
fn idle_at(inst: &Instance, rooms: &Rooms, part: u32, slot: u32) -> u64
    requires rooms { AreRooms (space inst.now) rooms.now }
    requires there { part < length (partitions (space inst.now)) }
    ensures { result ≡ idle_count (space inst.entry.now) part slot }
{
    // The clauses alone speak of the instance.
    let since = rooms.since[part as usize].as_slice();
    since.partition_point(|from| *from <= slot) as u64
}

/// How many nodes of a partition of the instance are free in a slot from now on.
pub fn room_at(inst: &Instance, parts: &Partitions, rooms: &Rooms, part: u32, slot: u32) -> u64
    requires sound { IsSound (space inst.now) }
    requires partitions { ArePartitionsOf (space inst.now) (parts_of parts.now) }
    requires rooms { AreRooms (space inst.now) rooms.now }
    requires there { part < length (partitions (space inst.now)) }
    requires not_past { inst.now.now ≤ slot }
    ensures { result ≡ available (space inst.entry.now) (partitions (space inst.entry.now)) part slot }
{
    if parts.closed(inst, part, slot) {
        return 0;
    }
    idle_at(inst, rooms, part, slot)
}

/// How many nodes of a partition of the instance a leaf may get that does not start before now.
pub fn usable_by(inst: &Instance, parts: &Partitions, rooms: &Rooms, part: u32, leaf: &Leaf) -> u64
    requires sound { IsSound (space inst.now) }
    requires partitions { ArePartitionsOf (space inst.now) (parts_of parts.now) }
    requires rooms { AreRooms (space inst.now) rooms.now }
    requires there { part < length (partitions (space inst.now)) }
    requires not_past { inst.now.now ≤ leaf.now.start }
    ensures { result ≡ usable_by (space inst.entry.now) (partitions (space inst.entry.now)) part leaf.now }
{
    if parts.closed_within(inst, part, leaf) {
        return 0;
    }
    room_at(inst, parts, rooms, part, leaf.start)
}
