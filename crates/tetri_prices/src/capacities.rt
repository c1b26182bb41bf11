// How many nodes there are to take.
ghost use Rattle.std.specs.Prelude.{◌≡◌, ◌+◌, ◌<◌, ◌≤◌, length, IfOk};
ghost use Rattle.tetri_compile.specs.Usable.{usable_by};
ghost use Rattle.tetri_prices.specs.Capacities.{AreCapacitiesOf, AreFree};
ghost use Rattle.tetri_space.specs.Partitions.{ArePartitionsOf, available, partitions, parts_of};
ghost use Rattle.tetri_space.specs.Sound.{IsSound};
ghost use Rattle.tetri_space.specs.Space.{IsLive, space};

use std::alloc::{AllocError, Global};
use tetri_space::{Instance, Partitions, available};
use tetri_strl::Leaf;

/// How many nodes of each partition are free, by partition and slot of the window.
#[derive(Drop)]
pub struct Capacities {
    pub(crate) free: Vec<Vec<u32>>,
}

// How many nodes of a partition are free, by slot of the window.
fn free_of(
    alloc: Global,
    inst: &Instance,
    parts: &Partitions,
    part: u32,
) -> Result<Vec<u32>, AllocError>
    requires sound { IsSound (space inst.now) }
    requires partitions { ArePartitionsOf (space inst.now) (parts_of parts.now) }
    requires there { part < length (partitions (space inst.now)) }
    ensures { IfOk result (λ v. AreFree (space inst.entry.now) part v.items) }
{
    let mut free = Vec::with_capacity(alloc, inst.window as usize)?;
    for place in 0..inst.window {
        free.push(available(inst, parts, part, inst.now + place))?;
    }
    Ok(free)
}

/// The capacities of an instance, for any prices: looks once at each node in each slot of the
/// window. Its only error is want of memory.
pub fn capacities_of(
    alloc: Global,
    inst: &Instance,
    parts: &Partitions,
) -> Result<Capacities, AllocError>
    requires sound { IsSound (space inst.now) }
    requires partitions { ArePartitionsOf (space inst.now) (parts_of parts.now) }
    ensures { IfOk result (λ c. AreCapacitiesOf (space inst.entry.now) c) }
{
    let mut free = Vec::with_capacity(alloc, parts.count() as usize)?;
    for part in 0..parts.count() {
        let slots = free_of(alloc, inst, parts, part)?;
        free.push(slots)?;
    }
    Ok(Capacities { free })
}

// How many nodes of a partition are free at a place in the window.
pub fn free_at(inst: &Instance, capacities: &Capacities, part: u32, place: u32) -> u32
    requires capacities { AreCapacitiesOf (space inst.now) capacities.now }
    requires there { part < length (partitions (space inst.now)) }
    requires within { place < (space inst.now).window }
    ensures { result ≡ available (space inst.entry.now) (partitions (space inst.entry.now)) part
        ((space inst.entry.now).now + place) }
{
    // The clauses alone speak of the instance.
    let free = capacities.free[part as usize].as_slice();
    free[place as usize]
}

// How many nodes of a partition a leaf may get.
pub fn capacity_of(
    inst: &Instance,
    parts: &Partitions,
    capacities: &Capacities,
    part: u32,
    leaf: &Leaf,
) -> u64
    requires sound { IsSound (space inst.now) }
    requires partitions { ArePartitionsOf (space inst.now) (parts_of parts.now) }
    requires capacities { AreCapacitiesOf (space inst.now) capacities.now }
    requires there { part < length (partitions (space inst.now)) }
    requires live { IsLive (space inst.now) leaf.now }
    ensures { result ≡ usable_by (space inst.entry.now) (partitions (space inst.entry.now)) part
        leaf.now }
{
    if parts.closed_within(inst, part, leaf) {
        return 0;
    }
    u64::from(free_at(inst, capacities, part, leaf.start - inst.now))
}
