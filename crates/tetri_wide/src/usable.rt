// How many nodes of a partition a leaf may get.
ghost use Rattle.std.specs.Prelude.{◌≡◌, ◌<◌, ◌≤◌, length};
ghost use Rattle.tetri_space.specs.Partitions.{ArePartitionsOf, parts_of, partitions};
ghost use Rattle.tetri_space.specs.Sound.{IsSound};
ghost use Rattle.tetri_space.specs.Space.{space};
ghost use Rattle.tetri_compile.specs.Usable.{usable_by};

use tetri_space::{Instance, Partitions, available};
use tetri_strl::Leaf;

/// How many nodes of a partition of the instance a leaf may get that does not start before now. Linear
/// in the nodes of the partition.
pub fn usable_by(inst: &Instance, parts: &Partitions, part: u32, leaf: &Leaf) -> u64
    requires sound { IsSound (space inst.now) }
    requires partitions { ArePartitionsOf (space inst.now) (parts_of parts.now) }
    requires there { part < length (partitions (space inst.now)) }
    requires not_past { inst.now.now ≤ leaf.now.start }
    ensures { result ≡ usable_by (space inst.entry.now) (partitions (space inst.entry.now)) part leaf.now }
{
    if parts.closed_within(inst, part, leaf) {
        return 0;
    }
    u64::from(available(inst, parts, part, leaf.start))
}
