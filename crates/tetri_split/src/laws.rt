// Laws of the parts of an instance.
ghost use Rattle.std.specs.Prelude.{◌≡◌, ◌≤◌, ℕ, List, sum};
ghost use Rattle.std.specs.List.{AllZip};
ghost use Rattle.tetri_strl.specs.declared.grants.Grant.{Grant};
ghost use Rattle.tetri_space.specs.Lawful.{IsLawful};
ghost use Rattle.tetri_space.specs.Sound.{IsSound};
ghost use Rattle.tetri_space.specs.Space.{space};
ghost use Rattle.tetri_space.specs.Total.{total_in};
ghost use Rattle.tetri_split.specs.Parts.{ArePartsOf, BoundsPart, by_parts, total_by_parts};

use crate::Parts;
use tetri_space::Instance;

/// What an allotment is worth is what its grants to each part are worth there, together.
pub fn totals_of_parts_add(inst: &Instance, parts: &Parts)
    requires sound { IsSound (space inst.now) }
    requires parts { ArePartsOf (space inst.now) parts.now }
    ensures { (a : List Grant) → total_in (space inst.entry.now) a ≡ total_by_parts (space inst.entry.now) parts.entry.now (by_parts parts.entry.now a) }
{}

/// Bounds of the totals of all lawful allotments, one for each part's instance, are together a bound for the whole
/// instance.
pub fn bounds_of_parts_add(inst: &Instance, parts: &Parts)
    requires sound { IsSound (space inst.now) }
    requires parts { ArePartsOf (space inst.now) parts.now }
    ensures { (bounds : List ℕ) → AllZip (BoundsPart (space inst.entry.now)) parts.entry.now bounds
        → (a : List Grant) → IsLawful (space inst.entry.now) a → total_in (space inst.entry.now) a ≤ sum bounds }
{}
