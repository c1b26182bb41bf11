// Laws of instances.
ghost use Rattle.std.specs.Prelude.{List, ◌≡◌, ◌≤◌};
ghost use Rattle.tetri_base.specs.Order.{in_order};
ghost use Rattle.tetri_strl.specs.declared.grants.Grant.{Grant};
ghost use Rattle.tetri_space.specs.GrantOrder.{comes_first};
ghost use Rattle.tetri_space.specs.Lawful.{IsLawful};
ghost use Rattle.tetri_space.specs.Sound.{IsSound};
ghost use Rattle.tetri_space.specs.Space.{space};
ghost use Rattle.tetri_space.specs.Total.{total_in, tops_in};
ghost use Rattle.tetri_space.specs.Trimmed.{IsThriftyForAll, all_trimmed};

use crate::Instance;

/// No lawful allotment is worth more than the tops.
pub fn tops_bound_every_lawful_total(inst: &Instance)
    requires { IsSound (space inst.now) }
    ensures { (a : List Grant) → IsLawful (space inst.entry.now) a
        → total_in (space inst.entry.now) a ≤ tops_in (space inst.entry.now) }
{}

/// Grants that are put in order, as `order_grants` does, stay lawful and thrifty where they were,
/// and are worth as much.
pub fn ordered_grants_are_worth_as_much(inst: &Instance)
    ensures lawful { (a : List Grant) → IsLawful (space inst.entry.now) a
        → IsLawful (space inst.entry.now) (in_order comes_first a) }
    ensures thrifty { (a : List Grant) → IsThriftyForAll (space inst.entry.now) a
        → IsThriftyForAll (space inst.entry.now) (in_order comes_first a) }
    ensures worth { (a : List Grant) → total_in (space inst.entry.now) (in_order comes_first a)
        ≡ total_in (space inst.entry.now) a }
{}

/// What of grants earns something, which `trim_all` keeps, is lawful where they were, wastes
/// nothing, and is worth as much.
pub fn trimmed_grants_are_worth_as_much(inst: &Instance)
    requires { IsSound (space inst.now) }
    ensures lawful { (a : List Grant) → IsLawful (space inst.entry.now) a
        → IsLawful (space inst.entry.now) (all_trimmed (space inst.entry.now) a) }
    ensures thrifty { (a : List Grant)
        → IsThriftyForAll (space inst.entry.now) (all_trimmed (space inst.entry.now) a) }
    ensures worth { (a : List Grant)
        → total_in (space inst.entry.now) (all_trimmed (space inst.entry.now) a)
        ≡ total_in (space inst.entry.now) a }
{}
