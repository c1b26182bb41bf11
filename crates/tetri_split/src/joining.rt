// The grants of all parts together.
ghost use Rattle.std.specs.Prelude.{◌≡◌, ℕ, List, AllPairs, IfOk};
ghost use Rattle.std.specs.List.{AllZip};
ghost use Rattle.tetri_base.specs.Order.{in_order};
ghost use Rattle.tetri_space.specs.GrantOrder.{ComesBefore, comes_first};
ghost use Rattle.tetri_space.specs.Lawful.{IsLawful};
ghost use Rattle.tetri_space.specs.Sound.{IsSound};
ghost use Rattle.tetri_space.specs.Space.{Space};
ghost use Rattle.tetri_space.specs.Total.{total_in};
ghost use Rattle.tetri_space.specs.Trimmed.{IsThriftyForAll};
ghost use Rattle.tetri_split.specs.Parts.{ArePartsOf, IsLawfulForPart, IsThriftyForPart, in_a_row, total_by_parts};

use std::alloc::{AllocError, Global};
use tetri_space::order_grants;
use tetri_strl::{Allotment, copy_grant};

/// All grants of these lists, by job and leaf. Lists that are lawful each for the instance of its own part of an
/// instance are together lawful for the instance, and worth as much as their parts' totals together. Its only
/// error is want of memory.
pub fn join(alloc: Global, lists: &[Allotment]) -> Result<Allotment, AllocError>
    ensures grants { IfOk result (λ a. a ≡ in_order comes_first (in_a_row lists.entry.now)) }
    ensures lawful { IfOk result (λ a. (s : Space) (parts : List (List ℕ)) → IsSound s → ArePartsOf s parts
        → AllZip (IsLawfulForPart s) parts lists.entry.now
        → IsLawful s a × AllPairs ComesBefore a) }
    ensures total { IfOk result (λ a. (s : Space) (parts : List (List ℕ)) → IsSound s → ArePartsOf s parts
        → AllZip (IsLawfulForPart s) parts lists.entry.now
        → total_in s a ≡ total_by_parts s parts lists.entry.now) }
    ensures thrifty { IfOk result (λ a. (s : Space) (parts : List (List ℕ)) → IsSound s → ArePartsOf s parts
        → AllZip (IsLawfulForPart s) parts lists.entry.now
        → AllZip (IsThriftyForPart s) parts lists.entry.now
        → IsThriftyForAll s a) }
{
    let mut grants = Allotment::new(alloc);
    for list in lists {
        for grant in list.as_slice() {
            grants.push(copy_grant(alloc, grant)?)?;
        }
    }
    let ordered = order_grants(grants)?;
    Ok(ordered)
}
