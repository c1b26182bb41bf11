// Grants by job and leaf.
ghost use Rattle.std.specs.Prelude.{◌≡◌, IfOk};
ghost use Rattle.tetri_base.specs.Order.{in_order};
ghost use Rattle.tetri_space.specs.GrantOrder.{comes_first};

use std::alloc::AllocError;
use tetri_strl::{Allotment, Grant};

/// Whether the first grant's job and leaf come before the second's.
pub fn comes_first(grant: &Grant, other: &Grant) -> bool
    ensures { result ≡ comes_first grant.now other.now }
{
    grant.job < other.job || grant.job == other.job && grant.leaf < other.leaf
}

/// The grants by job and leaf, without copying them; those of one leaf keep their order. Its only
/// error is want of memory, and then the grants are lost.
pub fn order_grants(a: Allotment) -> Result<Allotment, AllocError>
    ensures { IfOk result (λ o. o ≡ in_order comes_first a) }
{
    let mut grants = a.into_items();
    grants.sort_by_key(|grant| (grant.job, grant.leaf))?;
    Ok(Allotment::of(grants))
}
