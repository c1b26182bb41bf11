// Whether suggestions are lawful.
ghost use Rattle.std.specs.Prelude.{◌≡◌, ◌↔◌, IfOk, IsTrue};
ghost use Rattle.tetri_base.specs.Order.{in_order};
ghost use Rattle.tetri_space.specs.GrantOrder.{comes_first};
ghost use Rattle.tetri_space.specs.Lawful.{IsLawful};
ghost use Rattle.tetri_space.specs.Sound.{IsSound};
ghost use Rattle.tetri_space.specs.Space.{space};

use std::alloc::{AllocError, Global};
use tetri_space::{Instance, comes_first, lawful, order_grants};
use tetri_strl::{Allotment, Grant, copy_grants};

// Whether each grant's job and leaf come before the next one's.
fn ascends(grants: &[Grant]) -> bool {
    for (place, grant) in grants.iter().enumerate() {
        if place > 0 && !comes_first(&grants[place - 1], grant) {
            return false;
        }
    }
    true
}

// A copy by job and leaf.
fn ordered_copy(alloc: Global, a: &Allotment) -> Result<Allotment, AllocError>
    ensures { IfOk result (λ o. o ≡ in_order comes_first a.now) }
{
    let copy = copy_grants(alloc, a)?;
    order_grants(copy)
}

// Whether grants in any order are lawful, by a copy in order, and by themselves where there is no memory for it.
fn is_lawful_in_any_order(alloc: Global, inst: &Instance, a: &Allotment) -> bool
    requires { IsSound (space inst.now) }
    ensures { IsTrue result ↔ IsLawful (space inst.entry.now) a.now }
{
    match ordered_copy(alloc, a) {
        Ok(ordered) => lawful(inst, &ordered).is_ok(),
        Err(_) => lawful(inst, a).is_ok(),
    }
}

/// Whether the allotment is lawful. Grants that ascend by job and leaf are gone through once; of others a copy in that order is.
/// Where memory lacks for the copy, each grant is held against all earlier ones.
pub(crate) fn is_lawful(alloc: Global, inst: &Instance, a: &Allotment) -> bool
    requires { IsSound (space inst.now) }
    ensures { IsTrue result ↔ IsLawful (space inst.entry.now) a.now }
{
    if ascends(a.as_slice()) {
        lawful(inst, a).is_ok()
    } else {
        is_lawful_in_any_order(alloc, inst, a)
    }
}
