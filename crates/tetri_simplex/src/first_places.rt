//! Where variables stand among the places of a dictionary.

ghost use Rattle.std.specs.Prelude.{◌≡◌, ℕ, ◌+◌, ◌<◌, ◌^◌, length, get_or, IfOk};
ghost use Rattle.tetri_simplex.specs.FirstPlaces.{IsFirstPlace};

use std::alloc::{AllocError, Global};

/// For each of so many variables, counted from `first` on, the first place at which it stands, or
/// the number of places where it stands at none.
pub(crate) fn first_places(
    alloc: Global,
    variables: &[usize],
    first: usize,
    count: usize,
) -> Result<Vec<u32>, AllocError>
    requires few { length variables.now < 2 ^ 32 }
    ensures count { IfOk result (λ v. length v.items ≡ count) }
    ensures places { IfOk result (λ v. (i : ℕ) → i < count → IsFirstPlace variables.now (first + i) (get_or v.items i 0)) }
{
    let none = variables.len() as u32;
    let mut places = Vec::new(alloc);
    places.resize(count, none)?;
    let mut k = variables.len();
    while k > 0 {
        k -= 1;
        let variable = variables[k];
        if first <= variable && variable - first < count {
            places[variable - first] = k as u32;
        }
    }
    Ok(places)
}
