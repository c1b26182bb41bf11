//! The point of a dictionary: each column's value where the nonbasic variables are 0.

ghost use Rattle.std.specs.Prelude.{◌≡◌, ◌<◌, length, get_or, cond, pos, Ok, None, Some, MatchOption, MatchResult};
ghost use lib.Signed.{lt_z};
ghost use Rattle.tetri_algebra.specs.Rational.{whole_ℚ};
ghost use Rattle.tetri_num.specs.Checked.{checked_sum, checked_difference};
ghost use Rattle.tetri_num.specs.Frac.{value};
ghost use Rattle.tetri_algebra.specs.Range.{IsWithin};
ghost use Rattle.tetri_ip.specs.Points.{IsFit, IsInBox, bounds_of};
ghost use Rattle.tetri_simplex.specs.Ends.{value_at, point_from};
ghost use Rattle.tetri_dictionary.specs.Faults.{IsFault};
ghost use Rattle.tetri_simplex.specs.FirstPlaces.{IsFirstPlace};
ghost use Rattle.tetri_dictionary.specs.Fractions.{values};
ghost use Rattle.tetri_simplex.specs.Turns.{HasPlaces};

use crate::first_places::first_places;
use std::alloc::Global;
use tetri_dictionary::{Dictionary, PivotFault};
use tetri_ip::{Program, Region};
use tetri_num::{Frac, Kind, Place};

// The value of the variable of column j: the constant of its row, and 0 where it is nonbasic. Its
// basic place is that at place j of the list.
fn value_at<D: Dictionary>(d: &D, columns: u32, places: &[u32], j: usize) -> Frac
    requires sound { D.is_sound d.now }
    requires columns { columns ≡ length (D.table d.now).nonbasic }
    requires column { j < length places.now }
    requires place { IsFirstPlace (D.table d.now).basic j (get_or places.now j 0) }
    ensures { value result ≡ value_at (D.table d.now).basic (D.table d.now).rows j }
{
    let place = places[j];
    if (place as usize) < d.basic().len() {
        return d.at(place, columns);
    }
    Frac::whole(0)
}

// A column's value: that of its variable, from the bound at which the column started.
fn coordinate(cost: i128, lower: i128, upper: i128, moved: Frac) -> Option<Frac>
    requires lower { IsWithin lower }
    requires upper { IsWithin upper }
    ensures { let x = cond (lt_z (pos 0) cost) (checked_difference (whole_ℚ upper) (value moved)) (checked_sum (whole_ℚ lower) (value moved)) in
        MatchOption result (x ≡ None) (λ y. x ≡ Some (value y)) }
{
    if cost > 0 {
        match Frac::whole(upper).sub(moved) {
            Ok(x) => Some(x),
            Err(_) => None,
        }
    } else {
        match Frac::whole(lower).add(moved) {
            Ok(x) => Some(x),
            Err(_) => None,
        }
    }
}

/// The point of a dictionary.
pub(crate) fn point_of<D: Dictionary>(
    alloc: Global,
    p: &Program,
    r: &Region,
    d: &D,
) -> Result<Vec<Frac>, PivotFault>
    requires fit { IsFit p.now }
    requires in_box { IsInBox p.now (bounds_of r.now) }
    requires sound { D.is_sound d.now }
    requires places { HasPlaces p.now (D.table d.now) }
    ensures { let point = point_from (D.table d.now).basic (D.table d.now).rows 0 p.now.costs.items r.now.lower.items r.now.upper.items in
        MatchResult result (λ v. point ≡ Ok (values v.items)) (λ e. IsFault e point) }
{
    let columns = p.costs.len() as u32;
    let places = first_places(alloc, d.basic(), 0, p.costs.len())?;
    let mut point = Vec::new(alloc);
    for j in 0..p.costs.len() {
        let moved = value_at(d, columns, &places, j);
        let Some(x) = coordinate(p.costs[j], r.lower[j], r.upper[j], moved) else {
            return Err(PivotFault::Past(Place {
                kind: Kind::Point,
                step: 0,
                row: 0,
                column: j as u32,
            }));
        };
        point.push(x)?;
    }
    Ok(point)
}
