//! The weights that a row of a table gives the program's rows: the simplex multipliers.

ghost use Rattle.std.specs.Prelude.{◌≡◌, ℕ, ◌+◌, ◌<◌, ◌≤◌, ◌^◌, length, get_or, pos, ◌<ℤ◌, Ok, Err, IfOk, IfSome, MatchResult, All, unsigned_abs, cond, ◌==◌};
ghost use Rattle.tetri_algebra.specs.Rational.{whole_ℚ};
ghost use Rattle.tetri_algebra.specs.RationalRing.{neg_ℚ};
ghost use Rattle.tetri_num.specs.Frac.{value};
ghost use Rattle.tetri_algebra.specs.Range.{IsWithin};
ghost use Rattle.tetri_simplex.specs.FirstPlaces.{IsFirstPlace};
ghost use Rattle.tetri_dictionary.specs.Fractions.{values};
ghost use Rattle.tetri_dictionary.specs.Faults.{IsFault};
ghost use Rattle.tetri_dictionary.specs.Tables.{coefficients_of, row_at};
ghost use Rattle.tetri_simplex.specs.Ends.{coefficient_of, weights_of, common_denominator, whole_weights};

use crate::first_places::first_places;
use std::alloc::{AllocError, Global};
use tetri_dictionary::{Dictionary, PivotFault, negated};
use tetri_ip::{Row, Weight, product};
use tetri_num::{Frac, Kind, Place, lcm};

// The coefficient in a row of the variable whose nonbasic place is that at place i of the list: 0
// where the variable is basic.
fn coefficient_of<D: Dictionary>(d: &D, row: u32, places: &[u32], i: usize) -> Frac
    requires sound { D.is_sound d.now }
    requires row { row ≤ length (D.table d.now).basic }
    requires slack { i < length places.now }
    ensures { (v : ℕ) → IsFirstPlace (D.table d.now).nonbasic v (get_or places.now i 0) →
        value result ≡ coefficient_of (D.table d.now).nonbasic (coefficients_of (row_at (D.table d.now) row)) v }
{
    let place = places[i];
    if (place as usize) < d.nonbasic().len() {
        return d.at(row, place);
    }
    Frac::whole(0)
}

// The weight of the variable whose nonbasic place is that at place i of the list, in a row whose
// own variable has the weight 1.
fn weight_of<D: Dictionary>(
    d: &D,
    row: u32,
    own: usize,
    variable: usize,
    places: &[u32],
    i: usize,
) -> Frac
    requires sound { D.is_sound d.now }
    requires row { row ≤ length (D.table d.now).basic }
    requires slack { i < length places.now }
    requires place { IsFirstPlace (D.table d.now).nonbasic variable (get_or places.now i 0) }
    ensures { let coefficient = coefficient_of (D.table d.now).nonbasic (coefficients_of (row_at (D.table d.now) row)) variable in
        value result ≡ cond (own == variable) (whole_ℚ (pos 1)) (neg_ℚ coefficient) }
{
    if own == variable {
        return Frac::whole(1);
    }
    negated(coefficient_of(d, row, places, i))
}

/// The weights of the slacks of the program's rows, which are counted from `first` on, in a row
/// of a dictionary whose own variable is `own`.
pub(crate) fn row_weights<D: Dictionary>(
    alloc: Global,
    d: &D,
    row: u32,
    own: usize,
    first: usize,
    rows: &[Row],
) -> Result<Vec<Frac>, AllocError>
    requires sound { D.is_sound d.now }
    requires row { row ≤ length (D.table d.now).basic }
    requires few { length (D.table d.now).nonbasic < 2 ^ 31 }
    requires small { first + length rows.now < 2 ^ 63 }
    ensures weights { IfOk result (λ v. values v.items ≡
        weights_of (D.table d.now).nonbasic (coefficients_of (row_at (D.table d.now) row)) own first rows.now) }
    ensures count { IfOk result (λ v. length v.items ≡ length rows.now) }
{
    let places = first_places(alloc, d.nonbasic(), first, rows.len())?;
    let mut weights = Vec::new(alloc);
    for i in 0..rows.len() {
        let weight = weight_of(d, row, own, first + i, &places, i);
        weights.push(weight)?;
    }
    Ok(weights)
}

/// The least common multiple of the denominators.
pub(crate) fn common_denominator(weights: &[Frac]) -> Result<i128, Place>
    requires { length weights.now < 2 ^ 32 }
    ensures formed { let denominator = common_denominator 0 1 (values weights.now) in
        MatchResult result (λ q. denominator ≡ Ok (unsigned_abs q)) (λ e. denominator ≡ Err e) }
    ensures positive { IfOk result (λ q. pos 0 <ℤ q) }
    ensures within { IfOk result (λ q. IsWithin q) }
{
    let mut q = 1;
    for i in 0..weights.len() {
        let weight = weights[i];
        match lcm(q, weight.den) {
            Some(next) => q = next,
            None => {
                return Err(Place {
                    kind: Kind::Lcm,
                    step: 0,
                    row: i as u32,
                    column: 0,
                });
            }
        }
    }
    Ok(q)
}

/// `q` times each weight, without zeros.
pub(crate) fn whole_weights(
    alloc: Global,
    q: i128,
    weights: &[Frac],
) -> Result<Vec<Weight>, PivotFault>
    requires few { length weights.now < 2 ^ 32 }
    requires positive { pos 0 <ℤ q }
    requires within { IsWithin q }
    ensures formed { let whole = whole_weights 0 (unsigned_abs q) (values weights.now) in
        MatchResult result (λ v. whole ≡ Ok v.items) (λ e. IsFault e whole) }
    ensures rows { IfOk result (λ v. All (λ w. w.row < length weights.now) v.items) }
{
    let mut whole = Vec::new(alloc);
    for i in 0..weights.len() {
        let weight = weights[i];
        let Some(by) = product(weight.num, q / weight.den) else {
            return Err(PivotFault::Past(Place {
                kind: Kind::Lcm,
                step: 0,
                row: i as u32,
                column: 0,
            }));
        };
        if by != 0 {
            whole.push(Weight { row: i as u32, by })?;
        }
    }
    Ok(whole)
}
