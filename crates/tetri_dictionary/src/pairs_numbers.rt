//! The numbers of dictionaries that keep one row for the two variables of a column.

ghost use Rattle.std.specs.Prelude.{◌≡◌, ℕ, ◌<◌, ◌≤◌, ◌∷◌, [], All, length, get_or};
ghost use lib.IntN.{ℤ};
ghost use Rattle.tetri_algebra.specs.Rational.{whole_ℚ};
ghost use Rattle.tetri_algebra.specs.RationalRing.{◌+ℚ◌, neg_ℚ, zero_ℚ};
ghost use Rattle.tetri_num.specs.Frac.{value};
ghost use Rattle.tetri_dictionary.specs.Choices.{has_positive};
ghost use Rattle.tetri_dictionary.specs.Mirrors.{mirror, variable_row, IsBounded, IsMirrorWithin, IsWidth};
ghost use Rattle.tetri_dictionary.specs.Mixed.{mixed_row, mixed_rows, IsMixedRow};
ghost use Rattle.tetri_dictionary.specs.Pairs.{table_of, IsPaired};
ghost use Rattle.tetri_dictionary.specs.Tables.{coefficients_of, row_at};

use crate::fractions::negated;
use crate::mixed::{MixedRow, is_negative_at, number_at, rises};
use crate::origins::Origin;
use crate::pairs::Pairs;
use tetri_num::Frac;

// The width less a number.
fn less(width: i64, x: Frac) -> Frac
    requires width { IsWidth width }
    requires bounded { IsBounded (value x) }
    ensures { value result ≡ whole_ℚ width +ℚ neg_ℚ (value x) }
{
    match Frac::whole(width as i128).sub(x) {
        Ok(difference) => difference,
        Err(_) => unreachable!(),
    }
}

// The number at place k of the width less a row.
fn mirror_at(columns: u32, row: &MixedRow, width: i64, k: usize) -> Frac
    requires row { IsMixedRow columns row.now }
    requires bounded { All IsBounded (mixed_row row.now) }
    requires width { IsWidth width }
    requires within { k ≤ columns }
    ensures { value result ≡ get_or (mirror width (mixed_row row.now)) k zero_ℚ }
{
    let number = number_at(columns, row, k);
    if k == 0 {
        less(width, number)
    } else {
        negated(number)
    }
}

// The number at place k of the width less the variable of a nonbasic place.
fn column_at(columns: u32, place: usize, width: i64, k: usize) -> Frac
    requires column { IsMirrorWithin columns place width }
    requires within { k ≤ columns }
    ensures { value result ≡ get_or (mirror width (variable_row columns place)) k zero_ℚ }
{
    if k == 0 {
        return Frac::whole(width as i128);
    }
    if k == place + 1 {
        Frac::whole(-1)
    } else {
        Frac::whole(0)
    }
}

/// The number at place k of the row of a basic place or the objective.
pub(crate) fn number(t: &Pairs, i: u32, k: usize) -> Frac
    requires paired { IsPaired t.now }
    requires bounded { All (All IsBounded) (mixed_rows t.now.rows.items) }
    requires place { i < length t.now.origins.items }
    requires within { k ≤ length t.now.nonbasic.items }
    ensures { value result ≡ get_or (row_at (table_of t.now) i) k zero_ℚ }
{
    let columns = t.nonbasic.len() as u32;
    match t.origins[i as usize] {
        Origin::Kept(row) => number_at(columns, &t.rows[row], k),
        Origin::Mirror { row, width } => mirror_at(columns, &t.rows[row], width, k),
        Origin::Column { place, width } => column_at(columns, place, width, k),
    }
}

// Whether a coefficient of the row is below 0.
fn falls(columns: u32, row: &MixedRow) -> bool
    requires { IsMixedRow columns row.now }
    ensures { (w : ℤ) → result ≡ has_positive (coefficients_of (mirror w (mixed_row row.now))) }
{
    for j in 0..columns as usize {
        if is_negative_at(columns, row, j + 1) {
            return true;
        }
    }
    false
}

/// Whether a coefficient of the row of a basic place is above 0.
pub(crate) fn place_rises(t: &Pairs, i: u32) -> bool
    requires paired { IsPaired t.now }
    requires place { i < length t.now.origins.items }
    ensures { result ≡ has_positive (coefficients_of (row_at (table_of t.now) i)) }
{
    let columns = t.nonbasic.len() as u32;
    match t.origins[i as usize] {
        Origin::Kept(row) => rises(columns, &t.rows[row]),
        Origin::Mirror { row, width: _ } => falls(columns, &t.rows[row]),
        Origin::Column { .. } => false,
    }
}
