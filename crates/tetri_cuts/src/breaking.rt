//! Whether a point of fractions breaks a row.

ghost use Rattle.std.specs.Prelude.{◌≡◌, ◌↔◌, ◌<◌, ℕ, Ok, Err, length, IfOk, IsTrue, MatchResult};
ghost use Rattle.tetri_algebra.specs.Rational.{whole_ℚ};
ghost use Rattle.tetri_algebra.specs.RationalRing.{zero_ℚ};
ghost use Rattle.tetri_algebra.specs.RationalOrder.{◌<ℚ◌};
ghost use Rattle.tetri_num.specs.Frac.{value};
ghost use Rattle.tetri_ip.specs.Points.{column_at, term_at};
ghost use Rattle.tetri_algebra.specs.Range.{IsWithin};
ghost use Rattle.tetri_dictionary.specs.Fractions.{values};
ghost use Rattle.tetri_simplex.specs.Relaxation.{left_value};
ghost use Rattle.tetri_cuts.specs.Breaking.{IsBroken, add_term, form_left, refusal_of};

use std::cmp::Ordering;
use tetri_ip::Row;
use tetri_num::{Frac, Past};

// The sum with the product of a coefficient and a number.
fn add_term(sum: Frac, by: i128, x: Frac) -> Result<Frac, Past>
    requires { IsWithin by }
    ensures { let formed = add_term (value sum) (whole_ℚ by) (value x) in
        MatchResult result (λ r. formed ≡ Ok (value r)) (λ e. formed ≡ Err (refusal_of e)) }
{
    match Frac::whole(by).mul(x) {
        Ok(part) => sum.add(part),
        Err(past) => Err(past),
    }
}

// The left side of a row at a point.
fn left_side(row: &Row, point: &[Frac]) -> Result<Frac, Past>
    requires columns { (k : ℕ) → k < length row.now.terms.items → column_at row.now.terms.items k < length point.now }
    requires numbers { (k : ℕ) → k < length row.now.terms.items → IsWithin (term_at row.now.terms.items k).by }
    ensures { let left = form_left row.now.terms.items (values point.now) zero_ℚ in
        MatchResult result (λ r. left ≡ Ok (value r)) (λ e. left ≡ Err (refusal_of e)) }
{
    let mut sum = Frac::whole(0);
    for term in &row.terms {
        match add_term(sum, term.by, point[term.column as usize]) {
            Ok(next) => sum = next,
            Err(past) => return Err(past),
        }
    }
    Ok(sum)
}

/// Whether the row's left side at the point is above its right side. The left side is formed in the
/// order of the terms: each coefficient times its column's number is added to the sum. [`Past`] is the
/// first operation that leaves the range. Takes no memory.
pub fn breaks(row: &Row, point: &[Frac]) -> Result<bool, Past>
    requires columns { (k : ℕ) → k < length row.now.terms.items → column_at row.now.terms.items k < length point.now }
    requires numbers { (k : ℕ) → k < length row.now.terms.items → IsWithin (term_at row.now.terms.items k).by }
    requires right { IsWithin row.now.right }
    ensures value { IfOk result (λ b. IsTrue b ↔ (whole_ℚ row.now.right <ℚ left_value row.now.terms.items (values point.now))) }
    ensures past { let left = form_left row.now.terms.items (values point.now) zero_ℚ in
        MatchResult result (λ _. left ≡ Ok (left_value row.now.terms.items (values point.now))) (λ e. left ≡ Err (refusal_of e)) }
{
    match left_side(row, point) {
        Ok(left) => Ok(is_above(left, row.right)),
        Err(past) => Err(past),
    }
}

// Whether a left side is above a right side.
fn is_above(left: Frac, right: i128) -> bool
    requires { IsWithin right }
    ensures { IsTrue result ↔ (whole_ℚ right <ℚ value left) }
{
    match Frac::whole(right).compare(left) {
        Ordering::Less => true,
        Ordering::Equal => false,
        Ordering::Greater => false,
    }
}

/// Whether the row's left side at the point is formed, and is above its right side.
pub(crate) fn is_broken(row: &Row, point: &[Frac]) -> bool
    requires columns { (k : ℕ) → k < length row.now.terms.items → column_at row.now.terms.items k < length point.now }
    requires numbers { (k : ℕ) → k < length row.now.terms.items → IsWithin (term_at row.now.terms.items k).by }
    requires right { IsWithin row.now.right }
    ensures { IsTrue result ↔ IsBroken row.now.terms.items row.now.right (values point.now) }
{
    match breaks(row, point) {
        Ok(above) => above,
        Err(_) => false,
    }
}
