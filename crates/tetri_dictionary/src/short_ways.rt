//! Sums and products of fractions where no greatest common divisor is needed: with 1, with -1, and
//! of a number with its negative.

ghost use Rattle.std.specs.Prelude.{◌≡◌, IsTrue, None, Some, MatchOption};
ghost use Rattle.tetri_algebra.specs.RationalRing.{one_ℚ, neg_ℚ};
ghost use Rattle.tetri_num.specs.Checked.{checked_product, checked_sum};
ghost use Rattle.tetri_num.specs.Frac.{value};

use crate::fractions::negated;
use tetri_num::Frac;

#[inline(always)]
fn is_one(x: Frac) -> bool
    ensures { IsTrue result → value x ≡ one_ℚ }
{
    x.num == 1 && x.den == 1
}

#[inline(always)]
pub(crate) fn is_minus_one(x: Frac) -> bool
    ensures { IsTrue result → value x ≡ neg_ℚ one_ℚ }
{
    x.num == -1 && x.den == 1
}

// Whether the sum is 0.
#[inline(always)]
fn cancel(x: Frac, y: Frac) -> bool
    ensures { IsTrue result → value y ≡ neg_ℚ (value x) }
{
    y.num == -x.num && y.den == x.den
}

/// The product, if no number that is formed leaves the range.
#[inline(always)]
pub(crate) fn product(x: Frac, y: Frac) -> Option<Frac>
    ensures { let product = checked_product (value x) (value y) in
        MatchOption result (product ≡ None) (λ z. product ≡ Some (value z)) }
{
    if is_one(x) {
        return Some(y);
    }
    if is_minus_one(x) {
        return Some(negated(y));
    }
    if is_one(y) {
        return Some(x);
    }
    if is_minus_one(y) {
        return Some(negated(x));
    }
    match x.mul(y) {
        Ok(z) => Some(z),
        Err(_) => None,
    }
}

/// The sum, if no number that is formed leaves the range.
#[inline(always)]
pub(crate) fn sum(x: Frac, y: Frac) -> Option<Frac>
    ensures { let sum = checked_sum (value x) (value y) in
        MatchOption result (sum ≡ None) (λ z. sum ≡ Some (value z)) }
{
    if cancel(x, y) {
        return Some(Frac::whole(0));
    }
    match x.add(y) {
        Ok(z) => Some(z),
        Err(_) => None,
    }
}
