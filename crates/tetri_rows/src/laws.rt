//! The law of the bound, as contracts of functions that do nothing.

ghost use Rattle.std.specs.Prelude.{◌≡◌, Some};
ghost use Rattle.tetri_algebra.specs.Rational.{ℚ};
ghost use Rattle.tetri_algebra.specs.RationalRing.{◌+ℚ◌, ◌*ℚ◌};
ghost use Rattle.tetri_algebra.specs.RationalReciprocal.{◌/ℚ◌};
ghost use Rattle.tetri_num.specs.Checked.{checked_sum, checked_product, checked_quotient};
ghost use Rattle.tetri_rows.specs.Small.{IsSmall};

/// A product of two small numbers, and the sum of a third with it, are never past the range.
pub fn small_entries()
    ensures product { (p q : ℚ) → IsSmall p → IsSmall q → checked_product p q ≡ Some (p *ℚ q) }
    ensures sum { (p q r : ℚ) → IsSmall p → IsSmall q → IsSmall r → checked_sum p (q *ℚ r) ≡ Some (p +ℚ q *ℚ r) }
{}

/// A quotient of two small numbers is never past the range.
pub fn small_quotients()
    ensures { (p q : ℚ) → IsSmall p → IsSmall q → checked_quotient p q ≡ Some (p /ℚ q) }
{}
