//! Laws of the operations, as contracts of functions that do nothing.

ghost use Rattle.std.specs.Prelude.{◌≡◌, Some, pos};
ghost use Rattle.tetri_algebra.specs.Rational.{ℚ};
ghost use Rattle.tetri_algebra.specs.RationalRing.{zero_ℚ, one_ℚ, neg_ℚ};
ghost use Rattle.tetri_num.specs.Frac.{value};
ghost use Rattle.tetri_num.specs.Checked.{
  IsRepresentable,
  checked_sum,
  checked_difference,
  checked_product,
  checked_quotient,
};

use crate::fractions::Frac;

/// A value has the numerator and the denominator of its fraction.
pub fn value_has_parts(x: Frac)
    ensures num { (value x).num ≡ x.num }
    ensures den { pos (value x).den ≡ x.den }
{}

/// Two fractions of one value are one fraction.
pub fn same_value(x: Frac, y: Frac)
    ensures { value x ≡ value y → x ≡ y }
{}

/// The values of fractions are representable, and so is each value that an operation answers.
pub fn values_are_representable(x: Frac)
    ensures value { IsRepresentable (value x) }
    ensures sum { (p q r : ℚ) → checked_sum p q ≡ Some r → IsRepresentable r }
    ensures product { (p q r : ℚ) → checked_product p q ≡ Some r → IsRepresentable r }
{}

/// A sum with 0 is the other side, and is never past the range.
pub fn sum_with_zero()
    ensures right { (p : ℚ) → IsRepresentable p → checked_sum p zero_ℚ ≡ Some p }
    ensures left { (p : ℚ) → IsRepresentable p → checked_sum zero_ℚ p ≡ Some p }
{}

/// A difference with 0 is the left side, or the right side negated, and is never past the range.
pub fn difference_with_zero()
    ensures right { (p : ℚ) → IsRepresentable p → checked_difference p zero_ℚ ≡ Some p }
    ensures left { (p : ℚ) → IsRepresentable p → checked_difference zero_ℚ p ≡ Some (neg_ℚ p) }
{}

/// A product with 0 is 0, and is never past the range.
pub fn product_with_zero()
    ensures right { (p : ℚ) → IsRepresentable p → checked_product p zero_ℚ ≡ Some zero_ℚ }
    ensures left { (p : ℚ) → IsRepresentable p → checked_product zero_ℚ p ≡ Some zero_ℚ }
{}

/// A product with 1 is the other side, and is never past the range.
pub fn product_with_one()
    ensures right { (p : ℚ) → IsRepresentable p → checked_product p one_ℚ ≡ Some p }
    ensures left { (p : ℚ) → IsRepresentable p → checked_product one_ℚ p ≡ Some p }
{}

/// A quotient by 1 is the left side, and is never past the range.
pub fn quotient_by_one()
    ensures { (p : ℚ) → IsRepresentable p → checked_quotient p one_ℚ ≡ Some p }
{}

/// A quotient of 0 is 0, and is never past the range.
pub fn quotient_of_zero()
    ensures { (p : ℚ) → IsRepresentable p → checked_quotient zero_ℚ p ≡ Some zero_ℚ }
{}
