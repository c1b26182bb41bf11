//! Signs and negatives of fractions.

ghost use Rattle.std.specs.Prelude.{◌≡◌, ◌↔◌, IsTrue};
ghost use Rattle.tetri_algebra.specs.RationalRing.{zero_ℚ, neg_ℚ};
ghost use Rattle.tetri_num.specs.Frac.{value};
ghost use Rattle.tetri_dictionary.specs.Tables.{is_negative, is_positive, is_less};

use std::cmp::Ordering;
use tetri_num::Frac;

pub(crate) fn is_negative(x: Frac) -> bool
    ensures { result ≡ is_negative (value x) }
{
    x.num < 0
}

pub(crate) fn is_positive(x: Frac) -> bool
    ensures { result ≡ is_positive (value x) }
{
    x.num > 0
}

pub(crate) fn is_zero(x: Frac) -> bool
    ensures { IsTrue result ↔ (value x ≡ zero_ℚ) }
{
    x.num == 0
}

#[inline]
pub(crate) fn is_less(x: Frac, y: Frac) -> bool
    ensures { result ≡ is_less (value x) (value y) }
{
    x.compare(y) == Ordering::Less
}

/// The negative of a fraction.
pub fn negated(x: Frac) -> Frac
    ensures { value result ≡ neg_ℚ (value x) }
{
    Frac {
        num: -x.num,
        den: x.den,
    }
}
