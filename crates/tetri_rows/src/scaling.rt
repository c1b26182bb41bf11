//! Rows of whole numbers over a multiple of their denominator.

ghost use Rattle.std.specs.Prelude.{◌≡◌, ℕ, ◌<◌, length, get_or, All, pos, unsigned_abs, IfSome, MatchOption, ◌*ℤ◌};
ghost use Prim.Native.Nat.{◌∣◌};
ghost use Rattle.tetri_rows.specs.Small.{IsShort, IsDenominator};

use crate::rows::{divided, greatest, is_short, product, times};
use tetri_num::gcd;

// Multiplies each number.
fn multiply(row: &mut [i64], scale: i64)
    requires row { All IsShort row.old }
    requires scale { IsShort scale }
    ensures { (q : ℕ) → q < length row.old → get_or row.new q (pos 0) ≡ get_or row.old q (pos 0) *ℤ scale }
{
    for k in 0..row.len() {
        row[k] = times(row[k], scale);
    }
}

/// The least number above 0 that makes f over the denominator whole.
pub(crate) fn scale_for(f: i64, den: i64) -> i64
    requires f { IsShort f }
    requires den { IsDenominator den }
    ensures den { IsDenominator result }
    ensures whole { unsigned_abs den ∣ unsigned_abs (f *ℤ result) }
{
    divided(den, gcd(f as i128, den as i128) as i64)
}

/// Multiplies a row's numbers and its denominator, which is the result. None where one of them is
/// not short then, and the row is as it was.
pub(crate) fn scaled(den: i64, row: &mut [i64], scale: i64) -> Option<i64>
    requires den { IsDenominator den }
    requires row { All IsShort row.old }
    requires scale { IsDenominator scale }
    ensures row { MatchOption result (row.new ≡ row.old) (λ _. (q : ℕ) → q < length row.old → get_or row.new q (pos 0) ≡ get_or row.old q (pos 0) *ℤ scale) }
    ensures short { All IsShort row.new }
    ensures den { IfSome result (λ new. new ≡ den *ℤ scale) }
    ensures sound { IfSome result (λ new. IsDenominator new) }
{
    if scale == 1 {
        return Some(den);
    }
    let wider = product(den, scale);
    if !is_short(greatest(scale, 0, row, row, wider), 1) {
        return None;
    }
    multiply(row, scale);
    Some(wider)
}
