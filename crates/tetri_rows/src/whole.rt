//! Rows of fractions as whole numbers over one denominator, where these are short.

ghost use Rattle.std.specs.Prelude.{◌≡◌, map, unsigned_abs, All, IfOk, IfSome};
ghost use Rattle.tetri_algebra.specs.Rational.{fraction};
ghost use Rattle.tetri_num.specs.Frac.{value};
ghost use Rattle.tetri_rows.specs.Small.{IsShort, IsDenominator};
ghost use Rattle.tetri_rows.specs.Rows.{meaning};

use crate::rows::{SHORT, is_short, product, short_fraction};
use crate::scaling::scale_for;
use std::alloc::{AllocError, Global};
use tetri_num::Frac;

// The least common multiple of two denominators, where it is short.
fn multiple(den: i64, other: i64) -> Option<i64>
    requires den { IsDenominator den }
    requires other { IsDenominator other }
    ensures { IfSome result (λ m. IsDenominator m) }
{
    let wider = product(den, scale_for(den, other));
    if !is_short(wider, 1) {
        return None;
    }
    Some(wider)
}

// A multiple of a denominator and of that of a number, where it and both parts of the number are short.
fn multiple_with(den: i64, x: Frac) -> Option<i64>
    requires { IsDenominator den }
    ensures { IfSome result (λ m. IsDenominator m) }
{
    let most = SHORT as i128;
    if x.num <= -most || x.num >= most || x.den >= most {
        return None;
    }
    multiple(den, x.den as i64)
}

/// A common denominator of the row's numbers, where it is short. It may give up at any time: so it does
/// where it or a part of a number of the row is not short.
pub fn common_denominator(row: &[Frac]) -> Option<i64>
    ensures { IfSome result (λ den. IsDenominator den) }
{
    let mut den: i64 = 1;
    for k in 0..row.len() {
        match multiple_with(den, row[k]) {
            Some(more) => den = more,
            None => return None,
        }
    }
    Some(den)
}

// The numerator over a denominator, where it is whole and short.
fn over(x: Frac, den: i64) -> Option<i64>
    requires { IsDenominator den }
    ensures value { IfSome result (λ n. fraction n (unsigned_abs den) ≡ value x) }
    ensures short { IfSome result (λ n. IsShort n) }
{
    match x.mul(Frac::whole(den as i128)) {
        Ok(scaled) => short_fraction(scaled),
        Err(_) => None,
    }
}

/// The numerators of a row's numbers over a denominator, where all are whole and short. It may give up at
/// any time.
pub fn numbers_over(alloc: Global, den: i64, row: &[Frac]) -> Result<Option<Vec<i64>>, AllocError>
    requires { IsDenominator den }
    ensures same { IfOk result (λ o. IfSome o (λ v. meaning den v.items ≡ map value row.now)) }
    ensures short { IfOk result (λ o. IfSome o (λ v. All IsShort v.items)) }
{
    let mut numbers = Vec::new(alloc);
    for k in 0..row.len() {
        match over(row[k], den) {
            Some(number) => numbers.push(number)?,
            None => return Ok(None),
        }
    }
    Ok(Some(numbers))
}
