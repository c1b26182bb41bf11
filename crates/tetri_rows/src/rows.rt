//! A row of whole numbers over one denominator, in which a pivot's row is put in for a variable.

ghost use Rattle.std.specs.Prelude.{◌≡◌, ◌≢◌, ◌+◌, ◌*◌, ◌≤◌, ◌<◌, ◌^◌, ℕ, length, get_or, set, suc, All, pos, unsigned_abs, IsTrue};
ghost use lib.IntN.{ℤ, neg_ℤ};
ghost use lib.Signed.{lt_z};
ghost use Rattle.tetri_algebra.specs.Rational.{fraction};
ghost use Rattle.tetri_algebra.specs.RationalRing.{zero_ℚ};
ghost use Rattle.tetri_num.specs.Frac.{value};
ghost use Rattle.std.specs.Prelude.{◌*ℤ◌, ◌<ℤ◌, ◌≤ℤ◌, MatchOption, IfSome, IfOk, map};
ghost use Prim.Native.Nat.{◌∣◌};
ghost use Rattle.tetri_rows.specs.Small.{IsShort, IsDenominator};
ghost use Rattle.tetri_rows.specs.Rows.{meaning, put_in, solved_for, minus_ratio, combined, combined_at};

use std::alloc::{AllocError, Global};
use tetri_num::{Frac, gcd};

// Numbers of a row are below this in size.
pub(crate) const SHORT: i64 = 1 << 31;

// x * d + f * y
#[inline(always)]
pub(crate) fn combined(d: i64, f: i64, x: i64, y: i64) -> i64
    requires d { IsShort d }
    requires f { IsShort f }
    requires x { IsShort x }
    requires y { IsShort y }
    ensures value { result ≡ combined d f x y }
    ensures fits { unsigned_abs result < 2 ^ 63 }
{
    x * d + f * y
}

// The greatest size of the numbers of the new row and of another number.
pub(crate) fn greatest(d: i64, f: i64, row: &[i64], pivot: &[i64], least: i64) -> i64
    requires d { IsShort d }
    requires f { IsShort f }
    requires row { All IsShort row.now }
    requires pivot { All IsShort pivot.now }
    requires wide { length pivot.now ≡ length row.now }
    requires least { pos 0 ≤ℤ least }
    ensures sign { pos 0 ≤ℤ result }
    ensures least { unsigned_abs least ≤ unsigned_abs result }
    ensures most { (q : ℕ) → q < length row.now → unsigned_abs (combined_at d f row.now pivot.now q) ≤ unsigned_abs result }
{
    let mut most: i64 = least;
    for k in 0..row.len() {
        let size = combined(d, f, row[k], pivot[k]).abs();
        most = most.max(size);
    }
    most
}

// A common divisor of the numbers of the new row and of its denominator.
fn divisor(d: i64, f: i64, row: &[i64], pivot: &[i64], den: i64) -> i64
    requires d { IsShort d }
    requires f { IsShort f }
    requires row { All IsShort row.now }
    requires pivot { All IsShort pivot.now }
    requires wide { length pivot.now ≡ length row.now }
    requires den { pos 0 <ℤ den }
    requires fits { unsigned_abs den < 2 ^ 63 }
    ensures positive { pos 0 <ℤ result }
    ensures den { unsigned_abs result ∣ unsigned_abs den }
    ensures numbers { (q : ℕ) → q < length row.now → unsigned_abs result ∣ unsigned_abs (combined_at d f row.now pivot.now q) }
{
    let mut g = den;
    for k in 0..row.len() {
        if g == 1 {
            return 1;
        }
        let new = combined(d, f, row[k], pivot[k]);
        g = gcd(new as i128, g as i128) as i64;
    }
    g
}

// A number by a divisor of it.
#[inline(always)]
pub(crate) fn divided(n: i64, g: i64) -> i64
    requires fits { unsigned_abs n < 2 ^ 63 }
    requires positive { pos 0 <ℤ g }
    requires divides { unsigned_abs g ∣ unsigned_abs n }
    ensures value { result *ℤ g ≡ n }
    ensures size { unsigned_abs result * unsigned_abs g ≡ unsigned_abs n }
{
    if g == 1 { n } else { n / g }
}

// Writes the new row, divided by a common divisor of its numbers.
fn write(d: i64, f: i64, row: &mut [i64], pivot: &[i64], g: i64)
    requires d { IsShort d }
    requires f { IsShort f }
    requires row { All IsShort row.old }
    requires pivot { All IsShort pivot.now }
    requires wide { length pivot.now ≡ length row.old }
    requires positive { pos 0 <ℤ g }
    requires divides { (q : ℕ) → q < length row.old → unsigned_abs g ∣ unsigned_abs (combined_at d f row.old pivot.now q) }
    ensures { (q : ℕ) → q < length row.old → get_or row.new q (pos 0) *ℤ g ≡ combined_at d f row.old pivot.now q }
{
    for k in 0..row.len() {
        let new = combined(d, f, row[k], pivot[k]);
        row[k] = divided(new, g);
    }
}

// The product of two denominators.
#[inline(always)]
pub(crate) fn product(a: i64, b: i64) -> i64
    requires a { IsDenominator a }
    requires b { IsDenominator b }
    ensures value { result ≡ a *ℤ b }
    ensures positive { pos 0 <ℤ result }
    ensures fits { unsigned_abs result < 2 ^ 63 }
{
    a * b
}

// Whether a quotient is short.
#[inline(always)]
pub(crate) fn is_short(n: i64, g: i64) -> bool
    requires sign { pos 0 ≤ℤ n }
    requires positive { pos 0 <ℤ g }
    ensures { IsTrue result → unsigned_abs n < 2 ^ 31 * unsigned_abs g }
{
    n / g < SHORT
}

/// Puts the pivot's row in for the variable at place j. The row has the denominator `den`, the
/// pivot's row `pivot_den`. Answers the denominator of the new row, or None where a number of it is
/// not short, and the row is as it was.
pub(crate) fn add_multiple(
    den: i64,
    row: &mut [i64],
    j: usize,
    pivot_den: i64,
    pivot: &[i64],
) -> Option<i64>
    requires den { IsDenominator den }
    requires row { All IsShort row.old }
    requires pivot_den { IsDenominator pivot_den }
    requires pivot { All IsShort pivot.now }
    requires wide { length pivot.now ≡ length row.old }
    requires place { j < length row.old }
    ensures formed { MatchOption result (row.new ≡ row.old) (λ new. meaning new row.new ≡ put_in j (meaning pivot_den pivot.now) (meaning den row.old)) }
    ensures den { IfSome result (λ new. IsDenominator new) }
    ensures row { All IsShort row.new }
{
    let f = row[j];
    row[j] = 0;
    let unreduced = product(den, pivot_den);
    let g = divisor(pivot_den, f, row, pivot, unreduced);
    let most = greatest(pivot_den, f, row, pivot, unreduced);
    if !is_short(most, g) {
        row[j] = f;
        return None;
    }
    write(pivot_den, f, row, pivot, g);
    Some(divided(unreduced, g))
}

// Divides a row's numbers by a common divisor.
pub(crate) fn divide(row: &mut [i64], g: i64)
    requires row { All IsShort row.old }
    requires positive { pos 0 <ℤ g }
    requires divides { (q : ℕ) → q < length row.old → unsigned_abs g ∣ unsigned_abs (get_or row.old q (pos 0)) }
    ensures { (q : ℕ) → q < length row.old → get_or row.new q (pos 0) *ℤ g ≡ get_or row.old q (pos 0) }
{
    for k in 0..row.len() {
        row[k] = divided(row[k], g);
    }
}

// Divides a row's numbers and its denominator by a common divisor.
fn reduce(den: i64, row: &mut [i64]) -> i64
    requires den { IsDenominator den }
    requires row { All IsShort row.old }
    ensures same { meaning result row.new ≡ meaning den row.old }
    ensures den { IsDenominator result }
    ensures row { All IsShort row.new }
{
    let g = divisor(1, 0, row, row, den);
    if g == 1 {
        return den;
    }
    divide(row, g);
    divided(den, g)
}

/// Turns the sign of each number.
pub fn negate(row: &mut [i64])
    requires { All IsShort row.old }
    ensures value { (q : ℕ) → q < length row.old → get_or row.new q (pos 0) ≡ neg_ℤ (get_or row.old q (pos 0)) }
    ensures row { All IsShort row.new }
{
    for k in 0..row.len() {
        row[k] = -row[k];
    }
}

// Turns the sign of each number where the pivot is above 0.
fn turn(row: &mut [i64], pivot: i64)
    requires { All IsShort row.old }
    ensures value { (q : ℕ) → q < length row.old → get_or row.new q (pos 0) *ℤ pivot ≡ neg_ℤ (get_or row.old q (pos 0)) *ℤ pos (unsigned_abs pivot) }
    ensures row { All IsShort row.new }
{
    if pivot > 0 {
        negate(row);
    }
}

/// Solves a row for the variable at place j, whose number is not 0. Answers its
/// denominator. No number grows, so this never leaves the bound.
pub fn solve_for(den: i64, row: &mut [i64], j: usize) -> i64
    requires den { IsDenominator den }
    requires row { All IsShort row.old }
    requires place { j < length row.old }
    requires pivot { get_or row.old j (pos 0) ≢ pos 0 }
    ensures formed { meaning result row.new ≡ solved_for j (meaning den row.old) }
    ensures den { IsDenominator result }
    ensures row { All IsShort row.new }
{
    let pivot = row[j];
    row[j] = -den;
    turn(row, pivot);
    reduce(pivot.abs(), row)
}

/// The row's number k as a fraction.
pub fn at(den: i64, row: &[i64], k: usize) -> Frac
    requires den { IsDenominator den }
    requires row { All IsShort row.now }
    requires within { k < length row.now }
    ensures { value result ≡ get_or (meaning den row.now) k zero_ℚ }
{
    Frac::new(row[k] as i128, den as i128)
}

/// The row's numbers as fractions.
pub fn fractions(alloc: Global, den: i64, row: &[i64]) -> Result<Vec<Frac>, AllocError>
    requires den { IsDenominator den }
    requires row { All IsShort row.now }
    ensures { IfOk result (λ v. map value v.items ≡ meaning den row.now) }
{
    let mut numbers = Vec::new(alloc);
    for k in 0..row.len() {
        numbers.push(at(den, row, k))?;
    }
    Ok(numbers)
}

/// The number as one word, where it is short; None where it is not.
#[inline]
pub fn short(x: i128) -> Option<i64>
    ensures value { MatchOption result (IsShort x → ⊥) (λ n. n ≡ x) }
    ensures short { IfSome result (λ n. IsShort n) }
{
    if x <= -(SHORT as i128) || x >= SHORT as i128 {
        return None;
    }
    Some(x as i64)
}

// A fraction that is a short whole number.
#[inline]
pub(crate) fn short_fraction(x: Frac) -> Option<i64>
    ensures value { IfSome result (λ n. fraction n 1 ≡ value x) }
    ensures short { IfSome result (λ n. IsShort n) }
{
    if x.den != 1 {
        return None;
    }
    short(x.num)
}

// The product of two short numbers.
#[inline(always)]
pub(crate) fn times(a: i64, b: i64) -> i64
    requires a { IsShort a }
    requires b { IsShort b }
    ensures value { result ≡ a *ℤ b }
    ensures fits { unsigned_abs result < 2 ^ 63 }
{
    a * b
}

/// Minus the number o of a row over the number a, which is above 0, of another.
pub fn minus_ratio(den: i64, other_den: i64, o: i64, a: i64) -> Frac
    requires den { IsDenominator den }
    requires other_den { IsDenominator other_den }
    requires o { IsShort o }
    requires a { IsDenominator a }
    ensures { value result ≡ minus_ratio den other_den o a }
{
    let top = times(-o, den);
    let bottom = product(other_den, a);
    Frac::new(top as i128, bottom as i128)
}

/// Whether minus o over a is less than minus p over b, where a and b are above 0.
#[inline(always)]
pub fn is_lesser_ratio(o: i64, a: i64, p: i64, b: i64) -> bool
    requires o { IsShort o }
    requires a { IsDenominator a }
    requires p { IsShort p }
    requires b { IsDenominator b }
    ensures { (d e : ℤ) → IsDenominator d → IsDenominator e →
        let x = minus_ratio d e o a in
        let y = minus_ratio d e p b in
        result ≡ lt_z (x.num *ℤ pos y.den) (y.num *ℤ pos x.den) }
{
    times(-o, b) < times(-p, a)
}
