//! A row of whole numbers in which a pivot's row is put in. Only the places at which the pivot's row is
//! not 0 are visited, and all where the row is brought over a multiple of its denominator.

ghost use Rattle.std.specs.Prelude.{◌≡◌, ◌*ℤ◌, ◌+◌, ◌<◌, ◌^◌, ℕ, List, length, get_or, All, pos, unsigned_abs, IsTrue, IfOk, IfSome, MatchOption, true, false};
ghost use Rattle.tetri_rows.specs.Small.{IsShort, IsDenominator};
ghost use Rattle.tetri_rows.specs.Rows.{meaning, put_in, combined};
ghost use Rattle.tetri_rows.specs.Terms.{IsAscending, ArePlaces, AreTerms, term_at};
ghost use lib.IntN.{ℤ};
ghost use Prim.Native.Nat.{◌∣◌};

use crate::rows::{SHORT, add_multiple, combined, divide, divided};
use crate::scaling::{scale_for, scaled};
use std::alloc::{AllocError, Global};

// Whether the new numbers are short.
fn fits(f: i64, row: &[i64], places: &[usize], numbers: &[i64]) -> bool
    requires f { IsShort f }
    requires row { All IsShort row.now }
    requires numbers { All IsShort numbers.now }
    requires wide { length numbers.now ≡ length places.now }
    requires places { ArePlaces places.now (length row.now) }
    ensures { IsTrue result → (q : ℕ) → q < length places.now → IsShort (term_at f row.now places.now numbers.now q) }
{
    for k in 0..places.len() {
        let new = combined(1, f, row[places[k]], numbers[k]);
        if new <= -SHORT || new >= SHORT {
            return false;
        }
    }
    true
}

// Writes the new numbers.
fn write_terms(f: i64, row: &mut [i64], places: &[usize], numbers: &[i64])
    requires f { IsShort f }
    requires row { All IsShort row.old }
    requires numbers { All IsShort numbers.now }
    requires wide { length numbers.now ≡ length places.now }
    requires places { ArePlaces places.now (length row.old) }
    requires ascending { IsAscending places.now }
    ensures at { (q : ℕ) → q < length places.now → get_or row.new (get_or places.now q 0) (pos 0) ≡ term_at f row.old places.now numbers.now q }
    ensures other { (p : ℕ) → ((q : ℕ) → q < length places.now → get_or places.now q 0 ≡ p → ⊥) → get_or row.new p (pos 0) ≡ get_or row.old p (pos 0) }
{
    for k in 0..places.len() {
        let place = places[k];
        row[place] = combined(1, f, row[place], numbers[k]);
    }
}

// Puts a pivot's row, given as its places that are not 0 and the numbers there, in for the variable
// at place j, whose number is a multiple of the pivot's denominator; the row's denominator stays.
// False where a new number is not short, and the row is as it was.
fn add_terms(row: &mut [i64], j: usize, pivot_den: i64, places: &[usize], numbers: &[i64]) -> bool
    requires row { All IsShort row.old }
    requires pivot_den { IsDenominator pivot_den }
    requires numbers { All IsShort numbers.now }
    requires wide { length numbers.now ≡ length places.now }
    requires places { ArePlaces places.now (length row.old) }
    requires ascending { IsAscending places.now }
    requires place { j < length row.old }
    requires whole { unsigned_abs pivot_den ∣ unsigned_abs (get_or row.old j (pos 0)) }
    ensures formed { IsTrue result → (pivot : List ℤ) → AreTerms places.now numbers.now pivot → length pivot ≡ length row.old → (den : ℤ) → IsDenominator den →
        meaning den row.new ≡ put_in j (meaning pivot_den pivot) (meaning den row.old) }
    ensures unchanged { result ≡ false → row.new ≡ row.old }
    ensures row { All IsShort row.new }
{
    let f = row[j];
    let by = divided(f, pivot_den);
    row[j] = 0;
    if !fits(by, row, places, numbers) {
        row[j] = f;
        return false;
    }
    write_terms(by, row, places, numbers);
    true
}

// The same in a row that is brought over its denominator times `scale` before, which makes the
// number at place j a multiple of the pivot's denominator. Answers the denominator of the new row.
fn add_scaled(
    den: i64,
    row: &mut [i64],
    j: usize,
    scale: i64,
    pivot_den: i64,
    terms: &Terms,
) -> Option<i64>
    requires den { IsDenominator den }
    requires row { All IsShort row.old }
    requires scale { IsDenominator scale }
    requires pivot_den { IsDenominator pivot_den }
    requires numbers { All IsShort terms.now.numbers.items }
    requires wide { length terms.now.numbers.items ≡ length terms.now.places.items }
    requires places { ArePlaces terms.now.places.items (length row.old) }
    requires ascending { IsAscending terms.now.places.items }
    requires place { j < length row.old }
    requires whole { unsigned_abs pivot_den ∣ unsigned_abs (get_or row.old j (pos 0) *ℤ scale) }
    ensures formed { MatchOption result (row.new ≡ row.old) (λ new. (pivot : List ℤ) → AreTerms terms.now.places.items terms.now.numbers.items pivot → length pivot ≡ length row.old →
        meaning new row.new ≡ put_in j (meaning pivot_den pivot) (meaning den row.old)) }
    ensures den { IfSome result (λ new. IsDenominator new) }
    ensures row { All IsShort row.new }
{
    let Some(wider) = scaled(den, row, scale) else {
        return None;
    };
    if add_terms(row, j, pivot_den, &terms.places, &terms.numbers) {
        return Some(wider);
    }
    divide(row, scale);
    None
}

/// The places at which a row is not 0, ascending, and the numbers there.
#[derive(Drop)]
pub struct Terms {
    pub places: Vec<usize>,
    pub numbers: Vec<i64>,
}

impl Terms {
    /// No terms.
    pub fn new(alloc: Global) -> Terms {
        Terms {
            places: Vec::new(alloc),
            numbers: Vec::new(alloc),
        }
    }

    /// Lists the terms of a row in the place of those that it holds.
    pub fn list(&mut self, row: &[i64]) -> Result<(), AllocError>
        requires { All IsShort row.now }
        ensures { IfOk result (λ _. AreTerms self.new.places.items self.new.numbers.items row.now) }
    {
        self.places.clear();
        self.numbers.clear();
        for k in 0..row.len() {
            if row[k] != 0 {
                self.places.push(k)?;
                self.numbers.push(row[k])?;
            }
        }
        Ok(())
    }
}

/// Puts a pivot's row, with these terms, in for the variable at place j. The row has the denominator
/// `den`, the pivot's row `pivot_den`. Answers the denominator of the new row, or None, and the row is
/// as it was: it may give up at any time, and does where a new number is not short in lowest terms. Where
/// the new numbers are short over the least denominator that serves, the terms alone are visited, and the
/// row is not brought to lowest terms.
pub fn put_in(
    den: i64,
    row: &mut [i64],
    j: usize,
    pivot_den: i64,
    pivot: &[i64],
    terms: &Terms,
) -> Option<i64>
    requires den { IsDenominator den }
    requires row { All IsShort row.old }
    requires pivot_den { IsDenominator pivot_den }
    requires pivot { All IsShort pivot.now }
    requires wide { length pivot.now ≡ length row.old }
    requires terms { AreTerms terms.now.places.items terms.now.numbers.items pivot.now }
    requires place { j < length row.old }
    ensures formed { MatchOption result (row.new ≡ row.old) (λ new. meaning new row.new ≡ put_in j (meaning pivot_den pivot.now) (meaning den row.old)) }
    ensures den { IfSome result (λ new. IsDenominator new) }
    ensures row { All IsShort row.new }
{
    let scale = scale_for(row[j], pivot_den);
    match add_scaled(den, row, j, scale, pivot_den, terms) {
        Some(new) => Some(new),
        None => add_multiple(den, row, j, pivot_den, pivot),
    }
}
