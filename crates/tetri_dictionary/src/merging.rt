//! The sum of a row's entries and a multiple of another row's, by one walk along both.

ghost use Rattle.std.specs.Prelude.{◌≡◌, ◌+◌, Ok, Err, MatchResult, IfOk};
ghost use Rattle.tetri_algebra.specs.RationalRing.{zero_ℚ};
ghost use Rattle.tetri_num.specs.declared.places.Kind.TheVariants as kind;
ghost use Rattle.tetri_num.specs.Frac.{value};
ghost use Rattle.tetri_dictionary.specs.Faults.{IsFault};
ghost use Rattle.tetri_dictionary.specs.Pivots.{replaced_entry};
ghost use Rattle.tetri_dictionary.specs.Sparse.{numbers_from, AreEntries};
ghost use Rattle.tetri_dictionary.specs.Steps.{each_pair, place_at};

use crate::fault::PivotFault;
use crate::fractions::is_zero;
use crate::lines::Entry;
use crate::short_ways::{product, sum};
use tetri_num::{Frac, Kind, Place};

// Where a number of row i leaves the range.
fn past(i: u32, place: u32) -> Place
    ensures { result ≡ place_at kind.Entry i place }
{
    Place {
        kind: Kind::Entry,
        step: 0,
        row: i,
        column: place,
    }
}

// a * y, for a place at which row i has no entry.
#[inline(always)]
fn multiple(columns: u32, i: u32, a: Frac, place: u32, y: Frac) -> Result<Frac, Place>
    ensures { let entry = replaced_entry columns i (value a) (place + 1) zero_ℚ (value y) in
        MatchResult result (λ z. entry ≡ Ok (value z)) (λ e. entry ≡ Err e) }
{
    match product(a, y) {
        Some(part) => Ok(part),
        None => Err(past(i, place)),
    }
}

// x + a * y, for a place of row i.
#[inline(always)]
fn replaced(columns: u32, i: u32, a: Frac, place: u32, x: Frac, y: Frac) -> Result<Frac, Place>
    ensures { let entry = replaced_entry columns i (value a) (place + 1) (value x) (value y) in
        MatchResult result (λ z. entry ≡ Ok (value z)) (λ e. entry ≡ Err e) }
{
    let Some(part) = product(a, y) else {
        return Err(past(i, place));
    };
    match sum(x, part) {
        Some(total) => Ok(total),
        None => Err(past(i, place)),
    }
}

/// Forms x + a * y for each place of two rows' entries, which replace what `merged` holds. An entry
/// that the second row does not have is copied.
pub(crate) fn merge(
    columns: u32,
    i: u32,
    a: Frac,
    xs: &[Entry],
    ys: &[Entry],
    merged: &mut Vec<Entry>,
) -> Result<(), PivotFault>
    requires left { AreEntries columns xs.now }
    requires right { AreEntries columns ys.now }
    ensures formed { let sum = each_pair (replaced_entry columns i (value a)) 1 (numbers_from 0 columns xs.now) (numbers_from 0 columns ys.now) in
        MatchResult result (λ _. sum ≡ Ok (numbers_from 0 columns merged.new.items)) (λ e. IsFault e sum) }
    ensures sound { IfOk result (λ _. AreEntries columns merged.new.items) }
{
    merged.clear();
    let mut x = 0;
    let mut y = 0;
    while x < xs.len() && y < ys.len() {
        let left = xs[x];
        let right = ys[y];
        if left.place < right.place {
            merged.push(left)?;
            x += 1;
            continue;
        }
        if right.place < left.place {
            let number = match multiple(columns, i, a, right.place, right.number) {
                Ok(number) => number,
                Err(fault) => return Err(PivotFault::Past(fault)),
            };
            merged.push(Entry {
                place: right.place,
                number,
            })?;
            y += 1;
            continue;
        }
        let number = match replaced(columns, i, a, left.place, left.number, right.number) {
            Ok(number) => number,
            Err(fault) => return Err(PivotFault::Past(fault)),
        };
        x += 1;
        y += 1;
        if !is_zero(number) {
            merged.push(Entry {
                place: left.place,
                number,
            })?;
        }
    }
    while x < xs.len() {
        merged.push(xs[x])?;
        x += 1;
    }
    while y < ys.len() {
        let right = ys[y];
        let number = match multiple(columns, i, a, right.place, right.number) {
            Ok(number) => number,
            Err(fault) => return Err(PivotFault::Past(fault)),
        };
        merged.push(Entry {
            place: right.place,
            number,
        })?;
        y += 1;
    }
    Ok(())
}
