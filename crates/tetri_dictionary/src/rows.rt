//! The rows of a table under a pivot. A row has a constant, which stands first, and a coefficient
//! for each nonbasic variable, of which there are as many as the program has columns.

ghost use Rattle.std.specs.Prelude.{◌≡◌, ◌≢◌, ◌+◌, ◌<◌, ◌≤◌, ◌^◌, length, get_or, set, suc, [], Ok, Err, MatchResult, IfOk, pos};
ghost use Rattle.tetri_algebra.specs.RationalRing.{zero_ℚ};
ghost use Rattle.tetri_num.specs.Frac.{value};
ghost use Rattle.tetri_dictionary.specs.Fractions.{values, rows_of, AreWide};
ghost use Rattle.tetri_dictionary.specs.Steps.{each};
ghost use Rattle.tetri_dictionary.specs.Pivots.{column_of, solved_row, replaced_entry, replaced_row, next_row, pivoted_rows};
ghost use Rattle.tetri_dictionary.specs.Faults.{IsFault};

use crate::fault::PivotFault;
use crate::fractions::{is_zero, negated};
use std::alloc::Global;
use tetri_num::{Frac, Kind, Place};

// The column that a place names for entry k of a row.
fn column_of(columns: u32, k: usize) -> u32
    requires { k ≤ columns }
    ensures { result ≡ column_of columns k }
{
    if k == 0 { columns } else { (k - 1) as u32 }
}

// The row's entry k, where the coefficient of place j is another number.
fn entry_with(row: &[Frac], j: u32, other: Frac, k: usize) -> Frac
    requires place { j + 1 < length row.now }
    requires within { k < length row.now }
    ensures { value result ≡ get_or (set (values row.now) (suc j) (value other)) k zero_ℚ }
{
    if k == j as usize + 1 { other } else { row[k] }
}

// The row at place i, solved for its variable at place j.
pub(crate) fn solved_row(
    alloc: Global,
    columns: u32,
    row: &[Frac],
    i: u32,
    j: u32,
) -> Result<Vec<Frac>, PivotFault>
    requires wide { length row.now ≡ columns + 1 }
    requires place { j < columns }
    requires pivot { (get_or (values row.now) (suc j) zero_ℚ).num ≢ pos 0 }
    ensures formed { let solved = solved_row columns i j (values row.now) in
        MatchResult result (λ v. solved ≡ Ok (values v.items)) (λ e. IsFault e solved) }
    ensures wide { IfOk result (λ v. length v.items ≡ columns + 1) }
{
    let pivot = row[j as usize + 1];
    let minus_one = Frac::whole(-1);
    let mut solved = Vec::new(alloc);
    for k in 0..row.len() {
        let old = entry_with(row, j, minus_one, k);
        let Ok(new) = negated(old).div(pivot) else {
            return Err(PivotFault::Past(Place {
                kind: Kind::Row,
                step: 0,
                row: i,
                column: column_of(columns, k),
            }));
        };
        solved.push(new)?;
    }
    Ok(solved)
}

// x + a * y, for entry k of row i. A product or a sum with 0 never leaves the range.
#[inline]
pub(crate) fn replaced_entry(
    columns: u32,
    i: u32,
    a: Frac,
    k: usize,
    x: Frac,
    y: Frac,
) -> Result<Frac, Place>
    requires { k ≤ columns }
    ensures { let entry = replaced_entry columns i (value a) k (value x) (value y) in
        MatchResult result (λ z. entry ≡ Ok (value z)) (λ e. entry ≡ Err e) }
{
    if is_zero(y) {
        return Ok(x);
    }
    let place = Place {
        kind: Kind::Entry,
        step: 0,
        row: i,
        column: column_of(columns, k),
    };
    let Ok(part) = a.mul(y) else {
        return Err(place);
    };
    let Ok(sum) = x.add(part) else {
        return Err(place);
    };
    Ok(sum)
}

// Puts the solved row in for the variable at place j in the row at place i.
pub(crate) fn replace_row(
    columns: u32,
    row: &mut [Frac],
    solved: &[Frac],
    i: u32,
    j: u32,
) -> Result<(), Place>
    requires wide { length row.old ≡ columns + 1 }
    requires solved { length solved.now ≡ columns + 1 }
    requires place { j < columns }
    ensures { let next = replaced_row columns i j (values solved.now) (values row.old) in
        MatchResult result (λ _. next ≡ Ok (values row.new)) (λ e. next ≡ Err e) }
{
    let factor = row[j as usize + 1];
    if is_zero(factor) {
        return Ok(());
    }
    row[j as usize + 1] = Frac::whole(0);
    for k in 0..row.len() {
        match replaced_entry(columns, i, factor, k, row[k], solved[k]) {
            Ok(new) => row[k] = new,
            Err(place) => return Err(place),
        }
    }
    Ok(())
}

// Puts the solved row in for the variable at place j in each row but that at place i.
fn replace_rows(
    columns: u32,
    rows: &mut [Vec<Frac>],
    solved: &[Frac],
    i: u32,
    j: u32,
) -> Result<(), Place>
    requires wide { AreWide columns rows.old }
    requires solved { length solved.now ≡ columns + 1 }
    requires few { length rows.old < 2 ^ 32 }
    requires row { i < length rows.old }
    requires place { j < columns }
    ensures formed { let next = each (next_row columns i j (values solved.now)) 0 (rows_of rows.old) in
        MatchResult result (λ _. next ≡ Ok (set (rows_of rows.new) i (values solved.now))) (λ e. next ≡ Err e) }
    ensures wide { IfOk result (λ _. AreWide columns rows.new) }
{
    for k in 0..rows.len() {
        if k != i as usize {
            match replace_row(columns, &mut rows[k], solved, k as u32, j) {
                Ok(()) => {}
                Err(place) => return Err(place),
            }
        }
    }
    Ok(())
}

/// Exchanges the basic place i and the nonbasic place j in the rows of a table.
pub(crate) fn pivot_rows(
    alloc: Global,
    columns: u32,
    rows: &mut [Vec<Frac>],
    i: u32,
    j: u32,
) -> Result<(), PivotFault>
    requires wide { AreWide columns rows.old }
    requires few { length rows.old < 2 ^ 32 }
    requires row { i < length rows.old }
    requires place { j < columns }
    requires pivot { (get_or (get_or (rows_of rows.old) i []) (suc j) zero_ℚ).num ≢ pos 0 }
    ensures formed { let next = pivoted_rows columns i j (rows_of rows.old) in
        MatchResult result (λ _. next ≡ Ok (rows_of rows.new)) (λ e. IsFault e next) }
    ensures wide { IfOk result (λ _. AreWide columns rows.new) }
{
    let solved = match solved_row(alloc, columns, &rows[i as usize], i, j) {
        Ok(solved) => solved,
        Err(fault) => return Err(fault),
    };
    match replace_rows(columns, rows, &solved, i, j) {
        Ok(()) => {
            rows[i as usize] = solved;
            Ok(())
        }
        Err(place) => Err(PivotFault::Past(place)),
    }
}
