//! Rows that are whole numbers over one denominator where these are short, and fractions else. Such
//! rows under a pivot.

ghost use Rattle.std.specs.Prelude.{◌≡◌, ◌≢◌, ◌↔◌, ℕ, List, ◌+◌, ◌/◌, ◌<◌, ◌≤◌, ◌^◌, length, get_or, set, suc, [], Ok, Err, Some, None, MatchOption, MatchResult, IfOk, IfSome, IsTrue, pos};
ghost use Rattle.tetri_algebra.specs.Rational.{ℚ};
ghost use Rattle.tetri_algebra.specs.RationalRing.{zero_ℚ};
ghost use Rattle.tetri_num.specs.Frac.{value};
ghost use Rattle.tetri_rows.specs.Rows.{meaning};
ghost use Rattle.tetri_dictionary.specs.Choices.{leaving_from, entering_from, has_positive};
ghost use Rattle.tetri_dictionary.specs.Candidates.{candidate_of, IsCandidate};
ghost use Rattle.tetri_dictionary.specs.Below.{below_of};
ghost use Rattle.tetri_dictionary.specs.Faults.{IsFault};
ghost use Rattle.tetri_dictionary.specs.Fractions.{values};
ghost use Rattle.tetri_dictionary.specs.Holders.{bit, IsHolder};
ghost use Rattle.tetri_dictionary.specs.Mixed.{mixed_row, mixed_rows, AreWholeNumbers, IsMixedRow, AreMixedRows, AreTermsOfRow, AreFractionsOfRow, IsReplacedAt};
ghost use Rattle.tetri_dictionary.specs.Pivots.{solved_row, replaced_row, next_row, pivoted_rows};
ghost use Rattle.tetri_dictionary.specs.Steps.{each};
ghost use Rattle.tetri_dictionary.specs.Tables.{coefficients_of, is_negative, is_positive};

use crate::choices::{Candidate, has_positive, lesser_place, lesser_ratio};
use crate::fault::PivotFault;
use crate::fractions::{is_negative, is_positive, is_zero, negated};
use crate::holders::{clear_bit, next_set};
use crate::rows::{replace_row, solved_row};
use crate::whole_choices::entering_whole;
use std::alloc::{AllocError, Global};
use std::mem;
use tetri_num::{Frac, Kind, Place};
use tetri_rows::{Terms, at, common_denominator, fractions, numbers_over, put_in, solve_for};

/// A row, its constant first: whole numbers over one denominator, or fractions.
#[derive(Drop)]
pub(crate) enum MixedRow {
    Whole { den: i64, numbers: Vec<i64> },
    Fractions(Vec<Frac>),
}

/// The number at place k.
#[inline(always)]
pub(crate) fn number_at(columns: u32, row: &MixedRow, k: usize) -> Frac
    requires row { IsMixedRow columns row.now }
    requires within { k ≤ columns }
    ensures { value result ≡ get_or (mixed_row row.now) k zero_ℚ }
{
    match row {
        MixedRow::Whole { den, numbers } => at(*den, numbers, k),
        MixedRow::Fractions(numbers) => numbers[k],
    }
}

/// Whether the number at place k is below 0.
#[inline(always)]
pub(crate) fn is_negative_at(columns: u32, row: &MixedRow, k: usize) -> bool
    requires row { IsMixedRow columns row.now }
    requires within { k ≤ columns }
    ensures { result ≡ is_negative (get_or (mixed_row row.now) k zero_ℚ) }
{
    match row {
        MixedRow::Whole { den: _, numbers } => numbers[k] < 0,
        MixedRow::Fractions(numbers) => is_negative(numbers[k]),
    }
}

// Whether the number at place k is above 0.
#[inline(always)]
fn is_positive_at(columns: u32, row: &MixedRow, k: usize) -> bool
    requires row { IsMixedRow columns row.now }
    requires within { k ≤ columns }
    ensures { result ≡ is_positive (get_or (mixed_row row.now) k zero_ℚ) }
{
    match row {
        MixedRow::Whole { den: _, numbers } => numbers[k] > 0,
        MixedRow::Fractions(numbers) => is_positive(numbers[k]),
    }
}

/// The basic place that leaves: of those with a constant below 0 the one with the least variable.
/// `below` tells which rows' constants are below 0.
pub(crate) fn leaving_row(basic: &[usize], below: &[bool]) -> Option<u32>
    requires few { length below.now < 2 ^ 32 }
    requires enough { length basic.now < length below.now }
    ensures place { (rows : List (List ℚ)) → below.now ≡ below_of rows → result ≡ leaving_from basic.now 0 basic.now rows None }
    ensures within { IfSome result (λ i. i < length basic.now) }
{
    let mut best = None;
    for k in 0..basic.len() {
        if below[k] {
            best = lesser_place(basic, best, k as u32);
        }
    }
    best
}

/// Whether a coefficient of the row is above 0.
pub(crate) fn rises(columns: u32, row: &MixedRow) -> bool
    requires { IsMixedRow columns row.now }
    ensures { result ≡ has_positive (coefficients_of (mixed_row row.now)) }
{
    for j in 0..columns as usize {
        if is_positive_at(columns, row, j + 1) {
            return true;
        }
    }
    false
}

// The nonbasic place that enters for the leaving row at place i: of those with a coefficient
// above 0 there the one with the least ratio of minus the objective's coefficient to it.
fn entering_mixed(
    nonbasic: &[usize],
    row: &MixedRow,
    objective: &MixedRow,
    i: u32,
) -> Result<Option<Candidate>, Place>
    requires few { length nonbasic.now < 2 ^ 31 }
    requires row { IsMixedRow (length nonbasic.now) row.now }
    requires objective { IsMixedRow (length nonbasic.now) objective.now }
    ensures formed { let found = entering_from nonbasic.now i 0 (coefficients_of (mixed_row row.now)) (coefficients_of (mixed_row objective.now)) None in
        MatchResult result (λ o. found ≡ Ok (candidate_of o)) (λ e. found ≡ Err e) }
    ensures positive { IfOk result (λ o. IfSome o (λ b. IsCandidate nonbasic.now (mixed_row row.now) b)) }
{
    let columns = nonbasic.len() as u32;
    let mut best = None;
    for j in 0..nonbasic.len() {
        if is_positive_at(columns, row, j + 1) {
            let coefficient = number_at(columns, row, j + 1);
            let cost = number_at(columns, objective, j + 1);
            let Ok(ratio) = negated(cost).div(coefficient) else {
                return Err(Place {
                    kind: Kind::Ratio,
                    step: 0,
                    row: i,
                    column: j as u32,
                });
            };
            best = lesser_ratio(nonbasic, best, j as u32, ratio);
        }
    }
    Ok(best)
}

/// The nonbasic place that enters for the leaving row at place i: of those with a coefficient
/// above 0 there the one with the least ratio of minus the objective's coefficient to it. Where both
/// rows are whole, the ratios are compared by cross products.
pub(crate) fn entering_row(
    nonbasic: &[usize],
    row: &MixedRow,
    objective: &MixedRow,
    i: u32,
) -> Result<Option<Candidate>, Place>
    requires few { length nonbasic.now < 2 ^ 31 }
    requires row { IsMixedRow (length nonbasic.now) row.now }
    requires objective { IsMixedRow (length nonbasic.now) objective.now }
    ensures formed { let found = entering_from nonbasic.now i 0 (coefficients_of (mixed_row row.now)) (coefficients_of (mixed_row objective.now)) None in
        MatchResult result (λ o. found ≡ Ok (candidate_of o)) (λ e. found ≡ Err e) }
    ensures positive { IfOk result (λ o. IfSome o (λ b. IsCandidate nonbasic.now (mixed_row row.now) b)) }
{
    match row {
        MixedRow::Whole { den, numbers } => match objective {
            MixedRow::Whole {
                den: other_den,
                numbers: others,
            } => Ok(entering_whole(nonbasic, *den, numbers, *other_den, others)),
            MixedRow::Fractions(_) => entering_mixed(nonbasic, row, objective, i),
        },
        MixedRow::Fractions(_) => entering_mixed(nonbasic, row, objective, i),
    }
}

// The row's numbers as fractions.
fn fractions_of(alloc: Global, columns: u32, row: &MixedRow) -> Result<Vec<Frac>, AllocError>
    requires { IsMixedRow columns row.now }
    ensures { IfOk result (λ v. values v.items ≡ mixed_row row.now) }
{
    match row {
        MixedRow::Whole { den, numbers } => fractions(alloc, *den, numbers),
        MixedRow::Fractions(numbers) => numbers.clone(),
    }
}

// A copy of numbers.
fn copied(alloc: Global, numbers: &[i64]) -> Result<Vec<i64>, AllocError>
    ensures { IfOk result (λ v. v.items ≡ numbers.now) }
{
    let mut copy = Vec::new(alloc);
    copy.extend_from_slice(numbers)?;
    Ok(copy)
}

/// A row of whole numbers where its fractions are short over a common denominator, and of fractions else.
pub(crate) fn brought_back(
    alloc: Global,
    columns: u32,
    row: Vec<Frac>,
) -> Result<MixedRow, AllocError>
    requires { length row.items ≡ columns + 1 }
    ensures same { IfOk result (λ r. mixed_row r ≡ values row.items) }
    ensures sound { IfOk result (λ r. IsMixedRow columns r) }
{
    let Some(den) = common_denominator(&row) else {
        return Ok(MixedRow::Fractions(row));
    };
    match numbers_over(alloc, den, &row)? {
        Some(numbers) => Ok(MixedRow::Whole { den, numbers }),
        None => Ok(MixedRow::Fractions(row)),
    }
}

// The row at place i, solved for its variable at place j.
fn solved_mixed(
    alloc: Global,
    columns: u32,
    row: &MixedRow,
    i: u32,
    j: u32,
) -> Result<MixedRow, PivotFault>
    requires row { IsMixedRow columns row.now }
    requires place { j < columns }
    requires pivot { (get_or (mixed_row row.now) (suc j) zero_ℚ).num ≢ pos 0 }
    ensures formed { let solved = solved_row columns i j (mixed_row row.now) in
        MatchResult result (λ r. solved ≡ Ok (mixed_row r)) (λ e. IsFault e solved) }
    ensures sound { IfOk result (λ r. IsMixedRow columns r) }
{
    match row {
        MixedRow::Whole { den, numbers } => {
            let mut solved = copied(alloc, numbers)?;
            let den = solve_for(*den, &mut solved, j as usize + 1);
            Ok(MixedRow::Whole {
                den,
                numbers: solved,
            })
        }
        MixedRow::Fractions(numbers) => {
            match solved_row(alloc, columns, numbers, i, j) {
                Ok(solved) => Ok(brought_back(alloc, columns, solved)?),
                Err(fault) => Err(fault),
            }
        }
    }
}

// Whether the number at place k is 0.
#[inline(always)]
pub(crate) fn is_zero_at(columns: u32, row: &MixedRow, k: usize) -> bool
    requires row { IsMixedRow columns row.now }
    requires within { k ≤ columns }
    ensures { IsTrue result ↔ (get_or (mixed_row row.now) k zero_ℚ ≡ zero_ℚ) }
{
    match row {
        MixedRow::Whole { den: _, numbers } => numbers[k] == 0,
        MixedRow::Fractions(numbers) => is_zero(numbers[k]),
    }
}

// Lists the terms of a solved row, where it is whole.
fn list_terms(columns: u32, solved: &MixedRow, terms: &mut Terms) -> Result<(), AllocError>
    requires { IsMixedRow columns solved.now }
    ensures { IfOk result (λ _. AreTermsOfRow solved.now terms.new) }
{
    match solved {
        MixedRow::Whole { den: _, numbers } => terms.list(numbers),
        MixedRow::Fractions(_) => Ok(()),
    }
}

// Puts a solved row in for the variable at place j of a row of whole numbers, where both are whole
// and the new numbers are short. Answers the new denominator.
fn put_whole(
    columns: u32,
    den: i64,
    numbers: &mut [i64],
    solved: &MixedRow,
    terms: &Terms,
    j: u32,
) -> Option<i64>
    requires row { AreWholeNumbers columns den numbers.old }
    requires solved { IsMixedRow columns solved.now }
    requires terms { AreTermsOfRow solved.now terms.now }
    requires place { j < columns }
    ensures formed { MatchOption result (numbers.new ≡ numbers.old) (λ new.
        (i : ℕ) → replaced_row columns i j (mixed_row solved.now) (meaning den numbers.old) ≡ Ok (meaning new numbers.new)) }
    ensures sound { IfSome result (λ new. AreWholeNumbers columns new numbers.new) }
{
    match solved {
        MixedRow::Whole {
            den: solved_den,
            numbers: solved_numbers,
        } => put_in(
            den,
            numbers,
            j as usize + 1,
            *solved_den,
            solved_numbers,
            terms,
        ),
        MixedRow::Fractions(_) => None,
    }
}

// Puts a solved row in for the variable at place j of a row of fractions. `known` keeps the solved row's
// fractions, once they were made.
fn replaced_fractions(
    alloc: Global,
    columns: u32,
    numbers: Vec<Frac>,
    solved: &MixedRow,
    known: &mut Option<Vec<Frac>>,
    i: u32,
    j: u32,
) -> Result<MixedRow, PivotFault>
    requires row { length numbers.items ≡ columns + 1 }
    requires solved { IsMixedRow columns solved.now }
    requires known { AreFractionsOfRow solved.now known.old }
    requires place { j < columns }
    ensures formed { let next = replaced_row columns i j (mixed_row solved.now) (values numbers.items) in
        MatchResult result (λ r. next ≡ Ok (mixed_row r)) (λ e. IsFault e next) }
    ensures sound { IfOk result (λ r. IsMixedRow columns r) }
    ensures known { AreFractionsOfRow solved.now known.new }
{
    let mut new = numbers;
    let fractions = match known.take() {
        Some(fractions) => fractions,
        None => fractions_of(alloc, columns, solved)?,
    };
    let replaced = replace_row(columns, &mut new, &fractions, i, j);
    *known = Some(fractions);
    match replaced {
        Ok(()) => Ok(brought_back(alloc, columns, new)?),
        Err(place) => Err(PivotFault::Past(place)),
    }
}

// The row at place i, with the solved row put in for its variable at place j.
fn replaced_mixed(
    alloc: Global,
    columns: u32,
    row: MixedRow,
    solved: &MixedRow,
    terms: &Terms,
    known: &mut Option<Vec<Frac>>,
    i: u32,
    j: u32,
) -> Result<MixedRow, PivotFault>
    requires row { IsMixedRow columns row }
    requires solved { IsMixedRow columns solved.now }
    requires terms { AreTermsOfRow solved.now terms.now }
    requires known { AreFractionsOfRow solved.now known.old }
    requires place { j < columns }
    ensures formed { let next = replaced_row columns i j (mixed_row solved.now) (mixed_row row) in
        MatchResult result (λ r. next ≡ Ok (mixed_row r)) (λ e. IsFault e next) }
    ensures sound { IfOk result (λ r. IsMixedRow columns r) }
    ensures known { AreFractionsOfRow solved.now known.new }
{
    match row {
        MixedRow::Whole { den, mut numbers } => {
            match put_whole(columns, den, &mut numbers, solved, terms, j) {
                Some(new) => Ok(MixedRow::Whole { den: new, numbers }),
                None => {
                    let old = fractions(alloc, den, &numbers)?;
                    replaced_fractions(alloc, columns, old, solved, known, i, j)
                }
            }
        }
        MixedRow::Fractions(numbers) => {
            replaced_fractions(alloc, columns, numbers, solved, known, i, j)
        }
    }
}

// Puts the solved row in for the variable at place j of the row at place k.
#[inline(always)]
fn replace_at(
    alloc: Global,
    columns: u32,
    rows: &mut [MixedRow],
    below: &mut [bool],
    solved: &MixedRow,
    terms: &Terms,
    known: &mut Option<Vec<Frac>>,
    k: usize,
    j: u32,
) -> Result<(), PivotFault>
    requires rows { AreMixedRows columns rows.old }
    requires few { length rows.old < 2 ^ 32 }
    requires row { k < length rows.old }
    requires below { below.old ≡ below_of (mixed_rows rows.old) }
    requires solved { IsMixedRow columns solved.now }
    requires terms { AreTermsOfRow solved.now terms.now }
    requires known { AreFractionsOfRow solved.now known.old }
    requires place { j < columns }
    ensures formed { let next = replaced_row columns k j (mixed_row solved.now) (get_or (mixed_rows rows.old) k []) in
        MatchResult result (λ _. IsReplacedAt columns k j (mixed_row solved.now) rows.old rows.new) (λ e. IsFault e next) }
    ensures sound { IfOk result (λ _. AreMixedRows columns rows.new) }
    ensures below { IfOk result (λ _. below.new ≡ below_of (mixed_rows rows.new)) }
    ensures known { AreFractionsOfRow solved.now known.new }
{
    let old = mem::replace(&mut rows[k], MixedRow::Fractions(Vec::new(alloc)));
    match replaced_mixed(alloc, columns, old, solved, terms, known, k as u32, j) {
        Ok(new) => {
            below[k] = is_negative_at(columns, &new, 0);
            rows[k] = new;
            Ok(())
        }
        Err(fault) => Err(fault),
    }
}

// Puts the solved row in for the variable at place j in each row but that at place i. A row without
// the variable stays untouched, and its bit in `own` is cleared; where `own` has no bit, the row is not
// even looked at. The solved row's fractions are made at most once.
fn replace_mixed(
    alloc: Global,
    columns: u32,
    rows: &mut [MixedRow],
    below: &mut [bool],
    own: &mut [u64],
    solved: &MixedRow,
    terms: &Terms,
    i: u32,
    j: u32,
) -> Result<(), PivotFault>
    requires rows { AreMixedRows columns rows.old }
    requires few { length rows.old < 2 ^ 32 }
    requires row { i < length rows.old }
    requires below { below.old ≡ below_of (mixed_rows rows.old) }
    requires holder { IsHolder own.old (mixed_rows rows.old) j }
    requires wide { length own.old ≡ length rows.old / 64 + 1 }
    requires solved { IsMixedRow columns solved.now }
    requires terms { AreTermsOfRow solved.now terms.now }
    requires place { j < columns }
    ensures formed { let next = each (next_row columns i j (mixed_row solved.now)) 0 (mixed_rows rows.old) in
        MatchResult result (λ _. next ≡ Ok (set (mixed_rows rows.new) i (mixed_row solved.now))) (λ e. IsFault e next) }
    ensures sound { IfOk result (λ _. AreMixedRows columns rows.new) }
    ensures below { IfOk result (λ _. below.new ≡ below_of (mixed_rows rows.new)) }
    ensures holder { IsHolder own.new (mixed_rows rows.old) j }
    ensures untouched { IfOk result (λ _. (q : ℕ) (r : MixedRow) → bit own.new q ≡ 0 → get_or rows.new q r ≡ get_or rows.old q r) }
{
    let mut known = None;
    let mut from = 0;
    for _ in 0..rows.len() {
        let k = next_set(own, from, rows.len());
        if k == rows.len() {
            return Ok(());
        }
        if is_zero_at(columns, &rows[k], j as usize + 1) {
            clear_bit(own, k);
        } else if k != i as usize {
            match replace_at(alloc, columns, rows, below, solved, terms, &mut known, k, j) {
                Ok(()) => {}
                Err(fault) => return Err(fault),
            }
        }
        from = k + 1;
    }
    Ok(())
}

/// Exchanges the basic place i and the nonbasic place j in the rows of a dictionary. `below` tells which
/// constants are below 0, and `own` the rows that may hold the variable; the bits of those that do not are
/// cleared, and a row without a bit stays as it was. What `terms` holds does not matter; in the end it has the terms of row i, where that is whole.
pub(crate) fn pivot_mixed(
    alloc: Global,
    columns: u32,
    rows: &mut [MixedRow],
    below: &mut [bool],
    own: &mut [u64],
    terms: &mut Terms,
    i: u32,
    j: u32,
) -> Result<(), PivotFault>
    requires rows { AreMixedRows columns rows.old }
    requires few { length rows.old < 2 ^ 32 }
    requires row { i < length rows.old }
    requires place { j < columns }
    requires below { below.old ≡ below_of (mixed_rows rows.old) }
    requires holder { IsHolder own.old (mixed_rows rows.old) j }
    requires wide { length own.old ≡ length rows.old / 64 + 1 }
    requires pivot { (get_or (get_or (mixed_rows rows.old) i []) (suc j) zero_ℚ).num ≢ pos 0 }
    ensures formed { let next = pivoted_rows columns i j (mixed_rows rows.old) in
        MatchResult result (λ _. next ≡ Ok (mixed_rows rows.new)) (λ e. IsFault e next) }
    ensures sound { IfOk result (λ _. AreMixedRows columns rows.new) }
    ensures below { IfOk result (λ _. below.new ≡ below_of (mixed_rows rows.new)) }
    ensures holder { IsHolder own.new (mixed_rows rows.old) j }
    ensures untouched { IfOk result (λ _. (q : ℕ) (r : MixedRow) → bit own.new q ≡ 0 → get_or rows.new q r ≡ get_or rows.old q r) }
    ensures terms { IfOk result (λ _. (r : MixedRow) → AreTermsOfRow (get_or rows.new i r) terms.new) }
{
    let solved = match solved_mixed(alloc, columns, &rows[i as usize], i, j) {
        Ok(solved) => solved,
        Err(fault) => return Err(fault),
    };
    if list_terms(columns, &solved, terms).is_err() {
        return Err(PivotFault::NoMemory);
    }
    match replace_mixed(alloc, columns, rows, below, own, &solved, terms, i, j) {
        Ok(()) => {
            below[i as usize] = is_negative_at(columns, &solved, 0);
            rows[i as usize] = solved;
            Ok(())
        }
        Err(fault) => Err(fault),
    }
}

/// Which rows' constants are below 0.
pub(crate) fn below_of(
    alloc: Global,
    columns: u32,
    rows: &[MixedRow],
) -> Result<Vec<bool>, AllocError>
    requires { AreMixedRows columns rows.now }
    ensures { IfOk result (λ v. v.items ≡ below_of (mixed_rows rows.now)) }
{
    let mut below = Vec::new(alloc);
    for k in 0..rows.len() {
        below.push(is_negative_at(columns, &rows[k], 0))?;
    }
    Ok(below)
}
