//! Rows by their entries, and such rows under a pivot.

ghost use Rattle.std.specs.Prelude.{◌≡◌, ◌≢◌, ◌⊎◌, ℕ, ◌+◌, ◌<◌, ◌≤◌, ◌^◌, length, get_or, set, suc, [], ◌∷◌, Ok, Err, Some, None, MatchResult, IfOk, IfSome, IfNone, true, pos};
ghost use Rattle.tetri_algebra.specs.RationalRing.{zero_ℚ};
ghost use Rattle.tetri_num.specs.Frac.{value};
ghost use Rattle.tetri_dictionary.specs.Choices.{leaving_from, entering_from, has_positive};
ghost use Rattle.tetri_dictionary.specs.Candidates.{candidate_of};
ghost use Rattle.tetri_dictionary.specs.Faults.{IsFault};
ghost use lib.IntN.{negsuc};
ghost use Rattle.tetri_algebra.specs.Rational.{whole_ℚ};
ghost use Rattle.tetri_dictionary.specs.Pivots.{solved_entry, solved_row, replaced_entry, replaced_row, next_row, pivoted_rows};
ghost use Rattle.tetri_dictionary.specs.Sparse.{place_at, number_of, numbers_from, line_of, lines_of, AreAscending, AreEntries, AreLines};
ghost use Rattle.tetri_dictionary.specs.Steps.{each, each_pair};
ghost use Rattle.tetri_dictionary.specs.Tables.{is_positive};

use crate::choices::{Candidate, lesser_place, lesser_ratio};
use crate::fault::PivotFault;
use crate::fractions::{is_negative, is_positive, is_zero, negated};
use crate::merging::merge;
use crate::rows::replaced_entry;
use std::alloc::Global;
use std::mem;
use tetri_num::{Frac, Kind, Place};

/// The coefficient of a place.
#[derive(Clone, Copy)]
pub(crate) struct Entry {
    pub(crate) place: u32,
    pub(crate) number: Frac,
}

/// A row: its constant, and its entries, which ascend by place. A place without an entry has 0.
#[derive(Drop)]
pub(crate) struct Line {
    pub(crate) constant: Frac,
    pub(crate) entries: Vec<Entry>,
}

// The steps that a search goes on where the place that it reads is not above the one sought, and none where
// it is: a shift by 0 or by 63 of a word, and no branch, since none could be foretold.
#[inline(always)]
fn steps(half: usize, at: u32, place: u32) -> usize
    requires { half < 2 ^ 63 }
    ensures on { at ≤ place → result ≡ half }
    ensures none { place < at → result ≡ 0 }
{
    let shift = u64::from(place).wrapping_sub(u64::from(at)) >> 58;
    half >> shift
}

// The place in the list of the entry of a place, found by binary search.
fn find(entries: &[Entry], place: u32) -> Option<usize>
    requires { AreAscending entries.now }
    ensures found { IfSome result (λ k. (k < length entries.now) × (place_at entries.now k ≡ place)) }
    ensures absent { IfNone result ((k : ℕ) → k < length entries.now → place_at entries.now k ≡ place → ⊥) }
{
    let mut low = 0;
    let mut count = entries.len();
    if count == 0 {
        return None;
    }
    while count > 1 {
        let half = count / 2;
        low += steps(half, entries[low + half].place, place);
        count -= half;
    }
    if entries[low].place == place {
        Some(low)
    } else {
        None
    }
}

/// The coefficient of a place.
pub(crate) fn number_of(entries: &[Entry], place: u32) -> Frac
    requires { AreAscending entries.now }
    ensures { value result ≡ number_of entries.now place }
{
    match find(entries, place) {
        Some(k) => entries[k].number,
        None => Frac::whole(0),
    }
}

// The entry's number, or at place j another one.
fn number_with(entry: Entry, j: u32, other: Frac) -> Frac
    ensures same { entry.place ≢ j → result ≡ entry.number }
    ensures own { entry.place ≡ j → result ≡ other }
{
    if entry.place == j {
        other
    } else {
        entry.number
    }
}

// The entries of the row at place i, without its constant, solved for the variable at place j.
fn solved_entries(
    alloc: Global,
    columns: u32,
    entries: &[Entry],
    pivot: Frac,
    i: u32,
    j: u32,
) -> Result<Vec<Entry>, PivotFault>
    requires entries { AreEntries columns entries.now }
    requires place { j < columns }
    requires pivot { value pivot ≡ number_of entries.now j }
    requires some { (number_of entries.now j).num ≢ pos 0 }
    ensures formed { let solved = each (solved_entry columns i (value pivot)) 1 (set (numbers_from 0 columns entries.now) j (whole_ℚ (negsuc 0))) in
        MatchResult result (λ v. solved ≡ Ok (numbers_from 0 columns v.items)) (λ e. IsFault e solved) }
    ensures sound { IfOk result (λ v. AreEntries columns v.items) }
{
    let minus_one = Frac::whole(-1);
    let mut solved = Vec::with_capacity(alloc, entries.len())?;
    for k in 0..entries.len() {
        let entry = entries[k];
        let Ok(number) = negated(number_with(entry, j, minus_one)).div(pivot) else {
            return Err(PivotFault::Past(Place {
                kind: Kind::Row,
                step: 0,
                row: i,
                column: entry.place,
            }));
        };
        solved.push(Entry {
            place: entry.place,
            number,
        })?;
    }
    Ok(solved)
}

// The row at place i, solved for its variable at place j.
fn solved_line(alloc: Global, columns: u32, line: &Line, i: u32, j: u32) -> Result<Line, PivotFault>
    requires entries { AreEntries columns line.now.entries.items }
    requires place { j < columns }
    requires pivot { (number_of line.now.entries.items j).num ≢ pos 0 }
    ensures formed { let solved = solved_row columns i j (line_of columns line.now) in
        MatchResult result (λ l. solved ≡ Ok (line_of columns l)) (λ e. IsFault e solved) }
    ensures sound { IfOk result (λ l. AreEntries columns l.entries.items) }
{
    let pivot = number_of(&line.entries, j);
    let Ok(constant) = negated(line.constant).div(pivot) else {
        return Err(PivotFault::Past(Place {
            kind: Kind::Row,
            step: 0,
            row: i,
            column: columns,
        }));
    };
    match solved_entries(alloc, columns, &line.entries, pivot, i, j) {
        Ok(entries) => Ok(Line { constant, entries }),
        Err(fault) => Err(fault),
    }
}

// Puts the solved row in for the variable at place j in the row at place i. A row without the
// variable stays untouched. The entries are formed in `scratch` and exchanged with the row's.
fn replace_line(
    columns: u32,
    line: &mut Line,
    solved: &Line,
    i: u32,
    j: u32,
    scratch: &mut Vec<Entry>,
) -> Result<(), PivotFault>
    requires entries { AreEntries columns line.old.entries.items }
    requires solved { AreEntries columns solved.now.entries.items }
    requires place { j < columns }
    ensures formed { let next = replaced_row columns i j (line_of columns solved.now) (line_of columns line.old) in
        MatchResult result (λ _. next ≡ Ok (line_of columns line.new)) (λ e. IsFault e next) }
    ensures sound { IfOk result (λ _. AreEntries columns line.new.entries.items) }
{
    let Some(k) = find(&line.entries, j) else {
        return Ok(());
    };
    let factor = line.entries[k].number;
    if is_zero(factor) {
        return Ok(());
    }
    let constant = match replaced_entry(columns, i, factor, 0, line.constant, solved.constant) {
        Ok(constant) => constant,
        Err(place) => return Err(PivotFault::Past(place)),
    };
    line.entries[k] = Entry {
        place: j,
        number: Frac::whole(0),
    };
    match merge(columns, i, factor, &line.entries, &solved.entries, scratch) {
        Ok(()) => {
            line.constant = constant;
            mem::swap(&mut line.entries, scratch);
            Ok(())
        }
        Err(fault) => Err(fault),
    }
}

// Puts the solved row in for the variable at place j in each row but that at place i.
fn replace_lines(
    columns: u32,
    lines: &mut [Line],
    solved: &Line,
    i: u32,
    j: u32,
    scratch: &mut Vec<Entry>,
) -> Result<(), PivotFault>
    requires lines { AreLines columns lines.old }
    requires solved { AreEntries columns solved.now.entries.items }
    requires few { length lines.old < 2 ^ 32 }
    requires row { i < length lines.old }
    requires place { j < columns }
    ensures formed { let next = each (next_row columns i j (line_of columns solved.now)) 0 (lines_of columns lines.old) in
        MatchResult result (λ _. next ≡ Ok (set (lines_of columns lines.new) i (line_of columns solved.now))) (λ e. IsFault e next) }
    ensures sound { IfOk result (λ _. AreLines columns lines.new) }
{
    for k in 0..lines.len() {
        if k != i as usize {
            match replace_line(columns, &mut lines[k], solved, k as u32, j, scratch) {
                Ok(()) => {}
                Err(fault) => return Err(fault),
            }
        }
    }
    Ok(())
}

/// Exchanges the basic place i and the nonbasic place j in the rows of a dictionary. What `scratch`
/// holds does not matter.
pub(crate) fn pivot_lines(
    alloc: Global,
    columns: u32,
    lines: &mut [Line],
    i: u32,
    j: u32,
    scratch: &mut Vec<Entry>,
) -> Result<(), PivotFault>
    requires lines { AreLines columns lines.old }
    requires few { length lines.old < 2 ^ 32 }
    requires row { i < length lines.old }
    requires place { j < columns }
    requires pivot { (get_or (get_or (lines_of columns lines.old) i []) (suc j) zero_ℚ).num ≢ pos 0 }
    ensures formed { let next = pivoted_rows columns i j (lines_of columns lines.old) in
        MatchResult result (λ _. next ≡ Ok (lines_of columns lines.new)) (λ e. IsFault e next) }
    ensures sound { IfOk result (λ _. AreLines columns lines.new) }
{
    let solved = match solved_line(alloc, columns, &lines[i as usize], i, j) {
        Ok(solved) => solved,
        Err(fault) => return Err(fault),
    };
    match replace_lines(columns, lines, &solved, i, j, scratch) {
        Ok(()) => {
            lines[i as usize] = solved;
            Ok(())
        }
        Err(fault) => Err(fault),
    }
}

/// The basic place that leaves: of those with a constant below 0 the one with the least variable.
pub(crate) fn leaving_line(columns: u32, basic: &[usize], lines: &[Line]) -> Option<u32>
    requires few { length lines.now < 2 ^ 32 }
    requires enough { length basic.now < length lines.now }
    ensures place { result ≡ leaving_from basic.now 0 basic.now (lines_of columns lines.now) None }
    ensures within { IfSome result (λ i. i < length basic.now) }
{
    let mut best = None;
    for k in 0..basic.len() {
        if is_negative(lines[k].constant) {
            best = lesser_place(basic, best, k as u32);
        }
    }
    best
}

/// Whether an entry is above 0.
pub(crate) fn rises(columns: u32, entries: &[Entry]) -> bool
    requires { AreEntries columns entries.now }
    ensures { result ≡ has_positive (numbers_from 0 columns entries.now) }
{
    for k in 0..entries.len() {
        if is_positive(entries[k].number) {
            return true;
        }
    }
    false
}

/// The nonbasic place that enters for the leaving row at place i: of those with a coefficient
/// above 0 there the one with the least ratio of minus the objective's coefficient to it.
pub(crate) fn entering_entry(
    nonbasic: &[usize],
    entries: &[Entry],
    objective: &[Entry],
    i: u32,
) -> Result<Option<Candidate>, Place>
    requires few { length nonbasic.now < 2 ^ 32 }
    requires entries { AreEntries (length nonbasic.now) entries.now }
    requires objective { AreEntries (length nonbasic.now) objective.now }
    ensures formed { let n = length nonbasic.now in
        let found = entering_from nonbasic.now i 0 (numbers_from 0 n entries.now) (numbers_from 0 n objective.now) None in
        MatchResult result (λ o. found ≡ Ok (candidate_of o)) (λ e. found ≡ Err e) }
    ensures positive { IfOk result (λ o. IfSome o (λ c. (c.place < length nonbasic.now) × (is_positive (number_of entries.now c.place) ≡ true))) }
{
    let mut best = None;
    for k in 0..entries.len() {
        let entry = entries[k];
        if is_positive(entry.number) {
            let Ok(ratio) = negated(number_of(objective, entry.place)).div(entry.number) else {
                return Err(Place {
                    kind: Kind::Ratio,
                    step: 0,
                    row: i,
                    column: entry.place,
                });
            };
            best = lesser_ratio(nonbasic, best, entry.place, ratio);
        }
    }
    Ok(best)
}
