//! Dictionaries that keep one row for the two variables of a column while all rows are of short whole numbers.

ghost use Rattle.std.specs.Prelude.{◌≡◌, ◌≢◌, ◌<◌, length, get_or, suc, pos, Ok, IfOk, MatchResult};
ghost use Rattle.tetri_algebra.specs.RationalRing.{zero_ℚ};
ghost use Rattle.tetri_ip.specs.Points.{IsFit, IsInBox, bounds_of};
ghost use Rattle.tetri_dictionary.specs.Faults.{IsFault};
ghost use Rattle.tetri_dictionary.specs.Forms.{form_table, IsForm, IsNext, IsPivotedTo};
ghost use Rattle.tetri_dictionary.specs.Pairs.{table_of as pairs_table, IsPairs};
ghost use Rattle.tetri_dictionary.specs.Pivots.{pivoted};
ghost use Rattle.tetri_dictionary.specs.Start.{first_table};
ghost use Rattle.tetri_dictionary.specs.Tables.{row_at};
ghost use Rattle.tetri_dictionary.specs.Whole.{table_of as whole_table, IsWhole};

use crate::choices::Candidate;
use crate::dictionary::Dictionary;
use crate::fault::PivotFault;
use crate::mixed::leaving_row;
use crate::pairs::Pairs;
use crate::pairs_entering::place_enters;
use crate::pairs_numbers::{number, place_rises};
use crate::pairs_out::written_out;
use crate::pairs_pivot::{keep_row, pivot_kept};
use crate::pairs_start::first_pairs;
use crate::whole::Whole;
use crate::whole_start::first_whole;
use std::alloc::{AllocError, Global};
use tetri_ip::{Program, Region};
use tetri_num::{Frac, Place};

// What a dictionary keeps.
#[derive(Drop)]
pub(crate) enum Form {
    Pairs(Pairs),
    Whole(Whole),
}

/// A dictionary that keeps one row for a column's variable and the slack of its bound, while all rows are of short
/// whole numbers, and from the first row on that is not, a row for each basic variable, as [`Whole`](crate::Whole).
#[derive(Drop)]
pub struct Mirrored {
    pub(crate) form: Form,
}

// The first form of a program over a region.
fn first_form(alloc: Global, p: &Program, r: &Region) -> Result<Form, AllocError>
    requires fit { IsFit p.now }
    requires in_box { IsInBox p.now (bounds_of r.now) }
    ensures first { IfOk result (λ f. form_table f ≡ first_table p.now (bounds_of r.now)) }
    ensures sound { IfOk result (λ f. IsForm f) }
{
    if let Some(pairs) = first_pairs(alloc, p, r)? {
        return Ok(Form::Pairs(pairs));
    }
    Ok(Form::Whole(first_whole(alloc, p, r)?))
}

// Exchanges the variables of a row and of a column where all rows are written out.
fn pivot_whole(alloc: Global, whole: Whole, row: u32, column: u32) -> Result<Whole, PivotFault>
    requires sound { IsWhole whole }
    requires row { row < length whole.basic.items }
    requires column { column < length whole.nonbasic.items }
    requires pivot { (get_or (row_at (whole_table whole) row) (suc column) zero_ℚ).num ≢ pos 0 }
    ensures formed { let next = pivoted (whole_table whole) row column in
        MatchResult result (λ w. IsNext next (IsWhole w) (whole_table w)) (λ e. IsFault e next) }
{
    let mut next = whole;
    match next.pivot(alloc, row, column) {
        Ok(()) => Ok(next),
        Err(fault) => Err(fault),
    }
}

// Exchanges the variables of a row and of a column. Answers the dictionary with all rows where a row is not of short
// whole numbers any more.
fn pivot_pairs(
    alloc: Global,
    t: &mut Pairs,
    row: u32,
    column: u32,
) -> Result<Option<Whole>, PivotFault>
    requires sound { IsPairs t.old }
    requires row { row < length t.old.basic.items }
    requires column { column < length t.old.nonbasic.items }
    requires pivot { (get_or (row_at (pairs_table t.old) row) (suc column) zero_ℚ).num ≢ pos 0 }
    ensures formed { let next = pivoted (pairs_table t.old) row column in
        MatchResult result (λ o. IsPivotedTo next t.new o) (λ e. IsFault e next) }
{
    let Some(kept) = keep_row(t, row) else {
        let whole = written_out(alloc, t)?;
        return Ok(Some(pivot_whole(alloc, whole, row, column)?));
    };
    if pivot_kept(alloc, t, row, kept, column)? {
        return Ok(None);
    }
    Ok(Some(written_out(alloc, t)?))
}

impl Dictionary for Mirrored {
    ghost use Rattle.tetri_dictionary.specs.Forms.{form_table, IsForm};

    ghost table = { λ t. form_table t.form };

    ghost is_sound = { λ t. IsForm t.form };

    fn start(alloc: Global, p: &Program, r: &Region) -> Result<Self, AllocError> {
        Ok(Mirrored {
            form: first_form(alloc, p, r)?,
        })
    }

    fn nonbasic(&self) -> &[usize] {
        match &self.form {
            Form::Pairs(t) => &t.nonbasic,
            Form::Whole(w) => &w.nonbasic,
        }
    }

    fn basic(&self) -> &[usize] {
        match &self.form {
            Form::Pairs(t) => &t.basic,
            Form::Whole(w) => &w.basic,
        }
    }

    fn at(&self, row: u32, column: u32) -> Frac {
        match &self.form {
            Form::Pairs(t) => {
                if column as usize == t.nonbasic.len() {
                    number(t, row, 0)
                } else {
                    number(t, row, column as usize + 1)
                }
            }
            Form::Whole(w) => w.at(row, column),
        }
    }

    fn leaving(&self) -> Option<u32> {
        match &self.form {
            Form::Pairs(t) => leaving_row(&t.basic, &t.below),
            Form::Whole(w) => w.leaving(),
        }
    }

    fn rises(&self, row: u32) -> bool {
        match &self.form {
            Form::Pairs(t) => place_rises(t, row),
            Form::Whole(w) => w.rises(row),
        }
    }

    fn entering(&self, row: u32) -> Result<Option<Candidate>, Place> {
        match &self.form {
            Form::Pairs(t) => place_enters(t, row),
            Form::Whole(w) => w.entering(row),
        }
    }

    fn pivot(&mut self, alloc: Global, row: u32, column: u32) -> Result<(), PivotFault> {
        let written = match &mut self.form {
            Form::Pairs(t) => pivot_pairs(alloc, t, row, column)?,
            Form::Whole(w) => return w.pivot(alloc, row, column),
        };
        if let Some(whole) = written {
            self.form = Form::Whole(whole);
        }
        Ok(())
    }
}
