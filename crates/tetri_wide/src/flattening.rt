// The program by columns.
ghost use Rattle.std.specs.Prelude.{◌≡◌, ◌<◌, ◌+◌, ◌^◌, ℕ, length, map, pos, slice_index_or, IfOk};
ghost use Rattle.std.specs.List.{range_with_len};
ghost use Rattle.tetri_base.specs.Lists.{Each};
ghost use Rattle.tetri_compile.specs.Flat.{coefficient, flat, flat_row, plain, plain_row};
ghost use Rattle.tetri_compile.specs.Small.{IsSmallForm, IsSmallLimit};
ghost use Rattle.tetri_wide.specs.Sketch.{form_of, limit_of, sketch, sketch_draft};

use crate::outline::{Multiple, Outline};
use crate::terms::{terms_between, whole};
use std::alloc::{AllocError, Global};
use tetri_ip::{Program, Row};

// Adds the shares of a form to the numbers of their columns.
fn add_form(form: &[Multiple], numbers: &mut Vec<u128>)
    requires columns { Each (λ s. s.column < length numbers.old.items) (form_of form.now) }
    requires fits { (j : ℕ) → slice_index_or numbers.old.items j 0 + coefficient (form_of form.now) j < 2 ^ 100 }
    ensures count { length numbers.new.items ≡ length numbers.old.items }
    ensures sums { (j : ℕ) → slice_index_or numbers.new.items j 0
        ≡ slice_index_or numbers.old.items j 0 + coefficient (form_of form.now) j }
{
    for one in form {
        numbers[one.column as usize] += u128::from(one.by);
    }
}

// By column, how many times it stands in a form.
fn numbers_of(alloc: Global, form: &[Multiple], count: usize) -> Result<Vec<u128>, AllocError>
    requires few { count < 2 ^ 31 }
    requires small { IsSmallForm count (form_of form.now) }
    ensures count { IfOk result (λ v. length v.items ≡ count) }
    ensures numbers { IfOk result (λ v. (j : ℕ) → slice_index_or v.items j 0 ≡ coefficient (form_of form.now) j) }
{
    let mut numbers = vec![in alloc; 0u128; count]?;
    add_form(form, &mut numbers);
    Ok(numbers)
}

// What each column earns.
fn costs_from(alloc: Global, form: &[Multiple], count: usize) -> Result<Vec<i128>, AllocError>
    requires few { count < 2 ^ 31 }
    requires small { IsSmallForm count (form_of form.now) }
    ensures { IfOk result (λ v. v.items ≡ map (λ j. pos (coefficient (form_of form.now) j)) (range_with_len 0 count)) }
{
    let numbers = numbers_of(alloc, form, count)?;
    let mut costs = Vec::with_capacity(alloc, count)?;
    for column in 0..count {
        costs.push(whole(numbers[column]))?;
    }
    Ok(costs)
}

fn rows_from(alloc: Global, out: &Outline) -> Result<Vec<Row>, AllocError>
    requires few { length out.now.uppers.items < 2 ^ 31 }
    requires small { Each (IsSmallLimit (length out.now.uppers.items)) (map limit_of out.now.rows.items) }
    ensures { IfOk result (λ v. map plain_row v.items
        ≡ map (flat_row (length out.now.uppers.items)) (map limit_of out.now.rows.items)) }
{
    let mut rows = Vec::with_capacity(alloc, out.rows.len())?;
    for limit in &out.rows {
        rows.push(Row {
            terms: terms_between(alloc, &limit.most, &limit.under)?,
            right: i128::from(limit.plus),
        })?;
    }
    Ok(rows)
}

fn bounds_from(alloc: Global, uppers: &[u64]) -> Result<Vec<i128>, AllocError>
    ensures { IfOk result (λ v. v.items ≡ map pos uppers.now) }
{
    let mut bounds = Vec::with_capacity(alloc, uppers.len())?;
    for upper in uppers {
        bounds.push(i128::from(*upper))?;
    }
    Ok(bounds)
}

fn zeros(alloc: Global, uppers: &[u64]) -> Result<Vec<i128>, AllocError>
    ensures { IfOk result (λ v. v.items ≡ map (λ u. pos 0) uppers.now) }
{
    let mut bounds = Vec::with_capacity(alloc, uppers.len())?;
    for _ in uppers {
        bounds.push(0)?;
    }
    Ok(bounds)
}

/// The program of an outline with this objective.
pub fn flatten(alloc: Global, form: &[Multiple], out: &Outline) -> Result<Program, AllocError>
    requires few { length out.now.uppers.items < 2 ^ 31 }
    requires form { IsSmallForm (length out.now.uppers.items) (form_of form.now) }
    requires rows { Each (IsSmallLimit (length out.now.uppers.items)) (map limit_of out.now.rows.items) }
    ensures { IfOk result (λ p. plain p ≡ flat (sketch_draft (sketch out.now) (form_of form.now))) }
{
    let count = out.uppers.len();
    Ok(Program {
        costs: costs_from(alloc, form, count)?,
        lower: zeros(alloc, &out.uppers)?,
        upper: bounds_from(alloc, &out.uppers)?,
        rows: rows_from(alloc, out)?,
    })
}
