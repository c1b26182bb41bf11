// The program by columns.
ghost use Rattle.std.specs.Prelude.{◌≡◌, ◌<◌, ◌≤◌, ◌+◌, ◌^◌, ℕ, length, map, pos, slice_index_or, IfOk};
ghost use Rattle.std.specs.List.{range_with_len};
ghost use Rattle.tetri_base.specs.Lists.{Each};
ghost use Rattle.tetri_compile.specs.Flat.{coefficient, count_of, flat, flat_row, plain, plain_row};
ghost use Rattle.tetri_compile.specs.Forms.{plain_limit};
ghost use Rattle.tetri_compile.specs.Small.{IsSmallForm, IsSmallLimit};

use crate::compiling::Count;
use crate::outline::{Outline, Share, Tally};
use crate::terms::terms_between;
use std::alloc::{AllocError, Global};
use tetri_ip::{Program, Row};

// Adds the shares of a form to the numbers of their columns.
fn add_form(form: &[Share], numbers: &mut Vec<u64>)
    requires columns { Each (λ s. s.column < length numbers.old.items) form.now }
    requires fits { (j : ℕ) → slice_index_or numbers.old.items j 0 + coefficient form.now j < 2 ^ 64 }
    ensures count { length numbers.new.items ≡ length numbers.old.items }
    ensures sums { (j : ℕ) → slice_index_or numbers.new.items j 0 ≡ slice_index_or numbers.old.items j 0 + coefficient form.now j }
{
    for share in form {
        numbers[share.column as usize] += share.by;
    }
}

// By column, how many times it stands in a form.
fn numbers_of(alloc: Global, form: &[Share], count: usize) -> Result<Vec<u64>, AllocError>
    requires few { count ≤ 2000 }
    requires small { IsSmallForm count form.now }
    ensures count { IfOk result (λ v. length v.items ≡ count) }
    ensures numbers { IfOk result (λ v. (j : ℕ) → slice_index_or v.items j 0 ≡ coefficient form.now j) }
{
    let mut numbers = vec![in alloc; 0u64; count]?;
    add_form(form, &mut numbers);
    Ok(numbers)
}

fn rows_from(alloc: Global, out: &Outline) -> Result<Vec<Row>, AllocError>
    requires few { length out.now.uppers.items ≤ 2000 }
    requires small { Each (IsSmallLimit (length out.now.uppers.items)) (map plain_limit out.now.rows.items) }
    ensures { IfOk result (λ v. map plain_row v.items ≡ map (flat_row (length out.now.uppers.items)) (map plain_limit out.now.rows.items)) }
{
    let mut rows = Vec::with_capacity(alloc, out.rows.len())?;
    for limit in &out.rows {
        rows.push(Row {
            terms: terms_between(alloc, &limit.most, &limit.under)?,
            right: i128::from(limit.plus),
        })?;
    }
    Ok(rows)
}

// What each column earns.
fn costs_from(alloc: Global, form: &[Share], count: usize) -> Result<Vec<i128>, AllocError>
    requires few { count ≤ 2000 }
    requires small { IsSmallForm count form.now }
    ensures { IfOk result (λ v. v.items ≡ map (λ j. pos (coefficient form.now j)) (range_with_len 0 count)) }
{
    let numbers = numbers_of(alloc, form, count)?;
    let mut costs = Vec::with_capacity(alloc, count)?;
    for column in 0..count {
        costs.push(i128::from(numbers[column]))?;
    }
    Ok(costs)
}

fn bounds_from(alloc: Global, uppers: &[u64]) -> Result<Vec<i128>, AllocError>
    ensures { IfOk result (λ v. v.items ≡ map pos uppers.now) }
{
    let mut bounds = Vec::with_capacity(alloc, uppers.len())?;
    for upper in uppers {
        bounds.push(i128::from(*upper))?;
    }
    Ok(bounds)
}

fn zeros(alloc: Global, uppers: &[u64]) -> Result<Vec<i128>, AllocError>
    ensures { IfOk result (λ v. v.items ≡ map (λ u. pos 0) uppers.now) }
{
    let mut bounds = Vec::with_capacity(alloc, uppers.len())?;
    for _ in uppers {
        bounds.push(0)?;
    }
    Ok(bounds)
}

/// The program of an outline with this objective.
pub fn flatten(alloc: Global, form: &[Share], out: &Outline) -> Result<Program, AllocError>
    requires few { length out.now.uppers.items ≤ 2000 }
    requires form { IsSmallForm (length out.now.uppers.items) form.now }
    requires rows { Each (IsSmallLimit (length out.now.uppers.items)) (map plain_limit out.now.rows.items) }
    ensures { IfOk result (λ p. plain p ≡ flat (record {
      uppers = out.now.uppers.items;
      objective = form.now;
      rows = map plain_limit out.now.rows.items;
      tallies = out.now.tallies.items;
    })) }
{
    let count = out.uppers.len();
    Ok(Program {
        costs: costs_from(alloc, form, count)?,
        lower: zeros(alloc, &out.uppers)?,
        upper: bounds_from(alloc, &out.uppers)?,
        rows: rows_from(alloc, out)?,
    })
}

/// The columns that count nodes.
pub fn counts_from(alloc: Global, tallies: &[Tally]) -> Result<Vec<Count>, AllocError>
    ensures { IfOk result (λ v. v.items ≡ map count_of tallies.now) }
{
    let mut counts = Vec::with_capacity(alloc, tallies.len())?;
    for tally in tallies {
        counts.push(Count {
            column: tally.column,
            job: tally.job,
            leaf: tally.leaf.num,
            part: tally.part,
        })?;
    }
    Ok(counts)
}
