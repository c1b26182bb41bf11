//! A dictionary that keeps one row for the two variables of a column, with all its rows written out.

ghost use Rattle.std.specs.Prelude.{◌≡◌, ◌+◌, ◌/◌, ◌<◌, All, length, IfOk};
ghost use Rattle.tetri_dictionary.specs.Mirrors.{IsBounded};
ghost use Rattle.tetri_dictionary.specs.Holders.{AreHolders};
ghost use Rattle.tetri_dictionary.specs.Mixed.{mixed_row, mixed_rows, IsMixedRow, AreMixedRows};
ghost use Rattle.tetri_dictionary.specs.Pairs.{table_of, IsPaired};
ghost use Rattle.tetri_dictionary.specs.Tables.{row_at};
ghost use Rattle.tetri_dictionary.specs.Whole.{table_of as whole_table, IsWhole};

use crate::mixed::{MixedRow, below_of, brought_back};
use crate::pairs::Pairs;
use crate::pairs_numbers::number;
use crate::whole::Whole;
use std::alloc::{AllocError, Global};
use tetri_rows::Terms;

// The row of a basic place or the objective.
fn row_out(alloc: Global, t: &Pairs, i: u32) -> Result<MixedRow, AllocError>
    requires paired { IsPaired t.now }
    requires bounded { All (All IsBounded) (mixed_rows t.now.rows.items) }
    requires place { i < length t.now.origins.items }
    ensures same { IfOk result (λ r. mixed_row r ≡ row_at (table_of t.now) i) }
    ensures sound { IfOk result (λ r. IsMixedRow (length t.now.nonbasic.items) r) }
{
    let columns = t.nonbasic.len() as u32;
    let mut numbers = Vec::new(alloc);
    for k in 0..t.nonbasic.len() + 1 {
        numbers.push(number(t, i, k))?;
    }
    brought_back(alloc, columns, numbers)
}

// The rows of all basic places and the objective.
fn rows_out(alloc: Global, t: &Pairs) -> Result<Vec<MixedRow>, AllocError>
    requires paired { IsPaired t.now }
    requires bounded { All (All IsBounded) (mixed_rows t.now.rows.items) }
    ensures same { IfOk result (λ v. mixed_rows v.items ≡ (table_of t.now).rows) }
    ensures sound { IfOk result (λ v. AreMixedRows (length t.now.nonbasic.items) v.items) }
{
    let mut rows = Vec::new(alloc);
    for i in 0..t.origins.len() {
        rows.push(row_out(alloc, t, i as u32)?)?;
    }
    Ok(rows)
}

// All bits, for each nonbasic place.
fn all_bits(alloc: Global, columns: u32, rows: &[MixedRow]) -> Result<Vec<Vec<u64>>, AllocError>
    ensures { IfOk result (λ h. AreHolders columns h.items (mixed_rows rows.now)) }
{
    let words = rows.len() / 64 + 1;
    let mut holders = Vec::new(alloc);
    for _ in 0..columns {
        holders.push(vec![in alloc; u64::MAX; words]?)?;
    }
    Ok(holders)
}

/// The dictionary with a row for each basic place.
pub(crate) fn written_out(alloc: Global, t: &Pairs) -> Result<Whole, AllocError>
    requires paired { IsPaired t.now }
    requires bounded { All (All IsBounded) (mixed_rows t.now.rows.items) }
    ensures table { IfOk result (λ w. whole_table w ≡ table_of t.now) }
    ensures sound { IfOk result (λ w. IsWhole w) }
{
    let columns = t.nonbasic.len() as u32;
    let rows = rows_out(alloc, t)?;
    let below = below_of(alloc, columns, &rows)?;
    let holders = all_bits(alloc, columns, &rows)?;
    Ok(Whole {
        nonbasic: t.nonbasic.clone()?,
        basic: t.basic.clone()?,
        rows,
        below,
        holders,
        terms: Terms::new(alloc),
    })
}
