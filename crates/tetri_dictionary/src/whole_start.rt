//! The first dictionary of whole numbers.

ghost use Rattle.std.specs.Prelude.{◌≡◌, ◌++◌, length, map, IfOk};
ghost use Rattle.tetri_algebra.specs.Rational.{whole_ℚ};
ghost use Rattle.tetri_ip.specs.Points.{IsFit, IsInBox, bounds_of};
ghost use Rattle.tetri_dictionary.specs.Mixed.{mixed_rows, AreMixedRows};
ghost use Rattle.tetri_dictionary.specs.Start.{IsStart, bound_rows, first_table, slack_row};
ghost use Rattle.tetri_dictionary.specs.Whole.{table_of, IsWhole};

use crate::first_rows::{bound, objective, slack};
use crate::holders::holders_of;
use crate::mixed::{MixedRow, below_of};
use crate::start::{corner, numbers_from, width_at};
use crate::whole::Whole;
use std::alloc::{AllocError, Global};
use tetri_ip::{Program, Region};
use tetri_rows::Terms;

// The slacks of the program's rows.
fn slacks(alloc: Global, p: &Program, start: &[i128]) -> Result<Vec<MixedRow>, AllocError>
    requires fit { IsFit p.now }
    requires start { IsStart p.now start.now }
    ensures numbers { IfOk result (λ v. mixed_rows v.items
        ≡ map (map whole_ℚ) (map (slack_row p.now.costs.items start.now) p.now.rows.items)) }
    ensures sound { IfOk result (λ v. AreMixedRows (length p.now.costs.items) v.items) }
{
    let mut rows = Vec::with_capacity(alloc, p.rows.len())?;
    for i in 0..p.rows.len() {
        rows.push(slack(alloc, p, &p.rows[i], start)?)?;
    }
    Ok(rows)
}

// The rows with the slacks of the columns' bounds behind them.
fn with_bounds(
    alloc: Global,
    p: &Program,
    r: &Region,
    mut rows: Vec<MixedRow>,
) -> Result<Vec<MixedRow>, AllocError>
    requires fit { IsFit p.now }
    requires in_box { IsInBox p.now (bounds_of r.now) }
    requires sound { AreMixedRows (length p.now.costs.items) rows.items }
    ensures numbers { IfOk result (λ v. mixed_rows v.items ≡ mixed_rows rows.items
        ++ map (map whole_ℚ) (bound_rows 0 p.now.costs.items r.now.lower.items r.now.upper.items)) }
    ensures sound { IfOk result (λ v. AreMixedRows (length p.now.costs.items) v.items) }
{
    for j in 0..p.costs.len() {
        rows.push(bound(alloc, p, j, width_at(p, r, j))?)?;
    }
    Ok(rows)
}

/// The first dictionary of a program over a region.
pub(crate) fn first_whole(alloc: Global, p: &Program, r: &Region) -> Result<Whole, AllocError>
    requires fit { IsFit p.now }
    requires in_box { IsInBox p.now (bounds_of r.now) }
    ensures table { IfOk result (λ t. table_of t ≡ first_table p.now (bounds_of r.now)) }
    ensures sound { IfOk result (λ t. IsWhole t) }
{
    let start = corner(alloc, p, r)?;
    let slacks = slacks(alloc, p, &start)?;
    let mut rows = with_bounds(alloc, p, r, slacks)?;
    rows.push(objective(alloc, p, &start)?)?;
    let columns = p.costs.len();
    let below = below_of(alloc, columns as u32, &rows)?;
    let holders = holders_of(alloc, columns as u32, &rows)?;
    let nonbasic = numbers_from(alloc, 0, columns)?;
    let basic = numbers_from(alloc, columns, p.rows.len() + columns)?;
    Ok(Whole {
        nonbasic,
        basic,
        rows,
        below,
        holders,
        terms: Terms::new(alloc),
    })
}
