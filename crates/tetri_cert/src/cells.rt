// The cells of a point.

ghost use Rattle.std.specs.Prelude.{◌≡◌, ◌++◌, ◌≤◌, ◌^◌, IfOk, OnOk, Some, length, map};
ghost use Rattle.tetri_num.specs.Frac.{value};
ghost use Rattle.tetri_cert.specs.Cells.{cell_at, cells_of, frac_cell_at, frac_cells_of};

use crate::marks::{Cell, FracCell};
use std::alloc::{AllocError, Global};
use tetri_base::Items;
use tetri_num::Frac;

fn add_cell(cells: &mut Items<Cell>, column: u32, value: i128) -> Result<(), AllocError>
    ensures { OnOk result (cells.new ≡ cells.old ++ cell_at column value) }
{
    if value == 0 {
        return Ok(());
    }
    cells.push(Cell { column, value })
}

/// The numbers of a point that are not 0, by column. Its only error is want of memory.
pub fn cells_of(alloc: Global, point: &[i128]) -> Result<Items<Cell>, AllocError>
    requires { length point.now ≤ 2 ^ 32 }
    ensures { IfOk result (λ cells. cells ≡ cells_of point.now) }
{
    let mut cells = Items::new(alloc);
    for j in 0..point.len() {
        add_cell(&mut cells, j as u32, point[j])?;
    }
    Ok(cells)
}

fn add_frac_cell(cells: &mut Items<FracCell>, column: u32, value: Frac) -> Result<(), AllocError>
    ensures { OnOk result (cells.new ≡ cells.old ++ frac_cell_at column (Some value)) }
{
    if value.num == 0 {
        return Ok(());
    }
    cells.push(FracCell { column, value })
}

/// The fractions of a point that are not 0, by column. Its only error is want of memory.
pub fn frac_cells_of(alloc: Global, point: &[Frac]) -> Result<Items<FracCell>, AllocError>
    requires { length point.now ≤ 2 ^ 32 }
    ensures { IfOk result (λ cells. cells ≡ frac_cells_of (map value point.now)) }
{
    let mut cells = Items::new(alloc);
    for j in 0..point.len() {
        add_frac_cell(&mut cells, j as u32, point[j])?;
    }
    Ok(cells)
}
