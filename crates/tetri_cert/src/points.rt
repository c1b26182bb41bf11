// The point of a Whole node.

ghost use Rattle.std.specs.Prelude.{◌≡◌, ◌&&◌, length, IfOk};
ghost use Rattle.tetri_ip.specs.Points.{IsFit, IsBetween, IsInBox, bounds_of, objective};
ghost use Rattle.tetri_cert.specs.Cells.{AreOfColumns, are_of_columns, is_point, is_same, is_whole_point, point_of};

use crate::marks::Cell;
use std::alloc::{AllocError, Global};
use tetri_ip::{Program, Region, holds_point};

/// The objective at one number for each column, each within the program's box.
pub fn objective_at(p: &Program, point: &[i128]) -> i128
    requires fit { IsFit p.now }
    requires count { length point.now ≡ length p.now.costs.items }
    requires inside { IsBetween (length p.now.costs.items) p.now.lower.items point.now p.now.upper.items }
    ensures { result ≡ objective p.now point.now }
{
    let mut sum = 0;
    for j in 0..p.costs.len() {
        let part = p.costs[j] * point[j];
        sum += part;
    }
    sum
}

fn is_same(x: i128, y: i128) -> bool
    ensures { result ≡ is_same x y }
{
    x <= y && y <= x
}

fn are_of_columns(count: usize, cells: &[Cell]) -> bool
    ensures { result ≡ are_of_columns count cells.now }
{
    for cell in cells {
        if cell.column as usize >= count {
            return false;
        }
    }
    true
}

/// The point of these cells, 0 at each of the columns that has none. Its only error is want of memory.
pub fn point_of(alloc: Global, count: usize, cells: &[Cell]) -> Result<Vec<i128>, AllocError>
    requires { AreOfColumns count cells.now }
    ensures { IfOk result (λ v. v.items ≡ point_of count cells.now) }
{
    let mut point = vec![in alloc; 0i128; count]?;
    for cell in cells {
        point[cell.column as usize] = cell.value;
    }
    Ok(point)
}

// Whether the numbers are a point of the region, with this objective.
fn is_point_worth(p: &Program, r: &Region, worth: i128, point: &[i128]) -> bool
    requires fit { IsFit p.now }
    requires in_box { IsInBox p.now (bounds_of r.now) }
    requires count { length point.now ≡ length p.now.costs.items }
    ensures { result ≡ (is_point p.now (bounds_of r.now) point.now && is_same worth (objective p.now point.now)) }
{
    if !holds_point(p, r, point) {
        return false;
    }
    is_same(worth, objective_at(p, point))
}

/// Whether a Whole node's cells are of a point of its region, with this worth.
pub(crate) fn is_whole_point(
    alloc: Global,
    p: &Program,
    r: &Region,
    worth: i128,
    cells: &[Cell],
) -> Result<bool, AllocError>
    requires fit { IsFit p.now }
    requires in_box { IsInBox p.now (bounds_of r.now) }
    ensures { IfOk result (λ b. b ≡ is_whole_point p.now (bounds_of r.now) worth cells.now) }
{
    let count = p.costs.len();
    if !are_of_columns(count, cells) {
        return Ok(false);
    }
    let point = point_of(alloc, count, cells)?;
    Ok(is_point_worth(p, r, worth, &point))
}
