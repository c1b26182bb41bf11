//! The points of a region.

ghost use Rattle.std.specs.Prelude.{◌≡◌, ◌↔◌, ℕ, ◌<◌, ◌^◌, length, IsTrue};
ghost use Rattle.tetri_ip.specs.Points.{IsBetween, IsFit, IsInBox, IsPoint, MeetsRows, bounds_of, column_at, first_unmet_from, left_side, sizes};

use crate::programs::{Program, Region, Row};

fn is_inside(r: &Region, point: &[i128]) -> bool
    requires lower { length r.now.lower.items ≡ length point.now }
    requires upper { length r.now.upper.items ≡ length point.now }
    ensures { IsTrue result ↔ IsBetween (length point.now) r.now.lower.items point.now r.now.upper.items }
{
    for j in 0..point.len() {
        if point[j] < r.lower[j] {
            return false;
        }
        if r.upper[j] < point[j] {
            return false;
        }
    }
    true
}

/// The left side of a row at a point.
pub fn left_side(row: &Row, point: &[i128]) -> i128
    requires columns { (k : ℕ) → k < length row.now.terms.items → column_at row.now.terms.items k < length point.now }
    requires in_range { sizes row.now.terms.items point.now < 2 ^ 127 }
    ensures { result ≡ left_side row.now.terms.items point.now }
{
    let mut sum = 0;
    for term in &row.terms {
        let part = term.by * point[term.column as usize];
        sum += part;
    }
    sum
}

/// The first row that a point in the program's box breaks.
pub fn first_unmet(p: &Program, point: &[i128]) -> Option<usize>
    requires fit { IsFit p.now }
    requires count { length point.now ≡ length p.now.costs.items }
    requires in_box { IsBetween (length p.now.costs.items) p.now.lower.items point.now p.now.upper.items }
    ensures { result ≡ first_unmet_from 0 p.now.rows.items point.now }
{
    for i in 0..p.rows.len() {
        let row = &p.rows[i];
        if row.right < left_side(row, point) {
            return Some(i);
        }
    }
    None
}

fn meets_rows(p: &Program, point: &[i128]) -> bool
    requires fit { IsFit p.now }
    requires count { length point.now ≡ length p.now.costs.items }
    requires in_box { IsBetween (length p.now.costs.items) p.now.lower.items point.now p.now.upper.items }
    ensures { IsTrue result ↔ MeetsRows p.now.rows.items point.now }
{
    first_unmet(p, point).is_none()
}

/// Whether one number for each column lies in the region and meets every row.
pub fn holds_point(p: &Program, r: &Region, point: &[i128]) -> bool
    requires fit { IsFit p.now }
    requires in_box { IsInBox p.now (bounds_of r.now) }
    requires count { length point.now ≡ length p.now.costs.items }
    ensures { IsTrue result ↔ IsPoint p.now (bounds_of r.now) point.now }
{
    if !is_inside(r, point) {
        return false;
    }
    meets_rows(p, point)
}
