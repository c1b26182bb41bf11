// The tests of what an engine proposes.

ghost use Rattle.std.specs.Prelude.{◌≡◌, ◌≤ℤ◌, ◌<ℤ◌, IfSome, IfOk, IsTrue, length, pos, false, true};
ghost use Rattle.tetri_ip.specs.Points.{IsFit, IsInBox, bounds_of};
ghost use Rattle.tetri_ip.specs.Weighed.{weighed};
ghost use Rattle.tetri_swift.specs.Branches.{IsOpen};
ghost use Rattle.tetri_swift.specs.Exact.{IsExact};
ghost use Rattle.tetri_swift.specs.Nodes.{IsFair, IsWorthMore};
ghost use Rattle.tetri_swift.specs.Weights.{Climb, IsAtMost, IsBounded, IsWeighed};

use std::alloc::{AllocError, Global};
use tetri_base::Items;
use tetri_cert::{Licence, Mark, cells_of, frac_cells_of, objective_at};
use tetri_ip::{Program, Region, Weight, holds_point, weigh_over};
use tetri_num::Frac;

const GREATEST: i128 = 18_446_744_073_709_551_615;

// Whether weights ascend by row, each above 0 and of one of the first rows.
fn are_plain(rows: usize, weights: &[Weight]) -> bool
    ensures { IsTrue result → Climb rows 0 weights.now }
{
    let mut least = 0;
    for w in weights {
        let row = w.row as usize;
        if row < least || rows <= row || w.by <= 0 {
            return false;
        }
        least = row + 1;
    }
    true
}

/// The weighed number over a region, where the weights may stand in a mark and it is formed.
pub(crate) fn weighed(
    p: &Program,
    r: &Region,
    factors: &mut [i128],
    q: i128,
    weights: &[Weight],
) -> Option<i128>
    requires fit { IsFit p.now }
    requires in_box { IsInBox p.now (bounds_of r.now) }
    requires length { length factors.old ≡ length p.now.costs.items }
    ensures formed { IfSome result (λ z. IsWeighed p.now (bounds_of r.now) q weights.now) }
    ensures value { IfSome result (λ z. z ≡ weighed p.now (bounds_of r.now) q weights.now) }
{
    if q < 0 || !are_plain(p.rows.len(), weights) {
        return None;
    }
    match weigh_over(p, r, q, weights, factors) {
        Ok(weighed) => Some(weighed),
        Err(_) => None,
    }
}

// Whether the floor of a weighed number over `q` is at most the number, or shows that there is no
// point.
fn is_at_most(q: i128, weighed: i128, most: u64) -> bool
    requires { pos 0 ≤ℤ q }
    ensures { IsTrue result → IsAtMost q weighed most }
{
    if q == 0 {
        return weighed < 0;
    }
    weighed.div_euclid(q) <= most as i128
}

// Whether weights bound the region by a number, or show that it has no point.
fn are_bounding(
    p: &Program,
    r: &Region,
    factors: &mut [i128],
    q: i128,
    weights: &[Weight],
    most: u64,
) -> bool
    requires fit { IsFit p.now }
    requires in_box { IsInBox p.now (bounds_of r.now) }
    requires length { length factors.old ≡ length p.now.costs.items }
    ensures { IsTrue result → IsBounded p.now (bounds_of r.now) q weights.now most }
{
    match weighed(p, r, factors, q, weights) {
        Some(weighed) => is_at_most(q, weighed, most),
        None => false,
    }
}

// Whether weights bound the region by the objective of a point.
fn are_exact(
    p: &Program,
    r: &Region,
    factors: &mut [i128],
    q: i128,
    weights: &[Weight],
    worth: i128,
) -> bool
    requires fit { IsFit p.now }
    requires in_box { IsInBox p.now (bounds_of r.now) }
    requires length { length factors.old ≡ length p.now.costs.items }
    ensures { IsTrue result → IsExact p.now (bounds_of r.now) q weights.now worth }
{
    match weighed(p, r, factors, q, weights) {
        Some(weighed) => {
            if q <= 0 {
                return false;
            }
            weighed.div_euclid(q) <= worth
        }
        None => false,
    }
}

/// The mark of a closed region, where the weights bound it by the best objective known.
pub(crate) fn closed(
    p: &Program,
    r: &Region,
    factors: &mut [i128],
    best: u64,
    q: i128,
    weights: Vec<Weight>,
) -> Option<Mark>
    requires fit { IsFit p.now }
    requires in_box { IsInBox p.now (bounds_of r.now) }
    requires length { length factors.old ≡ length p.now.costs.items }
    ensures { IfSome result (λ m. IsFair p.now (bounds_of r.now) best true m) }
{
    if !are_bounding(p, r, factors, q, &weights, best) {
        return None;
    }
    Some(Mark::Close {
        q,
        weights: Items::of(weights),
    })
}

// The objective of a point of the region, where it is more than the best known and less than 2^64.
fn worth_above(p: &Program, r: &Region, best: u64, point: &[i128]) -> Option<i128>
    requires fit { IsFit p.now }
    requires in_box { IsInBox p.now (bounds_of r.now) }
    ensures { IfSome result (λ z. IsWorthMore p.now (bounds_of r.now) best z point.now) }
{
    if point.len() != p.costs.len() || !holds_point(p, r, point) {
        return None;
    }
    let worth = objective_at(p, point);
    if worth <= best as i128 || GREATEST < worth {
        return None;
    }
    Some(worth)
}

/// The mark of a whole point, where it is one of the region and worth more than the best known, and
/// the weights bound the region by its objective.
pub(crate) fn whole(
    alloc: Global,
    p: &Program,
    r: &Region,
    factors: &mut [i128],
    best: u64,
    q: i128,
    weights: Vec<Weight>,
    point: Vec<i128>,
) -> Result<Option<Mark>, AllocError>
    requires fit { IsFit p.now }
    requires in_box { IsInBox p.now (bounds_of r.now) }
    requires length { length factors.old ≡ length p.now.costs.items }
    ensures { IfOk result (λ o. IfSome o (λ m. IsFair p.now (bounds_of r.now) best true m)) }
{
    let Some(worth) = worth_above(p, r, best, &point) else {
        return Ok(None);
    };
    if !are_exact(p, r, factors, q, &weights, worth) {
        return Ok(None);
    }
    let point = cells_of(alloc, &point)?;
    Ok(Some(Mark::Whole {
        q,
        weights: Items::of(weights),
        worth,
        point,
    }))
}

// Whether a split leaves whole numbers of its column on both sides.
fn is_open(p: &Program, r: &Region, column: u32, at: i128) -> bool
    requires { IsInBox p.now (bounds_of r.now) }
    ensures { IsTrue result → IsOpen p.now (bounds_of r.now) (record { column = column; at = at }) }
{
    let place = column as usize;
    if place >= p.costs.len() {
        return false;
    }
    if at < r.lower[place] {
        return false;
    }
    at < r.upper[place]
}

/// The mark of a split, where it leaves whole numbers of its column on both sides and the point has
/// a fraction for each column.
pub(crate) fn split(
    alloc: Global,
    p: &Program,
    r: &Region,
    best: u64,
    column: u32,
    at: i128,
    point: &[Frac],
) -> Result<Option<Mark>, AllocError>
    requires fit { IsFit p.now }
    requires in_box { IsInBox p.now (bounds_of r.now) }
    ensures { IfOk result (λ o. IfSome o (λ m. IsFair p.now (bounds_of r.now) best true m)) }
{
    if !is_open(p, r, column, at) || point.len() != p.costs.len() {
        return Ok(None);
    }
    let cells = frac_cells_of(alloc, point)?;
    Ok(Some(Mark::Split {
        column,
        at,
        licence: Licence::Point(cells),
    }))
}

// Whether the weights of a rest are weighed over its region.
fn are_weighed(p: &Program, r: &Region, factors: &mut [i128], q: i128, weights: &[Weight]) -> bool
    requires fit { IsFit p.now }
    requires in_box { IsInBox p.now (bounds_of r.now) }
    requires length { length factors.old ≡ length p.now.costs.items }
    ensures above { IsTrue result → pos 0 <ℤ q }
    ensures formed { IsTrue result → IsWeighed p.now (bounds_of r.now) q weights.now }
{
    match weighed(p, r, factors, q, weights) {
        Some(_) => q > 0,
        None => false,
    }
}

/// The mark of a region that is left open, where these weights are weighed over it.
pub(crate) fn rest(
    alloc: Global,
    p: &Program,
    r: &Region,
    factors: &mut [i128],
    best: u64,
    q: i128,
    weights: &[Weight],
) -> Result<Option<Mark>, AllocError>
    requires fit { IsFit p.now }
    requires in_box { IsInBox p.now (bounds_of r.now) }
    requires length { length factors.old ≡ length p.now.costs.items }
    ensures { IfOk result (λ o. IfSome o (λ m. IsFair p.now (bounds_of r.now) best false m)) }
{
    if !are_weighed(p, r, factors, q, weights) {
        return Ok(None);
    }
    let copy = Vec::from_slice(alloc, weights)?;
    Ok(Some(Mark::Rest {
        q,
        weights: Items::of(copy),
    }))
}

/// The mark of a region that is left open, with no weights.
pub(crate) fn plain_rest(alloc: Global, p: &Program, r: &Region, best: u64) -> Mark
    requires fit { IsFit p.now }
    requires in_box { IsInBox p.now (bounds_of r.now) }
    ensures { IsFair p.now (bounds_of r.now) best false result }
{
    Mark::Rest {
        q: 1,
        weights: Items::new(alloc),
    }
}
