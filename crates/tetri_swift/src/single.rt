// Regions of one point, and the columns that are open in others.

ghost use Rattle.std.specs.Prelude.{◌≡◌, ◌<◌, ◌^◌, ◌-ℤ◌, ◌<ℤ◌, ◌≤ℤ◌, All, IfOk, MatchOption, pos, true};
ghost use Rattle.tetri_algebra.specs.Range.{IsWithin};
ghost use Rattle.tetri_compile.specs.Gain.{most_gain};
ghost use Rattle.tetri_ip.specs.Points.{IsFit, IsInBox, bounds_of};
ghost use Rattle.tetri_ip.specs.Weighed.{once};
ghost use Rattle.tetri_search.specs.Table.{single_mark};
ghost use Rattle.tetri_swift.specs.Nodes.{IsFair};
ghost use Rattle.tetri_swift.specs.Branches.{IsOpen};

use std::alloc::{AllocError, Global};
use tetri_base::Items;
use tetri_cert::{Licence, Mark, cells_of, objective_at};
use tetri_ip::{Program, Region, Weight, first_unmet};
use tetri_num::Place;

// A column, and the greatest number of its low side.
#[derive(Clone, Copy)]
pub(crate) struct Branch {
    pub(crate) column: u32,
    pub(crate) at: i128,
}

// The middle of two bounds, rounded down.
fn middle(lower: i128, upper: i128) -> i128
    requires ordered { lower <ℤ upper }
    requires width { IsWithin (upper -ℤ lower) }
    ensures above { lower ≤ℤ result }
    ensures below { result <ℤ upper }
{
    lower + (upper - lower).div_euclid(2)
}

/// The first column with more than one number, and the middle of its bounds; none where the region
/// is one point.
pub(crate) fn find_open(p: &Program, r: &Region) -> Option<Branch>
    requires fit { IsFit p.now }
    requires in_box { IsInBox p.now (bounds_of r.now) }
    ensures { MatchOption result (r.now.lower.items
        ≡ r.now.upper.items) (λ s. IsOpen p.now (bounds_of r.now) s) }
{
    for j in 0..p.costs.len() {
        let lower = r.lower[j];
        let upper = r.upper[j];
        if lower < upper {
            return Some(Branch {
                column: j as u32,
                at: middle(lower, upper),
            });
        }
    }
    None
}

/// The mark of a split in the middle of an open column.
pub(crate) fn middle_mark(
    p: &Program,
    r: &Region,
    best: u64,
    branch: Branch,
    past: Option<Place>,
) -> Mark
    requires fit { IsFit p.now }
    requires in_box { IsInBox p.now (bounds_of r.now) }
    requires branch { IsOpen p.now (bounds_of r.now) branch }
    ensures { IsFair p.now (bounds_of r.now) best true result }
{
    let licence = match past {
        Some(place) => Licence::Past(place),
        None => Licence::Long,
    };
    Mark::Split {
        column: branch.column,
        at: branch.at,
        licence,
    }
}

fn once(alloc: Global, row: u32) -> Result<Items<Weight>, AllocError>
    ensures { IfOk result (λ w. w ≡ once row) }
{
    let mut weights = Items::new(alloc);
    weights.push(Weight { row, by: 1 })?;
    Ok(weights)
}

// The mark of a region of one point: closed by the first row that the point breaks, or by its
// objective, else a whole point.
fn mark_at(alloc: Global, p: &Program, r: &Region, best: u64) -> Result<Mark, AllocError>
    requires fit { IsFit p.now }
    requires in_box { IsInBox p.now (bounds_of r.now) }
    ensures { IfOk result (λ m. m ≡ single_mark p.now (bounds_of r.now) best) }
{
    if let Some(row) = first_unmet(p, &r.lower) {
        let weights = once(alloc, row as u32)?;
        return Ok(Mark::Close { q: 0, weights });
    }
    let worth = objective_at(p, &r.lower);
    if worth <= best as i128 {
        return Ok(Mark::Close {
            q: 1,
            weights: Items::new(alloc),
        });
    }
    let point = cells_of(alloc, &r.lower)?;
    Ok(Mark::Whole {
        q: 1,
        weights: Items::new(alloc),
        worth,
        point,
    })
}

/// The mark of a region of one point.
pub(crate) fn single_mark(
    alloc: Global,
    p: &Program,
    r: &Region,
    best: u64,
) -> Result<Mark, AllocError>
    requires fit { IsFit p.now }
    requires in_box { IsInBox p.now (bounds_of r.now) }
    requires zero { All (λ z. z ≡ pos 0) p.now.lower.items }
    requires bounded { most_gain p.now < 2 ^ 64 }
    requires single { r.now.lower.items ≡ r.now.upper.items }
    ensures { IfOk result (λ m. IsFair p.now (bounds_of r.now) best true m) }
{
    let mark = mark_at(alloc, p, r, best)?;
    Ok(mark)
}
