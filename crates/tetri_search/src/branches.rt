//! The columns at which regions are split.

ghost use Rattle.std.specs.Prelude.{◌≡◌, ◌==◌, ◌≤◌, ◌^◌, ◌+ℤ◌, ◌-ℤ◌, ◌≤ℤ◌, length, map, pos};
ghost use Rattle.std.specs.Int.{int_div_euclid};
ghost use Rattle.tetri_num.specs.Frac.{value};
ghost use Rattle.tetri_ip.specs.Points.{IsFit, IsInBox, bounds_of};
ghost use Rattle.tetri_algebra.specs.Range.{IsWithin};
ghost use Rattle.tetri_search.specs.Table.{fractional_from, unfixed_from};

use tetri_ip::{Program, Region};
use tetri_num::Frac;

// A column, and the greatest number of its low side.
#[derive(Clone, Copy)]
pub struct Branch {
    pub column: u32,
    pub at: i128,
}

// The middle of two bounds, rounded down.
fn middle(lower: i128, upper: i128) -> i128
    requires ordered { lower ≤ℤ upper }
    requires width { IsWithin (upper -ℤ lower) }
    ensures { result ≡ lower +ℤ int_div_euclid (upper -ℤ lower) (pos 2) }
{
    lower + (upper - lower).div_euclid(2)
}

// The first column with more than one number, and the middle of its bounds.
pub(crate) fn find_unfixed(p: &Program, r: &Region) -> Option<Branch>
    requires fit { IsFit p.now }
    requires in_box { IsInBox p.now (bounds_of r.now) }
    ensures { result ≡ unfixed_from 0 r.now.lower.items r.now.upper.items }
{
    for j in 0..p.costs.len() {
        let lower = r.lower[j];
        let upper = r.upper[j];
        if lower < upper {
            return Some(Branch {
                column: j as u32,
                at: middle(lower, upper),
            });
        }
    }
    None
}

fn is_whole(x: Frac) -> bool
    ensures { result ≡ ((value x).den == 1) }
{
    x.den == 1
}

// The first column whose number is not whole, and that number's floor.
pub(crate) fn find_fractional(point: &[Frac]) -> Option<Branch>
    requires { length point.now ≤ 2 ^ 32 }
    ensures { result ≡ fractional_from 0 (map value point.now) }
{
    for j in 0..point.len() {
        let x = point[j];
        if !is_whole(x) {
            return Some(Branch {
                column: j as u32,
                at: x.floor(),
            });
        }
    }
    None
}
