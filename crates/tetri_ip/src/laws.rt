//! The law of weighing: weak duality of linear programs over bounded columns.

ghost use Rattle.std.specs.Prelude.{◌≡◌, List, pos, ◌*ℤ◌, ◌≤ℤ◌, ◌<ℤ◌};
ghost use lib.IntN.{ℤ};
ghost use Rattle.tetri_ip.specs.Points.{Bounds, IsPoint, objective};
ghost use Rattle.tetri_ip.specs.Weighed.{AreNotNegative, weighed};

use crate::programs::{Program, Weight};

/// No point of a region has `q` times its objective above the weighed number,
/// where no weight and not `q` is below 0; and a region with a weighed number
/// below 0 for `q` 0 has no point.
pub fn weighed_bounds_points(p: &Program, q: i128, weights: &[Weight])
    requires { AreNotNegative weights.now }
    ensures bounded { (b : Bounds) → (point : List ℤ) → IsPoint p.now b point →
        (q *ℤ objective p.now point) ≤ℤ weighed p.now b q weights.now }
    ensures no_point { (b : Bounds) → (point : List ℤ) → q ≡ pos 0 → weighed p.now b q weights.now <ℤ pos 0 →
        IsPoint p.now b point → ⊥ }
{}
