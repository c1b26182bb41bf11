//! What the end of a run says of the program over the region, and what the points of the
//! relaxation have to do with whole points.

ghost use Rattle.std.specs.Prelude.{◌≡◌, ◌≢◌, ◌<◌, ℕ, List, length, map, All, ◌≤ℤ◌, ◌<ℤ◌};
ghost use Rattle.tetri_algebra.specs.Rational.{ℚ, whole_ℚ};
ghost use Rattle.tetri_algebra.specs.RationalOrder.{◌≤ℚ◌, floor_ℚ};
ghost use lib.IntN.{ℤ};
ghost use Rattle.tetri_ip.specs.Points.{Bounds, IsInBox, IsPoint, number_at, objective};
ghost use Rattle.tetri_ip.specs.declared.programs.Program.{Program};
ghost use Rattle.tetri_ip.specs.declared.programs.Weight.{Weight};
ghost use Rattle.tetri_simplex.specs.Certificates.{Certifies};
ghost use Rattle.tetri_simplex.specs.Ends.{best};
ghost use Rattle.tetri_simplex.specs.Machine.{machine};
ghost use Rattle.tetri_simplex.specs.Relaxation.{IsRelaxedPoint, IsWhole, coordinate, numerators, objective_value};

/// What the ends of a run certify, for every program, every region in its box and every best
/// objective known. The weights of each end are of the program's rows, ascend by row, are above 0
/// and in range, and the weighed number is formed with them. The multiplier of the first two is
/// above 0. With the best point, the point is in the region and meets each row, the floor of its
/// objective is above the best objective known, and the weighed number is the multiplier times
/// its objective, so that no point of the region, whole or not, is worth more. With a cut, the floor of
/// the weighed number by the multiplier is at most the best objective known. With an empty
/// region, the number weighed with the multiplier 0 is below 0.
pub fn ends_certify()
    ensures certified { (p : Program) (b : Bounds) (known : ℕ) → IsInBox p b →
        Certifies p b known (machine p b known) }
    ensures best { (p : Program) (b : Bounds) (known : ℕ) (point other : List ℚ) (q : ℤ) (ws : List Weight) →
        IsInBox p b → machine p b known ≡ best point q ws → IsRelaxedPoint p b other →
        objective_value p other ≤ℚ objective_value p point }
{}

/// A point of the relaxation whose coordinates are whole is a point of the region with the same
/// objective, and its coordinates are their numerators. At a coordinate that is not whole, the
/// floor is at least the lower bound and below the upper one.
pub fn relaxed_points()
    ensures point { (p : Program) (b : Bounds) (point : List ℚ) → IsRelaxedPoint p b point → All IsWhole point →
        IsPoint p b (numerators point) }
    ensures same { (point : List ℚ) → All IsWhole point → map whole_ℚ (numerators point) ≡ point }
    ensures worth { (p : Program) (point : List ℚ) → All IsWhole point →
        whole_ℚ (objective p (numerators point)) ≡ objective_value p point }
    ensures between { (p : Program) (b : Bounds) (point : List ℚ) (j : ℕ) → IsRelaxedPoint p b point → j < length p.costs.items →
        (IsWhole (coordinate point j) → ⊥) →
        (number_at b.lower j ≤ℤ floor_ℚ (coordinate point j)) × (floor_ℚ (coordinate point j) <ℤ number_at b.upper j) }
{}
