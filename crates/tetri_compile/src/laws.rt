// Laws of programs.
ghost use Rattle.std.specs.Prelude.{◌≡◌, ◌≤ℤ◌, All, List, pos};
ghost use lib.IntN.{ℤ};
ghost use Rattle.tetri_ip.specs.Points.{Bounds, IsInBox, IsPoint, box_of, objective};
ghost use Rattle.tetri_compile.specs.Gain.{most_gain};

use tetri_ip::Program;

/// Where the lower bounds of a program are 0, no point of it, or of a region in its box, has an
/// objective above the sum of cost times upper bound over the columns with a cost above 0.
pub fn most_gain_bounds_points(p: &Program)
    requires { All (λ z. z ≡ pos 0) p.now.lower.items }
    ensures points { (point : List ℤ) → IsPoint p.now (box_of p.now) point → objective p.now point ≤ℤ pos (most_gain p.now) }
    ensures regions { (b : Bounds) → IsInBox p.now b → (point : List ℤ) → IsPoint p.now b point
        → objective p.now point ≤ℤ pos (most_gain p.now) }
{}
