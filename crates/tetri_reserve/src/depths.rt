// How deep an expression is.
ghost use Rattle.std.specs.Prelude.{◌≡◌, ◌≤◌};
ghost use Rattle.tetri_strl.specs.Tree.{tree};
ghost use Rattle.tetri_strl.specs.WellMade.{depth};

use tetri_strl::Expr;

// How many parts of an expression stand one in another at most, a leaf being 1 deep.
pub fn depth_of(e: &Expr) -> u32
    requires { depth (tree e.now) ≤ 64 }
    ensures { result ≡ depth (tree e.now) }
{
    match e {
        Expr::One(_) => 1,
        Expr::Max(parts) | Expr::Min(parts) | Expr::Sum(parts) => {
            let mut deepest = 0;
            for part in parts {
                deepest = depth_of(part).max(deepest);
            }
            deepest + 1
        }
        Expr::Scale(part, _) | Expr::Barrier(part, _) => depth_of(part) + 1,
    }
}
