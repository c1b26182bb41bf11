// Whether leaves start together.
ghost use Rattle.std.specs.Prelude.{◌≡◌, ◌↔◌, IsTrue};
ghost use Rattle.tetri_strl.specs.Tree.{tree};
ghost use Rattle.tetri_strl.specs.WellMade.{IsSound};
ghost use Rattle.tetri_strl.specs.Aligned.{EachLeaf, IsAligned, StartsAt, first_start};

use crate::expr::Expr;

/// Whether all leaves below each `min` and each sum start in one slot. Takes no memory.
pub fn aligned(e: &Expr) -> bool
    requires { IsSound (tree e.now) }
    ensures { IsTrue result ↔ IsAligned (tree e.now) }
{
    match e {
        Expr::One(_) => true,
        Expr::Max(parts) => {
            for part in parts {
                if !aligned(part) {
                    return false;
                }
            }
            true
        }
        Expr::Min(_) | Expr::Sum(_) => all_start_at(e, start_of(e)),
        Expr::Scale(part, _) | Expr::Barrier(part, _) => aligned(part),
    }
}

// The start of the first leaf.
fn start_of(e: &Expr) -> u32
    requires { IsSound (tree e.now) }
    ensures { result ≡ first_start (tree e.now) }
{
    match e {
        Expr::One(leaf) => leaf.start,
        Expr::Max(parts) | Expr::Min(parts) | Expr::Sum(parts) => start_of(&parts[0]),
        Expr::Scale(part, _) | Expr::Barrier(part, _) => start_of(part),
    }
}

fn all_start_at(e: &Expr, start: u32) -> bool
    ensures { IsTrue result ↔ EachLeaf (StartsAt start) (tree e.now) }
{
    match e {
        Expr::One(leaf) => leaf.start == start,
        Expr::Max(parts) | Expr::Min(parts) | Expr::Sum(parts) => {
            for part in parts {
                if !all_start_at(part, start) {
                    return false;
                }
            }
            true
        }
        Expr::Scale(part, _) | Expr::Barrier(part, _) => all_start_at(part, start),
    }
}
