// The greatest worth that a part of an expression may have.
ghost use Rattle.std.specs.Prelude.{◌≡◌, ◌-◌, ◌^◌, min};
ghost use Rattle.tetri_strl.specs.Tree.{tree};
ghost use Rattle.tetri_strl.specs.WellMade.{peak};

use tetri_strl::{Expr, Leaf};

/// The greatest worth that a part of the expression may have, or the last number of its type where
/// that is less.
pub(crate) fn peak(e: &Expr) -> u64
    ensures { result ≡ min (2 ^ 64 - 1) (peak (tree e.now)) }
{
    match e {
        Expr::One(Leaf { v, .. }) => *v,
        Expr::Max(parts) => {
            let mut best: u64 = 0;
            for part in parts {
                best = best.max(peak(part));
            }
            best
        }
        Expr::Min(parts) => {
            let mut best: u64 = 0;
            for part in parts {
                best = best.max(peak(part));
            }
            best
        }
        Expr::Sum(parts) => {
            let mut sum: u64 = 0;
            for part in parts {
                sum = sum.saturating_add(peak(part));
            }
            sum
        }
        Expr::Scale(part, by) => by.saturating_mul(peak(part)),
        Expr::Barrier(part, least) => peak(part).max(*least),
    }
}
